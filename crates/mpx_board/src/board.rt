//! What a process knows of all contexts, and how it is changed in place.
ghost use Rattle.std.specs.Prelude.{◌≡◌, ◌↔◌, ◌<◌, ◌≤◌, true, false, map, IfOk, OnOk, OnErr, IsErrOf, MatchOption, IsTrue};
ghost use Rattle.std.specs.FinMap.{get, insert};
ghost use Rattle.std.specs.Option.{option_copied, option_map};
ghost use Rattle.join_core.specs.Flat.{known as knows};
ghost use Rattle.mpx_board.specs.declared.errors.AddPostError.TheVariants as A;
ghost use Rattle.mpx_board.specs.Boards.{IsBoardBelow, IsBetween, empty, join, join_all, only, Born, Front, Held, Dropped, Dead};
ghost use Rattle.mpx_board.specs.Changes.{is_posted, killed, pruned_on, cut_to};
ghost use Rattle.mpx_board.specs.Contexts.{live_of};
ghost use Rattle.mpx_post.specs.Drafts.{most_calls};
ghost use Rattle.mpx_board.specs.Tidy.{is_tidy};
ghost use Rattle.mpx_board.specs.Views.{view_of_entries, view_of_entry, view_of_lifted, view_of_parts};

use crate::copies::copied_acks;
use crate::errors::{AddPostError, KillError, PruneError};
use crate::fact::{Fact, bury, drop_posts, tell};
use crate::joins::{
    copied_entries, delta_of_acks, delta_of_entries, join_parts_in, joined_acks, joined_entries,
    leq_acks, leq_entries, same_acks, same_entries,
};
use crate::nested::{Entry, Lifted, Parts, is_tidy_board};
use join_core::{Exact, Join, OutOfMemory, Pair};
use join_nest::{Keyed, Lift};
use mpx_birth::Birth;
use mpx_group::Proc;
use mpx_name::Name;
use mpx_post::Post;
use std::alloc::Global;

/// What a process knows of all contexts: births, how many calls each process has harvested, and the posts of calls at or
/// above a dropped front, or that a context is dead; and what each process says that it has of the posts of others.
///
/// No part of a board says nothing: there is no empty entry, no unknown post, and no number 0. So two boards that know
/// the same are equal.
#[derive(Debug, Drop)]
pub struct Board {
    pub(crate) inside: Parts,
    ghost tidy: { IsTrue (is_tidy (view_of_parts inside)) },
}

impl Exact for Board {
    ghost use Rattle.mpx_board.specs.Parts.{PartsView, same_parts, parts_between, parts_joining, parts_equality};
    ghost use Rattle.mpx_board.specs.Looks.{parts_of};

    ghost View = { PartsView };

    ghost view = { parts_of };

    ghost equal = { same_parts };

    ghost joining = { parts_joining };

    ghost between = { parts_between };

    fn same(&self, other: &Board) -> bool {
        same_entries(&self.inside.first, &other.inside.first)
            && same_acks(&self.inside.second, &other.inside.second)
    }

    fn copy(&self, alloc: Global) -> Result<Board, OutOfMemory> {
        let first = copied_entries(alloc, &self.inside.first)?;
        let second = copied_acks(alloc, &self.inside.second)?;
        let inside = Pair { first, second };
        Ok(Board { inside })
    }

    ghost equality = { parts_equality };
}

impl Join for Board {
    ghost use Rattle.mpx_board.specs.Parts.{parts_between_laws, parts_laws};

    fn leq(&self, other: &Board) -> bool {
        leq_entries(&self.inside.first, &other.inside.first)
            && leq_acks(&self.inside.second, &other.inside.second)
    }

    fn joined(&self, alloc: Global, other: &Board) -> Result<Board, OutOfMemory> {
        let first = joined_entries(alloc, &self.inside.first, &other.inside.first)?;
        let second = joined_acks(alloc, &self.inside.second, &other.inside.second)?;
        let inside = Pair { first, second };
        Ok(Board { inside })
    }

    fn delta(&self, alloc: Global, known: &Board) -> Result<Board, OutOfMemory> {
        let first = delta_of_entries(alloc, &self.inside.first, &known.inside.first)?;
        let second = delta_of_acks(alloc, &self.inside.second, &known.inside.second)?;
        let inside = Pair { first, second };
        Ok(Board { inside })
    }

    fn join_in(&mut self, alloc: Global, other: &Board) -> Result<(), OutOfMemory> {
        join_parts_in(alloc, &mut self.inside, &other.inside)
    }

    ghost laws = { parts_laws };

    ghost between_laws = { parts_between_laws };
}

impl Board {
    ghost use Rattle.mpx_board.specs.Looks.{look, parts_of};

    /// The board that knows nothing.
    pub fn new(alloc: Global) -> Board
        ensures { look result ≡ empty }
    {
        Board {
            inside: Pair {
                first: Keyed::new(alloc),
                second: Keyed::new(alloc),
            },
        }
    }

    /// The board with these parts; none where a part of them says nothing or there is a call 4,294,967,295. It takes no
    /// memory.
    pub fn of(parts: Parts) -> Option<Board>
        ensures { MatchOption result
            (is_tidy (view_of_parts parts) ≡ false)
            (λ board. (is_tidy (view_of_parts parts) ≡ true) × (parts_of board ≡ view_of_parts parts)) }
    {
        if is_tidy_board(&parts) {
            Some(Board { inside: parts })
        } else {
            None
        }
    }

    /// The board with these parts, none of which says nothing, and without a call 4,294,967,295. It takes no memory and asks
    /// nothing of the parts.
    pub fn from_tidy(parts: Parts) -> Board
        requires { IsTrue (is_tidy (view_of_parts parts)) }
        ensures { parts_of result ≡ view_of_parts parts }
    {
        Board { inside: parts }
    }

    /// What stands inside: the entries of contexts by name, and the acknowledgements by process.
    pub fn pair(&self) -> &Parts
        ensures value { view_of_parts result.now ≡ parts_of self.now }
        ensures tidy { IsTrue (is_tidy (parts_of self.now)) }
    {
        &self.inside
    }

    /// What stands inside, moved out of the board. It takes no memory.
    pub fn into_pair(self) -> Parts
        ensures value { view_of_parts result ≡ parts_of self }
        ensures tidy { IsTrue (is_tidy (view_of_parts result)) }
    {
        self.inside
    }

    /// Joins a part to the board, in place: only what is new takes memory, and a part that is below the board takes none. An
    /// `Err` leaves a board between the old one and the join, each fact of which is one of the board, of the part or of their
    /// join.
    pub fn take(&mut self, alloc: Global, part: &Board) -> Result<(), OutOfMemory>
        ensures ok { OnOk result (look self.new ≡ join (look self.old) (look part.now)) }
        ensures err { OnErr result (IsBetween (look self.old) (look part.now) (look self.new)) }
        ensures more { OnErr result (¬ (IsBoardBelow (look part.now) (look self.old))) }
    {
        self.join_in(alloc, part)
    }

    /// Joins to the board that the process made this post as this call. An `Err` changes nothing, and a dead context wants no
    /// memory.
    pub fn join_post(
        &mut self,
        alloc: Global,
        name: &Name,
        call: u32,
        process: Proc,
        post: Post,
    ) -> Result<(), OutOfMemory>
        requires { call < most_calls }
        ensures ok { OnOk result (look self.new ≡ join (look self.old) (only (Held name.now call process (knows post)))) }
        ensures err { OnErr result (look self.new ≡ look self.old) }
        ensures memory { OnErr result (((look self.old).contexts name.now).dead ≡ false) }
    {
        tell(
            alloc,
            &mut self.inside.first,
            name,
            Fact::Post {
                call,
                process,
                post,
            },
        )
    }

    /// Joins to the board that the process made this post as this call, where nothing is told of that yet. An `Err`
    /// changes nothing.
    pub fn add_post(
        &mut self,
        alloc: Global,
        name: &Name,
        call: u32,
        process: Proc,
        post: Post,
    ) -> Result<(), AddPostError>
        requires { call < most_calls }
        ensures posted { IsErrOf result A.AlreadyPosted ↔ (is_posted ((look self.old).contexts name.now) call process ≡ true) }
        ensures ok { OnOk result (look self.new ≡ join (look self.old) (only (Held name.now call process (knows post)))) }
        ensures err { OnErr result (look self.new ≡ look self.old) }
    {
        if self.is_posted(name, call, process) {
            return Err(AddPostError::AlreadyPosted);
        }
        Ok(self.join_post(alloc, name, call, process, post)?)
    }

    /// Joins to the board how the context came to be. An `Err` changes nothing, and a dead context wants no memory.
    pub fn add_birth(&mut self, alloc: Global, name: &Name, birth: Birth) -> Result<(), OutOfMemory>
        ensures ok { OnOk result (look self.new ≡ join (look self.old) (only (Born name.now (knows birth)))) }
        ensures err { OnErr result (look self.new ≡ look self.old) }
        ensures memory { OnErr result (((look self.old).contexts name.now).dead ≡ false) }
    {
        tell(alloc, &mut self.inside.first, name, Fact::Birth(birth))
    }

    /// Joins to the board that the process has harvested so many calls. An `Err` changes nothing, and a dead context wants no
    /// memory.
    pub fn raise_front(
        &mut self,
        alloc: Global,
        name: &Name,
        process: Proc,
        number: u32,
    ) -> Result<(), OutOfMemory>
        ensures ok { OnOk result (look self.new ≡ join (look self.old) (only (Front name.now process number))) }
        ensures err { OnErr result (look self.new ≡ look self.old) }
        ensures memory { OnErr result (((look self.old).contexts name.now).dead ≡ false) }
    {
        if number == 0 {
            return Ok(());
        }
        tell(
            alloc,
            &mut self.inside.first,
            name,
            Fact::Front { process, number },
        )
    }

    /// The acknowledgements alone.
    pub fn only_acks(&self, alloc: Global) -> Result<Board, OutOfMemory>
        ensures { IfOk result (λ made. look made ≡ record empty { acks = (look self.now).acks }) }
    {
        let second = copied_acks(alloc, &self.inside.second)?;
        Ok(Board {
            inside: Pair {
                first: Keyed::new(alloc),
                second,
            },
        })
    }

    /// The contexts of this board with the acknowledgements of the other. It takes no memory.
    pub fn with_acks(self, other: Board) -> Board
        ensures { look result ≡ record (look self) { acks = (look other).acks } }
    {
        Board {
            inside: Pair {
                first: self.inside.first,
                second: other.inside.second,
            },
        }
    }

    /// Drops the posts of calls below the number, which is at most the floor: what every member has harvested nobody
    /// needs. At or below the dropped front it changes nothing, and on a dead context neither. It takes no memory.
    pub fn prune(&mut self, name: &Name, number: u32) -> Result<(), PruneError>
        ensures answer { result ≡ pruned_on (look self.old) name.now number }
        ensures ok { OnOk result (look self.new ≡ join (look self.old) (only (Dropped name.now number))) }
        ensures dropped { number ≤ ((look self.old).contexts name.now).dropped → look self.new ≡ look self.old }
        ensures err { OnErr result (look self.new ≡ look self.old) }
    {
        if self.is_dead(name) {
            return Ok(());
        }
        match self.floor(name) {
            None => return Err(PruneError::NoBirth),
            Some(floor) => {
                if floor < number {
                    return Err(PruneError::AboveFloor(floor));
                }
            }
        }
        drop_posts(&mut self.inside.first, name, number);
        Ok(())
    }

    /// Joins to the board that the context is dead: it was freed, and all that was known of it is gone for good. A context
    /// that is dead already stays so. It takes no memory.
    pub fn kill(&mut self, name: &Name) -> Result<(), KillError>
        ensures answer { result ≡ killed ((look self.old).contexts name.now) }
        ensures ok { OnOk result (look self.new ≡ join (look self.old) (only (Dead name.now))) }
        ensures dead { ((look self.old).contexts name.now).dead ≡ true → look self.new ≡ look self.old }
        ensures err { OnErr result (look self.new ≡ look self.old) }
    {
        if self.is_dead(name) {
            return Ok(());
        }
        match self.birth(name) {
            None => return Err(KillError::NoBirth),
            Some(_) => {}
        }
        bury(&mut self.inside.first, name);
        Ok(())
    }

    /// What is known of these contexts, and nothing else; acknowledgements are left out.
    pub fn cut(&self, alloc: Global, names: &[Name]) -> Result<Board, OutOfMemory>
        ensures { IfOk result (λ made. look made ≡ cut_to names.now (look self.now)) }
    {
        let mut first = Keyed::new(alloc);
        for name in names {
            if let Some(known) = self.lifted(name) {
                put_copy(alloc, &mut first, name, known)?;
            }
        }
        Ok(Board {
            inside: Pair {
                first,
                second: Keyed::new(alloc),
            },
        })
    }

    /// The least board above all of these.
    pub fn take_all(alloc: Global, boards: &[Board]) -> Result<Board, OutOfMemory>
        ensures { IfOk result (λ made. look made ≡ join_all (map look boards.now)) }
    {
        let mut made = Board::new(alloc);
        for board in boards {
            made.take(alloc, board)?;
        }
        Ok(made)
    }

    // What is known of the context with this name. Whoever looks into the map itself pays for its nested types.
    pub(crate) fn lifted(&self, name: &Name) -> Option<&Lifted>
        ensures { option_map view_of_lifted (option_copied result) ≡ get (parts_of self.now).0 name.now }
    {
        self.inside.first.get_from_ends(name)
    }

    // The entry of the context with this name, where it is live.
    pub(crate) fn entry(&self, name: &Name) -> Option<&Entry>
        ensures { option_map view_of_entry (option_copied result) ≡ live_of (get (parts_of self.now).0 name.now) }
    {
        match self.lifted(name) {
            None => None,
            Some(known) => live(known),
        }
    }
}

// The entry, where it is live.
fn live(known: &Lifted) -> Option<&Entry>
    ensures { option_map view_of_entry (option_copied result) ≡ live_of (Some (view_of_lifted known.now)) }
{
    match known {
        Lift::Live(entry) => Some(entry),
        Lift::Dead => None,
    }
}

// Puts a copy of what is known under a copy of the name.
fn put_copy(
    alloc: Global,
    entries: &mut Keyed<Name, Lifted>,
    name: &Name,
    known: &Lifted,
) -> Result<(), OutOfMemory>
    ensures { OnOk result (view_of_entries entries.new ≡ insert (view_of_entries entries.old) name.now (view_of_lifted known.now)) }
{
    entries.put(name.copy(alloc)?, known.copy(alloc)?)
}
