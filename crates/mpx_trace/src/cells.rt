//! What a table shows of a rank: its newest call, and whose posts to that call it has.

use join_core::Exact;
use join_nest::Lift;
use mpx_board::Board;
use mpx_group::Proc;
use mpx_name::Name;
use std::alloc::Global;
use std::io;

/// The mark of a rank whose post is here.
pub(crate) const HERE: u8 = b'#';

/// The mark of a rank whose post is missing.
pub(crate) const MISSING: u8 = b'.';

/// The mark of a rank that isn't in the call's communicator.
pub(crate) const OUTSIDE: u8 = b'-';

/// The mark where it isn't known who is in the communicator.
pub(crate) const UNKNOWN: u8 = b' ';

/// A call, with a mark for each process.
#[derive(Drop)]
pub(crate) struct Call {
    name: Name,
    number: u32,
    marks: [u8; 64],
}

impl Call {
    // Of whose posts nothing is known. Each rank is in `world`.
    fn new(name: Name, number: u32) -> Call {
        let mark = if name.depth() == 0 { MISSING } else { UNKNOWN };
        Call {
            name,
            number,
            marks: [mark; 64],
        }
    }

    // This process has posted it.
    fn has(&mut self, process: u8) {
        if let Some(mark) = self.marks.get_mut(usize::from(process)) {
            *mark = HERE;
        }
    }

    // These are all members of its communicator.
    fn is_of(&mut self, members: &[Proc]) {
        for mark in &mut self.marks {
            if *mark == UNKNOWN || *mark == MISSING {
                *mark = OUTSIDE;
            }
        }
        for member in members {
            if let Some(mark) = self.marks.get_mut(usize::from(member.number())) {
                if *mark == OUTSIDE {
                    *mark = MISSING;
                }
            }
        }
    }

    // Takes over the marks that are newer; those of posts stay.
    fn join(&mut self, newer: &Call) {
        for place in 0..64 {
            if self.marks[place] != HERE {
                self.marks[place] = newer.marks[place];
            }
        }
    }
}

/// What a table shows of a rank.
#[derive(Drop)]
pub(crate) struct Cell {
    /// The line of the script where it makes its newest call, and 0 before it makes one.
    pub(crate) line: u32,
    /// Whether it made that call after the last row.
    pub(crate) is_new: bool,
    newest: Option<Call>,
    // The calls that its board held when it last took a frame.
    held: Vec<Call>,
}

impl Cell {
    /// Of a rank that has made no call.
    pub(crate) fn new(alloc: Global) -> Cell {
        Cell {
            line: 0,
            is_new: false,
            newest: None,
            held: Vec::new(alloc),
        }
    }

    /// The marks of its newest call.
    pub(crate) fn marks(&self) -> Option<&[u8]> {
        match &self.newest {
            None => None,
            Some(call) => Some(&call.marks),
        }
    }

    /// Whether it has the posts of all members to its newest call.
    pub(crate) fn is_full(&self, ranks: usize) -> bool {
        match &self.newest {
            None => false,
            Some(call) => {
                let marks = call.marks.get(..ranks).unwrap_or(&[]);
                !marks
                    .iter()
                    .any(|mark| *mark == MISSING || *mark == UNKNOWN)
            }
        }
    }

    /// The rank posts a call, by this line of the script.
    pub(crate) fn post(
        &mut self,
        alloc: Global,
        rank: u8,
        name: &Name,
        number: u32,
        line: u32,
    ) -> io::Result<()> {
        let mut call = Call::new(copied(alloc, name)?, number);
        for held in &self.held {
            if held.number == number && held.name == *name {
                call.join(held);
            }
        }
        call.has(rank);
        self.line = line;
        self.is_new = true;
        self.newest = Some(call);
        Ok(())
    }

    /// The rank took a frame, and has this board now.
    pub(crate) fn meet(&mut self, alloc: Global, board: &Board) -> io::Result<()> {
        self.held.clear();
        for (name, known) in board.pair().first.entries() {
            if let Lift::Live(entry) = known {
                for (number, posts) in entry.second.second.entries() {
                    let mut call = Call::new(copied(alloc, name)?, *number);
                    if let Some(birth) = board.birth(name) {
                        call.is_of(birth.members());
                    }
                    for (process, _) in posts.entries() {
                        call.has(process.number());
                    }
                    self.held.push(call)?;
                }
            }
        }
        if let Some(newest) = &mut self.newest {
            for held in &self.held {
                if held.number == newest.number && held.name == newest.name {
                    newest.join(held);
                }
            }
        }
        Ok(())
    }
}

// The same name.
fn copied(alloc: Global, name: &Name) -> io::Result<Name> {
    match name.copy(alloc) {
        Ok(name) => Ok(name),
        Err(_) => Err(io::Error::from(io::ErrorKind::OutOfMemory)),
    }
}
