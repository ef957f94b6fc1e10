//! The list of what a port did, which contracts alone see: what a pass knows of a queue of its own, to which nothing is pushed.
ghost use Rattle.std.specs.Prelude.{◌≡◌, ◌++◌, ◌∷◌, []};
ghost use Rattle.crossbeam_queue.specs.Passes.{view, IsPassOf, IsSamePass};
ghost use Rattle.mpx_bus.specs.declared.act.Act.TheVariants as A;

use crate::act::Act;
use crate::frame::Frame;
use crossbeam_queue::protocol::{Protocol, Split};
use crossbeam_queue::{Pass, RuledArrayQueue};
use mpx_board::Board;
use mpx_name::Name;
use mpx_post::Draft;
use std::alloc::Global;
use std::collections::LinkedList;
use std::marker::{Brand, PhantomData};

pub type Journal = LinkedList<Act>;

pub struct Anything;

impl Protocol<u8, Journal> for Anything {
    ghost use Rattle.std.specs.Prelude.{⊤, []};

    ghost holds = { λ items views. ⊤ };

    ghost first = { [] };
}

pub type EmptyQueue = RuledArrayQueue<u8, Journal, Anything, Global>;

pub type JournalPass = Pass<u8, Journal>;

/// What a port did. Each call that notes one picks it.
pub trait Noted {
    ghost use Rattle.mpx_bus.specs.declared.act.Act.{Act};

    ghost act: { Act };
}

impl Noted for Brand {
    ghost use Rattle.std.specs.Prelude.{[]};
    ghost use Rattle.mpx_bus.specs.declared.act.Act.TheVariants as A;

    ghost act = { A.Harvested [] };
}

// One act more.
pub struct Notes<N> {
    marker: PhantomData<N>,
}

impl<N: Noted> Split<Journal> for Notes<N> {
    ghost use Rattle.std.specs.Prelude.{◌++◌, ◌∷◌, []};

    ghost left = { λ v. v ++ N.act ∷ [] };

    ghost right = { λ v. [] };
}

// A second line, with one act more.
pub struct Tries<N> {
    marker: PhantomData<N>,
}

impl<N: Noted> Split<Journal> for Tries<N> {
    ghost use Rattle.std.specs.Prelude.{◌++◌, ◌∷◌, []};

    ghost left = { λ v. v };

    ghost right = { λ v. v ++ N.act ∷ [] };
}

// The line with a post more.
pub(crate) fn posted<N: Noted>(
    empty: &EmptyQueue,
    line: &mut JournalPass,
    name: &Name,
    draft: &Draft,
) -> JournalPass
    requires empty { IsPassOf empty.now line.old }
    requires act { N.act ≡ A.Posted name.now draft.now }
    ensures same { IsSamePass line.old line.new × (view line.new ≡ view line.old) }
    ensures made { IsPassOf empty.now result × (view result ≡ view line.old ++ A.Posted name.now draft.now ∷ []) }
{
    let _ = name;
    let _ = draft;
    empty.another::<Tries<N>>(line)
}

pub(crate) fn harvested<N: Noted>(empty: &EmptyQueue, line: &mut JournalPass, name: &Name)
    requires empty { IsPassOf empty.now line.old }
    requires act { N.act ≡ A.Harvested name.now }
    ensures same { IsSamePass line.old line.new }
    ensures noted { view line.new ≡ view line.old ++ A.Harvested name.now ∷ [] }
{
    let _ = name;
    let _ = empty.another::<Notes<N>>(line);
}

pub(crate) fn gathered<N: Noted>(
    empty: &EmptyQueue,
    line: &mut JournalPass,
    parent: &Name,
    tag: i128,
    ranks: &[i128],
)
    requires empty { IsPassOf empty.now line.old }
    requires act { N.act ≡ A.Gathered parent.now tag ranks.now }
    ensures same { IsSamePass line.old line.new }
    ensures noted { view line.new ≡ view line.old ++ A.Gathered parent.now tag ranks.now ∷ [] }
{
    let _ = parent;
    let _ = tag;
    let _ = ranks;
    let _ = empty.another::<Notes<N>>(line);
}

pub(crate) fn pruned<N: Noted>(empty: &EmptyQueue, line: &mut JournalPass, name: &Name, number: u32)
    requires empty { IsPassOf empty.now line.old }
    requires act { N.act ≡ A.Pruned name.now number }
    ensures same { IsSamePass line.old line.new }
    ensures noted { view line.new ≡ view line.old ++ A.Pruned name.now number ∷ [] }
{
    let _ = name;
    let _ = number;
    let _ = empty.another::<Notes<N>>(line);
}

pub(crate) fn forgot<N: Noted>(empty: &EmptyQueue, line: &mut JournalPass, name: &Name, below: u32)
    requires empty { IsPassOf empty.now line.old }
    requires act { N.act ≡ A.Forgot name.now below }
    ensures same { IsSamePass line.old line.new }
    ensures noted { view line.new ≡ view line.old ++ A.Forgot name.now below ∷ [] }
{
    let _ = name;
    let _ = below;
    let _ = empty.another::<Notes<N>>(line);
}

pub(crate) fn took<N: Noted>(empty: &EmptyQueue, line: &mut JournalPass, frame: &Frame)
    requires empty { IsPassOf empty.now line.old }
    requires act { N.act ≡ A.Took frame.now }
    ensures same { IsSamePass line.old line.new }
    ensures noted { view line.new ≡ view line.old ++ A.Took frame.now ∷ [] }
{
    let _ = frame;
    let _ = empty.another::<Notes<N>>(line);
}

pub(crate) fn stopped<N: Noted>(
    empty: &EmptyQueue,
    line: &mut JournalPass,
    frame: &Frame,
    left: &Board,
)
    requires empty { IsPassOf empty.now line.old }
    requires act { N.act ≡ A.StoppedTaking frame.now left.now }
    ensures same { IsSamePass line.old line.new }
    ensures noted { view line.new ≡ view line.old ++ A.StoppedTaking frame.now left.now ∷ [] }
{
    let _ = frame;
    let _ = left;
    let _ = empty.another::<Notes<N>>(line);
}

pub(crate) fn acknowledged<N: Noted>(empty: &EmptyQueue, line: &mut JournalPass, board: &Board)
    requires empty { IsPassOf empty.now line.old }
    requires act { N.act ≡ A.Acknowledged board.now }
    ensures same { IsSamePass line.old line.new }
    ensures noted { view line.new ≡ view line.old ++ A.Acknowledged board.now ∷ [] }
{
    let _ = board;
    let _ = empty.another::<Notes<N>>(line);
}

pub(crate) fn popped<N: Noted>(empty: &EmptyQueue, line: &mut JournalPass, frame: &Frame)
    requires empty { IsPassOf empty.now line.old }
    requires act { N.act ≡ A.Popped frame.now }
    ensures same { IsSamePass line.old line.new }
    ensures noted { view line.new ≡ view line.old ++ A.Popped frame.now ∷ [] }
{
    let _ = frame;
    let _ = empty.another::<Notes<N>>(line);
}

// The line with a push more.
pub(crate) fn pushed<N: Noted>(
    empty: &EmptyQueue,
    line: &mut JournalPass,
    frame: &Frame,
) -> JournalPass
    requires empty { IsPassOf empty.now line.old }
    requires act { N.act ≡ A.Pushed frame.now }
    ensures same { IsSamePass line.old line.new × (view line.new ≡ view line.old) }
    ensures made { IsPassOf empty.now result × (view result ≡ view line.old ++ A.Pushed frame.now ∷ []) }
{
    let _ = frame;
    empty.another::<Tries<N>>(line)
}
