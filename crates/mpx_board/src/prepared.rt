//! A part that is made ready before it is joined, so that the join takes no memory.
ghost use Rattle.std.specs.Prelude.{◌≡◌, ℕ, IfOk};
ghost use Rattle.std.specs.FinMap.{get};
ghost use Rattle.join_nest.specs.Prepared.{joined_there, put_over};
ghost use Rattle.join_nest.specs.Room.{HasRoom};
ghost use Rattle.mpx_name.specs.Name.{Name as NameView};
ghost use Rattle.mpx_board.specs.Boards.{Look, join};
ghost use Rattle.mpx_board.specs.Parts.{acks_joining, lifted_joining};
ghost use Rattle.mpx_board.specs.Views.{view_of_all_acks, view_of_entries};

use crate::board::Board;
use crate::nested::{Digest, Lifted};
use join_core::OutOfMemory;
use join_nest::Keyed;
use mpx_group::Proc;
use mpx_name::Name;
use std::alloc::Global;

/// A part that is ready to be joined: [`Board::prepare`] makes it, [`Board::put_prepared`] joins it, which takes no memory.
#[derive(Debug, Drop)]
pub struct Prepared {
    contexts: Keyed<Name, Lifted>,
    acks: Keyed<Proc, Digest>,
}

impl Board {
    ghost use Rattle.mpx_board.specs.Looks.{look, parts_of};
    ghost use Rattle.mpx_board.specs.Prepared.{IsReady, OnlyNamedBy};

    /// Makes what joins the part to this board as it stands, and room for it: only what the part names is copied. The board
    /// stays the same.
    pub fn prepare(&mut self, alloc: Global, part: &Board) -> Result<Prepared, OutOfMemory>
        ensures same { parts_of self.new ≡ parts_of self.old }
        ensures ready { IfOk result (λ made. IsReady made self.new (join (look self.old) (look part.now))) }
        ensures named { IfOk result (λ made. OnlyNamedBy made (parts_of part.now)) }
    {
        let contexts = prepare_contexts(alloc, &mut self.inside.first, &part.inside.first)?;
        let acks = prepare_acks(alloc, &mut self.inside.second, &part.inside.second)?;
        Ok(Prepared { contexts, acks })
    }

    /// Joins the part that was prepared for this board as it stands. It takes no memory and can't fail.
    pub fn put_prepared(&mut self, prepared: Prepared)
        requires { (new : Look) × IsReady prepared self.old new }
        ensures { (new : Look) → IsReady prepared self.old new → look self.new ≡ new }
    {
        put_contexts(&mut self.inside.first, prepared.contexts);
        put_acks(&mut self.inside.second, prepared.acks);
    }
}

fn prepare_contexts(
    alloc: Global,
    contexts: &mut Keyed<Name, Lifted>,
    other: &Keyed<Name, Lifted>,
) -> Result<Keyed<Name, Lifted>, OutOfMemory>
    ensures same { view_of_entries contexts.new ≡ view_of_entries contexts.old }
    ensures made { IfOk result (λ made. (name : NameView) → get (view_of_entries made) name
        ≡ joined_there lifted_joining (get (view_of_entries other.now) name) (get (view_of_entries contexts.old) name)) }
    ensures room { IfOk result (λ made. HasRoom contexts.new made) }
{
    contexts.prepare(alloc, other)
}

fn prepare_acks(
    alloc: Global,
    acks: &mut Keyed<Proc, Digest>,
    other: &Keyed<Proc, Digest>,
) -> Result<Keyed<Proc, Digest>, OutOfMemory>
    ensures same { view_of_all_acks acks.new ≡ view_of_all_acks acks.old }
    ensures made { IfOk result (λ made. (process : ℕ) → get (view_of_all_acks made) process
        ≡ joined_there acks_joining (get (view_of_all_acks other.now) process) (get (view_of_all_acks acks.old) process)) }
    ensures room { IfOk result (λ made. HasRoom acks.new made) }
{
    acks.prepare(alloc, other)
}

fn put_contexts(contexts: &mut Keyed<Name, Lifted>, made: Keyed<Name, Lifted>)
    requires { HasRoom contexts.old made }
    ensures { (name : NameView) → get (view_of_entries contexts.new) name
        ≡ put_over (get (view_of_entries made) name) (get (view_of_entries contexts.old) name) }
{
    contexts.put_prepared(made)
}

fn put_acks(acks: &mut Keyed<Proc, Digest>, made: Keyed<Proc, Digest>)
    requires { HasRoom acks.old made }
    ensures { (process : ℕ) → get (view_of_all_acks acks.new) process
        ≡ put_over (get (view_of_all_acks made) process) (get (view_of_all_acks acks.old) process) }
{
    acks.put_prepared(made)
}
