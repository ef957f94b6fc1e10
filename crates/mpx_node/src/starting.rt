//! What is there before any call: of a process, and of a gathering that is opened.
ghost use Rattle.std.specs.Prelude.{◌≡◌, ◌<◌, ◌≤◌, [], IfOk};
ghost use Rattle.join_core.specs.Flat.{known};
ghost use Rattle.mpx_name.specs.Name.{Name as NameView};
ghost use Rattle.mpx_birth.specs.Births.{of_members, upto};
ghost use Rattle.mpx_board.specs.Boards.{Born, join, only};
ghost use Rattle.mpx_board.specs.Looks.{look};
ghost use Rattle.mpx_board.specs.Prepared.{IsReady};
ghost use Rattle.mpx_node.specs.Nodes.{opened_at_start};
ghost use Rattle.mpx_node.specs.Opened.{opened_by};

use crate::opened::Opened;
use join_core::OutOfMemory;
use mpx_birth::Birth;
use mpx_board::{Board, Prepared};
use mpx_group::Proc;
use mpx_name::Name;
use mpx_post::Gathering;
use std::alloc::Global;
use std::collections::BTreeMap;

// A board that has just the birth of the world.
pub fn board_at_start(alloc: Global, ranks: u8) -> Result<Board, OutOfMemory>
    requires some { 0 < ranks }
    requires few { ranks ≤ 64 }
    ensures { IfOk result (λ board. look board ≡ only (Born [] (known (of_members (upto ranks))))) }
{
    let world = Name::world(alloc);
    let mut board = Board::new(alloc);
    board.add_birth(alloc, &world, Birth::world(alloc, ranks)?)?;
    Ok(board)
}

// Makes the birth of a gathering of this name ready to be joined. The board stays the same.
pub fn prepared_gathering(
    alloc: Global,
    board: &mut Board,
    name: &Name,
    gathering: &Gathering,
) -> Result<Prepared, OutOfMemory>
    ensures same { look board.new ≡ look board.old }
    ensures ready { IfOk result (λ prepared. IsReady prepared board.new (join (look board.old) (only (Born name.now (known (of_members gathering.now.members)))))) }
{
    let mut part = Board::new(alloc);
    part.add_birth(alloc, name, gathering.birth(alloc)?)?;
    board.prepare(alloc, &part)
}

// The world, where the process is a rank.
pub fn opened_at_start(
    alloc: Global,
    me: Proc,
    ranks: u8,
) -> Result<BTreeMap<Name, Opened>, OutOfMemory>
    ensures { IfOk result (λ m. (name : NameView) → opened_by m name ≡ opened_at_start me ranks name) }
{
    let mut opened = BTreeMap::new(alloc);
    if me.number() >= ranks {
        return Ok(opened);
    }
    opened.insert(Name::world(alloc), Opened::new(alloc))?;
    Ok(opened)
}
