//! The communicator of a group that its members give.
ghost use Rattle.std.specs.Prelude.{◌≡◌, ◌<◌, IfOk, length};
ghost use Rattle.mpx_post.specs.Agreement.{IsFine};
ghost use Rattle.mpx_post.specs.Drafts.{most_calls, most_steps};
ghost use Rattle.mpx_value.specs.Children.{created, leads as leads_group, named_children};

use crate::births::{child, processes};
use join_core::OutOfMemory;
use mpx_birth::Birth;
use mpx_name::Name;
use mpx_post::Row;
use std::alloc::Global;

// The communicators of `MPI_COMM_CREATE`: one for each group, which the first of its members leads.
pub(crate) fn created(
    alloc: Global,
    birth: &Birth,
    row: &Row<'_>,
    name: &Name,
    call: u32,
) -> Result<Vec<(Name, Birth)>, OutOfMemory>
    requires fine { IsFine row.now }
    requires room { length name.now < most_steps }
    requires members { length row.now ≡ length birth.now.members }
    requires call { call < most_calls }
    ensures { IfOk result (λ made. made.items ≡ named_children name.now call (created birth.now row.now)) }
{
    let mut made = Vec::new(alloc);
    for rank in 0..row.len() {
        if leads(row, rank) {
            let members = processes(alloc, birth, row.post(rank).group())?;
            made.push(child(alloc, name, call, rank as u32, members)?)?;
        }
    }
    Ok(made)
}

// Whether the member with this rank leads the group that it gives.
fn leads(row: &Row<'_>, rank: usize) -> bool
    requires { rank < length row.now }
    ensures { result ≡ leads_group row.now rank }
{
    match row.post(rank).group().first() {
        None => false,
        Some(&first) => usize::from(first) == rank,
    }
}
