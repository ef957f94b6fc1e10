//! What a rank's statements that post come to.
ghost use Rattle.std.specs.Prelude.{◌≡◌, ℕ, Some, length};
ghost use Rattle.std.specs.Option.{option_copied};
ghost use Rattle.mpx_birth.specs.Births.{of_members};
ghost use Rattle.mpx_post.specs.Gatherings.{ChecksGathering, gathering};
ghost use Rattle.mpx_meaning.specs.Ranks.{post_gathered};
ghost use Rattle.mpx_value.specs.Histories.{birth_of, has_freed, history_of};
ghost use Rattle.mpx_rank.specs.Places.{attempt_by};
ghost use Rattle.mpx_eval.specs.Places.{IsBornSo, gathering_name};
ghost use Rattle.mpx_eval.specs.Tables.{Posted, TableShows, TableTries, TriesOn, table_of};

use crate::table::Table;
use join_core::Exact;
use mpx_birth::Birth;
use mpx_group::Proc;
use mpx_name::Name;
use mpx_num::{Listing, Ops};
use mpx_post::{Draft, Gathering, PostError};
use mpx_statement::Posting;
use std::alloc::Global;

/// What a statement of a process comes to on the communicator that its word is bound to: the context and the number of the
/// call, or the refusal.
pub(crate) fn attempt(
    alloc: Global,
    table: &mut Table,
    me: Proc,
    on: Option<&(Name, Birth)>,
    posting: &Posting,
    ops: &Ops,
) -> Result<(Name, u32), PostError>
    ensures { (ranks : ℕ) (made : Posted) → TableShows (⟦<Ops as Listing>⟧.operations ops.now) ranks (table_of table.old) made → IsBornSo (⟦<Ops as Listing>⟧.operations ops.now) ranks made (option_copied on.entry)
        → TableTries (⟦<Ops as Listing>⟧.operations ops.now) ranks made me (attempt_by (⟦<Ops as Listing>⟧.operations ops.now) me (made me) posting.now (option_copied on.entry)) result (table_of table.new) }
{
    let Some(there) = on else {
        return Err(PostError::NotMember);
    };
    let (name, birth) = (&there.0, &there.1);
    let Ok(draft) = posting.draft() else {
        return Err(PostError::OutOfMemory);
    };
    match posting {
        Posting::Call { .. } => post_on(alloc, table, me, name, birth, draft, ops),
        Posting::Start { .. } => post_on(alloc, table, me, name, birth, draft, ops),
        Posting::New { .. } => post_on(alloc, table, me, name, birth, draft, ops),
        Posting::CreateGroup { tag, ranks, .. } => {
            post_gathered(
                alloc,
                table,
                me,
                name,
                birth,
                tag,
                ranks.as_slice(),
                draft,
                ops,
            )
        }
    }
}

// A post on a context.
fn post_on(
    alloc: Global,
    table: &mut Table,
    me: Proc,
    name: &Name,
    birth: &Birth,
    draft: Draft,
    ops: &Ops,
) -> Result<(Name, u32), PostError>
    ensures { TriesOn (⟦<Ops as Listing>⟧.operations ops.now) me draft name.now birth.now result (table_of table.old) (table_of table.new) }
{
    match name.copy(alloc) {
        Ok(name) => table.post(alloc, me, name, birth, draft, ops),
        Err(_) => {
            drop(draft);
            Err(PostError::OutOfMemory)
        }
    }
}

// A post on the gathering of members of a context with these ranks.
fn post_gathered(
    alloc: Global,
    table: &mut Table,
    me: Proc,
    parent: &Name,
    birth: &Birth,
    tag: &i128,
    ranks: &[i128],
    draft: Draft,
    ops: &Ops,
) -> Result<(Name, u32), PostError>
    ensures { (count : ℕ) (made : Posted) → TableShows (⟦<Ops as Listing>⟧.operations ops.now) count (table_of table.old) made → birth_of (history_of (⟦<Ops as Listing>⟧.operations ops.now) made) count parent.now ≡ Some birth.now
        → TableTries (⟦<Ops as Listing>⟧.operations ops.now) count made me (post_gathered (⟦<Ops as Listing>⟧.operations ops.now) me (made me) draft parent.now (gathering birth.now me (length parent.now) (has_freed parent.now (made me)) tag.now ranks.now)) result (table_of table.new) }
{
    let closed = table.has_freed(me, parent);
    match gathered(alloc, birth, me, parent, closed, tag, ranks) {
        Ok(gathering) => post_below(alloc, table, me, parent, &gathering, draft, ops),
        Err(refusal) => {
            drop(draft);
            Err(refusal)
        }
    }
}

// The gathering of members of a context with these ranks, where the process has posted a free or not.
fn gathered(
    alloc: Global,
    birth: &Birth,
    me: Proc,
    parent: &Name,
    closed: bool,
    tag: &i128,
    ranks: &[i128],
) -> Result<Gathering, PostError>
    ensures { ChecksGathering (gathering birth.now me (length parent.now) closed tag.now ranks.now) result }
{
    Gathering::check(alloc, birth, me, parent.depth(), closed, *tag, ranks)
}

// A post on this gathering below a context.
fn post_below(
    alloc: Global,
    table: &mut Table,
    me: Proc,
    parent: &Name,
    gathering: &Gathering,
    draft: Draft,
    ops: &Ops,
) -> Result<(Name, u32), PostError>
    ensures { TriesOn (⟦<Ops as Listing>⟧.operations ops.now) me draft (gathering_name parent.now gathering.now) (of_members gathering.now.members) result (table_of table.old) (table_of table.new) }
{
    let Ok(name) = parent.gathering(alloc, gathering.tag(), gathering.members()) else {
        drop(draft);
        return Err(PostError::OutOfMemory);
    };
    match gathering.birth(alloc) {
        Ok(birth) => table.post(alloc, me, name, &birth, draft, ops),
        Err(_) => {
            drop(draft);
            drop(name);
            Err(PostError::OutOfMemory)
        }
    }
}
