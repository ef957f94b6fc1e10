//! Whether members of a group give the same group.
ghost use Rattle.std.specs.Prelude.{◌≡◌, nat_eq};
ghost use lib.Pointwise.{pointwise};
ghost use Rattle.mpx_post.specs.Posts.{group_of};
ghost use Rattle.mpx_post.specs.Agreement.{post_at};
ghost use Rattle.mpx_match.specs.Questions.{groups_differ as differ};

use mpx_post::{Post, Row};

/// Whether some member of the group that the post gives gives another one.
pub(crate) fn groups_differ(row: &Row<'_>, post: &Post) -> bool
    ensures { result ≡ differ row.now post.now }
{
    let group = post.group();
    group.iter().any(|&member| !gives(row, member, group))
}

// Whether the member with this rank gives this group.
fn gives(row: &Row<'_>, member: u8, group: &[u8]) -> bool
    ensures { result ≡ pointwise nat_eq (group_of (post_at row.now member)) group.now }
{
    if usize::from(member) < row.len() {
        row.post(usize::from(member)).group() == group
    } else {
        group.is_empty()
    }
}
