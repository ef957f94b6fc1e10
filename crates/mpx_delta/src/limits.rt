//! The limits that types keep, by which a frame of one piece is short.
ghost use Rattle.std.specs.Prelude.{◌≡◌, ◌≤◌, length, reverse};
ghost use Rattle.std.specs.FinMap.{entries};
ghost use Rattle.join_core.specs.Flat.{known as knows};
ghost use Rattle.join_core.specs.FlatSeen.{flat_view};
ghost use Rattle.mpx_name.specs.Name.{IsName};
ghost use Rattle.mpx_birth.specs.Births.{BirthView};
ghost use Rattle.mpx_post.specs.Posts.{Given};
ghost use Rattle.mpx_board.specs.Views.{view_of_numbers};
ghost use Rattle.mpx_delta.specs.Limits.{IsShortBirth, IsShortPost};

use join_core::Flat;
use mpx_birth::Birth;
use mpx_board::VersionVector;
use mpx_name::Name;
use mpx_post::Post;

// The steps of a name are within their limits.
pub fn short_name(name: &Name)
    ensures { IsName (reverse name.now) }
{
    let _steps = name.steps();
}

// The lists of a post are.
pub fn short_post(post: &Flat<Post>)
    ensures { (given : Given) → flat_view (λ v. v) post.now ≡ knows given → IsShortPost given }
{
    if let Flat::Known(post) = post {
        within_limits(post);
    }
}

fn within_limits(post: &Post)
    ensures { IsShortPost post.now }
{
    let _sent = post.scounts().as_slice();
    let _received = post.rcounts().as_slice();
    let _items = post.items();
    let _group = post.group();
    let _edges = post.edges();
    let _sources = post.sources();
}

// So are the members and the topology of a birth.
pub fn short_birth(birth: &Flat<Birth>)
    ensures { (made : BirthView) → flat_view (λ v. v) birth.now ≡ knows made → IsShortBirth made }
{
    if let Flat::Known(birth) = birth {
        few_members(birth);
    }
}

fn few_members(birth: &Birth)
    ensures { IsShortBirth birth.now }
{
    let _members = birth.members();
    let _topology = birth.topology();
}

// There are at most 64 processes.
pub fn few_numbers(numbers: &VersionVector)
    ensures { length (entries (view_of_numbers numbers.now)) ≤ 64 }
{
    for entry in numbers.entries() {
        let _number = entry.0.number();
    }
}
