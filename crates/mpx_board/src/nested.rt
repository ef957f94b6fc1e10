//! The maps nested inside a board, and the test that no part of them says nothing.
ghost use Rattle.std.specs.Prelude.{◌≡◌, ℕ, Bool, nat_lt, true, not};
ghost use Rattle.std.specs.List.{list_all};
ghost use Rattle.std.specs.Option.{option_copied};
ghost use Rattle.std.specs.FinMap.{get};
ghost use Rattle.join_core.specs.Flat.{FlatView};
ghost use Rattle.join_core.specs.FlatSeen.{flat_view};
ghost use Rattle.join_nest.specs.Seen.{seen};
ghost use Rattle.mpx_post.specs.Posts.{Given};
ghost use Rattle.mpx_board.specs.Parts.{AcksView, LiftedView, OfProcesses};
ghost use Rattle.mpx_board.specs.Boards.{nothing, told};
ghost use Rattle.mpx_board.specs.Contexts.{context_of, or_zero};
ghost use Rattle.mpx_board.specs.Tidy.{all_entries, are_tidy_posts, has_no_zero, is_neat_entry, is_silent, is_tidy, is_tidy_acks, is_tidy_call, is_tidy_entry, is_tidy_lifted, is_tidy_numbers, is_unknown, says_nothing};
ghost use Rattle.mpx_board.specs.Views.{view_of_acks, view_of_call, view_of_calls, view_of_entry, view_of_lifted, view_of_numbers, view_of_parts};

use join_core::{Exact, Flat, Max, Pair};
use join_nest::{Keyed, Lift, Trunc};
use mpx_birth::Birth;
use mpx_floor::VersionVector;
use mpx_group::Proc;
use mpx_name::Name;
use mpx_post::Post;
use std::alloc::Global;

/// The posts of one call, by process.
pub type CallPosts = Keyed<Proc, Flat<Post>>;

/// What is known of one live context: its birth, how many calls each process has harvested, and the posts by call, at or
/// above the dropped front.
pub type Entry = Pair<Flat<Birth>, Pair<VersionVector, Trunc<CallPosts>>>;

/// What is known of one context: its entry while it is live, else that it is dead, and then nothing else.
pub type Lifted = Lift<Entry>;

/// What one process says that it has: by context and member, how many calls it holds in order or has dropped.
pub type Digest = Keyed<Name, VersionVector>;

/// What stands inside a board: what is known of each context, and what each process says that it has.
pub type Parts = Pair<Keyed<Name, Lifted>, Keyed<Proc, Digest>>;

// Nothing about a context.
pub fn new_entry(alloc: Global) -> Entry
    ensures context { context_of (view_of_entry result) ≡ nothing }
    ensures neat { is_neat_entry (view_of_entry result) ≡ true }
{
    Pair {
        first: Flat::Unknown,
        second: Pair {
            first: Keyed::new(alloc),
            second: Trunc::new(alloc, 0),
        },
    }
}

// What is told in one way.
pub fn known<T>(value: &Flat<T>) -> Option<&T>
    ensures { option_copied result ≡ told (flat_view (λ t. t) value.now) }
{
    match value {
        Flat::Unknown => None,
        Flat::Known(value) => Some(value),
        Flat::Clash => None,
    }
}

// Whether no part says nothing, and no call has a number past the last.
pub fn is_tidy_board(parts: &Parts) -> bool
    ensures { result ≡ is_tidy (view_of_parts parts.now) }
{
    all_tidy(parts.first.entries()) && all_tidy(parts.second.entries())
}

// A value that says something, and no part of it says nothing. (One test of all entries of a map, for all sorts of values: a
// closure at nested types would have each of its proofs at these.)
trait Tidy {
    // What it shows.
    ghost Shown: { Type 0 };

    ghost shown: { Self → Shown };

    ghost tidy: { Shown → Bool };

    fn is_tidy(&self) -> bool
        ensures { result ≡ tidy (shown self.now) };
}

// Whether each of these values is tidy.
fn all_tidy<K, J: Tidy>(entries: &[(K, J)]) -> bool
    ensures { result ≡ list_all (λ e. J.tidy e.1) (seen J.shown entries.now) }
{
    entries.iter().all(|e| e.1.is_tidy())
}

// Dead is never empty.
impl Tidy for Lifted {
    ghost Shown = { LiftedView };

    ghost shown = { view_of_lifted };

    ghost tidy = { is_tidy_lifted };

    fn is_tidy(&self) -> bool {
        match self {
            Lift::Live(entry) => is_tidy_entry(entry),
            Lift::Dead => true,
        }
    }
}

fn is_tidy_entry(entry: &Entry) -> bool
    ensures { result ≡ is_tidy_entry (view_of_entry entry.now) }
{
    says_something(entry)
        && has_no_zero(&entry.second.first)
        && are_tidy_calls(&entry.second.second)
}

/// Whether the entry says something of its context.
pub fn says_something(entry: &Entry) -> bool
    ensures { result ≡ not (says_nothing (view_of_entry entry.now)) }
{
    let posts = &entry.second.second;
    is_told(&entry.first)
        || !entry.second.first.is_empty()
        || posts.dropped() != 0
        || !posts.entries().is_empty()
}

/// Whether something is said of the context: that it is dead, or what a live entry says.
pub fn is_said(known: &Lifted) -> bool
    ensures { result ≡ not (is_silent (view_of_lifted known.now)) }
{
    match known {
        Lift::Live(entry) => says_something(entry),
        Lift::Dead => true,
    }
}

/// Whether something is told, the value or a clash.
pub fn is_told<T>(value: &Flat<T>) -> bool
    ensures { result ≡ not (is_unknown (flat_view (λ t. t) value.now)) }
{
    !matches!(value, Flat::Unknown)
}

fn are_tidy_calls(calls: &Trunc<CallPosts>) -> bool
    ensures { result ≡ all_entries is_tidy_call (view_of_calls calls.now).calls }
{
    calls
        .entries()
        .iter()
        .all(|e| e.0 < u32::MAX && is_tidy_call(&e.1))
}

fn is_tidy_call(posts: &CallPosts) -> bool
    ensures { result ≡ are_tidy_posts (view_of_call posts.now) }
{
    !posts.is_empty() && all_tidy(posts.entries())
}

impl Tidy for Flat<Post> {
    ghost Shown = { FlatView Given };

    ghost shown = { flat_view (λ post. post) };

    ghost tidy = { λ told. not (is_unknown told) };

    fn is_tidy(&self) -> bool {
        is_told(self)
    }
}

impl Tidy for Digest {
    ghost Shown = { AcksView };

    ghost shown = { view_of_acks };

    ghost tidy = { is_tidy_acks };

    fn is_tidy(&self) -> bool {
        !self.is_empty() && all_tidy(self.entries())
    }
}

impl Tidy for VersionVector {
    ghost Shown = { OfProcesses ℕ };

    ghost shown = { view_of_numbers };

    ghost tidy = { is_tidy_numbers };

    fn is_tidy(&self) -> bool {
        !self.is_empty() && has_no_zero(self)
    }
}

impl Tidy for Max {
    ghost Shown = { ℕ };

    ghost shown = { λ number. number.0 };

    ghost tidy = { λ number. nat_lt 0 number };

    fn is_tidy(&self) -> bool {
        self.0 != 0
    }
}

fn has_no_zero(numbers: &VersionVector) -> bool
    ensures { result ≡ has_no_zero (view_of_numbers numbers.now) }
{
    all_tidy(numbers.entries())
}
