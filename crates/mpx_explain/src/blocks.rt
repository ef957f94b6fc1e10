//! Which of the numbers that all give a rank gets.
ghost use Rattle.std.specs.Prelude.{◌≡◌, ◌≤◌, ◌*◌, take, true};
ghost use Rattle.std.specs.List.{list_all, sum};
ghost use Rattle.mpx_post.specs.Agreement.{count_at};
ghost use Rattle.mpx_post.specs.Drafts.{is_count, natural, naturals};
ghost use Rattle.mpx_post.specs.Posts.{most_items};
ghost use Rattle.mpx_explain.specs.Overflows.{bounds_of};

use mpx_kind::Reduction;
use mpx_post::Draft;

/// Whether these counts are within their limit.
pub(crate) fn are_counts(counts: &[i128]) -> bool
    ensures { result ≡ list_all is_count counts.now }
{
    counts.iter().all(|&number| 0 <= number && number <= 4096)
}

/// From which number on a rank gets those that all give, and up to which: of a reduction to a root that gets all, of a scattered one each
/// rank its block.
pub(crate) fn bounds_of(reduction: Reduction, draft: &Draft, rank: u8) -> (usize, usize)
    requires { list_all is_count draft.now.rcounts ≡ true }
    ensures { result ≡ bounds_of reduction draft.now rank }
{
    let counts = draft.rcounts.as_slice();
    let numbers = draft.items.as_slice().len();
    match reduction {
        Reduction::Reduce => (
            0,
            if draft.root == i128::from(rank) {
                numbers
            } else {
                0
            },
        ),
        Reduction::ReduceScatterBlock => {
            let count = count_at(counts, 0);
            let start = usize::from(rank) * count;
            (start, start + count)
        }
        Reduction::ReduceScatter => {
            let start = sum_before(counts, rank);
            (start, start + count_at(counts, usize::from(rank)))
        }
        Reduction::Allreduce | Reduction::Scan | Reduction::Exscan => (0, numbers),
    }
}

// The sum of so many counts.
fn sum_before(counts: &[i128], place: u8) -> usize
    requires { list_all is_count counts.now ≡ true }
    ensures value { result ≡ sum (take place (naturals counts.now)) }
    ensures small { result ≤ place * most_items }
{
    let mut sum = 0;
    for before in 0..place {
        sum += count_at(counts, usize::from(before));
    }
    sum
}

// The count at a place.
fn count_at(counts: &[i128], place: usize) -> usize
    requires { list_all is_count counts.now ≡ true }
    ensures value { result ≡ count_at (naturals counts.now) place }
    ensures small { result ≤ most_items }
{
    match counts.get(place) {
        Some(count) => natural(*count),
        None => 0,
    }
}

fn natural(count: i128) -> usize
    requires { is_count count ≡ true }
    ensures value { result ≡ natural count }
    ensures small { result ≤ most_items }
{
    count as usize
}
