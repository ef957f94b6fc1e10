//! Exact sums and products of many numbers at once.
ghost use Rattle.std.specs.Prelude.{◌≡◌, ◌+ℤ◌, ◌*ℤ◌, ℤ, None, Option, Some, false, slice_get, true};
ghost use Rattle.mpx_explain.specs.Overflows.{IsKnownAs, is_product, kept, neutral};
ghost use Rattle.mpx_explain.specs.Sums.{AreCombined, IsExact, with_given};

use mpx_num::Op;

/// What numbers come to, combined.
#[derive(Clone, Copy, Drop)]
pub(crate) enum Exact {
    Number(i128),
    /// A product past 128 bits.
    Far,
    /// Nothing that is known: a number is lacking, or a sum is past 128 bits.
    Unknown,
}

/// Whether it is the product.
pub(crate) fn is_product(op: Op) -> bool
    ensures { result ≡ is_product op }
{
    match op {
        Op::Prod => true,
        _ => false,
    }
}

/// What no numbers come to.
pub(crate) fn neutral(is_product: bool) -> i128
    ensures { result ≡ neutral is_product }
{
    if is_product { 1 } else { 0 }
}

/// Combines each of these with the number at its place.
pub(crate) fn add(is_product: bool, given: &[i128], sums: &mut Vec<Exact>)
    ensures { AreCombined is_product given.now sums.old.items sums.new.items }
{
    for index in 0..sums.len() {
        sums[index] = combined(is_product, sums[index], number_at(given, index));
    }
}

fn number_at(given: &[i128], index: usize) -> Option<i128>
    ensures { result ≡ slice_get given.now index }
{
    given.get(index).copied()
}

fn combined(is_product: bool, before: Exact, given: Option<i128>) -> Exact
    ensures { (comes : Option ℤ) → IsExact is_product before comes → IsExact is_product result (with_given is_product comes given) }
{
    match given {
        Some(given) => {
            if is_product {
                product(before, given)
            } else {
                sum(before, given)
            }
        }
        None => Exact::Unknown,
    }
}

fn product(before: Exact, given: i128) -> Exact
    ensures { (comes : Option ℤ) → IsExact true before comes → IsExact true result (with_given true comes (Some given)) }
{
    match before {
        Exact::Number(before) => of_product(near_product(before, given)),
        Exact::Far => of_product(far_product(given)),
        Exact::Unknown => Exact::Unknown,
    }
}

// A product, or none where it is past 128 bits.
fn of_product(known: Option<i128>) -> Exact
    ensures { (whole : ℤ) → IsKnownAs known whole → IsExact true result (Some whole) }
{
    match known {
        Some(number) => Exact::Number(number),
        None => Exact::Far,
    }
}

fn near_product(before: i128, given: i128) -> Option<i128>
    ensures { IsKnownAs result (before *ℤ given) }
{
    before.checked_mul(given)
}

// A number that is past 128 bits, so many times.
fn far_product(given: i128) -> Option<i128>
    ensures { (b : ℤ) → IsKnownAs None b → IsKnownAs result (b *ℤ given) }
{
    if given == 0 { Some(0) } else { None }
}

fn sum(before: Exact, given: i128) -> Exact
    ensures { (comes : Option ℤ) → IsExact false before comes → IsExact false result (with_given false comes (Some given)) }
{
    match before {
        Exact::Number(before) => of_sum(near_sum(before, given)),
        Exact::Far => Exact::Unknown,
        Exact::Unknown => Exact::Unknown,
    }
}

fn of_sum(known: Option<i128>) -> Exact
    ensures { IsExact false result known }
{
    match known {
        Some(number) => Exact::Number(number),
        None => Exact::Unknown,
    }
}

fn near_sum(before: i128, given: i128) -> Option<i128>
    ensures { result ≡ kept (before +ℤ given) }
{
    before.checked_add(given)
}
