//! Numbers as text, and lists of them, as no script gives them.
use mpx_num::{
    Integer, IntegersError, Items, ItemsError, Numbers, Ty, integer_in, integers_in, parse_number,
    print_number,
};
use std::alloc::{AllocError, Global};
use std::test::Fail;

// What is no number.
const NO_NUMBERS: [&[u8]; 14] = [
    b"18446744073709551616",
    b"99999999999999999999",
    b"-9223372036854775809",
    b"",
    b"-",
    b"+1",
    b"--1",
    b"1.5",
    b"1 ",
    b" 1",
    b"1-",
    b"0x1",
    b"1e3",
    b"\xc2\xb2",
];

// A digit that stands there a million times, one behind these, and the number.
const LONG: [(u8, u8, Option<i128>); 3] = [
    (b'0', b'0', Some(0)),
    (b'0', b'9', Some(9)),
    (b'9', b'9', None),
];

#[test]
fn reads_numbers(rt: HostRuntime) -> Result<(), Fail> {
    for &text in NO_NUMBERS.iter() {
        assert!(rt; parse_number(text).is_none());
    }
    for &(digit, last, number) in LONG.iter() {
        let mut text = vec![in rt.alloc(); digit; 1000000]?;
        text.push(last)?;
        assert!(rt; parse_number(&text) == number);
    }
    let printed = print_number(rt.alloc(), -123456789)?;
    assert!(rt; printed.as_str() == "-123456789");
    Ok(())
}

use ItemsError::{ItemOutOfRange, ItemsLength, TooManyItems};

// A type, a number, how often it stands there, and why these are no items. What is told first: numbers out of the type's range,
// then more than 4,096 items.
const ITEMS: [(Ty, i128, usize, Option<ItemsError>); 15] = [
    (Ty::I64, 7, 4096, None),
    (Ty::I64, 7, 4098, Some(TooManyItems)),
    (Ty::I64, i128::MAX, 4098, Some(ItemOutOfRange)),
    (Ty::U8, 7, 4096, None),
    (Ty::U8, 7, 4098, Some(TooManyItems)),
    (Ty::TwoInt, 7, 8192, None),
    (Ty::TwoInt, 7, 8194, Some(TooManyItems)),
    (Ty::TwoInt, i128::MAX, 8194, Some(ItemOutOfRange)),
    (Ty::TwoInt, i128::MAX, 3, Some(ItemsLength)),
    (Ty::TwoInt, i128::MIN, 2, Some(ItemOutOfRange)),
    (Ty::I8, i128::MIN, 1, Some(ItemOutOfRange)),
    (Ty::I64, -9223372036854775809, 1, Some(ItemOutOfRange)),
    (Ty::U64, 18446744073709551616, 1, Some(ItemOutOfRange)),
    (Ty::U64, i128::MAX, 1, Some(ItemOutOfRange)),
    (Ty::I8, 7, 0, None),
];

// Why so many times the number make no items, where they make none.
fn refusal(
    alloc: Global,
    ty: Ty,
    number: i128,
    times: usize,
) -> Result<Option<ItemsError>, AllocError> {
    let list = Numbers::new(alloc, vec![in alloc; number; times]?)?;
    match Items::new(ty, list) {
        Ok(_) => Ok(None),
        Err(refusal) => Ok(Some(refusal)),
    }
}

#[test]
fn at_most_4096_items_of_the_range(rt: HostRuntime) -> Result<(), Fail> {
    for (i, row) in ITEMS.iter().enumerate() {
        let (ty, number, times, wanted) = *row;
        assert!(rt;
            refusal(rt.alloc(), ty, number, times)? == wanted,
            "row {i}"
        );
    }
    let told = format!(in rt.alloc(); "{}", ItemsLength)?;
    assert!(rt; told.as_str() == "an odd number of numbers for pairs");
    Ok(())
}

// Whether the integers are these numbers, and come back from them; and whether no integers make no numbers.
fn come_back<T: Integer>(alloc: Global, integers: &[T], numbers: &[i128]) -> Result<bool, Fail> {
    let made = Numbers::from_slice(alloc, integers)?;
    let again = integers_in::<T>(alloc, numbers)?;
    let there = made.as_slice() == numbers;
    Ok(there && Numbers::from_slice(alloc, &again)?.as_slice() == numbers)
}

// Whether each of the ends alone is one integer of the type: none is where the list is empty or has both, or a number beside the range.
fn are_ends<T: Integer>(alloc: Global, ends: [i128; 2], beside: [i128; 2]) -> bool {
    integer_in::<T>(&ends[..1]).is_some()
        && integer_in::<T>(&ends[1..]).is_some()
        && integer_in::<T>(&ends).is_none()
        && integer_in::<T>(&[]).is_none()
        && integer_in::<T>(&beside[..1]).is_none()
        && integer_in::<T>(&beside[1..]).is_none()
        && integers_in::<T>(alloc, &beside).err() == Some(IntegersError::OutOfRange)
}

// Both of a type, of its ends and a number between them, and the numbers beside its range.
fn are_so<T: Integer>(
    alloc: Global,
    integers: [T; 3],
    numbers: [i128; 3],
    beside: [i128; 2],
) -> Result<bool, Fail> {
    Ok(
        come_back::<T>(alloc, &integers, &numbers)?
            && come_back::<T>(alloc, &integers[..0], &[])?
            && are_ends::<T>(alloc, [numbers[0], numbers[2]], beside),
    )
}

#[test]
fn integers_come_back(rt: HostRuntime) -> Result<(), Fail> {
    let alloc = rt.alloc();
    let all = [
        are_so::<i8>(alloc, [-128, 0, 127], [-128, 0, 127], [-129, 128])?,
        are_so::<u8>(alloc, [0, 3, 255], [0, 3, 255], [-1, 256])?,
        are_so::<i16>(
            alloc,
            [-32768, 2, 32767],
            [-32768, 2, 32767],
            [-32769, 32768],
        )?,
        are_so::<u16>(alloc, [0, 3, 65535], [0, 3, 65535], [-1, 65536])?,
        are_so::<i32>(
            alloc,
            [-2147483648, 0, 2147483647],
            [-2147483648, 0, 2147483647],
            [-2147483649, 2147483648],
        )?,
        are_so::<u32>(
            alloc,
            [0, 3, 4294967295],
            [0, 3, 4294967295],
            [-1, 4294967296],
        )?,
        are_so::<i64>(
            alloc,
            [i64::MIN, 0, i64::MAX],
            [-9223372036854775808, 0, 9223372036854775807],
            [-9223372036854775809, 9223372036854775808],
        )?,
        are_so::<u64>(
            alloc,
            [0, 3, u64::MAX],
            [0, 3, 18446744073709551615],
            [-1, 18446744073709551616],
        )?,
    ];
    assert!(rt; all == [true; 8]);
    Ok(())
}
