// What `order` and `valid` make of the ends of the twelve integer types: of both ends of each range, as the number of
// columns, as a pointer and as a row; of numbers of type `u128` past the greatest `usize`; and of as many rows and
// entries as a type has. It stands beside `numbers`, so that the orderings of all types are compiled in one crate.

use amd::valid::valid;
use amd::{Control, Status, order};
use amd_testing::check;
use amd_testing::records::numbers_of;
use num_traits::PrimInt;
use std::alloc::Global;
use std::process::Abort;

/// An input, and its answer by the default.
#[derive(Drop)]
struct NumberCase<'a, I> {
    n: I,
    a_p: &'a [I],
    a_i: &'a [I],
    p: &'a [I],
    p_inv: &'a [I],
    status: Status,
    symmetric: bool,
    numbers: [usize; 11],
}

/// Asserts that `order` gives the answer of a case.
fn check<I: PrimInt>(rt: &impl Abort, alloc: Global, case: &NumberCase<I>)
    requires { I.fits (I.value case.now.n) }
{
    let Ok((p, p_inv, info)) = order(alloc, case.n, case.a_p, case.a_i, &Control::default()) else {
        panic!(rt; "no answer");
    };
    check!(rt; p.as_slice() == case.p && p_inv.as_slice() == case.p_inv);
    check!(rt; info.status == case.status && info.symmetry == case.symmetric);
    check!(rt; numbers_of(&info) == case.numbers);
}

/// The numbers of a record for `n` rows without entries.
fn numbers_without_entries(n: usize) -> [usize; 11] {
    [n, 0, 0, 0, 0, 0, 0, 0, 0, 0, 1]
}

/// Whether an input is refused as no column form.
fn is_refused<I: PrimInt>(alloc: Global, n: I, a_p: &[I], a_i: &[I]) -> bool
    requires { I.fits (I.value n) }
{
    match order(alloc, n, a_p, a_i, &Control::default()) {
        Ok(_) => false,
        Err(status) => status == Status::Invalid,
    }
}

/// A number that is no number of columns, no pointer and no row; the numbers 1 and 2; and the lists in which it stands:
/// of pointers to one or two columns, of rows, and behind the end of a matrix with one entry.
#[derive(Drop)]
struct End<'a, I> {
    end: I,
    one: I,
    two: I,
    zero: &'a [I],
    unit: &'a [I],
    first: &'a [I],
    between: &'a [I],
    last: &'a [I],
    row: &'a [I],
    more_pointers: &'a [I],
    more_rows: &'a [I],
}

/// Whether a number is refused as the number of columns, as each pointer and as a row.
fn is_refused_end<I: PrimInt>(alloc: Global, end: &End<I>) -> bool
    requires end { I.fits (I.value end.now.end) }
    requires one { I.fits (I.value end.now.one) }
    requires two { I.fits (I.value end.now.two) }
{
    is_refused(alloc, end.end, end.zero, &[])
        && is_refused(alloc, end.one, end.first, end.zero)
        && is_refused(alloc, end.two, end.between, end.zero)
        && is_refused(alloc, end.one, end.last, end.zero)
        && is_refused(alloc, end.one, end.unit, end.row)
}

/// Whether a number behind the end of a matrix with one entry is ignored.
fn is_ignored<I: PrimInt>(alloc: Global, end: &End<I>) -> bool
    requires { I.fits (I.value end.now.one) }
{
    let control = Control::default();
    let answer = order(alloc, end.one, end.more_pointers, end.more_rows, &control);
    let Ok((p, p_inv, info)) = answer else {
        return false;
    };
    p.len() == 1 && p_inv.len() == 1 && info.nz == 1 && info.status == Status::OK
}

/// The lists of a number.
macro_rules! end {
    ($end:expr) => {
        End {
            end: $end,
            one: 1,
            two: 2,
            zero: &[0],
            unit: &[0, 1],
            first: &[$end, 1],
            between: &[0, $end, 1],
            last: &[0, $end],
            row: &[$end],
            more_pointers: &[0, 1, $end],
            more_rows: &[0, $end],
        }
    };
}

// The ends of each type, and -1 where the type has it, but for 0, which may stand there.

static U8: [End<'static, u8>; 1] = [end!(u8::MAX)];

static U16: [End<'static, u16>; 1] = [end!(u16::MAX)];

static U32: [End<'static, u32>; 1] = [end!(u32::MAX)];

// The least numbers without a signed counterpart of 64 bits stand beside them, and those of `u128` whose last 64 bits
// are a row and a pointer.

static U64: [End<'static, u64>; 3] = [end!(u64::MAX), end!(1 << 63), end!((1 << 63) + 1)];

static U128: [End<'static, u128>; 5] = [
    end!(u128::MAX),
    end!(1 << 127),
    end!(1 << 64),
    end!((1 << 64) + 1),
    end!((1 << 63) + 1),
];

static USIZE: [End<'static, usize>; 1] = [end!(usize::MAX)];

static I8: [End<'static, i8>; 3] = [end!(i8::MIN), end!(-1), end!(i8::MAX)];

static I16: [End<'static, i16>; 3] = [end!(i16::MIN), end!(-1), end!(i16::MAX)];

static I32: [End<'static, i32>; 3] = [end!(i32::MIN), end!(-1), end!(i32::MAX)];

static I64: [End<'static, i64>; 3] = [end!(i64::MIN), end!(-1), end!(i64::MAX)];

static I128: [End<'static, i128>; 3] = [end!(i128::MIN), end!(-1), end!(i128::MAX)];

static ISIZE: [End<'static, isize>; 3] = [end!(isize::MIN), end!(-1), end!(isize::MAX)];

/// Asserts that the ends of some types are refused where they may not stand, and ignored behind the end of a matrix.
macro_rules! assert_ends {
    ($rt:ident; $($ends:ident)*) => {
        $(
            for end in &$ends {
                let alloc = $rt.alloc();
                let is_end = is_refused_end(alloc, end) && is_ignored(alloc, end);
                check!(&$rt; is_end, stringify!($ends));
            }
        )*
    };
}

// A few types a test: a test of all twelve is dear to prove.

#[test]
fn both_ends_of_unsigned_types(rt: HostRuntime) {
    assert_ends!(rt; U8 U16 U32 U64 U128 USIZE);
}

#[test]
fn both_ends_of_narrow_signed_types(rt: HostRuntime) {
    assert_ends!(rt; I8 I16 I32);
}

#[test]
fn both_ends_of_wide_signed_types(rt: HostRuntime) {
    assert_ends!(rt; I64 I128 ISIZE);
}

/// Whether `valid` has an answer for the greatest number `most` of a type as the number of rows, where the row before
/// it is the last one, and as the number of columns, for which there are too few pointers, whatever the other number
/// is. The lists are the pointers `[0, 1]`, and the rows `[most - 1]` and `[most]`.
fn classes_greatest<I: PrimInt>(most: I, one: I, a_p: &[I], last: &[I], past: &[I]) -> bool {
    valid(most, one, a_p, last) == Status::OK
        && valid(most, one, a_p, past) == Status::Invalid
        && valid(one, most, a_p, last) == Status::Invalid
        && valid(most, most, a_p, last) == Status::Invalid
}

/// Takes the greatest number of some types as the number of rows and of columns.
macro_rules! greatest_sizes {
    ($rt:ident; $($number:ty)*) => {
        $(
            let most = <$number>::MAX;
            assert!($rt; classes_greatest(most, 1, &[0, 1], &[most - 1], &[most]));
        )*
    };
}

#[test]
fn the_greatest_size_of_unsigned_types(rt: HostRuntime) {
    greatest_sizes!(rt; u8 u16 u32 u64 u128 usize);
}

#[test]
fn the_greatest_size_of_signed_types(rt: HostRuntime) {
    greatest_sizes!(rt; i8 i16 i32 i64 i128 isize);
}

#[test]
fn as_many_columns_as_a_type_has(rt: HostRuntime) {
    // As many columns as the type has, and a pointer for each and one more.
    check!(&rt; valid(255u8, 255, &[0; 256], &[]) == Status::OK);
    check!(&rt; valid(127i8, 127, &[0; 128], &[]) == Status::OK);
    check!(&rt; valid(255u8, 255, &[0; 255], &[]) == Status::Invalid);
    check!(&rt; valid(127i8, 127, &[0; 127], &[]) == Status::Invalid);
}

/// The power of 2 just past the greatest `u64`.
const PAST: u128 = 18446744073709551616;

#[test]
fn inputs_past_the_ends(rt: HostRuntime) {
    let heap = rt.alloc();
    check!(&rt; is_refused(heap, PAST, &[0], &[]));
    check!(&rt; is_refused(heap, 1u128, &[0, PAST], &[0]));
    check!(&rt; is_refused(heap, 1u128, &[0, 1], &[PAST]));
    let ignored: NumberCase<u128> = NumberCase {
        n: 1,
        a_p: &[0, 0, PAST],
        a_i: &[],
        p: &[0],
        p_inv: &[0],
        status: Status::OK,
        symmetric: true,
        numbers: numbers_without_entries(1),
    };
    check(&rt, heap, &ignored);
}

/// As many entries as the greatest pointer of the type can say, all of them one.
#[test]
fn as_many_entries_as_a_pointer_says(rt: HostRuntime) {
    let case: NumberCase<u8> = NumberCase {
        n: 2,
        a_p: &[0, 255, 255],
        a_i: &[1; 255],
        p: &[0, 1],
        p_inv: &[0, 1],
        status: Status::OkButJumbled,
        symmetric: false,
        numbers: [2, 1, 0, 2, 0, 0, 1, 1, 1, 1, 2],
    };
    check(&rt, rt.alloc(), &case);
}

#[test]
fn as_many_rows_as_an_unsigned_type_has(rt: HostRuntime) {
    let mut rows = [0u8; 255];
    for k in 0..255u8 {
        rows[usize::from(k)] = k;
    }
    let unsigned: NumberCase<u8> = NumberCase {
        n: 255,
        a_p: &[0; 256],
        a_i: &[],
        p: &rows,
        p_inv: &rows,
        status: Status::OK,
        symmetric: true,
        numbers: numbers_without_entries(255),
    };
    check(&rt, rt.alloc(), &unsigned);
}

#[test]
fn as_many_rows_as_a_signed_type_has(rt: HostRuntime) {
    let mut few = [0i8; 127];
    for k in 0..127i8 {
        if let Ok(place) = usize::try_from(k) {
            few[place] = k;
        }
    }
    let signed: NumberCase<i8> = NumberCase {
        n: 127,
        a_p: &[0; 128],
        a_i: &[],
        p: &few,
        p_inv: &few,
        status: Status::OK,
        symmetric: true,
        numbers: numbers_without_entries(127),
    };
    check(&rt, rt.alloc(), &signed);
}
