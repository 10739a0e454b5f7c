// The small matrices, which are stored cases too, in the types `u64` and `u128` with a number from 2^63 on: in the
// place of each pointer and of each row it makes the input no column form, and after the end it is ignored. The answers
// are those of `small_matrices`.

use crate::tests::small_matrices::matrices;
use crate::tests::worked::OrderingCase;
use amd::{Control, Status, order};
use amd_testing::check;
use num_traits::PrimInt;
use std::alloc::{AllocError, Global};
use std::process::Abort;
use std::test::Fail;

/// The numbers of pointers and of rows of a case, without those after the end.
fn lengths_of(case: &OrderingCase) -> (usize, usize) {
    let n = case.p.len();
    let end = case.a_p.get(n).copied().unwrap_or(0);
    (n + 1, usize::try_from(end).unwrap_or(0))
}

/// The first numbers of a list, as many as `count`, as `u64`.
fn in_u64(alloc: Global, numbers: &[i64], count: usize) -> Result<Vec<u64>, AllocError> {
    let mut wide = Vec::new(alloc);
    for &number in numbers.iter().take(count) {
        wide.push(u64::try_from(number).unwrap_or(u64::MAX))?;
    }
    Ok(wide)
}

/// The first numbers of a list, as many as `count`, as `u128`.
fn in_u128(alloc: Global, numbers: &[i64], count: usize) -> Result<Vec<u128>, AllocError> {
    let mut wide = Vec::new(alloc);
    for &number in numbers.iter().take(count) {
        wide.push(u128::try_from(number).unwrap_or(u128::MAX))?;
    }
    Ok(wide)
}

/// Whether an input is refused as no column form.
fn is_refused<I: PrimInt>(alloc: Global, n: I, a_p: &[I], a_i: &[I]) -> bool
    requires { I.fits (I.value n) }
{
    match order(alloc, n, a_p, a_i, &Control::default()) {
        Ok(_) => false,
        Err(status) => status == Status::Invalid,
    }
}

/// Whether a number is refused in the place of each pointer.
fn is_no_pointer<I: PrimInt>(alloc: Global, n: I, a_p: &mut [I], a_i: &[I], number: I) -> bool
    requires { I.fits (I.value n) }
{
    for k in 0..a_p.len() {
        let kept = a_p[k];
        a_p[k] = number;
        if !is_refused(alloc, n, a_p, a_i) {
            return false;
        }
        a_p[k] = kept;
    }
    true
}

/// Whether a number is refused in the place of each row.
fn is_no_row<I: PrimInt>(alloc: Global, n: I, a_p: &[I], a_i: &mut [I], number: I) -> bool
    requires { I.fits (I.value n) }
{
    for k in 0..a_i.len() {
        let kept = a_i[k];
        a_i[k] = number;
        if !is_refused(alloc, n, a_p, a_i) {
            return false;
        }
        a_i[k] = kept;
    }
    true
}

/// Whether the rows of a matrix get this order.
fn has_order<I: PrimInt>(alloc: Global, n: I, a_p: &[I], a_i: &[I], p: &[I]) -> bool
    requires { I.fits (I.value n) }
{
    match order(alloc, n, a_p, a_i, &Control::default()) {
        Ok((rows, _, _)) => rows.as_slice() == p,
        Err(_) => false,
    }
}

/// The lists of a matrix in some type, and its order.
#[derive(Drop)]
struct WideMatrix<I> {
    a_p: Vec<I>,
    a_i: Vec<I>,
    p: Vec<I>,
}

/// Whether each of some numbers is refused in the place of each pointer and of each row.
fn are_refused<I: PrimInt>(alloc: Global, n: I, matrix: &mut WideMatrix<I>, numbers: &[I]) -> bool
    requires { I.fits (I.value n) }
{
    for &number in numbers {
        if !is_no_pointer(alloc, n, &mut matrix.a_p, &matrix.a_i, number) {
            return false;
        }
        if !is_no_row(alloc, n, &matrix.a_p, &mut matrix.a_i, number) {
            return false;
        }
    }
    true
}

/// Appends numbers to the pointers and to the rows.
fn append<I: Copy>(matrix: &mut WideMatrix<I>, numbers: &[I]) -> Result<(), AllocError> {
    for &number in numbers {
        matrix.a_p.push(number)?;
        matrix.a_i.push(number)?;
    }
    Ok(())
}

/// Asserts that numbers are refused in a small matrix, and ignored after its end.
fn check_numbers<I: PrimInt>(
    rt: &impl Abort,
    alloc: Global,
    case: &OrderingCase,
    n: I,
    matrix: &mut WideMatrix<I>,
    numbers: &[I],
) -> Result<(), AllocError>
    requires { I.fits (I.value n) }
{
    check!(rt; are_refused(alloc, n, matrix, numbers), case.what);
    append(matrix, numbers)?;
    let is_ordered = has_order(alloc, n, &matrix.a_p, &matrix.a_i, &matrix.p);
    check!(rt; is_ordered, case.what);
    Ok(())
}

/// Asserts so of each small matrix in some type.
macro_rules! assert_wide {
    ($rt:ident; $number:ty, $widen:ident, $wide:expr) => {
        for case in matrices() {
            let alloc = $rt.alloc();
            let n = <$number>::try_from(case.n).unwrap_or(0);
            let (pointers, rows) = lengths_of(case);
            let mut matrix = WideMatrix {
                a_p: $widen(alloc, case.a_p, pointers)?,
                a_i: $widen(alloc, case.a_i, rows)?,
                p: $widen(alloc, case.p, pointers)?,
            };
            check_numbers(&$rt, alloc, case, n, &mut matrix, &$wide)?;
        }
    };
}

#[test]
fn numbers_of_64_bits_without_a_sign(rt: HostRuntime) -> Result<(), Fail> {
    assert_wide!(rt; u64, in_u64, [1 << 63, (1 << 63) + 1, u64::MAX]);
    Ok(())
}

/// The last 64 bits of two of the numbers are a pointer and a row of most of the matrices.
#[test]
fn numbers_of_more_than_64_bits(rt: HostRuntime) -> Result<(), Fail> {
    assert_wide!(rt; u128, in_u128, [1 << 63, 1 << 64, (1 << 64) + 1, 1 << 127, u128::MAX]);
    Ok(())
}
