// The twelve integer types: one matrix in each of them, and numbers of type `u128` past the greatest `usize`.

use amd::{Control, Status};
use amd_symbolic::{Fault, analyze, columns};
use amd_testing::check;
use amd_testing::records::numbers_of;
use num_traits::PrimInt;
use std::alloc::Global;
use std::process::Abort;

/// A four-cycle in numbers of some type: its pointers, its row indices, the order that it is given, and the inverse.
#[derive(Drop)]
struct Cycle<'a, I> {
    n: I,
    a_p: &'a [I],
    a_i: &'a [I],
    p: &'a [I],
    p_inv: &'a [I],
}

/// Asserts that a four-cycle is analyzed: its order, its figures, and its factor under this order.
fn check_analysis<I: PrimInt>(rt: &impl Abort, alloc: Global, cycle: &Cycle<I>)
    requires { I.fits (I.value cycle.now.n) }
{
    let Ok((p, p_inv, info, factor)) = analyze(
        alloc,
        cycle.n,
        cycle.a_p,
        cycle.a_i,
        &Control::default(),
    ) else {
        panic!(rt; "no answer");
    };
    check!(rt; p.as_slice() == cycle.p && p_inv.as_slice() == cycle.p_inv);
    check!(rt; info.status == Status::OK && !info.symmetry);
    check!(rt; numbers_of(&info) == [4, 4, 0, 8, 0, 0, 5, 5, 7, 9, 3]);
    check!(rt; factor.ptr.as_slice() == [0, 2, 4, 5, 5].as_slice());
    check!(rt; factor.rows.as_slice() == [1, 3, 2, 3, 3].as_slice());
}

/// Asserts that a four-cycle has its factor under its order, which just fits.
fn check_columns<I: PrimInt>(rt: &impl Abort, alloc: Global, cycle: &Cycle<I>)
    requires { I.fits (I.value cycle.now.n) }
{
    let Ok(factor) = columns(alloc, cycle.n, cycle.a_p, cycle.a_i, cycle.p, 5) else {
        panic!(rt; "no factor");
    };
    check!(rt; factor.ptr.as_slice() == [0, 2, 4, 5, 5].as_slice());
    check!(rt; factor.rows.as_slice() == [1, 3, 2, 3, 3].as_slice());
}

/// The four-cycle.
macro_rules! cycle {
    () => {
        Cycle {
            n: 4,
            a_p: &[0, 2, 3, 4, 4],
            a_i: &[1, 3, 2, 3],
            p: &[3, 0, 1, 2],
            p_inv: &[1, 2, 3, 0],
        }
    };
}

static U8: Cycle<'static, u8> = cycle!();

static U16: Cycle<'static, u16> = cycle!();

static U32: Cycle<'static, u32> = cycle!();

static U64: Cycle<'static, u64> = cycle!();

static U128: Cycle<'static, u128> = cycle!();

static USIZE: Cycle<'static, usize> = cycle!();

static I8: Cycle<'static, i8> = cycle!();

static I16: Cycle<'static, i16> = cycle!();

static I32: Cycle<'static, i32> = cycle!();

static I64: Cycle<'static, i64> = cycle!();

static I128: Cycle<'static, i128> = cycle!();

static ISIZE: Cycle<'static, isize> = cycle!();

/// Asserts that a four-cycle is analyzed, and that it has its factor.
fn check_cycle<I: PrimInt>(rt: &impl Abort, alloc: Global, cycle: &Cycle<I>)
    requires { I.fits (I.value cycle.now.n) }
{
    check_analysis(rt, alloc, cycle);
    check_columns(rt, alloc, cycle);
}

/// Asserts that the four-cycles of some types are analyzed, and that they have their factors.
macro_rules! check_cycles {
    ($rt:ident; $($cycle:ident)*) => {
        $(check_cycle(&$rt, $rt.alloc(), &$cycle);)*
    };
}

#[test]
fn a_four_cycle_in_each_unsigned_type(rt: HostRuntime) {
    check_cycles!(rt; U8 U16 U32 U64 U128 USIZE);
}

#[test]
fn a_four_cycle_in_each_signed_type(rt: HostRuntime) {
    check_cycles!(rt; I8 I16 I32 I64 I128 ISIZE);
}

/// A number past the greatest `usize` is no number of rows, no pointer, no row, and none that an order lists; behind
/// the end of a matrix it is not looked at.
#[test]
fn numbers_past_the_greatest_count(rt: HostRuntime) {
    let far = 1u128 << 64;
    for (n, a_p, a_i, p, want) in [
        (
            far,
            [0, 0].as_slice(),
            [].as_slice(),
            [0].as_slice(),
            Some(Fault::NotColumnForm),
        ),
        (1, &[0, far], &[0], &[0], Some(Fault::NotColumnForm)),
        (1, &[0, 1], &[far], &[0], Some(Fault::NotColumnForm)),
        (1, &[0, 1], &[0], &[far], Some(Fault::NotPermutation)),
        (1, &[0, 0, far], &[far], &[0], None),
    ] {
        let fault = columns(rt.alloc(), n, a_p, a_i, p, 0).err();
        check!(&rt; fault == want);
    }
}
