// The rows on both sides of a row in a list that is linked both ways, in both widths: what is written on one side of a
// row stands there, and its other side and those of all other rows stay as they were.

ghost use Rattle.std.specs.Prelude.{◌≡◌, ◌≤◌, length};
ghost use Rattle.amd_words.specs.Sides.{nexts};

use amd_words::Unsigned;
use amd_words::sides::{Sides, last_at, next_at, put_last, put_next, row_count};
use amd_workspace::filling::sides;
use std::alloc::Global;
use std::process::Abort;

/// What stands behind and before each row.
fn rows_beside<U: Unsigned>(list: &[Sides<U>]) -> [(usize, usize); 3] {
    let mut rows = [(0, 0); 3];
    for i in 0..row_count(list).min(3) {
        rows[i] = (next_at(list, i), last_at(list, i));
    }
    rows
}

/// Asserts what stands behind and before each of three rows.
fn check_rows<U: Unsigned>(rt: &impl Abort, list: &[Sides<U>], wanted: [(usize, usize); 3])
    ensures { length (nexts list.now) ≡ 3 }
{
    assert!(rt; row_count(list) == 3 && rows_beside(list) == wanted);
}

/// Links row 1 in front of row 2. At first, and for row 0 to the end, both sides are the number of rows, which stands
/// for no row.
fn check_sides<U: Unsigned>(rt: &impl Abort, alloc: Global)
    requires { 3 ≤ U.MOST }
{
    let Ok(mut list) = sides::<U, Global>(alloc, 3, 3) else {
        panic!(rt; "no memory");
    };
    check_rows(rt, &list, [(3, 3), (3, 3), (3, 3)]);
    put_next(&mut list, 1, 2);
    check_rows(rt, &list, [(3, 3), (2, 3), (3, 3)]);
    put_last(&mut list, 2, 1);
    check_rows(rt, &list, [(3, 3), (2, 3), (3, 1)]);
}

#[test]
fn sides_of_three_rows(rt: HostRuntime) {
    check_sides::<u32>(&rt, rt.alloc());
    check_sides::<usize>(&rt, rt.alloc());
}
