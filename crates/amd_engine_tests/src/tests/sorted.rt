// The two engines over a sorted matrix, whose degrees are counted here, and whose pattern the record tells too: the
// engine in place with the words that the degrees ask for, and some more, and the plain one.

ghost use Rattle.std.specs.Prelude.{◌≡◌, ◌<◌, ◌≤◌, ◌+◌, ◌^◌, pos, map, length};
ghost use Rattle.std.specs.Option.{option_copied};
ghost use Rattle.amd_model.specs.Input.Columns.{IsColumnForm, IsSorted};
ghost use Rattle.amd_model.specs.Input.Held.{HasMarks};
ghost use Rattle.amd_model.specs.Input.Pattern.{graph_of};
ghost use Rattle.amd_edges.specs.Visits.{AreCounts, start_of};

use amd_engine::amd_1::{amd_1, holds, order_in};
use amd_engine::rows::Choice;
use amd_input::aat::aat;
use amd_input::valid::valid;
use amd_plain::plain::plain_1;
use amd_types::amd::{Control, Info, Status};
use num_traits::PrimInt;
use std::alloc::{Allocator, Global};
use std::process::Abort;

/// A sorted matrix, and which of its rows are held last.
#[derive(Drop)]
pub struct Sorted<'a> {
    pub n: i64,
    pub a_p: &'a [i64],
    pub a_i: &'a [i64],
    pub hold: Option<&'a [bool]>,
}

/// A matrix of which no row is held last.
pub fn unmarked<'a>(n: i64, a_p: &'a [i64], a_i: &'a [i64]) -> Sorted<'a> {
    Sorted {
        n,
        a_p,
        a_i,
        hold: None,
    }
}

/// Asserts that there is a mark for each of so many rows, where there are marks.
pub fn check_marks(rt: &impl Abort, hold: Option<&[bool]>, size: usize)
    ensures { HasMarks (option_copied hold.entry) size }
{
    if let Some(marks) = hold {
        assert!(rt; marks.len() == size);
    }
}

/// The degrees of a sorted matrix with at least one row, and as many words as an engine in place needs for it, and
/// `more`. The record tells the pattern.
pub fn degrees_of<I: PrimInt>(
    rt: &impl Abort,
    alloc: Global,
    n: I,
    a_p: &[I],
    a_i: &[I],
    more: usize,
    info: &mut Info,
) -> (Vec<usize>, usize)
    ensures size { I.value n ≡ pos (length result.0.items) }
    ensures some { 0 < length result.0.items }
    ensures form { IsColumnForm (pos (length result.0.items)) (length result.0.items) (map I.value a_p.now)
        (map I.value a_i.now) }
    ensures sorted { IsSorted (length result.0.items) (map I.value a_p.now) (map I.value a_i.now) }
    ensures degrees { AreCounts (graph_of (length result.0.items) (map I.value a_p.now) (map I.value a_i.now))
        ((graph_of (length result.0.items) (map I.value a_p.now) (map I.value a_i.now)).edge) result.0.items }
    ensures room { start_of (graph_of (length result.0.items) (map I.value a_p.now) (map I.value a_i.now))
        (length result.0.items) + length result.0.items ≤ result.1 }
    ensures fits { result.1 < 2 ^ 63 }
{
    let Status::OK = valid(n, n, a_p, a_i) else {
        panic!(rt; "not sorted");
    };
    let Ok((sum, degrees)) = aat(alloc, n, a_p, a_i, info) else {
        panic!(rt; "no degrees");
    };
    let size = degrees.len();
    assert!(rt; 0 < size && size < 1 << 60 && sum < 1 << 60 && more < 1 << 60);
    (degrees, sum + size + more)
}

/// Orders by the plain engine.
pub fn order_plainly(
    rt: &impl Abort,
    alloc: Global,
    matrix: &Sorted,
    control: &Control,
    info: &mut Info,
) -> (Vec<i64>, Vec<i64>) {
    let (n, a_p, a_i) = (matrix.n, matrix.a_p, matrix.a_i);
    let (degrees, _) = degrees_of(rt, alloc, n, a_p, a_i, 0, info);
    check_marks(rt, matrix.hold, degrees.len());
    let Ok(answer) = plain_1(alloc, n, a_p, a_i, &degrees, control, matrix.hold, info) else {
        panic!(rt; "no plain answer");
    };
    answer
}

/// Orders by `amd_1`, with so many words to spare. The lists of the engine come from `heap`.
pub fn order_sparing<A: Allocator + Copy>(
    rt: &impl Abort,
    heap: A,
    alloc: Global,
    more: usize,
    matrix: &Sorted,
    control: &Control,
    info: &mut Info,
) -> Result<(Vec<i64, A>, Vec<i64, A>), Status> {
    let (n, a_p, a_i, hold) = (matrix.n, matrix.a_p, matrix.a_i, matrix.hold);
    let (mut degrees, room) = degrees_of(rt, alloc, n, a_p, a_i, more, info);
    check_marks(rt, hold, degrees.len());
    amd_1(heap, n, a_p, a_i, &mut degrees, room, control, hold, info)
}

/// Orders by `amd_1`, with no word to spare.
pub fn order_exactly(
    rt: &impl Abort,
    alloc: Global,
    matrix: &Sorted,
    control: &Control,
    info: &mut Info,
) -> (Vec<i64>, Vec<i64>) {
    let Ok(answer) = order_sparing(rt, alloc, alloc, 0, matrix, control, info) else {
        panic!(rt; "no answer in place");
    };
    answer
}

/// Orders by the engine in place, from a first flag on and with so many words more than it needs. The lists of the
/// engine come from `heap`.
pub fn order_in_place<A: Allocator + Copy>(
    rt: &impl Abort,
    heap: A,
    alloc: Global,
    flag: usize,
    more: usize,
    matrix: &Sorted,
    control: &Control,
    info: &mut Info,
) -> Result<(Vec<i64, A>, Vec<i64, A>), Status> {
    let (n, a_p, a_i, hold) = (matrix.n, matrix.a_p, matrix.a_i, matrix.hold);
    assert!(rt; flag >= 2);
    let (degrees, room) = degrees_of(rt, alloc, n, a_p, a_i, more, info);
    let len = degrees.as_slice();
    check_marks(rt, hold, len.len());
    let choice = Choice {
        control,
        hold,
        flag,
    };
    if holds::<i32, i32, u32>(len.len(), room, flag) {
        return order_in::<i64, i32, i32, u32, A>(heap, n, a_p, a_i, len, room, &choice, info);
    }
    assert!(rt; holds::<isize, isize, usize>(len.len(), room, flag));
    order_in::<i64, isize, isize, usize, A>(heap, n, a_p, a_i, len, room, &choice, info)
}

/// First flags for a matrix of `size` rows: the one of the product, and in each width one far from a reset of the
/// counters, the last four before it, which comes where the flag passes the greatest number of the width less `size`,
/// and the greatest number. Those above the greatest number of 32 bits ask for the wider words.
pub fn first_flags(rt: &impl Abort, size: usize) -> [usize; 13] {
    assert!(rt; size < 1 << 30);
    let narrow = u32::MAX as usize - size;
    let wide = usize::MAX - size;
    [
        2,
        1 << 31,
        narrow - 3,
        narrow - 2,
        narrow - 1,
        narrow,
        u32::MAX as usize,
        1 << 32,
        wide - 3,
        wide - 2,
        wide - 1,
        wide,
        usize::MAX,
    ]
}
