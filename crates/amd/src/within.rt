// An ordering of a matrix with sorted columns in memory that was taken before: its degrees are counted into it, and its
// rows are eliminated in it. Nothing here asks for memory. Source: AMD user guide; Amestoy, Davis and Duff 1996 and
// 2004.

ghost use Rattle.std.specs.Prelude.{◌≡◌, ◌<◌, ◌≤◌, ◌*◌, ◌^◌, ℕ, pos, map, length, slice_index, false};
ghost use Rattle.std.specs.Option.{option_copied};
ghost use Rattle.amd_model.specs.Input.Columns.{IsColumnForm, IsSorted};
ghost use Rattle.amd_model.specs.Input.Pattern.{is_pair};
ghost use Rattle.amd_lists.specs.Sizes.{AreWideEnough};
ghost use Rattle.amd_types.specs.Naturals.{naturals};
ghost use Rattle.amd_input.specs.Degrees.{AreDegrees};
ghost use Rattle.amd_input.specs.PatternFigures.{HasPatternFigures};
ghost use Rattle.amd_workspace.specs.Lists.{HasRoom, HasRoomBeside};
ghost use Rattle.amd.specs.Answers.{OrdersMatrix};
ghost use Rattle.amd.specs.Within.{AreCounted, IsGiven};
ghost use Rattle.amd_engine.specs.InPlace.{values};

use crate::request::Request;
use amd_engine::amd_1::{order_within, order_within_lent};
use amd_engine::rows::Choice;
use amd_input::aat::{DegreeCounter, aat_within};
use amd_types::amd::Info;
use amd_types::index::Index;
use amd_words::{Signed, Unsigned};
use amd_workspace::lists::Memory;
use std::alloc::Allocator;
use std::mem::replace;

/// Counts the degree of each of `size` rows into the memory, and answers their sum; writes the figures of the pattern.
///
/// The input is a column form with `size` rows and columns, each of which is strictly ascending. The memory has room
/// for so many rows, but maybe none for the numbers of rows and of elements, and keeps it. A cell can hold `size`
/// and the number of entries.
///
/// Source: AMD user guide; Amestoy, Davis and Duff 2004.
pub fn count_degrees<J: Index, S: Signed, P: Signed, U: Unsigned, A: Allocator + Copy>(
    memory: &mut Memory<S, P, U, A>,
    size: usize,
    a_p: &[J],
    a_i: &[J],
    info: &mut Info,
) -> usize
    requires form { IsColumnForm (pos size) size (map J.value a_p.now) (map J.value a_i.now) }
    requires sorted { IsSorted size (map J.value a_p.now) (map J.value a_i.now) }
    requires room { HasRoomBeside size 0 memory.old }
    requires fits { (size ≤ U.MOST) × (slice_index (naturals (map J.value a_p.now)) size ≤ U.MOST) }
    requires small { 2 * slice_index (naturals (map J.value a_p.now)) size < 2 ^ 64 }
    ensures degrees { AreDegrees size (map J.value a_p.now) (map J.value a_i.now) result memory.new.len.items }
    ensures few { result ≤ 2 * slice_index (naturals (map J.value a_p.now)) size }
    ensures figures { HasPatternFigures size (map J.value a_p.now) (map J.value a_i.now) info.new }
    ensures status { info.new.status ≡ info.old.status }
    ensures room { (n count : ℕ) → HasRoom n count memory.old → HasRoom n count memory.new }
    ensures beside { (n count : ℕ) → HasRoomBeside n count memory.old → HasRoomBeside n count memory.new }
{
    let alloc = *memory.len.allocator();
    let degrees = replace(&mut memory.len, Vec::new(alloc));
    let mut counter = DegreeCounter { degrees };
    let sum = aat_within(size, a_p, a_i, &mut memory.words.next, &mut counter, info);
    memory.len = counter.degrees;
    sum
}

/// Orders a matrix with sorted columns, whose degrees stand in the memory, in at most `room` words; the record has the
/// figures of its pattern.
///
/// Writes the permutation into `p` and its inverse into `p_inv`, which have a place for each row, and the other figures
/// into `info`, of which the status stays.
///
/// Source: Amestoy, Davis and Duff 1996 and 2004.
pub fn order_sorted<I: Index, J: Index, S: Signed, P: Signed, U: Unsigned, A: Allocator + Copy>(
    memory: &mut Memory<S, P, U, A>,
    a_p: &[J],
    a_i: &[J],
    room: usize,
    request: &Request<'_>,
    p: &mut [I],
    p_inv: &mut [I],
    info: &mut Info,
)
    requires given { IsGiven (option_copied request.now.hold) false (map J.value a_p.now) (map J.value a_i.now)
        (length p.old) (length p_inv.old) }
    requires fits { (k : ℕ) → k < length p.old → I.fits (pos k) }
    requires counted { AreCounted (length p.old) (map J.value a_p.now) (map J.value a_i.now) room
        memory.old.len.items }
    requires figures { HasPatternFigures (length p.old) (map J.value a_p.now) (map J.value a_i.now) info.old }
    requires room { HasRoom (length p.old) room memory.old }
    requires narrow { AreWideEnough S.MOST P.MOST U.MOST (length p.old) room }
    requires pointers { slice_index (naturals (map J.value a_p.now)) (length p.old) ≤ U.MOST }
    ensures orders { OrdersMatrix (option_copied request.now.hold) (length p.old) request.now.control.now
        (is_pair (length p.old) (map J.value a_p.now) (map J.value a_i.now)) (map J.value a_p.now)
        (map J.value a_i.now) (map I.value p.new) (map I.value p_inv.new) info.new }
    ensures status { info.new.status ≡ info.old.status }
    ensures room { (n count : ℕ) → HasRoom n count memory.old → HasRoom n count memory.new }
{
    let choice = Choice {
        control: request.control,
        hold: request.hold,
        flag: 2,
    };
    order_within(memory, a_p, a_i, room, &choice, p, p_inv, info);
}

/// As `order_sorted`, for a permutation of 32 bits in words of 32 bits: until the permutation and its inverse are
/// written into them, `p` and `p_inv` serve as the lists of the numbers of rows and of elements. Those of the memory
/// stay as they are.
///
/// Source: Amestoy, Davis and Duff 1996 and 2004.
pub fn order_sorted_lent<J: Index, U: Unsigned, A: Allocator + Copy>(
    memory: &mut Memory<i32, i32, U, A>,
    a_p: &[J],
    a_i: &[J],
    room: usize,
    request: &Request<'_>,
    p: &mut [i32],
    p_inv: &mut [i32],
    info: &mut Info,
)
    requires given { IsGiven (option_copied request.now.hold) false (map J.value a_p.now) (map J.value a_i.now)
        (length p.old) (length p_inv.old) }
    requires counted { AreCounted (length p.old) (map J.value a_p.now) (map J.value a_i.now) room
        memory.old.len.items }
    requires figures { HasPatternFigures (length p.old) (map J.value a_p.now) (map J.value a_i.now) info.old }
    requires room { HasRoomBeside (length p.old) room memory.old }
    requires narrow { AreWideEnough 2147483647 2147483647 U.MOST (length p.old) room }
    requires pointers { slice_index (naturals (map J.value a_p.now)) (length p.old) ≤ U.MOST }
    ensures orders { OrdersMatrix (option_copied request.now.hold) (length p.old) request.now.control.now
        (is_pair (length p.old) (map J.value a_p.now) (map J.value a_i.now)) (map J.value a_p.now)
        (map J.value a_i.now) (values p.new) (values p_inv.new) info.new }
    ensures status { info.new.status ≡ info.old.status }
    ensures room { (n count : ℕ) → HasRoom n count memory.old → HasRoom n count memory.new }
{
    let choice = Choice {
        control: request.control,
        hold: request.hold,
        flag: 2,
    };
    order_within_lent(memory, a_p, a_i, room, &choice, p, p_inv, info);
}
