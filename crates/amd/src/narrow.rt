// An ordering of a matrix of 32 bits into the caller's own lists, in words of 32 bits: the places of the permutation
// and of its inverse serve as two of the lists of the elimination until these are written into them. Source: AMD user
// guide; Amestoy, Davis and Duff 1996 and 2004.

ghost use Rattle.std.specs.Prelude.{◌≡◌, ◌<◌, ◌≤◌, ◌+◌, ◌*◌, ◌/◌, ◌^◌, ℕ, false, pos, map, length, slice_index};
ghost use Rattle.std.specs.Prelude.{IfOk, IfErr};
ghost use Rattle.std.specs.Option.{option_copied};
ghost use Rattle.amd_model.specs.Input.Pattern.{is_pair};
ghost use Rattle.amd_engine.specs.InPlace.{values};
ghost use Rattle.amd_lists.specs.Sizes.{AreWideEnough};
ghost use Rattle.amd_types.specs.Naturals.{naturals};
ghost use Rattle.amd_workspace.specs.Lists.{HasRoom, HasRoomBeside};
ghost use Rattle.amd.specs.Answers.{IsOrderingHolding, OrdersMatrix};
ghost use Rattle.amd.specs.Within.{IsGiven, IsGivenBy, IsIntoRefusal, OrdersGiven, list_words};

use crate::entrance::jumbled_of;
use crate::once::{most_words, order_once};
use crate::request::{Matrix, Request};
use crate::widths::WorkspaceIn;
use crate::within::{count_degrees, order_sorted_lent};
use crate::workspace::valid_rows;
use amd_engine::amd_1::{ask_for_most, holds};
use amd_input::preprocess::row_form_with;
use amd_types::amd::{Control, Info, Status};
use amd_types::index::Index;
use amd_types::internal::count_at;
use amd_workspace::lists::Memory;
use std::alloc::{AllocError, Allocator};

/// Orders a matrix with sorted columns in memory with room for its rows; that of its words is taken here.
///
/// # Errors
///
/// A refused request for memory. `p` and `p_inv` are then as before.
fn order_counted<J: Index, A: Allocator + Copy>(
    alloc: A,
    memory: &mut Memory<i32, i32, u32, A>,
    a_p: &[J],
    a_i: &[J],
    request: &Request<'_>,
    p: &mut [i32],
    p_inv: &mut [i32],
) -> Result<Info, AllocError>
    requires given { IsGiven (option_copied request.now.hold) false (map J.value a_p.now) (map J.value a_i.now)
        (length p.old) (length p_inv.old) }
    requires room { HasRoomBeside (length p.old) 0 memory.old }
    requires narrow { AreWideEnough 2147483647 2147483647 4294967295 (length p.old)
        (2 * slice_index (naturals (map J.value a_p.now)) (length p.old)
        + 2 * slice_index (naturals (map J.value a_p.now)) (length p.old) / 5 + length p.old) }
    ensures orders { IfOk result (OrdersMatrix (option_copied request.now.hold) (length p.old)
        request.now.control.now (is_pair (length p.old) (map J.value a_p.now) (map J.value a_i.now))
        (map J.value a_p.now) (map J.value a_i.now) (values p.new) (values p_inv.new)) }
    ensures kept { IfErr result (λ e. (p.new ≡ p.old) × (p_inv.new ≡ p_inv.old)) }
{
    let size = p.len();
    let mut info = Info::new(size);
    let nzaat = count_degrees(memory, size, a_p, a_i, &mut info);
    let room = nzaat + nzaat / 5 + size;
    memory.words.iw = Vec::with_capacity(alloc, room)?;
    order_sorted_lent(memory, a_p, a_i, room, request, p, p_inv, &mut info);
    Ok(info)
}

/// Orders a matrix, by its transpose where it is jumbled.
///
/// # Errors
///
/// A refused request for memory. `p` and `p_inv` are then as before.
fn order_in<A: Allocator + Copy>(
    alloc: A,
    matrix: &Matrix<'_, i32>,
    request: &Request<'_>,
    p: &mut [i32],
    p_inv: &mut [i32],
) -> Result<Info, AllocError>
    requires given { IsGivenBy (λ x. x) matrix.now request.now (length p.old) (length p_inv.old) }
    requires narrow { AreWideEnough 2147483647 2147483647 4294967295 (length p.old)
        (2 * slice_index (naturals (values matrix.now.a_p.now)) (length p.old)
        + 2 * slice_index (naturals (values matrix.now.a_p.now)) (length p.old) / 5 + length p.old) }
    ensures orders { IfOk result (OrdersGiven (λ x. x) matrix.now request.now (length p.old) (values p.new)
        (values p_inv.new)) }
    ensures kept { IfErr result (λ e. (p.new ≡ p.old) × (p_inv.new ≡ p_inv.old)) }
{
    let size = p.len();
    let mut memory = Memory::beside(alloc, size, 0)?;
    let (a_p, a_i) = (matrix.a_p, matrix.a_i);
    if !matrix.jumbled {
        return order_counted(alloc, &mut memory, a_p, a_i, request, p, p_inv);
    }
    let (c_p, c_i): (Vec<i32, A>, Vec<i32, A>) = row_form_with(
        alloc,
        size,
        a_p,
        a_i,
        &mut memory.lists.w,
        &mut memory.words.next,
    )?;
    order_counted(alloc, &mut memory, &c_p, &c_i, request, p, p_inv)
}

/// As `order_once`, but where words of 32 bits hold all numbers, `p` and `p_inv` serve as two of the lists.
///
/// # Errors
///
/// As `order_once`. `p` and `p_inv` are then as before.
fn order_lending<A: Allocator + Copy>(
    alloc: A,
    matrix: &Matrix<'_, i32>,
    request: &Request<'_>,
    p: &mut [i32],
    p_inv: &mut [i32],
) -> Result<Info, AllocError>
    requires given { IsGivenBy (λ x. x) matrix.now request.now (length p.old) (length p_inv.old) }
    requires fits { length p.old < 2 ^ 31 }
    ensures orders { IfOk result (OrdersGiven (λ x. x) matrix.now request.now (length p.old) (values p.new)
        (values p_inv.new)) }
    ensures kept { IfErr result (λ e. (p.new ≡ p.old) × (p_inv.new ≡ p_inv.old)) }
{
    let size = p.len();
    let entries = count_at(matrix.a_p, size);
    let Some(most) = most_words(size, entries) else {
        return Err(AllocError);
    };
    if !holds::<i32, i32, u32>(size, most, 2) {
        return order_once(alloc, matrix, request, p, p_inv);
    }
    ask_for_most(alloc, size, 7, entries + entries / 5 + size)?;
    order_in(alloc, matrix, request, p, p_inv)
}

/// Orders the rows of a square matrix as [`crate::order_into`] does. It asks for two lists less where words of 32 bits
/// hold all numbers of the elimination: `p` and `p_inv` serve in their place until the permutation and its inverse are
/// written into them.
///
/// # Errors
///
/// As `order_into`. After an error `p` and `p_inv` are as before.
///
/// Source: AMD user guide; Amestoy, Davis and Duff 1996 and 2004.
pub fn order_into_narrow<A: Allocator + Copy>(
    alloc: A,
    n: i32,
    a_p: &[i32],
    a_i: &[i32],
    control: &Control,
    hold: Option<&[bool]>,
    p: &mut [i32],
    p_inv: &mut [i32],
) -> Result<Info, Status>
    ensures ordering { IfOk result (λ info. IsOrderingHolding (option_copied hold.entry) n control.now.dense
        control.now.aggressive (values a_p.now) (values a_i.now) (values p.new) (values p_inv.new) info) }
    ensures refusal { IfErr result (IsIntoRefusal (option_copied hold.entry) n (values a_p.now) (values a_i.now)
        (values p.old) (values p_inv.old)) }
    ensures kept { IfErr result (λ e. (p.new ≡ p.old) × (p_inv.new ≡ p_inv.old)) }
{
    let Some((size, status)) = valid_rows(n, a_p, a_i, hold, p, p_inv) else {
        return Err(Status::Invalid);
    };
    if size == 0 {
        return Ok(Info::new(0));
    }
    let Some(jumbled) = jumbled_of(&status) else {
        unreachable!()
    };
    let request = Request { control, hold };
    let mut info = order_lending(alloc, &Matrix { a_p, a_i, jumbled }, &request, p, p_inv)?;
    info.status = status;
    Ok(info)
}

/// Orders a matrix with sorted columns in memory for so many words: in as many of them as upstream takes, or in all.
/// The lists of the numbers of rows and of elements of the memory are not used.
pub fn order_columns_lent<J: Index, A: Allocator + Copy>(
    memory: &mut Memory<i32, i32, u32, A>,
    words: usize,
    a_p: &[J],
    a_i: &[J],
    request: &Request<'_>,
    p: &mut [i32],
    p_inv: &mut [i32],
    info: &mut Info,
)
    requires given { IsGiven (option_copied request.now.hold) false (map J.value a_p.now) (map J.value a_i.now)
        (length p.old) (length p_inv.old) }
    requires room { HasRoom (length p.old) words memory.old }
    requires words { list_words (length p.old) (slice_index (naturals (map J.value a_p.now)) (length p.old)) ≤ words }
    requires narrow { AreWideEnough 2147483647 2147483647 4294967295 (length p.old) words }
    ensures orders { OrdersMatrix (option_copied request.now.hold) (length p.old) request.now.control.now
        (is_pair (length p.old) (map J.value a_p.now) (map J.value a_i.now)) (map J.value a_p.now)
        (map J.value a_i.now) (values p.new) (values p_inv.new) info.new }
    ensures status { info.new.status ≡ info.old.status }
    ensures room { (n count : ℕ) → HasRoom n count memory.old → HasRoom n count memory.new }
{
    let size = p.len();
    let nzaat = count_degrees(memory, size, a_p, a_i, info);
    let room = (nzaat + nzaat / 5 + size).min(words);
    order_sorted_lent(memory, a_p, a_i, room, request, p, p_inv, info);
}

impl<A: Allocator + Copy> WorkspaceIn<i32, i32, i32, u32, A> {
    /// As [`WorkspaceIn::order`], for a matrix of 32 bits: until the permutation and its inverse are written into them,
    /// `p` and `p_inv` serve as two of the lists.
    pub fn order_lending(
        &mut self,
        matrix: &Matrix<'_, i32>,
        request: &Request<'_>,
        p: &mut [i32],
        p_inv: &mut [i32],
        info: &mut Info,
    )
        requires inside { (length p.old ≤ self.old.rows) ×
            (slice_index (naturals (values matrix.now.a_p.now)) (length p.old) ≤ self.old.entries) }
        requires given { IsGivenBy (λ x. x) matrix.now request.now (length p.old) (length p_inv.old) }
        ensures orders { OrdersGiven (λ x. x) matrix.now request.now (length p.old) (values p.new)
            (values p_inv.new) info.new }
        ensures status { info.new.status ≡ info.old.status }
        ensures made { (self.new.rows ≡ self.old.rows) × (self.new.entries ≡ self.old.entries) }
    {
        let words = 2 * self.entries + self.rows;
        let (a_p, a_i) = (matrix.a_p, matrix.a_i);
        if !matrix.jumbled {
            order_columns_lent(&mut self.memory, words, a_p, a_i, request, p, p_inv, info);
            return;
        }
        self.transpose(p.len(), matrix);
        let (c_p, c_i) = (&self.pointers, &self.columns);
        order_columns_lent(&mut self.memory, words, c_p, c_i, request, p, p_inv, info);
    }
}
