// Memory that is taken once, for the orderings of all matrices with at most so many rows and entries: behind the making
// of a workspace no call asks for any, and so nothing but the input is a reason to refuse. Source: AMD user guide;
// Amestoy, Davis and Duff 1996 and 2004.

ghost use Rattle.std.specs.Prelude.{◌≡◌, ◌≢◌, ◌≤◌, ◌<◌, ◌+◌, ◌*◌, ◌/◌, ◌^◌, ℕ, Some, None, pos, map, length};
ghost use Rattle.std.specs.Prelude.{slice_index, IfOk, IfErr, IfSome, IsSome, MatchOption, ◌↔◌};
ghost use Rattle.std.specs.Option.{option_copied};
ghost use Rattle.amd_model.specs.Input.Held.{HasMarks};
ghost use Rattle.amd_types.specs.Naturals.{naturals};
ghost use Rattle.amd_types.specs.Statuses.{IsStatusOf};
ghost use Rattle.amd.specs.Answers.{IsOrdering, IsOrderingHolding};
ghost use Rattle.amd.specs.Blocks.{workspace_bytes, workspace_words};
ghost use Rattle.amd_count_laws.specs.Within.{FitsIn};
ghost use Rattle.amd.specs.Within.{IsCall, IsGivenBy, IsWithinRefusal, OrdersGiven};
ghost use Rattle.amd.specs.Workspaces.{IsMadeFor, entries_of, rows_of, words_of};
ghost use Rattle.amd_engine.specs.InPlace.{values};

use crate::entrance::{class_of, jumbled_of};
use crate::once::most_words;
use crate::refusal::Refusal;
use crate::request::{Matrix, Request};
use crate::widths::WorkspaceIn;
use amd_engine::amd_1::holds;
use amd_lent::{Lodged, Piece};
use amd_types::amd::{Control, Info, Status};
use amd_types::index::Index;
use amd_types::internal::{count_at, to_count};
use num_traits::PrimInt;
use std::alloc::{AllocError, Allocator};

/// A workspace in the least widths that its rows and entries need.
#[derive(Drop)]
pub enum Widths<A: Allocator> {
    /// All numbers have 32 bits.
    Narrow(WorkspaceIn<i32, i32, i32, u32, A>),
    /// Places in the words have 64 bits, with a sign.
    Places(WorkspaceIn<i32, i32, isize, u32, A>),
    /// The words alone have 32 bits.
    Words(WorkspaceIn<isize, i32, isize, usize, A>),
    /// All numbers have 64 bits.
    Wide(WorkspaceIn<isize, isize, isize, usize, A>),
}

/// The memory of the orderings of all matrices with at most so many rows and entries.
pub struct Workspace<A: Allocator> {
    rows: usize,
    entries: usize,
    widths: Widths<A>,
    ghost made: { IsMadeFor rows entries widths },
}

/// The lists of each width are given back in one function, not anew wherever a workspace ends.
impl<A: Allocator> Drop for Workspace<A> {
    fn drop(self) {
        let Workspace {
            rows: _,
            entries: _,
            widths: _,
        } = self;
    }
}

/// The lists of a workspace for so many rows and entries.
///
/// # Errors
///
/// A refused request for memory, or no width holds `rows + 2`.
fn widths_for<A: Allocator + Copy>(
    alloc: A,
    rows: usize,
    entries: usize,
) -> Result<Widths<A>, AllocError>
    requires few { 2 * entries + 2 * entries / 5 + rows < 2 ^ 63 }
    ensures made { IfOk result (IsMadeFor rows entries) }
    ensures words { IfOk result (λ w. words_of w ≡ workspace_words rows entries) }
{
    let words = 2 * entries + rows;
    if holds::<i32, i32, u32>(rows, words, 2) {
        return Ok(Widths::Narrow(WorkspaceIn::new(alloc, rows, entries)?));
    }
    if holds::<i32, isize, u32>(rows, words, 2) {
        return Ok(Widths::Places(WorkspaceIn::new(alloc, rows, entries)?));
    }
    if holds::<i32, isize, usize>(rows, words, 2) {
        return Ok(Widths::Words(WorkspaceIn::new(alloc, rows, entries)?));
    }
    if holds::<isize, isize, usize>(rows, words, 2) {
        return Ok(Widths::Wide(WorkspaceIn::new(alloc, rows, entries)?));
    }
    Err(AllocError)
}

/// How many rows a matrix has, and its status; none, exactly where the call is not valid: the input is no column form,
/// or there is not one mark for each row where there are marks, or a list has not one place for each row.
pub fn valid_rows<I: Index>(
    n: I,
    a_p: &[I],
    a_i: &[I],
    hold: Option<&[bool]>,
    p: &[I],
    p_inv: &[I],
) -> Option<(usize, Status)>
    requires fits { I.fits (I.value n) }
    ensures size { IfSome result (λ r. pos r.0 ≡ I.value n) }
    ensures places { IfSome result (λ r. (length p.now ≡ r.0) × (length p_inv.now ≡ r.0)) }
    ensures marks { IfSome result (λ r. r.0 ≢ 0 → HasMarks (option_copied hold.entry) r.0) }
    ensures valid { IfSome result (λ r. r.0 ≢ 0 → r.1 ≢ Status.Invalid) }
    ensures status { IfSome result (λ r. r.0 ≢ 0 →
        IsStatusOf (I.value n) (I.value n) (map I.value a_p.now) (map I.value a_i.now) r.1) }
    ensures call { IsSome result ↔ IsCall (option_copied hold.entry) (I.value n) (map I.value a_p.now)
        (map I.value a_i.now) (map I.value p.now) (map I.value p_inv.now) }
{
    let size = to_count(n)?;
    if p.len() != size || p_inv.len() != size {
        return None;
    }
    if size == 0 {
        return Some((0, Status::OK));
    }
    let status = class_of(n, size, a_p, a_i, hold);
    if jumbled_of(&status).is_none() {
        return None;
    }
    Some((size, status))
}

/// How many rows a matrix has that fits in a workspace, and its status; and whether it is jumbled, where it has rows.
///
/// # Errors
///
/// Those of a workspace.
fn fitting_rows<I: Index>(
    n: I,
    a_p: &[I],
    a_i: &[I],
    hold: Option<&[bool]>,
    p: &[I],
    p_inv: &[I],
    rows: usize,
    entries: usize,
) -> Result<(usize, Status), Refusal>
    requires fits { I.fits (I.value n) }
    ensures size { IfOk result (λ r. pos r.0 ≡ I.value n) }
    ensures places { IfOk result (λ r. (length p.now ≡ r.0) × (length p_inv.now ≡ r.0)) }
    ensures marks { IfOk result (λ r. r.0 ≢ 0 → HasMarks (option_copied hold.entry) r.0) }
    ensures valid { IfOk result (λ r. r.0 ≢ 0 → r.1 ≢ Status.Invalid) }
    ensures status { IfOk result (λ r. r.0 ≢ 0 →
        IsStatusOf (I.value n) (I.value n) (map I.value a_p.now) (map I.value a_i.now) r.1) }
    ensures inside { IfOk result (λ r. FitsIn (I.value n) (map I.value a_p.now) rows entries) }
    ensures refused { IfErr result (IsWithinRefusal (option_copied hold.entry) (I.value n) (map I.value a_p.now)
        (map I.value a_i.now) (map I.value p.now) (map I.value p_inv.now) rows entries) }
{
    let Some((size, status)) = valid_rows(n, a_p, a_i, hold, p, p_inv) else {
        return Err(Refusal::Invalid);
    };
    if size != 0 && (size > rows || count_at(a_p, size) > entries) {
        return Err(Refusal::TooLarge);
    }
    Ok((size, status))
}

impl<A: Allocator + Copy> Widths<A> {
    /// Orders a matrix that fits, as [`WorkspaceIn::order`] does.
    pub fn order<I: Index>(
        &mut self,
        matrix: &Matrix<'_, I>,
        request: &Request<'_>,
        p: &mut [I],
        p_inv: &mut [I],
        info: &mut Info,
    )
        requires inside { (length p.old ≤ rows_of self.old) ×
            (slice_index (naturals (map I.value matrix.now.a_p.now)) (length p.old) ≤ entries_of self.old) }
        requires given { IsGivenBy I.value matrix.now request.now (length p.old) (length p_inv.old) }
        requires fits { (k : ℕ) → k < length p.old → I.fits (pos k) }
        ensures orders { OrdersGiven I.value matrix.now request.now (length p.old) (map I.value p.new)
            (map I.value p_inv.new) info.new }
        ensures status { info.new.status ≡ info.old.status }
        ensures made { IsMadeFor (rows_of self.old) (entries_of self.old) self.new }
    {
        match self {
            Widths::Narrow(lists) => lists.order(matrix, request, p, p_inv, info),
            Widths::Places(lists) => lists.order(matrix, request, p, p_inv, info),
            Widths::Words(lists) => lists.order(matrix, request, p, p_inv, info),
            Widths::Wide(lists) => lists.order(matrix, request, p, p_inv, info),
        }
    }

    /// Orders a matrix of 32 bits that fits. Where its workspace has words of 32 bits, `p` and `p_inv` serve as two of
    /// the lists until the permutation and its inverse are written into them.
    pub fn order_lending(
        &mut self,
        matrix: &Matrix<'_, i32>,
        request: &Request<'_>,
        p: &mut [i32],
        p_inv: &mut [i32],
        info: &mut Info,
    )
        requires inside { (length p.old ≤ rows_of self.old) ×
            (slice_index (naturals (values matrix.now.a_p.now)) (length p.old) ≤ entries_of self.old) }
        requires given { IsGivenBy (λ x. x) matrix.now request.now (length p.old) (length p_inv.old) }
        requires fits { length p.old < 2 ^ 31 }
        ensures orders { OrdersGiven (λ x. x) matrix.now request.now (length p.old) (values p.new)
            (values p_inv.new) info.new }
        ensures status { info.new.status ≡ info.old.status }
        ensures made { IsMadeFor (rows_of self.old) (entries_of self.old) self.new }
    {
        match self {
            Widths::Narrow(lists) => lists.order_lending(matrix, request, p, p_inv, info),
            _ => self.order(matrix, request, p, p_inv, info),
        }
    }
}

impl Workspace<Lodged> {
    /// The workspace of the orderings of all matrices with at most so many rows and entries, jumbled or not, in a block
    /// that the caller lends; none, exactly where it has fewer than [`crate::workspace_bytes`] bytes.
    pub fn in_block(block: Piece, rows: usize, entries: usize) -> Option<Workspace<Lodged>>
        ensures { MatchOption result (block.size < workspace_bytes rows entries)
            (λ w. (workspace_bytes rows entries ≤ block.size) × (w.rows ≡ rows) × (w.entries ≡ entries)) }
    {
        let widths = Widths::in_block(block, rows, entries)?;
        Some(Workspace {
            rows,
            entries,
            widths,
        })
    }
}

impl<A: Allocator + Copy> Workspace<A> {
    /// Takes the memory of the orderings of all matrices with at most so many rows and entries, jumbled or not.
    ///
    /// These are `workspace_words(rows, entries)`: three words for each entry, eleven for each row and one for each
    /// sixteen rows begun, and one, of 32 bits each where that is wide enough. They are two for each entry and one for
    /// each row for the lists of neighbours, nine lists of a word for each row, the buckets, and the transpose of a
    /// jumbled matrix. The lists have room for so many, and no more. A call that follows asks for none.
    ///
    /// # Errors
    ///
    /// A refused request for memory; or the words of a matrix, with the fifth more that `order` takes, could be more
    /// than `isize::MAX`.
    pub fn new(alloc: A, rows: usize, entries: usize) -> Result<Workspace<A>, AllocError>
        ensures rows { IfOk result (λ w. w.rows ≡ rows) }
        ensures entries { IfOk result (λ w. w.entries ≡ entries) }
        ensures words { IfOk result (λ w. words_of w.widths ≡ workspace_words rows entries) }
    {
        if most_words(rows, entries).is_none() {
            return Err(AllocError);
        }
        let widths = widths_for(alloc, rows, entries)?;
        Ok(Workspace {
            rows,
            entries,
            widths,
        })
    }

    /// Orders as `order` and, where there are marks, as `order_holding`.
    fn order_marked<I: Index>(
        &mut self,
        n: I,
        a_p: &[I],
        a_i: &[I],
        request: &Request<'_>,
        p: &mut [I],
        p_inv: &mut [I],
    ) -> Result<Info, Refusal>
        requires fits { I.fits (I.value n) }
        ensures ordering { IfOk result (λ info. IsOrderingHolding (option_copied request.now.hold) (I.value n)
            request.now.control.now.dense request.now.control.now.aggressive (map I.value a_p.now) (map I.value a_i.now)
            (map I.value p.new) (map I.value p_inv.new) info) }
        ensures inside { IfOk result (λ info. FitsIn (I.value n) (map I.value a_p.now) self.old.rows self.old.entries) }
        ensures refusal { IfErr result (IsWithinRefusal (option_copied request.now.hold) (I.value n)
            (map I.value a_p.now) (map I.value a_i.now) (map I.value p.old) (map I.value p_inv.old) self.old.rows
            self.old.entries) }
        ensures kept { IfErr result (λ e. (p.new ≡ p.old) × (p_inv.new ≡ p_inv.old) × (self.new ≡ self.old)) }
        ensures made { (self.new.rows ≡ self.old.rows) × (self.new.entries ≡ self.old.entries) }
    {
        let hold = request.hold;
        let (size, status) = fitting_rows(n, a_p, a_i, hold, p, p_inv, self.rows, self.entries)?;
        let mut info = Info::new(size);
        if size == 0 {
            return Ok(info);
        }
        let Some(jumbled) = jumbled_of(&status) else {
            unreachable!()
        };
        info.status = status;
        self.widths.order(&Matrix { a_p, a_i, jumbled }, request, p, p_inv, &mut info);
        Ok(info)
    }

    /// Orders the rows of a square matrix by the pattern of `A + A'`, as [`crate::order`] does, with no request for
    /// memory; writes the permutation into `p` and its inverse into `p_inv`, and returns the record.
    ///
    /// `p` and `p_inv` have `n` places each. The answer does not depend on what the workspace ordered before. The words
    /// of the lists are as many as `order` takes, where the workspace has so many, and else all; the count of
    /// compactions, `n_cmp_a`, is that of so many words.
    ///
    /// # Errors
    ///
    /// * `Invalid` exactly where `n` is not 0 and the input is no column form, or `p` or `p_inv` has not `n` places.
    /// * `TooLarge` exactly where the call is valid, and the matrix has more rows or entries than the workspace was
    ///   made for.
    ///
    /// No other refusal. After one, `p`, `p_inv` and the workspace are as before.
    ///
    /// Source: AMD user guide; Amestoy, Davis and Duff 1996 and 2004.
    pub fn order<I: PrimInt>(
        &mut self,
        n: I,
        a_p: &[I],
        a_i: &[I],
        control: &Control,
        p: &mut [I],
        p_inv: &mut [I],
    ) -> Result<Info, Refusal>
        // A number of a primitive type is always in range.
        requires fits { I.fits (I.value n) }
        ensures ordering { IfOk result (λ info. IsOrdering (I.value n) control.now.dense control.now.aggressive
            (map I.value a_p.now) (map I.value a_i.now) (map I.value p.new) (map I.value p_inv.new) info) }
        ensures inside { IfOk result (λ info. FitsIn (I.value n) (map I.value a_p.now) self.old.rows self.old.entries) }
        ensures refusal { IfErr result (IsWithinRefusal None (I.value n) (map I.value a_p.now) (map I.value a_i.now)
            (map I.value p.old) (map I.value p_inv.old) self.old.rows self.old.entries) }
        ensures kept { IfErr result (λ e. (p.new ≡ p.old) × (p_inv.new ≡ p_inv.old) × (self.new ≡ self.old)) }
        ensures made { (self.new.rows ≡ self.old.rows) × (self.new.entries ≡ self.old.entries) }
    {
        let hold = None;
        self.order_marked(n, a_p, a_i, &Request { control, hold }, p, p_inv)
    }

    /// Orders as [`Workspace::order`] does, with the rows marked in `hold` held last beside the dense ones, as
    /// [`crate::order_holding`] does.
    ///
    /// # Errors
    ///
    /// As `order`; and `Invalid` also where `n` is not 0 and `hold` has not one mark for each of the `n` rows.
    ///
    /// Source: AMD user guide; Amestoy, Davis and Duff 1996 and 2004.
    pub fn order_holding<I: PrimInt>(
        &mut self,
        n: I,
        a_p: &[I],
        a_i: &[I],
        control: &Control,
        hold: &[bool],
        p: &mut [I],
        p_inv: &mut [I],
    ) -> Result<Info, Refusal>
        // A number of a primitive type is always in range.
        requires fits { I.fits (I.value n) }
        ensures ordering { IfOk result (λ info. IsOrderingHolding (Some hold.now) (I.value n) control.now.dense
            control.now.aggressive (map I.value a_p.now) (map I.value a_i.now) (map I.value p.new)
            (map I.value p_inv.new) info) }
        ensures inside { IfOk result (λ info. FitsIn (I.value n) (map I.value a_p.now) self.old.rows self.old.entries) }
        ensures refusal { IfErr result (IsWithinRefusal (Some hold.now) (I.value n) (map I.value a_p.now)
            (map I.value a_i.now) (map I.value p.old) (map I.value p_inv.old) self.old.rows self.old.entries) }
        ensures kept { IfErr result (λ e. (p.new ≡ p.old) × (p_inv.new ≡ p_inv.old) × (self.new ≡ self.old)) }
        ensures made { (self.new.rows ≡ self.old.rows) × (self.new.entries ≡ self.old.entries) }
    {
        let hold = Some(hold);
        self.order_marked(n, a_p, a_i, &Request { control, hold }, p, p_inv)
    }

    /// Orders as `order_narrow` and, where there are marks, as `order_holding_narrow`.
    fn order_marked_narrow(
        &mut self,
        n: i32,
        a_p: &[i32],
        a_i: &[i32],
        request: &Request<'_>,
        p: &mut [i32],
        p_inv: &mut [i32],
    ) -> Result<Info, Refusal>
        ensures ordering { IfOk result (λ info. IsOrderingHolding (option_copied request.now.hold) n
            request.now.control.now.dense request.now.control.now.aggressive (values a_p.now) (values a_i.now)
            (values p.new) (values p_inv.new) info) }
        ensures inside { IfOk result (λ info. FitsIn n (values a_p.now) self.old.rows self.old.entries) }
        ensures refusal { IfErr result (IsWithinRefusal (option_copied request.now.hold) n (values a_p.now)
            (values a_i.now) (values p.old) (values p_inv.old) self.old.rows self.old.entries) }
        ensures kept { IfErr result (λ e. (p.new ≡ p.old) × (p_inv.new ≡ p_inv.old) × (self.new ≡ self.old)) }
        ensures made { (self.new.rows ≡ self.old.rows) × (self.new.entries ≡ self.old.entries) }
    {
        let hold = request.hold;
        let (size, status) = fitting_rows(n, a_p, a_i, hold, p, p_inv, self.rows, self.entries)?;
        if size == 0 {
            return Ok(Info::new(0));
        }
        let Some(jumbled) = jumbled_of(&status) else {
            unreachable!()
        };
        let mut told = Info::new(size);
        told.status = status;
        self.widths.order_lending(&Matrix { a_p, a_i, jumbled }, request, p, p_inv, &mut told);
        Ok(told)
    }

    /// Orders as [`Workspace::order`] does, for numbers of 32 bits. Where the words of the workspace have 32 bits, `p`
    /// and `p_inv` serve as two of the lists until the permutation and its inverse are written into them.
    ///
    /// # Errors
    ///
    /// As `order`.
    ///
    /// Source: AMD user guide; Amestoy, Davis and Duff 1996 and 2004.
    pub fn order_narrow(
        &mut self,
        n: i32,
        a_p: &[i32],
        a_i: &[i32],
        control: &Control,
        p: &mut [i32],
        p_inv: &mut [i32],
    ) -> Result<Info, Refusal>
        ensures ordering { IfOk result (λ info. IsOrdering n control.now.dense control.now.aggressive
            (values a_p.now) (values a_i.now) (values p.new) (values p_inv.new) info) }
        ensures inside { IfOk result (λ info. FitsIn n (values a_p.now) self.old.rows self.old.entries) }
        ensures refusal { IfErr result (IsWithinRefusal None n (values a_p.now) (values a_i.now) (values p.old)
            (values p_inv.old) self.old.rows self.old.entries) }
        ensures kept { IfErr result (λ e. (p.new ≡ p.old) × (p_inv.new ≡ p_inv.old) × (self.new ≡ self.old)) }
        ensures made { (self.new.rows ≡ self.old.rows) × (self.new.entries ≡ self.old.entries) }
    {
        let hold = None;
        self.order_marked_narrow(n, a_p, a_i, &Request { control, hold }, p, p_inv)
    }

    /// Orders as [`Workspace::order_holding`] does, for numbers of 32 bits, in the way of [`Workspace::order_narrow`].
    ///
    /// # Errors
    ///
    /// As `order_holding`.
    ///
    /// Source: AMD user guide; Amestoy, Davis and Duff 1996 and 2004.
    pub fn order_holding_narrow(
        &mut self,
        n: i32,
        a_p: &[i32],
        a_i: &[i32],
        control: &Control,
        hold: &[bool],
        p: &mut [i32],
        p_inv: &mut [i32],
    ) -> Result<Info, Refusal>
        ensures ordering { IfOk result (λ info. IsOrderingHolding (Some hold.now) n control.now.dense
            control.now.aggressive (values a_p.now) (values a_i.now) (values p.new) (values p_inv.new) info) }
        ensures inside { IfOk result (λ info. FitsIn n (values a_p.now) self.old.rows self.old.entries) }
        ensures refusal { IfErr result (IsWithinRefusal (Some hold.now) n (values a_p.now) (values a_i.now)
            (values p.old) (values p_inv.old) self.old.rows self.old.entries) }
        ensures kept { IfErr result (λ e. (p.new ≡ p.old) × (p_inv.new ≡ p_inv.old) × (self.new ≡ self.old)) }
        ensures made { (self.new.rows ≡ self.old.rows) × (self.new.entries ≡ self.old.entries) }
    {
        let request = Request {
            control,
            hold: Some(hold),
        };
        self.order_marked_narrow(n, a_p, a_i, &request, p, p_inv)
    }
}
