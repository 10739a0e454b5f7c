// An ordering of one matrix in memory that a caller lends: nothing but the input and the size of the block is a reason
// to refuse. Source: AMD user guide; Amestoy, Davis and Duff 1996 and 2004.

ghost use Rattle.std.specs.Prelude.{◌≡◌, ◌≤◌, ◌<◌, ◌^◌, ℕ, true, false, pos, map, length, slice_index};
ghost use Rattle.std.specs.Prelude.{MatchOption, IfOk, IfErr};
ghost use Rattle.std.specs.Option.{option_copied};
ghost use Rattle.amd.specs.Answers.{IsOrderingHolding};
ghost use Rattle.amd.specs.Blocks.{FitsInBlock, IsBlockRefusal, is_narrow, workspace_bytes};
ghost use Rattle.amd.specs.Within.{IsGivenBy, OrdersGiven};
ghost use Rattle.amd.specs.Workspaces.{IsMadeFor};
ghost use Rattle.amd_engine.specs.InPlace.{values};
ghost use Rattle.amd_types.specs.Naturals.{naturals};

use crate::entrance::jumbled_of;
use crate::lent::{fours, is_narrow, sorted_memory, sorted_words, workspace_bytes};
use crate::narrow::order_columns_lent;
use crate::refusal::Refusal;
use crate::request::{Matrix, Request};
use crate::widths::{WorkspaceIn, order_columns};
use crate::workspace::{Widths, valid_rows};
use amd_lent::{Lodged, Piece};
use amd_types::amd::{Control, Info};
use amd_types::index::Index;
use amd_types::internal::count_at;

/// The block, where it has the bytes of a workspace for so many rows and entries.
fn enough(block: Piece, rows: usize, entries: usize) -> Option<Piece>
    ensures { MatchOption result (block.size < workspace_bytes rows entries)
        (λ b. (workspace_bytes rows entries ≤ b.size) × (b.size ≡ block.size)) }
{
    let (size, block) = block.with_size();
    if workspace_bytes(rows, entries)? > size {
        return None;
    }
    Some(block)
}

impl Widths<Lodged> {
    /// The lists of a workspace for so many rows and entries in a block with the bytes for them.
    fn laid_in(block: Piece, rows: usize, entries: usize) -> Widths<Lodged>
        requires bytes { workspace_bytes rows entries ≤ block.size }
        ensures { IsMadeFor rows entries result }
    {
        let (row_places, entry_places) = (fours(rows), fours(entries));
        if is_narrow(rows, entries) {
            let (part, entries_part) = (4 * row_places, 4 * entry_places);
            let lists = WorkspaceIn::in_block(block, rows, entries, 4, part, entries_part);
            Widths::Narrow(lists)
        } else {
            let (part, entries_part) = (8 * row_places, 8 * entry_places);
            let lists = WorkspaceIn::in_block(block, rows, entries, 8, part, entries_part);
            Widths::Wide(lists)
        }
    }

    /// The lists of a workspace for so many rows and entries in a block; none, exactly where it has too few bytes.
    pub fn in_block(block: Piece, rows: usize, entries: usize) -> Option<Widths<Lodged>>
        ensures { MatchOption result (block.size < workspace_bytes rows entries)
            (λ w. (workspace_bytes rows entries ≤ block.size) × IsMadeFor rows entries w) }
    {
        let block = enough(block, rows, entries)?;
        Some(Widths::laid_in(block, rows, entries))
    }
}

/// Whether a matrix has sorted columns, and each word of its lists in a block is narrow.
fn is_sorted_and_narrow<I>(matrix: &Matrix<'_, I>, rows: usize, entries: usize) -> bool
    ensures { result ≡ true → (matrix.now.jumbled ≡ false) × (is_narrow rows entries ≡ true) }
{
    !matrix.jumbled && is_narrow(rows, entries)
}

/// Orders a matrix in a block with the bytes for it. One with sorted columns needs no transpose: where its words are
/// narrow, the lists have the place of that too, and so as many words as in `order`, but at the very limit.
fn order_fitting<I: Index>(
    block: Piece,
    matrix: &Matrix<'_, I>,
    request: &Request<'_>,
    p: &mut [I],
    p_inv: &mut [I],
    info: &mut Info,
)
    requires bytes { workspace_bytes (length p.old)
        (slice_index (naturals (map I.value matrix.now.a_p.now)) (length p.old)) ≤ block.size }
    requires given { IsGivenBy I.value matrix.now request.now (length p.old) (length p_inv.old) }
    requires fits { (k : ℕ) → k < length p.old → I.fits (pos k) }
    ensures orders { OrdersGiven I.value matrix.now request.now (length p.old) (map I.value p.new)
        (map I.value p_inv.new) info.new }
    ensures status { info.new.status ≡ info.old.status }
{
    let (rows, a_p, a_i) = (p.len(), matrix.a_p, matrix.a_i);
    let entries = count_at(a_p, rows);
    if is_sorted_and_narrow(matrix, rows, entries) {
        let words = sorted_words(rows, entries);
        let mut memory = sorted_memory(block, rows, entries, words);
        order_columns(&mut memory, words, a_p, a_i, request, p, p_inv, info);
        return;
    }
    let mut widths = Widths::laid_in(block, rows, entries);
    widths.order(matrix, request, p, p_inv, info);
}

/// As `order_fitting`, for a matrix of 32 bits: where its words are narrow, `p` and `p_inv` serve as two of the lists
/// until the permutation and its inverse are written into them.
fn order_fitting_lent(
    block: Piece,
    matrix: &Matrix<'_, i32>,
    request: &Request<'_>,
    p: &mut [i32],
    p_inv: &mut [i32],
    info: &mut Info,
)
    requires bytes { workspace_bytes (length p.old)
        (slice_index (naturals (values matrix.now.a_p.now)) (length p.old)) ≤ block.size }
    requires given { IsGivenBy (λ x. x) matrix.now request.now (length p.old) (length p_inv.old) }
    requires fits { length p.old < 2 ^ 31 }
    ensures orders { OrdersGiven (λ x. x) matrix.now request.now (length p.old) (values p.new) (values p_inv.new)
        info.new }
    ensures status { info.new.status ≡ info.old.status }
{
    let (rows, a_p, a_i) = (p.len(), matrix.a_p, matrix.a_i);
    let entries = count_at(a_p, rows);
    if is_sorted_and_narrow(matrix, rows, entries) {
        let words = sorted_words(rows, entries);
        let mut memory = sorted_memory(block, rows, entries, words);
        order_columns_lent(&mut memory, words, a_p, a_i, request, p, p_inv, info);
        return;
    }
    let mut widths = Widths::laid_in(block, rows, entries);
    widths.order_lending(matrix, request, p, p_inv, info);
}

/// Orders the rows of a square matrix, as [`crate::order_marked`] does, in memory that the caller lends: in a block of
/// at least [`crate::workspace_bytes`]`(n, a_p[n])` bytes. Writes the permutation into `p` and its inverse into
/// `p_inv`, which have `n` places each, and returns the record.
///
/// # Errors
///
/// * `Invalid` exactly where `n` is not 0 and the input is no column form, or has marks and not one for each row; or
///   where `p` or `p_inv` has not `n` places.
/// * `TooLarge` exactly where the call is valid, `n` is not 0, and the block has fewer bytes than that.
///
/// No other refusal. After one, `p` and `p_inv` are as before.
///
/// Source: AMD user guide; Amestoy, Davis and Duff 1996 and 2004.
pub fn order_in_block<I: Index>(
    block: Piece,
    n: I,
    a_p: &[I],
    a_i: &[I],
    control: &Control,
    hold: Option<&[bool]>,
    p: &mut [I],
    p_inv: &mut [I],
) -> Result<Info, Refusal>
    // A number of a primitive type is always in range.
    requires fits { I.fits (I.value n) }
    ensures ordering { IfOk result (λ info. IsOrderingHolding (option_copied hold.entry) (I.value n)
        control.now.dense control.now.aggressive (map I.value a_p.now) (map I.value a_i.now) (map I.value p.new)
        (map I.value p_inv.new) info) }
    ensures inside { IfOk result (λ info. FitsInBlock (I.value n) (map I.value a_p.now) block.size) }
    ensures refusal { IfErr result (IsBlockRefusal (option_copied hold.entry) (I.value n) (map I.value a_p.now)
        (map I.value a_i.now) (map I.value p.old) (map I.value p_inv.old) block.size) }
    ensures kept { IfErr result (λ e. (p.new ≡ p.old) × (p_inv.new ≡ p_inv.old)) }
{
    let Some((size, status)) = valid_rows(n, a_p, a_i, hold, p, p_inv) else {
        return Err(Refusal::Invalid);
    };
    let mut info = Info::new(size);
    if size == 0 {
        return Ok(info);
    }
    let Some(jumbled) = jumbled_of(&status) else {
        unreachable!()
    };
    let Some(block) = enough(block, size, count_at(a_p, size)) else {
        return Err(Refusal::TooLarge);
    };
    info.status = status;
    let (matrix, request) = (Matrix { a_p, a_i, jumbled }, Request { control, hold });
    order_fitting(block, &matrix, &request, p, p_inv, &mut info);
    Ok(info)
}

/// As [`order_in_block`], for a matrix of 32 bits: where words of 32 bits hold all numbers, `p` and `p_inv` serve as
/// two of the lists until the permutation and its inverse are written into them.
///
/// # Errors
///
/// As `order_in_block`. After one, `p` and `p_inv` are as before.
///
/// Source: AMD user guide; Amestoy, Davis and Duff 1996 and 2004.
pub fn order_in_block_narrow(
    block: Piece,
    n: i32,
    a_p: &[i32],
    a_i: &[i32],
    control: &Control,
    hold: Option<&[bool]>,
    p: &mut [i32],
    p_inv: &mut [i32],
) -> Result<Info, Refusal>
    ensures ordering { IfOk result (λ info. IsOrderingHolding (option_copied hold.entry) n control.now.dense
        control.now.aggressive (values a_p.now) (values a_i.now) (values p.new) (values p_inv.new) info) }
    ensures inside { IfOk result (λ info. FitsInBlock n (values a_p.now) block.size) }
    ensures refusal { IfErr result (IsBlockRefusal (option_copied hold.entry) n (values a_p.now) (values a_i.now)
        (values p.old) (values p_inv.old) block.size) }
    ensures kept { IfErr result (λ e. (p.new ≡ p.old) × (p_inv.new ≡ p_inv.old)) }
{
    let Some((size, status)) = valid_rows(n, a_p, a_i, hold, p, p_inv) else {
        return Err(Refusal::Invalid);
    };
    if size == 0 {
        return Ok(Info::new(0));
    }
    let Some(jumbled) = jumbled_of(&status) else {
        unreachable!()
    };
    let Some(block) = enough(block, size, count_at(a_p, size)) else {
        return Err(Refusal::TooLarge);
    };
    let mut info = Info::new(size);
    info.status = status;
    let (matrix, request) = (Matrix { a_p, a_i, jumbled }, Request { control, hold });
    order_fitting_lent(block, &matrix, &request, p, p_inv, &mut info);
    Ok(info)
}
