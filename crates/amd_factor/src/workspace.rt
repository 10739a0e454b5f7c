// The exact factor in memory that was taken before: behind the making of a workspace no call asks for any. Source:
// Rose, Tarjan and Lueker 1976; Liu 1986 and 1990; Gilbert, Ng and Peyton 1994; Davis 2005.

ghost use Rattle.std.specs.Prelude.{ℕ, ◌≡◌, ◌≢◌, ◌≤◌, ◌<◌, ◌+◌, ◌*◌, ◌^◌, ◌⊎◌, [], pos, length, map, IfOk, IfErr};
ghost use Rattle.std.specs.Prelude.{MatchOption};
ghost use Rattle.std.specs.Option.{SomeIff};
ghost use Rattle.amd_model.specs.Input.Columns.{IsColumnForm};
ghost use Rattle.amd_factor.specs.Blocks.{factor_bytes};
ghost use Rattle.amd_factor.specs.Counted.{IsCountsOf};
ghost use Rattle.amd_factor.specs.Factors.{WritesFactor};
ghost use Rattle.amd_factor.specs.Within.{FitsIn, HasPlaces, HasPointers, IsCountsRefusal, IsRefusal, words};
ghost use Rattle.amd_factor.specs.declared.refusal.Refusal.TheVariants.{TooSmall};

use crate::counted::need_of_sizes;
use crate::entrance::rows_of;
use crate::inside::{columns_inside, counts_inside};
use crate::needs::Need;
use crate::refusal::{Refusal, refusal_for};
use amd_lent::{Lodged, Piece};
use amd_types::index::Index;
use amd_types::internal::count_at;
use num_traits::PrimInt;
use std::alloc::{AllocError, Allocator};

/// The memory of the exact factors of all matrices with at most so many rows and entries.
#[derive(Drop)]
pub struct FactorWorkspace<A: Allocator> {
    rows: usize,
    entries: usize,
    numbers: Vec<usize, A>,
    links: Vec<Option<usize>, A>,
    ghost sized: { (words rows entries ≤ length numbers.items) × (rows ≤ length links.items) },
}

/// How many numbers the lists take, where that is a number of 64 bits.
fn words_for(rows: usize, entries: usize) -> Option<usize>
    ensures { MatchOption result (Unit {0}) (λ count. count ≡ words rows entries) }
{
    let lists = entries.checked_mul(2)?;
    let places = rows.checked_mul(11)?;
    lists.checked_add(places)?.checked_add(7)
}

/// How many rows a matrix has that fits in a workspace.
///
/// # Errors
///
/// Those of a workspace that need no look at the order, but where there are no rows.
fn fitting_rows<I: Index>(
    n: I,
    a_p: &[I],
    a_i: &[I],
    p: &[I],
    rows: usize,
    entries: usize,
) -> Result<usize, Refusal>
    ensures size { IfOk result (λ size. pos size ≡ I.value n) }
    ensures form { IfOk result (λ size. size ≢ 0 →
        IsColumnForm (pos size) size (map I.value a_p.now) (map I.value a_i.now)) }
    ensures none { IfOk result (λ size. size ≡ 0 → map I.value p.now ≡ []) }
    ensures fits { IfOk result (λ size. FitsIn (I.value n) (map I.value a_p.now) rows entries) }
    ensures refused { IfErr result (λ e. IsCountsRefusal (I.value n) (map I.value a_p.now) (map I.value a_i.now)
        (map I.value p.now) rows entries e) }
{
    let size = match rows_of(n, a_p, a_i, p) {
        Ok(size) => size,
        Err(unfit) => return Err(refusal_for(unfit)),
    };
    if size == 0 {
        return Ok(0);
    }
    if size > rows || count_at(a_p, size) > entries {
        return Err(Refusal::TooLarge);
    }
    Ok(size)
}

/// The bytes of the memory of exact factors for so many rows and entries in a block, where they are a number of 64
/// bits: 16 for each entry, 104 for each row, and 56, in whole units of 16.
pub fn factor_bytes(rows: usize, entries: usize) -> Option<usize>
    ensures { SomeIff result (factor_bytes rows entries < 2 ^ 64) (factor_bytes rows entries) }
{
    let words = 2 * entries as u128 + 11 * rows as u128 + 7;
    usize::try_from((8 * words + 15) / 16 * 16 + 16 * rows as u128).ok()
}

impl FactorWorkspace<Lodged> {
    /// The memory of the exact factors of all matrices with at most so many rows and entries, in a block that the
    /// caller lends; none, exactly where it has fewer than [`crate::factor_bytes`] bytes.
    pub fn in_block(block: Piece, rows: usize, entries: usize) -> Option<FactorWorkspace<Lodged>>
        ensures { MatchOption result (block.size < factor_bytes rows entries)
            (λ w. (factor_bytes rows entries ≤ block.size) × (w.rows ≡ rows) × (w.entries ≡ entries)) }
    {
        let (size, block) = block.with_size();
        if factor_bytes(rows, entries)? > size {
            return None;
        }
        let count = 2 * entries + 11 * rows + 7;
        let (mut numbers, block) = block.split_list(count, (8 * count + 15) / 16 * 16);
        let (mut links, _) = block.split_list(rows, 16 * rows);
        let Ok(()) = numbers.resize(count, 0) else {
            unreachable!()
        };
        let Ok(()) = links.resize(rows, None) else {
            unreachable!()
        };
        Some(FactorWorkspace {
            rows,
            entries,
            numbers,
            links,
        })
    }
}

impl<A: Allocator + Copy> FactorWorkspace<A> {
    /// Takes the memory of the exact factors of all matrices with at most so many rows and entries.
    ///
    /// These are two numbers for each entry and thirteen for each row, and seven. A call that follows asks for none.
    ///
    /// # Errors
    ///
    /// A refused request for memory, or more numbers than one of 64 bits can say.
    pub fn new(alloc: A, rows: usize, entries: usize) -> Result<FactorWorkspace<A>, AllocError>
        ensures rows { IfOk result (λ w. w.rows ≡ rows) }
        ensures entries { IfOk result (λ w. w.entries ≡ entries) }
    {
        let Some(count) = words_for(rows, entries) else {
            return Err(AllocError);
        };
        let numbers = vec![in alloc; 0; count]?;
        let links = vec![in alloc; None; rows]?;
        Ok(FactorWorkspace {
            rows,
            entries,
            numbers,
            links,
        })
    }

    /// Writes how many entries each column of the factor of a square matrix has, and the parents, and returns what the
    /// factor needs: as [`crate::counts`], with no request for memory. `counts` and `parent` have `n` places each.
    ///
    /// # Errors
    ///
    /// The first of these:
    ///
    /// * `NotColumnForm` exactly where `n` is not 0 and the input is no column form.
    /// * `TooLarge` exactly where it is one, and has more rows or entries than the workspace was made for.
    /// * `NotPermutation` exactly where `p` does not list each number below `n`, once.
    ///
    /// No other refusal; and then `counts` and `parent` are as before.
    ///
    /// Source: Rose, Tarjan and Lueker 1976; Liu 1986; Gilbert, Ng and Peyton 1994.
    pub fn counts_within<I: PrimInt>(
        &mut self,
        n: I,
        a_p: &[I],
        a_i: &[I],
        p: &[I],
        counts: &mut [usize],
        parent: &mut [Option<usize>],
    ) -> Result<Need, Refusal>
        requires places { HasPlaces (I.value n) counts.old parent.old }
        ensures made { (self.new.rows ≡ self.old.rows) × (self.new.entries ≡ self.old.entries) }
        ensures counts { IfOk result (λ need. IsCountsOf (I.value n) (map I.value a_p.now) (map I.value a_i.now)
            (map I.value p.now) counts.new parent.new need) }
        ensures fits { IfOk result (λ need. FitsIn (I.value n) (map I.value a_p.now) self.old.rows self.old.entries) }
        ensures refused { IfErr result (λ e. IsCountsRefusal (I.value n) (map I.value a_p.now) (map I.value a_i.now)
            (map I.value p.now) self.old.rows self.old.entries e) }
        ensures kept { IfErr result (λ e. (counts.new ≡ counts.old) × (parent.new ≡ parent.old)) }
    {
        let size = fitting_rows(n, a_p, a_i, p, self.rows, self.entries)?;
        if size == 0 {
            return Ok(need_of_sizes(counts));
        }
        match counts_inside(a_p, a_i, p, counts, parent, &mut self.numbers) {
            Some(need) => Ok(need),
            None => Err(Refusal::NotPermutation),
        }
    }
    /// Writes the columns of the factor of a square matrix under an order of its rows: as [`crate::columns`], with no
    /// request for memory. Column `k` is `rows[ptr[k]..ptr[k + 1]]`; what stands behind the entries in `rows` stays.
    /// `ptr` has `n + 1` places, and `parent` has `n`.
    ///
    /// # Errors
    ///
    /// The first of these:
    ///
    /// * `NotColumnForm` exactly where `n` is not 0 and the input is no column form.
    /// * `TooLarge` exactly where it is one, and has more rows or entries than the workspace was made for.
    /// * `NotPermutation` exactly where `p` does not list each number below `n`, once.
    /// * `TooSmall` exactly where the factor has more entries than `rows` has places; it says how many.
    ///
    /// No other refusal. After `TooSmall` `ptr`, `parent` and `rows` may have been written; after any other they are as
    /// before.
    ///
    /// Source: Rose, Tarjan and Lueker 1976; Liu 1990; Davis 2005.
    pub fn columns_within<I: PrimInt>(
        &mut self,
        n: I,
        a_p: &[I],
        a_i: &[I],
        p: &[I],
        ptr: &mut [usize],
        parent: &mut [Option<usize>],
        rows: &mut [I],
    ) -> Result<(), Refusal>
        // A number of a primitive type is always in range.
        requires fits { I.fits (I.value n) }
        requires places { HasPointers (I.value n) ptr.old parent.old }
        ensures made { (self.new.rows ≡ self.old.rows) × (self.new.entries ≡ self.old.entries) }
        ensures factor { IfOk result (λ done. WritesFactor (I.value n) (map I.value a_p.now) (map I.value a_i.now)
            (map I.value p.now) (map I.value rows.old) (map I.value rows.new) ptr.new parent.new) }
        ensures fits { IfOk result (λ done. FitsIn (I.value n) (map I.value a_p.now) self.old.rows self.old.entries) }
        ensures refused { IfErr result (λ e. IsRefusal (I.value n) (map I.value a_p.now) (map I.value a_i.now)
            (map I.value p.now) self.old.rows self.old.entries (length rows.old) e) }
        ensures kept { IfErr result (λ e. ((needs : ℕ) × (e ≡ TooSmall needs)) ⊎
            ((ptr.new ≡ ptr.old) × (parent.new ≡ parent.old) × (rows.new ≡ rows.old))) }
    {
        let size = fitting_rows(n, a_p, a_i, p, self.rows, self.entries)?;
        if size == 0 {
            ptr[0] = 0;
            return Ok(());
        }
        columns_inside(
            a_p,
            a_i,
            p,
            ptr,
            parent,
            rows,
            &mut self.numbers,
            &mut self.links,
        )
    }
}
