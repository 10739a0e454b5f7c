// The lists of a workspace in words, places and cells of given widths, with room for all matrices with at most so many
// rows and entries. Source: Amestoy, Davis and Duff 1996 and 2004.

ghost use Rattle.std.specs.Prelude.{◌≡◌, ◌<◌, ◌≤◌, ◌+◌, ◌*◌, ◌/◌, ◌^◌, false, pos, map, length, slice_index, ℕ};
ghost use Rattle.std.specs.Prelude.{IfOk};
ghost use Rattle.std.specs.Option.{option_copied};
ghost use Rattle.std.specs.Vec.{vec_capacity};
ghost use Rattle.amd_model.specs.Input.Columns.{IsColumnForm};
ghost use Rattle.amd_model.specs.Input.Pattern.{is_pair};
ghost use Rattle.amd_input.specs.Transposes.{IsCleanForm};
ghost use Rattle.amd_lists.specs.Sizes.{AreWideEnough};
ghost use Rattle.amd_lists.specs.Sizes.{bucket_count};
ghost use Rattle.amd_types.specs.Naturals.{naturals};
ghost use Rattle.amd_workspace.specs.Lists.{HasRoom};
ghost use Rattle.amd.specs.Answers.{OrdersMatrix};
ghost use Rattle.amd.specs.Blocks.{words_in, workspace_words};
ghost use Rattle.amd.specs.Within.{IsGiven, IsGivenBy, IsSized, OrdersGiven, list_words};

use crate::request::{Matrix, Request};
use crate::within::{count_degrees, order_sorted};
use amd_input::preprocess::transpose_within;
use amd_lists::work::bucket_count;
use amd_types::amd::Info;
use amd_types::index::Index;
use amd_words::{Signed, Unsigned};
use amd_workspace::lists::{Lists, Memory, Words};
use std::alloc::{AllocError, Allocator};

/// Orders a matrix with sorted columns in memory for so many words: in as many of them as upstream takes, or in all.
///
/// Source: AMD user guide; Amestoy, Davis and Duff 1996 and 2004.
pub fn order_columns<I: Index, J: Index, S: Signed, P: Signed, U: Unsigned, A: Allocator + Copy>(
    memory: &mut Memory<S, P, U, A>,
    words: usize,
    a_p: &[J],
    a_i: &[J],
    request: &Request<'_>,
    p: &mut [I],
    p_inv: &mut [I],
    info: &mut Info,
)
    requires given { IsGiven (option_copied request.now.hold) false (map J.value a_p.now) (map J.value a_i.now)
        (length p.old) (length p_inv.old) }
    requires fits { (k : ℕ) → k < length p.old → I.fits (pos k) }
    requires room { HasRoom (length p.old) words memory.old }
    requires words { list_words (length p.old) (slice_index (naturals (map J.value a_p.now)) (length p.old)) ≤ words }
    requires few { 2 * slice_index (naturals (map J.value a_p.now)) (length p.old)
        + 2 * slice_index (naturals (map J.value a_p.now)) (length p.old) / 5 + length p.old < 2 ^ 63 }
    requires narrow { AreWideEnough S.MOST P.MOST U.MOST (length p.old) words }
    ensures orders { OrdersMatrix (option_copied request.now.hold) (length p.old) request.now.control.now
        (is_pair (length p.old) (map J.value a_p.now) (map J.value a_i.now)) (map J.value a_p.now)
        (map J.value a_i.now) (map I.value p.new) (map I.value p_inv.new) info.new }
    ensures status { info.new.status ≡ info.old.status }
    ensures room { (n count : ℕ) → HasRoom n count memory.old → HasRoom n count memory.new }
{
    let size = p.len();
    let nzaat = count_degrees(memory, size, a_p, a_i, info);
    let room = (nzaat + nzaat / 5 + size).min(words);
    order_sorted(memory, a_p, a_i, room, request, p, p_inv, info);
}

/// Memory for eliminations of up to `rows` rows in up to `words` words, with no place more.
///
/// # Errors
///
/// A refused request for memory.
fn memory_for<S: Signed, P: Signed, U: Unsigned, A: Allocator + Copy>(
    alloc: A,
    rows: usize,
    words: usize,
) -> Result<Memory<S, P, U, A>, AllocError>
    ensures room { IfOk result (HasRoom rows words) }
    ensures words { IfOk result (λ m. words_in m 0 0 ≡ words + 9 * rows + bucket_count rows) }
{
    Ok(Memory {
        pe: Vec::with_capacity(alloc, rows)?,
        len: Vec::with_capacity(alloc, rows)?,
        words: Words {
            next: Vec::with_capacity(alloc, rows)?,
            iw: Vec::with_capacity(alloc, words)?,
        },
        nv: Vec::with_capacity(alloc, rows)?,
        e_len: Vec::with_capacity(alloc, rows)?,
        lists: Lists {
            w: Vec::with_capacity(alloc, rows)?,
            head: Vec::with_capacity(alloc, rows)?,
            sides: Vec::with_capacity(alloc, rows)?,
            hash: Vec::with_capacity(alloc, bucket_count(rows))?,
        },
    })
}

/// The lists of a workspace in these widths; the numbers of the transpose of a jumbled matrix are of type `J`.
#[derive(Drop)]
pub struct WorkspaceIn<J, S: Signed, P: Signed, U: Unsigned, A: Allocator> {
    /// So many rows a matrix may have.
    pub rows: usize,
    /// So many entries it may have.
    pub entries: usize,
    /// The lists of an elimination.
    pub memory: Memory<S, P, U, A>,
    /// The pointers of the transpose.
    pub pointers: Vec<J, A>,
    /// The row indices of the transpose.
    pub columns: Vec<J, A>,
    ghost sized: { IsSized S.MOST P.MOST U.MOST rows entries memory (vec_capacity pointers) (vec_capacity columns) },
}

impl<J: Index, S: Signed, P: Signed, U: Unsigned, A: Allocator + Copy> WorkspaceIn<J, S, P, U, A> {
    /// Takes the memory of the orderings of all matrices with at most so many rows and entries.
    ///
    /// # Errors
    ///
    /// A refused request for memory.
    pub fn new(
        alloc: A,
        rows: usize,
        entries: usize,
    ) -> Result<WorkspaceIn<J, S, P, U, A>, AllocError>
        requires narrow { AreWideEnough S.MOST P.MOST U.MOST rows (list_words rows entries) }
        requires few { 2 * entries + 2 * entries / 5 + rows < 2 ^ 63 }
        ensures made { IfOk result (λ w. (w.rows ≡ rows) × (w.entries ≡ entries)) }
        ensures words { IfOk result (λ w. words_in w.memory (vec_capacity w.pointers) (vec_capacity w.columns)
            ≡ workspace_words rows entries) }
    {
        Ok(WorkspaceIn {
            rows,
            entries,
            memory: memory_for(alloc, rows, 2 * entries + rows)?,
            pointers: Vec::with_capacity(alloc, rows + 1)?,
            columns: Vec::with_capacity(alloc, entries)?,
        })
    }

    /// Writes the transpose of a matrix with `size` rows that fits into the lists for it. The numbers of these hold the
    /// rows and the entries. No memory is asked for.
    ///
    /// Source: AMD user guide.
    pub fn transpose<I: Index>(&mut self, size: usize, matrix: &Matrix<'_, I>)
        requires inside { (size ≤ self.old.rows) ×
            (slice_index (naturals (map I.value matrix.now.a_p.now)) size ≤ self.old.entries) }
        requires form { IsColumnForm (pos size) size (map I.value matrix.now.a_p.now) (map I.value matrix.now.a_i.now) }
        requires names { J.fits (pos self.old.rows) × J.fits (pos self.old.entries) }
        ensures clean { IsCleanForm size (map I.value matrix.now.a_p.now) (map I.value matrix.now.a_i.now)
            (map J.value self.new.pointers.items) (map J.value self.new.columns.items) }
        ensures few { length self.new.columns.items ≤ self.old.entries }
        ensures made { (self.new.rows ≡ self.old.rows) × (self.new.entries ≡ self.old.entries) }
    {
        transpose_within(
            size,
            matrix.a_p,
            matrix.a_i,
            &mut self.memory.lists.w,
            &mut self.memory.words.next,
            &mut self.pointers,
            &mut self.columns,
        );
    }

    /// Orders a matrix that fits, by its transpose where it is jumbled. It asks for no memory.
    ///
    /// Writes the permutation into `p` and its inverse into `p_inv`, which have a place for each row, and the figures
    /// into `info`, of which the status stays. The numbers of the transpose hold the rows and the entries.
    pub fn order<I: Index>(
        &mut self,
        matrix: &Matrix<'_, I>,
        request: &Request<'_>,
        p: &mut [I],
        p_inv: &mut [I],
        info: &mut Info,
    )
        requires inside { (length p.old ≤ self.old.rows) ×
            (slice_index (naturals (map I.value matrix.now.a_p.now)) (length p.old) ≤ self.old.entries) }
        requires given { IsGivenBy I.value matrix.now request.now (length p.old) (length p_inv.old) }
        requires fits { (k : ℕ) → k < length p.old → I.fits (pos k) }
        requires names { J.fits (pos self.old.rows) × J.fits (pos self.old.entries) }
        ensures orders { OrdersGiven I.value matrix.now request.now (length p.old) (map I.value p.new)
            (map I.value p_inv.new) info.new }
        ensures status { info.new.status ≡ info.old.status }
        ensures made { (self.new.rows ≡ self.old.rows) × (self.new.entries ≡ self.old.entries) }
    {
        let words = 2 * self.entries + self.rows;
        let (a_p, a_i) = (matrix.a_p, matrix.a_i);
        if !matrix.jumbled {
            order_columns(&mut self.memory, words, a_p, a_i, request, p, p_inv, info);
            return;
        }
        self.transpose(p.len(), matrix);
        let (c_p, c_i) = (&self.pointers, &self.columns);
        order_columns(&mut self.memory, words, c_p, c_i, request, p, p_inv, info);
    }
}
