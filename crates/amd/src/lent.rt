// The lists of a workspace in memory that a caller lends: they lie side by side in one block, and each takes whole
// units of 16 bytes. Source: Amestoy, Davis and Duff 1996 and 2004 (the arrays of the quotient graph).

ghost use Rattle.std.specs.Prelude.{◌≡◌, ◌≤◌, ◌<◌, ◌+◌, ◌*◌, ◌/◌, ◌^◌, true};
ghost use Rattle.std.specs.Mem.{type_size};
ghost use Rattle.std.specs.Option.{SomeIff};
ghost use Rattle.amd_lent.specs.Pieces.{IsWhole};
ghost use Rattle.amd_lists.specs.Sizes.{AreWideEnough};
ghost use Rattle.amd_words.specs.contracts.Word.{the_row as word_row};
ghost use Rattle.amd_words.specs.contracts.Cell.{the_row as cell_row};
ghost use Rattle.amd_words.specs.contracts.sides.Sides.{the_row as sides_row};
ghost use Rattle.amd_workspace.specs.Lists.{HasRoom, HasRows};
ghost use Rattle.amd.specs.Blocks.{HaveWidth, fours, is_narrow, workspace_bytes};
ghost use Rattle.amd.specs.Within.{list_words};

use crate::widths::WorkspaceIn;
use amd_lent::{Lodged, Piece};
use amd_types::index::Index;
use amd_words::{Signed, Unsigned};
use amd_workspace::lists::{Lists, Memory, Words};

/// The least multiple of 4 that is not less.
pub fn fours(number: usize) -> usize
    requires { number < 2 ^ 63 }
    ensures { result ≡ fours number }
{
    (number + 3) / 4 * 4
}

/// Whether each number of a workspace has 32 bits in a block.
pub fn is_narrow(rows: usize, entries: usize) -> bool
    ensures { result ≡ is_narrow rows entries }
{
    2 * entries as u128 + rows as u128 <= 2_147_483_645
}

/// The bytes of a workspace for so many rows and entries in a block, where they are a number of 64 bits.
///
/// These are three words for each entry and twelve for each row, and four, where rows and entries are rounded up to
/// multiples of four. A word has 4 bytes where twice the entries and the rows are at most 2,147,483,645 in sum, and
/// else 8.
pub fn workspace_bytes(rows: usize, entries: usize) -> Option<usize>
    ensures { SomeIff result (workspace_bytes rows entries < 2 ^ 64) (workspace_bytes rows entries) }
{
    let width: u128 = if is_narrow(rows, entries) { 4 } else { 8 };
    let words = 3 * ((entries as u128 + 3) / 4 * 4) + 12 * ((rows as u128 + 3) / 4 * 4) + 4;
    usize::try_from(width * words).ok()
}

/// How many words a matrix with sorted columns has in a block of narrow words: at least as many as `order` takes, where
/// a place among so many has 32 bits. They take the place of the transpose too.
pub fn sorted_words(rows: usize, entries: usize) -> usize
    requires narrow { is_narrow rows entries ≡ true }
    ensures enough { list_words rows entries ≤ result }
    ensures few { result ≤ 2147483645 }
    ensures inside { result ≤ 3 * entries + rows }
{
    (2 * entries + 2 * entries / 5 + rows).min(2_147_483_645)
}

/// The lists with a place for each row but the numbers of rows and of elements, and that of the buckets, in the first
/// five parts of a block.
fn lists_in<U: Unsigned>(
    block: Piece,
    rows: usize,
    width: usize,
    part: usize,
) -> (Lists<U, Lodged>, Piece)
    requires part { IsWhole part × (5 * part ≤ block.size) }
    requires rows { (rows < 2 ^ 63) × (rows * width ≤ part) }
    requires cells { type_size (cell_row U.row U.Unsigned) ≤ width }
    requires sides { type_size (sides_row U.row U.Unsigned) ≤ 2 * width }
    ensures room { HasRows rows result.0 }
    ensures rest { 5 * part + result.1.size ≡ block.size }
{
    let (w, block) = block.split_list(rows, part);
    let (head, block) = block.split_list(rows, part);
    let (sides, block) = block.split_list(rows, 2 * part);
    let (hash, block) = block.split_list(rows, part);
    (
        Lists {
            w,
            head,
            sides,
            hash,
        },
        block,
    )
}

/// The memory of an elimination of `rows` rows in `words` words, in the words' part and ten others of a block.
fn memory_in<S: Signed, P: Signed, U: Unsigned>(
    block: Piece,
    rows: usize,
    words: usize,
    width: usize,
    part: usize,
    words_part: usize,
) -> (Memory<S, P, U, Lodged>, Piece)
    requires part { IsWhole part × IsWhole words_part × (words_part + 10 * part ≤ block.size) }
    requires rows { (rows < 2 ^ 63) × (rows * width ≤ part) }
    requires words { (words < 2 ^ 63) × (words * width ≤ words_part) }
    requires types { HaveWidth (word_row S.row S.Signed) (word_row P.row P.Signed) (cell_row U.row U.Unsigned)
        (sides_row U.row U.Unsigned) width }
    ensures room { HasRoom rows words result.0 }
    ensures rest { words_part + 10 * part + result.1.size ≡ block.size }
{
    let (iw, block) = block.split_list(words, words_part);
    let (next, block) = block.split_list(rows, part);
    let (pe, block) = block.split_list(rows, part);
    let (len, block) = block.split_list(rows, part);
    let (nv, block) = block.split_list(rows, part);
    let (e_len, block) = block.split_list(rows, part);
    let (lists, block) = lists_in(block, rows, width, part);
    (
        Memory {
            words: Words { next, iw },
            pe,
            len,
            nv,
            e_len,
            lists,
        },
        block,
    )
}

/// The memory of an elimination of a matrix with sorted columns, in so many words, in a block of narrow words.
pub fn sorted_memory(
    block: Piece,
    rows: usize,
    entries: usize,
    words: usize,
) -> Memory<i32, i32, u32, Lodged>
    requires narrow { is_narrow rows entries ≡ true }
    requires words { words ≤ 3 * entries + rows }
    requires bytes { workspace_bytes rows entries ≤ block.size }
    ensures room { HasRoom rows words result }
{
    let (part, entries_part) = (4 * fours(rows), 4 * fours(entries));
    let (memory, _) = memory_in(block, rows, words, 4, part, 3 * entries_part + part);
    memory
}

impl<J: Index, S: Signed, P: Signed, U: Unsigned> WorkspaceIn<J, S, P, U, Lodged> {
    /// The lists of the orderings of all matrices with at most so many rows and entries, in a block. Each number takes
    /// at most `width` bytes; `part` bytes are enough for one of each row, and `entries_part` for one of each entry.
    pub fn in_block(
        block: Piece,
        rows: usize,
        entries: usize,
        width: usize,
        part: usize,
        entries_part: usize,
    ) -> WorkspaceIn<J, S, P, U, Lodged>
        requires narrow { AreWideEnough S.MOST P.MOST U.MOST rows (list_words rows entries) }
        requires few { 2 * entries + 2 * entries / 5 + rows < 2 ^ 63 }
        requires whole { IsWhole part × IsWhole entries_part × IsWhole (4 * width) }
        requires parts { (rows * width ≤ part) × (entries * width ≤ entries_part) }
        requires room { 3 * entries_part + 12 * part + 4 * width ≤ block.size }
        requires types { HaveWidth (word_row S.row S.Signed) (word_row P.row P.Signed) (cell_row U.row U.Unsigned)
            (sides_row U.row U.Unsigned) width }
        requires names { type_size J.row ≤ width }
        ensures made { (result.rows ≡ rows) × (result.entries ≡ entries) }
    {
        let words = 2 * entries + rows;
        let words_part = 2 * entries_part + part;
        let (memory, block) = memory_in(block, rows, words, width, part, words_part);
        let (pointers, block) = block.split_list(rows + 1, part + 4 * width);
        let (columns, _) = block.split_list(entries, entries_part);
        WorkspaceIn {
            rows,
            entries,
            memory,
            pointers,
            columns,
        }
    }
}
