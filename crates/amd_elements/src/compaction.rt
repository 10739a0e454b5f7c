// Compaction: the lists of the workspace move down, so that no word lies between them. The first word of each list
// makes room for a mark of its row, so that one pass over the words meets the lists in the order of their places.
// Source: Amestoy, Davis and Duff 1996 (garbage collection).

ghost use Rattle.std.specs.Prelude.{◌+◌, ◌≡◌, ◌≤◌, ℕ, pos, length, slice_set};
ghost use Rattle.amd_words.specs.Words.{flip_of, start, word};
ghost use Rattle.amd_elements.specs.Compaction.{Compacts, Marked, Moves};
ghost use Rattle.amd_elements.specs.Premises.{CanCompact, CanMark, CanMove};

use amd_words::words::{flipped, named, names_one, put_flip, put_row};
use amd_words::{Cell, Signed, Unsigned, Word, cell_at, copy_word, put_word, word_at};

/// Puts the mark of row j in place of the first word of its list, and that word in place of its start.
fn mark_row<S: Signed, P: Signed>(iw: &mut [Word<S>], pe: &mut [Word<P>], j: usize)
    requires { CanMark S.MOST P.MOST j iw.old pe.old }
    ensures words { iw.new ≡ slice_set iw.old (start pe.old j) (flip_of j) }
    ensures starts { pe.new ≡ slice_set pe.old j (word iw.old (start pe.old j)) }
{
    let at = named(pe, j);
    put_word(pe, j, word_at(iw, at));
    put_flip(iw, at, j);
}

/// Marks each row that has a list.
#[cold]
fn mark_rows<S: Signed, P: Signed, U: Unsigned>(
    iw: &mut [Word<S>],
    pe: &mut [Word<P>],
    len: &[Cell<U>],
)
    requires can { (free : ℕ) × CanCompact S.MOST P.MOST iw.old pe.old len.now free }
    ensures { Marked iw.old pe.old len.now iw.new pe.new (length len.now) }
{
    for j in 0..len.len() {
        if cell_at(len, j) > 0 && names_one(pe, j) {
            mark_row(iw, pe, j);
        }
    }
}

/// Moves words down.
fn move_words<S: Signed>(iw: &mut [Word<S>], from: usize, to: usize, count: usize)
    requires inside { from + count ≤ length iw.old }
    requires down { to ≤ from }
    ensures { Moves iw.old iw.new from to count }
{
    for k in 0..count {
        copy_word(iw, from + k, to + k);
    }
}

/// Moves the list of row j, whose first word is its start, from one place to another.
fn move_list<S: Signed, P: Signed>(
    iw: &mut [Word<S>],
    pe: &mut [Word<P>],
    j: usize,
    from: usize,
    to: usize,
    count: usize,
)
    requires { CanMove S.MOST P.MOST j iw.old pe.old from to count }
    ensures starts { pe.new ≡ slice_set pe.old j (pos to) }
    ensures moves { Moves (slice_set iw.old from (word pe.old j)) iw.new from to count }
{
    put_word(iw, from, word_at(pe, j));
    put_row(pe, j, to);
    move_words(iw, from, to, count);
}

/// Moves the lists down so that no word lies between them. Returns the new free end: how many words they have.
#[cold]
pub fn pack_lists<S: Signed, P: Signed, U: Unsigned>(
    iw: &mut [Word<S>],
    pe: &mut [Word<P>],
    len: &mut [Cell<U>],
    free: usize,
) -> usize
    requires { CanCompact S.MOST P.MOST iw.old pe.old len.old free }
    ensures compacts { Compacts iw.old pe.old len.old free iw.new pe.new result }
    ensures same { len.new ≡ len.old }
{
    mark_rows(iw, pe, len);
    let mut src = 0;
    let mut dst = 0;
    while src < free {
        if names_one(iw, src) {
            src += 1;
        } else {
            let j = flipped(iw, src);
            let count = cell_at(len, j);
            move_list(iw, pe, j, src, dst, count);
            src += count;
            dst += count;
        }
    }
    dst
}
