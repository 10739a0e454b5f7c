// Words and cells that are read where their slices are lent for writing: a slice in a field of `Work` cannot be lent
// again for reading from there.

ghost use Rattle.std.specs.Prelude.{◌<◌, ◌≡◌, ◌≤◌, length, true};
ghost use Rattle.amd_words.specs.Words.{is_place, num, place, start, word};

use amd_words::words::named;
use amd_words::{Cell, Signed, Unsigned, Word, cell_at};

/// As `named`, with the slice lent for writing.
pub fn named_lent<S: Signed>(words: &mut [Word<S>], i: usize) -> usize
    requires inside { i < length words.old }
    requires place { is_place (word words.old i) ≡ true }
    ensures is { result ≡ place (word words.old i) }
    ensures same { words.new ≡ words.old }
{
    named(words, i)
}

/// Where the list of a row starts, and how many words it has, with both slices lent for writing.
pub fn list_lent<P: Signed, U: Unsigned>(
    pe: &mut [Word<P>],
    len: &mut [Cell<U>],
    me: usize,
) -> (usize, usize)
    requires inside { (me < length pe.old) × (me < length len.old) }
    requires place { is_place (word pe.old me) ≡ true }
    ensures list { (result.0 ≡ start pe.old me) × (result.1 ≡ num len.old me) }
    ensures small { result.1 ≤ U.MOST }
    ensures same { (pe.new ≡ pe.old) × (len.new ≡ len.old) }
{
    (named(pe, me), cell_at(len, me))
}
