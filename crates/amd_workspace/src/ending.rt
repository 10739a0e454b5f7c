// What the record of an elimination says at its end, made into links and numbers of rows: the row or the parent to
// which each row is linked, and for each element the number of rows of its front and of its block. Source: Amestoy,
// Davis and Duff 2004 (the output of the elimination, before the assembly tree is listed).

ghost use Rattle.std.specs.Prelude.{ℕ, ◌≡◌, ◌<◌, ◌≤◌, ◌<ℤ◌, pos, negsuc, cond, nat_lt, length, slice_set};
ghost use Rattle.std.specs.Prelude.{unsigned_abs};
ghost use Rattle.amd_words.specs.Words.{num, word, is_place, flip_of};
ghost use Rattle.amd_rounds.specs.Views.{flipped};
ghost use Rattle.amd_workspace.specs.Ending.{block_in, named_word, EndsRows};

use amd_words::words::{names_one, put_row};
use amd_words::{Cell, Signed, Unsigned, Word, cell_at, put_word, word_at};

/// The number that a mark names.
fn number_in(mark: isize) -> usize
    requires { mark <ℤ negsuc 0 }
    ensures { mark ≡ flip_of result }
{
    -(mark + 2) as usize
}

/// The row that a mark names, and -1 for any other number.
fn link_of(mark: isize) -> isize
    ensures { result ≡ named_word mark }
{
    if mark < -1 {
        number_in(mark) as isize
    } else {
        -1
    }
}

/// Makes a mark the row that it names, and any other number -1; a row that counts elements is linked to none.
fn end_link<P: Signed>(pe: &mut [Word<P>], e_len: &[Word<P>], i: usize)
    requires inside { (i < length pe.old) × (i < length e_len.now) }
    requires narrow { 1 ≤ P.MOST }
    ensures { pe.new ≡ slice_set pe.old i (cond (is_place (word e_len.now i)) (negsuc 0) (named_word (word pe.old i))) }
{
    let link = if names_one(e_len, i) {
        -1
    } else {
        link_of(word_at(pe, i))
    };
    put_word(pe, i, link);
}

/// The number of rows that a mark tells, and 0 for any other number.
fn front_in<P: Signed>(e_len: &[Word<P>], i: usize) -> usize
    requires { i < length e_len.now }
    ensures is { result ≡ flipped (word e_len.now i) }
    ensures small { result ≤ P.MOST }
{
    let mark = word_at(e_len, i);
    if mark < -1 { number_in(mark) } else { 0 }
}

/// Makes the mark of an element the number of rows of its front, and writes that of its block, which is the front
/// without the border; what is no element has -1 and 0.
fn end_element<S: Signed, P: Signed, U: Unsigned>(
    e_len: &mut [Word<P>],
    nv: &mut [Word<S>],
    degree: &[Cell<U>],
    i: usize,
)
    requires inside { (i < length e_len.old) × (i < length nv.old) × (i < length degree.now) }
    requires narrow { (1 ≤ P.MOST) × (block_in e_len.old degree.now i ≤ S.MOST) }
    ensures fronts { e_len.new ≡ slice_set e_len.old i
        (cond (nat_lt (num degree.now i) (flipped (word e_len.old i))) (pos (flipped (word e_len.old i))) (negsuc 0)) }
    ensures blocks { nv.new ≡ slice_set nv.old i (pos (block_in e_len.old degree.now i)) }
{
    let front = front_in(e_len, i);
    let border = cell_at(degree, i);
    if front > border {
        put_row(e_len, i, front);
        put_row(nv, i, front - border);
    } else {
        put_word(e_len, i, -1);
        put_word(nv, i, 0);
    }
}

/// Makes the record at the end of an elimination one of links and numbers of rows.
pub fn end_rows<S: Signed, P: Signed, U: Unsigned>(
    pe: &mut [Word<P>],
    e_len: &mut [Word<P>],
    nv: &mut [Word<S>],
    degree: &[Cell<U>],
)
    requires lengths { (length pe.old ≡ length degree.now) × (length e_len.old ≡ length degree.now) ×
        (length nv.old ≡ length degree.now) }
    requires narrow { 1 ≤ P.MOST }
    requires blocks { (i : ℕ) → i < length degree.now → block_in e_len.old degree.now i ≤ S.MOST }
    ensures lengths { (length pe.new ≡ length degree.now) × (length e_len.new ≡ length degree.now) ×
        (length nv.new ≡ length degree.now) }
    ensures ends { EndsRows (length degree.now) pe.old e_len.old degree.now pe.new e_len.new nv.new }
{
    'rows: for i in 0..degree.len() {
        end_link(pe, e_len, i);
        end_element(e_len, nv, degree, i);
    }
}
