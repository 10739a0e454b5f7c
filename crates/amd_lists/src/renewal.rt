// The list of one class of a front is renewed in its place: the new element comes in front, and what the new element
// absorbed or holds itself goes. Source: Amestoy, Davis and Duff 1996 (element absorption).

ghost use Rattle.std.specs.Prelude.{◌≡◌, ◌<◌, ◌≤◌, ◌+◌, ◌*◌, ◌^◌, pos, cond, length, nat_lt, slice_set, true};
ghost use Rattle.amd_model.specs.Figures.{cut};
ghost use Rattle.amd_words.specs.Words.{word, rows, size_of};
ghost use Rattle.amd_lists.specs.Spans.{IsSpan, row_list, sifted, span};
ghost use Rattle.amd_lists.specs.Renewal.{AreMet, IsExact, KeepsWords, KeepsVariables, CanRenew, RenewsList};
ghost use Rattle.amd_lists.specs.Renewal.{is_outside, key_mask};

use amd_words::words::{is_open, named, put_row, size_outside};
use amd_words::{Cell, Signed, Unsigned, Word, cell_at, copy_word, word_at};

/// So many rows of a list are looked at, beside the first one.
const FIRST: usize = 7;

/// A list of more rows is long.
const MANY: usize = 256;

/// So far apart rows are near.
const NEAR: usize = 64;

/// The number where a word is kept, and 0 where it is not.
fn where_kept(kept: bool, number: usize) -> usize
    ensures { result ≡ cond kept number 0 }
{
    if kept { number } else { 0 }
}

/// The sum of two numbers, at most the greatest `usize`. Where it is known to be exact nothing is tested.
#[inline]
fn add_up(total: usize, more: usize, is_exact: bool) -> usize
    requires { is_exact ≡ true → total + more < 2 ^ 64 }
    ensures { result ≡ cut (total + more) }
{
    if is_exact {
        total + more
    } else {
        total.saturating_add(more)
    }
}

/// Moves the standing ones among the elements that `count` words name to the front of these words. Returns where they
/// end, the sum of what their counters have above `less`, at most the greatest `usize`, and the sum of the elements,
/// which wraps. Each word is written behind those that are kept, and the next one over it if it is not kept: there is
/// no branch, since which words are kept is hard to foresee. So of the word at which they end nothing is said, where it
/// is one of these. Where it is `narrow`, no counter has more than 32 bits, so that the sum over them is exact.
fn keep_words<S: Signed, U: Unsigned>(
    iw: &mut [Word<S>],
    w: &[Cell<U>],
    from: usize,
    count: usize,
    less: usize,
    narrow: bool,
) -> (usize, usize, usize)
    requires span { IsSpan (length w.now) iw.old from count }
    requires narrow { narrow ≡ true → IsExact U.MOST count }
    ensures { KeepsWords narrow less w.now (span iw.old from count) (sifted iw.new result.0 result.1) result.2 }
{
    let mut end = from;
    let mut outside: usize = 0;
    let mut hash: usize = 0;
    for p in from..from + count {
        let e = named(iw, p);
        let counter = cell_at(w, e);
        let kept = counter > 0;
        copy_word(iw, p, end);
        outside = add_up(outside, counter.saturating_sub(less), narrow);
        hash = hash.wrapping_add(where_kept(kept, e));
        end += where_kept(kept, 1);
    }
    (end, outside, hash)
}

/// Moves the standing ones among the elements that `count` words name to the front of these words. Returns where they
/// end, the number of their rows outside the front, at most the greatest `usize`, and their sum, which wraps. Of the
/// word at which they end nothing is said, where it is one of these. Where it is `narrow`, no counter has more than 32
/// bits: their sum is exact, so that the flag is taken off for all of them at once.
fn keep_elements<S: Signed, U: Unsigned>(
    iw: &mut [Word<S>],
    w: &[Cell<U>],
    from: usize,
    count: usize,
    flag: usize,
    narrow: bool,
) -> (usize, usize, usize)
    requires span { IsSpan (length w.now) iw.old from count }
    requires narrow { narrow ≡ true → IsExact U.MOST count }
    requires met { AreMet flag w.now (rows iw.old from count) }
    ensures { KeepsWords narrow flag w.now (span iw.old from count) (sifted iw.new result.0 result.1) result.2 }
{
    let less = if narrow { 0 } else { flag };
    let (end, total, hash) = keep_words(iw, w, from, count, less, narrow);
    let outside = if narrow {
        total - flag * (end - from)
    } else {
        total
    };
    (end, outside, hash)
}

/// The number of rows of a class outside the front, and 0 for every other row.
fn open_size<S: Signed>(nv: &[Word<S>], j: usize) -> usize
    requires { j < length nv.now }
    ensures pass { is_outside nv.now j ≡ nat_lt 0 result }
    ensures size { is_outside nv.now j ≡ true → result ≡ size_of nv.now j }
    ensures small { result ≤ S.MOST }
{
    if is_open(nv, j) {
        size_outside(nv, j)
    } else {
        0
    }
}

/// `count` words from `from` on, of which some are moved to the words from `to` on.
#[derive(Clone, Copy, Drop)]
struct Part {
    from: usize,
    count: usize,
    to: usize,
}

/// Which words are written where a list is filtered.
trait Writing {
    /// Whether the word of a class with `more` rows outside the front is written; `more` is 0 for every other row.
    fn writes(more: usize) -> bool
        ensures { 0 < more → result ≡ true };
}

/// Those that are kept: a branch for each word, which is fast where it is easy to foresee.
struct Kept;

/// All: each is written behind those that are kept, and the next one over it if it is not kept, as in `keep_words`.
struct Each;

impl Writing for Kept {
    fn writes(more: usize) -> bool {
        more > 0
    }
}

impl Writing for Each {
    fn writes(_more: usize) -> bool {
        true
    }
}

/// As `keep_variables`, with or without a branch for each word.
fn keep_part<W: Writing, S: Signed>(
    iw: &mut [Word<S>],
    nv: &[Word<S>],
    part: Part,
    first: usize,
    sum: usize,
    narrow: bool,
) -> (usize, usize, usize)
    requires span { IsSpan (length nv.now) iw.old part.from part.count }
    requires down { part.to ≤ part.from }
    requires narrow { narrow ≡ true → IsExact S.MOST part.count × (first + 4294967295 * part.count < 2 ^ 64) }
    ensures { KeepsVariables nv.now first sum (span iw.old part.from part.count) part.to
        (sifted iw.new result.0 result.1) result.2 }
{
    let mut end = part.to;
    let mut outside = first;
    let mut hash = sum;
    for p in part.from..part.from + part.count {
        let j = named(iw, p);
        let more = open_size(nv, j);
        if W::writes(more) {
            copy_word(iw, p, end);
            outside = add_up(outside, more, narrow);
            hash = hash.wrapping_add(where_kept(more > 0, j));
            end += where_kept(more > 0, 1);
        }
    }
    (end, outside, hash)
}

/// Whether the first of `count` rows are far apart. In a front of rows of neighbouring numbers it is mostly clear which
/// ones are kept, and in a long list nearly all are; otherwise it is hard to foresee.
fn are_scattered<S: Signed>(iw: &[Word<S>], from: usize, count: usize) -> bool
    requires { from + count ≤ length iw.now }
{
    if count <= FIRST || MANY < count {
        return false;
    }
    let gap = word_at(iw, from + FIRST).wrapping_sub(word_at(iw, from));
    gap.unsigned_abs() > NEAR
}

/// Moves the classes outside the front among the variables that `count` words name to the words from `to` on. Returns
/// where they end, the number of their rows on top of `first`, at most the greatest `usize`, and their sum on top of
/// `sum`, which wraps. Of the word at which they end nothing is said. Where it is `narrow`, no size has more than 32
/// bits, so that the number of rows is exact.
fn keep_variables<S: Signed>(
    iw: &mut [Word<S>],
    nv: &[Word<S>],
    from: usize,
    count: usize,
    to: usize,
    first: usize,
    sum: usize,
    narrow: bool,
) -> (usize, usize, usize)
    requires span { IsSpan (length nv.now) iw.old from count }
    requires down { to ≤ from }
    requires narrow { narrow ≡ true → IsExact S.MOST count × (first + 4294967295 * count < 2 ^ 64) }
    ensures { KeepsVariables nv.now first sum (span iw.old from count) to (sifted iw.new result.0 result.1) result.2 }
{
    let part = Part { from, count, to };
    if are_scattered(iw, from, count) {
        return keep_part::<Each, S>(iw, nv, part, first, sum, narrow);
    }
    keep_part::<Kept, S>(iw, nv, part, first, sum, narrow)
}

/// Puts the new element in front of the kept elements, which stand from `from` to `middle`, and the kept variables,
/// which stand from there to `end`: the first of each goes behind the others.
fn put_first<S: Signed>(iw: &mut [Word<S>], from: usize, middle: usize, end: usize, me: usize)
    requires order { (from ≤ middle) × (middle ≤ end) }
    requires inside { end < length iw.old }
    requires small { me ≤ S.MOST }
    ensures { iw.new ≡ slice_set (slice_set (slice_set iw.old end (word iw.old middle)) middle
        (word (slice_set iw.old end (word iw.old middle)) from)) from (pos me) }
{
    copy_word(iw, middle, end);
    copy_word(iw, from, middle);
    put_row(iw, from, me);
}

/// Renews the list of a class of the front in its place: the elements and variables that it keeps, with the new element
/// in front. Returns how many of its words name elements, how many words it has, the number of rows that it reaches
/// outside the front, at most the greatest `usize`, and the sum of what it keeps, which wraps; for a class that keeps
/// nothing 1, 1, 0 and 0. Words and cells of at most 32 bits are narrow: no sum over a list passes a `usize` then, so
/// that none is tested. Which way is taken is known for each width when the program is compiled.
pub fn renew_list<S: Signed, U: Unsigned>(
    iw: &mut [Word<S>],
    w: &[Cell<U>],
    nv: &[Word<S>],
    from: usize,
    n_elements: usize,
    count: usize,
    flag: usize,
    me: usize,
) -> (usize, usize, usize, usize)
    requires { CanRenew S.MOST U.MOST flag me w.now nv.now (row_list iw.old from n_elements count) }
    ensures { RenewsList flag me w.now nv.now (row_list iw.old from n_elements count)
        (row_list iw.new from result.0 result.1) result.2 result.3 }
{
    let narrow = S::MOST <= u32::MAX as usize && U::MOST <= u32::MAX as usize;
    let (middle, rows, sum) = keep_elements(iw, w, from, n_elements, flag, narrow);
    let (end, outside, hash) = keep_variables(
        iw,
        nv,
        from + n_elements,
        count - n_elements,
        middle,
        rows,
        sum,
        narrow,
    );
    put_first(iw, from, middle, end, me);
    (middle + 1 - from, end + 1 - from, outside, hash)
}

/// The bits of a sum that make a key of a class, one of `n` rows: so many of the lowest ones that the greatest key is
/// below `n`.
pub fn key_mask(n: usize) -> usize
    requires { 0 < n }
    ensures { result ≡ key_mask n }
{
    usize::MAX >> n.leading_zeros() >> 1
}
