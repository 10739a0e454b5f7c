// Merging: classes of a new element that keep the same elements and the same variables become one, which the last of
// them represents. The key of a class is the sum of what it lists, modulo the number of rows. Only classes of one
// bucket are compared: a bucket is chosen by ten bits of a key, or by all but the lowest four in a large front.
// Source: Amestoy, Davis and Duff 1996 (supervariables, found by a hash function).

ghost use Rattle.std.specs.Prelude.{ℕ, ◌&&◌, ◌+◌, ◌<◌, ◌==◌, ◌≡◌, ◌≤◌, negsuc, cond, length, slice_set, true, false};
ghost use Rattle.std.specs.Prelude.{nat_lt};
ghost use Rattle.amd_model.specs.Quotient.{each, has};
ghost use Rattle.amd_words.specs.Sides.{lasts, nexts};
ghost use Rattle.amd_words.specs.Words.{flip_of, is_place, num, rows, size_of, word};
ghost use Rattle.amd_lists.specs.Lengths.{row_count};
ghost use Rattle.amd_lists.specs.Spans.{IsSpan};
ghost use Rattle.amd_merging.specs.Reading.{KeepsCounts, classes_with, lists_read};
ghost use Rattle.amd_merging.specs.Effects.{AddsInside, FindsAlike, MergesClasses, MergesOne};
ghost use Rattle.amd_merging.specs.Merging.{Finds, HasNone, HasSome, IsRenewed, as_long, bucket};
ghost use Rattle.amd_merging.specs.Merging.{is_near, looks};
ghost use Rattle.amd_merging.specs.Premises.{CanAdd, CanFind, CanMeet, CanMergeFront, CanMergeOne, CanWalk};

use crate::buckets::bucket_at;
use amd_words::sides::{Sides, last_at, next_at, put_next, row_count};
use amd_words::words::{named, put_flip};
use amd_words::{Cell, Signed, Unsigned, Word, cell_at, put_cell, put_word, word_at};

/// Marks the rows that `count` words name with the flag.
fn spread<S: Signed, U: Unsigned>(
    iw: &[Word<S>],
    w: &mut [Cell<U>],
    from: usize,
    count: usize,
    flag: usize,
)
    requires fits { flag ≤ U.MOST }
    requires span { IsSpan (length w.old) iw.now from count }
    ensures long { length w.new ≡ length w.old }
    ensures marked { (x : ℕ) → num w.new x ≡ cond (has (rows iw.now from count) x) flag (num w.old x) }
{
    for q in from..from + count {
        let x = named(iw, q);
        put_cell(w, x, flag);
    }
}

/// Whether each row that `count` words name is marked with the flag.
fn all_marked<S: Signed, U: Unsigned>(
    iw: &[Word<S>],
    w: &[Cell<U>],
    from: usize,
    count: usize,
    flag: usize,
) -> bool
    requires { IsSpan (length w.now) iw.now from count }
    ensures { result ≡ each (λ x. num w.now x == flag) (rows iw.now from count) }
{
    for q in from..from + count {
        let x = named(iw, q);
        let mark = cell_at(w, x);
        if mark != flag {
            return false;
        }
    }
    true
}

/// Whether a class has so many words and elements.
fn is_as_long<P: Signed, U: Unsigned>(
    e_len: &[Word<P>],
    len: &[Cell<U>],
    j: usize,
    count: usize,
    few: usize,
) -> bool
    requires inside { (j < length e_len.now) × (j < length len.now) }
    requires counts { is_place (word e_len.now j) ≡ true }
    ensures { result ≡ as_long e_len.now len.now count few j }
{
    if cell_at(len, j) != count {
        return false;
    }
    named(e_len, j) == few
}

/// Whether some class of a bucket has the key given and so many words and elements.
fn any_as_long<P: Signed, U: Unsigned>(
    e_len: &[Word<P>],
    len: &[Cell<U>],
    sides: &[Sides<U>],
    head: usize,
    key: usize,
    count: usize,
    few: usize,
) -> bool
    requires { CanMeet e_len.now len.now sides.now head }
    ensures some { result ≡ true → HasSome (λ j. num (lasts sides.now) j == key &&
        as_long e_len.now len.now count few j) (bucket (nexts sides.now) head) }
    ensures none { result ≡ false → HasNone (λ j. num (lasts sides.now) j == key &&
        as_long e_len.now len.now count few j) (bucket (nexts sides.now) head) }
{
    let n = row_count(sides);
    let mut j = head;
    'members: while j < n {
        if last_at(sides, j) == key && is_as_long(e_len, len, j, count, few) {
            return true;
        }
        j = next_at(sides, j);
    }
    false
}

/// Whether the list of the class `i` is to be compared with that of some class of a bucket: one that has its key, and
/// as many words and elements.
fn is_compared<P: Signed, U: Unsigned>(
    e_len: &[Word<P>],
    len: &[Cell<U>],
    sides: &[Sides<U>],
    head: usize,
    i: usize,
) -> bool
    requires bucket { CanMeet e_len.now len.now sides.now head }
    requires class { (i < row_count sides.now) × (is_place (word e_len.now i) ≡ true) }
    ensures some { result ≡ true → HasSome (is_near e_len.now len.now (lasts sides.now) i)
        (bucket (nexts sides.now) head) }
    ensures none { result ≡ false → HasNone (is_near e_len.now len.now (lasts sides.now) i)
        (bucket (nexts sides.now) head) }
{
    if head >= row_count(sides) {
        return false;
    }
    let key = last_at(sides, i);
    let count = cell_at(len, i);
    let few = named(e_len, i);
    any_as_long(e_len, len, sides, head, key, count, few)
}

/// The lists of classes, to be read.
#[derive(Drop)]
struct Read<'a, S: Signed, P: Signed, U: Unsigned> {
    /// All lists.
    iw: &'a [Word<S>],
    /// Where the list of each class starts.
    pe: &'a [Word<P>],
    /// The number of elements that each class lists.
    e_len: &'a [Word<P>],
    /// The number of words of each list.
    len: &'a [Cell<U>],
}

/// Whether a class has so many words and elements, and each of its words is marked.
fn is_like<S: Signed, P: Signed, U: Unsigned>(
    lists: &Read<'_, S, P, U>,
    w: &[Cell<U>],
    j: usize,
    count: usize,
    few: usize,
    flag: usize,
) -> bool
    requires lengths { (length lists.now.pe.now ≡ length w.now) × (length lists.now.e_len.now ≡ length w.now) ×
        (length lists.now.len.now ≡ length w.now) }
    requires renewed { IsRenewed (length w.now) lists.now.iw.now lists.now.pe.now lists.now.e_len.now lists.now.len.now
        j }
    ensures { result ≡ looks (lists_read lists.now) w.now count few flag j }
{
    if !is_as_long(lists.e_len, lists.len, j, count, few) {
        return false;
    }
    let from = named(lists.pe, j);
    all_marked(lists.iw, w, from + 1, count - 1, flag)
}

/// The first class of a bucket with so many words and elements whose words are all marked, or the number of rows.
fn walk<S: Signed, P: Signed, U: Unsigned>(
    lists: &Read<'_, S, P, U>,
    w: &[Cell<U>],
    sides: &[Sides<U>],
    head: usize,
    count: usize,
    few: usize,
    flag: usize,
) -> usize
    requires { CanWalk (lists_read lists.now) w.now sides.now head }
    ensures { Finds (row_count sides.now) (looks (lists_read lists.now) w.now count few flag)
        (bucket (nexts sides.now) head) result }
{
    let n = row_count(sides);
    let mut j = head;
    'members: while j < n {
        if is_like(lists, w, j, count, few, flag) {
            return j;
        }
        j = next_at(sides, j);
    }
    n
}

/// The class of a bucket that keeps the same elements and variables as the class `i`, or the number of rows if there is
/// none. The words of `i` are marked with the flag.
fn find<S: Signed, P: Signed, U: Unsigned>(
    lists: &Read<'_, S, P, U>,
    w: &mut [Cell<U>],
    sides: &[Sides<U>],
    head: usize,
    i: usize,
    flag: usize,
) -> usize
    requires { CanFind U.MOST flag i (lists_read lists.now) w.old sides.now head }
    ensures { FindsAlike flag i head (lists_read lists.now) w.old sides.now w.new result }
{
    let few = named(lists.e_len, i);
    let count = cell_at(lists.len, i);
    let from = named(lists.pe, i);
    spread(lists.iw, w, from + 1, count - 1, flag);
    walk(lists, w, sides, head, count, few, flag)
}

/// Adds the rows of a class of the front to those of another one, and leaves it none.
fn add_inside<S: Signed>(nv: &mut [Word<S>], i: usize, j: usize)
    requires { CanAdd S.MOST i j nv.old }
    ensures { AddsInside i j nv.old nv.new }
{
    let sum = word_at(nv, j) + word_at(nv, i);
    put_word(nv, j, sum);
    put_word(nv, i, 0);
}

/// Merges a class of the front into another one: it has no rows and no list, and is linked to that one.
fn merge<S: Signed, P: Signed>(
    pe: &mut [Word<P>],
    e_len: &mut [Word<P>],
    nv: &mut [Word<S>],
    i: usize,
    j: usize,
)
    requires lengths { (length pe.old ≡ length nv.old) × (length e_len.old ≡ length nv.old) }
    requires short { length nv.old + 2 ≤ P.MOST }
    requires add { CanAdd S.MOST i j nv.old }
    ensures links { pe.new ≡ slice_set pe.old i (flip_of j) }
    ensures lists { e_len.new ≡ slice_set e_len.old i (negsuc 0) }
    ensures adds { AddsInside i j nv.old nv.new }
{
    add_inside(nv, i, j);
    put_flip(pe, i, j);
    put_word(e_len, i, -1);
}

/// Puts a class at the head of a bucket.
fn push<U: Unsigned>(hash: &mut [Cell<U>], sides: &mut [Sides<U>], i: usize, key: usize)
    requires inside { (i < row_count sides.old) × (key < length hash.old) }
    requires short { row_count sides.old ≤ U.MOST }
    ensures links { nexts sides.new ≡ slice_set (nexts sides.old) i (num hash.old key) }
    ensures keys { lasts sides.new ≡ lasts sides.old }
    ensures heads { hash.new ≡ slice_set hash.old key i }
{
    put_next(sides, i, cell_at(hash, key));
    put_cell(hash, key, i);
}

/// The sizes of classes and the counters of rows, which merging writes.
#[derive(Drop)]
pub struct ClassCounts<'a, 'b, S: Signed, U: Unsigned> {
    /// The number of rows of each class, negative in the front.
    pub nv: &'a mut [Word<S>],
    /// The counter of each row, by which it is marked.
    pub w: &'b mut [Cell<U>],
}

/// A class of a front, for which one alike is sought.
#[derive(Drop)]
struct Sought {
    /// The number of words of the list of the front.
    count: usize,
    /// The class.
    class: usize,
    /// A number above each counter.
    flag: usize,
}

/// Merges a class of the front into one of its bucket that keeps the same elements and variables, or, if there is none,
/// puts it into the bucket. Returns the next flag, which rises by 1 only where the list of the class was spread for
/// comparison.
fn merge_one<S: Signed, P: Signed, U: Unsigned>(
    iw: &[Word<S>],
    pe: &mut [Word<P>],
    e_len: &mut [Word<P>],
    len: &[Cell<U>],
    counts: &mut ClassCounts<'_, '_, S, U>,
    hash: &mut [Cell<U>],
    sides: &mut [Sides<U>],
    sought: Sought,
) -> usize
    requires { CanMergeOne S.MOST P.MOST U.MOST sought.count sought.class sought.flag
        (classes_with iw.now pe.old e_len.old len.now counts.old hash.old sides.old) }
    ensures merges { MergesOne sought.count sought.class sought.flag
        (classes_with iw.now pe.old e_len.old len.now counts.old hash.old sides.old)
        (classes_with iw.now pe.new e_len.new len.now counts.new hash.new sides.new) result }
    ensures loans { KeepsCounts counts.old counts.new }
{
    let i = sought.class;
    let key = bucket_at(sides, i, sought.count);
    let head = cell_at(hash, key);
    if !is_compared(e_len, len, sides, head, i) {
        push(hash, sides, i, key);
        return sought.flag;
    }
    let lists = Read { iw, pe, e_len, len };
    let found = find(&lists, counts.w, sides, head, i, sought.flag);
    if found < row_count(sides) {
        merge(pe, e_len, counts.nv, i, found);
    } else {
        push(hash, sides, i, key);
    }
    sought.flag + 1
}

/// Whether a row is a class.
fn is_class<S: Signed>(nv: &mut [Word<S>], i: usize) -> bool
    requires { i < length nv.old }
    ensures class { result ≡ nat_lt 0 (size_of nv.old i) }
    ensures same { nv.new ≡ nv.old }
{
    word_at(nv, i) != 0
}

/// The list of a front whose classes are merged.
#[derive(Drop)]
pub struct Members {
    /// Where it starts.
    pub from: usize,
    /// The number of its words.
    pub count: usize,
    /// A number above each counter.
    pub flag: usize,
}

/// Merges the classes of a new element that keep the same elements and variables, from the last one of its list to the
/// first: the last one represents the others, and the classes that are left are its representatives. The buckets are
/// empty before; after it the head of each one that is not is a class that is left, which belongs into it. Where
/// the list names one row at most, all stays as it is. `iw` and `len` are only read. Returns the next flag.
pub fn merge_front<S: Signed, P: Signed, U: Unsigned>(
    iw: &mut [Word<S>],
    pe: &mut [Word<P>],
    e_len: &mut [Word<P>],
    len: &mut [Cell<U>],
    counts: &mut ClassCounts<'_, '_, S, U>,
    hash: &mut [Cell<U>],
    sides: &mut [Sides<U>],
    front: Members,
) -> usize
    requires { CanMergeFront S.MOST P.MOST U.MOST front.from front.count front.flag
        (classes_with iw.old pe.old e_len.old len.old counts.old hash.old sides.old) }
    ensures merges { MergesClasses front.from front.count front.flag
        (classes_with iw.old pe.old e_len.old len.old counts.old hash.old sides.old)
        (classes_with iw.new pe.new e_len.new len.new counts.new hash.new sides.new) result }
    ensures same { (iw.new ≡ iw.old) × (len.new ≡ len.old) }
    ensures loans { KeepsCounts counts.old counts.new }
{
    let Members { from, count, flag } = front;
    if count < 2 {
        return flag;
    }
    let mut now = flag;
    let mut left = count;
    'classes: while left > 0 {
        left -= 1;
        let i = named(iw, from + left);
        if is_class(counts.nv, i) {
            let sought = Sought {
                count,
                class: i,
                flag: now,
            };
            now = merge_one(iw, pe, e_len, len, counts, hash, sides, sought);
        }
    }
    now
}
