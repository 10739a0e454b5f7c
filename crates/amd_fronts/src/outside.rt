// For each element that a class of the front lists: the rows of its border outside the front. One step for each pair of
// a class and an element that it lists. A counter is 0 for what is no standing element or class, and below the flag if
// it was not met. In the same pass the classes leave the lists by bound, and with `aggressive` an element without rows
// outside ends. Source: Amestoy, Davis and Duff 1996 (approximate external degree, aggressive absorption).

ghost use Rattle.std.specs.Prelude.{ℕ, ◌&&◌, ◌+◌, ◌<◌, ◌==◌, ◌≡◌, ◌≤◌, cond, length, true};
ghost use Rattle.amd_words.specs.Words.{flip_of, in_front, is_place, num, place, rows, size_of, start, word};
ghost use Rattle.amd_lists.specs.Chains.{IsBounded, TakesOut};
ghost use Rattle.amd_lists.specs.Workspaces.{KeepsLoans, workspace_of};
ghost use Rattle.amd_fronts.specs.Effects.{CountsClass, CountsOutside, RenewsFlag, TouchesAll};
ghost use Rattle.amd_fronts.specs.Premises.{CanCountClass, CanCountFront, CanTouch, CanTouchAll};
ghost use Rattle.amd_fronts.specs.Tallies.{ends_in, front_at, settled_in, tally_of, touched_in};

use amd_lists::chains::take_out;
use amd_lists::lent::{list_lent, named_lent};
use amd_lists::work::Work;
use amd_words::sides::Sides;
use amd_words::words::{named, put_flip, size_inside};
use amd_words::{Cell, Signed, Unsigned, Word, cell_at, put_cell};

/// What a class of the front of a pivot takes off the counters of the elements that it lists.
#[derive(Clone, Copy)]
pub struct Tally {
    /// The number of rows of the class.
    pub more: usize,
    /// Above each counter that was not met in this round.
    pub flag: usize,
    /// The pivot.
    pub me: usize,
    /// Whether the pivot absorbs an element if none of its rows is left.
    pub aggressive: bool,
}

/// Takes the rows of a class off the counter of the element `e`, which that class lists. There is no branch: whether
/// the element was met before in this round is hard to foresee, and a wrong guess costs more than a read.
fn touch<U: Unsigned>(w: &mut [Cell<U>], degree: &[Cell<U>], e: usize, tally: Tally)
    requires { CanTouch U.MOST tally degree.now w.old e }
    ensures long { length w.new ≡ length w.old }
    ensures counted { (x : ℕ) → num w.new x ≡ cond (x == e) (touched_in tally degree.now w.old e) (num w.old x) }
{
    let before = cell_at(w, e);
    let start = cell_at(degree, e) + tally.flag;
    let base = if before >= tally.flag { before } else { start };
    let taken = if before == 0 { base } else { tally.more };
    put_cell(w, e, base - taken);
}

/// As `touch`. If the pivot absorbs the element, its list ends, and its counter is 0.
fn touch_or_end<P: Signed, U: Unsigned>(
    pe: &mut [Word<P>],
    w: &mut [Cell<U>],
    degree: &[Cell<U>],
    e: usize,
    tally: Tally,
)
    requires touch { CanTouch U.MOST tally degree.now w.old e }
    requires end { (e < length pe.old) × (tally.me + 2 ≤ P.MOST) }
    ensures long { (length w.new ≡ length w.old) × (length pe.new ≡ length pe.old) }
    ensures counted { (x : ℕ) → num w.new x ≡ cond (x == e) (settled_in tally degree.now w.old e) (num w.old x) }
    ensures starts { (x : ℕ) → word pe.new x ≡ cond (x == e && ends_in tally degree.now w.old e) (flip_of tally.me)
        (word pe.old x) }
{
    touch(w, degree, e, tally);
    let left = cell_at(w, e);
    if tally.aggressive && left == tally.flag {
        put_flip(pe, e, tally.me);
        put_cell(w, e, 0);
    }
}

/// Takes the rows of a class off the counters of the elements that it lists: they stand in `count` words from `from`
/// on.
fn touch_all<S: Signed, P: Signed, U: Unsigned>(
    iw: &mut [Word<S>],
    pe: &mut [Word<P>],
    w: &mut [Cell<U>],
    degree: &mut [Cell<U>],
    from: usize,
    count: usize,
    tally: Tally,
)
    requires small { tally.me + 2 ≤ P.MOST }
    requires all { CanTouchAll U.MOST tally iw.old pe.old degree.old w.old from count }
    ensures touches { TouchesAll tally (rows iw.old from count) degree.old pe.old w.old pe.new w.new }
    ensures same { (iw.new ≡ iw.old) × (degree.new ≡ degree.old) }
{
    for q in from..from + count {
        let e = named(iw, q);
        touch_or_end(pe, w, degree, e, tally);
    }
}

/// Takes a row out of the list of its bound.
fn leave_list<U: Unsigned>(
    head: &mut [Cell<U>],
    sides: &mut [Sides<U>],
    degree: &mut [Cell<U>],
    i: usize,
)
    requires { IsBounded i head.old degree.old sides.old }
    ensures takes { TakesOut i degree.old head.old sides.old head.new sides.new }
    ensures same { degree.new ≡ degree.old }
{
    take_out(head, sides, degree, i);
}

/// Where the list of a class of the front starts, how many elements it names, and the number of rows of the class.
fn class_lent<S: Signed, P: Signed>(
    pe: &mut [Word<P>],
    e_len: &mut [Word<P>],
    nv: &mut [Word<S>],
    i: usize,
) -> (usize, usize, usize)
    requires inside { (i < length pe.old) × (i < length e_len.old) × (i < length nv.old) }
    requires places { (is_place (word pe.old i) ≡ true) × (is_place (word e_len.old i) ≡ true) }
    requires marked { in_front nv.old i ≡ true }
    ensures class { (result.0 ≡ start pe.old i) × (result.1 ≡ place (word e_len.old i)) ×
        (result.2 ≡ size_of nv.old i) }
    ensures same { (pe.new ≡ pe.old) × (e_len.new ≡ e_len.old) × (nv.new ≡ nv.old) }
{
    (named(pe, i), named(e_len, i), size_inside(nv, i))
}

/// Takes a class of the front of `me` out of the list of its bound, and its rows off the counters of the elements that
/// it lists.
fn count_class<S: Signed, P: Signed, U: Unsigned>(
    work: &mut Work<'_, '_, S, P, U>,
    i: usize,
    me: usize,
    aggressive: bool,
)
    requires { CanCountClass P.MOST U.MOST me i (workspace_of work.old) }
    ensures counts { CountsClass (tally_of aggressive me i (workspace_of work.old)) i (workspace_of work.old)
        (workspace_of work.new) }
    ensures loans { KeepsLoans work.old work.new }
{
    leave_list(work.head, work.sides, work.degree, i);
    let flag = work.flag;
    let (first, n_elements, more) = class_lent(work.pe, work.e_len, work.nv, i);
    let tally = Tally {
        more,
        flag,
        me,
        aggressive,
    };
    touch_all(
        work.iw,
        work.pe,
        work.w,
        work.degree,
        first,
        n_elements,
        tally,
    );
}

/// Counts, for each standing element that a class of the front of `me` lists, the rows of its border outside the front:
/// the rows of each class are taken off the elements that it lists. The front leaves the lists by bound; with
/// `aggressive` the pivot `me` absorbs the elements without rows outside.
pub fn count_outside<S: Signed, P: Signed, U: Unsigned>(
    work: &mut Work<'_, '_, S, P, U>,
    me: usize,
    aggressive: bool,
)
    requires { CanCountFront P.MOST U.MOST me (workspace_of work.old) }
    ensures counts { CountsOutside aggressive me (front_at (workspace_of work.old) me) (workspace_of work.old)
        (workspace_of work.new) }
    ensures loans { KeepsLoans work.old work.new }
{
    let (from, count) = list_lent(work.pe, work.len, me);
    for p in from..from + count {
        let i = named_lent(work.iw, p);
        count_class(work, i, me, aggressive);
    }
}

/// Makes each number that is not 0 a 1.
#[cold]
fn clear<U: Unsigned>(w: &mut [Cell<U>])
    requires some { 1 ≤ U.MOST }
    ensures long { length w.new ≡ length w.old }
    ensures cleared { (e : ℕ) → num w.new e ≡ cond (num w.old e == 0) 0 1 }
{
    for k in 0..w.len() {
        if cell_at(w, k) != 0 {
            put_cell(w, k, 1);
        }
    }
}

/// The flag for what comes next. Below the greatest number less the count of rows it is the one given, and the numbers
/// stay. Else it is 2, and each number that is not 0 is 1.
pub fn renew_flag<U: Unsigned>(w: &mut [Cell<U>], flag: usize) -> usize
    requires short { length w.old + 2 ≤ U.MOST }
    requires two { 2 ≤ flag }
    requires under { (e : ℕ) → num w.old e < flag }
    ensures { RenewsFlag U.MOST flag w.old w.new result }
{
    if flag < U::MOST - w.len() {
        return flag;
    }
    clear(w);
    2
}
