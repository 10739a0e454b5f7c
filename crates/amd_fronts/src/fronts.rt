// The lists and bounds of all classes of a front are renewed, each list in its place. A class that keeps nothing but
// the new element ends: it goes with the pivot. Source: Amestoy, Davis and Duff 1996 (approximate external degree,
// element absorption, mass elimination).

ghost use Rattle.std.specs.Prelude.{ℕ, ◌<◌, ◌≡◌, length, min, negsuc, pos, slice_set};
ghost use Rattle.amd_words.specs.Words.{flip_of, num, size_of};
ghost use Rattle.amd_lists.specs.Renewal.{CanRenew, RenewsList, key_mask};
ghost use Rattle.amd_lists.specs.Spans.{row_list};
ghost use Rattle.amd_lists.specs.Workspaces.{KeepsLoans, workspace_of};
ghost use Rattle.amd_fronts.specs.Effects.{RenewsAllClasses, RenewsClass, RenewsOrRetires};
ghost use Rattle.amd_fronts.specs.Premises.{CanRenewAll, CanRenewClass, CanRenewOrRetire, CanRetire};

use amd_lists::lent::{list_lent, named_lent};
use amd_lists::renewal::{key_mask, renew_list};
use amd_lists::work::Work;
use amd_words::sides::put_last;
use amd_words::words::{put_flip, put_row, size_inside};
use amd_words::{Cell, Signed, Unsigned, Word, cell_at, put_cell, put_word};

/// As `renew_list`, with all slices lent for writing.
fn renew_lent<S: Signed, U: Unsigned>(
    iw: &mut [Word<S>],
    w: &mut [Cell<U>],
    nv: &mut [Word<S>],
    from: usize,
    n_elements: usize,
    count: usize,
    flag: usize,
    me: usize,
) -> (usize, usize, usize, usize)
    requires { CanRenew S.MOST U.MOST flag me w.old nv.old (row_list iw.old from n_elements count) }
    ensures list { RenewsList flag me w.old nv.old (row_list iw.old from n_elements count)
        (row_list iw.new from result.0 result.1) result.2 result.3 }
    ensures same { (w.new ≡ w.old) × (nv.new ≡ nv.old) }
{
    renew_list(iw, w, nv, from, n_elements, count, flag, me)
}

/// Renews the list of the class `i` in its place. Returns the number of its words, the number of rows that it reaches
/// outside the front, at most the greatest `usize`, and the sum of what it keeps, which wraps.
fn renew_class<S: Signed, P: Signed, U: Unsigned>(
    work: &mut Work<'_, '_, S, P, U>,
    i: usize,
    me: usize,
) -> (usize, usize, usize)
    requires { CanRenewClass S.MOST P.MOST me i (workspace_of work.old) }
    ensures renews { RenewsClass me i (workspace_of work.old) (workspace_of work.new) result.0 result.1 result.2 }
    ensures loans { KeepsLoans work.old work.new }
{
    let (from, all) = list_lent(work.pe, work.len, i);
    let n_elements = named_lent(work.e_len, i);
    let flag = work.flag;
    let (few, count, outside, hash) = renew_lent(
        work.iw, work.w, work.nv, from, n_elements, all, flag, me,
    );
    put_row(work.e_len, i, few);
    put_cell(work.len, i, count);
    (count, outside, hash)
}

/// Makes the bound of a class no greater than the number given.
fn lower_bound<U: Unsigned>(degree: &mut [Cell<U>], i: usize, outside: usize)
    requires inside { i < length degree.old }
    ensures long { length degree.new ≡ length degree.old }
    ensures bound { num degree.new i ≡ min (num degree.old i) outside }
    ensures others { (x : ℕ) → (x ≡ i → ⊥) → num degree.new x ≡ num degree.old x }
{
    if outside < cell_at(degree, i) {
        put_cell(degree, i, outside);
    }
}

/// Ends a class of the front, whose rows go with the pivot `me`. Returns the number of its rows.
fn retire<S: Signed, P: Signed>(
    pe: &mut [Word<P>],
    e_len: &mut [Word<P>],
    nv: &mut [Word<S>],
    i: usize,
    me: usize,
) -> usize
    requires { CanRetire P.MOST i me pe.old e_len.old nv.old }
    ensures starts { pe.new ≡ slice_set pe.old i (flip_of me) }
    ensures lists { e_len.new ≡ slice_set e_len.old i (negsuc 0) }
    ensures sizes { nv.new ≡ slice_set nv.old i (pos 0) }
    ensures gone { result ≡ size_of nv.old i }
{
    let gone = size_inside(nv, i);
    put_flip(pe, i, me);
    put_word(e_len, i, -1);
    put_word(nv, i, 0);
    gone
}

/// Renews the list, the bound and the key of a class of the front, or ends it if it keeps nothing but the new element.
/// The key has the bits of `mask`. Returns the number of rows that go with the pivot.
fn renew_or_retire<S: Signed, P: Signed, U: Unsigned>(
    work: &mut Work<'_, '_, S, P, U>,
    i: usize,
    me: usize,
    mask: usize,
) -> usize
    requires class { CanRenewOrRetire S.MOST P.MOST U.MOST me i (workspace_of work.old) }
    requires mask { mask ≡ key_mask (length work.old.w.now) }
    ensures renews { RenewsOrRetires me i (workspace_of work.old) (workspace_of work.new) result }
    ensures loans { KeepsLoans work.old work.new }
{
    let (count, outside, hash) = renew_class(work, i, me);
    if count == 1 {
        return retire(work.pe, work.e_len, work.nv, i, me);
    }
    lower_bound(work.degree, i, outside);
    put_last(work.sides, i, hash & mask);
    0
}

/// Renews the list of each class of the new element's list in its place, makes its bound no greater than the number of
/// rows that it reaches outside the front, and leaves its key in `sides`, in place of the row before it. A class that
/// keeps nothing but the new element ends. Returns the number of rows of those that ended.
pub fn renew_all<S: Signed, P: Signed, U: Unsigned>(
    work: &mut Work<'_, '_, S, P, U>,
    me: usize,
) -> usize
    requires { CanRenewAll S.MOST P.MOST U.MOST me (workspace_of work.old) }
    ensures renews { RenewsAllClasses me (workspace_of work.old) (workspace_of work.new) result }
    ensures loans { KeepsLoans work.old work.new }
{
    let mask = key_mask(work.w.len());
    let (from, count) = list_lent(work.pe, work.len, me);
    let mut gone: usize = 0;
    for p in from..from + count {
        let i = named_lent(work.iw, p);
        gone += renew_or_retire(work, i, me, mask);
    }
    gone
}
