// Whether the list of a new element fits behind all lists, so that the workspace needs no compaction before it. The
// lengths of the lists around the pivot are tried first; the classes of the new element are counted only where these do
// not fit. Counts go down from the room that there is, so no sum is formed. Source: Amestoy, Davis and Duff 1996
// (garbage collection).

ghost use Rattle.std.specs.Prelude.{[], ◌+◌, ◌-◌, ◌<◌, ◌^◌, ◌∷◌, ◌≡◌, ◌≤◌, length, nat_le};
ghost use Rattle.amd_words.specs.Words.{classes, rows};
ghost use Rattle.amd_lists.specs.Spans.{IsSpan};
ghost use Rattle.amd_elements.specs.Element.{front_of};
ghost use Rattle.amd_elements.specs.Premises.{CanFit, IsAround};
ghost use Rattle.amd_elements.specs.Pivots.{built_front};
ghost use Rattle.amd_elements.specs.Room.{IsMeeting, IsRemainder, IsUnmarking, Meets, Unmarks};
ghost use Rattle.amd_lists.specs.Workspaces.{KeepsLoans, workspace_of};

use crate::around::{ListVisitor, visit_around};
use amd_lists::lent::named_lent;
use amd_lists::work::Work;
use amd_words::words::{enter, is_marked, is_open, leave, named};
use amd_words::{Cell, Signed, Unsigned, Word};

/// A row is met: a class that was not met before is put into the front, and takes one of `left` places. Returns how
/// many are left.
fn meet<S: Signed>(nv: &mut [Word<S>], j: usize, left: usize) -> usize
    requires { j < length nv.old }
    ensures { Meets nv.old (classes nv.old (j ∷ [])) left nv.new result }
{
    if is_open(nv, j) {
        enter(nv, j);
        return left.saturating_sub(1);
    }
    left
}

/// The rows that `count` words name are met. Returns how many places are left.
fn meet_all<S: Signed>(
    iw: &[Word<S>],
    nv: &mut [Word<S>],
    from: usize,
    count: usize,
    left: usize,
) -> usize
    requires { IsSpan (length nv.old) iw.now from count }
    ensures { Meets nv.old (classes nv.old (rows iw.now from count)) left nv.new result }
{
    let mut now = left;
    for p in from..from + count {
        let j = named(iw, p);
        now = meet(nv, j, now);
    }
    now
}

/// The places that are left after the classes of some lists were met.
#[derive(Drop)]
struct Meeting {
    left: usize,
}

impl ListVisitor for Meeting {
    ghost holds = { λ end all taken first now. IsMeeting taken first.words first.sizes first.visitor.left now.words
        now.sizes now.visitor.left };

    fn take<S: Signed>(
        &mut self,
        iw: &mut [Word<S>],
        nv: &mut [Word<S>],
        from: usize,
        count: usize,
        end: usize,
    ) {
        self.left = meet_all(iw, nv, from, count, self.left);
    }
}

/// Takes a row out of the front, if it is a class of the front.
fn unmark<S: Signed>(nv: &mut [Word<S>], j: usize)
    requires { j < length nv.old }
    ensures { Unmarks nv.old (j ∷ []) nv.new }
{
    if is_marked(nv, j) {
        leave(nv, j);
    }
}

/// Takes the rows that `count` words name out of the front.
fn unmark_all<S: Signed>(iw: &[Word<S>], nv: &mut [Word<S>], from: usize, count: usize)
    requires { IsSpan (length nv.old) iw.now from count }
    ensures { Unmarks nv.old (rows iw.now from count) nv.new }
{
    for p in from..from + count {
        let j = named(iw, p);
        unmark(nv, j);
    }
}

/// What takes the rows of lists out of the front.
#[derive(Drop)]
struct Unmarking {}

impl ListVisitor for Unmarking {
    ghost holds = { λ end all taken first now. IsUnmarking taken first.words first.sizes now.words now.sizes };

    fn take<S: Signed>(
        &mut self,
        iw: &mut [Word<S>],
        nv: &mut [Word<S>],
        from: usize,
        count: usize,
        end: usize,
    ) {
        unmark_all(iw, nv, from, count);
    }
}

/// What is left of some words when those of lists are taken off.
#[derive(Drop)]
struct Remainder {
    left: usize,
}

impl ListVisitor for Remainder {
    ghost holds = { λ end all taken first now. IsRemainder taken first.words first.sizes first.visitor.left
        now.words now.sizes now.visitor.left };

    fn take<S: Signed>(
        &mut self,
        iw: &mut [Word<S>],
        nv: &mut [Word<S>],
        from: usize,
        count: usize,
        end: usize,
    ) {
        self.left = self.left.saturating_sub(count);
    }
}

/// What is left of `room` words when those of the list of the pivot's new element are taken off. The classes of that
/// list are in the front meanwhile; all that is lent is as before then.
#[cold]
fn room_beyond_front<S: Signed, P: Signed, U: Unsigned>(
    iw: &mut [Word<S>],
    nv: &mut [Word<S>],
    pe: &[Word<P>],
    len: &[Cell<U>],
    pivot: usize,
    n_elements: usize,
    free: usize,
    room: usize,
) -> usize
    requires end { free ≤ length iw.old }
    requires around { IsAround pivot n_elements iw.old nv.old pe.now len.now free }
    ensures room { result ≡ room - length (front_of iw.old nv.old pe.now len.now pivot n_elements) }
    ensures same { (iw.new ≡ iw.old) × (nv.new ≡ nv.old) }
{
    enter(nv, pivot);
    let mut met = Meeting { left: room };
    visit_around(&mut met, iw, nv, pe, len, pivot, n_elements, free);
    leave(nv, pivot);
    visit_around(&mut Unmarking {}, iw, nv, pe, len, pivot, n_elements, free);
    met.left
}

/// Whether the list of the pivot's new element fits behind `free`. All that is lent is only read, or as before.
fn fits<S: Signed, P: Signed, U: Unsigned>(
    iw: &mut [Word<S>],
    nv: &mut [Word<S>],
    pe: &mut [Word<P>],
    len: &mut [Cell<U>],
    pivot: usize,
    n_elements: usize,
    free: usize,
) -> bool
    requires end { (free ≤ length iw.old) × (length iw.old < 2 ^ 63) }
    requires around { IsAround pivot n_elements iw.old nv.old pe.old len.old free }
    ensures fits { result ≡ nat_le (free + length (front_of iw.old nv.old pe.old len.old pivot n_elements))
        (length iw.old) }
    ensures same { (iw.new ≡ iw.old) × (nv.new ≡ nv.old) × (pe.new ≡ pe.old) × (len.new ≡ len.old) }
{
    let room = iw.len() - free + 1;
    let mut words = Remainder { left: room };
    visit_around(&mut words, iw, nv, pe, len, pivot, n_elements, free);
    words.left > 0 || room_beyond_front(iw, nv, pe, len, pivot, n_elements, free, room) > 0
}

/// Whether the list of the new element of the pivot `me` fits behind all lists. The workspace is as before then.
pub fn has_room<S: Signed, P: Signed, U: Unsigned>(
    work: &mut Work<'_, '_, S, P, U>,
    me: usize,
) -> bool
    requires { CanFit P.MOST me (workspace_of work.old) }
    ensures fits { result ≡ nat_le (work.old.free + length (built_front (workspace_of work.old) me))
        (length work.old.iw.now) }
    ensures same { workspace_of work.new ≡ workspace_of work.old }
    ensures loans { KeepsLoans work.old work.new }
{
    let n_elements = named_lent(work.e_len, me);
    let free = work.free;
    fits(work.iw, work.nv, work.pe, work.len, me, n_elements, free)
}
