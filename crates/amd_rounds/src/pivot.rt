// The beginning of a round: the pivot is chosen, and becomes an element, in the place of its own list or behind all
// lists. Source: Amestoy, Davis and Duff 1996 (element formation).

ghost use Rattle.std.specs.Prelude.{ℕ, ◌<◌, ◌≡◌, pos, length};
ghost use Rattle.amd_words.specs.Words.{place, word};
ghost use Rattle.amd_lists.specs.Chains.{SomeFrom};
ghost use Rattle.amd_lists.specs.Sizes.{AreWideEnough, IsSized};
ghost use Rattle.amd_rounds.specs.Laid.{IsLaid};
ghost use Rattle.amd_rounds.specs.Parts.{BeginsElement, MakesRoom, Picks};
ghost use Rattle.amd_rounds.specs.Premises.{CanBegin};
ghost use Rattle.amd_lists.specs.Workspaces.{KeepsLoans, workspace_of};

use crate::packing::compact;
use amd_elements::beginning::{begin_built, begin_own};
use amd_elements::fitting::has_room;
use amd_lists::chains::choose;
use amd_lists::lent::named_lent;
use amd_lists::work::Work;
use amd_words::{Signed, Unsigned};

/// A new element in its round.
#[derive(Drop)]
pub struct Element {
    /// The number of rows of the pivot.
    pub block: usize,
    /// The number of rows of its front.
    pub total: usize,
    /// Whether its list stands behind all others.
    pub is_built: bool,
}

/// Chooses the pivot and takes it out of the lists by bound.
pub fn pick<S: Signed, P: Signed, U: Unsigned>(work: &mut Work<'_, '_, S, P, U>) -> usize
    requires sized { IsSized (length work.old.nv.now) (workspace_of work.old) }
    requires some { SomeFrom (length work.old.nv.now) work.old.head.now work.old.least }
    ensures picks { Picks (length work.old.nv.now) result (workspace_of work.old) (workspace_of work.new) }
    ensures loans { KeepsLoans work.old work.new }
{
    let least = work.least;
    let (me, bound) = choose(work.head, work.sides, least);
    work.least = bound;
    me
}

/// Makes the pivot `me`, which lists no element, an element in the place of its list.
fn begin_in_place<S: Signed, P: Signed, U: Unsigned>(
    work: &mut Work<'_, '_, S, P, U>,
    me: usize,
) -> Element
    requires wide { AreWideEnough S.MOST P.MOST U.MOST (length work.old.nv.now) (length work.old.iw.now) }
    requires laid { (nzaat : ℕ) × IsLaid (length work.old.nv.now) nzaat (workspace_of work.old) }
    requires pivot { CanBegin (length work.old.nv.now) me (workspace_of work.old) }
    requires count { word work.old.e_len.now me ≡ pos 0 }
    ensures begins { BeginsElement (length work.old.nv.now) me result.block result.total result.is_built
        (workspace_of work.old) (workspace_of work.new) }
    ensures loans { KeepsLoans work.old work.new }
{
    let begun = begin_own(work, me);
    Element {
        block: begun.block,
        total: begun.total,
        is_built: false,
    }
}

/// Makes room behind all lists for the new element of the pivot `me`: where it would pass the end, the lists are
/// packed.
fn make_room<S: Signed, P: Signed, U: Unsigned>(work: &mut Work<'_, '_, S, P, U>, me: usize)
    requires wide { AreWideEnough S.MOST P.MOST U.MOST (length work.old.nv.now) (length work.old.iw.now) }
    requires laid { (nzaat : ℕ) × IsLaid (length work.old.nv.now) nzaat (workspace_of work.old) }
    requires pivot { CanBegin (length work.old.nv.now) me (workspace_of work.old) }
    requires left { 0 < work.old.live }
    ensures rooms { MakesRoom (length work.old.nv.now) me (workspace_of work.old) (workspace_of work.new) }
    ensures loans { KeepsLoans work.old work.new }
{
    if has_room(work, me) {
        return;
    }
    compact(work);
    work.n_cmp_a += 1;
}

/// Makes the pivot `me`, which lists elements, an element behind all lists, which are packed first if there is no room.
fn begin_behind<S: Signed, P: Signed, U: Unsigned>(
    work: &mut Work<'_, '_, S, P, U>,
    me: usize,
) -> Element
    requires wide { AreWideEnough S.MOST P.MOST U.MOST (length work.old.nv.now) (length work.old.iw.now) }
    requires laid { (nzaat : ℕ) × IsLaid (length work.old.nv.now) nzaat (workspace_of work.old) }
    requires pivot { CanBegin (length work.old.nv.now) me (workspace_of work.old) }
    requires count { 0 < place (word work.old.e_len.now me) }
    requires left { 0 < work.old.live }
    ensures begins { BeginsElement (length work.old.nv.now) me result.block result.total result.is_built
        (workspace_of work.old) (workspace_of work.new) }
    ensures loans { KeepsLoans work.old work.new }
{
    make_room(work, me);
    let begun = begin_built(work, me);
    Element {
        block: begun.block,
        total: begun.total,
        is_built: true,
    }
}

/// Makes the pivot `me` an element.
pub fn begin_element<S: Signed, P: Signed, U: Unsigned>(
    work: &mut Work<'_, '_, S, P, U>,
    me: usize,
) -> Element
    requires wide { AreWideEnough S.MOST P.MOST U.MOST (length work.old.nv.now) (length work.old.iw.now) }
    requires laid { (nzaat : ℕ) × IsLaid (length work.old.nv.now) nzaat (workspace_of work.old) }
    requires pivot { CanBegin (length work.old.nv.now) me (workspace_of work.old) }
    requires left { 0 < work.old.live }
    ensures begins { BeginsElement (length work.old.nv.now) me result.block result.total result.is_built
        (workspace_of work.old) (workspace_of work.new) }
    ensures loans { KeepsLoans work.old work.new }
{
    let n_elements = named_lent(work.e_len, me);
    if n_elements == 0 {
        begin_in_place(work, me)
    } else {
        begin_behind(work, me)
    }
}
