// The rounds of an elimination in one workspace. A round chooses a pivot and makes its element (`pivot`), turns the
// classes of its front over to it, merges those that are alike, and places what is left by new bounds. Source: Amestoy,
// Davis and Duff 1996 and 2004. A slice in a field of `Work` is lent for writing also where a part only reads it, since
// it cannot be lent again for reading from there.

ghost use Rattle.std.specs.Prelude.{ℕ, ◌<◌, ◌≡◌, ◌≤◌, ◌+◌, ◌^◌, ◌⊎◌, length, true, false, Bool};
ghost use Rattle.amd_model.specs.Graph.{Graph};
ghost use Rattle.amd_model.specs.Quotient.{QuotientGraph};
ghost use Rattle.amd_model.specs.State.{State};
ghost use Rattle.amd_rounds.specs.Keeps.{AreRounds, AreRoundsWithin, IsRound, NoRowIsLive, RaisesFlagInRound, Stands};
ghost use Rattle.amd_lists.specs.Sizes.{AreWideEnough, IsSized};
ghost use Rattle.amd_rounds.specs.Parts.{EndsFront, MergesFront, RaisesFlag, TurnsOver};
ghost use Rattle.amd_rounds.specs.Premises.{CanEnd, CanMerge, CanTurn};
ghost use Rattle.amd_lists.specs.Workspaces.{KeepsLoans, workspace_of};

use crate::pivot::{begin_element, pick};
use amd_fronts::outside::renew_flag;
use amd_fronts::turning::turn;
use amd_lists::lent::list_lent;
use amd_lists::work::Work;
use amd_merging::closing::close;
use amd_merging::merging::{ClassCounts, Members, merge_front};
use amd_merging::restoring::{Front, restore};
use amd_types::amd::Control;
use amd_words::{Signed, Unsigned};

/// Turns the classes of the front of the new element `me` over to it. Returns the number of rows of those that ended.
pub fn turn_over<S: Signed, P: Signed, U: Unsigned>(
    work: &mut Work<'_, '_, S, P, U>,
    me: usize,
    aggressive: bool,
) -> usize
    requires wide { AreWideEnough S.MOST P.MOST U.MOST (length work.old.nv.now) (length work.old.iw.now) }
    requires sized { IsSized (length work.old.nv.now) (workspace_of work.old) }
    requires front { CanTurn (length work.old.nv.now) me (workspace_of work.old) }
    ensures turns { TurnsOver aggressive (length work.old.nv.now) me result U.MOST (workspace_of work.old)
        (workspace_of work.new) }
    ensures loans { KeepsLoans work.old work.new }
{
    let before = work.flag;
    work.flag = renew_flag(work.w, before);
    turn(work, me, aggressive)
}

/// Takes the rows of the block off those that are live, and merges the classes of the front of `me` that are alike. The
/// flag rises above the counters of the round first, by the number of rows of the greatest border so far.
pub fn merge_alike<S: Signed, P: Signed, U: Unsigned>(
    work: &mut Work<'_, '_, S, P, U>,
    me: usize,
    block: usize,
    border: usize,
)
    requires wide { AreWideEnough S.MOST P.MOST U.MOST (length work.old.nv.now) (length work.old.iw.now) }
    requires sized { IsSized (length work.old.nv.now) (workspace_of work.old) }
    requires front { CanMerge (length work.old.nv.now) me block border U.MOST (workspace_of work.old) }
    ensures merges { MergesFront (length work.old.nv.now) me block border (workspace_of work.old)
        (workspace_of work.new) }
    ensures flag { RaisesFlag me border U.MOST (workspace_of work.old) (workspace_of work.new) }
    ensures loans { KeepsLoans work.old work.new }
{
    work.live -= block;
    work.most = work.most.max(border);
    let risen = work.flag + work.most;
    let flag = renew_flag(work.w, risen);
    let (from, count) = list_lent(work.pe, work.len, me);
    let front = Members { from, count, flag };
    let mut counts = ClassCounts {
        nv: work.nv,
        w: work.w,
    };
    work.flag = merge_front(
        work.iw,
        work.pe,
        work.e_len,
        work.len,
        &mut counts,
        work.hash,
        work.sides,
        front,
    );
}

/// Places the classes that are left of the front of `me` by their new bounds, closes the element, and adds its front to
/// the figures. The free end goes back to the end of a list that was built behind all others.
pub fn end_front<S: Signed, P: Signed, U: Unsigned>(
    work: &mut Work<'_, '_, S, P, U>,
    me: usize,
    block: usize,
    border: usize,
    is_built: bool,
)
    requires wide { AreWideEnough S.MOST P.MOST U.MOST (length work.old.nv.now) (length work.old.iw.now) }
    requires sized { IsSized (length work.old.nv.now) (workspace_of work.old) }
    requires front { CanEnd (length work.old.nv.now) me block border is_built (workspace_of work.old) }
    ensures ends { EndsFront (length work.old.nv.now) me block border is_built (workspace_of work.old)
        (workspace_of work.new) }
    ensures loans { KeepsLoans work.old work.new }
{
    let left = work.live;
    let low = work.least;
    let (from, count) = list_lent(work.pe, work.len, me);
    let front = Front {
        from,
        count,
        border,
        left,
    };
    let (end, least) = restore(
        work.iw,
        work.nv,
        work.degree,
        work.head,
        work.sides,
        work.hash,
        &front,
        low,
    );
    work.least = least;
    close(
        work.e_len,
        work.len,
        work.degree,
        me,
        from,
        end,
        block,
        border,
    );
    let free = if is_built { end } else { work.free };
    work.free = free;
    work.figures.add_front(block, border + work.n_dense);
}

/// One round: chooses a pivot, makes its element, and gives the classes of the element their new lists, numbers of rows
/// and bounds. A row must be live. The contract says what the workspace stands for, that its lists have no more words
/// than before the first round, and when they are packed; what stands in words of no list, and in the places of rows
/// that are neither class nor element, is left open. Where as many words as rows are live are free, no list is packed.
pub fn round<S: Signed, P: Signed, U: Unsigned>(work: &mut Work<'_, '_, S, P, U>, control: &Control)
    requires wide { AreWideEnough S.MOST P.MOST U.MOST (length work.old.nv.now) (length work.old.iw.now) }
    requires stands { (g : Graph) × (dense : ℕ → Bool) × (nzaat : ℕ) × (t : QuotientGraph) × (s : State) ×
        Stands g dense nzaat (workspace_of work.old) t s }
    requires left { 0 < work.old.live }
    ensures round { IsRound control.now.aggressive (workspace_of work.old) (workspace_of work.new) }
    ensures flag { RaisesFlagInRound U.MOST (workspace_of work.old) (workspace_of work.new) }
    ensures unpacked { work.old.free + work.old.live ≤ length work.old.iw.now → work.new.n_cmp_a ≡ work.old.n_cmp_a }
    ensures fewer { work.new.live < work.old.live }
    ensures long { (length work.new.iw.now ≡ length work.old.iw.now) ×
        (length work.new.nv.now ≡ length work.old.nv.now) }
    ensures loans { KeepsLoans work.old work.new }
{
    let me = pick(work);
    let element = begin_element(work, me);
    let gone = turn_over(work, me, control.aggressive);
    let block = element.block + gone;
    let border = element.total - gone;
    merge_alike(work, me, block, border);
    end_front(work, me, block, border, element.is_built);
}

/// Whether another round is due: a row is live, and of the words either all are there, `room` of them, or as many are
/// free as rows are live.
fn is_due(live: usize, free: usize, words: usize, room: usize) -> bool
    requires { free + live < 2 ^ 64 }
    ensures yes { result ≡ true → (0 < live) × ((room ≤ words) ⊎ (free + live ≤ words)) }
    ensures no { result ≡ false → 0 < live → (words < room) × (words < free + live) }
{
    live > 0 && (words >= room || free + live <= words)
}

/// Rounds until no row is live. Where the workspace has fewer than `room` words, and so may grow, they end before a
/// round that might pack the lists: as soon as fewer words than rows are live are free.
///
/// This is the one loop of rounds: with a second one the compiler would not build the round into it, and the fields of
/// `work` would be read from memory, which takes 5 hundredths more time.
pub fn eliminate_within<S: Signed, P: Signed, U: Unsigned>(
    work: &mut Work<'_, '_, S, P, U>,
    control: &Control,
    room: usize,
)
    requires wide { AreWideEnough S.MOST P.MOST U.MOST (length work.old.nv.now) (length work.old.iw.now) }
    requires stands { (g : Graph) × (dense : ℕ → Bool) × (nzaat : ℕ) × (t : QuotientGraph) × (s : State) ×
        Stands g dense nzaat (workspace_of work.old) t s }
    ensures rounds { AreRoundsWithin control.now.aggressive room (workspace_of work.old) (workspace_of work.new) }
    ensures packs { work.new.n_cmp_a ≤ length work.new.nv.now }
    ensures loans { KeepsLoans work.old work.new }
{
    'rounds: while is_due(work.live, work.free, work.iw.len(), room) {
        round(work, control);
    }
}

/// Rounds until no row is live. The contract says what the workspace stands for; the lists were packed no more often
/// than there are rows.
pub fn eliminate<S: Signed, P: Signed, U: Unsigned>(
    work: &mut Work<'_, '_, S, P, U>,
    control: &Control,
)
    requires wide { AreWideEnough S.MOST P.MOST U.MOST (length work.old.nv.now) (length work.old.iw.now) }
    requires stands { (g : Graph) × (dense : ℕ → Bool) × (nzaat : ℕ) × (t : QuotientGraph) × (s : State) ×
        Stands g dense nzaat (workspace_of work.old) t s }
    ensures rounds { AreRounds control.now.aggressive (workspace_of work.old) (workspace_of work.new) }
    ensures end { NoRowIsLive (workspace_of work.new) }
    ensures none { work.new.live ≡ 0 }
    ensures packs { work.new.n_cmp_a ≤ length work.new.nv.now }
    ensures long { (length work.new.iw.now ≡ length work.old.iw.now) ×
        (length work.new.nv.now ≡ length work.old.nv.now) }
    ensures loans { KeepsLoans work.old work.new }
{
    eliminate_within(work, control, 0);
}
