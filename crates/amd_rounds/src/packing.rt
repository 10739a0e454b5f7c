// Compaction of a workspace: its live lists move down, so that the words behind them are free. Source: Amestoy, Davis
// and Duff 1996 (garbage collection).

ghost use Rattle.std.specs.Prelude.{ℕ, ◌≡◌, length};
ghost use Rattle.amd_elements.specs.Compaction.{Compacts};
ghost use Rattle.amd_rounds.specs.Compacting.{IsCompacted};
ghost use Rattle.amd_lists.specs.Sizes.{AreWideEnough};
ghost use Rattle.amd_rounds.specs.Laid.{IsLaid};
ghost use Rattle.amd_lists.specs.Workspaces.{KeepsLoans, workspace_of};

use amd_elements::compaction::pack_lists;
use amd_lists::work::Work;
use amd_words::{Signed, Unsigned};

/// Packs the lists of the workspace: what it stands for stays, and the words before the free end are exactly those of
/// the lists of the classes and of the standing elements.
#[cold]
pub fn compact<S: Signed, P: Signed, U: Unsigned>(work: &mut Work<'_, '_, S, P, U>)
    requires wide { AreWideEnough S.MOST P.MOST U.MOST (length work.old.nv.now) (length work.old.iw.now) }
    requires laid { (nzaat : ℕ) × IsLaid (length work.old.nv.now) nzaat (workspace_of work.old) }
    ensures compacts { IsCompacted (workspace_of work.old) (workspace_of work.new) }
    ensures moves { Compacts work.old.iw.now work.old.pe.now work.old.len.now work.old.free work.new.iw.now
        work.new.pe.now work.new.free }
    ensures same { workspace_of work.new ≡ record (workspace_of work.old) {
      iw = work.new.iw.now;
      pe = work.new.pe.now;
      free = work.new.free;
    } }
    ensures loans { KeepsLoans work.old work.new }
{
    let free = work.free;
    let end = pack_lists(work.iw, work.pe, work.len, free);
    work.free = end;
}
