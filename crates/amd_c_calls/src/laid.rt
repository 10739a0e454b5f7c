// Eliminates the rows of lists that a caller laid, in the caller's workspace, into the caller's arrays. The arrays and
// the record are written last. Source: Amestoy, Davis and Duff 2004.

ghost use Rattle.std.specs.Prelude.{◌≡◌, ◌<◌, ◌≤◌, ◌+◌, ℕ, pos, List, length};
ghost use Rattle.amd_model.specs.Graph.{Graph};
ghost use Rattle.amd_workspace.specs.Laying.{IsLaidOut};
ghost use Rattle.amd_engine.specs.InPlace.{LaysGraph};
ghost use Rattle.amd_c_calls.specs.Laid.{HasPlacesFor, LeavesElimination, KeepsLists, KeepsPlaces, answered};

use crate::lent::{Lists, Places};
use amd_calls::records::{Parameters, Statistics, control_of, statistics_of};
use amd_engine::amd_2::amd_2;
use amd_types::amd::{Info, Status};
use amd_types::index::Index;
use std::alloc::Global;

/// Eliminates the rows of lists that are laid, as `amd_2` of the crate `amd_engine`, and returns the status, which is
/// `OK`.
///
/// The lists are as `amd_2` requires them, and each array of `places` has a place for each of the `n` rows. What the
/// elimination answers is written there, and what it tells into `statistics`, of which the fields that tell the pattern
/// are 0. `pe` has the parents and links afterwards; what `iw` and `len` then hold is not said.
///
/// # Errors
///
/// `OutOfMemory` where a request was refused. All but `pe`, `iw` and `len` stays as it was.
///
/// Source: Amestoy, Davis and Duff 1996 and 2004.
pub fn eliminate_into<I: Index>(
    alloc: Global,
    n: I,
    lists: &mut Lists<'_>,
    parameters: &Parameters,
    places: &mut Places<'_, I, isize>,
    statistics: &mut Statistics,
) -> Status
    // A number of a primitive type is always in range.
    requires fits { I.fits (I.value n) }
    requires size { I.value n ≡ pos (length lists.old.len.now) }
    requires some { 0 < length lists.old.len.now }
    requires laid { IsLaidOut (length lists.old.len.now) lists.old.iw.now lists.old.pe.now lists.old.len.now
        lists.old.pfree }
    requires graph { (g : Graph) × (neighbours : ℕ → List ℕ) ×
        LaysGraph g neighbours lists.old.iw.now lists.old.pe.now lists.old.len.now }
    requires room { lists.old.pfree + length lists.old.len.now ≤ length lists.old.iw.now }
    requires places { HasPlacesFor (length lists.old.len.now) (answered I.value places.old statistics.old) }
    ensures leaves { LeavesElimination parameters.now lists.old.iw.now lists.old.pe.now lists.old.len.now
        lists.new.pe.now (answered I.value places.old statistics.old)
        (answered I.value places.new statistics.new) result }
    ensures lists { KeepsLists lists.old lists.new }
    ensures loans { KeepsPlaces places.old places.new }
{
    let control = control_of(parameters);
    let mut info = Info::new(lists.len.len());
    let (room, pfree) = (lists.iw.len(), lists.pfree);
    let Ok((counts, inverse, rows, fronts)) = amd_2(
        alloc, n, lists.pe, lists.iw, lists.len, room, pfree, &control, &mut info,
    ) else {
        return Status::OutOfMemory;
    };
    places.nv.copy_from_slice(&counts);
    places.p_inv.copy_from_slice(&inverse);
    places.p.copy_from_slice(&rows);
    places.e_len.copy_from_slice(&fronts);
    *statistics = statistics_of(&info);
    Status::OK
}
