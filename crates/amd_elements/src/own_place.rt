// The list of a new element whose pivot lists no element: it is made in the place of the pivot's list, so it needs no
// room. Source: Amestoy, Davis and Duff 1996 (element formation in place).

ghost use Rattle.std.specs.Prelude.{◌-◌, ◌≡◌, ◌≤◌, slice_set};
ghost use Rattle.amd_words.specs.Words.{flip_of, start};
ghost use Rattle.amd_elements.specs.Element.{Builds};
ghost use Rattle.amd_elements.specs.Pivots.{own_front};
ghost use Rattle.amd_elements.specs.Premises.{CanBeginOwn};
ghost use Rattle.amd_lists.specs.Layout.{end_of};
ghost use Rattle.amd_lists.specs.Workspaces.{KeepsLoans, workspace_of};

use crate::element::gather;
use amd_lists::lent::list_lent;
use amd_lists::work::Work;
use amd_words::words::{enter, put_flip};
use amd_words::{Signed, Unsigned, put_cell};

/// Makes the pivot `me`, which lists no element, an element in its own place: the classes that it lists. Returns where
/// the list ends, and its number of rows.
pub fn make_own<S: Signed, P: Signed, U: Unsigned>(
    work: &mut Work<'_, '_, S, P, U>,
    me: usize,
) -> (usize, usize)
    requires { CanBeginOwn P.MOST me (workspace_of work.old) }
    ensures builds { Builds me (own_front (workspace_of work.old) me) work.old.iw.now work.old.nv.now
        (start work.old.pe.now me) work.new.iw.now work.new.nv.now result.0 result.1 }
    ensures inside { result.0 ≤ end_of work.old.pe.now work.old.len.now me }
    ensures counts { work.new.e_len.now ≡ slice_set work.old.e_len.now me (flip_of result.1) }
    ensures lengths { work.new.len.now ≡ slice_set work.old.len.now me (result.0 - start work.old.pe.now me) }
    ensures same { workspace_of work.new ≡ record (workspace_of work.old) {
      iw = work.new.iw.now;
      nv = work.new.nv.now;
      e_len = work.new.e_len.now;
      len = work.new.len.now;
    } }
    ensures loans { KeepsLoans work.old work.new }
{
    let (from, count) = list_lent(work.pe, work.len, me);
    enter(work.nv, me);
    let (end, total) = gather(work.iw, work.nv, from, count, from, from, 0);
    put_flip(work.e_len, me, total);
    put_cell(work.len, me, end - from);
    (end, total)
}
