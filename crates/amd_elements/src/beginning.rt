// The beginning of an element: the pivot becomes an element whose list names its front, and leaves the front itself. A
// pivot that lists no element becomes one in the place of its own list; that of another one is built behind all lists,
// and the elements that it lists end. Source: Amestoy, Davis and Duff 1996 (element formation and absorption).

ghost use Rattle.std.specs.Prelude.{◌<◌, ◌≡◌, length, true};
ghost use Rattle.amd_words.specs.Words.{in_front, size_of};
ghost use Rattle.amd_elements.specs.Effects.{BeginsBuilt, BeginsOwn, TakesPivot};
ghost use Rattle.amd_elements.specs.Premises.{CanBeginOwn, CanMakeElement};
ghost use Rattle.amd_lists.specs.Workspaces.{KeepsLoans, workspace_of};

use crate::element::build;
use crate::making::{absorb_own, settle};
use crate::own_place::make_own;
use amd_lists::lent::named_lent;
use amd_lists::work::Work;
use amd_words::words::{put_row, size_inside};
use amd_words::{Signed, Unsigned, Word};

/// What the beginning of an element returns.
#[derive(Drop)]
pub struct Begun {
    /// The number of rows of the pivot.
    pub block: usize,
    /// The number of rows of the front.
    pub total: usize,
}

/// Takes the pivot out of the front, and leaves it no rows. Returns how many it had.
fn take_pivot<S: Signed>(nv: &mut [Word<S>], me: usize) -> usize
    requires inside { me < length nv.old }
    requires marked { in_front nv.old me ≡ true }
    ensures rows { result ≡ size_of nv.old me }
    ensures takes { TakesPivot me nv.old nv.new }
{
    let rows = size_inside(nv, me);
    put_row(nv, me, 0);
    rows
}

/// Begins the element of a pivot that lists no element, in the place of its list.
pub fn begin_own<S: Signed, P: Signed, U: Unsigned>(
    work: &mut Work<'_, '_, S, P, U>,
    me: usize,
) -> Begun
    requires { CanBeginOwn P.MOST me (workspace_of work.old) }
    ensures begins { BeginsOwn me (workspace_of work.old) (workspace_of work.new) result }
    ensures loans { KeepsLoans work.old work.new }
{
    let (_, total) = make_own(work, me);
    let block = take_pivot(work.nv, me);
    Begun { block, total }
}

/// Begins the element of a pivot that lists elements, behind all lists, where there is room for it, and moves the free
/// end behind it. The elements that it lists end.
pub fn begin_built<S: Signed, P: Signed, U: Unsigned>(
    work: &mut Work<'_, '_, S, P, U>,
    me: usize,
) -> Begun
    requires { CanMakeElement P.MOST U.MOST me (workspace_of work.old) }
    ensures begins { BeginsBuilt me (workspace_of work.old) (workspace_of work.new) result }
    ensures loans { KeepsLoans work.old work.new }
{
    let from = named_lent(work.pe, me);
    let n_elements = named_lent(work.e_len, me);
    let free = work.free;
    let (end, total) = build(work.iw, work.nv, work.pe, work.len, me, n_elements, free);
    absorb_own(work.iw, work.pe, work.w, from, n_elements, me);
    settle(work.pe, work.e_len, work.len, me, free, end, total);
    work.free = end;
    let block = take_pivot(work.nv, me);
    Begun { block, total }
}
