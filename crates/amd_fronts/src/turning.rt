// The classes of the front of a new element are turned over to it: they leave the lists by bound, the rows of other
// elements outside the front are counted, and each list is renewed, or its class ends. Source: Amestoy, Davis and Duff
// 1996.

ghost use Rattle.amd_lists.specs.Workspaces.{KeepsLoans, workspace_of};
ghost use Rattle.amd_fronts.specs.Effects.{Turns};
ghost use Rattle.amd_fronts.specs.Premises.{CanTurnFront};

use crate::fronts::renew_all;
use crate::outside::count_outside;
use amd_lists::work::Work;
use amd_words::{Signed, Unsigned};

/// Takes the classes of the front of the new element `me` out of the lists by bound, counts the rows of other elements
/// outside the front, and renews the lists, bounds and keys of the classes. With `aggressive` the elements without
/// rows outside end, and a class that keeps nothing but the new element always ends. Returns the number of rows of the
/// classes that ended.
pub fn turn<S: Signed, P: Signed, U: Unsigned>(
    work: &mut Work<'_, '_, S, P, U>,
    me: usize,
    aggressive: bool,
) -> usize
    requires { CanTurnFront S.MOST P.MOST U.MOST me (workspace_of work.old) }
    ensures turns { Turns aggressive me (workspace_of work.old) (workspace_of work.new) result }
    ensures loans { KeepsLoans work.old work.new }
{
    count_outside(work, me, aggressive);
    renew_all(work, me)
}
