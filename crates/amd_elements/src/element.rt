// The list of a new element, built at the free end of the workspace from the lists of its pivot and of the elements
// that the pivot lists. All other lists stay as they are. Source: Amestoy, Davis and Duff 1996 (element formation).

ghost use Rattle.std.specs.Prelude.{◌≡◌};
ghost use Rattle.amd_words.specs.Words.{classes, rows};
ghost use Rattle.amd_elements.specs.Element.{Builds, Gathers, IsGathering, front_of};
ghost use Rattle.amd_elements.specs.Premises.{CanBuild, CanGather};

use crate::around::{ListVisitor, visit_around};
use amd_words::words::{enter, is_open, named};
use amd_words::{Cell, Signed, Unsigned, Word, copy_word};

/// Appends the classes among some words that are not in the front yet to the list that stands from `start` to `free`,
/// and puts them into the front. Returns the new end, and the number of rows of the list. The words stand before the
/// list, or from `free` on: then the list may grow over those that were read.
pub fn gather<S: Signed>(
    iw: &mut [Word<S>],
    nv: &mut [Word<S>],
    from: usize,
    count: usize,
    start: usize,
    free: usize,
    total: usize,
) -> (usize, usize)
    requires { CanGather iw.old nv.old from count start free total }
    ensures { Gathers iw.old nv.old start free (classes nv.old (rows iw.old from count)) iw.new nv.new result.0
        result.1 }
{
    let mut end = free;
    let mut sum = total;
    for p in from..from + count {
        let row = named(iw, p);
        if is_open(nv, row) {
            copy_word(iw, p, end);
            sum += enter(nv, row);
            end += 1;
        }
    }
    (end, sum)
}

/// A list that is gathered behind all others.
#[derive(Drop)]
struct Gathering {
    /// Where it ends.
    end: usize,
    /// Its number of rows.
    total: usize,
}

impl ListVisitor for Gathering {
    ghost holds = { λ free all taken first now. IsGathering free all taken first.words first.sizes now.words now.sizes
        now.visitor.end now.visitor.total };

    fn take<S: Signed>(
        &mut self,
        iw: &mut [Word<S>],
        nv: &mut [Word<S>],
        from: usize,
        count: usize,
        free: usize,
    ) {
        (self.end, self.total) = gather(iw, nv, from, count, free, self.end, self.total);
    }
}

/// Builds the list of the pivot's new element behind the lists: the classes of the pivot's elements, element after
/// element, and then those of its variables, each at its first occurrence and without the pivot. They and the pivot are
/// in the front then. Returns the new end, and the number of rows of the front. `pe` and `len` are only read.
///
/// It is compiled apart from the round: built into it, it takes registers of the loops there, and an ordering takes a
/// hundredth more time.
#[inline(never)]
pub fn build<S: Signed, P: Signed, U: Unsigned>(
    iw: &mut [Word<S>],
    nv: &mut [Word<S>],
    pe: &mut [Word<P>],
    len: &mut [Cell<U>],
    pivot: usize,
    n_elements: usize,
    free: usize,
) -> (usize, usize)
    requires { CanBuild pivot n_elements iw.old nv.old pe.old len.old free }
    ensures builds { Builds pivot (front_of iw.old nv.old pe.old len.old pivot n_elements) iw.old nv.old free iw.new
        nv.new result.0 result.1 }
    ensures same { (pe.new ≡ pe.old) × (len.new ≡ len.old) }
{
    enter(nv, pivot);
    let mut list = Gathering {
        end: free,
        total: 0,
    };
    visit_around(&mut list, iw, nv, pe, len, pivot, n_elements, free);
    (list.end, list.total)
}
