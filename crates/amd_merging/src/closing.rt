// The closing of an element: its list has lost the rows that are no longer classes, and its length, its rows and the
// rows of its border are written. Source: Amestoy, Davis and Duff 1996 (the arrays of the quotient graph).

ghost use Rattle.std.specs.Prelude.{◌+◌, ◌-◌, ◌<◌, ◌≡◌, ◌≤◌, length, slice_set};
ghost use Rattle.amd_words.specs.Words.{flip_of};

use amd_words::words::put_flip;
use amd_words::{Cell, Signed, Unsigned, Word, put_cell};

/// Closes the element `me`, whose list stands from `from` to `end` now: writes its length, the rows of block and border
/// together, and those of the border. If no other list ends behind `from`, the free end may go back to `end`; the
/// caller moves it.
pub fn close<P: Signed, U: Unsigned>(
    e_len: &mut [Word<P>],
    len: &mut [Cell<U>],
    degree: &mut [Cell<U>],
    me: usize,
    from: usize,
    end: usize,
    block: usize,
    border: usize,
)
    requires row { (me < length e_len.old) × (me < length len.old) × (me < length degree.old) }
    requires order { from ≤ end }
    requires few { block + border + 2 ≤ P.MOST }
    requires fits { (end - from ≤ U.MOST) × (border ≤ U.MOST) }
    ensures counts { e_len.new ≡ slice_set e_len.old me (flip_of (block + border)) }
    ensures lengths { len.new ≡ slice_set len.old me (end - from) }
    ensures borders { degree.new ≡ slice_set degree.old me border }
{
    put_flip(e_len, me, block + border);
    put_cell(len, me, end - from);
    put_cell(degree, me, border);
}
