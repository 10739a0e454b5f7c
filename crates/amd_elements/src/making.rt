// A pivot that was built behind all lists: its list is written down, and the elements that it lists end in it. Source:
// Amestoy, Davis and Duff 1996 (element formation and absorption).

ghost use Rattle.std.specs.Prelude.{◌-◌, ◌≡◌, pos, slice_set};
ghost use Rattle.amd_words.specs.Words.{flip_of};
ghost use Rattle.amd_elements.specs.Effects.{Absorbs};
ghost use Rattle.amd_elements.specs.Premises.{CanAbsorb, CanSettle};

use amd_words::words::{named, put_flip, put_row};
use amd_words::{Cell, Signed, Unsigned, Word, put_cell};

/// Ends the elements that some words name: `me` absorbs them. `iw` is only read.
pub fn absorb_own<S: Signed, P: Signed, U: Unsigned>(
    iw: &mut [Word<S>],
    pe: &mut [Word<P>],
    w: &mut [Cell<U>],
    from: usize,
    count: usize,
    me: usize,
)
    requires { CanAbsorb P.MOST me iw.old pe.old w.old from count }
    ensures absorbs { Absorbs me iw.old from count pe.old w.old pe.new w.new }
    ensures same { iw.new ≡ iw.old }
{
    for p in from..from + count {
        let e = named(iw, p);
        put_flip(pe, e, me);
        put_cell(w, e, 0);
    }
}

/// Makes the words from `from` to `end` the list of the new element `me`, which has `total` rows.
pub fn settle<P: Signed, U: Unsigned>(
    pe: &mut [Word<P>],
    e_len: &mut [Word<P>],
    len: &mut [Cell<U>],
    me: usize,
    from: usize,
    end: usize,
    total: usize,
)
    requires { CanSettle P.MOST U.MOST me from end total pe.old e_len.old len.old }
    ensures starts { pe.new ≡ slice_set pe.old me (pos from) }
    ensures counts { e_len.new ≡ slice_set e_len.old me (flip_of total) }
    ensures lengths { len.new ≡ slice_set len.old me (end - from) }
{
    put_row(pe, me, from);
    put_flip(e_len, me, total);
    put_cell(len, me, end - from);
}
