// The signed numbers of a caller's integers: those of a file, and -1 where there is no parent.

ghost use Rattle.std.specs.Prelude.{◌≡◌, IfSome};
ghost use Rattle.num_traits.specs.Laws.{Checks};

use crate::index::Index;
use num_traits::PrimInt;

/// An integer type whose numbers name rows and places, or none where they are negative.
pub trait SignedIndex: Index {
    /// The number, where an `isize` has it.
    fn to_signed(self) -> Option<isize>
        ensures { IfSome result (λ number. number ≡ Self.value self) };

    /// The number of the type, where it has it.
    fn from_signed(number: isize) -> Option<Self>
        ensures { Checks Self.value Self.fits number result };
}

impl<I: PrimInt> SignedIndex for I {
    #[inline]
    fn to_signed(self) -> Option<isize> {
        self.to_isize()
    }

    #[inline]
    fn from_signed(number: isize) -> Option<I> {
        num_traits::cast::<isize, I>(number)
    }
}
