// What the ordering and the factor need of a caller's integers: their values, and a few calls. Each primitive integer
// type has it, by the traits of `num_traits`. A function over it is proved with these few laws in sight, and not with
// those of all traits of `PrimInt`. What hands a caller's numbers on at once may ask for `PrimInt`, as `order` does.

ghost use Rattle.std.specs.Prelude.{ℤ, pos, ◌≡◌, ◌↔◌, ◌<ℤ◌, ◌≤ℤ◌, IsTrue, unsigned_abs};
ghost use Rattle.std.specs.Int.{FitsUnsignedBits};
ghost use Rattle.num_traits.specs.Laws.{Checks, ChecksUnsigned};

use num_traits::{PrimInt, Zero};

/// An integer type whose numbers name rows and places.
pub trait Index: Copy {
    // The integer that a number stands for.
    ghost value: { Self → ℤ };

    // Whether the type has this integer.
    ghost fits: { ℤ → Type 0 };

    /// The number 0.
    fn zero() -> Self
        ensures { value result ≡ pos 0 };

    /// The number as a count, or `None` where it is negative or exceeds `usize::MAX`.
    fn to_count(self) -> Option<usize>
        ensures { ChecksUnsigned 64 (value self) result };

    /// The count that a number is, where it is known to be one: the number is in `0..=usize::MAX`.
    fn known_count(self) -> usize
        requires { FitsUnsignedBits 64 (value self) }
        ensures { result ≡ unsigned_abs (value self) };

    /// The number that a count is, or `None` where the type does not have it.
    fn from_count(count: usize) -> Option<Self>
        ensures { Checks value fits (pos count) result };

    /// Whether the number is below another one.
    fn is_below(self, other: Self) -> bool
        ensures { IsTrue result ↔ (value self <ℤ value other) };

    /// Whether the number is below 0.
    fn is_negative(self) -> bool
        ensures { IsTrue result ↔ (value self <ℤ pos 0) };

    // The type has 0, and each integer between two that it has.
    ghost zero_fits: { fits (pos 0) };

    ghost between: { (x y z : ℤ) → fits x → fits z → x ≤ℤ y → y ≤ℤ z → fits y };
}

impl<I: PrimInt> Index for I {
    ghost value = { λ x. I.value x };

    ghost fits = { λ z. I.fits z };

    #[inline]
    fn zero() -> I {
        <I as Zero>::zero()
    }

    #[inline]
    fn to_count(self) -> Option<usize> {
        self.to_usize()
    }

    #[inline]
    fn known_count(self) -> usize {
        // No signed type of at most 64 bits has a number that passes an `isize`: for those no test is left.
        if let Some(count) = self.to_isize() {
            return count as usize;
        }
        let Some(count) = self.to_usize() else {
            unreachable!()
        };
        count
    }

    #[inline]
    fn from_count(count: usize) -> Option<I> {
        num_traits::cast::<usize, I>(count)
    }

    #[inline]
    fn is_below(self, other: I) -> bool {
        self < other
    }

    #[inline]
    fn is_negative(self) -> bool {
        self < <I as Zero>::zero()
    }

    ghost zero_fits = { I.zero_fits_law I.exact_law };

    ghost between = { λ x y z. I.between_law x y z I.exact_law };
}
