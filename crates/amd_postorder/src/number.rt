// Numbers of a forest, read from lists of either of two kinds: plain ones, and the words of a workspace.

ghost use Rattle.std.specs.Prelude.{◌≡◌, ◌<◌, ℤ, List, length};
ghost use Rattle.amd_model.specs.Input.Columns.{at};

use amd_words::{Signed, Word, word_at};

/// A signed number.
pub trait Number {
    // What a list of numbers says.
    ghost read: { List Self → List ℤ };

    /// The number at a place.
    fn number_at(numbers: &[Self], place: usize) -> isize
        requires { place < length numbers.now }
        ensures { result ≡ at (read numbers.now) place };

    // A list says as much as it has numbers.
    ghost read_room: { (numbers : List Self) → length (read numbers) ≡ length numbers };
}

impl Number for isize {
    ghost read = { λ numbers. numbers };

    #[inline]
    fn number_at(numbers: &[isize], place: usize) -> isize {
        numbers[place]
    }

    ghost use Rattle.std.proofs.Common.{rules};

    ghost read_room = { Prim.search rules };
}

impl<S: Signed> Number for Word<S> {
    ghost read = { λ numbers. numbers };

    #[inline]
    fn number_at(numbers: &[Word<S>], place: usize) -> isize {
        word_at(numbers, place)
    }

    ghost use Rattle.std.proofs.Common.{rules};

    ghost read_room = { Prim.search rules };
}
