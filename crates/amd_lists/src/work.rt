// What an elimination in one workspace keeps between two rounds: borrowed slices, and some numbers. Source: Amestoy,
// Davis and Duff 1996 and 2004 (the arrays of the quotient graph).

ghost use Rattle.std.specs.Prelude.{◌≡◌};
ghost use Rattle.amd_lists.specs.Sizes.{bucket_count};

use amd_types::figures::Figures;
use amd_words::sides::Sides;
use amd_words::{Cell, Signed, Unsigned, Word};

/// The state of an elimination of a matrix with `n` rows. Each slice but `iw` and `hash` has `n` places, with a number
/// in each, and in `sides` two. Where a figure names a row, `n` stands for no row. A mark is a number below zero: -1
/// names nothing, and `-k - 2` names `k`.
#[derive(Drop)]
pub struct Work<'a, 'b, S: Signed, P: Signed, U: Unsigned> {
    /// All lists: that of a class names its elements and then its variables, that of an element its members.
    pub iw: &'a mut [Word<S>],
    /// Where the list of each row starts. An absorbed element has the mark of its parent here, and a row that was
    /// merged or went with a pivot that of the row with which it goes.
    pub pe: &'b mut [Word<P>],
    /// The number of elements that a class lists. An element has the mark of the number of rows of its block and border
    /// here, and a row that is neither has -1.
    pub e_len: &'b mut [Word<P>],
    /// The number of rows of each class, and 0 for what is no class. In a round it is negative for a class of the
    /// front.
    pub nv: &'a mut [Word<S>],
    /// The number of words of each list.
    pub len: &'a mut [Cell<U>],
    /// The bound of each class, and the number of rows of the border of each element.
    pub degree: &'a mut [Cell<U>],
    /// A counter of each row, above 0 for a class and for a standing element.
    pub w: &'a mut [Cell<U>],
    /// The first class of each bound.
    pub head: &'a mut [Cell<U>],
    /// The two sides of each class in its list by bound: the class behind it and the one before it. In a round a class
    /// in a bucket has the next one of the bucket behind it, and a class of the front has its key where the one before
    /// it stood.
    pub sides: &'a mut [Sides<U>],
    /// The first class of each of the `bucket_count(n)` buckets, in which classes alike are looked for. Between rounds
    /// there is none.
    pub hash: &'a mut [Cell<U>],
    /// No list has a word from here on.
    pub free: usize,
    /// The number of rows that are live.
    pub live: usize,
    /// No class has a bound below it.
    pub least: usize,
    /// A number above each counter.
    pub flag: usize,
    /// The number of rows of the greatest border so far.
    pub most: usize,
    /// How often the lists were packed.
    pub n_cmp_a: usize,
    /// The number of rows held last.
    pub n_dense: usize,
    /// The figures of the fronts so far.
    pub figures: Figures,
}

/// How many buckets there are for so many rows. A front has few classes beside the rows of the matrix, and so there is
/// one bucket for each sixteen keys.
pub fn bucket_count(rows: usize) -> usize
    ensures { result ≡ bucket_count rows }
{
    rows.div_ceil(16)
}
