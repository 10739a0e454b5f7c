// The lists of an elimination with a place for each row, where they are lent. Source: Amestoy, Davis and Duff 1996 and
// 2004 (the arrays of the quotient graph).

use amd_words::sides::Sides;
use amd_words::{Cell, Signed, Unsigned, Word};

/// The lists of an elimination with a place for each row, as they are lent to a run: all but its words. `Work` of the
/// crate `amd_lists` says what each holds.
#[derive(Drop)]
pub struct RowLists<'a, 'b, 'c, S: Signed, P: Signed, U: Unsigned> {
    /// Where the list of each row starts.
    pub pe: &'b mut [Word<P>],
    /// The number of words of each list: at first the degree of each row.
    pub len: &'a mut [Cell<U>],
    /// The number of elements of each class.
    pub e_len: &'b mut [Word<P>],
    /// The number of rows of each class.
    pub nv: &'c mut [Word<S>],
    /// The bound of each class.
    pub degree: &'a mut [Cell<U>],
    /// The counter of each row.
    pub w: &'a mut [Cell<U>],
    /// The first class of each bound.
    pub head: &'a mut [Cell<U>],
    /// The two sides of each class in its list by bound.
    pub sides: &'a mut [Sides<U>],
    /// The first class of each bucket, of which there are fewer than rows.
    pub hash: &'a mut [Cell<U>],
}
