// What a run is lent and told: the lists that are laid, and what is chosen. Source: Amestoy, Davis and Duff 1996 and
// 2004 (the arrays of the quotient graph).

use amd_types::amd::Control;
use amd_words::{Cell, Signed, Unsigned, Word};

/// Where lists of neighbours are laid, and how their rows are to be eliminated.
#[derive(Drop)]
pub struct Laid<'a, 'b, 'c, 'd, P: Signed, U: Unsigned> {
    /// Where the list of each row starts.
    pub pe: &'b mut [Word<P>],
    /// The degree of each row.
    pub len: &'a mut [Cell<U>],
    /// Room for a bound of each class.
    pub degree: &'a mut [Cell<U>],
    /// The lists fill the words before this one.
    pub free: usize,
    /// Where the words may become more, there are so many in all.
    pub room: usize,
    /// What is chosen.
    pub choice: &'c Choice<'d>,
}

/// What is chosen for a run, and is the same in each of its rounds.
#[derive(Drop)]
pub struct Choice<'a> {
    /// Which rows are dense, and whether absorption is aggressive.
    pub control: &'a Control,
    /// The rows that are marked are held last beside the dense ones. Where it is given, each row has a mark.
    pub hold: Option<&'a [bool]>,
    /// The first flag, 2 or more: the result is the same with each.
    pub flag: usize,
}
