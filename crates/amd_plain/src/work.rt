// What an elimination keeps between two rounds. Source: Amestoy, Davis and Duff 1996 (quotient graph).

use amd_types::figures::Figures;
use std::alloc::Allocator;

/// The lists of the quotient graph: for each class its elements and its variables, for each element its members. Rows,
/// classes and elements are numbers below the size of the matrix: a class is named by its representative, and an
/// element by its pivot row.
pub struct PlainLists<A: Allocator> {
    /// The direct neighbours of each class. What is a class no longer may stand among them.
    pub variables: Vec<Vec<usize, A>, A>,
    /// The standing elements that hold each class.
    pub elements: Vec<Vec<usize, A>, A>,
    /// The classes that each standing element holds. What is a class no longer may stand among them.
    pub members: Vec<Vec<usize, A>, A>,
}

/// The lists are given back in one function, not anew wherever they end. So are those below.
impl<A: Allocator> Drop for PlainLists<A> {
    fn drop(self) {
        let PlainLists {
            variables: _,
            elements: _,
            members: _,
        } = self;
    }
}

/// How many rows the classes and the elements have, as a round reads it.
#[derive(Drop)]
pub struct RowCounts<'a, 'b, 'c> {
    /// The number of rows of each class.
    pub size: &'a [usize],
    /// The number of rows of the block of each element.
    pub block: &'b [usize],
    /// The number of rows of block and border of each element.
    pub whole: &'c [usize],
}

/// Room for a round: marks, which are clear between rounds, groups, which are empty then, and numbers that mean nothing
/// then.
pub struct Scratch<A: Allocator> {
    /// Marks of classes, and of the pivot.
    pub rows: Vec<bool, A>,
    /// Marks of elements.
    pub elements: Vec<bool, A>,
    /// Groups of classes, in which those alike are looked for.
    pub groups: Vec<Vec<usize, A>, A>,
    /// For each element met in a round, the number of rows of its border in no class of the front.
    pub beyond: Vec<usize, A>,
    /// For each class of the front that is left, the class that represents it (itself, if it stays).
    pub into: Vec<usize, A>,
}

impl<A: Allocator> Drop for Scratch<A> {
    fn drop(self) {
        let Scratch {
            rows: _,
            elements: _,
            groups: _,
            beyond: _,
            into: _,
        } = self;
    }
}

/// The state of an elimination.
pub struct PlainWork<A: Allocator> {
    /// What asks for memory.
    pub alloc: A,
    /// The lists of the quotient graph.
    pub lists: PlainLists<A>,
    /// The number of rows of each class, and 0 for a row that is not a class.
    pub size: Vec<usize, A>,
    /// The bound of each class.
    pub bound: Vec<usize, A>,
    /// For each bound the classes of that bound in the order of placing, and others that are passed over.
    pub placed: Vec<Vec<usize, A>, A>,
    /// No class has a bound below it.
    pub least: usize,
    /// The number of rows that are live.
    pub live: usize,
    /// For a row that was merged the row of the class that it went into, and for one that was mass-eliminated the
    /// pivot.
    pub link: Vec<Option<usize>, A>,
    /// The parent of each absorbed element.
    pub parent: Vec<Option<usize>, A>,
    /// The number of rows of the block of each element, and 0 for what is no element.
    pub block: Vec<usize, A>,
    /// The number of rows of the block and of the border of each element.
    pub front: Vec<usize, A>,
    /// The number of dense rows.
    pub n_dense: usize,
    /// The figures of the fronts so far.
    pub figures: Figures,
    /// Room for a round.
    pub scratch: Scratch<A>,
}

impl<A: Allocator> Drop for PlainWork<A> {
    fn drop(self) {
        let PlainWork {
            alloc: _,
            lists: _,
            size: _,
            bound: _,
            placed: _,
            least: _,
            live: _,
            link: _,
            parent: _,
            block: _,
            front: _,
            n_dense: _,
            figures: _,
            scratch: _,
        } = self;
    }
}
