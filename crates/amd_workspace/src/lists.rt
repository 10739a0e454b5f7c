// The lists of an elimination, wherever their memory comes from. They are made with room for all numbers that a run
// writes, so that no run asks for memory. Source: Amestoy, Davis and Duff 1996 and 2004 (the arrays of the quotient
// graph).

ghost use Rattle.std.specs.Prelude.{IfOk};
ghost use Rattle.amd_workspace.specs.Lists.{HasRoom, HasRoomBeside, HasRows};

use amd_lists::work::bucket_count;
use amd_words::sides::Sides;
use amd_words::{Cell, Signed, Unsigned, Word};
use std::alloc::{AllocError, Allocator};

/// The words of the lists of all rows, and a number of each row.
pub struct Words<S: Signed, U: Unsigned, A: Allocator> {
    /// While the lists are laid, the place behind the last word of the list of each row. Then the bound of each class.
    pub next: Vec<Cell<U>, A>,
    /// The words.
    pub iw: Vec<Word<S>, A>,
}

/// Lists of an elimination with a place for each row, but for those that a caller may lend; and that of the buckets.
pub struct Lists<U: Unsigned, A: Allocator> {
    /// The counter of each row.
    pub w: Vec<Cell<U>, A>,
    /// The first class of each bound. At first there is none.
    pub head: Vec<Cell<U>, A>,
    /// The two sides of each class in its list by bound: the class behind it and the one before it.
    pub sides: Vec<Sides<U>, A>,
    /// The first class of each bucket. At first there is none.
    pub hash: Vec<Cell<U>, A>,
}

/// All memory of an elimination.
pub struct Memory<S: Signed, P: Signed, U: Unsigned, A: Allocator> {
    /// The words of all lists, and the bound of each class.
    pub words: Words<S, U, A>,
    /// Where the list of each row starts.
    pub pe: Vec<Word<P>, A>,
    /// The number of words of each list: at first the degree of each row.
    pub len: Vec<Cell<U>, A>,
    /// The number of rows of each class, and at the end that of each block. Another list may serve in its place.
    pub nv: Vec<Word<S>, A>,
    /// The number of elements of each class, and at the end the number of rows of each front. Another list may serve in
    /// its place.
    pub e_len: Vec<Word<P>, A>,
    /// The other lists.
    pub lists: Lists<U, A>,
}

// What each record of lists has is given back in one function, not anew wherever one ends.

impl<S: Signed, U: Unsigned, A: Allocator> Drop for Words<S, U, A> {
    fn drop(self) {
        let Words { next: _, iw: _ } = self;
    }
}

impl<U: Unsigned, A: Allocator> Drop for Lists<U, A> {
    fn drop(self) {
        let Lists {
            w: _,
            head: _,
            sides: _,
            hash: _,
        } = self;
    }
}

impl<S: Signed, P: Signed, U: Unsigned, A: Allocator> Drop for Memory<S, P, U, A> {
    fn drop(self) {
        let Memory {
            words: _,
            pe: _,
            len: _,
            nv: _,
            e_len: _,
            lists: _,
        } = self;
    }
}

impl<U: Unsigned, A: Allocator + Copy> Lists<U, A> {
    /// Lists with room for `rows` rows.
    ///
    /// # Errors
    ///
    /// A refused request for memory.
    pub fn with_room(alloc: A, rows: usize) -> Result<Lists<U, A>, AllocError>
        ensures { IfOk result (HasRows rows) }
    {
        Ok(Lists {
            w: Vec::with_capacity(alloc, rows)?,
            head: Vec::with_capacity(alloc, rows)?,
            sides: Vec::with_capacity(alloc, rows)?,
            hash: Vec::with_capacity(alloc, bucket_count(rows))?,
        })
    }
}

impl<S: Signed, P: Signed, U: Unsigned, A: Allocator + Copy> Memory<S, P, U, A> {
    /// Memory for eliminations of up to `rows` rows in up to `words` words, but for the numbers of rows and of
    /// elements: other lists serve in their place.
    ///
    /// # Errors
    ///
    /// A refused request for memory.
    pub fn beside(alloc: A, rows: usize, words: usize) -> Result<Memory<S, P, U, A>, AllocError>
        ensures { IfOk result (HasRoomBeside rows words) }
    {
        Ok(Memory {
            pe: Vec::with_capacity(alloc, rows)?,
            len: Vec::with_capacity(alloc, rows)?,
            words: Words {
                next: Vec::with_capacity(alloc, rows)?,
                iw: Vec::with_capacity(alloc, words)?,
            },
            nv: Vec::new(alloc),
            e_len: Vec::new(alloc),
            lists: Lists::with_room(alloc, rows)?,
        })
    }

    /// Memory for eliminations of up to `rows` rows in up to `words` words. It is the only step that asks for memory.
    ///
    /// # Errors
    ///
    /// A refused request for memory.
    pub fn with_room(alloc: A, rows: usize, words: usize) -> Result<Memory<S, P, U, A>, AllocError>
        ensures { IfOk result (HasRoom rows words) }
    {
        let mut memory = Memory::beside(alloc, rows, words)?;
        memory.nv = Vec::with_capacity(alloc, rows)?;
        memory.e_len = Vec::with_capacity(alloc, rows)?;
        Ok(memory)
    }
}
