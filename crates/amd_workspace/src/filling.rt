// The filling of lists with one number. What they held before is given up; they have room for all that is written. A
// list is taken out of its place while it is filled, since behind a reference each push loads and stores its length.

ghost use Rattle.std.specs.Prelude.{◌≡◌, ◌≤◌, ℕ, replicate, unsigned_abs, IfOk};
ghost use Rattle.std.specs.Vec.{vec_capacity};

use amd_words::sides::{Sides, sides_of};
use amd_words::{Cell, Signed, Unsigned, Word, cell_of, word_of};
use std::alloc::{AllocError, Allocator};
use std::mem::replace;

/// Fills a list with `count` words, each of them `number`.
pub fn fill_words<S: Signed, A: Allocator + Copy>(
    list: &mut Vec<Word<S>, A>,
    count: usize,
    number: isize,
)
    requires room { count ≤ vec_capacity list.old }
    requires fits { unsigned_abs number ≤ S.MOST }
    ensures items { list.new.items ≡ replicate count number }
    ensures capacity { vec_capacity list.new ≡ vec_capacity list.old }
{
    let alloc = *list.allocator();
    let mut own = replace(list, Vec::new(alloc));
    own.clear();
    'words: for _ in 0..count {
        own.push_reserved(word_of(number));
    }
    *list = own;
}

/// Fills a list with `count` cells, each of them `number`.
pub fn fill_cells<U: Unsigned, A: Allocator + Copy>(
    list: &mut Vec<Cell<U>, A>,
    count: usize,
    number: usize,
)
    requires room { count ≤ vec_capacity list.old }
    requires fits { number ≤ U.MOST }
    ensures items { list.new.items ≡ replicate count number }
    ensures capacity { vec_capacity list.new ≡ vec_capacity list.old }
{
    let alloc = *list.allocator();
    let mut own = replace(list, Vec::new(alloc));
    own.clear();
    'cells: for _ in 0..count {
        own.push_reserved(cell_of(number));
    }
    *list = own;
}

/// Fills a list with the sides of `count` rows, with `number` on each side.
pub fn fill_sides<U: Unsigned, A: Allocator + Copy>(
    list: &mut Vec<Sides<U>, A>,
    count: usize,
    number: usize,
)
    requires room { count ≤ vec_capacity list.old }
    requires fits { number ≤ U.MOST }
    ensures items { list.new.items ≡ replicate count (number, number) }
    ensures capacity { vec_capacity list.new ≡ vec_capacity list.old }
{
    let alloc = *list.allocator();
    let mut own = replace(list, Vec::new(alloc));
    own.clear();
    'sides: for _ in 0..count {
        own.push_reserved(sides_of(number, number));
    }
    *list = own;
}

/// `count` words, each of them `number`.
///
/// # Errors
///
/// A refused request for memory.
pub fn words<S: Signed, A: Allocator + Copy>(
    alloc: A,
    count: usize,
    number: isize,
) -> Result<Vec<Word<S>, A>, AllocError>
    requires fits { unsigned_abs number ≤ S.MOST }
    ensures { IfOk result (λ v. v.items ≡ replicate count number) }
{
    let mut list = Vec::with_capacity(alloc, count)?;
    fill_words(&mut list, count, number);
    Ok(list)
}

/// `count` cells, each of them `number`.
///
/// # Errors
///
/// A refused request for memory.
pub fn cells<U: Unsigned, A: Allocator + Copy>(
    alloc: A,
    count: usize,
    number: usize,
) -> Result<Vec<Cell<U>, A>, AllocError>
    requires fits { number ≤ U.MOST }
    ensures { IfOk result (λ v. v.items ≡ replicate count number) }
{
    let mut list = Vec::with_capacity(alloc, count)?;
    fill_cells(&mut list, count, number);
    Ok(list)
}

/// The sides of `count` rows, with `number` on each side.
///
/// # Errors
///
/// A refused request for memory.
pub fn sides<U: Unsigned, A: Allocator + Copy>(
    alloc: A,
    count: usize,
    number: usize,
) -> Result<Vec<Sides<U>, A>, AllocError>
    requires fits { number ≤ U.MOST }
    ensures { IfOk result (λ v. v.items ≡ replicate count (number, number)) }
{
    let mut list = Vec::with_capacity(alloc, count)?;
    fill_sides(&mut list, count, number);
    Ok(list)
}
