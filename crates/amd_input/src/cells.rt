// Lists of cells that a caller hands in: filled with zeros, added up, and copied to plain numbers.

ghost use Rattle.std.specs.Prelude.{◌≡◌, ◌<◌, ◌≤◌, ◌^◌, length, replicate, slice_index_or, IfOk, SomeIff};
ghost use Rattle.std.specs.Vec.{vec_capacity};
ghost use Rattle.amd_model.specs.Below.{sum_below};

use amd_words::{Cell, Unsigned, cell_of, number_of};
use std::alloc::{AllocError, Allocator};
use std::mem::replace;

/// Puts `size` zeros in the place of the numbers. The list is taken out of its place while it is filled, since behind a
/// reference each push loads and stores its length.
pub fn zeros<U: Unsigned, A: Allocator + Copy>(cells: &mut Vec<Cell<U>, A>, size: usize)
    requires { size ≤ vec_capacity cells.old }
    ensures zeros { cells.new.items ≡ replicate size 0 }
    ensures room { vec_capacity cells.new ≡ vec_capacity cells.old }
{
    let alloc = *cells.allocator();
    let mut own = replace(cells, Vec::new(alloc));
    own.clear();
    'cells: for _ in 0..size {
        own.push_reserved(cell_of(0));
    }
    *cells = own;
}

/// The sum of the numbers, where it is at most the greatest `usize`.
pub fn total<U: Unsigned>(cells: &[Cell<U>]) -> Option<usize>
    ensures { SomeIff result (sum_below (length cells.now) (λ k. slice_index_or cells.now k 0) < 2 ^ 64)
        (sum_below (length cells.now) (λ k. slice_index_or cells.now k 0)) }
{
    let mut sum: usize = 0;
    'cells: for cell in cells {
        sum = sum.checked_add(number_of(cell))?;
    }
    Some(sum)
}

/// The numbers, in a list of their own.
///
/// # Errors
///
/// A refused request for memory.
pub fn numbers_of<U: Unsigned, A: Allocator>(
    alloc: A,
    cells: &[Cell<U>],
) -> Result<Vec<usize, A>, AllocError>
    ensures { IfOk result (λ v. v.items ≡ cells.now) }
{
    let mut numbers = Vec::with_capacity(alloc, cells.len())?;
    'cells: for cell in cells {
        numbers.push_reserved(number_of(cell));
    }
    Ok(numbers)
}
