//! Slices of numbers lent as the words and cells of a workspace, with no copy, so that a caller's own lists can be one.
//!
//! `lend_words` and `lend_cells` lend numbers of 64 bits, and `lend_narrow` lends those of 32 bits. `raise` and `clear`
//! make numbers that can be lent.
#![tactic(auto)]

ghost use Rattle.std.specs.Prelude.{◌≡◌, map, pos};
ghost use Rattle.std.specs.Borrow.{sem, Lends, Array, i32 as narrow_number, isize as signed_number, usize as number};
ghost use Rattle.amd_lending.specs.Views.{AreNarrowWords, AreWords, Cells, NarrowWords, Words, raised};

use amd_words::{Cell, Word};
use std::slice::from_raw_parts_mut;

/// Stores each of `$len` numbers from `$start` on once more in its own place, which compilers leave out.
///
/// A word or a cell lies in memory as its number does. The machine that proofs speak of can have one there only where
/// it was not read as a number before.
macro_rules! store_again {
    ($start:ident, $len:ident) => {
        let mut i = 0;
        while i < $len {
            unsafe {
                let at = $start.add(i);
                let number = *at;
                *at = number;
            }
            i += 1;
        }
    };
}

/// Raises each number that is the least `isize` by 1, since no word holds it. All other numbers stay as they are.
pub fn raise(numbers: &mut [isize])
    ensures raised { numbers.new ≡ map raised numbers.old }
    ensures fits { AreWords numbers.new }
{
    for i in 0..numbers.len() {
        numbers[i] = numbers[i].max(-isize::MAX);
    }
}

/// Makes each number 0, so that the numbers can be lent as narrow words.
pub fn clear(numbers: &mut [i32])
    ensures cleared { numbers.new ≡ map (λ x. pos 0) numbers.old }
    ensures fits { AreNarrowWords numbers.new }
{
    for i in 0..numbers.len() {
        numbers[i] = 0;
    }
}

/// The numbers as words, of which none is the least `isize`: what is written to the words is what they are afterwards.
pub fn lend_words(numbers: &mut [isize]) -> &mut [Word<isize>]
    requires fits { AreWords numbers.old }
    ensures* writes_back { sem 𝓛 (Lends (Array signed_number 0) (Array Words 0) numbers.entry result (λ ws. ws)) }
    ensures value { result.now ≡ numbers.old }
{
    let len = numbers.len();
    let start = numbers.as_mut_ptr();
    store_again!(start, len);
    unsafe { from_raw_parts_mut(start as *mut Word<isize>, len) }
}

/// The numbers as narrow words, of which none is the least `i32`: what is written to the words is what they are
/// afterwards.
pub fn lend_narrow(numbers: &mut [i32]) -> &mut [Word<i32>]
    requires fits { AreNarrowWords numbers.old }
    ensures* writes_back { sem 𝓛 (Lends (Array narrow_number 0) (Array NarrowWords 0) numbers.entry result (λ ws. ws)) }
    ensures value { result.now ≡ numbers.old }
{
    let len = numbers.len();
    let start = numbers.as_mut_ptr();
    store_again!(start, len);
    unsafe { from_raw_parts_mut(start as *mut Word<i32>, len) }
}

/// The numbers as cells: what is written to the cells is what they are afterwards.
pub fn lend_cells(numbers: &mut [usize]) -> &mut [Cell<usize>]
    ensures* writes_back { sem 𝓛 (Lends (Array number 0) (Array Cells 0) numbers.entry result (λ ws. ws)) }
    ensures value { result.now ≡ numbers.old }
{
    let len = numbers.len();
    let start = numbers.as_mut_ptr();
    store_again!(start, len);
    unsafe { from_raw_parts_mut(start as *mut Cell<usize>, len) }
}
