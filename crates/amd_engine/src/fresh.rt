// The lists of an elimination as they are before its first round, and room for its result.

ghost use Rattle.std.specs.Prelude.{◌≡◌, ◌<◌, ◌≤◌, ℕ, length, IfOk};
ghost use Rattle.std.specs.Vec.{vec_capacity};
ghost use Rattle.amd_words.specs.Words.{num};
ghost use Rattle.amd_workspace.specs.Lists.{HasRoom, HasRows};
ghost use Rattle.amd_engine.specs.InPlace.{AreFresh};

use amd_lists::work::bucket_count;
use amd_types::index::Index;
use amd_words::{Cell, Signed, Unsigned, cell_of};
use amd_workspace::filling::{fill_cells, fill_sides};
use amd_workspace::lists::{Lists, Memory};
use std::alloc::{AllocError, Allocator};

/// Room for `count` numbers of the caller's type.
///
/// # Errors
///
/// `AllocError` where the request for memory was refused.
pub fn room_for<I: Index, A: Allocator>(alloc: A, count: usize) -> Result<Vec<I, A>, AllocError>
    ensures { IfOk result (λ v. length v.items ≡ count) }
{
    vec![in alloc; I::zero(); count]
}

/// Writes degrees as cells.
fn write_degrees<U: Unsigned, A: Allocator>(degrees: &[usize], len: &mut Vec<Cell<U>, A>)
    requires empty { length len.old.items ≡ 0 }
    requires room { length degrees.now ≤ vec_capacity len.old }
    requires fits { (k : ℕ) → k < length degrees.now → num degrees.now k ≤ U.MOST }
    ensures items { len.new.items ≡ degrees.now }
    ensures capacity { vec_capacity len.new ≡ vec_capacity len.old }
{
    'rows: for &degree in degrees {
        len.push_reserved(cell_of(degree));
    }
}

/// Memory for one elimination of rows of these degrees in `room` words, with the degrees in its place.
///
/// # Errors
///
/// `AllocError` where a request for memory was refused.
pub fn memory_for<S: Signed, P: Signed, U: Unsigned, A: Allocator + Copy>(
    alloc: A,
    degrees: &[usize],
    room: usize,
) -> Result<Memory<S, P, U, A>, AllocError>
    requires fits { (k : ℕ) → k < length degrees.now → num degrees.now k ≤ U.MOST }
    ensures degrees { IfOk result (λ m. m.len.items ≡ degrees.now) }
    ensures room { IfOk result (HasRoom (length degrees.now) room) }
{
    let mut memory: Memory<S, P, U, A> = Memory::with_room(alloc, degrees.len(), room)?;
    memory.len.clear();
    write_degrees(degrees, &mut memory.len);
    Ok(memory)
}

/// Fills the lists of an elimination of `n` rows, which have room for so many, and that of the buckets for theirs. What
/// they held before is given up.
///
/// The width holds `n`. Each number of `head` and `hash` is `n`, which names no row. Each number of `degree` and `w` is
/// `n` too, which nothing relies on: a loop of stores is faster here than the `memset` that zeros would become.
pub fn fill_lists<U: Unsigned, A: Allocator + Copy>(
    n: usize,
    degree: &mut Vec<Cell<U>, A>,
    lists: &mut Lists<U, A>,
)
    requires narrow { n ≤ U.MOST }
    requires room { (n ≤ vec_capacity degree.old) × HasRows n lists.old }
    ensures fresh { AreFresh n degree.new.items lists.new }
    ensures degree { vec_capacity degree.new ≡ vec_capacity degree.old }
    ensures room { (k : ℕ) → HasRows k lists.old → HasRows k lists.new }
{
    fill_cells(degree, n, n);
    fill_cells(&mut lists.w, n, n);
    fill_cells(&mut lists.head, n, n);
    fill_sides(&mut lists.sides, n, n);
    fill_cells(&mut lists.hash, bucket_count(n), n);
}
