// The start of an elimination: the rows that are neither held last nor empty are classes of their own, each placed
// under its degree, and the other empty rows are elements. Source: Amestoy, Davis and Duff 1996; the AMD user guide on
// dense rows.

ghost use Rattle.std.specs.Prelude.{◌≡◌, ◌==◌, ◌&&◌, ◌<◌, ℕ, [], not, cond, nat_eq, nat_lt, length, IfOk};
ghost use Rattle.amd_model.specs.Below.{count_below, list_below};
ghost use Rattle.amd_plain.specs.Views.{mark_at, num, list_at, Below, ListsBelow};
ghost use Rattle.amd_plain.specs.Keeps.{IsIdle};
ghost use Rattle.amd_plain.specs.Starts.{StandsAtStart};

use crate::work::{PlainLists, PlainWork, Scratch};
use amd_types::figures::Figures;
use std::alloc::{AllocError, Allocator};

/// As many lists as there are rows, with nothing in them.
pub fn empty_lists<A: Allocator + Copy>(
    alloc: A,
    n: usize,
) -> Result<Vec<Vec<usize, A>, A>, AllocError>
    ensures { IfOk result (λ v. (length v.items ≡ n) × ((i : ℕ) → list_at v.items i ≡ [])) }
{
    let mut lists = Vec::with_capacity(alloc, n)?;
    'rows: for _ in 0..n {
        lists.push_reserved(Vec::new(alloc));
    }
    Ok(lists)
}

/// The number of rows of the class of a row: 1 if it is neither held last nor empty.
fn class_size(degree: usize, last: bool) -> usize
    ensures { result ≡ cond (nat_lt 0 degree && not last) 1 0 }
{
    if degree > 0 && !last { 1 } else { 0 }
}

/// The number of rows of each class: 1 for a row that is neither held last nor empty.
fn first_sizes<A: Allocator + Copy>(
    alloc: A,
    degrees: &[usize],
    last: &[bool],
) -> Result<Vec<usize, A>, AllocError>
    requires lengths { length last.now ≡ length degrees.now }
    ensures size { IfOk result (λ v. length v.items ≡ length degrees.now) }
    ensures numbers { IfOk result (λ v. (i : ℕ) → i < length degrees.now →
        num v.items i ≡ cond (nat_lt 0 (num degrees.now i) && not (mark_at last.now i)) 1 0) }
{
    let mut sizes = Vec::with_capacity(alloc, degrees.len())?;
    'rows: for i in 0..degrees.len() {
        sizes.push_reserved(class_size(degrees[i], last[i]));
    }
    Ok(sizes)
}

/// The number of rows of the element of a row: 1 if it is empty and not held last.
fn block_size(degree: usize, last: bool) -> usize
    ensures { result ≡ cond (nat_eq degree 0 && not last) 1 0 }
{
    if degree == 0 && !last { 1 } else { 0 }
}

/// The number of rows of each element: 1 for an empty row that is not held last.
fn first_blocks<A: Allocator + Copy>(
    alloc: A,
    degrees: &[usize],
    last: &[bool],
) -> Result<Vec<usize, A>, AllocError>
    requires lengths { length last.now ≡ length degrees.now }
    ensures size { IfOk result (λ v. length v.items ≡ length degrees.now) }
    ensures numbers { IfOk result (λ v. (i : ℕ) → i < length degrees.now →
        num v.items i ≡ cond (nat_eq (num degrees.now i) 0 && not (mark_at last.now i)) 1 0) }
{
    let mut blocks = Vec::with_capacity(alloc, degrees.len())?;
    'rows: for i in 0..degrees.len() {
        blocks.push_reserved(block_size(degrees[i], last[i]));
    }
    Ok(blocks)
}

/// The classes of each bound, rising.
fn first_placed<A: Allocator + Copy>(
    alloc: A,
    degrees: &[usize],
    size: &[usize],
) -> Result<Vec<Vec<usize, A>, A>, AllocError>
    requires lengths { length size.now ≡ length degrees.now }
    requires degrees { Below (length degrees.now) degrees.now }
    ensures size { IfOk result (λ v. ListsBelow (length degrees.now) v.items) }
    ensures lists { IfOk result (λ v. (b : ℕ) → list_at v.items b ≡ list_below (length degrees.now)
        (λ i. nat_lt 0 (num size.now i) && num degrees.now i == b)) }
{
    let mut placed = empty_lists(alloc, degrees.len())?;
    'rows: for i in 0..degrees.len() {
        if size[i] > 0 {
            placed[degrees[i]].push(i)?;
        }
    }
    Ok(placed)
}

/// How many rows are marked.
fn count_marks(marks: &[bool]) -> usize
    ensures { result ≡ count_below (length marks.now) (mark_at marks.now) }
{
    let mut count = 0;
    for mark in marks {
        if *mark {
            count += 1;
        }
    }
    count
}

/// How many of the numbers are greater than a limit.
fn count_above(numbers: &[usize], limit: usize) -> usize
    ensures { result ≡ count_below (length numbers.now) (λ i. nat_lt limit (num numbers.now i)) }
{
    let mut count = 0;
    for k in numbers {
        if *k > limit {
            count += 1;
        }
    }
    count
}

/// Room for the rounds of a matrix with `n` rows.
fn scratch<A: Allocator + Copy>(alloc: A, n: usize) -> Result<Scratch<A>, AllocError>
    ensures { IfOk result (λ s. IsIdle n s) }
{
    Ok(Scratch {
        rows: vec![in alloc; false; n]?,
        elements: vec![in alloc; false; n]?,
        groups: empty_lists(alloc, n)?,
        beyond: vec![in alloc; 0; n]?,
        into: vec![in alloc; 0; n]?,
    })
}

/// The start of an elimination of a matrix whose rows have the neighbours `rows` and as many of them as `degrees` says;
/// the rows marked in `last` are held last, empty ones too. The contract says what the record stands for; the rest
/// (entries of rows that are neither class nor element, stale entries, how low `least` is) is left open. Rows and
/// degrees that no graph has are not covered.
///
/// # Errors
///
/// `AllocError` for a refused request.
pub fn start<A: Allocator + Copy>(
    alloc: A,
    rows: Vec<Vec<usize, A>, A>,
    degrees: &[usize],
    last: &[bool],
) -> Result<PlainWork<A>, AllocError>
    requires rows { ListsBelow (length degrees.now) rows.items }
    requires degrees { Below (length degrees.now) degrees.now }
    requires marks { length last.now ≡ length degrees.now }
    ensures { IfOk result (λ w. StandsAtStart rows.items degrees.now (mark_at last.now) w) }
{
    let n = degrees.len();
    let size = first_sizes(alloc, degrees, last)?;
    let placed = first_placed(alloc, degrees, &size)?;
    let n_dense = count_marks(last);
    let mut figures = Figures {
        lnz: 0,
        n_mult_subs_ldl: 0,
        n_mult_subs_lu: 0,
        d_max: 1,
    };
    figures.add_front(n_dense, 0);
    Ok(PlainWork {
        alloc,
        lists: PlainLists {
            variables: rows,
            elements: empty_lists(alloc, n)?,
            members: empty_lists(alloc, n)?,
        },
        live: count_above(&size, 0),
        size,
        bound: Vec::from_slice(alloc, degrees)?,
        placed,
        least: 0,
        link: vec![in alloc; None; n]?,
        parent: vec![in alloc; None; n]?,
        block: first_blocks(alloc, degrees, last)?,
        front: first_blocks(alloc, degrees, last)?,
        n_dense,
        figures,
        scratch: scratch(alloc, n)?,
    })
}
