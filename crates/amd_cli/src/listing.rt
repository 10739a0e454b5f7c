// What the lines of a list tell. Lines with one number each tell the row at each place, or the place of each row, as
// the caller says; METIS writes the latter to a file that ends in `.iperm`. They count from 0 where one of them is 0,
// else from 1. SCOTCH writes a line with the number of the vertices, and behind it one for each vertex, in their order,
// with its number and its place, both from 0 or from 1 on.

ghost use Rattle.std.specs.Prelude.{◌≡◌, ◌≤◌, ℕ, List, length, IfOk};
ghost use Rattle.std.specs.List.{AllZip};
ghost use Rattle.amd_cli.specs.declared.listed.Numbers.TheVariants.{Two};
ghost use Rattle.amd_cli.specs.Orders.{ArePairsFrom, IsCountedFrom, IsSingle, TellsNumbers, base_of};

use crate::causes::Cause;
use crate::list_faults::ListFault;
use crate::listed::{Listed, Numbers};
use std::alloc::Allocator;

/// The numbers of a list, from 0 on.
#[derive(Drop)]
pub struct Listing<A: Allocator> {
    /// The numbers.
    pub numbers: Vec<usize, A>,
    /// Whether the vertices stand beside them: then they are places.
    pub paired: bool,
}

/// The numbers of lines with one each.
fn single_numbers<A: Allocator>(alloc: A, listed: &[Listed]) -> Result<Vec<usize, A>, Cause>
    ensures { IfOk result (λ v. AllZip IsSingle listed.now v.items) }
{
    let mut told = Vec::with_capacity(alloc, listed.len())?;
    'lines: for item in listed {
        let Numbers::One(number) = item.numbers else {
            return Err(Cause::List(ListFault::Single { line: item.line }));
        };
        told.push(number)?;
    }
    Ok(told)
}

/// The second number of a line whose first one is the vertex that is wanted.
fn place_behind(item: &Listed, wanted: usize) -> Result<usize, Cause>
    ensures { IfOk result (λ place. item.now.numbers ≡ Two wanted place) }
{
    let line = item.line;
    match item.numbers {
        Numbers::Two(vertex, place) if vertex == wanted => Ok(place),
        _ => Err(Cause::List(ListFault::Vertex { line, wanted })),
    }
}

/// The second numbers of lines whose first ones rise from `base` on.
fn paired_numbers<A: Allocator>(
    alloc: A,
    listed: &[Listed],
    base: usize,
) -> Result<Vec<usize, A>, Cause>
    ensures { IfOk result (λ v. ArePairsFrom base listed.now v.items) }
{
    let mut told = Vec::with_capacity(alloc, listed.len())?;
    let mut wanted = base;
    'lines: for item in listed {
        told.push(place_behind(item, wanted)?)?;
        wanted = wanted.checked_add(1).ok_or(Cause::Memory)?;
    }
    Ok(told)
}

/// The number of the line that a number stands in.
fn line_at(listed: &[Listed], place: usize) -> u64 {
    match listed.get(place) {
        Some(item) => item.line,
        None => 0,
    }
}

/// Numbers of some lines that were told from `base` on, from 0 on, where each then is below `n`.
fn counted_from<A: Allocator>(
    alloc: A,
    n: usize,
    base: usize,
    told: &[usize],
    listed: &[Listed],
) -> Result<Vec<usize, A>, Cause>
    ensures { IfOk result (λ v. IsCountedFrom base told.now v.items) }
{
    let mut numbers = Vec::with_capacity(alloc, told.len())?;
    'numbers: for &number in told {
        match number.checked_sub(base) {
            Some(row) if row < n => numbers.push(row)?,
            _ => {
                let line = line_at(listed, numbers.len());
                return Err(Cause::List(ListFault::Past { line, number, base }));
            }
        }
    }
    Ok(numbers)
}

/// What single numbers count from.
fn base_in(told: &[usize]) -> usize
    ensures { result ≡ base_of told.now }
{
    if told.contains(&0) { 0 } else { 1 }
}

/// What pairs count from: their first vertex, 0 or 1.
fn first_vertex(pairs: &[Listed]) -> usize
    ensures { result ≤ 1 }
{
    match pairs.first() {
        Some(item) => match item.numbers {
            Numbers::Two(0, _) => 0,
            _ => 1,
        },
        None => 1,
    }
}

/// Whether lines are those of vertices and places behind one with their count.
fn is_paired(listed: &[Listed]) -> bool {
    match listed.get(1) {
        Some(item) => matches!(item.numbers, Numbers::Two(_, _)),
        None => false,
    }
}

/// The places of vertices, behind a line with their count.
fn paired_listing<A: Allocator + Copy>(
    alloc: A,
    n: usize,
    head: &Listed,
    pairs: &[Listed],
) -> Result<Vec<usize, A>, Cause>
    ensures counted { IfOk result (λ v. IsSingle head.now (length v.items)) }
    ensures pairs { IfOk result (λ v. (base : ℕ) × (base ≤ 1) ×
        ((told : List ℕ) × ArePairsFrom base pairs.now told × IsCountedFrom base told v.items)) }
{
    let base = first_vertex(pairs);
    let told = paired_numbers(alloc, pairs, base)?;
    let numbers = counted_from(alloc, n, base, &told, pairs)?;
    match head.numbers {
        Numbers::One(count) if count == numbers.len() => Ok(numbers),
        _ => Err(Cause::List(ListFault::Count {
            line: head.line,
            found: numbers.len(),
        })),
    }
}

/// The numbers, of `n`, that the lines of a list tell.
///
/// # Errors
///
/// `List` with a line where they tell none; `Memory` where memory was refused.
pub fn listing_of<A: Allocator + Copy>(
    alloc: A,
    n: usize,
    listed: &[Listed],
) -> Result<Listing<A>, Cause>
    ensures { IfOk result (λ l. TellsNumbers listed.now l.paired l.numbers.items) }
{
    match listed.split_first() {
        Some((head, pairs)) if is_paired(listed) => Ok(Listing {
            numbers: paired_listing(alloc, n, head, pairs)?,
            paired: true,
        }),
        _ => {
            let told = single_numbers(alloc, listed)?;
            Ok(Listing {
                numbers: counted_from(alloc, n, base_in(&told), &told, listed)?,
                paired: false,
            })
        }
    }
}
