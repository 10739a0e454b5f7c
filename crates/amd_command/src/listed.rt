// The order of the rows that a list of numbers tells: the row at each place, or the place of each row.

ghost use Rattle.std.specs.Prelude.{map, pos, IfOk};
ghost use Rattle.amd_factor.specs.Places.{ArePlaces};
ghost use Rattle.amd_types.specs.Naturals.{naturals};
ghost use Rattle.amd_command.specs.Lists.{AreEach, AreRowsListed};

use amd_cli::causes::Cause;
use amd_cli::order_faults::order_fault;
use amd_factor::places::places;
use std::alloc::Global;

/// The places of numbers below `n`.
///
/// # Errors
///
/// `Order` where they are not each of them once; `Memory` where memory was refused.
fn places_told(
    alloc: Global,
    n: usize,
    numbers: &[usize],
    are_places: bool,
) -> Result<Vec<usize>, Cause>
    ensures each { IfOk result (λ places. AreEach n numbers.now) }
    ensures places { IfOk result (λ places. ArePlaces n (naturals (map pos numbers.now)) places.items) }
{
    if let Some(found) = places(alloc, n, numbers)? {
        return Ok(found);
    }
    match order_fault(alloc, n, numbers)? {
        Some(fault) if are_places => Err(Cause::Order(fault.of_places())),
        Some(fault) => Err(Cause::Order(fault)),
        None => Err(Cause::Form),
    }
}

/// The order of `n` rows that numbers tell: the rows at the places, or the places of the rows.
///
/// # Errors
///
/// `Order` where they are not each number below `n` once; `Memory` where memory was refused.
pub fn rows_listed(
    alloc: Global,
    n: usize,
    numbers: Vec<usize>,
    are_places: bool,
) -> Result<Vec<usize>, Cause>
    ensures { IfOk result (λ rows. AreRowsListed n are_places numbers.items rows.items) }
{
    let found = places_told(alloc, n, &numbers, are_places)?;
    if are_places {
        return Ok(found);
    }
    Ok(numbers)
}
