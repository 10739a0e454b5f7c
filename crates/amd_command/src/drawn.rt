// The fill of the exact factor of a matrix in an order of its rows, in a square of cells.

ghost use Rattle.std.specs.Prelude.{pos, map, IfOk, MatchOption};
ghost use Rattle.amd_model.specs.Input.Columns.{IsInput};
ghost use Rattle.amd_types.specs.Naturals.{naturals};
ghost use Rattle.amd_factor.specs.Places.{ArePlaces};
ghost use Rattle.amd_command.specs.DrawnFills.{DrawsFill};

use amd_factor::neighbours::later_lists;
use amd_factor::places::places;
use amd_report::fills::fill_grid;
use amd_report::grids::Grid;
use amd_symbolic::{Fault, supernode_sizes, supernodes};
use std::alloc::Allocator;

/// A square in which the fill is marked of the factor of a matrix in an order of its rows, where each has its place.
fn marked_fill<A: Allocator + Copy>(
    alloc: A,
    n: usize,
    a_p: &[usize],
    a_i: &[usize],
    p: &[usize],
    places: &[usize],
) -> Result<Grid<A>, Fault>
    requires form { IsInput (pos n) (pos n) (map pos a_p.now) (map pos a_i.now) }
    requires places { ArePlaces n (naturals (map pos p.now)) places.now }
    ensures { IfOk result (λ g. DrawsFill g n a_p.now a_i.now p.now) }
{
    let later = later_lists(alloc, n, a_p, a_i, places)?;
    let factor = supernodes(alloc, n, a_p, a_i, p)?;
    let grid = fill_grid(
        alloc,
        n,
        &factor.first,
        &factor.ptr,
        &factor.rows,
        &later.starts,
        &later.neighbours,
    )?;
    Ok(grid)
}

/// A square in which the fill is marked of the factor of a matrix in an order of its rows; none where the factor has
/// more rows below the blocks of its supernodes than `most`.
///
/// # Errors
///
/// Those of `supernodes`.
pub fn drawn_fill<A: Allocator + Copy>(
    alloc: A,
    n: usize,
    a_p: &[usize],
    a_i: &[usize],
    p: &[usize],
    most: usize,
) -> Result<Option<Grid<A>>, Fault>
    requires form { IsInput (pos n) (pos n) (map pos a_p.now) (map pos a_i.now) }
    ensures { IfOk result (λ r. MatchOption r (Unit {0}) (λ g. DrawsFill g n a_p.now a_i.now p.now)) }
{
    let sizes = supernode_sizes(alloc, n, a_p, a_i, p)?;
    if sizes.rows > most {
        return Ok(None);
    }
    let Some(places) = places(alloc, n, p)? else {
        return Err(Fault::NotPermutation);
    };
    let grid = marked_fill(alloc, n, a_p, a_i, p, &places)?;
    Ok(Some(grid))
}
