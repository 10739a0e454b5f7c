// The lines of an order that count from 0, and the places of the rows in it.

ghost use Rattle.std.specs.Prelude.{◌≡◌, length, map, pos, IfOk, OnOk};
ghost use Rattle.std.specs.Io.KnownBytes.{Appends};
ghost use Rattle.amd_model.specs.Listing.{ListsEachRow};
ghost use Rattle.amd_factor.specs.Places.{ArePlaces};
ghost use Rattle.amd_command.specs.Lists.{ArePlacesIn, number_lines};

use amd_cli::causes::Cause;
use amd_factor::places::places;
use std::alloc::Global;
use std::io;
use std::io::Write;

/// Writes numbers as they are, a line for each.
pub fn write_numbers<W: Write>(numbers: &[usize], out: &mut W) -> io::Result<()>
    ensures { OnOk result (Appends (W.contents out.old) (W.contents out.new) (number_lines numbers.now)) }
{
    'places: for &number in numbers {
        writeln!(out, "{number}")?;
    }
    Ok(())
}

/// The place of each row in an order of the rows.
///
/// # Errors
///
/// `Form` where `p` is no permutation of the rows; `Memory` where memory was refused.
pub fn places_in(alloc: Global, p: &[usize]) -> Result<Vec<usize>, Cause>
    ensures { IfOk result (λ places. ArePlacesIn p.now places.items) }
{
    match places(alloc, p.len(), p)? {
        Some(found) => Ok(found),
        None => Err(Cause::Form),
    }
}
