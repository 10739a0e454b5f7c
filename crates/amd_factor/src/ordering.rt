// The lists of the earlier neighbours of each place under an order that a caller hands in, if it is one. The places of
// the rows are given back when the lists are made.

ghost use Rattle.std.specs.Prelude.{◌≡◌, pos, map, IfOk, IfErr};
ghost use Rattle.amd_model.specs.Input.Columns.{IsColumnForm};
ghost use Rattle.amd_model.specs.Input.Pattern.{graph_of};
ghost use Rattle.amd_types.specs.Naturals.{naturals};
ghost use Rattle.amd_factor.specs.Counted.{IsCountsFault};
ghost use Rattle.amd_factor.specs.Neighbours.{HasEarlier};
ghost use Rattle.amd_factor.specs.Orders.{Permutes};

use crate::factor::Fault;
use crate::neighbours::{NeighbourLists, earlier_lists};
use crate::places::places;
use amd_types::index::Index;
use std::alloc::Allocator;

/// The earlier neighbours of each place of a column form with `size` rows and columns, in the order that `p` lists.
///
/// # Errors
///
/// `NotPermutation` where `p` does not list each row, once; and `OutOfMemory`.
pub fn ordered_lists<I: Index, A: Allocator + Copy>(
    alloc: A,
    size: usize,
    a_p: &[I],
    a_i: &[I],
    p: &[I],
) -> Result<NeighbourLists<A>, Fault>
    requires form { IsColumnForm (pos size) size (map I.value a_p.now) (map I.value a_i.now) }
    ensures permutes { IfOk result (λ l. Permutes size (map I.value p.now) (naturals (map I.value p.now))) }
    ensures lists { IfOk result (λ l. HasEarlier (record {
      graph = graph_of size (map I.value a_p.now) (map I.value a_i.now);
      rows = naturals (map I.value p.now);
    }) l.starts.items l.neighbours.items) }
    ensures fault { IfErr result (λ e. IsCountsFault (pos size) (map I.value a_p.now) (map I.value a_i.now)
        (map I.value p.now) e) }
{
    let Some(places) = places(alloc, size, p)? else {
        return Err(Fault::NotPermutation);
    };
    Ok(earlier_lists(alloc, size, a_p, a_i, &places)?)
}
