// The counts and the columns of a factor, with all lists for the work in memory that is lent: one block of numbers is
// cut into the places of the rows, the lists of their neighbours and what a count takes. Source: Liu 1986 and 1990;
// Gilbert, Ng and Peyton 1994.

ghost use Rattle.std.specs.Prelude.{ℕ, List, ◌≡◌, ◌++◌, pos, map};
ghost use Rattle.std.specs.Prelude.{drop, length, slice_index, MatchOption};
ghost use Rattle.amd_types.specs.Naturals.{naturals};
ghost use Rattle.amd_factor.specs.Columns.{HoldFactor, PassesRoom};
ghost use Rattle.amd_factor.specs.Orders.{Order};
ghost use Rattle.amd_factor.specs.Premises.{HasFitPlaces, HasLentColumnRoom, HasLentCountRoom};
ghost use Rattle.amd_factor.specs.Sizes.{HoldSizes};
ghost use Rattle.amd_factor.specs.Within.{IsPlaced};

use crate::arcs::PlacedMatrix;
use crate::fill::fill_into;
use crate::neighbours::{
    Neighbours, lay_earlier, lay_later, lay_turned, list_earlier, list_later, list_turned,
};
use crate::sizes::count_by_meetings;
use amd_types::index::Index;

/// Writes the number of entries of each column of a factor, and the parents. `places` has the place of each row, and
/// `memory` twice as many numbers as there are entries, ten for each row, and seven.
pub fn lent_sizes<I: Index>(
    a_p: &[I],
    a_i: &[I],
    places: &[usize],
    counts: &mut [usize],
    parent: &mut [Option<usize>],
    memory: &mut [usize],
)
    ghost o: { Order }
    requires placed { IsPlaced o (length places.now) (map I.value a_p.now) (map I.value a_i.now) places.now }
    requires room { HasLentCountRoom (length places.now)
        (slice_index (naturals (map I.value a_p.now)) (length places.now)) counts.old parent.old memory.old }
    ensures { HoldSizes o.graph o.rows counts.new parent.new }
{
    let size = places.len();
    let (starts, rest) = memory.split_at_mut(size + 1);
    starts.fill(0);
    let matrix = PlacedMatrix {
        size,
        a_p,
        a_i,
        places,
    };
    let total = lay_earlier(&matrix, starts);
    let (earlier, rest) = rest.split_at_mut(total);
    list_earlier(&matrix, starts, earlier);
    let (later_starts, rest) = rest.split_at_mut(size + 1);
    later_starts.fill(0);
    let turned = lay_turned(starts, earlier, later_starts);
    let (later, rest) = rest.split_at_mut(turned);
    list_turned(starts, earlier, later_starts, later);
    let work = &mut rest[..8 * size + 5];
    count_by_meetings(starts, earlier, later_starts, later, parent, counts, work);
}

/// Writes the columns of a factor, and returns the number of their entries; none, exactly where there are more entries
/// than `rows` has places. `places` has the place of each row, `memory` as many numbers as there are entries, three for
/// each row, and one, and `links` has a place for each row.
pub fn lent_columns<I: Index>(
    a_p: &[I],
    a_i: &[I],
    places: &[usize],
    ptr: &mut [usize],
    parent: &mut [Option<usize>],
    rows: &mut [I],
    memory: &mut [usize],
    links: &mut [Option<usize>],
) -> Option<usize>
    ghost o: { Order }
    requires matrix { HasFitPlaces I.fits o (length places.now) (map I.value a_p.now) (map I.value a_i.now) places.now }
    requires room { HasLentColumnRoom (length places.now)
        (slice_index (naturals (map I.value a_p.now)) (length places.now)) ptr.old parent.old links.old memory.old }
    ensures factor { MatchOption result (PassesRoom o.graph o.rows (length rows.old))
        (λ total. (entries : List ℕ) × (total ≡ length entries) ×
        (map I.value rows.new ≡ map pos entries ++ drop total (map I.value rows.old)) ×
        HoldFactor o.graph o.rows ptr.new entries parent.new) }
{
    let size = places.len();
    let matrix = PlacedMatrix {
        size,
        a_p,
        a_i,
        places,
    };
    let (starts, rest) = memory.split_at_mut(size + 1);
    starts.fill(0);
    let total = lay_later(&matrix, starts);
    let (later, rest) = rest.split_at_mut(total);
    list_later(&matrix, starts, later);
    let (mark, rest) = rest.split_at_mut(size);
    let fresh = &mut rest[..size];
    let link = &mut links[..size];
    let later = Neighbours {
        starts,
        places: later,
    };
    fill_into(&later, ptr, rows, parent, mark, link, fresh)
}
