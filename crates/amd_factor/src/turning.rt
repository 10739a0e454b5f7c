// The arcs that lists of earlier neighbours name, list by list: a walk hands them to a visitor, one at a time.

ghost use Rattle.std.specs.Prelude.{◌++◌, [], ℕ, List, length};
ghost use Rattle.amd_factor.specs.Arcs.{HandsOn, arcs_to, list_arcs};
ghost use Rattle.amd_factor.specs.Neighbours.{HasEarlier};
ghost use Rattle.amd_factor.specs.Orders.{Order};

use crate::arcs::ArcVisitor;

/// Hands on the arcs from place `j` to the places of a list.
fn list<V: ArcVisitor>(
    j: usize,
    earlier: &[usize],
    visitor: &V,
    starts: &mut [usize],
    neighbours: &mut [usize],
)
    requires { (n : ℕ) × (all : List (ℕ × ℕ)) × (arcs : List (ℕ × ℕ)) ×
        HandsOn n all arcs j earlier.now × V.holds n all arcs visitor.now starts.old neighbours.old }
    ensures { (n : ℕ) (all : List (ℕ × ℕ)) (arcs : List (ℕ × ℕ)) →
        HandsOn n all arcs j earlier.now →
        V.holds n all arcs visitor.now starts.old neighbours.old →
        V.holds n all (arcs_to j earlier.now (length earlier.now) ++ arcs) visitor.now starts.new neighbours.new }
{
    'earlier: for &i in earlier {
        visitor.arc(starts, neighbours, j, i);
    }
}

/// Hands on the arcs from each place to its earlier neighbours, place by place. `earlier[starts[j]..starts[j + 1]]`
/// names those of place `j`; each repeat gives its arc again.
pub fn walk_lists<V: ArcVisitor>(
    starts: &[usize],
    earlier: &[usize],
    visitor: &V,
    ends: &mut [usize],
    neighbours: &mut [usize],
)
    requires { (o : Order) × HasEarlier o starts.now earlier.now ×
        V.holds (length o.rows) (list_arcs starts.now earlier.now (length o.rows)) [] visitor.now ends.old
        neighbours.old }
    ensures { (o : Order) → HasEarlier o starts.now earlier.now →
        V.holds (length o.rows) (list_arcs starts.now earlier.now (length o.rows)) [] visitor.now ends.old
        neighbours.old →
        V.holds (length o.rows) (list_arcs starts.now earlier.now (length o.rows))
        (list_arcs starts.now earlier.now (length o.rows)) visitor.now ends.new neighbours.new }
{
    'places: for j in 0..starts.len() - 1 {
        list(
            j,
            &earlier[starts[j]..starts[j + 1]],
            visitor,
            ends,
            neighbours,
        );
    }
}
