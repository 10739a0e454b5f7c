// Laws that count and sum: the closed forms of the sums of a front, and the sum of the degrees of a graph. Source: AMD
// user guide (the figures of `info`); George and Liu 1981. The contracts are the laws.

ghost use Rattle.std.specs.Prelude.{ℕ, ℤ, List, ◌≡◌, ◌+◌, ◌*◌, ◌-◌, ◌/◌};
ghost use Rattle.amd_model.specs.Figures.{front_sum, entries, ldl_steps, lu_steps};
ghost use Rattle.amd_model.specs.Graph.{Graph, IsGraph, degree_sum, edge_count};
ghost use Rattle.amd_model.specs.Input.Pattern.{graph_of};

/// The sums of a front of `f` rows with `r` rows outside, in closed form.
pub fn law_front_sums()
    ensures entries { (f r : ℕ) → front_sum entries f r ≡ f * r + f * (f - 1) / 2 }
    ensures lu { (f r : ℕ) → front_sum lu_steps f r ≡ f * (r * r) + r * f * (f - 1) + (f - 1) * f * (2 * f - 1) / 6 }
    ensures ldl { (f r : ℕ) → front_sum ldl_steps f r ≡ (front_sum lu_steps f r + front_sum entries f r) / 2 }
{}

/// The sum of the degrees of a graph is twice the number of its edges.
pub fn law_degree_sum()
    ensures { (g : Graph) → IsGraph g → degree_sum g ≡ 2 * edge_count g }
{}

/// The graph of a pattern is a graph: its edges have no direction, and join no row with itself.
pub fn law_pattern_graph()
    ensures { (n : ℕ) (ap ai : List ℤ) → IsGraph (graph_of n ap ai) }
{}
