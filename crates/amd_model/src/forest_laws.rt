// The law of forests: an elimination of a graph with no cycle fills nothing in. Source: George and Liu 1981. The
// contract is the law.

ghost use Rattle.std.specs.Prelude.{◌≡◌};
ghost use Rattle.amd_model.specs.Below.{count_below};
ghost use Rattle.amd_model.specs.Forest.{IsForest};
ghost use Rattle.amd_model.specs.Laws.{OfEachListing, HasNoFill};

/// Where the edges form a forest and no row is dense, there are as many entries as edges, and each entry is an edge.
pub fn law_forest()
    ensures { OfEachListing (λ g dense s p. IsForest g → count_below g.size dense ≡ 0 → HasNoFill g dense s p) }
{}
