// Laws on the last state of an elimination and on its listing: the assembly tree, and the columns of the factor.
// Source: Amestoy, Davis and Duff 2004; George and Liu 1981. The contracts are the laws.

ghost use Rattle.amd_model.specs.Laws.{AtTheEnd, OfEachListing, DenseAreLast, HasListing, EdgesFollowTree};
ghost use Rattle.amd_model.specs.Laws.{ColumnsInside, EmptyColumns};
ghost use Rattle.amd_model.specs.Listing.{ListsEachRow};

/// At the end exactly the dense rows are held last, and each other row was eliminated.
pub fn law_dense_are_last()
    ensures { AtTheEnd DenseAreLast }
{}

/// The last state of a run has a listing in postorder.
pub fn law_listings_exist()
    ensures { AtTheEnd HasListing }
{}

/// An edge between rows that are not dense joins rows of one block, or of two blocks on one way up the tree.
pub fn law_edges_follow_tree()
    ensures { AtTheEnd (λ g dense s. EdgesFollowTree g s) }
{}

/// Each listing of the blocks in postorder, with the dense rows at the end, names each row once.
pub fn law_listings_are_permutations()
    ensures { OfEachListing (λ g dense s p. ListsEachRow g.size p) }
{}

/// The column of a row lies in the later rows of its block, on the border of its element, and in the dense rows.
pub fn law_columns_inside()
    ensures { OfEachListing (λ g dense s p. ColumnsInside g s p) }
{}

/// The column of a row with no edge has no entry.
pub fn law_empty_columns()
    ensures { OfEachListing (λ g dense s p. EmptyColumns g p) }
{}
