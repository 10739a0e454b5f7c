// A law on the supernodes of the factor under an ordering: the contract of a function with an empty body. Source: Liu,
// Ng and Peyton 1993; Amestoy, Davis and Duff 2004.

ghost use Rattle.amd_symbolic.specs.SupernodeLaws.{ExactBlocksStandInside};

pub use amd_factor::supernode_laws::law_supernodes_tell_needs;

/// Under the order that `order` gives, a block of the assembly tree whose front is exact lies inside one supernode:
/// none ends between two of its places. A front is exact where the columns of its block have all of its later rows.
pub fn law_exact_blocks_stand_inside()
    ensures { ExactBlocksStandInside }
{}
