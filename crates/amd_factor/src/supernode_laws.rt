// A law on the supernodes of a factor: the contract of a function with an empty body. That expanding them gives the
// columns is the contract of `expand`. Source: Liu, Ng and Peyton 1993; AMD user guide.

ghost use Rattle.amd_factor.specs.SupernodeLaws.{SupernodesTellNeeds};

/// The supernodes alone tell what the factor needs, as `counts` does: the entries and the steps are the sums of what
/// each supernode stands for as a front, with its places as the block and the rows below as the border; and the
/// greatest front is that of the largest supernode with its rows.
pub fn law_supernodes_tell_needs()
    ensures { SupernodesTellNeeds }
{}
