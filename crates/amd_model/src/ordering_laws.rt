// What holds of an ordering: the laws of states, listings, figures and forests, of one run; and that the rules leave
// one ordering. Source: Amestoy, Davis and Duff 1996 and 2004; George and Liu 1981. The contracts are the laws.

ghost use Rattle.amd_model.specs.Ordering.{OneOrdering, OrderingsPromise};

/// Each listing of a run in postorder keeps all that is promised of an ordering.
pub fn law_orderings_promise()
    ensures { OrderingsPromise }
{}

/// From the same starting lists there is one ordering: one listing, and one tree.
pub fn law_one_ordering()
    ensures { OneOrdering }
{}
