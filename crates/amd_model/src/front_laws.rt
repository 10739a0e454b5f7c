// Laws on rows held last, fronts, true degrees and bounds, in each state of an elimination. Source: Amestoy, Davis and
// Duff 1996. The contracts are the laws.

ghost use Rattle.amd_model.specs.Laws.{InEachState, LastRowsStay, FrontsArePaths, BoundsMeetDegrees, ClassesAreWhole};
ghost use Rattle.amd_model.specs.Sound.{IsSound};

/// Each state is sound: what its classes, borders and edges say of each other and of the paths through eliminated
/// rows holds.
pub fn law_states_are_sound()
    ensures { InEachState (λ g aggressive s. IsSound g s) }
{}

/// In each state exactly the rows that the start holds last are held last.
pub fn law_last_rows_stay()
    ensures { LastRowsStay }
{}

/// In each state the front of a class is exactly what each of its rows reaches through eliminated rows.
pub fn law_fronts_are_paths()
    ensures { InEachState (λ g aggressive s. FrontsArePaths g s) }
{}

/// In each state a test at the representative of a class holds of all its rows alike, each row of a class has an edge
/// to each row of a direct neighbour, and the direct neighbours of a class outside a front can be told from any of
/// its rows.
pub fn law_classes_are_whole()
    ensures { InEachState ClassesAreWhole }
{}

/// In each state the size of a front is the true external degree of its class, and the bound of the class is no
/// lower. It is equal where one or two elements hold the class, and greater by the dense neighbours where none does.
pub fn law_bounds()
    ensures { InEachState (λ g aggressive s. BoundsMeetDegrees g s) }
{}
