// Laws of the elimination kept in lists, with its choices made: it starts as an elimination does, its rounds are steps
// of the relation, and they end. Source: the rules by which the Rust crate `amd` 0.2.2 breaks ties, as tests show, over
// Amestoy, Davis and Duff 1996. The contracts are the laws.

ghost use Rattle.amd_model.specs.QuotientLaws.{NextIsAStep, RoundsAreARun, StartFits, StartingLists};

/// A round with a class left is a step with the pivot of the rules.
pub fn law_next_is_a_step()
    ensures { NextIsAStep }
{}

/// As many rounds as there are rows are a run.
pub fn law_rounds_are_a_run()
    ensures { RoundsAreARun }
{}

/// With lists that name the neighbours of each live row, each once, the lists start where the elimination starts.
pub fn law_start_fits()
    ensures { StartFits }
{}

/// The starting list of each row names its neighbours, each once.
pub fn law_starting_lists()
    ensures { StartingLists }
{}
