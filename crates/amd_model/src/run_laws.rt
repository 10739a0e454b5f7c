// The law that runs exist, so that what the other laws say of each run is said of something. Source: Amestoy, Davis and
// Duff 1996. The contract is the law.

ghost use Rattle.amd_model.specs.Laws.{RunsExist};

/// Each graph and each set of rows held last have a run, aggressive or not.
pub fn law_runs_exist()
    ensures { RunsExist }
{}
