// Laws on the figures of a run: none is less than what the columns need, and the entries and the greatest front are at
// most those of a full matrix. Source: AMD user guide; Amestoy, Davis and Duff 2004. The contracts are the laws.

ghost use Rattle.amd_model.specs.Laws.{AtTheEnd, OfEachListing, FiguresAreSmall, Covers};

/// The number of entries is at most that of a full matrix, and a front has at most as many rows as there are.
pub fn law_figures_are_small()
    ensures { AtTheEnd FiguresAreSmall }
{}

/// The columns under each listing of a run need no more than its figures say, and the longest has no more rows than
/// its greatest front.
pub fn law_figures_cover()
    ensures { OfEachListing Covers }
{}
