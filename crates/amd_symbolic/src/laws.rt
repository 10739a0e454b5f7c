// Laws of an ordering and the factor under it, each the contract of a function with an empty body. Those of the factor
// under any order are the laws of `amd_factor`.

ghost use Rattle.amd_symbolic.specs.Laws.{FiguresBoundNeeds, FiguresReserve};

pub use amd_factor::laws::{
    law_columns_by_children, law_counts_reserve, law_counts_tell_factor, law_one_factor,
    law_parents, law_rows, law_rows_are_subtrees,
};

/// The record of an ordering bounds the factor under its order: the number of entries is at most `lnz` and `n_div`, the
/// steps of a factorization are at most `n_mult_subs_ldl` and `n_mult_subs_lu`, each where the figure was not cut, and
/// a column with its diagonal has at most `d_max` entries.
pub fn law_figures_reserve()
    ensures { FiguresReserve }
{}

/// The record of an ordering bounds what the factor under its order needs, each figure where it was not cut.
pub fn law_figures_bound_needs()
    ensures { FiguresBoundNeeds }
{}
