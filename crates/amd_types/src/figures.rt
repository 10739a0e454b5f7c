// The figures of a run while it goes on: what its fronts so far add up to, and the largest of them. The rule is that
// of the AMD user guide. For the engines: an engine adds each front as it makes it, and at the end writes the figures
// into the record that the caller is handed.

ghost use Rattle.std.specs.Prelude.{◌≡◌, ◌+◌, ◌<◌, ◌^◌, max};
ghost use Rattle.amd_model.specs.Figures.{cut, entries, front_sum, ldl_steps, lu_steps};

use crate::amd::Info;
use crate::internal::front_counts;

/// What the fronts of a run add up to so far.
///
/// A sum is exact up to `usize::MAX`, which stands for all that exceed it.
///
/// Source: AMD user guide.
#[derive(Clone, Debug, Drop)]
pub struct Figures {
    /// The entries below the diagonal in the columns of the fronts, as many as the divisions, and no fewer than those
    /// of the factor.
    pub lnz: usize,
    /// The multiply-subtract steps of a factorization `LDL'`.
    pub n_mult_subs_ldl: usize,
    /// The multiply-subtract steps of a factorization `LU`.
    pub n_mult_subs_lu: usize,
    /// The number of rows of the largest front, 1 at least where there are rows.
    pub d_max: usize,
}

impl Figures {
    /// Adds a front with `f` rows in its block and `r` rows outside, where `f + r` is at most `usize::MAX`.
    ///
    /// Its shares, which `front_counts` gives, are added to the sums, which saturate at `usize::MAX`; `d_max` becomes
    /// the maximum of itself and `f + r`.
    ///
    /// Source: AMD user guide.
    #[tactic(auto, using(crate::proofs::CutSums::add_cut))]
    pub fn add_front(&mut self, f: usize, r: usize)
        requires { f + r < 2 ^ 64 }
        ensures lnz { self.new.lnz ≡ cut (self.old.lnz + front_sum entries f r) }
        ensures ldl { self.new.n_mult_subs_ldl ≡ cut (self.old.n_mult_subs_ldl + front_sum ldl_steps f r) }
        ensures lu { self.new.n_mult_subs_lu ≡ cut (self.old.n_mult_subs_lu + front_sum lu_steps f r) }
        ensures d_max { self.new.d_max ≡ max self.old.d_max (f + r) }
    {
        let (lnz, ldl, lu) = front_counts(f, r);
        self.lnz = self.lnz.saturating_add(lnz);
        self.n_mult_subs_ldl = self.n_mult_subs_ldl.saturating_add(ldl);
        self.n_mult_subs_lu = self.n_mult_subs_lu.saturating_add(lu);
        self.d_max = self.d_max.max(f + r);
    }

    /// Writes the figures into a record, `lnz` as the number of divisions too.
    ///
    /// The other fields of the record stay as they were. Any figures are allowed.
    ///
    /// Source: AMD user guide.
    pub fn write_figures(&self, info: &mut Info)
        ensures { info.new ≡ record info.old {
          lnz = self.now.lnz;
          n_div = self.now.lnz;
          n_mult_subs_ldl = self.now.n_mult_subs_ldl;
          n_mult_subs_lu = self.now.n_mult_subs_lu;
          d_max = self.now.d_max;
        } }
    {
        info.lnz = self.lnz;
        info.n_div = self.lnz;
        info.n_mult_subs_ldl = self.n_mult_subs_ldl;
        info.n_mult_subs_lu = self.n_mult_subs_lu;
        info.d_max = self.d_max;
    }
}
