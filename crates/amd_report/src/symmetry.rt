// How symmetric a pattern is: how many entries off the diagonal have a mirror, by the figures of the pattern, and which
// share of them that is. Each edge stands for one entry without a mirror, or for two with one. Source: Davis and Hu
// 2011 (pattern symmetry).

ghost use Rattle.std.specs.Prelude.{◌≡◌, ℕ, ℤ, List};
ghost use Rattle.amd_input.specs.PatternFigures.{HasPatternFigures};
ghost use Rattle.amd_report.specs.Degrees.{symmetry_tenths};
ghost use Rattle.amd_report.specs.Shapes.{mirrored_count};

use crate::facts::Facts;
use amd_types::amd::Info;

/// How many entries off the diagonal have a mirror, by the figures of the pattern.
pub(crate) fn mirrored_entries(info: &Info) -> usize
    requires { (n : ℕ) × (ap : List ℤ) × (ai : List ℤ) × HasPatternFigures n ap ai info.now }
    ensures { (n : ℕ) (ap ai : List ℤ) → HasPatternFigures n ap ai info.now → result ≡ mirrored_count n ap ai }
{
    let outside = info.nz - info.nz_diag;
    outside - (info.nz_a_plus_at - outside)
}

/// The share of the entries off the diagonal that have a mirror, in tenths of a per cent, cut to a whole number; all of
/// them where there are none.
pub fn symmetry_tenths(facts: &Facts) -> u128
    ensures { result ≡ symmetry_tenths facts.now }
{
    let outside = facts.info.nz.saturating_sub(facts.info.nz_diag) as u128;
    if outside == 0 {
        return 1000;
    }
    facts.mirrored as u128 * 1000 / outside
}
