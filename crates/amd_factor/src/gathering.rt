// The rows that are new in a column, each found once by its mark.

ghost use Rattle.std.specs.Prelude.{ℕ, ◌≡◌, ◌<◌, ◌≤◌, ◌+◌, Contains, length, map, slice_index, take};
ghost use Rattle.amd_types.specs.Naturals.{naturals};
ghost use Rattle.amd_factor.specs.Gathering.{Column, EntryOf, Marks};
ghost use Rattle.amd_factor.specs.Numbers.{AreNonNegative};
ghost use Rattle.amd_factor.specs.Planning.{AreListed, CanList};

use crate::numbers::place_at;
use amd_types::index::Index;

/// Gives each of the rows this mark.
pub fn mark_rows<N: Index>(rows: &[N], stamp: usize, mark: &mut [usize])
    requires numbers { AreNonNegative (map N.value rows.now) }
    requires within { (j : ℕ) → Contains (naturals (map N.value rows.now)) j → j < length mark.old }
    ensures marked { (j : ℕ) → Contains (naturals (map N.value rows.now)) j → slice_index mark.new j ≡ stamp }
    ensures others { (j : ℕ) → ¬ (Contains (naturals (map N.value rows.now)) j) →
        slice_index mark.new j ≡ slice_index mark.old j }
{
    'rows: for k in 0..rows.len() {
        mark[place_at(rows, k)] = stamp;
    }
}

/// Lists a row that has not this mark yet behind the first `listed` of `fresh`, and marks it. Returns how many are
/// listed then.
#[inline]
fn list_row(
    row: usize,
    stamp: usize,
    listed: usize,
    mark: &mut [usize],
    fresh: &mut [usize],
) -> usize
    ghost c: { Column }
    requires entry { EntryOf c row }
    requires listed { AreListed c stamp listed mark.old fresh.old }
    ensures count { result ≤ length fresh.new }
    ensures marks { Marks c stamp (take result fresh.new) mark.new }
    ensures here { slice_index mark.new row ≡ stamp }
    ensures kept { (j : ℕ) → slice_index mark.old j ≡ stamp → slice_index mark.new j ≡ stamp }
{
    if mark[row] == stamp {
        return listed;
    }
    mark[row] = stamp;
    fresh[listed] = row;
    listed + 1
}

/// Lists each of the rows that has not this mark yet behind the first `count` of `fresh`, and marks it. Returns how
/// many are listed then.
pub fn gather<N: Index>(
    rows: &[N],
    stamp: usize,
    count: usize,
    mark: &mut [usize],
    fresh: &mut [usize],
) -> usize
    ghost c: { Column }
    requires numbers { AreNonNegative (map N.value rows.now) }
    requires lists { CanList c (naturals (map N.value rows.now)) stamp count mark.old fresh.old }
    ensures count { result ≤ length fresh.new }
    ensures marks { Marks c stamp (take result fresh.new) mark.new }
    ensures all { (j : ℕ) → Contains (naturals (map N.value rows.now)) j → slice_index mark.new j ≡ stamp }
    ensures kept { (j : ℕ) → slice_index mark.old j ≡ stamp → slice_index mark.new j ≡ stamp }
{
    let mut listed = count;
    'rows: for k in 0..rows.len() {
        listed = list_row(place_at(rows, k), stamp, listed, mark, fresh);
    }
    listed
}

/// Lists rows as `gather`, which are given as places.
pub fn gather_places(
    rows: &[usize],
    stamp: usize,
    count: usize,
    mark: &mut [usize],
    fresh: &mut [usize],
) -> usize
    ghost c: { Column }
    requires { CanList c rows.now stamp count mark.old fresh.old }
    ensures count { result ≤ length fresh.new }
    ensures marks { Marks c stamp (take result fresh.new) mark.new }
    ensures all { (j : ℕ) → Contains rows.now j → slice_index mark.new j ≡ stamp }
    ensures kept { (j : ℕ) → slice_index mark.old j ≡ stamp → slice_index mark.new j ≡ stamp }
{
    let mut listed = count;
    'rows: for &row in rows {
        listed = list_row(row, stamp, listed, mark, fresh);
    }
    listed
}
