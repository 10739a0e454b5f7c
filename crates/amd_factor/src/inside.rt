// The counts and the columns of the factor of a column form under an order that a caller hands in, in memory that is
// lent. Source: Rose, Tarjan and Lueker 1976; Liu 1986 and 1990; Gilbert, Ng and Peyton 1994.

ghost use Rattle.std.specs.Prelude.{ℕ, List, ◌≡◌, ◌≢◌, ◌≤◌, ◌<◌, ◌+◌, pos, length, map};
ghost use Rattle.std.specs.Prelude.{slice_index, MatchOption, IfOk, IfErr};
ghost use Rattle.amd_types.specs.Naturals.{naturals};
ghost use Rattle.amd_factor.specs.Counted.{TellCounts};
ghost use Rattle.amd_factor.specs.Factors.{WritesFactor};
ghost use Rattle.amd_factor.specs.Orders.{Order, Permutes};
ghost use Rattle.amd_factor.specs.Within.{IsPosed, IsUnwritten, words};
ghost use Rattle.amd_factor.specs.declared.refusal.Refusal.TheVariants.{NotPermutation};

use crate::counted::need_of_sizes;
use crate::lent::{lent_columns, lent_sizes};
use crate::needs::Need;
use crate::places::place_rows;
use crate::refusal::Refusal;
use amd_types::index::Index;

/// Writes the number of entries of each column, and the parents, and returns what the factor needs; none, exactly where
/// `p` does not list each row, once, and then nothing is written but in `numbers`. There is one count for each row, and
/// `numbers` has the words for as many rows and for the entries.
pub fn counts_inside<I: Index>(
    a_p: &[I],
    a_i: &[I],
    p: &[I],
    counts: &mut [usize],
    parent: &mut [Option<usize>],
    numbers: &mut [usize],
) -> Option<Need>
    ghost o: { Order }
    requires posed { IsPosed o (length counts.old) (map I.value a_p.now) (map I.value a_i.now) (map I.value p.now) }
    requires parents { length parent.old ≡ length counts.old }
    requires room { words (length counts.old) (slice_index (naturals (map I.value a_p.now)) (length counts.old))
        ≤ length numbers.old }
    ensures counts { MatchOption result
        ((order : List ℕ) → ¬ (Permutes (length counts.old) (map I.value p.now) order))
        (λ need. Permutes (length counts.old) (map I.value p.now) (naturals (map I.value p.now)) ×
        TellCounts o.graph o.rows counts.new parent.new need) }
    ensures kept { MatchOption result ((counts.new ≡ counts.old) × (parent.new ≡ parent.old)) (λ need. Unit {0}) }
{
    let (places, memory) = numbers.split_at_mut(counts.len());
    places.fill(counts.len());
    if !place_rows(p, places) {
        return None;
    }
    lent_sizes(a_p, a_i, places, counts, parent, memory);
    Some(need_of_sizes(counts))
}

/// Writes the columns of the factor. There is one parent for each row, and
/// `numbers` and `links` have the words and places for as many rows and for the entries.
///
/// # Errors
///
/// `NotPermutation` exactly where `p` does not list each row, once; and then nothing is written but in `numbers`. Else
/// `TooSmall` exactly where there are more entries than `rows` has places.
pub fn columns_inside<I: Index>(
    a_p: &[I],
    a_i: &[I],
    p: &[I],
    ptr: &mut [usize],
    parent: &mut [Option<usize>],
    rows: &mut [I],
    numbers: &mut [usize],
    links: &mut [Option<usize>],
) -> Result<(), Refusal>
    ghost o: { Order }
    requires posed { IsPosed o (length parent.old) (map I.value a_p.now) (map I.value a_i.now) (map I.value p.now) }
    requires fits { (j : ℕ) → j < length parent.old → I.fits (pos j) }
    requires lists { (length ptr.old ≡ length parent.old + 1) × (length parent.old ≤ length links.old) }
    requires room { words (length parent.old) (slice_index (naturals (map I.value a_p.now)) (length parent.old))
        ≤ length numbers.old }
    ensures factor { IfOk result (λ done. WritesFactor (pos (length parent.old)) (map I.value a_p.now)
        (map I.value a_i.now) (map I.value p.now) (map I.value rows.old) (map I.value rows.new) ptr.new parent.new) }
    ensures fault { IfErr result (λ e. IsUnwritten (length parent.old) (map I.value a_p.now) (map I.value a_i.now)
        (map I.value p.now) (length rows.old) e) }
    ensures kept { IfErr result (λ e. e ≡ NotPermutation →
        (ptr.new ≡ ptr.old) × (parent.new ≡ parent.old) × (rows.new ≡ rows.old)) }
{
    let size = parent.len();
    let (places, memory) = numbers.split_at_mut(size);
    places.fill(size);
    if !place_rows(p, places) {
        return Err(Refusal::NotPermutation);
    }
    match lent_columns(a_p, a_i, places, ptr, parent, rows, memory, links) {
        Some(_) => Ok(()),
        None => {
            let counts = &mut ptr[..size];
            lent_sizes(a_p, a_i, places, counts, parent, memory);
            Err(Refusal::TooSmall(need_of_sizes(counts).lnz))
        }
    }
}
