// The memory of the calls for a factor in a block that the caller lends: a list of numbers and one of links, side by
// side, each in whole units of 16 bytes, and how many bytes they take.

ghost use Rattle.std.specs.Prelude.{ℕ, ◌≡◌, ◌≤◌, ◌<◌, ◌+◌, ◌*◌, ◌^◌, length, min, MatchOption};
ghost use Rattle.std.specs.Option.{SomeIff};
ghost use Rattle.amd_calls.specs.Within.{columns_bytes, counts_bytes, lists_bytes};

use amd_lent::{Lodged, Piece};

/// The bytes of so many numbers and links, where they are a number of 64 bits.
fn lists_bytes(numbers: u128, links: u128) -> Option<usize>
    requires few { (numbers < 2 ^ 70) × (links < 2 ^ 70) }
    ensures { SomeIff result (lists_bytes numbers links < 2 ^ 64) (lists_bytes numbers links) }
{
    usize::try_from((8 * numbers + 15) / 16 * 16 + 16 * links).ok()
}

/// A list of so many numbers and one of so many links in a block; none, exactly where it has too few bytes.
fn lists_in(
    block: Piece,
    numbers: u128,
    links: u128,
) -> Option<(Vec<usize, Lodged>, Vec<Option<usize>, Lodged>)>
    requires few { (numbers < 2 ^ 70) × (links < 2 ^ 70) }
    ensures { MatchOption result (block.size < lists_bytes numbers links) (λ r.
        (lists_bytes numbers links ≤ block.size) × (length r.0.items ≡ numbers) × (length r.1.items ≡ links)) }
{
    let (size, block) = block.with_size();
    if lists_bytes(numbers, links)? > size {
        return None;
    }
    let (count, places) = (numbers as usize, links as usize);
    let (mut numbers, block) = block.split_list(count, (8 * count + 15) / 16 * 16);
    let (mut links, _) = block.split_list(places, 16 * places);
    let Ok(()) = numbers.resize(count, 0) else {
        unreachable!()
    };
    let Ok(()) = links.resize(places, None) else {
        unreachable!()
    };
    Some((numbers, links))
}

/// The lists of the counts of a factor in a block; none, exactly where it has fewer than [`counts_bytes`] bytes.
pub fn counts_lists(
    block: Piece,
    rows: usize,
    entries: usize,
) -> Option<(Vec<usize, Lodged>, Vec<Option<usize>, Lodged>)>
    ensures { MatchOption result (block.size < counts_bytes rows entries) (λ r.
        (counts_bytes rows entries ≤ block.size) × (length r.0.items ≡ 2 * entries + 12 * rows + 7) ×
        (length r.1.items ≡ rows)) }
{
    let (rows, entries) = (rows as u128, entries as u128);
    lists_in(block, 2 * entries + 12 * rows + 7, rows)
}

/// The lists of the columns of a factor in a block; none, exactly where it has fewer than [`columns_bytes`] bytes.
pub fn columns_lists(
    block: Piece,
    rows: usize,
    entries: usize,
) -> Option<(Vec<usize, Lodged>, Vec<Option<usize>, Lodged>)>
    ensures { MatchOption result (block.size < columns_bytes rows entries) (λ r.
        (columns_bytes rows entries ≤ block.size) × (length r.0.items ≡ entries + 5 * rows + 2) ×
        (length r.1.items ≡ 2 * rows)) }
{
    let (rows, entries) = (rows as u128, entries as u128);
    lists_in(block, entries + 5 * rows + 2, 2 * rows)
}

/// The bytes that the counts of a factor take of a block for so many rows and entries, or the greatest count where they
/// are more: 16 for each entry, 112 for each row, and 64.
pub fn counts_bytes(rows: usize, entries: usize) -> usize
    ensures { result ≡ min (counts_bytes rows entries) 18446744073709551615 }
{
    let (rows, entries) = (rows as u128, entries as u128);
    lists_bytes(2 * entries + 12 * rows + 7, rows).unwrap_or(usize::MAX)
}

/// The same for the columns: 8 for each entry, 40 for each row, and 16, in whole units of 16, and 32 for each row.
pub fn columns_bytes(rows: usize, entries: usize) -> usize
    ensures { result ≡ min (columns_bytes rows entries) 18446744073709551615 }
{
    let (rows, entries) = (rows as u128, entries as u128);
    lists_bytes(entries + 5 * rows + 2, 2 * rows).unwrap_or(usize::MAX)
}

/// A block that is enough for so many rows and entries is enough for fewer.
pub fn law_fewer_bytes()
    ensures counts { (rows entries most_rows most_entries : ℕ) → rows ≤ most_rows → entries ≤ most_entries →
        counts_bytes rows entries ≤ counts_bytes most_rows most_entries }
    ensures columns { (rows entries most_rows most_entries : ℕ) → rows ≤ most_rows → entries ≤ most_entries →
        columns_bytes rows entries ≤ columns_bytes most_rows most_entries }
{}
