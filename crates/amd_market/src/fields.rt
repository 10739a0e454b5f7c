// Numbers in fields of one width, so many on a line, as Fortran writes them: a format such as `(16I5)` or
// `(1X,16I5)`. Source: the Harwell-Boeing and Rutherford-Boeing exchange formats, and the Fortran standard on formats.

ghost use Rattle.std.specs.Prelude.{◌≡◌, ◌≢◌, ◌==◌, ◌++◌, ◌∷◌, ◌⊎◌, [], ℕ, List, false, drop, length, All};
ghost use Rattle.std.specs.Prelude.{IfErr, OnOk, MatchOption, slice_index};
ghost use Rattle.amd_market.specs.Faults.{HasFieldFault, HasFieldsFault};
ghost use Rattle.amd_market.specs.declared.faults.ReadFault.TheVariants as fault;
ghost use Rattle.std.specs.Char.{to_ascii_lowercase};
ghost use Rattle.std.specs.List.{position};
ghost use Rattle.amd_market.specs.Boeing.{is_whole_letter, is_bracket, SpellsRepeat, SpellsWidth, SpellsItem};
ghost use Rattle.amd_market.specs.Boeing.{SpellsGroup, AreGroups, SpellsSkip, SpellsSkipped, SpellsFormat};
ghost use Rattle.amd_market.specs.Boeing.{SpellsField, SpellsFields};
ghost use Rattle.amd_market.specs.declared.formats.Fields.{Fields};

use crate::entries::{count_of, index_of};
use crate::faults::ReadFault;
use crate::formats::Fields;
use amd_lines::words::{first_word, number_of};
use std::alloc::Allocator;

/// What a word has between parentheses.
fn bracketed(word: &[u8]) -> Option<&[u8]>
    ensures { MatchOption result ((t : List ℕ) → word.now ≢ 40 ∷ (t ++ 41 ∷ []))
        (λ t. word.now ≡ 40 ∷ (t.now ++ 41 ∷ [])) }
{
    let (first, rest) = word.split_first()?;
    let (last, inner) = rest.split_last()?;
    if *first == b'(' && *last == b')' {
        Some(inner)
    } else {
        None
    }
}

/// Where the first `I` of a text stands, in either case.
fn letter_place(text: &[u8]) -> Option<usize>
    ensures { result ≡ position is_whole_letter text.now }
{
    text.iter().position(|b| *b == b'i' || *b == b'I')
}

/// What stands before and behind the first `I` of a text, in either case.
fn around_letter(text: &[u8]) -> Option<(&[u8], &[u8])>
    ensures { MatchOption result (All (λ b. is_whole_letter b ≡ false) text.now) (λ p. (letter : ℕ) ×
        ((to_ascii_lowercase letter ≡ 105) × ((text.now ≡ p.0.now ++ letter ∷ p.1.now) ×
        All (λ b. is_whole_letter b ≡ false) p.0.now))) }
{
    let place = letter_place(text)?;
    Some((&text[..place], &text[place + 1..]))
}

/// How many numbers the front of a format says.
fn repeat_of(front: &[u8]) -> Option<usize>
    ensures { MatchOption result ((k : ℕ) → SpellsRepeat front.now k → ⊥) (SpellsRepeat front.now) }
{
    if front.is_empty() {
        Some(1)
    } else {
        count_of(front)
    }
}

/// Where a byte stands first in a text.
fn byte_place(text: &[u8], byte: u8) -> Option<usize>
    ensures { result ≡ position (λ b. b == byte) text.now }
{
    text.iter().position(|b| *b == byte)
}

/// What stands before and behind a byte where it stands first in a text.
fn around_byte(text: &[u8], byte: u8) -> Option<(&[u8], &[u8])>
    ensures { MatchOption result (All (λ b. (b == byte) ≡ false) text.now)
        (λ p. (text.now ≡ p.0.now ++ byte ∷ p.1.now) × All (λ b. (b == byte) ≡ false) p.0.now) }
{
    let place = byte_place(text, byte)?;
    Some((&text[..place], &text[place + 1..]))
}

/// How many bytes a field has, as the back of a format says. The number of digits behind a point is that of output.
fn width_of(back: &[u8]) -> Option<usize>
    ensures { MatchOption result ((w : ℕ) → SpellsWidth back.now w → ⊥) (SpellsWidth back.now) }
{
    let Some((front, digits)) = around_byte(back, b'.') else {
        return count_of(back);
    };
    count_of(digits)?;
    count_of(front)
}

/// The fields that a text says.
fn item_of(text: &[u8]) -> Option<Fields>
    ensures { MatchOption result ((k w : ℕ) → SpellsItem text.now k w → ⊥)
        (λ f. (f.skipped ≡ 0) × SpellsItem text.now f.per_line f.width) }
{
    let (front, back) = around_letter(text)?;
    let per_line = repeat_of(front)?;
    let width = width_of(back)?;
    if per_line == 0 || width == 0 {
        return None;
    }
    Some(Fields {
        skipped: 0,
        per_line,
        width,
    })
}

/// The fields of which a word is the format, where it has one group.
fn group_of(word: &[u8]) -> Option<Fields>
    ensures { MatchOption result ((k w : ℕ) → SpellsGroup word.now k w → ⊥)
        (λ f. (f.skipped ≡ 0) × SpellsGroup word.now f.per_line f.width) }
{
    item_of(bracketed(word)?)
}

/// How many bytes a text says that are skipped.
fn skip_of(text: &[u8]) -> Option<usize>
    ensures { MatchOption result ((s : ℕ) → SpellsSkip text.now s → ⊥) (SpellsSkip text.now) }
{
    let (last, front) = text.split_last()?;
    if last.to_ascii_lowercase() == b'x' {
        count_of(front)
    } else {
        None
    }
}

/// The fields of which a word is the format, where bytes are skipped before them.
fn skipped_of(word: &[u8]) -> Option<Fields>
    ensures { MatchOption result ((s k w : ℕ) → SpellsSkipped word.now s k w → ⊥)
        (λ f. SpellsSkipped word.now f.skipped f.per_line f.width) }
{
    let (front, back) = around_byte(bracketed(word)?, b',')?;
    let skipped = skip_of(front)?;
    let item = item_of(back)?;
    Some(Fields {
        skipped,
        per_line: item.per_line,
        width: item.width,
    })
}

/// Where the first bracket of a text stands that opens.
fn bracket_place(text: &[u8]) -> Option<usize>
    ensures { result ≡ position is_bracket text.now }
{
    text.iter().position(|b| *b == b'(')
}

/// What stands before the first bracket of a text, and the text from there on.
fn at_bracket(text: &[u8]) -> Option<(&[u8], &[u8])>
    ensures { MatchOption result (All (λ b. is_bracket b ≡ false) text.now)
        (λ p. (text.now ≡ p.0.now ++ p.1.now) × (slice_index p.1.now 0 ≡ 40)
        × All (λ b. is_bracket b ≡ false) p.0.now) }
{
    let place = bracket_place(text)?;
    Some(text.split_at(place))
}

/// The fields of which a word is the format, where it has groups in brackets of their own.
fn groups_of(word: &[u8]) -> Option<Fields>
    ensures { MatchOption result ((k w : ℕ) → AreGroups word.now k w → ⊥)
        (λ f. (f.skipped ≡ 0) × AreGroups word.now f.per_line f.width) }
{
    let (front, inner) = at_bracket(bracketed(word)?)?;
    let groups = repeat_of(front)?;
    let group = group_of(inner)?;
    let per_line = groups.checked_mul(group.per_line)?;
    if per_line == 0 {
        return None;
    }
    Some(Fields {
        skipped: 0,
        per_line,
        width: group.width,
    })
}

/// The fields of which a word is the format.
pub(crate) fn fields_of(word: &[u8]) -> Option<Fields>
    ensures { MatchOption result ((f : Fields) → SpellsFormat word.now f → ⊥) (SpellsFormat word.now) }
{
    if let Some(fields) = group_of(word) {
        return Some(fields);
    }
    match groups_of(word) {
        Some(fields) => Some(fields),
        None => skipped_of(word),
    }
}

/// What the numbers of a list are.
#[derive(Clone, Copy)]
pub(crate) enum Listed {
    /// Pointers.
    Pointers,
    /// Rows.
    Rows,
}

/// What is wrong with a field that has no number from 1 to `bound`.
fn field_fault(field: &[u8], bound: usize, listed: Listed) -> ReadFault
    ensures { HasFieldFault listed bound result field.now }
{
    let Some((word, rest)) = first_word(field) else {
        return ReadFault::Number;
    };
    if first_word(rest).is_some() {
        return ReadFault::Number;
    }
    match (number_of(word), listed) {
        (Some(number), Listed::Pointers) => ReadFault::Pointer {
            number,
            last: bound,
        },
        (Some(number), Listed::Rows) => ReadFault::Row {
            number,
            rows: bound,
        },
        (None, _) => ReadFault::Number,
    }
}

/// What stands behind the first bytes of a line, so many.
pub(crate) fn behind_bytes(line: &[u8], count: usize) -> &[u8]
    ensures { result.now ≡ drop count line.now }
{
    let (_, rest) = line.split_at(count.min(line.len()));
    rest
}

/// The number that a field has, from 0 on; the field counts from 1.
fn number_in(field: &[u8], bound: usize) -> Option<usize>
    ensures { MatchOption result ((k : ℕ) → SpellsField field.now bound k → ⊥) (SpellsField field.now bound) }
{
    let (word, rest) = first_word(field)?;
    if first_word(rest).is_some() {
        return None;
    }
    index_of(word, bound)
}

/// Adds the numbers of the first fields of a line, so many, to a list.
pub(crate) fn add_numbers<A: Allocator>(
    numbers: &mut Vec<usize, A>,
    line: &[u8],
    width: usize,
    count: usize,
    bound: usize,
    listed: Listed,
) -> Result<(), ReadFault>
    ensures adds { OnOk result ((more : List ℕ) × (length more ≡ count) ×
        (numbers.new.items ≡ numbers.old.items ++ more) ×
        SpellsFields width bound line.now more) }
    ensures fault { IfErr result (λ f. (f ≡ fault.OutOfMemory) ⊎ HasFieldsFault listed width count bound f line.now) }
{
    let mut left = line;
    'fields: for _done in 0..count {
        let (field, rest) = left.split_at(width.min(left.len()));
        let Some(number) = number_in(field, bound) else {
            return Err(field_fault(field, bound, listed));
        };
        numbers.push(number)?;
        left = rest;
    }
    Ok(())
}
