// The line of an array's size, and the lines of its values. Source: the Matrix Market exchange formats.

ghost use Rattle.std.specs.Prelude.{◌≡◌, ◌≢◌, ◌∷◌, [], ℕ, List, Bool, not, IfErr, MatchOption, MatchResult};
ghost use Rattle.std.specs.List.{list_all};
ghost use Rattle.amd_lines.specs.Words.{words};
ghost use Rattle.amd_market.specs.Entries.{AreValues};
ghost use Rattle.amd_market.specs.Arrays.{is_zero_byte, is_zero, SpellsShape, SpellsValue};
ghost use Rattle.amd_market.specs.Arrays.{HasShapeFault};
ghost use Rattle.amd_market.specs.Faults.{HasCountFault, HasCellFault};

use crate::entries::{count_of, has_values, value_fault};
use crate::faults::ReadFault;
use crate::headers::Field;
use amd_lines::values::exponent_mark;
use amd_lines::words::first_word;

/// The words of a line that has two.
fn two_words(line: &[u8]) -> Option<(&[u8], &[u8])>
    ensures { MatchOption result ((f s : List ℕ) → words line.now ≢ f ∷ (s ∷ []))
        (λ p. words line.now ≡ p.0.now ∷ (p.1.now ∷ [])) }
{
    let (first, rest) = first_word(line)?;
    let (second, rest) = first_word(rest)?;
    if first_word(rest).is_none() {
        Some((first, second))
    } else {
        None
    }
}

/// The two numbers that a line spells.
fn spelled_shape(line: &[u8]) -> Option<(usize, usize)>
    ensures { MatchOption result ((r c : ℕ) → SpellsShape line.now r c → ⊥) (λ p. SpellsShape line.now p.0 p.1) }
{
    let (first, second) = two_words(line)?;
    Some((count_of(first)?, count_of(second)?))
}

/// The number of rows and columns that a line spells: `Shape` where it spells none, and `NotSquare` where they differ.
pub fn shape_of(line: &[u8]) -> Result<usize, ReadFault>
    ensures shape { MatchResult result (λ n. SpellsShape line.now n n) (λ _. (n : ℕ) → SpellsShape line.now n n → ⊥) }
    ensures fault { IfErr result (λ f. HasShapeFault f line.now) }
{
    let Some((rows, columns)) = spelled_shape(line) else {
        return Err(ReadFault::Shape);
    };
    if rows != columns {
        return Err(ReadFault::NotSquare { rows, columns });
    }
    Ok(rows)
}

/// Whether a byte is one of those that zero is written with.
fn is_zero_byte(byte: u8) -> bool
    ensures { result ≡ is_zero_byte byte }
{
    byte == b'0' || byte == b'.' || byte == b'+' || byte == b'-'
}

/// Whether a number is zero: before its exponent stand zeros, a point and a sign alone.
fn is_zero(word: &[u8]) -> bool
    ensures { result ≡ is_zero word.now }
{
    word.iter()
        .take_while(|b| exponent_mark(**b) != b'e' && **b != b'E')
        .all(|b| is_zero_byte(*b))
}

/// Whether the words of a text are zero, each of them.
fn are_zeros(text: &[u8]) -> bool
    ensures { result ≡ list_all is_zero (words text.now) }
{
    let mut left = text;
    'words: while let Some((word, rest)) = first_word(left) {
        if !is_zero(word) {
            return false;
        }
        left = rest;
    }
    true
}

/// What is wrong with a line that is not so many numbers.
fn cell_fault(line: &[u8], count: usize) -> ReadFault
    ensures { HasCountFault result count (words line.now) }
{
    match value_fault(line, count) {
        ReadFault::Value => ReadFault::Value,
        _ => ReadFault::Cell,
    }
}

/// Whether the value that a line spells is another one than zero, or what is wrong with the line.
pub fn value_of(line: &[u8], field: Field) -> Result<bool, ReadFault>
    ensures value { MatchResult result (SpellsValue field line.now)
        (λ _. (b : Bool) → SpellsValue field line.now b → ⊥) }
    ensures fault { IfErr result (λ f. HasCellFault field f line.now) }
{
    if has_values(line, field.words()) {
        Ok(!are_zeros(line))
    } else {
        Err(cell_fault(line, field.words()))
    }
}
