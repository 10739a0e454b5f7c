// The lines at the head of a Harwell-Boeing or a Rutherford-Boeing file, behind its title. Source: the Harwell-Boeing
// and Rutherford-Boeing exchange formats.

ghost use Rattle.std.specs.Prelude.{◌≡◌, ◌∷◌, ◌+◌, ◌<◌, ◌^◌, [], ℕ, List, cond, pos};
ghost use Rattle.std.specs.Prelude.{IfOk, IfErr, MatchOption, MatchResult};
ghost use Rattle.amd_market.specs.Faults.{HasTypeFault, HasCardFault};
ghost use Rattle.amd_lines.specs.Words.{words, SpellsNumber};
ghost use Rattle.amd_market.specs.Boeing.{SpellsSides, SpellsCounts, SpellsType, SpellsSizes, SpellsKind};
ghost use Rattle.amd_market.specs.Boeing.{SpellsFormats, SpellsLayout, joined, kept_byte, depth_behind};
ghost use Rattle.amd_market.specs.Boeing.{letter_values, letter_symmetry, BeginsWithNoCount};
ghost use Rattle.amd_market.specs.declared.sources.Letters.{Letters};
ghost use Rattle.amd_market.specs.declared.formats.Layout.{Layout};

use crate::entries::count_of;
use crate::faults::ReadFault;
use crate::fields::fields_of;
use crate::formats::Layout;
use crate::headers::Symmetry;
use crate::sources::{Letters, Values};
use amd_lines::words::first_word;
use std::alloc::{AllocError, Allocator};

/// What the third line of a file says.
#[derive(Clone, Copy)]
pub(crate) struct Kind {
    /// What the type says.
    pub(crate) letters: Letters,
    /// The number of rows and columns.
    pub(crate) n: usize,
    /// The number of entries.
    pub(crate) entries: usize,
}

/// The number at the beginning of a text, and what stands behind it.
fn first_count(text: &[u8]) -> Option<(usize, &[u8])>
    ensures { MatchOption result (BeginsWithNoCount (words text.now))
        (λ p. (w : List ℕ) × (words text.now ≡ w ∷ words p.1.now) × SpellsNumber w (pos p.0)) }
{
    let (word, rest) = first_word(text)?;
    Some((count_of(word)?, rest))
}

/// How many lines of right-hand sides a text tells, which stands behind four numbers: 0 where it has no word.
fn sides_in(text: &[u8]) -> Option<usize>
    ensures { MatchOption result ((k : ℕ) → SpellsSides (words text.now) k → ⊥) (SpellsSides (words text.now)) }
{
    let Some((word, rest)) = first_word(text) else {
        return Some(0);
    };
    if first_word(rest).is_some() {
        return None;
    }
    count_of(word)
}

/// How many lines of right-hand sides the second line of a file tells: its fifth number, 0 where it has four. They are
/// the numbers of all lines behind the fourth, and of those of pointers, of rows, of values and of right-hand sides.
pub(crate) fn sides_of(line: &[u8]) -> Option<usize>
    ensures { MatchOption result ((k : ℕ) → SpellsCounts (words line.now) k → ⊥) (SpellsCounts (words line.now)) }
{
    let (_, rest) = first_count(line)?;
    let (_, rest) = first_count(rest)?;
    let (_, rest) = first_count(rest)?;
    let (_, rest) = first_count(rest)?;
    sides_in(rest)
}

/// What a lower-case letter says that values are.
fn letter_values(letter: u8) -> Option<Values>
    ensures { result ≡ letter_values letter }
{
    match letter {
        b'r' => Some(Values::Real),
        b'c' => Some(Values::Complex),
        b'i' => Some(Values::Integer),
        b'p' => Some(Values::Pattern),
        b'q' => Some(Values::Elsewhere),
        _ => None,
    }
}

/// The symmetry that a lower-case letter says; `r` is that of a matrix that need not be square.
fn letter_symmetry(letter: u8) -> Option<Symmetry>
    ensures { result ≡ letter_symmetry letter }
{
    match letter {
        b'u' | b'r' => Some(Symmetry::General),
        b's' => Some(Symmetry::Symmetric),
        b'z' => Some(Symmetry::SkewSymmetric),
        b'h' => Some(Symmetry::Hermitian),
        _ => None,
    }
}

/// What a type of an assembled matrix says, which is three letters in any case: those of values, of symmetry, and
/// `A`. An `E` in its place says that the matrix is not assembled.
fn type_of(word: &[u8]) -> Result<Letters, ReadFault>
    ensures type_is { MatchResult result (SpellsType word.now) (λ _. (t : Letters) → SpellsType word.now t → ⊥) }
    ensures fault { IfErr result (λ f. HasTypeFault f word.now) }
{
    let [value, shape, storage] = word else {
        return Err(ReadFault::Kind);
    };
    let Some(values) = letter_values(value.to_ascii_lowercase()) else {
        return Err(ReadFault::Kind);
    };
    let Some(symmetry) = letter_symmetry(shape.to_ascii_lowercase()) else {
        return Err(ReadFault::Kind);
    };
    match storage.to_ascii_lowercase() {
        b'a' => Ok(Letters { values, symmetry }),
        b'e' => Err(ReadFault::Elemental),
        _ => Err(ReadFault::Kind),
    }
}

/// The numbers of rows, of columns and of entries at the beginning of a text.
fn spelled_sizes(text: &[u8]) -> Option<(usize, usize, usize)>
    ensures { MatchOption result ((r c e : ℕ) → SpellsSizes (words text.now) r c e → ⊥)
        (λ s. SpellsSizes (words text.now) s.0 s.1 s.2) }
{
    let (rows, rest) = first_count(text)?;
    let (columns, rest) = first_count(rest)?;
    let (entries, _) = first_count(rest)?;
    Some((rows, columns, entries))
}

/// What the third line of a file says, or what is wrong with it.
pub(crate) fn kind_of(line: &[u8]) -> Result<Kind, ReadFault>
    ensures kind { IfOk result (λ k. SpellsKind line.now k.letters k.n k.n k.entries) }
    ensures fault { IfErr result (λ f. HasCardFault f line.now) }
{
    let Some((word, rest)) = first_word(line) else {
        return Err(ReadFault::Kind);
    };
    let letters = type_of(word)?;
    let Some((rows, columns, entries)) = spelled_sizes(rest) else {
        return Err(ReadFault::Kind);
    };
    if rows != columns {
        return Err(ReadFault::NotSquare { rows, columns });
    }
    Ok(Kind {
        letters,
        n: rows,
        entries,
    })
}

/// How many parentheses are open behind a byte.
fn depth_behind(depth: usize, byte: u8) -> usize
    requires { depth + 1 < 2 ^ 64 }
    ensures { result ≡ depth_behind depth byte }
{
    match byte {
        b'(' => depth + 1,
        b')' => depth.saturating_sub(1),
        _ => depth,
    }
}

/// Whether a byte stands in a text of which spaces in parentheses are left out, where so many of these are open.
fn is_kept(depth: usize, byte: u8) -> bool
    ensures { kept_byte depth byte ≡ cond result (byte ∷ []) [] }
{
    byte != b' ' || depth == 0
}

/// A line without the spaces that stand in parentheses: Fortran reads a format as if they were not there.
fn joined<A: Allocator>(alloc: A, line: &[u8]) -> Result<Vec<u8, A>, AllocError>
    ensures { IfOk result (λ v. v.items ≡ joined 0 line.now) }
{
    let mut text = Vec::new(alloc);
    let mut depth = 0;
    'bytes: for &byte in line {
        if is_kept(depth, byte) {
            text.push(byte)?;
        }
        depth = depth_behind(depth, byte);
    }
    Ok(text)
}

/// The formats of pointers and of rows with which a text begins.
fn formats_of(text: &[u8]) -> Option<Layout>
    ensures { MatchOption result ((l : Layout) → SpellsFormats (words text.now) l → ⊥)
        (SpellsFormats (words text.now)) }
{
    let (first, rest) = first_word(text)?;
    let (second, _) = first_word(rest)?;
    Some(Layout {
        pointers: fields_of(first)?,
        rows: fields_of(second)?,
    })
}

/// The formats of pointers and of rows with which the fourth line of a file begins.
pub(crate) fn layout_of<A: Allocator>(alloc: A, line: &[u8]) -> Result<Option<Layout>, AllocError>
    ensures { IfOk result (λ o. MatchOption o ((l : Layout) → SpellsLayout line.now l → ⊥) (SpellsLayout line.now)) }
{
    let text = joined(alloc, line)?;
    Ok(formats_of(&text))
}
