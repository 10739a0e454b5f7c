// The first line of a file of the Matrix Market, what it says of the entries, and what is wrong with a first line of no
// kind. Source: the Matrix Market exchange formats.

ghost use Rattle.std.specs.Prelude.{◌≡◌, ◌≢◌, ◌∷◌, [], List, ℕ, map, IfErr, MatchOption, MatchResult};
ghost use Rattle.std.specs.Char.{to_ascii_lowercase};
ghost use Rattle.amd_lines.specs.Words.{words};
ghost use Rattle.amd_market.specs.Headers.{format_text, field_text, symmetry_text, value_words, is_mirrored};
ghost use Rattle.amd_market.specs.Headers.{SpellsHeader, lowered, without_mark, is_void};
ghost use Rattle.amd_market.specs.Faults.{HasBannerFault, HasKindFault, HasUnknownFault, HasWordFault};

use crate::faults::ReadFault;
use amd_lines::words::{first_letter, first_word};

/// Which entries a file lists.
#[derive(Clone, Copy)]
pub enum Format {
    /// `coordinate`: a line for each entry, with its row and its column.
    Coordinate,
    /// `array`: a line for each place, column by column.
    Array,
}

/// What a value is.
#[derive(Clone, Copy)]
pub enum Field {
    /// `real`
    Real,
    /// `double`
    Double,
    /// `integer`
    Integer,
    /// `unsigned-integer`
    Unsigned,
    /// `complex`
    Complex,
    /// `pattern`: there are no values.
    Pattern,
}

/// What an entry says of its mirror image.
#[derive(Clone, Copy)]
pub enum Symmetry {
    /// `general`: nothing.
    General,
    /// `symmetric`
    Symmetric,
    /// `skew-symmetric`
    SkewSymmetric,
    /// `hermitian`
    Hermitian,
}

/// What the first line says.
#[derive(Clone, Copy)]
pub struct Header {
    /// Which entries are listed.
    pub format: Format,
    /// What a value is.
    pub field: Field,
    /// What an entry says of its mirror image.
    pub symmetry: Symmetry,
}

impl Field {
    /// How many words a value has.
    pub fn words(self) -> usize
        ensures { result ≡ value_words self }
    {
        match self {
            Field::Real | Field::Double | Field::Integer | Field::Unsigned => 1,
            Field::Complex => 2,
            Field::Pattern => 0,
        }
    }
}

impl Symmetry {
    /// Whether an entry stands for its mirror image too.
    pub fn is_mirrored(self) -> bool
        ensures { result ≡ is_mirrored self }
    {
        match self {
            Symmetry::General => false,
            Symmetry::Symmetric | Symmetry::SkewSymmetric | Symmetry::Hermitian => true,
        }
    }
}

impl Header {
    /// Whether the lines behind it would have no word: there is one for each place, and it has no value.
    pub fn is_void(self) -> bool
        ensures { result ≡ is_void self }
    {
        matches!(self.format, Format::Array) && matches!(self.field, Field::Pattern)
    }
}

// The words of the formats.
const COORDINATE: &[u8] = b"coordinate";

const ARRAY: &[u8] = b"array";

// The words of the fields.
const REAL: &[u8] = b"real";

const DOUBLE: &[u8] = b"double";

const INTEGER: &[u8] = b"integer";

const UNSIGNED: &[u8] = b"unsigned-integer";

const COMPLEX: &[u8] = b"complex";

const PATTERN: &[u8] = b"pattern";

// The words of the symmetries.
const GENERAL: &[u8] = b"general";

const SYMMETRIC: &[u8] = b"symmetric";

const SKEW_SYMMETRIC: &[u8] = b"skew-symmetric";

const HERMITIAN: &[u8] = b"hermitian";

/// The field that a word is.
fn field_of(word: &[u8]) -> Option<Field>
    ensures { MatchOption result
        ((f : Field) → map to_ascii_lowercase word.now ≢ map to_ascii_lowercase (field_text f))
        (λ f. map to_ascii_lowercase word.now ≡ map to_ascii_lowercase (field_text f)) }
{
    if word.eq_ignore_ascii_case(REAL) {
        Some(Field::Real)
    } else if word.eq_ignore_ascii_case(DOUBLE) {
        Some(Field::Double)
    } else if word.eq_ignore_ascii_case(INTEGER) {
        Some(Field::Integer)
    } else if word.eq_ignore_ascii_case(UNSIGNED) {
        Some(Field::Unsigned)
    } else if word.eq_ignore_ascii_case(COMPLEX) {
        Some(Field::Complex)
    } else if word.eq_ignore_ascii_case(PATTERN) {
        Some(Field::Pattern)
    } else {
        None
    }
}

/// The symmetry that a word is.
fn symmetry_of(word: &[u8]) -> Option<Symmetry>
    ensures { MatchOption result
        ((s : Symmetry) → map to_ascii_lowercase word.now ≢ map to_ascii_lowercase (symmetry_text s))
        (λ s. map to_ascii_lowercase word.now ≡ map to_ascii_lowercase (symmetry_text s)) }
{
    if word.eq_ignore_ascii_case(GENERAL) {
        Some(Symmetry::General)
    } else if word.eq_ignore_ascii_case(SYMMETRIC) {
        Some(Symmetry::Symmetric)
    } else if word.eq_ignore_ascii_case(SKEW_SYMMETRIC) {
        Some(Symmetry::SkewSymmetric)
    } else if word.eq_ignore_ascii_case(HERMITIAN) {
        Some(Symmetry::Hermitian)
    } else {
        None
    }
}

/// What stands behind the first word of a text, where it is this word, in letters of any case.
fn behind<'a>(text: &'a [u8], word: &[u8]) -> Option<&'a [u8]>
    ensures { MatchOption result
        ((ws : List (List ℕ)) → lowered (words text.now) ≢ map to_ascii_lowercase word.now ∷ ws)
        (λ rest. lowered (words text.now) ≡ map to_ascii_lowercase word.now ∷ lowered (words rest.now)) }
{
    let (first, rest) = first_word(text)?;
    if first.eq_ignore_ascii_case(word) {
        Some(rest)
    } else {
        None
    }
}

/// A line without the byte-order mark that may stand before its text.
fn without_mark(line: &[u8]) -> &[u8]
    ensures { result.now ≡ without_mark line.now }
{
    if line.len() >= 3 && line[0] == 0xef && line[1] == 0xbb && line[2] == 0xbf {
        &line[3..]
    } else {
        line
    }
}

/// The format that the first word of a text is, and what stands behind it.
fn format_of(text: &[u8]) -> Option<(Format, &[u8])>
    ensures { MatchOption result
        ((f : Format) → (ws : List (List ℕ)) → lowered (words text.now) ≢ map to_ascii_lowercase (format_text f) ∷ ws)
        (λ p. lowered (words text.now) ≡ map to_ascii_lowercase (format_text p.0) ∷ lowered (words p.1.now)) }
{
    let (first, rest) = first_word(text)?;
    if first.eq_ignore_ascii_case(COORDINATE) {
        Some((Format::Coordinate, rest))
    } else if first.eq_ignore_ascii_case(ARRAY) {
        Some((Format::Array, rest))
    } else {
        None
    }
}

/// The field and the symmetry that a text spells.
fn kind_of(text: &[u8]) -> Result<(Field, Symmetry), ReadFault>
    ensures fault { IfErr result (λ f. HasKindFault f (lowered (words text.now))) }
    ensures kind { MatchResult result
        (λ k. lowered (words text.now) ≡ lowered (field_text k.0 ∷ (symmetry_text k.1 ∷ [])))
        (λ _. (f : Field) → (s : Symmetry) →
        lowered (words text.now) ≢ lowered (field_text f ∷ (symmetry_text s ∷ []))) }
{
    let Some((first, rest)) = first_word(text) else {
        return Err(ReadFault::Field);
    };
    let Some(field) = field_of(first) else {
        return Err(ReadFault::Field);
    };
    let Some((second, rest)) = first_word(rest) else {
        return Err(ReadFault::Symmetry);
    };
    let Some(symmetry) = symmetry_of(second) else {
        return Err(ReadFault::Symmetry);
    };
    if first_word(rest).is_some() {
        return Err(ReadFault::Symmetry);
    }
    Ok((field, symmetry))
}

/// What is wrong with a first line that lacks the banner.
fn banner_fault(line: &[u8]) -> ReadFault
    ensures { HasBannerFault result line.now }
{
    if line.len() >= 2 && line[0] == 0x1f && line[1] == 0x8b {
        ReadFault::Gzip
    } else {
        ReadFault::Banner
    }
}

/// What is wrong with a first line that lacks the banner, in a file that is no Harwell-Boeing file either.
pub(crate) fn unknown_fault(line: &[u8]) -> ReadFault
    ensures { HasUnknownFault result line.now }
{
    match first_letter(line) {
        None | Some(b'%') => ReadFault::Comment,
        _ => ReadFault::Banner,
    }
}

/// The header that the first line of a file spells, or what is wrong with the line.
pub fn header_of(line: &[u8]) -> Result<Header, ReadFault>
    ensures fault { IfErr result (λ f. HasWordFault f line.now) }
    ensures header { MatchResult result (SpellsHeader line.now) (λ _. (h : Header) → SpellsHeader line.now h → ⊥) }
{
    let Some(text) = behind(without_mark(line), b"%%MatrixMarket") else {
        return Err(banner_fault(line));
    };
    let Some(text) = behind(text, b"matrix") else {
        return Err(ReadFault::Object);
    };
    let Some((format, kind)) = format_of(text) else {
        return Err(ReadFault::Format);
    };
    let (field, symmetry) = kind_of(kind)?;
    Ok(Header {
        format,
        field,
        symmetry,
    })
}
