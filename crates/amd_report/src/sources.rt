// The names of what a file says of its matrix: its format, what the values are, and the symmetry.

ghost use Rattle.std.specs.Prelude.{◌≡◌};
ghost use Rattle.amd_market.specs.Headers.{field_text, symmetry_text};
ghost use Rattle.amd_report.specs.Sources.{field_name, format_name, market_format, symmetry_name, values_word};

use amd_market::headers::{Field, Format, Symmetry};
use amd_market::sources::{Source, Values};

/// The name of a format of the Matrix Market.
fn market_format(format: Format) -> &'static str
    ensures { result.now ≡ market_format format }
{
    match format {
        Format::Coordinate => "Matrix Market coordinate",
        Format::Array => "Matrix Market array",
    }
}

/// The word of a field.
fn field_word(field: Field) -> &'static str
    ensures { result.now ≡ field_text field }
{
    match field {
        Field::Real => "real",
        Field::Double => "double",
        Field::Integer => "integer",
        Field::Unsigned => "unsigned-integer",
        Field::Complex => "complex",
        Field::Pattern => "pattern",
    }
}

/// The word for the values of a Harwell-Boeing file.
fn values_word(values: Values) -> &'static str
    ensures { result.now ≡ values_word values }
{
    match values {
        Values::Real => "real",
        Values::Complex => "complex",
        Values::Integer => "integer",
        Values::Pattern => "pattern",
        Values::Elsewhere => "in another file",
    }
}

/// The word of a symmetry.
fn symmetry_word(symmetry: Symmetry) -> &'static str
    ensures { result.now ≡ symmetry_text symmetry }
{
    match symmetry {
        Symmetry::General => "general",
        Symmetry::Symmetric => "symmetric",
        Symmetry::SkewSymmetric => "skew-symmetric",
        Symmetry::Hermitian => "hermitian",
    }
}

/// The name of the format of a file.
pub(crate) fn format_name(source: Source) -> &'static str
    ensures { result.now ≡ format_name source }
{
    match source {
        Source::Market(header) => market_format(header.format),
        Source::Boeing(_) => "Harwell-Boeing or Rutherford-Boeing",
    }
}

/// The name of what the values of a file are.
pub(crate) fn field_name(source: Source) -> &'static str
    ensures { result.now ≡ field_name source }
{
    match source {
        Source::Market(header) => field_word(header.field),
        Source::Boeing(letters) => values_word(letters.values),
    }
}

/// The name of the symmetry that a file tells.
pub(crate) fn symmetry_name(source: Source) -> &'static str
    ensures { result.now ≡ symmetry_name source }
{
    match source {
        Source::Market(header) => symmetry_word(header.symmetry),
        Source::Boeing(letters) => symmetry_word(letters.symmetry),
    }
}
