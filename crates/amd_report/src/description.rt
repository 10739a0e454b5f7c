// The text of what a matrix is, a label and a value a line.

ghost use Rattle.std.specs.Prelude.{◌≡◌, OnOk};
ghost use Rattle.std.specs.Io.KnownBytes.{Appends};
ghost use Rattle.amd_report.specs.Descriptions.{answer_word, degree_lines, facts_text, mean_line, pattern_lines};
ghost use Rattle.amd_report.specs.Descriptions.{shape_lines, source_lines, symmetry_line};

use crate::facts::{Facts, mean_degree};
use crate::sources::{field_name, format_name, symmetry_name};
use crate::symmetry::symmetry_tenths;
use amd_market::sources::Source;
use amd_texts::write_labelled;
use amd_types::amd::Info;
use std::io;
use std::io::Write;

/// The word for a yes or a no.
fn answer_word(holds: bool) -> &'static str
    ensures { result.now ≡ answer_word holds }
{
    if holds { "yes" } else { "no" }
}

/// Writes the lines on what the file says.
fn write_source<W: Write>(source: Source, out: &mut W) -> io::Result<()>
    ensures { OnOk result (Appends (W.contents out.old) (W.contents out.new) (source_lines source)) }
{
    let format = format_name(source);
    let field = field_name(source);
    let symmetry = symmetry_name(source);
    write_labelled("format of the file", &format, out)?;
    write_labelled("field of the file", &field, out)?;
    write_labelled("symmetry of the file", &symmetry, out)?;
    Ok(())
}

/// Writes the lines on the pattern, from whose file so many duplicates were dropped.
fn write_pattern<W: Write>(info: &Info, duplicates: usize, out: &mut W) -> io::Result<()>
    ensures { OnOk result (Appends (W.contents out.old) (W.contents out.new) (pattern_lines info.now duplicates)) }
{
    let symmetric = answer_word(info.symmetry);
    let edges = info.nz_a_plus_at / 2;
    write_labelled("rows", &info.n, out)?;
    write_labelled("entries", &info.nz, out)?;
    write_labelled("duplicates dropped", &duplicates, out)?;
    write_labelled("symmetric pattern", &symmetric, out)?;
    write_labelled("entries on the diagonal", &info.nz_diag, out)?;
    write_labelled("edges", &edges, out)?;
    Ok(())
}

/// Writes the line of the pattern symmetry, a share in tenths of a per cent.
fn write_symmetry<W: Write>(share: u128, out: &mut W) -> io::Result<()>
    ensures { OnOk result (Appends (W.contents out.old) (W.contents out.new) (symmetry_line share)) }
{
    let whole = share / 10;
    let tenths = share % 10;
    let label = "pattern symmetry";
    writeln!(out, "    {label:<52}{whole}.{tenths} %")?;
    Ok(())
}

/// Writes the lines on the shape of the pattern.
fn write_shape<W: Write>(facts: &Facts, out: &mut W) -> io::Result<()>
    ensures { OnOk result (Appends (W.contents out.old) (W.contents out.new) (shape_lines facts.now)) }
{
    let widths = facts.bandwidths;
    write_labelled("mirrored entries off the diagonal", &facts.mirrored, out)?;
    write_symmetry(symmetry_tenths(facts), out)?;
    write_labelled("bandwidth below the diagonal", &widths.lower, out)?;
    write_labelled("bandwidth above the diagonal", &widths.upper, out)?;
    write_labelled("profile of A + A'", &facts.profile, out)?;
    write_labelled("components of A + A'", &facts.components, out)?;
    Ok(())
}

/// Writes the line of the mean degree, with two places.
fn write_mean<W: Write>(mean: u128, out: &mut W) -> io::Result<()>
    ensures { OnOk result (Appends (W.contents out.old) (W.contents out.new) (mean_line mean)) }
{
    let whole = mean / 100;
    let tenths = mean / 10 % 10;
    let hundredths = mean % 10;
    let label = "mean degree";
    writeln!(out, "    {label:<52}{whole}.{tenths}{hundredths}")?;
    Ok(())
}

/// Writes the lines on the degrees.
fn write_degrees<W: Write>(facts: &Facts, out: &mut W) -> io::Result<()>
    ensures { OnOk result (Appends (W.contents out.old) (W.contents out.new) (degree_lines facts.now)) }
{
    write_labelled("greatest degree", &facts.degrees.greatest, out)?;
    write_mean(mean_degree(facts), out)?;
    write_labelled("rows of degree 0", &facts.degrees.none, out)?;
    write_labelled("dense threshold", &facts.threshold, out)?;
    write_labelled("rows above the threshold", &facts.degrees.above, out)?;
    Ok(())
}

/// Writes what a matrix is, a label and a value a line.
///
/// # Errors
///
/// The writer's, of the first write that fails. What was written before stays written.
pub fn write_facts<W: Write>(facts: &Facts, out: &mut W) -> io::Result<()>
    ensures { OnOk result (Appends (W.contents out.old) (W.contents out.new) (facts_text facts.now)) }
{
    write_source(facts.source, out)?;
    write_pattern(&facts.info, facts.duplicates, out)?;
    write_shape(facts, out)?;
    write_degrees(facts, out)?;
    Ok(())
}
