// The answers as JSON, for programs: one object on one line. A number has the name that it has in the tables, cut
// short, in small letters and with `_` between words. It is written in pieces and no memory is asked, so that no tree
// of values stands beside a long permutation; the tests read it with the kit's JSON.

ghost use Rattle.std.specs.Prelude.{codes, OnOk, IfSome};
ghost use Rattle.std.specs.Io.KnownBytes.{Appends};
ghost use Rattle.amd_report.specs.Json.{bound_members, comparison_members, degree_members, facts_json, known_members};
ghost use Rattle.amd_report.specs.Json.{matrix_members, member, more_rows, need_members, order_json, other_members};
ghost use Rattle.amd_report.specs.Json.{pattern_members, quoted, row_list, shape_members, source_members};
ghost use Rattle.amd_report.specs.Descriptions.{hundredths, tenths};

use crate::compare::{Comparison, Figure, figure_of};
use crate::facts::{Facts, mean_degree};
use crate::figures::status_phrase;
use crate::sources::{field_name, format_name, symmetry_name};
use crate::symmetry::symmetry_tenths;
use amd_factor::needs::Need;
use amd_market::sources::Source;
use amd_types::amd::Info;
use std::fmt::Display;
use std::io;
use std::io::Write;

/// Writes a name and a value that is a number or a truth, behind what stands before them.
fn write_member<W: Write, D: Display>(
    before: &str,
    name: &str,
    value: &D,
    out: &mut W,
) -> io::Result<()>
    ensures { OnOk result (IfSome (D.output value.now)
        (λ text. Appends (W.contents out.old) (W.contents out.new) (member before.now name.now text))) }
{
    write!(out, "{before}\"{name}\":{value}")?;
    Ok(())
}

/// Writes a name and a text without quotes in it.
fn write_text_member<W: Write>(name: &str, text: &str, out: &mut W) -> io::Result<()>
    ensures { OnOk result (Appends (W.contents out.old) (W.contents out.new)
        (member (codes ",") name.now (quoted text.now))) }
{
    write!(out, ",\"{name}\":\"{text}\"")?;
    Ok(())
}

/// Writes the members on the matrix, from whose file so many duplicates were dropped.
pub fn write_matrix_members<W: Write>(info: &Info, duplicates: usize, out: &mut W) -> io::Result<()>
    ensures { OnOk result (Appends (W.contents out.old) (W.contents out.new) (matrix_members info.now duplicates)) }
{
    let status = status_phrase(&info.status, duplicates);
    write_member("{", "rows", &info.n, out)?;
    write_member(",", "entries", &info.nz, out)?;
    write_member(",", "duplicates_dropped", &duplicates, out)?;
    write_text_member("status", status, out)?;
    write_member(",", "rows_placed_last", &info.n_dense, out)?;
    write_member(",", "workspace_compactions", &info.n_cmp_a, out)?;
    Ok(())
}

/// Writes the bounds on the factor.
pub fn write_bounds<W: Write>(info: &Info, out: &mut W) -> io::Result<()>
    ensures { OnOk result (Appends (W.contents out.old) (W.contents out.new) (bound_members info.now)) }
{
    write_member(",\"at_most\":{", "entries_of_l", &info.lnz, out)?;
    write_member(",", "divisions", &info.n_div, out)?;
    write_member(",", "multiply_subtracts_ldl", &info.n_mult_subs_ldl, out)?;
    write_member(",", "multiply_subtracts_lu", &info.n_mult_subs_lu, out)?;
    write_member(",", "largest_column", &info.d_max, out)?;
    out.write_all(b"}")?;
    Ok(())
}

/// Writes the numbers of rows behind a first one, from 1 on.
fn write_more_rows<W: Write>(rows: &[usize], out: &mut W) -> io::Result<()>
    ensures { OnOk result (Appends (W.contents out.old) (W.contents out.new) (more_rows rows.now)) }
{
    'places: for &row in rows {
        let number = row as u128 + 1;
        write!(out, ",{number}")?;
    }
    Ok(())
}

/// Writes the numbers of rows as a list, from 1 on.
fn write_row_list<W: Write>(rows: &[usize], out: &mut W) -> io::Result<()>
    ensures { OnOk result (Appends (W.contents out.old) (W.contents out.new) (row_list rows.now)) }
{
    match rows {
        [] => {
            out.write_all(b"[]")?;
        }
        [first, rest @ ..] => {
            let number = *first as u128 + 1;
            write!(out, "[{number}")?;
            write_more_rows(rest, out)?;
            out.write_all(b"]")?;
        }
    }
    Ok(())
}

/// Writes what the factor needs under an order, behind a name.
pub fn write_need<W: Write>(
    name: &str,
    rows: usize,
    edges: usize,
    need: &Need,
    out: &mut W,
) -> io::Result<()>
    ensures { OnOk result (Appends (W.contents out.old) (W.contents out.new)
        (need_members name.now rows edges need.now)) }
{
    let fill = figure_of(Figure::Fill, rows, edges, need);
    let flops = figure_of(Figure::FlopsLdl, rows, edges, need);
    let bytes = figure_of(Figure::Bytes, rows, edges, need);
    write!(out, ",\"{name}\":")?;
    write_member("{", "entries_of_l", &need.lnz, out)?;
    write_member(",", "fill", &fill, out)?;
    write_member(",", "divisions", &need.lnz, out)?;
    write_member(",", "multiply_subtracts_ldl", &need.n_mult_subs_ldl, out)?;
    write_member(",", "multiply_subtracts_lu", &need.n_mult_subs_lu, out)?;
    write_member(",", "flops_ldl", &flops, out)?;
    write_member(",", "largest_column", &need.d_max, out)?;
    write_member(",", "bytes_of_l", &bytes, out)?;
    out.write_all(b"}")?;
    Ok(())
}

/// Writes what the factor needs under the order of a file, where there is one.
fn write_other_need<W: Write>(
    rows: usize,
    edges: usize,
    other: Option<Need>,
    out: &mut W,
) -> io::Result<()>
    ensures { OnOk result (Appends (W.contents out.old) (W.contents out.new) (other_members rows edges other)) }
{
    match other {
        Some(need) => write_need("with", rows, edges, &need, out),
        None => Ok(()),
    }
}

/// Writes what the factor needs under each order.
fn write_needs<W: Write>(compared: Comparison, out: &mut W) -> io::Result<()>
    ensures { OnOk result (Appends (W.contents out.old) (W.contents out.new) (comparison_members compared)) }
{
    let (rows, edges) = (compared.rows, compared.edges);
    write_need("as_it_stands", rows, edges, &compared.stands, out)?;
    write_need("ordered", rows, edges, &compared.ordered, out)?;
    write_other_need(rows, edges, compared.other, out)?;
    Ok(())
}

/// Writes what the factor needs under each order, where that is known.
fn write_known_needs<W: Write>(compared: Option<Comparison>, out: &mut W) -> io::Result<()>
    ensures { OnOk result (Appends (W.contents out.old) (W.contents out.new) (known_members compared)) }
{
    match compared {
        Some(compared) => write_needs(compared, out),
        None => Ok(()),
    }
}

/// Writes an ordering: what it tells, how many duplicates were dropped from the file, what the factor needs under each
/// order where that is known, and the permutation, whose rows count from 1.
///
/// # Errors
///
/// The writer's, of the first write that fails. What was written before stays written.
pub fn write_order_json<W: Write>(
    info: &Info,
    duplicates: usize,
    compared: Option<Comparison>,
    p: &[usize],
    out: &mut W,
) -> io::Result<()>
    ensures { OnOk result (Appends (W.contents out.old) (W.contents out.new)
        (order_json info.now duplicates compared p.now)) }
{
    write_matrix_members(info, duplicates, out)?;
    write_bounds(info, out)?;
    write_known_needs(compared, out)?;
    out.write_all(b",\"permutation\":")?;
    write_row_list(p, out)?;
    out.write_all(b"}\n")?;
    Ok(())
}

/// Writes the members on the pattern, from whose file so many duplicates were dropped.
fn write_pattern_members<W: Write>(info: &Info, duplicates: usize, out: &mut W) -> io::Result<()>
    ensures { OnOk result (Appends (W.contents out.old) (W.contents out.new) (pattern_members info.now duplicates)) }
{
    let edges = info.nz_a_plus_at / 2;
    write_member("{", "rows", &info.n, out)?;
    write_member(",", "entries", &info.nz, out)?;
    write_member(",", "duplicates_dropped", &duplicates, out)?;
    write_member(",", "symmetric_pattern", &info.symmetry, out)?;
    write_member(",", "entries_on_the_diagonal", &info.nz_diag, out)?;
    write_member(",", "edges", &edges, out)?;
    Ok(())
}

/// Writes the members on what the file says.
fn write_source_members<W: Write>(source: Source, out: &mut W) -> io::Result<()>
    ensures { OnOk result (Appends (W.contents out.old) (W.contents out.new) (source_members source)) }
{
    let format = format_name(source);
    let field = field_name(source);
    let symmetry = symmetry_name(source);
    write_text_member("format", format, out)?;
    write_text_member("field", field, out)?;
    write_text_member("symmetry", symmetry, out)?;
    Ok(())
}

/// Writes the pattern symmetry, a share in tenths of a per cent.
fn write_symmetry_member<W: Write>(share: u128, out: &mut W) -> io::Result<()>
    ensures { OnOk result (Appends (W.contents out.old) (W.contents out.new)
        (member (codes ",") (codes "pattern_symmetry_percent") (tenths share))) }
{
    let whole = share / 10;
    let tenths = share % 10;
    write!(out, ",\"pattern_symmetry_percent\":{whole}.{tenths}")?;
    Ok(())
}

/// Writes the members on the shape of the pattern.
fn write_shape_members<W: Write>(facts: &Facts, out: &mut W) -> io::Result<()>
    ensures { OnOk result (Appends (W.contents out.old) (W.contents out.new) (shape_members facts.now)) }
{
    let widths = facts.bandwidths;
    write_member(",", "mirrored_entries", &facts.mirrored, out)?;
    write_symmetry_member(symmetry_tenths(facts), out)?;
    write_member(",", "lower_bandwidth", &widths.lower, out)?;
    write_member(",", "upper_bandwidth", &widths.upper, out)?;
    write_member(",", "profile", &facts.profile, out)?;
    write_member(",", "components", &facts.components, out)?;
    Ok(())
}

/// Writes the mean degree, with two places.
fn write_mean_member<W: Write>(mean: u128, out: &mut W) -> io::Result<()>
    ensures { OnOk result (Appends (W.contents out.old) (W.contents out.new)
        (member (codes ",") (codes "mean_degree") (hundredths mean))) }
{
    let whole = mean / 100;
    let tenths = mean / 10 % 10;
    let hundredths = mean % 10;
    write!(out, ",\"mean_degree\":{whole}.{tenths}{hundredths}")?;
    Ok(())
}

/// Writes the members on the degrees.
fn write_degree_members<W: Write>(facts: &Facts, out: &mut W) -> io::Result<()>
    ensures { OnOk result (Appends (W.contents out.old) (W.contents out.new) (degree_members facts.now)) }
{
    write_member(",", "greatest_degree", &facts.degrees.greatest, out)?;
    write_mean_member(mean_degree(facts), out)?;
    write_member(",", "rows_of_degree_0", &facts.degrees.none, out)?;
    write_member(",", "dense_threshold", &facts.threshold, out)?;
    write_member(",", "rows_above_the_threshold", &facts.degrees.above, out)?;
    Ok(())
}

/// Writes what a matrix is, and what its factor needs under each order, where that is known.
///
/// # Errors
///
/// The writer's, of the first write that fails. What was written before stays written.
pub fn write_facts_json<W: Write>(
    facts: &Facts,
    compared: Option<Comparison>,
    out: &mut W,
) -> io::Result<()>
    ensures { OnOk result (Appends (W.contents out.old) (W.contents out.new) (facts_json facts.now compared)) }
{
    write_pattern_members(&facts.info, facts.duplicates, out)?;
    write_source_members(facts.source, out)?;
    write_shape_members(facts, out)?;
    write_degree_members(facts, out)?;
    write_known_needs(compared, out)?;
    out.write_all(b"}\n")?;
    Ok(())
}
