// What the factor needs under several orders of the rows: as they stand in the file, as they were ordered, and as a
// file lists them.

ghost use Rattle.std.specs.Prelude.{◌≡◌, IsTrue, OnOk};
ghost use Rattle.std.specs.Char.{is_ascii};
ghost use Rattle.std.specs.List.{list_all};
ghost use Rattle.std.specs.Io.KnownBytes.{Appends};
ghost use Rattle.amd_texts.specs.Texts.{labelled};
ghost use Rattle.amd_report.specs.Comparisons.{compared_line, comparison_lines, figure_of, option_name, three_figures};
ghost use Rattle.amd_report.specs.Comparisons.{two_figures};

use amd_factor::needs::Need;
use std::io;
use std::io::Write;

/// What the factor needs under each order.
#[derive(Clone, Copy)]
pub struct Comparison {
    /// The rows of the matrix.
    pub rows: usize,
    /// The edges of the matrix, which are entries under every order.
    pub edges: usize,
    /// As the rows stand in the file.
    pub stands: Need,
    /// As they were ordered.
    pub ordered: Need,
    /// As another file lists them, where there is one.
    pub other: Option<Need>,
    /// Whether `--with-inverse` names that file, and not `--with`.
    pub inverse: bool,
}

/// A figure of what a factor needs.
#[derive(Clone, Copy)]
pub enum Figure {
    /// The entries below the diagonal, and the divisions.
    Entries,
    /// Those of them that are no edges.
    Fill,
    /// The multiply-subtract steps of a factorization `LDL'`.
    StepsLdl,
    /// Those of a factorization `LU`.
    StepsLu,
    /// The floating-point operations of a factorization `LDL'` of real numbers: a division for each entry, and two
    /// operations for each multiply-subtract step.
    FlopsLdl,
    /// The entries of the largest column, with its diagonal.
    LargestColumn,
    /// The bytes of the entries, with those on the diagonal, as doubles of eight bytes.
    Bytes,
}

/// A figure of what the factor of a matrix needs that has so many rows and edges, cut at the greatest `u128`.
pub fn figure_of(figure: Figure, rows: usize, edges: usize, need: &Need) -> u128
    ensures { result ≡ figure_of figure rows edges need.now }
{
    match figure {
        Figure::Entries => need.lnz,
        Figure::Fill => need.lnz.saturating_sub(edges as u128),
        Figure::StepsLdl => need.n_mult_subs_ldl,
        Figure::StepsLu => need.n_mult_subs_lu,
        Figure::FlopsLdl => need
            .n_mult_subs_ldl
            .saturating_mul(2)
            .saturating_add(need.lnz),
        Figure::LargestColumn => need.d_max,
        Figure::Bytes => need.lnz.saturating_add(rows as u128).saturating_mul(8),
    }
}

/// Writes a line with a figure under two orders. The label is of ASCII characters.
fn write_two<W: Write>(label: &str, stands: u128, ordered: u128, out: &mut W) -> io::Result<()>
    requires { IsTrue (list_all is_ascii label.now) }
    ensures { OnOk result (Appends (W.contents out.old) (W.contents out.new)
        (labelled label.now (two_figures stands ordered))) }
{
    writeln!(
        out,
        "    {label:<52}{stands} as it stands, {ordered} ordered"
    )?;
    Ok(())
}

/// The option that names the file with another order.
fn option_name(inverse: bool) -> &'static str
    ensures { result.now ≡ option_name inverse }
{
    if inverse { "--with-inverse" } else { "--with" }
}

/// Writes a line with a figure under three orders, the last of which an option names. The label is of ASCII characters.
fn write_three<W: Write>(
    label: &str,
    stands: u128,
    ordered: u128,
    other: u128,
    option: &str,
    out: &mut W,
) -> io::Result<()>
    requires { IsTrue (list_all is_ascii label.now) }
    ensures { OnOk result (Appends (W.contents out.old) (W.contents out.new)
        (labelled label.now (three_figures stands ordered other option.now))) }
{
    writeln!(
        out,
        "    {label:<52}{stands} as it stands, {ordered} ordered, {other} by {option}"
    )?;
    Ok(())
}

/// Writes a line with a figure under each order. The label is of ASCII characters.
fn write_compared<W: Write>(
    label: &str,
    figure: Figure,
    compared: Comparison,
    out: &mut W,
) -> io::Result<()>
    requires { IsTrue (list_all is_ascii label.now) }
    ensures { OnOk result (Appends (W.contents out.old) (W.contents out.new)
        (compared_line label.now figure compared)) }
{
    let stands = figure_of(figure, compared.rows, compared.edges, &compared.stands);
    let ordered = figure_of(figure, compared.rows, compared.edges, &compared.ordered);
    match compared.other {
        Some(need) => {
            let other = figure_of(figure, compared.rows, compared.edges, &need);
            let option = option_name(compared.inverse);
            write_three(label, stands, ordered, other, option, out)
        }
        None => write_two(label, stands, ordered, out),
    }
}

/// Writes what the factor needs under each order.
///
/// # Errors
///
/// The writer's, of the first write that fails. What was written before stays written.
pub fn write_comparison_lines<W: Write>(compared: Comparison, out: &mut W) -> io::Result<()>
    ensures { OnOk result (Appends (W.contents out.old) (W.contents out.new) (comparison_lines compared)) }
{
    write_compared(
        "entries of L below the diagonal",
        Figure::Entries,
        compared,
        out,
    )?;
    write_compared("fill", Figure::Fill, compared, out)?;
    write_compared(
        "multiply-subtracts for LDL'",
        Figure::StepsLdl,
        compared,
        out,
    )?;
    write_compared("multiply-subtracts for LU", Figure::StepsLu, compared, out)?;
    write_compared("flops for LDL'", Figure::FlopsLdl, compared, out)?;
    write_compared(
        "largest column, with its diagonal",
        Figure::LargestColumn,
        compared,
        out,
    )?;
    write_compared(
        "bytes of L in doubles, with its diagonal",
        Figure::Bytes,
        compared,
        out,
    )?;
    Ok(())
}
