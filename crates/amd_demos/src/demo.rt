// The demo that prints a matrix, orders it, and prints the ordering and the permuted matrix, for a matrix with sorted
// columns, whose exact factor it prints too, and for a jumbled one.

ghost use Rattle.std.specs.Prelude.{◌≡◌, ◌≤◌, pos, true, false, IfOk, OnOk};
ghost use Rattle.std.specs.Io.KnownBytes.{Appends};
ghost use Rattle.amd.specs.Answers.{IsOrdering};
ghost use Rattle.amd_texts.specs.Writers.{HasTold};
ghost use Rattle.amd_demos.specs.Lines.{failure_line, permutation_lines, record_lines};
ghost use Rattle.amd_demos.specs.Demos.{EndsInFailure, HasDemo, HasEnd, wanted_status};

use crate::exact::print_exact;
use crate::listing::write_listing;
use crate::matrix::DemoMatrix;
use crate::numbers::write_vector;
use crate::outcome::{status_name, write_failure};
use crate::plot::{Marks, Plot, write_plot};
use amd::{Control, Info, Status, control, info, order};
use std::alloc::Allocator;
use std::io;
use std::io::Write;

/// What a demo says of its matrix.
#[derive(Clone, Copy)]
pub enum Form {
    /// The columns are sorted, and the pattern is symmetric.
    Sorted,
    /// The columns are jumbled, and mirrors of entries are left out.
    Jumbled,
}

/// The status that an ordering is to have.
fn wanted_status(form: Form) -> Status
    ensures { result ≡ wanted_status form }
{
    match form {
        Form::Sorted => Status::OK,
        Form::Jumbled => Status::OkButJumbled,
    }
}

/// The spaces before the heading of a plot.
fn margin(form: Form) -> &'static str {
    match form {
        Form::Sorted => "    ",
        Form::Jumbled => "   ",
    }
}

/// Writes what the demo shows.
fn write_title<W: Write>(form: Form, out: &mut W) -> io::Result<()>
    ensures { OnOk result (HasTold (W.contents out.old) (W.contents out.new)) }
{
    match form {
        Form::Sorted => {
            out.write_all(b"AMD demo, with the 24-by-24 Harwell/Boeing matrix, can_24:\n")?;
        }
        Form::Jumbled => {
            out.write_all(b"AMD demo, with a jumbled version of the 24-by-24\n")?;
            out.write_all(b"Harwell/Boeing matrix, can_24:\n")?;
        }
    }
    Ok(())
}

/// Writes which part of a symmetric matrix the ordering needs.
fn write_note<W: Write>(form: Form, out: &mut W) -> io::Result<()>
    ensures { OnOk result (HasTold (W.contents out.old) (W.contents out.new)) }
{
    out.write_all(b"    Note that for a symmetric matrix such as this one, only the\n")?;
    out.write_all(b"    strictly lower or upper triangular parts would need to be\n")?;
    match form {
        Form::Sorted => {
            out.write_all(b"    passed to AMD, since AMD computes the ordering of A+A'. The\n")?;
            out.write_all(b"    diagonal entries are also not needed, since AMD ignores them.\n")?;
        }
        Form::Jumbled => {
            out.write_all(b"    passed to AMD, since AMD computes the ordering of A+A'.  The\n")?;
            out.write_all(b"    diagonal entries are also not needed, since AMD ignores them.\n")?;
            out.write_all(b"    This version of the matrix has jumbled columns and duplicate\n")?;
            out.write_all(b"    row indices.\n")?;
        }
    }
    Ok(())
}

/// Writes the size of a matrix, and a note on it.
fn write_size<W: Write>(form: Form, matrix: &DemoMatrix, out: &mut W) -> io::Result<()>
    ensures { OnOk result (HasTold (W.contents out.old) (W.contents out.new)) }
{
    let n = matrix.n;
    let entries = matrix.pointer(n).unwrap_or(0);
    let name = match form {
        Form::Sorted => "Input matrix",
        Form::Jumbled => "Jumbled input matrix",
    };
    writeln!(out, "\n{name}:  {n}-by-{n}, with {entries} entries.")?;
    write_note(form, out)?;
    Ok(())
}

/// Writes the plots of a matrix before it is ordered.
fn write_input_plots<W: Write>(form: Form, matrix: &DemoMatrix, out: &mut W) -> io::Result<()>
    ensures { OnOk result (HasTold (W.contents out.old) (W.contents out.new)) }
{
    let entries = Plot {
        matrix,
        marks: Marks::Entries,
        margin: margin(form),
        places: &[],
    };
    let both_places = Plot {
        matrix,
        marks: Marks::BothPlaces,
        margin: margin(form),
        places: &[],
    };
    match form {
        Form::Sorted => write_plot("Plot of input matrix pattern:", &entries, out)?,
        Form::Jumbled => {
            write_plot("Plot of (jumbled) input matrix pattern:", &entries, out)?;
            write_plot(
                "Plot of symmetric matrix to be ordered by amd::order:",
                &both_places,
                out,
            )?;
        }
    }
    Ok(())
}

/// Writes what there is before the matrix is ordered. No memory is asked.
fn write_input<W: Write>(form: Form, matrix: &DemoMatrix, out: &mut W) -> io::Result<()>
    ensures { OnOk result (HasTold (W.contents out.old) (W.contents out.new)) }
{
    write_title(form, out)?;
    control(&Control::default(), out)?;
    write_size(form, matrix, out)?;
    write_listing(matrix, out)?;
    write_input_plots(form, matrix, out)?;
    Ok(())
}

/// Writes the status that an ordering has, and the one that it is to have, and its record.
fn write_record<W: Write>(form: Form, told: &Info, out: &mut W) -> io::Result<()>
    ensures { OnOk result (Appends (W.contents out.old) (W.contents out.new)
        (record_lines (wanted_status form) told.now)) }
{
    let status = status_name(&told.status);
    let wanted = status_name(&wanted_status(form));
    writeln!(
        out,
        "return value from amd::order: {status} (should be {wanted})"
    )?;
    info(told, out)?;
    Ok(())
}

/// Writes a permutation and its inverse.
fn write_permutations<W: Write>(p: &[i32], p_inv: &[i32], out: &mut W) -> io::Result<()>
    ensures { OnOk result (Appends (W.contents out.old) (W.contents out.new) (permutation_lines p.now p_inv.now)) }
{
    write_vector("Permutation vector:", p, out)?;
    write_vector("Inverse permutation vector:", p_inv, out)?;
    Ok(())
}

/// Writes the plot of the matrix in the order of a permutation.
fn write_permuted_plot<W: Write>(
    form: Form,
    matrix: &DemoMatrix,
    p: &[i32],
    out: &mut W,
) -> io::Result<()>
    ensures { OnOk result (HasTold (W.contents out.old) (W.contents out.new)) }
{
    let (title, marks) = match form {
        Form::Sorted => ("Plot of permuted matrix pattern:", Marks::Entries),
        Form::Jumbled => (
            "Plot of (symmetrized) permuted matrix pattern:",
            Marks::BothPlaces,
        ),
    };
    let plot = Plot {
        matrix,
        marks,
        margin: margin(form),
        places: p,
    };
    write_plot(title, &plot, out)?;
    Ok(())
}

/// Writes what stands behind the plots: for a sorted matrix its exact factor under the ordering, or the line of failure
/// where there is none, and nothing for a jumbled one. Returns whether there was no failure.
fn print_end<W: Write, A: Allocator + Copy>(
    alloc: A,
    form: Form,
    matrix: &DemoMatrix,
    p: &[i32],
    told: &Info,
    out: &mut W,
) -> io::Result<bool>
    ensures ended { IfOk result (λ ended. ended ≡ true →
        HasEnd form matrix.now.n matrix.now.a_p.now matrix.now.a_i.now p.now told.now (W.contents out.old)
        (W.contents out.new)) }
    ensures failure { IfOk result (λ ended. ended ≡ false →
        Appends (W.contents out.old) (W.contents out.new) failure_line) }
{
    match form {
        Form::Sorted => print_exact(alloc, matrix, p, told, out),
        Form::Jumbled => Ok(true),
    }
}

/// Writes the record of an ordering; and where its status is the wanted one, its permutations, the permuted matrix and
/// what stands behind it, else the line of failure. Returns whether all was written.
fn print_ordering<W: Write, A: Allocator + Copy>(
    alloc: A,
    form: Form,
    matrix: &DemoMatrix,
    p: &[i32],
    p_inv: &[i32],
    told: &Info,
    out: &mut W,
) -> io::Result<bool>
    requires { IsOrdering matrix.now.n (pos 10000) true matrix.now.a_p.now matrix.now.a_i.now p.now p_inv.now told.now }
    ensures ordered { IfOk result (λ ordered. ordered ≡ true →
        HasDemo form matrix.now.n matrix.now.a_p.now matrix.now.a_i.now (W.contents out.old) (W.contents out.new)) }
    ensures failure { IfOk result (λ ordered. ordered ≡ false →
        EndsInFailure (W.contents out.old) (W.contents out.new)) }
{
    write_record(form, told, out)?;
    if told.status == wanted_status(form) {
        write_permutations(p, p_inv, out)?;
        write_permuted_plot(form, matrix, p, out)?;
        return print_end(alloc, form, matrix, p, told, out);
    }
    write_failure(out)?;
    Ok(false)
}

/// Writes a matrix, orders it, and writes the ordering, the permuted matrix and what stands behind it. The line of
/// failure comes where there is no ordering, its status is another, or there is no exact factor. Returns whether all
/// was written.
fn print_demo<W: Write, A: Allocator + Copy>(
    alloc: A,
    form: Form,
    matrix: &DemoMatrix,
    out: &mut W,
) -> io::Result<bool>
    ensures ordered { IfOk result (λ ordered. ordered ≡ true →
        HasDemo form matrix.now.n matrix.now.a_p.now matrix.now.a_i.now (W.contents out.old) (W.contents out.new)) }
    ensures failure { IfOk result (λ ordered. ordered ≡ false →
        EndsInFailure (W.contents out.old) (W.contents out.new)) }
{
    write_input(form, matrix, out)?;
    let n = matrix.n;
    match order(alloc, n, matrix.a_p, matrix.a_i, &Control::default()) {
        Ok((p, p_inv, told)) => print_ordering(alloc, form, matrix, &p, &p_inv, &told, out),
        Err(_) => {
            write_failure(out)?;
            Ok(false)
        }
    }
}

/// Writes a matrix, orders it, and writes the ordering and the permuted matrix; and for a sorted matrix the exact
/// factor under the ordering beside the bounds in the record. No memory is asked before it is ordered. Where there is
/// no ordering, the line `AMD failed` ends the text in place of the ordering; where the ordering has another status
/// than this form of a matrix is to have, that line comes after the record; and where memory is refused for the factor,
/// it comes in place of the factor. The result is the exit status: 0 where all was written, else 1. After a fault of
/// the writer nothing more is written.
///
/// The contract speaks of the status 0 alone: what a writer holds does not tell its faults. The contract of
/// `print_demo` tells the last line where there was no fault. What stands before the record, and between the
/// permutations and the factor, plots among it, is not said.
pub fn demo_to<W: Write, A: Allocator + Copy>(
    alloc: A,
    form: Form,
    matrix: &DemoMatrix,
    out: &mut W,
) -> u8
    ensures status { result ≤ 1 }
    ensures written { result ≡ 0 → HasDemo form matrix.now.n matrix.now.a_p.now matrix.now.a_i.now (W.contents out.old)
        (W.contents out.new) }
{
    match print_demo(alloc, form, matrix, out) {
        Ok(true) => 0,
        _ => 1,
    }
}
