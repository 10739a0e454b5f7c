// The text of what a caller chooses, after the AMD user guide, with the parameter in thousandths. It goes to the writer
// in pieces, and no memory is asked.

ghost use Rattle.std.specs.Prelude.{◌≡◌, ◌<◌, OnOk};
ghost use Rattle.std.specs.Io.KnownBytes.{Appends};
ghost use Rattle.amd_texts.specs.Texts.{absorption_line, control_text, dense_lines, fraction, parameter_line};
ghost use Rattle.amd_texts.specs.Texts.{thousandths, threshold_lines};

use amd_types::amd::Control;
use std::io;
use std::io::Write;

/// Writes a point and the digits of `rest` thousandths without zeros at the end, and nothing for 0.
fn write_fraction<W: Write>(rest: u32, out: &mut W) -> io::Result<()>
    requires { rest < 1000 }
    ensures { OnOk result (Appends (W.contents out.old) (W.contents out.new) (fraction rest)) }
{
    let digits = [
        b'.',
        b'0' + (rest / 100) as u8,
        b'0' + (rest / 10 % 10) as u8,
        b'0' + (rest % 10) as u8,
    ];
    let shown = if rest == 0 {
        0
    } else if rest % 100 == 0 {
        2
    } else if rest % 10 == 0 {
        3
    } else {
        4
    };
    out.write_all(&digits[..shown])
}

/// Writes a number of thousandths as a decimal fraction.
fn write_thousandths<W: Write>(control: &Control, out: &mut W) -> io::Result<()>
    ensures { OnOk result (Appends (W.contents out.old) (W.contents out.new) (thousandths control.now.dense)) }
{
    let sign = if control.dense < 0 { "-" } else { "" };
    let size = control.dense.unsigned_abs();
    let whole = size / 1000;
    write!(out, "{sign}{whole}")?;
    write_fraction(size % 1000, out)?;
    Ok(())
}

/// Writes the line of the dense row parameter.
fn write_parameter<W: Write>(control: &Control, out: &mut W) -> io::Result<()>
    ensures { OnOk result (Appends (W.contents out.old) (W.contents out.new) (parameter_line control.now.dense)) }
{
    out.write_all(b"    dense row parameter: ")?;
    write_thousandths(control, out)?;
    out.write_all(b"\n")?;
    Ok(())
}

/// Writes how many entries a row may have.
fn write_threshold<W: Write>(control: &Control, out: &mut W) -> io::Result<()>
    ensures { OnOk result (Appends (W.contents out.old) (W.contents out.new) (threshold_lines control.now.dense)) }
{
    out.write_all(b"    (rows with more than max (")?;
    write_thousandths(control, out)?;
    out.write_all(b" * sqrt(n), 16) entries are\n")?;
    out.write_all(b"    considered \"dense\", and placed last in output permutation)\n")?;
    Ok(())
}

/// Writes which rows are dense.
fn write_dense_rows<W: Write>(control: &Control, out: &mut W) -> io::Result<()>
    ensures { OnOk result (Appends (W.contents out.old) (W.contents out.new) (dense_lines control.now.dense)) }
{
    if control.dense < 0 {
        out.write_all(b"    no rows treated as dense\n")?;
    } else {
        write_threshold(control, out)?;
    }
    Ok(())
}

/// Writes whether elements are absorbed aggressively.
fn write_absorption<W: Write>(control: &Control, out: &mut W) -> io::Result<()>
    ensures { OnOk result (Appends (W.contents out.old) (W.contents out.new) (absorption_line control.now.aggressive)) }
{
    if control.aggressive {
        out.write_all(b"    aggressive absorption:  yes\n")?;
    } else {
        out.write_all(b"    aggressive absorption:  no\n")?;
    }
    Ok(())
}

/// Writes what a caller chooses, as five or six lines between two empty ones: a title, the dense row parameter, which
/// rows are dense, whether absorption is aggressive, and the bytes of a number. The parameter is a decimal fraction of
/// as many places as it needs: `10` for 10000 thousandths, `-0.5` for -500. Any record is written as it is.
///
/// # Errors
///
/// The writer's, of the first write that fails. What was written before stays written.
///
/// Source: AMD user guide.
pub fn control<W: Write>(control: &Control, out: &mut W) -> io::Result<()>
    ensures { OnOk result (Appends (W.contents out.old) (W.contents out.new) (control_text control.now)) }
{
    out.write_all(b"\nAMD: approximate minimum degree ordering\n")?;
    write_parameter(control, out)?;
    write_dense_rows(control, out)?;
    write_absorption(control, out)?;
    out.write_all(b"    size of AMD integer: 8\n\n")?;
    Ok(())
}
