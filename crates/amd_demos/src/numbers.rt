// Lists of numbers, as the Rust crate's demos print them.

ghost use Rattle.std.specs.Prelude.{OnOk};
ghost use Rattle.std.specs.Io.KnownBytes.{Appends};
ghost use Rattle.amd_demos.specs.Lines.{each_of, list_line, parted, vector_lines};

use std::io;
use std::io::Write;

/// Writes each number, with `before` in front of it.
pub fn write_each<W: Write>(before: &str, numbers: &[i32], out: &mut W) -> io::Result<()>
    ensures { OnOk result (Appends (W.contents out.old) (W.contents out.new) (each_of before.now numbers.now)) }
{
    for &number in numbers {
        write!(out, "{before}{number}")?;
    }
    Ok(())
}

/// Writes numbers parted by commas.
fn write_parted<W: Write>(numbers: &[i32], out: &mut W) -> io::Result<()>
    ensures { OnOk result (Appends (W.contents out.old) (W.contents out.new) (parted numbers.now)) }
{
    let Some((&first, rest)) = numbers.split_first() else {
        return Ok(());
    };
    write!(out, "{first}")?;
    write_each(", ", rest, out)?;
    Ok(())
}

/// Writes a line of a name and a list in brackets.
pub fn write_list<W: Write>(name: &str, numbers: &[i32], out: &mut W) -> io::Result<()>
    ensures { OnOk result (Appends (W.contents out.old) (W.contents out.new) (list_line name.now numbers.now)) }
{
    write!(out, "{name} = [")?;
    write_parted(numbers, out)?;
    out.write_all(b"]\n")?;
    Ok(())
}

/// Writes a title, a line with a space before each number, and an empty line.
pub fn write_vector<W: Write>(title: &str, numbers: &[i32], out: &mut W) -> io::Result<()>
    ensures { OnOk result (Appends (W.contents out.old) (W.contents out.new) (vector_lines title.now numbers.now)) }
{
    writeln!(out, "{title}")?;
    write_each(" ", numbers, out)?;
    out.write_all(b"\n\n")?;
    Ok(())
}
