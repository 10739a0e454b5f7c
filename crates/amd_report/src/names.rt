// The name of a file in the legend of a picture, and the endings of words that stand after a number.

ghost use Rattle.std.specs.Prelude.{OnOk};
ghost use Rattle.amd_texts.specs.Writers.{HasTold};

use std::io;
use std::io::Write;

/// Writes a character of a name, as it stands in the text of an SVG.
fn write_character<W: Write>(character: char, out: &mut W) -> io::Result<()>
    ensures { OnOk result (HasTold (W.contents out.old) (W.contents out.new)) }
{
    match character {
        '&' => out.write_all(b"&amp;")?,
        '<' => out.write_all(b"&lt;")?,
        '>' => out.write_all(b"&gt;")?,
        ' '..='\u{7e}' | '\u{a0}'..='\u{fffd}' | '\u{10000}'..='\u{10ffff}' => {
            write!(out, "{character}")?
        }
        _ => out.write_all(b"?")?,
    }
    Ok(())
}

/// Writes a name, as it stands in the text of an SVG: a control character is shown as `?`.
pub fn write_name<W: Write>(name: &str, out: &mut W) -> io::Result<()>
    ensures { OnOk result (HasTold (W.contents out.old) (W.contents out.new)) }
{
    'characters: for character in name.chars() {
        write_character(character, out)?;
    }
    Ok(())
}

/// The ending of a word for so many: nothing for one.
pub fn plural(count: u128) -> &'static str {
    if count == 1 { "" } else { "s" }
}
