// What stands in a line that is at fault: its beginning, or that of the word that is wrong, for the message.

use crate::faults::ReadFault;
use amd_lines::words::first_word;
use std::fmt;

/// How many bytes are shown at most.
const SHOWN: usize = 40;

/// The beginning of a text.
#[derive(Clone, Copy, Debug, Drop)]
pub struct Found {
    bytes: [u8; SHOWN],
    count: usize,
    is_whole: bool,
}

impl Found {
    /// The beginning of a text, without the white space around it; `None` where nothing is left.
    fn of(text: &[u8]) -> Option<Found> {
        let text = text.trim_ascii();
        let count = text.len().min(SHOWN);
        if count == 0 {
            return None;
        }
        let mut bytes = [0; SHOWN];
        bytes[..count].copy_from_slice(&text[..count]);
        Some(Found {
            bytes,
            count,
            is_whole: count == text.len(),
        })
    }
}

/// What stands behind so many words of a line.
fn behind_words(line: &[u8], count: usize) -> &[u8] {
    let mut left = line;
    'words: for _done in 0..count {
        match first_word(left) {
            None => return left,
            Some((_, rest)) => left = rest,
        }
    }
    left
}

/// The word of a line behind so many others.
fn word_behind(line: &[u8], count: usize) -> &[u8] {
    match first_word(behind_words(line, count)) {
        None => &[],
        Some((word, _)) => word,
    }
}

/// What the message about a fault of a line shows of it; nothing where its words tell the numbers that are wrong.
pub(crate) fn found_in(line: &[u8], fault: ReadFault) -> Option<Found> {
    match fault {
        ReadFault::Object => Found::of(word_behind(line, 1)),
        ReadFault::Format => Found::of(word_behind(line, 2)),
        ReadFault::Field => Found::of(word_behind(line, 3)),
        ReadFault::Symmetry => Found::of(behind_words(line, 4)),
        ReadFault::Banner
        | ReadFault::Comment
        | ReadFault::Size
        | ReadFault::Shape
        | ReadFault::Entry
        | ReadFault::NoValue
        | ReadFault::Words
        | ReadFault::Value
        | ReadFault::Cell
        | ReadFault::Held
        | ReadFault::More { .. }
        | ReadFault::MorePlaces
        | ReadFault::Kind
        | ReadFault::Layout
        | ReadFault::Number => Found::of(line),
        _ => None,
    }
}

// Bytes that do not print are shown as question marks, and a text that goes on ends in dots.
impl fmt::Display for Found {
    fn fmt<W: fmt::Write>(&self, f: &mut fmt::Formatter<W>) -> fmt::Result {
        for byte in self.bytes.iter().take(self.count) {
            let shown = if matches!(*byte, b' '..=b'~') {
                *byte
            } else {
                b'?'
            };
            f.write_char(char::from(shown))?;
        }
        f.write_str(if self.is_whole { "" } else { "..." })
    }
}
