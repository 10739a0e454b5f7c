// Why the next line of a text was not read.

use std::{fmt, io};

/// What kept a line from being read.
#[derive(Debug, Drop)]
pub enum LineCause {
    /// It has more bytes than a line may have.
    Long,
    /// There are more lines than 64 bits count.
    Lines,
    /// Memory was refused.
    OutOfMemory,
    /// The input could not be read.
    Input(io::Error),
}

impl fmt::Display for LineCause {
    fn fmt<W: fmt::Write>(&self, f: &mut fmt::Formatter<W>) -> fmt::Result {
        match self {
            LineCause::Long => f.write_str("a line that is too long"),
            LineCause::Lines => f.write_str("too many lines"),
            LineCause::OutOfMemory => f.write_str("out of memory"),
            LineCause::Input(error) => write!(f, "{error}"),
        }
    }
}

impl std::error::Error for LineCause {}

/// A line that was not read.
#[derive(Debug, Drop)]
pub struct LineError {
    /// The number of the line that is too long; else that of the last line that was read.
    pub line: u64,
    /// What kept it from being read.
    pub cause: LineCause,
}

impl LineError {
    /// Whether the input could not be read.
    fn is_input(&self) -> bool {
        matches!(self.cause, LineCause::Input(_))
    }
}

impl fmt::Display for LineError {
    fn fmt<W: fmt::Write>(&self, f: &mut fmt::Formatter<W>) -> fmt::Result {
        if self.line > 0 {
            let place = if self.is_input() { "behind " } else { "" };
            write!(f, "{place}line {}: ", self.line)?;
        }
        write!(f, "{}", self.cause)
    }
}

impl std::error::Error for LineError {}
