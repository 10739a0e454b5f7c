// What is wrong with a line of a file, and how a message says it; and the error of a reader, with the line's number.

ghost use Rattle.std.specs.Prelude.{◌≡◌};
ghost use Rattle.amd_market.specs.Faults.{read_error};
ghost use Rattle.amd_market.specs.declared.faults.ReadFault.TheVariants.{OutOfMemory};

use crate::found::Found;
use amd_lines::errors::{LineCause, LineError};
use std::alloc::AllocFailed;
use std::{fmt, io};

/// What is wrong with a line.
#[derive(Clone, Copy, PartialEq, Debug, Drop)]
pub enum ReadFault {
    /// The file is empty.
    Empty,
    /// The file is compressed by gzip.
    Gzip,
    /// The first line does not begin with `%%MatrixMarket`, and the second one is not that of a Harwell-Boeing file.
    Banner,
    /// The first line is a comment or blank, and the second one is not that of a Harwell-Boeing file.
    Comment,
    /// The second word of the first line is not `matrix`.
    Object,
    /// The third word of the first line is no format.
    Format,
    /// The fourth word of the first line is no field.
    Field,
    /// The fifth word of the first line is no symmetry, or there is a sixth.
    Symmetry,
    /// An array has the field `pattern`: no line would have a word.
    Void,
    /// The line of the size is not three numbers, or there is none.
    Size,
    /// The line of an array's size is not two numbers, or there is none.
    Shape,
    /// There are not as many rows as columns.
    NotSquare {
        /// The number of rows.
        rows: usize,
        /// The number of columns.
        columns: usize,
    },
    /// The line has no numbers of a row and a column.
    Entry,
    /// The number of the row is out of range.
    Row {
        /// The number.
        number: i64,
        /// The number of rows.
        rows: usize,
    },
    /// The number of the column is out of range.
    Column {
        /// The number.
        number: i64,
        /// The number of columns.
        columns: usize,
    },
    /// The line of an entry has fewer words than the header tells.
    NoValue,
    /// The line of an entry has more words than the header tells.
    Words,
    /// The value of an entry is no number.
    Value,
    /// The line of a value of an array has fewer or more words than a value.
    Cell,
    /// The line of a list of rows is no number of a row alone.
    Held,
    /// The input ends before the last entry.
    Missing {
        /// The entries that were read.
        found: usize,
        /// The entries that the size tells.
        told: usize,
    },
    /// An entry stands behind the last one.
    More {
        /// The entries that the size tells.
        told: usize,
    },
    /// The input ends before the value at a place of an array.
    NoPlace {
        /// The row of the place, from 1 on.
        row: usize,
        /// The column of the place, from 1 on.
        column: usize,
    },
    /// A value stands behind the last place of an array.
    MorePlaces,
    /// The third line of a Harwell-Boeing file has no type, or no numbers of rows, columns and entries behind it.
    Kind,
    /// The matrix of a Harwell-Boeing file is not assembled.
    Elemental,
    /// The fourth line of a Harwell-Boeing file does not begin with two formats of whole numbers.
    Layout,
    /// A field of a line of pointers or of rows has no number, or more than one word.
    Number,
    /// A pointer is out of range.
    Pointer {
        /// The number.
        number: i64,
        /// The greatest pointer that the third line allows.
        last: usize,
    },
    /// The pointers do not rise from 1 to one more than the number of entries.
    Pointers,
    /// A Harwell-Boeing file ends before its last row.
    Short,
    /// The line has more bytes than a line may have.
    Long,
    /// There are more lines than 64 bits count.
    Lines,
    /// Memory was refused.
    OutOfMemory,
}

impl ReadFault {
    /// The fault in words, without its numbers, where it is one of a first line.
    fn header_text(self) -> Option<&'static str> {
        match self {
            ReadFault::Empty => Some("the file is empty"),
            ReadFault::Gzip => Some("the file is compressed"),
            ReadFault::Banner => Some(
                "this is neither a Matrix Market file, which begins with %%MatrixMarket, nor a Harwell-Boeing file",
            ),
            ReadFault::Comment => Some(
                "the first line must begin with %%MatrixMarket: put comments and blank lines behind it",
            ),
            ReadFault::Object => Some("the second word of the first line is not matrix"),
            ReadFault::Format => Some(
                "the third word of the first line is not coordinate or array",
            ),
            ReadFault::Field => Some(
                "the fourth word is none of real, double, integer, unsigned-integer, complex, pattern",
            ),
            ReadFault::Symmetry => Some(
                "the last word is none of general, symmetric, skew-symmetric, hermitian, or not the fifth",
            ),
            ReadFault::Void => {
                Some("an array has values, and cannot be of pattern: write the field of its values")
            }
            _ => None,
        }
    }

    /// The fault in words, without its numbers, where it is one of a Harwell-Boeing file.
    fn boeing_text(self) -> Option<&'static str> {
        match self {
            ReadFault::Kind => Some(
                "in a Harwell-Boeing file here must stand a type such as RUA, and the numbers of \
                rows, columns and entries",
            ),
            ReadFault::Elemental => {
                Some("the matrix is not assembled (its type ends in E): assemble it first")
            }
            ReadFault::Layout => Some(
                "in a Harwell-Boeing file here must stand the formats of pointers and rows, such as (16I5) or (4(4I5))",
            ),
            ReadFault::Number => Some(
                "here must stand numbers, as the formats of the fourth line tell",
            ),
            ReadFault::Pointer { .. } => Some("the pointer is out of range"),
            ReadFault::Pointers => {
                Some("the pointers do not rise from 1 to one more than the number of entries")
            }
            ReadFault::Short => Some("the file ends before its last row"),
            _ => None,
        }
    }

    /// The fault in words, without its numbers, where it is one of any other line.
    fn entry_text(self) -> &'static str {
        match self {
            ReadFault::Size => "here must stand the numbers of rows, columns and entries",
            ReadFault::Shape => "here must stand the numbers of rows and columns of the array",
            ReadFault::NotSquare { .. } => "the matrix is not square",
            ReadFault::Entry => "here must stand the numbers of a row and a column",
            ReadFault::Row { .. } => "the row is out of range",
            ReadFault::Column { .. } => "the column is out of range",
            ReadFault::NoValue => {
                "the value is missing: write it, or pattern in the first line if no entry has one"
            }
            ReadFault::Words => {
                "more words than the header tells of: a pattern has no values, and a comment a line of its own"
            }
            ReadFault::Value => "the value is no number",
            ReadFault::Cell => {
                "an array has a line for each value, column by column: write one number there, of complex two"
            }
            ReadFault::Held => "here must stand the number of a row, alone",
            ReadFault::Missing { .. } => "the file ends too early",
            ReadFault::More { .. } => "more entries than the size tells",
            ReadFault::NoPlace { .. } => "the file ends too early: the next value would be that",
            ReadFault::MorePlaces => "more values than the array has places",
            ReadFault::Long => "the line has more than 65536 bytes",
            ReadFault::Lines => "too many lines",
            _ => "out of memory",
        }
    }

    /// The fault in words, without its numbers.
    fn text(self) -> &'static str {
        match self.header_text() {
            Some(text) => text,
            None => self.boeing_text().unwrap_or(self.entry_text()),
        }
    }
}

/// Writes a number that is out of range, and the range.
fn write_range<W: fmt::Write>(
    f: &mut fmt::Formatter<W>,
    number: i64,
    what: &str,
    last: usize,
) -> fmt::Result {
    if number == 0 && last > 0 {
        write!(f, ": 0, of {what} 1 to {last}; they count from 1")
    } else {
        write!(f, ": {number}, of {what} 1 to {last}")
    }
}

impl fmt::Display for ReadFault {
    fn fmt<W: fmt::Write>(&self, f: &mut fmt::Formatter<W>) -> fmt::Result {
        f.write_str(self.text())?;
        match self {
            ReadFault::NotSquare { rows, columns } => write!(f, ": {rows} rows, {columns} columns"),
            ReadFault::Row { number, rows } => write_range(f, *number, "rows", *rows),
            ReadFault::Column { number, columns } => write_range(f, *number, "columns", *columns),
            ReadFault::Pointer { number, last } => write_range(f, *number, "pointers", *last),
            ReadFault::Missing { found, told } => write!(f, ": {found} entries of {told}"),
            ReadFault::More { told } => write!(f, ": {told}"),
            ReadFault::NoPlace { row, column } => write!(f, " of row {row}, column {column}"),
            _ => Ok(()),
        }
    }
}

impl std::error::Error for ReadFault {}

impl<T: Drop> From<AllocFailed<T>> for ReadFault {
    ghost from_gives = { λ _ e. e ≡ OutOfMemory };

    fn from(_: AllocFailed<T>) -> ReadFault {
        ReadFault::OutOfMemory
    }
}

/// Why there is no matrix.
#[derive(Debug, Drop)]
pub enum ReadError {
    /// A line is at fault; lines count from 1.
    Line {
        /// The number of the line; where the input ends too early, that of the last line.
        line: u64,
        /// What is wrong with it.
        fault: ReadFault,
        /// What stands in the line, where the fault does not tell.
        found: Option<Found>,
    },
    /// The input could not be read.
    Input {
        /// The number of the last line that was read.
        line: u64,
        /// What the input answered.
        error: io::Error,
    },
}

impl From<LineError> for ReadError {
    ghost from_gives = { λ unread e. e ≡ read_error unread.line unread.cause };

    fn from(unread: LineError) -> ReadError {
        let LineError { line, cause } = unread;
        let fault = match cause {
            LineCause::Input(error) => return ReadError::Input { line, error },
            LineCause::Long => ReadFault::Long,
            LineCause::Lines => ReadFault::Lines,
            LineCause::OutOfMemory => ReadFault::OutOfMemory,
        };
        ReadError::Line {
            line,
            fault,
            found: None,
        }
    }
}

impl fmt::Display for ReadError {
    fn fmt<W: fmt::Write>(&self, f: &mut fmt::Formatter<W>) -> fmt::Result {
        match self {
            ReadError::Line { line: 0, fault, .. } => write!(f, "{fault}"),
            ReadError::Line {
                line,
                fault,
                found: None,
            } => write!(f, "line {line}: {fault}"),
            ReadError::Line {
                line,
                fault,
                found: Some(found),
            } => write!(f, "line {line}: {fault}, found: {found}"),
            ReadError::Input { line: 0, error } => write!(f, "{error}"),
            ReadError::Input { line, error } => write!(f, "behind line {line}: {error}"),
        }
    }
}

impl std::error::Error for ReadError {}
