// Why a run ends early, and the exit status of that: 1 where memory was refused or an output failed, 2 where an
// argument or an input is wrong, and 3 where the picture alone failed.

ghost use Rattle.amd_cli.specs.Causes.{exit_status};
ghost use Rattle.std.specs.Prelude.{◌≡◌, ◌≤◌};

use crate::list_faults::ListFault;
use crate::order_faults::OrderFault;
use amd_market::faults::{ReadError, ReadFault};
use amd_types::amd::Status;
use std::alloc::{AllocError, AllocFailed};
use std::io;
use thiserror::Error;

/// What should justify the rows of a matrix.
#[derive(Clone, Copy, Debug, Drop, Error)]
pub enum Source {
    /// The bytes of its file.
    #[error("bytes")]
    Bytes,
    /// Its entries, where it comes by a pipe.
    #[error("entries")]
    Entries,
}

/// Why a run ends early.
#[derive(Debug, Drop, Error)]
pub enum Cause {
    /// The dense row parameter is wrong.
    #[error("must be a decimal number with up to three places, such as 10 or 2.5, from -2147483.648 to 2147483.647")]
    Dense,
    /// A file could not be opened.
    #[error("cannot be opened: {0}")]
    Open(io::Error),
    /// A folder is named where a file must be.
    #[error("is a folder: name a file")]
    Folder,
    /// An output is a file that the run reads, or writes besides.
    #[error("is named twice: an output must be a file of its own")]
    Twice,
    /// Standard input is to be read more than once.
    #[error("standard input is named twice: only one of the files to read can be -")]
    StandardInput,
    /// A text is wrong, or could not be read.
    #[error("{0}")]
    Text(ReadError),
    /// The pattern is no column form.
    #[error("no column form")]
    Form,
    /// A list of rows, or of places, is no order of them.
    #[error("no order of the rows: {0}")]
    Order(OrderFault),
    /// A list of numbers tells no order.
    #[error("{0}")]
    List(ListFault),
    /// A file asks for much more memory than its entries justify.
    #[error("tells of {rows} rows, which take {gibibytes} GiB or more, in fewer {source}: give --yes or --memory to go on")]
    Large {
        /// The rows that it tells of.
        rows: u64,
        /// The memory.
        gibibytes: u64,
        /// What should justify them.
        source: Source,
    },
    /// The limit of the memory is no number of bytes.
    #[error("must be a number of bytes, or of K, M or G, which are 1024 times as many, such as 800M or 2G")]
    LimitWord,
    /// A run would take more memory than it may.
    #[error("would take about {mebibytes} MiB, more than --memory allows")]
    Limit {
        /// The memory that it would take.
        mebibytes: u64,
    },
    /// Memory was refused.
    #[error("out of memory")]
    Memory,
    /// Something could not be written.
    #[error("cannot be written: {0}")]
    Write(io::Error),
    /// The picture could not be drawn or written, though all else was.
    #[error("the picture cannot be written: {0}")]
    Picture(io::Error),
}

impl Cause {
    /// The exit status: 1 where memory was refused or an output failed, 2 where an argument or an input is wrong, and 3
    /// where the picture alone failed.
    pub fn exit_status(&self) -> u8
        ensures status { result ≡ exit_status self.now }
        ensures most { result ≤ 3 }
    {
        match self {
            Cause::Dense | Cause::LimitWord | Cause::Open(_) | Cause::Folder | Cause::Twice => 2,
            Cause::StandardInput | Cause::Form | Cause::Order(_) | Cause::List(_) => 2,
            Cause::Large { .. } => 2,
            Cause::Text(ReadError::Line { fault, .. }) => {
                if matches!(fault, ReadFault::OutOfMemory) {
                    1
                } else {
                    2
                }
            }
            Cause::Text(ReadError::Input { .. }) => 2,
            Cause::Memory | Cause::Limit { .. } | Cause::Write(_) => 1,
            Cause::Picture(_) => 3,
        }
    }

    /// Whether the run ends without a message: what reads its output has gone.
    pub fn is_quiet(&self) -> bool {
        match self {
            Cause::Write(error) => error.kind() == io::ErrorKind::BrokenPipe,
            _ => false,
        }
    }

    /// The cause where it was the picture that failed for this one.
    pub fn at_picture(self) -> Cause
        ensures { exit_status result ≡ 3 }
    {
        match self {
            Cause::Write(error) | Cause::Open(error) | Cause::Picture(error) => {
                Cause::Picture(error)
            }
            Cause::Memory | Cause::Limit { .. } => {
                Cause::Picture(io::Error::from(io::ErrorKind::OutOfMemory))
            }
            Cause::Folder => Cause::Picture(io::Error::from(io::ErrorKind::IsADirectory)),
            Cause::Dense | Cause::LimitWord | Cause::Twice | Cause::StandardInput => {
                Cause::Picture(io::Error::from(io::ErrorKind::InvalidInput))
            }
            Cause::Text(_) => Cause::Picture(io::Error::from(io::ErrorKind::InvalidInput)),
            Cause::Form | Cause::Order(_) | Cause::List(_) | Cause::Large { .. } => {
                Cause::Picture(io::Error::from(io::ErrorKind::InvalidInput))
            }
        }
    }
}

impl From<Status> for Cause {
    fn from(status: Status) -> Cause {
        match status {
            Status::OutOfMemory => Cause::Memory,
            Status::Invalid | Status::OK | Status::OkButJumbled => Cause::Form,
        }
    }
}

impl From<AllocError> for Cause {
    fn from(_: AllocError) -> Cause {
        Cause::Memory
    }
}

impl<T: Drop> From<AllocFailed<T>> for Cause {
    fn from(_: AllocFailed<T>) -> Cause {
        Cause::Memory
    }
}

// What a refused buffer, or an output that failed, gives.
impl From<io::Error> for Cause {
    fn from(error: io::Error) -> Cause {
        if error.kind() == io::ErrorKind::OutOfMemory {
            Cause::Memory
        } else {
            Cause::Write(error)
        }
    }
}
