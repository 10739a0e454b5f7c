// What is wrong with a list whose lines are numbers, but tell no order.

use thiserror::Error;

/// What is wrong with a list of numbers.
#[derive(Clone, Copy, Debug, Drop, Error)]
pub enum ListFault {
    /// A line has two numbers where the others have one.
    #[error("line {line}: here must stand one number, as in the lines before")]
    Single {
        /// The line.
        line: u64,
    },
    /// A line behind the first one does not have the next vertex and its place.
    #[error("line {line}: here must stand vertex {wanted} and its place")]
    Vertex {
        /// The line.
        line: u64,
        /// The next vertex.
        wanted: usize,
    },
    /// The first line does not tell how many vertices follow.
    #[error("line {line}: here must stand how many vertices follow: {found}")]
    Count {
        /// The line.
        line: u64,
        /// How many follow.
        found: usize,
    },
    /// A number is out of range, by what the list counts from.
    #[error("line {line}: {number} is out of range: the list counts from {base}")]
    Past {
        /// The line.
        line: u64,
        /// The number.
        number: usize,
        /// What the list counts from.
        base: usize,
    },
}
