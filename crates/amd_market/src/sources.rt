// What a file says of its matrix: its format, what the values are, and the symmetry. Source: the Matrix Market, the
// Harwell-Boeing and the Rutherford-Boeing exchange formats.

use crate::headers::{Header, Symmetry};

/// What the values of a Harwell-Boeing or a Rutherford-Boeing file are.
#[derive(Clone, Copy)]
pub enum Values {
    /// `R`
    Real,
    /// `C`
    Complex,
    /// `I`
    Integer,
    /// `P`: there are none.
    Pattern,
    /// `Q`: they are in another file.
    Elsewhere,
}

/// What the type of such a file says.
#[derive(Clone, Copy)]
pub struct Letters {
    /// What the values are.
    pub values: Values,
    /// What an entry says of its mirror image.
    pub symmetry: Symmetry,
}

/// What a file says of its matrix.
#[derive(Clone, Copy)]
pub enum Source {
    /// A file of the Matrix Market, with its first line.
    Market(Header),
    /// A Harwell-Boeing or a Rutherford-Boeing file, with its type.
    Boeing(Letters),
}
