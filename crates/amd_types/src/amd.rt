// The types that callers see: what they choose, what they are told, and how a call went. Names and fields are those of
// the Rust crate `amd`; `dense` is a whole number of thousandths.

ghost use Rattle.std.specs.Prelude.{◌≡◌, pos, false, true};
ghost use Rattle.amd_types.specs.Records.{fresh_info};
ghost use Rattle.amd_types.specs.declared.amd.Status.TheVariants.{OutOfMemory};

use std::alloc::{AllocError, AllocFailed};
use thiserror::Error;

/// What a caller chooses.
///
/// The default is 10000 thousandths and aggressive absorption.
///
/// Source: AMD user guide.
#[derive(Clone, Debug, Drop)]
pub struct Control {
    /// The dense row parameter in thousandths: a row with more than `max(16, dense / 1000 * sqrt(n))` edges is dense.
    /// Any number is allowed; a negative one makes only rows of degree `n - 1` dense, from `n = 18` on.
    pub dense: i32,
    /// Whether elements that lie inside a new one are absorbed by it although they do not hold the pivot.
    pub aggressive: bool,
}

impl Default for Control {
    ghost is_default = { λ r. (r.dense ≡ pos 10000) × (r.aggressive ≡ true) };

    fn default() -> Control {
        Control {
            dense: 10000,
            aggressive: true,
        }
    }
}

/// How a call went.
///
/// Source: AMD user guide.
#[derive(PartialEq, Clone, Debug, Drop, Error)]
pub enum Status {
    /// The input is a column form whose columns are strictly ascending; in the record of `order`, also any input with
    /// `n = 0`.
    #[error("the input is a column form")]
    OK,
    /// The input is no column form; `order` tells what that is.
    #[error("the input is no column form")]
    Invalid,
    /// The input is a column form in which some column is out of order or has a duplicate.
    #[error("the input is a column form with a column out of order or a duplicate")]
    OkButJumbled,
    /// Memory was refused, or the workspace would have more than `isize::MAX` words.
    #[error("memory was refused")]
    OutOfMemory,
}

impl From<AllocError> for Status {
    ghost from_gives = { λ _ r. r ≡ OutOfMemory };

    fn from(_: AllocError) -> Status {
        Status::OutOfMemory
    }
}

// What a refused `push`, `vec!` or box gives; the value that was not stored is dropped.
impl<T: Drop> From<AllocFailed<T>> for Status {
    ghost from_gives = { λ _ r. r ≡ OutOfMemory };

    fn from(_: AllocFailed<T>) -> Status {
        Status::from(AllocError)
    }
}

/// What the ordering tells beside the permutations.
///
/// Source: AMD user guide.
#[derive(Clone, Debug, Drop)]
pub struct Info {
    /// `OK` or `OkButJumbled`.
    pub status: Status,
    /// The number of rows and columns.
    pub n: usize,
    /// The number of entries of the pattern, without duplicates.
    pub nz: usize,
    /// Whether the pattern is its own transpose.
    pub symmetry: bool,
    /// The number of entries on the diagonal: at most `n`.
    pub nz_diag: usize,
    /// Twice the number of edges: the entries of the pattern of `A + A'` off the diagonal.
    pub nz_a_plus_at: usize,
    /// The number of rows held last: the dense ones, and those that a caller marks.
    pub n_dense: usize,
    /// How often the workspace was compacted: at most `n` times.
    pub n_cmp_a: usize,
    /// An upper bound on the entries of the factor `L` below the diagonal: at most `n (n - 1) / 2`. Where it is below
    /// `usize::MAX`, room for so many entries is enough. It and the next three fields saturate: one that is
    /// `usize::MAX` may be too small.
    pub lnz: usize,
    /// An upper bound on the divisions of a factorization, equal to `lnz`.
    pub n_div: usize,
    /// An upper bound on the multiply-subtract steps of a factorization `LDL'`.
    pub n_mult_subs_ldl: usize,
    /// An upper bound on the multiply-subtract steps of a factorization `LU`.
    pub n_mult_subs_lu: usize,
    /// The rows of the largest front: an upper bound on the entries of a column of the factor `L`, with its diagonal.
    /// It is in `1..=n` where there are rows.
    pub d_max: usize,
}

impl Info {
    /// The record of a matrix with `n` rows of which nothing is known yet.
    ///
    /// Any `n` is allowed. The status is `OK`, `symmetry` is false, and the other fields are 0.
    pub fn new(n: usize) -> Info
        ensures { result ≡ fresh_info n }
    {
        Info {
            status: Status::OK,
            n,
            nz: 0,
            symmetry: false,
            nz_diag: 0,
            nz_a_plus_at: 0,
            n_dense: 0,
            n_cmp_a: 0,
            lnz: 0,
            n_div: 0,
            n_mult_subs_ldl: 0,
            n_mult_subs_lu: 0,
            d_max: 0,
        }
    }
}
