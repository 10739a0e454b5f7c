// The records that cross to C, laid out as C lays them out, and the numbers of the statuses, which are those of
// SuiteSparse's AMD. `include/rimopaku.h` declares the same.

ghost use Rattle.std.specs.Prelude.{◌≡◌};
ghost use Rattle.amd_calls.specs.Numbers.{number_of, statistics_of};

use amd::{Control, Info, Status};

/// What a caller chooses.
#[derive(Drop)]
#[repr(C)]
pub struct Parameters {
    /// The dense row parameter in thousandths, as in `Control` of the crate `amd`. Any number is allowed.
    pub dense: i32,
    /// Whether absorption is aggressive, as in `Control`.
    pub aggressive: bool,
}

/// What an ordering tells beside the permutations: the fields of `Info` of the crate `amd` but for the status, which
/// the call returns.
///
/// Source: AMD user guide.
#[derive(Drop)]
#[repr(C)]
pub struct Statistics {
    /// Rows and columns.
    pub n: usize,
    /// Entries of the pattern, without duplicates.
    pub nz: usize,
    /// Whether the pattern is symmetric.
    pub symmetry: bool,
    /// Entries on the diagonal.
    pub nz_diag: usize,
    /// Entries of `A + A'` off the diagonal.
    pub nz_a_plus_at: usize,
    /// Rows held last, the dense and the marked ones.
    pub n_dense: usize,
    /// Compactions of the workspace.
    pub n_cmp_a: usize,
    /// What the factor needs at most.
    pub bounds: Bounds,
}

/// Upper bounds on what a factor needs, the last fields of what C knows as one record. The first four saturate: one
/// that is `usize::MAX` may be too small.
///
/// Source: AMD user guide.
#[derive(Drop)]
#[repr(C)]
pub struct Bounds {
    /// The entries of `L` below the diagonal.
    pub lnz: usize,
    /// The divisions.
    pub n_div: usize,
    /// The multiply-subtract steps of `LDL'`.
    pub n_mult_subs_ldl: usize,
    /// Those of `LU`.
    pub n_mult_subs_lu: usize,
    /// The entries of a column of `L`, with its diagonal.
    pub d_max: usize,
}

/// What a factor needs: sums over its columns, and the largest of them. They saturate: one that is `usize::MAX` may be
/// too small.
///
/// Source: AMD user guide (the figures of `Info`).
#[derive(Drop)]
#[repr(C)]
pub struct SaturatedNeed {
    /// The entries below the diagonal, and so the divisions of a factorization.
    pub lnz: usize,
    /// The multiply-subtract steps of a factorization `LDL'`.
    pub n_mult_subs_ldl: usize,
    /// The multiply-subtract steps of a factorization `LU`.
    pub n_mult_subs_lu: usize,
    /// The entries of the largest column, with that on the diagonal; 0 where there are no columns.
    pub d_max: usize,
}

/// How much room the supernodes of a factor need.
#[derive(Drop)]
#[repr(C)]
pub struct SupernodeSizes {
    /// The number of supernodes.
    pub supernodes: usize,
    /// The number of rows below their blocks.
    pub rows: usize,
}

/// The statistics of a record: its fields but for the status.
pub fn statistics_of(info: &Info) -> Statistics
    ensures { result ≡ statistics_of info.now }
{
    Statistics {
        n: info.n,
        nz: info.nz,
        symmetry: info.symmetry,
        nz_diag: info.nz_diag,
        nz_a_plus_at: info.nz_a_plus_at,
        n_dense: info.n_dense,
        n_cmp_a: info.n_cmp_a,
        bounds: Bounds {
            lnz: info.lnz,
            n_div: info.n_div,
            n_mult_subs_ldl: info.n_mult_subs_ldl,
            n_mult_subs_lu: info.n_mult_subs_lu,
            d_max: info.d_max,
        },
    }
}

/// The number of a status: 0 for `OK`, 1 for `OkButJumbled`, -1 for `OutOfMemory` and -2 for `Invalid`.
///
/// Source: AMD user guide.
pub fn number_of(status: &Status) -> i32
    ensures { result ≡ number_of status.now }
{
    match status {
        Status::OK => 0,
        Status::OkButJumbled => 1,
        Status::OutOfMemory => -1,
        Status::Invalid => -2,
    }
}

/// What a caller chooses, as the crate `amd` takes it.
pub fn control_of(parameters: &Parameters) -> Control
    ensures dense { result.dense ≡ parameters.now.dense }
    ensures aggressive { result.aggressive ≡ parameters.now.aggressive }
{
    Control {
        dense: parameters.dense,
        aggressive: parameters.aggressive,
    }
}

/// Writes what an ordering tells, and returns the number of its status.
pub fn tell(info: &Info, statistics: &mut Statistics) -> i32
    ensures number { result ≡ number_of info.now.status }
    ensures told { statistics.new ≡ statistics_of info.now }
{
    *statistics = statistics_of(info);
    number_of(&info.status)
}
