// The record of an ordering as a list of its numbers, so that a test compares all of them at once.

use amd_types::amd::Info;

/// The numbers of a record, in the order of its fields.
pub fn numbers_of(info: &Info) -> [usize; 11] {
    [
        info.n,
        info.nz,
        info.nz_diag,
        info.nz_a_plus_at,
        info.n_dense,
        info.n_cmp_a,
        info.lnz,
        info.n_div,
        info.n_mult_subs_ldl,
        info.n_mult_subs_lu,
        info.d_max,
    ]
}
