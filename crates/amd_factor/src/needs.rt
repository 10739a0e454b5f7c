// What the exact factor needs: the figures of the AMD user guide, summed over the columns of the factor and never cut.

ghost use Rattle.std.specs.Prelude.{◌≡◌, ◌≤◌, ◌<◌, ◌+◌, ◌*◌, ◌/◌, ◌^◌, List, ℕ, length, max, slice_index};
ghost use Rattle.amd_factor.specs.Needs.{IsNeed, IsSmall, TellSizes};

/// What a factor needs: exact sums over its columns, and the largest of them.
#[derive(Clone, Copy)]
pub struct Need {
    /// The entries below the diagonal.
    pub lnz: u128,
    /// The multiply-subtract steps of a factorization `LDL'`.
    pub n_mult_subs_ldl: u128,
    /// The multiply-subtract steps of a factorization `LU`.
    pub n_mult_subs_lu: u128,
    /// The entries of the largest column, with that on the diagonal; 0 where there are no columns.
    pub d_max: u128,
}

/// How many entries column `k` has, by where the columns begin and end: `ptr[k + 1] - ptr[k]`.
///
/// `k + 1 < ptr.len()`, and the two pointers are ascending: `ptr[k] <= ptr[k + 1]`.
///
/// Source: AMD user guide (compressed column form).
pub fn column_size(ptr: &[usize], k: usize) -> usize
    requires within { k + 1 < length ptr.now }
    requires ascending { slice_index ptr.now k ≤ slice_index ptr.now (k + 1) }
    ensures { slice_index ptr.now k + result ≡ slice_index ptr.now (k + 1) }
{
    ptr[k + 1] - ptr[k]
}

/// What a factor with one column more needs.
fn with_column(need: Need, size: usize) -> Need
    requires room { need.lnz + size < 2 ^ 64 }
    requires small { IsSmall need }
    ensures lnz { result.lnz ≡ need.lnz + size }
    ensures ldl { result.n_mult_subs_ldl ≡ need.n_mult_subs_ldl + size * (size + 1) / 2 }
    ensures lu { result.n_mult_subs_lu ≡ need.n_mult_subs_lu + size * size }
    ensures greatest { result.d_max ≡ max need.d_max (size + 1) }
    ensures small { IsSmall result }
{
    let size = size as u128;
    Need {
        lnz: need.lnz + size,
        n_mult_subs_ldl: need.n_mult_subs_ldl + size * (size + 1) / 2,
        n_mult_subs_lu: need.n_mult_subs_lu + size * size,
        d_max: need.d_max.max(size + 1),
    }
}

/// What a factor needs, by where its columns begin and end.
///
/// `ptr` is as that of a factor: it has a pointer more than there are columns, so it is not empty; it starts at 0; and
/// it is ascending, with two equal neighbours where a column is empty. No sum is cut: `lnz` is the last pointer, and
/// neither number of steps exceeds its square.
///
/// Source: AMD user guide (the figures of `Info`).
pub fn need_of(ptr: &[usize]) -> Need
    requires { (columns : List (List ℕ)) × TellSizes columns ptr.now }
    ensures { (columns : List (List ℕ)) → TellSizes columns ptr.now → IsNeed columns result }
{
    let mut need = Need {
        lnz: 0,
        n_mult_subs_ldl: 0,
        n_mult_subs_lu: 0,
        d_max: 0,
    };
    'columns: for k in 0..ptr.len() - 1 {
        need = with_column(need, column_size(ptr, k));
    }
    need
}
