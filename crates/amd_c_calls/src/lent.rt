// What a caller lends for an elimination of lists that are laid: the lists, and the arrays for what it answers. Source:
// SuiteSparse's AMD (the arguments of `amd_2`).

/// Lists of the neighbours of each row, laid in a caller's workspace.
#[derive(Drop)]
pub struct Lists<'a> {
    /// Where the list of each row starts.
    pub pe: &'a mut [isize],
    /// The words of the lists.
    pub iw: &'a mut [isize],
    /// The number of words of each list.
    pub len: &'a mut [usize],
    /// The lists fill the words before this one.
    pub pfree: usize,
}

/// A caller's arrays for what an elimination answers, with a place for each row.
#[derive(Drop)]
pub struct Places<'a, I: Copy, E: Copy> {
    /// The number of rows of each block.
    pub nv: &'a mut [I],
    /// The inverse of the permutation.
    pub p_inv: &'a mut [I],
    /// The permutation.
    pub p: &'a mut [I],
    /// The number of rows of each front.
    pub e_len: &'a mut [E],
}
