// The matrix that a file holds, made of the pairs that its entries stand for.

ghost use Rattle.std.specs.Prelude.{◌≡◌, ◌++◌, ◌<◌, ◌^◌, [], All, IfOk, OnOk, length};
ghost use Rattle.amd_market.specs.Headers.{pairs_of};
ghost use Rattle.amd_market.specs.Columns.{HoldsOnce, HoldsPairs};
ghost use Rattle.amd_market.specs.Keys.{pairs_of_keys};
ghost use Rattle.amd_market.specs.Pairs.{pairs_in, AreFor};

use crate::columns::{columns_of, keyed_columns};
use crate::headers::Symmetry;
use crate::keys::pair_key;
use crate::sources::Source;
use std::alloc::{AllocError, Allocator};

/// The pattern of a square matrix in column form.
#[derive(Drop)]
pub struct Matrix<A: Allocator> {
    /// The number of rows and columns.
    pub n: usize,
    /// Where each column begins, and where the last one ends.
    pub a_p: Vec<usize, A>,
    /// The rows of the columns, one column after the other.
    pub a_i: Vec<usize, A>,
    /// What the file says of it.
    pub source: Source,
    /// How many pairs were dropped, since they were there already; each entry off the diagonal stands for two of them
    /// where there is a symmetry.
    pub repeats: usize,
}

/// Pairs of a row and a column.
#[derive(Drop)]
pub(crate) enum Pairs<A: Allocator> {
    /// The key of each pair, where 32 bits hold each row and each column.
    Keys(Vec<usize, A>),
    /// Each pair.
    Listed(Vec<(usize, usize), A>),
}

impl<A: Allocator> Pairs<A> {
    /// How many they are.
    fn count(&self) -> usize
        ensures { result ≡ length (pairs_in self.now) }
    {
        match self {
            Pairs::Keys(keys) => keys.len(),
            Pairs::Listed(pairs) => pairs.len(),
        }
    }
}

/// A list for the keys of the pairs of so many entries: with room for them, where it is granted at once, and else
/// without.
pub(crate) fn keys_for<A: Allocator>(alloc: A, symmetry: Symmetry, entries: usize) -> Vec<usize, A>
    ensures { result.items ≡ [] }
{
    let each = if symmetry.is_mirrored() { 2 } else { 1 };
    let mut keys = Vec::new(alloc);
    let _ = keys.reserve_exact(entries.saturating_mul(each));
    keys
}

/// Adds the keys of the pairs that an entry stands for.
#[inline]
pub(crate) fn add_keys<A: Allocator>(
    keys: &mut Vec<usize, A>,
    symmetry: Symmetry,
    entry: (usize, usize),
) -> Result<(), AllocError>
    requires { (entry.0 < 2 ^ 32) × (entry.1 < 2 ^ 32) }
    ensures { OnOk result (pairs_of_keys keys.new.items ≡ pairs_of_keys keys.old.items ++ pairs_of symmetry entry) }
{
    let (row, column) = entry;
    keys.push(pair_key((row, column)))?;
    if symmetry.is_mirrored() && row != column {
        keys.push(pair_key((column, row)))?;
    }
    Ok(())
}

/// A list for the pairs of so many entries: with room for them, where it is granted at once, and else without.
pub(crate) fn pairs_for<A: Allocator>(
    alloc: A,
    symmetry: Symmetry,
    entries: usize,
) -> Vec<(usize, usize), A>
    ensures { result.items ≡ [] }
{
    let each = if symmetry.is_mirrored() { 2 } else { 1 };
    let mut pairs = Vec::new(alloc);
    let _ = pairs.reserve_exact(entries.saturating_mul(each));
    pairs
}

/// Adds the pairs that an entry stands for.
pub(crate) fn add_pairs<A: Allocator>(
    pairs: &mut Vec<(usize, usize), A>,
    symmetry: Symmetry,
    entry: (usize, usize),
) -> Result<(), AllocError>
    ensures { OnOk result (pairs.new.items ≡ pairs.old.items ++ pairs_of symmetry entry) }
{
    let (row, column) = entry;
    pairs.push((row, column))?;
    if symmetry.is_mirrored() && row != column {
        pairs.push((column, row))?;
    }
    Ok(())
}

/// The pointers and the rows of the column form of pairs that lie in a matrix with `n` rows and columns.
fn columns_for<A: Allocator + Copy>(
    alloc: A,
    n: usize,
    pairs: Pairs<A>,
) -> Result<(Vec<usize, A>, Vec<usize, A>), AllocError>
    requires kind { AreFor n pairs }
    requires inside { All (λ p. (p.0 < n) × (p.1 < n)) (pairs_in pairs) }
    ensures { IfOk result (λ r. HoldsPairs n (pairs_in pairs) r.0.items r.1.items) }
{
    match pairs {
        Pairs::Keys(keys) => keyed_columns(alloc, n, keys),
        Pairs::Listed(pairs) => columns_of(alloc, n, pairs),
    }
}

/// The matrix with `n` rows and columns that has these pairs, and of which the file says this.
pub(crate) fn matrix_of<A: Allocator + Copy>(
    alloc: A,
    source: Source,
    n: usize,
    pairs: Pairs<A>,
) -> Result<Matrix<A>, AllocError>
    requires kind { AreFor n pairs }
    requires inside { All (λ p. (p.0 < n) × (p.1 < n)) (pairs_in pairs) }
    ensures size { IfOk result (λ m. m.n ≡ n) }
    ensures source { IfOk result (λ m. m.source ≡ source) }
    ensures holds { IfOk result (λ m. HoldsOnce n (pairs_in pairs) m.a_p.items m.a_i.items m.repeats) }
{
    let found = pairs.count();
    let (a_p, a_i) = columns_for(alloc, n, pairs)?;
    let repeats = found.saturating_sub(a_i.len());
    Ok(Matrix {
        n,
        a_p,
        a_i,
        source,
        repeats,
    })
}
