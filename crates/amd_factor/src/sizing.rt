// How many supernodes a factor has, and how many rows below their blocks: the columns are counted and the places
// numbered as for `supernodes`, and no row is written. Source: Liu, Ng and Peyton 1993.

ghost use Rattle.std.specs.Prelude.{◌≡◌, length, map, IfOk, IfErr, MatchOption};
ghost use Rattle.amd_model.specs.Graph.{IsGraph};
ghost use Rattle.amd_factor.specs.Counted.{IsCountsFault};
ghost use Rattle.amd_factor.specs.Orders.{Order};
ghost use Rattle.amd_factor.specs.Premises.{IsOrderOf};
ghost use Rattle.amd_factor.specs.Sizes.{HoldSizes};
ghost use Rattle.amd_factor.specs.SupernodeLaws.{AreSizesOf, TellSizesOf};

use crate::counting::matrix_counts;
use crate::factor::Fault;
use crate::partition::{number_places, sum_ends};
use amd_types::index::Index;
use num_traits::PrimInt;
use std::alloc::Allocator;

/// How much room the supernodes of a factor need.
#[derive(Clone, Copy)]
pub struct SupernodeSizes {
    /// The number of supernodes.
    pub supernodes: usize,
    /// The number of rows below their blocks.
    pub rows: usize,
}

/// Numbers the places, and tells how many supernodes and rows below the blocks there are; `None` where there are more
/// rows than a number of 64 bits can say. `owner`, which has a place for each, is for the work alone.
fn cut_sizes(
    sizes: &[usize],
    parent: &[Option<usize>],
    owner: &mut [usize],
) -> Option<SupernodeSizes>
    ghost o: { Order }
    requires laws { IsGraph o.graph }
    requires counts { HoldSizes o.graph o.rows sizes.now parent.now }
    requires room { length owner.old ≡ length sizes.now }
    ensures { MatchOption result (Unit {0}) (λ s. TellSizesOf o.graph o.rows s.supernodes s.rows) }
{
    let supernodes = number_places(sizes, parent, owner);
    let Some(rows) = sum_ends(sizes, owner) else {
        return None;
    };
    Some(SupernodeSizes { supernodes, rows })
}

/// The sizes of the supernodes of a matrix with `n` rows.
fn matrix_sizes<I: Index, A: Allocator + Copy>(
    alloc: A,
    n: I,
    a_p: &[I],
    a_i: &[I],
    p: &[I],
) -> Result<SupernodeSizes, Fault>
    ghost o: { Order }
    requires { IsOrderOf o (I.value n) (map I.value a_p.now) (map I.value a_i.now) (map I.value p.now) }
    ensures sizes { IfOk result (λ s. AreSizesOf (I.value n) (map I.value a_p.now) (map I.value a_i.now)
        (map I.value p.now) s.supernodes s.rows) }
    ensures fault { IfErr result (λ e. IsCountsFault (I.value n) (map I.value a_p.now) (map I.value a_i.now)
        (map I.value p.now) e) }
{
    let counted = matrix_counts(alloc, n, a_p, a_i, p)?;
    let mut owner = vec![in alloc; 0; counted.sizes.len()]?;
    match cut_sizes(&counted.sizes, &counted.parent, &mut owner) {
        Some(sizes) => Ok(sizes),
        None => Err(Fault::OutOfMemory),
    }
}

/// How much room [`crate::supernodes`] needs for the same matrix and order: how many supernodes there are, and how many
/// rows below their blocks.
///
/// The input and the order are those of `supernodes`. For `n = 0` the pointers and row indices are not looked at, `p`
/// must be empty, and both numbers are 0. No row is written: beyond the counts a number a row is taken.
///
/// # Errors
///
/// Those of `supernodes`, in its order.
///
/// Source: Liu 1986; Gilbert, Ng and Peyton 1994; Liu, Ng and Peyton 1993.
pub fn supernode_sizes<I: PrimInt, A: Allocator + Copy>(
    alloc: A,
    n: I,
    a_p: &[I],
    a_i: &[I],
    p: &[I],
) -> Result<SupernodeSizes, Fault>
    // A number of a primitive type is always in range.
    requires fits { I.fits (I.value n) }
    ensures sizes { IfOk result (λ s. AreSizesOf (I.value n) (map I.value a_p.now) (map I.value a_i.now)
        (map I.value p.now) s.supernodes s.rows) }
    ensures fault { IfErr result (λ e. IsCountsFault (I.value n) (map I.value a_p.now) (map I.value a_i.now)
        (map I.value p.now) e) }
{
    matrix_sizes(alloc, n, a_p, a_i, p)
}
