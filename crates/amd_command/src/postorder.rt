// A postorder of the elimination tree of a factor: each subtree in one piece, with its root behind it, children and
// roots rising. Columns are numbered as they are eliminated. Source: Liu 1990.

ghost use Rattle.std.specs.Prelude.{◌≡◌, ◌<◌, ℕ, Some, IfOk, IfSome, map};
ghost use Rattle.amd_postorder.specs.Trees.{IsPostorderOf, link_of};
ghost use Rattle.amd_command.specs.Postorders.{AreBehind, IsPostorder, IsPostorderUnder, forest_of};

use crate::faults::cause_of;
use amd_cli::causes::Cause;
use amd_factor::places::places;
use amd_market::reader::Matrix;
use amd_postorder::postorder::postorder;
use amd_symbolic::counts;
use amd_types::amd::Status;
use amd_types::internal::EMPTY;
use std::alloc::Global;

/// The number of the parent of column `k` where that is one of `n` columns and stands behind, and `EMPTY` for none.
fn link_to(parent: Option<usize>, k: usize, n: usize) -> Option<isize>
    ensures link { IfSome result (λ link. link ≡ link_of parent) }
    ensures behind { IfSome result (λ link. (q : ℕ) → parent ≡ Some q → (k < q) × (q < n)) }
{
    match parent {
        Some(over) if k < over && over < n => isize::try_from(over).ok(),
        Some(_) => None,
        None => Some(EMPTY),
    }
}

/// The parents as signed numbers.
///
/// # Errors
///
/// `Invalid` where a parent does not stand behind; `OutOfMemory` where memory was refused.
fn links_to(alloc: Global, parents: &[Option<usize>]) -> Result<Vec<isize>, Status>
    ensures links { IfOk result (λ links. links.items ≡ map link_of parents.now) }
    ensures behind { IfOk result (λ links. AreBehind parents.now) }
{
    let mut links = Vec::with_capacity(alloc, parents.len())?;
    'columns: for k in 0..parents.len() {
        let Some(link) = link_to(parents[k], k, parents.len()) else {
            return Err(Status::Invalid);
        };
        links.push(link)?;
    }
    Ok(links)
}

/// The place of each column in a postorder of the tree with these parents.
///
/// # Errors
///
/// Those of `links_to`.
fn order_of(alloc: Global, parents: &[Option<usize>]) -> Result<Vec<isize>, Status>
    ensures behind { IfOk result (λ order. AreBehind parents.now) }
    ensures order { IfOk result (λ order. IsPostorderOf (forest_of parents.now) order.items) }
{
    let n = parents.len();
    let links = links_to(alloc, parents)?;
    let rows = vec![in alloc; 1isize; n]?;
    let sizes = vec![in alloc; 0isize; n]?;
    postorder(alloc, n, &links, &rows, &sizes)
}

/// The columns with these parents in a postorder of their tree.
///
/// # Errors
///
/// `Form` where a parent does not stand behind; `Memory` where memory was refused.
pub fn postorder_of(alloc: Global, parents: &[Option<usize>]) -> Result<Vec<usize>, Cause>
    ensures { IfOk result (λ columns. IsPostorder parents.now columns.items) }
{
    let order = order_of(alloc, parents)?;
    match places(alloc, parents.len(), &order)? {
        Some(columns) => Ok(columns),
        None => Err(Cause::Form),
    }
}

/// The columns of the factor under an order of the rows, in a postorder of its elimination tree.
///
/// # Errors
///
/// Those of `counts`, as causes.
pub fn postorder_under(
    alloc: Global,
    matrix: &Matrix<Global>,
    p: &[usize],
) -> Result<Vec<usize>, Cause>
    ensures { IfOk result (λ columns. IsPostorderUnder matrix.now.n matrix.now.a_p.items matrix.now.a_i.items p.now
        columns.items) }
{
    match counts(alloc, matrix.n, &matrix.a_p, &matrix.a_i, p) {
        Ok(counted) => postorder_of(alloc, &counted.parent),
        Err(fault) => Err(cause_of(fault)),
    }
}
