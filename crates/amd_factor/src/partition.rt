// The places of a factor cut into supernodes, by the numbers of entries of its columns and its parents: where each
// supernode begins, where its rows begin, its parent, and the supernode of each place. Source: Liu, Ng and Peyton 1993.

ghost use Rattle.std.specs.Prelude.{ℕ, ◌≡◌, ◌↔◌, ◌<◌, ◌≤◌, ◌+◌, ◌-◌, true, None, Some, length, IfOk, MatchOption};
ghost use Rattle.std.specs.Prelude.{slice_index, slice_index_or};
ghost use Rattle.amd_factor.specs.Orders.{Order};
ghost use Rattle.amd_factor.specs.Partitions.{AreNumbered, AreSame, GoOver, HaveParents, HaveRoom, IsCut};
ghost use Rattle.amd_factor.specs.Partitions.{IsJoined, Own, SumEnds, owner_at};
ghost use Rattle.amd_factor.specs.Premises.{CanCut};
ghost use Rattle.amd_factor.specs.Sizes.{HoldSizes};
ghost use Rattle.amd_factor.specs.Supernodes.{AreRuns};

use std::alloc::{AllocError, Allocator};

/// Whether place `k` is joined to the next one: that is its parent, and has one entry less.
fn is_joined(k: usize, sizes: &[usize], parent: &[Option<usize>]) -> bool
    requires parents { HaveParents sizes.now parent.now }
    requires place { k < length sizes.now }
    ensures { (result ≡ true) ↔ IsJoined sizes.now parent.now k }
{
    match parent[k] {
        Some(q) => q == k + 1 && sizes[k] - 1 == sizes[q],
        None => false,
    }
}

/// Writes the number of the supernode of each place, and returns how many there are.
pub fn number_places(sizes: &[usize], parent: &[Option<usize>], owner: &mut [usize]) -> usize
    requires parents { HaveParents sizes.now parent.now }
    requires room { length owner.old ≡ length sizes.now }
    ensures { AreNumbered (IsJoined sizes.now parent.now) (length sizes.now) owner.new result }
{
    let mut count = 0;
    'places: for k in 0..owner.len() {
        owner[k] = count;
        if !is_joined(k, sizes, parent) {
            count += 1;
        }
    }
    count
}

/// Whether place `k` and the next one have one number.
fn is_same(k: usize, owner: &[usize]) -> bool
    requires { k < length owner.now }
    ensures { (result ≡ true) ↔ AreSame owner.now k }
{
    k + 1 < owner.len() && owner[k + 1] == owner[k]
}

/// How many entries the last places of all supernodes have, by the number of each place; `None` where that is no number
/// of 64 bits.
pub fn sum_ends(sizes: &[usize], owner: &[usize]) -> Option<usize>
    requires { length sizes.now ≡ length owner.now }
    ensures { MatchOption result (Unit {0}) (λ total. SumEnds owner.now sizes.now (length owner.now) total) }
{
    let mut total = 0usize;
    'places: for k in 0..owner.len() {
        if !is_same(k, owner) {
            let Some(sum) = total.checked_add(sizes[k]) else {
                return None;
            };
            total = sum;
        }
    }
    Some(total)
}

/// Writes where each supernode begins, and behind them the number of places.
fn write_first(owner: &[usize], first: &mut [usize])
    requires numbered { AreNumbered (AreSame owner.now) (length owner.now) owner.now (length first.old - 1) }
    requires room { 0 < length first.old }
    ensures runs { AreRuns (AreSame owner.now) (length owner.now) first.new }
    ensures own { Own first.new owner.now }
{
    first[0] = 0;
    'places: for k in 0..owner.len() {
        first[owner[k] + 1] = k + 1;
    }
}

/// Writes where the rows of each supernode begin, and behind them where the last ones end; returns whether that is a
/// number of 64 bits.
fn write_pointers(first: &[usize], sizes: &[usize], ptr: &mut [usize]) -> bool
    requires some { 0 < length first.now }
    requires inside { (s : ℕ) → s + 1 < length first.now →
        (0 < slice_index first.now (s + 1)) × (slice_index first.now (s + 1) ≤ length sizes.now) }
    requires room { length ptr.old ≡ length first.now }
    ensures { result ≡ true → HaveRoom sizes.now first.now ptr.new }
{
    ptr[0] = 0;
    'supernodes: for s in 0..first.len() - 1 {
        let Some(end) = ptr[s].checked_add(sizes[first[s + 1] - 1]) else {
            return false;
        };
        ptr[s + 1] = end;
    }
    true
}

/// The supernode of a parent, if there is any.
fn owner_of(parent: Option<usize>, owner: &[usize]) -> Option<usize>
    requires { MatchOption parent (Unit {0}) (λ q. q < length owner.now) }
    ensures { result ≡ owner_at owner.now parent }
{
    match parent {
        Some(q) => Some(owner[q]),
        None => None,
    }
}

/// Writes the parent of each supernode: that of the parent of its last place.
fn write_parents(
    first: &[usize],
    owner: &[usize],
    parent: &[Option<usize>],
    over: &mut [Option<usize>],
)
    requires inside { (s : ℕ) → s + 1 < length first.now →
        (0 < slice_index first.now (s + 1)) × (slice_index first.now (s + 1) ≤ length parent.now) }
    requires parents { (k q : ℕ) → k < length parent.now → slice_index_or parent.now k None ≡ Some q →
        q < length owner.now }
    requires room { length over.old + 1 ≡ length first.now }
    ensures { GoOver parent.now first.now owner.now over.new }
{
    'supernodes: for s in 0..over.len() {
        over[s] = owner_of(parent[first[s + 1] - 1], owner);
    }
}

/// Writes where each supernode and its rows begin, and its parent, by the numbers of the supernodes; returns whether
/// the number of rows below the blocks is one of 64 bits.
fn write_cut(
    sizes: &[usize],
    parent: &[Option<usize>],
    owner: &[usize],
    first: &mut [usize],
    ptr: &mut [usize],
    over: &mut [Option<usize>],
) -> bool
    ghost o: { Order }
    requires { CanCut o sizes.now parent.now owner.now first.old ptr.old over.old }
    ensures { result ≡ true → IsCut (record {
      order = o;
      first = first.new;
      owner = owner.now;
      ptr = ptr.new;
      parent = over.new;
    }) }
{
    write_first(owner, first);
    write_parents(first, owner, parent, over);
    write_pointers(first, sizes, ptr)
}

/// A factor by supernodes, but for the rows below the blocks.
#[derive(Drop)]
pub struct Cut<A: Allocator> {
    pub first: Vec<usize, A>,
    pub owner: Vec<usize, A>,
    pub ptr: Vec<usize, A>,
    pub parent: Vec<Option<usize>, A>,
}

/// Such a factor, where it is lent.
#[derive(Drop)]
pub struct LentCut<'a> {
    pub first: &'a [usize],
    pub owner: &'a [usize],
    pub ptr: &'a [usize],
    pub parent: &'a [Option<usize>],
}

/// Cuts the places into supernodes, by the number of entries and the parent of each.
///
/// # Errors
///
/// A refused request for memory, or more rows below the blocks than a number of 64 bits can say.
pub fn cut_places<A: Allocator + Copy>(
    alloc: A,
    sizes: &[usize],
    parent: &[Option<usize>],
) -> Result<Cut<A>, AllocError>
    ghost o: { Order }
    requires counts { HoldSizes o.graph o.rows sizes.now parent.now }
    ensures { IfOk result (λ c. IsCut (record {
      order = o;
      first = c.first.items;
      owner = c.owner.items;
      ptr = c.ptr.items;
      parent = c.parent.items;
    })) }
{
    let mut owner = vec![in alloc; 0; sizes.len()]?;
    let count = number_places(sizes, parent, &mut owner);
    let mut first = vec![in alloc; 0; count + 1]?;
    let mut ptr = vec![in alloc; 0; count + 1]?;
    let mut over = vec![in alloc; None; count]?;
    if !write_cut(sizes, parent, &owner, &mut first, &mut ptr, &mut over) {
        return Err(AllocError);
    }
    Ok(Cut {
        first,
        owner,
        ptr,
        parent: over,
    })
}
