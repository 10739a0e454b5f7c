// The postorder of the assembly tree: the places of its elements, children rising but a largest one last, so that an
// element stands close to the one that it is assembled into. Source: Amestoy, Davis and Duff 2004.

ghost use Rattle.std.specs.Prelude.{◌≡◌, ◌^◌, ◌<◌, ◌≤◌, ◌≤ℤ◌, ◌&&◌, List, ℤ, IfSome, MatchResult, None, cond};
ghost use Rattle.std.specs.Prelude.{is_none, length, pos, unsigned_abs};
ghost use Rattle.amd_model.specs.Input.Columns.{at};
ghost use Rattle.amd_types.specs.Links.{named};
ghost use Rattle.amd_postorder.specs.Trees.{AreHeaviest, AreLinked, AreUnlinked, IsElementForest, IsPostorderOf};
ghost use Rattle.amd_postorder.specs.Trees.{heavier as heavier_node, is_tree_element, tree_of};

use crate::link::Link;
use crate::number::Number;
use crate::post_tree::post_tree;
use amd_types::amd::Status;
use amd_types::internal::EMPTY;
use std::alloc::Allocator;

/// The parent of a place, if it holds an element that has one.
fn parent_of<N: Number, V: Number>(j: usize, parent: &[N], nv: &[V]) -> Option<usize>
    requires in_parent { j < length parent.now }
    requires in_nv { j < length nv.now }
    ensures { result ≡ cond (is_tree_element (length (V.read nv.now)) (V.read nv.now) j)
        (named (at (N.read parent.now) j)) None }
{
    if V::number_at(nv, j) > 0 {
        usize::try_from(N::number_at(parent, j)).ok()
    } else {
        None
    }
}

/// Whether a place holds an element without a parent.
fn is_root<N: Number, V: Number>(j: usize, parent: &[N], nv: &[V]) -> bool
    requires in_parent { j < length parent.now }
    requires in_nv { j < length nv.now }
    ensures { result ≡ (is_tree_element (length (V.read nv.now)) (V.read nv.now) j &&
        is_none (named (at (N.read parent.now) j))) }
{
    V::number_at(nv, j) > 0 && N::number_at(parent, j) < 0
}

/// The heavier one of an element, if there is one, and `j`; `j` where they have the same size.
fn heavier<N: Number>(element: Option<usize>, j: usize, f_size: &[N]) -> usize
    requires element { IfSome element (λ e. (e < length f_size.now) × (pos 0 ≤ℤ at (N.read f_size.now) e)) }
    requires within { j < length f_size.now }
    requires size { pos 0 ≤ℤ at (N.read f_size.now) j }
    ensures is { result ≡ heavier_node (λ e. unsigned_abs (at (N.read f_size.now) e)) element j }
    ensures inside { result < length f_size.now }
{
    match element {
        Some(e) if N::number_at(f_size, j) < N::number_at(f_size, e) => e,
        _ => j,
    }
}

/// Makes each of `nn` links name none.
fn clear_links<L: Link>(links: &mut [L], nn: usize)
    requires { length links.old ≡ nn }
    ensures { AreUnlinked nn (L.read links.new) }
{
    'links: for j in 0..nn {
        L::clear_link(links, j);
    }
}

/// Links each place to its heaviest child, the last one of those, in two lists alike.
fn link_heaviest<N: Number, V: Number, L: Link>(
    nn: usize,
    parent: &[N],
    nv: &[V],
    f_size: &[N],
    heaviest: &mut [L],
    child: &mut [L],
)
    requires forest { IsElementForest nn (N.read parent.now) (V.read nv.now) (N.read f_size.now) }
    requires numbers { nn ≤ L.reach }
    requires unlinked { AreUnlinked nn (L.read heaviest.old) }
    requires child { AreUnlinked nn (L.read child.old) }
    ensures heaviest { AreHeaviest (tree_of nn (N.read parent.now) (V.read nv.now) (N.read f_size.now)) nn
        (L.read heaviest.new) }
    ensures child { AreHeaviest (tree_of nn (N.read parent.now) (V.read nv.now) (N.read f_size.now)) nn
        (L.read child.new) }
{
    'elements: for j in 0..nn {
        let Some(p) = parent_of(j, parent, nv) else {
            continue;
        };
        let element = heavier(L::link_at(heaviest, p), j, f_size);
        L::set_link(heaviest, p, element);
        L::set_link(child, p, element);
    }
}

/// Links the children of each place: rising, before the heaviest one, which is linked alone at first.
fn link_children<N: Number, V: Number, L: Link>(
    nn: usize,
    parent: &[N],
    nv: &[V],
    heaviest: &[L],
    child: &mut [L],
    sibling: &mut [L],
)
    requires heaviest { (f_size : List ℤ) × IsElementForest nn (N.read parent.now) (V.read nv.now) f_size ×
        AreHeaviest (tree_of nn (N.read parent.now) (V.read nv.now) f_size) nn (L.read heaviest.now) ×
        AreHeaviest (tree_of nn (N.read parent.now) (V.read nv.now) f_size) nn (L.read child.old) }
    requires numbers { nn ≤ L.reach }
    requires sibling { AreUnlinked nn (L.read sibling.old) }
    ensures { (f_size : List ℤ) → IsElementForest nn (N.read parent.now) (V.read nv.now) f_size →
        AreHeaviest (tree_of nn (N.read parent.now) (V.read nv.now) f_size) nn (L.read heaviest.now) →
        AreHeaviest (tree_of nn (N.read parent.now) (V.read nv.now) f_size) nn (L.read child.old) →
        AreLinked (tree_of nn (N.read parent.now) (V.read nv.now) f_size) (L.read child.new) (L.read sibling.new) }
{
    'elements: for j in (0..nn).rev() {
        let Some(p) = parent_of(j, parent, nv) else {
            continue;
        };
        if L::link_at(heaviest, p) == Some(j) {
            continue;
        }
        L::copy_link(sibling, j, child, p);
        L::set_link(child, p, j);
    }
}

/// Numbers the trees of the roots, one after another.
fn number_trees<N: Number, V: Number, L: Link>(
    nn: usize,
    parent: &[N],
    nv: &[V],
    child: &mut [L],
    sibling: &[L],
    order: &mut [L],
    stack: &mut [L],
)
    requires linked { (f_size : List ℤ) × IsElementForest nn (N.read parent.now) (V.read nv.now) f_size ×
        AreLinked (tree_of nn (N.read parent.now) (V.read nv.now) f_size) (L.read child.old) (L.read sibling.now) }
    requires numbers { nn ≤ L.reach }
    requires order { AreUnlinked nn (L.read order.old) }
    requires stack { length stack.old ≡ nn }
    ensures { (f_size : List ℤ) → IsElementForest nn (N.read parent.now) (V.read nv.now) f_size →
        AreLinked (tree_of nn (N.read parent.now) (V.read nv.now) f_size) (L.read child.old) (L.read sibling.now) →
        IsPostorderOf (tree_of nn (N.read parent.now) (V.read nv.now) f_size) (L.read order.new) }
{
    let mut next = 0;
    'roots: for j in 0..nn {
        if !is_root(j, parent, nv) {
            continue;
        }
        next = post_tree(j, next, child, sibling, order, stack, nn);
    }
}

/// The place of each element in the listing of the assembly tree in postorder, into `order`; what is no element gets
/// none.
///
/// All lists have `nn` places, and links can name each of them. Place `e` holds an element where `nv[e] > 0`;
/// `parent[e]` is then an element or `EMPTY`, without cycles, and `f_size[e]` a size, which is not negative. Elements
/// with the same parent are listed rising, but the last one of those of largest size is listed last; roots rising.
/// `child`, `sibling` and `stack` are room for it. Whatever the four lists held goes, and what these three then hold is
/// not said. The numbers of `nv` may be of another kind than those of `parent` and `f_size`.
pub fn postorder_in<N: Number, V: Number, L: Link>(
    nn: usize,
    parent: &[N],
    nv: &[V],
    f_size: &[N],
    child: &mut [L],
    sibling: &mut [L],
    order: &mut [L],
    stack: &mut [L],
)
    requires forest { IsElementForest nn (N.read parent.now) (V.read nv.now) (N.read f_size.now) }
    requires numbers { nn ≤ L.reach }
    requires child { length child.old ≡ nn }
    requires sibling { length sibling.old ≡ nn }
    requires order { length order.old ≡ nn }
    requires stack { length stack.old ≡ nn }
    ensures postorder { IsPostorderOf (tree_of nn (N.read parent.now) (V.read nv.now) (N.read f_size.now))
        (L.read order.new) }
    ensures child { length child.new ≡ nn }
    ensures sibling { length sibling.new ≡ nn }
    ensures order { length order.new ≡ nn }
    ensures stack { length stack.new ≡ nn }
{
    clear_links(child, nn);
    clear_links(sibling, nn);
    clear_links(order, nn);
    // The stack holds the links to the heaviest children first.
    clear_links(stack, nn);
    link_heaviest(nn, parent, nv, f_size, stack, child);
    link_children(nn, parent, nv, stack, child, sibling);
    number_trees(nn, parent, nv, child, sibling, order, stack);
}

/// As [`postorder_in`], over lists of its own. Returns the places, and `EMPTY` where there is no
/// element.
///
/// # Errors
///
/// [`Status::OutOfMemory`] for a refused request.
pub fn postorder<A: Allocator + Copy>(
    alloc: A,
    nn: usize,
    parent: &[isize],
    nv: &[isize],
    f_size: &[isize],
) -> Result<Vec<isize, A>, Status>
    requires forest { IsElementForest nn parent.now nv.now f_size.now }
    requires numbers { nn < 2 ^ 63 }
    ensures { MatchResult result (λ v. IsPostorderOf (tree_of nn parent.now nv.now f_size.now) v.items)
        (λ s. s ≡ Status.OutOfMemory) }
{
    let mut child = vec![in alloc; EMPTY; nn]?;
    let mut sibling = vec![in alloc; EMPTY; nn]?;
    let mut order = vec![in alloc; EMPTY; nn]?;
    let mut stack = vec![in alloc; EMPTY; nn]?;
    postorder_in(
        nn,
        parent,
        nv,
        f_size,
        &mut child,
        &mut sibling,
        &mut order,
        &mut stack,
    );
    Ok(order)
}
