// The postorder of forests: a worked one and hundreds that are drawn, in plain lists and in those of a workspace, and
// refused memory.

ghost use Rattle.std.specs.Prelude.{◌≡◌, ◌≤ℤ◌, ◌<◌, ◌≤◌, ◌⊎◌, ℕ, IsTrue, true, length, pos, negsuc, slice_index};
ghost use Rattle.amd_model.specs.Input.Columns.{at};
ghost use Rattle.amd_postorder.specs.Trees.{IsElementForest, is_tree_element};

use amd_engine::amd::Status;
use amd_engine::internal::{EMPTY, link_at};
use amd_engine::post_tree::post_tree;
use amd_engine::postorder::{postorder, postorder_in};
use amd_postorder::link::Link;
use amd_testing::forests::{Forest, drawn_forest, listing_of};
use amd_testing::refusing::{Refusing, each_refused};
use amd_words::{Cell, Signed, Unsigned, Word, word_of};
use amd_workspace::filling::cells;
use std::alloc::{Allocator, Global};
use std::process::Abort;
use std::test::Fail;

/// Whether element `e` has a size, and no parent, or one of a higher rank.
fn is_placed(e: usize, parent: &[isize], nv: &[isize], f_size: &[isize], rank: &[usize]) -> bool
    requires in_parent { e < length parent.now }
    requires in_f_size { e < length f_size.now }
    requires in_rank { e < length rank.now }
    requires nv_room { length nv.now ≡ length parent.now }
    requires rank_room { length rank.now ≡ length parent.now }
    ensures size { IsTrue result → pos 0 ≤ℤ at f_size.now e }
    ensures parent { IsTrue result → (at parent.now e ≡ negsuc 0) ⊎
        ((p : ℕ) × (at parent.now e ≡ pos p) × (is_tree_element (length parent.now) nv.now p ≡ true) ×
        (slice_index rank.now e < slice_index rank.now p)) }
{
    if f_size[e] < 0 {
        return false;
    }
    match link_at(parent, e) {
        Some(p) => p < parent.len() && nv[p] > 0 && rank[e] < rank[p],
        None => parent[e] == EMPTY,
    }
}

/// Whether ranks show that the elements with their parents are a forest.
fn is_forest(parent: &[isize], nv: &[isize], f_size: &[isize], rank: &[usize]) -> bool
    ensures { IsTrue result → IsElementForest (length parent.now) parent.now nv.now f_size.now }
{
    let nn = parent.len();
    if nv.len() != nn || f_size.len() != nn || rank.len() != nn {
        return false;
    }
    'elements: for e in 0..nn {
        if nv[e] <= 0 {
            continue;
        }
        if !is_placed(e, parent, nv, f_size, rank) {
            return false;
        }
    }
    true
}

/// The places of a forest's elements. The ranks show that it is one.
fn places<A: Allocator + Copy>(
    rt: &impl Abort,
    alloc: A,
    parent: &[isize],
    nv: &[isize],
    f_size: &[isize],
    rank: &[usize],
) -> Result<Vec<isize, A>, Status> {
    assert!(rt; parent.len() < 1000);
    assert!(rt;
        is_forest(parent, nv, f_size, rank),
        "{parent:?} {nv:?} {f_size:?}"
    );
    postorder(alloc, parent.len(), parent, nv, f_size)
}

/// The word of a number, which a word of this width must hold.
fn checked<S: Signed>(rt: &impl Abort, number: isize) -> Word<S>
    ensures { result ≡ number }
{
    assert!(rt; number.unsigned_abs() <= S::MOST);
    word_of(number)
}

/// Words of a workspace with these numbers.
fn words_of<S: Signed>(rt: &impl Abort, alloc: Global, numbers: &[isize]) -> Vec<Word<S>>
    ensures { result.items ≡ numbers.now }
{
    let Ok(mut words) = Vec::with_capacity(alloc, numbers.len()) else {
        panic!(rt; "no words");
    };
    'numbers: for &number in numbers {
        words.push_reserved(checked(rt, number));
    }
    words
}

/// Figures of a workspace, whatever they hold.
fn cells_of<U: Unsigned>(rt: &impl Abort, alloc: Global, count: usize) -> Vec<Cell<U>>
    ensures { length result.items ≡ count }
{
    let Ok(list) = cells(alloc, count, 0) else {
        panic!(rt; "no cells");
    };
    list
}

/// The links of a postorder of a forest, in lists of a workspace.
fn links_of<S: Signed, U: Unsigned>(
    rt: &impl Abort,
    alloc: Global,
    parent: &[Word<S>],
    nv: &[Word<S>],
    f_size: &[Word<S>],
) -> Vec<Cell<U>>
    requires forest { IsElementForest (length parent.now) parent.now nv.now f_size.now }
    requires numbers { length parent.now ≤ U.MOST }
{
    let mut child: Vec<Cell<U>> = cells_of(rt, alloc, parent.len());
    let mut sibling: Vec<Cell<U>> = cells_of(rt, alloc, parent.len());
    let mut links: Vec<Cell<U>> = cells_of(rt, alloc, parent.len());
    let mut stack: Vec<Cell<U>> = cells_of(rt, alloc, parent.len());
    postorder_in(
        parent.len(),
        parent,
        nv,
        f_size,
        &mut child,
        &mut sibling,
        &mut links,
        &mut stack,
    );
    links
}

/// The place that a link names, or `EMPTY` where it names none.
fn place_at<U: Unsigned>(links: &[Cell<U>], e: usize) -> isize
    requires { e < length links.now }
{
    match Link::link_at(links, e) {
        Some(k) => isize::try_from(k).unwrap_or(isize::MAX),
        None => EMPTY,
    }
}

/// The places that links name, and `EMPTY` where one names none.
fn places_of<U: Unsigned>(alloc: Global, links: &[Cell<U>]) -> Result<Vec<isize>, Fail> {
    let mut places = Vec::new(alloc);
    for e in 0..links.len() {
        places.push(place_at(links, e))?;
    }
    Ok(places)
}

/// The places of a forest's elements, in lists of a workspace whose words have these widths. The ranks show that it
/// is one.
fn places_in<S: Signed, U: Unsigned>(
    rt: &impl Abort,
    alloc: Global,
    parent: &[isize],
    nv: &[isize],
    f_size: &[isize],
    rank: &[usize],
) -> Result<Vec<isize>, Fail> {
    assert!(rt; parent.len() < 1000 && parent.len() <= U::MOST);
    assert!(rt; is_forest(parent, nv, f_size, rank));
    let parents: Vec<Word<S>> = words_of(rt, alloc, parent);
    let counts: Vec<Word<S>> = words_of(rt, alloc, nv);
    let sizes: Vec<Word<S>> = words_of(rt, alloc, f_size);
    let links: Vec<Cell<U>> = links_of(rt, alloc, &parents, &counts, &sizes);
    places_of(alloc, &links)
}

/// Seven places, of which the last holds no element, and the place of each in the postorder. Elements 0 to 3 are
/// children of 5, and 1 and 2 have the largest size among them. The places were worked by hand.
#[derive(Drop)]
struct Worked {
    parent: [isize; 7],
    nv: [isize; 7],
    f_size: [isize; 7],
    rank: [usize; 7],
    order: [isize; 7],
}

const WORKED: Worked = Worked {
    parent: [5, 5, 5, 5, -1, -1, 5],
    nv: [1, 1, 1, 1, 1, 2, 0],
    f_size: [2, 4, 4, 3, 1, 5, -1],
    rank: [0, 0, 0, 0, 0, 1, 0],
    order: [1, 2, 4, 3, 0, 5, -1],
};

#[test]
fn worked_forest(rt: HostRuntime) {
    let worked = WORKED;
    let Ok(order) = places(
        &rt,
        rt.alloc(),
        &worked.parent,
        &worked.nv,
        &worked.f_size,
        &worked.rank,
    ) else {
        panic!(rt; "no postorder");
    };
    assert!(rt; order.as_slice() == worked.order.as_slice());
}

#[test]
fn worked_forest_in_a_workspace(rt: HostRuntime) -> Result<(), Fail> {
    let Worked {
        parent,
        nv,
        f_size,
        rank,
        order,
    } = WORKED;
    let narrow = places_in::<i32, u32>(&rt, rt.alloc(), &parent, &nv, &f_size, &rank)?;
    assert!(rt; narrow.as_slice() == order.as_slice());
    let wide = places_in::<isize, usize>(&rt, rt.alloc(), &parent, &nv, &f_size, &rank)?;
    assert!(rt; wide.as_slice() == order.as_slice());
    Ok(())
}

#[test]
fn no_places(rt: HostRuntime) {
    let heap = Refusing::new(rt.alloc(), 1);
    let Ok(order) = places(&rt, &heap, &[], &[], &[], &[]) else {
        panic!(rt; "no postorder");
    };
    assert!(rt; order.is_empty());
}

/// Lists the worked forest, and says whether there was an answer.
fn lists(rt: &impl Abort, heap: &Refusing<Global>) -> bool {
    let worked = WORKED;
    match places(
        rt,
        heap,
        &worked.parent,
        &worked.nv,
        &worked.f_size,
        &worked.rank,
    ) {
        Ok(order) => {
            assert!(rt; order.as_slice() == worked.order.as_slice());
            true
        }
        Err(status) => {
            assert!(rt; status == Status::OutOfMemory);
            false
        }
    }
}

#[test]
fn each_request_of_postorder(rt: HostRuntime) {
    // The stack, the children, the siblings and the places.
    let refusals = each_refused(rt.alloc(), |heap| lists(&rt, heap));
    assert!(rt; refusals == Ok(4));
}

/// Whether places are those of a listing, and `EMPTY` for what is not listed.
fn are_places(order: &[isize], listing: &[usize]) -> bool {
    let mut numbered = 0usize;
    for (e, &number) in order.iter().enumerate() {
        match usize::try_from(number) {
            Ok(k) => {
                if listing.get(k) != Some(&e) {
                    return false;
                }
                numbered = numbered.saturating_add(1);
            }
            Err(_) => {
                if number != EMPTY {
                    return false;
                }
            }
        }
    }
    numbered == listing.len()
}

/// Asserts that the places of a forest's elements are those of a listing, in plain lists and in those of a workspace.
fn check_forest(
    rt: &impl Abort,
    alloc: Global,
    forest: &Forest,
    listing: &[usize],
) -> Result<(), Fail> {
    let (parent, nv) = (forest.parent.as_slice(), forest.nv.as_slice());
    let (f_size, rank) = (forest.f_size.as_slice(), forest.rank.as_slice());
    let Ok(order) = places(rt, alloc, parent, nv, f_size, rank) else {
        panic!(rt; "no postorder");
    };
    assert!(rt;
        order.len() == nv.len() && are_places(&order, listing),
        "{order:?} {listing:?}"
    );
    let lent = places_in::<i32, u32>(rt, alloc, parent, nv, f_size, rank)?;
    assert!(rt; lent.as_slice() == order.as_slice());
    Ok(())
}

#[test]
fn drawn_forests(rt: HostRuntime) -> Result<(), Fail> {
    for seed in 0..400 {
        let forest = drawn_forest(rt.alloc(), seed)?;
        let listing = listing_of(rt.alloc(), &forest.parent, &forest.nv, &forest.f_size)?;
        check_forest(&rt, rt.alloc(), &forest, &listing)?;
    }
    Ok(())
}

/// Nodes 0, 1, 3 and 2 are the children of node 5, in this order; places 4 and 6 hold no node. The list
/// of siblings has no place for the root, which is not asked for.
#[test]
fn one_tree(rt: HostRuntime) {
    let mut child = [-1, -1, -1, -1, -7, 0, -7];
    let sibling = [1, 3, -1, 2];
    let mut order = [-7; 7];
    let mut stack = [0; 5];
    let next = post_tree(5, 1, &mut child, &sibling, &mut order, &mut stack, 6);
    assert!(rt; next == 6 && order == [1, 2, 4, 3, -7, 5, -7]);
    assert!(rt; child[4] == -7 && child[6] == -7);
}
