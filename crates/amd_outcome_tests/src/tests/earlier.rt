// The place of each row in an order, and the lists of the earlier and of the later neighbours of each place: of
// matrices with repeats, out of order and without mirrors, with orders that are none, and with refused memory. The
// lists were worked by hand.

use amd::Status;
use amd::internal::to_count;
use amd::valid::valid;
use amd_symbolic::neighbours::{NeighbourLists, earlier_lists, later_lists};
use amd_symbolic::places::places;
use amd_testing::check;
use amd_testing::refusing::{Refusing, each_refused};
use std::alloc::{AllocError, Allocator, Global};
use std::process::Abort;
use std::test::Fail;

/// A matrix, an order of its rows, and the lists of each place, rising, in which a place stands once for each entry
/// that joins the two: those of the earlier places, and those of the later ones.
#[derive(Drop)]
struct NeighbourCase<'a> {
    what: &'a str,
    n: i64,
    a_p: &'a [i64],
    a_i: &'a [i64],
    p: &'a [i64],
    earlier: &'a [&'a [usize]],
    later: &'a [&'a [usize]],
}

/// Matrices with their lists.
static MATRICES: [NeighbourCase<'static>; 5] = [
    NeighbourCase {
        what: "a four-cycle by the entries below the diagonal",
        n: 4,
        a_p: &[0, 2, 3, 4, 4],
        a_i: &[1, 3, 2, 3],
        p: &[3, 0, 1, 2],
        earlier: &[&[], &[0], &[1], &[0, 2]],
        later: &[&[1, 3], &[2], &[3], &[]],
    },
    NeighbourCase {
        what: "the five-row matrix of the demo, one entry without its mirror",
        n: 5,
        a_p: &[0, 2, 6, 10, 12, 14],
        a_i: &[0, 1, 0, 1, 2, 4, 1, 2, 3, 4, 2, 3, 1, 4],
        p: &[0, 3, 2, 4, 1],
        earlier: &[&[], &[], &[1, 1], &[2], &[0, 0, 2, 2, 3, 3]],
        later: &[&[4, 4], &[2, 2], &[3, 4, 4], &[4, 4], &[]],
    },
    NeighbourCase {
        what: "repeats above the diagonal",
        n: 2,
        a_p: &[0, 0, 3],
        a_i: &[0, 1, 0],
        p: &[1, 0],
        earlier: &[&[], &[0, 0]],
        later: &[&[1, 1], &[]],
    },
    NeighbourCase {
        what: "a column that is out of order",
        n: 3,
        a_p: &[0, 3, 3, 3],
        a_i: &[2, 0, 1],
        p: &[1, 2, 0],
        earlier: &[&[], &[], &[0, 1]],
        later: &[&[2], &[2], &[]],
    },
    NeighbourCase {
        what: "one row, and numbers behind the end",
        n: 1,
        a_p: &[0, 1, 7],
        a_i: &[0, 9],
        p: &[0],
        earlier: &[&[]],
        later: &[&[]],
    },
];

/// The lists of the earlier and of the later places of a case, where memory suffices.
fn lists_of<A: Allocator + Copy>(
    rt: &impl Abort,
    alloc: A,
    case: &NeighbourCase,
) -> Result<(NeighbourLists<A>, NeighbourLists<A>), AllocError> {
    let (n, a_p, a_i) = (case.n, case.a_p, case.a_i);
    let Some(size) = to_count(n) else {
        panic!(rt; "a negative number of rows");
    };
    assert!(rt; size != 0 && valid(n, n, a_p, a_i) != Status::Invalid);
    let Some(places) = places(alloc, size, case.p)? else {
        panic!(rt; "no order: {}", case.what);
    };
    let earlier = earlier_lists(alloc, size, a_p, a_i, &places)?;
    let later = later_lists(alloc, size, a_p, a_i, &places)?;
    Ok((earlier, later))
}

/// Whether the lists are these. They are sorted to see it.
fn are_lists<A: Allocator>(wanted: &[&[usize]], lists: &mut NeighbourLists<A>) -> bool {
    let mut end = 0usize;
    for (k, want) in wanted.iter().enumerate() {
        let begin = end;
        end = end.saturating_add(want.len());
        if lists.starts.get(k) != Some(&begin) || lists.neighbours.len() < end || end < begin {
            return false;
        }
        let list = &mut lists.neighbours[begin..end];
        list.sort_unstable();
        if &*list != *want {
            return false;
        }
    }
    lists.starts.len() == wanted.len().saturating_add(1)
        && lists.starts.last() == Some(&end)
        && lists.neighbours.len() == end
}

/// Asserts that the lists are those of a case.
fn check<A: Allocator>(
    rt: &impl Abort,
    case: &NeighbourCase,
    lists: &mut (NeighbourLists<A>, NeighbourLists<A>),
) {
    let (earlier, later) = lists;
    check!(rt; are_lists(case.earlier, earlier), case.what);
    check!(rt; are_lists(case.later, later), case.what);
}

#[test]
fn lists_of_neighbours(rt: HostRuntime) -> Result<(), Fail> {
    for case in &MATRICES {
        let mut lists = lists_of(&rt, rt.alloc(), case)?;
        check(&rt, case, &mut lists);
    }
    Ok(())
}

/// Makes the lists of a case, and says whether there was memory.
fn makes(rt: &impl Abort, heap: &Refusing<Global>, case: &NeighbourCase) -> bool {
    match lists_of(rt, heap, case) {
        Ok(mut lists) => {
            check(rt, case, &mut lists);
            true
        }
        Err(_) => false,
    }
}

#[test]
fn each_request_of_the_lists(rt: HostRuntime) {
    for case in &MATRICES {
        match each_refused(rt.alloc(), |heap| makes(&rt, heap, case)) {
            Ok(refusals) => check!(&rt; 3 <= refusals, case.what),
            Err(slip) => panic!(rt; "{}: {slip:?}", case.what),
        }
    }
}

#[test]
fn lists_that_are_no_order(rt: HostRuntime) -> Result<(), Fail> {
    for p in [
        [3, 0, 1, 1].as_slice(),
        &[3, 0, 1, 4],
        &[3, 0, 1, -1],
        &[3, 0, 1],
        &[3, 0, 1, 2, 0],
        &[],
    ] {
        assert!(rt; places::<i64, _>(rt.alloc(), 4, p)?.is_none(), "{p:?}");
    }
    let heap = Refusing::new(rt.alloc(), 1);
    check!(&rt; places(&heap, 4, &[3i64, 0, 1])?.is_none());
    check!(&rt; heap.requests() == 0);
    Ok(())
}
