// The workspace as it is laid: the lists of the neighbours one after another, where each starts, how long it is, and
// where the first free word is, in both widths of words; the marks that stand there; and `amd_2_from` over such a
// workspace, for other tests. The lists were worked by hand in the order in which the walk meets the edges.

ghost use Rattle.std.specs.Prelude.{◌≡◌, ◌<◌, ◌≤◌, ◌+◌, ℕ, List, pos, length};
ghost use Rattle.amd_model.specs.Graph.{Graph};
ghost use Rattle.amd_lists.specs.Sizes.{AreWideEnough};
ghost use Rattle.amd_workspace.specs.Laying.{IsLaidOut};
ghost use Rattle.amd_engine.specs.InPlace.{LaysGraph};

use crate::tests::sorted::{Sorted, check_marks, degrees_of};
use amd_engine::amd_1::holds;
use amd_engine::amd_2::amd_2_from;
use amd_engine::fresh::memory_for;
use amd_engine::rows::Choice;
use amd_types::amd::{Control, Info};
use amd_types::internal::{count_at, flip};
use amd_words::{Cell, Signed, Unsigned, Word, cell_at, word_at};
use amd_workspace::laying::lay;
use amd_workspace::lists::Memory;
use std::alloc::Global;
use std::process::Abort;

/// A sorted matrix, the words to spare in its workspace, how many of them are written, and what is laid there. Behind
/// the lists the words are any: as many as rows, or all where the lists are written by a walk.
#[derive(Drop)]
struct WorkspaceCase<'a> {
    what: &'a str,
    n: i64,
    a_p: &'a [i64],
    a_i: &'a [i64],
    more: usize,
    written: usize,
    words: &'a [isize],
    starts: &'a [isize],
    lengths: &'a [usize],
}

/// Matrices with their workspaces, which have as much room as `order` asks for.
static MATRICES: [WorkspaceCase<'static>; 5] = [
    WorkspaceCase {
        what: "a four-cycle",
        n: 4,
        a_p: &[0, 2, 3, 4, 4],
        a_i: &[1, 3, 2, 3],
        more: 1,
        written: 13,
        words: &[1, 3, 0, 2, 1, 3, 0, 2],
        starts: &[0, 2, 4, 6],
        lengths: &[2, 2, 2, 2],
    },
    WorkspaceCase {
        what: "the five-row matrix of the demo",
        n: 5,
        a_p: &[0, 2, 6, 10, 12, 14],
        a_i: &[0, 1, 0, 1, 2, 4, 1, 2, 3, 4, 2, 3, 1, 4],
        more: 2,
        written: 17,
        words: &[1, 0, 2, 4, 1, 3, 4, 2, 1, 2],
        starts: &[0, 1, 4, 7, 8],
        lengths: &[1, 3, 3, 1, 2],
    },
    WorkspaceCase {
        what: "five rows whose lists do not all rise",
        n: 5,
        a_p: &[0, 1, 2, 3, 3, 6],
        a_i: &[4, 3, 3, 1, 2, 3],
        more: 2,
        written: 19,
        words: &[4, 4, 3, 4, 3, 1, 2, 4, 1, 2, 3, 0],
        starts: &[0, 1, 3, 5, 8],
        lengths: &[1, 2, 2, 3, 4],
    },
    WorkspaceCase {
        what: "a path of three rows in both triangles, behind whose last list the last diagonal entry was copied",
        n: 3,
        a_p: &[0, 2, 5, 7],
        a_i: &[0, 1, 0, 1, 2, 1, 2],
        more: 0,
        written: 7,
        words: &[1, 0, 2, 1],
        starts: &[0, 1, 3],
        lengths: &[1, 2, 1],
    },
    WorkspaceCase {
        what: "eleven rows with long lists and no entry above the diagonal, five pairs of them not joined",
        n: 11,
        a_p: &[0, 10, 18, 26, 33, 39, 43, 46, 49, 51, 52, 53],
        a_i: &[
            0, 1, 2, 3, 5, 6, 7, 8, 9, 10, 3, 4, 5, 6, 7, 8, 9, 10, 3, 4, 5, 6, 7, 8, 9, 10, 3, 4,
            5, 6, 7, 8, 9, 5, 6, 7, 8, 9, 10, 6, 7, 8, 10, 8, 9, 10, 8, 9, 10, 9, 10, 10, 10,
        ],
        more: 20,
        written: 111,
        words: &[
            1, 2, 3, 5, 6, 7, 8, 9, 10, 0, 3, 4, 5, 6, 7, 8, 9, 10, 0, 3, 4, 5, 6, 7, 8, 9, 10, 0,
            1, 2, 4, 5, 6, 7, 8, 9, 1, 2, 3, 5, 6, 7, 8, 9, 10, 0, 1, 2, 3, 4, 6, 7, 8, 10, 0, 1,
            2, 3, 4, 5, 8, 9, 10, 0, 1, 2, 3, 4, 5, 8, 9, 10, 0, 1, 2, 3, 4, 5, 6, 7, 9, 10, 0, 1,
            2, 3, 4, 6, 7, 8, 10, 0, 1, 2, 4, 5, 6, 7, 8, 9,
        ],
        starts: &[0, 9, 18, 27, 36, 45, 54, 63, 72, 82, 91],
        lengths: &[9, 9, 9, 9, 9, 9, 9, 9, 10, 9, 9],
    },
];

/// Whether words begin with these numbers.
fn begin_with<S: Signed>(words: &[Word<S>], wanted: &[isize]) -> bool {
    for (k, &number) in wanted.iter().enumerate() {
        if k >= words.len() || word_at(words, k) != number {
            return false;
        }
    }
    true
}

/// Whether words are these numbers.
pub fn are_words<S: Signed>(words: &[Word<S>], wanted: &[isize]) -> bool {
    words.len() == wanted.len() && begin_with(words, wanted)
}

/// Whether figures are these numbers.
fn are_figures<U: Unsigned>(figures: &[Cell<U>], wanted: &[usize]) -> bool {
    for (k, &number) in wanted.iter().enumerate() {
        if k >= figures.len() || cell_at(figures, k) != number {
            return false;
        }
    }
    figures.len() == wanted.len()
}

/// Memory in which lists are laid.
#[derive(Drop)]
pub struct Laid<S: Signed, P: Signed, U: Unsigned> {
    /// The memory.
    pub memory: Memory<S, P, U, Global>,
    /// No list has a word from here on.
    pub free: usize,
}

/// Whether lists are laid as in a case, with so many words in use.
fn is_laid<S: Signed, P: Signed, U: Unsigned>(
    case: &WorkspaceCase,
    laid: &Laid<S, P, U>,
    sum: usize,
) -> bool {
    laid.memory.words.iw.len() == case.written
        && begin_with(&laid.memory.words.iw, case.words)
        && case.words.len() == sum
        && are_words(&laid.memory.pe, case.starts)
        && are_figures(&laid.memory.len, case.lengths)
        && laid.free == sum
}

/// Lays the lists of a sorted matrix in words of these widths, where `more` of them are to spare. The record tells the
/// pattern.
pub fn laid_of<S: Signed, P: Signed, U: Unsigned>(
    rt: &impl Abort,
    alloc: Global,
    n: i64,
    a_p: &[i64],
    a_i: &[i64],
    more: usize,
    info: &mut Info,
) -> Laid<S, P, U>
    ensures size { (n ≡ pos (length result.memory.len.items)) × (0 < length result.memory.len.items) }
    ensures laid { IsLaidOut (length result.memory.len.items) result.memory.words.iw.items result.memory.pe.items
        result.memory.len.items result.free }
    ensures graph { (g : Graph) × (lists : ℕ → List ℕ) ×
        LaysGraph g lists result.memory.words.iw.items result.memory.pe.items result.memory.len.items }
    ensures room { result.free + length result.memory.len.items ≤ length result.memory.words.iw.items }
    ensures wide { AreWideEnough S.MOST P.MOST U.MOST (length result.memory.len.items)
        (length result.memory.words.iw.items) }
{
    let (degrees, room) = degrees_of(rt, alloc, n, a_p, a_i, more, info);
    let len = degrees.as_slice();
    let size = len.len();
    assert!(rt; holds::<S, P, U>(size, room, 2));
    assert!(rt; count_at(a_p, size) <= U::MOST);
    let Ok(mut memory) = memory_for::<S, P, U, Global>(alloc, len, room) else {
        panic!(rt; "no memory");
    };
    let free = lay(size, a_p, a_i, room, &mut memory);
    Laid { memory, free }
}

/// Orders by `amd_2_from` over lists that are laid in words of these widths, with no word to spare.
pub fn order_laid<S: Signed, P: Signed, U: Unsigned>(
    rt: &impl Abort,
    alloc: Global,
    matrix: &Sorted,
    control: &Control,
    info: &mut Info,
) -> (Vec<Word<S>>, Vec<i64>, Vec<i64>, Vec<Word<P>>) {
    let (n, a_p, a_i) = (matrix.n, matrix.a_p, matrix.a_i);
    let mut laid = laid_of::<S, P, U>(rt, alloc, n, a_p, a_i, 0, info);
    check_marks(rt, matrix.hold, laid.memory.len.len());
    let choice = Choice {
        control,
        hold: matrix.hold,
        flag: 2,
    };
    let Ok(answer) = amd_2_from(
        alloc,
        n,
        &mut laid.memory.pe,
        &mut laid.memory.words.iw,
        &mut laid.memory.len,
        laid.free,
        &choice,
        info,
    ) else {
        panic!(rt; "no answer over laid lists");
    };
    answer
}

/// Asserts that the lists of a matrix, in words of these widths, are those of the case.
fn check<S: Signed, P: Signed, U: Unsigned>(rt: &impl Abort, alloc: Global, case: &WorkspaceCase) {
    let mut info = Info::new(0);
    let laid = laid_of::<S, P, U>(rt, alloc, case.n, case.a_p, case.a_i, case.more, &mut info);
    assert!(rt; is_laid(case, &laid, info.nz_a_plus_at), "{}", case.what);
}

#[test]
fn workspaces_are_laid(rt: HostRuntime) {
    for case in &MATRICES {
        check::<i32, i32, u32>(&rt, rt.alloc(), case);
        check::<i32, isize, u32>(&rt, rt.alloc(), case);
        check::<i32, isize, usize>(&rt, rt.alloc(), case);
        check::<isize, isize, usize>(&rt, rt.alloc(), case);
    }
}

/// Numbers and their marks: what names a parent or an owner in a workspace. -1 is its own mark.
static MARKS: [(isize, isize); 7] = [
    (-1, -1),
    (0, -2),
    (1, -3),
    (41, -43),
    (-43, 41),
    (isize::MIN, isize::MAX - 1),
    (isize::MAX - 1, isize::MIN),
];

#[test]
fn marks_of_numbers(rt: HostRuntime) {
    for (number, mark) in &MARKS {
        assert!(rt; flip(*number) == *mark, "a mark");
    }
}
