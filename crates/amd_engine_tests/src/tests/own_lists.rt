// `amd_2` over lists that its caller owns, as numbers: worked matrices, whose orders and numbers of rows are those of
// the other tests in place. `families` compares it with the other calls.

ghost use Rattle.std.specs.Prelude.{◌≡◌};

use crate::tests::in_place_matrices::{EngineCase, matrices};
use crate::tests::in_place_rows::{control_of, is_answer, matrix_of};
use crate::tests::laid::laid_of;
use crate::tests::sorted::Sorted;
use amd_engine::amd_2::amd_2;
use amd_testing::check;
use amd_types::amd::{Control, Info};
use amd_words::{Cell, Word, number_of, word_at};
use std::alloc::Global;
use std::process::Abort;

/// The numbers of words.
fn words_of(rt: &impl Abort, alloc: Global, words: &[Word<isize>]) -> Vec<isize>
    ensures { result.items ≡ words.now }
{
    let Ok(mut numbers) = Vec::with_capacity(alloc, words.len()) else {
        panic!(rt; "no memory");
    };
    'words: for k in 0..words.len() {
        numbers.push_reserved(word_at(words, k));
    }
    numbers
}

/// The numbers of cells.
fn cells_of(rt: &impl Abort, alloc: Global, cells: &[Cell<usize>]) -> Vec<usize>
    ensures { result.items ≡ cells.now }
{
    let Ok(mut numbers) = Vec::with_capacity(alloc, cells.len()) else {
        panic!(rt; "no memory");
    };
    'cells: for cell in cells {
        numbers.push_reserved(number_of(cell));
    }
    numbers
}

/// What `amd_2` returns: numbers of rows, the permutation, and its inverse.
#[derive(Drop)]
pub struct ListedRows {
    pub blocks: Vec<i64>,
    pub p_inv: Vec<i64>,
    pub p: Vec<i64>,
    pub fronts: Vec<isize>,
}

/// Orders by `amd_2` over lists in numbers, with no word to spare. No row of the matrix is marked.
pub fn order_numbers(
    rt: &impl Abort,
    alloc: Global,
    matrix: &Sorted,
    control: &Control,
    info: &mut Info,
) -> ListedRows {
    let n = matrix.n;
    let laid = laid_of::<isize, isize, usize>(rt, alloc, n, matrix.a_p, matrix.a_i, 0, info);
    let mut pe = words_of(rt, alloc, &laid.memory.pe);
    let mut iw = words_of(rt, alloc, &laid.memory.words.iw);
    let mut len = cells_of(rt, alloc, &laid.memory.len);
    let room = iw.len();
    let Ok((blocks, p_inv, p, fronts)) = amd_2(
        alloc, n, &mut pe, &mut iw, &mut len, room, laid.free, control, info,
    ) else {
        panic!(rt; "no answer over numbers");
    };
    ListedRows {
        blocks,
        p_inv,
        p,
        fronts,
    }
}

/// Whether counts of rows, in the caller's type, are these.
fn are_counts(counts: &[i64], wanted: &[isize]) -> bool {
    for (k, &count) in counts.iter().enumerate() {
        if k >= wanted.len() || count != wanted[k] as i64 {
            return false;
        }
    }
    counts.len() == wanted.len()
}

/// Asserts that `amd_2` gives the answer of a case.
fn check_case(rt: &impl Abort, alloc: Global, case: &EngineCase) {
    let mut info = Info::new(0);
    let answer = order_numbers(rt, alloc, &matrix_of(case), &control_of(case), &mut info);
    check!(rt; is_answer(case, &answer.p, &answer.p_inv, &info), case.what);
    assert!(rt;
        are_counts(&answer.blocks, case.blocks),
        "blocks of {}",
        case.what
    );
    assert!(rt;
        answer.fronts.as_slice() == case.fronts,
        "fronts of {}",
        case.what
    );
}

#[test]
fn worked_matrices_over_numbers(rt: HostRuntime) {
    for case in matrices() {
        if case.hold.is_none() {
            check_case(&rt, rt.alloc(), case);
        }
    }
}
