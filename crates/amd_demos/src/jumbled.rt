// The demo that orders a jumbled form of the matrix can_24, after the third demo of the AMD user guide.

ghost use Rattle.std.specs.Prelude.{◌≡◌, ◌≤◌, pos};
ghost use Rattle.amd_demos.specs.Demos.{HasDemo};

use crate::can_24::{JUMBLED_POINTERS, JUMBLED_ROWS};
use crate::demo::{Form, demo_to};
use crate::matrix::DemoMatrix;
use std::alloc::Allocator;
use std::io::Write;

/// Writes the jumbled form of the matrix can_24, orders it, and writes the ordering and the permuted matrix. The answer
/// is the exit status: 0 where an ordering was written, and 1 where there is none, which the line `AMD failed` says, or
/// after a fault of the writer, when nothing more is written. What stands before the record and behind the
/// permutations, plots among it, is not said.
pub fn jumbled_to<W: Write, A: Allocator + Copy>(alloc: A, out: &mut W) -> u8
    ensures status { result ≤ 1 }
    ensures written { result ≡ 0 → HasDemo Form.Jumbled (pos 24) JUMBLED_POINTERS JUMBLED_ROWS (W.contents out.old)
        (W.contents out.new) }
{
    let matrix = DemoMatrix {
        n: 24,
        a_p: &JUMBLED_POINTERS,
        a_i: &JUMBLED_ROWS,
    };
    demo_to(alloc, Form::Jumbled, &matrix, out)
}
