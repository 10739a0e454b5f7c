// The demo that orders the matrix can_24, after the second demo of the AMD user guide.

ghost use Rattle.std.specs.Prelude.{◌≡◌, ◌≤◌, pos};
ghost use Rattle.amd_demos.specs.Demos.{HasDemo};

use crate::can_24::{POINTERS, ROWS};
use crate::demo::{Form, demo_to};
use crate::matrix::DemoMatrix;
use std::alloc::Allocator;
use std::io::Write;

/// Writes the matrix can_24, orders it, and writes the ordering, the permuted matrix, and the exact factor under the
/// ordering beside the bounds in its record. The result is the exit status: 0 where all was written, and 1 where there
/// is no ordering or no factor, which the line `AMD failed` says, or after a fault of the writer, when nothing more is
/// written. What stands before the record, and between the permutations and the factor, plots among it, is not said.
pub fn order_to<W: Write, A: Allocator + Copy>(alloc: A, out: &mut W) -> u8
    ensures status { result ≤ 1 }
    ensures written { result ≡ 0 → HasDemo Form.Sorted (pos 24) POINTERS ROWS (W.contents out.old)
        (W.contents out.new) }
{
    let matrix = DemoMatrix {
        n: 24,
        a_p: &POINTERS,
        a_i: &ROWS,
    };
    demo_to(alloc, Form::Sorted, &matrix, out)
}
