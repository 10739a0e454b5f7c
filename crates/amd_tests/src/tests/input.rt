// What is read of an input: degrees and figures of a pattern, and the transpose of a jumbled matrix. The answers were
// worked by hand from the definition of a column form.

use amd::aat::aat;
use amd::preprocess::preprocess;
use amd::valid::valid;
use amd::{Info, Status};
use amd_testing::check;
use std::test::Fail;

#[test]
fn counts_the_arcs_of_a_pattern(rt: HostRuntime) -> Result<(), Fail> {
    let a_p: [i32; 6] = [0, 2, 6, 10, 12, 14];
    let a_i: [i32; 14] = [0, 1, 0, 1, 2, 4, 1, 2, 3, 4, 2, 3, 1, 4];
    let mut info = Info::new(0);
    let Status::OK = valid(5, 5, &a_p, &a_i) else {
        return Err(Fail::from("not sorted"));
    };
    let (sum, degrees) = aat(rt.alloc(), 5, &a_p, &a_i, &mut info)?;
    check!(&rt; sum == 10 && degrees.as_slice() == [1, 3, 3, 1, 2].as_slice());
    check!(&rt; [info.n, info.nz, info.nz_diag, info.nz_a_plus_at] == [5, 14, 5, 10]);
    check!(&rt; !info.symmetry);
    Ok(())
}

#[test]
fn sees_a_symmetric_pattern(rt: HostRuntime) -> Result<(), Fail> {
    let a_p: [i32; 4] = [0, 3, 6, 9];
    let a_i: [i32; 9] = [0, 1, 2, 0, 1, 2, 0, 1, 2];
    let mut info = Info::new(0);
    let Status::OK = valid(3, 3, &a_p, &a_i) else {
        return Err(Fail::from("not sorted"));
    };
    let (sum, _) = aat(rt.alloc(), 3, &a_p, &a_i, &mut info)?;
    check!(&rt; [sum, info.nz, info.nz_diag] == [6, 9, 3] && info.symmetry);
    Ok(())
}

#[test]
fn transposes(rt: HostRuntime) {
    let heap = rt.alloc();
    // The last two row indices stand past the last pointer, and are no rows.
    let Ok((pointers, rows)) = preprocess(heap, 3i32, &[0, 3, 3, 4], &[2, 0, 2, 1, -5, 77]) else {
        panic!(rt; "no answer");
    };
    check!(&rt; pointers.as_slice() == [0, 1, 2, 3].as_slice());
    check!(&rt; rows.as_slice() == [0, 2, 0].as_slice());
}

#[test]
fn drops_repeats_up_to_the_greatest_pointer(rt: HostRuntime) {
    let heap = rt.alloc();
    let Status::OkButJumbled = valid(2u8, 2, &[0, 255, 255], &[1; 255]) else {
        panic!(rt; "not jumbled");
    };
    let Ok((pointers, rows)) = preprocess(heap, 2u8, &[0, 255, 255], &[1; 255]) else {
        panic!(rt; "no answer");
    };
    check!(&rt; pointers.as_slice() == [0, 0, 1].as_slice());
    check!(&rt; rows.as_slice() == [0].as_slice());
}
