// The status of an input by `valid`. A fault wins over a jumbled column, wherever either stands. The statuses were
// worked by hand from the definition of a column form. That `order` refuses such inputs too is in the stored cases of
// `amd_replay`.

use amd::Status;
use amd::valid::valid;

/// An input with its status. It may have fewer columns than rows, or more. A number of rows below 0 leaves no row.
#[derive(Drop)]
struct Judged<'a> {
    n_row: i32,
    n_col: i32,
    a_p: &'a [i32],
    a_i: &'a [i32],
    status: Status,
}

/// Inputs of any shape with their statuses.
static JUDGED: [Judged<'static>; 30] = [
    Judged {
        n_row: 2,
        n_col: 2,
        a_p: &[0, 1, 1],
        a_i: &[1],
        status: Status::OK,
    },
    Judged {
        n_row: 2,
        n_col: 2,
        a_p: &[0, 2, 2],
        a_i: &[1, 1],
        status: Status::OkButJumbled,
    },
    Judged {
        n_row: 2,
        n_col: 2,
        a_p: &[0, 2, 3],
        a_i: &[1, 0, 1],
        status: Status::OkButJumbled,
    },
    Judged {
        n_row: 2,
        n_col: 2,
        a_p: &[0, 1, 2],
        a_i: &[1, 0],
        status: Status::OK,
    },
    Judged {
        n_row: 2,
        n_col: 2,
        a_p: &[0, 1, 1],
        a_i: &[0, -1],
        status: Status::OK,
    },
    Judged {
        n_row: 2,
        n_col: 3,
        a_p: &[0, 1, 1, 3],
        a_i: &[1, 0, 1],
        status: Status::OK,
    },
    Judged {
        n_row: 1,
        n_col: 3,
        a_p: &[0, 1, 1, 3],
        a_i: &[1, 0, 1],
        status: Status::Invalid,
    },
    Judged {
        n_row: 3,
        n_col: 1,
        a_p: &[0, 2],
        a_i: &[2, 1],
        status: Status::OkButJumbled,
    },
    Judged {
        n_row: 0,
        n_col: 2,
        a_p: &[0, 0, 0],
        a_i: &[],
        status: Status::OK,
    },
    Judged {
        n_row: 0,
        n_col: 0,
        a_p: &[0],
        a_i: &[],
        status: Status::OK,
    },
    Judged {
        n_row: 0,
        n_col: 0,
        a_p: &[],
        a_i: &[],
        status: Status::Invalid,
    },
    Judged {
        n_row: 0,
        n_col: 0,
        a_p: &[7],
        a_i: &[],
        status: Status::Invalid,
    },
    Judged {
        n_row: -1,
        n_col: 1,
        a_p: &[0, 0],
        a_i: &[],
        status: Status::OK,
    },
    Judged {
        n_row: i32::MIN,
        n_col: 0,
        a_p: &[0],
        a_i: &[],
        status: Status::OK,
    },
    Judged {
        n_row: -1,
        n_col: 1,
        a_p: &[0, 1],
        a_i: &[-1],
        status: Status::Invalid,
    },
    Judged {
        n_row: 1,
        n_col: i32::MIN,
        a_p: &[0, 0],
        a_i: &[],
        status: Status::Invalid,
    },
    // Descending pointers.
    Judged {
        n_row: 2,
        n_col: 2,
        a_p: &[0, 2, 1],
        a_i: &[0, 1],
        status: Status::Invalid,
    },
    // A first pointer that is not 0.
    Judged {
        n_row: 1,
        n_col: 1,
        a_p: &[1, 1],
        a_i: &[0],
        status: Status::Invalid,
    },
    // A row past the last one.
    Judged {
        n_row: 1,
        n_col: 1,
        a_p: &[0, 1],
        a_i: &[1],
        status: Status::Invalid,
    },
    // A negative row.
    Judged {
        n_row: 1,
        n_col: 1,
        a_p: &[0, 1],
        a_i: &[-1],
        status: Status::Invalid,
    },
    // A negative number of rows.
    Judged {
        n_row: -1,
        n_col: -1,
        a_p: &[0],
        a_i: &[],
        status: Status::Invalid,
    },
    // The least number of rows.
    Judged {
        n_row: i32::MIN,
        n_col: i32::MIN,
        a_p: &[0],
        a_i: &[],
        status: Status::Invalid,
    },
    // Too few pointers.
    Judged {
        n_row: 2,
        n_col: 2,
        a_p: &[0, 1],
        a_i: &[0],
        status: Status::Invalid,
    },
    // No pointer.
    Judged {
        n_row: 1,
        n_col: 1,
        a_p: &[],
        a_i: &[],
        status: Status::Invalid,
    },
    // A last pointer past the end.
    Judged {
        n_row: 2,
        n_col: 2,
        a_p: &[0, 1, 3],
        a_i: &[0, 1],
        status: Status::Invalid,
    },
    // A negative pointer.
    Judged {
        n_row: 2,
        n_col: 2,
        a_p: &[0, -1, 1],
        a_i: &[0],
        status: Status::Invalid,
    },
    // A jumbled column, and a row out of range in a later one.
    Judged {
        n_row: 2,
        n_col: 2,
        a_p: &[0, 2, 3],
        a_i: &[1, 0, 5],
        status: Status::Invalid,
    },
    // A jumbled column, and a descending pointer after it.
    Judged {
        n_row: 2,
        n_col: 2,
        a_p: &[0, 2, 1],
        a_i: &[1, 0],
        status: Status::Invalid,
    },
    // A jumbled column, and a pointer past the end after it.
    Judged {
        n_row: 2,
        n_col: 2,
        a_p: &[0, 2, 4],
        a_i: &[1, 0, 0],
        status: Status::Invalid,
    },
    // A row out of range in a jumbled column.
    Judged {
        n_row: 3,
        n_col: 3,
        a_p: &[0, 3, 3, 3],
        a_i: &[1, 0, 3],
        status: Status::Invalid,
    },
];

#[test]
fn statuses_of_inputs(rt: HostRuntime) {
    for judged in &JUDGED {
        let a_p = judged.a_p;
        let a_i = judged.a_i;
        let n_row = judged.n_row;
        let n_col = judged.n_col;
        assert!(rt;
            valid(n_row, n_col, a_p, a_i) == judged.status,
            "at {n_row} {n_col} {a_p:?} {a_i:?}"
        );
    }
}
