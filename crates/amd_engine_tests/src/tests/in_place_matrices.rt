// Worked matrices for the engine in place, with their answers: worked by hand, or from the Rust crate `amd` and from a
// plain program that follows the rules.

/// A sorted matrix, what a caller chooses, and the answer. The figures are the number of rows held last, `lnz`, those
/// of `LDL'` and of `LU`, and `d_max`; the divisions are as many as `lnz`. An element stands at its pivot row.
#[derive(Drop)]
pub struct EngineCase<'a> {
    pub what: &'a str,
    pub n: i64,
    pub a_p: &'a [i64],
    pub a_i: &'a [i64],
    pub dense: i32,
    pub aggressive: bool,
    pub hold: Option<&'a [bool]>,
    pub p: &'a [i64],
    /// The number of rows of the block of each element, 0 for what is none.
    pub blocks: &'a [isize],
    /// The number of rows of the front of each element, -1 for what is none.
    pub fronts: &'a [isize],
    pub figures: [usize; 5],
    /// Whether the lists are packed, with no word to spare and with those of `order`.
    pub packs: bool,
}

/// One row, by these columns, and the number that tells which rows are dense.
macro_rules! one_row {
    ($what:expr, $a_p:expr, $a_i:expr, $dense:expr) => {
        EngineCase {
            what: $what,
            n: 1,
            a_p: $a_p,
            a_i: $a_i,
            dense: $dense,
            aggressive: true,
            hold: None,
            p: &[0],
            blocks: &[1],
            fronts: &[1],
            figures: [0, 0, 0, 0, 1],
            packs: false,
        }
    };
}

/// Two rows with an edge, by these columns.
macro_rules! one_edge {
    ($what:expr, $a_p:expr, $a_i:expr) => {
        EngineCase {
            what: $what,
            n: 2,
            a_p: $a_p,
            a_i: $a_i,
            dense: 10000,
            aggressive: true,
            hold: None,
            p: &[0, 1],
            blocks: &[0, 2],
            fronts: &[-1, 2],
            figures: [0, 1, 1, 1, 2],
            packs: false,
        }
    };
}

/// A star of eighteen rows with no dense row: what is chosen, and its order.
macro_rules! star {
    ($what:expr, $dense:expr, $aggressive:expr, $p:expr) => {
        EngineCase {
            what: $what,
            n: 18,
            a_p: &[
                0, 17, 17, 17, 17, 17, 17, 17, 17, 17, 17, 17, 17, 17, 17, 17, 17, 17, 17,
            ],
            a_i: &[1, 2, 3, 4, 5, 6, 7, 8, 9, 10, 11, 12, 13, 14, 15, 16, 17],
            dense: $dense,
            aggressive: $aggressive,
            hold: None,
            p: $p,
            blocks: &[2, 0, 1, 1, 1, 1, 1, 1, 1, 1, 1, 1, 1, 1, 1, 1, 1, 1],
            fronts: &[2, -1, 2, 2, 2, 2, 2, 2, 2, 2, 2, 2, 2, 2, 2, 2, 2, 2],
            figures: [0, 17, 17, 17, 2],
            packs: false,
        }
    };
}

/// A star of eighteen rows whose centre is dense by this number.
macro_rules! dense_star {
    ($what:expr, $dense:expr) => {
        EngineCase {
            what: $what,
            n: 18,
            a_p: &[
                0, 17, 17, 17, 17, 17, 17, 17, 17, 17, 17, 17, 17, 17, 17, 17, 17, 17, 17,
            ],
            a_i: &[1, 2, 3, 4, 5, 6, 7, 8, 9, 10, 11, 12, 13, 14, 15, 16, 17],
            dense: $dense,
            aggressive: true,
            hold: None,
            p: &[1, 2, 3, 4, 5, 6, 7, 8, 9, 10, 11, 12, 13, 14, 15, 16, 17, 0],
            blocks: &[0, 1, 1, 1, 1, 1, 1, 1, 1, 1, 1, 1, 1, 1, 1, 1, 1, 1],
            fronts: &[-1, 1, 1, 1, 1, 1, 1, 1, 1, 1, 1, 1, 1, 1, 1, 1, 1, 1],
            figures: [1, 17, 17, 17, 2],
            packs: false,
        }
    };
}

/// The twenty-four rows of can_24, in columns that may leave out one entry of an edge or the diagonal.
macro_rules! can_24 {
    ($what:expr, $a_p:expr, $a_i:expr) => {
        EngineCase {
            what: $what,
            n: 24,
            a_p: $a_p,
            a_i: $a_i,
            dense: 10000,
            aggressive: true,
            hold: None,
            p: &[
                22, 20, 10, 23, 12, 5, 16, 8, 14, 4, 15, 7, 1, 9, 13, 17, 0, 2, 3, 6, 11, 18, 21, 19,
            ],
            blocks: &[
                0, 0, 0, 0, 1, 1, 0, 1, 1, 2, 1, 0, 1, 1, 1, 1, 1, 1, 0, 8, 1, 0, 1, 1,
            ],
            fronts: &[
                -1, -1, -1, -1, 5, 6, -1, 6, 4, 6, 6, -1, 5, 7, 5, 6, 4, 7, -1, 8, 5, -1, 4, 4,
            ],
            figures: [0, 97, 275, 453, 8],
            packs: false,
        }
    };
}

/// Matrices with their answers.
static MATRICES: [EngineCase<'static>; 26] = [
    one_row!("one row without entries", &[0, 0], &[], 10000),
    one_row!("one row without entries, no dense rows", &[0, 0], &[], -1),
    EngineCase {
        what: "one edge and an empty row",
        n: 3,
        a_p: &[0, 1, 1, 1],
        a_i: &[2],
        dense: 10000,
        aggressive: true,
        hold: None,
        p: &[1, 0, 2],
        blocks: &[0, 1, 2],
        fronts: &[-1, 1, 2],
        figures: [0, 1, 1, 1, 2],
        packs: false,
    },
    EngineCase {
        what: "one edge and an empty row that is held",
        n: 3,
        a_p: &[0, 1, 1, 1],
        a_i: &[2],
        dense: 10000,
        aggressive: true,
        hold: Some(&[false, true, false]),
        p: &[0, 2, 1],
        blocks: &[0, 0, 2],
        fronts: &[-1, -1, 2],
        figures: [1, 3, 4, 5, 3],
        packs: false,
    },
    one_edge!("one edge", &[0, 1, 1], &[1]),
    one_edge!("one edge, by its other entry", &[0, 0, 1], &[0]),
    EngineCase {
        what: "the five rows of the demo",
        n: 5,
        a_p: &[0, 2, 6, 10, 12, 14],
        a_i: &[0, 1, 0, 1, 2, 4, 1, 2, 3, 4, 2, 3, 1, 4],
        dense: 10000,
        aggressive: true,
        hold: None,
        p: &[0, 3, 2, 4, 1],
        blocks: &[1, 3, 0, 1, 0],
        fronts: &[2, 3, -1, 2, -1],
        figures: [0, 5, 6, 7, 3],
        packs: false,
    },
    EngineCase {
        what: "a path of three rows",
        n: 3,
        a_p: &[0, 1, 2, 2],
        a_i: &[1, 2],
        dense: 10000,
        aggressive: true,
        hold: None,
        p: &[2, 0, 1],
        blocks: &[0, 2, 1],
        fronts: &[-1, 2, 2],
        figures: [0, 2, 2, 2, 2],
        packs: false,
    },
    EngineCase {
        what: "a path of three rows, the middle one held",
        n: 3,
        a_p: &[0, 1, 2, 2],
        a_i: &[1, 2],
        dense: 10000,
        aggressive: true,
        hold: Some(&[false, true, false]),
        p: &[0, 2, 1],
        blocks: &[1, 0, 1],
        fronts: &[1, -1, 1],
        figures: [1, 2, 2, 2, 2],
        packs: false,
    },
    EngineCase {
        what: "a four-cycle",
        n: 4,
        a_p: &[0, 2, 3, 4, 4],
        a_i: &[1, 3, 2, 3],
        dense: 10000,
        aggressive: true,
        hold: None,
        p: &[3, 0, 1, 2],
        blocks: &[0, 0, 3, 1],
        fronts: &[-1, -1, 3, 3],
        figures: [0, 5, 7, 9, 3],
        packs: false,
    },
    EngineCase {
        what: "a four-cycle with a held row",
        n: 4,
        a_p: &[0, 2, 3, 4, 4],
        a_i: &[1, 3, 2, 3],
        dense: 10000,
        aggressive: true,
        hold: Some(&[true, false, false, false]),
        p: &[3, 1, 2, 0],
        blocks: &[0, 0, 2, 1],
        fronts: &[-1, -1, 2, 2],
        figures: [1, 5, 7, 9, 3],
        packs: false,
    },
    EngineCase {
        what: "a four-cycle, all of it held",
        n: 4,
        a_p: &[0, 2, 3, 4, 4],
        a_i: &[1, 3, 2, 3],
        dense: 10000,
        aggressive: true,
        hold: Some(&[true, true, true, true]),
        p: &[0, 1, 2, 3],
        blocks: &[0, 0, 0, 0],
        fronts: &[-1, -1, -1, -1],
        figures: [4, 6, 10, 14, 4],
        packs: false,
    },
    star!(
        "a star",
        10000,
        true,
        &[17, 16, 15, 14, 13, 12, 11, 10, 9, 8, 7, 6, 5, 4, 3, 2, 1, 0]
    ),
    star!(
        "a star without aggressive absorption",
        10000,
        false,
        &[2, 3, 4, 5, 6, 7, 8, 9, 10, 11, 12, 13, 14, 15, 16, 17, 1, 0]
    ),
    dense_star!("a star with a dense centre, by -1", -1),
    dense_star!("a star with a dense centre, by 0", 0),
    dense_star!("a star with a dense centre, by 4006", 4006),
    star!(
        "a star with a centre that is just not dense",
        4007,
        true,
        &[17, 16, 15, 14, 13, 12, 11, 10, 9, 8, 7, 6, 5, 4, 3, 2, 1, 0]
    ),
    EngineCase {
        what: "a full matrix with three rows",
        n: 3,
        a_p: &[0, 3, 6, 9],
        a_i: &[0, 1, 2, 0, 1, 2, 0, 1, 2],
        dense: 10000,
        aggressive: true,
        hold: None,
        p: &[0, 1, 2],
        blocks: &[0, 0, 3],
        fronts: &[-1, -1, 3],
        figures: [0, 3, 4, 5, 3],
        packs: false,
    },
    one_row!(
        "one entry on the diagonal, and numbers after the end",
        &[0, 1, 7],
        &[0, 9],
        10000
    ),
    EngineCase {
        what: "two rows whose variables differ and have the same sum, and three that merge",
        n: 7,
        a_p: &[0, 2, 6, 9, 11, 12, 12, 12],
        a_i: &[5, 6, 2, 3, 4, 5, 3, 4, 6, 4, 6, 5],
        dense: 10000,
        aggressive: true,
        hold: None,
        p: &[0, 6, 1, 3, 4, 5, 2],
        blocks: &[1, 0, 5, 0, 0, 0, 1],
        fronts: &[3, -1, 5, -1, -1, -1, 4],
        figures: [0, 15, 29, 43, 5],
        packs: false,
    },
    EngineCase {
        what: "an edge beside a star whose centre is dense",
        n: 20,
        a_p: &[
            0, 17, 17, 17, 17, 17, 17, 17, 17, 17, 17, 17, 17, 17, 17, 17, 17, 17, 17, 18, 18,
        ],
        a_i: &[
            1, 2, 3, 4, 5, 6, 7, 8, 9, 10, 11, 12, 13, 14, 15, 16, 17, 19,
        ],
        dense: 0,
        aggressive: true,
        hold: None,
        p: &[
            1, 2, 3, 4, 5, 6, 7, 8, 9, 10, 11, 12, 13, 14, 15, 16, 17, 18, 19, 0,
        ],
        blocks: &[0, 1, 1, 1, 1, 1, 1, 1, 1, 1, 1, 1, 1, 1, 1, 1, 1, 1, 0, 2],
        fronts: &[-1, 1, 1, 1, 1, 1, 1, 1, 1, 1, 1, 1, 1, 1, 1, 1, 1, 1, -1, 2],
        figures: [1, 20, 21, 22, 3],
        packs: false,
    },
    EngineCase {
        what: "a cycle of fourteen rows",
        n: 14,
        a_p: &[0, 2, 3, 4, 5, 6, 7, 8, 9, 10, 11, 12, 13, 14, 14],
        a_i: &[1, 13, 2, 3, 4, 5, 6, 7, 8, 9, 10, 11, 12, 13],
        dense: 10000,
        aggressive: true,
        hold: None,
        p: &[13, 12, 11, 10, 9, 8, 7, 6, 5, 4, 3, 0, 1, 2],
        blocks: &[0, 0, 3, 1, 1, 1, 1, 1, 1, 1, 1, 1, 1, 1],
        fronts: &[-1, -1, 3, 3, 3, 3, 3, 3, 3, 3, 3, 3, 3, 3],
        figures: [0, 25, 37, 49, 3],
        packs: true,
    },
    can_24!(
        "can_24",
        &[
            0, 9, 15, 21, 27, 33, 39, 48, 57, 61, 70, 76, 82,
            // and of the other twelve columns
            88, 94, 100, 106, 110, 119, 128, 137, 143, 152, 156, 160,
        ],
        &[
            0, 5, 6, 12, 13, 17, 18, 19, 21, 1, 8, 9, 13, 14, 17, 2, 6, 11, 20, 21, 22, 3, 7, 10,
            15, 18, 19, 4, 7, 9, 14, 15, 16, 0, 5, 6, 12, 13, 17, 0, 2, 5, 6, 11, 12, 19, 21, 23,
            3, 4, 7, 9, 14, 15, 16, 17, 18, 1, 8, 9, 14, 1, 4, 7, 8, 9, 13, 14, 17, 18, 3, 10, 18,
            19, 20, 21, 2, 6, 11, 12, 21, 23, 0, 5, 6, 11, 12, 23, 0, 1, 5, 9, 13, 17, 1, 4, 7, 8,
            9, 14, 3, 4, 7, 15, 16, 18, 4, 7, 15, 16, 0, 1, 5, 7, 9, 13, 17, 18, 19, 0, 3, 7, 9,
            10, 15, 17, 18, 19, 0, 3, 6, 10, 17, 18, 19, 20, 21, 2, 10, 19, 20, 21, 22, 0, 2, 6,
            10, 11, 19, 20, 21, 22, 2, 20, 21, 22, 6, 11, 12, 23,
        ]
    ),
    EngineCase {
        what: "eleven rows with long lists and no entry above the diagonal, five pairs of them not joined",
        n: 11,
        a_p: &[0, 10, 18, 26, 33, 39, 43, 46, 49, 51, 52, 53],
        a_i: &[
            0, 1, 2, 3, 5, 6, 7, 8, 9, 10, 3, 4, 5, 6, 7, 8, 9, 10, 3, 4, 5, 6, 7, 8, 9, 10, 3, 4,
            5, 6, 7, 8, 9, 5, 6, 7, 8, 9, 10, 6, 7, 8, 10, 8, 9, 10, 8, 9, 10, 9, 10, 10, 10,
        ],
        dense: 10000,
        aggressive: true,
        hold: None,
        p: &[10, 0, 1, 2, 3, 4, 5, 6, 7, 8, 9],
        blocks: &[0, 0, 0, 0, 0, 0, 0, 0, 0, 10, 1],
        fronts: &[-1, -1, -1, -1, -1, -1, -1, -1, -1, 10, 10],
        figures: [0, 54, 210, 366, 10],
        packs: false,
    },
    can_24!(
        "the sorted transpose of can_24 with jumbled columns",
        &[
            0, 4, 8, 11, 14, 16, 20, 25, 29, 31, 36, 41, 46, 51, 57, 62, 68, 72, 81, 84, 89, 93,
            96, 99, 102,
        ],
        &[
            0, 6, 13, 19, 1, 8, 9, 14, 2, 11, 21, 3, 7, 15, 7, 16, 0, 5, 6, 12, 2, 5, 6, 19, 21, 3,
            4, 7, 9, 1, 9, 4, 7, 8, 14, 18, 3, 18, 19, 20, 21, 2, 6, 12, 21, 23, 0, 6, 11, 12, 23,
            0, 1, 5, 9, 13, 17, 1, 4, 7, 8, 14, 3, 4, 7, 15, 16, 18, 4, 7, 15, 16, 0, 1, 5, 7, 9,
            13, 17, 18, 19, 0, 3, 7, 3, 17, 18, 19, 21, 2, 19, 20, 21, 0, 20, 21, 2, 20, 21, 6, 11,
            23,
        ]
    ),
];

/// The worked matrices. A proof of each function that names the list itself would hold all of it.
pub fn matrices() -> &'static [EngineCase<'static>] {
    &MATRICES
}
