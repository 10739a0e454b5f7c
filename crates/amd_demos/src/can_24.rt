// The 24-by-24 matrix can_24 of the Harwell/Boeing collection, as the demos of the AMD user guide give it: whole, and
// in a jumbled form with repeats and with entries left out. The data are those demos' (BSD 3-clause, see LICENSE).

/// Where each column begins in `ROWS`, and then where the last one ends.
pub static POINTERS: [i32; 25] = [
    0, 9, 15, 21, 27, 33, 39, 48, 57, 61, 70, 76, 82, 88, 94, 100, 106, 110, 119, 128, 137, 143,
    152, 156, 160,
];

/// The rows of the columns, one column after the other.
pub static ROWS: [i32; 160] = [
    0, 5, 6, 12, 13, 17, 18, 19, 21, 1, 8, 9, 13, 14, 17, 2, 6, 11, 20, 21, 22, 3, 7, 10, 15, 18,
    19, 4, 7, 9, 14, 15, 16, 0, 5, 6, 12, 13, 17, 0, 2, 5, 6, 11, 12, 19, 21, 23, 3, 4, 7, 9, 14,
    15, 16, 17, 18, 1, 8, 9, 14, 1, 4, 7, 8, 9, 13, 14, 17, 18, 3, 10, 18, 19, 20, 21, 2, 6, 11,
    12, 21, 23, 0, 5, 6, 11, 12, 23, 0, 1, 5, 9, 13, 17, 1, 4, 7, 8, 9, 14, 3, 4, 7, 15, 16, 18, 4,
    7, 15, 16, 0, 1, 5, 7, 9, 13, 17, 18, 19, 0, 3, 7, 9, 10, 15, 17, 18, 19, 0, 3, 6, 10, 17, 18,
    19, 20, 21, 2, 10, 19, 20, 21, 22, 0, 2, 6, 10, 11, 19, 20, 21, 22, 2, 20, 21, 22, 6, 11, 12,
    23,
];

/// Where each column of the jumbled form begins in `JUMBLED_ROWS`, and then where the last one ends.
pub static JUMBLED_POINTERS: [i32; 25] = [
    0, 9, 14, 20, 28, 33, 37, 44, 53, 58, 63, 63, 66, 69, 72, 75, 78, 82, 86, 91, 97, 101, 112,
    112, 116,
];

/// The rows of the columns of the jumbled form, one column after the other.
pub static JUMBLED_ROWS: [i32; 116] = [
    0, 17, 18, 21, 5, 12, 5, 0, 13, 14, 1, 8, 13, 17, 2, 20, 11, 6, 11, 22, 3, 3, 10, 7, 18, 18,
    15, 19, 7, 9, 15, 14, 16, 5, 13, 6, 17, 5, 0, 11, 6, 12, 6, 23, 3, 4, 9, 7, 14, 16, 15, 17, 18,
    1, 9, 14, 14, 14, 7, 13, 8, 1, 17, 2, 12, 23, 5, 11, 12, 0, 13, 17, 1, 9, 14, 3, 15, 16, 16, 4,
    4, 15, 13, 17, 19, 17, 15, 17, 19, 9, 10, 17, 19, 20, 0, 6, 10, 22, 10, 20, 21, 6, 2, 10, 19,
    20, 11, 21, 22, 22, 22, 22, 12, 11, 12, 23,
];
