// Files of each kind and files at fault, read from memory. The column forms were worked by hand, and the messages name
// the lines by hand too.

use amd_cli::held::read_held;
use amd_cli::listed::read_listed;
use amd_cli::listing::listing_of;
use amd_cli::valued::text_at_places;
use amd_market::reader::read_matrix;
use amd_testing::check;
use std::alloc::{AllocError, Global};
use std::process::Abort;
use std::test::Fail;

/// The column form of a file, or why there is none, as text.
fn told(alloc: Global, file: &str) -> Result<String, Fail> {
    match read_matrix(alloc, file.as_bytes()) {
        Ok(matrix) => {
            let a_p = matrix.a_p.as_slice();
            let a_i = matrix.a_i.as_slice();
            Ok(format!(in alloc; "{a_p:?} {a_i:?}")?)
        }
        Err(error) => Ok(format!(in alloc; "{error}")?),
    }
}

/// A header, and what stands behind it.
fn file_of(alloc: Global, kind: &str, rest: &str) -> Result<String, Fail> {
    Ok(format!(in alloc; "%%MatrixMarket matrix coordinate {kind}\n{rest}")?)
}

/// Asserts what is told of a file.
fn check_file(rt: &impl Abort, alloc: Global, file: &str, wanted: &str) -> Result<(), Fail> {
    let shown = told(alloc, file)?;
    assert!(rt; shown.as_str() == wanted, "{file}");
    Ok(())
}

/// Asserts what is told of a header of this kind with this behind it.
fn check_kind(
    rt: &impl Abort,
    alloc: Global,
    kind: &str,
    rest: &str,
    wanted: &str,
) -> Result<(), Fail> {
    let file = file_of(alloc, kind, rest)?;
    check_file(rt, alloc, &file, wanted)
}

/// Three entries with values.
const TWO: &str = "% a note\n\n3 3 3\n1 1 0.5\n 3\t1 -2e3\n2 3 7\n";

/// The same without values.
const BARE: &str = "3 3 3\n1 1\n3 1\n%\n2 3";

/// The same with values of two numbers.
const PAIRS: &str = "3 3 3\n1 1 0 1\n3 1 1 0\n2 3 0.5 0.5\n\n% end\n";

/// The same without values in another order, two of them twice.
const JUMBLED: &str = "3 3 5\n2 3\n3 1\n1 1\n3 1\n2 3\n";

/// Their column form.
const GENERAL: &str = "[0, 2, 2, 3] [0, 2, 1]";

/// The same with their mirror images.
const MIRRORED: &str = "[0, 2, 3, 5] [0, 2, 2, 0, 1]";

/// Kinds, what stands behind the header, and the column form.
static KINDS: [(&str, &str, &str); 11] = [
    ("real general", TWO, GENERAL),
    ("integer general", TWO, GENERAL),
    ("complex general", PAIRS, GENERAL),
    ("pattern general", BARE, GENERAL),
    ("pattern general", JUMBLED, GENERAL),
    ("real symmetric", TWO, MIRRORED),
    ("integer skew-symmetric", TWO, MIRRORED),
    ("complex hermitian", PAIRS, MIRRORED),
    ("pattern symmetric", BARE, MIRRORED),
    ("pattern symmetric", JUMBLED, MIRRORED),
    ("pattern general", "0 0 0\n", "[0] []"),
];

#[test]
fn kinds_of_files(rt: HostRuntime) -> Result<(), Fail> {
    for (kind, rest, wanted) in &KINDS {
        check_kind(&rt, rt.alloc(), kind, rest, wanted)?;
    }
    Ok(())
}

/// What is wrong with a line that is no size.
const SIZE: &str = "here must stand the numbers of rows, columns and entries";

/// What is wrong with a line that is no entry.
const ENTRY: &str = "here must stand the numbers of a row and a column";

/// What is wrong with a last word that is no symmetry.
const SYMMETRY: &str =
    "the last word is none of general, symmetric, skew-symmetric, hermitian, or not the fifth";

/// What is wrong with an entry that lacks a value.
const NO_VALUE: &str =
    "the value is missing: write it, or pattern in the first line if no entry has one";

/// A kind, what stands behind the header, and the line at fault, what is wrong with it, and what of it is shown.
static FAULTS: [(&str, &str, u64, &str, &str); 22] = [
    ("real", "", 1, SYMMETRY, ""),
    (
        "real general more",
        "",
        1,
        SYMMETRY,
        ", found: general more",
    ),
    ("real banded", "", 1, SYMMETRY, ", found: banded"),
    (
        "float general",
        "",
        1,
        "the fourth word is none of real, double, integer, unsigned-integer, complex, pattern",
        ", found: float",
    ),
    ("real general", "", 1, SIZE, ""),
    ("real general", "2 2\n", 2, SIZE, ", found: 2 2"),
    ("real general", "2 2 -1\n", 2, SIZE, ", found: 2 2 -1"),
    (
        "real general",
        "%\n2 3 0\n",
        3,
        "the matrix is not square: 2 rows, 3 columns",
        "",
    ),
    (
        "real general",
        "2 2 1\n3 1 1\n",
        3,
        "the row is out of range: 3, of rows 1 to 2",
        "",
    ),
    (
        "real general",
        "2 2 1\n0 1 1\n",
        3,
        "the row is out of range: 0, of rows 1 to 2; they count from 1",
        "",
    ),
    (
        "real general",
        "2 2 1\n\n1 -7 1\n",
        4,
        "the column is out of range: -7, of columns 1 to 2",
        "",
    ),
    ("real general", "2 2 1\n1 1\n", 3, NO_VALUE, ", found: 1 1"),
    (
        "complex general",
        "2 2 1\n1 1 1\n",
        3,
        NO_VALUE,
        ", found: 1 1 1",
    ),
    (
        "pattern general",
        "2 2 1\n1 1 1\n",
        3,
        "more words than the header tells of: a pattern has no values, and a comment a line of its own",
        ", found: 1 1 1",
    ),
    (
        "real general",
        "2 2 1\n 1 1 abc \r\n",
        3,
        "the value is no number",
        ", found: 1 1 abc",
    ),
    (
        "complex general",
        "2 2 1\n1 1 1 \u{e9}123456789012345678901234567890123\n",
        3,
        "the value is no number",
        ", found: 1 1 1 ??12345678901234567890123456789012...",
    ),
    (
        "real general",
        "2 2 1\n1 1 1D\n",
        3,
        "the value is no number",
        ", found: 1 1 1D",
    ),
    (
        "real general",
        "2 2 1\n1 1 infD\n",
        3,
        "the value is no number",
        ", found: 1 1 infD",
    ),
    ("pattern general", "2 2 1\n1 x\n", 3, ENTRY, ", found: 1 x"),
    ("pattern general", "2 2 1\n1\n", 3, ENTRY, ", found: 1"),
    (
        "pattern general",
        "2 2 2\n1 1\n",
        3,
        "the file ends too early: 1 entries of 2",
        "",
    ),
    (
        "pattern general",
        "2 2 1\n1 1\n%\n2 2\n",
        5,
        "more entries than the size tells: 1",
        ", found: 2 2",
    ),
];

#[test]
fn files_at_fault(rt: HostRuntime) -> Result<(), Fail> {
    for (kind, rest, line, fault, found) in &FAULTS {
        let wanted = format!(in rt.alloc(); "line {line}: {fault}{found}")?;
        check_kind(&rt, rt.alloc(), kind, rest, &wanted)?;
    }
    Ok(())
}

/// What is told of a file of no kind whose first line is `title`.
const UNKNOWN_TITLE: &str =
    "line 1: this is neither a Matrix Market file, which begins with %%MatrixMarket, nor a Harwell-Boeing file\
    , found: title";

/// Files whose first line is at fault, and what is told of them.
static NO_HEADERS: [(&[u8], &str); 8] = [
    (b"", "the file is empty"),
    (b"\x1f\x8b\x08\x00", "line 1: the file is compressed"),
    (b"title\n3 3 3\n", UNKNOWN_TITLE),
    (
        b"\n%%MatrixMarket matrix coordinate real general\n",
        "line 1: the first line must begin with %%MatrixMarket: put comments and blank lines behind it",
    ),
    (
        b"%%MatrixMarket vector coordinate real general\n",
        "line 1: the second word of the first line is not matrix, found: vector",
    ),
    (
        b"% a note\n%%MatrixMarket matrix coordinate real general\n",
        "line 1: the first line must begin with %%MatrixMarket: put comments and blank lines behind it, found: % a note",
    ),
    (
        b"%%MatrixMarket matrix array pattern general\n",
        "line 1: an array has values, and cannot be of pattern: write the field of its values",
    ),
    (
        b"%%MatrixMarket matrix table real general\n",
        "line 1: the third word of the first line is not coordinate or array, found: table",
    ),
];

/// Why there is no column form of a file, as text.
fn fault_of(alloc: Global, file: &[u8]) -> Result<String, Fail> {
    match read_matrix(alloc, file) {
        Ok(_) => Ok(String::new(alloc)),
        Err(error) => Ok(format!(in alloc; "{error}")?),
    }
}

#[test]
fn files_without_a_header(rt: HostRuntime) -> Result<(), Fail> {
    for (file, wanted) in &NO_HEADERS {
        let shown = fault_of(rt.alloc(), file)?;
        check!(&rt; shown.as_str() == *wanted, wanted);
    }
    Ok(())
}

/// First lines in letters of any case, behind a byte-order mark, and with line ends of two bytes; and values with the
/// exponents that Fortran writes.
static HEADERS: [&str; 5] = [
    "%%MATRIXMARKET MATRIX COORDINATE REAL GENERAL\n2 2 2\n2 1 1\n1 2 -.5e-3\n",
    "%%MatrixMarket matrix coordinate Double Skew-Symmetric\n2 2 1\n2 1 1\n",
    "\u{feff}%%MatrixMarket matrix coordinate unsigned-integer general\r\n2 2 2\r\n2 1 1\r\n1 2 3\r\n",
    "%%MatrixMarket matrix coordinate complex Hermitian\n% note\n\n2 2 1\n\t2 1 nan inf",
    "%%MatrixMarket matrix coordinate complex general\n2 2 2\n2 1 1.0D+03 -1d0\n1 2 .5D-3 1.d2\n",
];

#[test]
fn headers_of_any_case(rt: HostRuntime) -> Result<(), Fail> {
    for file in &HEADERS {
        check_file(&rt, rt.alloc(), file, "[0, 1, 2] [1, 0]")?;
    }
    Ok(())
}

/// Arrays: those that are not zero of the values of all places, column by column. The last two are those that scipy's
/// `mmwrite` made of `[[4, 0, 1], [0, 0, 0], [1, 0, 3]]` and of a skew-symmetric matrix.
static ARRAYS: [(&str, &str); 8] = [
    ("real general\n2 2\n1\n0\n-0.0e7\n2.5", "[0, 1, 2] [0, 1]"),
    (
        "double general\n2 2\n1.0D+00\n0.0D+07\n-0d1\n1d-1\n",
        "[0, 1, 2] [0, 1]",
    ),
    (
        "complex GENERAL\n2 2\n% a note\n0 0\n\n0 -1\n1e-400 0\n+0 .0\n",
        "[0, 1, 2] [1, 0]",
    ),
    ("integer general\n0 0\n", "[0] []"),
    ("double hermitian\n2 2\nnan\n3\n0\n", "[0, 2, 3] [0, 1, 0]"),
    (
        "integer skew-symmetric\n3 3\n0\n7\n-7\n",
        "[0, 1, 2, 4] [2, 2, 0, 1]",
    ),
    (
        "integer symmetric\n%\n3 3\n4\n0\n1\n0\n0\n3\n",
        "[0, 2, 2, 4] [0, 2, 0, 2]",
    ),
    (
        "real skew-symmetric\n%\n3 3\n-1.0000000000000000e+00\n0.0000000000000000e+00\n2.0000000000000000e+00\n",
        "[0, 1, 3, 4] [1, 0, 2, 1]",
    ),
];

/// Arrays at fault.
static NO_ARRAYS: [(&str, &str); 8] = [
    (
        "real general\n",
        "line 1: here must stand the numbers of rows and columns of the array",
    ),
    (
        "real general\n2 2 4\n",
        "line 2: here must stand the numbers of rows and columns of the array, found: 2 2 4",
    ),
    (
        "real general\n2 3\n",
        "line 2: the matrix is not square: 2 rows, 3 columns",
    ),
    (
        "real general\n2 2\n1\n2\n3\n",
        "line 5: the file ends too early: the next value would be that of row 2, column 2",
    ),
    (
        "real symmetric\n2 2\n1\n2\n3\n%\n4\n",
        "line 7: more values than the array has places, found: 4",
    ),
    ("real general\n2 2\n1 2\n3 4\n", CELL),
    (
        "complex general\n1 1\n1\n",
        "line 3: an array has a line for each value, column by column: write one number there, of complex two, \
        found: 1",
    ),
    (
        "real general\n2 2\none\n",
        "line 3: the value is no number, found: one",
    ),
];

/// What is wrong with a line of an array that has two values.
const CELL: &str =
    "line 3: an array has a line for each value, column by column: write one number there, of complex two, found: 1 2";

/// Asserts what is told of files that begin alike.
fn check_rests(
    rt: &impl Abort,
    alloc: Global,
    start: &str,
    rests: &[(&str, &str)],
) -> Result<(), Fail> {
    for (rest, wanted) in rests {
        let file = format!(in alloc; "{start}{rest}")?;
        check_file(rt, alloc, &file, wanted)?;
    }
    Ok(())
}

#[test]
fn arrays(rt: HostRuntime) -> Result<(), Fail> {
    let start = "%%MatrixMarket matrix array ";
    check_rests(&rt, rt.alloc(), start, &ARRAYS)?;
    check_rests(&rt, rt.alloc(), start, &NO_ARRAYS)
}

/// Harwell-Boeing and Rutherford-Boeing files. scipy's `hb_write` wrote the first one, SuiteSparse's `RBwrite` the
/// second; the others were worked by hand.
static BOEINGS: [(&str, &str); 9] = [
    (
        "Default title                                                           0       
             5             1             1             3
RUA                        4             4             7             0
(40I2)          (40I2)          (3E25.16)           
 1 3 4 6 8
 1 3 4 1 3 2 4
  4.0000000000000000E+00  1.0000000000000000E+00  7.0000000000000000E+00
  1.0000000000000000E+00  3.0000000000000000E+00  2.5000000000000000E+00
 -1.0000000000000000E+00
",
        "[0, 2, 3, 5, 7] [0, 2, 3, 0, 2, 1, 3]",
    ),
    (
        "a tiny symmetric matrix                                                |tiny    
             3             1             1             1
isa                        3             3             4             0
(40I2)          (40I2)          (40I2)              
 1 3 4 5
 1 3 2 3
 4 1 5 3
",
        "[0, 2, 3, 5] [0, 2, 1, 0, 2]",
    ),
    // rows out of order, one of them twice, in fields of one byte without space between them; right-hand sides
    (
        "title\n4 1 2 0 1\npsa 3 3 4\n(4i1)(I1) none\nF 1 0\n1355\n321\n2\n",
        "line 4: in a Harwell-Boeing file here must stand the formats of pointers and rows, such as (16I5) or (4(4I5))\
        , found: (4i1)(I1) none",
    ),
    (
        "title\n4 1 2 0 1\npsa 3 3 4\n(4i1) (3I1) none\nF 1 0\n1355\n321\n2\n",
        "[0, 2, 4, 5] [1, 2, 0, 1, 0]",
    ),
    // the same with groups in brackets of their own, and with a number of digits
    (
        "title\n4 1 2 0 1\npsa 3 3 4\n(2(2i1.1)) ((3I1)) none\nF 1 0\n1355\n321\n2\n",
        "[0, 2, 4, 5] [1, 2, 0, 1, 0]",
    ),
    // the same with bytes that are skipped on each line, whatever they are
    (
        "title\n4 1 2 0 1\npsa 3 3 4\n(1X,4I2) (3x,2I1.1) none\nF 1 0\n9 1 3 5 5\n 7 32\nabc12\n",
        "[0, 2, 4, 5] [1, 2, 0, 1, 0]",
    ),
    // the same with spaces in the formats, which no word parts there
    (
        "title\n4 1 2 0 1\npsa 3 3 4\n( 4 i 1 )  (1 X, 3 I 1) none\nF 1 0\n1355\n 321\n 2\n",
        "[0, 2, 4, 5] [1, 2, 0, 1, 0]",
    ),
    // sixteen of five behind one column, and sixteen of five with spaces in the format
    (
        "title\n3 1 1 0\nPUA 2 2 2\n(1X,16I5)       ( 16 I 5 )\n     1    2    3\n    2    1\n",
        "[0, 1, 2] [1, 0]",
    ),
    (
        "\r\n1 1 0 0\r\nPUA 0 0 0\r\n(I8) (I8)\r\n       1\r\n",
        "[0] []",
    ),
];

/// The lines behind the title of a Harwell-Boeing file at fault, and what is told of it.
static NO_BOEINGS: [(&str, &str); 20] = [
    ("1 1 0 none\n", UNKNOWN_TITLE),
    ("1 1 0\n", UNKNOWN_TITLE),
    ("", UNKNOWN_TITLE),
    ("2 1 1 0\n", "line 2: the file ends before its last row"),
    (
        "2 1 1 0\nRXA 1 1 1\n",
        "line 3: in a Harwell-Boeing file here must stand a type such as RUA, and the numbers of rows, \
        columns and entries, found: RXA 1 1 1",
    ),
    (
        "2 1 1 0\nRUA 1 1\n",
        "line 3: in a Harwell-Boeing file here must stand a type such as RUA, and the numbers of rows, \
        columns and entries, found: RUA 1 1",
    ),
    (
        "2 1 1 0\nRSE 1 1 1 1\n",
        "line 3: the matrix is not assembled (its type ends in E): assemble it first",
    ),
    (
        "2 1 1 0\nrra 2 1 1\n",
        "line 3: the matrix is not square: 2 rows, 1 columns",
    ),
    (
        "2 1 1 0\nRUA 1 1 1\n(I4) (F8.2)\n",
        "line 4: in a Harwell-Boeing file here must stand the formats of pointers and rows, such as (16I5) or (4(4I5))\
        , found: (I4) (F8.2)",
    ),
    (
        "2 1 1 0\nRUA 1 1 1\n(2(2(I4))) (I4.)\n",
        "line 4: in a Harwell-Boeing file here must stand the formats of pointers and rows, such as (16I5) or (4(4I5))\
        , found: (2(2(I4))) (I4.)",
    ),
    (
        "2 1 1 0\nRUA 1 1 1\n(1X2I4) (I4)\n",
        "line 4: in a Harwell-Boeing file here must stand the formats of pointers and rows, such as (16I5) or (4(4I5))\
        , found: (1X2I4) (I4)",
    ),
    (
        "2 1 1 0\nRUA 1 1 1\n(2X,2(I4)) (I4)\n",
        "line 4: in a Harwell-Boeing file here must stand the formats of pointers and rows, such as (16I5) or (4(4I5))\
        , found: (2X,2(I4)) (I4)",
    ),
    (
        "2 1 1 0\nRUA 1 1 1\n( 2I4 (I4)\n",
        "line 4: in a Harwell-Boeing file here must stand the formats of pointers and rows, such as (16I5) or (4(4I5))\
        , found: ( 2I4 (I4)",
    ),
    (
        "2 1 1 0\nRUA 1 1 1\n(1X,2I4) (I4)\n1   2\n",
        "line 5: here must stand numbers, as the formats of the fourth line tell, found: 1   2",
    ),
    (
        "2 1 1 0\nRUA 1 1 1\n(2I4) (I4)\n   1   x\n",
        "line 5: here must stand numbers, as the formats of the fourth line tell, found: 1   x",
    ),
    (
        "2 1 1 0\nRUA 1 1 1\n(2I8) (I8)\n     1 2       2\n",
        "line 5: here must stand numbers, as the formats of the fourth line tell, found: 1 2       2",
    ),
    (
        "2 1 1 0\nRUA 1 1 1\n(2I4) (I4)\n   1   3\n",
        "line 5: the pointer is out of range: 3, of pointers 1 to 2",
    ),
    (
        "2 1 1 0\nRUA 2 2 2\n(3I4) (I4)\n   1   3   2\n",
        "line 5: the pointers do not rise from 1 to one more than the number of entries",
    ),
    (
        "2 1 1 0\nRUA 1 1 1\n(2I4) (I4)\n   1   2\n   0\n",
        "line 6: the row is out of range: 0, of rows 1 to 1; they count from 1",
    ),
    (
        "2 1 1 0\nRUA 1 1 1\n(2I4) (I4)\n   1   2\n",
        "line 5: the file ends before its last row",
    ),
];

#[test]
fn boeings(rt: HostRuntime) -> Result<(), Fail> {
    check_rests(&rt, rt.alloc(), "", &BOEINGS)?;
    check_rests(&rt, rt.alloc(), "title\n", &NO_BOEINGS)
}

/// Kinds, what stands behind the header, and how many entries are repeats.
static REPEATS: [(&str, &str, usize); 3] = [
    ("pattern general", "3 3 3\n1 2\n2 1\n3 3\n", 0),
    ("pattern general", "3 3 4\n1 2\n1 2\n3 3\n1 2\n", 2),
    ("pattern symmetric", "3 3 3\n1 2\n2 1\n3 3\n", 2),
];

/// How many entries of a file are repeats, where it is one.
fn repeats_of(alloc: Global, file: &str) -> Option<usize> {
    match read_matrix(alloc, file.as_bytes()) {
        Ok(matrix) => Some(matrix.repeats),
        Err(_) => None,
    }
}

#[test]
fn repeats(rt: HostRuntime) -> Result<(), Fail> {
    for (kind, rest, wanted) in &REPEATS {
        let file = file_of(rt.alloc(), kind, rest)?;
        check!(&rt; repeats_of(rt.alloc(), &file) == Some(*wanted), kind);
    }
    Ok(())
}

/// A file whose third line has so many spaces between two words.
fn spaced(alloc: Global, spaces: usize) -> Result<String, AllocError> {
    let mut file = String::from_str(
        alloc,
        "%%MatrixMarket matrix coordinate pattern general\n2 2 1\n2",
    )?;
    for _ in 0..spaces {
        file.push_str(" ")?;
    }
    file.push_str("1\n")?;
    Ok(file)
}

/// How many spaces a line has, and what is told of its file.
static SPACES: [(usize, &str); 3] = [
    (65533, "[0, 1, 1] [1]"),
    (65534, "line 3: the line has more than 65536 bytes"),
    (1 << 20, "line 3: the line has more than 65536 bytes"),
];

/// A line may have 65,536 bytes with its line feed, and no more; a longer one is not read whole.
#[test]
fn long_lines(rt: HostRuntime) -> Result<(), Fail> {
    for (spaces, wanted) in &SPACES {
        let file = spaced(rt.alloc(), *spaces)?;
        let shown = told(rt.alloc(), &file)?;
        check!(&rt; shown.as_str() == *wanted, wanted);
    }
    Ok(())
}

/// A file that ends in a line of so many spaces, and then this text.
fn ended(alloc: Global, spaces: usize, text: &str) -> Result<String, AllocError> {
    let mut file = String::from_str(
        alloc,
        "%%MatrixMarket matrix coordinate pattern general\n2 2 1\n",
    )?;
    for _ in 0..spaces {
        file.push_str(" ")?;
    }
    file.push_str(text)?;
    Ok(file)
}

/// How many spaces a third line has, what stands behind them, and what is told of the file.
static LONG_NOTES: [(usize, &str, &str); 5] = [
    (300_000, "\n2 1\n", "[0, 1, 1] [1]"),
    (65_536, "% a note\n2 1\n", "[0, 1, 1] [1]"),
    (300_000, "%\n2 1\n%", "[0, 1, 1] [1]"),
    (
        300_000,
        "2 1\n",
        "line 3: the line has more than 65536 bytes",
    ),
    (
        300_000,
        "%",
        "line 3: the file ends too early: 0 entries of 1",
    ),
];

/// A line that says nothing may have any length.
#[test]
fn long_notes(rt: HostRuntime) -> Result<(), Fail> {
    for (spaces, text, wanted) in &LONG_NOTES {
        let file = ended(rt.alloc(), *spaces, text)?;
        let shown = told(rt.alloc(), &file)?;
        check!(&rt; shown.as_str() == *wanted, wanted);
    }
    let mut file = ended(rt.alloc(), 0, "%")?;
    for _ in 0..200_000 {
        file.push_str("a 1")?;
    }
    file.push_str("\n2 1\n")?;
    let shown = told(rt.alloc(), &file)?;
    check!(&rt; shown.as_str() == "[0, 1, 1] [1]", "a long note");
    Ok(())
}

/// Texts that name rows to hold last, and what is told of each: the marks, or why there are none.
static HELD: [(&str, &str); 6] = [
    ("", "[false, false, false]"),
    ("% last\n3\n\n 1 \n3", "[true, false, true]"),
    (
        "2\n4\n",
        "line 2: the row is out of range: 4, of rows 1 to 3",
    ),
    (
        "0\n",
        "line 1: the row is out of range: 0, of rows 1 to 3; they count from 1",
    ),
    (
        "1 2\n",
        "line 1: here must stand the number of a row, alone, found: 1 2",
    ),
    (
        "1,2\n",
        "line 1: here must stand the number of a row, alone, found: 1,2",
    ),
];

/// The marks that a text gives to three rows, or why there are none, as text.
fn marks_told(alloc: Global, text: &str) -> Result<String, Fail> {
    match read_held(alloc, 3, text.as_bytes()) {
        Ok(marks) => {
            let marks = marks.as_slice();
            Ok(format!(in alloc; "{marks:?}")?)
        }
        Err(error) => Ok(format!(in alloc; "{error}")?),
    }
}

#[test]
fn rows_to_hold(rt: HostRuntime) -> Result<(), Fail> {
    for (text, wanted) in &HELD {
        let shown = marks_told(rt.alloc(), text)?;
        check!(&rt; shown.as_str() == *wanted, text);
    }
    Ok(())
}

/// The numbers of a list of three, or what is wrong with it, as text.
fn told_of_list(alloc: Global, text: &str) -> Result<String, Fail> {
    let listed = match read_listed(alloc, 3, text.as_bytes()) {
        Ok(listed) => listed,
        Err(error) => return Ok(format!(in alloc; "{error}")?),
    };
    match listing_of(alloc, 3, &listed) {
        Ok(listing) => {
            let numbers = listing.numbers.as_slice();
            let paired = listing.paired;
            Ok(format!(in alloc; "{numbers:?} {paired}")?)
        }
        Err(cause) => Ok(format!(in alloc; "{cause}")?),
    }
}

/// Lists: rows or places alone, from 1 and from 0, vertices with their places; and lists at fault.
static LISTS: [(&str, &str); 13] = [
    ("3\n% a note\n1\n2\n", "[2, 0, 1] false"),
    ("2\n0\n\n1", "[2, 0, 1] false"),
    ("3\n0 2\n1 0\n2\t1\n", "[2, 0, 1] true"),
    ("3\n1 3\n2 1\n% a note\n3 2\n", "[2, 0, 1] true"),
    ("", "[] false"),
    (
        "0\n% a note\n3\n1\n",
        "line 3: 3 is out of range: the list counts from 0",
    ),
    (
        "3\n1 0\n2 1\n3 2\n",
        "line 2: 0 is out of range: the list counts from 1",
    ),
    (
        "3\n2 1\n1 3\n3 2\n",
        "line 2: here must stand vertex 1 and its place",
    ),
    (
        "2\n1 3\n2 1\n3 2\n",
        "line 1: here must stand how many vertices follow: 3",
    ),
    (
        "3\n1\n2 1\n",
        "line 3: here must stand one number, as in the lines before",
    ),
    ("4\n", "line 1: the row is out of range: 4, of rows 1 to 3"),
    (
        "1\n1 two\n",
        "line 2: here must stand the number of a row, alone, found: 1 two",
    ),
    (
        "1 2 3\n",
        "line 1: here must stand the number of a row, alone, found: 1 2 3",
    ),
];

#[test]
fn lists_of_numbers(rt: HostRuntime) -> Result<(), Fail> {
    for (text, wanted) in &LISTS {
        let shown = told_of_list(rt.alloc(), text)?;
        assert!(&rt; shown.as_str() == *wanted, "{text}: {shown}");
    }
    Ok(())
}

/// Rows 2, 3 and 1 stand at the places 1, 2 and 3.
const PLACES: [usize; 3] = [2, 0, 1];

/// Kinds of files, what stands behind the header, and what stands there at these places.
static PLACED: [(&str, &str, &str); 5] = [
    (
        "real general",
        "% a note\n3 3 3\n1 1 0.50\n\n 3\t1 +2e3\n2 3 7",
        "3 3 3\n3 3 0.50\n2 3 +2e3\n1 2 7\n",
    ),
    (
        "pattern symmetric",
        "3 3 2\n2 1\n3 2\n",
        "3 3 2\n3 1\n2 1\n",
    ),
    (
        "integer skew-symmetric",
        "3 3 4\n2 1 15\n3 2 -2\n1 2 -4\n2 1 +8\n",
        "3 3 4\n3 1 -15\n2 1 -2\n3 1 -4\n3 1 -8\n",
    ),
    (
        "complex hermitian",
        "3 3 3\n1 1 4 0\n2 1 1 -2\n3 2 0.5 +0.25\n",
        "3 3 3\n3 3 4 0\n3 1 1 2\n2 1 0.5 +0.25\n",
    ),
    ("complex general", "3 3 0", "3 3 0\n"),
];

#[test]
fn texts_at_other_places(rt: HostRuntime) -> Result<(), Fail> {
    let alloc = rt.alloc();
    for (kind, rest, wanted) in &PLACED {
        let file = file_of(alloc, kind, rest)?;
        let wanted = file_of(alloc, kind, wanted)?;
        match text_at_places(alloc, file.as_bytes(), &PLACES) {
            Ok(Some(text)) => check!(&rt; text.as_slice() == wanted.as_bytes(), kind),
            _ => panic!(&rt; "no text"),
        }
    }
    let array = "%%MatrixMarket matrix array real general\n1 1\n1\n";
    check!(&rt; matches!(text_at_places(alloc, array.as_bytes(), &[0]), Ok(None)));
    let short = file_of(alloc, "pattern general", "3 3 1\n1 4\n")?;
    check!(&rt; text_at_places(alloc, short.as_bytes(), &PLACES).is_err());
    Ok(())
}
