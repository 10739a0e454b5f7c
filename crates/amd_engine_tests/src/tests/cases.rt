// The readers of cases and of matrix files, over texts and bytes that are written out here.

use crate::tests::readings::{Reading, reading_of};
use amd_cases::cases::Case;
use amd_cases::faults::CaseFault;
use amd_cases::matrix::{MatrixError, read_matrix};
use amd_cases::reader::CaseReader;
use amd_testing::check;
use amd_testing::refusing::{Refusing, each_refused};
use amd_types::signed::SignedIndex;
use std::alloc::{AllocError, Allocator, Global};
use std::io;
use std::io::{BufReader, ErrorKind, Read};
use std::process::Abort;
use std::test::Fail;

/// Two cases: one with all items, and one with what must be there alone, in another order and with no line feed at its
/// end.
const TWO_CASES: &[u8] =
    b"CASE 7\nN 3\nT -5\nAGG 0\nAP 0 1 +2 02\nAI 1  -2\r\nEND\nCASE -8\nAI\nAP \nN 0\nEND";

/// Checks the next case.
fn check_case<R: Read + Drop, A: Allocator + Copy>(
    rt: &impl Abort,
    cases: &mut CaseReader<R, A>,
    scalars: (i64, i64, i32, bool),
    a_p: &[i64],
    a_i: &[i64],
) {
    let Ok(Some(case)) = cases.next_case() else {
        panic!(rt; "no case");
    };
    let is_chosen = (case.number, case.n, case.dense, case.aggressive) == scalars;
    check!(rt; is_chosen && case.a_p.as_slice() == a_p && case.a_i.as_slice() == a_i);
}

#[test]
fn two_cases_and_the_end(rt: HostRuntime) {
    let mut cases = CaseReader::new(rt.alloc(), TWO_CASES);
    check_case(&rt, &mut cases, (7, 3, -5, false), &[0, 1, 2, 2], &[1, -2]);
    check_case(&rt, &mut cases, (-8, 0, 10000, true), &[], &[]);
    for _ in 0..2 {
        check!(&rt; reading_of(&mut cases) == Reading::End);
    }
}

/// A case that is whole.
const ONE_CASE: &[u8] = b"CASE 1\nN 2\nAP 0 1 2\nAI 0 1\nEND";

/// What is cut off it at any place makes it no case; without a byte left the input is empty.
#[test]
fn a_case_that_is_cut_off(rt: HostRuntime) {
    let mut whole = CaseReader::new(rt.alloc(), ONE_CASE);
    check!(&rt; reading_of(&mut whole) == Reading::Case(1, 2));
    for (length, _) in ONE_CASE.iter().enumerate() {
        let front = ONE_CASE.get(..length).unwrap_or(ONE_CASE);
        let is_cut = match reading_of(&mut CaseReader::new(rt.alloc(), front)) {
            Reading::Case(..) => false,
            Reading::End => length == 0,
            _ => 0 < length,
        };
        check!(&rt; is_cut);
    }
}

/// A case with held rows, and one that asks for columns.
const MORE_ITEMS: &[u8] =
    b"CASE 1\nHOLD 0 1 01\nN 3\nAP 0\nAI\nEND\nCASE 2\nN 2\nPERM 1 0\nAP 0\nAI\nROOM -7\nHOLD\nEND\n";

/// Whether a case has these marks, this permutation and this room.
fn has_items(
    case: &Case<Global>,
    hold: Option<&[bool]>,
    permutation: Option<&[i64]>,
    room: Option<i64>,
) -> bool {
    case.hold.as_deref() == hold && case.permutation.as_deref() == permutation && case.room == room
}

/// Whether the next case has these.
fn next_has_items(
    cases: &mut CaseReader<&[u8], Global>,
    hold: Option<&[bool]>,
    permutation: Option<&[i64]>,
    room: Option<i64>,
) -> bool {
    match cases.next_case() {
        Ok(Some(case)) => has_items(&case, hold, permutation, room),
        _ => false,
    }
}

#[test]
fn items_that_may_be_left_out(rt: HostRuntime) {
    let mut cases = CaseReader::new(rt.alloc(), MORE_ITEMS);
    let marks = [false, true, true].as_slice();
    check!(&rt; next_has_items(&mut cases, Some(marks), None, None));
    check!(&rt; next_has_items(&mut cases, Some(&[]), Some(&[1, 0]), Some(-7)));
}

#[test]
fn what_stands_beside_items_that_may_be_left_out(rt: HostRuntime) {
    let mut cases = CaseReader::new(rt.alloc(), MORE_ITEMS);
    check!(&rt; reading_of(&mut cases) == Reading::Case(1, 3));
    check_case(&rt, &mut cases, (2, 2, 10000, true), &[0], &[]);
}

#[test]
fn items_that_are_left_out(rt: HostRuntime) {
    let mut cases = CaseReader::new(rt.alloc(), TWO_CASES);
    check!(&rt; next_has_items(&mut cases, None, None, None));
}

/// Checks that a text is refused for a line, and that nothing is read behind it.
fn check_fault(rt: &impl Abort, alloc: Global, text: &[u8], wanted: u64, fault: CaseFault) {
    let mut cases = CaseReader::new(alloc, text);
    let is_refused = reading_of(&mut cases) == Reading::Fault(wanted, fault);
    assert!(rt; is_refused, "{text:?}");
    check!(rt; reading_of(&mut cases) == Reading::Stopped);
}

/// Lines that spell no item, each with its number and its fault.
static NO_ITEMS: [(&[u8], u64, CaseFault); 18] = [
    (b"case 1\n", 1, CaseFault::Keyword),
    (b"CASES 1\n", 1, CaseFault::Keyword),
    (b"CASE 1\nM 2\n", 2, CaseFault::Keyword),
    (b"CASE 1\n2\n", 2, CaseFault::Keyword),
    (b"CASE\n", 1, CaseFault::Numbers),
    (b"CASE 1 2\n", 1, CaseFault::Numbers),
    (b"CASE 1\nN\n", 2, CaseFault::Numbers),
    (b"CASE 1\nN x\n", 2, CaseFault::Numbers),
    (b"CASE 1\nN 1.5\n", 2, CaseFault::Numbers),
    (b"CASE 1\nN 9223372036854775808\n", 2, CaseFault::Numbers),
    (b"CASE 1\nT 2147483648\n", 2, CaseFault::Numbers),
    (b"CASE 1\nAGG 2\n", 2, CaseFault::Numbers),
    (b"CASE 1\nAP 0,1\n", 2, CaseFault::Numbers),
    (b"CASE 1\nHOLD 0 2\n", 2, CaseFault::Numbers),
    (b"CASE 1\nHOLD -1\n", 2, CaseFault::Numbers),
    (b"CASE 1\nROOM\n", 2, CaseFault::Numbers),
    (b"CASE 1\nN 1\nAI 0 \xff\n", 3, CaseFault::Numbers),
    (b"CASE 1\nN 1\nAP 0 0\nAI\nEND 1\n", 5, CaseFault::Numbers),
];

#[test]
fn lines_that_spell_no_item(rt: HostRuntime) {
    for (text, line, fault) in &NO_ITEMS {
        check_fault(&rt, rt.alloc(), text, *line, *fault);
    }
}

/// Items that make no case, each with the line at fault.
static NO_CASES: [(&[u8], u64, CaseFault); 16] = [
    (b"N 1\n", 1, CaseFault::Outside),
    (b"END\n", 1, CaseFault::Outside),
    (b"CASE 1\nN 1\nCASE 2\n", 3, CaseFault::Inside),
    (b"CASE 1\nN 1\nN 1\n", 3, CaseFault::Repeated),
    (b"CASE 1\nT 1\nT 2\n", 3, CaseFault::Repeated),
    (b"CASE 1\nAGG 1\nAGG 0\n", 3, CaseFault::Repeated),
    (b"CASE 1\nAP 0\nAP 0\n", 3, CaseFault::Repeated),
    (b"CASE 1\nAI 0\nAI 0\n", 3, CaseFault::Repeated),
    (b"CASE 1\nHOLD 0\nHOLD 0\n", 3, CaseFault::Repeated),
    (b"CASE 1\nPERM 0\nPERM 0\n", 3, CaseFault::Repeated),
    (b"CASE 1\nROOM 0\nROOM 0\n", 3, CaseFault::Repeated),
    (b"CASE 1\nAP 0\nAI\nEND\n", 4, CaseFault::Missing),
    (b"CASE 1\nN 0\nAI\nEND\n", 4, CaseFault::Missing),
    (b"CASE 1\nN 0\nAP 0\nEND\n", 4, CaseFault::Missing),
    (b"CASE 1\n", 1, CaseFault::Unfinished),
    (b"CASE 1\nN 0\nAP 0\nAI", 4, CaseFault::Unfinished),
];

#[test]
fn items_that_make_no_case(rt: HostRuntime) {
    for (text, line, fault) in &NO_CASES {
        check_fault(&rt, rt.alloc(), text, *line, *fault);
    }
}

/// A reader of some bytes that answers an error where they end.
struct Broken<'a>(&'a [u8]);

impl Drop for Broken<'_> {
    fn drop(self) {
        let Self(_) = self;
    }
}

impl Read for Broken<'_> {
    fn read(&mut self, buf: &mut [u8]) -> io::Result<usize> {
        if self.0.is_empty() {
            return Err(io::Error::from(ErrorKind::BrokenPipe));
        }
        self.0.read(buf)
    }
}

#[test]
fn an_input_that_breaks_off(rt: HostRuntime) -> Result<(), Fail> {
    for text in [
        b"".as_slice(),
        b"CASE 1\nN 0\nAP 0\nAI\n".as_slice(),
        b"CASE 1\nN 0\nAP 0\nAI".as_slice(),
    ] {
        let mut cases = CaseReader::new(rt.alloc(), BufReader::new(rt.alloc(), Broken(text))?);
        check!(&rt; reading_of(&mut cases) == Reading::Broken);
        check!(&rt; reading_of(&mut cases) == Reading::Stopped);
    }
    Ok(())
}

/// Reads the two cases, and says whether none was refused.
fn reads_cases(rt: &impl Abort, heap: &Refusing<Global>) -> bool {
    let mut cases = CaseReader::new(heap, TWO_CASES);
    let mut sizes: i64 = 0;
    for _ in 0..3 {
        match reading_of(&mut cases) {
            Reading::Case(_, n) => sizes = sizes.wrapping_mul(10).wrapping_add(n),
            Reading::End => return sizes == 30,
            Reading::Fault(_, CaseFault::OutOfMemory) => check!(rt; heap.refused()),
            Reading::Stopped => check!(rt; heap.refused()),
            _ => panic!(rt; "another error"),
        }
    }
    false
}

#[test]
fn each_request_of_the_reader(rt: HostRuntime) {
    match each_refused(rt.alloc(), |heap| reads_cases(&rt, heap)) {
        Ok(refusals) => check!(&rt; 0 < refusals),
        Err(slip) => panic!(rt; "{slip:?}"),
    }
}

/// The bytes of a matrix file.
fn file_of(alloc: Global, wide: &[i64], narrow: &[i32]) -> Result<Vec<u8>, AllocError> {
    let mut bytes = Vec::new(alloc);
    for number in wide {
        bytes.extend_from_slice(&number.to_le_bytes())?;
    }
    for number in narrow {
        bytes.extend_from_slice(&number.to_le_bytes())?;
    }
    Ok(bytes)
}

/// The fault of a matrix file with rows of this type, where it has one.
fn fault_of<I: SignedIndex, R: Read>(alloc: Global, input: &mut R) -> Option<MatrixError> {
    read_matrix::<I, _, _>(alloc, input).err()
}

/// Checks the matrix of a file.
fn check_matrix(rt: &impl Abort, alloc: Global, mut file: &[u8], n: i64, a_p: &[i64], a_i: &[i64]) {
    let Ok(matrix) = read_matrix::<i64, _, _>(alloc, &mut file) else {
        panic!(rt; "refused");
    };
    check!(rt; matrix.n == n && matrix.a_p.as_slice() == a_p && matrix.a_i.as_slice() == a_i);
}

#[test]
fn a_matrix_file(rt: HostRuntime) -> Result<(), Fail> {
    let bytes = file_of(rt.alloc(), &[2, 3, 0, 2, 3], &[0, 1, -300])?;
    check_matrix(&rt, rt.alloc(), &bytes, 2, &[0, 2, 3], &[0, 1, -300]);
    Ok(())
}

#[test]
fn matrix_files_that_break_off(rt: HostRuntime) -> Result<(), Fail> {
    let bytes = file_of(rt.alloc(), &[2, 3, 0, 2, 3], &[0, 1, -300])?;
    for length in 0..bytes.len() {
        let mut front = bytes.get(..length).unwrap_or(&[]);
        let fault = fault_of::<i32, _>(rt.alloc(), &mut front);
        assert!(rt; matches!(fault, Some(MatrixError::Short)), "{length} bytes");
    }
    Ok(())
}

#[test]
fn matrix_files_that_do_not_fit(rt: HostRuntime) -> Result<(), Fail> {
    let heap = rt.alloc();
    let bytes = file_of(heap, &[2, 3, 0, 2, 3], &[0, 1, -300])?;
    let is_large = |fault| matches!(fault, Some(MatrixError::TooLarge));
    check!(&rt; is_large(fault_of::<i8, _>(heap, &mut bytes.as_slice())));
    check!(&rt; is_large(fault_of::<u64, _>(heap, &mut bytes.as_slice())));
    Ok(())
}

#[test]
fn matrix_files_that_are_too_long(rt: HostRuntime) -> Result<(), Fail> {
    let heap = rt.alloc();
    let mut bytes = file_of(heap, &[2, 3, 0, 2, 3], &[0, 1, -300])?;
    bytes.push(0)?;
    let is_long = |fault| matches!(fault, Some(MatrixError::Long));
    check!(&rt; is_long(fault_of::<i32, _>(heap, &mut bytes.as_slice())));
    check!(&rt; is_long(fault_of::<i32, _>(heap, &mut Broken(&bytes))));
    Ok(())
}

#[test]
fn matrix_files_that_are_none(rt: HostRuntime) -> Result<(), Fail> {
    let heap = rt.alloc();
    for wide in [[-1, 0].as_slice(), &[0, -1, -1]] {
        let bytes = file_of(heap, wide, &[])?;
        let fault = fault_of::<i64, _>(heap, &mut bytes.as_slice());
        check!(&rt; matches!(fault, Some(MatrixError::Negative)));
    }
    let apart = file_of(heap, &[1, 2, 0, 1], &[0, 0])?;
    let fault = fault_of::<i64, _>(heap, &mut apart.as_slice());
    check!(&rt; matches!(fault, Some(MatrixError::Pointers)));
    Ok(())
}

#[test]
fn matrix_files_that_say_too_much_or_cannot_be_read(rt: HostRuntime) -> Result<(), Fail> {
    let heap = rt.alloc();
    let huge = file_of(heap, &[i64::MAX, i64::MAX, 0], &[])?;
    let fault = fault_of::<i64, _>(heap, &mut huge.as_slice());
    check!(&rt; matches!(fault, Some(MatrixError::Short)));
    let whole = file_of(heap, &[0, 0, 0], &[])?;
    let fault = fault_of::<i64, _>(heap, &mut Broken(&whole));
    check!(&rt; matches!(fault, Some(MatrixError::Input(_))));
    Ok(())
}

/// Sizes that the file has no bytes for: no more memory is asked for than the bytes that are there fill.
#[test]
fn matrix_files_that_say_too_much(rt: HostRuntime) -> Result<(), Fail> {
    for wide in [
        [].as_slice(),
        &[i64::MAX],
        &[i64::MAX, i64::MAX],
        &[1 << 40, 0, 0],
        &[0, 1 << 40, 1 << 40],
        &[1, i64::MAX, 0, i64::MAX],
    ] {
        let bytes = file_of(rt.alloc(), wide, &[])?;
        let heap = Refusing::new(rt.alloc(), 0);
        let outcome = read_matrix::<i64, _, _>(&heap, &mut bytes.as_slice());
        check!(&rt; matches!(outcome, Err(MatrixError::Short)) && heap.requests() < 2);
    }
    Ok(())
}

/// Reads a matrix file, and says whether there was an answer.
fn reads_matrix(rt: &impl Abort, heap: &Refusing<Global>, bytes: &[u8]) -> bool {
    let mut input = bytes;
    match read_matrix::<i32, _, _>(heap, &mut input) {
        Ok(_) => true,
        Err(MatrixError::OutOfMemory) => false,
        Err(_) => panic!(rt; "another error"),
    }
}

#[test]
fn each_request_of_the_matrix_reader(rt: HostRuntime) -> Result<(), Fail> {
    let bytes = file_of(rt.alloc(), &[2, 3, 0, 2, 3], &[0, 1, 1])?;
    match each_refused(rt.alloc(), |heap| reads_matrix(&rt, heap, &bytes)) {
        Ok(refusals) => check!(&rt; 0 < refusals),
        Err(slip) => panic!(rt; "{slip:?}"),
    }
    Ok(())
}
