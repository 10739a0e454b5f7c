// A matrix file, which is binary and little endian: `n` and the number of entries as 64-bit numbers, `n + 1` pointers
// of 64 bits, and the row of each entry in 32 bits.

ghost use Rattle.std.specs.Prelude.{◌≡◌, ◌∷◌, [], length, map, pos, ◌<◌, ◌^◌, IfOk, IfSome, MatchResult, OnOk};
ghost use Rattle.std.specs.Io.KnownBytes.{IsAtEnd};
ghost use Rattle.amd_cases.specs.Matrices.{wide_of, narrow_of, ReadsNumbers, EndsWith, HoldsMatrix};
ghost use Rattle.amd_cases.specs.declared.matrix.MatrixError.TheVariants.{OutOfMemory, TooLarge};

use amd_types::signed::SignedIndex;
use std::alloc::{AllocFailed, Allocator};
use std::io;
use std::io::{ErrorKind, Read};
use thiserror::Error;

/// A square matrix in column form.
#[derive(Drop)]
pub struct BinaryMatrix<I, A: Allocator> {
    /// The number of rows and columns.
    pub n: I,
    /// Where each column begins, and where the last one ends.
    pub a_p: Vec<I, A>,
    /// The row of each entry.
    pub a_i: Vec<I, A>,
}

/// Why a file is no matrix.
#[derive(Debug, Drop, Error)]
pub enum MatrixError {
    /// The file ends before the last row.
    #[error("the file is too short")]
    Short,
    /// Bytes are left behind the last row.
    #[error("bytes are left behind the last row")]
    Long,
    /// The number of rows or that of entries is negative.
    #[error("a negative number of rows or entries")]
    Negative,
    /// The last pointer is not the number of entries.
    #[error("the last pointer is not the number of entries")]
    Pointers,
    /// A number does not fit the type that was asked for.
    #[error("a number does not fit")]
    TooLarge,
    /// Memory was refused.
    #[error("out of memory")]
    OutOfMemory,
    /// The file could not be read.
    #[error("{0}")]
    Input(io::Error),
}

impl<T: Drop> From<AllocFailed<T>> for MatrixError {
    ghost from_gives = { λ _ e. e ≡ OutOfMemory };

    fn from(_: AllocFailed<T>) -> MatrixError {
        MatrixError::OutOfMemory
    }
}

impl From<io::Error> for MatrixError {
    fn from(error: io::Error) -> MatrixError {
        match error.kind() {
            ErrorKind::UnexpectedEof => MatrixError::Short,
            ErrorKind::OutOfMemory => MatrixError::OutOfMemory,
            _ => MatrixError::Input(error),
        }
    }
}

/// The next number of 64 bits.
fn wide_number<R: Read>(input: &mut R) -> Result<i64, MatrixError>
    ensures { IfOk result (λ z. ReadsNumbers 8 wide_of (R.remaining input.old) (R.remaining input.new) (z ∷ [])) }
{
    let mut bytes = [0; 8];
    input.read_exact(&mut bytes)?;
    Ok(i64::from_le_bytes(bytes))
}

/// The next number of 32 bits.
fn narrow_number<R: Read>(input: &mut R) -> Result<i32, MatrixError>
    ensures { IfOk result (λ z. ReadsNumbers 4 narrow_of (R.remaining input.old) (R.remaining input.new) (z ∷ [])) }
{
    let mut bytes = [0; 4];
    input.read_exact(&mut bytes)?;
    Ok(i32::from_le_bytes(bytes))
}

/// A number in the type that was asked for.
fn converted<I: SignedIndex>(number: i64) -> Result<I, MatrixError>
    ensures { MatchResult result (λ x. I.fits number × (I.value x ≡ number))
        (λ e. (e ≡ TooLarge) × (I.fits number → ⊥)) }
{
    I::from_signed(number as isize).ok_or(MatrixError::TooLarge)
}

/// The next number of 64 bits, in the type that was asked for.
fn next_wide<I: SignedIndex, R: Read>(input: &mut R) -> Result<I, MatrixError>
    ensures { IfOk result (λ x. ReadsNumbers 8 wide_of (R.remaining input.old) (R.remaining input.new)
        (I.value x ∷ [])) }
{
    converted(wide_number(input)?)
}

/// The next number of 32 bits, in the type that was asked for.
fn next_narrow<I: SignedIndex, R: Read>(input: &mut R) -> Result<I, MatrixError>
    ensures { IfOk result (λ x. ReadsNumbers 4 narrow_of (R.remaining input.old) (R.remaining input.new)
        (I.value x ∷ [])) }
{
    converted(i64::from(narrow_number(input)?))
}

/// The next numbers of 64 bits, as many as asked for.
fn wide_numbers<I: SignedIndex, R: Read, A: Allocator>(
    alloc: A,
    input: &mut R,
    count: usize,
) -> Result<Vec<I, A>, MatrixError>
    ensures { IfOk result (λ v. ReadsNumbers 8 wide_of (R.remaining input.old) (R.remaining input.new)
        (map I.value v.items) × (length v.items ≡ count)) }
{
    let mut numbers = Vec::new(alloc);
    'numbers: for _done in 0..count {
        let number = next_wide(input)?;
        numbers.push(number)?;
    }
    Ok(numbers)
}

/// The next numbers of 32 bits, as many as asked for.
fn narrow_numbers<I: SignedIndex, R: Read, A: Allocator>(
    alloc: A,
    input: &mut R,
    count: usize,
) -> Result<Vec<I, A>, MatrixError>
    ensures { IfOk result (λ v. ReadsNumbers 4 narrow_of (R.remaining input.old) (R.remaining input.new)
        (map I.value v.items) × (length v.items ≡ count)) }
{
    let mut numbers = Vec::new(alloc);
    'numbers: for _done in 0..count {
        let number = next_narrow(input)?;
        numbers.push(number)?;
    }
    Ok(numbers)
}

/// The last pointer, which has to be the number of entries.
fn last_pointer<I: SignedIndex, R: Read>(input: &mut R, entries: i64) -> Result<I, MatrixError>
    ensures { IfOk result (λ x. (I.value x ≡ entries) × ReadsNumbers 8 wide_of (R.remaining input.old)
        (R.remaining input.new) (I.value x ∷ [])) }
{
    let last = wide_number(input)?;
    if last != entries {
        return Err(MatrixError::Pointers);
    }
    converted(last)
}

/// The pointers of `n` columns, of which the last has to be the number of entries.
fn pointers<I: SignedIndex, R: Read, A: Allocator>(
    alloc: A,
    input: &mut R,
    n: usize,
    entries: i64,
) -> Result<Vec<I, A>, MatrixError>
    ensures { IfOk result (λ v. ReadsNumbers 8 wide_of (R.remaining input.old) (R.remaining input.new)
        (map I.value v.items) × EndsWith (map I.value v.items) n entries) }
{
    let mut numbers = wide_numbers(alloc, input, n)?;
    let last = last_pointer(input, entries)?;
    numbers.push(last)?;
    Ok(numbers)
}

/// The number of rows and that of entries, neither of which may be negative.
fn sizes<R: Read>(input: &mut R) -> Result<(usize, usize), MatrixError>
    ensures { IfOk result (λ p. (p.0 < 2 ^ 63) × (p.1 < 2 ^ 63) × ReadsNumbers 8 wide_of (R.remaining input.old)
        (R.remaining input.new) (pos p.0 ∷ (pos p.1 ∷ []))) }
{
    let columns = wide_number(input)?;
    let entries = wide_number(input)?;
    if columns < 0 || entries < 0 {
        return Err(MatrixError::Negative);
    }
    Ok((columns as usize, entries as usize))
}

/// Reads on, where no byte is to be left.
fn expect_end<R: Read>(input: &mut R) -> Result<(), MatrixError>
    ensures { OnOk result (IsAtEnd (R.remaining input.old)) }
{
    match input.bytes().next() {
        None => Ok(()),
        Some(Ok(_)) => Err(MatrixError::Long),
        Some(Err(error)) => Err(MatrixError::from(error)),
    }
}

/// Reads the matrix that a file holds. Whether it is a column form is not looked at, but for the last pointer; an
/// ordering does.
///
/// # Errors
///
/// A `MatrixError` where the file cannot be read or is no matrix, a number does not fit, or memory is refused. The
/// contract says nothing of errors.
pub fn read_matrix<I: SignedIndex, R: Read, A: Allocator + Copy>(
    alloc: A,
    input: &mut R,
) -> Result<BinaryMatrix<I, A>, MatrixError>
    ensures fits { IfOk result (λ m. I.fits (I.value m.n)) }
    ensures holds { IfOk result (λ m. IfSome (R.remaining input.old)
        (HoldsMatrix (I.value m.n) (map I.value m.a_p.items) (map I.value m.a_i.items))) }
{
    let (columns, entries) = sizes(input)?;
    let n = converted(columns as i64)?;
    let a_p = pointers(alloc, input, columns, entries as i64)?;
    let a_i = narrow_numbers(alloc, input, entries)?;
    expect_end(input)?;
    Ok(BinaryMatrix { n, a_p, a_i })
}
