// What a run reads: the matrix, the rows to hold last and another order; and the outputs that may not be one file with
// them. That a task has the control of the words is told by a contract; files and messages are tested alone: no
// contract can speak of them.

ghost use Rattle.std.specs.Prelude.{◌≡◌, Ok, IfOk, IfSome, is_some};
ghost use Rattle.amd_market.specs.Files.{SpellsFile};
ghost use Rattle.amd_cli.specs.Requests.{IsControlOf};

use crate::causes::Cause;
use crate::held::read_held;
use crate::listed::{Listed, read_listed};
use crate::listing::{Listing, listing_of};
use crate::paths::{STANDARD, are_one_output, check_place, input_path, is_input};
use crate::progress::{Moment, Progress};
use crate::request::Options;
use crate::sizes::{Budget, Work, check_told, head_of, told_size};
use crate::watched::Watched;
use amd_market::faults::ReadError;
use amd_market::reader::{Matrix, read_matrix};
use amd_types::amd::Control;
use std::alloc::Global;
use std::fs;
use std::fs::OpenFile;
use std::io::{Error, ErrorKind, Read};
use std::rt::{Clock, Files};
use thiserror::Error;

/// A file of so many bytes takes some seconds to read.
const LONG_FILE: u64 = 1 << 26;

/// A matrix with so many entries takes some seconds to order.
const MANY_ENTRIES: usize = 1 << 20;

/// What is ordered, and how.
#[derive(Drop)]
pub struct Task {
    /// What is told while the run works.
    pub progress: Progress,
    /// What the words choose.
    pub control: Control,
    /// The matrix.
    pub matrix: Matrix<Global>,
    /// Its text, where the permuted matrix is asked for.
    pub text: Option<Vec<u8>>,
    /// The rows to hold last, where there is a file of them.
    pub hold: Option<Vec<bool>>,
}

/// Why a run ended early, and with which file or word.
#[derive(Debug, Drop, Error)]
#[error("rimopaku: {subject}: {cause}")]
pub struct Complaint<'a> {
    /// The file or word.
    pub subject: &'a str,
    /// Why.
    pub cause: Cause,
}

/// Says which file or word a result is about.
pub fn about<'a, T: Drop>(subject: &'a str, outcome: Result<T, Cause>) -> Result<T, Complaint<'a>>
    ensures { IfOk result (λ v. outcome ≡ Ok v) }
{
    match outcome {
        Ok(value) => Ok(value),
        Err(cause) => Err(Complaint { subject, cause }),
    }
}

/// Opens a file to read, and says so where it is long.
fn open_file<R: Files + Clock + Eprint>(
    rt: &R,
    progress: &Progress,
    path: &str,
) -> Result<R::File, Cause> {
    let file = fs::open(rt, path).map_err(Cause::Open)?;
    let found = file.metadata().map_err(Cause::Open)?;
    if found.is_dir() {
        return Err(Cause::Folder);
    }
    let size = found.len();
    let megabytes = size >> 20;
    let stage = format_args!("rimopaku: reading {path}, {megabytes} MiB");
    progress.tell(rt, size >= LONG_FILE, stage);
    Ok(file)
}

/// Whether a path leads to a regular file, which can be read again.
fn is_regular<R: Files>(rt: &R, path: &str) -> bool {
    fs::metadata(rt, input_path(path)).is_ok_and(|found| found.is_file())
}

/// Refuses a regular file that asks for more memory than it may. What else there is, as a pipe, is looked at when it is
/// read, since it could not be read again.
fn check_size<R: Files + AllocGlobal>(rt: &R, budget: Budget, path: &str) -> Result<(), Cause> {
    if !is_regular(rt, path) {
        return Ok(());
    }
    let input = fs::open(rt, input_path(path)).map_err(Cause::Open)?;
    let size = input.metadata().map_err(Cause::Open)?.len();
    check_told(budget, told_size(rt.alloc(), input), Some(size))
}

/// Why bytes were not read.
fn unread(error: Error) -> Cause {
    if error.kind() == ErrorKind::OutOfMemory {
        return Cause::Memory;
    }
    Cause::Text(ReadError::Input { line: 0, error })
}

/// Reads the matrix of a pipe, whose first bytes are looked at before: they may ask for more memory than they may take.
fn read_pipe<I: Read + Drop>(
    alloc: Global,
    budget: Budget,
    mut input: I,
) -> Result<Matrix<Global>, Cause> {
    let head = head_of(alloc, &mut input).map_err(unread)?;
    check_told(budget, told_size(alloc, head.as_slice()), None)?;
    read_matrix(alloc, head.as_slice().chain(input)).map_err(Cause::Text)
}

/// Ends the line of a bar that an error cuts off.
fn cut_bar<R: Eprint>(rt: &R, error: ReadError) -> Cause {
    let _ = rt.eprint("\n");
    Cause::Text(error)
}

/// Reads the matrix of a file, or of standard input for `-`.
pub fn read_file<R: Files + Input + Clock + Eprint + AllocGlobal>(
    rt: &R,
    progress: &Progress,
    budget: Budget,
    path: &str,
) -> Result<Matrix<Global>, Cause> {
    let is_pipe = !is_regular(rt, path);
    if path == STANDARD {
        if is_pipe {
            return read_pipe(rt.alloc(), budget, rt.reader());
        }
        return read_matrix(rt.alloc(), rt.reader()).map_err(Cause::Text);
    }
    let input = open_file(rt, progress, path)?;
    if is_pipe {
        return read_pipe(rt.alloc(), budget, input);
    }
    let size = input.metadata().map_err(Cause::Open)?.len();
    if !progress.has_bar(rt, size >= LONG_FILE) {
        return read_matrix(rt.alloc(), input).map_err(Cause::Text);
    }
    read_matrix(rt.alloc(), Watched::new(rt, input, size)).map_err(|error| cut_bar(rt, error))
}

/// All bytes of an input.
fn bytes_of<I: Read + Drop>(alloc: Global, mut input: I) -> Result<Vec<u8>, Cause>
    ensures { IfOk result (λ text. IfSome (I.remaining input) (λ bytes. text.items ≡ bytes)) }
{
    let mut text = Vec::new(alloc);
    match input.read_to_end(&mut text) {
        Ok(_) => Ok(text),
        Err(error) => Err(unread(error)),
    }
}

/// Reads the text of a file, or of standard input for `-`.
fn read_text<R: Files + Input + Clock + Eprint + AllocGlobal>(
    rt: &R,
    progress: &Progress,
    path: &str,
) -> Result<Vec<u8>, Cause> {
    if path == STANDARD {
        return bytes_of(rt.alloc(), rt.reader());
    }
    let input = open_file(rt, progress, path)?;
    let size = input.metadata().map_err(Cause::Open)?.len();
    if !progress.has_bar(rt, size >= LONG_FILE) {
        return bytes_of(rt.alloc(), input);
    }
    bytes_of(rt.alloc(), Watched::new(rt, input, size))
}

/// Reads the matrix of a file, or of standard input for `-`, and its text, where the permuted matrix is asked for.
fn read_kept<R: Files + Input + Clock + Eprint + AllocGlobal>(
    rt: &R,
    progress: &Progress,
    budget: Budget,
    options: &Options<'_>,
) -> Result<(Matrix<Global>, Option<Vec<u8>>), Cause>
    ensures text { IfOk result (λ r. IfSome r.1 (λ text.
        SpellsFile text.items r.0.source r.0.n r.0.a_p.items r.0.a_i.items r.0.repeats)) }
    ensures kept { IfOk result (λ r. is_some r.1 ≡ is_some options.now.permuted) }
{
    if options.permuted.is_none() {
        return Ok((read_file(rt, progress, budget, options.file)?, None));
    }
    let text = read_text(rt, progress, options.file)?;
    check_told(
        budget,
        told_size(rt.alloc(), text.as_slice()),
        Some(text.len() as u64),
    )?;
    match read_matrix(rt.alloc(), text.as_slice()) {
        Ok(matrix) => Ok((matrix, Some(text))),
        Err(error) => Err(Cause::Text(error)),
    }
}

/// Reads the rows to hold last, from a file or, for `-`, from standard input.
fn read_marks<R: Files + Input + Clock + Eprint + AllocGlobal>(
    rt: &R,
    progress: &Progress,
    n: usize,
    path: &str,
) -> Result<Vec<bool>, Cause> {
    if path == STANDARD {
        return read_held(rt.alloc(), n, rt.reader()).map_err(Cause::Text);
    }
    let input = open_file(rt, progress, path)?;
    read_held(rt.alloc(), n, input).map_err(Cause::Text)
}

/// Reads the lines of a list, from a file or, for `-`, from standard input.
fn read_lines<R: Files + Input + Clock + Eprint + AllocGlobal>(
    rt: &R,
    progress: &Progress,
    n: usize,
    path: &str,
) -> Result<Vec<Listed>, Cause> {
    if path == STANDARD {
        return read_listed(rt.alloc(), n, rt.reader()).map_err(Cause::Text);
    }
    let input = open_file(rt, progress, path)?;
    read_listed(rt.alloc(), n, input).map_err(Cause::Text)
}

/// Reads the numbers that a file lists, or standard input for `-`: the rows of an order, or their places.
pub fn read_listing<R: Files + Input + Clock + Eprint + AllocGlobal>(
    rt: &R,
    progress: &Progress,
    n: usize,
    path: &str,
) -> Result<Listing<Global>, Cause> {
    let listed = read_lines(rt, progress, n, path)?;
    listing_of(rt.alloc(), n, &listed)
}

/// Says that a matrix is ordered, or was, where it is large.
pub fn tell_ordering<R: Clock + Eprint>(
    rt: &R,
    progress: &Progress,
    moment: Moment,
    matrix: &Matrix<Global>,
) {
    let rows = matrix.n;
    let entries = matrix.a_i.len();
    let stage = format_args!("rimopaku: ordering {rows} rows, {entries} entries");
    progress.tell_moment(rt, entries >= MANY_ENTRIES, moment, stage);
}

/// What the words of a subcommand choose.
pub fn control_of<'a>(options: &Options<'a>) -> Result<Control, Complaint<'a>>
    ensures { IfOk result (IsControlOf options.now) }
{
    about("--dense", options.control().ok_or(Cause::Dense))
}

/// Reads the rows to hold last, where a file of them is named.
fn read_hold<'a, R: Files + Input + Clock + Eprint + AllocGlobal>(
    rt: &R,
    progress: &Progress,
    options: &Options<'a>,
    n: usize,
) -> Result<Option<Vec<bool>>, Complaint<'a>>
    ensures { IfOk result (λ marks. is_some marks ≡ is_some options.now.hold) }
{
    match options.hold {
        Some(path) => Ok(Some(about(path, read_marks(rt, progress, n, path))?)),
        None => Ok(None),
    }
}

/// The files that a run reads.
fn inputs_of<'a>(options: &Options<'a>) -> [Option<&'a str>; 4] {
    [
        Some(options.file),
        options.hold,
        options.with,
        options.with_inverse,
    ]
}

/// The files that a run writes. What has no file of its own goes to standard output.
fn outputs_of<'a>(options: &Options<'a>) -> [Option<&'a str>; 7] {
    [
        Some(options.out.unwrap_or(STANDARD)),
        options.factor,
        options.permuted,
        options.tree,
        options.postorder,
        options.picture,
        options.tree_picture,
    ]
}

/// Refuses standard input for more than one of the files to read.
fn check_standard<'a>(options: &Options<'a>) -> Result<(), Complaint<'a>> {
    let inputs = inputs_of(options);
    let standard = inputs.iter().filter(|path| **path == Some(STANDARD));
    if standard.count() > 1 {
        return about(STANDARD, Err(Cause::StandardInput));
    }
    Ok(())
}

/// How much memory a run of the words may take that does this work.
fn budget_of<'a>(options: &Options<'a>, work: Work) -> Result<Budget, Complaint<'a>> {
    let allowance = about("--memory", options.allowance().ok_or(Cause::LimitWord))?;
    Ok(Budget { allowance, work })
}

/// Refuses standard input for more than one of the files to read, and a file that asks for more memory than it may;
/// returns how much a run may take that does this work.
pub fn check_inputs<'a, R: Files + AllocGlobal>(
    rt: &R,
    options: &Options<'a>,
    work: Work,
) -> Result<Budget, Complaint<'a>> {
    check_standard(options)?;
    let budget = budget_of(options, work)?;
    about(options.file, check_size(rt, budget, options.file))?;
    Ok(budget)
}

/// Refuses an output that is one of some files to read.
fn check_reading<'a, R: Files + AllocGlobal>(
    rt: &R,
    output: &'a str,
    inputs: &[Option<&str>],
) -> Result<(), Complaint<'a>> {
    'inputs: for input in inputs {
        if let Some(input) = *input {
            if about(output, is_input(rt, output, input))? {
                return about(output, Err(Cause::Twice));
            }
        }
    }
    Ok(())
}

/// Refuses an output that is one of some others.
fn check_writing<'a, R: Files + AllocGlobal>(
    rt: &R,
    output: &'a str,
    others: &[Option<&str>],
) -> Result<(), Complaint<'a>> {
    'others: for other in others {
        if let Some(other) = *other {
            if about(output, are_one_output(rt, output, other))? {
                return about(output, Err(Cause::Twice));
            }
        }
    }
    Ok(())
}

/// Refuses outputs that are one file with another output or an input.
fn check_names<'a, R: Files + AllocGlobal>(
    rt: &R,
    options: &Options<'a>,
) -> Result<(), Complaint<'a>> {
    let inputs = inputs_of(options);
    let outputs = outputs_of(options);
    'outputs: for k in 0..outputs.len() {
        if let Some(output) = outputs[k] {
            check_reading(rt, output, &inputs)?;
            check_writing(rt, output, &outputs[..k])?;
        }
    }
    Ok(())
}

/// Refuses outputs that are one file with another output or an input, or that nothing can be written to.
fn check_outputs<'a, R: Files + AllocGlobal>(
    rt: &R,
    options: &Options<'a>,
) -> Result<(), Complaint<'a>> {
    check_names(rt, options)?;
    'outputs: for output in outputs_of(options) {
        if let Some(output) = output {
            about(output, check_place(rt, output))?;
        }
    }
    Ok(())
}

/// Reads what is to be ordered, for a run that does this work, and says so where it is large.
pub fn read_task<'a, R: Files + Input + Clock + Eprint + AllocGlobal>(
    rt: &R,
    options: &Options<'a>,
    work: Work,
) -> Result<Task, Complaint<'a>>
    ensures control { IfOk result (λ task. IsControlOf options.now task.control) }
    ensures hold { IfOk result (λ task. is_some task.hold ≡ is_some options.now.hold) }
    ensures text { IfOk result (λ task. IfSome task.text (λ text. SpellsFile text.items task.matrix.source
        task.matrix.n task.matrix.a_p.items task.matrix.a_i.items task.matrix.repeats)) }
    ensures kept { IfOk result (λ task. is_some task.text ≡ is_some options.now.permuted) }
{
    let control = control_of(options)?;
    let budget = check_inputs(rt, options, work)?;
    check_outputs(rt, options)?;
    let progress = Progress::from_now(rt, options.progress, options.quiet);
    let read = read_kept(rt, &progress, budget, options);
    let (matrix, text) = about(options.file, read)?;
    let hold = read_hold(rt, &progress, options, matrix.n)?;
    tell_ordering(rt, &progress, Moment::Begin, &matrix);
    Ok(Task {
        progress,
        control,
        matrix,
        text,
        hold,
    })
}
