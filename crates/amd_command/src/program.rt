// Runs what the words of a command line ask for: opens the files, and writes what comes of them. What is made of what
// was read is told by contracts; files and messages are tested alone. Each text is made in memory first, so that
// nothing is left half written where memory is refused. The pictures come last, since they may want more memory than
// all before them: where one fails, all else is written.

ghost use Rattle.std.specs.Prelude.{◌≡◌, ◌≤◌, is_none, option_map, IfOk, IfSome};
ghost use Rattle.amd_command.specs.Answers.{IsOrderingOf};
ghost use Rattle.amd_command.specs.Compared.{Compares, ComparesOrdered, TellsInfo, TellsListed, TellsOther};
ghost use Rattle.amd_command.specs.Written.{AreTextsOf};

use crate::answers::{
    Ordered, Texts, analysis_texts, facts_text, order_task, order_texts, two_needs,
};
use crate::faults::cause_of;
use crate::listed::rows_listed;
use crate::needs::need_under;
use crate::ordering::order_matrix;
use crate::picture::{Drawn, MOST_ROWS, Source, write_picture};
use amd::{Control, Info};
use amd_cli::advice::{Advice, advice_on, advice_on_words};
use amd_cli::causes::Cause;
use amd_cli::inputs::{
    Complaint, Task, about, check_inputs, control_of, read_file, read_listing, read_task,
    tell_ordering,
};
use amd_cli::paths::{STANDARD, folder_and_name};
use amd_cli::progress::{Moment, Progress};
use amd_cli::putting::put_file;
use amd_cli::request::{Options, Request, request_of};
use amd_cli::sizes::Work;
use amd_cli::unreadable::word_at_fault;
use amd_factor::needs::Need;
use amd_market::reader::Matrix;
use amd_report::compare::Comparison;
use amd_report::tree_picture::write_tree_picture;
use amd_symbolic::{Fault, supernodes};
use clap::Error;
use clap::error::ErrorKind;
use std::alloc::{AllocError, Global};
use std::io;
use std::io::Write;
use std::rt::{Clock, Files, Runtime};

/// A factor with so many entries takes some seconds to draw.
const LARGE_FACTOR: usize = 1 << 26;

/// The name for messages of what was written to.
fn output_name<'a>(path: &'a str) -> &'a str {
    if path == STANDARD {
        return "standard output";
    }
    path
}

/// What the factor needs under the order of a file, which lists the row at each place, or the place of each row.
fn other_need<R: Files + Input + Clock + Eprint + AllocGlobal>(
    rt: &R,
    progress: &Progress,
    matrix: &Matrix<Global>,
    path: &str,
    inverse: bool,
) -> Result<Need, Cause>
    ensures { IfOk result (TellsListed matrix.now.n matrix.now.a_p.items matrix.now.a_i.items inverse) }
{
    let listing = read_listing(rt, progress, matrix.n, path)?;
    let are_places = inverse || listing.paired;
    let rows = rows_listed(rt.alloc(), matrix.n, listing.numbers, are_places)?;
    match need_under(rt.alloc(), matrix, &rows) {
        Ok(need) => Ok(need),
        Err(fault) => Err(cause_of(fault)),
    }
}

/// What the factor needs under the order of the file that the words name, if they name one.
fn named_need<'a, R: Files + Input + Clock + Eprint + AllocGlobal>(
    rt: &R,
    progress: &Progress,
    options: &Options<'a>,
    matrix: &Matrix<Global>,
) -> Result<Option<Need>, Complaint<'a>>
    ensures { IfOk result (TellsOther options.now matrix.now.n matrix.now.a_p.items matrix.now.a_i.items) }
{
    let (path, inverse) = match (options.with, options.with_inverse) {
        (Some(path), _) => (path, false),
        (None, Some(path)) => (path, true),
        (None, None) => return Ok(None),
    };
    let need = other_need(rt, progress, matrix, path, inverse);
    Ok(Some(about(path, need)?))
}

/// Whether the file with another order lists the place of each row: `--with` does not name it.
fn is_inverse(options: &Options<'_>) -> bool
    ensures { result ≡ is_none options.now.with }
{
    options.with.is_none()
}

/// What the factor needs under each order, where that is asked for.
fn compare_orders<'a, R: Files + Input + Clock + Eprint + AllocGlobal>(
    rt: &R,
    progress: &Progress,
    options: &Options<'a>,
    matrix: &Matrix<Global>,
    p: &[usize],
    info: &Info,
) -> Result<Option<Comparison>, Complaint<'a>>
    ensures orders { IfOk result (Compares options.now.compare matrix.now.n matrix.now.a_p.items matrix.now.a_i.items
        p.now info.now) }
    ensures other { IfOk result (λ made. IfSome made (λ c. TellsOther options.now matrix.now.n matrix.now.a_p.items
        matrix.now.a_i.items c.other)) }
    ensures named { IfOk result (λ made. IfSome made (λ compared. compared.inverse ≡ is_none options.now.with)) }
{
    if !options.compare {
        return Ok(None);
    }
    let other = named_need(rt, progress, options, matrix)?;
    let (stands, ordered) = about(options.file, two_needs(rt.alloc(), matrix, p))?;
    Ok(Some(Comparison {
        rows: info.n,
        edges: info.nz_a_plus_at / 2,
        stands,
        ordered,
        other,
        inverse: is_inverse(options),
    }))
}

/// Writes a text to a file, or to standard output for `-`.
fn put_text<R: Files + Print + AllocGlobal>(rt: &R, path: &str, text: &[u8]) -> Result<(), Cause> {
    if path == STANDARD {
        return Ok(io::writer(rt).write_all(text)?);
    }
    put_file(rt, path, text)
}

/// Writes a text to a file where both are there.
fn put_where_asked<'a, R: Files + Print + AllocGlobal>(
    rt: &R,
    path: Option<&'a str>,
    text: &Option<Vec<u8>>,
) -> Result<(), Complaint<'a>> {
    match (path, text) {
        (Some(path), Some(text)) => about(output_name(path), put_text(rt, path, text)),
        _ => Ok(()),
    }
}

/// Writes the texts on a file to where they belong, but for the figures. No memory is asked for once a byte is written,
/// but for the names of files.
fn put_texts<'a, R: Files + Print + AllocGlobal>(
    rt: &R,
    options: &Options<'a>,
    texts: &Texts,
) -> Result<(), Complaint<'a>> {
    put_where_asked(rt, options.factor, &texts.factor)?;
    put_where_asked(rt, options.permuted, &texts.permuted)?;
    put_where_asked(rt, options.tree, &texts.tree)?;
    put_where_asked(rt, options.postorder, &texts.postorder)?;
    let out = options.out.unwrap_or(STANDARD);
    about(output_name(out), put_text(rt, out, &texts.lines))
}

/// Tells the figures on standard error, unless nothing is to be told.
fn tell_figures<'a, R: Eprint>(rt: &R, quiet: bool, figures: &str) -> Result<(), Complaint<'a>> {
    if quiet {
        return Ok(());
    }
    about("standard error", rt.eprint(figures).map_err(Cause::from))
}

/// The name of a file in the legend of a picture: without the folders.
fn legend_name<'a>(path: &'a str) -> &'a str {
    if path == STANDARD {
        return "standard input";
    }
    let (_, name) = folder_and_name(path);
    name
}

/// Tells which fill is left out of a picture, unless nothing is to be told.
fn tell_drawn<R: Eprint>(rt: &R, quiet: bool, path: &str, drawn: Drawn) {
    let missing = match (drawn.before, drawn.after) {
        (true, true) => return,
        (false, true) => "as it stands",
        (true, false) => "in its order",
        (false, false) => "as it stands and in its order",
    };
    if !quiet {
        let _ = rt.eprintln(format_args!(
            "rimopaku: {path}: the fill of the matrix {missing} is left out: the factor is too large to draw"
        ));
    }
}

/// Says that a factor with at most so many entries is drawn, or was, where it is large.
fn tell_drawing<R: Clock + Eprint>(rt: &R, progress: &Progress, moment: Moment, lnz: usize) {
    let stage = format_args!("rimopaku: drawing up to {lnz} entries of L");
    progress.tell_moment(rt, lnz >= LARGE_FACTOR, moment, stage);
}

/// Draws what a task has and its ordering, whose factor has at most so many entries, to a file.
fn draw_file<R: Files + Print + Clock + Eprint + AllocGlobal>(
    rt: &R,
    path: &str,
    options: &Options<'_>,
    task: &Task,
    ordered: &Ordered,
) -> Result<(), Cause> {
    let lnz = ordered.info.lnz;
    tell_drawing(rt, &task.progress, Moment::Begin, lnz);
    let source = Source {
        name: legend_name(options.file),
        edges: ordered.info.nz_a_plus_at / 2,
        symmetric: options.symmetric,
        most: MOST_ROWS,
    };
    let mut text = Vec::new(rt.alloc());
    let drawn = write_picture(rt.alloc(), &task.matrix, &ordered.p, &source, &mut text);
    tell_drawing(rt, &task.progress, Moment::End, lnz);
    let drawn = drawn?;
    put_text(rt, path, &text)?;
    tell_drawn(rt, options.quiet, path, drawn);
    Ok(())
}

/// Draws the tree of the supernodes of what a task has and its ordering, to a file.
fn draw_tree<R: Files + Print + AllocGlobal>(
    rt: &R,
    path: &str,
    file: &str,
    matrix: &Matrix<Global>,
    p: &[usize],
) -> Result<(), Cause> {
    let (n, a_p, a_i) = (matrix.n, &matrix.a_p, &matrix.a_i);
    let found = supernodes(rt.alloc(), n, a_p, a_i, p).map_err(cause_of)?;
    let mut text = Vec::new(rt.alloc());
    write_tree_picture(
        rt.alloc(),
        legend_name(file),
        &found.first,
        &found.ptr,
        &found.parent,
        &mut text,
    )?;
    put_text(rt, path, &text)
}

/// Draws what a task has and its ordering, where files are named for the pictures.
fn put_pictures<'a, R: Files + Print + Clock + Eprint + AllocGlobal>(
    rt: &R,
    options: &Options<'a>,
    task: &Task,
    ordered: &Ordered,
) -> Result<(), Complaint<'a>> {
    if let Some(path) = options.picture {
        let drawn = draw_file(rt, path, options, task, ordered);
        about(output_name(path), drawn.map_err(Cause::at_picture))?;
    }
    if let Some(path) = options.tree_picture {
        let drawn = draw_tree(rt, path, options.file, &task.matrix, &ordered.p);
        about(output_name(path), drawn.map_err(Cause::at_picture))?;
    }
    Ok(())
}

/// What a run of `order` does with its matrix.
fn work_of(options: &Options<'_>) -> Work {
    let is_counted = options.compare || options.factor.is_some() || options.tree.is_some();
    let is_drawn = options.picture.is_some() || options.tree_picture.is_some();
    if is_counted || is_drawn || options.postorder.is_some() {
        Work::Factor
    } else {
        Work::Order
    }
}

/// The ordering of what a task has, and its texts.
fn order_made<'a, R: Files + Input + Clock + Eprint + AllocGlobal>(
    rt: &R,
    options: &Options<'a>,
    task: &Task,
) -> Result<(Ordered, Texts), Complaint<'a>>
    ensures ordering { IfOk result (λ r. IsOrderingOf task.now r.0.p.items r.0.info) }
    ensures compared { IfOk result (λ r. Compares options.now.compare task.now.matrix.n task.now.matrix.a_p.items
        task.now.matrix.a_i.items r.0.p.items r.0.info r.0.compared) }
    ensures texts { IfOk result (λ r. AreTextsOf options.now task.now.matrix.n task.now.matrix.a_p.items
        task.now.matrix.a_i.items task.now.matrix.repeats (option_map (λ v. v.items) task.now.text) r.0 r.1) }
{
    let ordered = order_task(rt.alloc(), task);
    tell_ordering(rt, &task.progress, Moment::End, &task.matrix);
    let (p, info) = about(options.file, ordered)?;
    let compared = compare_orders(rt, &task.progress, options, &task.matrix, &p, &info)?;
    let ordered = Ordered { p, info, compared };
    let given = task.text.as_deref();
    let texts = order_texts(rt.alloc(), options, &task.matrix, given, &ordered);
    let texts = about(options.file, texts)?;
    Ok((ordered, texts))
}

/// Orders a file. All memory is taken before an output is written, but that for the pictures, which come last.
fn order_file<'a, R: Runtime + AllocGlobal>(
    rt: &R,
    options: &Options<'a>,
) -> Result<(), Complaint<'a>> {
    let task = read_task(rt, options, work_of(options))?;
    let (ordered, texts) = order_made(rt, options, &task)?;
    put_texts(rt, options, &texts)?;
    let told = tell_figures(rt, options.quiet, &texts.figures);
    put_pictures(rt, options, &task, &ordered)?;
    told
}

/// Orders what a task has, counts the columns of its factor, and writes what comes of it.
fn analyze_read<'a, R: Runtime + AllocGlobal>(
    rt: &R,
    options: &Options<'a>,
    task: &Task,
) -> Result<(), Complaint<'a>> {
    let texts = analysis_texts(rt.alloc(), task, options.json);
    tell_ordering(rt, &task.progress, Moment::End, &task.matrix);
    let texts = about(options.file, texts)?;
    put_texts(rt, options, &texts)?;
    tell_figures(rt, options.quiet, &texts.figures)
}

/// Orders a file, and counts the columns of its factor. All memory is taken before an output is written.
fn analyze_file<'a, R: Runtime + AllocGlobal>(
    rt: &R,
    options: &Options<'a>,
) -> Result<(), Complaint<'a>> {
    let task = read_task(rt, options, Work::Factor)?;
    analyze_read(rt, options, &task)
}

/// What the factor of a matrix needs as its rows stand, as they are ordered and as a file lists them, where that is
/// asked for.
fn exact_needs<'a, R: Files + Input + Clock + Eprint + AllocGlobal>(
    rt: &R,
    progress: &Progress,
    options: &Options<'a>,
    matrix: &Matrix<Global>,
    control: &Control,
) -> Result<Option<Comparison>, Complaint<'a>>
    ensures orders { IfOk result (ComparesOrdered options.now.compare control.now matrix.now.n matrix.now.a_p.items
        matrix.now.a_i.items) }
    ensures other { IfOk result (λ made. IfSome made (λ c. TellsOther options.now matrix.now.n matrix.now.a_p.items
        matrix.now.a_i.items c.other)) }
{
    if !options.compare {
        return Ok(None);
    }
    tell_ordering(rt, progress, Moment::Begin, matrix);
    let ordered = order_matrix(rt.alloc(), matrix, control, None).map_err(Cause::from);
    tell_ordering(rt, progress, Moment::End, matrix);
    let (p, info) = about(options.file, ordered)?;
    compare_orders(rt, progress, options, matrix, &p, &info)
}

/// The text of what a matrix is, and of what its factor needs, where that is asked for.
fn facts_made<'a, R: Files + Input + Clock + Eprint + AllocGlobal>(
    rt: &R,
    progress: &Progress,
    options: &Options<'a>,
    matrix: &Matrix<Global>,
    control: &Control,
) -> Result<Vec<u8>, Complaint<'a>>
    ensures { IfOk result (λ text. TellsInfo options.now control.now matrix.now.n matrix.now.a_p.items
        matrix.now.a_i.items matrix.now.source matrix.now.repeats text.items) }
{
    let compared = exact_needs(rt, progress, options, matrix, control)?;
    let text = facts_text(rt.alloc(), options.json, matrix, control, compared);
    about(options.file, text)
}

/// Tells what a file is.
fn describe_file<'a, R: Runtime + AllocGlobal>(
    rt: &R,
    options: &Options<'a>,
) -> Result<(), Complaint<'a>> {
    let control = control_of(options)?;
    let work = if options.compare {
        Work::Factor
    } else {
        Work::Facts
    };
    let budget = check_inputs(rt, options, work)?;
    let progress = Progress::from_now(rt, options.progress, options.quiet);
    let read = read_file(rt, &progress, budget, options.file);
    let matrix = about(options.file, read)?;
    let text = facts_made(rt, &progress, options, &matrix, &control)?;
    about(output_name(STANDARD), put_text(rt, STANDARD, &text))
}

/// Does what is asked for.
fn answer<'a, R: Runtime + AllocGlobal>(
    rt: &R,
    request: &Request<'a>,
) -> Result<(), Complaint<'a>> {
    match request {
        Request::Order(options) => order_file(rt, options),
        Request::Analyze(options) => analyze_file(rt, options),
        Request::Info(options) => describe_file(rt, options),
    }
}

/// The exit status after the text of the command line's error was shown.
fn exit_status_of(error: &Error) -> u8
    ensures { result ≤ 2 }
{
    match error.kind() {
        ErrorKind::DisplayHelp | ErrorKind::DisplayVersion => 0,
        ErrorKind::OutOfMemory => 1,
        _ => 2,
    }
}

/// Tells what leads on, where something does.
fn advise<R: Eprint>(rt: &R, advice: Option<Advice<'_>>) {
    if let Some(advice) = advice {
        let _ = rt.eprintln(advice);
    }
}

/// Tells why a run ended early, unless what reads its output has gone.
fn complain<R: Eprint>(rt: &R, complaint: Complaint<'_>) {
    if complaint.cause.is_quiet() {
        return;
    }
    let advice = advice_on(&complaint);
    let _ = rt.eprintln(complaint);
    advise(rt, advice);
}

/// Tells of the first word of the command line that is not UTF-8, and says whether there is one.
pub fn complain_of_word<R: Runtime + AllocGlobal>(rt: &R) -> Result<bool, AllocError> {
    match word_at_fault(rt)? {
        Some(word) => {
            let _ = rt.eprintln(format_args!(
                "rimopaku: {word}: is not UTF-8: give it a name that is"
            ));
            Ok(true)
        }
        None => Ok(false),
    }
}

/// Runs a command line, the first word of which is the name of the program, and returns the exit status: 0 where all
/// was done, 1 where memory was refused or an output failed, 2 where an argument or an input is wrong, and 3 where the
/// picture could not be drawn or written, but all else is. A message on standard error tells why it is not 0, but for
/// an output whose reader has gone. With a status of 2, and where memory was refused with a status of 1, no output is
/// written; lines on standard error that tell of a long file or a large matrix may stand before the message.
pub fn run<R: Runtime + AllocGlobal>(rt: &R, words: &[String]) -> u8
    ensures { result ≤ 3 }
{
    match request_of(rt.alloc(), words) {
        Ok(request) => match answer(rt, &request) {
            Ok(()) => 0,
            Err(complaint) => {
                let status = complaint.cause.exit_status();
                complain(rt, complaint);
                status
            }
        },
        Err(error) => {
            let status = exit_status_of(&error);
            match error.print(rt) {
                Ok(()) if status == 2 => {
                    advise(rt, advice_on_words(words));
                    status
                }
                Ok(()) => status,
                Err(_) => 1,
            }
        }
    }
}
