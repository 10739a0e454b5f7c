// Whole runs of the command: the exit status, what stands on standard output and what is told on standard error, for
// good files, for files and words at fault, for outputs that fail, and for runs that take long.

use crate::tests::desk::{Desk, Pages};
use crate::tests::outputs::{PATH, PATH_FACTS};
use amd_cli::causes::Cause;
use amd_command::program::run;
use amd_testing::check;
use std::alloc::{AllocError, Global};
use std::cell::RefCell;
use std::io;
use std::io::ErrorKind;
use std::process::Abort;
use std::test::Fail;

/// What is told of the path where it is ordered.
const PATH_FIGURES: &str = "    rows                                                3\n";

/// What is shown of it then, by the independent program: row 2 comes first, then 1 and 3.
const PATH_ORDER: &str = "2\n1\n3\n";

/// The same as JSON.
const PATH_JSON: &str = concat!(
    "{\"rows\":3,\"entries\":5,\"duplicates_dropped\":0,\"status\":\"OK\",",
    "\"rows_placed_last\":0,\"workspace_compactions\":0,",
    "\"at_most\":{\"entries_of_l\":2,\"divisions\":2,\"multiply_subtracts_ldl\":2,\"multiply_subtracts_lu\":2,",
    "\"largest_column\":2},\"permutation\":[2,1,3]}\n"
);

/// What `analyze` shows of it as JSON: row 3 is the parent of both others.
const PATH_FACTOR_JSON: &str = concat!(
    "{\"rows\":3,\"entries\":5,\"duplicates_dropped\":0,\"status\":\"OK\",",
    "\"rows_placed_last\":0,\"workspace_compactions\":0,",
    "\"at_most\":{\"entries_of_l\":2,\"divisions\":2,\"multiply_subtracts_ldl\":2,\"multiply_subtracts_lu\":2,",
    "\"largest_column\":2},\"ordered\":{\"entries_of_l\":2,\"fill\":0,\"divisions\":2,",
    "\"multiply_subtracts_ldl\":2,\"multiply_subtracts_lu\":2,\"flops_ldl\":6,\"largest_column\":2,",
    "\"bytes_of_l\":40},\"columns\":[[2,3,1],[1,3,1],[3,0,0]]}\n"
);

/// A file whose third line has a row that there is not.
const BAD: &str = "%%MatrixMarket matrix coordinate pattern general\n2 2 2\n3 1\n1 1\n";

/// A path that there is not.
const NOWHERE: &str = "/no/such/folder/file";

/// The words of a command line.
fn words_of(alloc: Global, words: &[&str]) -> Result<Vec<String>, AllocError> {
    let mut owned = Vec::new(alloc);
    owned.push(String::from_str(alloc, "rimopaku")?)?;
    for word in words {
        owned.push(String::from_str(alloc, word)?)?;
    }
    Ok(owned)
}

/// The text of a page.
fn text_of(alloc: Global, page: &RefCell<Vec<u8>>) -> Result<String, Fail> {
    match page.try_borrow() {
        Ok(bytes) => Ok(String::from_utf8_lossy(alloc, &bytes)?),
        Err(_) => Ok(String::new(alloc)),
    }
}

/// How a run ended.
#[derive(Drop)]
pub struct Ended {
    /// The exit status.
    pub status: u8,
    /// What stands on standard output.
    pub shown: String,
    /// What stands on standard error.
    pub told: String,
}

/// Which of the streams of a run takes nothing, or whether no file can be moved.
#[derive(Clone, Copy, PartialEq)]
pub enum Broken {
    /// None.
    Neither,
    /// Standard output.
    Output,
    /// Standard error.
    Error,
    /// No stream: a file cannot be moved.
    Move,
}

/// Runs the command with a text as its input, with a clock that goes on by so many seconds, and with what
/// fails.
pub fn run_at_desk(
    host: &HostRuntime,
    words: &[&str],
    input: &str,
    step: u64,
    broken: Broken,
) -> Result<Ended, Fail> {
    let alloc = host.alloc();
    let pages = Pages::new(alloc);
    let owned = words_of(alloc, words)?;
    let desk = Desk {
        host,
        input: input.as_bytes(),
        pages: &pages,
        step,
        broken: broken == Broken::Output,
        mute: broken == Broken::Error,
        stuck: broken == Broken::Move,
    };
    let status = run(&desk, &owned);
    Ok(Ended {
        status,
        shown: text_of(alloc, &pages.shown)?,
        told: text_of(alloc, &pages.told)?,
    })
}

/// The status of a run on an input.
pub fn status_of(rt: &HostRuntime, words: &[&str], input: &str) -> Result<u8, Fail> {
    let end = run_at_desk(rt, words, input, 0, Broken::Neither)?;
    Ok(end.status)
}

/// Whether a run on an input ends well and shows a text, and no more.
pub fn shows(rt: &HostRuntime, words: &[&str], input: &str, text: &str) -> Result<bool, Fail> {
    let end = run_at_desk(rt, words, input, 0, Broken::Neither)?;
    Ok(end.status == 0 && end.shown.as_str() == text)
}

/// Whether a run on an input ends with a status, shows nothing, and tells a text among others.
pub fn refuses(
    rt: &HostRuntime,
    words: &[&str],
    input: &str,
    status: u8,
    text: &str,
) -> Result<bool, Fail> {
    let end = run_at_desk(rt, words, input, 0, Broken::Neither)?;
    Ok(end.status == status && end.shown.is_empty() && end.told.contains(text))
}

/// Words, an input, the status, and a part of what is told, where something is at fault.
type Refused = (&'static [&'static str], &'static str, u8, &'static str);

/// Words and files at fault: status 2. Outputs that cannot be opened: status 1.
static REFUSED: [Refused; 36] = [
    (&[], "", 2, "Usage: rimopaku"),
    (&["sort", "-"], PATH, 2, "sort"),
    (&["order"], PATH, 2, "FILE"),
    (&["order", "-", "--sort"], PATH, 2, "--sort"),
    (
        &["order", "-", "--dense", "ten"],
        PATH,
        2,
        "rimopaku: --dense: must be a decimal number with up to three places",
    ),
    (&["info", "-"], "", 2, "rimopaku: -: the file is empty\n"),
    (
        &["info", "-"],
        BAD,
        2,
        "rimopaku: -: line 3: the row is out of range: 3, of rows 1 to 2",
    ),
    (
        &["order", "-"],
        BAD,
        2,
        "rimopaku: -: line 3: the row is out of range: 3, of rows 1 to 2",
    ),
    (
        &["order", "-", "--picture", "/dev/null"],
        BAD,
        2,
        "rimopaku: -: line 3: the row is out of range: 3, of rows 1 to 2",
    ),
    (
        &["order", "-", "--picture", NOWHERE],
        BAD,
        1,
        "rimopaku: /no/such/folder/file: cannot be written: ",
    ),
    (
        &["order", "-", "--tree-picture", NOWHERE],
        PATH,
        1,
        "rimopaku: /no/such/folder/file: cannot be written: ",
    ),
    (
        &["order", "-", "--tree", "-"],
        PATH,
        2,
        "rimopaku: -: is named twice: an output must be a file of its own\n",
    ),
    (
        &["order", "-", "--hold", "-"],
        PATH,
        2,
        "rimopaku: -: standard input is named twice: only one of the files to read can be -\n",
    ),
    (
        &["info", "-", "--exact", "--with", "-"],
        PATH,
        2,
        "rimopaku: -: standard input is named twice: only one of the files to read can be -\n",
    ),
    (
        &["analyze", "-"],
        BAD,
        2,
        "rimopaku: -: line 3: the row is out of range: 3, of rows 1 to 2",
    ),
    (
        &["order", NOWHERE],
        "",
        2,
        "rimopaku: /no/such/folder/file: cannot be opened: ",
    ),
    (
        &["info", "/"],
        "",
        2,
        "rimopaku: /: is a folder: name a file\n",
    ),
    (
        &["order", "-", "--hold", "/tmp"],
        PATH,
        2,
        "rimopaku: /tmp: is a folder: name a file\n",
    ),
    (
        &["order", "-", "--picture", "/"],
        PATH,
        2,
        "rimopaku: /: is a folder: name a file\n",
    ),
    (
        &["order", "/etc/hostname", "--out", "/etc/hostname"],
        "",
        2,
        "rimopaku: /etc/hostname: is named twice: an output must be a file of its own\n",
    ),
    (
        &[
            "order",
            "-",
            "--hold",
            "/etc/hostname",
            "--picture",
            "/etc/../etc/hostname",
        ],
        PATH,
        2,
        "rimopaku: /etc/../etc/hostname: is named twice: an output must be a file of its own\n",
    ),
    (
        &[
            "order",
            "-",
            "--out",
            "/tmp/no-such-file",
            "--picture",
            "/tmp/no-such-file",
        ],
        PATH,
        2,
        "rimopaku: /tmp/no-such-file: is named twice: an output must be a file of its own\n",
    ),
    (
        &[
            "order",
            "-",
            "--permuted",
            "/tmp/no-such-file",
            "--tree",
            "/tmp/../tmp/no-such-file",
        ],
        PATH,
        2,
        "rimopaku: /tmp/../tmp/no-such-file: is named twice: an output must be a file of its own\n",
    ),
    (&["order", "-", "--with", "/dev/null"], PATH, 2, "--compare"),
    (
        &["info", "-", "--exact", "--with", "/dev/null"],
        PATH,
        2,
        "rimopaku: /dev/null: no order of the rows: row 1 does not stand there\n",
    ),
    (
        &["info", "-", "--exact", "--with-inverse", "/dev/null"],
        PATH,
        2,
        "rimopaku: /dev/null: no order of the rows: place 1 does not stand there\n",
    ),
    (
        &[
            "order",
            "-",
            "--compare",
            "--with",
            "/dev/null",
            "--with-inverse",
            "/dev/null",
        ],
        PATH,
        2,
        "cannot be used with",
    ),
    (
        &["order", "-", "--dense", ".2147484"],
        PATH,
        2,
        "such as 10 or 2.5, from -2147483.648 to 2147483.647\n",
    ),
    (
        &["info", "-"],
        "%%MatrixMarket matrix coordinate pattern general\n2 3 0\n",
        2,
        "\nrimopaku: only a square matrix is ordered: for least squares",
    ),
    (
        &["info", "-", "--compare"],
        PATH,
        2,
        "\nrimopaku: info counts what the factor needs with --exact\n",
    ),
    (
        &["order", "-", "--exact"],
        PATH,
        2,
        "\nrimopaku: order counts what the factor needs with --compare\n",
    ),
    (&["order", "-", "--symmetric"], PATH, 2, "--picture"),
    (
        &["order", "-", "--permuted", NOWHERE],
        PATH,
        1,
        "rimopaku: /no/such/folder/file: cannot be written: ",
    ),
    (
        &["order", "-", "--hold", NOWHERE],
        PATH,
        2,
        "rimopaku: /no/such/folder/file: cannot be opened: ",
    ),
    (
        &["order", "-", "--out", NOWHERE],
        PATH,
        1,
        "rimopaku: /no/such/folder/file: cannot be written: ",
    ),
    (
        &["analyze", "-", "--out", NOWHERE],
        PATH,
        1,
        "rimopaku: /no/such/folder/file: cannot be written: ",
    ),
];

/// Nothing is shown where something is at fault, and a message tells what.
#[test]
fn runs_that_are_refused(rt: HostRuntime) -> Result<(), Fail> {
    for (words, input, status, told) in &REFUSED {
        let is_refused = refuses(&rt, words, input, *status, told)?;
        check!(&rt; is_refused, told);
    }
    Ok(())
}

/// Words of runs that do what is asked for, and what they show.
static ANSWERED: [(&[&str], &str); 11] = [
    (&["info", "-"], PATH_FACTS),
    (&["order", "-", "--out", "/dev/null"], ""),
    (
        &["analyze", "-", "--hold", "/dev/null", "--out", "/dev/null"],
        "",
    ),
    (
        &["order", "-", "--picture", "/dev/null", "--out", "/dev/null"],
        "",
    ),
    (
        &[
            "order",
            "-",
            "--tree-picture",
            "/dev/null",
            "--permuted",
            "/dev/null",
            "--tree",
            "/dev/null",
            "--json",
        ],
        PATH_JSON,
    ),
    (&["analyze", "-", "--json"], PATH_FACTOR_JSON),
    (&["order", "-", "--inverse"], "2\n1\n3\n"),
    (&["order", "-", "--zero-based"], "1\n0\n2\n"),
    (
        &["order", "-", "--out", "/dev/null", "--permuted", "-"],
        "%%MatrixMarket matrix coordinate pattern symmetric\n3 3 3\n2 2\n3 2\n3 1\n",
    ),
    (
        &["order", "-", "--out", "/dev/null", "--factor", "-"],
        "%%MatrixMarket matrix coordinate pattern general\n3 3 2\n3 1\n3 2\n",
    ),
    (
        &["order", "-", "--out", "/dev/null", "--tree", "-"],
        "% the parent of each column, 0 for a root\n3\n3\n0\n\
        % of each supernode its first and its last column, its parent or 0, and its rows below the block\n\
        1 1 2 1\n2 3 0 0\n",
    ),
];

#[test]
fn runs_that_end_well(rt: HostRuntime) -> Result<(), Fail> {
    for (words, shown) in &ANSWERED {
        let end = run_at_desk(&rt, words, PATH, 0, Broken::Neither)?;
        let is_told = end.told.is_empty() || end.told.starts_with(PATH_FIGURES);
        let name = words.first().copied().unwrap_or("");
        check!(&rt; end.status == 0 && end.shown.as_str() == *shown && is_told, name);
    }
    Ok(())
}

/// Whether a command that is to be quiet shows what it does with the path, and tells nothing.
fn is_quiet(rt: &HostRuntime, name: &str) -> Result<bool, Fail> {
    let end = run_at_desk(rt, &[name, "-", "--quiet"], PATH, 2, Broken::Neither)?;
    Ok(end.status == 0 && end.told.is_empty() && !end.shown.is_empty())
}

/// Nothing is told of a run that is to be quiet, but what is at fault.
#[test]
fn quiet_runs(rt: HostRuntime) -> Result<(), Fail> {
    for name in ["order", "analyze", "info"] {
        check!(&rt; is_quiet(&rt, name)?, name);
        let bad = run_at_desk(&rt, &[name, "-", "--quiet"], BAD, 2, Broken::Neither)?;
        check!(&rt; bad.status == 2 && bad.told.contains("line 3: the row is out of range"), name);
    }
    Ok(())
}

/// Runs that tell of the command itself.
#[test]
fn runs_without_a_file(rt: HostRuntime) -> Result<(), Fail> {
    for word in ["--help", "--version"] {
        let end = run_at_desk(&rt, &[word], "", 0, Broken::Neither)?;
        let is_shown = end.shown.contains("rimopaku") && end.told.is_empty();
        check!(&rt; end.status == 0 && is_shown, word);
    }
    Ok(())
}

#[test]
fn an_output_that_takes_nothing(rt: HostRuntime) -> Result<(), Fail> {
    for name in ["order", "analyze", "info"] {
        let end = run_at_desk(&rt, &[name, "-"], PATH, 0, Broken::Output)?;
        let wanted = "rimopaku: standard output: cannot be written: ";
        check!(&rt; end.status == 1 && end.told.starts_with(wanted), name);
    }
    Ok(())
}

/// Where the picture fails, the figures are written, and a message behind them names the picture.
#[test]
fn a_picture_that_fails(rt: HostRuntime) -> Result<(), Fail> {
    let words = ["order", "-", "--out", "/dev/null", "--picture", "/dev/full"];
    let full = run_at_desk(&rt, &words, PATH, 0, Broken::Neither)?;
    check!(&rt; full.status == 3 && full.told.starts_with(PATH_FIGURES));
    check!(&rt; full.told
            .contains("rimopaku: /dev/full: the picture cannot be written: "));
    Ok(())
}

/// Where the picture fails, the permutation is written.
#[test]
fn an_order_whose_picture_fails(rt: HostRuntime) -> Result<(), Fail> {
    let words = ["order", "-", "--picture", "/dev/full"];
    let end = run_at_desk(&rt, &words, PATH, 0, Broken::Neither)?;
    check!(&rt; end.status == 3 && end.shown.as_str() == PATH_ORDER);
    Ok(())
}

#[test]
fn causes_that_are_told(rt: HostRuntime) -> Result<(), Fail> {
    let alloc = rt.alloc();
    check!(&rt; Cause::Write(io::Error::from(ErrorKind::BrokenPipe)).is_quiet());
    check!(&rt; !Cause::Write(io::Error::from(ErrorKind::WriteZero)).is_quiet());
    let told = format!(in alloc; "{}", Cause::Memory.at_picture())?;
    check!(&rt; told.as_str() == "the picture cannot be written: out of memory");
    Ok(())
}

/// What is told of the path with a bar for each stage.
const BARS: &str = concat!(
    "rimopaku: ordering 3 rows, 5 entries [....................]\r",
    "rimopaku: ordering 3 rows, 5 entries [####################]\n",
);

/// The same of its picture.
const DRAWN_BARS: &str = concat!(
    "\nrimopaku: drawing up to 2 entries of L [....................]\r",
    "rimopaku: drawing up to 2 entries of L [####################]\n",
);

/// Whether what a run on the path tells begins with the bars of an ordering, and ends with a text. The run has to end
/// well.
fn has_bars(rt: &impl Abort, host: &HostRuntime, words: &[&str], last: &str) -> Result<bool, Fail> {
    let end = run_at_desk(host, words, PATH, 0, Broken::Neither)?;
    check!(rt; end.status == 0);
    Ok(end.told.starts_with(BARS) && end.told.ends_with(last))
}

/// Each stage has a bar that fills, where that is asked for, unless nothing is to be told.
#[test]
fn bars_of_a_run(rt: HostRuntime) -> Result<(), Fail> {
    let words = ["order", "-", "--progress", "--picture", "/dev/null"];
    check!(&rt; has_bars(&rt, &rt, &words, DRAWN_BARS)?);
    check!(&rt; has_bars(&rt, &rt, &["analyze", "-", "--progress"], "")?);
    check!(&rt; !has_bars(&rt, &rt, &["info", "--progress", "-"], "")?);
    let words = ["order", "-", "--progress", "--quiet"];
    let end = run_at_desk(&rt, &words, PATH, 2, Broken::Neither)?;
    check!(&rt; end.status == 0 && end.told.is_empty());
    Ok(())
}

/// A run that has taken some seconds tells each stage that it begins; one that has not tells none.
#[test]
fn stages_of_long_runs(rt: HostRuntime) -> Result<(), Fail> {
    let words = [
        "order",
        "-",
        "--hold",
        "/dev/null",
        "--picture",
        "/dev/null",
    ];
    let slow = run_at_desk(&rt, &words, PATH, 2, Broken::Neither)?;
    let stages = "rimopaku: reading /dev/null, 0 MiB
rimopaku: ordering 3 rows, 5 entries
";
    check!(&rt; slow.status == 0 && slow.told.starts_with(stages));
    let last = "\nrimopaku: drawing up to 2 entries of L\n";
    check!(&rt; slow.told.contains(PATH_FIGURES) && slow.told.ends_with(last));
    let fast = run_at_desk(&rt, &words, PATH, 0, Broken::Neither)?;
    check!(&rt; fast.status == 0 && fast.told.starts_with(PATH_FIGURES));
    check!(&rt; slow.shown.as_str() == fast.shown.as_str());
    Ok(())
}
