// The words of the command line, and what they ask for. Which options there are is tested; what those that were found
// ask for is told by contracts.

ghost use Rattle.std.specs.Prelude.{◌≡◌, ◌||◌, if◌then◌else◌, map, option_map, unwrap_or, IfOk, IfSome};
ghost use Rattle.std.specs.String.{string_bytes};
ghost use Rattle.amd_cli.specs.Requests.{AreOptionsOf, AsksComparison, AsksFor, AsksInWords};
ghost use Rattle.amd_cli.specs.Requests.{IsAllowanceOf, IsControlOf, IsFlag, IsLimitIn};

use crate::limits::limit_of;
use crate::numbers::thousandths_of;
use amd_types::amd::Control;
use clap::{Arg, ArgAction, ArgMatches, Command, Error};
use std::alloc::{AllocError, Global};

/// The version of the project, and that of the kit that it is proved with.
const VERSION: &str = "1.1.0 (rattle-kit-13f logic dac8208d650f15bf)";

/// The words of a subcommand. Those that it does not know are as where they are not given.
#[derive(Clone, Copy)]
pub struct Options<'a> {
    /// The file with the matrix; `-` is standard input.
    pub file: &'a str,
    /// The dense row parameter, as text.
    pub dense: Option<&'a str>,
    /// Whether elements are absorbed aggressively.
    pub aggressive: bool,
    /// The file with the rows to hold last.
    pub hold: Option<&'a str>,
    /// The file to write to; none is standard output.
    pub out: Option<&'a str>,
    /// Whether the answer is one object of JSON.
    pub json: bool,
    /// Whether each stage is told, with a bar.
    pub progress: bool,
    /// Whether what the factor needs is told for other orders too.
    pub compare: bool,
    /// The file with another order.
    pub with: Option<&'a str>,
    /// The file with the places of the rows in another order.
    pub with_inverse: Option<&'a str>,
    /// Whether the place of each row is written, and not the row at each place.
    pub inverse: bool,
    /// Whether the rows that are written count from 0.
    pub zero_based: bool,
    /// Whether nothing but faults is told on standard error.
    pub quiet: bool,
    /// Whether a file may ask for much more memory than its entries justify.
    pub yes: bool,
    /// How much memory the run may take, as text.
    pub memory: Option<&'a str>,
    /// The file for the pattern of the factor.
    pub factor: Option<&'a str>,
    /// The file for the permuted matrix.
    pub permuted: Option<&'a str>,
    /// The file for the elimination tree and its supernodes.
    pub tree: Option<&'a str>,
    /// The file for a postorder of the elimination tree.
    pub postorder: Option<&'a str>,
    /// The file for the picture.
    pub picture: Option<&'a str>,
    /// Whether the pattern before is that of `A + A'`.
    pub symmetric: bool,
    /// The file for the picture of the tree of the supernodes.
    pub tree_picture: Option<&'a str>,
}

/// How much memory a run may take.
#[derive(Clone, Copy)]
pub enum Allowance {
    /// What the bytes or the entries of a matrix justify.
    Justified,
    /// Any.
    Any,
    /// So many bytes.
    Limit(u64),
}

/// What is asked for.
#[derive(Clone, Copy)]
pub enum Request<'a> {
    /// To order a file.
    Order(Options<'a>),
    /// To order a file, and to tell the columns of the exact factor.
    Analyze(Options<'a>),
    /// To tell what a file is.
    Info(Options<'a>),
}

/// The argument with the file.
fn file_argument<'a>(alloc: Global) -> Arg<'a> {
    Arg::new(alloc, "FILE").required(true).help(
        "A sparse matrix in a file of the Matrix Market, Harwell-Boeing or Rutherford-Boeing; - is standard input",
    )
}

/// The option with the dense row parameter.
fn dense_argument<'a>(alloc: Global) -> Arg<'a> {
    Arg::new(alloc, "dense")
        .long("dense")
        .value_name("T")
        .allow_hyphen_values(true)
        .help(
            "Hold rows with more than max(16, T * sqrt(rows)) edges last; 10 where it is not given; \
            below 0 almost none is",
        )
}

/// The option with the memory that a run may take.
fn memory_argument<'a>(alloc: Global) -> Arg<'a> {
    Arg::new(alloc, "memory")
        .long("memory")
        .value_name("LIMIT")
        .help(
            "Refuse a matrix that would take more than about LIMIT bytes; K, M or G may stand behind the number",
        )
}

/// An option of a subcommand.
struct Choice {
    /// Its name, behind two hyphens.
    name: &'static str,
    /// Whether the name of a file stands behind it.
    has_path: bool,
    /// What it does.
    help: &'static str,
}

/// The options of each subcommand.
static COMMON: [Choice; 4] = [
    Choice {
        name: "yes",
        has_path: false,
        help: "Go on where FILE tells of many more rows than it has bytes, or a pipe of more than entries",
    },
    Choice {
        name: "json",
        has_path: false,
        help: "Write one object of JSON",
    },
    Choice {
        name: "progress",
        has_path: false,
        help: "Tell each stage on standard error, with a bar, as on a terminal where it takes long",
    },
    Choice {
        name: "quiet",
        has_path: false,
        help: "Tell nothing but faults on standard error",
    },
];

/// The options of each subcommand that orders.
static ORDERING: [Choice; 2] = [
    Choice {
        name: "no-aggressive",
        has_path: false,
        help: "Do not absorb elements aggressively",
    },
    Choice {
        name: "hold",
        has_path: true,
        help: "Hold the rows last whose numbers PATH lists, one a line; - is standard input",
    },
];

/// The options of what `order` writes beside the permutation.
static WRITING: [Choice; 6] = [
    Choice {
        name: "inverse",
        has_path: false,
        help: "Write the place of each row, and not the row at each place",
    },
    Choice {
        name: "zero-based",
        has_path: false,
        help: "Write rows or places that count from 0",
    },
    Choice {
        name: "factor",
        has_path: true,
        help: "Write the pattern of the factor below the diagonal, in the new order, to PATH",
    },
    Choice {
        name: "permuted",
        has_path: true,
        help: "Write the matrix in the new order to PATH, with its values",
    },
    Choice {
        name: "tree",
        has_path: true,
        help: "Write the elimination tree to PATH: the parent of each column, 0 for a root; and then the supernodes",
    },
    Choice {
        name: "postorder",
        has_path: true,
        help: "Write a postorder of the elimination tree to PATH: columns in the new order, one a line",
    },
];

/// The options of what is drawn.
static DRAWING: [Choice; 2] = [
    Choice {
        name: "picture",
        has_path: true,
        help: "Draw the matrix before and after, with the fill, to PATH, as SVG",
    },
    Choice {
        name: "tree-picture",
        has_path: true,
        help: "Draw the tree of the supernodes to PATH, as SVG",
    },
];

/// An option with the name of a file.
fn path_argument<'a>(alloc: Global, name: &'a str, help: &'a str) -> Arg<'a> {
    Arg::new(alloc, name)
        .long(name)
        .value_name("PATH")
        .help(help)
}

/// An option without a value.
fn flag_argument<'a>(alloc: Global, name: &'a str, help: &'a str) -> Arg<'a> {
    Arg::new(alloc, name)
        .long(name)
        .action(ArgAction::SetTrue)
        .help(help)
}

/// An option with another order, beside the one that asks for the figures under it.
fn with_argument<'a>(alloc: Global, beside: &'a str) -> Result<Arg<'a>, AllocError> {
    path_argument(
        alloc,
        "with",
        "Count it in the order that PATH lists too, one row a line, from 0 or 1; - is standard input",
    )
    .requires_all(&[beside])
}

/// An option with the places of the rows in another order, in the stead of the rows.
fn with_inverse_argument<'a>(alloc: Global, beside: &'a str) -> Result<Arg<'a>, AllocError> {
    path_argument(
        alloc,
        "with-inverse",
        "Count it in the order of PATH too, which lists the place of each row, as METIS does",
    )
    .requires_all(&[beside])?
    .conflicts_with("with")
}

/// The option of the panel before, beside the picture that has it.
fn symmetric_argument<'a>(alloc: Global, beside: &'a str) -> Result<Arg<'a>, AllocError> {
    flag_argument(alloc, "symmetric", "Draw A + A' before, and not A").requires_all(&[beside])
}

/// A subcommand with one more argument, where memory was not refused for either.
fn with_argument_too<'a>(
    command: Result<Command<'a>, AllocError>,
    argument: Result<Arg<'a>, AllocError>,
) -> Result<Command<'a>, AllocError> {
    let argument = argument?;
    command?.arg(argument)
}

/// A subcommand with these options too.
fn with_choices<'a>(
    alloc: Global,
    command: Result<Command<'a>, AllocError>,
    choices: &'static [Choice],
) -> Result<Command<'a>, AllocError> {
    let mut command = command?;
    for choice in choices {
        let argument = if choice.has_path {
            path_argument(alloc, choice.name, choice.help)
        } else {
            flag_argument(alloc, choice.name, choice.help)
        };
        command = command.arg(argument)?;
    }
    Ok(command)
}

/// A subcommand that reads a matrix, with the arguments that all of them have.
fn matrix_command<'a>(
    alloc: Global,
    name: &'a str,
    about: &'a str,
) -> Result<Command<'a>, AllocError> {
    let command = Command::new(alloc, name)
        .about(about)
        .arg(file_argument(alloc));
    let command = with_argument_too(command, Ok(dense_argument(alloc)));
    let command = with_argument_too(command, Ok(memory_argument(alloc)));
    with_choices(alloc, command, &COMMON)
}

/// A subcommand that orders the rows of a file, with the arguments that all of them have.
fn ordering_command<'a>(
    alloc: Global,
    name: &'a str,
    about: &'a str,
    out: &'a str,
) -> Result<Command<'a>, AllocError> {
    let command = matrix_command(alloc, name, about);
    let command = with_choices(alloc, command, &ORDERING);
    with_argument_too(command, Ok(path_argument(alloc, "out", out)))
}

/// A subcommand with the options that compare orders.
fn comparing_command<'a>(
    alloc: Global,
    command: Result<Command<'a>, AllocError>,
    name: &'a str,
) -> Result<Command<'a>, AllocError> {
    let help = "Count what the factor needs as the rows stand, and as they are ordered";
    let command = with_argument_too(command, Ok(flag_argument(alloc, name, help)));
    let command = with_argument_too(command, with_argument(alloc, name));
    with_argument_too(command, with_inverse_argument(alloc, name))
}

/// The subcommand `order`.
fn order_command<'a>(alloc: Global) -> Result<Command<'a>, AllocError> {
    let command = ordering_command(
        alloc,
        "order",
        "Order the rows and write the permutation, one row a line, counted from 1",
        "Write the permutation to PATH and not to standard output, which is -",
    );
    let command = with_choices(alloc, command, &WRITING);
    let command = comparing_command(alloc, command, "compare");
    let command = with_choices(alloc, command, &DRAWING);
    with_argument_too(command, symmetric_argument(alloc, "picture"))
}

/// The subcommand `analyze`.
fn analyze_command<'a>(alloc: Global) -> Result<Command<'a>, AllocError> {
    ordering_command(
        alloc,
        "analyze",
        "Order the rows and write the factor's columns: row, parent's row (0: none), entries below the diagonal",
        "Write the columns to PATH and not to standard output, which is -",
    )
}

/// The subcommand `info`.
fn info_command<'a>(alloc: Global) -> Result<Command<'a>, AllocError> {
    let command = matrix_command(alloc, "info", "Tell what the matrix is");
    comparing_command(alloc, command, "exact")
}

/// A command with one more subcommand, where memory was not refused for either.
fn with_subcommand<'a>(
    command: Result<Command<'a>, AllocError>,
    subcommand: Result<Command<'a>, AllocError>,
) -> Result<Command<'a>, AllocError> {
    let subcommand = subcommand?;
    command?.subcommand(subcommand)
}

/// The whole command.
fn whole_command<'a>(alloc: Global) -> Result<Command<'a>, AllocError> {
    let command = Command::new(alloc, "rimopaku")
        .version(VERSION)
        .about("Approximate minimum degree orderings of sparse matrices")
        .subcommand_required(true)
        .arg_required_else_help(true);
    let command = with_subcommand(Ok(command), order_command(alloc));
    let command = with_subcommand(command, analyze_command(alloc));
    with_subcommand(command, info_command(alloc))
}

/// A text, or another where there is none.
fn text_or<'a>(text: Option<&'a str>, other: &'a str) -> &'a str
    ensures { result.now ≡ unwrap_or (option_map (λ s. s.now) text.entry) other.now }
{
    match text {
        Some(text) => text,
        None => other,
    }
}

/// Whether a flag was given.
fn flag_of(matches: &ArgMatches<'_>, name: &str) -> bool
    ensures { IsFlag matches.now name.now result }
{
    matches.get_flag(name)
}

/// Whether one of two flags is set.
fn is_either(first: bool, second: bool) -> bool
    ensures { result ≡ (first || second) }
{
    first || second
}

/// Whether a comparison is asked for, by either of its names.
fn asks_comparison(matches: &ArgMatches<'_>) -> bool
    ensures { AsksComparison matches.now result }
{
    let compared = flag_of(matches, "compare");
    let counted = flag_of(matches, "exact");
    is_either(compared, counted)
}

/// The words of a subcommand.
fn options_of<'a>(matches: &ArgMatches<'a>) -> Options<'a>
    ensures { AreOptionsOf matches.now result }
{
    Options {
        file: text_or(matches.get_str("FILE"), "-"),
        dense: matches.get_str("dense"),
        aggressive: !flag_of(matches, "no-aggressive"),
        hold: matches.get_str("hold"),
        out: matches.get_str("out"),
        json: flag_of(matches, "json"),
        progress: flag_of(matches, "progress"),
        compare: asks_comparison(matches),
        with: matches.get_str("with"),
        with_inverse: matches.get_str("with-inverse"),
        inverse: flag_of(matches, "inverse"),
        zero_based: flag_of(matches, "zero-based"),
        quiet: flag_of(matches, "quiet"),
        yes: flag_of(matches, "yes"),
        memory: matches.get_str("memory"),
        factor: matches.get_str("factor"),
        permuted: matches.get_str("permuted"),
        tree: matches.get_str("tree"),
        postorder: matches.get_str("postorder"),
        picture: matches.get_str("picture"),
        symmetric: flag_of(matches, "symmetric"),
        tree_picture: matches.get_str("tree-picture"),
    }
}

/// What the subcommand that was found asks for.
fn request_in<'a>(matches: &ArgMatches<'a>) -> Request<'a>
    ensures { AsksFor matches.now result }
{
    match matches.subcommand() {
        Some(("order", found)) => Request::Order(options_of(found)),
        Some(("analyze", found)) => Request::Analyze(options_of(found)),
        Some((_, found)) => Request::Info(options_of(found)),
        None => Request::Info(options_of(matches)),
    }
}

/// What the words of a command line ask for, the first of which is the name of the program.
///
/// # Errors
///
/// An error with the text to show: for words that are wrong, and for those that ask for help or the version.
pub fn request_of<'a>(alloc: Global, words: &'a [String]) -> Result<Request<'a>, Error>
    ensures { IfOk result (AsksInWords (map string_bytes words.now)) }
{
    let matches = whole_command(alloc)?.try_get_matches_from(words)?;
    Ok(request_in(&matches))
}

/// As much memory as a text tells, where it is a number of bytes.
fn limit_in(text: &str) -> Option<Allowance>
    ensures { IfSome result (IsLimitIn text.now) }
{
    let bytes = limit_of(text)?;
    Some(Allowance::Limit(bytes))
}

/// Any memory, or what is justified.
fn without_limit(any: bool) -> Allowance
    ensures { result ≡ (if any then Allowance.Any else Allowance.Justified) }
{
    if any {
        Allowance::Any
    } else {
        Allowance::Justified
    }
}

impl<'a> Options<'a> {
    /// What the words choose, where the dense row parameter is a decimal number with up to three places.
    pub fn control(&self) -> Option<Control>
        ensures { IfSome result (IsControlOf self.now) }
    {
        let mut control = Control::default();
        control.aggressive = self.aggressive;
        if let Some(text) = self.dense {
            control.dense = thousandths_of(text)?;
        }
        Some(control)
    }

    /// How much memory the run may take, where the text of it is a number of bytes.
    pub fn allowance(&self) -> Option<Allowance>
        ensures { IfSome result (IsAllowanceOf self.now) }
    {
        match self.memory {
            Some(text) => limit_in(text),
            None => Some(without_limit(self.yes)),
        }
    }
}
