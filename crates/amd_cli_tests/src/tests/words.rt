// The words of a command line: what they ask for, and the dense row parameter.

use amd_cli::limits::limit_of;
use amd_cli::numbers::thousandths_of;
use amd_cli::request::{Request, request_of};
use amd_testing::check;
use std::alloc::Global;
use std::test::Fail;

/// Texts of dense row parameters, and thousandths.
static PARAMETERS: [(&str, Option<i32>); 24] = [
    ("10", Some(10000)),
    ("0", Some(0)),
    ("2.5", Some(2500)),
    ("0.05", Some(50)),
    ("-1", Some(-1000)),
    ("-0.125", Some(-125)),
    ("7.", Some(7000)),
    ("1.2345", None),
    ("1.-5", None),
    ("", None),
    (".5", Some(500)),
    ("-.5", Some(-500)),
    ("-0.5", Some(-500)),
    ("0.5", Some(500)),
    ("0.25", Some(250)),
    ("3.07", Some(3070)),
    ("+1.5", Some(1500)),
    (".", None),
    ("-", None),
    ("-.", None),
    ("1.+5", None),
    (".2147484", None),
    ("ten", None),
    ("2147484", None),
];

#[test]
fn decimal_parameters(rt: HostRuntime) {
    for (text, wanted) in &PARAMETERS {
        check!(&rt; thousandths_of(text) == *wanted, text);
    }
}

/// Texts of limits of memory, and bytes.
static LIMITS: [(&str, Option<u64>); 15] = [
    ("0", Some(0)),
    ("4096", Some(4096)),
    ("1K", Some(1024)),
    ("3k", Some(3072)),
    ("800M", Some(838_860_800)),
    ("1m", Some(1_048_576)),
    ("2G", Some(2_147_483_648)),
    ("2g", Some(2_147_483_648)),
    ("17179869183G", Some(18_446_744_072_635_809_792)),
    ("17179869184G", None),
    ("", None),
    ("K", None),
    ("1.5G", None),
    ("-1", None),
    ("2GB", None),
];

#[test]
fn limits_of_memory(rt: HostRuntime) {
    for (text, wanted) in &LIMITS {
        check!(&rt; limit_of(text) == *wanted, text);
    }
}

/// What is asked for, in short: the subcommand, and the files that are named.
fn asked(alloc: Global, words: &[&str]) -> Result<String, Fail> {
    let mut owned = Vec::new(alloc);
    for word in words {
        owned.push(String::from_str(alloc, word)?)?;
    }
    let (name, options) = match request_of(alloc, &owned) {
        Ok(Request::Order(options)) => ("order", options),
        Ok(Request::Analyze(options)) => ("analyze", options),
        Ok(Request::Info(options)) => ("info", options),
        Err(_) => return Ok(String::from_str(alloc, "none")?),
    };
    let file = options.file;
    let hold = options.hold;
    let out = options.out;
    let picture = options.picture;
    Ok(format!(in alloc; "{name} {file} {hold:?} {out:?} {picture:?}")?)
}

/// Subcommands, an option, and what is asked for by both.
static SUBCOMMANDS: [(&str, &str, &str); 4] = [
    ("order", "--picture", "order a Some(\"h\") None Some(\"o\")"),
    ("analyze", "--out", "analyze a Some(\"h\") Some(\"o\") None"),
    ("analyze", "--picture", "none"),
    ("analyse", "--out", "none"),
];

#[test]
fn subcommands(rt: HostRuntime) -> Result<(), Fail> {
    for (name, option, wanted) in &SUBCOMMANDS {
        let words = ["rimopaku", *name, "a", "--hold", "h", *option, "o"];
        let shown = asked(rt.alloc(), &words)?;
        check!(&rt; shown.as_str() == *wanted, wanted);
    }
    Ok(())
}
