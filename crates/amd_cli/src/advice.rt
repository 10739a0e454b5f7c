// What leads on after some messages: the line to type for an archive, and the name that an option has in another
// subcommand. Tested alone.

use crate::causes::Cause;
use crate::inputs::Complaint;
use crate::paths::STANDARD;
use amd_market::faults::{ReadError, ReadFault};
use thiserror::Error;

/// What leads on.
#[derive(Clone, Copy, Debug, Drop, Error)]
pub enum Advice<'a> {
    /// A compressed file is the matrix.
    #[error("rimopaku: to read it type: zcat {path} | rimopaku order -")]
    Compressed {
        /// Its path.
        path: &'a str,
    },
    /// A compressed archive has the matrix.
    #[error("rimopaku: to read its matrix type: tar -xOzf {path} {name}/{name}.mtx | rimopaku order -")]
    Archive {
        /// Its path.
        path: &'a str,
        /// The name that it has, without its ending.
        name: &'a str,
    },
    /// The matrix is not square.
    #[error("rimopaku: only a square matrix is ordered: for least squares write out the pattern of A'A and order that")]
    Square,
    /// `--compare` of `info`.
    #[error("rimopaku: info counts what the factor needs with --exact")]
    Exact,
    /// `--exact` of `order`.
    #[error("rimopaku: order counts what the factor needs with --compare")]
    Compare,
}

/// The line to type for a compressed file.
fn unpacked<'a>(path: &'a str) -> Advice<'a> {
    if let Some(advice) = archive_at(path) {
        return advice;
    }
    Advice::Compressed {
        path: if path == STANDARD { "FILE" } else { path },
    }
}

/// The archive that a path names by its ending, if it names one.
fn archive_at<'a>(path: &'a str) -> Option<Advice<'a>> {
    let stem = match path.strip_suffix(".tar.gz") {
        Some(stem) => stem,
        None => path.strip_suffix(".tgz")?,
    };
    let (_, name) = stem.rsplit_once('/').unwrap_or(("", stem));
    Some(Advice::Archive { path, name })
}

/// What leads on after a fault of a line of the matrix.
fn advice_on_fault<'a>(subject: &'a str, fault: &ReadFault) -> Option<Advice<'a>> {
    match fault {
        ReadFault::Gzip => Some(unpacked(subject)),
        ReadFault::NotSquare { .. } => Some(Advice::Square),
        _ => None,
    }
}

/// What leads on after an error of a text.
fn advice_on_error<'a>(subject: &'a str, error: &ReadError) -> Option<Advice<'a>> {
    match error {
        ReadError::Line { fault, .. } => advice_on_fault(subject, fault),
        ReadError::Input { .. } => None,
    }
}

/// What leads on after a complaint.
pub fn advice_on<'a>(complaint: &Complaint<'a>) -> Option<Advice<'a>> {
    match &complaint.cause {
        Cause::Text(error) => advice_on_error(complaint.subject, error),
        _ => None,
    }
}

/// Whether a word is one of some words.
fn has_word(words: &[String], wanted: &str) -> bool {
    words.iter().any(|word| word.as_str() == wanted)
}

/// What leads on after words that are wrong.
pub fn advice_on_words(words: &[String]) -> Option<Advice<'static>> {
    if has_word(words, "info") && has_word(words, "--compare") {
        return Some(Advice::Exact);
    }
    if has_word(words, "order") && has_word(words, "--exact") {
        return Some(Advice::Compare);
    }
    None
}
