// The places that outputs go to: which file a path names, whether two paths name one, and whether an output can go
// there. Files are tested alone: no contract can speak of them.

use crate::causes::Cause;
use std::alloc::{AllocError, Global};
use std::fs::{Metadata, OpenOptions};
use std::io::ErrorKind;
use std::os::unix::fs::MetadataExt;
use std::rt::Files;
use std::{fs, io};

/// The name of standard input and of standard output on a command line.
pub const STANDARD: &str = "-";

/// So many links are followed from one path, as in Linux.
const LINKS: u32 = 40;

/// The path of an input: for `-`, that of standard input.
pub fn input_path(path: &str) -> &str {
    if path == STANDARD {
        return "/dev/stdin";
    }
    path
}

/// The path of an output: for `-`, that of standard output.
fn output_path(path: &str) -> &str {
    if path == STANDARD {
        return "/dev/stdout";
    }
    path
}

/// The device and the number of a regular file.
fn number_of(found: &Metadata) -> Option<(u64, u64)> {
    if found.is_file() {
        Some((found.dev(), found.ino()))
    } else {
        None
    }
}

/// What a path names; none where nothing is there yet.
pub fn found_at<R: Files>(rt: &R, path: &str) -> Result<Option<Metadata>, Cause> {
    match fs::metadata(rt, path) {
        Ok(found) => Ok(Some(found)),
        Err(error) if error.kind() == ErrorKind::NotFound => Ok(None),
        Err(error) => Err(Cause::Write(error)),
    }
}

/// The folder that a path is in, and the name that it has there.
pub fn folder_and_name(path: &str) -> (&str, &str) {
    match path.rsplit_once('/') {
        Some(("", name)) => ("/", name),
        Some(parts) => parts,
        None => (".", path),
    }
}

/// Whether a path names a link.
fn is_link<R: Files>(rt: &R, path: &str) -> bool {
    fs::symlink_metadata(rt, path).is_ok_and(|found| found.is_symlink())
}

/// The path of what a link tells whose path is `place`.
fn path_from(alloc: Global, place: &str, target: &str) -> Result<String, AllocError> {
    if target.starts_with('/') {
        return String::from_str(alloc, target);
    }
    let (folder, _) = folder_and_name(place);
    format!(in alloc; "{folder}/{target}")
}

/// Where a link leads whose path is `place`.
fn target_of<R: Files + AllocGlobal>(rt: &R, place: &str) -> Result<String, Cause> {
    let target = fs::read_link(rt, place)?;
    Ok(path_from(rt.alloc(), place, target.as_str())?)
}

/// Where a path leads over links, the last of which may lead to nothing yet.
pub fn end_of<R: Files + AllocGlobal>(rt: &R, path: &str) -> Result<String, Cause> {
    let mut place = String::from_str(rt.alloc(), path)?;
    'links: for _ in 0..LINKS {
        if !is_link(rt, place.as_str()) {
            return Ok(place);
        }
        place = target_of(rt, place.as_str())?;
    }
    Err(Cause::Write(io::Error::from(ErrorKind::Other)))
}

/// Whether two folders are one.
fn are_one_folder<R: Files>(rt: &R, first: &str, second: &str) -> bool {
    match (fs::metadata(rt, first), fs::metadata(rt, second)) {
        (Ok(one), Ok(other)) => one.dev() == other.dev() && one.ino() == other.ino(),
        _ => first == second,
    }
}

/// Whether two paths, neither of which is a link, name one place in one folder.
fn name_one_place<R: Files>(rt: &R, first: &str, second: &str) -> bool {
    let (one, name) = folder_and_name(first);
    let (other, other_name) = folder_and_name(second);
    name == other_name && are_one_folder(rt, one, other)
}

/// Whether two files are one regular file.
fn are_one_file(one: &Metadata, other: &Metadata) -> bool {
    let number = number_of(one);
    number.is_some() && number == number_of(other)
}

/// Whether two paths, at which nothing is yet, lead to one place.
fn lead_to_one_place<R: Files + AllocGlobal>(
    rt: &R,
    first: &str,
    second: &str,
) -> Result<bool, Cause> {
    let one = end_of(rt, first)?;
    let other = end_of(rt, second)?;
    Ok(name_one_place(rt, one.as_str(), other.as_str()))
}

/// Whether two paths name one regular file, or one place where nothing is yet. A device or a pipe may be written to
/// more than once.
fn lead_to_one<R: Files + AllocGlobal>(rt: &R, first: &str, second: &str) -> Result<bool, Cause> {
    match (found_at(rt, first)?, found_at(rt, second)?) {
        (Some(one), Some(other)) => Ok(are_one_file(&one, &other)),
        (None, None) => lead_to_one_place(rt, first, second),
        _ => Ok(false),
    }
}

/// Whether an output is an input too. A file that cannot be looked at is no output, or is refused where it is opened.
pub fn is_input<R: Files + AllocGlobal>(rt: &R, output: &str, input: &str) -> Result<bool, Cause> {
    let input = input_path(input);
    if fs::metadata(rt, input).is_err() {
        return Ok(false);
    }
    lead_to_one(rt, output_path(output), input)
}

/// Whether two outputs are one.
pub fn are_one_output<R: Files + AllocGlobal>(
    rt: &R,
    first: &str,
    second: &str,
) -> Result<bool, Cause> {
    if first == STANDARD && second == STANDARD {
        return Ok(true);
    }
    lead_to_one(rt, output_path(first), output_path(second))
}

/// Opens a file to write that is there. What it has stays.
pub fn open_old<R: Files>(rt: &R, path: &str) -> io::Result<R::File> {
    let mut options = OpenOptions::new();
    options.write(true);
    options.open(rt, path)
}

/// Opens a file to write that was not there.
pub fn open_new<R: Files>(rt: &R, path: &str) -> io::Result<R::File> {
    let mut options = OpenOptions::new();
    options.write(true);
    options.create_new(true);
    options.open(rt, path)
}

/// Refuses a place that no file can be made at: makes one, and removes it.
fn check_new<R: Files + AllocGlobal>(rt: &R, path: &str) -> Result<(), Cause> {
    let place = end_of(rt, path)?;
    drop(open_new(rt, place.as_str())?);
    fs::remove_file(rt, place.as_str())?;
    Ok(())
}

/// Refuses a folder, a file that may not be written, and a place that no file can be made at. A device or a pipe is
/// opened once it is written to.
pub fn check_place<R: Files + AllocGlobal>(rt: &R, path: &str) -> Result<(), Cause> {
    if path == STANDARD {
        return Ok(());
    }
    match found_at(rt, path)? {
        Some(found) if found.is_dir() => Err(Cause::Folder),
        Some(found) if found.is_file() => {
            drop(open_old(rt, path)?);
            Ok(())
        }
        Some(_) => Ok(()),
        None => check_new(rt, path),
    }
}
