// Runs over files: what an output that was there keeps, names of one file, long names, the standard streams by their
// name, and a standard error that takes nothing. Each test has a folder of its own under /tmp, which is removed.

use crate::tests::outputs::PATH;
use crate::tests::runs::{Broken, refuses, run_at_desk, shows, status_of};
use amd_testing::check;
use std::alloc::{AllocError, Global};
use std::fs::Permissions;
use std::io::ErrorKind;
use std::os::unix::fs::{MetadataExt, PermissionsExt, symlink};
use std::process::Abort;
use std::test::Fail;
use std::{fs, io};

/// What `order` writes of the path.
const ORDER: &str = "2\n1\n3\n";

/// Makes a folder under /tmp with the first of some names that is free.
pub fn make_folder(rt: &HostRuntime) -> Result<String, Fail> {
    'names: for count in 0..10000u32 {
        let path = format!(in rt.alloc(); "/tmp/rimopaku-test-{count}")?;
        match fs::create_dir(rt, path.as_str()) {
            Ok(()) => return Ok(path),
            Err(error) if error.kind() == ErrorKind::AlreadyExists => {}
            Err(error) => return Err(Fail::from(error)),
        }
    }
    Err(Fail::from(io::Error::from(ErrorKind::AlreadyExists)))
}

/// The path of a name in a folder.
pub fn within(rt: &HostRuntime, folder: &str, name: &str) -> Result<String, Fail> {
    Ok(format!(in rt.alloc(); "{folder}/{name}")?)
}

/// Whether a file has a text.
fn has_text(rt: &HostRuntime, path: &str, text: &str) -> bool {
    match fs::read(rt, path) {
        Ok(bytes) => bytes.as_slice() == text.as_bytes(),
        Err(_) => false,
    }
}

/// How many names a folder has.
fn names_in(rt: &HostRuntime, folder: &str) -> Result<usize, Fail> {
    Ok(fs::read_dir(rt, folder)?.count())
}

/// Makes a file with a text, a mode, and another name or none.
fn make_file(rt: &HostRuntime, path: &str, text: &str, link: Option<&str>) -> Result<(), Fail> {
    fs::write(rt, path, text)?;
    if let Some(link) = link {
        fs::hard_link(rt, path, link)?;
    }
    fs::set_permissions(rt, path, Permissions::from_mode(0o640))?;
    Ok(())
}

/// Whether a file has this mode and so many names.
fn has_names(rt: &HostRuntime, path: &str, names: u64) -> Result<bool, Fail> {
    let found = fs::metadata(rt, path)?;
    Ok(found.mode() & 0o777 == 0o640 && found.nlink() == names)
}

/// Whether a folder has the order at a path, with its mode, at another name or none, and no other file.
fn is_kept(rt: &HostRuntime, folder: &str, path: &str, link: Option<&str>) -> Result<bool, Fail> {
    let is_linked = match link {
        Some(link) => has_text(rt, link, ORDER),
        None => true,
    };
    let names = if link.is_some() { 2 } else { 1 };
    let is_alone = names_in(rt, folder)? as u64 == names;
    Ok(has_names(rt, path, names)? && is_linked && is_alone)
}

/// Writes an order to a file that had a text, a mode and another name or none, and says whether it has both still.
fn keeps_file(
    rt: &HostRuntime,
    folder: &str,
    path: &str,
    text: &str,
    link: Option<&str>,
) -> Result<bool, Fail> {
    make_file(rt, path, text, link)?;
    let status = status_of(rt, &["order", "-", "--out", path], PATH)?;
    let is_kept = is_kept(rt, folder, path, link)?;
    fs::remove_file(rt, path)?;
    if let Some(link) = link {
        fs::remove_file(rt, link)?;
    }
    Ok(status == 0 && is_kept)
}

/// A file keeps its mode and its other names, be it shorter or longer than what it gets.
#[test]
fn files_that_are_replaced(rt: HostRuntime) -> Result<(), Fail> {
    let folder = make_folder(&rt)?;
    let folder = folder.as_str();
    let path = within(&rt, folder, "old")?;
    let link = within(&rt, folder, "link")?;
    for text in ["", "old\n", "a file that is longer than the order\n"] {
        for link in [None, Some(link.as_str())] {
            check!(&rt; keeps_file(&rt, folder, path.as_str(), text, link)?, text);
        }
    }
    fs::remove_dir_all(&rt, folder)?;
    Ok(())
}

/// Asserts that a file that is not there is named twice by two names, the first a link to the second, and is written
/// by either.
fn check_names(
    rt: &impl Abort,
    host: &HostRuntime,
    folder: &str,
    near: &str,
    far: &str,
) -> Result<(), Fail> {
    let words = ["order", "-", "--out", near, "--tree", far];
    check!(rt; refuses(host, &words, PATH, 2, "is named twice")?);
    check!(rt; names_in(host, folder)? == 1);
    let status = status_of(host, &["order", "-", "--out", far], PATH)?;
    check!(rt; status == 0 && has_text(host, near, ORDER));
    check!(rt; fs::symlink_metadata(host, far)?.is_symlink());
    Ok(())
}

/// Two names of one file that is not there yet, by links.
#[test]
fn names_of_one_missing_file(rt: HostRuntime) -> Result<(), Fail> {
    let folder = make_folder(&rt)?;
    let folder = folder.as_str();
    let near = within(&rt, folder, "near")?;
    let far = within(&rt, folder, "far")?;
    symlink(&rt, "near", far.as_str())?;
    check_names(&rt, &rt, folder, near.as_str(), far.as_str())?;
    fs::remove_dir_all(&rt, folder)?;
    Ok(())
}

/// The path of a name of as many letters as a file may have.
fn long_path(rt: &HostRuntime, folder: &str) -> Result<String, Fail> {
    let mut path = within(rt, folder, "")?;
    'letters: for _ in 0..255 {
        path.push_str("n")?;
    }
    Ok(path)
}

/// Whether a path is refused as that of an output, before the work.
fn refuses_path(rt: &HostRuntime, path: &str) -> Result<bool, Fail> {
    let words = ["order", "-", "--out", path];
    refuses(rt, &words, "", 1, "cannot be written: ")
}

/// Asserts that an order is written to a path, and that what has one letter more is refused, as is no name at all.
fn check_length(rt: &impl Abort, host: &HostRuntime, long: &str) -> Result<(), Fail> {
    let status = status_of(host, &["order", "-", "--out", long], PATH)?;
    check!(rt; status == 0 && has_text(host, long, ORDER));
    check!(rt; refuses_path(host, "")?);
    let longer = format!(in host.alloc(); "{long}n")?;
    check!(rt; refuses_path(host, longer.as_str())?);
    Ok(())
}

/// A name of as many letters as a file may have; one letter more is refused before the work, as is no name at all.
#[test]
fn long_names(rt: HostRuntime) -> Result<(), Fail> {
    let folder = make_folder(&rt)?;
    let long = long_path(&rt, folder.as_str())?;
    check_length(&rt, &rt, long.as_str())?;
    fs::remove_dir_all(&rt, folder.as_str())?;
    Ok(())
}

/// `-` names standard output for an output.
#[test]
fn standard_output_by_name(rt: HostRuntime) -> Result<(), Fail> {
    check!(&rt; shows(&rt, &["order", "-", "--out", "-"], PATH, ORDER)?);
    let words = ["order", "-", "--out", "/dev/null", "--permuted", "-"];
    let end = run_at_desk(&rt, &words, PATH, 0, Broken::Neither)?;
    check!(&rt; end.status == 0 && end.shown.starts_with("%%MatrixMarket "));
    Ok(())
}

/// `-` names standard input for the rows to hold last.
#[test]
fn standard_input_by_name(rt: HostRuntime) -> Result<(), Fail> {
    let folder = make_folder(&rt)?;
    let file = within(&rt, folder.as_str(), "path.mtx")?;
    let file = file.as_str();
    fs::write(&rt, file, PATH)?;
    check!(&rt; shows(&rt, &["order", file, "--hold", "-"], "2\n", "3\n1\n2\n")?);
    fs::remove_dir_all(&rt, folder.as_str())?;
    Ok(())
}

/// Asserts that each command refuses a file with more rows than it may have, and tells why.
fn check_many_rows(
    rt: &impl Abort,
    host: &HostRuntime,
    file: &str,
    input: &str,
    told: &str,
) -> Result<(), Fail> {
    for name in ["info", "order", "analyze"] {
        check!(rt; refuses(host, &[name, file], input, 2, told)?, name);
    }
    Ok(())
}

/// A file with many more rows than bytes is refused before memory is taken for them; its rows are told.
#[test]
fn many_rows_in_few_bytes(rt: HostRuntime) -> Result<(), Fail> {
    let folder = make_folder(&rt)?;
    let file = within(&rt, folder.as_str(), "sparse.mtx")?;
    let file = file.as_str();
    let text = "%%MatrixMarket matrix coordinate pattern general\n99000000 99000000 1\n2 1\n";
    fs::write(&rt, file, text)?;
    let told = "tells of 99000000 rows, which take 2 GiB or more";
    check_many_rows(&rt, &rt, file, "", told)?;
    fs::remove_dir_all(&rt, folder.as_str())?;
    Ok(())
}

/// The head of a pipe, with notes that are longer than what is looked at first.
fn long_head(alloc: Global, size: &str) -> Result<String, AllocError> {
    let mut text = String::from_str(alloc, "%%MatrixMarket matrix coordinate pattern general\n")?;
    for _ in 0..300 {
        text.push_str("% a note that says nothing of the matrix\n")?;
    }
    text.push_str(size)?;
    Ok(text)
}

/// A pipe that tells of more rows than entries, which take a gibibyte, is refused before it is read on.
#[test]
fn many_rows_by_a_pipe(rt: HostRuntime) -> Result<(), Fail> {
    let text = long_head(rt.alloc(), "99000000 99000000 98999999\n")?;
    let told = "tells of 99000000 rows, which take 2 GiB or more, in fewer entries";
    check_many_rows(&rt, &rt, "-", text.as_str(), told)
}

/// A pipe with notes as long and few rows is read.
#[test]
fn few_rows_by_a_pipe(rt: HostRuntime) -> Result<(), Fail> {
    let few = long_head(rt.alloc(), "3 3 1\n2 1\n")?;
    let end = run_at_desk(&rt, &["order", "-"], few.as_str(), 0, Broken::Neither)?;
    check!(&rt; end.status == 0 && end.shown.lines().count() == 3);
    Ok(())
}

/// A matrix of three rows and four entries.
static SMALL: &str =
    "%%MatrixMarket matrix coordinate pattern general\n3 3 4\n2 1\n1 2\n3 2\n3 3\n";

/// A limit of the memory and a run, and whether the run stays within it: three rows and four entries.
static WITHIN: [(&str, &str, bool); 8] = [
    ("info", "104", true),
    ("info", "103", false),
    ("order", "256", true),
    ("order", "255", false),
    ("analyze", "512", true),
    ("analyze", "511", false),
    ("analyze", "1K", true),
    ("order", "0", false),
];

/// Whether a run stays within a limit as it should, or is refused with status 1 and tells how much it would take.
fn meets_limit<'a>(
    rt: &HostRuntime,
    name: &'a str,
    path: &'a str,
    limit: &'a str,
    is_within: bool,
) -> Result<bool, Fail> {
    let words = [name, path, "--memory", limit];
    let end = run_at_desk(rt, &words, SMALL, 0, Broken::Neither)?;
    let is_told = end
        .told
        .contains("would take about 1 MiB, more than --memory allows\n");
    let is_right = end.status == u8::from(!is_within) && is_told != is_within;
    Ok(is_right && end.shown.is_empty() != is_within)
}

/// Asserts that each limit is met, by a file and by a pipe.
fn check_limits(rt: &impl Abort, host: &HostRuntime, file: &str) -> Result<(), Fail> {
    for &(name, limit, is_within) in &WITHIN {
        check!(rt; meets_limit(host, name, file, limit, is_within)?, limit);
        check!(rt; meets_limit(host, name, "-", limit, is_within)?, limit);
    }
    Ok(())
}

/// A run that would take more than `--memory` allows is refused, by a pipe and by a file.
#[test]
fn a_limit_of_memory(rt: HostRuntime) -> Result<(), Fail> {
    let folder = make_folder(&rt)?;
    let file = within(&rt, folder.as_str(), "small.mtx")?;
    fs::write(&rt, file.as_str(), SMALL)?;
    check_limits(&rt, &rt, file.as_str())?;
    fs::remove_dir_all(&rt, folder.as_str())?;
    Ok(())
}

#[test]
fn a_limit_that_is_no_number(rt: HostRuntime) -> Result<(), Fail> {
    let words = ["order", "-", "--memory", "much"];
    let end = run_at_desk(&rt, &words, SMALL, 0, Broken::Neither)?;
    check!(&rt; end.status == 2 && end.told.starts_with("rimopaku: --memory: must be a number of bytes"));
    Ok(())
}

/// Whether a file has a text.
fn is_filled(rt: &HostRuntime, path: &str) -> Result<bool, Fail> {
    Ok(fs::metadata(rt, path)?.len() > 0)
}

/// Asserts that a run whose standard error takes nothing shows the order, and writes a tree and a picture.
fn check_mute(rt: &impl Abort, host: &HostRuntime, tree: &str, picture: &str) -> Result<(), Fail> {
    let words = ["order", "-", "--tree", tree, "--picture", picture];
    let end = run_at_desk(host, &words, PATH, 0, Broken::Error)?;
    check!(rt; end.status == 1 && end.shown.as_str() == ORDER);
    check!(rt; is_filled(host, tree)? && is_filled(host, picture)?);
    Ok(())
}

/// Where standard error takes nothing, all outputs are written, and the status tells.
#[test]
fn a_standard_error_that_takes_nothing(rt: HostRuntime) -> Result<(), Fail> {
    let folder = make_folder(&rt)?;
    let tree = within(&rt, folder.as_str(), "tree")?;
    let picture = within(&rt, folder.as_str(), "picture")?;
    check_mute(&rt, &rt, tree.as_str(), picture.as_str())?;
    fs::remove_dir_all(&rt, folder.as_str())?;
    Ok(())
}

/// Whether a run that cannot move its file to a path is refused, and its message names the file.
fn is_stuck(rt: &HostRuntime, path: &str) -> Result<bool, Fail> {
    let words = ["order", "-", "--out", path];
    let end = run_at_desk(rt, &words, PATH, 0, Broken::Move)?;
    Ok(end.status == 1 && end.told.contains("/order: cannot be written: "))
}

/// Asserts that a file that cannot be moved to a path in a folder leaves nothing, and keeps what was there.
fn check_stuck(rt: &impl Abort, host: &HostRuntime, folder: &str, path: &str) -> Result<(), Fail> {
    check!(rt; is_stuck(host, path)?);
    check!(rt; names_in(host, folder)? == 0);
    fs::write(host, path, "old\n")?;
    check!(rt; is_stuck(host, path)? && has_text(host, path, "old\n"));
    check!(rt; names_in(host, folder)? == 1);
    Ok(())
}

/// Where a file cannot be moved to its place nothing is left beside it, and one that was there is as it was.
#[test]
fn files_that_cannot_be_moved(rt: HostRuntime) -> Result<(), Fail> {
    let folder = make_folder(&rt)?;
    let folder = folder.as_str();
    let path = within(&rt, folder, "order")?;
    check_stuck(&rt, &rt, folder, path.as_str())?;
    fs::remove_dir_all(&rt, folder)?;
    Ok(())
}
