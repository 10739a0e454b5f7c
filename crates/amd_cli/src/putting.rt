// How an output is written to its place. A new file is written beside its place and moved there once it is whole. So is
// one that was there, where that keeps its mode, its owner and its group, and it has no other name; else its bytes are
// replaced where they stand, and the room for more of them is taken before the first of them is lost. Files are tested
// alone: no contract can speak of them.

use crate::causes::Cause;
use crate::paths::{end_of, folder_and_name, found_at, open_new, open_old};
use std::fs::{Metadata, OpenFile};
use std::io::{ErrorKind, Seek, SeekFrom, Write};
use std::os::unix::fs::MetadataExt;
use std::rt::Files;
use std::{fs, io};

/// How many names are tried for a file beside an output; a run that was killed may have left some of them.
const NAMES: u32 = 1000;

/// A file beside the place that it is to be moved to.
#[derive(Drop)]
struct Part<F: Drop> {
    /// Its path.
    path: String,
    /// The file.
    file: F,
}

/// Writes a text to a device or a pipe.
fn write_through<R: Files>(rt: &R, path: &str, text: &[u8]) -> Result<(), Cause> {
    let mut out = open_old(rt, path)?;
    out.write_all(text)?;
    out.flush()?;
    Ok(())
}

/// Makes a file beside a place, with the first of some short names that is free: a run beside this one takes another.
fn make_part<R: Files + AllocGlobal>(rt: &R, place: &str) -> Result<Part<R::File>, Cause> {
    let (folder, _) = folder_and_name(place);
    'names: for count in 0..NAMES {
        let path = format!(in rt.alloc(); "{folder}/.rimopaku-part-{count}")?;
        match open_new(rt, path.as_str()) {
            Ok(file) => return Ok(Part { path, file }),
            Err(error) if error.kind() == ErrorKind::AlreadyExists => {}
            Err(error) => return Err(Cause::from(error)),
        }
    }
    Err(Cause::Write(io::Error::from(ErrorKind::AlreadyExists)))
}

/// Writes a text to a file beside a place, and moves it there.
fn write_and_move<R: Files>(
    rt: &R,
    mut file: R::File,
    path: &str,
    place: &str,
    text: &[u8],
) -> Result<(), Cause> {
    file.write_all(text)?;
    file.flush()?;
    drop(file);
    fs::rename(rt, path, place)?;
    Ok(())
}

/// Writes a text to a file beside a place, which has it whole or stays as it was.
fn move_whole<R: Files>(
    rt: &R,
    part: Part<R::File>,
    place: &str,
    text: &[u8],
) -> Result<(), Cause> {
    let Part { path, file } = part;
    let outcome = write_and_move(rt, file, path.as_str(), place, text);
    if outcome.is_err() {
        let _ = fs::remove_file(rt, path.as_str());
    }
    outcome
}

/// Gives a file the owner, the group and the mode of another, as far as that is allowed, and says whether it has them.
fn takes_after<R: Files>(rt: &R, part: &Part<R::File>, old: &Metadata) -> bool {
    let path = part.path.as_str();
    let _ = rt.chown(path, Some(old.uid()), Some(old.gid()));
    let _ = part.file.set_permissions(old.permissions());
    match part.file.metadata() {
        Ok(new) => new.uid() == old.uid() && new.gid() == old.gid() && new.mode() == old.mode(),
        Err(_) => false,
    }
}

/// A file beside a file, with its owner, group and mode, where it can be had and the other has no other name.
fn part_like<R: Files + AllocGlobal>(rt: &R, place: &str, old: &Metadata) -> Option<Part<R::File>> {
    if old.nlink() != 1 {
        return None;
    }
    let part = make_part(rt, place).ok()?;
    if takes_after(rt, &part, old) {
        return Some(part);
    }
    let Part { path, file } = part;
    drop(file);
    let _ = fs::remove_file(rt, path.as_str());
    None
}

/// Writes what is past the first `kept` bytes of a file, which takes the room for it, and waits until it is there.
fn extend<F: Write + Seek + OpenFile>(file: &mut F, kept: u64, text: &[u8]) -> io::Result<()> {
    file.seek(SeekFrom::Start(kept))?;
    file.write_all(text)?;
    file.flush()?;
    file.sync_data()
}

/// Replaces the bytes of a file, which had `size` of them. Where there is no room for more of them it stays as it was.
fn write_over<F: Write + Seek + OpenFile>(
    file: &mut F,
    size: u64,
    text: &[u8],
) -> Result<(), Cause> {
    let kept = size.min(text.len() as u64);
    let Some((begin, end)) = text.split_at_checked(kept as usize) else {
        return Err(Cause::Memory);
    };
    if let Err(error) = extend(file, kept, end) {
        let _ = file.set_len(size);
        return Err(Cause::from(error));
    }
    file.seek(SeekFrom::Start(0))?;
    file.write_all(begin)?;
    file.flush()?;
    file.set_len(text.len() as u64)?;
    Ok(())
}

/// Replaces a regular file, which may be written.
fn replace<R: Files + AllocGlobal>(
    rt: &R,
    path: &str,
    old: &Metadata,
    text: &[u8],
) -> Result<(), Cause> {
    let mut file = open_old(rt, path)?;
    if let Ok(place) = fs::canonicalize(rt, path) {
        if let Some(part) = part_like(rt, place.as_str(), old) {
            return move_whole(rt, part, place.as_str(), text);
        }
    }
    write_over(&mut file, old.size(), text)
}

/// Writes a text to a file. A link is followed. A regular file has the text whole or stays as it was, but for one whose
/// mode, owner, group or other names would be lost so: it may have a part of the text where the run is killed. A device
/// or a pipe is written to as it is.
pub fn put_file<R: Files + AllocGlobal>(rt: &R, path: &str, text: &[u8]) -> Result<(), Cause> {
    match found_at(rt, path)? {
        Some(old) if old.is_file() => replace(rt, path, &old, text),
        Some(_) => write_through(rt, path, text),
        None => {
            let place = end_of(rt, path)?;
            let part = make_part(rt, place.as_str())?;
            move_whole(rt, part, place.as_str(), text)
        }
    }
}
