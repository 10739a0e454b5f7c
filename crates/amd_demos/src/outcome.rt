// What each demo writes of an answer of the ordering, after the Rust crate's demos.

ghost use Rattle.std.specs.Prelude.{◌≡◌, OnOk};
ghost use Rattle.std.specs.Io.KnownBytes.{Appends};
ghost use Rattle.amd_demos.specs.Lines.{failure_line, status_name};

use amd::Status;
use std::io;
use std::io::Write;

/// Writes that there is no ordering.
pub fn write_failure<W: Write>(out: &mut W) -> io::Result<()>
    ensures { OnOk result (Appends (W.contents out.old) (W.contents out.new) failure_line) }
{
    out.write_all(b"AMD failed\n")
}

/// The name of a status.
pub fn status_name(status: &Status) -> &'static str
    ensures { result.now ≡ status_name status.now }
{
    match status {
        Status::OK => "OK",
        Status::Invalid => "Invalid",
        Status::OkButJumbled => "OkButJumbled",
        Status::OutOfMemory => "OutOfMemory",
    }
}
