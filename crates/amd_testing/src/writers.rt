// Writers for tests: one that has a fault at a chosen call, or takes one byte there, and counts its calls, and one that
// takes one byte a call. Each keeps the bytes that it took. Code that writes is run with the fault at each call in
// turn.

ghost use Rattle.std.specs.Io.{WritesAtMost};

use std::io;
use std::io::{ErrorKind, Write};

/// What goes wrong at the chosen call.
#[derive(Clone, Copy, Debug)]
pub enum WriterFault {
    /// The call fails, with kind `Other`.
    Fails,
    /// The call takes no byte.
    TakesNothing,
    /// The call takes the first byte alone, so that the rest is to be written again.
    TakesOne,
    /// The call is interrupted, so that it is to be made again.
    Interrupted,
}

/// Takes the first byte, where there is one, and returns how many were taken.
fn take_first(bytes: &mut Vec<u8>, buf: &[u8]) -> io::Result<usize>
    ensures { WritesAtMost result buf.now }
{
    let Some(first) = buf.first() else {
        return Ok(0);
    };
    bytes.push(*first)?;
    Ok(1)
}

/// Takes all bytes, but at the call that has the chosen number.
#[derive(Drop)]
pub struct Faulty {
    bytes: Vec<u8>,
    fault: WriterFault,
    fault_at: u64,
    calls: u64,
    faults: u64,
}

impl Faulty {
    /// Appends to `bytes`, with a fault at the call `fault_at`, counted from 1, and none where that is 0.
    pub fn new(bytes: Vec<u8>, fault: WriterFault, fault_at: u64) -> Faulty {
        Faulty {
            bytes,
            fault,
            fault_at,
            calls: 0,
            faults: 0,
        }
    }

    /// The bytes that it took.
    pub fn bytes(&self) -> &[u8] {
        self.bytes.as_slice()
    }

    /// How often it was asked to write.
    pub fn calls(&self) -> u64 {
        self.calls
    }

    /// How often it had its fault.
    pub fn faults(&self) -> u64 {
        self.faults
    }
}

impl Write for Faulty {
    fn write(&mut self, buf: &[u8]) -> io::Result<usize> {
        self.calls = self.calls.wrapping_add(1);
        if self.calls == self.fault_at {
            self.faults = self.faults.wrapping_add(1);
            return match self.fault {
                WriterFault::Fails => Err(io::Error::from(ErrorKind::Other)),
                WriterFault::TakesNothing => Ok(0),
                WriterFault::TakesOne => take_first(&mut self.bytes, buf),
                WriterFault::Interrupted => Err(io::Error::from(ErrorKind::Interrupted)),
            };
        }
        self.bytes.extend_from_slice(buf)?;
        Ok(buf.len())
    }

    fn flush(&mut self) -> io::Result<()> {
        Ok(())
    }
}

/// Takes one byte at each call.
#[derive(Drop)]
pub struct Slow {
    bytes: Vec<u8>,
}

impl Slow {
    /// Appends to `bytes`.
    pub fn new(bytes: Vec<u8>) -> Slow {
        Slow { bytes }
    }

    /// The bytes that it took.
    pub fn bytes(&self) -> &[u8] {
        self.bytes.as_slice()
    }
}

impl Write for Slow {
    fn write(&mut self, buf: &[u8]) -> io::Result<usize> {
        take_first(&mut self.bytes, buf)
    }

    fn flush(&mut self) -> io::Result<()> {
        Ok(())
    }
}
