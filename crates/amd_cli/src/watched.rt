// A file that tells on standard error, by a bar and in percent, how much of it was read. What is read is what the file
// has, by contract; what is told is tested.

ghost use Rattle.std.specs.Prelude.{◌≡◌};
ghost use Rattle.amd_cli.specs.Watched.{input_of};

use crate::progress::bar_at;
use std::io;
use std::io::Read;

/// How much of a file was read.
#[derive(Drop)]
struct Meter {
    /// The bytes of the file.
    size: u64,
    /// The bytes that were read.
    done: u64,
    /// The percent that were told last.
    percent: u64,
}

impl Meter {
    /// The percent that were read with so many bytes more, where they are more than were told last.
    fn pass(&mut self, count: usize) -> Option<u64> {
        self.done = self.done.saturating_add(count as u64);
        let percent = (self.done as u128 * 100 / self.size.max(1) as u128).min(100) as u64;
        if percent <= self.percent {
            return None;
        }
        self.percent = percent;
        Some(percent)
    }
}

/// A file, and how much of it was read.
#[derive(Drop)]
pub struct Watched<'a, P: Eprint, F: Drop> {
    told: &'a P,
    input: F,
    meter: Meter,
}

impl<'a, P: Eprint, F: Drop> Watched<'a, P, F> {
    /// A file of so many bytes, of which none was read.
    pub fn new(told: &'a P, input: F, size: u64) -> Watched<'a, P, F>
        ensures { input_of result ≡ input }
    {
        Watched {
            told,
            input,
            meter: Meter {
                size,
                done: 0,
                percent: 0,
            },
        }
    }
}

impl<P: Eprint, F: Read + Drop> Read for Watched<'_, P, F> {
    ghost remaining = { λ r. F.remaining (input_of r) };

    fn read(&mut self, buf: &mut [u8]) -> io::Result<usize> {
        let count = self.input.read(buf)?;
        if let Some(percent) = self.meter.pass(count) {
            let end = if percent == 100 { "\n" } else { "\r" };
            let (full, empty) = bar_at(percent);
            let _ = self.told.eprint(format_args!(
                "rimopaku: reading [{full}{empty}] {percent}%{end}"
            ));
        }
        Ok(count)
    }
}
