// What the command tells on standard error while it works: a line at the beginning of a stage that is large, or that
// begins where the run has taken some time already. On a terminal such a stage has a bar: the reading of a file one
// that fills with what was read, and the ordering and the drawing one that is empty at first and full when they are
// done, since neither can tell how far it is. With `--progress` each stage is told, with its bar. Tested alone: no
// contract can speak of the clock or of a terminal.

use std::fmt::Display;
use std::fs;
use std::rt::{Clock, Files};
use std::time::{Duration, Instant};

/// After so many seconds each stage is told.
const SOME_SECONDS: u64 = 2;

/// A link that Linux has to what standard error is.
const STANDARD_ERROR: &str = "/proc/self/fd/2";

/// An empty bar, and a full one behind it.
const CELLS: &str = "....................####################";

/// The full cells of a bar at so many percent, and the empty ones.
pub fn bar_at(percent: u64) -> (&'static str, &'static str) {
    let done = (percent / 5).min(20) as usize;
    let full = CELLS.get(20..20 + done).unwrap_or("");
    (full, CELLS.get(done..20).unwrap_or(""))
}

/// A moment of a stage.
#[derive(Clone, Copy)]
pub enum Moment {
    /// It begins.
    Begin,
    /// It is done.
    End,
}

/// When a run began, none where there is no clock, and what of it is told.
#[derive(Drop)]
pub struct Progress {
    start: Option<Instant>,
    /// Whether each stage is told.
    each: bool,
    /// Whether a stage that is told has a bar.
    bars: bool,
    /// Whether nothing is told.
    quiet: bool,
}

/// Whether standard error is a terminal. Where Linux does not say so, it is none.
fn is_terminal<R: Files + AllocGlobal>(rt: &R) -> bool {
    match fs::read_link(rt, STANDARD_ERROR) {
        Ok(place) => {
            let place = place.as_str();
            place.starts_with("/dev/pts/") || place.starts_with("/dev/tty")
        }
        Err(_) => false,
    }
}

impl Progress {
    /// The progress of a run that begins now, with each stage told or not, unless nothing is to be told.
    pub fn from_now<R: Files + Clock + AllocGlobal>(rt: &R, each: bool, quiet: bool) -> Progress {
        Progress {
            start: Instant::now(rt).ok(),
            each,
            bars: each || is_terminal(rt),
            quiet,
        }
    }

    /// Whether the run has taken some time already.
    fn is_slow<R: Clock>(&self, rt: &R) -> bool {
        match self.start {
            Some(start) => match start.elapsed(rt) {
                Ok(time) => time >= Duration::from_secs(SOME_SECONDS),
                Err(_) => false,
            },
            None => false,
        }
    }

    /// Whether a stage is told: one that is `large` or begins late, or each, unless nothing is to be told.
    fn is_told<R: Clock>(&self, rt: &R, large: bool) -> bool {
        !self.quiet && (self.each || large || self.is_slow(rt))
    }

    /// Whether a stage has a bar.
    pub fn has_bar<R: Clock>(&self, rt: &R, large: bool) -> bool {
        self.bars && self.is_told(rt, large)
    }

    /// Tells the stage that begins, where it is told. Where standard error takes no text, the run goes on.
    pub fn tell<R: Clock + Eprint, T: Display + Drop>(&self, rt: &R, large: bool, stage: T) {
        if self.is_told(rt, large) {
            let _ = rt.eprintln(stage);
        }
    }

    /// Tells a moment of a stage, where it is told: its beginning in a line, or with a bar both, one over the other.
    pub fn tell_moment<R: Clock + Eprint, T: Display + Drop>(
        &self,
        rt: &R,
        large: bool,
        moment: Moment,
        stage: T,
    ) {
        if !self.bars {
            if matches!(moment, Moment::Begin) {
                self.tell(rt, large, stage);
            }
            return;
        }
        if self.is_told(rt, large) {
            let (percent, end) = match moment {
                Moment::Begin => (0, "\r"),
                Moment::End => (100, "\n"),
            };
            let (full, empty) = bar_at(percent);
            let _ = rt.eprint(format_args!("{stage} [{full}{empty}]{end}"));
        }
    }
}
