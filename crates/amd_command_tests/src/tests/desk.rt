// A runtime for tests: its input is a text, it keeps what is shown on standard output and told on standard error, its
// output may fail, it may move no file, and its clock goes on by so many seconds whenever it is read. Files are those
// of the host, but that its input is a pipe and its standard error no terminal.

use std::alloc::{Allocator, Global};
use std::cell::{Cell, RefCell};
use std::env::FillError;
use std::fmt::Display;
use std::fs::{Metadata, OpenOptions};
use std::io;
use std::io::{BufRead, ErrorKind, Lines};
use std::path::PathBuf;
use std::rt::{Clock, Env, Files, Runtime};
use std::time::Duration;

/// What a run has written, and the seconds of its clock.
#[derive(Drop)]
pub struct Pages {
    /// What stands on standard output.
    pub shown: RefCell<Vec<u8>>,
    /// What stands on standard error.
    pub told: RefCell<Vec<u8>>,
    /// The time.
    pub seconds: Cell<u64>,
}

impl Pages {
    /// Empty pages.
    pub fn new(alloc: Global) -> Pages {
        Pages {
            shown: RefCell::new(Vec::new(alloc)),
            told: RefCell::new(Vec::new(alloc)),
            seconds: Cell::new(0),
        }
    }
}

/// The runtime.
#[derive(Clone, Copy)]
pub struct Desk<'a> {
    /// The runtime whose files and memory are used.
    pub host: &'a HostRuntime,
    /// The input.
    pub input: &'a [u8],
    /// Where it is written.
    pub pages: &'a Pages,
    /// How many seconds the clock goes on.
    pub step: u64,
    /// Whether standard output takes nothing.
    pub broken: bool,
    /// Whether standard error takes nothing.
    pub mute: bool,
    /// Whether no file can be moved.
    pub stuck: bool,
}

/// Appends bytes to a page.
fn keep(page: &RefCell<Vec<u8>>, bytes: &[u8]) -> io::Result<()> {
    match page.try_borrow_mut() {
        Ok(mut kept) => Ok(kept.extend_from_slice(bytes)?),
        Err(_) => Err(io::Error::from(ErrorKind::Other)),
    }
}

impl Desk<'_> {
    /// Shows bytes on standard output.
    fn show(&self, bytes: &[u8]) -> io::Result<()> {
        if self.broken {
            return Err(io::Error::from(ErrorKind::WriteZero));
        }
        keep(&self.pages.shown, bytes)
    }

    /// Tells a text on standard error.
    fn tell<D: Display + Drop>(&self, value: D, end: &str) -> io::Result<()> {
        if self.mute {
            return Err(io::Error::from(ErrorKind::WriteZero));
        }
        let text = format!(in self.host.alloc(); "{value}{end}")?;
        keep(&self.pages.told, text.as_bytes())
    }
}

impl Runtime for Desk<'_> {}

impl Alloc for Desk<'_> {
    type A = Global;

    fn alloc(&self) -> Global {
        self.host.alloc()
    }
}

impl Print for Desk<'_> {
    fn print<D: Display + Drop>(&self, value: D) -> io::Result<()> {
        let text = format!(in self.host.alloc(); "{value}")?;
        self.show(text.as_bytes())
    }

    fn println<D: Display + Drop>(&self, value: D) -> io::Result<()> {
        let text = format!(in self.host.alloc(); "{value}\n")?;
        self.show(text.as_bytes())
    }

    fn write_all(&self, bytes: &[u8]) -> io::Result<()> {
        self.show(bytes)
    }
}

impl Eprint for Desk<'_> {
    fn eprint<D: Display + Drop>(&self, value: D) -> io::Result<()> {
        self.tell(value, "")
    }

    fn eprintln<D: Display + Drop>(&self, value: D) -> io::Result<()> {
        self.tell(value, "\n")
    }
}

impl<'a> Input for Desk<'a> {
    type Reader = &'a [u8];

    fn read_line<A: Allocator + Clone>(&self, buf: &mut String<A>) -> io::Result<usize> {
        let mut input = self.input;
        input.read_line(buf)
    }

    fn lines<A: Allocator>(&self, alloc: A) -> Lines<&'a [u8], A> {
        self.input.lines(alloc)
    }

    fn reader(&self) -> &'a [u8] {
        self.input
    }
}

impl Env for Desk<'_> {
    fn arg(&self, i: usize, buf: &mut [u8]) -> Result<usize, FillError> {
        self.host.arg(i, buf)
    }

    fn var(&self, name: &str, buf: &mut [u8]) -> Result<usize, FillError> {
        self.host.var(name, buf)
    }

    fn var_at(&self, i: usize, buf: &mut [u8]) -> Result<usize, FillError> {
        self.host.var_at(i, buf)
    }
}

impl Clock for Desk<'_> {
    fn monotonic(&self) -> io::Result<Duration> {
        let now = self.pages.seconds.get();
        self.pages.seconds.set(now.wrapping_add(self.step));
        Ok(Duration::from_secs(now))
    }

    fn since_1970(&self) -> io::Result<Duration> {
        self.monotonic()
    }
}

impl Files for Desk<'_> {
    type File = <HostRuntime as Files>::File;

    type Dir = <HostRuntime as Files>::Dir;

    fn open_file(&self, how: &OpenOptions, path: &str) -> io::Result<Self::File> {
        self.host.open_file(how, path)
    }

    fn open_dir(&self, path: &str) -> io::Result<Self::Dir> {
        self.host.open_dir(path)
    }

    fn metadata(&self, path: &str) -> io::Result<Metadata> {
        if path == "/dev/stdin" {
            return Err(io::Error::from(ErrorKind::NotFound));
        }
        self.host.metadata(path)
    }

    fn symlink_metadata(&self, path: &str) -> io::Result<Metadata> {
        self.host.symlink_metadata(path)
    }

    fn copy(&self, from: &str, to: &str) -> io::Result<u64> {
        self.host.copy(from, to)
    }

    fn rename(&self, from: &str, to: &str) -> io::Result<()> {
        if self.stuck {
            return Err(io::Error::from(ErrorKind::Other));
        }
        self.host.rename(from, to)
    }

    fn canonicalize<B: Allocator>(&self, alloc: B, path: &str) -> io::Result<PathBuf<B>> {
        self.host.canonicalize(alloc, path)
    }

    fn read_link<B: Allocator>(&self, alloc: B, path: &str) -> io::Result<PathBuf<B>> {
        if path == "/proc/self/fd/2" {
            return Err(io::Error::from(ErrorKind::NotFound));
        }
        self.host.read_link(alloc, path)
    }

    fn chown(&self, path: &str, uid: Option<u32>, gid: Option<u32>) -> io::Result<()> {
        self.host.chown(path, uid, gid)
    }

    fn hard_link(&self, original: &str, link: &str) -> io::Result<()> {
        self.host.hard_link(original, link)
    }

    fn symlink(&self, original: &str, link: &str) -> io::Result<()> {
        self.host.symlink(original, link)
    }

    fn remove_file(&self, path: &str) -> io::Result<()> {
        self.host.remove_file(path)
    }

    fn create_dir(&self, path: &str) -> io::Result<()> {
        self.host.create_dir(path)
    }

    fn remove_dir(&self, path: &str) -> io::Result<()> {
        self.host.remove_dir(path)
    }

    fn remove_dir_all<B: Allocator>(&self, alloc: B, path: &str) -> io::Result<()> {
        self.host.remove_dir_all(alloc, path)
    }
}
