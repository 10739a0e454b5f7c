// A reader of the lines of a text, which counts those that it read. A line is looked at where it stands in the block of
// bytes that was read in one go.

ghost use Rattle.std.specs.Prelude.{◌≡◌, ◌≢◌, ◌≤◌, ◌<◌, ◌++◌, ◌↔◌, [], ℕ, List};
ghost use Rattle.std.specs.Prelude.{Some, All, IfOk, IfErr, IfSome, IsTrue, length, take, true, false};
ghost use Rattle.std.specs.Io.KnownBytes.{IsAtEnd};
ghost use Rattle.memchr.specs.Find.{IsFirstByte, is_byte};
ghost use Rattle.amd_lines.specs.Words.{words};
ghost use Rattle.amd_lines.specs.Blocks.{held_of};
ghost use Rattle.amd_lines.specs.Lines.{TakesLine, TakesNext, FailsAt, EndsLine, HasNoFeed, is_note};
ghost use Rattle.amd_lines.specs.Lines.{one_line_more, lines_read, line_of, rest_of, longest_of};
ghost use Rattle.amd_lines.specs.Lines.{MeetsLong, MeetsTelling, IfLong, StandsLong, HoldsLong, KeepsRest};
ghost use Rattle.amd_lines.specs.Lines.{NoteSoFar, PassesPiece, PassesIf, is_long};

use crate::chunks::Block;
use crate::errors::{LineCause, LineError};
use crate::words::{first_letter, word_start};
use memchr::memchr;
use std::alloc::Allocator;
use std::io;
use std::io::{ErrorKind, Read};

/// Whether a line says nothing: it has no word, or its first word begins with the byte that marks a note.
fn is_note(line: &[u8], mark: Option<u8>) -> bool
    ensures { result ≡ is_note mark (words line.now) }
{
    let Some(letter) = first_letter(line) else {
        return true;
    };
    match mark {
        None => false,
        Some(byte) => letter == byte,
    }
}

/// Whether a line says nothing, as far as the bytes at its front tell: `None` where they have no word.
fn note_at(front: &[u8], mark: Option<u8>) -> Option<bool>
    ensures { NoteSoFar mark result front.now }
{
    let place = word_start(front)?;
    match mark {
        None => Some(false),
        Some(byte) => Some(front[place] == byte),
    }
}

/// The same of a front and more bytes, where it is known of the front.
fn note_behind(known: Option<bool>, more: &[u8], mark: Option<u8>) -> Option<bool>
    ensures { (front : List ℕ) → NoteSoFar mark known front → NoteSoFar mark result (front ++ more.now) }
{
    match known {
        Some(is) => Some(is),
        None => note_at(more, mark),
    }
}

/// Whether a line is known to say something.
fn is_telling(known: Option<bool>) -> bool
    ensures { IsTrue result ↔ known ≡ Some false }
{
    matches!(known, Some(false))
}

/// Whether a line was not read because it is too long.
fn is_long(cause: &LineCause) -> bool
    ensures { result ≡ is_long cause.now }
{
    matches!(cause, LineCause::Long)
}

/// Where the first line feed stands in bytes of which the first `seen` are none.
fn feed_behind(bytes: &[u8], seen: usize) -> Option<usize>
    requires within { seen ≤ length bytes.now }
    requires none { HasNoFeed seen bytes.now }
    ensures { IsFirstByte (is_byte 10) bytes.now result }
{
    let (_, rest) = bytes.split_at(seen);
    let place = memchr(b'\n', rest)?;
    Some(seen + place)
}

/// A reader of lines.
#[derive(Drop)]
pub struct LineReader<R: Read + Drop, A: Allocator> {
    input: R,
    block: Block<A>,
    lines: u64,
    longest: usize,
}

impl<R: Read + Drop, A: Allocator> LineReader<R, A> {
    /// A reader that stands before the first line. A line may have `longest` bytes, with its line feed.
    pub fn new(alloc: A, input: R, longest: usize) -> LineReader<R, A>
        ensures source { rest_of R.remaining result ≡ R.remaining input }
        ensures lines { lines_read result ≡ 0 }
        ensures longest { longest_of result ≡ longest }
    {
        LineReader {
            input,
            block: Block::new(alloc),
            lines: 0,
            longest,
        }
    }

    /// The line that was read last.
    pub fn line(&self) -> &[u8]
        ensures { result.now ≡ line_of self.now }
    {
        self.block.passed()
    }

    /// The number of the line that was read last, 0 before the first.
    pub fn number(&self) -> u64
        ensures { result ≡ lines_read self.now }
    {
        self.lines
    }

    /// An error behind the line that was read last.
    fn at_line(&self, cause: LineCause) -> LineError
        ensures named { result.line ≡ lines_read self.now }
        ensures cause { result.cause ≡ cause }
    {
        LineError {
            line: self.lines,
            cause,
        }
    }

    /// The error of a read that failed behind the line that was read last.
    fn at_input(&self, error: io::Error) -> LineError
        ensures named { result.line ≡ lines_read self.now }
        ensures cause { IfLong result.cause ⊥ }
    {
        if error.kind() == ErrorKind::OutOfMemory {
            self.at_line(LineCause::OutOfMemory)
        } else {
            self.at_line(LineCause::Input(error))
        }
    }

    /// Counts the next line, which is too long, and returns the error that says so.
    fn refuse_line(&mut self) -> LineError
        ensures named { result.line ≡ one_line_more (lines_read self.old) }
        ensures counted { result.line ≡ lines_read self.new }
        ensures longest { longest_of self.new ≡ longest_of self.old }
        ensures rest { (self.new.block ≡ self.old.block) × (self.new.input ≡ self.old.input) }
    {
        let line = self.lines.saturating_add(1);
        self.lines = line;
        LineError {
            line,
            cause: LineCause::Long,
        }
    }

    /// Passes the next line, which has so many bytes, where it is not too long.
    fn pass_line(&mut self, count: usize) -> Result<bool, LineError>
        requires { EndsLine R.remaining self.old count }
        ensures takes { IfOk result (TakesLine R.remaining self.old self.new) }
        ensures short { IfOk result (λ some. length (line_of self.new) ≤ longest_of self.old) }
        ensures fails { IfErr result (λ e. FailsAt R.remaining self.old e.line) }
        ensures counted { IfErr result (λ e. e.line ≡ lines_read self.new) }
        ensures long { IfErr result (λ e. IfLong e.cause (MeetsLong R.remaining self.old [] e.line)) }
        ensures stands { IfErr result (λ e. IfLong e.cause (StandsLong R.remaining self.old self.new)) }
        ensures longest { longest_of self.new ≡ longest_of self.old }
    {
        if count > self.longest {
            return Err(self.refuse_line());
        }
        self.block.pass(count);
        self.lines = self.lines.saturating_add(1);
        Ok(true)
    }

    /// Passes what is held at the end of the input, and says whether that is a line.
    fn pass_last(&mut self) -> Result<bool, LineError>
        requires input { IsAtEnd (R.remaining self.old.input) }
        requires none { All (λ b. b ≢ 10) (held_of self.old.block) }
        ensures takes { IfOk result (TakesLine R.remaining self.old self.new) }
        ensures short { IfOk result (λ some. IsTrue some → length (line_of self.new) ≤ longest_of self.old) }
        ensures fails { IfErr result (λ e. FailsAt R.remaining self.old e.line) }
        ensures counted { IfErr result (λ e. e.line ≡ lines_read self.new) }
        ensures long { IfErr result (λ e. IfLong e.cause (MeetsLong R.remaining self.old [] e.line)) }
        ensures stands { IfErr result (λ e. IfLong e.cause (StandsLong R.remaining self.old self.new)) }
        ensures longest { longest_of self.new ≡ longest_of self.old }
    {
        let count = self.block.held().len();
        if count == 0 {
            return Ok(false);
        }
        self.pass_line(count)
    }

    /// The bytes that were read and not passed, as far as a line that begins there may reach.
    #[inline]
    pub fn ahead(&self) -> &[u8]
        ensures { result.now ≡ take (longest_of self.now) (held_of self.now.block) }
    {
        let held = self.block.held();
        let (front, _) = held.split_at(held.len().min(self.longest));
        front
    }

    /// Passes the next line, which stands whole in the block and has so many bytes.
    #[inline]
    pub fn pass_next(&mut self, count: usize)
        requires { EndsLine R.remaining self.old count }
        ensures takes { TakesLine R.remaining self.old self.new true }
        ensures line { line_of self.new ≡ take count (held_of self.old.block) }
        ensures longest { longest_of self.new ≡ longest_of self.old }
    {
        self.block.pass(count);
        self.lines = self.lines.saturating_add(1);
    }

    /// Reads the next line, and says whether there was one.
    ///
    /// # Errors
    ///
    /// `Long` where the line is too long, `OutOfMemory` where memory is refused, and `Input` where the input cannot be
    /// read.
    pub fn take_line(&mut self) -> Result<bool, LineError>
        ensures takes { IfOk result (TakesLine R.remaining self.old self.new) }
        ensures short { IfOk result (λ some. IsTrue some → length (line_of self.new) ≤ longest_of self.old) }
        ensures fails { IfErr result (λ e. FailsAt R.remaining self.old e.line) }
        ensures counted { IfErr result (λ e. e.line ≡ lines_read self.new) }
        ensures long { IfErr result (λ e. IfLong e.cause (MeetsLong R.remaining self.old [] e.line)) }
        ensures stands { IfErr result (λ e. IfLong e.cause (StandsLong R.remaining self.old self.new)) }
        ensures longest { longest_of self.new ≡ longest_of self.old }
    {
        let mut seen = 0;
        'chunks: for _ in 0..u64::MAX {
            if let Some(place) = feed_behind(self.block.held(), seen) {
                return self.pass_line(place + 1);
            }
            seen = self.block.held().len();
            if seen > self.longest {
                return Err(self.refuse_line());
            }
            match self.block.fill(&mut self.input) {
                Ok(0) => return self.pass_last(),
                Ok(_) => {}
                Err(error) if error.kind() == ErrorKind::Interrupted => {}
                Err(error) => return Err(self.at_input(error)),
            }
        }
        Err(self.at_line(LineCause::Lines))
    }

    /// Passes what is held up to and with the first line feed, or all of it, and says whether there was one.
    fn pass_piece(&mut self) -> bool
        ensures { PassesPiece self.old self.new result }
    {
        let held = self.block.held();
        match memchr(b'\n', held) {
            Some(place) => {
                self.block.pass(place + 1);
                true
            }
            None => {
                let count = held.len();
                self.block.pass(count);
                false
            }
        }
    }

    /// Reads more bytes, and says whether there may be more behind them.
    fn read_more(&mut self) -> Result<bool, LineError>
        ensures keeps { IfOk result (λ _. KeepsRest R.remaining self.old self.new) }
        ensures held { IfOk result (λ _. (more : List ℕ) × (held_of self.new.block ≡ held_of self.old.block ++ more)) }
        ensures end { IfOk result (λ some. some ≡ false → (held_of self.new.block ≡ held_of self.old.block) ×
            IsAtEnd (R.remaining self.new.input)) }
        ensures named { IfErr result (λ e. e.line ≡ lines_read self.old) }
        ensures cause { IfErr result (λ e. IfLong e.cause ⊥) }
        ensures counted { lines_read self.new ≡ lines_read self.old }
    {
        match self.block.fill(&mut self.input) {
            Ok(0) => Ok(false),
            Ok(_) => Ok(true),
            Err(error) if error.kind() == ErrorKind::Interrupted => Ok(true),
            Err(error) => Err(self.at_input(error)),
        }
    }

    /// Passes the next line, which is too long, piece by piece where it says nothing, and says whether it does not.
    fn pass_note(&mut self, mark: Option<u8>) -> Result<bool, LineError>
        requires { HoldsLong self.old }
        ensures passes { IfOk result (PassesIf mark R.remaining self.old self.new) }
        ensures named { IfErr result (λ e. e.line ≡ lines_read self.old) }
        ensures cause { IfErr result (λ e. IfLong e.cause ⊥) }
        ensures counted { lines_read self.new ≡ lines_read self.old }
        ensures longest { IfOk result (λ _. longest_of self.new ≡ longest_of self.old) }
    {
        let mut told = None;
        'pieces: for _ in 0..u64::MAX {
            let ends = self.pass_piece();
            told = note_behind(told, self.line(), mark);
            if is_telling(told) {
                return Ok(false);
            }
            if ends {
                return Ok(true);
            }
            if !self.read_more()? {
                return Ok(true);
            }
        }
        Err(self.at_line(LineCause::Lines))
    }

    /// Reads lines up to the next one that says something, and says whether there was one. The byte that marks a note
    /// may be left out: then a line with a word says something. A line that says nothing may have any length.
    ///
    /// # Errors
    ///
    /// Those of `take_line`, and `Lines` where there is no end of notes.
    pub fn take_telling(&mut self, mark: Option<u8>) -> Result<bool, LineError>
        ensures takes { IfOk result (TakesNext mark R.remaining self.old self.new) }
        ensures fails { IfErr result (λ e. FailsAt R.remaining self.old e.line) }
        ensures long { IfErr result (λ e. IfLong e.cause (MeetsTelling mark R.remaining self.old e.line)) }
        ensures counted { IfErr result (λ e. e.line ≡ lines_read self.new) }
    {
        'lines: for _ in 0..u64::MAX {
            match self.take_line() {
                Ok(false) => return Ok(false),
                Ok(true) => {
                    if !is_note(self.line(), mark) {
                        return Ok(true);
                    }
                }
                Err(error) => {
                    if !is_long(&error.cause) {
                        return Err(error);
                    }
                    if !self.pass_note(mark)? {
                        return Err(error);
                    }
                }
            }
        }
        Err(self.at_line(LineCause::Lines))
    }
}
