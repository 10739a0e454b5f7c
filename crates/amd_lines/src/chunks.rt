// The bytes of an input that were read in one go and are passed line by line, where they stand.

ghost use Rattle.std.specs.Prelude.{◌≡◌, ◌≤◌, ◌<◌, ◌+◌, ◌++◌, ℕ, List, [], length, take, drop, IfOk, OnErr, vec_len};
ghost use Rattle.std.specs.Io.KnownBytes.{Keeps, Consumes, IsAtEnd};

use std::alloc::Allocator;
use std::io;
use std::io::Read;

/// How many bytes are read in one go.
const CHUNK: usize = 1 << 17;

/// Reads into a slice from a place on.
fn read_behind<R: Read>(input: &mut R, bytes: &mut [u8], place: usize) -> io::Result<usize>
    requires { place < length bytes.old }
    ensures front { take place bytes.new ≡ take place bytes.old }
    ensures ok { IfOk result (λ n. (place + n ≤ length bytes.new) ×
        Consumes (R.remaining input.old) (R.remaining input.new) (take n (drop place bytes.new))) }
    ensures end { IfOk result (λ n. n ≡ 0 → IsAtEnd (R.remaining input.new)) }
    ensures err { OnErr result (Keeps (R.remaining input.old) (R.remaining input.new)) }
{
    input.read(&mut bytes[place..])
}

/// Reads behind the bytes of a vector.
fn append_from<R: Read, A: Allocator>(input: &mut R, bytes: &mut Vec<u8, A>) -> io::Result<usize>
    ensures ok { IfOk result (λ n. (more : List ℕ) × (length more ≡ n) × (bytes.new.items ≡ bytes.old.items ++ more) ×
        Consumes (R.remaining input.old) (R.remaining input.new) more) }
    ensures end { IfOk result (λ n. n ≡ 0 → IsAtEnd (R.remaining input.new)) }
    ensures err { OnErr result ((bytes.new.items ≡ bytes.old.items) ×
        Keeps (R.remaining input.old) (R.remaining input.new)) }
{
    let filled = bytes.len();
    bytes.resize(filled + CHUNK, 0)?;
    match read_behind(input, bytes, filled) {
        Ok(count) => {
            bytes.truncate(filled + count);
            Ok(count)
        }
        Err(error) => {
            bytes.truncate(filled);
            Err(error)
        }
    }
}

/// Moves the bytes from a place on to the front.
fn shift(bytes: &mut [u8], place: usize)
    requires { place ≤ length bytes.old }
    ensures { drop place bytes.old ≡ take (length (drop place bytes.old)) bytes.new }
{
    bytes.copy_within(place.., 0);
}

/// Bytes of an input.
#[derive(Drop)]
pub(crate) struct Block<A: Allocator> {
    bytes: Vec<u8, A>,
    begin: usize,
    next: usize,
    ghost ordered: { begin ≤ next },
    ghost within: { next ≤ vec_len bytes },
}

impl<A: Allocator> Block<A> {
    ghost use Rattle.amd_lines.specs.Blocks.{passed_of, held_of};

    /// A block without a byte.
    pub(crate) fn new(alloc: A) -> Block<A>
        ensures { held_of result ≡ [] }
    {
        Block {
            bytes: Vec::new(alloc),
            begin: 0,
            next: 0,
        }
    }

    /// The bytes that were passed last.
    pub(crate) fn passed(&self) -> &[u8]
        ensures { result.now ≡ passed_of self.now }
    {
        &self.bytes[self.begin..self.next]
    }

    /// The bytes that were read and not passed.
    pub(crate) fn held(&self) -> &[u8]
        ensures { result.now ≡ held_of self.now }
    {
        &self.bytes[self.next..]
    }

    /// Passes so many bytes.
    pub(crate) fn pass(&mut self, count: usize)
        requires { count ≤ length (held_of self.old) }
        ensures passed { passed_of self.new ≡ take count (held_of self.old) }
        ensures held { held_of self.new ≡ drop count (held_of self.old) }
    {
        self.begin = self.next;
        self.next += count;
    }

    /// Lets go of the bytes that were passed, where there are any.
    fn forget(&mut self)
        ensures held { held_of self.new ≡ held_of self.old }
        ensures front { self.new.next ≡ 0 }
    {
        if self.next == 0 {
            return;
        }
        let left = self.bytes.len() - self.next;
        let place = self.next;
        shift(&mut self.bytes, place);
        self.begin = 0;
        self.next = 0;
        self.bytes.truncate(left);
    }

    /// Reads more bytes, and returns how many: none at the end of the input.
    pub(crate) fn fill<R: Read>(&mut self, input: &mut R) -> io::Result<usize>
        ensures ok { IfOk result (λ n. (more : List ℕ) × (length more ≡ n) ×
            (held_of self.new ≡ held_of self.old ++ more) ×
            Consumes (R.remaining input.old) (R.remaining input.new) more) }
        ensures end { IfOk result (λ n. n ≡ 0 → IsAtEnd (R.remaining input.new)) }
        ensures err { OnErr result ((held_of self.new ≡ held_of self.old) ×
            Keeps (R.remaining input.old) (R.remaining input.new)) }
    {
        self.forget();
        append_from(input, &mut self.bytes)
    }
}
