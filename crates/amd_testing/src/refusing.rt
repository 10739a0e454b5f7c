// An allocator that counts requests for memory, the blocks that come back, and the most bytes that stand at once; for
// tests it refuses one request. Code that answers want of memory is run with each request refused in turn, and must
// leave nothing behind. It also counts the requests of one size, which tell how long a list is that nothing else shows.

use std::alloc::{AllocError, Allocator, Global};
use std::cell::Cell;

/// More requests than any call makes that a test runs with each of them refused.
const MANY: u64 = 1000;

/// Which request is refused, and what was counted so far. Each counter wraps.
#[derive(Drop)]
struct Tally {
    // the number of the request to refuse, from 1, or 0
    refuse_at: u64,
    // the size of the requests that are counted apart, in bytes
    size: usize,
    requests: Cell<u64>,
    // those of the size that is counted apart
    sized: Cell<u64>,
    // the blocks that came back
    released: Cell<u64>,
    // the bytes of the blocks that did not
    standing: Cell<u64>,
    // the most bytes that stood at once
    peak: Cell<u64>,
}

/// Hands each request on to the allocator inside, but for the one that has the chosen number. A `&` to it is an
/// allocator that can be copied.
pub struct Refusing<B: Allocator> {
    inner: B,
    tally: Tally,
}

impl<B: Allocator> Refusing<B> {
    /// Refuses the request with the number `refuse_at`, counted from 1, and none where that is 0.
    pub fn new(inner: B, refuse_at: u64) -> Refusing<B> {
        Refusing::counting(inner, refuse_at, 0)
    }

    /// As `new`, and counts the requests of exactly `size` bytes apart.
    pub fn counting(inner: B, refuse_at: u64, size: usize) -> Refusing<B> {
        Refusing {
            inner,
            tally: Tally {
                refuse_at,
                size,
                requests: Cell::new(0),
                sized: Cell::new(0),
                released: Cell::new(0),
                standing: Cell::new(0),
                peak: Cell::new(0),
            },
        }
    }

    /// How many requests were made, the refused one among them.
    pub fn requests(&self) -> u64 {
        self.tally.requests.get()
    }

    /// How many of them had the size that is counted apart.
    pub fn of_size(&self) -> u64 {
        self.tally.sized.get()
    }

    /// Whether a request was refused.
    pub fn refused(&self) -> bool {
        self.tally.refuse_at != 0 && self.requests() >= self.tally.refuse_at
    }

    /// How many blocks were granted: one for each request but the refused one, where the allocator inside refused none.
    pub fn granted(&self) -> u64 {
        self.requests().wrapping_sub(u64::from(self.refused()))
    }

    /// How many blocks came back.
    pub fn released(&self) -> u64 {
        self.tally.released.get()
    }

    /// The most bytes that stood at once, where the allocator inside refused none.
    pub fn peak(&self) -> u64 {
        self.tally.peak.get()
    }
}

impl<B: Allocator> Drop for Refusing<B> {
    fn drop(self) {
        let Self { inner: _, tally: _ } = self;
    }
}

/// Counts one more, and returns how many there are now.
fn count(counter: &Cell<u64>) -> u64 {
    let now = counter.get().wrapping_add(1);
    counter.set(now);
    now
}

/// Counts a request for `size` bytes, and says whether it is granted.
fn grants(tally: &Tally, size: usize) -> bool {
    if size == tally.size {
        let _ = count(&tally.sized);
    }
    let granted = count(&tally.requests) != tally.refuse_at;
    if granted {
        let standing = tally.standing.get().wrapping_add(size as u64);
        tally.standing.set(standing);
        tally.peak.set(tally.peak.get().max(standing));
    }
    granted
}

/// Counts a block of `size` bytes that comes back.
fn takes_back(tally: &Tally, size: usize) {
    let _ = count(&tally.released);
    let standing = tally.standing.get().wrapping_sub(size as u64);
    tally.standing.set(standing);
}

unsafe impl<B: Allocator> Allocator for Refusing<B> {
    ghost dealloc_token = { λ heap ty ptr. B.dealloc_token heap.inner ty ptr };

    fn allocate(&self, size: usize, align: usize) -> Result<*mut u8, AllocError> {
        if grants(&self.tally, size) {
            return self.inner.allocate(size, align);
        }
        Err(AllocError)
    }

    unsafe fn deallocate(&self, ptr: *mut u8, size: usize, align: usize) {
        takes_back(&self.tally, size);
        self.inner.deallocate(ptr, size, align);
    }
}

/// What a call did wrong while its requests were refused; each names the request.
#[derive(Debug, PartialEq, Drop)]
pub enum Slip {
    /// The request was refused, and the call had a result.
    Answered(u64),
    /// The call had no result, and no request was refused.
    Unanswered(u64),
    /// More or fewer blocks came back than were granted.
    Unbalanced(u64),
    /// No run met no refusal.
    Endless,
}

/// What a run did wrong, if anything.
fn slip_of<B: Allocator>(heap: &Refusing<B>, answered: bool) -> Option<Slip> {
    let refuse_at = heap.tally.refuse_at;
    if heap.granted() != heap.released() {
        return Some(Slip::Unbalanced(refuse_at));
    }
    match (answered, heap.refused()) {
        (true, true) => Some(Slip::Answered(refuse_at)),
        (false, false) => Some(Slip::Unanswered(refuse_at)),
        _ => None,
    }
}

/// Makes a call with each of its requests refused in turn, until a run meets no refusal, and returns how many were
/// refused. The call says whether it had a result, which it has dropped. There must be one exactly where no request
/// was refused, and after each run as many blocks must have come back as were granted.
///
/// # Errors
///
/// The first run that did wrong.
pub fn each_refused<F: Fn(&Refusing<Global>) -> bool>(alloc: Global, call: F) -> Result<u64, Slip>
    requires { F.IsAlwaysCallable call }
{
    for refuse_at in 1..MANY {
        let heap = Refusing::new(alloc, refuse_at);
        let answered = call(&heap);
        if let Some(slip) = slip_of(&heap, answered) {
            return Err(slip);
        }
        if answered {
            return Ok(refuse_at - 1);
        }
    }
    Err(Slip::Endless)
}
