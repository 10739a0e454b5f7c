// The allocator.
ghost use Rattle.std.specs.Prelude.{◌≡◌, ◌^◌, ◌<◌, ◌≤◌, IfSome};
ghost use base.Fml.{ftrue};
ghost use Rattle.amd_lent.specs.Pieces.{whole_size};

use crate::piece::Piece;
use std::alloc::{AllocError, Allocator};
use std::cell::Cell;

const UNIT: usize = 16;

/// An allocator over one block: each request takes the next bytes of it. What is given back is not used again.
#[derive(Drop)]
pub struct Lent {
    rest: Cell<Option<Piece>>,
}

fn whole_size(size: usize) -> usize
    requires { size < 2 ^ 63 }
    ensures { result ≡ whole_size size }
{
    size.max(UNIT).next_multiple_of(UNIT)
}

impl Lent {
    /// An allocator over the block.
    pub fn new(block: Piece) -> Lent {
        Lent {
            rest: Cell::new(Some(block)),
        }
    }

    fn take(&self, size: usize, align: usize) -> Option<Piece>
        ensures { IfSome result (λ p. (p.size ≡ whole_size size) × (size < 2 ^ 63) × (align ≤ 16)) }
    {
        if align > UNIT || size > isize::MAX as usize {
            return None;
        }
        let wanted = whole_size(size);
        let (left, rest) = self.rest.replace(None)?.with_size();
        if left < wanted {
            self.rest.replace(Some(rest));
            return None;
        }
        let (piece, rest) = rest.cut(wanted);
        self.rest.replace(Some(rest));
        Some(piece)
    }
}

unsafe impl Allocator for Lent {
    ghost dealloc_token = { λ _ _ _. ftrue };

    fn allocate(&self, size: usize, align: usize) -> Result<*mut u8, AllocError> {
        match self.take(size, align) {
            Some(Piece { ptr, size: _ }) => Ok(ptr),
            None => Err(AllocError),
        }
    }

    unsafe fn deallocate(&self, _ptr: *mut u8, _size: usize, _align: usize) {}
}
