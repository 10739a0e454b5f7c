// A part of the block that was lent, in units of 16 bytes.
ghost use Rattle.std.specs.Prelude.{◌≡◌, ◌+◌, ◌*◌, ◌^◌, ◌<◌, ◌≤◌, []};
ghost use Rattle.std.specs.Mem.{type_size};
ghost use Rattle.std.specs.Vec.{vec_capacity};
ghost use Rattle.linked_list_allocator.specs.Ownership.{bytes_at};
ghost use Rattle.amd_lent.specs.Pieces.{IsWhole};

use std::marker::Model;
use std_alloc::vec::{Lodged, lodge};

/// `size` bytes at `ptr` that no one else uses: an address that is a multiple of 16, and a whole number of units of 16
/// bytes, fewer than 2^63 bytes.
#[repr(C)]
#[derive(Drop)]
pub struct Piece {
    pub ptr: *mut u8,
    pub size: usize,
    ghost whole: { IsWhole size },
    ghost small: { size < 2 ^ 63 },
}

impl Model for Piece {
    ghost also_owns = { λ p. bytes_at p.ptr p.size };
}

impl Piece {
    /// The first `size` bytes, and what is left.
    pub(crate) fn cut(self, size: usize) -> (Piece, Piece)
        requires { IsWhole size × (size ≤ self.size) }
        ensures { (result.0.size ≡ size) × (result.0.size + result.1.size ≡ self.size) }
    {
        let Piece { ptr, size: all } = self;
        let rest = unsafe { ptr.add(size) };
        (
            Piece { ptr, size },
            Piece {
                ptr: rest,
                size: all - size,
            },
        )
    }

    /// How many bytes there are, and the piece again.
    pub fn with_size(self) -> (usize, Piece)
        ensures { (result.0 ≡ self.size) × (result.1 ≡ self) }
    {
        let Piece { ptr, size } = self;
        (size, Piece { ptr, size })
    }

    /// An empty list with so many places, which lies in the piece and never asks for other memory.
    fn list<T>(self, places: usize) -> Vec<T, Lodged>
        requires { (places * type_size T.row ≤ self.size) × (places < 2 ^ 63) }
        ensures { (result.items ≡ []) × (vec_capacity result ≡ places) }
    {
        let Piece { ptr, size: _ } = self;
        unsafe { lodge(ptr as *mut T, 0, places) }
    }

    /// An empty list with so many places in the first `size` bytes, which never asks for other memory, and what is
    /// left.
    pub fn split_list<T>(self, places: usize, size: usize) -> (Vec<T, Lodged>, Piece)
        requires cut { IsWhole size × (size ≤ self.size) }
        requires room { (places * type_size T.row ≤ size) × (places < 2 ^ 63) }
        ensures list { (result.0.items ≡ []) × (vec_capacity result.0 ≡ places) }
        ensures rest { size + result.1.size ≡ self.size }
    {
        let (first, rest) = self.cut(size);
        (first.list(places), rest)
    }
}
