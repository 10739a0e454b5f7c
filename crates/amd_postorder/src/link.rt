// Links between nodes: lists of numbers, each of which names a node or none. Two kinds of numbers serve: signed ones,
// of which those below 0 name none, and the figures of a workspace, of which the greatest one names none.

ghost use Rattle.std.specs.Prelude.{◌≡◌, ◌<◌, ℕ, ℤ, List, IfSome, length, negsuc, pos, slice_set};
ghost use Rattle.amd_model.specs.Input.Columns.{at};
ghost use Rattle.amd_types.specs.Links.{named};
ghost use Rattle.amd_postorder.specs.CellLinks.{figure_links};

use amd_types::internal;
use amd_words::{Cell, Unsigned, cell_at, put_cell};

/// A number that names a node or none.
pub trait Link: Drop {
    // What a list of links says: the place that each of them names, a negative number for none.
    ghost read: { List Self → List ℤ };

    // Each number below it can be named.
    ghost reach: { ℕ };

    /// The node that the link at a place names, if it names one.
    fn link_at(links: &[Self], place: usize) -> Option<usize>
        requires { place < length links.now }
        ensures is { result ≡ named (at (read links.now) place) }
        ensures small { IfSome result (λ to. to < reach) };

    /// Makes the link at a place name a node.
    fn set_link(links: &mut [Self], place: usize, to: usize)
        requires within { place < length links.old }
        requires fits { to < reach }
        ensures { read links.new ≡ slice_set (read links.old) place (pos to) };

    /// Makes the link at a place the same as one of another list.
    fn copy_link(links: &mut [Self], place: usize, from: &[Self], other: usize)
        requires within { place < length links.old }
        requires other_within { other < length from.now }
        ensures { read links.new ≡ slice_set (read links.old) place (at (read from.now) other) };

    /// Makes the link at a place name none.
    fn clear_link(links: &mut [Self], place: usize)
        requires { place < length links.old }
        ensures { read links.new ≡ slice_set (read links.old) place (negsuc 0) };

    // A list says as much as it has links.
    ghost read_room: { (links : List Self) → length (read links) ≡ length links };
}

impl Link for isize {
    ghost read = { λ links. links };

    ghost reach = { 9223372036854775808 };

    #[inline]
    fn link_at(links: &[isize], place: usize) -> Option<usize> {
        let number = links[place];
        if number >= 0 {
            Some(number as usize)
        } else {
            None
        }
    }

    #[inline]
    fn set_link(links: &mut [isize], place: usize, to: usize) {
        internal::set_link(links, place, to);
    }

    #[inline]
    fn copy_link(links: &mut [isize], place: usize, from: &[isize], other: usize) {
        internal::copy_link(links, place, from, other);
    }

    #[inline]
    fn clear_link(links: &mut [isize], place: usize) {
        links[place] = internal::EMPTY;
    }

    ghost use Rattle.std.proofs.Common.{rules};

    ghost read_room = { Prim.search rules };
}

impl<U: Unsigned> Link for Cell<U> {
    ghost read = { λ links. figure_links U.MOST links };

    ghost reach = { U.MOST };

    #[inline]
    fn link_at(links: &[Cell<U>], place: usize) -> Option<usize> {
        let number = cell_at(links, place);
        if number < U::MOST { Some(number) } else { None }
    }

    #[inline]
    fn set_link(links: &mut [Cell<U>], place: usize, to: usize) {
        put_cell(links, place, to);
    }

    #[inline]
    fn copy_link(links: &mut [Cell<U>], place: usize, from: &[Cell<U>], other: usize) {
        put_cell(links, place, cell_at(from, other));
    }

    #[inline]
    fn clear_link(links: &mut [Cell<U>], place: usize) {
        put_cell(links, place, U::MOST);
    }

    ghost use Rattle.std.proofs.lemmas.List.{length-map};
    ghost use Rattle.amd_postorder.specs.CellLinks.{figure_link};

    ghost read_room = { λ links. length-map links (figure_link U.MOST) };
}
