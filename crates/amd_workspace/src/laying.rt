// The laying of a workspace: the lists of the neighbours of all rows, one after another from the first word on, each in
// the order in which the walk over the edges meets those of its row. Source: Amestoy, Davis and Duff 2004 (the forming
// of A + A').

ghost use Rattle.std.specs.Prelude.{◌≡◌, ◌<◌, ◌≤◌, ◌+◌, ◌∷◌, [], ℕ, List, pos, map, length, slice_index, slice_set};
ghost use Rattle.std.specs.Vec.{vec_capacity};
ghost use Rattle.amd_model.specs.Input.Columns.{IsColumnForm, IsSorted};
ghost use Rattle.amd_model.specs.Input.Pattern.{is_pair};
ghost use Rattle.amd_types.specs.Naturals.{naturals};
ghost use Rattle.amd_model.specs.Below.{sum_below};
ghost use Rattle.amd_model.specs.Quotient.{starting_list};
ghost use Rattle.amd_lists.specs.Layout.{list_in};
ghost use Rattle.amd_words.specs.Words.{num};
ghost use Rattle.amd_workspace.specs.Laying.{IsLaidOut, Lays, Starts};
ghost use Rattle.amd_workspace.specs.Lists.{HasRoomBeside, KeepsWords};
ghost use Rattle.amd_workspace.specs.Lower.{AreNeighbourCounts, HoldsLists, IsReadyForLists, own_start};

use crate::copying::copy_symmetric;
use crate::lists::{Memory, Words};
use crate::lower::{is_lower, push_rows, row_lists};
use crate::sampling::are_short;
use amd_edges::walk::{Visitor, walk, walk_lower};
use amd_types::index::Index;
use amd_words::words::put_row;
use amd_words::{Cell, Signed, Unsigned, Word, cell_at, cell_of, put_cell, word_of};
use std::alloc::Allocator;
use std::mem::replace;

/// Writes a word behind the list of row `i`.
pub fn append<S: Signed, U: Unsigned>(next: &mut [Cell<U>], iw: &mut [Word<S>], i: usize, j: usize)
    requires inside { (i < length next.old) × (num next.old i < length iw.old) }
    requires fits { (j ≤ S.MOST) × (length iw.old ≤ U.MOST) }
    ensures ends { next.new ≡ slice_set next.old i (num next.old i + 1) }
    ensures words { iw.new ≡ slice_set iw.old (num next.old i) (pos j) }
{
    let place = cell_at(next, i);
    put_row(iw, place, j);
    put_cell(next, i, place + 1);
}

impl<S: Signed, U: Unsigned, A: Allocator> Visitor for Words<S, U, A> {
    ghost holds = { λ g seen arcs l. Lays g seen arcs S.MOST U.MOST l.next.items l.iw.items };

    // The mark is the place behind the last word of the list of the row.
    ghost runs = { λ g seen arcs j mark l. Lays g seen arcs S.MOST U.MOST (slice_set l.next.items j mark) l.iw.items ×
        (mark ≤ U.MOST) };

    ghost room = { λ l. length l.iw.items ∷ vec_capacity l.next ∷ vec_capacity l.iw ∷ [] };

    fn arc(&mut self, i: usize, j: usize) {
        append(&mut self.next, &mut self.iw, i, j);
    }

    fn begin(&self, j: usize) -> usize {
        cell_at(&self.next, j)
    }

    fn edge(&mut self, i: usize, j: usize, mark: usize) -> usize {
        append(&mut self.next, &mut self.iw, i, j);
        put_row(&mut self.iw, mark, i);
        mark + 1
    }

    fn end(&mut self, j: usize, mark: usize) {
        put_cell(&mut self.next, j, mark);
    }
}

/// Writes where the list of each row starts, once for the record and once for the walk. Answers where the last one
/// ends.
fn starts<P: Signed, U: Unsigned, A: Allocator + Copy>(
    pe: &mut Vec<Word<P>, A>,
    next: &mut Vec<Cell<U>, A>,
    degrees: &[Cell<U>],
) -> usize
    requires empty { (length pe.old.items ≡ 0) × (length next.old.items ≡ 0) }
    requires room { (length degrees.now ≤ vec_capacity pe.old) × (length degrees.now ≤ vec_capacity next.old) }
    requires fits { (sum_below (length degrees.now) (num degrees.now) ≤ P.MOST) ×
        (sum_below (length degrees.now) (num degrees.now) ≤ U.MOST) }
    ensures total { result ≡ sum_below (length degrees.now) (num degrees.now) }
    ensures starts { Starts degrees.now pe.new.items next.new.items }
    ensures capacity { (vec_capacity pe.new ≡ vec_capacity pe.old) × (vec_capacity next.new ≡ vec_capacity next.old) }
{
    // Both are taken out of their places while they are filled, as in `filling`.
    let alloc = *pe.allocator();
    let mut places = replace(pe, Vec::new(alloc));
    let mut ends = replace(next, Vec::new(alloc));
    let mut total = 0;
    'rows: for row in 0..degrees.len() {
        places.push_reserved(word_of(total as isize));
        ends.push_reserved(cell_of(total));
        total += cell_at(degrees, row);
    }
    *pe = places;
    *next = ends;
    total
}

/// Lays the lists of a pattern of `size` rows, one of any kind, where the words are empty and have room for `room` of
/// them. Those of a symmetric pattern are copied from its columns; those of any other one are written by a walk over
/// the edges. Each number of `next` is where the list of its row starts, and `pointers` is empty and has room for a
/// pointer of each column. The words behind the lists name rows: `size` of them behind those that were copied, and all
/// that there is room for behind those of a walk.
fn general_lists<I: Index, S: Signed, U: Unsigned, A: Allocator + Copy>(
    size: usize,
    a_p: &[I],
    a_i: &[I],
    degrees: &[Cell<U>],
    room: usize,
    words: &mut Words<S, U, A>,
    pointers: &mut Vec<Cell<U>, A>,
)
    requires form { IsColumnForm (pos size) size (map I.value a_p.now) (map I.value a_i.now) }
    requires sorted { IsSorted size (map I.value a_p.now) (map I.value a_i.now) }
    requires some { 0 < size }
    requires degrees { AreNeighbourCounts size (map I.value a_p.now) (map I.value a_i.now) degrees.now }
    requires room { own_start size (map I.value a_p.now) (map I.value a_i.now) size + size ≤ room }
    requires fits { (size ≤ S.MOST) × (room ≤ U.MOST) ×
        (slice_index (naturals (map I.value a_p.now)) size ≤ U.MOST) }
    requires capacity { room ≤ vec_capacity words.old.iw }
    requires empty { (length words.old.iw.items ≡ 0) × (length pointers.old.items ≡ 0) }
    requires wide { size ≤ vec_capacity pointers.old }
    requires long { length words.old.next.items ≡ size }
    requires starts { (i : ℕ) → i < size →
        num words.old.next.items i ≡ own_start size (map I.value a_p.now) (map I.value a_i.now) i }
    ensures long { (own_start size (map I.value a_p.now) (map I.value a_i.now) size + size ≤
        length words.new.iw.items) × (length words.new.iw.items ≤ room) }
    ensures capacity { KeepsWords words.old words.new }
    ensures pointers { vec_capacity pointers.old ≤ vec_capacity pointers.new }
    ensures lists { HoldsLists size (map I.value a_p.now) (map I.value a_i.now) degrees.now words.new.iw.items }
{
    // The words are taken out of their place while they are written, as in `filling`.
    let alloc = *words.iw.allocator();
    let none = Words {
        next: Vec::new(alloc),
        iw: Vec::new(alloc),
    };
    let mut own = replace(words, none);
    let copied = copy_symmetric(size, a_p, a_i, degrees, &mut own.iw);
    // Each word names a row. It is not 0: a loop of stores is faster here than the `memset` that zeros would become.
    if copied {
        push_rows(&mut own.iw, size - 1, size);
        *words = own;
        return;
    }
    let rest = room - own.iw.len();
    push_rows(&mut own.iw, size - 1, rest);
    let _ = walk(size, a_p, a_i, pointers, &mut own);
    *words = own;
}

/// Lays the lists of a pattern of `size` rows that has no entry above the diagonal, entry by entry, over `fill` words
/// that are written before and name rows. What `next` is afterwards is not said.
fn entry_lists<I: Index, S: Signed, U: Unsigned, A: Allocator + Copy>(
    size: usize,
    a_p: &[I],
    a_i: &[I],
    fill: usize,
    words: &mut Words<S, U, A>,
)
    requires ready { IsReadyForLists size (map I.value a_p.now) (map I.value a_i.now) fill S.MOST U.MOST
        (vec_capacity words.old.iw) words.old.next.items words.old.iw.items }
    ensures long { length words.new.iw.items ≡ fill }
    ensures capacity { KeepsWords words.old words.new }
    ensures lists { (degrees : List ℕ) →
        AreNeighbourCounts size (map I.value a_p.now) (map I.value a_i.now) degrees →
        HoldsLists size (map I.value a_p.now) (map I.value a_i.now) degrees words.new.iw.items }
{
    // The words are taken out of their place while they are written, as in `filling`.
    let alloc = *words.iw.allocator();
    let none = Words {
        next: Vec::new(alloc),
        iw: Vec::new(alloc),
    };
    let mut own = replace(words, none);
    push_rows(&mut own.iw, size - 1, fill);
    walk_lower(size, a_p, a_i, &mut own);
    *words = own;
}

/// Lays the lists of a pattern of `size` rows that has no entry above the diagonal, `free` words in all, in `room`
/// words at most: entry by entry, or where that takes longer row by row. What `next` is afterwards is not said. `heads`
/// is empty and has room for a number of each column. Behind the lists stand `size` words or more that name rows.
fn lower_lists<I: Index, S: Signed, U: Unsigned, A: Allocator + Copy>(
    size: usize,
    a_p: &[I],
    a_i: &[I],
    degrees: &[Cell<U>],
    free: usize,
    room: usize,
    words: &mut Words<S, U, A>,
    heads: &mut Vec<Cell<U>, A>,
)
    requires free { free ≡ own_start size (map I.value a_p.now) (map I.value a_i.now) size }
    requires ready { IsReadyForLists size (map I.value a_p.now) (map I.value a_i.now) room S.MOST U.MOST
        (vec_capacity words.old.iw) words.old.next.items words.old.iw.items }
    requires degrees { AreNeighbourCounts size (map I.value a_p.now) (map I.value a_i.now) degrees.now }
    requires heads { (length heads.old.items ≡ 0) × (size ≤ vec_capacity heads.old) }
    ensures long { (free + size ≤ length words.new.iw.items) × (length words.new.iw.items ≤ room) }
    ensures capacity { KeepsWords words.old words.new }
    ensures heads { vec_capacity heads.old ≤ vec_capacity heads.new }
    ensures lists { HoldsLists size (map I.value a_p.now) (map I.value a_i.now) degrees.now words.new.iw.items }
{
    if are_short(size, a_p, a_i, free) {
        // In sparse patterns nearly all of the room is used soon.
        let fill = if free / 8 <= size { room } else { free + size };
        entry_lists(size, a_p, a_i, fill, words);
        return;
    }
    row_lists(size, a_p, a_i, degrees, room, words, heads);
}

/// Lays the lists of the neighbours of each of `size` rows, whose degrees stand in `len`, in `room` words at most.
/// Answers where the last one ends. Those of a pattern that has no entry above the diagonal are written by
/// `lower_lists`, all others by `general_lists`. Behind the lists stand `size` words or more that name rows; the rest
/// of the room is not written. What the memory held before, but for the degrees, is not read; it has room for `size`
/// rows and `room` words, where none is needed for the numbers of rows and of elements, and keeps it. The lists of
/// these stay as they are.
pub fn lay<I: Index, S: Signed, P: Signed, U: Unsigned, A: Allocator + Copy>(
    size: usize,
    a_p: &[I],
    a_i: &[I],
    room: usize,
    memory: &mut Memory<S, P, U, A>,
) -> usize
    requires form { IsColumnForm (pos size) size (map I.value a_p.now) (map I.value a_i.now) }
    requires sorted { IsSorted size (map I.value a_p.now) (map I.value a_i.now) }
    requires some { 0 < size }
    requires degrees { AreNeighbourCounts size (map I.value a_p.now) (map I.value a_i.now) memory.old.len.items }
    requires words { own_start size (map I.value a_p.now) (map I.value a_i.now) size + size ≤ room }
    requires fits { (size ≤ S.MOST) × (room ≤ P.MOST) × (room ≤ U.MOST) ×
        (slice_index (naturals (map I.value a_p.now)) size ≤ U.MOST) }
    requires room { HasRoomBeside size room memory.old }
    ensures laid { IsLaidOut size memory.new.words.iw.items memory.new.pe.items memory.new.len.items result }
    ensures long { (result + size ≤ length memory.new.words.iw.items) × (length memory.new.words.iw.items ≤ room) }
    ensures free { result ≡ own_start size (map I.value a_p.now) (map I.value a_i.now) size }
    ensures degrees { memory.new.len.items ≡ memory.old.len.items }
    ensures lists { (i : ℕ) → i < size →
        list_in memory.new.words.iw.items memory.new.pe.items memory.new.len.items i ≡ starting_list size
        (is_pair size (map I.value a_p.now) (map I.value a_i.now)) i }
    ensures room { (n words : ℕ) → HasRoomBeside n words memory.old → HasRoomBeside n words memory.new }
    ensures aside { (memory.new.nv ≡ memory.old.nv) × (memory.new.e_len ≡ memory.old.e_len) }
{
    memory.pe.clear();
    memory.words.next.clear();
    memory.words.iw.clear();
    memory.lists.w.clear();
    let free = starts(&mut memory.pe, &mut memory.words.next, &memory.len);
    let pointers = &mut memory.lists.w;
    if is_lower(size, a_p, a_i) {
        lower_lists(
            size,
            a_p,
            a_i,
            &memory.len,
            free,
            room,
            &mut memory.words,
            pointers,
        );
    } else {
        general_lists(
            size,
            a_p,
            a_i,
            &memory.len,
            room,
            &mut memory.words,
            pointers,
        );
    }
    free
}
