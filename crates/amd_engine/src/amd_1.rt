// The engine in place: the lists of the neighbours are laid in one workspace, whose words have 32 bits where that is
// wide enough, and the rows are eliminated in it. Source: Amestoy, Davis and Duff 1996 and 2004.

ghost use Rattle.std.specs.Prelude.{◌≡◌, ◌<◌, ◌≤◌, ◌+◌, ◌^◌, ◌↔◌, ℕ, IsTrue, pos, map, length};
ghost use Rattle.std.specs.Prelude.{slice_index, IfOk, IfErr, OnOk};
ghost use Rattle.std.specs.Option.{option_copied};
ghost use Rattle.std.specs.Vec.{vec_capacity};
ghost use Rattle.amd_model.specs.Input.Columns.{IsColumnForm, IsSorted};
ghost use Rattle.amd_model.specs.Input.Held.{HasMarks};
ghost use Rattle.amd_model.specs.Input.Pattern.{graph_of};
ghost use Rattle.amd_edges.specs.Visits.{AreCounts, start_of};
ghost use Rattle.amd_engine_law.specs.Engine.{IsEngineAnswer};
ghost use Rattle.amd_lists.specs.Sizes.{AreWideEnough};
ghost use Rattle.amd_types.specs.Naturals.{naturals};
ghost use Rattle.amd_engine.specs.InPlace.{AnswersLaid, CanRun, KeepsLaid, rows_in, told_info};
ghost use Rattle.amd_engine.specs.InPlace.{values};
ghost use Rattle.amd_workspace.specs.Lists.{HasRoom, HasRoomBeside};
ghost use Rattle.amd_workspace.specs.Lower.{AreNeighbourCounts, own_start};

use crate::ended::{finish, list_rows};
use crate::fresh::{fill_lists, memory_for, room_for};
use crate::rows::{Choice, Laid};
use crate::running::{Told, run_growing};
use amd_lending::{clear, lend_narrow};
use amd_types::amd::{Control, Info, Status};
use amd_types::dense::dense_threshold;
use amd_types::index::Index;
use amd_types::internal::count_at;
use amd_words::sides::Sides;
use amd_words::{Cell, Signed, Unsigned, Word};
use amd_workspace::filling::fill_words;
use amd_workspace::laying::lay;
use amd_workspace::lists::Memory;
use amd_workspace::rows::RowLists;
use std::alloc::{AllocError, Allocator};
use std::mem::replace;

/// Whether words, places and cells of these widths hold all numbers of an elimination of `n` rows in `iwlen` words from
/// flag `flag` on.
///
/// They do where `n + 2` is at most the maximum of a word, `iwlen` that of a place, `n + 2`, `iwlen` and `flag` that of
/// a cell, and a place holds any word. `n` is below 2^63; any `iwlen` and `flag` are allowed.
pub fn holds<S: Signed, P: Signed, U: Unsigned>(n: usize, iwlen: usize, flag: usize) -> bool
    requires { n < 2 ^ 63 }
    ensures { IsTrue result ↔ (AreWideEnough S.MOST P.MOST U.MOST n iwlen × (flag ≤ U.MOST)) }
{
    iwlen <= P::MOST
        && iwlen <= U::MOST
        && n + 2 <= S::MOST
        && n + 2 <= U::MOST
        && S::MOST <= P::MOST
        && flag <= U::MOST
}

/// The largest block, in words of 32 bits, whose return tells the allocator of glibc how much to keep: 32 MB, but for
/// its own head.
const GREATEST_MEASURE: usize = 8_380_000;

/// So many words of 32 bits are the most of an ordering whose memory that allocator keeps: 64 MB, but for the degrees
/// and for results of 64 bits.
const GREATEST_KEPT: usize = 14_400_000;

/// Asks for two blocks of so many words of 32 bits at a time, and gives them back.
///
/// # Errors
///
/// A refused request for memory.
fn ask_for_two<A: Allocator + Copy>(alloc: A, words: usize) -> Result<(), AllocError> {
    let _first: Vec<Word<i32>, A> = Vec::with_capacity(alloc, words)?;
    let _second: Vec<Word<i32>, A> = Vec::with_capacity(alloc, words)?;
    Ok(())
}

/// Asks for most of the memory that an ordering of `n` rows, with so many words for each row and `iwlen` others, takes
/// beside its input and its result, but for no more than 32 MB, and gives it back at once. A word has 32 bits.
///
/// An allocator may keep as much free memory as twice the largest block that it was given back, and return the rest to
/// the system, as that of glibc does. Below that limit no list of an ordering is as large; so without this request each
/// ordering would take all its pages from the system anew.
///
/// A workspace above that limit is taken from free memory only where that is in one piece. So where an ordering with
/// such a workspace takes no more than is kept, its memory is asked for once more, in two blocks below the limit, which
/// become one piece when they are given back.
///
/// # Errors
///
/// A refused request for memory.
pub fn ask_for_most<A: Allocator + Copy>(
    alloc: A,
    n: usize,
    words: usize,
    iwlen: usize,
) -> Result<(), AllocError> {
    let most = n.saturating_mul(words).saturating_add(iwlen);
    let _: Vec<Word<i32>, A> = Vec::with_capacity(alloc, most.min(GREATEST_MEASURE))?;
    if iwlen > GREATEST_MEASURE && most.saturating_add(n.saturating_mul(2)) <= GREATEST_KEPT {
        ask_for_two(alloc, most / 2)?;
    }
    Ok(())
}

/// Runs in lists that are laid, with words in a vector, and lists the rows: `head` then has the permutation, and `w`
/// its inverse. The lists are lent one by one: of a vector that is lent in a field nothing would be known afterwards.
fn order_lent<S: Signed, P: Signed, U: Unsigned, A: Allocator>(
    iw: &mut Vec<Word<S>, A>,
    laid: &mut Laid<'_, '_, '_, '_, P, U>,
    e_len: &mut [Word<P>],
    nv: &mut [Word<S>],
    w: &mut [Cell<U>],
    head: &mut [Cell<U>],
    sides: &mut [Sides<U>],
    hash: &mut [Cell<U>],
) -> Told
    requires can { CanRun {S = S} iw.old.items laid.old.free (rows_in laid.old e_len nv w head sides hash) }
    requires some { 0 < length laid.old.len.now }
    requires narrow { AreWideEnough S.MOST P.MOST U.MOST (length laid.old.len.now) laid.old.room }
    requires room { (length iw.old.items ≤ laid.old.room) × (laid.old.room ≤ vec_capacity iw.old) }
    requires marks { HasMarks (option_copied laid.old.choice.now.hold) (length laid.old.len.now) }
    requires flag { 2 ≤ laid.old.choice.now.flag }
    ensures orders { AnswersLaid iw.old.items laid.old (record {
      p = map pos head.new;
      q = map pos w.new;
      nv = nv.new;
      e_len = e_len.new;
      pe = laid.new.pe.now;
    }) result }
    ensures packs { result.n_cmp_a ≤ length laid.old.len.now }
    ensures unpacked { length iw.new.items < laid.old.room → result.n_cmp_a ≡ 0 }
    ensures capacity { vec_capacity iw.new ≡ vec_capacity iw.old }
    ensures loans { KeepsLaid laid.old laid.new }
{
    let threshold = dense_threshold(laid.len.len(), laid.choice.control);
    let mut rows = RowLists {
        pe: laid.pe,
        len: laid.len,
        e_len,
        nv,
        degree: laid.degree,
        w,
        head,
        sides,
        hash,
    };
    let told = run_growing(iw, &mut rows, laid.free, laid.room, threshold, laid.choice);
    list_rows(&mut rows);
    told
}

/// Lays the lists of a matrix with sorted columns in memory that was asked for before, eliminates its rows in them, and
/// lists the rows: `head` then has the permutation, and `w` its inverse. `nv` and `e_len` have a place for each row;
/// what they hold is not read, and the numbers of rows and the fronts stand in them afterwards. The lists of these
/// names in the memory are not used. The rest is as `order_within` says.
fn eliminate_within<J: Index, S: Signed, P: Signed, U: Unsigned, A: Allocator + Copy>(
    memory: &mut Memory<S, P, U, A>,
    nv: &mut [Word<S>],
    e_len: &mut [Word<P>],
    a_p: &[J],
    a_i: &[J],
    room: usize,
    choice: &Choice<'_>,
) -> Told
    requires some { 0 < length nv.old }
    requires form { IsColumnForm (pos (length nv.old)) (length nv.old) (map J.value a_p.now) (map J.value a_i.now) }
    requires sorted { IsSorted (length nv.old) (map J.value a_p.now) (map J.value a_i.now) }
    requires degrees { AreNeighbourCounts (length nv.old) (map J.value a_p.now) (map J.value a_i.now)
        memory.old.len.items }
    requires words { own_start (length nv.old) (map J.value a_p.now) (map J.value a_i.now) (length nv.old)
        + length nv.old ≤ room }
    requires room { HasRoomBeside (length nv.old) room memory.old }
    requires narrow { AreWideEnough S.MOST P.MOST U.MOST (length nv.old) room }
    requires pointers { slice_index (naturals (map J.value a_p.now)) (length nv.old) ≤ U.MOST }
    requires marks { HasMarks (option_copied choice.now.hold) (length nv.old) }
    requires flag { 2 ≤ choice.now.flag }
    requires counts { length e_len.old ≡ length nv.old }
    ensures orders { (info : Info) → IsEngineAnswer (option_copied choice.now.hold) (length nv.old)
        choice.now.control.now (map J.value a_p.now) (map J.value a_i.now) (map pos memory.new.lists.head.items)
        (map pos memory.new.lists.w.items) info (told_info result info) }
    ensures long { length memory.new.lists.head.items ≡ length nv.old }
    ensures packs { result.n_cmp_a ≤ length nv.old }
    ensures room { (n count : ℕ) → HasRoomBeside n count memory.old → HasRoomBeside n count memory.new }
    ensures aside { (memory.new.nv ≡ memory.old.nv) × (memory.new.e_len ≡ memory.old.e_len) }
{
    let size = nv.len();
    let free = lay(size, a_p, a_i, room, memory);
    fill_lists(size, &mut memory.words.next, &mut memory.lists);
    let alloc = *memory.pe.allocator();
    let mut pe = replace(&mut memory.pe, Vec::new(alloc));
    let mut len = replace(&mut memory.len, Vec::new(alloc));
    let mut degree = replace(&mut memory.words.next, Vec::new(alloc));
    let mut laid = Laid {
        pe: &mut pe,
        len: &mut len,
        degree: &mut degree,
        free,
        room,
        choice,
    };
    let told = order_lent(
        &mut memory.words.iw,
        &mut laid,
        e_len,
        nv,
        &mut memory.lists.w,
        &mut memory.lists.head,
        &mut memory.lists.sides,
        &mut memory.lists.hash,
    );
    memory.pe = pe;
    memory.len = len;
    memory.words.next = degree;
    told
}

/// Orders the rows of a matrix with sorted columns by elimination in at most `room` words of memory that was asked for
/// before. It asks for none, and so nothing can be refused.
///
/// The input is a column form with `n` rows and columns, at least one, each strictly ascending. The memory has the
/// degree of each row in `len`, and room for `n` rows and `room` words; what its other lists hold is not read.
/// `room` is at least the sum of the degrees plus `n`. The widths hold an elimination of `n` rows in `room` words, and
/// a cell holds each pointer. The rows that are marked in `choice`, where it has a mark for each row, are held last
/// beside the dense ones. The permutation may be of another type than the input.
///
/// Writes the permutation into `p` and its inverse into `p_inv`, which have `n` places, and of `info` the number of
/// rows held last, the figures of the fronts, and how often the workspace was compacted, at most `n` times. The memory
/// keeps its room.
///
/// Source: Amestoy, Davis and Duff 1996 and 2004.
pub fn order_within<I: Index, J: Index, S: Signed, P: Signed, U: Unsigned, A: Allocator + Copy>(
    memory: &mut Memory<S, P, U, A>,
    a_p: &[J],
    a_i: &[J],
    room: usize,
    choice: &Choice<'_>,
    p: &mut [I],
    p_inv: &mut [I],
    info: &mut Info,
)
    requires places { length p_inv.old ≡ length p.old }
    requires some { 0 < length p.old }
    requires fits { (k : ℕ) → k < length p.old → I.fits (pos k) }
    requires form { IsColumnForm (pos (length p.old)) (length p.old) (map J.value a_p.now) (map J.value a_i.now) }
    requires sorted { IsSorted (length p.old) (map J.value a_p.now) (map J.value a_i.now) }
    requires degrees { AreNeighbourCounts (length p.old) (map J.value a_p.now) (map J.value a_i.now)
        memory.old.len.items }
    requires words { own_start (length p.old) (map J.value a_p.now) (map J.value a_i.now) (length p.old) + length p.old
        ≤ room }
    requires room { HasRoom (length p.old) room memory.old }
    requires narrow { AreWideEnough S.MOST P.MOST U.MOST (length p.old) room }
    requires pointers { slice_index (naturals (map J.value a_p.now)) (length p.old) ≤ U.MOST }
    requires marks { HasMarks (option_copied choice.now.hold) (length p.old) }
    requires flag { 2 ≤ choice.now.flag }
    ensures orders { IsEngineAnswer (option_copied choice.now.hold) (length p.old) choice.now.control.now
        (map J.value a_p.now) (map J.value a_i.now) (map I.value p.new) (map I.value p_inv.new) info.old info.new }
    ensures compactions { info.new.n_cmp_a ≤ length p.old }
    ensures room { (n count : ℕ) → HasRoom n count memory.old → HasRoom n count memory.new }
{
    let size = p.len();
    // They are taken out of their places: they are lent beside the rest of the memory.
    let alloc = *memory.nv.allocator();
    let mut nv = replace(&mut memory.nv, Vec::new(alloc));
    let mut e_len = replace(&mut memory.e_len, Vec::new(alloc));
    let first = size as isize;
    fill_words(&mut nv, size, first);
    fill_words(&mut e_len, size, first);
    let told = eliminate_within(memory, &mut nv, &mut e_len, a_p, a_i, room, choice);
    memory.nv = nv;
    memory.e_len = e_len;
    finish(&told, &memory.lists.head, &memory.lists.w, p, p_inv, info);
}

/// As `order_within`, for a permutation of 32 bits in words of 32 bits: until the permutation and its inverse are
/// written into them, `p` serves as the list of the numbers of rows, and `p_inv` as that of the numbers of elements. So
/// the memory needs room for all other lists alone.
///
/// Source: Amestoy, Davis and Duff 1996 and 2004.
pub fn order_within_lent<J: Index, U: Unsigned, A: Allocator + Copy>(
    memory: &mut Memory<i32, i32, U, A>,
    a_p: &[J],
    a_i: &[J],
    room: usize,
    choice: &Choice<'_>,
    p: &mut [i32],
    p_inv: &mut [i32],
    info: &mut Info,
)
    requires places { length p_inv.old ≡ length p.old }
    requires some { 0 < length p.old }
    requires form { IsColumnForm (pos (length p.old)) (length p.old) (map J.value a_p.now) (map J.value a_i.now) }
    requires sorted { IsSorted (length p.old) (map J.value a_p.now) (map J.value a_i.now) }
    requires degrees { AreNeighbourCounts (length p.old) (map J.value a_p.now) (map J.value a_i.now)
        memory.old.len.items }
    requires words { own_start (length p.old) (map J.value a_p.now) (map J.value a_i.now) (length p.old) + length p.old
        ≤ room }
    requires room { HasRoomBeside (length p.old) room memory.old }
    requires narrow { AreWideEnough 2147483647 2147483647 U.MOST (length p.old) room }
    requires pointers { slice_index (naturals (map J.value a_p.now)) (length p.old) ≤ U.MOST }
    requires marks { HasMarks (option_copied choice.now.hold) (length p.old) }
    requires flag { 2 ≤ choice.now.flag }
    ensures orders { IsEngineAnswer (option_copied choice.now.hold) (length p.old) choice.now.control.now
        (map J.value a_p.now) (map J.value a_i.now) (values p.new) (values p_inv.new) info.old info.new }
    ensures compactions { info.new.n_cmp_a ≤ length p.old }
    ensures room { (n count : ℕ) → HasRoomBeside n count memory.old → HasRoomBeside n count memory.new }
    ensures aside { (memory.new.nv ≡ memory.old.nv) × (memory.new.e_len ≡ memory.old.e_len) }
{
    clear(p);
    clear(p_inv);
    let run = eliminate_within(
        memory,
        lend_narrow(p),
        lend_narrow(p_inv),
        a_p,
        a_i,
        room,
        choice,
    );
    finish(&run, &memory.lists.head, &memory.lists.w, p, p_inv, info);
}

/// As `amd_1`, in words of these widths, and with a first flag of 2 or more: the result is the same with each.
///
/// The arguments and results have the shapes that `amd_1` says. `amd_1` calls it with flag 2, and tests with others, in
/// widths that are wide enough, as `holds` tells.
///
/// # Errors
///
/// `OutOfMemory` where a request was refused. What `info` then holds is not said.
///
/// Source: Amestoy, Davis and Duff 1996 and 2004.
pub fn order_in<I: Index, S: Signed, P: Signed, U: Unsigned, A: Allocator + Copy>(
    alloc: A,
    n: I,
    a_p: &[I],
    a_i: &[I],
    len: &[usize],
    iwlen: usize,
    choice: &Choice<'_>,
    info: &mut Info,
) -> Result<(Vec<I, A>, Vec<I, A>), Status>
    requires fits { I.fits (I.value n) }
    requires size { I.value n ≡ pos (length len.now) }
    requires some { 0 < length len.now }
    requires form { IsColumnForm (pos (length len.now)) (length len.now) (map I.value a_p.now) (map I.value a_i.now) }
    requires sorted { IsSorted (length len.now) (map I.value a_p.now) (map I.value a_i.now) }
    requires degrees { AreCounts (graph_of (length len.now) (map I.value a_p.now) (map I.value a_i.now))
        ((graph_of (length len.now) (map I.value a_p.now) (map I.value a_i.now)).edge) len.now }
    requires room { start_of (graph_of (length len.now) (map I.value a_p.now) (map I.value a_i.now)) (length len.now)
        + length len.now ≤ iwlen }
    requires narrow { AreWideEnough S.MOST P.MOST U.MOST (length len.now) iwlen }
    requires marks { HasMarks (option_copied choice.now.hold) (length len.now) }
    requires flag { 2 ≤ choice.now.flag }
    ensures orders { IfOk result (λ a. IsEngineAnswer (option_copied choice.now.hold) (length len.now)
        choice.now.control.now (map I.value a_p.now) (map I.value a_i.now) (map I.value a.0.items)
        (map I.value a.1.items) info.old info.new) }
    ensures compactions { OnOk result (info.new.n_cmp_a ≤ length len.now) }
    ensures refused { IfErr result (λ e. e ≡ Status.OutOfMemory) }
{
    let size = len.len();
    // No pointer is above `iwlen`, so this is never so.
    if count_at(a_p, size) > U::MOST {
        return Err(Status::OutOfMemory);
    }
    let mut memory: Memory<S, P, U, A> = memory_for(alloc, len, iwlen)?;
    let mut p = room_for(alloc, size)?;
    let mut p_inv = room_for(alloc, size)?;
    order_within(
        &mut memory,
        a_p,
        a_i,
        iwlen,
        choice,
        &mut p,
        &mut p_inv,
        info,
    );
    Ok((p, p_inv))
}

/// Orders the rows of a matrix with sorted columns by elimination in a workspace of `iwlen` words.
///
/// The input is a column form with `n` rows and columns, at least one, each strictly ascending: `valid` tells `OK`.
/// `len` has the degree of each of the `n` rows, and stays as it is. `iwlen` is at least the sum of the degrees plus
/// `n`, and below 2^63. The rows marked in `hold`, which has one mark for each row where it is given, are held last
/// beside the dense ones.
///
/// Returns the permutation `p` and its inverse `p_inv`, which have `n` numbers each: row `p[k]` is at place `k`, and
/// `p_inv[p[k]]` is `k`. Writes of `info` the number of rows held last, the figures of the fronts, and how often the
/// workspace was compacted, at most `n` times.
///
/// # Errors
///
/// `OutOfMemory` where a request was refused, or no width of word holds the numbers, which is so only where
/// `n + 2` exceeds `isize::MAX`: no memory holds the degrees of so many rows. What `info` then holds is not said.
///
/// Source: Amestoy, Davis and Duff 1996 and 2004.
pub fn amd_1<I: Index, A: Allocator + Copy>(
    alloc: A,
    n: I,
    a_p: &[I],
    a_i: &[I],
    len: &mut [usize],
    iwlen: usize,
    control: &Control,
    hold: Option<&[bool]>,
    info: &mut Info,
) -> Result<(Vec<I, A>, Vec<I, A>), Status>
    requires fits { I.fits (I.value n) }
    requires size { I.value n ≡ pos (length len.old) }
    requires some { 0 < length len.old }
    requires form { IsColumnForm (pos (length len.old)) (length len.old) (map I.value a_p.now) (map I.value a_i.now) }
    requires sorted { IsSorted (length len.old) (map I.value a_p.now) (map I.value a_i.now) }
    requires degrees { AreCounts (graph_of (length len.old) (map I.value a_p.now) (map I.value a_i.now))
        ((graph_of (length len.old) (map I.value a_p.now) (map I.value a_i.now)).edge) len.old }
    requires room { (start_of (graph_of (length len.old) (map I.value a_p.now) (map I.value a_i.now)) (length len.old)
        + length len.old ≤ iwlen) × (iwlen < 2 ^ 63) }
    requires marks { HasMarks (option_copied hold) (length len.old) }
    ensures orders { IfOk result (λ a. IsEngineAnswer (option_copied hold.entry) (length len.old) control.now
        (map I.value a_p.now) (map I.value a_i.now) (map I.value a.0.items) (map I.value a.1.items) info.old info.new) }
    ensures compactions { OnOk result (info.new.n_cmp_a ≤ length len.old) }
    ensures refused { IfErr result (λ e. e ≡ Status.OutOfMemory) }
    ensures degrees { len.new ≡ len.old }
{
    let size = len.len();
    let choice = Choice {
        control,
        hold,
        flag: 2,
    };
    ask_for_most(alloc, size, 9, iwlen)?;
    if holds::<i32, i32, u32>(size, iwlen, 2) {
        return order_in::<I, i32, i32, u32, A>(alloc, n, a_p, a_i, len, iwlen, &choice, info);
    }
    if holds::<i32, isize, u32>(size, iwlen, 2) {
        return order_in::<I, i32, isize, u32, A>(alloc, n, a_p, a_i, len, iwlen, &choice, info);
    }
    if holds::<i32, isize, usize>(size, iwlen, 2) {
        return order_in::<I, i32, isize, usize, A>(alloc, n, a_p, a_i, len, iwlen, &choice, info);
    }
    if holds::<isize, isize, usize>(size, iwlen, 2) {
        return order_in::<I, isize, isize, usize, A>(alloc, n, a_p, a_i, len, iwlen, &choice, info);
    }
    Err(Status::OutOfMemory)
}
