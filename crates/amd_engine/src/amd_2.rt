// The elimination of a workspace that is laid and does not grow: its start, its rounds, and the listing at the end. All
// memory is asked for before the first round. Source: Amestoy, Davis and Duff 1996 and 2004.

ghost use Rattle.std.specs.Prelude.{◌≡◌, ◌<◌, ◌≤◌, ◌+◌, ℕ, pos, true, List, None, map, length, IfOk, IfErr, OnOk};
ghost use Rattle.std.specs.Option.{option_copied};
ghost use Rattle.amd_model.specs.Graph.{Graph};
ghost use Rattle.amd_model.specs.Input.Held.{HasMarks};
ghost use Rattle.amd_lending.specs.Views.{raised};
ghost use Rattle.amd_words.specs.Words.{is_place, word};
ghost use Rattle.amd_lists.specs.Sizes.{AreWideEnough};
ghost use Rattle.amd_workspace.specs.Laying.{IsLaidOut};
ghost use Rattle.amd_engine.specs.InPlace.{AnswersInPlace, AnswersLaid, CanRun, KeepsLaid, LaysGraph, rows_in};

use crate::ended::{finish, list_rows};
use crate::fresh::{fill_lists, room_for};
use crate::rows::{Choice, Laid};
use crate::running::{Told, run};
use amd_lending::{lend_cells, lend_words, raise};
use amd_types::amd::{Control, Info, Status};
use amd_types::dense::dense_threshold;
use amd_types::index::Index;
use amd_types::internal::from_count;
use amd_words::sides::Sides;
use amd_words::{Cell, Signed, Unsigned, Word, put_word, row_at, word_at};
use amd_workspace::filling::words;
use amd_workspace::lists::Lists;
use amd_workspace::rows::RowLists;
use std::alloc::{AllocError, Allocator};

/// Runs in lists that are laid, with words in a slice, and lists the rows: `head` then has the permutation, and `w` its
/// inverse. The lists are lent one by one: of a vector that is lent in a field nothing would be known afterwards.
fn eliminate_lent<S: Signed, P: Signed, U: Unsigned>(
    iw: &mut [Word<S>],
    laid: &mut Laid<'_, '_, '_, '_, P, U>,
    head: &mut [Cell<U>],
    w: &mut [Cell<U>],
    nv: &mut [Word<S>],
    e_len: &mut [Word<P>],
    sides: &mut [Sides<U>],
    hash: &mut [Cell<U>],
) -> Told
    requires can { CanRun {S = S} iw.old laid.old.free (rows_in laid.old e_len nv w head sides hash) }
    requires some { 0 < length laid.old.len.now }
    requires narrow { AreWideEnough S.MOST P.MOST U.MOST (length laid.old.len.now) (length iw.old) }
    requires marks { HasMarks (option_copied laid.old.choice.now.hold) (length laid.old.len.now) }
    requires flag { 2 ≤ laid.old.choice.now.flag }
    ensures orders { AnswersLaid iw.old laid.old (record {
      p = map pos head.new;
      q = map pos w.new;
      nv = nv.new;
      e_len = e_len.new;
      pe = laid.new.pe.now;
    }) result }
    ensures packs { result.n_cmp_a ≤ length laid.old.len.now }
    ensures loans { KeepsLaid laid.old laid.new }
{
    let threshold = dense_threshold(laid.len.len(), laid.choice.control);
    let mut rows = RowLists {
        head,
        w,
        nv,
        e_len,
        sides,
        hash,
        pe: laid.pe,
        len: laid.len,
        degree: laid.degree,
    };
    let told = run(iw, &mut rows, laid.free, threshold, laid.choice);
    list_rows(&mut rows);
    told
}

/// As `amd_2`, in words, places and cells of these widths, with marks, and with a first flag of 2 or more: the result
/// is the same with each.
///
/// The arguments and results have the shapes that `amd_2` says, where `iwlen` is the length of `iw`. The widths hold an
/// elimination of `n` rows in `iwlen` words, as `holds` tells. The rows that are marked in `choice`, where it has a
/// mark for each of the `n` rows, are held last beside the dense ones.
///
/// # Errors
///
/// `OutOfMemory` where a request was refused. What `info` then holds is not said.
///
/// Source: Amestoy, Davis and Duff 1996 and 2004.
pub fn amd_2_from<I: Index, S: Signed, P: Signed, U: Unsigned, A: Allocator + Copy>(
    alloc: A,
    n: I,
    pe: &mut [Word<P>],
    iw: &mut [Word<S>],
    len: &mut [Cell<U>],
    pfree: usize,
    choice: &Choice<'_>,
    info: &mut Info,
) -> Result<(Vec<Word<S>, A>, Vec<I, A>, Vec<I, A>, Vec<Word<P>, A>), Status>
    requires fits { I.fits (I.value n) }
    requires size { I.value n ≡ pos (length len.old) }
    requires some { 0 < length len.old }
    requires laid { IsLaidOut (length len.old) iw.old pe.old len.old pfree }
    requires graph { (g : Graph) × (lists : ℕ → List ℕ) × LaysGraph g lists iw.old pe.old len.old }
    requires room { pfree + length len.old ≤ length iw.old }
    requires narrow { AreWideEnough S.MOST P.MOST U.MOST (length len.old) (length iw.old) }
    requires marks { HasMarks (option_copied choice.now.hold) (length len.old) }
    requires flag { 2 ≤ choice.now.flag }
    ensures orders { IfOk result (λ a. (g : Graph) (lists : ℕ → List ℕ) → LaysGraph g lists iw.old pe.old len.old →
        AnswersInPlace g lists (option_copied choice.now.hold) (length len.old) choice.now.control.now (record {
          p = map I.value a.2.items;
          q = map I.value a.1.items;
          nv = a.0.items;
          e_len = a.3.items;
          pe = pe.new;
        }) info.old info.new) }
    ensures compactions { OnOk result (info.new.n_cmp_a ≤ length len.old) }
    ensures refused { IfErr result (λ e. e ≡ Status.OutOfMemory) }
{
    let size = len.len();
    let mut degree = Vec::with_capacity(alloc, size)?;
    let mut nv = words(alloc, size, size as isize)?;
    let mut fronts = words(alloc, size, size as isize)?;
    let mut lists = Lists::with_room(alloc, size)?;
    let mut p = room_for(alloc, size)?;
    let mut p_inv = room_for(alloc, size)?;
    fill_lists(size, &mut degree, &mut lists);
    let mut laid = Laid {
        pe,
        len,
        degree: &mut degree,
        free: pfree,
        room: size,
        choice,
    };
    let told = eliminate_lent(
        iw,
        &mut laid,
        &mut lists.head,
        &mut lists.w,
        &mut nv,
        &mut fronts,
        &mut lists.sides,
        &mut lists.hash,
    );
    finish(&told, &lists.head, &lists.w, &mut p, &mut p_inv, info);
    Ok((nv, p_inv, p, fronts))
}

/// Room for `count` numbers of 64 bits.
///
/// # Errors
///
/// `AllocError` where the request for memory was refused.
fn numbers_for<A: Allocator>(alloc: A, count: usize) -> Result<Vec<isize, A>, AllocError>
    ensures { IfOk result (λ v. length v.items ≡ count) }
{
    vec![in alloc; 0; count]
}

/// Writes the numbers of words.
fn write_words(words: &[Word<isize>], numbers: &mut [isize])
    requires room { length numbers.old ≡ length words.now }
    ensures { numbers.new ≡ words.now }
{
    'words: for k in 0..words.len() {
        numbers[k] = word_at(words, k);
    }
}

/// Copies numbers into words, the least `isize` raised by 1, since no word holds it.
fn copy_raised(numbers: &[isize], words: &mut [Word<isize>])
    requires room { length words.old ≡ length numbers.now }
    ensures { words.new ≡ map raised numbers.now }
{
    'words: for k in 0..numbers.len() {
        let number = numbers[k].max(-isize::MAX);
        put_word(words, k, number);
    }
}

/// Writes counts of rows as numbers of the caller's type.
fn write_counts<I: Index>(words: &[Word<isize>], numbers: &mut [I])
    requires room { length numbers.old ≡ length words.now }
    requires counts { (k : ℕ) → k < length words.now → is_place (word words.now k) ≡ true }
    requires fits { (k : ℕ) → k < length words.now → I.fits (word words.now k) }
    ensures { map I.value numbers.new ≡ words.now }
{
    'words: for k in 0..words.len() {
        let Some(number) = from_count(row_at(words, k)) else {
            unreachable!()
        };
        numbers[k] = number;
    }
}

/// Eliminates the rows of a workspace in which the lists of the neighbours are laid, and lists them.
///
/// `pe` and `len` have `n` places, at least one, and `iw` has `iwlen` words. The list of row `i` has `len[i]` words
/// from `pe[i]` on: its neighbours. The lists fill the first `pfree` words of `iw`, and `pfree + n <= iwlen`; behind
/// them any numbers are allowed. What `iw` and `len` hold afterwards is not said. `pe` then has the parent of each
/// element in the assembly tree, or -1, and links that lead each other eliminated row to its element.
///
/// Returns four lists of `n` numbers: the number of rows of the block of each element, and 0 for what is none; the
/// inverse of the permutation; the permutation; and the number of rows of the front of each element, and -1 for what is
/// none. Writes of `info` the number of rows held last, the figures of the fronts, and how often the workspace was
/// compacted, at most `n` times.
///
/// # Errors
///
/// `OutOfMemory` where a request was refused. What `info` then holds is not said.
///
/// Source: Amestoy, Davis and Duff 1996 and 2004.
pub fn amd_2<I: Index, A: Allocator + Copy>(
    alloc: A,
    n: I,
    pe: &mut [isize],
    iw: &mut [isize],
    len: &mut [usize],
    iwlen: usize,
    pfree: usize,
    control: &Control,
    info: &mut Info,
) -> Result<(Vec<I, A>, Vec<I, A>, Vec<I, A>, Vec<isize, A>), Status>
    requires fits { I.fits (I.value n) }
    requires size { I.value n ≡ pos (length len.old) }
    requires some { 0 < length len.old }
    requires words { length iw.old ≡ iwlen }
    requires laid { IsLaidOut (length len.old) iw.old pe.old len.old pfree }
    requires graph { (g : Graph) × (lists : ℕ → List ℕ) × LaysGraph g lists iw.old pe.old len.old }
    requires room { pfree + length len.old ≤ iwlen }
    ensures orders { IfOk result (λ a. (g : Graph) (lists : ℕ → List ℕ) → LaysGraph g lists iw.old pe.old len.old →
        AnswersInPlace g lists None (length len.old) control.now (record {
          p = map I.value a.2.items;
          q = map I.value a.1.items;
          nv = map I.value a.0.items;
          e_len = a.3.items;
          pe = pe.new;
        }) info.old info.new) }
    ensures compactions { OnOk result (info.new.n_cmp_a ≤ length len.old) }
    ensures refused { IfErr result (λ e. e ≡ Status.OutOfMemory) }
{
    let size = len.len();
    let mut nv = room_for(alloc, size)?;
    let mut e_len = numbers_for(alloc, size)?;
    let mut links = words(alloc, size, 0)?;
    copy_raised(pe, &mut links);
    raise(iw);
    let choice = Choice {
        control,
        hold: None,
        flag: 2,
    };
    let (blocks, p_inv, p, fronts) = amd_2_from(
        alloc,
        n,
        &mut links,
        lend_words(iw),
        lend_cells(len),
        pfree,
        &choice,
        info,
    )?;
    write_counts(&blocks, &mut nv);
    write_words(&fronts, &mut e_len);
    write_words(&links, pe);
    Ok((nv, p_inv, p, e_len))
}
