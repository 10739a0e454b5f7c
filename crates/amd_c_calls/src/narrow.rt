// Eliminates the rows of lists that a caller laid in numbers of 32 bits, in copies of these lists, whose words have 32
// bits too. All of the caller's arrays are written last. Source: Amestoy, Davis and Duff 2004.

ghost use Rattle.std.specs.Prelude.{◌≡◌, ◌<◌, ◌≤◌, ◌+◌, ◌^◌, ℕ, pos, true, List, None, length, take, IfOk, IfErr, OnOk};
ghost use Rattle.amd_model.specs.Graph.{Graph};
ghost use Rattle.amd_words.specs.Words.{is_place, word};
ghost use Rattle.amd_workspace.specs.Laying.{IsLaidOut};
ghost use Rattle.amd_engine.specs.InPlace.{AnswersInPlace, LaysGraph};
ghost use Rattle.amd_c_calls.specs.Laid.{HasPlacesFor, KeepsPlaces, LeavesElimination, answered_numbers};

use crate::lent::Places;
use amd_calls::records::{Parameters, Statistics, control_of, statistics_of};
use amd_engine::amd_2::amd_2_from;
use amd_engine::rows::Choice;
use amd_types::amd::{Control, Info, Status};
use amd_words::{Cell, Word, cell_of, put_word, word_at};
use amd_workspace::filling::words;
use std::alloc::{AllocError, Global};

/// Copies numbers, none of them negative, into the first words.
fn copy_numbers(numbers: &[i32], words: &mut [Word<i32>])
    requires room { length numbers.now ≤ length words.old }
    requires rows { (k : ℕ) → k < length numbers.now → is_place (word numbers.now k) ≡ true }
    ensures { take (length numbers.now) words.new ≡ numbers.now }
{
    'numbers: for k in 0..numbers.len() {
        put_word(words, k, numbers[k] as isize);
    }
}

/// Numbers as words, `room` words in all, which are 0 behind the numbers. None of the numbers is negative.
///
/// # Errors
///
/// A refused request for memory.
fn words_from(
    alloc: Global,
    numbers: &[i32],
    room: usize,
) -> Result<Vec<Word<i32>, Global>, AllocError>
    requires room { length numbers.now ≤ room }
    requires rows { (k : ℕ) → k < length numbers.now → is_place (word numbers.now k) ≡ true }
    ensures long { IfOk result (λ v. length v.items ≡ room) }
    ensures same { IfOk result (λ v. take (length numbers.now) v.items ≡ numbers.now) }
{
    let mut copy = words(alloc, room, 0)?;
    copy_numbers(numbers, &mut copy);
    Ok(copy)
}

/// Counts as cells.
///
/// # Errors
///
/// A refused request for memory.
fn cells_from(alloc: Global, counts: &[u32]) -> Result<Vec<Cell<u32>, Global>, AllocError>
    ensures { IfOk result (λ v. v.items ≡ counts.now) }
{
    let mut copy = Vec::with_capacity(alloc, counts.len())?;
    'counts: for &count in counts {
        copy.push_reserved(cell_of(count as usize));
    }
    Ok(copy)
}

/// What the engine answers in words of 32 bits.
struct Answer {
    /// The parents and links.
    pe: Vec<Word<i32>, Global>,
    /// The number of rows of each block.
    nv: Vec<Word<i32>, Global>,
    /// The inverse of the permutation.
    p_inv: Vec<i32, Global>,
    /// The permutation.
    p: Vec<i32, Global>,
    /// The number of rows of each front.
    e_len: Vec<Word<i32>, Global>,
}

/// The lists are given back in one function, not anew wherever an answer ends.
impl Drop for Answer {
    fn drop(self) {
        let Answer {
            pe: _,
            nv: _,
            p_inv: _,
            p: _,
            e_len: _,
        } = self;
    }
}

/// Copies lists that are laid, and eliminates their rows in the copies. These have room for a fifth of the words of the
/// lists and for a word of each row, but have no more words than 31 bits count.
///
/// # Errors
///
/// `OutOfMemory` where a request was refused. What `info` then holds is not said.
fn eliminate_copies(
    alloc: Global,
    n: i32,
    pe: &[i32],
    iw: &[i32],
    len: &[u32],
    control: &Control,
    info: &mut Info,
) -> Result<Answer, Status>
    requires size { n ≡ pos (length len.now) }
    requires some { 0 < length len.now }
    requires narrow { (length len.now + 2 < 2 ^ 31) × (length iw.now + length len.now < 2 ^ 31) }
    requires laid { IsLaidOut (length len.now) iw.now pe.now len.now (length iw.now) }
    requires graph { (g : Graph) × (lists : ℕ → List ℕ) × LaysGraph g lists iw.now pe.now len.now }
    ensures orders { IfOk result (λ a. (g : Graph) (lists : ℕ → List ℕ) → LaysGraph g lists iw.now pe.now len.now →
        AnswersInPlace g lists None (length len.now) control.now (record {
          p = a.p.items;
          q = a.p_inv.items;
          nv = a.nv.items;
          e_len = a.e_len.items;
          pe = a.pe.items;
        }) info.old info.new) }
    ensures links { IfOk result (λ a. length a.pe.items ≡ length len.now) }
    ensures compactions { OnOk result (info.new.n_cmp_a ≤ length len.now) }
    ensures refused { IfErr result (λ e. e ≡ Status.OutOfMemory) }
{
    let room = (iw.len() + iw.len() / 5 + len.len()).min(i32::MAX as usize);
    let mut links = words_from(alloc, pe, pe.len())?;
    let mut lists = words_from(alloc, iw, room)?;
    let mut counts = cells_from(alloc, len)?;
    let choice = Choice {
        control,
        hold: None,
        flag: 2,
    };
    let (nv, p_inv, p, e_len) = amd_2_from(
        alloc,
        n,
        &mut links,
        &mut lists,
        &mut counts,
        iw.len(),
        &choice,
        info,
    )?;
    Ok(Answer {
        pe: links,
        nv,
        p_inv,
        p,
        e_len,
    })
}

/// Writes the numbers of words.
fn write_words(words: &[Word<i32>], numbers: &mut [i32])
    requires room { length numbers.old ≡ length words.now }
    ensures { numbers.new ≡ words.now }
{
    'words: for k in 0..words.len() {
        numbers[k] = word_at(words, k) as i32;
    }
}

/// Eliminates the rows of lists that are laid, as `amd_2` of the crate `amd_engine`, and returns the status, which is
/// `OK`.
///
/// The lists are as `amd_2` requires them, and fill `iw`. There are fewer than 2^31 - 2 rows, and fewer than 2^31 rows
/// and words of lists together. Each array of `places` has a place for each of the `n` rows. What the elimination
/// answers is written there, the parents and links into `pe`, and what it tells into `statistics`, of which the fields
/// that tell the pattern are 0.
///
/// # Errors
///
/// `OutOfMemory` where a request was refused. All stays as it was.
///
/// Source: Amestoy, Davis and Duff 1996 and 2004.
pub fn eliminate_narrow(
    alloc: Global,
    n: i32,
    pe: &mut [i32],
    iw: &[i32],
    len: &[u32],
    parameters: &Parameters,
    places: &mut Places<'_, i32, i32>,
    statistics: &mut Statistics,
) -> Status
    requires size { n ≡ pos (length len.now) }
    requires some { 0 < length len.now }
    requires narrow { (length len.now + 2 < 2 ^ 31) × (length iw.now + length len.now < 2 ^ 31) }
    requires laid { IsLaidOut (length len.now) iw.now pe.old len.now (length iw.now) }
    requires graph { (g : Graph) × (lists : ℕ → List ℕ) × LaysGraph g lists iw.now pe.old len.now }
    requires places { HasPlacesFor (length len.now) (answered_numbers places.old statistics.old) }
    ensures leaves { LeavesElimination parameters.now iw.now pe.old len.now pe.new
        (answered_numbers places.old statistics.old) (answered_numbers places.new statistics.new) result }
    ensures kept { result ≡ Status.OutOfMemory → pe.new ≡ pe.old }
    ensures loans { KeepsPlaces places.old places.new }
{
    let control = control_of(parameters);
    let mut info = Info::new(len.len());
    let Ok(answer) = eliminate_copies(alloc, n, pe, iw, len, &control, &mut info) else {
        return Status::OutOfMemory;
    };
    write_words(&answer.nv, places.nv);
    places.p_inv.copy_from_slice(&answer.p_inv);
    places.p.copy_from_slice(&answer.p);
    write_words(&answer.e_len, places.e_len);
    write_words(&answer.pe, pe);
    *statistics = statistics_of(&info);
    Status::OK
}
