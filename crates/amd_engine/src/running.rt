// The run of the engine in place: its start, and its rounds until no row is live. It asks for no memory: a workspace
// that grows takes words that were asked for before. Source: Amestoy, Davis and Duff 1996 and 2004.

ghost use Rattle.std.specs.Prelude.{◌≡◌, ◌<◌, ◌≤◌, ◌+◌, ◌++◌, ℕ, ℤ, Bool, List, length};
ghost use Rattle.std.specs.Option.{option_copied};
ghost use Rattle.std.specs.Vec.{vec_capacity};
ghost use Rattle.amd_model.specs.Graph.{Graph};
ghost use Rattle.amd_model.specs.Input.Held.{HasMarks};
ghost use Rattle.amd_model.specs.Quotient.{QuotientGraph};
ghost use Rattle.amd_model.specs.State.{State};
ghost use Rattle.amd_rounds.specs.Keeps.{AreRoundsWithin, Stands};
ghost use Rattle.amd_lists.specs.Sizes.{AreWideEnough};
ghost use Rattle.amd_workspace.specs.Starting.{KeepsRows};
ghost use Rattle.amd_engine.specs.InPlace.{AreOver, CanRun, RunsInPlace, StandsAtStart, first_sums};
ghost use Rattle.amd_engine.specs.InPlace.{workspace_in};

use crate::rows::Choice;
use amd_lists::work::Work;
use amd_rounds::round::eliminate_within;
use amd_types::amd::Control;
use amd_types::figures::Figures;
use amd_words::{Signed, Unsigned, Word, word_of};
use amd_workspace::rows::RowLists;
use amd_workspace::starting::begin_rows;
use std::alloc::Allocator;

/// What a run tells, of the rounds so far or at its end.
#[derive(Drop)]
pub struct Told {
    /// The number of rows held last.
    pub n_dense: usize,
    /// How often the workspace was compacted: at most once for each row.
    pub n_cmp_a: usize,
    /// The figures of the fronts.
    pub figures: Figures,
}

/// The numbers of an elimination between two rounds, beside its lists.
#[derive(Drop)]
pub struct Numbers {
    /// No list has a word from here on.
    pub free: usize,
    /// The number of rows that are live.
    pub live: usize,
    /// No class has a bound below it.
    pub least: usize,
    /// A number above each counter.
    pub flag: usize,
    /// The number of rows of the greatest border so far.
    pub most: usize,
    /// What the rounds so far tell.
    pub told: Told,
}

/// The figures before the first round: the rows held last are a front.
fn first_figures(n_dense: usize) -> Figures
    ensures { result ≡ first_sums n_dense }
{
    let mut sums = Figures {
        lnz: 0,
        n_mult_subs_ldl: 0,
        n_mult_subs_lu: 0,
        d_max: 1,
    };
    sums.add_front(n_dense, 0);
    sums
}

/// Starts the elimination of rows whose lists fill the first `free` words of a workspace.
fn start<S: Signed, P: Signed, U: Unsigned>(
    rows: &mut RowLists<'_, '_, '_, S, P, U>,
    free: usize,
    threshold: usize,
    choice: &Choice<'_>,
) -> Numbers
    requires can { (iw : List ℤ) × CanRun iw free rows.old }
    requires narrow { (1 ≤ S.MOST) × (length rows.old.len.now + 2 ≤ P.MOST) × (length rows.old.len.now ≤ U.MOST) }
    requires marks { HasMarks (option_copied choice.now.hold) (length rows.old.len.now) }
    requires flag { 2 ≤ choice.now.flag }
    ensures starts { (iw : List ℤ) → CanRun iw free rows.old → StandsAtStart (option_copied choice.now.hold) threshold
        iw rows.old.pe.now rows.old.len.now (workspace_in iw rows.new result) }
    ensures unpacked { result.told.n_cmp_a ≡ 0 }
    ensures loans { KeepsRows rows.old rows.new }
{
    let (live, n_dense) = begin_rows(rows, choice.hold, threshold);
    Numbers {
        free,
        live,
        least: 0,
        flag: choice.flag,
        most: 0,
        told: Told {
            n_dense,
            n_cmp_a: 0,
            figures: first_figures(n_dense),
        },
    }
}

/// Eliminates until no row is live. Where the workspace has fewer than `room` words it ends before a round that might
/// compact it.
///
/// It has the one call of the rounds, so that the compiler builds them in here and the fields of `work` are no memory:
/// with a second one for a workspace that cannot grow they took 2 to 3 hundredths more time. It is compiled apart from
/// its callers: built into one of them its loops run 2 to 3 hundredths more instructions.
#[inline(never)]
fn advance<S: Signed, P: Signed, U: Unsigned>(
    iw: &mut [Word<S>],
    rows: &mut RowLists<'_, '_, '_, S, P, U>,
    numbers: Numbers,
    room: usize,
    control: &Control,
) -> Numbers
    requires wide { AreWideEnough S.MOST P.MOST U.MOST (length rows.old.nv.now) (length iw.old) }
    requires stands { (g : Graph) × (dense : ℕ → Bool) × (nzaat : ℕ) × (t : QuotientGraph) × (s : State) ×
        Stands g dense nzaat (workspace_in iw.old rows.old numbers) t s }
    ensures rounds { AreRoundsWithin control.now.aggressive room (workspace_in iw.old rows.old numbers)
        (workspace_in iw.new rows.new result) }
    ensures loans { KeepsRows rows.old rows.new }
{
    let mut work = Work {
        iw,
        pe: rows.pe,
        e_len: rows.e_len,
        nv: rows.nv,
        len: rows.len,
        degree: rows.degree,
        w: rows.w,
        head: rows.head,
        sides: rows.sides,
        hash: rows.hash,
        free: numbers.free,
        live: numbers.live,
        least: numbers.least,
        flag: numbers.flag,
        most: numbers.most,
        n_cmp_a: numbers.told.n_cmp_a,
        n_dense: numbers.told.n_dense,
        figures: numbers.told.figures,
    };
    eliminate_within(&mut work, control, room);
    Numbers {
        free: work.free,
        live: work.live,
        least: work.least,
        flag: work.flag,
        most: work.most,
        told: Told {
            n_dense: work.n_dense,
            n_cmp_a: work.n_cmp_a,
            figures: work.figures,
        },
    }
}

/// Starts the elimination of a workspace that is laid, and eliminates until no row is live.
///
/// `iw` is the workspace. The other lists have `n` places each, one for each row. The list of row `i` has `len[i]`
/// words from `pe[i]` on: its neighbours. The lists fill the first `free` words, and `n` words or more follow them. In
/// `head` and `hash` each number is `n` or more, so that it names no row; in `e_len`, `nv`, `degree`, `w` and `sides`
/// any numbers are allowed. The widths hold an elimination of `n` rows in so many words.
///
/// The rows that are chosen, and those of a degree above `threshold`, are held last. All lists keep their lengths; the
/// contract says so of all but `iw`, `len` and `sides`. What the elimination left is in `pe`, `e_len`, `nv` and
/// `degree`, which `list_rows` can list. The workspace was compacted at most `n` times.
///
/// Source: Amestoy, Davis and Duff 1996 and 2004.
pub fn run<S: Signed, P: Signed, U: Unsigned>(
    iw: &mut [Word<S>],
    rows: &mut RowLists<'_, '_, '_, S, P, U>,
    free: usize,
    threshold: usize,
    choice: &Choice<'_>,
) -> Told
    requires can { CanRun iw.old free rows.old }
    requires narrow { AreWideEnough S.MOST P.MOST U.MOST (length rows.old.len.now) (length iw.old) }
    requires marks { HasMarks (option_copied choice.now.hold) (length rows.old.len.now) }
    requires flag { 2 ≤ choice.now.flag }
    ensures runs { RunsInPlace (option_copied choice.now.hold) threshold choice.now.control.now.aggressive iw.old
        rows.old.pe.now rows.old.len.now result rows.new }
    ensures packs { result.n_cmp_a ≤ length rows.old.len.now }
    ensures over { AreOver (length rows.old.len.now) rows.new }
    ensures loans { KeepsRows rows.old rows.new }
{
    let first = start(rows, free, threshold, choice);
    let room = iw.len();
    let last = advance(iw, rows, first, room, choice.control);
    last.told
}

/// Where fewer words than rows are live are free, appends as many as rows are live to the workspace, up to `room` words
/// in all. What they hold is not read. The vector has room for them and keeps it, so nothing is asked for.
fn grow<S: Signed, A: Allocator>(iw: &mut Vec<Word<S>, A>, free: usize, live: usize, room: usize)
    requires room { (length iw.old.items ≤ room) × (room ≤ vec_capacity iw.old) }
    requires numbers { (free ≤ length iw.old.items) × (live ≤ length iw.old.items) × (live ≤ S.MOST) }
    ensures words { (more : List ℤ) × (iw.new.items ≡ iw.old.items ++ more) }
    ensures long { length iw.new.items ≤ room }
    ensures due { length iw.new.items < room → free + live ≤ length iw.new.items }
    ensures few { length iw.new.items ≤ length iw.old.items + live }
    ensures kept { free + live ≤ length iw.old.items → iw.new.items ≡ iw.old.items }
    ensures capacity { vec_capacity iw.new ≡ vec_capacity iw.old }
{
    let words = iw.len();
    if words >= free + live {
        return;
    }
    'words: for _ in 0..live.min(room - words) {
        iw.push_reserved(word_of(live as isize));
    }
}

/// As `run`, in a workspace that grows up to `room` words where there is no room for a new element: the result is the
/// same as with so many words from the start. It is compacted only where it has all its words.
///
/// The vector has capacity for `room` words, which the widths hold, and keeps it: so nothing is asked for. `n` words or
/// more follow the lists.
///
/// Source: Amestoy, Davis and Duff 1996 and 2004.
pub fn run_growing<S: Signed, P: Signed, U: Unsigned, A: Allocator>(
    iw: &mut Vec<Word<S>, A>,
    rows: &mut RowLists<'_, '_, '_, S, P, U>,
    free: usize,
    room: usize,
    threshold: usize,
    choice: &Choice<'_>,
) -> Told
    requires can { CanRun iw.old.items free rows.old }
    requires narrow { AreWideEnough S.MOST P.MOST U.MOST (length rows.old.len.now) room }
    requires room { (length iw.old.items ≤ room) × (room ≤ vec_capacity iw.old) }
    requires marks { HasMarks (option_copied choice.now.hold) (length rows.old.len.now) }
    requires flag { 2 ≤ choice.now.flag }
    ensures runs { RunsInPlace (option_copied choice.now.hold) threshold choice.now.control.now.aggressive
        iw.old.items rows.old.pe.now rows.old.len.now result rows.new }
    ensures packs { result.n_cmp_a ≤ length rows.old.len.now }
    ensures unpacked { length iw.new.items < room → result.n_cmp_a ≡ 0 }
    ensures capacity { vec_capacity iw.new ≡ vec_capacity iw.old }
    ensures over { AreOver (length rows.old.len.now) rows.new }
    ensures loans { KeepsRows rows.old rows.new }
{
    let mut numbers = start(rows, free, threshold, choice);
    'growths: while numbers.live > 0 {
        grow(iw, numbers.free, numbers.live, room);
        numbers = advance(iw, rows, numbers, room, choice.control);
    }
    numbers.told
}
