// Times the stages of a call of `order`, each from one reading of the clock to the next: `valid`, `preprocess` where
// the columns are jumbled, `aat`, the laying of the workspace (`lay`), the other lists of the elimination (`lists`),
// its rounds (`rounds`), and the listing of what they left (`listing`). Words are as wide as those of `order`.

ghost use Rattle.std.specs.Prelude.{◌≡◌, ◌≢◌, ◌<◌, ◌≤◌, ◌+◌, ◌/◌, ◌^◌, ℕ, IfOk, List, pos, map, length};
ghost use Rattle.std.specs.Option.{SomeIff};
ghost use Rattle.amd_model.specs.Graph.{Graph};
ghost use Rattle.amd_model.specs.Input.Columns.{IsInput, IsSortedInput};
ghost use Rattle.amd_lists.specs.Sizes.{AreWideEnough};
ghost use Rattle.amd_workspace.specs.Laying.{IsLaidOut};
ghost use Rattle.amd_workspace.specs.Lists.{HasRoom};
ghost use Rattle.amd_engine.specs.InPlace.{AreOver, LaysGraph};
ghost use Rattle.amd_bench.specs.Ready.{IsReady};

use amd::aat::aat;
use amd::preprocess::preprocess;
use amd::valid::valid;
use amd::{Control, Info, Status};
use amd_cases::matrix::BinaryMatrix;
use amd_engine::amd_1::holds;
use amd_engine::ended::{finish, list_rows};
use amd_engine::fresh::{fill_lists, memory_for, room_for};
use amd_engine::rows::Choice;
use amd_engine::running::{Told, run_growing};
use amd_types::dense::dense_threshold;
use amd_types::index::Index;
use amd_types::internal::{count_at, known_count, to_count};
use amd_words::{Signed, Unsigned};
use amd_workspace::filling::fill_words;
use amd_workspace::laying::lay;
use amd_workspace::lists::Memory;
use amd_workspace::rows::RowLists;
use anyhow::{Context, Result, bail};
use num_traits::PrimInt;
use std::alloc::Global;
use std::time;
use std::time::{Duration, Instant};

/// A stage, and how long it took.
pub type Span = (&'static str, Duration);

/// The clock of a call.
#[derive(Drop)]
struct Clock {
    /// When the call began.
    first: Instant,
    /// When the last stage ended.
    last: Instant,
    /// The stages so far.
    spans: Vec<Span>,
    /// The first fault, after which no stage is ended.
    outcome: Result<()>,
}

impl Clock {
    /// A clock that starts.
    fn start<R: time::Clock + Alloc<A = Global>>(rt: &R) -> Result<Clock> {
        let spans = Vec::with_capacity(rt.alloc(), 8)?;
        let now = Instant::now(rt)?;
        Ok(Clock {
            first: now,
            last: now,
            spans,
            outcome: Ok(()),
        })
    }

    /// Ends a stage, where there was no fault yet. `spans` returns a fault of the clock, so that no caller has to give
    /// up in the middle of a call.
    fn end<R: time::Clock>(&mut self, rt: &R, stage: &'static str) {
        if self.outcome.is_ok() {
            self.outcome = self.note(rt, stage);
        }
    }

    /// Notes a stage that ends now.
    fn note<R: time::Clock>(&mut self, rt: &R, stage: &'static str) -> Result<()> {
        let now = Instant::now(rt)?;
        self.spans.push((stage, now.duration_since(self.last)))?;
        self.last = now;
        Ok(())
    }

    /// The stages of a call that is over, and then the whole call.
    fn spans(self) -> Result<Vec<Span>> {
        self.outcome?;
        let mut spans = self.spans;
        spans.push(("whole", self.last.duration_since(self.first)))?;
        Ok(spans)
    }
}

/// What the calls returned, which is the same each time, and the stages of each call.
#[derive(Drop)]
pub struct Staged<I> {
    pub p: Vec<I>,
    pub calls: Vec<Vec<Span>>,
}

/// The words of a workspace for lists of `nzaat` entries in all: as many as `order` asks for.
fn workspace_words(nzaat: usize, n: usize) -> Option<usize>
    ensures { SomeIff result (nzaat + nzaat / 5 + n < 2 ^ 63) (nzaat + nzaat / 5 + n) }
{
    let words = nzaat.checked_add(nzaat / 5)?.checked_add(n)?;
    if words < 1 << 63 { Some(words) } else { None }
}

/// Lists the rows that a run left.
fn list_order<I: Index, S: Signed, P: Signed, U: Unsigned>(
    told: &Told,
    rows: &mut RowLists<'_, '_, '_, S, P, U>,
    p: &mut [I],
    p_inv: &mut [I],
)
    requires over { AreOver (length rows.old.pe.now) rows.old }
    requires room { (length p.old ≡ length rows.old.pe.now) × (length p_inv.old ≡ length rows.old.pe.now) }
    requires narrow { AreWideEnough S.MOST P.MOST U.MOST (length rows.old.pe.now) 0 }
    requires fits { (k : ℕ) → k < length rows.old.pe.now → I.fits (pos k) }
{
    list_rows(rows);
    let head = &mut *rows.head;
    let w = &mut *rows.w;
    finish(told, head, w, p, p_inv, &mut Info::new(0));
}

/// Eliminates in the lists of `size` rows that are laid in the memory, and lists the rows. The workspace grows up to
/// `room` words.
fn time_rounds<R: time::Clock + Alloc<A = Global>, I: Index, S: Signed, P: Signed, U: Unsigned>(
    rt: &R,
    clock: &mut Clock,
    n: I,
    size: usize,
    memory: &mut Memory<S, P, U, Global>,
    free: usize,
    room: usize,
) -> Result<Vec<I>>
    requires fits { I.fits (I.value n) }
    requires size { (I.value n ≡ pos size) × (length memory.old.len.items ≡ size) }
    requires laid { IsLaidOut size memory.old.words.iw.items memory.old.pe.items memory.old.len.items free }
    requires graph { (g : Graph) × (lists : ℕ → List ℕ) ×
        LaysGraph g lists memory.old.words.iw.items memory.old.pe.items memory.old.len.items }
    requires words { (free + size ≤ length memory.old.words.iw.items) × (length memory.old.words.iw.items ≤ room) }
    requires room { HasRoom size room memory.old }
    requires narrow { AreWideEnough S.MOST P.MOST U.MOST size room }
{
    let choice = Choice {
        control: &Control::default(),
        hold: None,
        flag: 2,
    };
    let threshold = dense_threshold(size, choice.control);
    let mut p = room_for(rt.alloc(), size)?;
    let mut p_inv = room_for(rt.alloc(), size)?;
    fill_words(&mut memory.nv, size, size as isize);
    fill_words(&mut memory.e_len, size, size as isize);
    fill_lists(size, &mut memory.words.next, &mut memory.lists);
    clock.end(rt, "lists");
    let mut rows = RowLists {
        pe: &mut memory.pe,
        len: &mut memory.len,
        e_len: &mut memory.e_len,
        nv: &mut memory.nv,
        degree: &mut memory.words.next,
        w: &mut memory.lists.w,
        head: &mut memory.lists.head,
        sides: &mut memory.lists.sides,
        hash: &mut memory.lists.hash,
    };
    let told = run_growing(
        &mut memory.words.iw,
        &mut rows,
        free,
        room,
        threshold,
        &choice,
    );
    clock.end(rt, "rounds");
    list_order(&told, &mut rows, &mut p, &mut p_inv);
    clock.end(rt, "listing");
    Ok(p)
}

/// Lays the lists of rows of known degrees, eliminates and lists, in words of these widths.
fn time_elimination<
    R: time::Clock + Alloc<A = Global>,
    I: Index,
    S: Signed,
    P: Signed,
    U: Unsigned,
>(
    rt: &R,
    clock: &mut Clock,
    n: I,
    a_p: &[I],
    a_i: &[I],
    degrees: &[usize],
    room: usize,
) -> Result<Vec<I>>
    requires fits { I.fits (I.value n) }
    requires ready { IsReady (I.value n) (map I.value a_p.now) (map I.value a_i.now) room degrees.now }
    requires narrow { AreWideEnough S.MOST P.MOST U.MOST (length degrees.now) room }
{
    let size = degrees.len();
    if count_at(a_p, size) > U::MOST {
        bail!("out of memory");
    }
    let mut memory: Memory<S, P, U, Global> = memory_for(rt.alloc(), degrees, room)?;
    let free = lay(size, a_p, a_i, room, &mut memory);
    clock.end(rt, "lay");
    time_rounds(rt, clock, n, size, &mut memory, free, room)
}

/// The degrees of the rows of a matrix whose columns are sorted, and how many words the workspace may have.
fn measured<R: time::Clock + Alloc<A = Global>, I: PrimInt>(
    rt: &R,
    clock: &mut Clock,
    n: I,
    a_p: &[I],
    a_i: &[I],
) -> Result<(Vec<usize>, usize)>
    requires fits { I.fits (I.value n) }
    requires some { I.value n ≢ pos 0 }
    requires form { IsInput (I.value n) (I.value n) (map I.value a_p.now) (map I.value a_i.now) }
    requires sorted { IsSortedInput (I.value n) (map I.value a_p.now) (map I.value a_i.now) }
    ensures ready { IfOk result (λ a. IsReady (I.value n) (map I.value a_p.now) (map I.value a_i.now) a.1 a.0.items) }
    ensures room { IfOk result (λ a. a.1 < 2 ^ 63) }
{
    let count = known_count(n);
    let mut info = Info::new(count);
    let Ok((nzaat, degrees)) = aat(rt.alloc(), n, a_p, a_i, &mut info) else {
        bail!("out of memory");
    };
    clock.end(rt, "aat");
    let Some(room) = workspace_words(nzaat, count) else {
        bail!("out of memory");
    };
    Ok((degrees, room))
}

/// Orders a matrix whose columns are sorted, in words as wide as `order` takes them.
fn time_sorted<R: time::Clock + Alloc<A = Global>, I: PrimInt>(
    rt: &R,
    clock: &mut Clock,
    n: I,
    a_p: &[I],
    a_i: &[I],
) -> Result<Vec<I>>
    requires fits { I.fits (I.value n) }
    requires some { I.value n ≢ pos 0 }
    requires form { IsInput (I.value n) (I.value n) (map I.value a_p.now) (map I.value a_i.now) }
    requires sorted { IsSortedInput (I.value n) (map I.value a_p.now) (map I.value a_i.now) }
{
    let (counted, room) = measured(rt, clock, n, a_p, a_i)?;
    let degrees = counted.as_slice();
    let size = degrees.len();
    if holds::<i32, i32, u32>(size, room, 2) {
        return time_elimination::<R, I, i32, i32, u32>(rt, clock, n, a_p, a_i, degrees, room);
    }
    if holds::<i32, isize, u32>(size, room, 2) {
        return time_elimination::<R, I, i32, isize, u32>(rt, clock, n, a_p, a_i, degrees, room);
    }
    if holds::<i32, isize, usize>(size, room, 2) {
        return time_elimination::<R, I, i32, isize, usize>(rt, clock, n, a_p, a_i, degrees, room);
    }
    if holds::<isize, isize, usize>(size, room, 2) {
        return time_elimination::<R, I, isize, isize, usize>(rt, clock, n, a_p, a_i, degrees, room);
    }
    bail!("out of memory")
}

/// Orders a matrix by the default control.
fn time_call<R: time::Clock + Alloc<A = Global>, I: PrimInt>(
    rt: &R,
    clock: &mut Clock,
    matrix: &BinaryMatrix<I, Global>,
) -> Result<Vec<I>>
    requires { I.fits (I.value matrix.now.n) }
{
    let n = matrix.n;
    if to_count(n) == Some(0) {
        return Ok(Vec::new(rt.alloc()));
    }
    let status = valid(n, n, &matrix.a_p, &matrix.a_i);
    clock.end(rt, "valid");
    match status {
        Status::OK => time_sorted(rt, clock, n, &matrix.a_p, &matrix.a_i),
        Status::OkButJumbled => {
            let transpose = preprocess(rt.alloc(), n, &matrix.a_p, &matrix.a_i);
            let Ok((c_p, c_i)) = transpose else {
                bail!("out of memory");
            };
            clock.end(rt, "preprocess");
            time_sorted(rt, clock, n, &c_p, &c_i)
        }
        _ => bail!("the file holds no column form"),
    }
}

/// Orders a matrix by the default control some times.
pub fn stages_often<R: time::Clock + Alloc<A = Global>, I: PrimInt>(
    rt: &R,
    matrix: &BinaryMatrix<I, Global>,
    repeats: usize,
) -> Result<Staged<I>>
    requires { I.fits (I.value matrix.now.n) }
{
    let mut calls = Vec::new(rt.alloc());
    let mut last = None;
    'repeats: for _ in 0..repeats {
        let mut clock = Clock::start(rt)?;
        last = Some(time_call(rt, &mut clock, matrix)?);
        calls.push(clock.spans()?)?;
    }
    let p = last.context("no repeats")?;
    Ok(Staged { p, calls })
}
