// The columns of a factor, in which one with nothing new shares the entries of a child: they are not written again. So
// the columns can be counted in room that does not grow with the factor, as long as few of them have something new. The
// rows are numbers of 32 bits. Source: Sherman 1975 (compressed subscripts); George and Liu 1981.

ghost use Rattle.std.specs.Prelude.{ℕ, ◌≡◌, ◌<◌, ◌≤◌, ◌+◌, ◌-◌, ◌^◌, None, Some, length, map, slice_index};
ghost use Rattle.std.specs.Prelude.{slice_index_or, take, true, IfOk, MatchOption};
ghost use Rattle.amd_model.specs.Graph.{IsGraph};
ghost use Rattle.amd_types.specs.Naturals.{naturals};
ghost use Rattle.amd_factor.specs.Counted.{TellCounts};
ghost use Rattle.amd_factor.specs.Gathering.{LinkChildren, MarksTell};
ghost use Rattle.amd_factor.specs.Neighbours.{HasLater};
ghost use Rattle.amd_factor.specs.Numbers.{AreNonNegative, Plans};
ghost use Rattle.amd_factor.specs.Orders.{Order};
ghost use Rattle.amd_factor.specs.Planning.{CanPlan};
ghost use Rattle.amd_factor.specs.Sharing.{CanPlaceColumn, CanShare, CanStand, Follows, HasColumnPlaces};
ghost use Rattle.amd_factor.specs.Sharing.{IsPlacedColumn, KeepsColumns, Share, TellFirsts};

use crate::children::link_child;
use crate::column::{Columns, Marked, Plan, plan_column};
use crate::counted::{Counts, need_of_sizes};
use crate::fill::with_zeros;
use crate::merge::write_merged;
use crate::numbers::{place_at, write_places};
use amd_types::index::Index;
use core::mem::replace_with;
use std::alloc::{AllocError, Allocator};

// How many numbers there are at most, for each arc and each row, and how many there is memory for at first. It grows
// where these do not suffice: a block for all of them would be taken from the system anew in each call.
const ROWS: usize = 8;

const FIRST_ROWS: usize = 2;

// How many zeros are appended at once, where there is room for them: half of what a cache of the first level holds.
const ZEROS: usize = 4096;

/// The lists in which columns share their entries, each with a place for each column.
#[derive(Drop)]
pub struct SharedLists<A: Allocator> {
    /// Where the entries of each column begin, and where they end.
    pub starts: Vec<usize, A>,
    pub ends: Vec<usize, A>,
    /// The children of each in a list, as in [`Columns`].
    pub link: Vec<Option<usize>, A>,
    /// For the work alone: marks, and the new rows of a column.
    pub mark: Vec<usize, A>,
    pub fresh: Vec<usize, A>,
}

/// Takes the memory for these lists, as they are before the first column. That for new rows is there: any numbers, one
/// for each column.
///
/// # Errors
///
/// A refused request for memory.
fn shared_lists<A: Allocator + Copy>(
    alloc: A,
    fresh: Vec<usize, A>,
) -> Result<SharedLists<A>, AllocError>
    ghost o: { Order }
    requires { length fresh.items ≡ length o.rows }
    ensures places { IfOk result (λ l. HasColumnPlaces o l) }
    ensures links { IfOk result (λ l. LinkChildren o 0 l.link.items) }
    ensures marks { IfOk result (λ l. MarksTell o 0 None 0 l.mark.items) }
{
    let columns = fresh.len();
    let starts = vec![in alloc; 0; columns]?;
    let ends = vec![in alloc; 0; columns]?;
    let link = vec![in alloc; None; columns]?;
    let mark = vec![in alloc; 0; columns]?;
    Ok(SharedLists {
        starts,
        ends,
        link,
        mark,
        fresh,
    })
}

/// Plans column `k`, where those before it share their entries.
fn plan_shared<N: Index, A: Allocator>(
    k: usize,
    neighbours: &[usize],
    marked: Marked,
    lists: &mut SharedLists<A>,
    rows: &[N],
) -> Plan
    ghost o: { Order }
    requires place { CanPlan o k neighbours.now marked lists.old.mark.items lists.old.fresh.items }
    requires columns { Share N.value o k lists.old rows.now }
    ensures count { result.count ≤ length lists.new.fresh.items }
    ensures plans { Plans o k (naturals (map N.value rows.now)) result.from result.to
        (take result.count lists.new.fresh.items) }
    ensures marks { MarksTell o (k + 1) result.marked.column result.marked.stamp lists.new.mark.items }
    ensures room { length lists.new.fresh.items ≡ length lists.old.fresh.items }
    ensures kept { KeepsColumns lists.old lists.new }
{
    let columns = Columns {
        starts: &lists.starts,
        ends: &lists.ends,
        rows,
        link: &lists.link,
    };
    plan_column(
        k,
        neighbours,
        marked,
        columns,
        &mut lists.mark,
        &mut lists.fresh,
    )
}

/// Where a column stands, from place `begin` on and before `end`, and how many numbers the columns then have.
#[derive(Clone, Copy)]
struct Placed {
    begin: usize,
    end: usize,
    used: usize,
}

/// Appends zeros to numbers until there are `long` of them, and more at once, so that few calls do it.
///
/// # Errors
///
/// A refused request for memory.
fn lengthen<N: Index, A: Allocator>(
    long: usize,
    room: usize,
    rows: &mut Vec<N, A>,
) -> Result<(), AllocError>
    requires room { (long ≤ room) × (length rows.old.items ≤ room) }
    ensures long { IfOk result (λ done. long ≤ length rows.new.items) }
    ensures room { length rows.new.items ≤ room }
    ensures kept { take (length rows.old.items) rows.new.items ≡ rows.old.items }
{
    let now = rows.len();
    if now < long {
        rows.reserve(long - now)?;
        let most = room.min(rows.capacity()) - now;
        let zeros = (long - now).max(ZEROS).min(most);
        replace_with(rows, zeros, with_zeros);
    }
    Ok(())
}

/// Whether the new rows of a planned column can be appended to what it takes over: that is nothing, or it stands behind
/// all other entries and ends with a row less than the first new one.
fn can_append<N: Index>(plan: Plan, fresh: &[usize], done: &[N]) -> bool
    requires numbers { AreNonNegative (map N.value done.now) }
    requires range { plan.from ≤ plan.to }
    requires small { plan.from < plan.to → plan.to ≡ length done.now →
        slice_index (naturals (map N.value done.now)) (plan.to - 1) < 2 ^ 64 }
    requires new { 0 < length fresh.now }
    ensures { result ≡ true → Follows (naturals (map N.value done.now)) plan.from plan.to fresh.now }
{
    plan.from == plan.to || (plan.to == done.len() && place_at(done, plan.to - 1) < fresh[0])
}

/// Appends the new rows of a planned column to what it takes over, which is not written again. None where there is no
/// room.
///
/// # Errors
///
/// A refused request for memory.
fn append_rows<N: Index, A: Allocator>(
    plan: Plan,
    fresh: &[usize],
    used: usize,
    rows: &mut Vec<N, A>,
    room: usize,
) -> Result<Option<Placed>, AllocError>
    requires place { CanPlaceColumn N.value N.fits plan fresh.now used rows.old.items room }
    requires follows { Follows (naturals (map N.value (take used rows.old.items))) plan.from plan.to fresh.now }
    ensures placed { IfOk result (λ r. MatchOption r (Unit {0})
        (λ p. IsPlacedColumn N.value plan fresh.now used rows.old.items p rows.new.items)) }
    ensures kept { take used rows.new.items ≡ take used rows.old.items }
    ensures room { length rows.new.items ≤ room }
{
    let size = fresh.len();
    if room - used < size {
        return Ok(None);
    }
    lengthen(used + size, room, rows)?;
    let (_, free) = rows.split_at_mut(used);
    write_places(fresh, &mut free[..size]);
    let begin = if plan.from == plan.to {
        used
    } else {
        plan.from
    };
    Ok(Some(Placed {
        begin,
        end: used + size,
        used: used + size,
    }))
}

/// Where the entries of a planned column stand: if nothing is new, those that it takes over; else what is new is
/// appended, or all are written behind the numbers of the columns before it. None where there is no room.
///
/// # Errors
///
/// A refused request for memory.
fn place_column<N: Index, A: Allocator>(
    plan: Plan,
    fresh: &[usize],
    used: usize,
    rows: &mut Vec<N, A>,
    room: usize,
) -> Result<Option<Placed>, AllocError>
    requires place { CanPlaceColumn N.value N.fits plan fresh.now used rows.old.items room }
    ensures placed { IfOk result (λ r. MatchOption r (Unit {0})
        (λ p. IsPlacedColumn N.value plan fresh.now used rows.old.items p rows.new.items)) }
    ensures kept { take used rows.new.items ≡ take used rows.old.items }
    ensures room { length rows.new.items ≤ room }
{
    let (begin, end) = (plan.from, plan.to);
    if fresh.is_empty() {
        return Ok(Some(Placed { begin, end, used }));
    }
    if can_append(plan, fresh, &rows[..used]) {
        return append_rows(plan, fresh, used, rows, room);
    }
    let size = end - begin + fresh.len();
    if room - used < size {
        return Ok(None);
    }
    lengthen(used + size, room, rows)?;
    let (done, free) = rows.split_at_mut(used);
    write_merged(&done[begin..end], fresh, &mut free[..size]);
    Ok(Some(Placed {
        begin: used,
        end: used + size,
        used: used + size,
    }))
}

/// Says where column `k` stands: from place `begin` on, before `end`. It is a child of its first entry, which is put in
/// its place in `firsts`; if it has none, nothing is.
fn stand_column<N: Index, A: Allocator>(
    k: usize,
    begin: usize,
    end: usize,
    rows: &[N],
    lists: &mut SharedLists<A>,
    firsts: &mut [usize],
)
    ghost o: { Order }
    requires { CanStand N.value o k begin end lists.old rows.now firsts.old }
    ensures columns { Share N.value o (k + 1) lists.new rows.now }
    ensures firsts { TellFirsts o (k + 1) lists.new.starts.items lists.new.ends.items (naturals (map N.value rows.now))
        firsts.new }
    ensures places { HasColumnPlaces o lists.new }
    ensures marks { lists.new.mark.items ≡ lists.old.mark.items }
    ensures left { (length firsts.new ≡ length firsts.old) × ((m : ℕ) → k < m →
        slice_index firsts.new m ≡ slice_index firsts.old m) }
{
    lists.starts[k] = begin;
    lists.ends[k] = end;
    if begin == end {
        return;
    }
    let first = place_at(rows, begin);
    firsts[k] = first;
    link_child(k, first, &mut lists.link);
}

/// How many rows were marked anew for columns that the marks did not tell, with those of column `k`.
fn marked_again(before: usize, k: usize, plan: Plan) -> usize {
    if plan.marked.stamp > k {
        before.saturating_add(plan.to.saturating_sub(plan.from))
    } else {
        before
    }
}

/// Makes the columns of a factor, in at most `room` numbers, and returns how many of them they take. None where there
/// is no room, and where more rows are marked again than that.
///
/// `later[starts[k]..starts[k + 1]]` names the places after `k` whose rows an edge joins with that at place `k`. The
/// lists are as before the first column. Afterwards `starts[k]` is the first entry of column `k`, if it has one.
///
/// # Errors
///
/// A refused request for memory.
fn share_columns<N: Index, A: Allocator>(
    starts: &mut [usize],
    later: &[usize],
    room: usize,
    lists: &mut SharedLists<A>,
    rows: &mut Vec<N, A>,
) -> Result<Option<usize>, AllocError>
    ghost o: { Order }
    requires { CanShare N.fits o starts.old later.now lists.old rows.old.items }
    ensures shared { IfOk result (λ r. MatchOption r (Unit {0})
        (λ used. Share N.value o (length o.rows) lists.new (take used rows.new.items))) }
    ensures firsts { IfOk result (λ r. MatchOption r (Unit {0})
        (λ used. TellFirsts o (length o.rows) lists.new.starts.items lists.new.ends.items
        (naturals (map N.value (take used rows.new.items))) starts.new)) }
    ensures places { HasColumnPlaces o lists.new }
{
    let mut marked = Marked {
        column: None,
        stamp: 0,
    };
    let mut again = 0;
    let mut used = 0;
    'columns: for k in 0..lists.starts.len() {
        let neighbours = &later[starts[k]..starts[k + 1]];
        let plan = plan_shared(k, neighbours, marked, lists, &rows[..used]);
        let fresh = &lists.fresh[..plan.count];
        let Some(placed) = place_column(plan, fresh, used, rows, room)? else {
            return Ok(None);
        };
        used = placed.used;
        let entries = &rows[..used];
        stand_column(k, placed.begin, placed.end, entries, lists, starts);
        marked = plan.marked;
        again = marked_again(again, k, plan);
        if again > room {
            return Ok(None);
        }
    }
    Ok(Some(used))
}

/// Puts in the place of each end how many entries its column has, and in that of each link the parent of the column,
/// its first entry.
fn tell_columns(starts: &[usize], firsts: &[usize], ends: &mut [usize], link: &mut [Option<usize>])
    requires places { (length starts.now ≡ length ends.old) × (length ends.old ≤ length firsts.now) ×
        (length link.old ≡ length ends.old) }
    requires range { (k : ℕ) → k < length ends.old → slice_index starts.now k ≤ slice_index ends.old k }
    ensures sizes { (length ends.new ≡ length ends.old) × ((k : ℕ) → k < length ends.old →
        slice_index ends.new k ≡ slice_index ends.old k - slice_index starts.now k) }
    ensures none { (length link.new ≡ length ends.old) × ((k : ℕ) → k < length ends.old →
        slice_index starts.now k ≡ slice_index ends.old k → slice_index_or link.new k None ≡ None) }
    ensures parents { (k : ℕ) → k < length ends.old → slice_index starts.now k < slice_index ends.old k →
        slice_index_or link.new k None ≡ Some (slice_index firsts.now k) }
{
    'columns: for k in 0..ends.len() {
        let size = ends[k] - starts[k];
        link[k] = if size == 0 { None } else { Some(firsts[k]) };
        ends[k] = size;
    }
}

/// So many numbers for each column and each arc of the lists of neighbours.
fn shared_room(each: usize, columns: usize, arcs: usize) -> usize {
    each.saturating_mul(columns.saturating_add(arcs))
}

/// Counts the entries of the columns of a factor and sums up what it needs, by the lists of later neighbours: the
/// columns are made, and share their entries. None where there is no room for all of them, or more work than that, or
/// where a row is no number of 32 bits. `work` is any numbers, one for each column, for the work alone. What `starts`
/// then holds means nothing.
///
/// # Errors
///
/// A refused request for memory.
pub fn shared_counts<A: Allocator + Copy>(
    alloc: A,
    starts: &mut [usize],
    later: &[usize],
    work: Vec<usize, A>,
) -> Result<Option<Counts<A>>, AllocError>
    ghost o: { Order }
    requires laws { IsGraph o.graph }
    requires later { HasLater o starts.old later.now }
    requires work { length work.items ≡ length o.rows }
    ensures { IfOk result (λ r. MatchOption r (Unit {0})
        (λ c. TellCounts o.graph o.rows c.sizes.items c.parent.items c.need)) }
{
    let columns = work.len();
    if columns > i32::MAX as usize {
        return Ok(None);
    }
    let room = shared_room(ROWS, columns, later.len());
    let mut lists = shared_lists(alloc, work)?;
    let first = shared_room(FIRST_ROWS, columns, later.len());
    let mut rows: Vec<i32, A> = Vec::with_capacity(alloc, first)?;
    let Some(_) = share_columns(starts, later, room, &mut lists, &mut rows)? else {
        return Ok(None);
    };
    tell_columns(&lists.starts, starts, &mut lists.ends, &mut lists.link);
    let need = need_of_sizes(&lists.ends);
    Ok(Some(Counts {
        sizes: lists.ends,
        parent: lists.link,
        need,
    }))
}
