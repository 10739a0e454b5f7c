// The listing at the end of an elimination: the assembly tree in postorder, of each block its other rows rising and
// then its pivot row, and after all blocks the dense rows, rising. Source: Amestoy, Davis and Duff 2004.

ghost use Rattle.std.specs.Prelude.{[], ◌≡◌, ◌^◌, ◌<◌, ◌==◌, ◌&&◌, ◌++◌, ◌∷◌, ℕ, Bool, List, None, Some, cond};
ghost use Rattle.std.specs.Prelude.{flat_map, map, nat_eq, nat_lt, pos, slice_index, OnOk, false, is_none, not, filter};
ghost use Rattle.std.specs.Prelude.{length, IfOk, IfErr};
ghost use Rattle.amd_model.specs.Below.{list_below};
ghost use Rattle.amd_model.specs.Input.Columns.{at};
ghost use Rattle.amd_model.specs.Listing.{Tree};
ghost use Rattle.amd_model.specs.State.{Home, block_at, live_at};
ghost use Rattle.amd_plain.specs.Views.{list_at, num, some_at, Below};
ghost use Rattle.amd_plain.specs.Keeps.{PlainLinksLead};
ghost use Rattle.amd_plain.specs.Starts.{EndsRun, ListsRun};
ghost use Rattle.amd_postorder.specs.Trees.{IsByPlace, IsPostorderOf, link_of};

use crate::start::empty_lists;
use crate::work::PlainWork;
use amd_postorder::postorder::postorder;
use amd_types::amd::Status;
use amd_types::internal::{EMPTY, link_at};
use std::alloc::{AllocError, Allocator};

/// The row without a link to which the links from a row lead.
fn root_of<A: Allocator>(link: &Vec<Option<usize>, A>, v: usize) -> usize
    requires led { (home : ℕ → Home) × PlainLinksLead link.now.items home }
    requires within { v < length link.now.items }
    ensures within { result < length link.now.items }
    ensures end { some_at link.now.items result ≡ None }
    ensures home { (home : ℕ → Home) → PlainLinksLead link.now.items home → home v ≡ home result }
{
    let mut row = v;
    'links: while let Some(next) = link[row] {
        row = next;
    }
    row
}

/// Links a row and those on the way from it to their root straight to the root.
fn shortcut<A: Allocator>(link: &mut Vec<Option<usize>, A>, v: usize, root: usize)
    requires led { (home : ℕ → Home) × PlainLinksLead link.old.items home }
    requires within { (v < length link.old.items) × (root < length link.old.items) }
    requires end { some_at link.old.items root ≡ None }
    requires home { (home : ℕ → Home) → PlainLinksLead link.old.items home → home v ≡ home root }
    ensures size { length link.new.items ≡ length link.old.items }
    ensures led { (home : ℕ → Home) → PlainLinksLead link.old.items home → PlainLinksLead link.new.items home }
    ensures alone { (u : ℕ) → is_none (some_at link.new.items u) ≡ is_none (some_at link.old.items u) }
{
    let mut row = v;
    'links: while let Some(next) = link[row] {
        link[row] = Some(root);
        row = next;
    }
}

/// The row without a link to which the links from a row lead, which are shortened.
fn element_of<A: Allocator>(link: &mut Vec<Option<usize>, A>, v: usize) -> usize
    requires led { (home : ℕ → Home) × PlainLinksLead link.old.items home }
    requires within { v < length link.old.items }
    ensures within { result < length link.old.items }
    ensures end { some_at link.new.items result ≡ None }
    ensures home { (home : ℕ → Home) → PlainLinksLead link.old.items home → home v ≡ home result }
    ensures size { length link.new.items ≡ length link.old.items }
    ensures led { (home : ℕ → Home) → PlainLinksLead link.old.items home → PlainLinksLead link.new.items home }
    ensures alone { (u : ℕ) → is_none (some_at link.new.items u) ≡ is_none (some_at link.old.items u) }
{
    let root = root_of(link, v);
    shortcut(link, v, root);
    root
}

/// The rows of each block at the end, rising, without the pivot row.
fn rows_of_elements<A: Allocator + Copy>(
    alloc: A,
    link: &mut Vec<Option<usize>, A>,
) -> Result<Vec<Vec<usize, A>, A>, AllocError>
    requires led { (home : ℕ → Home) × PlainLinksLead link.old.items home × ((v : ℕ) → live_at (home v) ≡ false) }
    ensures size { IfOk result (λ rows. length rows.items ≡ length link.old.items) }
    ensures rows { IfOk result (λ rows. (home : ℕ → Home) → PlainLinksLead link.old.items home →
        ((v : ℕ) → live_at (home v) ≡ false) → (e : ℕ) → e < length link.old.items →
        list_at rows.items e ≡ list_below (length link.old.items) (λ v. block_at e (home v) && not (v == e))) }
    ensures links { length link.new.items ≡ length link.old.items }
    ensures alone { (u : ℕ) → is_none (some_at link.new.items u) ≡ is_none (some_at link.old.items u) }
{
    let mut rows = empty_lists(alloc, link.len())?;
    'rows: for v in 0..link.len() {
        if link[v].is_some() {
            rows[element_of(link, v)].push(v)?;
        }
    }
    Ok(rows)
}

/// A number as a signed one.
fn signed(number: usize) -> isize
    requires fits { number < 2 ^ 63 }
    ensures { result ≡ pos number }
{
    number as isize
}

/// The parents as links, and `EMPTY` for none.
fn parent_links<A: Allocator + Copy>(
    alloc: A,
    parent: &[Option<usize>],
) -> Result<Vec<isize, A>, AllocError>
    requires fits { (e p : ℕ) → some_at parent.now e ≡ Some p → p < 2 ^ 63 }
    ensures { IfOk result (λ v. v.items ≡ map link_of parent.now) }
{
    let mut links = Vec::with_capacity(alloc, parent.len())?;
    'elements: for e in 0..parent.len() {
        let link = match parent[e] {
            Some(p) => signed(p),
            None => EMPTY,
        };
        links.push(link)?;
    }
    Ok(links)
}

/// A number of each element, and 0 for what is none.
fn of_elements<A: Allocator + Copy>(
    alloc: A,
    block: &[usize],
    numbers: &[usize],
) -> Result<Vec<isize, A>, AllocError>
    requires lengths { length numbers.now ≡ length block.now }
    requires fits { (e : ℕ) → 0 < num block.now e → num numbers.now e < 2 ^ 63 }
    ensures size { IfOk result (λ v. length v.items ≡ length block.now) }
    ensures numbers { IfOk result (λ v. (e : ℕ) → e < length block.now →
        at v.items e ≡ pos (cond (nat_lt 0 (num block.now e)) (num numbers.now e) 0)) }
{
    let mut sizes = Vec::with_capacity(alloc, block.len())?;
    'elements: for e in 0..block.len() {
        let number = if block[e] > 0 { numbers[e] } else { 0 };
        sizes.push(signed(number))?;
    }
    Ok(sizes)
}

/// The element of each place, where there is one.
fn by_place<A: Allocator + Copy>(
    alloc: A,
    places: &[isize],
) -> Result<Vec<Option<usize>, A>, AllocError>
    requires listed { (t : Tree) × (o : IsPostorderOf t places.now) ×
        ((k : ℕ) → k < length o.listing → slice_index o.listing k < t.size) }
    ensures { IfOk result (λ v. (t : Tree) → (o : IsPostorderOf t places.now) →
        ((k : ℕ) → k < length o.listing → slice_index o.listing k < t.size) → IsByPlace t.size o.listing v.items) }
{
    let mut elements = vec![in alloc; None; places.len()]?;
    'elements: for e in 0..places.len() {
        if let Some(place) = link_at(places, e) {
            elements[place] = Some(e);
        }
    }
    Ok(elements)
}

/// The elements that stand in a list, in its order.
fn those_there<A: Allocator + Copy>(
    alloc: A,
    places: &[Option<usize>],
) -> Result<Vec<usize, A>, AllocError>
    ensures { IfOk result (λ v. (n : ℕ) → (listing : List ℕ) → IsByPlace n listing places.now → v.items ≡ listing) }
{
    let mut elements = Vec::with_capacity(alloc, places.len())?;
    'places: for place in places {
        if let Some(e) = place {
            elements.push(*e)?;
        }
    }
    Ok(elements)
}

/// The rows of the blocks, one after another: of each its other rows, and then its pivot row.
fn rows_in_order<A: Allocator + Copy>(
    alloc: A,
    elements: &[usize],
    rows: &Vec<Vec<usize, A>, A>,
) -> Result<Vec<usize, A>, AllocError>
    requires range { Below (length rows.now.items) elements.now }
    ensures { IfOk result (λ p. p.items ≡ flat_map (λ e. list_at rows.now.items e ++ e ∷ []) elements.now) }
{
    let mut p = Vec::with_capacity(alloc, rows.len())?;
    'elements: for e in elements {
        p.extend_from_slice(&rows[*e])?;
        p.push(*e)?;
    }
    Ok(p)
}

/// Puts the rows that have no link and are no element behind a list, rising.
fn add_last<A: Allocator>(
    p: &mut Vec<usize, A>,
    link: &[Option<usize>],
    block: &[usize],
) -> Result<(), AllocError>
    requires lengths { length block.now ≡ length link.now }
    ensures { OnOk result (p.new.items ≡ p.old.items ++ list_below (length link.now)
        (λ v. is_none (some_at link.now v) && nat_eq (num block.now v) 0)) }
{
    'rows: for v in 0..link.len() {
        if link[v].is_none() && block[v] == 0 {
            p.push(v)?;
        }
    }
    Ok(())
}

/// The listing of a run that has ended: the blocks of its tree in postorder, then the dense rows; each row once. Links
/// of the record are shortened; what the record then holds is not said.
///
/// # Errors
///
/// `OutOfMemory` for a refused request.
pub fn listing<A: Allocator + Copy>(work: &mut PlainWork<A>) -> Result<Vec<usize, A>, Status>
    requires ended { EndsRun work.old }
    ensures lists { IfOk result (λ p. ListsRun work.old p.items) }
    ensures refused { IfErr result (λ e. e ≡ Status.OutOfMemory) }
{
    let alloc = work.alloc;
    let rows = rows_of_elements(alloc, &mut work.link)?;
    let parent = parent_links(alloc, &work.parent)?;
    let nv = of_elements(alloc, &work.block, &work.block)?;
    let f_size = of_elements(alloc, &work.block, &work.front)?;
    let places = postorder(alloc, work.size.len(), &parent, &nv, &f_size)?;
    let places = by_place(alloc, &places)?;
    let elements = those_there(alloc, &places)?;
    let mut p = rows_in_order(alloc, &elements, &rows)?;
    add_last(&mut p, &work.link, &work.block)?;
    Ok(p)
}
