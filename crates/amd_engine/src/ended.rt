// The end of an elimination: what its rounds left is made into links and numbers of rows, and listed. It is handed no
// allocator, and so can ask for no memory. Source: Amestoy, Davis and Duff 2004.

ghost use Rattle.std.specs.Prelude.{◌≡◌, ◌<◌, ℕ, pos, map, length};
ghost use Rattle.amd_types.specs.Permutations.{AreInverse};
ghost use Rattle.amd_words.specs.Words.{num};
ghost use Rattle.amd_lists.specs.Sizes.{AreWideEnough};
ghost use Rattle.amd_workspace.specs.Starting.{KeepsRows};
ghost use Rattle.amd_engine.specs.InPlace.{AreListed, AreOver, told_info};

use crate::running::Told;
use amd_listing::listing::listing;
use amd_types::amd::Info;
use amd_types::index::Index;
use amd_types::internal::from_count;
use amd_words::{Cell, Signed, Unsigned, Word, cell_at};
use amd_workspace::ending::end_rows;
use amd_workspace::rows::RowLists;

/// Writes figures as numbers of the caller's type.
fn write_numbers<I: Index, U: Unsigned>(figures: &[Cell<U>], numbers: &mut [I])
    requires room { length numbers.old ≡ length figures.now }
    requires fits { (k : ℕ) → k < length figures.now → I.fits (pos (num figures.now k)) }
    ensures { map I.value numbers.new ≡ map pos figures.now }
{
    'figures: for k in 0..figures.len() {
        let Some(number) = from_count(cell_at(figures, k)) else {
            unreachable!()
        };
        numbers[k] = number;
    }
}

/// Makes what rounds left into links and numbers of rows, and lists the rows: `head` then has the permutation, and `w`
/// its inverse. Shortens the links in `pe`, and uses `degree` and `len` as scratch.
///
/// The lists of the rows hold what `run` left of `n` of them. Each width holds `n + 2`. For each element, `nv` then has
/// the number of rows of its block, and `e_len` that of its front; for what is none, 0 and -1. `pe` has the parent of
/// each element, or -1.
///
/// Source: Amestoy, Davis and Duff 2004.
pub fn list_rows<S: Signed, P: Signed, U: Unsigned>(rows: &mut RowLists<'_, '_, '_, S, P, U>)
    requires over { AreOver (length rows.old.pe.now) rows.old }
    requires narrow { AreWideEnough S.MOST P.MOST U.MOST (length rows.old.pe.now) 0 }
    ensures listed { AreListed (length rows.old.pe.now) rows.old rows.new }
    ensures loans { KeepsRows rows.old rows.new }
{
    // A list that a record borrows for writing cannot be lent for reading alone, and so gets a name of its own.
    let nv = &mut *rows.nv;
    let e_len = &mut *rows.e_len;
    let degree = &mut *rows.degree;
    end_rows(rows.pe, e_len, nv, degree);
    listing(rows.pe, nv, e_len, degree, rows.len, rows.head, rows.w);
}

/// Writes the order and its inverse that `list_rows` left in `head` and `w`, and what the run tells.
///
/// `head`, `w`, `p` and `p_inv` have a place for each of `n` rows. The caller's type has each number below `n`.
pub fn finish<I: Index, U: Unsigned>(
    told: &Told,
    head: &[Cell<U>],
    w: &[Cell<U>],
    p: &mut [I],
    p_inv: &mut [I],
    info: &mut Info,
)
    requires room { (length p.old ≡ length head.now) × (length p_inv.old ≡ length head.now) }
    requires inverse { AreInverse (length head.now) (map pos head.now) (map pos w.now) }
    requires fits { (k : ℕ) → k < length head.now → I.fits (pos k) }
    ensures order { (map I.value p.new ≡ map pos head.now) × (map I.value p_inv.new ≡ map pos w.now) }
    ensures tells { info.new ≡ told_info told.now info.old }
{
    write_numbers(head, p);
    write_numbers(w, p_inv);
    info.n_dense = told.n_dense;
    info.n_cmp_a = told.n_cmp_a;
    told.figures.write_figures(info);
}
