// The lists around a pivot: those of the elements that it lists, and behind them what its own list names as variables.
// One walk goes over them, list after list, and a visitor takes the words of each. Source: Amestoy, Davis and Duff 1996
// (element formation).

ghost use Rattle.std.specs.Prelude.{ℕ, [], ◌≡◌, ◌<◌, ◌≤◌, ◌+◌, length};
ghost use Rattle.amd_words.specs.Words.{rows, word};
ghost use Rattle.amd_lists.specs.Spans.{IsSpan};
ghost use Rattle.amd_elements.specs.Premises.{HasListsAround};
ghost use Rattle.amd_elements.specs.Room.{named_around};
ghost use Rattle.amd_elements.specs.Visiting.{CanTake, Takes, Visit, visited};

use amd_words::words::named;
use amd_words::{Cell, Signed, Unsigned, Word, cell_at};

/// What takes the words of lists that stand before a place `end`, one list after another. What holds of it speaks of
/// `end`, of the rows that all lists name and those that were taken so far, and of the visitor at first and now, with
/// the words and the sizes before it.
pub trait ListVisitor {
    ghost holds: { Visit Self };

    /// Takes the rows that `count` words name. No word before `end` changes.
    fn take<S: Signed>(
        &mut self,
        iw: &mut [Word<S>],
        nv: &mut [Word<S>],
        from: usize,
        count: usize,
        end: usize,
    )
        requires span { IsSpan (length nv.old) iw.old from count }
        requires before { from + count ≤ end }
        requires held { CanTake holds end (rows iw.old from count) (visited iw.old nv.old self.old) }
        ensures held { Takes holds end (rows iw.old from count) (visited iw.old nv.old self.old)
            (visited iw.new nv.new self.new) }
        ensures words { (k : ℕ) → k < end → word iw.new k ≡ word iw.old k }
        ensures lengths { (length iw.new ≡ length iw.old) × (length nv.new ≡ length nv.old) };
}

/// Lets a visitor take the lists around the pivot: those of its first `n_elements` words, which name elements, and the
/// rest of its own words. All of them stand before `end`.
pub fn visit_around<S: Signed, P: Signed, U: Unsigned, V: ListVisitor>(
    visitor: &mut V,
    iw: &mut [Word<S>],
    nv: &mut [Word<S>],
    pe: &[Word<P>],
    len: &[Cell<U>],
    pivot: usize,
    n_elements: usize,
    end: usize,
)
    requires lists { HasListsAround pivot n_elements iw.old nv.old pe.now len.now end }
    requires pivot { pivot < length nv.old }
    requires end { end ≤ length iw.old }
    requires held { V.holds end (named_around iw.old pe.now len.now pivot n_elements) []
        (visited iw.old nv.old visitor.old) (visited iw.old nv.old visitor.old) }
    ensures held { V.holds end (named_around iw.old pe.now len.now pivot n_elements)
        (named_around iw.old pe.now len.now pivot n_elements) (visited iw.old nv.old visitor.old)
        (visited iw.new nv.new visitor.new) }
    ensures lengths { (length iw.new ≡ length iw.old) × (length nv.new ≡ length nv.old) }
{
    let from = named(pe, pivot);
    for p in from..from + n_elements {
        let e = named(iw, p);
        let first = named(pe, e);
        visitor.take(iw, nv, first, cell_at(len, e), end);
    }
    let rest = cell_at(len, pivot) - n_elements;
    visitor.take(iw, nv, from + n_elements, rest, end);
}
