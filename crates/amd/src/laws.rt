// Laws on the contracts of `order` and `order_holding`, and on the bytes of a workspace, each the contract of a
// function with an empty body.

ghost use Rattle.std.specs.Prelude.{◌≡◌, ◌<◌, ◌≤◌, ℕ, ℤ, Bool, true, false, Option, Some, List, unsigned_abs};
ghost use Rattle.std.specs.Prelude.{slice_index_or};
ghost use Rattle.amd_types.specs.declared.amd.Info.{Info};
ghost use Rattle.amd_model.specs.Input.Pattern.{SamePattern};
ghost use Rattle.amd.specs.Blocks.{workspace_bytes};
ghost use Rattle.amd.specs.Answers.{AreOneAnswer, AreDense, IsOrdering, IsOrderingHolding, HaveEqualFigures};

/// Two answers for inputs with the same `n` and the same set of pairs tell the same figures of the pattern, whatever
/// the dense row parameters are and whatever rows are marked.
pub fn law_equal_figures()
    ensures { (hold held : Option (List Bool)) (n t u : ℤ) (x y : Bool) (ap ai bp bi p q r s : List ℤ)
        (one other : Info) → IsOrderingHolding hold n t x ap ai p q one → IsOrderingHolding held n u y bp bi r s other →
        SamePattern (unsigned_abs n) ap ai bp bi → HaveEqualFigures one other }
{}

/// Two answers by one dense row parameter and the same marks, for inputs with the same `n` and the same set of pairs,
/// tell the same number of rows held last.
pub fn law_equal_dense_rows()
    ensures { (hold : Option (List Bool)) (n t : ℤ) (x y : Bool) (ap ai bp bi p q r s : List ℤ) (one other : Info) →
        IsOrderingHolding hold n t x ap ai p q one → IsOrderingHolding hold n t y bp bi r s other →
        SamePattern (unsigned_abs n) ap ai bp bi → one.n_dense ≡ other.n_dense }
{}

/// An input has one answer by one `Control`: no other permutation meets the contract of `order`, and no other record
/// but for its `n_cmp_a`.
pub fn law_one_answer()
    ensures { (n t : ℤ) (aggressive : Bool) (ap ai p q r s : List ℤ) (one other : Info) →
        IsOrdering n t aggressive ap ai p q one → IsOrdering n t aggressive ap ai r s other →
        AreOneAnswer p q r s one other }
{}

/// The answer depends on `n`, the set of pairs, whether a column is jumbled, and the `Control` alone: for two inputs
/// that agree in these it is the same, but for its `n_cmp_a`.
pub fn law_equal_answers()
    ensures { (n t : ℤ) (aggressive : Bool) (ap ai bp bi p q r s : List ℤ) (one other : Info) →
        IsOrdering n t aggressive ap ai p q one → IsOrdering n t aggressive bp bi r s other →
        SamePattern (unsigned_abs n) ap ai bp bi → one.status ≡ other.status → AreOneAnswer p q r s one other }
{}

/// The answer of `order_holding` depends on these and the marks alone.
pub fn law_equal_holding()
    ensures { (hold : Option (List Bool)) (n t : ℤ) (aggressive : Bool) (ap ai bp bi p q r s : List ℤ)
        (one other : Info) → IsOrderingHolding hold n t aggressive ap ai p q one →
        IsOrderingHolding hold n t aggressive bp bi r s other → SamePattern (unsigned_abs n) ap ai bp bi →
        one.status ≡ other.status → AreOneAnswer p q r s one other }
{}

/// With nothing marked `order_holding` gives the answer of `order`, but for its `n_cmp_a`.
pub fn law_nothing_held()
    ensures { (marks : List Bool) (n t : ℤ) (aggressive : Bool) (ap ai p q r s : List ℤ) (one other : Info) →
        IsOrderingHolding (Some marks) n t aggressive ap ai p q one → IsOrdering n t aggressive ap ai r s other →
        ((v : ℕ) → slice_index_or marks v false ≡ false) → AreOneAnswer p q r s one other }
{}

/// Marks of rows that are dense anyway change nothing: `order_holding` gives the answer of `order`, but for its
/// `n_cmp_a`.
pub fn law_dense_rows_held()
    ensures { (marks : List Bool) (n t : ℤ) (aggressive : Bool) (ap ai p q r s : List ℤ) (one other : Info) →
        IsOrderingHolding (Some marks) n t aggressive ap ai p q one → IsOrdering n t aggressive ap ai r s other →
        AreDense marks (unsigned_abs n) t ap ai → AreOneAnswer p q r s one other }
{}

/// A block that is enough for so many rows and entries is enough for fewer.
pub fn law_fewer_bytes()
    ensures { (rows entries most_rows most_entries : ℕ) → rows ≤ most_rows → entries ≤ most_entries →
        workspace_bytes rows entries ≤ workspace_bytes most_rows most_entries }
{}
