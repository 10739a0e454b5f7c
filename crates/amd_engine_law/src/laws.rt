// A law on the contract of an engine, the contract of a function with an empty body.

ghost use Rattle.std.specs.Prelude.{◌≡◌, ℕ, ℤ, Bool, Option, List};
ghost use Rattle.amd_model.specs.Graph.{Graph};
ghost use Rattle.amd_types.specs.declared.amd.Control.{Control};
ghost use Rattle.amd_types.specs.declared.amd.Info.{Info};
ghost use Rattle.amd_engine_law.specs.Engine.{IsAnswerOf};

/// Both engines give one answer: two answers for one graph, with the same starting lists, marks and `Control`, are the
/// same permutations, and what they write into a record is the same but for the count of compactions.
pub fn law_engines_agree()
    ensures { (g : Graph) (lists : ℕ → List ℕ) (hold : Option (List Bool)) (n : ℕ) (control : Control)
        (p q r s : List ℤ) (old one other : Info) → IsAnswerOf g lists hold n control p q old one →
        IsAnswerOf g lists hold n control r s old other → (p ≡ r) × (q ≡ s) ×
        ((record one { n_cmp_a = 0 }) ≡ (record other { n_cmp_a = 0 })) }
{}
