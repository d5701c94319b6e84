//! Laws of the definitions. Each is the contract of a function that does nothing.
ghost use Rattle.std.specs.Prelude.{◌≡◌, ℕ, [], Ok};
ghost use Rattle.scheme_model.specs.Ident.{Ident as Identifier};
ghost use Rattle.scheme_model.specs.Requirements.{Known};
ghost use Rattle.scheme_model.specs.Order.{Left, Pending, Item, run};
ghost use Rattle.scheme_model.specs.Expression.{expand, item_part};
ghost use Rattle.scheme_model.specs.UnitExpansion.{max_depth};
ghost use Rattle.scheme_model.specs.FormsAlike.{finish_by};
ghost use Rattle.scheme_model.specs.ScopedExpansion.{FramedIdent};
ghost use Rattle.unit_scopes.specs.Searched.{searched};
ghost use Rattle.noted_steps.specs.Noting.{Noting, state_of, noting};

/// An expansion that notes what it asks comes to what it comes to without notes: the same result and the same state. What notes there were
/// when the form's part began stays told.
pub fn runs_that_note()
    ensures run { (known : Known) (turns : ℕ) (p : Pending Identifier FramedIdent) (s : Noting) →
        let q = run (noting known) turns [] p s in run (searched known) turns [] p (state_of s) ≡ (q.0, state_of q.1) }
    ensures item { (known : Known) (turns : ℕ) (i : Item Identifier) (s : Noting) →
        let q = item_part (expand (noting known) turns) (noting known) max_depth [] i s in
        item_part (expand (searched known) turns) (searched known) max_depth [] i (state_of s) ≡ (q.0, state_of q.1) }
    ensures start { (known : Known) (turns : ℕ) (p : Pending Identifier FramedIdent) (s : Noting) → let t = (run (noting known) turns [] p s).1 in (t.before ≡ s.before) × (t.anew ≡ s.anew) }
{}
