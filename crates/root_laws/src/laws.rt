//! Laws of the definitions. Each is the contract of a function that does nothing.
ghost use Rattle.std.specs.Prelude.{◌≡◌, ℕ, List};
ghost use Rattle.scheme_model.specs.Ident.{Ident as Identifier};
ghost use Rattle.scheme_model.specs.Trees.{Tree};
ghost use Rattle.scheme_model.specs.Order.{Item, Note, WaitingUse};
ghost use Rattle.scheme_model.specs.Requirements.{Known};
ghost use Rattle.scheme_model.specs.ScopedExpansion.{FramedIdent, ScopedState};
ghost use Rattle.forgotten_locals.specs.Outside.{macros_outside, outside};
ghost use Rattle.unit_scopes.specs.Forgotten.{ForgetsLocals, MacrosAtRoot, AreAtRoot};
ghost use Rattle.unit_scopes.specs.Units.{declared, uses_met, expanded};
ghost use Rattle.root_laws.specs.AtRoot.{AllAtRoot};

/// While a form is gone through where all macros and notes stand outside of all frames, so do those that it adds (R7RS 5.3). When its uses
/// are met and what it set aside is expanded, the macros that aren't local stay the same.
pub fn forms_stay_at_the_root()
    ensures declared { (known : Known) (n : ℕ) (t : Tree Identifier) (notes : List (Note FramedIdent)) (s : ScopedState) → AllAtRoot s → AreAtRoot notes →
        let q = declared known n t notes s in AllAtRoot q.1 × AreAtRoot q.0.notes }
    ensures met { (known : Known) (n : ℕ) (us : List (WaitingUse Identifier)) (s : ScopedState) → (uses_met known n us s).macros ≡ s.macros }
    ensures expanded { (known : Known) (n : ℕ) (i : Item Identifier) (s : ScopedState) → macros_outside (expanded known n i s).1.macros ≡ macros_outside s.macros }
{}

/// What is outside of a state forgets what is local in it, and nothing local is there (R7RS 4.3, 5.3). Where all of its macros stand outside of
/// all frames, so do those of the state that aren't local.
pub fn what_is_local_is_forgotten()
    ensures forgets { (s : ScopedState) → ForgetsLocals s (outside s) }
    ensures nothing { (s : ScopedState) → outside (outside s) ≡ outside s }
    ensures root { (s : ScopedState) → AllAtRoot (outside s) → MacrosAtRoot s }
    ensures all { (s : ScopedState) → AllAtRoot s → AllAtRoot (outside s) }
{}
