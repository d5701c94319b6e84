//! What callers need to know to keep what an environment stands for. Each law is the contract of a function that does nothing;
//! `old` is the environment before a call, and what stands beside `with_..` is that of the call's clause.
ghost use Rattle.std.specs.Prelude.{◌≡◌, ◌<◌, ◌==◌, ◌||◌, ◌⊎◌, ℕ, [], ◌∷◌, length, false, Option, Some, None};
ghost use Rattle.std.specs.FinMap.{get};
ghost use Rattle.scheme_model.specs.Identifiers.{Number};
ghost use Rattle.scheme_model.specs.Ident.{Ident as Identifier};
ghost use Rattle.scheme_model.specs.Meaning as model;
ghost use Rattle.scheme_model.specs.Meaning.{of_form};
ghost use Rattle.scheme_model.specs.Scopes.{Chain, Uses, Own, means};
ghost use Rattle.syntax_tree.specs.Names.{Names, AreToldApart, KeepsNames};
ghost use Rattle.syntax_tree.specs.Macros.{IsIdent};
ghost use Rattle.syntax_tree.specs.Meant.{IsGivenMeaning};
ghost use Rattle.syntax_tree.specs.declared.meaning.Meaning as code_meaning;
ghost use Rattle.syntax_tree.specs.declared.meaning.Meaning.TheVariants as code;
ghost use Rattle.scope_env.specs.Environment.{Environment, IsSound, with_root, with_child, with_bound, with_use, with_before, without_locals};
ghost use Rattle.scope_env.specs.Resolved.{bound_at};
ghost use Rattle.scope_env.specs.Standing.{EnvFor, StandsFor, IsGiven, AreLocalsOf, AreOf, AreUsesOf};
ghost use Rattle.scope_env.specs.Moved.{parent_of, is_around, with_use_under, with_binder, with_given, has_use, AreNamed, AreGivenNamed};

/// A new local scope stands for the binders around it, and all else for what it did.
pub fn children_stand()
    ensures child { (names : Names) (old : Environment) (parent : ℕ) (c : Chain) → IsSound old → parent < length old.scopes →
        StandsFor names old (Some parent) c → StandsFor names (with_child old parent) (Some (length old.scopes)) c }
    ensures scopes { (names : Names) (old : Environment) (parent : ℕ) (c : Chain) (n : ℕ) → IsSound old → parent < length old.scopes →
        n < length old.scopes → StandsFor names old (Some n) c → StandsFor names (with_child old parent) (Some n) c }
    ensures env { (names : Names) (old : Environment) (parent : ℕ) (given : Own) (uses : Uses) → IsSound old → parent < length old.scopes →
        EnvFor names old given uses → EnvFor names (with_child old parent) given uses }
{}

/// A unit's own scope has no binders around it, and all else stands for what it did.
pub fn roots_stand()
    ensures root { (names : Names) (old : Environment) (unit : ℕ) → IsSound old → get old.roots unit ≡ None →
        StandsFor names (with_root old unit) (Some (length old.scopes)) [] }
    ensures scopes { (names : Names) (old : Environment) (unit : ℕ) (c : Chain) (n : ℕ) → IsSound old → get old.roots unit ≡ None →
        n < length old.scopes → StandsFor names old (Some n) c → StandsFor names (with_root old unit) (Some n) c }
    ensures env { (names : Names) (old : Environment) (unit : ℕ) (given : Own) (uses : Uses) → IsSound old → get old.roots unit ≡ None →
        EnvFor names old given uses → EnvFor names (with_root old unit) given uses }
{}

/// A binder more in a local scope comes first of those that the scope stands for, and so of those around the macros whose uses
/// were noted with this scope. What doesn't have that scope around it stands for what it did.
pub fn binders_stand()
    ensures scope { (names : Names) (old : Environment) (scope parent ident : ℕ) (i : Identifier) (v : Number) (c : Chain) → IsSound old →
        AreToldApart names.idents → IsIdent names ident i → parent_of old scope ≡ Some parent → StandsFor names old (Some scope) c →
        StandsFor names (with_bound old scope ident (code.Local v.count)) (Some scope) (record { ident = i; binder = v } ∷ c) }
    ensures others { (names : Names) (old : Environment) (scope ident : ℕ) (m : code_meaning.Meaning) (c : Chain) (n : ℕ) → IsSound old →
        n < length old.scopes → is_around old scope n ≡ false → StandsFor names old (Some n) c →
        StandsFor names (with_bound old scope ident m) (Some n) c }
    ensures env { (names : Names) (old : Environment) (scope parent ident : ℕ) (m : code_meaning.Meaning) (given : Own) (uses : Uses) →
        IsSound old → parent_of old scope ≡ Some parent →
        ((k : Number) (n : ℕ) → get old.uses k ≡ Some n → is_around old scope n ≡ false) →
        EnvFor names old given uses → EnvFor names (with_bound old scope ident m) given uses }
    ensures uses { (names : Names) (old : Environment) (scope parent ident : ℕ) (i : Identifier) (v : Number) (given : Own) (uses : Uses) →
        IsSound old → AreToldApart names.idents → IsIdent names ident i → parent_of old scope ≡ Some parent →
        ((k : Number) (n : ℕ) → get old.uses k ≡ Some n → (n ≡ scope) ⊎ (is_around old scope n ≡ false)) →
        EnvFor names old given uses →
        EnvFor names (with_bound old scope ident (code.Local v.count)) given (with_binder old scope (record { ident = i; binder = v }) uses) }
{}

/// A definition more in a unit's own scope: the unit gives it, and no binders change.
pub fn definitions_stand()
    ensures scopes { (names : Names) (old : Environment) (scope unit ident : ℕ) (m : code_meaning.Meaning) (c : Chain) (n : ℕ) → IsSound old →
        get old.roots unit ≡ Some scope → n < length old.scopes → StandsFor names old (Some n) c →
        StandsFor names (with_bound old scope ident m) (Some n) c }
    ensures env { (names : Names) (old : Environment) (scope unit ident : ℕ) (m : code_meaning.Meaning) (i : Identifier) (d : model.Meaning)
        (given : Own) (uses : Uses) → IsSound old → AreToldApart names.idents → IsIdent names ident i → IsGivenMeaning names m d →
        get old.roots unit ≡ Some scope → EnvFor names old given uses →
        EnvFor names (with_bound old scope ident m) (with_given given unit i d) uses }
{}

/// Where the scopes from a number on are forgotten, those before stand for what they did, and so does what units give; no binders are around the
/// macros of uses.
pub fn locals_are_forgotten()
    ensures sound { (old : Environment) (from : ℕ) → IsSound old → ((u n : ℕ) → get old.roots u ≡ Some n → n < from) → IsSound (without_locals old from) }
    ensures scopes { (names : Names) (old : Environment) (from : ℕ) (c : Chain) (n : ℕ) → IsSound old → ((u m : ℕ) → get old.roots u ≡ Some m → m < from) →
        n < from → n < length old.scopes → StandsFor names old (Some n) c → StandsFor names (without_locals old from) (Some n) c }
    ensures env { (names : Names) (old : Environment) (from : ℕ) (given : Own) (uses : Uses) → IsSound old → ((u n : ℕ) → get old.roots u ≡ Some n → n < from) →
        EnvFor names old given uses → EnvFor names (without_locals old from) given (λ k. []) }
{}

/// Where an identifier that was bound is bound again to what the scope bound it to before, or to nothing, the environment is what it was.
pub fn bindings_are_put_back()
    ensures { (old : Environment) (scope ident : ℕ) (m : code_meaning.Meaning) → with_before (with_bound old scope ident m) scope ident (bound_at old scope ident) ≡ old }
{}

/// A use more: its scope has around it what the scope that was noted has. An identifier that this use hasn't inserted means what
/// it did.
pub fn uses_stand()
    ensures scopes { (names : Names) (old : Environment) (k : Number) (scope : ℕ) (c : Chain) (n : ℕ) →
        StandsFor names old (Some n) c → StandsFor names (with_use old k scope) (Some n) c }
    ensures env { (names : Names) (old : Environment) (k : Number) (scope : ℕ) (c : Chain) (given : Own) (uses : Uses) →
        StandsFor names old (Some scope) c → EnvFor names old given uses →
        EnvFor names (with_use old k scope) given (with_use_under uses k c) }
    ensures others { (given : Own) (uses : Uses) (k : Number) (c d : Chain) (i : Identifier) → has_use k i ≡ false →
        means given (with_use_under uses k c) d i ≡ means given uses d i }
{}

/// Where the tables of symbols and identifiers grow, all stands for what it did, as long as what chains bind and units give was in
/// the tables before.
pub fn growth_stands()
    ensures scopes { (before after : Names) (e : Environment) (scope : Option ℕ) (c : Chain) → KeepsNames before after →
        AreToldApart after.idents → AreNamed before c → StandsFor before e scope c → StandsFor after e scope c }
    ensures env { (before after : Names) (e : Environment) (given : Own) (uses : Uses) → KeepsNames before after →
        AreToldApart after.idents → AreGivenNamed before given → ((k : Number) → AreNamed before (uses k)) →
        EnvFor before e given uses → EnvFor after e given uses }
{}

/// What binders bind an identifier to are locals of a form, where the binders around it are of the form, and so are those around
/// the macros of its uses.
pub fn locals_of_a_form()
    ensures locals { (unit form : ℕ) (uses : Uses) (c : Chain) (i : Identifier) → AreOf unit form c → AreUsesOf unit form uses i →
        AreLocalsOf unit form uses c i }
    ensures same { (given : Own) (unit form : ℕ) (uses : Uses) (c : Chain) (i : Identifier) → ((u : ℕ) (j : Identifier) → IsGiven (given u j)) →
        AreLocalsOf unit form uses c i → of_form unit form (means given uses c i) ≡ means given uses c i }
{}

/// A new local scope is inside its parent. Besides itself it has around it what its parent has, an older scope hasn't a newer one
/// around it, and what is around a scope stays around it.
pub fn scopes_around()
    ensures inside { (old : Environment) (parent : ℕ) → parent_of (with_child old parent) (length old.scopes) ≡ Some parent }
    ensures child { (old : Environment) (parent scope : ℕ) → IsSound old → parent < length old.scopes →
        is_around (with_child old parent) scope (length old.scopes) ≡ ((scope == length old.scopes) || is_around old scope parent) }
    ensures older { (old : Environment) (scope n : ℕ) → IsSound old → n < scope → n < length old.scopes →
        is_around old scope n ≡ false }
    ensures after_child { (old : Environment) (parent scope n : ℕ) → IsSound old → parent < length old.scopes → n < length old.scopes →
        is_around (with_child old parent) scope n ≡ is_around old scope n }
    ensures after_root { (old : Environment) (unit scope n : ℕ) → IsSound old → get old.roots unit ≡ None → n < length old.scopes →
        is_around (with_root old unit) scope n ≡ is_around old scope n }
    ensures after_bind { (old : Environment) (at ident scope n : ℕ) (m : code_meaning.Meaning) → IsSound old → n < length old.scopes →
        is_around (with_bound old at ident m) scope n ≡ is_around old scope n }
{}
