//! A definition of a form that is declared again (R7RS 5.3): it ends as it did, and is made where it stands.
ghost use Rattle.std.specs.Prelude.{IsTrue, ◌≡◌, ℕ, ◌+◌, ◌≤◌, ◌<◌, ◌++◌, List, [], ◌∷◌, length, reverse, slice_get, true, Option, None, IfOk, OnOk, if◌then◌else◌};
ghost use Rattle.scheme_model.specs.ExpansionFaults.{Named};
ghost use Rattle.scheme_model.specs.Ident.{Ident as Identifier};
ghost use Rattle.scheme_model.specs.Order.{Note as ModelNote, is_some};
ghost use Rattle.scheme_model.specs.Questions.{Moment, Question as ModelQuestion};
ghost use Rattle.scheme_model.specs.RulesShape.{Rules};
ghost use Rattle.scheme_model.specs.ScopedExpansion.{Frames, FramedIdent, ScopedState};
ghost use Rattle.core_tree.specs.Names.{AllMatch};
ghost use Rattle.form_notes.specs.Standing.{outcome_as};
ghost use Rattle.form_notes.specs.declared.notes.Note.{Note as AnyNote};
ghost use Rattle.unit_scopes.specs.Defining.{outcome_here};
ghost use Rattle.unit_scopes.specs.Kept.{NotesFor};
ghost use Rattle.unit_scopes.specs.Outcomes.{At};
ghost use Rattle.syntax_tree.specs.declared.trees.Work.{Work as AnyWork};
ghost use Rattle.unit_scopes.specs.declared.scope.UnitScope.{UnitScope as AnyUnits};
ghost use Rattle.declared_parts.specs.Again.{CanDeclare};
ghost use Rattle.declared_parts.specs.Going.{name_of, note_of, note_at, own_spot, CanEnd, CanSetOwn, GoesOn, HasGoneBy, KeptFrom, IsMacroIn, IsNext, IsNextMacro, OwnSoFar, Tells};
ghost use Rattle.declared_parts.specs.Parts.{OwnNoteFor};

use crate::again::Going;
use crate::parts::{DeclaredPart, KeptMacro, OwnNote};
use crate::undoing::Made;
use core_forms::NamePart;
use form_notes::{Definition, Outcome};
use form_parts::items::Spot;
use ls_base::Mem;
use scope_env::ScopeNo;
use std::alloc::Global;
use syntax_tree::trees::Work;
use unit_scopes::UnitScope;
use unit_scopes::asked::{Asked, Asking, Note as AskedNote};
use unit_scopes::macros::{Macro, copy_rules};

/// Whether a definition ends as it did, in view of the form's own notes by then and of the unit's before the form. One that stands is made.
pub fn defines_again(
    units: &mut UnitScope,
    work: &Work,
    part: &DeclaredPart,
    definition: Definition,
    answer: Outcome,
    going: &mut Going,
) -> Mem<bool>
    requires { (old : AnyUnits) × (n : ℕ) × (can : CanDeclare work.now old n part.now) × (made : ℕ) × GoesOn work.now old n part.now can units.old going.old made
        × ((left : List AnyNote) × KeptFrom work.now old n part.now can going.old.macros (note_of definition answer made ∷ left)) × ((q : Moment × ModelQuestion) × Tells work.now old n part.now can (note_of definition answer made) q) }
    ensures { (old : AnyUnits) (n : ℕ) (can : CanDeclare work.now old n part.now) (left : List AnyNote) (made : ℕ) (q : Moment × ModelQuestion) → GoesOn work.now old n part.now can units.old going.old made →
        KeptFrom work.now old n part.now can going.old.macros (note_of definition answer made ∷ left) → Tells work.now old n part.now can (note_of definition answer made) q → HasGoneBy work.now old n part.now can (note_of definition answer made) left made units.new going.new result }
{
    own_until(units, work, part, definition.asked, going)?;
    let ends = ends_here(units, work, definition, &going.own);
    if !is_same(ends, answer) {
        return Ok(false);
    }
    match answer {
        Outcome::Stands => {
            make_again(units, work, part, definition, going)?;
            Ok(true)
        }
        Outcome::Redefines => Ok(true),
        Outcome::StoodBefore => Ok(true),
    }
}

/// Whether a definition ends as it did.
fn is_same(ends: Outcome, answer: Outcome) -> bool
    ensures same { IsTrue result → ends ≡ answer }
    ensures other { ends ≡ answer → IsTrue result }
{
    ends == answer
}

/// Goes to so many of the form's own notes.
fn own_until(
    units: &UnitScope,
    work: &Work,
    part: &DeclaredPart,
    asked: usize,
    going: &mut Going,
) -> Mem<()>
    requires can { (ls : List Frames) × (own : List (ModelNote FramedIdent)) × CanSetOwn work.now units.now part.now ls own asked going.old }
    requires few { asked ≤ length part.now.asked }
    ensures rest { OnOk result (going.new ≡ record going.old { own = going.new.own; asked = asked }) }
    ensures own { (ls : List Frames) (own : List (ModelNote FramedIdent)) → CanSetOwn work.now units.now part.now ls own asked going.old → OnOk result (OwnSoFar work.now ls own going.new.own asked) }
{
    go_back(units, asked, going);
    let since = &part.asked.as_slice()[going.asked..asked];
    own_in(&mut going.own, work, units.root, since)?;
    going.asked = asked;
    Ok(())
}

/// Goes to the first of the form's own notes, where there are more by now than so many.
fn go_back(units: &UnitScope, asked: usize, going: &mut Going)
    ensures few { going.new.asked ≤ asked }
    ensures rest { going.new ≡ record going.old { own = going.new.own; asked = going.new.asked } }
    ensures own { (work : AnyWork) (ls : List Frames) (own : List (ModelNote FramedIdent)) → OwnSoFar work ls own going.old.own going.old.asked → OwnSoFar work ls own going.new.own going.new.asked }
{
    if going.asked <= asked {
        return;
    }
    going.own = Asked::new(units.alloc);
    going.asked = 0;
}

/// Adds notes of what was asked in a unit itself.
pub fn own_in(asked: &mut Asked, work: &Work, root: ScopeNo, notes: &[OwnNote]) -> Mem<()>
    requires { (ls : List Frames) × (ms : List (ModelNote FramedIdent)) × AllMatch (OwnNoteFor work.now.symbols) notes.now ms }
    ensures { (ls : List Frames) (ms ns : List (ModelNote FramedIdent)) → At ls root [] → AllMatch (OwnNoteFor work.now.symbols) notes.now ms → NotesFor work.now ls asked.old ns →
        OnOk result (NotesFor work.now ls asked.new (reverse ms ++ ns)) }
{
    for note in notes {
        asked.push(&work.symbols, note.at(root))?;
    }
    Ok(())
}

/// How a definition ends in the unit, in view of these notes of its form and of those before it.
fn ends_here(units: &UnitScope, work: &Work, definition: Definition, own: &Asked) -> Outcome
    requires { (ls : List Frames) × (s : ScopedState) × (x : Named Identifier) × (ns : List (ModelNote FramedIdent)) × (ms : List (ModelNote FramedIdent)) × CanEnd work.now units.now definition own.now ls s x ns ms }
    ensures { (ls : List Frames) (s : ScopedState) (x : Named Identifier) (r : Option (Rules Identifier)) (ns ms : List (ModelNote FramedIdent)) → CanEnd work.now units.now definition own.now ls s x ns ms →
        is_some r ≡ definition.keyword → outcome_as result ≡ outcome_here None x r [] (ns ++ ms) s }
{
    let name = name_of(definition);
    let spot = root_of(units);
    match units.outcome(work, spot, name, definition.keyword, own) {
        Outcome::Redefines => Outcome::Redefines,
        Outcome::StoodBefore => units.outcome(work, spot, name, definition.keyword, &units.asked),
        Outcome::Stands => units.outcome(work, spot, name, definition.keyword, &units.asked),
    }
}

/// Makes a definition that stands. What the unit's own scope bound its identifier to before is kept.
fn make_again(
    units: &mut UnitScope,
    work: &Work,
    part: &DeclaredPart,
    definition: Definition,
    going: &mut Going,
) -> Mem<()>
    requires { (old : AnyUnits) × (n : ℕ) × (can : CanDeclare work.now old n part.now) × (made : ℕ) × (h : GoesOn work.now old n part.now can units.old going.old made) × IsNext work.now can.again can.editions h.moment definition (slice_get part.now.macros going.old.macros) }
    ensures next { (old : AnyUnits) (n : ℕ) (can : CanDeclare work.now old n part.now) (made : ℕ) (h : GoesOn work.now old n part.now can units.old going.old made) →
        IsNext work.now can.again can.editions h.moment definition (slice_get part.now.macros going.old.macros) → OnOk result (GoesOn work.now old n part.now can units.new going.new (made + 1)) }
    ensures macros { OnOk result (going.new.macros ≡ (if definition.keyword then going.old.macros + 1 else going.old.macros)) }
{
    work.symbols.told_apart();
    let before = units.env.bound(units.root, definition.ident);
    going.made.push(Made {
        ident: definition.ident,
        before,
        keyword: definition.keyword,
    })?;
    let kept = next_macro(units, part, definition.keyword, going)?;
    let spot = root_of(units);
    Ok(units.make(work, spot, name_of(definition), kept, true)?)
}

/// The form's next macro, in the unit's own scope, where a keyword is defined.
fn next_macro(
    units: &UnitScope,
    part: &DeclaredPart,
    keyword: bool,
    going: &mut Going,
) -> Mem<Option<Macro>>
    requires { keyword ≡ true → going.old.macros < length part.now.macros }
    ensures rest { OnOk result (going.new ≡ record going.old { macros = if keyword then going.old.macros + 1 else going.old.macros }) }
    ensures kept { IfOk result (λ kept. IsNextMacro units.now.root (slice_get part.now.macros going.old.macros) keyword kept) }
{
    if !keyword {
        return Ok(None);
    }
    let kept = macro_in(
        units.alloc,
        units.root,
        &part.macros.as_slice()[going.macros],
    )?;
    going.macros += 1;
    Ok(Some(kept))
}

/// A macro once more, in a scope.
fn macro_in(alloc: Global, scope: ScopeNo, kept: &KeptMacro) -> Mem<Macro>
    ensures { IfOk result (λ copy. IsMacroIn scope kept.now copy) }
{
    let rules = copy_rules(alloc, &kept.rules)?;
    let leaves = Vec::from_slice(alloc, kept.leaves.as_slice())?;
    Ok(Macro {
        scope,
        rules,
        leaves,
        edition: kept.edition,
    })
}

/// The name of a definition.
fn name_of(definition: Definition) -> NamePart
    ensures { result ≡ name_of definition }
{
    NamePart {
        ident: definition.ident,
        occ: definition.occ,
    }
}

/// The unit's own scope.
fn root_of(units: &UnitScope) -> Spot
    ensures { result ≡ own_spot units.now }
{
    Spot {
        in_body: false,
        scope: units.root,
    }
}

impl OwnNote {
    /// The same in the unit's own scope.
    fn at(self, root: ScopeNo) -> AskedNote
        ensures { result ≡ note_at root self }
    {
        match self {
            OwnNote::LookedUp {
                ident,
                head,
                keyword,
            } => AskedNote::LookedUp {
                at: Asking { scope: root, ident },
                head,
                keyword,
            },
            OwnNote::Compared {
                literal,
                ident,
                held,
            } => AskedNote::Compared {
                literal: Asking {
                    scope: root,
                    ident: literal,
                },
                at: Asking { scope: root, ident },
                held,
            },
        }
    }
}
