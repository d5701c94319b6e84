//! Definitions while what is asked is noted (R7RS 5.3): how each of the unit's ends, and whether one is an assignment.
ghost use Rattle.std.specs.Prelude.{◌≡◌, ◌+◌, ◌-◌, ◌++◌, ◌≤◌, List, [], ◌∷◌, length, Bool, true, false, Option, OnOk};
ghost use Rattle.scheme_model.specs.ExpansionFaults.{Named};
ghost use Rattle.scheme_model.specs.Ident.{Ident as Identifier};
ghost use Rattle.scheme_model.specs.Order.{Assigns, Note as Asking, Pending, Renamed, told};
ghost use Rattle.scheme_model.specs.Questions.{Stands as StandsOutcome};
ghost use Rattle.scheme_model.specs.Requirements.{Known};
ghost use Rattle.scheme_model.specs.RulesShape.{Rules};
ghost use Rattle.scheme_model.specs.ScopedExpansion.{FramedIdent, Frames};
ghost use Rattle.scheme_model.specs.Substitution.{unchanged};
ghost use Rattle.syntax_tree.specs.Macros.{IsIdent};
ghost use Rattle.syntax_tree.specs.Names.{Names};
ghost use Rattle.syntax_tree.specs.declared.trees.Work.{Work as AnyWork};
ghost use Rattle.core_forms.specs.Parts.{IsName};
ghost use Rattle.question_laws.specs.Noted.{is_defined_in};
ghost use Rattle.form_notes.specs.Noted.{Noted, Since, assigned_as, defined_as, defining};
ghost use Rattle.form_notes.specs.Standing.{IsDefinitionOf, NotingStands, SameStart, outcome_as};
ghost use Rattle.unit_scopes.specs.Defining.{HasNumber, IsKept, Takes};
ghost use Rattle.unit_scopes.specs.Kept.{NotesFor};
ghost use Rattle.unit_scopes.specs.State.{most_locals};
ghost use Rattle.noted_steps.specs.Defined.{failed_as};
ghost use Rattle.noted_steps.specs.Kept.{CanGo, EndsIn, SpotFor};
ghost use Rattle.noted_steps.specs.Noting.{Noting, noting};
ghost use Rattle.noted_steps.specs.Standing.{Stands, with_notes};

use core_forms::NamePart;
use feature_requirements::fault::{ExpandFault, code};
use form_notes::Definition;
use form_parts::items::Spot;
use scheme_model::Occ;
use syntax_tree::symbols::IdNo;
use syntax_tree::trees::Work;
use unit_scopes::asked::Asked;
use unit_scopes::macros::Macro;
use unit_scopes::scope::UnitScope;

/// Whether a later definition of a program's variable is read as an assignment, which is noted.
pub fn is_assigned(units: &mut UnitScope, spot: Spot, ident: IdNo) -> bool
    ensures assigned { (known : Known) (work : AnyWork) (ls : List Frames) (s : Noting) (fs : Frames) (i : Identifier) → Stands work units.old ls s →
        SpotFor work units.old ls s spot fs → IsIdent work.symbols ident i → result ≡ (noting known).is_assigned fs s i }
    ensures noted { (known : Known) (work : AnyWork) (ls : List Frames) (s : Noting) (fs : Frames) (i : Identifier) → Stands work units.old ls s →
        SpotFor work units.old ls s spot fs → IsIdent work.symbols ident i → Stands work units.new ls ((noting known).ask (Assigns fs i ∷ []) s) }
    ensures rest { units.new ≡ with_notes units.old units.new.form.trace.notes }
{
    let answer = units.is_assigned(spot, ident);
    note_assigned(units, spot, ident, answer);
    answer
}

/// Notes whether a definition in a unit is an assignment.
fn note_assigned(units: &mut UnitScope, spot: Spot, ident: IdNo, answer: bool)
    ensures inside { spot.in_body ≡ true → units.new ≡ units.old }
    ensures noted { (names : Names) (r : Since) (ms : List Noted) (i : Identifier) → spot.in_body ≡ false → NotingStands names units.old.form.trace.notes r ms → IsIdent names ident i →
        NotingStands names units.new.form.trace.notes r (assigned_as r i answer ++ ms) }
    ensures rest { units.new ≡ with_notes units.old units.new.form.trace.notes }
    ensures start { SameStart units.old.form.trace.notes units.new.form.trace.notes }
{
    if spot.in_body {
        return;
    }
    units.form.trace.notes.assign(ident, answer);
}

/// Defines a name, as a macro where one is handed in. How that ends in a unit is noted, with how many of these notes of the unit are the
/// form's own.
pub fn define(
    units: &mut UnitScope,
    work: &Work,
    spot: Spot,
    here: Option<Occ>,
    name: NamePart,
    kept: Option<Macro>,
    asked: &Asked,
) -> Result<(), ExpandFault>
    requires can { CanGo work.now units.old spot asked.now }
    requires name { HasNumber work.now name }
    requires room { units.old.form.budget.locals + 1 ≤ most_locals units.old.form.budget.nodes }
    ensures defined { (known : Known) (ls : List Frames) (s : Noting) (fs : Frames) (n : Named Identifier) (r : Option (Rules Identifier)) (p : Pending Identifier FramedIdent) →
        Stands work.now units.old ls s → SpotFor work.now units.old ls s spot fs → IsName work.now name n → IsKept work.now ls fs kept r → NotesFor work.now ls asked.now p.notes →
        EndsIn (λ (done : Unit {0}) (made : Renamed Identifier FramedIdent). made ≡ unchanged p) work.now units.old units.new ls spot fs result (told here ((noting known).define n r fs p s)) }
    ensures counts { OnOk result (Takes 1 units.old units.new) }
{
    work.symbols.told_apart();
    let definition = definition(units, name, kept.is_some(), asked);
    match units.define(work, spot, here, name, kept, asked) {
        Ok(()) => {
            note_made(units, work, spot, definition);
            Ok(())
        }
        Err(ExpandFault::At(fault)) => {
            note_failed(units, spot, definition, fault.code);
            Err(ExpandFault::At(fault))
        }
        Err(ExpandFault::Full) => Err(ExpandFault::Full),
        Err(ExpandFault::Memory) => Err(ExpandFault::Memory),
    }
}

/// A definition in a unit as it is noted, where these are the unit's notes of what was looked up and compared.
fn definition(units: &UnitScope, name: NamePart, keyword: bool, asked: &Asked) -> Definition
    ensures { result ≡ record { ident = name.ident; occ = name.occ; keyword = keyword; asked = length asked.now.notes.items - units.now.form.trace.notes.before } }
{
    Definition {
        ident: name.ident,
        occ: name.occ,
        keyword,
        asked: asked.count().saturating_sub(units.form.trace.notes.before),
    }
}

/// Notes that a definition in a unit stands. From then on it is the form's own.
fn note_made(units: &mut UnitScope, work: &Work, spot: Spot, definition: Definition)
    ensures inside { spot.in_body ≡ true → units.new ≡ units.old }
    ensures noted { (r : Since) (ms : List Noted) (fs : Frames) (x : Named Identifier) (rules : Option (Rules Identifier)) (ns : List (Asking FramedIdent)) (keyword : Bool) → spot.in_body ≡ false →
        NotingStands work.now.symbols units.old.form.trace.notes r ms → IsDefinitionOf work.now.symbols definition x rules ns → is_defined_in r.own r.unit x.name ≡ false →
        NotingStands work.now.symbols units.new.form.trace.notes (defining r x keyword) (defined_as r fs x rules ns StandsOutcome ++ ms) }
    ensures rest { units.new ≡ with_notes units.old units.new.form.trace.notes }
    ensures start { SameStart units.old.form.trace.notes units.new.form.trace.notes }
{
    if spot.in_body {
        return;
    }
    units.form.trace.notes.define(&work.symbols, definition);
}

/// Notes how a definition in a unit failed, by the number of its fault.
fn note_failed(units: &mut UnitScope, spot: Spot, definition: Definition, number: u32)
    ensures inside { spot.in_body ≡ true → units.new ≡ units.old }
    ensures noted { (names : Names) (r : Since) (ms : List Noted) (fs : Frames) (x : Named Identifier) (rules : Option (Rules Identifier)) (ns : List (Asking FramedIdent)) → spot.in_body ≡ false →
        NotingStands names units.old.form.trace.notes r ms → IsDefinitionOf names definition x rules ns →
        NotingStands names units.new.form.trace.notes r (defined_as r fs x rules ns (outcome_as (failed_as number)) ++ ms) }
    ensures rest { units.new ≡ with_notes units.old units.new.form.trace.notes }
    ensures start { SameStart units.old.form.trace.notes units.new.form.trace.notes }
{
    if spot.in_body {
        return;
    }
    let redefines = number == code::KEYWORD_REDEFINED;
    units
        .form
        .trace
        .notes
        .fail_definition(definition, redefines);
}
