//! The definitions of each kind, as they are gone through (R7RS 5.3 to 5.5).
ghost use Rattle.std.specs.Prelude.{◌^◌, ◌<◌, ℕ, List, length, OnOk, ◌+◌, ◌≤◌, Vec, Option};
ghost use Rattle.scheme_model.specs.ExpansionFaults.{Named};
ghost use Rattle.scheme_model.specs.Shapes.{RecordShape, Formals as ModelFormals, Clause as ModelClause, Variable, Procedure};
ghost use Rattle.scheme_model.specs.Order.{record_names, modified, Pending as ModelPending, run_define, run_values, run_record, run_syntax};
ghost use Rattle.scheme_model.specs.Ident.{Ident as Identifier};
ghost use Rattle.core_forms.specs.Parts.{IsName, AllMatch as Match, IsFormals};
ghost use Rattle.core_tree.specs.Names.{AllMatch, IsBinder};
ghost use Rattle.scheme_model.specs.Requirements.{Known};
ghost use Rattle.scheme_model.specs.Trees.{Tree as ModelTree};
ghost use Rattle.scheme_model.specs.ScopedExpansion.{Frames, FramedIdent};
ghost use Rattle.syntax_tree.specs.declared.trees.table.Region.{Region as AnyRegion};
ghost use Rattle.feature_requirements.specs.Judged.{Knows};
ghost use Rattle.unit_scopes.specs.State.{most_locals};
ghost use Rattle.unit_scopes.specs.Kept.{NotesFor, PendingFor, ClauseFor};
ghost use Rattle.syntax_tree.specs.Works.{IsStanding, StandsFor};
ghost use Rattle.unit_scopes.specs.Outcomes.{WorksOn};
ghost use Rattle.unit_scopes.specs.Defining.{HasNumber, Takes, define_each};
ghost use Rattle.expander.specs.Passed.{GoesOn};
ghost use Rattle.form_parts.specs.Records.{IsRecordFor};
ghost use Rattle.noted_steps.specs.Noting.{Noting, noting};
ghost use Rattle.noted_steps.specs.Standing.{Stands};
ghost use Rattle.noted_steps.specs.Kept.{SpotFor, EndsIn};
ghost use Rattle.noted_steps.specs.Kept.{CanGo};

use core_forms::{ClauseShape, Formals, NamePart};
use core_tree::cores::Binder;
use feature_requirements::fault::ExpandFault;
use form_parts::items::{Form, Kept, Pending, Spot};
use form_parts::records::{Record, modified, used};
use noted_steps::defining::{define, is_assigned};
use noted_steps::rules::test_rules;
use scheme_model::Occ;
use std::alloc::Global;
use syntax_tree::trees::{Tree, Work};
use unit_scopes::asked::Asked;
use unit_scopes::scope::UnitScope;

/// `(define id e)`, or a later one of a program's variable.
pub(crate) fn define_variable(
    units: &mut UnitScope,
    work: &Work,
    spot: Spot,
    name: NamePart,
    form: Form,
    pending: &mut Pending,
    asked: &Asked,
) -> Result<(), ExpandFault>
    requires can { CanGo work.now units.old spot asked.now }
    requires name { HasNumber work.now name }
    requires room { units.old.form.budget.locals + 1 ≤ most_locals units.old.form.budget.nodes }
    ensures { (known : Known) (region : AnyRegion) (ls : List Frames) (s : Noting) (fs : Frames) (n : Named Identifier) (t : ModelTree Identifier) (p : ModelPending Identifier FramedIdent) (given : ℕ) →
        Knows units.old.libraries known → Stands work.now units.old ls s → SpotFor work.now units.old ls s spot fs → IsName work.now name n → WorksOn work.now region form.tree t →
        PendingFor work.now region units.old.unit units.old.form.number pending.old p → NotesFor work.now ls asked.now p.notes → 1 ≤ given →
        GoesOn work.now work.now region units.old units.new ls spot fs p.todo given pending.new asked.now result (λ go. run_define (noting known) go form.here fs p (Variable n t) s) }
{
    if is_assigned(units, spot, name.ident) {
        pending.aside.push(Kept::Assigned(name, form))?;
        return Ok(());
    }
    let binder = units.next_binder(spot, name);
    define(units, work, spot, form.here, name, None, asked)?;
    pending.aside.push(Kept::Value(binder, form))?;
    Ok(())
}

/// `(define (id . formals) body)`, or a later one of a program's variable.
pub(crate) fn define_function(
    units: &mut UnitScope,
    work: &Work,
    spot: Spot,
    here: Option<Occ>,
    name: NamePart,
    clause: ClauseShape,
    pending: &mut Pending,
    asked: &Asked,
) -> Result<(), ExpandFault>
    requires can { CanGo work.now units.old spot asked.now }
    requires name { HasNumber work.now name }
    requires room { units.old.form.budget.locals + 1 ≤ most_locals units.old.form.budget.nodes }
    ensures { (known : Known) (region : AnyRegion) (ls : List Frames) (s : Noting) (fs : Frames) (n : Named Identifier) (c : ModelClause Identifier) (p : ModelPending Identifier FramedIdent) (given : ℕ) →
        Knows units.old.libraries known → Stands work.now units.old ls s → SpotFor work.now units.old ls s spot fs → IsName work.now name n → ClauseFor work.now region clause c →
        PendingFor work.now region units.old.unit units.old.form.number pending.old p → NotesFor work.now ls asked.now p.notes → 1 ≤ given →
        GoesOn work.now work.now region units.old units.new ls spot fs p.todo given pending.new asked.now result (λ go. run_define (noting known) go here fs p (Procedure n c) s) }
{
    if is_assigned(units, spot, name.ident) {
        pending
            .aside
            .push(Kept::AssignedFunction(name, here, clause))?;
        return Ok(());
    }
    let binder = units.next_binder(spot, name);
    define(units, work, spot, here, name, None, asked)?;
    pending.aside.push(Kept::Function(binder, here, clause))?;
    Ok(())
}

/// Defines names one after another, each a variable: their binders.
fn define_all(
    units: &mut UnitScope,
    alloc: Global,
    work: &Work,
    spot: Spot,
    here: Option<Occ>,
    names: &[NamePart],
    asked: &Asked,
) -> Result<Vec<Binder>, ExpandFault>
    requires can { CanGo work.now units.old spot asked.now }
    requires names { (ns : List (Named Identifier)) × Match (IsName work.now) names.now ns }
    requires room { units.old.form.budget.locals + length names.now ≤ most_locals units.old.form.budget.nodes }
    ensures defined { (known : Known) (ls : List Frames) (s : Noting) (fs : Frames) (ns : List (Named Identifier)) (p : ModelPending Identifier FramedIdent) →
        Stands work.now units.old ls s → SpotFor work.now units.old ls s spot fs → Match (IsName work.now) names.now ns → NotesFor work.now ls asked.now p.notes →
        EndsIn (λ bs ms. AllMatch (IsBinder work.now.symbols units.old.unit units.old.form.number) bs.items ms) work.now units.old units.new ls spot fs result (define_each (noting known) here fs ns p s) }
    ensures counts { OnOk result (Takes (length names.now) units.old units.new) }
{
    let mut binders = Vec::new(alloc);
    for name in names {
        let binder = units.next_binder(spot, *name);
        define(units, work, spot, here, *name, None, asked)?;
        binders.push(binder)?;
    }
    Ok(binders)
}

/// `(define-values formals e)`.
pub(crate) fn define_values(
    units: &mut UnitScope,
    alloc: Global,
    work: &Work,
    spot: Spot,
    formals: Formals,
    form: Form,
    pending: &mut Pending,
    asked: &Asked,
) -> Result<(), ExpandFault>
    requires can { CanGo work.now units.old spot asked.now }
    requires names { (m : ModelFormals Identifier) × IsFormals work.now formals m }
    requires room { units.old.form.budget.locals + length formals.names.items ≤ most_locals units.old.form.budget.nodes }
    ensures { (known : Known) (region : AnyRegion) (ls : List Frames) (s : Noting) (fs : Frames) (m : ModelFormals Identifier) (t : ModelTree Identifier) (p : ModelPending Identifier FramedIdent) (given : ℕ) →
        Knows units.old.libraries known → Stands work.now units.old ls s → SpotFor work.now units.old ls s spot fs → IsFormals work.now formals m → WorksOn work.now region form.tree t →
        PendingFor work.now region units.old.unit units.old.form.number pending.old p → NotesFor work.now ls asked.now p.notes → length m.names < given →
        GoesOn work.now work.now region units.old units.new ls spot fs p.todo given pending.new asked.now result (λ go. run_values (noting known) go form.here fs p (m, t) s) }
{
    let Formals { names, dotted } = formals;
    let binders = define_all(units, alloc, work, spot, form.here, &names, asked)?;
    pending.aside.push(Kept::Values {
        binders,
        dotted,
        form,
    })?;
    Ok(())
}

/// `(define-record-type name constructor predicate field ...)`.
pub(crate) fn define_record(
    units: &mut UnitScope,
    alloc: Global,
    work: &Work,
    spot: Spot,
    here: Option<Occ>,
    shape: &Record,
    pending: &mut Pending,
    asked: &Asked,
) -> Result<(), ExpandFault>
    requires can { CanGo work.now units.old spot asked.now }
    requires standing { (m : RecordShape Identifier) × IsRecordFor work.now shape.now m }
    requires small { length shape.now.fields.items < 2 ^ 32 }
    requires room { (m : RecordShape Identifier) → IsRecordFor work.now shape.now m → units.old.form.budget.locals + length m.fields + length (record_names m) ≤ most_locals units.old.form.budget.nodes }
    ensures { (known : Known) (region : AnyRegion) (ls : List Frames) (s : Noting) (fs : Frames) (m : RecordShape Identifier) (p : ModelPending Identifier FramedIdent) (given : ℕ) →
        Knows units.old.libraries known → Stands work.now units.old ls s → SpotFor work.now units.old ls s spot fs → IsRecordFor work.now shape.now m →
        PendingFor work.now region units.old.unit units.old.form.number pending.old p → NotesFor work.now ls asked.now p.notes → length m.fields + length (record_names m) ≤ given →
        GoesOn work.now work.now region units.old units.new ls spot fs p.todo given pending.new asked.now result (λ go. run_record (noting known) go here fs p m s) }
{
    work.symbols.told_apart();
    let field_names = shape.field_names(alloc)?;
    let fields = units.take_locals(&field_names)?;
    let names = shape.names(alloc)?;
    let binders = define_all(units, alloc, work, spot, here, &names, asked)?;
    let places = modified(alloc, &shape.fields)?;
    let uses = used(alloc, &shape.used, &shape.fields)?;
    pending.aside.push(Kept::Record {
        binders,
        fields,
        modified: places,
        used: uses,
    })?;
    Ok(())
}

/// `(define-syntax id rules)`.
pub(crate) fn define_syntax(
    units: &mut UnitScope,
    alloc: Global,
    work: &Work,
    spot: Spot,
    here: Option<Occ>,
    name: NamePart,
    rules: Tree,
    pending: &mut Pending,
    asked: &mut Asked,
) -> Result<(), ExpandFault>
    requires can { CanGo work.now units.old spot asked.old }
    requires name { HasNumber work.now name }
    requires rules { IsStanding work.now rules }
    requires room { units.old.form.budget.locals + 1 ≤ most_locals units.old.form.budget.nodes }
    ensures { (known : Known) (region : AnyRegion) (ls : List Frames) (s : Noting) (fs : Frames) (n : Named Identifier) (t : ModelTree Identifier) (p : ModelPending Identifier FramedIdent) (given : ℕ) →
        Knows units.old.libraries known → Stands work.now units.old ls s → SpotFor work.now units.old ls s spot fs → IsName work.now name n → StandsFor work.now rules t →
        PendingFor work.now region units.old.unit units.old.form.number pending.old p → NotesFor work.now ls asked.old p.notes → 1 ≤ given →
        GoesOn work.now work.now region units.old units.new ls spot fs p.todo given pending.new asked.new result (λ go. run_syntax (noting known) go here fs p (n, t) s) }
{
    units.note_rules(work, spot.scope, rules, asked)?;
    test_rules(units, work, spot.scope, here, rules)?;
    let defined = units.read_macro(alloc, work, spot.scope, here, rules)?;
    let binder = units.next_binder(spot, name);
    let meaning = units.next_meaning(spot, name.ident);
    define(units, work, spot, here, name, Some(defined), asked)?;
    pending.aside.push(Kept::Macro(binder, meaning))?;
    Ok(())
}
