//! The parts of expressions, expanded: procedures, bodies, local macros (R7RS 4.1.4, 4.2.3, 4.3.1, 5.3.2).
ghost use Rattle.std.specs.Prelude.{◌≡◌, ℕ, ◌^◌, List, Some, OnOk};
ghost use Rattle.scheme_model.specs.Ident.{Ident as Identifier};
ghost use Rattle.scheme_model.specs.Keywords.{CoreKeyword as ModelKeyword};
ghost use Rattle.scheme_model.specs.Trees.{Tree as ModelTree, Trees};
ghost use Rattle.scheme_model.specs.Shapes.{Clause as ModelClause, LocalMacros};
ghost use Rattle.scheme_model.specs.ExpansionFaults.{Named};
ghost use Rattle.scheme_model.specs.Order.{Item};
ghost use Rattle.scheme_model.specs.Expression.{whole, body, expand, each_of, procedure, clauses, lambda, assignment, sequence, set, item_part, parts};
ghost use Rattle.syntax_tree.specs.Works.{IsOpened, StandsFor};
ghost use Rattle.syntax_tree.specs.Looks.{PartsStand};
ghost use Rattle.core_forms.specs.Ends.{keyword_as, ShapeFor};
ghost use Rattle.core_forms.specs.Forms.{Shape};
ghost use Rattle.core_forms.specs.Parts.{AreMacros, IsName};
ghost use Rattle.core_tree.specs.Cores.{CoreStands, CoresStand, ClausesStand, PartStands, PartsStand as PartsOfCores};
ghost use Rattle.core_tree.specs.Names.{AllMatch};
ghost use Rattle.expander.specs.CoreSteps.{case_lambda, conditional, core_step, IsLeft};
ghost use Rattle.unit_scopes.specs.Defining.{HasNumber};
ghost use Rattle.unit_scopes.specs.Kept.{ClauseFor, KeptFor};
ghost use Rattle.expander.specs.Passed.{ShapeFits};
ghost use Rattle.unit_scopes.specs.Outcomes.{IsAtWork, IsEnough, IsEnoughBelow, HasRoom, Spends};
ghost use Rattle.expander.specs.Expanded.{AreAtWork, BodyAtWork, ClauseStands, macros_step, ShapeAtWork, ClauseAtWork, ClausesAtWork, KeptAtWork, AreKeptAtWork, MacrosAtWork};
ghost use Rattle.noted_steps.specs.Noting.{noting};
ghost use Rattle.noted_steps.specs.Outcomes.{Runs};
ghost use Rattle.noted_steps.specs.Kept.{CanLook};

use crate::bodies::{in_place, keep_all, local_defs, pass_body, test_all_rules};
use crate::expressions::{At, Ready, below, prepare, variable};
use crate::passes::judge;
use core_forms::{ClauseShape, CoreKeyword, CoreShape, LocalMacro, NamePart};
use core_tree::cores::{Clause, Core, CorePart};
use feature_requirements::fault::{ExpandFault, code, fails};
use feature_requirements::requirements::chosen_forms;
use form_parts::items::{Kept, names_of};
use form_parts::quasi::outside;
use noted_steps::noted::note;
use noted_steps::rules::macro_def;
use std::alloc::Global;
use syntax_tree::trees::{Region, Tree, Work};
use unit_scopes::scope::UnitScope;

/// The core of an expression.
#[cycle(core)]
fn expand(
    units: &mut UnitScope,
    alloc: Global,
    work: &mut Work,
    region: &Region,
    at: At,
    form: Tree,
) -> Result<Core, ExpandFault>
    requires opened { IsOpened work.old region.now }
    requires look { CanLook work.old units.old at.scope }
    requires form { IsAtWork work.old region.now form }
    requires room { HasRoom (2 ^ 43) units.old }
    ensures runs { (t : ModelTree Identifier) (turns : ℕ) → StandsFor work.old form t → IsEnough at.depth units.old.form.budget.uses turns →
        Runs (λ ls. CoreStands work.new units.new.unit units.new.form.number) work.old work.new region.now units.old units.new at.scope result (λ known fs. expand (noting known) turns at.depth at.here fs (whole t)) }
    ensures locals { OnOk result (Spends 0 units.old units.new) }
{
    let (here, ready) = prepare(units, alloc, work, region, at, form)?;
    let at = in_place(at, here);
    match ready {
        Ready::Core(core) => Ok(core),
        Ready::Call(parts) => {
            let below = below(units, at, 1)?;
            Ok(Core::Call(expand_all(units, alloc, work, region, below, &parts)?))
        }
        Ready::Shape(core, shape) => Ok(expand_shape(units, alloc, work, region, at, core, shape)?),
    }
}

/// The cores of expressions, from left to right.
#[cycle(core)]
fn expand_all(
    units: &mut UnitScope,
    alloc: Global,
    work: &mut Work,
    region: &Region,
    at: At,
    parts: &[Tree],
) -> Result<Vec<Core>, ExpandFault>
    requires opened { IsOpened work.old region.now }
    requires look { CanLook work.old units.old at.scope }
    requires parts { AreAtWork work.old region.now parts.now }
    requires room { HasRoom (2 ^ 43) units.old }
    ensures runs { (ts : List (ModelTree Identifier)) (turns : ℕ) → AllMatch (StandsFor work.old) parts.now ts → IsEnough at.depth units.old.form.budget.uses turns →
        Runs (λ ls cs ms. CoresStand work.new units.new.unit units.new.form.number cs.items ms) work.old work.new region.now units.old units.new at.scope result (λ known fs. each_of (λ t. expand (noting known) turns at.depth at.here fs (whole t)) ts) }
    ensures locals { OnOk result (Spends 0 units.old units.new) }
{
    let mut cores = Vec::with_capacity(alloc, parts.len())?;
    for part in parts {
        let core = expand(units, alloc, work, region, at, *part)?;
        cores.push(core)?;
    }
    Ok(cores)
}

/// The core of a core form by its shape.
#[cycle(core)]
fn expand_shape(
    units: &mut UnitScope,
    alloc: Global,
    work: &mut Work,
    region: &Region,
    at: At,
    core: CoreKeyword,
    shape: CoreShape,
) -> Result<Core, ExpandFault>
    requires opened { IsOpened work.old region.now }
    requires look { CanLook work.old units.old at.scope }
    requires core { (c : ModelKeyword) × (keyword_as core ≡ Some c) }
    requires shape { ShapeAtWork work.old region.now shape }
    requires room { HasRoom (2 ^ 43) units.old }
    ensures runs { (c : ModelKeyword) (m : Shape) (turns : ℕ) → keyword_as core ≡ Some c → ShapeFor work.old shape m → ShapeFits m → IsLeft m → IsEnoughBelow at.depth units.old.form.budget.uses turns →
        Runs (λ ls. CoreStands work.new units.new.unit units.new.form.number) work.old work.new region.now units.old units.new at.scope result (λ known fs. core_step (expand (noting known) turns) (noting known) at.depth at.here fs c m) }
    ensures locals { OnOk result (Spends 0 units.old units.new) }
{
    match shape {
        CoreShape::Quasi {
            datum,
            places,
            parts,
        } => {
            work.trees_fit();
            let below = below(units, at, outside(work, datum, &parts))?;
            let parts = expand_all(units, alloc, work, region, below, &parts)?;
            Ok(Core::Quasi {
                datum,
                places,
                parts,
            })
        }
        CoreShape::Lambda(clause) => lambda(units, alloc, work, region, at, &clause),
        CoreShape::CaseLambda(clauses) => { case_lambda(units, alloc, work, region, at, &clauses) }
        CoreShape::If(parts) => conditional(units, alloc, work, region, at, &parts),
        CoreShape::Set { name, value } => { set(units, alloc, work, region, at, name, value) }
        CoreShape::Begin(forms) => sequence(units, alloc, work, region, at, &forms),
        CoreShape::CondExpand(choices) => {
            let forms = chosen_forms(judge(units, alloc, work), at.here, &choices)?;
            sequence(units, alloc, work, region, at, &forms)
        }
        CoreShape::LetSyntax { macros, body } => {
            let recursive = core == CoreKeyword::LetrecSyntax;
            local_macros(units, alloc, work, region, at, recursive, &macros, &body)
        }
        _ => Err(fails(at.here, code::BAD_PLACE)),
    }
}

/// A clause with its binders and its body.
#[cycle(core)]
fn procedure(
    units: &mut UnitScope,
    alloc: Global,
    work: &mut Work,
    region: &Region,
    at: At,
    clause: &ClauseShape,
) -> Result<Clause, ExpandFault>
    requires opened { IsOpened work.old region.now }
    requires look { CanLook work.old units.old at.scope }
    requires clause { ClauseAtWork work.old region.now clause.now }
    requires room { HasRoom (2 ^ 43) units.old }
    ensures runs { (c : ModelClause Identifier) (turns : ℕ) → ClauseFor work.old region.now clause.now c → IsEnough at.depth units.old.form.budget.uses turns →
        Runs (λ ls. ClauseStands work.new units.new.unit units.new.form.number) work.old work.new region.now units.old units.new at.scope result (λ known fs. procedure (expand (noting known) turns) (noting known) at.depth at.here fs c) }
    ensures locals { OnOk result (Spends 0 units.old units.new) }
{
    work.symbols.told_apart();
    units.env.sound();
    let (scope, binders) = units.bind_names(at.scope, &clause.formals.names)?;
    let inside = At {
        scope,
        here: at.here,
        depth: at.depth,
    };
    let body = body(units, alloc, work, region, inside, &clause.body)?;
    Ok(Clause {
        binders,
        dotted: clause.formals.dotted,
        body: Box::new(alloc, body)?,
    })
}

/// Clauses in a row.
#[cycle(core)]
fn procedures(
    units: &mut UnitScope,
    alloc: Global,
    work: &mut Work,
    region: &Region,
    at: At,
    shapes: &[ClauseShape],
) -> Result<Vec<Clause>, ExpandFault>
    requires opened { IsOpened work.old region.now }
    requires look { CanLook work.old units.old at.scope }
    requires clauses { ClausesAtWork work.old region.now shapes.now }
    requires room { HasRoom (2 ^ 43) units.old }
    ensures runs { (cs : List (ModelClause Identifier)) (turns : ℕ) → AllMatch (ClauseFor work.old region.now) shapes.now cs → IsEnough at.depth units.old.form.budget.uses turns →
        Runs (λ ls xs ms. ClausesStand work.new units.new.unit units.new.form.number xs.items ms) work.old work.new region.now units.old units.new at.scope result (λ known fs. clauses (expand (noting known) turns) (noting known) at.depth at.here fs cs) }
    ensures locals { OnOk result (Spends 0 units.old units.new) }
{
    let mut all = Vec::with_capacity(alloc, shapes.len())?;
    for clause in shapes {
        let next = procedure(units, alloc, work, region, at, clause)?;
        all.push(next)?;
    }
    Ok(all)
}

/// A body: its forms are gone through, and then what was set aside is expanded.
#[cycle(core)]
fn body(
    units: &mut UnitScope,
    alloc: Global,
    work: &mut Work,
    region: &Region,
    at: At,
    forms: &[Tree],
) -> Result<Core, ExpandFault>
    requires opened { IsOpened work.old region.now }
    requires look { CanLook work.old units.old at.scope }
    requires forms { BodyAtWork work.old region.now forms.now }
    requires room { HasRoom (2 ^ 42) units.old }
    ensures runs { (ts : Trees Identifier) (turns : ℕ) → PartsStand work.old forms.now ts → IsEnough at.depth units.old.form.budget.uses turns →
        Runs (λ ls. CoreStands work.new units.new.unit units.new.form.number) work.old work.new region.now units.old units.new at.scope result (λ known fs. expand (noting known) turns at.depth at.here fs (body ts)) }
    ensures locals { OnOk result (Spends (2 ^ 43) units.old units.new) }
{
    let below = below(units, at, 1)?;
    let (scope, aside) = pass_body(units, alloc, work, region, below, forms)?;
    let inside = At {
        scope,
        here: below.here,
        depth: below.depth,
    };
    Ok(Core::Body(expand_kept(units, alloc, work, region, inside, &aside)?))
}

/// What was set aside, expanded in order.
#[cycle(core)]
fn expand_kept(
    units: &mut UnitScope,
    alloc: Global,
    work: &mut Work,
    region: &Region,
    at: At,
    aside: &[Kept],
) -> Result<Vec<CorePart>, ExpandFault>
    requires opened { IsOpened work.old region.now }
    requires look { CanLook work.old units.old at.scope }
    requires aside { AreKeptAtWork work.old region.now units.old aside.now }
    requires room { HasRoom (2 ^ 43) units.old }
    ensures runs { (is : List (Item Identifier)) (turns : ℕ) → AllMatch (KeptFor work.old region.now units.old.unit units.old.form.number) aside.now is → IsEnough at.depth units.old.form.budget.uses turns →
        Runs (λ ls ps ms. PartsOfCores work.new units.new.unit units.new.form.number ps.items ms) work.old work.new region.now units.old units.new at.scope result (λ known fs. parts (item_part (expand (noting known) turns) (noting known) at.depth fs) is) }
    ensures locals { OnOk result (Spends 0 units.old units.new) }
{
    let mut parts = Vec::with_capacity(alloc, aside.len())?;
    for kept in aside {
        let part = expand_kept_item(units, alloc, work, region, at, kept)?;
        parts.push(part)?;
    }
    Ok(parts)
}

/// One part of a body or a unit, expanded.
#[cycle(core)]
pub(crate) fn expand_kept_item(
    units: &mut UnitScope,
    alloc: Global,
    work: &mut Work,
    region: &Region,
    at: At,
    kept: &Kept,
) -> Result<CorePart, ExpandFault>
    requires opened { IsOpened work.old region.now }
    requires look { CanLook work.old units.old at.scope }
    requires kept { KeptAtWork work.old region.now units.old kept.now }
    requires room { HasRoom (2 ^ 43) units.old }
    ensures runs { (i : Item Identifier) (turns : ℕ) → KeptFor work.old region.now units.old.unit units.old.form.number kept.now i → IsEnough at.depth units.old.form.budget.uses turns →
        Runs (λ ls. PartStands work.new units.new.unit units.new.form.number) work.old work.new region.now units.old units.new at.scope result (λ known fs. item_part (expand (noting known) turns) (noting known) at.depth fs i) }
    ensures locals { OnOk result (Spends 0 units.old units.new) }
{
    match kept {
        Kept::Expression(form) => Ok(CorePart::Expression(expand(
            units,
            alloc,
            work,
            region,
            in_place(at, form.here),
            form.tree,
        )?)),
        Kept::Value(binder, form) => {
            let value = expand(
                units,
                alloc,
                work,
                region,
                in_place(at, form.here),
                form.tree,
            )?;
            Ok(CorePart::Define {
                binder: *binder,
                value,
            })
        }
        Kept::Function(binder, here, clause) => {
            let value = lambda(units, alloc, work, region, in_place(at, *here), clause)?;
            Ok(CorePart::Define {
                binder: *binder,
                value,
            })
        }
        Kept::Assigned(name, form) => {
            let value = assign(
                units,
                alloc,
                work,
                region,
                in_place(at, form.here),
                *name,
                form.tree,
            )?;
            Ok(CorePart::Expression(value))
        }
        Kept::AssignedFunction(name, here, clause) => {
            let value = assign_procedure(
                units,
                alloc,
                work,
                region,
                in_place(at, *here),
                *name,
                clause,
            )?;
            Ok(CorePart::Expression(value))
        }
        Kept::Values {
            binders,
            dotted,
            form,
        } => {
            let value = expand(
                units,
                alloc,
                work,
                region,
                in_place(at, form.here),
                form.tree,
            )?;
            Ok(CorePart::Values {
                binders: Vec::from_slice(alloc, binders)?,
                dotted: *dotted,
                value,
            })
        }
        Kept::Record {
            binders,
            fields,
            modified,
            used,
        } => Ok(CorePart::Fields {
            binders: Vec::from_slice(alloc, binders)?,
            fields: Vec::from_slice(alloc, fields)?,
            modified: Vec::from_slice(alloc, modified)?,
            used: Vec::from_slice(alloc, used)?,
        }),
        Kept::Macro(binder, meaning) => Ok(CorePart::Syntax(macro_def(
            units, alloc, work, *binder, *meaning,
        )?)),
    }
}

/// The core of a procedure.
#[cycle(core)]
fn lambda(
    units: &mut UnitScope,
    alloc: Global,
    work: &mut Work,
    region: &Region,
    at: At,
    clause: &ClauseShape,
) -> Result<Core, ExpandFault>
    requires opened { IsOpened work.old region.now }
    requires look { CanLook work.old units.old at.scope }
    requires clause { ClauseAtWork work.old region.now clause.now }
    requires room { HasRoom (2 ^ 43) units.old }
    ensures runs { (c : ModelClause Identifier) (turns : ℕ) → ClauseFor work.old region.now clause.now c → IsEnoughBelow at.depth units.old.form.budget.uses turns →
        Runs (λ ls. CoreStands work.new units.new.unit units.new.form.number) work.old work.new region.now units.old units.new at.scope result (λ known fs. lambda (expand (noting known) turns) (noting known) at.depth at.here fs c) }
    ensures locals { OnOk result (Spends 0 units.old units.new) }
{
    let below = below(units, at, 1)?;
    Ok(Core::Lambda(procedure(units, alloc, work, region, below, clause)?))
}

/// The core of a procedure with several clauses.
#[cycle(core)]
fn case_lambda(
    units: &mut UnitScope,
    alloc: Global,
    work: &mut Work,
    region: &Region,
    at: At,
    shapes: &[ClauseShape],
) -> Result<Core, ExpandFault>
    requires opened { IsOpened work.old region.now }
    requires look { CanLook work.old units.old at.scope }
    requires clauses { ClausesAtWork work.old region.now shapes.now }
    requires room { HasRoom (2 ^ 43) units.old }
    ensures runs { (cs : List (ModelClause Identifier)) (turns : ℕ) → AllMatch (ClauseFor work.old region.now) shapes.now cs → IsEnoughBelow at.depth units.old.form.budget.uses turns →
        Runs (λ ls. CoreStands work.new units.new.unit units.new.form.number) work.old work.new region.now units.old units.new at.scope result (λ known fs. case_lambda (expand (noting known) turns) (noting known) at.depth at.here fs cs) }
    ensures locals { OnOk result (Spends 0 units.old units.new) }
{
    let below = below(units, at, 1)?;
    Ok(Core::CaseLambda(procedures(units, alloc, work, region, below, shapes)?))
}

/// The core of a conditional.
#[cycle(core)]
fn conditional(
    units: &mut UnitScope,
    alloc: Global,
    work: &mut Work,
    region: &Region,
    at: At,
    parts: &[Tree],
) -> Result<Core, ExpandFault>
    requires opened { IsOpened work.old region.now }
    requires look { CanLook work.old units.old at.scope }
    requires parts { AreAtWork work.old region.now parts.now }
    requires room { HasRoom (2 ^ 43) units.old }
    ensures runs { (ts : Trees Identifier) (turns : ℕ) → PartsStand work.old parts.now ts → IsEnoughBelow at.depth units.old.form.budget.uses turns →
        Runs (λ ls. CoreStands work.new units.new.unit units.new.form.number) work.old work.new region.now units.old units.new at.scope result (λ known fs. conditional (expand (noting known) turns) (noting known) at.depth at.here fs ts) }
    ensures locals { OnOk result (Spends 0 units.old units.new) }
{
    let below = below(units, at, 1)?;
    Ok(Core::If(expand_all(units, alloc, work, region, below, parts)?))
}

/// The core of an assignment. A keyword is no variable.
#[cycle(core)]
fn set(
    units: &mut UnitScope,
    alloc: Global,
    work: &mut Work,
    region: &Region,
    at: At,
    name: NamePart,
    value: Tree,
) -> Result<Core, ExpandFault>
    requires opened { IsOpened work.old region.now }
    requires look { CanLook work.old units.old at.scope }
    requires name { HasNumber work.old name }
    requires value { IsAtWork work.old region.now value }
    requires room { HasRoom (2 ^ 43) units.old }
    ensures runs { (n : Named Identifier) (t : ModelTree Identifier) (turns : ℕ) → IsName work.old name n → StandsFor work.old value t → IsEnoughBelow at.depth units.old.form.budget.uses turns →
        Runs (λ ls. CoreStands work.new units.new.unit units.new.form.number) work.old work.new region.now units.old units.new at.scope result (λ known fs. set (expand (noting known) turns) (noting known) at.depth at.here fs (n, t)) }
    ensures locals { OnOk result (Spends 0 units.old units.new) }
{
    let target = variable(units, work, at, name)?;
    let below = below(units, at, 1)?;
    let value = expand(units, alloc, work, region, below, value)?;
    Ok(Core::Set {
        target,
        value: Box::new(alloc, value)?,
    })
}

/// The core of a later definition of a variable, read as an assignment of what an expression gives.
#[cycle(core)]
fn assign(
    units: &mut UnitScope,
    alloc: Global,
    work: &mut Work,
    region: &Region,
    at: At,
    name: NamePart,
    value: Tree,
) -> Result<Core, ExpandFault>
    requires opened { IsOpened work.old region.now }
    requires look { CanLook work.old units.old at.scope }
    requires name { HasNumber work.old name }
    requires value { IsAtWork work.old region.now value }
    requires room { HasRoom (2 ^ 43) units.old }
    ensures runs { (n : Named Identifier) (t : ModelTree Identifier) (turns : ℕ) → IsName work.old name n → StandsFor work.old value t → IsEnoughBelow at.depth units.old.form.budget.uses turns →
        Runs (λ ls. CoreStands work.new units.new.unit units.new.form.number) work.old work.new region.now units.old units.new at.scope result (λ known fs. assignment (noting known) at.depth at.here fs n (λ below. expand (noting known) turns below at.here fs (whole t))) }
    ensures locals { OnOk result (Spends 0 units.old units.new) }
{
    let below = below(units, at, 1)?;
    let target = units.target(work, at.scope, name);
    note(units, work, target);
    let value = expand(units, alloc, work, region, below, value)?;
    Ok(Core::Set {
        target,
        value: Box::new(alloc, value)?,
    })
}

/// The core of a later definition of a variable as a procedure, read as an assignment.
#[cycle(core)]
fn assign_procedure(
    units: &mut UnitScope,
    alloc: Global,
    work: &mut Work,
    region: &Region,
    at: At,
    name: NamePart,
    clause: &ClauseShape,
) -> Result<Core, ExpandFault>
    requires opened { IsOpened work.old region.now }
    requires look { CanLook work.old units.old at.scope }
    requires name { HasNumber work.old name }
    requires clause { ClauseAtWork work.old region.now clause.now }
    requires room { HasRoom (2 ^ 43) units.old }
    ensures runs { (n : Named Identifier) (c : ModelClause Identifier) (turns : ℕ) → IsName work.old name n → ClauseFor work.old region.now clause.now c → IsEnoughBelow at.depth units.old.form.budget.uses turns →
        Runs (λ ls. CoreStands work.new units.new.unit units.new.form.number) work.old work.new region.now units.old units.new at.scope result (λ known fs. assignment (noting known) at.depth at.here fs n (λ below. lambda (expand (noting known) turns) (noting known) below at.here fs c)) }
    ensures locals { OnOk result (Spends 0 units.old units.new) }
{
    let below = below(units, at, 1)?;
    let target = units.target(work, at.scope, name);
    note(units, work, target);
    let value = lambda(units, alloc, work, region, below, clause)?;
    Ok(Core::Set {
        target,
        value: Box::new(alloc, value)?,
    })
}

/// Expressions alone, one after another.
#[cycle(core)]
fn sequence(
    units: &mut UnitScope,
    alloc: Global,
    work: &mut Work,
    region: &Region,
    at: At,
    forms: &[Tree],
) -> Result<Core, ExpandFault>
    requires opened { IsOpened work.old region.now }
    requires look { CanLook work.old units.old at.scope }
    requires forms { AreAtWork work.old region.now forms.now }
    requires room { HasRoom (2 ^ 43) units.old }
    ensures runs { (ts : Trees Identifier) (turns : ℕ) → PartsStand work.old forms.now ts → IsEnoughBelow at.depth units.old.form.budget.uses turns →
        Runs (λ ls. CoreStands work.new units.new.unit units.new.form.number) work.old work.new region.now units.old units.new at.scope result (λ known fs. sequence (expand (noting known) turns) (noting known) at.depth at.here fs ts) }
    ensures locals { OnOk result (Spends 0 units.old units.new) }
{
    let below = below(units, at, 1)?;
    let mut parts = Vec::with_capacity(alloc, forms.len())?;
    for form in forms {
        let core = expand(units, alloc, work, region, below, *form)?;
        parts.push(CorePart::Expression(core))?;
    }
    Ok(Core::Body(parts))
}

/// Local macros and their body. The rules of recursive ones are read where the macros are bound.
#[cycle(core)]
fn local_macros(
    units: &mut UnitScope,
    alloc: Global,
    work: &mut Work,
    region: &Region,
    at: At,
    recursive: bool,
    macros: &[LocalMacro],
    forms: &[Tree],
) -> Result<Core, ExpandFault>
    requires opened { IsOpened work.old region.now }
    requires look { CanLook work.old units.old at.scope }
    requires macros { MacrosAtWork work.old macros.now }
    requires forms { BodyAtWork work.old region.now forms.now }
    requires room { HasRoom (2 ^ 43) units.old }
    ensures runs { (m : LocalMacros Identifier) (turns : ℕ) → AreMacros work.old macros.now m.names m.rules → PartsStand work.old forms.now m.body → IsEnoughBelow at.depth units.old.form.budget.uses turns →
        Runs (λ ls. CoreStands work.new units.new.unit units.new.form.number) work.old work.new region.now units.old units.new at.scope result (λ known fs. macros_step recursive (expand (noting known) turns) (noting known) at.depth at.here fs m) }
    ensures locals { OnOk result (Spends 0 units.old units.new) }
{
    work.symbols.told_apart();
    units.env.sound();
    let (scope, binders) = units.bind_names(at.scope, &names_of(alloc, macros)?)?;
    let rules_at = if recursive { scope } else { at.scope };
    test_all_rules(units, work, rules_at, at.here, macros)?;
    let below = below(units, at, 1)?;
    keep_all(units, alloc, work, rules_at, at.here, macros, &binders)?;
    let inside = At {
        scope,
        here: below.here,
        depth: below.depth,
    };
    let macros = local_defs(units, alloc, work, &binders)?;
    let body = body(units, alloc, work, region, inside, forms)?;
    Ok(Core::LetSyntax {
        macros,
        body: Box::new(alloc, body)?,
    })
}
