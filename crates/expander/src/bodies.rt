//! What bodies and local macros do before their parts are expanded (R7RS 4.3.1, 5.3.2).
ghost use Rattle.std.specs.Prelude.{◌≡◌, IfOk, ℕ, ◌+◌, ◌^◌, ◌≤◌, List, OnOk, length};
ghost use Rattle.scheme_model.specs.ExpansionFaults.{Named};
ghost use Rattle.scheme_model.specs.Ident.{Ident as Identifier};
ghost use Rattle.scheme_model.specs.Identifiers.{Number};
ghost use Rattle.scheme_model.specs.Measures.{trees_size};
ghost use Rattle.scheme_model.specs.Requirements.{Known};
ghost use Rattle.scheme_model.specs.Trees.{Trees};
ghost use Rattle.scheme_model.specs.Order.{RulesParts};
ghost use Rattle.scheme_model.specs.Expression.{heads, keep_all, local_defs, locals_asked};
ghost use Rattle.scheme_model.specs.ScopedExpansion.{Frames};
ghost use Rattle.syntax_tree.specs.Looks.{PartsStand};
ghost use Rattle.syntax_tree.specs.Works.{IsOpened};
ghost use Rattle.syntax_tree.specs.declared.trees.table.Region.{Region as AnyRegion};
ghost use Rattle.core_forms.specs.Parts.{AreMacros};
ghost use Rattle.core_tree.specs.Names.{AllMatch, IsMacro as IsMacroDef};
ghost use Rattle.expander.specs.Bodies.{AreLocalMacros, BodyFor, CanEnter, CanKeep, HaveHeads, HaveNumbers, HaveRules, RulesAre, body_pass};
ghost use Rattle.unit_scopes.specs.Outcomes.{At as Stand};
ghost use Rattle.noted_steps.specs.Noting.{Noting, noting};
ghost use Rattle.noted_steps.specs.Standing.{Stands, with_notes};
ghost use Rattle.noted_steps.specs.Outcomes.{EndsHere, Runs};
ghost use Rattle.noted_steps.specs.Kept.{CanLook};

use crate::expressions::At;
use crate::passes::pass;
use core_forms::LocalMacro;
use core_tree::cores::{Binder, MacroDef};
use feature_requirements::fault::ExpandFault;
use form_parts::items::{Kept, Pending, Spot, forms_at};
use ls_base::Mem;
use noted_steps::rules::{note_locals, test_rules};
use noted_steps::uses::meet_all;
use scheme_model::Occ;
use scope_env::ScopeNo;
use std::alloc::Global;
use syntax_tree::meaning::Meaning;
use syntax_tree::trees::{Region, Tree, Work};
use unit_scopes::asked::Asked;
use unit_scopes::scope::UnitScope;

/// Where a form stands that was set aside: the scope of its body, and the place that it keeps.
pub fn in_place(at: At, here: Option<Occ>) -> At
    ensures { result ≡ record at { here = here } }
{
    At {
        scope: at.scope,
        here,
        depth: at.depth,
    }
}

/// Enters a body and goes through its forms, whose macro uses are met: its scope, and what was set aside.
pub(crate) fn pass_body(
    units: &mut UnitScope,
    alloc: Global,
    work: &mut Work,
    region: &Region,
    at: At,
    forms: &[Tree],
) -> Result<(ScopeNo, Vec<Kept>), ExpandFault>
    requires opened { IsOpened work.old region.now }
    requires can { CanEnter work.old region.now units.old at.scope forms.now }
    ensures passed { (ts : Trees Identifier) (turns : ℕ) → PartsStand work.old forms.now ts → trees_size ts ≤ 4194304 → 2 ^ 39 ≤ turns →
        Runs (BodyFor work.new region.now units.new.unit units.new.form.number) work.old work.new region.now units.old units.new at.scope result (body_pass turns at.here ts) }
    ensures locals { OnOk result (units.new.form.budget.locals ≤ units.old.form.budget.locals + 2 ^ 38) }
{
    units.env.sound();
    let scope = units.env.child(at.scope)?;
    let mut pending = Pending {
        todo: forms_at(alloc, at.here, forms)?,
        aside: Vec::new(alloc),
        uses: Vec::new(alloc),
    };
    let spot = Spot {
        scope,
        in_body: true,
    };
    let mut asked = Asked::new(alloc);
    pass(units, alloc, work, region, spot, &mut pending, &mut asked)?;
    let Pending {
        todo: _,
        aside,
        uses,
    } = pending;
    meet_all(units, alloc, work, scope, uses.as_slice())?;
    Ok((scope, aside))
}

/// Tests the heads of the rules of local macros, in order. They are noted.
pub(crate) fn test_all_rules(
    units: &mut UnitScope,
    work: &Work,
    scope: ScopeNo,
    here: Option<Occ>,
    macros: &[LocalMacro],
) -> Result<(), ExpandFault>
    requires look { CanLook work.now units.old scope }
    requires rules { HaveRules work.now macros.now }
    ensures tested { (known : Known) (region : AnyRegion) (ls : List Frames) (s : Noting) (fs : Frames) (ns : List (Named Identifier)) (ts : Trees Identifier) → Stands work.now units.old ls s →
        Stand ls scope fs → AreMacros work.now macros.now ns ts →
        EndsHere (λ (passed : Unit {0}) (parts : List (RulesParts Identifier)). Unit {0}) work.now work.now region units.old units.new ls result (heads (noting known) here fs ts s) }
    ensures rest { units.new ≡ with_notes units.old units.new.form.trace.notes }
{
    for local in macros {
        test_rules(units, work, scope, here, local.rules)?;
    }
    Ok(())
}

/// Keeps local macros under their binders, macro by macro counted and checked.
pub(crate) fn keep_all(
    units: &mut UnitScope,
    alloc: Global,
    work: &Work,
    scope: ScopeNo,
    here: Option<Occ>,
    macros: &[LocalMacro],
    binders: &[Binder],
) -> Result<(), ExpandFault>
    requires look { CanLook work.now units.old scope }
    requires opened { (region : AnyRegion) × IsOpened work.now region }
    requires rules { HaveHeads work.now macros.now }
    requires binders { length binders.now ≡ length macros.now }
    ensures kept { (known : Known) (region : AnyRegion) (ls : List Frames) (s : Noting) (fs : Frames) (ns : List (Named Identifier)) (ts : Trees Identifier) (vs : List Number) (rs : List (RulesParts Identifier)) →
        Stands work.now units.old ls s → Stand ls scope fs → AreMacros work.now macros.now ns ts → HaveNumbers s binders.now vs → RulesAre ts rs →
        EndsHere (λ (kept : Unit {0}) (also : Unit {0}). Unit {0}) work.now work.now region units.old units.new ls result (keep_all (noting known) here fs vs ts rs s) }
    ensures counts { OnOk result ((units.new.form.budget.locals ≡ units.old.form.budget.locals) × (units.new.form.budget.uses ≡ units.old.form.budget.uses)) }
{
    work.symbols.told_apart();
    for k in 0..macros.len() {
        let kept = units.read_macro(alloc, work, scope, here, macros[k].rules)?;
        units
            .macros
            .keep(units.form.number, Meaning::Local(binders[k].number), kept)?;
    }
    Ok(())
}

/// Local macros with their leaves. What these ask is noted.
pub(crate) fn local_defs(
    units: &mut UnitScope,
    alloc: Global,
    work: &Work,
    binders: &[Binder],
) -> Mem<Vec<MacroDef>>
    requires { CanKeep work.now units.old binders.now }
    ensures defs { (known : Known) (ls : List Frames) (s : Noting) (vs : List Number) (ns : List (Named Identifier)) → Stands work.now units.old ls s →
        AreLocalMacros work.now s binders.now vs ns →
        IfOk result (λ defs. AllMatch (IsMacroDef work.now s.unit s.form) defs.items (local_defs (noting known) s vs ns)) }
    ensures noted { (known : Known) (ls : List Frames) (s : Noting) (vs : List Number) (ns : List (Named Identifier)) → Stands work.now units.old ls s →
        AreLocalMacros work.now s binders.now vs ns → OnOk result (Stands work.now units.new ls ((noting known).ask (locals_asked (noting known) s vs ns) s)) }
    ensures rest { units.new ≡ with_notes units.old units.new.form.trace.notes }
{
    let mut defs = Vec::new(alloc);
    for binder in binders {
        let def = units.macro_def(alloc, work, *binder, Meaning::Local(binder.number))?;
        defs.push(def)?;
    }
    note_locals(units, work, &defs);
    Ok(defs)
}
