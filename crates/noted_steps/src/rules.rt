//! The rules of macros where they are defined, while what is asked is noted (R7RS 4.3.1, 5.4): what their head means, and what their
//! leaves do.
ghost use Rattle.std.specs.Prelude.{◌≡◌, ℕ, List, map, IfOk, OnOk, Option, Some};
ghost use Rattle.scheme_model.specs.ExpansionFaults.{Named};
ghost use Rattle.scheme_model.specs.Cores.{Binder as ModelBinder, MacroDef as ModelMacro, RuleLeaf as ModelLeaf};
ghost use Rattle.scheme_model.specs.Expression.{local_defs, locals_asked, macro_asked, macro_def, meaning_of};
ghost use Rattle.scheme_model.specs.Ident.{Ident as Identifier};
ghost use Rattle.scheme_model.specs.Identifiers.{Number};
ghost use Rattle.scheme_model.specs.Order.{Meant, RulesParts, rules_parts, rules_parts_of};
ghost use Rattle.scheme_model.specs.Requirements.{Known};
ghost use Rattle.scheme_model.specs.ScopedExpansion.{Frames};
ghost use Rattle.scheme_model.specs.Trees.{Tree as ModelTree};
ghost use Rattle.syntax_tree.specs.Meant.{IsMeaning};
ghost use Rattle.syntax_tree.specs.Works.{IsStanding, StandsFor};
ghost use Rattle.syntax_tree.specs.declared.trees.table.Region.{Region as AnyRegion};
ghost use Rattle.core_tree.specs.Names.{AllMatch, IsBinder, IsLeaf, IsMacro as IsMacroDef};
ghost use Rattle.unit_scopes.specs.Outcomes.{At, CanLook};
ghost use Rattle.noted_steps.specs.Asked.{head_asked};
ghost use Rattle.noted_steps.specs.Noting.{Noting, noting};
ghost use Rattle.noted_steps.specs.Outcomes.{EndsHere};
ghost use Rattle.noted_steps.specs.Standing.{CanNote, LeafFor, Stands, with_notes};

use crate::noted::{named, note, note_name, note_use};
use core_tree::cores::{Binder, MacroDef, RuleLeaf};
use feature_requirements::fault::ExpandFault;
use form_parts::heads::rules_head;
use ls_base::Mem;
use scheme_model::Occ;
use scope_env::ScopeNo;
use std::alloc::Global;
use syntax_tree::meaning::Meaning;
use syntax_tree::trees::{Tree, Work};
use unit_scopes::scope::UnitScope;

/// Tests that the head of rules means `syntax-rules`, and notes what it means.
pub fn test_rules(
    units: &mut UnitScope,
    work: &Work,
    scope: ScopeNo,
    here: Option<Occ>,
    rules: Tree,
) -> Result<(), ExpandFault>
    requires look { CanLook work.now units.old scope }
    requires rules { IsStanding work.now rules }
    ensures tested { (known : Known) (region : AnyRegion) (ls : List Frames) (s : Noting) (fs : Frames) (t : ModelTree Identifier) → Stands work.now units.old ls s → At ls scope fs → StandsFor work.now rules t →
        EndsHere (λ (done : Unit {0}) (parts : RulesParts Identifier). rules_parts_of t ≡ Some parts) work.now work.now region units.old units.new ls result (rules_parts (noting known) here fs (rules_parts_of t) s) }
    ensures rest { units.new ≡ with_notes units.old units.new.form.trace.notes }
{
    let result = units.test_rules(work, scope, here, rules);
    note_rules_head(units, work, scope, rules);
    result
}

/// Notes what the head of rules means.
fn note_rules_head(units: &mut UnitScope, work: &Work, scope: ScopeNo, rules: Tree)
    requires look { CanLook work.now units.old scope }
    requires rules { IsStanding work.now rules }
    ensures noted { (known : Known) (ls : List Frames) (s : Noting) (fs : Frames) (t : ModelTree Identifier) → Stands work.now units.old ls s → At ls scope fs → StandsFor work.now rules t →
        Stands work.now units.new ls (head_asked known fs (rules_parts_of t) s) }
    ensures rest { units.new ≡ with_notes units.old units.new.form.trace.notes }
{
    match rules_head(work, rules) {
        None => {}
        Some(ident) => note_name(units, work, scope, named(ident)),
    }
}

/// A macro with its leaves and what these mean where it is defined, which is noted as its rules are.
pub fn macro_def(
    units: &mut UnitScope,
    alloc: Global,
    work: &Work,
    binder: Binder,
    meaning: Meaning,
) -> Mem<MacroDef>
    requires { CanNote work.now units.old binder meaning }
    ensures def { (known : Known) (ls : List Frames) (s : Noting) (b : ModelBinder) → Stands work.now units.old ls s → IsBinder work.now.symbols s.unit s.form binder b →
        IsMeaning work.now.symbols s.unit s.form meaning (meaning_of b.bound b.ident) → IfOk result (λ d. IsMacroDef work.now s.unit s.form d (macro_def (noting known) s b)) }
    ensures noted { (known : Known) (ls : List Frames) (s : Noting) (b : ModelBinder) → Stands work.now units.old ls s → IsBinder work.now.symbols s.unit s.form binder b →
        IsMeaning work.now.symbols s.unit s.form meaning (meaning_of b.bound b.ident) → OnOk result (Stands work.now units.new ls ((noting known).ask (macro_asked (noting known) s b) s)) }
    ensures rest { units.new ≡ with_notes units.old units.new.form.trace.notes }
{
    let def = units.macro_def(alloc, work, binder, meaning)?;
    note_macro(units, work, meaning, &def);
    Ok(def)
}

/// Notes the rules of a macro, and what their leaves mean.
fn note_macro(units: &mut UnitScope, work: &Work, meaning: Meaning, def: &MacroDef)
    requires { (unit : ℕ) × (form : ℕ) × (m : ModelMacro) × IsMacroDef work.now unit form def.now m }
    ensures noted { (known : Known) (ls : List Frames) (s : Noting) (b : ModelBinder) → Stands work.now units.old ls s → IsMacroDef work.now s.unit s.form def.now (macro_def (noting known) s b) →
        IsMeaning work.now.symbols s.unit s.form meaning (meaning_of b.bound b.ident) → Stands work.now units.new ls ((noting known).ask (macro_asked (noting known) s b) s) }
    ensures rest { units.new ≡ with_notes units.old units.new.form.trace.notes }
{
    note_leaves(units, work, &def.leaves);
    note_use(units, meaning);
}

/// Notes what the leaves of rules mean.
fn note_leaves(units: &mut UnitScope, work: &Work, leaves: &[RuleLeaf])
    requires { (unit : ℕ) × (form : ℕ) × (ms : List ModelLeaf) × AllMatch (IsLeaf work.now.symbols unit form) leaves.now ms }
    ensures noted { (known : Known) (ls : List Frames) (s : Noting) (fs : Frames) (ns : List (Named Identifier)) → Stands work.now units.old ls s →
        AllMatch (LeafFor work.now s fs) leaves.now ns → Stands work.now units.new ls ((noting known).ask (map (λ n. Meant fs n.name) ns) s) }
    ensures rest { units.new ≡ with_notes units.old units.new.form.trace.notes }
{
    let mut left = leaves.len();
    while 0 < left {
        left -= 1;
        note(units, work, leaves[left].target);
    }
}

/// Notes the rules of local macros, and what their leaves mean.
pub fn note_locals(units: &mut UnitScope, work: &Work, defs: &[MacroDef])
    requires { (unit : ℕ) × (form : ℕ) × (ms : List ModelMacro) × AllMatch (IsMacroDef work.now unit form) defs.now ms }
    ensures noted { (known : Known) (ls : List Frames) (s : Noting) (vs : List Number) (ns : List (Named Identifier)) → Stands work.now units.old ls s →
        AllMatch (IsMacroDef work.now s.unit s.form) defs.now (local_defs (noting known) s vs ns) → Stands work.now units.new ls ((noting known).ask (locals_asked (noting known) s vs ns) s) }
    ensures rest { units.new ≡ with_notes units.old units.new.form.trace.notes }
{
    let mut left = defs.len();
    while 0 < left {
        left -= 1;
        let def = &defs[left];
        note_macro(units, work, Meaning::Local(def.binder.number), def);
    }
}
