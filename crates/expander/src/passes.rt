//! The forms of a body, or a form of a unit, gone through in order (R7RS 5.3.2, 4.3): macros are used, `begin` and `cond-expand`
//! are spliced, definitions take effect at once, and all else is set aside.
ghost use Rattle.std.specs.Prelude.{◌≡◌, ◌<◌, false, Option, Some, ℕ, ◌+◌, ◌∷◌, ◌++◌, [], ◌≤◌, List, OnOk, true};
ghost use Rattle.scheme_model.specs.Trees.{Tree as ModelTree, list, Trees, tree, Tail};
ghost use Rattle.scheme_model.specs.Order.{here_at, Pending as ModelPending, Form as ModelForm, Note as ModelNote, LookedUp, Transformer, run, run_form, run_core, run_use, splice};
ghost use Rattle.scheme_model.specs.Ident.{Ident as Identifier};
ghost use Rattle.syntax_tree.specs.Works.{StandsFor, IsStanding, CanName, IsOpened};
ghost use Rattle.core_forms.specs.Ends.{keyword_as, ShapeFor};
ghost use Rattle.core_forms.specs.Parts.{IsName};
ghost use Rattle.scheme_model.specs.ExpansionFaults.{Named};
ghost use Rattle.scheme_model.specs.Keywords.{CoreKeyword as ModelKeyword};
ghost use Rattle.scheme_model.specs.Measures.{tree_size, trees_size};
ghost use Rattle.scheme_model.specs.Requirements.{Known};
ghost use Rattle.scheme_model.specs.Cores.{Target as ModelTarget};
ghost use Rattle.scheme_model.specs.Meaning.{Head as ModelHead, is_keyword};
ghost use Rattle.scheme_model.specs.ScopedExpansion.{Frames, FramedIdent, ScopedState};
ghost use Rattle.syntax_tree.specs.Looks.{PartsStand, AllNamed};
ghost use Rattle.syntax_tree.specs.declared.trees.table.Region.{Region as AnyRegion};
ghost use Rattle.core_forms.specs.Forms.{Shape};
ghost use Rattle.core_forms.specs.Named.{ShapeNamed};
ghost use Rattle.core_tree.specs.Names.{AllMatch, IsTarget};
ghost use Rattle.form_parts.specs.Heads.{IsHead};
ghost use Rattle.feature_requirements.specs.Judged.{Knows};
ghost use Rattle.unit_scopes.specs.Kept.{FormFor, NotesFor, PendingFor, SpotFor as SpotForPlainly, left_with};
ghost use Rattle.unit_scopes.specs.State.{Stands as StandsPlainly};
ghost use Rattle.expander.specs.Ready.{rules_asked};
ghost use Rattle.unit_scopes.specs.Outcomes.{At, IsAtWork};
ghost use Rattle.unit_scopes.specs.Defining.{HasNumber};
ghost use Rattle.expander.specs.Passed.{GoesOn, Passes, CanPass, IsPassed, pass_step, shape_weight, ShapeFits};
ghost use Rattle.unit_scopes.specs.Used.{ComparisonFor};
ghost use Rattle.syntax_tree.specs.declared.trees.Work.{Work as AnyWork};
ghost use Rattle.unit_scopes.specs.declared.asked.Asked.{Asked as AnyAsked};
ghost use Rattle.form_parts.specs.declared.items.Spot.{Spot as AnySpot};
ghost use Rattle.noted_steps.specs.Noting.{Noting, noting};
ghost use Rattle.noted_steps.specs.Standing.{Stands};
ghost use Rattle.noted_steps.specs.Kept.{SpotFor, UseFor};
ghost use Rattle.noted_steps.specs.Kept.{CanUse};

use crate::defining::{
    define_function, define_record, define_syntax, define_values, define_variable,
};
use crate::uses::{apply_use, compare_use};
use core_forms::{CoreKeyword, CoreShape, NamePart, parse_core};
use core_tree::cores::Target;
use feature_requirements::fault::ExpandFault;
use feature_requirements::requirements::{Judge, choose};
use form_parts::heads::{Head, head_name, is_passed};
use form_parts::items::{Form, Kept, Pending, Spot, forms_at};
use form_parts::places::here_at;
use form_parts::records::Record;
use ls_base::{Items, Mem};
use noted_steps::forms::note_form;
use noted_steps::noted::note;
use scheme_model::Occ;
use scope_env::ScopeNo;
use std::alloc::Global;
use syntax_tree::trees::{Region, Tree, Work};
use unit_scopes::asked::{Asked, Asking, Note};
use unit_scopes::counting::misread;
use unit_scopes::scope::UnitScope;
use unit_scopes::uses::{Comparison, Instance, Use};

/// Goes through the forms that are left, in order: what was set aside, and the macro uses that wait.
pub(crate) fn pass(
    units: &mut UnitScope,
    alloc: Global,
    work: &mut Work,
    region: &Region,
    spot: Spot,
    pending: &mut Pending,
    asked: &mut Asked,
) -> Result<(), ExpandFault>
    requires opened { IsOpened work.old region.now }
    requires can { CanPass work.old region.now units.old spot 0 pending.old asked.old }
    ensures { (known : Known) (ls : List Frames) (s : Noting) (fs : Frames) (p : ModelPending Identifier FramedIdent) (turns : ℕ) →
        Knows units.old.libraries known → Stands work.old units.old ls s → SpotFor work.old units.old ls s spot fs →
        PendingFor work.old region.now units.old.unit units.old.form.number pending.old p → NotesFor work.old ls asked.old p.notes →
        left_with p.todo units.old.form.budget.uses < turns →
        Passes work.old work.new region.now units.old units.new ls spot fs (left_with p.todo units.old.form.budget.uses) pending.new asked.new result (run (noting known) turns fs p s) }
{
    'forms: for _turn in 0..u64::MAX {
        let Some(form) = pending.todo.pop() else {
            return Ok(());
        };
        pass_form(units, alloc, work, region, spot, form, pending, asked)?;
    }
    Ok(())
}

/// Goes through one form.
fn pass_form(
    units: &mut UnitScope,
    alloc: Global,
    work: &mut Work,
    region: &Region,
    spot: Spot,
    form: Form,
    pending: &mut Pending,
    asked: &mut Asked,
) -> Result<(), ExpandFault>
    requires opened { IsOpened work.old region.now }
    requires form { IsAtWork work.old region.now form.tree }
    requires can { (m : ModelTree Identifier) → StandsFor work.old form.tree m → CanPass work.old region.now units.old spot (tree_size m) pending.old asked.old }
    ensures { (known : Known) (ls : List Frames) (s : Noting) (fs : Frames) (m : ModelForm Identifier) (p : ModelPending Identifier FramedIdent) →
        Knows units.old.libraries known → Stands work.old units.old ls s → SpotFor work.old units.old ls s spot fs → FormFor work.old region.now form m →
        PendingFor work.old region.now units.old.unit units.old.form.number pending.old p → NotesFor work.old ls asked.old p.notes →
        GoesOn work.old work.new region.now units.old units.new ls spot fs p.todo (tree_size m.tree) pending.new asked.new result
        (λ go. run_form (noting known) go fs (here_at (λ i. i) m.tree m.here) m m.tree p s) }
{
    let here = here_at(work, form.tree, form.here);
    let Some(name) = head_name(work, form.tree) else {
        pending.aside.push(Kept::Expression(form))?;
        return Ok(());
    };
    let keyword = units.target(work, spot.scope, name);
    let head = units.head_by(work, keyword.meaning);
    note(units, work, keyword);
    note_head(units, work, spot, name, head, asked)?;
    match head {
        Head::Core(core) => pass_core(
            units, alloc, work, spot, here, core, keyword, form, pending, asked,
        ),
        Head::Macro => {
            let at = Use {
                scope: spot.scope,
                here,
                keyword,
                form: form.tree,
            };
            pass_use(units, alloc, work, region, at, pending, asked)
        }
        Head::Auxiliary(_) => {
            pending.aside.push(Kept::Expression(form))?;
            Ok(())
        }
        Head::Other => {
            pending.aside.push(Kept::Expression(form))?;
            Ok(())
        }
    }
}

/// Notes what the head of a form was taken for.
fn note_head(
    units: &UnitScope,
    work: &Work,
    spot: Spot,
    name: NamePart,
    head: Head,
    asked: &mut Asked,
) -> Mem<()>
    requires { HasNumber work.now name }
    ensures { (ls : List Frames) (s : ScopedState) (fs : Frames) (n : Named Identifier) (h : ModelHead) (ns : List (ModelNote FramedIdent)) → StandsPlainly work.now units.now ls s →
        SpotForPlainly work.now units.now ls s spot fs → IsName work.now name n → IsHead head h → NotesFor work.now ls asked.old ns →
        OnOk result (NotesFor work.now ls asked.new (LookedUp (record { frames = fs; ident = n.name }) true (is_keyword h) ∷ ns)) }
{
    asked.push(
        &work.symbols,
        Note::LookedUp {
            at: Asking {
                scope: spot.scope,
                ident: name.ident,
            },
            head: true,
            keyword: head.is_keyword(),
        },
    )?;
    Ok(())
}

/// Goes through a macro use: its comparisons are noted, the tree that it gives comes next, and the use waits.
fn pass_use(
    units: &mut UnitScope,
    alloc: Global,
    work: &mut Work,
    region: &Region,
    at: Use,
    pending: &mut Pending,
    asked: &mut Asked,
) -> Result<(), ExpandFault>
    requires opened { IsOpened work.old region.now }
    requires usable { CanUse work.old units.old at }
    requires named { CanName work.old region.now at.form }
    ensures { (known : Known) (ls : List Frames) (s : Noting) (spot : AnySpot) (fs : Frames) (keyword : ModelTarget) (m : Transformer Frames Identifier) (form : ModelForm Identifier)
        (ts : Trees Identifier) (tail : Tail Identifier) (p : ModelPending Identifier FramedIdent) (given : ℕ) →
        Knows units.old.libraries known → Stands work.old units.old ls s → SpotFor work.old units.old ls s spot fs → At ls at.scope fs → UseFor work.old s at keyword m ts tail →
        PendingFor work.old region.now units.old.unit units.old.form.number pending.old p → NotesFor work.old ls asked.old p.notes → 1 ≤ given →
        GoesOn work.old work.new region.now units.old units.new ls spot fs p.todo given pending.new asked.new result
        (λ go. run_use (noting known) go at.here fs keyword (Some m) form ts tail p (rules_asked known keyword s)) }
{
    let (scope, comparisons) = compare_use(units, alloc, work, at)?;
    note_comparisons(work, scope, at.scope, &comparisons, asked)?;
    let applied = apply_use(units, alloc, work, region, at, &comparisons);
    work.symbols.told_apart();
    let given = applied?;
    let Instance { tree, met } = given;
    pending.todo.push(Form {
        here: at.here,
        tree,
    })?;
    pending.uses.push(met)?;
    Ok(())
}

/// Goes through a core form. One that is an expression is set aside unread.
fn pass_core(
    units: &mut UnitScope,
    alloc: Global,
    work: &Work,
    spot: Spot,
    here: Option<Occ>,
    core: CoreKeyword,
    keyword: Target,
    form: Form,
    pending: &mut Pending,
    asked: &mut Asked,
) -> Result<(), ExpandFault>
    requires core { (c : ModelKeyword) × (keyword_as core ≡ Some c) }
    requires keyword { (k : ModelTarget) × IsTarget work.now.symbols units.old.unit units.old.form.number keyword k }
    requires form { IsStanding work.now form.tree }
    requires can { (region : AnyRegion) × ((m : ModelTree Identifier) → StandsFor work.now form.tree m → CanPass work.now region units.old spot (tree_size m) pending.old asked.old) }
    ensures { (known : Known) (region : AnyRegion) (ls : List Frames) (s : Noting) (fs : Frames) (c : ModelKeyword) (k : ModelTarget) (m : ModelForm Identifier) (head : ModelTree Identifier)
        (ts : Trees Identifier) (tail : Tail Identifier) (o : Option Occ) (p : ModelPending Identifier FramedIdent) →
        Knows units.old.libraries known → Stands work.now units.old ls s → SpotFor work.now units.old ls s spot fs → keyword_as core ≡ Some c → IsTarget work.now.symbols s.unit s.form keyword k →
        FormFor work.now region form m → m.tree ≡ list (tree head ts) tail o →
        PendingFor work.now region units.old.unit units.old.form.number pending.old p → NotesFor work.now ls asked.old p.notes →
        GoesOn work.now work.now region units.old units.new ls spot fs p.todo (tree_size m.tree) pending.new asked.new result (λ go. run_core (noting known) go here fs c k m ts tail p s) }
{
    if !is_passed(core) {
        pending.aside.push(Kept::Expression(form))?;
        return Ok(());
    }
    units.form.trace.keywords.push(keyword)?;
    note_form(units, alloc, work, spot.scope, core, form.tree);
    work.trees_fit();
    let shape = match parse_core(alloc, work, core, form.tree, false, &Items::new(alloc)) {
        Ok(shape) => shape,
        Err(fault) => return Err(misread(here, fault)),
    };
    pass_shape(units, alloc, work, spot, here, shape, pending, asked)
}

/// Goes through a form that splices or defines, by its shape.
fn pass_shape(
    units: &mut UnitScope,
    alloc: Global,
    work: &Work,
    spot: Spot,
    here: Option<Occ>,
    shape: CoreShape,
    pending: &mut Pending,
    asked: &mut Asked,
) -> Result<(), ExpandFault>
    requires shape { (m : Shape) × ShapeFor work.now shape m × (shape_weight m ≤ 4194304) × ((region : AnyRegion) × CanPass work.now region units.old spot (shape_weight m) pending.old asked.old) }
    ensures { (known : Known) (region : AnyRegion) (ls : List Frames) (s : Noting) (fs : Frames) (form : ModelForm Identifier) (m : Shape) (p : ModelPending Identifier FramedIdent) (given : ℕ) →
        Knows units.old.libraries known → Stands work.now units.old ls s → SpotFor work.now units.old ls s spot fs → ShapeFor work.now shape m → ShapeNamed work.now region shape → IsPassed m → ShapeFits m →
        PendingFor work.now region units.old.unit units.old.form.number pending.old p → NotesFor work.now ls asked.old p.notes → shape_weight m < given →
        GoesOn work.now work.now region units.old units.new ls spot fs p.todo given pending.new asked.new result (λ go. pass_step (noting known) go here fs form p m s) }
{
    match shape {
        CoreShape::Begin(forms) => splice(units, alloc, here, &forms, pending),
        CoreShape::CondExpand(choices) => {
            let chosen = choose(judge(units, alloc, work), here, &choices)?;
            match chosen {
                Some(forms) => splice(units, alloc, here, &forms, pending),
                None => splice(units, alloc, here, &[], pending),
            }
        }
        CoreShape::Define { name, value } => {
            let form = Form { here, tree: value };
            define_variable(units, work, spot, name, form, pending, asked)
        }
        CoreShape::Procedure { name, clause } => {
            define_function(units, work, spot, here, name, clause, pending, asked)
        }
        CoreShape::Values { formals, value } => {
            let form = Form { here, tree: value };
            define_values(units, alloc, work, spot, formals, form, pending, asked)
        }
        CoreShape::RecordType {
            name,
            constructor,
            used,
            predicate,
            fields,
        } => {
            let record = Record {
                name,
                constructor,
                used,
                predicate,
                fields,
            };
            define_record(units, alloc, work, spot, here, &record, pending, asked)
        }
        CoreShape::DefineSyntax { name, rules } => {
            define_syntax(units, alloc, work, spot, here, name, rules, pending, asked)
        }
        _ => Ok(()),
    }
}

/// Puts forms before what is left.
fn splice(
    units: &mut UnitScope,
    alloc: Global,
    here: Option<Occ>,
    forms: &[Tree],
    pending: &mut Pending,
) -> Result<(), ExpandFault>
    requires { units.old.form.budget.nodes ≤ 200000 }
    ensures { (known : Known) (work : AnyWork) (region : AnyRegion) (ls : List Frames) (s : Noting) (spot : AnySpot) (fs : Frames) (asked : AnyAsked) (ts : Trees Identifier) (p : ModelPending Identifier FramedIdent) (given : ℕ) →
        Stands work units.old ls s → SpotFor work units.old ls s spot fs → PartsStand work forms.now ts → AllNamed work region forms.now →
        PendingFor work region units.old.unit units.old.form.number pending.old p → NotesFor work ls asked p.notes → trees_size ts < given →
        GoesOn work work region units.old units.new ls spot fs p.todo given pending.new asked result (λ go. splice (noting known) go here p ts s) }
{
    units.count(here, 1)?;
    let mut todo = forms_at(alloc, here, forms)?;
    pending.todo.append(&mut todo)?;
    Ok(())
}

/// What requirements are judged by.
pub(crate) fn judge<'a>(units: &'a UnitScope, alloc: Global, work: &'a Work) -> Judge<'a>
    ensures work { result.work.now ≡ work.now }
    ensures libraries { result.libraries.now ≡ units.now.libraries }
{
    Judge {
        alloc,
        work,
        libraries: &units.libraries,
    }
}

/// Notes comparisons, of which the first comes to be the newest.
fn note_comparisons(
    work: &Work,
    literal_scope: ScopeNo,
    scope: ScopeNo,
    comparisons: &[Comparison],
    asked: &mut Asked,
) -> Mem<()>
    requires { (ls : List Frames) × (qs : List (ModelNote FramedIdent)) × AllMatch (ComparisonFor work.now ls literal_scope scope) comparisons.now qs }
    ensures { (ls : List Frames) (qs ns : List (ModelNote FramedIdent)) → AllMatch (ComparisonFor work.now ls literal_scope scope) comparisons.now qs → NotesFor work.now ls asked.old ns →
        OnOk result (NotesFor work.now ls asked.new (qs ++ ns)) }
{
    let mut left = comparisons.len();
    while 0 < left {
        left -= 1;
        let comparison = comparisons[left];
        asked.push(
            &work.symbols,
            Note::Compared {
                literal: Asking {
                    scope: literal_scope,
                    ident: comparison.pair.literal,
                },
                at: Asking {
                    scope,
                    ident: comparison.pair.ident,
                },
                held: comparison.held,
            },
        )?;
    }
    Ok(())
}
