//! The core of an expression (R7RS 4.1, 4.2).
ghost use Rattle.std.specs.Prelude.{◌≡◌, ℕ, ◌+◌, ◌≤◌, List, [], ◌∷◌, Some, Option, IfOk, OnOk};
ghost use Rattle.scheme_model.specs.ExpansionFaults.{Named};
ghost use Rattle.scheme_model.specs.Ident.{Ident as Identifier};
ghost use Rattle.scheme_model.specs.Keywords.{CoreKeyword as ModelKeyword};
ghost use Rattle.scheme_model.specs.Requirements.{Known};
ghost use Rattle.scheme_model.specs.Order.{Transformer, Headed as AskedHead, head_of};
ghost use Rattle.scheme_model.specs.Cores.{Target as ModelTarget, Const};
ghost use Rattle.scheme_model.specs.Steps.{done};
ghost use Rattle.scheme_model.specs.Trees.{Atom, Tree as ModelTree, atom, list, Trees, tree, Tail};
ghost use Rattle.scheme_model.specs.Expression.{whole, expand, expression, core_form, node, quote, reference};
ghost use Rattle.scheme_model.specs.ScopedExpansion.{Frames, ScopedState};
ghost use Rattle.syntax_tree.specs.Works.{IsOpened, IsStanding, StandsFor, CanName};
ghost use Rattle.syntax_tree.specs.Looks.{PartsStand, EndStands, AllNamed};
ghost use Rattle.syntax_tree.specs.declared.trees.table.Region.{Region as AnyRegion};
ghost use Rattle.core_forms.specs.Ends.{keyword_as};
ghost use Rattle.core_forms.specs.Parts.{IsName};
ghost use Rattle.core_tree.specs.Cores.{CoreStands};
ghost use Rattle.core_tree.specs.Names.{IsTarget};
ghost use Rattle.feature_requirements.specs.Judged.{Knows};
ghost use Rattle.unit_scopes.specs.Outcomes.{At as Stand, CanLook as CanLookPlainly, IsAtWork, WorksOn, IsEnough};
ghost use Rattle.unit_scopes.specs.State.{Stands as StandsPlainly};
ghost use Rattle.unit_scopes.specs.Defining.{HasNumber};
ghost use Rattle.unit_scopes.specs.Stepped.{with_keyword};
ghost use Rattle.form_parts.specs.FormsSeen.{head_name_of};
ghost use Rattle.expander.specs.Ready.{use_met, head_asked, IsSettled, IsHeaded, HasCore, IsCall, Prepares, Settles, come_to, Reads, TestsVariable, passed, BeginsBelow};
ghost use Rattle.noted_steps.specs.Noting.{Noting, state_of, means_here, noting};
ghost use Rattle.noted_steps.specs.Standing.{Stands, with_notes};
ghost use Rattle.noted_steps.specs.Outcomes.{EndsHere};
ghost use Rattle.noted_steps.specs.Kept.{UseFor};
ghost use Rattle.noted_steps.specs.Kept.{CanUse, CanLook};

use crate::uses::{apply_use, compare_use};
use core_forms::{CoreKeyword, CoreShape, NamePart, parse_core};
use core_tree::cores::{Core, Target};
use feature_requirements::fault::{ExpandFault, code, fails, fails_with};
use form_parts::heads::{Head, head_name};
use form_parts::names::name_at;
use form_parts::places::here_at;
use ls_base::{Mem, Text};
use noted_steps::forms::note_form;
use noted_steps::noted::note;
use noted_steps::uses::meet;
use scheme_model::Occ;
use scope_env::ScopeNo;
use std::alloc::Global;
use syntax_tree::look::{Look, look_at};
use syntax_tree::trees::{Region, Tree, Work};
use unit_scopes::counting::{fails_at, misread};
use unit_scopes::scope::UnitScope;
use unit_scopes::uses::{Instance, Use};

/// Where an expression stands: its scope, the innermost form read from a text around it, and how much depth is left.
#[derive(Clone, Copy)]
pub struct At {
    pub scope: ScopeNo,
    pub here: Option<Occ>,
    pub depth: u32,
}

/// An expression without a macro at its head, once it was read.
#[derive(Drop)]
pub enum Ready {
    /// It has its core.
    Core(Core),
    /// The parts of a call.
    Call(Vec<Tree>),
    /// A core form whose parts are to be expanded.
    Shape(CoreKeyword, CoreShape),
}

/// What stands at the head of a form: the keyword of a macro, that of a core form, another name, or no name.
#[derive(Clone, Copy)]
pub enum Headed {
    Macro(Target),
    Core(CoreKeyword, Target),
    Plain(Target),
    Nameless,
}

/// The parts of a call: a proper list of one tree or more.
#[inline(always)]
fn call_parts(
    alloc: Global,
    here: Option<Occ>,
    items: &[Tree],
    tail: Option<Tree>,
) -> Result<Vec<Tree>, ExpandFault>
    ensures { IsCall items.now tail here result }
{
    if tail.is_some() {
        return Err(fails(here, code::BAD_FORM));
    }
    if items.is_empty() {
        return Err(fails(here, code::BAD_FORM));
    }
    Ok(Vec::from_slice(alloc, items)?)
}

/// An expression without a macro at its head, and the place of the innermost form read around it.
pub(crate) fn prepare(
    units: &mut UnitScope,
    alloc: Global,
    work: &mut Work,
    region: &Region,
    at: At,
    form: Tree,
) -> Result<(Option<Occ>, Ready), ExpandFault>
    requires opened { IsOpened work.old region.now }
    requires look { CanLook work.old units.old at.scope }
    requires form { IsAtWork work.old region.now form }
    ensures ready { (known : Known) (turns : ℕ) (ls : List Frames) (s : Noting) (fs : Frames) (t : ModelTree Identifier) → Knows units.old.libraries known → Stands work.old units.old ls s → Stand ls at.scope fs →
        WorksOn work.old region.now form t → IsEnough at.depth units.old.form.budget.uses turns →
        Prepares known at.depth work.old work.new region.now units.old units.new ls fs result (expand (noting known) turns at.depth at.here fs (whole t) s) }
    ensures locals { OnOk result (units.new.form.budget.locals ≡ units.old.form.budget.locals) }
{
    let (form, here, core) = settle(units, alloc, work, region, at, form)?;
    let at = At {
        scope: at.scope,
        here,
        depth: at.depth,
    };
    let ready = read(units, alloc, work, at, form, core)?;
    Ok((here, ready))
}

/// Uses macros until none is at the head: the form that is come to, the place of the innermost form read around it, and the
/// keyword at its head, where that is one of a core form.
fn settle(
    units: &mut UnitScope,
    alloc: Global,
    work: &mut Work,
    region: &Region,
    at: At,
    form: Tree,
) -> Result<(Tree, Option<Occ>, Option<(CoreKeyword, Target)>), ExpandFault>
    requires opened { IsOpened work.old region.now }
    requires look { CanLook work.old units.old at.scope }
    requires form { IsAtWork work.old region.now form }
    ensures settled { (known : Known) (turns : ℕ) (ls : List Frames) (s : Noting) (fs : Frames) (t : ModelTree Identifier) → Knows units.old.libraries known → Stands work.old units.old ls s → Stand ls at.scope fs →
        WorksOn work.old region.now form t → IsEnough at.depth units.old.form.budget.uses turns →
        Settles known at.depth turns work.old work.new region.now units.old units.new ls fs (come_to result) (expand (noting known) turns at.depth at.here fs (whole t) s) }
    ensures head { IfOk result (λ x. HasCore work.new units.new at.scope x.0 x.2) }
    ensures locals { OnOk result (units.new.form.budget.locals ≡ units.old.form.budget.locals) }
{
    let mut form = form;
    let mut here = here_at(work, form, at.here);
    'uses: loop {
        match look_at_head(units, work, at.scope, form) {
            Headed::Macro(keyword) => {
                note(units, work, keyword);
                let use_at = Use {
                    scope: at.scope,
                    here,
                    keyword,
                    form,
                };
                form = make_use(units, alloc, work, region, use_at)?;
                here = here_at(work, form, here);
            }
            Headed::Core(core, keyword) => {
                note(units, work, keyword);
                return Ok((form, here, Some((core, keyword))));
            }
            Headed::Plain(name) => {
                note(units, work, name);
                return Ok((form, here, None));
            }
            Headed::Nameless => return Ok((form, here, None)),
        }
    }
}

/// Makes a macro use, which is met at once: the tree that it gives.
fn make_use(
    units: &mut UnitScope,
    alloc: Global,
    work: &mut Work,
    region: &Region,
    at: Use,
) -> Result<Tree, ExpandFault>
    requires opened { IsOpened work.old region.now }
    requires usable { CanUse work.old units.old at }
    requires named { CanName work.old region.now at.form }
    ensures used { (known : Known) (ls : List Frames) (s : Noting) (fs : Frames) (keyword : ModelTarget) (m : Transformer Frames Identifier) (ts : Trees Identifier) (tail : Tail Identifier) →
        Stands work.old units.old ls s → Stand ls at.scope fs → UseFor work.old s at keyword m ts tail →
        EndsHere (WorksOn work.new region.now) work.old work.new region.now units.old units.new ls result (use_met known at.here fs keyword m ts tail s) }
    ensures counted { OnOk result (units.new.form.budget.uses ≡ units.old.form.budget.uses + 1) }
    ensures locals { OnOk result (units.new.form.budget.locals ≡ units.old.form.budget.locals) }
{
    let (_, comparisons) = compare_use(units, alloc, work, at)?;
    let given = apply_use(units, alloc, work, region, at, &comparisons)?;
    let Instance { tree, met } = given;
    meet(units, alloc, work, at.scope, &met)?;
    Ok(tree)
}

/// What stands at the head of a form.
fn look_at_head(units: &UnitScope, work: &Work, scope: ScopeNo, form: Tree) -> Headed
    requires look { CanLookPlainly work.now units.now scope }
    requires form { IsStanding work.now form }
    ensures { (known : Known) (ls : List Frames) (s : ScopedState) (fs : Frames) (t : ModelTree Identifier) → StandsPlainly work.now units.now ls s → Stand ls scope fs → StandsFor work.now form t →
        IsHeaded work.now known s fs t result }
{
    let Some(name) = head_name(work, form) else {
        return Headed::Nameless;
    };
    let keyword = units.target(work, scope, name);
    match units.head_by(work, keyword.meaning) {
        Head::Macro => Headed::Macro(keyword),
        Head::Core(core) => Headed::Core(core, keyword),
        Head::Auxiliary(_) => Headed::Plain(keyword),
        Head::Other => Headed::Plain(keyword),
    }
}

/// Reads an expression without a macro at its head.
fn read(
    units: &mut UnitScope,
    alloc: Global,
    work: &Work,
    at: At,
    form: Tree,
    core: Option<(CoreKeyword, Target)>,
) -> Result<Ready, ExpandFault>
    requires look { CanLook work.now units.old at.scope }
    requires form { IsStanding work.now form }
    requires head { HasCore work.now units.old at.scope form core }
    ensures read { (known : Known) (region : AnyRegion) (ls : List Frames) (s : Noting) (fs : Frames) (t : ModelTree Identifier) → Knows units.old.libraries known →
        Stands work.now units.old ls (head_asked known fs (head_name_of t) s) → Stand ls at.scope fs → WorksOn work.now region form t → IsSettled known (state_of s) fs t →
        Reads known at.depth at.here work.now region units.old units.new ls fs result (λ f. expression f (noting known) at.depth at.here fs t s) }
    ensures locals { OnOk result (units.new.form.budget.locals ≡ units.old.form.budget.locals) }
{
    if let Some(name) = name_at(work, form) {
        return Ok(Ready::Core(reference(units, work, at, name)?));
    }
    match look_at(work, form) {
        Look::Name(_) => Ok(Ready::Core(constant(units, work, at, form)?)),
        Look::Atom(_) => Ok(Ready::Core(constant(units, work, at, form)?)),
        Look::Vector(_) => Ok(Ready::Core(quote(units, work, at, form)?)),
        Look::List(items, tail) => read_list(units, alloc, work, at, form, core, items, tail),
    }
}

/// Reads a list: a core form, or a call.
fn read_list(
    units: &mut UnitScope,
    alloc: Global,
    work: &Work,
    at: At,
    form: Tree,
    core: Option<(CoreKeyword, Target)>,
    items: &[Tree],
    tail: Option<Tree>,
) -> Result<Ready, ExpandFault>
    requires look { CanLook work.now units.old at.scope }
    requires form { (ts : Trees Identifier) × (end : Tail Identifier) × (o : Option Occ) × StandsFor work.now form (list ts end o) × PartsStand work.now items.now ts × EndStands work.now tail end }
    requires head { HasCore work.now units.old at.scope form core }
    ensures read { (known : Known) (region : AnyRegion) (ls : List Frames) (s : Noting) (fs : Frames) (ts : Trees Identifier) (end : Tail Identifier) (o : Option Occ) →
        Knows units.old.libraries known → Stands work.now units.old ls (head_asked known fs (head_name_of (list ts end o)) s) → Stand ls at.scope fs → WorksOn work.now region form (list ts end o) →
        PartsStand work.now items.now ts → EndStands work.now tail end → AllNamed work.now region items.now → IsSettled known (state_of s) fs (list ts end o) →
        Reads known at.depth at.here work.now region units.old units.new ls fs result (λ f. expression f (noting known) at.depth at.here fs (list ts end o) s) }
    ensures locals { OnOk result (units.new.form.budget.locals ≡ units.old.form.budget.locals) }
{
    match core {
        Some((core, keyword)) => {
            meet_keyword(units, keyword)?;
            read_form(units, alloc, work, at, core, form)
        }
        None => Ok(Ready::Call(call_parts(alloc, at.here, items, tail)?)),
    }
}

/// One more keyword was met.
#[inline(always)]
fn meet_keyword(units: &mut UnitScope, keyword: Target) -> Mem<()>
    ensures { OnOk result (units.new ≡ with_keyword units.old keyword) }
{
    units.form.trace.keywords.push(keyword)?;
    Ok(())
}

/// Reads a core form.
fn read_form(
    units: &mut UnitScope,
    alloc: Global,
    work: &Work,
    at: At,
    core: CoreKeyword,
    form: Tree,
) -> Result<Ready, ExpandFault>
    requires look { CanLook work.now units.old at.scope }
    requires core { (c : ModelKeyword) × (keyword_as core ≡ Some c) }
    requires form { IsStanding work.now form }
    ensures read { (known : Known) (region : AnyRegion) (ls : List Frames) (s : Noting) (fs : Frames) (c : ModelKeyword) (head : ModelTree Identifier) (ts : Trees Identifier) (end : Tail Identifier) (o : Option Occ) →
        Knows units.old.libraries known → Stands work.now units.old ls s → Stand ls at.scope fs → keyword_as core ≡ Some c → WorksOn work.now region form (list (tree head ts) end o) →
        Reads known at.depth at.here work.now region units.old units.new ls fs result (λ f. core_form f (noting known) at.depth at.here fs c ts end s) }
    ensures locals { OnOk result (units.new.form.budget.locals ≡ units.old.form.budget.locals) }
{
    work.trees_fit();
    note_form(units, alloc, work, at.scope, core, form);
    let marks = units.marks(alloc, work, at.scope, core, form)?;
    let shape = match parse_core(alloc, work, core, form, true, &marks) {
        Ok(shape) => shape,
        Err(fault) => return Err(misread(at.here, fault)),
    };
    match shape {
        CoreShape::Quote(datum) => Ok(Ready::Core(quote(units, work, at, datum)?)),
        CoreShape::SyntaxError(text) => {
            let text = Text::of(alloc, work.symbols.name(text))?;
            Err(fails_with(at.here, text))
        }
        CoreShape::Include => Err(fails(at.here, code::INCLUDE_REFUSED)),
        other => Ok(Ready::Shape(core, other)),
    }
}

/// A constant.
#[inline(always)]
fn constant(units: &mut UnitScope, work: &Work, at: At, form: Tree) -> Result<Core, ExpandFault>
    requires look { CanLook work.now units.old at.scope }
    ensures constant { (known : Known) (region : AnyRegion) (ls : List Frames) (s : Noting) (a : Atom) (o : Option Occ) → Stands work.now units.old ls s → StandsFor work.now form (atom a o) →
        EndsHere (CoreStands work.now units.old.unit units.old.form.number) work.now work.now region units.old units.new ls result (node (noting known) at.here 2 at.depth (λ below. done (Const a)) s) }
    ensures locals { OnOk result (units.new.form.budget.locals ≡ units.old.form.budget.locals) }
{
    units.begin_node(at.here, 2, at.depth)?;
    Ok(Core::Const(form))
}

/// A datum that stands for itself.
fn quote(units: &mut UnitScope, work: &Work, at: At, datum: Tree) -> Result<Core, ExpandFault>
    requires look { CanLook work.now units.old at.scope }
    requires datum { IsStanding work.now datum }
    ensures quoted { (known : Known) (region : AnyRegion) (ls : List Frames) (s : Noting) (t : ModelTree Identifier) → Stands work.now units.old ls s → StandsFor work.now datum t →
        EndsHere (CoreStands work.now units.old.unit units.old.form.number) work.now work.now region units.old units.new ls result (quote (noting known) at.depth at.here t s) }
    ensures locals { OnOk result (units.new.form.budget.locals ≡ units.old.form.budget.locals) }
{
    work.trees_fit();
    units.begin_node(at.here, work.size(datum) + 1, at.depth)?;
    Ok(Core::Quote(datum))
}

/// An identifier as an expression. A keyword is no value.
#[inline(always)]
fn reference(
    units: &mut UnitScope,
    work: &Work,
    at: At,
    name: NamePart,
) -> Result<Core, ExpandFault>
    requires look { CanLook work.now units.old at.scope }
    requires name { HasNumber work.now name }
    ensures referred { (known : Known) (region : AnyRegion) (ls : List Frames) (s : Noting) (fs : Frames) (n : Named Identifier) → Stands work.now units.old ls s → Stand ls at.scope fs → IsName work.now name n →
        EndsHere (CoreStands work.now units.old.unit units.old.form.number) work.now work.now region units.old units.new ls result (reference (noting known) at.depth at.here fs n s) }
    ensures locals { OnOk result (units.new.form.budget.locals ≡ units.old.form.budget.locals) }
{
    let target = variable(units, work, at, name)?;
    units.begin_node(at.here, 1, at.depth)?;
    Ok(Core::Ref(target))
}

/// An identifier where it is used, which is no keyword. What it means is noted.
#[inline(always)]
pub(crate) fn variable(
    units: &mut UnitScope,
    work: &Work,
    at: At,
    name: NamePart,
) -> Result<Target, ExpandFault>
    requires look { CanLook work.now units.old at.scope }
    requires name { HasNumber work.now name }
    ensures tested { (known : Known) (ls : List Frames) (s : Noting) (fs : Frames) (n : Named Identifier) → Stands work.now units.old ls s → Stand ls at.scope fs → IsName work.now name n →
        TestsVariable work.now s at.here n (head_of (noting known) fs s n.name) (passed result) }
    ensures target { (ls : List Frames) (s : Noting) (fs : Frames) (n : Named Identifier) → Stands work.now units.old ls s → Stand ls at.scope fs → IsName work.now name n →
        IfOk result (λ target. IsTarget work.now.symbols s.unit s.form target (record { meaning = means_here s fs n.name; ident = n.name; occ = n.occ })) }
    ensures noted { (known : Known) (ls : List Frames) (s : Noting) (fs : Frames) (n : Named Identifier) → Stands work.now units.old ls s → Stand ls at.scope fs → IsName work.now name n →
        Stands work.now units.new ls ((noting known).ask (AskedHead fs n.name ∷ []) s) }
    ensures rest { units.new ≡ with_notes units.old units.new.form.trace.notes }
{
    let target = units.target(work, at.scope, name);
    note(units, work, target);
    if units.head_by(work, target.meaning).is_keyword() {
        return Err(fails_at(at.here, code::KEYWORD_AS_VALUE, name));
    }
    Ok(target)
}

/// A core node of so many nodes begins: where its parts stand.
pub(crate) fn below(units: &mut UnitScope, at: At, nodes: u32) -> Result<At, ExpandFault>
    requires { units.old.form.budget.nodes ≤ 200000 }
    ensures { BeginsBelow units.old units.new at nodes result }
{
    let depth = units.begin_node(at.here, nodes, at.depth)?;
    Ok(At {
        scope: at.scope,
        here: at.here,
        depth,
    })
}
