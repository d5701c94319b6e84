//! The forms of units: the calls of this crate (R7RS 5.1, 5.3).
ghost use Rattle.std.specs.Prelude.{◌≡◌, List, [], map, IfOk, ◌+◌, ◌-◌, ◌^◌, ◌<◌, ◌≤◌, Err, OnOk};
ghost use Rattle.scheme_model.specs.Program.{enough_turns};
ghost use Rattle.form_parts.specs.FormsSeen.{item_of};
ghost use Rattle.scheme_model.specs.Ident.{Ident as Identifier};
ghost use Rattle.scheme_model.specs.Expression.{expand, item_part};
ghost use Rattle.scheme_model.specs.UnitExpansion.{max_depth};
ghost use Rattle.core_tree.specs.Cores.{PartStands};
ghost use Rattle.scheme_model.specs.Requirements.{Known};
ghost use Rattle.scheme_model.specs.Trees.{Tree as ModelTree};
ghost use Rattle.scheme_model.specs.Order.{Note, Item as ModelItem, WaitingUse as ModelWaiting};
ghost use Rattle.form_notes.specs.Noted.{Noted};
ghost use Rattle.noted_steps.specs.Kept.{CanSet as CanSetNoting};
ghost use Rattle.noted_steps.specs.Noting.{Noting};
ghost use Rattle.noted_steps.specs.Outcomes.{Ends as EndsNoting};
ghost use Rattle.noted_steps.specs.Standing.{Stands as StandsNoting};
ghost use Rattle.unit_scopes.specs.Stepped.{turned};
ghost use Rattle.expander.specs.UnitNotes.{CanNote, Editions, HasNoted, OnEnded, SetsNoting, expand_noting, met_noting, part_begun, set_noting};
ghost use Rattle.scheme_model.specs.ScopedExpansion.{Frames, FramedIdent, ScopedState};
ghost use Rattle.syntax_tree.specs.Names.{KeepsNames};
ghost use Rattle.syntax_tree.specs.Works.{IsOpened, StandsFor, KeepsTrees, SameRegions, AddsIn, live_count};
ghost use Rattle.feature_requirements.specs.Judged.{Knows};
ghost use Rattle.unit_scopes.specs.Outcomes.{IsAtWork, Ends, MayFill, HasRoom, Spends};
ghost use Rattle.unit_scopes.specs.State.{Stands};
ghost use Rattle.unit_scopes.specs.Kept.{NotesFor, WaitsFor};
ghost use Rattle.core_tree.specs.Names.{AllMatch};
ghost use Rattle.unit_scopes.specs.Searched.{searched};
ghost use Rattle.unit_scopes.specs.Units.{UnitStands, CountsFor, HasSpace, ItemFor, Declares, Expands, CanDeclare, CanSet, Adds, Counts, Sets, form_at, set_aside, declared, uses_met, expanded};

use crate::cores::expand_kept_item;
use crate::expressions::At;
use crate::passes::pass;
use core_tree::cores::CorePart;
use core_tree::traces::Trace;
use core_tree::units::ExpandedItem;
use feature_requirements::fault::ExpandFault;
use form_parts::items::{Item, Kept, Left, Pending, Spot, WaitingUse, forms_at};
use ls_base::{Items, Mem, Steps};
use noted_steps::parts::{begin_notes, end_notes, resume_notes};
use noted_steps::uses::meet_all;
use std::alloc::Global;
use std::mem;
use std::sync::ledger::Ledger;
use syntax_tree::trees::{Region, Tree, Work};
use unit_scopes::asked::Asked;
use unit_scopes::scope::{Budget, UnitScope};

/// The most that cores may be nested.
const MAX_DEPTH: u32 = 400;

/// Goes through a form of the open unit: what is left of it. Its definitions take effect.
pub fn declare_form<L: Ledger>(
    units: &mut UnitScope,
    work: &mut Work,
    region: &Region,
    form: Tree,
    number: u32,
    budget: &mut Budget,
    trace: &mut Trace,
    steps: &mut Steps<L>,
) -> Result<Left, ExpandFault>
    requires opened { IsOpened work.old region.now }
    requires form { IsAtWork work.old region.now form }
    requires stands { CanDeclare work.old units.old number budget.old trace.old }
    requires space { HasSpace (2 ^ 43 + 2 ^ 40) budget.old }
    ensures declared { (known : Known) (ls : List Frames) (s : ScopedState) (notes : List (Note FramedIdent)) (t : ModelTree Identifier) → Knows units.old.libraries known →
        UnitStands work.old units.old ls s notes → CountsFor work.old s number budget.old trace.old → StandsFor work.old form t →
        Declares work.old work.new region.now units.old units.new budget.old budget.new ls number trace.new result (declared known number t notes s) }
    ensures noted { (known : Known) (ls : List Frames) (s : ScopedState) (notes : List (Note FramedIdent)) (t : ModelTree Identifier) (editions : Editions) (ms : List Noted) → Knows units.old.libraries known →
        UnitStands work.old units.old ls s notes → CountsFor work.old s number budget.old trace.old → StandsFor work.old form t → CanNote work.old units.old trace.old (s.uses number) editions ms (turned number s) →
        OnEnded result (HasNoted work.new units.new.macros trace.new (set_noting known t notes (part_begun (s.uses number) notes editions ms (turned number s))).1) }
    ensures space { OnOk result (HasSpace (2 ^ 43) budget.new) }
    ensures ticks { steps.new + budget.old.uses ≡ steps.old + budget.new.uses }
    ensures keeps { KeepsTrees work.old work.new }
    ensures names { KeepsNames work.old.symbols work.new.symbols }
    ensures added { AddsIn work.old work.new region.now }
    ensures regions { SameRegions work.old work.new }
    ensures nodes { live_count work.new + budget.old.nodes ≤ live_count work.old + 200000 }
    ensures full { result ≡ Err ExpandFault.Full → 2 ^ 31 < live_count work.old + (200000 - budget.old.nodes) }
{
    turn(units, number, *budget, trace);
    match declare(units, work, region, form) {
        Ok(left) => {
            rest(units, budget, trace, steps);
            Ok(left)
        }
        Err(ExpandFault::At(fault)) => {
            rest(units, budget, trace, steps);
            Err(ExpandFault::At(fault))
        }
        Err(ExpandFault::Full) => Err(ExpandFault::Full),
        Err(ExpandFault::Memory) => Err(ExpandFault::Memory),
    }
}

/// Meets the macro uses of a form that was gone through, with what their literals mean once all forms of the unit were.
pub fn meet_uses(
    units: &mut UnitScope,
    work: &Work,
    uses: &[WaitingUse],
    number: u32,
    budget: Budget,
    trace: &mut Trace,
) -> Mem<()>
    requires stands { CanDeclare work.now units.old number budget trace.old }
    requires waits { (us : List (ModelWaiting Identifier)) × AllMatch (WaitsFor work.now units.old.unit number) uses.now us }
    ensures met { (known : Known) (ls : List Frames) (s : ScopedState) (notes : List (Note FramedIdent)) (us : List (ModelWaiting Identifier)) → UnitStands work.now units.old ls s notes →
        CountsFor work.now s number budget trace.old → AllMatch (WaitsFor work.now units.old.unit number) uses.now us →
        OnOk result (UnitStands work.now units.new ls (uses_met known number us s) notes × CountsFor work.now (uses_met known number us s) number budget trace.new) }
    ensures noted { (known : Known) (ls : List Frames) (s : ScopedState) (notes : List (Note FramedIdent)) (us : List (ModelWaiting Identifier)) (editions : Editions) (ms : List Noted) → UnitStands work.now units.old ls s notes →
        CountsFor work.now s number budget trace.old → AllMatch (WaitsFor work.now units.old.unit number) uses.now us → CanNote work.now units.old trace.old (s.uses number) editions ms (turned number s) →
        OnOk result (HasNoted work.now units.new.macros trace.new (met_noting known us (part_begun (s.uses number) notes editions ms (turned number s)))) }
    ensures scope { OnOk result (units.new ≡ record units.old { form = units.new.form }) }
{
    turn(units, number, budget, trace);
    let alloc = units.alloc;
    let root = units.root;
    begin_notes(units);
    meet_all(units, alloc, work, root, uses)?;
    end_notes(units)?;
    mem::swap(&mut units.form.trace, trace);
    Ok(())
}

/// Expands what a form set aside.
pub fn expand_item<L: Ledger>(
    units: &mut UnitScope,
    work: &mut Work,
    region: &Region,
    item: &Item,
    number: u32,
    budget: &mut Budget,
    trace: &mut Trace,
    steps: &mut Steps<L>,
) -> Result<ExpandedItem, ExpandFault>
    requires opened { IsOpened work.old region.now }
    requires item { (i : ModelItem Identifier) × ItemFor work.old region.now units.old.unit number item.now i }
    requires stands { CanDeclare work.old units.old number budget.old trace.old }
    requires space { HasSpace (2 ^ 43) budget.old }
    ensures expanded { (known : Known) (ls : List Frames) (s : ScopedState) (notes : List (Note FramedIdent)) (i : ModelItem Identifier) → Knows units.old.libraries known →
        UnitStands work.old units.old ls s notes → CountsFor work.old s number budget.old trace.old → ItemFor work.old region.now units.old.unit number item.now i →
        Expands work.old work.new region.now units.old units.new budget.old budget.new ls number trace.new notes result (expanded known number i s) }
    ensures noted { (known : Known) (ls : List Frames) (s : ScopedState) (notes : List (Note FramedIdent)) (i : ModelItem Identifier) (editions : Editions) (ms : List Noted) → Knows units.old.libraries known →
        UnitStands work.old units.old ls s notes → CountsFor work.old s number budget.old trace.old → ItemFor work.old region.now units.old.unit number item.now i → CanNote work.old units.old trace.old trace.old.notes.begun editions ms (turned number s) →
        OnEnded result (HasNoted work.new units.new.macros trace.new (expand_noting known i (part_begun trace.old.notes.begun notes editions ms (turned number s))).1) }
    ensures space { OnOk result (HasSpace (2 ^ 43) budget.new) }
    ensures ticks { steps.new + budget.old.uses ≡ steps.old + budget.new.uses }
    ensures keeps { KeepsTrees work.old work.new }
    ensures names { KeepsNames work.old.symbols work.new.symbols }
    ensures added { AddsIn work.old work.new region.now }
    ensures regions { SameRegions work.old work.new }
    ensures nodes { live_count work.new + budget.old.nodes ≤ live_count work.old + 200000 }
    ensures full { result ≡ Err ExpandFault.Full → 2 ^ 31 < live_count work.old + (200000 - budget.old.nodes) }
{
    turn(units, number, *budget, trace);
    let before = budget.nodes;
    let part = expand_apart(units, work, region, item);
    work.symbols.told_apart();
    match part {
        Ok(part) => {
            rest(units, budget, trace, steps);
            Ok(ExpandedItem {
                part,
                count: budget.nodes - before,
            })
        }
        Err(ExpandFault::At(fault)) => {
            rest(units, budget, trace, steps);
            Err(ExpandFault::At(fault))
        }
        Err(ExpandFault::Full) => Err(ExpandFault::Full),
        Err(ExpandFault::Memory) => Err(ExpandFault::Memory),
    }
}

/// Work goes to a form, which has counted and met so far what is told.
fn turn(units: &mut UnitScope, number: u32, budget: Budget, trace: &mut Trace)
    ensures { units.new ≡ record units.old { form = form_at number budget trace.old } }
{
    units.form.number = number;
    units.form.budget = budget;
    mem::swap(&mut units.form.trace, trace);
}

/// Work leaves the form, with what it has counted and met by now. Each macro use is a step.
fn rest<L: Ledger>(
    units: &mut UnitScope,
    budget: &mut Budget,
    trace: &mut Trace,
    steps: &mut Steps<L>,
)
    requires { budget.old.uses ≤ units.old.form.budget.uses }
    ensures scope { units.new ≡ record units.old { form = record units.old.form { trace = trace.old } } }
    ensures budget { budget.new ≡ units.old.form.budget }
    ensures trace { trace.new ≡ units.old.form.trace }
    ensures ticks { steps.new + budget.old.uses ≡ steps.old + units.old.form.budget.uses }
{
    tick(steps, units.form.budget.uses - budget.uses);
    *budget = units.form.budget;
    mem::swap(&mut units.form.trace, trace);
}

/// What is left of the form at work. What it asks is noted.
fn declare(
    units: &mut UnitScope,
    work: &mut Work,
    region: &Region,
    form: Tree,
) -> Result<Left, ExpandFault>
    requires opened { IsOpened work.old region.now }
    requires form { IsAtWork work.old region.now form }
    requires can { CanSet work.old units.old }
    requires space { HasRoom (2 ^ 43 + 2 ^ 40) units.old }
    ensures sets { (known : Known) (ls : List Frames) (s : ScopedState) (notes : List (Note FramedIdent)) (t : ModelTree Identifier) → Knows units.old.libraries known →
        Stands work.old units.old ls s → NotesFor work.old ls units.old.asked notes → StandsFor work.old form t →
        Sets work.old work.new region.now units.old units.new ls result (set_aside known t notes s) }
    ensures noted { (known : Known) (ls : List Frames) (s : ScopedState) (notes : List (Note FramedIdent)) (t : ModelTree Identifier) (editions : Editions) (ms : List Noted) → Knows units.old.libraries known → Stands work.old units.old ls s →
        NotesFor work.old ls units.old.asked notes → StandsFor work.old form t → CanNote work.old units.old units.old.form.trace (s.uses s.form) editions ms s →
        OnEnded result (HasNoted work.new units.new.macros units.new.form.trace (set_noting known t notes (part_begun (s.uses s.form) notes editions ms s)).1) }
    ensures work { Adds work.old work.new region.now units.old.form.budget }
    ensures counts { Counts units.old units.new result }
    ensures full { result ≡ Err ExpandFault.Full → MayFill work.old units.old }
    ensures locals { OnOk result (units.new.form.budget.locals ≤ units.old.form.budget.locals + 2 ^ 40) }
{
    begin_notes(units);
    let left = go_through(units, work, region, form);
    end_notes(units)?;
    left
}

/// Goes through the form at work.
fn go_through(
    units: &mut UnitScope,
    work: &mut Work,
    region: &Region,
    form: Tree,
) -> Result<Left, ExpandFault>
    requires opened { IsOpened work.old region.now }
    requires form { IsAtWork work.old region.now form }
    requires can { CanSetNoting work.old units.old }
    requires space { HasRoom (2 ^ 43 + 2 ^ 40) units.old }
    ensures sets { (known : Known) (ls : List Frames) (s : Noting) (notes : List (Note FramedIdent)) (t : ModelTree Identifier) → Knows units.old.libraries known → StandsNoting work.old units.old ls s →
        NotesFor work.old ls units.old.asked notes → StandsFor work.old form t →
        SetsNoting work.old work.new region.now units.old units.new ls result (set_noting known t notes s) }
    ensures locals { OnOk result (units.new.form.budget.locals ≤ units.old.form.budget.locals + 2 ^ 40) }
{
    let alloc = units.alloc;
    let _size = work.size(form);
    let mut pending = Pending {
        todo: forms_at(alloc, None, &[form])?,
        aside: Vec::new(alloc),
        uses: Vec::new(alloc),
    };
    let spot = Spot {
        scope: units.root,
        in_body: false,
    };
    let mut asked = mem::replace(&mut units.asked, Asked::new(alloc));
    let passed = pass(units, alloc, work, region, spot, &mut pending, &mut asked);
    units.asked = asked;
    passed?;
    let Pending {
        todo: _,
        aside,
        uses,
    } = pending;
    let items = items(alloc, aside)?;
    Ok(Left { uses, items })
}

/// What the form at work has set aside, expanded. What the unit was asked stays, and what the form asks is noted.
fn expand_apart(
    units: &mut UnitScope,
    work: &mut Work,
    region: &Region,
    item: &Item,
) -> Result<CorePart, ExpandFault>
    requires opened { IsOpened work.old region.now }
    requires item { (i : ModelItem Identifier) × ItemFor work.old region.now units.old.unit units.old.form.number item.now i }
    requires can { CanSet work.old units.old }
    requires space { HasRoom (2 ^ 43) units.old }
    ensures part { (known : Known) (ls : List Frames) (s : ScopedState) (i : ModelItem Identifier) → Knows units.old.libraries known → Stands work.old units.old ls s →
        ItemFor work.old region.now units.old.unit units.old.form.number item.now i →
        Ends (λ layout. PartStands work.new units.new.unit units.new.form.number) work.old work.new region.now units.old units.new ls result
        (item_part (expand (searched known) enough_turns) (searched known) max_depth [] i s) }
    ensures noted { (known : Known) (ls : List Frames) (s : ScopedState) (notes : List (Note FramedIdent)) (i : ModelItem Identifier) (editions : Editions) (ms : List Noted) → Knows units.old.libraries known → Stands work.old units.old ls s →
        NotesFor work.old ls units.old.asked notes → ItemFor work.old region.now units.old.unit units.old.form.number item.now i → CanNote work.old units.old units.old.form.trace units.old.form.trace.notes.begun editions ms s →
        OnEnded result (HasNoted work.new units.new.macros units.new.form.trace (expand_noting known i (part_begun units.old.form.trace.notes.begun notes editions ms s)).1) }
    ensures asked { units.new.asked ≡ units.old.asked }
    ensures work { Adds work.old work.new region.now units.old.form.budget }
    ensures counts { Counts units.old units.new result }
    ensures full { result ≡ Err ExpandFault.Full → MayFill work.old units.old }
    ensures locals { OnOk result (Spends 0 units.old units.new) }
{
    resume_notes(units);
    let part = expand_at_root(units, work, region, item);
    end_notes(units)?;
    part
}

/// Expands at the unit's root what the form at work has set aside.
fn expand_at_root(
    units: &mut UnitScope,
    work: &mut Work,
    region: &Region,
    item: &Item,
) -> Result<CorePart, ExpandFault>
    requires opened { IsOpened work.old region.now }
    requires item { (i : ModelItem Identifier) × ItemFor work.old region.now units.old.unit units.old.form.number item.now i }
    requires can { CanSetNoting work.old units.old }
    requires space { HasRoom (2 ^ 43) units.old }
    ensures part { (known : Known) (ls : List Frames) (s : Noting) (i : ModelItem Identifier) → Knows units.old.libraries known → StandsNoting work.old units.old ls s →
        ItemFor work.old region.now units.old.unit units.old.form.number item.now i →
        EndsNoting (λ layout. PartStands work.new units.new.unit units.new.form.number) work.old work.new region.now units.old units.new ls result (expand_noting known i s) }
    ensures asked { units.new.asked ≡ units.old.asked }
    ensures locals { OnOk result (Spends 0 units.old units.new) }
{
    let alloc = units.alloc;
    let at = At {
        scope: units.root,
        here: None,
        depth: MAX_DEPTH,
    };
    let before = mem::replace(&mut units.asked, Asked::new(alloc));
    let part = expand_kept_item(units, alloc, work, region, at, &item.kept);
    units.asked = before;
    part
}

/// What was set aside, as items.
fn items(alloc: Global, aside: Vec<Kept>) -> Mem<Items<Item>>
    ensures { IfOk result (λ items. items ≡ map item_of aside.items) }
{
    let items = aside.into_iter().map(|kept| Item { kept }).collect(alloc)?;
    Ok(Items::from_vec(items))
}

/// One tick for each macro use.
fn tick<L: Ledger>(steps: &mut Steps<L>, uses: u32)
    ensures { steps.new ≡ steps.old + uses }
{
    'uses: for _use in 0..uses {
        steps.tick();
    }
}
