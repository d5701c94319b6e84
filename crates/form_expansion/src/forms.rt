//! The forms of a unit (R7RS 5.1): all are gone through in order, and then what they set aside is expanded in order. What is local to a
//! form is forgotten behind each of its turns.
ghost use Rattle.std.specs.Prelude.{◌≡◌, ℕ, ◌+◌, ◌^◌, ◌≤◌, List, [], length, vec_len, nat_lt, true, false, None, Ok, OnOk, IfOk, IfSome};
ghost use Rattle.scheme_model.specs.Ident.{Ident as Identifier, Written};
ghost use Rattle.scheme_model.specs.Trees.{Tree as ModelTree};
ghost use Rattle.scheme_model.specs.UnitExpansion.{max_total};
ghost use Rattle.scheme_model.specs.Requirements.{Known};
ghost use Rattle.macro_uses.specs.MacroUses.{total_of};
ghost use Rattle.macro_uses.specs.ScopedUses.{form_numbers};
ghost use Rattle.scheme_model.specs.Program.{Prepared, forms_at_work};
ghost use Rattle.scheme_model.specs.ScopedProgram.{forms_over};
ghost use Rattle.kept_forms.specs.KeptForms.{LeftOrKept};
ghost use Rattle.scheme_model.specs.Order.{Note, Item as ModelItem, Left as ModelLeft};
ghost use Rattle.scheme_model.specs.ScopedExpansion.{Frames, FramedIdent, ScopedState};
ghost use Rattle.syntax_tree.specs.Names.{KeepsNames};
ghost use Rattle.syntax_tree.specs.Works.{IsOpened, StandsFor, KeepsTrees, SameRegions, AddsIn};
ghost use Rattle.datum_reader.specs.WellFormed.{WasRead};
ghost use Rattle.datum_reader.specs.Views.{datum_of};
ghost use Rattle.unit_sources.specs.UnitsRead.{form_of, forms_of};
ghost use Rattle.core_tree.specs.Units.{IsBlank};
ghost use Rattle.feature_requirements.specs.Judged.{Knows};
ghost use Rattle.unit_scopes.specs.Stepped.{IsFresh, turned};
ghost use Rattle.form_notes.specs.Noted.{Noted};
ghost use Rattle.expander.specs.UnitNotes.{CanNote, Editions, HasNoted, OnEnded, expand_noting, part_begun, set_noting};
ghost use Rattle.unit_scopes.specs.Outcomes.{Grows, IsAtWork};
ghost use Rattle.unit_scopes.specs.Searched.{searched_unit_over};
ghost use Rattle.unit_scopes.specs.Units.{UnitStands, CountsFor, HasSpace, ItemFor, CanDeclare, Expands, declared, expanded};
ghost use Rattle.form_expansion.specs.Forms.{IsBench, IsBegun, StandsOutside, MayForget, MayNote, IsUntouched, IsDeclared, used_by, Passing, PassesTo, PassesForm, FinishesForm, EndsForm, CanPass, CanFinish, CanFinishAll, FormsHeld, Passes, Finishes, AreFormed, Unfolds, Stays, IsTurned, IsForgotten, NotedInside, NotedOutside, declared_as, left_noting, taken};
ghost use Rattle.unit_scopes.specs.Editions.{EditionsTell};
ghost use Rattle.unit_scopes.specs.Forgotten.{OwnFirst};
ghost use Rattle.read_documents.specs.WereRead.{WereRead};

use core_tree::traces::{FormFault, Trace, blank_trace};
use core_tree::units::{ExpandedItem, UnitForm};
use datum_reader::seed_as;
use expander::{Budget, ExpandFault, Item, Left, UnitScope, declare_form, expand_item, meet_uses};
use ls_base::limits::MAX_UNIT_NODES;
use ls_base::{Items, Mem, Memory, Steps};
use read_documents::form_numbers::number_of;
use std::alloc::Global;
use std::sync::ledger::Ledger;
use syntax_tree::trees::{PoolFault, Region, Tree, Work};
use unit_sources::UnitForm as SourceForm;

/// What units are expanded with: the trees, the region of all that is made, and the scopes.
#[derive(Drop)]
pub struct Bench {
    pub work: Work,
    pub region: Region,
    pub scope: UnitScope,
}

/// What a form has counted and met so far, and its fault.
#[derive(Drop)]
pub struct SoFar {
    pub budget: Budget,
    pub trace: Trace,
    pub fault: Option<FormFault>,
}

/// A form that was gone through: what it has counted and met, with its fault, and what is left of it, which is nothing where it is broken: its macro
/// uses that wait for what their literals mean, and what it set aside.
#[derive(Drop)]
pub struct Declared {
    pub so_far: SoFar,
    pub left: Left,
}

/// What the forms of the open unit expand to. `None` where they count too many nodes together, at which work on the unit ends.
pub fn expand_forms<L: Ledger>(
    alloc: Global,
    bench: &mut Bench,
    unit: u32,
    forms: &[SourceForm],
    steps: &mut Steps<L>,
) -> Mem<Option<Items<UnitForm>>>
    requires begun { IsBegun bench.old unit }
    requires read { WereRead (forms_of forms.now) }
    // The forms stand for what came of the unit's, and their definitions are told in order.
    ensures formed { IfOk result (λ forms. IfSome forms (AreFormed bench.new.work unit)) }
    ensures bench { OnOk result (IsBench bench.new) }
    ensures stays { OnOk result (Stays bench.old bench.new) }
    // What stood before still stands, also where memory ran out.
    ensures grows { Grows bench.old.work bench.new.work bench.old.region }
    // They are the definition's, or work on the unit ended, and the bench stands for the state in which it did.
    ensures unfolds { (known : Known) (ls : List Frames) (s m : ScopedState) (p : Prepared) → Knows bench.old.scope.libraries known → StandsOutside bench.old ls m [] → MayForget known p s m → m.unit ≡ unit →
        ((form : ℕ) → IsFresh m form) → p.number ≡ unit → forms_at_work p ≡ forms_of forms.now → IfOk result (Unfolds bench.new known p s) }
    ensures count { IfOk result (λ expanded. IfSome expanded (λ expanded. length expanded ≡ length forms.now)) }
    // Each macro use that the definition counts is a step.
    ensures steps { (known : Known) (ls : List Frames) (s m : ScopedState) (p : Prepared) → Knows bench.old.scope.libraries known → StandsOutside bench.old ls m [] → MayForget known p s m → m.unit ≡ unit →
        ((form : ℕ) → IsFresh m form) → p.number ≡ unit → forms_at_work p ≡ forms_of forms.now →
        OnOk result (steps.new ≡ steps.old + total_of (searched_unit_over known p s).1.uses (form_numbers p)) }
{
    let mut total = 0;
    let declared = declare_all(alloc, bench, unit, forms, &mut total, steps)?;
    if is_large(total) {
        return Ok(None);
    }
    let expanded = finish_all(alloc, bench, unit, declared, &mut total, steps)?;
    if is_large(total) {
        return Ok(None);
    }
    Ok(Some(expanded))
}

/// Whether forms count too many nodes together.
pub fn is_large(total: usize) -> bool
    ensures { result ≡ nat_lt max_total total }
{
    total > MAX_UNIT_NODES
}

/// Goes through forms, until they count too many nodes.
fn declare_all<L: Ledger>(
    alloc: Global,
    bench: &mut Bench,
    unit: u32,
    forms: &[SourceForm],
    total: &mut usize,
    steps: &mut Steps<L>,
) -> Mem<Vec<Declared>>
    requires begun { IsBegun bench.old unit }
    requires read { WereRead (forms_of forms.now) }
    requires nothing { total.old ≡ 0 }
    ensures held { IfOk result (λ all. FormsHeld bench.new unit 0 all.items) }
    ensures count { IfOk result (λ all. nat_lt max_total total.new ≡ false → vec_len all ≡ length forms.now) }
    ensures stays { OnOk result (Stays bench.old bench.new) }
    // What stood before still stands, also where memory ran out.
    ensures grows { Grows bench.old.work bench.new.work bench.old.region }
    ensures passes { (known : Known) (ls : List Frames) (s : ScopedState) → Knows bench.old.scope.libraries known → StandsOutside bench.old ls s [] → s.unit ≡ unit → ((form : ℕ) → IsFresh s form) →
        IfOk result (λ all. Passes bench.new unit known (forms_over (Written unit) unit 0 (forms_of forms.now)) s total.new all.items) }
    ensures steps { IfOk result (λ all. steps.new ≡ steps.old + used_by all.items) }
{
    let mut all = Vec::new(alloc);
    for (place, form) in forms.iter().enumerate() {
        if is_large(*total) {
            break;
        }
        let number = number_of(place)?;
        let declared = declare(alloc, bench, unit, number, form, steps)?;
        *total += declared.so_far.budget.nodes as usize;
        all.push(declared)?;
    }
    Ok(all)
}

/// Goes through a form, unless it is a declaration, and forgets what is local to it.
fn declare<L: Ledger>(
    alloc: Global,
    bench: &mut Bench,
    unit: u32,
    number: u32,
    form: &SourceForm,
    steps: &mut Steps<L>,
) -> Mem<Declared>
    requires region { IsOpened bench.old.work bench.old.region }
    requires read { form.now.declared ≡ false → WasRead (datum_of form.now.datum) }
    requires stands { CanPass bench.old unit number }
    ensures blank { form.now.declared ≡ true → IfOk result IsUntouched }
    ensures same { form.now.declared ≡ true → OnOk result (bench.new ≡ bench.old) }
    ensures passes { (known : Known) (ls : List Frames) (s : ScopedState) (notes : List (Note FramedIdent)) → form.now.declared ≡ false → Knows bench.old.scope.libraries known →
        StandsOutside bench.old ls s notes → s.unit ≡ unit → IsFresh s number →
        IfOk result (PassesForm bench.old bench.new known unit number (form_of form.now) notes s) }
    ensures few { IfOk result (λ form. form.so_far.budget.nodes ≤ 200000) }
    ensures steps { IfOk result (λ form. steps.new ≡ steps.old + form.so_far.budget.uses) }
    ensures stays { OnOk result (Stays bench.old bench.new) }
    // What stood before still stands, also where memory ran out.
    ensures grows { Grows bench.old.work bench.new.work bench.old.region }
{
    if form.declared {
        return Ok(blank(alloc));
    }
    let tree = seeded(alloc, bench, unit, number, form)?;
    let declared = declare_tree(bench, tree, number, blank(alloc), steps)?;
    bench.scope.forget_locals();
    Ok(declared)
}

/// The tree of a form, in the region of the bench.
pub fn seeded(
    alloc: Global,
    bench: &mut Bench,
    unit: u32,
    number: u32,
    form: &SourceForm,
) -> Mem<Tree>
    requires region { IsOpened bench.old.work bench.old.region }
    requires read { WasRead (datum_of form.now.datum) }
    ensures tree { IfOk result (λ tree. StandsFor bench.new.work tree (taken unit number (form_of form.now))) }
    ensures lies { IfOk result (IsAtWork bench.new.work bench.new.region) }
    // What the bench stands for stays, and so do what forms counted and the scopes.
    ensures stands { (ls : List Frames) (s : ScopedState) (notes : List (Note FramedIdent)) → StandsOutside bench.old ls s notes → OnOk result (StandsOutside bench.new ls s notes) }
    ensures scope { bench.new.scope ≡ bench.old.scope }
    ensures stays { OnOk result (Stays bench.old bench.new) }
    // What stood before still stands, also where memory ran out.
    ensures grows { Grows bench.old.work bench.new.work bench.old.region }
{
    let Bench { work, region, .. } = bench;
    let home = form.home_in(unit, number);
    match seed_as(alloc, work, region, &form.datum, home, unit) {
        Ok(tree) => {
            work.symbols.told_apart();
            Ok(tree)
        }
        Err(PoolFault::Full) => Err(Memory),
        Err(PoolFault::Memory) => Err(Memory),
    }
}

/// A form that has met nothing.
pub fn blank(alloc: Global) -> Declared
    ensures { IsUntouched result }
{
    Declared {
        so_far: SoFar {
            budget: Budget {
                uses: 0,
                nodes: 0,
                locals: 0,
            },
            trace: blank_trace(alloc),
            fault: None,
        },
        left: Left {
            uses: Vec::new(alloc),
            items: Items::new(alloc),
        },
    }
}

/// Goes through the tree of a form. What it asks is noted.
pub fn declare_tree<L: Ledger>(
    bench: &mut Bench,
    tree: Tree,
    number: u32,
    blank: Declared,
    steps: &mut Steps<L>,
) -> Mem<Declared>
    requires region { IsOpened bench.old.work bench.old.region }
    requires form { IsAtWork bench.old.work bench.old.region tree }
    requires stands { CanDeclare bench.old.work bench.old.scope number blank.so_far.budget blank.so_far.trace }
    requires blank { IsUntouched blank }
    ensures passes { (known : Known) (ls : List Frames) (s : ScopedState) (notes : List (Note FramedIdent)) (t : ModelTree Identifier) → Knows bench.old.scope.libraries known →
        UnitStands bench.old.work bench.old.scope ls s notes → CountsFor bench.old.work s number blank.so_far.budget blank.so_far.trace → StandsFor bench.old.work tree t →
        IfOk result (PassesTo bench.old bench.new s.unit number s (declared known number t notes s)) }
    ensures noted { (known : Known) (ls : List Frames) (s : ScopedState) (notes : List (Note FramedIdent)) (t : ModelTree Identifier) (editions : Editions) (ms : List Noted) → Knows bench.old.scope.libraries known →
        UnitStands bench.old.work bench.old.scope ls s notes → CountsFor bench.old.work s number blank.so_far.budget blank.so_far.trace → StandsFor bench.old.work tree t → CanNote bench.old.work bench.old.scope blank.so_far.trace (s.uses number) editions ms (turned number s) →
        IfOk result (λ form. HasNoted bench.new.work bench.new.scope.macros form.so_far.trace (set_noting known t notes (part_begun (s.uses number) notes editions ms (turned number s))).1) }
    ensures steps { IfOk result (λ form. steps.new ≡ steps.old + form.so_far.budget.uses) }
    ensures stays { OnOk result (Stays bench.old bench.new) }
    // What stood before still stands, also where memory ran out.
    ensures grows { Grows bench.old.work bench.new.work bench.old.region }
{
    let Bench {
        work,
        region,
        scope,
    } = bench;
    let mut form = blank;
    match declare_form(
        scope,
        work,
        region,
        tree,
        number,
        &mut form.so_far.budget,
        &mut form.so_far.trace,
        steps,
    ) {
        Ok(left) => {
            form.left = left;
            Ok(form)
        }
        Err(fault) => {
            form.so_far.fault = Some(form_fault(fault)?);
            Ok(form)
        }
    }
}

/// The fault of a broken form.
fn form_fault(fault: ExpandFault) -> Mem<FormFault>
    ensures { IfOk result (λ told. fault ≡ ExpandFault.At told) }
{
    match fault {
        ExpandFault::At(fault) => Ok(fault),
        ExpandFault::Full => Err(Memory),
        ExpandFault::Memory => Err(Memory),
    }
}

/// Expands what forms set aside, until they count too many nodes.
fn finish_all<L: Ledger>(
    alloc: Global,
    bench: &mut Bench,
    unit: u32,
    declared: Vec<Declared>,
    total: &mut usize,
    steps: &mut Steps<L>,
) -> Mem<Items<UnitForm>>
    requires region { IsOpened bench.old.work bench.old.region }
    requires held { FormsHeld bench.old unit 0 declared.items }
    requires first { OwnFirst bench.old.scope }
    ensures formed { IfOk result (λ forms. nat_lt max_total total.new ≡ false → AreFormed bench.new.work unit forms) }
    ensures count { IfOk result (λ forms. nat_lt max_total total.new ≡ false → length forms ≡ vec_len declared) }
    ensures bench { OnOk result (IsBench bench.new) }
    ensures stays { OnOk result (Stays bench.old bench.new) }
    // What stood before still stands, also where memory ran out.
    ensures grows { Grows bench.old.work bench.new.work bench.old.region }
    ensures finishes { (known : Known) (h : FormsHeld bench.old unit 0 declared.items) (rs : List LeftOrKept) → Knows bench.old.scope.libraries known →
        CanFinishAll bench.old unit known rs h.state total.old declared.items → IfOk result (Finishes bench.new unit known rs h.state total.new steps.old steps.new) }
{
    let mut forms = Items::new(alloc);
    for (place, form) in declared.into_iter().enumerate() {
        if is_large(*total) {
            break;
        }
        let number = number_of(place)?;
        let Declared { so_far, left } = form;
        let (form, _) = finish_form(alloc, bench, unit, number, &left, so_far, total, steps)?;
        forms.push(form)?;
    }
    Ok(forms)
}

/// Finishes a form, and forgets what is local to it. What it asks is noted. Beside it is told what it has counted by then.
pub fn finish_form<L: Ledger>(
    alloc: Global,
    bench: &mut Bench,
    unit: u32,
    number: u32,
    left: &Left,
    so_far: SoFar,
    total: &mut usize,
    steps: &mut Steps<L>,
) -> Mem<(UnitForm, Budget)>
    requires region { IsOpened bench.old.work bench.old.region }
    requires stands { CanFinish bench.old unit number (declared_as so_far left.now) }
    requires few { total.old ≤ max_total }
    ensures blank { IsUntouched (declared_as so_far left.now) → IfOk result (λ ended. IsBlank ended.0) }
    ensures same { IsUntouched (declared_as so_far left.now) → OnOk result (IsForgotten bench.old bench.new × (total.new ≡ total.old) × (steps.new ≡ steps.old)) }
    ensures ends { (known : Known) (ls : List Frames) (s : ScopedState) (notes : List (Note FramedIdent)) (r : Passing) → Knows bench.old.scope.libraries known →
        StandsOutside bench.old ls s notes → s.unit ≡ unit → IsDeclared bench.old.work bench.old.region unit number s (declared_as so_far left.now) r →
        IfOk result (λ ended. EndsForm bench.old bench.new known unit number r s total.old total.new steps.old steps.new ended.1 ended.0) }
    ensures noted { (known : Known) (ls : List Frames) (s : ScopedState) (notes : List (Note FramedIdent)) (l : ModelLeft Identifier) (editions : Editions) (ms : List Noted) → Knows bench.old.scope.libraries known →
        StandsOutside bench.old ls s notes → s.unit ≡ unit → IsDeclared bench.old.work bench.old.region unit number s (declared_as so_far left.now) (Ok l) →
        CanNote bench.old.work bench.old.scope so_far.trace (s.uses number) editions ms (turned number s) →
        IfOk result (λ ended. nat_lt max_total total.new ≡ false → NotedOutside bench.new.work bench.new.scope.macros ended.0.trace (left_noting known l (part_begun (s.uses number) notes editions ms (turned number s)))) }
    // Editions that told the rules of macros still do, whatever the form comes to.
    ensures editions { (ls : List Frames) (s : ScopedState) (notes : List (Note FramedIdent)) (r : Passing) (editions : Editions) (ms : List Noted) → StandsOutside bench.old ls s notes → s.unit ≡ unit →
        IsDeclared bench.old.work bench.old.region unit number s (declared_as so_far left.now) r → MayNote bench.old number s so_far.trace editions ms r →
        IfOk result (λ ended. EditionsTell bench.new.work.symbols bench.new.scope.macros s editions) }
    ensures stays { OnOk result (Stays bench.old bench.new) }
    // What stood before still stands, also where memory ran out.
    ensures grows { Grows bench.old.work bench.new.work bench.old.region }
{
    let finished = finish(alloc, bench, unit, number, left, so_far, total, steps)?;
    bench.scope.forget_locals();
    Ok(finished)
}

/// Meets the uses of a form, and expands what it set aside. A broken form comes to nothing but its fault and what it defined.
fn finish<L: Ledger>(
    alloc: Global,
    bench: &mut Bench,
    unit: u32,
    number: u32,
    left: &Left,
    so_far: SoFar,
    total: &mut usize,
    steps: &mut Steps<L>,
) -> Mem<(UnitForm, Budget)>
    requires region { IsOpened bench.old.work bench.old.region }
    requires stands { CanFinish bench.old unit number (declared_as so_far left.now) }
    requires few { total.old ≤ max_total }
    ensures blank { IsUntouched (declared_as so_far left.now) → IfOk result (λ ended. IsBlank ended.0) }
    ensures same { IsUntouched (declared_as so_far left.now) → OnOk result (IsTurned bench.old bench.new × (total.new ≡ total.old) × (steps.new ≡ steps.old)) }
    ensures finishes { (known : Known) (ls : List Frames) (s : ScopedState) (notes : List (Note FramedIdent)) (r : Passing) → Knows bench.old.scope.libraries known →
        StandsOutside bench.old ls s notes → s.unit ≡ unit → IsDeclared bench.old.work bench.old.region unit number s (declared_as so_far left.now) r →
        IfOk result (λ ended. FinishesForm bench.old bench.new known unit number r s total.old total.new steps.old steps.new ended.1 ended.0) }
    ensures noted { (known : Known) (ls : List Frames) (s : ScopedState) (notes : List (Note FramedIdent)) (l : ModelLeft Identifier) (editions : Editions) (ms : List Noted) → Knows bench.old.scope.libraries known →
        StandsOutside bench.old ls s notes → s.unit ≡ unit → IsDeclared bench.old.work bench.old.region unit number s (declared_as so_far left.now) (Ok l) →
        CanNote bench.old.work bench.old.scope so_far.trace (s.uses number) editions ms (turned number s) →
        IfOk result (λ ended. nat_lt max_total total.new ≡ false → NotedInside bench.new.work bench.new.scope.macros ended.0.trace (left_noting known l (part_begun (s.uses number) notes editions ms (turned number s)))) }
    // Editions that told the rules of macros still do, whatever the form comes to.
    ensures editions { (ls : List Frames) (s : ScopedState) (notes : List (Note FramedIdent)) (r : Passing) (editions : Editions) (ms : List Noted) → StandsOutside bench.old ls s notes → s.unit ≡ unit →
        IsDeclared bench.old.work bench.old.region unit number s (declared_as so_far left.now) r → MayNote bench.old number s so_far.trace editions ms r →
        IfOk result (λ ended. EditionsTell bench.new.work.symbols bench.new.scope.macros s editions) }
    ensures stays { OnOk result (Stays bench.old bench.new) }
    // What stood before still stands, also where memory ran out.
    ensures grows { Grows bench.old.work bench.new.work bench.old.region }
{
    let SoFar {
        mut budget,
        mut trace,
        fault,
    } = so_far;
    if fault.is_some() {
        return Ok((broken(alloc, trace, fault), budget));
    }
    let Bench { work, scope, .. } = bench;
    meet_uses(
        scope,
        work,
        left.uses.as_slice(),
        number,
        budget,
        &mut trace,
    )?;
    let mut items = Items::new(alloc);
    for item in left.items.as_slice() {
        if is_large(*total) {
            break;
        }
        let before = budget.nodes;
        match expand(bench, item, number, &mut budget, &mut trace, steps) {
            Ok(expanded) => {
                *total += expanded.count as usize;
                items.push(expanded)?;
            }
            Err(ExpandFault::At(fault)) => {
                *total += (budget.nodes - before) as usize;
                return Ok((broken(alloc, trace, Some(fault)), budget));
            }
            Err(ExpandFault::Full) => return Err(Memory),
            Err(ExpandFault::Memory) => return Err(Memory),
        }
    }
    let form = UnitForm {
        items,
        trace,
        fault: None,
    };
    Ok((form, budget))
}

/// A form that is broken, or isn't expanded.
fn broken(alloc: Global, trace: Trace, fault: Option<FormFault>) -> UnitForm
    ensures items { result.items ≡ [] }
    ensures definitions { result.trace.definitions ≡ trace.definitions }
    ensures keywords { result.trace.keywords ≡ [] }
    ensures uses { result.trace.uses ≡ [] }
    ensures notes { result.trace.notes ≡ trace.notes }
    ensures fault { result.fault ≡ fault }
{
    let Trace {
        definitions,
        notes,
        ..
    } = trace;
    UnitForm {
        items: Items::new(alloc),
        trace: Trace {
            definitions,
            keywords: Items::new(alloc),
            uses: Items::new(alloc),
            notes,
        },
        fault,
    }
}

/// Expands an item.
fn expand<L: Ledger>(
    bench: &mut Bench,
    item: &Item,
    number: u32,
    budget: &mut Budget,
    trace: &mut Trace,
    steps: &mut Steps<L>,
) -> Result<ExpandedItem, ExpandFault>
    requires opened { IsOpened bench.old.work bench.old.region }
    requires item { (i : ModelItem Identifier) × ItemFor bench.old.work bench.old.region bench.old.scope.unit number item.now i }
    requires stands { CanDeclare bench.old.work bench.old.scope number budget.old trace.old }
    requires space { HasSpace (2 ^ 43) budget.old }
    ensures expanded { (known : Known) (ls : List Frames) (s : ScopedState) (notes : List (Note FramedIdent)) (i : ModelItem Identifier) → Knows bench.old.scope.libraries known →
        UnitStands bench.old.work bench.old.scope ls s notes → CountsFor bench.old.work s number budget.old trace.old → ItemFor bench.old.work bench.old.region bench.old.scope.unit number item.now i →
        Expands bench.old.work bench.new.work bench.old.region bench.old.scope bench.new.scope budget.old budget.new ls number trace.new notes result (expanded known number i s) }
    ensures noted { (known : Known) (ls : List Frames) (s : ScopedState) (notes : List (Note FramedIdent)) (i : ModelItem Identifier) (editions : Editions) (ms : List Noted) → Knows bench.old.scope.libraries known →
        UnitStands bench.old.work bench.old.scope ls s notes → CountsFor bench.old.work s number budget.old trace.old → ItemFor bench.old.work bench.old.region bench.old.scope.unit number item.now i →
        CanNote bench.old.work bench.old.scope trace.old trace.old.notes.begun editions ms (turned number s) →
        OnEnded result (HasNoted bench.new.work bench.new.scope.macros trace.new (expand_noting known i (part_begun trace.old.notes.begun notes editions ms (turned number s))).1) }
    ensures space { OnOk result (HasSpace (2 ^ 43) budget.new) }
    ensures steps { steps.new + budget.old.uses ≡ steps.old + budget.new.uses }
    ensures keeps { KeepsTrees bench.old.work bench.new.work }
    ensures names { KeepsNames bench.old.work.symbols bench.new.work.symbols }
    ensures added { AddsIn bench.old.work bench.new.work bench.old.region }
    ensures regions { SameRegions bench.old.work bench.new.work }
    ensures region { bench.new.region ≡ bench.old.region }
{
    let Bench {
        work,
        region,
        scope,
    } = bench;
    expand_item(scope, work, region, item, number, budget, trace, steps)
}
