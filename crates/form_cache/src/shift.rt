//! What is kept of a form, where its unit has another number of definitions before the form, changed in place without memory (R7RS 5.3).
ghost use Rattle.std.specs.Prelude.{◌≡◌, ℕ, ◌+◌, ◌<◌, ◌≤◌, ◌^◌, length, map, reverse};
ghost use Rattle.scheme_model.specs.Ident.{Ident as Identifier};
ghost use Rattle.scheme_model.specs.Trees.{Tree};
ghost use Rattle.scheme_model.specs.Questions.{Around};
ghost use Rattle.scheme_model.specs.Substitution.{Table};
ghost use Rattle.syntax_tree.specs.Names.{Names};
ghost use Rattle.syntax_tree.specs.declared.trees.Work.{Work};
ghost use Rattle.syntax_tree.specs.declared.trees.table.Region.{Region};
ghost use Rattle.core_tree.specs.Names.{AllMatch};
ghost use Rattle.unit_scopes.specs.State.{IsNumbered};
ghost use Rattle.kept_forms.specs.KeptForms.{KeptForm};
ghost use Rattle.carried_laws.specs.Entries.{kept_from};
ghost use Rattle.form_cache.specs.Entries.{Editions, IsEntry, numbered_from};
ghost use Rattle.form_cache.specs.Shifted.{shifted, binder_shifted, BindersShift, KeptShifts, ItemShifts, LeftShifts, PartShifts, ExpandedShifts};

use crate::entries::Entry;
use core_tree::cores::{Binder, CorePart};
use core_tree::units::{ExpandedItem, UnitForm};
use form_parts::items::{Item, Kept, Left};
use ls_base::Items;
use std::alloc::Global;
use std::mem;

/// How many definitions a unit had before a form, and how many it has.
#[derive(Clone, Copy)]
pub struct Shift {
    pub before: u64,
    pub to: u64,
}

/// Takes the items of a list out of it.
fn take<T: Drop>(alloc: Global, items: &mut Items<T>) -> Vec<T>
    ensures { result.items ≡ items.old }
{
    mem::replace(items, Items::new(alloc)).into_vec()
}

/// A binder of a definition of the unit, with its number.
fn binder(shift: Shift, binder: Binder) -> Binder
    ensures { result ≡ binder_shifted shift binder }
{
    Binder {
        number: binder
            .number
            .saturating_sub(shift.before)
            .saturating_add(shift.to),
        ident: binder.ident,
        occ: binder.occ,
    }
}

/// Binders, one by one.
fn binders(shift: Shift, all: &mut Vec<Binder>)
    ensures { BindersShift shift all.old all.new }
{
    for i in 0..all.len() {
        all[i] = binder(shift, all[i]);
    }
}

/// The definitions of a form.
pub fn definitions(alloc: Global, shift: Shift, items: &mut Items<Binder>)
    ensures shifted { items.new ≡ map (binder_shifted shift) items.old }
    ensures stand { (names : Names) (form : ℕ) (made : Table) → shift.to + length items.old ≤ 2 ^ 64 →
        AllMatch (IsNumbered names form) (reverse items.old) (numbered_from shift.before made) → AllMatch (IsNumbered names form) (reverse items.new) (numbered_from shift.to made) }
{
    let mut all = take(alloc, items);
    binders(shift, &mut all);
    *items = Items::from_vec(all);
}

/// What was set aside.
fn kept(shift: Shift, it: &mut Kept)
    ensures { KeptShifts shift it.old it.new }
{
    match it {
        Kept::Expression(_) => {}
        Kept::Value(name, _) => *name = binder(shift, *name),
        Kept::Function(name, _, _) => *name = binder(shift, *name),
        Kept::Assigned(_, _) => {}
        Kept::AssignedFunction(_, _, _) => {}
        Kept::Values { binders: names, .. } => binders(shift, names),
        Kept::Record { binders: names, .. } => binders(shift, names),
        Kept::Macro(name, _) => *name = binder(shift, *name),
    }
}

/// What was set aside, one by one.
fn all_kept(shift: Shift, all: &mut Vec<Item>)
    ensures { AllMatch (ItemShifts shift) all.old.items all.new.items }
{
    for i in 0..all.len() {
        kept(shift, &mut all[i].kept);
    }
}

/// What is left of a form, where it has set aside something.
fn left(alloc: Global, shift: Shift, it: &mut Option<Left>)
    ensures { LeftShifts shift it.old it.new }
{
    match it {
        None => {}
        Some(left) => {
            let mut all = take(alloc, &mut left.items);
            all_kept(shift, &mut all);
            left.items = Items::from_vec(all);
        }
    }
}

/// A part of the unit: what it binds itself.
fn part(shift: Shift, it: &mut CorePart)
    ensures { PartShifts shift it.old it.new }
{
    match it {
        CorePart::Expression(_) => {}
        CorePart::Define { binder: name, .. } => *name = binder(shift, *name),
        CorePart::Values { binders: names, .. } => binders(shift, names),
        CorePart::Fields { binders: names, .. } => binders(shift, names),
        CorePart::Syntax(only) => only.binder = binder(shift, only.binder),
    }
}

/// Parts of the unit, one by one.
fn all_parts(shift: Shift, all: &mut Vec<ExpandedItem>)
    ensures { AllMatch (ExpandedShifts shift) all.old.items all.new.items }
{
    for i in 0..all.len() {
        part(shift, &mut all[i].part);
    }
}

/// Parts of the unit, as a list.
fn parts(alloc: Global, shift: Shift, items: &mut Items<ExpandedItem>)
    ensures { AllMatch (ExpandedShifts shift) items.old items.new }
{
    let mut all = take(alloc, items);
    all_parts(shift, &mut all);
    *items = Items::from_vec(all);
}

/// What is kept of a form, and what came of it, with so many definitions of the unit before the form: both stand for what they stood for, with those
/// numbers.
pub fn shift_entry(alloc: Global, entry: &mut Entry, form: &mut UnitForm, to: u64)
    requires { to + length form.old.trace.definitions < 2 ^ 64 }
    ensures entry { entry.new ≡ record entry.old { before = to; left = entry.new.left } }
    ensures form { form.new ≡ record form.old { items = form.new.items; trace = record form.old.trace { definitions = form.new.trace.definitions } } }
    ensures stands { (work : Work) (region : Region) (e : Editions) (unit : ℕ) (n : ℕ × Tree Identifier) (k : KeptForm) (w u : Around) →
        IsEntry work region e unit n entry.old form.old k w u → IsEntry work region e unit n entry.new form.new (kept_from to k) w u }
{
    let shift = Shift {
        before: entry.before,
        to,
    };
    left(alloc, shift, &mut entry.left);
    parts(alloc, shift, &mut form.items);
    definitions(alloc, shift, &mut form.trace.definitions);
    entry.before = to;
}
