//! What is left of forms once they were gone through (R7RS 5.3.2), under other numbers, changed in place without memory.
ghost use Rattle.std.specs.Prelude.{◌≡◌, map};
ghost use Rattle.core_tree.specs.Names.{AllMatch};
ghost use Rattle.moves.specs.Numbers.{numbers_of};
ghost use Rattle.moved_entries.specs.Left.{name_as, form_as, ClauseMoves, KeptMoves, UseMoves, LeftStands, IfLeftStands};

use core_forms::{ClauseShape, NamePart};
use form_parts::items::{Form, Item, Kept, Left, WaitingUse};
use ls_base::Items;
use moved_numbers::forms::take;
use moved_numbers::leaves;
use moves::Moves;
use std::alloc::Global;

/// An identifier with its place.
fn name(moves: &Moves, name: NamePart) -> NamePart
    ensures { result ≡ name_as (numbers_of moves.now) name }
{
    NamePart {
        ident: name.ident,
        occ: moves.place(name.occ),
    }
}

/// Identifiers with their places, one by one.
fn names(moves: &Moves, all: &mut Vec<NamePart>)
    ensures { all.new.items ≡ map (name_as (numbers_of moves.now)) all.old.items }
{
    for i in 0..all.len() {
        all[i] = name(moves, all[i]);
    }
}

/// A form with the place that a fault in it has. Its tree is that of the work under the new numbers.
fn form(moves: &Moves, form: Form) -> Form
    ensures { result ≡ form_as (numbers_of moves.now) form }
{
    Form {
        here: moves.place(form.here),
        tree: form.tree,
    }
}

/// The formals of a procedure, with its body.
fn clause(moves: &Moves, it: &mut ClauseShape)
    ensures { ClauseMoves (numbers_of moves.now) it.old it.new }
{
    names(moves, &mut it.formals.names);
}

/// What was set aside.
fn kept(moves: &Moves, it: &mut Kept)
    ensures { KeptMoves (numbers_of moves.now) it.old it.new }
{
    match it {
        Kept::Expression(value) => *value = form(moves, *value),
        Kept::Value(binder, value) => {
            *binder = leaves::binder(moves, *binder);
            *value = form(moves, *value);
        }
        Kept::Function(binder, here, shape) => {
            *binder = leaves::binder(moves, *binder);
            *here = moves.place(*here);
            clause(moves, shape);
        }
        Kept::Assigned(target, value) => {
            *target = name(moves, *target);
            *value = form(moves, *value);
        }
        Kept::AssignedFunction(target, here, shape) => {
            *target = name(moves, *target);
            *here = moves.place(*here);
            clause(moves, shape);
        }
        Kept::Values {
            binders,
            dotted: _,
            form: value,
        } => {
            leaves::binders(moves, binders);
            *value = form(moves, *value);
        }
        Kept::Record {
            binders,
            fields,
            modified: _,
            used,
        } => {
            leaves::binders(moves, binders);
            leaves::binders(moves, fields);
            leaves::fields(moves, used);
        }
        Kept::Macro(binder, meaning) => {
            *binder = leaves::binder(moves, *binder);
            *meaning = moves.meaning(*meaning);
        }
    }
}

/// What was set aside, one by one.
fn items(moves: &Moves, all: &mut Vec<Item>)
    ensures { AllMatch (λ x y. KeptMoves (numbers_of moves.now) x.kept y.kept) all.old.items all.new.items }
{
    for i in 0..all.len() {
        kept(moves, &mut all[i].kept);
    }
}

/// A macro use that waits.
fn waiting(moves: &Moves, it: &mut WaitingUse)
    ensures { UseMoves (numbers_of moves.now) it.old it.new }
{
    it.keyword = leaves::target(moves, it.keyword);
    names(moves, &mut it.literals);
}

/// Macro uses that wait, one by one.
fn uses(moves: &Moves, all: &mut Vec<WaitingUse>)
    ensures { AllMatch (UseMoves (numbers_of moves.now)) all.old.items all.new.items }
{
    for i in 0..all.len() {
        waiting(moves, &mut all[i]);
    }
}

/// What is left of a form.
fn left(alloc: Global, moves: &Moves, it: &mut Left)
    ensures { LeftStands (numbers_of moves.now) it.old it.new }
{
    uses(moves, &mut it.uses);
    let mut aside = take(alloc, &mut it.items);
    items(moves, &mut aside);
    it.items = Items::from_vec(aside);
}

/// What is left of a form, where it didn't break. It stands afterwards, in the work and in the form under the new numbers, for what becomes of that
/// for which it stood.
pub fn renumber_left(alloc: Global, moves: &Moves, it: &mut Option<Left>)
    ensures { IfLeftStands (numbers_of moves.now) it.old it.new }
{
    match it {
        Some(some) => left(alloc, moves, some),
        None => {}
    }
}
