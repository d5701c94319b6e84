//! Binders, targets and other leaves of cores under other numbers.
ghost use Rattle.std.specs.Prelude.{◌≡◌, map};
ghost use Rattle.moves.specs.Numbers.{numbers_of};
ghost use Rattle.moved_numbers.specs.Leaves.{binder_as, target_as, leaf_as, field_as};
ghost use Rattle.moved_numbers.specs.Values.{each};

use core_tree::cores::{Binder, FieldUse, RuleLeaf, Target};
use moves::Moves;

/// A binder under the new numbers. Its own number stays.
pub fn binder(moves: &Moves, binder: Binder) -> Binder
    ensures { result ≡ binder_as (numbers_of moves.now) binder }
{
    Binder {
        number: binder.number,
        ident: binder.ident,
        occ: moves.place(binder.occ),
    }
}

/// A use of an identifier under the new numbers.
pub fn target(moves: &Moves, target: Target) -> Target
    ensures { result ≡ target_as (numbers_of moves.now) target }
{
    Target {
        meaning: moves.meaning(target.meaning),
        ident: target.ident,
        occ: moves.place(target.occ),
    }
}

/// A leaf of a macro's rules under the new numbers.
fn leaf(moves: &Moves, leaf: RuleLeaf) -> RuleLeaf
    ensures { result ≡ leaf_as (numbers_of moves.now) leaf }
{
    RuleLeaf {
        target: target(moves, leaf.target),
        literal: leaf.literal,
    }
}

/// A field that a constructor uses under the new numbers.
fn field(moves: &Moves, field: FieldUse) -> FieldUse
    ensures { result ≡ field_as (numbers_of moves.now) field }
{
    FieldUse {
        field: field.field,
        occ: moves.place(field.occ),
    }
}

/// Binders, one by one.
pub fn binders(moves: &Moves, all: &mut Vec<Binder>)
    ensures items { all.new.items ≡ map (binder_as (numbers_of moves.now)) all.old.items }
    ensures value { all.new ≡ each (binder_as (numbers_of moves.now)) all.old }
{
    for i in 0..all.len() {
        all[i] = binder(moves, all[i]);
    }
}

/// Targets, one by one.
pub fn targets(moves: &Moves, all: &mut Vec<Target>)
    ensures items { all.new.items ≡ map (target_as (numbers_of moves.now)) all.old.items }
    ensures value { all.new ≡ each (target_as (numbers_of moves.now)) all.old }
{
    for i in 0..all.len() {
        all[i] = target(moves, all[i]);
    }
}

/// Leaves of rules, one by one.
pub fn leaves(moves: &Moves, all: &mut Vec<RuleLeaf>)
    ensures items { all.new.items ≡ map (leaf_as (numbers_of moves.now)) all.old.items }
    ensures value { all.new ≡ each (leaf_as (numbers_of moves.now)) all.old }
{
    for i in 0..all.len() {
        all[i] = leaf(moves, all[i]);
    }
}

/// Fields that a constructor uses, one by one.
pub fn fields(moves: &Moves, all: &mut Vec<FieldUse>)
    ensures items { all.new.items ≡ map (field_as (numbers_of moves.now)) all.old.items }
    ensures value { all.new ≡ each (field_as (numbers_of moves.now)) all.old }
{
    for i in 0..all.len() {
        all[i] = field(moves, all[i]);
    }
}
