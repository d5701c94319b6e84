//! What forms left in their units when they were gone through, under other numbers, changed in place without memory.
ghost use Rattle.std.specs.Prelude.{◌≡◌, map};
ghost use Rattle.moves.specs.Numbers.{numbers_of};
ghost use Rattle.moved_entries.specs.Part.{leaf_as, kept_as, PartStands};

use declared_parts::{DeclaredPart, KeptMacro};
use ls_base::Items;
use moved_numbers::forms::take;
use moved_numbers::notes;
use moves::Moves;
use rules_check::RuleLeaf;
use std::alloc::Global;
use syntax_tree::rules::Named;

/// A leaf of a macro's rules.
fn leaf(moves: &Moves, leaf: RuleLeaf) -> RuleLeaf
    ensures { result ≡ leaf_as (numbers_of moves.now) leaf }
{
    RuleLeaf {
        name: Named {
            ident: leaf.name.ident,
            occ: moves.place(leaf.name.occ),
        },
        literal: leaf.literal,
    }
}

/// Leaves of rules, one by one.
fn leaves(moves: &Moves, all: &mut Vec<RuleLeaf>)
    ensures { all.new.items ≡ map (leaf_as (numbers_of moves.now)) all.old.items }
{
    for i in 0..all.len() {
        all[i] = leaf(moves, all[i]);
    }
}

/// A macro that a form defined. The trees of its rules are those of the work under the new numbers.
fn kept(alloc: Global, moves: &Moves, it: &mut KeptMacro)
    ensures { it.new ≡ kept_as (numbers_of moves.now) it.old }
{
    let mut all = take(alloc, &mut it.leaves);
    leaves(moves, &mut all);
    it.leaves = Items::from_vec(all);
}

/// Macros, one by one.
fn macros(alloc: Global, moves: &Moves, all: &mut Vec<KeptMacro>)
    ensures { all.new.items ≡ map (kept_as (numbers_of moves.now)) all.old.items }
{
    for i in 0..all.len() {
        kept(alloc, moves, &mut all[i]);
    }
}

/// What a form left in its unit. It stands afterwards, in the work under the new numbers, for what becomes of that for which it stood. What was asked
/// in the unit itself has no numbers of units or forms.
pub fn renumber_part(alloc: Global, moves: &Moves, part: &mut DeclaredPart)
    ensures { PartStands (numbers_of moves.now) part.old part.new }
{
    notes::notes(alloc, moves, &mut part.notes);
    let mut all = take(alloc, &mut part.macros);
    macros(alloc, moves, &mut all);
    part.macros = Items::from_vec(all);
}
