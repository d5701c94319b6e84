//! An entry of a form, with what came of the form, under other numbers.
ghost use Rattle.std.specs.Prelude.{◌≡◌, ℕ, map};
ghost use Rattle.scheme_model.specs.Ident.{Ident as Identifier};
ghost use Rattle.scheme_model.specs.Trees.{Tree};
ghost use Rattle.scheme_model.specs.Questions.{Around};
ghost use Rattle.syntax_tree.specs.declared.trees.Work.{Work};
ghost use Rattle.syntax_tree.specs.declared.trees.table.Region.{Region};
ghost use Rattle.core_tree.specs.Names.{AllMatch};
ghost use Rattle.renumbering_laws.specs.Renumbering.{macro_use_as};
ghost use Rattle.renumbering_laws.specs.NewSurroundings.{HasOldNumbers};
ghost use Rattle.kept_forms.specs.KeptForms.{KeptForm};
ghost use Rattle.moves.specs.Numbers.{numbers_of};
ghost use Rattle.moves.specs.Works.{WorkMoves};
ghost use Rattle.moved_numbers.specs.Leaves.{target_as};
ghost use Rattle.moved_numbers.specs.Standing.{StandsOn, UseStands};
ghost use Rattle.form_cache.specs.Entries.{Editions, IsEntry};
ghost use Rattle.renumbered_entries.specs.Renumbered.{EditionsMove, IsEntryUnder};

use core_tree::units::UnitForm;
use form_cache::{Declared, Entry};
use moved_entries::{renumber_left, renumber_part};
use moved_numbers::forms::{targets, unit_form, uses};
use moves::Moves;
use std::alloc::Global;

/// What a form had met when it was gone through. What it had counted stays.
fn declared(alloc: Global, moves: &Moves, it: &mut Declared)
    ensures counts { it.new.counts ≡ it.old.counts }
    ensures keywords { it.new.keywords ≡ map (target_as (numbers_of moves.now)) it.old.keywords }
    ensures uses { StandsOn (numbers_of moves.now) (λ work unit form. AllMatch (UseStands work unit form)) (map (macro_use_as (numbers_of moves.now))) it.old.uses it.new.uses }
{
    targets(alloc, moves, &mut it.keywords);
    uses(alloc, moves, &mut it.uses);
}

/// What is kept of a form, with what came of it, under the new numbers. In the work and in the surroundings under the new numbers both stand for what
/// becomes of that for which they stood, where each new number tells its old one.
pub fn renumber_entry(alloc: Global, moves: &Moves, entry: &mut Entry, form: &mut UnitForm)
    ensures { (back : HasOldNumbers (numbers_of moves.now)) (old new : Work) (region : Region) (e f : Editions) (unit : ℕ) (n : ℕ × Tree Identifier) (k : KeptForm) (w u : Around) → WorkMoves (numbers_of moves.now) old new →
        EditionsMove (numbers_of moves.now) e f → IsEntry old region e unit n entry.old form.old k w u → IsEntryUnder (numbers_of moves.now) back new region f unit n entry.new form.new k w u }
{
    declared(alloc, moves, &mut entry.declared);
    renumber_left(alloc, moves, &mut entry.left);
    renumber_part(alloc, moves, &mut entry.part);
    unit_form(alloc, moves, form);
}
