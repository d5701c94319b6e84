//! What a form noted of its questions, under other numbers, changed in place without memory.
ghost use Rattle.std.specs.Prelude.{◌≡◌, ℕ, List, map};
ghost use Rattle.syntax_tree.specs.Names.{Names};
ghost use Rattle.form_notes.specs.Noted.{Noted, Since};
ghost use Rattle.form_notes.specs.Standing.{HaveNotes, InOrder};
ghost use Rattle.moves.specs.Numbers.{numbers_of};
ghost use Rattle.moves.specs.Works.{NamesMove};
ghost use Rattle.moved_numbers.specs.Notes.{note_as, noted_as, SinceMoves};

use crate::forms::take;
use form_notes::{Note, Notes, Question};
use ls_base::Items;
use moves::Moves;
use std::alloc::Global;

/// A note: what an answer means, what the rules are of, and the place of a definition have other numbers.
fn note(moves: &Moves, it: &mut Note)
    ensures { it.new ≡ note_as (numbers_of moves.now) it.old }
{
    match &mut it.question {
        Question::Lookup { answer, .. } => *answer = moves.meaning(*answer),
        Question::Rules { meaning, .. } => *meaning = moves.meaning(*meaning),
        Question::Definition { definition, .. } => definition.occ = moves.place(definition.occ),
        Question::Literal { .. } | Question::Assigned { .. } | Question::Library { .. } => {}
    }
}

/// Notes, one by one.
fn all_notes(moves: &Moves, all: &mut Vec<Note>)
    ensures { all.new.items ≡ map (note_as (numbers_of moves.now)) all.old.items }
{
    for i in 0..all.len() {
        note(moves, &mut all[i]);
    }
}

/// The notes of a form. They are in the order in which they were, and stand for what they stood for, under the new numbers.
pub fn notes(alloc: Global, moves: &Moves, items: &mut Notes)
    ensures moved { items.new ≡ map (note_as (numbers_of moves.now)) items.old }
    ensures order { (first made : ℕ) → InOrder first items.old made → InOrder first items.new made }
    ensures stand { (old new : Names) (r s : Since) (ms : List Noted) → NamesMove (numbers_of moves.now) old new → SinceMoves (numbers_of moves.now) r s →
        HaveNotes old r items.old ms → HaveNotes new s items.new (map (noted_as (numbers_of moves.now)) ms) }
{
    let mut all = take(alloc, items);
    all_notes(moves, &mut all);
    *items = Items::from_vec(all);
}
