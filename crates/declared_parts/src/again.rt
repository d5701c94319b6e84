//! A form is declared again where its turn comes, by what is kept of its first part (R7RS 5.3): its definitions are made one after another, as
//! long as what they have a part in has its answers still.
ghost use Rattle.std.specs.Prelude.{◌≡◌, ℕ, List, ◌∷◌, ◌↔◌, IsTrue, true, false, Ok, IfOk};
ghost use Rattle.scheme_model.specs.Questions.{Around, Moment, Question as ModelQuestion};
ghost use Rattle.form_notes.specs.Noted.{Noted, Since};
ghost use Rattle.form_notes.specs.Standing.{IsAsked, IsNote};
ghost use Rattle.form_notes.specs.declared.notes.Note.{Note as AnyNote};
ghost use Rattle.note_answers.specs.Answered.{answer_now, CanAsk, IsAskedOutside, KeepsEdition};
ghost use Rattle.unit_scopes.specs.declared.scope.UnitScope.{UnitScope as AnyUnits};
ghost use Rattle.declared_parts.specs.Again.{AreSameLater, CanDeclare, HasEditions, StandsAfter, notes_after, state_after};
ghost use Rattle.declared_parts.specs.Going.{definition_in, IsNewForm, IsNothing, GoesOn, KeptFrom, Tells, HasGone, HasGoneBy};

use crate::defining::{defines_again, own_in};
use crate::parts::DeclaredPart;
use crate::undoing::{Made, take_back};
use core_tree::traces::Trace;
use form_notes::{Definition, Note, Noting, Outcome, Question};
use ls_base::{Items, Mem};
use note_answers::has_answer;
use std::alloc::Global;
use syntax_tree::trees::Work;
use unit_scopes::UnitScope;
use unit_scopes::asked::Asked;
use unit_scopes::scope::{Budget, FormAtWork};

/// How far a form is declared again: its own notes by now, and how many they are; how many of its macros are defined; and its definitions.
#[derive(Drop)]
pub struct Going {
    pub own: Asked,
    pub asked: usize,
    pub macros: usize,
    pub made: Vec<Made>,
}

/// Declares a form again, unless something that its definitions have a part in has another answer now. What is asked when the form begins, and
/// isn't how one of its definitions ends, isn't asked here.
pub fn declare_again(
    units: &mut UnitScope,
    work: &Work,
    number: u32,
    part: &DeclaredPart,
) -> Mem<bool>
    requires { CanDeclare work.now units.old number part.now }
    ensures good { (can : CanDeclare work.now units.old number part.now) → IfOk result (λ b. IsTrue b ↔ AreSameLater can.again) }
    ensures declared { (can : CanDeclare work.now units.old number part.now) → result ≡ Ok true →
        StandsAfter work.now units.old units.new can.layout can.editions (state_after can.again) (notes_after can.again) }
    ensures editions { result ≡ Ok true → HasEditions part.now units.new }
    ensures refused { (can : CanDeclare work.now units.old number part.now) → result ≡ Ok false →
        StandsAfter work.now units.old units.new can.layout can.editions can.again.now.state can.again.now.notes }
{
    units.env.sound();
    begin(units, number);
    let mut going = nothing_made(units.alloc);
    if go_on(units, work, part, &mut going)? {
        own_in(&mut units.asked, work, units.root, part.asked.as_slice())?;
        return Ok(true);
    }
    take_back(units, going.made);
    Ok(false)
}

/// Work goes to a form that has counted and met nothing yet.
fn begin(units: &mut UnitScope, number: u32)
    ensures rest { units.new ≡ record units.old { form = units.new.form } }
    ensures form { IsNewForm number units.new.form }
{
    let alloc = units.alloc;
    units.form = FormAtWork {
        number,
        budget: Budget {
            uses: 0,
            nodes: 0,
            locals: 0,
        },
        trace: Trace {
            definitions: Items::new(alloc),
            keywords: Items::new(alloc),
            uses: Items::new(alloc),
            notes: Noting::new(alloc),
        },
    };
}

/// Nothing is made yet.
fn nothing_made(alloc: Global) -> Going
    ensures { IsNothing result }
{
    Going {
        own: Asked::new(alloc),
        asked: 0,
        macros: 0,
        made: Vec::new(alloc),
    }
}

/// Goes through the notes of a form, as long as they have their answers.
fn go_on(units: &mut UnitScope, work: &Work, part: &DeclaredPart, going: &mut Going) -> Mem<bool>
    requires { (old : AnyUnits) × (n : ℕ) × (can : CanDeclare work.now old n part.now) × GoesOn work.now old n part.now can units.old going.old 0 × (going.old.macros ≡ 0) }
    ensures { (old : AnyUnits) (n : ℕ) (can : CanDeclare work.now old n part.now) → GoesOn work.now old n part.now can units.old going.old 0 → going.old.macros ≡ 0 → HasGone work.now old n part.now can units.new going.new result }
{
    let notes = part.notes.as_slice();
    for note in notes {
        if !goes_again(units, work, part, note, going)? {
            return Ok(false);
        }
    }
    Ok(true)
}

/// Whether a note has its answer, which is asked where the form is; a definition that stands is made.
fn goes_again(
    units: &mut UnitScope,
    work: &Work,
    part: &DeclaredPart,
    note: &Note,
    going: &mut Going,
) -> Mem<bool>
    requires { (old : AnyUnits) × (n : ℕ) × (can : CanDeclare work.now old n part.now) × (made : ℕ) × GoesOn work.now old n part.now can units.old going.old made × IsAsked note.now.question made note.now.behind
        × ((left : List AnyNote) × KeptFrom work.now old n part.now can going.old.macros (note.now ∷ left)) × ((q : Moment × ModelQuestion) × Tells work.now old n part.now can note.now q) }
    ensures { (old : AnyUnits) (n : ℕ) (can : CanDeclare work.now old n part.now) (left : List AnyNote) (made : ℕ) (q : Moment × ModelQuestion) → GoesOn work.now old n part.now can units.old going.old made → IsAsked note.now.question made note.now.behind →
        KeptFrom work.now old n part.now can going.old.macros (note.now ∷ left) → Tells work.now old n part.now can note.now q → HasGoneBy work.now old n part.now can note.now left made units.new going.new result }
{
    match definition_of(note) {
        None => Ok(has_answer_here(units, work, note)),
        Some((definition, answer)) => defines_again(units, work, part, definition, answer, going),
    }
}

/// Whether a note that is behind definitions of the form has its answer.
fn has_answer_here(units: &UnitScope, work: &Work, note: &Note) -> bool
    requires { (v : Around) × (r : Since) × CanAsk work.now units.now v r × ((m : Noted) × IsNote work.now.symbols r note.now m) }
    ensures first { note.now.behind ≡ 0 → result ≡ true }
    ensures later { (v : Around) (r : Since) (m : Noted) → (note.now.behind ≡ 0 → ⊥) → CanAsk work.now units.now v r → IsNote work.now.symbols r note.now m → IsAskedOutside m.question →
        KeepsEdition work.now units.now v r note.now.question → IsTrue result ↔ (answer_now v m.question ≡ m.answer) }
{
    if note.behind == 0 {
        return true;
    }
    has_answer(units, work, note)
}

/// The definition of which a note tells how it ends.
fn definition_of(note: &Note) -> Option<(Definition, Outcome)>
    ensures { result ≡ definition_in note.now.question }
{
    match &note.question {
        Question::Lookup {
            ident: _,
            answer: _,
            keyword: _,
        } => None,
        Question::Literal {
            literal: _,
            ident: _,
            answer: _,
        } => None,
        Question::Rules {
            meaning: _,
            edition: _,
        } => None,
        Question::Assigned {
            ident: _,
            answer: _,
        } => None,
        Question::Library { name: _, answer: _ } => None,
        Question::Definition { definition, answer } => Some((*definition, *answer)),
    }
}
