//! What a form made and noted when it was gone through, taken so that it can be made again (R7RS 5.3).
ghost use Rattle.std.specs.Prelude.{◌≡◌, ◌++◌, ℕ, List, [], map, drop, length, IfOk, OnOk};
ghost use Rattle.scheme_model.specs.Order.{Note as Asking};
ghost use Rattle.scheme_model.specs.ScopedExpansion.{FramedIdent, Frames, ScopedState};
ghost use Rattle.syntax_tree.specs.declared.trees.Work.{Work as AnyWork};
ghost use Rattle.form_notes.specs.Noted.{Noted, Since};
ghost use Rattle.unit_scopes.specs.Editions.{EditionsTell};
ghost use Rattle.unit_scopes.specs.Forgotten.{AreAtRoot};
ghost use Rattle.unit_scopes.specs.Units.{UnitStands};
ghost use Rattle.declared_parts.specs.Parts.{HasDeclared, IsPart, MacrosThere, kept_as, keyword_if, keyword_made, macro_taken, macros_taken, without_scopes};

use form_notes::{Definition, Note, Notes, Noting, Outcome, Question};
use ls_base::{Items, Mem};
use rules_check::RuleLeaf;
use std::alloc::Global;
use std::mem;
use syntax_tree::meaning::Meaning;
use syntax_tree::rules::Rules;
use syntax_tree::symbols::IdNo;
use unit_scopes::UnitScope;
use unit_scopes::asked::{Asked, Note as UnitNote};
use unit_scopes::macros::{Macro, copy_rules};

/// What a form looked up in its unit itself, or compared: a note of the unit without its scopes.
#[derive(Clone, Copy)]
pub enum OwnNote {
    LookedUp {
        ident: IdNo,
        head: bool,
        keyword: bool,
    },
    Compared {
        literal: IdNo,
        ident: IdNo,
        held: bool,
    },
}

/// A macro that a form defined in its unit, by the identifier: its rules, their leaves, and its edition.
#[derive(Drop)]
pub struct KeptMacro {
    pub ident: IdNo,
    pub rules: Rules,
    pub leaves: Items<RuleLeaf>,
    pub edition: u64,
}

/// What a form left in its unit when it was gone through: what it looked up and compared there, all that it noted, of which the
/// definitions' notes tell what it defined, and the macros among these. All are in order.
#[derive(Drop)]
pub struct DeclaredPart {
    pub asked: Items<OwnNote>,
    pub notes: Notes,
    pub macros: Items<KeptMacro>,
}

/// Takes what a form left in the open unit, where it was gone through at last: its notes, with copies of all else.
pub fn take_part(alloc: Global, units: &UnitScope, notes: &mut Noting) -> Mem<DeclaredPart>
    ensures part { (work : AnyWork) (ls : List Frames) (s : ScopedState) (own found : List (Asking FramedIdent)) (r : Since) (ms : List Noted) → UnitStands work units.now ls s (own ++ found) →
        HasDeclared work.symbols notes.old r ms (length found) → AreAtRoot own → MacrosThere s ms → EditionsTell work.symbols units.now.macros s r.editions → IfOk result (λ part. IsPart work r part own ms) }
    ensures taken { OnOk result (notes.new ≡ record notes.old { notes = [] }) }
{
    let asked = own_notes(alloc, &units.asked, notes.before)?;
    let macros = own_macros(alloc, units, notes.notes.as_slice())?;
    let taken = mem::replace(&mut notes.notes, Items::new(alloc));
    Ok(DeclaredPart {
        asked,
        notes: taken,
        macros,
    })
}

/// The notes of a unit from a number on, without their scopes.
fn own_notes(alloc: Global, asked: &Asked, from: usize) -> Mem<Items<OwnNote>>
    ensures { IfOk result (λ own. own ≡ map without_scopes (drop from asked.now.notes.items)) }
{
    let mut own = Items::new(alloc);
    for number in from..asked.count() {
        own.push(without_scopes(asked.note(number)))?;
    }
    Ok(own)
}

/// A note of a unit without its scopes.
fn without_scopes(note: UnitNote) -> OwnNote
    ensures { result ≡ without_scopes note }
{
    match note {
        UnitNote::LookedUp { at, head, keyword } => OwnNote::LookedUp {
            ident: at.ident,
            head,
            keyword,
        },
        UnitNote::Compared { literal, at, held } => OwnNote::Compared {
            literal: literal.ident,
            ident: at.ident,
            held,
        },
    }
}

/// The macros that notes tell to be defined, in order.
fn own_macros(alloc: Global, units: &UnitScope, notes: &[Note]) -> Mem<Items<KeptMacro>>
    ensures { IfOk result (λ kept. kept ≡ macros_taken units.now.macros units.now.form.number units.now.unit notes.now) }
{
    let mut macros = Items::new(alloc);
    for note in notes {
        add_macro(alloc, units, note, &mut macros)?;
    }
    Ok(macros)
}

/// Adds the macro that a note tells to be defined, if it is such a note.
fn add_macro(
    alloc: Global,
    units: &UnitScope,
    note: &Note,
    macros: &mut Items<KeptMacro>,
) -> Mem<()>
    ensures { OnOk result (macros.new ≡ macros.old ++ macro_taken units.now.macros units.now.form.number units.now.unit (keyword_made note.now.question)) }
{
    let Some(ident) = keyword_made(&note.question) else {
        return Ok(());
    };
    let meaning = Meaning::Global {
        unit: units.unit,
        ident,
    };
    match units.macros.meaning(units.form.number, meaning) {
        None => Ok(()),
        Some(kept) => {
            macros.push(kept_as(alloc, ident, kept)?)?;
            Ok(())
        }
    }
}

/// The identifier that a question's definition made a keyword, where it did.
fn keyword_made(question: &Question) -> Option<IdNo>
    ensures { result ≡ keyword_made question.now }
{
    match question {
        Question::Definition { definition, answer } => keyword_if(*definition, *answer),
        Question::Lookup {
            ident: _,
            answer: _,
            keyword: _,
        } => None,
        Question::Literal {
            literal: _,
            ident: _,
            answer: _,
        } => None,
        Question::Rules {
            meaning: _,
            edition: _,
        } => None,
        Question::Assigned {
            ident: _,
            answer: _,
        } => None,
        Question::Library { name: _, answer: _ } => None,
    }
}

/// The identifier that a definition made a keyword, where it ended so.
fn keyword_if(definition: Definition, ends: Outcome) -> Option<IdNo>
    ensures { result ≡ keyword_if definition ends }
{
    match ends {
        Outcome::Stands => {
            if definition.keyword {
                Some(definition.ident)
            } else {
                None
            }
        }
        Outcome::Redefines => None,
        Outcome::StoodBefore => None,
    }
}

/// A copy of the macro that an identifier was defined as.
fn kept_as(alloc: Global, ident: IdNo, kept: &Macro) -> Mem<KeptMacro>
    ensures { IfOk result (λ copy. copy ≡ kept_as ident kept.now) }
{
    let rules = copy_rules(alloc, &kept.rules)?;
    let leaves = Vec::from_slice(alloc, kept.leaves.as_slice())?;
    Ok(KeptMacro {
        ident,
        rules,
        leaves: Items::from_vec(leaves),
        edition: kept.edition,
    })
}
