//! A question of a form with the answer that it has.
use ls_base::{Items, Text};
use scheme_model::Occ;
use syntax_tree::meaning::Meaning;
use syntax_tree::symbols::IdNo;

/// How a definition in a unit ends: it stands, it changes what a keyword was taken for, or its identifier is defined already.
#[derive(Clone, Copy, Debug, PartialEq, Eq)]
pub enum Outcome {
    Stands,
    Redefines,
    StoodBefore,
}

/// A definition of an identifier in a unit: its place, whether it is a keyword's, and how many of the unit's notes, which tell what was
/// looked up and compared before it, are its form's own.
#[derive(Clone, Copy)]
pub struct Definition {
    pub ident: IdNo,
    pub occ: Option<Occ>,
    pub keyword: bool,
    pub asked: usize,
}

/// A question with its answer.
#[derive(Drop)]
pub enum Question {
    /// What an identifier means, and whether that is a macro.
    Lookup {
        ident: IdNo,
        answer: Meaning,
        keyword: bool,
    },
    /// Whether a literal and an identifier mean the same.
    Literal {
        literal: IdNo,
        ident: IdNo,
        answer: bool,
    },
    /// Which rules what means this has, by their edition.
    Rules {
        meaning: Meaning,
        edition: u64,
    },
    /// Whether a definition of an identifier is an assignment.
    Assigned {
        ident: IdNo,
        answer: bool,
    },
    /// Whether there is a library of this name.
    Library {
        name: Text,
        answer: bool,
    },
    /// How the definition of an identifier ends.
    Definition {
        definition: Definition,
        answer: Outcome,
    },
}

/// A question, and how many definitions its form has made in the unit when it is asked.
#[derive(Drop)]
pub struct Note {
    pub behind: usize,
    pub question: Question,
}

/// The notes of a form, in any order.
pub type Notes = Items<Note>;
