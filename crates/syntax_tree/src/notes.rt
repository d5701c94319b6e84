//! What a form asks of its surroundings while it is expanded.
use crate::meaning::Meaning;
use crate::rules::Rules;
use crate::symbols::IdNo;
use ls_base::{Items, Text};

/// How a definition ended: it stands, it is a later one of a program's variable and assigns it, it changes what a keyword was
/// taken for, or its identifier is defined already.
#[derive(Clone, Copy, Debug, PartialEq, Eq)]
pub enum Outcome {
    Defined,
    Assigned,
    KeywordRedefined,
    Duplicate,
}

/// A question with its answer.
#[derive(Drop)]
pub enum Question {
    /// What an identifier means; `head` tells that it was asked of the head of a form.
    Lookup {
        ident: IdNo,
        head: bool,
        answer: Meaning,
    },
    /// Whether what means this is a macro.
    Macro {
        meaning: Meaning,
        answer: bool,
    },
    /// The rules of the macro that means this.
    MacroRules {
        meaning: Meaning,
        answer: Rules,
    },
    /// Whether a literal and an identifier mean the same.
    Literal {
        literal: IdNo,
        ident: IdNo,
        answer: bool,
    },
    /// Whether there is a library of this name.
    Library {
        name: Text,
        answer: bool,
    },
    /// How the definition of an identifier ended.
    Definition {
        ident: IdNo,
        answer: Outcome,
    },
    /// From here on all definitions of the unit stand.
    Declared,
}

/// The questions of a form, in their order. The moment of a question is told by what stands before it: the outcomes of the
/// form's definitions, and whether all definitions of the unit stand.
pub type Notes = Items<Question>;
