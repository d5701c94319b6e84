//! The kinds of units (R7RS 5.1, 5.6), and the names that they import and export.
use crate::meaning::Meaning;
use ls_base::{Items, Text};
use scheme_model::Occ;

/// A library, a program, or the program of a text that others include, which is worked on only there.
#[derive(Clone, Copy, Debug, PartialEq, Eq)]
pub enum UnitKind {
    Library,
    Program,
    Part,
}

/// What spells a name, behind a prefix: an occurrence, or where there is none the standard name that the entry means.
#[derive(Debug, Drop)]
pub struct Origin {
    pub occ: Option<Occ>,
    pub prefix: Text,
}

/// A name that a library gives, or that a unit imports: its meaning and what spells it.
#[derive(Debug, Drop)]
pub struct Entry {
    pub name: Text,
    pub meaning: Meaning,
    pub origins: Items<Origin>,
}
