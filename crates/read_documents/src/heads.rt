//! What a unit is besides its source, and why it is broken as a whole (R7RS 5.1, 5.6).
use core_tree::units::TokenRange;
use ls_base::{Items, Span, Text};
use scheme_model::Occ;
use syntax_tree::units::UnitKind;

/// Why a unit is broken as a whole.
#[derive(Clone, Copy)]
pub enum WholeFault {
    TooMany,
    IncludeCycle,
    BadDeclaration { unit: u32, span: Span },
    DefinedTwice,
    ImportCycle,
    TooLarge,
}

/// What a unit is besides its source: its document, its library's name, its first token, the numbers of the first tokens of its
/// forms, the units where their texts are at home, their identifiers, the places of the units that it imports, and what breaks it as
/// a whole.
#[derive(Drop)]
pub struct Head {
    pub document: usize,
    pub kind: UnitKind,
    pub name: Option<Text>,
    pub span: Span,
    pub firsts: Vec<u32>,
    pub homes: Vec<u32>,
    pub names: Vec<Occ>,
    pub ranges: Vec<TokenRange>,
    pub imports: Items<u32>,
    pub fault: Option<WholeFault>,
}
