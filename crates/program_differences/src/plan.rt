//! What a rename asks for, and how programs differ.
use ls_base::{Items, Text};
use scheme_model::Occ;

/// An export of a unit whose external name is to change.
#[derive(Drop)]
pub struct ExportChange {
    pub unit: u32,
    pub old: Text,
    pub new: Text,
}

/// The occurrences that are renamed, and the exports that are.
#[derive(Drop)]
pub struct Plan {
    pub class: Items<Occ>,
    pub exports: Items<ExportChange>,
}

/// One side of a difference: where what binds the name stands, a standard name, an unbound one, a symbol, or nothing.
#[derive(Drop)]
pub enum Side {
    Binder(Occ),
    Standard(Text),
    Unbound(Text),
    Symbol(Text),
    Nothing,
}

/// A difference: its kind, the unit, the form and the occurrence, and what stands there before and after. Kinds from 1 on are
/// captured, shadowed, quoted, template, export, structure and broken.
#[derive(Drop)]
pub struct Difference {
    pub kind: u8,
    pub unit: u32,
    pub form: u32,
    pub occ: Option<Occ>,
    pub before: Side,
    pub after: Side,
}
