//! Units of forms, and the program of all units (R7RS 5.1, 5.6).
use crate::cores::{CorePart, Target};
use crate::traces::{FormFault, Trace};
use ls_base::{Items, Text};
use scheme_model::{Home, Occ};
use syntax_tree::units::{Entry, Origin, UnitKind};

/// A part of a unit, and the nodes that its expansion counted.
#[derive(Drop)]
pub struct ExpandedItem {
    pub part: CorePart,
    pub count: u32,
}

/// A form of a unit: what it expands to, what its expansion met, and its fault, where it has one.
#[derive(Drop)]
pub struct UnitForm {
    pub items: Items<ExpandedItem>,
    pub trace: Trace,
    pub fault: Option<FormFault>,
}

/// An identifier of an import or an export, and what spells it.
#[derive(Drop)]
pub struct NameUse {
    pub target: Target,
    pub origins: Items<Origin>,
}

/// An Error of a unit, by its code, and its form.
#[derive(Clone, Copy)]
pub struct UnitError {
    pub code: u32,
    pub form: u32,
}

/// The tokens of a form: the home of its text, and the numbers of its first and its last token in that text.
#[derive(Clone, Copy)]
pub struct TokenRange {
    pub home: Home,
    pub first: u32,
    pub last: u32,
}

/// A unit: its document, its kind, a library's name, its forms, where their tokens stand, the places of the units whose libraries it
/// imports, the identifiers of its imports and exports, the second identifiers of the pairs that its imports rename by, what it imports and
/// exports, and its Errors. The last names are the external names of its exports, in their order.
#[derive(Drop)]
pub struct Unit {
    pub uri: Text,
    pub kind: UnitKind,
    pub name: Option<Text>,
    pub forms: Items<UnitForm>,
    pub ranges: Vec<TokenRange>,
    pub imports: Items<u32>,
    pub names: Items<NameUse>,
    pub seconds: Items<Occ>,
    pub entries: Items<Entry>,
    pub exports: Items<Entry>,
    pub errors: Items<UnitError>,
}

/// The units of all open documents, in the order of their list.
#[derive(Drop)]
pub struct Program {
    pub units: Items<Unit>,
}
