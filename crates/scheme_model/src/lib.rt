//! The definitions that the product is proved against: plain data and functions on them, in the terms of R7RS and
//! of the protocol. There are no loops, tables or caches of the product here; see `specs/`.
#![tactic(auto)]

/// A token's place: the unit's place in the list of units, the form in the unit, the token in the form. Each
/// begins at 0.
#[derive(Clone, Copy, Debug, PartialEq, Eq, PartialOrd, Ord, Hash)]
pub struct Occ {
    pub unit: u32,
    pub form: u32,
    pub token: u32,
}

/// Where the text of a form stands: the unit and the form by which the occurrences in it are told, and the number of
/// that form's first token in its text.
#[derive(Clone, Copy)]
pub struct Home {
    pub unit: u32,
    pub form: u32,
    pub first: u32,
}
