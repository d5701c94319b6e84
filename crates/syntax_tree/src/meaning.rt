//! What identifiers mean (R7RS 4.3), by numbers.
use crate::symbols::{IdNo, SymNo};

/// What an identifier means: the binder of a form with this number, what a unit defines under this identifier, a standard name,
/// or nothing. The numbers of binders begin again with each form.
#[derive(Clone, Copy, Debug, PartialEq, Eq)]
pub enum Meaning {
    Local(u64),
    Global { unit: u32, ident: IdNo },
    Standard(SymNo),
    Free(SymNo),
}
