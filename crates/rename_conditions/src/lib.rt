//! When a rename is accepted, what it edits, and why it is refused: the definitions that the product's renames are proved against, and
//! the law between them. There are no loops, tables or caches of the product here; see `specs/`.
#![tactic(auto)]

pub mod laws;
