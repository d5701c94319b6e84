//! The definitions that renames are proved against: when two programs are the same up to the names that were asked for, and where they
//! first differ. There are no loops, tables or caches of the product here; see `specs/`.
#![tactic(auto)]

pub mod laws;
