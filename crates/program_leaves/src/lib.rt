//! The leaves of a program: the identifiers that its cores bind, use, assign and quote, in written order, what was met in
//! expanding it, and what is seen from there: where what binds a meaning stands, which places are live, and the entries of units.
#![tactic(auto)]

pub mod entries;
mod gathering;
mod holes;
pub mod leaves;
mod living;
mod names;
pub mod pairs;
pub mod sight;
pub mod variables;
