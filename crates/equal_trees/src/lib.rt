//! Whether trees are the same data with the same identifiers at the same places, and so whether two macros have the same rules.
#![tactic(auto)]

pub mod rules;
pub mod trees;

pub use rules::same_rules;
pub use trees::same_tree;
