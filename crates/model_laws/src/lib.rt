//! Laws of the definitions: names, expansion by scopes and by substitution, and counted expansion; and rows on which the
//! definitions are run. No code stands here.
#![tactic(auto)]

pub mod laws;
