//! The documents as they are read, where their units and tokens stand, what a finding is, and the names of standard libraries.
#![tactic(auto)]

pub mod documents;
pub mod findings;
pub mod form_numbers;
pub mod heads;
pub mod opened;
pub mod places;
pub mod sets;
pub mod standard_names;
pub mod wording;
