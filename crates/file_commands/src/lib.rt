//! What the commands print that name files, by what the files hold: the diagnostics of several files, and the edits of a rename in one.
#![tactic(auto)]

pub mod checking;
pub mod renaming;

pub use checking::{Checked, check_files};
pub use renaming::{Renamed, rename_in};
