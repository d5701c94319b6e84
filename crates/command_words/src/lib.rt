//! What the words after the program's name ask for. It knows the words of the commands and how many files may be named, and
//! nothing of what commands do.
#![tactic(auto)]

pub mod clap_words;
pub mod command;
pub mod different;
pub mod laws;
pub mod numbers;
pub mod positionals;
pub mod reading;

pub use command::Command;
pub use reading::command_of;
