//! The commands that work on files, or on a workspace made of a number, and print the lines of their work.
#![tactic(auto)]

pub mod work;
