//! A workspace made of a number, what it answers and how much of it there is: so many libraries, each of which uses the one before it,
//! and a program that uses the last (R7RS 5.6).
#![tactic(auto)]

mod command;
mod counting;
mod known;
mod opening;
mod texts;

pub use command::selfrun;
