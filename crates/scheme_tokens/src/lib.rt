//! The tokens of Scheme texts (R7RS 7.1.1), the symbol that a text spells, and the spelling of a symbol.
#![tactic(auto)]

mod character;
pub mod fault;
mod front;
mod gap;
pub mod laws;
mod name;
mod quoted;
mod reader;
mod scan;
pub mod token;
mod word;

pub use fault::ReadFault;
pub use name::{ident_of, spell};
pub use reader::{Front, front_tokens, tokens};
pub use token::{Token, TokenKind};
