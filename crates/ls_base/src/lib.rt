//! The types that every crate of the product shares: texts, lists, places in texts, answers, limits and the
//! counter of steps. It knows no Scheme and no protocol.
#![tactic(auto)]

pub mod answers;
pub mod chars;
pub mod encoding;
pub mod items;
pub mod limits;
pub mod memory;
pub mod places;
pub mod steps;
pub mod text;

pub use answers::{Answer, Arrow, Change, Diagnostic, DocEdits, Highlight, Query, TextEdit};
pub use chars::split_char;
pub use encoding::Encoding;
pub use items::Items;
pub use memory::{Mem, Memory};
pub use places::{Place, Pos, Range, Span};
pub use steps::Steps;
pub use text::Text;
