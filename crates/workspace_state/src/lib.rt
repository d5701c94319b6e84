//! The open documents, the program that they are (R7RS 5), and what is wrong in it: read and expanded anew at each event.
#![tactic(auto)]

mod expansion;
mod trial;
mod workspace;

pub use document_changes::events::{DocEvent, Updated};
pub use program_answers::classes::{Class, ClassPart};
pub use program_answers::publications::Published;
pub use read_documents::places::PlacedError;
pub use trial::Trial;
pub use workspace::Workspace;
