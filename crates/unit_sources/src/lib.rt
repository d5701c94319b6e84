//! What declarations say (R7RS 5.2, 5.6.1): which library a name means, what a unit exports, and the order in which units come
//! after what they import.
#![tactic(auto)]

mod circles;
pub mod declared;
pub mod export_specs;
mod exported;
pub mod exporting;
pub mod fault;
pub mod firsts;
mod graph;
pub mod laws;
mod names;
pub mod orders;
pub mod parts;
pub mod repeats;
mod sets;
pub mod units;

pub use exporting::{ExportFault, Exports, exports_of};
pub use fault::LibraryFault;
pub use orders::order;
pub use repeats::repeated;
pub use units::{ExportSpec, ImportSpec, LostString, UnitForm, UnitSource};
