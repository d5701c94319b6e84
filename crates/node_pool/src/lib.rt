//! Nodes in one vector with a free list, in regions that end. An id stays with its node until the node is released.
#![tactic(auto)]

mod faults;
mod pool;
mod slots;

pub use faults::{Mem, Memory, PoolFault};
pub use pool::{Mark, NodeId, Pool, Region};
