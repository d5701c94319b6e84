//! A body that a window holds.
use crate::role::Role;

/// A body, and what it is to those that stand before it.
#[derive(Drop)]
pub(crate) struct Held {
    pub(crate) body: Vec<u8>,
    pub(crate) role: Role,
}
