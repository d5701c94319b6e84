//! Why a pool can't do what it is asked.
ghost use Rattle.std.specs.Prelude.{◌≡◌};

use std::alloc::{AllocError, AllocFailed};

/// Memory ran out.
#[derive(Clone, Copy)]
pub struct Memory;

/// What is there unless memory ran out.
pub type Mem<T> = Result<T, Memory>;

/// Why a node can't be put.
#[derive(Clone, Copy)]
pub enum PoolFault {
    /// As many nodes live as can live.
    Full,
    /// Memory ran out.
    Memory,
}

impl From<AllocError> for Memory {
    fn from(_: AllocError) -> Self {
        Memory
    }
}

impl<T: Drop> From<AllocFailed<T>> for Memory {
    fn from(_: AllocFailed<T>) -> Self {
        Memory
    }
}

impl From<Memory> for PoolFault {
    ghost use Rattle.std.specs.Prelude.{◌≡◌};
    ghost use Rattle.node_pool.specs.declared.faults.PoolFault.TheVariants as fault;

    ghost from_gives = { λ _ e. e ≡ fault.Memory };

    fn from(_: Memory) -> Self {
        PoolFault::Memory
    }
}
