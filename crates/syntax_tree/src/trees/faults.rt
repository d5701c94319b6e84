//! Why a node can't be added.
ghost use Rattle.std.specs.Prelude.{◌≡◌};

use ls_base::Memory;
use std::alloc::{AllocError, AllocFailed};

/// Why a node can't be added.
#[derive(Clone, Copy, Debug, PartialEq, Eq)]
pub enum PoolFault {
    /// There are as many nodes as there can be.
    Full,
    /// Memory ran out.
    Memory,
}

impl From<Memory> for PoolFault {
    ghost use Rattle.std.specs.Prelude.{◌≡◌};
    ghost use Rattle.syntax_tree.specs.declared.trees.faults.PoolFault.TheVariants as fault;

    ghost from_gives = { λ _ e. e ≡ fault.Memory };

    fn from(_: Memory) -> Self {
        PoolFault::Memory
    }
}

impl From<AllocError> for PoolFault {
    ghost use Rattle.std.specs.Prelude.{◌≡◌};
    ghost use Rattle.syntax_tree.specs.declared.trees.faults.PoolFault.TheVariants as fault;

    ghost from_gives = { λ _ e. e ≡ fault.Memory };

    fn from(_: AllocError) -> Self {
        PoolFault::Memory
    }
}

impl<T: Drop> From<AllocFailed<T>> for PoolFault {
    ghost use Rattle.std.specs.Prelude.{◌≡◌};
    ghost use Rattle.syntax_tree.specs.declared.trees.faults.PoolFault.TheVariants as fault;

    ghost from_gives = { λ _ e. e ≡ fault.Memory };

    fn from(_: AllocFailed<T>) -> Self {
        PoolFault::Memory
    }
}
