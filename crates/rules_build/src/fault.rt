//! Why a template is not built.
use ls_base::Memory;
use std::alloc::{AllocError, AllocFailed};
use syntax_tree::trees::PoolFault;
use thiserror::Error;

/// Why a template is not built.
#[derive(Clone, Copy, Debug, Error)]
pub enum BuildFault {
    /// Variables that drive one ellipsis stand for different numbers of values.
    #[error("the lengths of an ellipsis differ")]
    EllipsisLength,
    /// More nodes would be built than are left, or the tree would have more than 4,194,304.
    #[error("too many nodes")]
    NodeBudget,
    /// The tree would be deeper than 1,000 nodes.
    #[error("too deep")]
    DepthBudget,
    /// There are as many nodes as there can be.
    #[error("no room for a node")]
    Full,
    /// Memory ran out.
    #[error("out of memory")]
    Memory,
}

impl From<Memory> for BuildFault {
    ghost use Rattle.std.specs.Prelude.{◌≡◌};
    ghost use Rattle.rules_build.specs.declared.fault.BuildFault.TheVariants as fault;

    ghost from_gives = { λ _ e. e ≡ fault.Memory };

    fn from(_: Memory) -> Self {
        BuildFault::Memory
    }
}

impl From<AllocError> for BuildFault {
    ghost use Rattle.std.specs.Prelude.{◌≡◌};
    ghost use Rattle.rules_build.specs.declared.fault.BuildFault.TheVariants as fault;

    ghost from_gives = { λ _ e. e ≡ fault.Memory };

    fn from(_: AllocError) -> Self {
        BuildFault::Memory
    }
}

impl<T: Drop> From<AllocFailed<T>> for BuildFault {
    ghost use Rattle.std.specs.Prelude.{◌≡◌};
    ghost use Rattle.rules_build.specs.declared.fault.BuildFault.TheVariants as fault;

    ghost from_gives = { λ _ e. e ≡ fault.Memory };

    fn from(_: AllocFailed<T>) -> Self {
        BuildFault::Memory
    }
}

impl From<PoolFault> for BuildFault {
    ghost use Rattle.std.specs.Prelude.{◌≡◌};
    ghost use Rattle.rules_build.specs.Faults.{fault_of};

    ghost from_gives = { λ f e. e ≡ fault_of f };

    fn from(fault: PoolFault) -> Self {
        match fault {
            PoolFault::Full => BuildFault::Full,
            PoolFault::Memory => BuildFault::Memory,
        }
    }
}
