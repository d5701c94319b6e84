//! Why a form matches no rule.
use ls_base::Memory;
use std::alloc::{AllocError, AllocFailed};
use thiserror::Error;

/// Why a form matches no rule.
#[derive(Clone, Copy, Debug, Error)]
pub enum MatchFault {
    /// No rule's pattern matches the form.
    #[error("no rule matches")]
    NoRule,
    /// Memory ran out.
    #[error("out of memory")]
    Memory,
}

impl From<Memory> for MatchFault {
    ghost use Rattle.std.specs.Prelude.{◌≡◌};
    ghost use Rattle.rules_match.specs.declared.fault.MatchFault.TheVariants as fault;

    ghost from_gives = { λ _ e. e ≡ fault.Memory };

    fn from(_: Memory) -> Self {
        MatchFault::Memory
    }
}

impl From<AllocError> for MatchFault {
    ghost use Rattle.std.specs.Prelude.{◌≡◌};
    ghost use Rattle.rules_match.specs.declared.fault.MatchFault.TheVariants as fault;

    ghost from_gives = { λ _ e. e ≡ fault.Memory };

    fn from(_: AllocError) -> Self {
        MatchFault::Memory
    }
}

impl<T: Drop> From<AllocFailed<T>> for MatchFault {
    ghost use Rattle.std.specs.Prelude.{◌≡◌};
    ghost use Rattle.rules_match.specs.declared.fault.MatchFault.TheVariants as fault;

    ghost from_gives = { λ _ e. e ≡ fault.Memory };

    fn from(_: AllocFailed<T>) -> Self {
        MatchFault::Memory
    }
}
