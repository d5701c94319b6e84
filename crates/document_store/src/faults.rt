//! Why a call of the store is refused.
ghost use Rattle.std.specs.Prelude.{◌≡◌};
ghost use Rattle.document_store.specs.declared.faults.StoreFault.TheVariants as fault;

use ls_base::Memory;
use std::alloc::{AllocError, AllocFailed};
use thiserror::Error;

/// Why a call of the store is refused. A refused call changes nothing, but for `TooLong` in a change.
#[derive(Clone, Copy, Debug, PartialEq, Eq, Error)]
pub enum StoreFault {
    /// Memory ran out.
    #[error("out of memory")]
    Memory,
    /// The uri isn't open.
    #[error("not open")]
    NotOpen,
    /// A range whose start stands after its end.
    #[error("bad range")]
    BadRange,
    /// A text over the limit, also between two changes.
    #[error("text too long")]
    TooLong,
    /// A document too many.
    #[error("too many documents")]
    TooMany,
}

impl From<AllocError> for StoreFault {
    ghost from_gives = { λ _ e. e ≡ fault.Memory };

    fn from(_: AllocError) -> StoreFault {
        StoreFault::Memory
    }
}

impl<T: Drop> From<AllocFailed<T>> for StoreFault {
    ghost from_gives = { λ _ e. e ≡ fault.Memory };

    fn from(_: AllocFailed<T>) -> StoreFault {
        StoreFault::Memory
    }
}

impl From<Memory> for StoreFault {
    ghost from_gives = { λ _ e. e ≡ fault.Memory };

    fn from(_: Memory) -> StoreFault {
        StoreFault::Memory
    }
}
