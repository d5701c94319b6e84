//! Why an import set gives nothing.
ghost use Rattle.std.specs.Prelude.{◌≡◌};
ghost use Rattle.import_sets.specs.declared.fault.ImportFault.TheVariants as fault;

use crate::set::SetName;
use ls_base::{Memory, Text};
use std::alloc::{AllocError, AllocFailed};

/// Why an import set gives nothing.
#[derive(Drop)]
pub enum ImportFault {
    /// Memory ran out.
    Memory,
    /// A modifier names what its inner set doesn't give.
    NotThere(SetName),
    /// A name has two meanings.
    Clash(Text),
    /// A set, or an inner set, has no shape.
    BadSet,
}

impl From<AllocError> for ImportFault {
    ghost from_gives = { λ _ e. e ≡ fault.Memory };

    fn from(_: AllocError) -> ImportFault {
        ImportFault::Memory
    }
}

impl<T: Drop> From<AllocFailed<T>> for ImportFault {
    ghost from_gives = { λ _ e. e ≡ fault.Memory };

    fn from(_: AllocFailed<T>) -> ImportFault {
        ImportFault::Memory
    }
}

impl From<Memory> for ImportFault {
    ghost from_gives = { λ _ e. e ≡ fault.Memory };

    fn from(_: Memory) -> ImportFault {
        ImportFault::Memory
    }
}
