//! Why a part of a declaration isn't read.
ghost use Rattle.std.specs.Prelude.{◌≡◌};
ghost use Rattle.datum_reader.specs.declared.shape_fault.ShapeFault.TheVariants as fault;

use ls_base::Memory;
use std::alloc::{AllocError, AllocFailed};

/// Why a part of a declaration isn't read.
#[derive(Clone, Copy)]
pub enum ShapeFault {
    /// Memory ran out.
    Memory,
    /// It has no shape.
    BadForm,
}

impl From<AllocError> for ShapeFault {
    ghost from_gives = { λ _ e. e ≡ fault.Memory };

    fn from(_: AllocError) -> ShapeFault {
        ShapeFault::Memory
    }
}

impl<T: Drop> From<AllocFailed<T>> for ShapeFault {
    ghost from_gives = { λ _ e. e ≡ fault.Memory };

    fn from(_: AllocFailed<T>) -> ShapeFault {
        ShapeFault::Memory
    }
}

impl From<Memory> for ShapeFault {
    ghost from_gives = { λ _ e. e ≡ fault.Memory };

    fn from(_: Memory) -> ShapeFault {
        ShapeFault::Memory
    }
}
