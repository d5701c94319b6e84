//! Why a library is broken, or an export of it gives nothing.
ghost use Rattle.std.specs.Prelude.{◌≡◌};
ghost use Rattle.unit_sources.specs.declared.fault.LibraryFault.TheVariants as fault;

use ls_base::{Items, Memory, Span, Text};
use std::alloc::{AllocError, AllocFailed};

/// Why a library is broken, or an export of it gives nothing.
#[derive(Drop)]
pub enum LibraryFault {
    /// Memory ran out.
    Memory,
    /// A declaration has no shape. It stands in the document of this unit.
    BadDeclaration { unit: u32, span: Span },
    /// The forms have more tokens than a unit may have.
    TooManyTokens,
    /// These libraries import one another in a circle.
    Cycle(Items<Text>),
    /// An earlier library has the name.
    SameLibrary,
    /// An identifier is exported that the library neither defines nor imports.
    NotDefined(Text),
    /// An earlier export has the external name.
    SameExport(Text),
}

impl From<AllocError> for LibraryFault {
    ghost from_gives = { λ _ e. e ≡ fault.Memory };

    fn from(_: AllocError) -> LibraryFault {
        LibraryFault::Memory
    }
}

impl<T: Drop> From<AllocFailed<T>> for LibraryFault {
    ghost from_gives = { λ _ e. e ≡ fault.Memory };

    fn from(_: AllocFailed<T>) -> LibraryFault {
        LibraryFault::Memory
    }
}

impl From<Memory> for LibraryFault {
    ghost from_gives = { λ _ e. e ≡ fault.Memory };

    fn from(_: Memory) -> LibraryFault {
        LibraryFault::Memory
    }
}
