//! Why a core form is refused.
use crate::shape::NamePart;
use ls_base::Memory;
use std::alloc::{AllocError, AllocFailed};

/// Why a core form is refused. The lowest that holds is told.
#[derive(Clone, Copy)]
pub enum CoreFault {
    /// It fits none of its shapes.
    BadForm,
    /// A name is bound twice: the identifier, with the place at which the test fails, its second.
    DuplicateBinder(NamePart),
    /// A definition stands where an expression must stand.
    BadPlace,
    /// The definition of a record type fits none of its shapes, or its fields are wrong.
    BadRecord,
    /// At the outermost level an unquoting mark has not one operand, or a splice stands as the whole or as a tail.
    BadQuasi,
    /// Memory ran out.
    Memory,
}

impl From<Memory> for CoreFault {
    ghost use Rattle.std.specs.Prelude.{◌≡◌};
    ghost use Rattle.core_forms.specs.declared.fault.CoreFault.TheVariants as fault;

    ghost from_gives = { λ _ e. e ≡ fault.Memory };

    fn from(_: Memory) -> Self {
        CoreFault::Memory
    }
}

impl From<AllocError> for CoreFault {
    ghost use Rattle.std.specs.Prelude.{◌≡◌};
    ghost use Rattle.core_forms.specs.declared.fault.CoreFault.TheVariants as fault;

    ghost from_gives = { λ _ e. e ≡ fault.Memory };

    fn from(_: AllocError) -> Self {
        CoreFault::Memory
    }
}

impl<T: Drop> From<AllocFailed<T>> for CoreFault {
    ghost use Rattle.std.specs.Prelude.{◌≡◌};
    ghost use Rattle.core_forms.specs.declared.fault.CoreFault.TheVariants as fault;

    ghost from_gives = { λ _ e. e ≡ fault.Memory };

    fn from(_: AllocFailed<T>) -> Self {
        CoreFault::Memory
    }
}
