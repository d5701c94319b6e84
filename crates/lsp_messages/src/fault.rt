//! Why a method or its parameters can't be taken.
ghost use Rattle.std.specs.Prelude.{◌≡◌};
ghost use Rattle.lsp_messages.specs.declared.fault.ReadError.TheVariants as errors;

use ls_base::Memory;

/// What is wrong with a method or its parameters.
#[derive(Clone, Copy)]
pub enum Fault {
    /// No such method.
    Unknown,
    /// A field is missing, or has another type.
    Bad,
}

/// Why a method or its parameters can't be taken.
#[derive(Drop)]
pub enum ReadError {
    /// Memory ran out.
    Memory,
    /// They are wrong.
    Fault(Fault),
}

impl From<Memory> for ReadError {
    ghost from_gives = { λ _ e. e ≡ errors.Memory };

    fn from(_: Memory) -> ReadError {
        ReadError::Memory
    }
}

impl From<Fault> for ReadError {
    ghost from_gives = { λ fault e. e ≡ errors.Fault fault };

    fn from(fault: Fault) -> ReadError {
        ReadError::Fault(fault)
    }
}
