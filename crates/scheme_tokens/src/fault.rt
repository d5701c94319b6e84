//! Why a text is not read.
ghost use Rattle.std.specs.Prelude.{◌≡◌};
ghost use Rattle.scheme_tokens.specs.declared.fault.ScanFault.TheVariants as scan;
ghost use Rattle.scheme_tokens.specs.declared.fault.ReadFault.TheVariants as read;
ghost use Rattle.scheme_tokens.specs.Views.{number_of};
ghost use Rattle.scheme_tokens.specs.Mirror.Told.{fault_of};

use ls_base::{Memory, Span};
use std::alloc::{AllocError, AllocFailed};

/// Why no token goes on at a place.
#[derive(Clone, Copy)]
pub enum Fault {
    /// No rule takes what stands there.
    BadToken,
    /// The text ends in a string.
    OpenString,
    /// The text ends in a name between bars.
    OpenBar,
    /// The text ends in a block comment.
    OpenComment,
    /// A datum label.
    Label,
    /// A directive.
    Directive,
}

impl Fault {
    /// The number by which callers know the fault.
    pub fn number(self) -> u8
        ensures { result ≡ number_of (fault_of self) }
    {
        match self {
            Fault::BadToken => 1,
            Fault::OpenString => 2,
            Fault::OpenBar => 3,
            Fault::OpenComment => 4,
            Fault::Label => 9,
            Fault::Directive => 10,
        }
    }
}

/// Why a scan gives nothing.
#[derive(Clone, Copy)]
pub enum ScanFault {
    Memory,
    Fault(Fault),
}

impl From<AllocError> for ScanFault {
    ghost from_gives = { λ _ e. e ≡ scan.Memory };

    fn from(_: AllocError) -> Self {
        ScanFault::Memory
    }
}

impl<T: Drop> From<AllocFailed<T>> for ScanFault {
    ghost from_gives = { λ _ e. e ≡ scan.Memory };

    fn from(_: AllocFailed<T>) -> Self {
        ScanFault::Memory
    }
}

impl From<Memory> for ScanFault {
    ghost from_gives = { λ _ e. e ≡ scan.Memory };

    fn from(_: Memory) -> Self {
        ScanFault::Memory
    }
}

/// Why a text is not read.
#[derive(Clone, Copy)]
pub enum ReadFault {
    /// Memory ran out.
    Memory,
    /// What is wrong, and the bytes that it is shown at. Of tokens: 1 no rule takes what stands there; 2, 3 and 4 the text
    /// ends in a string, in a name between bars or in a block comment; 9 a datum label; 10 a directive.
    At { number: u8, span: Span },
}

impl From<Memory> for ReadFault {
    ghost from_gives = { λ _ e. e ≡ read.Memory };

    fn from(_: Memory) -> Self {
        ReadFault::Memory
    }
}
