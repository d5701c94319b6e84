//! Why an expansion ends early, and the codes of the faults of forms.
ghost use Rattle.std.specs.Prelude.{◌≡◌};
ghost use Rattle.feature_requirements.specs.Faults.{plain_fault, text_fault};

use core_tree::traces::FormFault;
use ls_base::{Memory, Text};
use scheme_model::Occ;
use std::alloc::{AllocError, AllocFailed};

/// Why an expansion ends early.
#[derive(Drop)]
pub enum ExpandFault {
    /// The form is broken.
    At(FormFault),
    /// There may be no room for the nodes that an expansion adds.
    Full,
    /// Memory ran out.
    Memory,
}

impl From<Memory> for ExpandFault {
    ghost use Rattle.std.specs.Prelude.{◌≡◌};
    ghost use Rattle.feature_requirements.specs.declared.fault.ExpandFault.TheVariants as fault;

    ghost from_gives = { λ _ e. e ≡ fault.Memory };

    fn from(_: Memory) -> Self {
        ExpandFault::Memory
    }
}

impl From<AllocError> for ExpandFault {
    ghost use Rattle.std.specs.Prelude.{◌≡◌};
    ghost use Rattle.feature_requirements.specs.declared.fault.ExpandFault.TheVariants as fault;

    ghost from_gives = { λ _ e. e ≡ fault.Memory };

    fn from(_: AllocError) -> Self {
        ExpandFault::Memory
    }
}

impl<T: Drop> From<AllocFailed<T>> for ExpandFault {
    ghost use Rattle.std.specs.Prelude.{◌≡◌};
    ghost use Rattle.feature_requirements.specs.declared.fault.ExpandFault.TheVariants as fault;

    ghost from_gives = { λ _ e. e ≡ fault.Memory };

    fn from(_: AllocFailed<T>) -> Self {
        ExpandFault::Memory
    }
}

/// The codes of faults.
pub mod code {
    pub const BAD_RULES: u32 = 21;

    pub const TWO_ELLIPSES: u32 = 22;

    pub const DUPLICATE_VARIABLE: u32 = 23;

    pub const ELLIPSIS_DEPTH: u32 = 24;

    pub const IDLE_ELLIPSIS: u32 = 25;

    pub const NO_RULE: u32 = 26;

    pub const ELLIPSIS_LENGTH: u32 = 27;

    pub const BAD_FORM: u32 = 31;

    pub const DUPLICATE_BINDER: u32 = 32;

    pub const BAD_PLACE: u32 = 33;

    pub const BAD_RECORD: u32 = 34;

    pub const BAD_QUASI: u32 = 35;

    pub const KEYWORD_REDEFINED: u32 = 41;

    pub const DUPLICATE: u32 = 42;

    pub const KEYWORD_AS_VALUE: u32 = 43;

    pub const USE_BUDGET: u32 = 44;

    pub const NODE_BUDGET: u32 = 45;

    pub const DEPTH_BUDGET: u32 = 46;

    pub const SYNTAX_ERROR: u32 = 47;

    pub const INCLUDE_REFUSED: u32 = 48;
}

/// A fault that names no identifier.
pub fn fails(here: Option<Occ>, code: u32) -> ExpandFault
    ensures { result ≡ plain_fault here code }
{
    ExpandFault::At(FormFault {
        code,
        name: None,
        occ: None,
        here,
        text: None,
    })
}

/// The fault of a `syntax-error`.
pub fn fails_with(here: Option<Occ>, text: Text) -> ExpandFault
    ensures { result ≡ text_fault here text }
{
    ExpandFault::At(FormFault {
        code: code::SYNTAX_ERROR,
        name: None,
        occ: None,
        here,
        text: Some(text),
    })
}
