//! Why a rename is refused.
use ls_base::{Memory, Place, Text};
use program_differences::plan::Difference;
use std::alloc::AllocError;

/// Why a rename is refused. Tested in this order, but for want of memory, which may come at any point.
#[derive(Drop)]
pub enum RenameFault {
    /// Memory ran out.
    Memory,
    /// No identifier stands there, or none that is bound or linked to a name.
    NotBound,
    /// A standard name spells it.
    Standard(Text),
    /// The new name isn't one identifier, or is empty, `...` or `_`.
    BadName,
    /// An open document doesn't read: the first by its uri.
    Unreadable(Text),
    /// The new name doesn't begin with this prefix, or has nothing behind it.
    PrefixLost(Text),
    /// An occurrence would get two names: the first by uri and start.
    PrefixClash(Place),
    /// A unit in reach has an Error: the first in the order of units, and in it by document, start and code.
    BrokenUnit { place: Place, code: u32 },
    /// An edited text would have more than 1,048,576 bytes: the first by its uri.
    Limit(Text),
    /// The programs differ: the first difference.
    Differs(Difference),
}

impl From<Memory> for RenameFault {
    ghost use Rattle.std.specs.Prelude.{◌≡◌};
    ghost use Rattle.rename_answers.specs.declared.faults.RenameFault.TheVariants as fault;

    ghost from_gives = { λ _ e. e ≡ fault.Memory };

    fn from(_: Memory) -> Self {
        RenameFault::Memory
    }
}

impl From<AllocError> for RenameFault {
    ghost use Rattle.std.specs.Prelude.{◌≡◌};
    ghost use Rattle.rename_answers.specs.declared.faults.RenameFault.TheVariants as fault;

    ghost from_gives = { λ _ e. e ≡ fault.Memory };

    fn from(_: AllocError) -> Self {
        RenameFault::Memory
    }
}
