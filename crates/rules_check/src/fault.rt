//! Why rules are refused.
use ls_base::Memory;
use std::alloc::{AllocError, AllocFailed};
use syntax_tree::rules::Named;

/// Why rules are refused.
#[derive(Clone, Copy)]
pub enum RulesFault {
    /// They don't have the shape of rules, or an ellipsis has nothing before it.
    BadShape,
    /// A list or a vector of a pattern has two ellipses.
    TwoEllipses,
    /// A variable stands twice in a pattern: the second of the two.
    DuplicateVariable(Named),
    /// A variable of a template stands under too few ellipses: the leftmost that does.
    Depth(Named),
    /// No variable drives an ellipsis of a template.
    IdleEllipsis,
    /// Memory ran out.
    Memory,
}

impl From<Memory> for RulesFault {
    ghost use Rattle.std.specs.Prelude.{◌≡◌};
    ghost use Rattle.rules_check.specs.declared.fault.RulesFault.TheVariants as fault;

    ghost from_gives = { λ _ e. e ≡ fault.Memory };

    fn from(_: Memory) -> Self {
        RulesFault::Memory
    }
}

impl From<AllocError> for RulesFault {
    ghost use Rattle.std.specs.Prelude.{◌≡◌};
    ghost use Rattle.rules_check.specs.declared.fault.RulesFault.TheVariants as fault;

    ghost from_gives = { λ _ e. e ≡ fault.Memory };

    fn from(_: AllocError) -> Self {
        RulesFault::Memory
    }
}

impl<T: Drop> From<AllocFailed<T>> for RulesFault {
    ghost use Rattle.std.specs.Prelude.{◌≡◌};
    ghost use Rattle.rules_check.specs.declared.fault.RulesFault.TheVariants as fault;

    ghost from_gives = { λ _ e. e ≡ fault.Memory };

    fn from(_: AllocFailed<T>) -> Self {
        RulesFault::Memory
    }
}
