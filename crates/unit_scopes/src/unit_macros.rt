//! The macros that units define.
ghost use Rattle.std.specs.Prelude.{◌≡◌, ℕ, ◌≤◌, Some, None, min, max, IfOk, OnOk, OnErr, if◌then◌else◌};
ghost use Rattle.std.specs.BTreeMap.{get, IsUnchanged};
ghost use Rattle.std.specs.Ordering.{is_eq};
ghost use Rattle.std.specs.Option.{option_copied, option_map};
ghost use Rattle.rules_match.specs.Found.{pair_cmp};
ghost use Rattle.unit_scopes.specs.declared.macros.Macro.{Macro as AnyMacro};

use crate::macros::Macro;
use ls_base::Mem;
use scope_env::ScopeNo;
use std::alloc::Global;
use std::collections::BTreeMap;
use syntax_tree::symbols::IdNo;

/// The macros that units define, by the unit and the identifier. None has a scope that is newer than `newest`.
#[derive(Drop)]
pub struct UnitMacros {
    pub all: BTreeMap<(u32, IdNo), Macro>,
    newest: ScopeNo,
    ghost within: { (u i : ℕ) (k : AnyMacro) → get pair_cmp all (u, i) ≡ Some k → k.scope ≤ newest },
}

impl UnitMacros {
    ghost use Rattle.unit_scopes.specs.Within.{macro_within};

    /// No macros, which takes no memory.
    pub fn new(alloc: Global) -> UnitMacros
        ensures { (u i : ℕ) → get pair_cmp result.all (u, i) ≡ None }
    {
        UnitMacros {
            all: BTreeMap::new(alloc),
            newest: 0,
        }
    }

    /// The macro that a unit defines as this identifier, where it does.
    pub fn get(&self, unit: u32, ident: IdNo) -> Option<&Macro>
        ensures { option_copied result ≡ get pair_cmp self.now.all (unit, ident) }
    {
        self.all.get(&(unit, ident))
    }

    /// From now on a unit defines this identifier as this macro.
    pub fn insert(&mut self, unit: u32, ident: IdNo, kept: Macro) -> Mem<()>
        ensures put { OnOk result ((q : ℕ × ℕ) → get pair_cmp self.new.all q ≡ (if is_eq (pair_cmp (unit, ident) q) then Some kept else get pair_cmp self.old.all q)) }
        ensures err { OnErr result (IsUnchanged self.old.all self.new.all) }
    {
        self.newest = self.newest.max(kept.scope);
        self.all.insert((unit, ident), kept)?;
        Ok(())
    }

    /// Takes out the macro that a unit defines as this identifier, where it does.
    pub fn take(&mut self, unit: u32, ident: IdNo) -> Option<Macro>
        ensures taken { result ≡ get pair_cmp self.old.all (unit, ident) }
        ensures gone { (q : ℕ × ℕ) → get pair_cmp self.new.all q ≡ (if is_eq (pair_cmp (unit, ident) q) then None else get pair_cmp self.old.all q) }
    {
        self.all.remove(&(unit, ident))
    }

    /// Macros of newer scopes than this one are from now on of this one.
    pub fn keep_within(&mut self, last: ScopeNo)
        ensures { (u i : ℕ) → get pair_cmp self.new.all (u, i) ≡ option_map (macro_within last) (get pair_cmp self.old.all (u, i)) }
    {
        if self.newest <= last {
            return;
        }
        self.all.retain(|_, kept| {
            kept.scope = kept.scope.min(last);
            true
        });
        self.newest = last;
    }
}
