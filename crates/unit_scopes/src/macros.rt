//! The macros of all units, by what means them.
ghost use Rattle.std.specs.Prelude.{◌≡◌, ℕ, ◌+◌, max, List, Option, None, IfOk, OnOk, OnErr, if◌then◌else◌};
ghost use Rattle.std.specs.Option.{option_copied};
ghost use Rattle.scheme_model.specs.Ident.{Ident as Identifier};
ghost use Rattle.scheme_model.specs.Order.{Note, Transformer};
ghost use Rattle.scheme_model.specs.ScopedExpansion.{Frames, FramedIdent, ScopedState};
ghost use Rattle.syntax_tree.specs.Names.{Names};
ghost use Rattle.syntax_tree.specs.declared.meaning.Meaning.{Meaning as AnyMeaning};
ghost use Rattle.syntax_tree.specs.declared.meaning.Meaning.TheVariants.{Global as GlobalOf};
ghost use Rattle.syntax_tree.specs.declared.trees.Work.{Work as AnyWork};
ghost use Rattle.unit_scopes.specs.Editions.{EditionsTell};
ghost use Rattle.unit_scopes.specs.Macros.{macro_in, edition_in, numbered, same_key, IsBound, Keeps};
ghost use Rattle.unit_scopes.specs.Units.{UnitStands};
ghost use Rattle.unit_scopes.specs.declared.scope.UnitScope.{UnitScope as AnyUnits};

use crate::unit_macros::UnitMacros;
use ls_base::{Items, Mem, Memory};
use rules_check::RuleLeaf;
use scope_env::ScopeNo;
use std::alloc::Global;
use std::collections::BTreeMap;
use syntax_tree::meaning::Meaning;
use syntax_tree::rules::Rules;
use syntax_tree::symbols::{IdNo, SymNo};

/// A macro: the scope in which it was defined, its rules, and their leaves; and its edition, a number that it is given when it is
/// kept, from 1 on.
#[derive(Drop)]
pub struct Macro {
    pub scope: ScopeNo,
    pub rules: Rules,
    pub leaves: Vec<RuleLeaf>,
    pub edition: u64,
}

/// All macros: the open unit's local ones by form and number, those that units define, and the standard ones; and the edition that was
/// given last.
#[derive(Drop)]
pub struct Macros {
    pub locals: BTreeMap<(u32, u64), Macro>,
    pub globals: UnitMacros,
    pub standards: BTreeMap<SymNo, Macro>,
    pub editions: u64,
}

impl Macros {
    /// No macros, which takes no memory.
    pub fn new(alloc: Global) -> Macros
        ensures none { (f : ℕ) (m : AnyMeaning) → macro_in result f m ≡ None }
        ensures editions { result.editions ≡ 0 }
    {
        Macros {
            locals: BTreeMap::new(alloc),
            globals: UnitMacros::new(alloc),
            standards: BTreeMap::new(alloc),
            editions: 0,
        }
    }

    /// The macro that means this in a form, where one does.
    pub fn meaning(&self, form: u32, meaning: Meaning) -> Option<&Macro>
        ensures { option_copied result ≡ macro_in self.now form meaning }
    {
        match meaning {
            Meaning::Local(number) => self.locals.get(&(form, number)),
            Meaning::Global { unit, ident } => self.globals.get(unit, ident),
            Meaning::Standard(symbol) => self.standards.get(&symbol),
            Meaning::Free(_) => None,
        }
    }

    /// The edition of the macro that means this in a form, or 0 where none does.
    pub fn edition(&self, form: u32, meaning: Meaning) -> u64
        ensures { result ≡ edition_in self.now form meaning }
    {
        match self.meaning(form, meaning) {
            Some(kept) => kept.edition,
            None => 0,
        }
    }

    /// Keeps a macro as what means this in a form, with the next edition. Nothing free means a macro.
    pub fn keep(&mut self, form: u32, meaning: Meaning, kept: Macro) -> Mem<()>
        requires { IsBound meaning }
        ensures kept { OnOk result (Keeps self.old self.new form meaning (numbered kept (self.old.editions + 1))) }
        ensures editions { OnOk result (self.new.editions ≡ self.old.editions + 1) }
        ensures err { OnErr result ((f : ℕ) (m : AnyMeaning) → macro_in self.new f m ≡ macro_in self.old f m) }
    {
        let Some(edition) = self.editions.checked_add(1) else {
            return Err(Memory);
        };
        let mut kept = kept;
        kept.edition = edition;
        self.editions = edition;
        self.keep_as(form, meaning, kept)
    }

    /// Keeps a macro as what means this in a form, with the edition that it has. Nothing free means a macro.
    pub fn keep_as(&mut self, form: u32, meaning: Meaning, kept: Macro) -> Mem<()>
        requires { IsBound meaning }
        ensures kept { OnOk result (Keeps self.old self.new form meaning kept) }
        ensures editions { self.new.editions ≡ self.old.editions }
        ensures err { OnErr result ((f : ℕ) (m : AnyMeaning) → macro_in self.new f m ≡ macro_in self.old f m) }
    {
        match meaning {
            Meaning::Local(number) => {
                self.locals.insert((form, number), kept)?;
            }
            Meaning::Global { unit, ident } => {
                self.globals.insert(unit, ident, kept)?;
            }
            Meaning::Standard(symbol) => {
                self.standards.insert(symbol, kept)?;
            }
            Meaning::Free(_) => {}
        }
        Ok(())
    }

    /// From now on editions that are given are behind this one too. The macros stay, with their editions.
    pub fn go_on_from(&mut self, last: u64)
        ensures editions { self.new.editions ≡ max self.old.editions last }
        ensures macros { (f : ℕ) (m : AnyMeaning) → macro_in self.new f m ≡ macro_in self.old f m }
        ensures rests { (work : AnyWork) (u : AnyUnits) (ls : List Frames) (s : ScopedState) (notes : List (Note FramedIdent)) → u.macros ≡ self.old → UnitStands work u ls s notes → UnitStands work (record u { macros = self.new }) ls s notes }
        ensures tells { (names : Names) (s : ScopedState) (editions : ℕ → Option (Transformer Frames Identifier)) → EditionsTell names self.old s editions → EditionsTell names self.new s editions }
    {
        self.editions = self.editions.max(last);
    }

    /// Takes out the macro that a unit defines as this identifier, where it does.
    pub fn take(&mut self, unit: u32, ident: IdNo) -> Option<Macro>
        ensures taken { (f : ℕ) → result ≡ macro_in self.old f (GlobalOf unit ident) }
        ensures gone { (f : ℕ) (m : AnyMeaning) → macro_in self.new f m ≡ (if same_key f (GlobalOf unit ident) f m then None else macro_in self.old f m) }
        ensures editions { self.new.editions ≡ self.old.editions }
    {
        self.globals.take(unit, ident)
    }
}

/// The same rules once more.
pub fn copy_rules(alloc: Global, rules: &Rules) -> Mem<Rules>
    ensures { IfOk result (λ copy. copy ≡ rules.now) }
{
    let literals = Vec::from_slice(alloc, rules.literals.as_slice())?;
    let copies = Vec::from_slice(alloc, rules.rules.as_slice())?;
    Ok(Rules {
        ellipsis: rules.ellipsis,
        literals: Items::from_vec(literals),
        rules: Items::from_vec(copies),
    })
}
