//! Units, one after another: what each imports, and the macros and definitions that stay (R7RS 5.1, 5.6).
ghost use Rattle.std.specs.Prelude.{◌≡◌, ℕ, List, [], ◌∷◌, ◌++◌, length, Option, None, IfOk, ◌+◌, ◌-◌, ◌<◌, OnOk};
ghost use Rattle.scheme_model.specs.Ident.{Ident as Identifier};
ghost use Rattle.scheme_model.specs.Requirements.{Known};
ghost use Rattle.scheme_model.specs.Order.{Note, Transformer};
ghost use Rattle.scheme_model.specs.ScopedExpansion.{Frames, FramedIdent, ScopedState};
ghost use Rattle.syntax_tree.specs.Names.{Names, KeepsNames};
ghost use Rattle.feature_requirements.specs.Judged.{Knows};
ghost use Rattle.unit_scopes.specs.Editions.{EditionsTell};
ghost use Rattle.unit_scopes.specs.Forgotten.{AllOwn, OwnFirst};
ghost use Rattle.unit_scopes.specs.Opened.{IsNew, AreNumbered, ImportsFor, HasUnits, BindsImport, nothing_yet, started, with_imports};
ghost use Rattle.syntax_tree.specs.declared.trees.Work.{Work as AnyWork};
ghost use Rattle.unit_scopes.specs.State.{is_program};
ghost use Rattle.unit_scopes.specs.Stepped.{IsFresh};
ghost use Rattle.scheme_model.specs.Meaning.{Meaning as ModelMeaning};
ghost use Rattle.unit_scopes.specs.Units.{UnitStands};

use crate::asked::Asked;
use crate::macros::Macros;
use crate::prelude::PRELUDE;
use crate::scope::{Budget, FormAtWork, Imported, UnitScope};
use core_tree::traces::Trace;
use feature_requirements::known::Libraries;
use form_notes::Noting;
use ls_base::{Items, Mem};
use scope_env::{Env, ScopeNo};
use std::alloc::Global;
use std::collections::{BTreeMap, BTreeSet};
use syntax_tree::symbols::Ident;
use syntax_tree::trees::Work;
use syntax_tree::units::UnitKind;

impl UnitScope {
    /// No unit is open. It takes no memory.
    pub fn new(alloc: Global) -> UnitScope
        ensures units { (work : AnyWork) → HasUnits work result [] nothing_yet }
        ensures all_new { (unit : ℕ) → IsNew result unit }
        ensures own { AllOwn result }
        ensures editions { (names : Names) (editions : ℕ → Option (Transformer Frames Identifier)) → editions 0 ≡ None → EditionsTell names result.macros nothing_yet editions }
        ensures last { result.macros.editions ≡ 0 }
    {
        UnitScope {
            alloc,
            env: Env::new(alloc),
            macros: Macros::new(alloc),
            unit: PRELUDE,
            kind: UnitKind::Library,
            root: 0,
            libraries: BTreeSet::new(alloc),
            defined: BTreeMap::new(alloc),
            asked: Asked::new(alloc),
            form: no_form(alloc),
        }
    }

    /// From now on these are the libraries that there are.
    pub fn know(&mut self, libraries: Libraries)
        ensures after { self.new ≡ record self.old { libraries = libraries.names } }
        ensures knows { (known : Known) → Knows libraries.names known → Knows self.new.libraries known }
        ensures rests { (work : AnyWork) (ls : List Frames) (s : ScopedState) (notes : List (Note FramedIdent)) → UnitStands work self.old ls s notes → UnitStands work self.new ls s notes }
    {
        let Libraries { names } = libraries;
        self.libraries = names;
    }

    /// Opens a unit that wasn't opened before, with what it imports. The scopes and macros of the units before stay, and so do the
    /// libraries that there are. No form of the unit has counted, met or defined anything yet.
    pub fn begin_unit(
        &mut self,
        work: &mut Work,
        unit: u32,
        kind: UnitKind,
        imports: &[Imported],
    ) -> Mem<()>
        requires new { IsNew self.old unit }
        requires numbered { AreNumbered work.old.symbols imports.now }
        ensures rests { (ls : List Frames) (s : ScopedState) (notes : List (Note FramedIdent)) (imported : List ℕ → Option ModelMeaning) →
            UnitStands work.old self.old ls s notes → ImportsFor work.old.symbols imports.now imported →
            OnOk result (UnitStands work.new self.new (ls ++ [] ∷ []) (started unit (is_program kind) (with_imports unit imported s.entry) s) []) }
        ensures fresh { (ls : List Frames) (s : ScopedState) (notes : List (Note FramedIdent)) (imported : List ℕ → Option ModelMeaning) → UnitStands work.old self.old ls s notes →
            OnOk result ((m : ℕ) → IsFresh (started unit (is_program kind) (with_imports unit imported s.entry) s) m) }
        ensures editions { (ls : List Frames) (s : ScopedState) (notes : List (Note FramedIdent)) (imported : List ℕ → Option ModelMeaning) (editions : ℕ → Option (Transformer Frames Identifier)) →
            UnitStands work.old self.old ls s notes → ImportsFor work.old.symbols imports.now imported → EditionsTell work.old.symbols self.old.macros s editions →
            OnOk result (EditionsTell work.new.symbols self.new.macros (started unit (is_program kind) (with_imports unit imported s.entry) s) editions) }
        ensures last { OnOk result (self.new.macros.editions ≡ self.old.macros.editions) }
        ensures knows { (known : Known) → Knows self.old.libraries known → Knows self.new.libraries known }
        ensures others { (v : ℕ) → (v ≡ unit → ⊥) → IsNew self.old v → OnOk result (IsNew self.new v) }
        ensures own { AllOwn self.old → OnOk result (OwnFirst self.new × AllOwn self.new) }
        ensures trees { work.new.trees ≡ work.old.trees }
        ensures symbols { work.new.symbols.symbols ≡ work.old.symbols.symbols }
        ensures names { KeepsNames work.old.symbols work.new.symbols }
    {
        self.start_unit(work, unit, kind, imports)
    }

    /// Opens a unit, whose own scope binds what it imports.
    pub(crate) fn start_unit(
        &mut self,
        work: &mut Work,
        unit: u32,
        kind: UnitKind,
        imports: &[Imported],
    ) -> Mem<()>
        requires new { IsNew self.old unit }
        requires numbered { AreNumbered work.old.symbols imports.now }
        ensures rests { (ls : List Frames) (s : ScopedState) (imported : List ℕ → Option ModelMeaning) → HasUnits work.old self.old ls s →
            ImportsFor work.old.symbols imports.now imported →
            OnOk result (UnitStands work.new self.new (ls ++ [] ∷ []) (started unit (is_program kind) (with_imports unit imported s.entry) s) []) }
        ensures fresh { (ls : List Frames) (s : ScopedState) (imported : List ℕ → Option ModelMeaning) → HasUnits work.old self.old ls s →
            OnOk result ((m : ℕ) → IsFresh (started unit (is_program kind) (with_imports unit imported s.entry) s) m) }
        ensures editions { (ls : List Frames) (s : ScopedState) (imported : List ℕ → Option ModelMeaning) (editions : ℕ → Option (Transformer Frames Identifier)) → HasUnits work.old self.old ls s →
            ImportsFor work.old.symbols imports.now imported → EditionsTell work.old.symbols self.old.macros s editions →
            OnOk result (EditionsTell work.new.symbols self.new.macros (started unit (is_program kind) (with_imports unit imported s.entry) s) editions) }
        ensures last { OnOk result (self.new.macros.editions ≡ self.old.macros.editions) }
        ensures others { (v : ℕ) → (v ≡ unit → ⊥) → IsNew self.old v → OnOk result (IsNew self.new v) }
        ensures own { AllOwn self.old → OnOk result (OwnFirst self.new × AllOwn self.new) }
        ensures libraries { self.new.libraries ≡ self.old.libraries }
        ensures trees { work.new.trees ≡ work.old.trees }
        ensures symbols { work.new.symbols.symbols ≡ work.old.symbols.symbols }
        ensures names { KeepsNames work.old.symbols work.new.symbols }
    {
        self.env.sound();
        let root = self.env.root(unit)?;
        for imported in imports {
            self.import(work, unit, root, *imported)?;
        }
        work.symbols.told_apart();
        self.unit = unit;
        self.kind = kind;
        self.root = root;
        self.defined = BTreeMap::new(self.alloc);
        self.asked = Asked::new(self.alloc);
        self.macros.locals = BTreeMap::new(self.alloc);
        Ok(())
    }

    /// Binds a symbol in the own scope of the unit that imports it.
    fn import(&mut self, work: &mut Work, unit: u32, root: ScopeNo, imported: Imported) -> Mem<()>
        requires root { root < length self.old.env.scopes }
        requires numbered { imported.symbol < length work.old.symbols.symbols }
        ensures bound { OnOk result (BindsImport work.old work.new self.old self.new unit root imported) }
        ensures libraries { self.new.libraries ≡ self.old.libraries }
        ensures trees { work.new.trees ≡ work.old.trees }
        ensures symbols { work.new.symbols.symbols ≡ work.old.symbols.symbols }
        ensures names { KeepsNames work.old.symbols work.new.symbols }
    {
        self.env.sound();
        let ident = work.symbols.ident(Ident::Written {
            unit,
            symbol: imported.symbol,
        })?;
        work.symbols.told_apart();
        self.env.bind(root, ident, imported.meaning)?;
        Ok(())
    }

    /// Whether the open unit is a program.
    pub(crate) fn is_program(&self) -> bool
        ensures { result ≡ is_program self.now.kind }
    {
        match self.kind {
            UnitKind::Program => true,
            UnitKind::Library => false,
            UnitKind::Part => false,
        }
    }
}

/// No form is at work.
fn no_form(alloc: Global) -> FormAtWork {
    FormAtWork {
        number: 0,
        budget: Budget {
            uses: 0,
            nodes: 0,
            locals: 0,
        },
        trace: Trace {
            definitions: Items::new(alloc),
            keywords: Items::new(alloc),
            uses: Items::new(alloc),
            notes: Noting::new(alloc),
        },
    }
}
