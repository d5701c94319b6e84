//! The prelude's unit, before all others (R7RS 4.2, 7.3): its macros are what the derived forms are.
ghost use Rattle.std.specs.Prelude.{◌≡◌, ◌<◌, ◌+◌, ℕ, List, [], ◌∷◌, length, false, Option, Some, None, Ok, OnOk};
ghost use Rattle.std.specs.BTreeMap.{get as get_defined};
ghost use Rattle.std.specs.List.{list_any};
ghost use Rattle.std.specs.Ordering.{nat_cmp};
ghost use Rattle.std.specs.Str.{bytes_eq};
ghost use Rattle.scheme_model.specs.Ident.{Ident as Identifier, Written};
ghost use Rattle.scheme_model.specs.Prelude.{PreludeMacro, prelude};
ghost use Rattle.scheme_model.specs.Program.{Prepared, is_program, prelude_unit};
ghost use Rattle.scheme_model.specs.RulesShape.{Rules as ModelRules, check_rules};
ghost use Rattle.scheme_model.specs.Order.{Transformer};
ghost use Rattle.scheme_model.specs.ScopedExpansion.{Frames, ScopedState};
ghost use Rattle.scheme_model.specs.ScopedProgram.{ScopedProgress, scoped_before, scoped_start_of};
ghost use Rattle.scheme_model.specs.Substitution.{Entries, defined_in};
ghost use Rattle.syntax_tree.specs.Macros.{identifiers, RulesFor};
ghost use Rattle.syntax_tree.specs.Meant.{IsSymbol};
ghost use Rattle.syntax_tree.specs.Names.{KeepsNames};
ghost use Rattle.rules_check.specs.Gathered.{AreUnplaced};
ghost use Rattle.unit_scopes.specs.Editions.{EditionsTell};
ghost use Rattle.unit_scopes.specs.Forgotten.{AllOwn, OwnFirst};
ghost use Rattle.unit_scopes.specs.Opened.{IsNew, AreNumbered, ImportsFor, HasUnits, nothing_yet, started};
ghost use Rattle.unit_scopes.specs.Preluded.{standard_names, prelude_begun, prelude_with, prelude_state, IsPrelude, CanAdd, Continues, AddsMacro};
ghost use Rattle.unit_scopes.specs.Units.{UnitStands};

use crate::macros::Macro;
use crate::scope::{Imported, UnitScope};
use ls_base::Mem;
use rules_check::unplaced_leaves;
use syntax_tree::meaning::Meaning;
use syntax_tree::rules::Rules;
use syntax_tree::symbols::{IdNo, Ident, SymNo};
use syntax_tree::trees::Work;
use syntax_tree::units::UnitKind;

/// The number of the prelude's unit.
pub(crate) const PRELUDE: u32 = 128;

impl UnitScope {
    /// Opens the prelude's unit, which imports all standard names. No unit was opened before.
    pub fn begin_prelude(&mut self, work: &mut Work, imports: &[Imported]) -> Mem<()>
        requires new { IsNew self.old prelude_unit }
        requires numbered { AreNumbered work.old.symbols imports.now }
        ensures rests { HasUnits work.old self.old [] nothing_yet → ImportsFor work.old.symbols imports.now standard_names →
            OnOk result (UnitStands work.new self.new ([] ∷ []) prelude_begun []) }
        ensures others { (v : ℕ) → (v ≡ prelude_unit → ⊥) → IsNew self.old v → OnOk result (IsNew self.new v) }
        ensures own { AllOwn self.old → OnOk result (OwnFirst self.new × AllOwn self.new) }
        ensures editions { (editions : ℕ → Option (Transformer Frames Identifier)) → HasUnits work.old self.old [] nothing_yet → ImportsFor work.old.symbols imports.now standard_names →
            EditionsTell work.old.symbols self.old.macros nothing_yet editions → OnOk result (EditionsTell work.new.symbols self.new.macros prelude_begun editions) }
        ensures last { OnOk result (self.new.macros.editions ≡ self.old.macros.editions) }
        ensures trees { work.new.trees ≡ work.old.trees }
        ensures symbols { work.new.symbols.symbols ≡ work.old.symbols.symbols }
        ensures names { KeepsNames work.old.symbols work.new.symbols }
    {
        self.start_unit(work, PRELUDE, UnitKind::Library, imports)
    }

    /// Adds a macro to the prelude's unit, in front of those that were added before: as what its name means there, a standard name
    /// or a definition of this unit.
    pub fn add_prelude(&mut self, work: &mut Work, name: SymNo, rules: Rules) -> Mem<()>
        requires can { CanAdd work.old self.old name }
        requires rules { (r : ModelRules Identifier) × RulesFor work.old rules r }
        ensures added { (s : ScopedState) (x : List ℕ) (r : ModelRules Identifier) → UnitStands work.old self.old ([] ∷ []) s [] → IsPrelude s → IsSymbol work.old.symbols name x →
            defined_in s.table prelude_unit (Written prelude_unit x) ≡ None → RulesFor work.old rules r → check_rules identifiers r r.rules ≡ Ok tt → AreUnplaced r.literals →
            OnOk result (UnitStands work.new self.new ([] ∷ []) (prelude_with x r s) []) }
        // It has the next edition, which tells its rules.
        ensures editions { (s : ScopedState) (x : List ℕ) (r : ModelRules Identifier) (editions : ℕ → Option (Transformer Frames Identifier)) → UnitStands work.old self.old ([] ∷ []) s [] → IsPrelude s → IsSymbol work.old.symbols name x →
            defined_in s.table prelude_unit (Written prelude_unit x) ≡ None → EditionsTell work.old.symbols self.old.macros s editions → editions (self.old.macros.editions + 1) ≡ Some (record { env = []; rules = r }) →
            OnOk result (EditionsTell work.new.symbols self.new.macros (prelude_with x r s) editions) }
        ensures last { OnOk result (self.new.macros.editions ≡ self.old.macros.editions + 1) }
        ensures roots { self.new.env.roots ≡ self.old.env.roots }
        ensures trees { work.new.trees ≡ work.old.trees }
        ensures symbols { work.new.symbols.symbols ≡ work.old.symbols.symbols }
        ensures names { KeepsNames work.old.symbols work.new.symbols }
    {
        self.env.sound();
        let leaves = unplaced_leaves(self.alloc, work, &rules)?;
        let ident = work.symbols.ident(Ident::Written {
            unit: PRELUDE,
            symbol: name,
        })?;
        work.symbols.told_apart();
        let kept = Macro {
            scope: self.root,
            rules,
            leaves,
            edition: 0,
        };
        match self.env.resolve(self.root, ident, &work.symbols) {
            Meaning::Standard(symbol) => self.macros.keep(0, Meaning::Standard(symbol), kept),
            Meaning::Local(_) => self.define_own(ident, kept),
            Meaning::Global { unit: _, ident: _ } => self.define_own(ident, kept),
            Meaning::Free(_) => self.define_own(ident, kept),
        }
    }

    /// Defines an identifier of the open unit as a macro.
    fn define_own(&mut self, ident: IdNo, kept: Macro) -> Mem<()>
        requires root { self.old.root < length self.old.env.scopes }
        requires new { get_defined nat_cmp self.old.defined ident ≡ None }
        ensures added { OnOk result (AddsMacro self.old self.new ident kept) }
        ensures last { OnOk result (self.new.macros.editions ≡ self.old.macros.editions + 1) }
        ensures roots { self.new.env.roots ≡ self.old.env.roots }
    {
        let meaning = Meaning::Global {
            unit: self.unit,
            ident,
        };
        self.env.bind(self.root, ident, meaning)?;
        self.defined.insert(ident, true)?;
        self.macros.keep(0, meaning, kept)
    }
}

/// When all macros of the prelude are added, from the last to the first, the unit has what the units of a program go on with; and
/// the next unit begins as one that goes on with that does.
pub fn units_go_on()
    ensures prelude { Continues (prelude_state prelude) scoped_before }
    ensures macros { (ms : List PreludeMacro) → IsPrelude (prelude_state ms) }
    ensures names { (ms : List PreludeMacro) (x : List ℕ) → list_any (λ (m : PreludeMacro). bytes_eq m.name x) ms ≡ false →
        defined_in (prelude_state ms).table prelude_unit (Written prelude_unit x) ≡ None }
    ensures start { (p : Prepared) (g : ScopedProgress) (entry : Entries) (s : ScopedState) → Continues s g →
        started p.number (is_program p.placed.source.kind) entry s ≡ scoped_start_of p g entry }
{}
