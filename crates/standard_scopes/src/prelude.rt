//! Where each expansion begins: all standard names, and the macros of the prelude (R7RS 4.2, 7.3).
ghost use Rattle.std.specs.Prelude.{◌≡◌, ℕ, List, [], ◌∷◌, length, Option, IfOk, OnOk};
ghost use Rattle.scheme_model.specs.Ident.{Ident as Identifier};
ghost use Rattle.scheme_model.specs.Order.{Transformer};
ghost use Rattle.scheme_model.specs.Prelude.{prelude};
ghost use Rattle.scheme_model.specs.Program.{prelude_unit};
ghost use Rattle.scheme_model.specs.ScopedExpansion.{Frames};
ghost use Rattle.syntax_tree.specs.Names.{KeepsNames};
ghost use Rattle.syntax_tree.specs.Works.{IsOpened};
ghost use Rattle.base_library.specs.Macros.{AreMacros};
ghost use Rattle.base_library.specs.Texts.{names_of};
ghost use Rattle.unit_scopes.specs.Editions.{EditionsTell};
ghost use Rattle.unit_scopes.specs.Forgotten.{AllOwn};
ghost use Rattle.unit_scopes.specs.Opened.{IsNew};
ghost use Rattle.unit_scopes.specs.Outcomes.{Grows};
ghost use Rattle.unit_scopes.specs.Preluded.{prelude_begun, prelude_state};
ghost use Rattle.unit_scopes.specs.Units.{UnitStands};
ghost use Rattle.standard_scopes.specs.Begun.{AreStandard, AddsStandard, BeginsWith};

use base_library::{PreludeMacro, prelude, standard};
use ls_base::{Items, Mem, Memory, Text};
use read_documents::standard_names::standard_library_names;
use std::alloc::Global;
use syntax_tree::meaning::Meaning;
use syntax_tree::trees::{PoolFault, Region, Work};
use unit_scopes::macros::copy_rules;
use unit_scopes::{Imported, UnitScope};

/// Scopes in which the prelude stands, and no unit else. Its trees are added to the region; what stood before still stands, also where
/// memory runs out.
pub fn begin(alloc: Global, work: &mut Work, region: &Region) -> Mem<UnitScope>
    requires { IsOpened work.old region.now }
    ensures stands { IfOk result (λ scope. UnitStands work.new scope ([] ∷ []) (prelude_state prelude) []) }
    ensures new { IfOk result (λ scope. (unit : ℕ) → (unit ≡ prelude_unit → ⊥) → IsNew scope unit) }
    ensures grows { Grows work.old work.new region.now }
{
    let mut scope = UnitScope::new(alloc);
    let imports = all_standard(alloc, work)?;
    scope.begin_prelude(work, imports.as_slice())?;
    match prelude(alloc, work, region) {
        Ok(macros) => {
            work.symbols.told_apart();
            add_macros(work, &mut scope, macros.into_vec())?
        }
        Err(PoolFault::Full) => return Err(Memory),
        Err(PoolFault::Memory) => return Err(Memory),
    }
    Ok(scope)
}

/// Scopes in which the prelude stands again, and no unit else, by its macros as they stand in the work. No tree is added. The macros have the same
/// editions each time.
pub fn begin_again(alloc: Global, work: &mut Work, macros: &[PreludeMacro]) -> Mem<UnitScope>
    requires { AreMacros work.old macros.now prelude }
    ensures stands { IfOk result (λ scope. UnitStands work.new scope ([] ∷ []) (prelude_state prelude) []) }
    ensures new { IfOk result (λ scope. (unit : ℕ) → (unit ≡ prelude_unit → ⊥) → IsNew scope unit) }
    ensures own { IfOk result (λ scope. AllOwn scope) }
    ensures editions { (editions : ℕ → Option (Transformer Frames Identifier)) → BeginsWith editions → IfOk result (λ scope. EditionsTell work.new.symbols scope.macros (prelude_state prelude) editions) }
    ensures last { IfOk result (λ scope. scope.macros.editions ≡ length prelude) }
    ensures trees { work.new.trees ≡ work.old.trees }
    ensures names { KeepsNames work.old.symbols work.new.symbols }
{
    let copies = copies(alloc, macros)?;
    let mut scope = UnitScope::new(alloc);
    let imports = all_standard(alloc, work)?;
    scope.begin_prelude(work, imports.as_slice())?;
    work.symbols.told_apart();
    add_macros(work, &mut scope, copies)?;
    Ok(scope)
}

/// The same macros once more.
fn copies(alloc: Global, macros: &[PreludeMacro]) -> Mem<Vec<PreludeMacro>>
    ensures { IfOk result (λ copies. copies.items ≡ macros.now) }
{
    let mut copies = Vec::new(alloc);
    for one in macros {
        let rules = copy_rules(alloc, &one.rules)?;
        copies.push(PreludeMacro {
            name: one.name,
            rules,
        })?;
    }
    Ok(copies)
}

/// All standard names, each with itself as its meaning.
fn all_standard(alloc: Global, work: &mut Work) -> Mem<Vec<Imported>>
    ensures standard { IfOk result (λ imports. AreStandard work.new.symbols imports.items) }
    ensures trees { work.new.trees ≡ work.old.trees }
    ensures names { KeepsNames work.old.symbols work.new.symbols }
{
    let mut imports = Vec::new(alloc);
    for library in standard_library_names() {
        if let Some(names) = standard(alloc, library)? {
            add_standard(work, &mut imports, &names)?;
        }
    }
    Ok(imports)
}

/// Adds standard names.
fn add_standard(work: &mut Work, imports: &mut Vec<Imported>, names: &Items<Text>) -> Mem<()>
    ensures added { OnOk result (AddsStandard work.new.symbols imports.old.items imports.new.items names.now) }
    ensures trees { work.new.trees ≡ work.old.trees }
    ensures names { KeepsNames work.old.symbols work.new.symbols }
{
    for name in names.as_slice() {
        let symbol = work.symbols.symbol(name.as_str())?;
        imports.push(Imported {
            symbol,
            meaning: Meaning::Standard(symbol),
        })?;
    }
    Ok(())
}

/// Adds the macros of the prelude, the last first.
fn add_macros(work: &mut Work, scope: &mut UnitScope, macros: Vec<PreludeMacro>) -> Mem<()>
    requires macros { AreMacros work.old macros.items prelude }
    requires stands { UnitStands work.old scope.old ([] ∷ []) prelude_begun [] }
    ensures stands { OnOk result (UnitStands work.new scope.new ([] ∷ []) (prelude_state prelude) []) }
    ensures editions { (editions : ℕ → Option (Transformer Frames Identifier)) → BeginsWith editions → scope.old.macros.editions ≡ 0 → EditionsTell work.old.symbols scope.old.macros prelude_begun editions →
        OnOk result (EditionsTell work.new.symbols scope.new.macros (prelude_state prelude) editions) }
    ensures last { scope.old.macros.editions ≡ 0 → OnOk result (scope.new.macros.editions ≡ length prelude) }
    ensures roots { scope.new.env.roots ≡ scope.old.env.roots }
    ensures trees { work.new.trees ≡ work.old.trees }
    ensures names { KeepsNames work.old.symbols work.new.symbols }
{
    let mut rest = macros;
    while let Some(PreludeMacro { name, rules }) = rest.pop() {
        scope.add_prelude(work, name, rules)?;
        work.symbols.told_apart();
    }
    Ok(())
}
