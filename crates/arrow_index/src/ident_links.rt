//! The links of an identifier: to its definition, or to the origins of the entry that gives it a meaning.
ghost use Rattle.std.specs.Prelude.{◌≡◌, ◌<◌, ◌++◌, ℕ, List, Some, map, length, slice_get, OnOk};
ghost use Rattle.scheme_model.specs.Cores.{Target as ModelTarget};
ghost use Rattle.scheme_model.specs.Ident.{Ident as Identifier};
ghost use Rattle.scheme_model.specs.Live.{CoreLeaf, NameUse as ModelName};
ghost use Rattle.scheme_model.specs.Program.{UnitResult};
ghost use Rattle.scheme_model.specs.Substitution.{Table};
ghost use Rattle.scheme_model.specs.Spelling.{links_at, ident_origins, imported_origins};
ghost use Rattle.syntax_tree.specs.Macros.{IsIdent};
ghost use Rattle.program_leaves.specs.Sights.{Sees};
ghost use Rattle.program_leaves.specs.Entries.{Gives};
ghost use Rattle.arrow_index.specs.Links.{as_link};

use crate::links::{Link, add_link, link_origins};
use ls_base::Mem;
use program_leaves::entries::Entries;
use program_leaves::sight::Sight;
use scheme_model::Occ;
use std::alloc::Global;
use syntax_tree::symbols::{IdNo, Ident, SymNo};
use syntax_tree::trees::Work;

/// Adds the links of a name that an entry of a unit gives.
fn link_given(
    alloc: Global,
    work: &Work,
    entries: &Entries<'_>,
    unit: u32,
    symbol: SymNo,
    target: Occ,
    links: &mut Vec<Link>,
) -> Mem<()>
    requires symbol { symbol < length work.now.symbols.symbols }
    requires entries { (rs : List UnitResult) × Gives work.now.symbols entries.now.units.items rs }
    ensures { (rs : List UnitResult) (s : List ℕ) → Gives work.now.symbols entries.now.units.items rs → slice_get work.now.symbols.symbols symbol ≡ Some s →
        OnOk result (map as_link links.new.items ≡ map as_link links.old.items ++ links_at (Some target) (imported_origins rs unit s)) }
{
    match entries.entry(unit, work.symbols.name(symbol)) {
        None => Ok(()),
        Some(entry) => Ok(link_origins(
            alloc,
            work,
            entry.meaning,
            entry.origins.as_slice(),
            target,
            links,
        )?),
    }
}

/// Adds the links of a use by its identifier.
pub fn link_ident(
    alloc: Global,
    work: &Work,
    sight: &Sight<'_>,
    entries: &Entries<'_>,
    ident: IdNo,
    target: Occ,
    links: &mut Vec<Link>,
) -> Mem<()>
    requires ident { ident < length work.now.symbols.idents }
    requires entries { (rs : List UnitResult) × Gives work.now.symbols entries.now.units.items rs }
    ensures { (leaves : List CoreLeaf) (keywords : List ModelTarget) (names : List ModelName) (table : Table) (rs : List UnitResult) (i : Identifier) →
        Sees work.now sight.now leaves keywords names table → Gives work.now.symbols entries.now.units.items rs → IsIdent work.now.symbols ident i →
        OnOk result (map as_link links.new.items ≡ map as_link links.old.items ++ links_at (Some target) (ident_origins table rs i)) }
{
    let mut at = ident;
    loop {
        match work.symbols.ident_at(at) {
            Ident::Written { unit, symbol } => match sight.definition(unit, at) {
                Some(place) => return Ok(add_link(alloc, place, target, links)?),
                None => return Ok(link_given(alloc, work, entries, unit, symbol, target, links)?),
            },
            Ident::Inserted { id, number } => match sight.definition(number.unit, at) {
                Some(place) => return Ok(add_link(alloc, place, target, links)?),
                None => at = id,
            },
        }
    }
}
