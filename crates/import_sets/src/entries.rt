//! What an import set gives of what its library exports (R7RS 5.2).
ghost use Rattle.std.specs.Prelude.{◌≡◌, List};
ghost use Rattle.scheme_model.specs.Entries as model;
ghost use Rattle.syntax_tree.specs.Names.{Names};
ghost use Rattle.syntax_tree.specs.Meant.{AreEntries};
ghost use Rattle.import_sets.specs.Given.{given, Same};
ghost use Rattle.import_sets.specs.Sets.{IsSet, TellsApart, Answers};

use crate::ImportFault;
use crate::copy::copy_of_entries;
use crate::modify::{except, only, prefixed};
use crate::rename::rename;
use crate::set::{ImportSet, has_bad};
use ls_base::Items;
use std::alloc::Global;
use syntax_tree::units::Entry;

/// What a set gives, from the innermost set outwards.
fn given(alloc: Global, set: &ImportSet, exports: &[Entry]) -> Result<Items<Entry>, ImportFault>
    ensures { Same result (given set.now exports.now) }
{
    match set {
        ImportSet::Library(_) => Ok(copy_of_entries(alloc, exports)?),
        ImportSet::Only { set, names } => {
            let entries = given(alloc, set, exports)?;
            Ok(only(alloc, entries, names.as_slice())?)
        }
        ImportSet::Except { set, names } => {
            let entries = given(alloc, set, exports)?;
            Ok(except(alloc, entries, names.as_slice())?)
        }
        ImportSet::Prefix { set, prefix } => {
            let entries = given(alloc, set, exports)?;
            Ok(prefixed(alloc, entries.as_slice(), prefix.as_str())?)
        }
        ImportSet::Rename { set, pairs } => {
            let entries = given(alloc, set, exports)?;
            Ok(rename(alloc, entries, pairs.as_slice())?)
        }
        ImportSet::Bad => Err(ImportFault::BadSet),
    }
}

/// The entries that a set gives of those that its library exports, in their order. It answers `BadSet` where the set or one
/// inside of it has no shape, and else the first fault from the innermost modifier outwards: `NotThere` with the first identifier
/// of the modifier whose name its inner set doesn't give, or `Clash` with the first name in byte order that has two meanings.
pub fn entries_of(
    alloc: Global,
    set: &ImportSet,
    exports: &[Entry],
) -> Result<Items<Entry>, ImportFault>
    ensures { (names : Names) → TellsApart names → (s : model.ImportSet) → IsSet set.now s → (es : List model.Entry) → AreEntries names exports.now es →
        Answers names result (model.entries_of s es) }
{
    if has_bad(set) {
        return Err(ImportFault::BadSet);
    }
    Ok(given(alloc, set, exports)?)
}
