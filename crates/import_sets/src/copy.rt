//! Copies of names and entries, and texts put together.
ghost use Rattle.std.specs.Prelude.{◌≡◌, ◌++◌, IfOk};

use crate::set::SetName;
use ls_base::{Items, Mem, Text};
use std::alloc::Global;
use syntax_tree::units::{Entry, Origin};

/// Two texts, one behind the other.
pub fn joined(alloc: Global, front: &str, back: &str) -> Mem<Text>
    ensures { IfOk result (λ text. text ≡ front.now ++ back.now) }
{
    let mut text = String::from_str(alloc, front)?;
    text.push_str(back)?;
    Ok(Text::from_string(text))
}

/// A copy of an identifier of a set.
pub fn copy_of_name(name: &SetName) -> Mem<SetName>
    ensures { IfOk result (λ copy. copy ≡ name.now) }
{
    Ok(SetName {
        name: name.name.clone()?,
        occ: name.occ,
    })
}

/// A copy of what spells a name.
fn copy_of_origin(origin: &Origin) -> Mem<Origin>
    ensures { IfOk result (λ copy. copy ≡ origin.now) }
{
    Ok(Origin {
        occ: origin.occ,
        prefix: origin.prefix.clone()?,
    })
}

/// A copy of what spells a name.
pub fn copy_of_origins(alloc: Global, origins: &[Origin]) -> Mem<Items<Origin>>
    ensures { IfOk result (λ copy. copy ≡ origins.now) }
{
    let mut copy = Items::new(alloc);
    for origin in origins {
        copy.push(copy_of_origin(origin)?)?;
    }
    Ok(copy)
}

/// A copy of an entry.
fn copy_of_entry(alloc: Global, entry: &Entry) -> Mem<Entry>
    ensures { IfOk result (λ copy. copy ≡ entry.now) }
{
    Ok(Entry {
        name: entry.name.clone()?,
        meaning: entry.meaning,
        origins: copy_of_origins(alloc, entry.origins.as_slice())?,
    })
}

/// A copy of entries.
pub fn copy_of_entries(alloc: Global, entries: &[Entry]) -> Mem<Items<Entry>>
    ensures { IfOk result (λ copy. copy ≡ entries.now) }
{
    let mut copy = Items::new(alloc);
    for entry in entries {
        copy.push(copy_of_entry(alloc, entry)?)?;
    }
    Ok(copy)
}
