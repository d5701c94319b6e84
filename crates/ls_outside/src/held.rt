//! Files in memory.
ghost use Rattle.std.specs.Prelude.{◌≡◌, None, IfSome};
ghost use Rattle.ls_outside.specs.Files.{GivesRead};
ghost use Rattle.ls_outside.specs.FilesInMemory.{content_of, IsCopy};

use crate::record::{note_some, note_whole};
use crate::{Fetch, Record};
use std::alloc::Global;
use std::collections::BTreeMap;

/// The contents of files by their names.
pub type Contents = BTreeMap<String, Vec<u8>>;

/// A copy of the content of a name, where there is one. It has at most `max` bytes. What is read for it is noted.
pub(crate) fn copy_of(
    alloc: Global,
    contents: &Contents,
    name: &str,
    max: u32,
    reads: &mut Record,
) -> Option<Fetch>
    ensures copy { IsCopy (content_of contents.now name.now) max result }
    ensures read { IfSome result (GivesRead reads.old.pieces reads.new.pieces max) }
    ensures unread { result ≡ None → reads.new.pieces ≡ reads.old.pieces }
{
    let content = contents.get(name)?;
    if content.len() > max as usize {
        note_some(reads, content);
        return Some(Fetch::Long);
    }
    match Vec::from_slice(alloc, content) {
        Ok(copy) => {
            note_whole(reads, content);
            Some(Fetch::Bytes(copy))
        }
        Err(_) => Some(Fetch::Memory),
    }
}
