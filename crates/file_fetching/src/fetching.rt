//! Fetches files by their names.
ghost use Rattle.std.specs.Prelude.{◌≤◌};
ghost use Rattle.ls_base.specs.Limits.{max_text};
ghost use Rattle.file_fetching.specs.Fetching.{FetchEndsAs, FetchingEndsAs, max_recording};
ghost use Rattle.file_fetching.specs.FilesSeen.{files_seen};

use ls_base::{Items, Memory, Text};
use ls_outside::{Fetch, Files};
use std::alloc::Global;

/// The most bytes of a text. That of `ls_base` counts in `usize`.
const MAX_TEXT: u32 = 1_048_576;

/// The most bytes of a recorded session.
const MAX_RECORDING: u32 = 67_108_864;

/// Why a file wasn't fetched.
#[derive(Clone, Copy)]
pub enum FetchStop {
    /// It has more bytes than it may.
    Long,
    /// There is no such file, or it can't be read.
    Failed,
    /// Memory ran out.
    Memory,
}

impl From<Memory> for FetchStop {
    ghost use Rattle.std.specs.Prelude.{◌≡◌};
    ghost use Rattle.file_fetching.specs.declared.fetching.FetchStop.TheVariants as stop;

    ghost from_gives = { λ _ e. e ≡ stop.Memory };

    fn from(_: Memory) -> Self {
        FetchStop::Memory
    }
}

/// The contents of files of at most 1,048,576 bytes each, in the order of their names. They are fetched in this order, each once, up
/// to the first that is longer or can't be fetched.
pub fn fetch_texts<F: Files>(
    alloc: Global,
    names: &[Text],
    files: &mut F,
) -> Result<Items<Vec<u8>>, FetchStop>
    ensures { FetchingEndsAs (files_seen (F.held files.old) (F.asked files.old) (F.reads files.old) (F.faults files.old))
        (files_seen (F.held files.new) (F.asked files.new) (F.reads files.new) (F.faults files.new)) names.now max_text result }
{
    let mut contents = Items::new(alloc);
    for name in names {
        let content = fetch_text(alloc, name.as_str(), files)?;
        contents.push(content)?;
    }
    Ok(contents)
}

/// The content of a file of at most 1,048,576 bytes, which is fetched once.
pub fn fetch_text<F: Files>(alloc: Global, name: &str, files: &mut F) -> Result<Vec<u8>, FetchStop>
    ensures { FetchEndsAs (files_seen (F.held files.old) (F.asked files.old) (F.reads files.old) (F.faults files.old))
        (files_seen (F.held files.new) (F.asked files.new) (F.reads files.new) (F.faults files.new)) name.now max_text result }
{
    fetch(alloc, name, MAX_TEXT, files)
}

/// The content of a file of at most 67,108,864 bytes, a recorded session, which is fetched once.
pub fn fetch_recording<F: Files>(
    alloc: Global,
    name: &str,
    files: &mut F,
) -> Result<Vec<u8>, FetchStop>
    ensures { FetchEndsAs (files_seen (F.held files.old) (F.asked files.old) (F.reads files.old) (F.faults files.old))
        (files_seen (F.held files.new) (F.asked files.new) (F.reads files.new) (F.faults files.new)) name.now max_recording result }
{
    fetch(alloc, name, MAX_RECORDING, files)
}

/// The content of a file of at most `max` bytes, which is fetched once.
fn fetch<F: Files>(alloc: Global, name: &str, max: u32, files: &mut F) -> Result<Vec<u8>, FetchStop>
    ensures { FetchEndsAs (files_seen (F.held files.old) (F.asked files.old) (F.reads files.old) (F.faults files.old))
        (files_seen (F.held files.new) (F.asked files.new) (F.reads files.new) (F.faults files.new)) name.now max result }
{
    match files.fetch(alloc, name, max) {
        Fetch::Bytes(content) => Ok(content),
        Fetch::Long => Err(FetchStop::Long),
        Fetch::Failed => Err(FetchStop::Failed),
        Fetch::Memory => Err(FetchStop::Memory),
    }
}
