//! Reads the whole input.
ghost use Rattle.text_arrows.specs.TextReading.{ReadingEndsAs};
ghost use Rattle.command_output.specs.Reads.{source_seen};

use ls_base::limits::MAX_TEXT;
use ls_outside::{Got, Source};
use std::alloc::{AllocError, Global};

/// How many bytes are read at once, at most.
const BUFFER: usize = 4_096;

/// Why the input wasn't read whole.
#[derive(Clone, Copy)]
pub enum ReadStop {
    /// It is longer than the limit.
    Long,
    /// A read failed.
    Failed,
    /// Memory ran out.
    Memory,
}

impl From<AllocError> for ReadStop {
    ghost use Rattle.std.specs.Prelude.{◌≡◌};
    ghost use Rattle.text_arrows.specs.declared.reading.ReadStop.TheVariants as stop;

    ghost from_gives = { λ _ e. e ≡ stop.Memory };

    fn from(_: AllocError) -> Self {
        ReadStop::Memory
    }
}

/// Reads to the end, or past the limit of a text and no further.
pub fn read_all<I: Source>(alloc: Global, input: &mut I) -> Result<Vec<u8>, ReadStop>
    ensures { ReadingEndsAs (source_seen (I.left input.old) (I.faults input.old) (I.reads input.old))
        (source_seen (I.left input.new) (I.faults input.new) (I.reads input.new)) result }
{
    let mut text = Vec::new(alloc);
    let mut buf = [0u8; BUFFER];
    while text.len() <= MAX_TEXT {
        match input.read(&mut buf) {
            Got::Some(count) => text.extend_from_slice(&buf[..count])?,
            Got::End => return Ok(text),
            Got::Failed => return Err(ReadStop::Failed),
        }
    }
    Err(ReadStop::Long)
}
