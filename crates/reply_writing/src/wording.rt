//! The text that a session says by itself.
ghost use Rattle.std.specs.Prelude.{◌≡◌, IfOk};
ghost use Rattle.std.specs.String.{string_bytes};
ghost use Rattle.reply_writing.specs.Wording as spec;

use std::alloc::{AllocError, Global};

/// The log of a fault of frames, by its number, at an offset of the stream.
pub fn fault_text(alloc: Global, number: u8, offset: u64) -> Result<String, AllocError>
    ensures { IfOk result (λ text. string_bytes text ≡ spec.fault_text number offset) }
{
    format!(in alloc; "frame fault {number} at {offset}")
}
