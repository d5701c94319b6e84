//! How a position is written. Lines and columns begin at 0; a column counts UTF-16 units (LSP 3.17, Position).
ghost use Rattle.std.specs.Prelude.{◌≡◌, IfOk};
ghost use Rattle.std.specs.String.{string_bytes};
ghost use Rattle.command_lines.specs.Places as spec;

use ls_base::Pos;
use std::alloc::{AllocError, Global};

/// A position, as `LINE:COLUMN`.
pub fn place_text(alloc: Global, position: Pos) -> Result<String, AllocError>
    ensures { IfOk result (λ text. string_bytes text ≡ spec.place_text position) }
{
    let line = position.line;
    let character = position.character;
    format!(in alloc; "{line}:{character}")
}
