//! The lines of what `selfrun` counts.
ghost use Rattle.std.specs.Prelude.{◌≡◌, IfOk};
ghost use Rattle.std.specs.String.{string_bytes};
ghost use Rattle.command_lines.specs.Counts as spec;

use std::alloc::{AllocError, Global};

/// How much there is of what a workspace answers.
#[derive(Clone, Copy)]
pub struct Counts {
    /// Open documents.
    pub documents: usize,
    /// The diagnostics of all documents.
    pub diagnostics: usize,
    /// The arrows of all documents.
    pub arrows: usize,
    /// The references of one definition, and the definition.
    pub references: usize,
    /// The edits of its rename.
    pub edits: usize,
}

/// The five lines of counts.
pub fn count_lines(alloc: Global, counts: Counts) -> Result<String, AllocError>
    ensures { IfOk result (λ text. string_bytes text ≡ spec.count_lines counts) }
{
    let mut text = count_line(alloc, "documents", counts.documents)?;
    text.push_str(count_line(alloc, "diagnostics", counts.diagnostics)?.as_str())?;
    text.push_str(count_line(alloc, "arrows", counts.arrows)?.as_str())?;
    text.push_str(count_line(alloc, "references", counts.references)?.as_str())?;
    text.push_str(count_line(alloc, "edits", counts.edits)?.as_str())?;
    Ok(text)
}

/// The line of a count, behind what is counted.
fn count_line(alloc: Global, what: &str, count: usize) -> Result<String, AllocError>
    ensures { IfOk result (λ text. string_bytes text ≡ spec.count_line what.now count) }
{
    format!(in alloc; "{what} {count}\n")
}
