//! The lines of diagnostics.
ghost use Rattle.std.specs.Prelude.{◌≡◌, IfOk};
ghost use Rattle.std.specs.String.{string_bytes};
ghost use Rattle.command_lines.specs.Diagnostics as spec;

use crate::places::place_text;
use ls_base::{Diagnostic, Mem, Pos, Range, Text};
use std::alloc::{AllocError, Global};

/// The severity of an Error (LSP 3.17, DiagnosticSeverity).
const ERROR: u8 = 1;

/// The code of a text that isn't UTF-8.
const NOT_UTF8: u32 = 13;

/// The begin of a text.
const START: Pos = Pos {
    line: 0,
    character: 0,
};

/// The lines of the diagnostics of a document, in their order.
pub fn diagnostic_lines(
    alloc: Global,
    uri: &str,
    diagnostics: &[Diagnostic],
) -> Result<String, AllocError>
    ensures { IfOk result (λ text. string_bytes text ≡ spec.diagnostic_lines uri.now diagnostics.now) }
{
    let mut text = String::new(alloc);
    for diagnostic in diagnostics {
        let line = diagnostic_line(alloc, uri, diagnostic)?;
        text.push_str(line.as_str())?;
    }
    Ok(text)
}

/// The line of a diagnostic: where it starts, and what is found there.
fn diagnostic_line(alloc: Global, uri: &str, diagnostic: &Diagnostic) -> Result<String, AllocError>
    ensures { IfOk result (λ text. string_bytes text ≡ spec.diagnostic_line uri.now diagnostic.now) }
{
    let at = place_text(alloc, diagnostic.range.start)?;
    let finding = finding_text(alloc, diagnostic)?;
    format!(in alloc; "{uri}:{at}: {finding}\n")
}

/// Whether a diagnostic is an Error, its code and its text.
fn finding_text(alloc: Global, diagnostic: &Diagnostic) -> Result<String, AllocError>
    ensures { IfOk result (λ text. string_bytes text ≡ spec.finding_text diagnostic.now) }
{
    let kind = kind_of(diagnostic.severity);
    let code = diagnostic.code;
    let message = diagnostic.message.as_str();
    format!(in alloc; "{kind} {code} {message}")
}

/// The word for a severity.
fn kind_of(severity: u8) -> &'static str
    ensures { result.now ≡ spec.kind_of severity }
{
    if severity == ERROR {
        "error"
    } else {
        "warning"
    }
}

/// The diagnostic of a file that isn't UTF-8, at its begin.
pub fn not_utf8(alloc: Global) -> Mem<Diagnostic>
    ensures { IfOk result (λ diagnostic. diagnostic ≡ spec.not_utf8) }
{
    Ok(Diagnostic {
        range: Range {
            start: START,
            end: START,
        },
        code: NOT_UTF8,
        severity: ERROR,
        message: Text::of(alloc, "not UTF-8")?,
    })
}

/// Whether one of the diagnostics is an Error.
pub fn has_error(diagnostics: &[Diagnostic]) -> bool
    ensures { result ≡ spec.has_error diagnostics.now }
{
    diagnostics
        .iter()
        .any(|diagnostic| diagnostic.severity == ERROR)
}
