//! What is found wrong, with its place, its code and its text.
ghost use Rattle.std.specs.Prelude.{◌≡◌, ◌<◌, map, IfOk};
ghost use Rattle.scheme_model.specs.Diagnostics.{is_empty};
ghost use Rattle.core_tree.specs.Units.{error_as};
ghost use Rattle.read_documents.specs.Findings.{all_told, errors_in};
ghost use Rattle.read_documents.specs.Listed.{severity_of};
ghost use Rattle.scheme_model.specs.DiagnosticTexts.{worded};

use crate::wording::message;
use core_tree::units::UnitError;
use ls_base::{Items, Mem, Span, Text};
use std::alloc::Global;
use std::collections::BTreeMap;

/// A document, by its place, and bytes in it.
#[derive(Clone, Copy)]
pub struct At {
    pub document: usize,
    pub span: Span,
}

impl At {
    /// Bytes of a document.
    pub fn new(document: usize, span: Span) -> At
        ensures { result ≡ record { document = document; span = span } }
    {
        At { document, span }
    }
}

/// What is wrong in a form, and where, unless what it names has no place.
#[derive(Drop)]
pub struct Finding {
    pub at: Option<At>,
    pub form: u32,
    pub code: u32,
    pub message: Text,
}

/// Codes from here on are warnings.
const FIRST_WARNING: u32 = 100;

impl Finding {
    ghost use Rattle.std.specs.Prelude.{Some};
    ghost use Rattle.read_documents.specs.declared.findings.At.{At};
    ghost use Rattle.read_documents.specs.Findings.{error_place};

    /// A finding, by its code and what it names.
    pub fn new(alloc: Global, at: Option<At>, form: u32, code: u32, name: &str) -> Mem<Finding>
        ensures { IfOk result (λ found. found ≡ record { at = at; form = form; code = code; message = worded code name.now }) }
    {
        Ok(Finding {
            at,
            form,
            code,
            message: message(alloc, code, name)?,
        })
    }

    /// The place of an Error; none of a warning.
    pub fn error_at(&self) -> Option<At>
        ensures exact { result ≡ error_place self.now }
        ensures place { (at : At) → result ≡ Some at → self.now.at ≡ Some at }
    {
        if self.code < FIRST_WARNING {
            self.at
        } else {
            None
        }
    }
}

/// The severity of a code (LSP 3.17, DiagnosticSeverity).
pub fn severity(code: u32) -> u8
    ensures { result ≡ severity_of code }
{
    if code < FIRST_WARNING { 1 } else { 2 }
}

/// The Errors among findings, by their codes and forms.
pub fn errors(alloc: Global, findings: &[Finding]) -> Mem<Items<UnitError>>
    ensures { IfOk result (λ errors. map error_as errors ≡ errors_in findings.now) }
{
    let mut errors = Items::new(alloc);
    for Finding { form, code, .. } in findings {
        if *code < FIRST_WARNING {
            errors.push(UnitError {
                code: *code,
                form: *form,
            })?;
        }
    }
    Ok(errors)
}

/// Whether none of the findings has a place.
pub fn none_placed(findings: &[Finding]) -> bool
    ensures { result ≡ is_empty (all_told findings.now) }
{
    for finding in findings {
        if finding.at.is_some() {
            return false;
        }
    }
    true
}

/// A start, a code and a message, by which the findings of a document are in order.
pub type Key = (u32, u32, Text);

/// The findings of a document, with their ends.
pub type Sorted = BTreeMap<Key, u32>;
