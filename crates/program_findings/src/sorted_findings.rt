//! Of each document its findings in order, each once, and the first Error among findings.
ghost use Rattle.std.specs.Prelude.{◌≡◌, ◌<◌, ◌++◌, ℕ, List, [], vec_len, IfOk, IfSome, OnOk};
ghost use Rattle.scheme_model.specs.Diagnostics.{Diagnostic};
ghost use Rattle.read_documents.specs.Findings.{AreKept, all_told, told, first_error_in, diagnostic, stands_first};
ghost use Rattle.read_documents.specs.Places.{AreFoundIn, IsAtIn};

use ls_base::Mem;
use read_documents::findings::{At, Finding, Sorted};
use read_documents::wording::message;
use std::alloc::Global;
use std::collections::BTreeMap;

/// No findings for each of so many documents.
pub fn none(alloc: Global, count: usize) -> Mem<Vec<Sorted>>
    ensures count { IfOk result (λ all. vec_len all ≡ count) }
    ensures kept { IfOk result (λ all. AreKept [] all.items) }
{
    let mut all = Vec::new(alloc);
    for _ in 0..count {
        all.push(BTreeMap::new(alloc))?;
    }
    Ok(all)
}

/// Adds those findings that have a place to the others of its document. Of equal ones the last stays.
pub fn add(all: &mut Vec<Sorted>, findings: Vec<Finding>) -> Mem<()>
    requires { AreFoundIn (vec_len all.old) findings.items }
    ensures count { OnOk result (vec_len all.new ≡ vec_len all.old) }
    ensures kept { (ds : List Diagnostic) → AreKept ds all.old.items → OnOk result (AreKept (ds ++ all_told findings.items) all.new.items) }
{
    for finding in findings {
        add_one(all, finding)?;
    }
    Ok(())
}

/// Adds a finding, where it has a place, to the others of its document.
fn add_one(all: &mut Vec<Sorted>, finding: Finding) -> Mem<()>
    requires { IsAtIn (vec_len all.old) finding.at }
    ensures count { OnOk result (vec_len all.new ≡ vec_len all.old) }
    ensures kept { (ds : List Diagnostic) → AreKept ds all.old.items → OnOk result (AreKept (ds ++ told finding) all.new.items) }
{
    let Finding {
        at,
        code,
        message,
        ..
    } = finding;
    if let Some(At { document, span }) = at {
        all[document].insert((span.start, code, message), span.end)?;
    }
    Ok(())
}

/// The first Error that has a place, by document, start, code and message; of equal ones the last.
pub fn first_error(findings: &[Finding]) -> Option<(At, u32)>
    ensures first { result ≡ first_error_in findings.now }
    ensures inside { (count : ℕ) → AreFoundIn count findings.now → IfSome result (λ e. e.0.document < count) }
{
    let mut first: Option<(At, &Finding)> = None;
    for finding in findings {
        if let Some(at) = finding.error_at() {
            if stands_first(at, finding, first) {
                first = Some((at, finding));
            }
        }
    }
    let (at, finding) = first?;
    Some((at, finding.code))
}

/// Whether an Error isn't behind the first so far.
fn stands_first(at: At, finding: &Finding, first: Option<(At, &Finding)>) -> bool
    ensures { result ≡ stands_first (diagnostic at finding.now.code finding.now.message) first.entry }
{
    let Some((before, other)) = first else {
        return true;
    };
    at.document
        .cmp(&before.document)
        .then(at.span.start.cmp(&before.span.start))
        .then(finding.code.cmp(&other.code))
        .then(finding.message.as_str().cmp(other.message.as_str()))
        .is_le()
}

/// Findings, one behind the other.
pub fn append(all: &mut Vec<Finding>, more: Vec<Finding>) -> Mem<()>
    ensures { OnOk result (all.new.items ≡ all.old.items ++ more.items) }
{
    for finding in more {
        all.push(finding)?;
    }
    Ok(())
}
