//! What documents name, directly or not: how many that are, and whether a document is among them itself.
ghost use Rattle.std.specs.Prelude.{◌≡◌, ◌<◌, ◌&&◌, ℕ, List, length, true, IfOk};
ghost use Rattle.std.specs.List.{list_any};
ghost use Rattle.scheme_model.specs.Includes.{Naming, is_among, named_by, with_named};
ghost use Rattle.nesting_laws.specs.Onward.{onward};
ghost use Rattle.text_parts.specs.Places.{Each};
ghost use Rattle.text_parts.specs.Marks.{AreNext, Marks, Rows, marked};
ghost use Rattle.text_parts.specs.Parts.{IsReach};

use crate::marks::{is_marked, mark_count};
use ls_base::{Items, Mem};
use std::alloc::Global;

/// Whether a document names itself, directly or not, and how many documents it names so.
#[derive(Clone, Copy)]
pub struct Reach {
    pub on_circle: bool,
    pub count: usize,
}

/// Whether a document is marked and names the one at a place.
fn names_marked(marks: &[bool], document: usize, row: &[bool], place: usize) -> bool
    ensures { result ≡ (marked marks.now document && marked row.now place) }
{
    if !is_marked(marks, document) {
        return false;
    }
    is_marked(row, place)
}

/// Whether one of the marked documents names the one at a place.
fn is_named(rows: &[Items<bool>], marks: &[bool], place: usize) -> bool
    ensures { (all : Naming) (ns : List ℕ) → Rows rows.now all → Marks marks.now (length all) ns → place < length all → result ≡ list_any (λ m. is_among (named_by all m) place) ns }
{
    for (document, row) in rows.iter().enumerate() {
        if names_marked(marks, document, row.as_slice(), place) {
            return true;
        }
    }
    false
}

/// Whether the document at a place is marked, or named by one that is.
fn is_found(rows: &[Items<bool>], marks: &[bool], place: usize) -> bool
    ensures { (all : Naming) (ns : List ℕ) → Rows rows.now all → Marks marks.now (length all) ns → place < length all → result ≡ is_among (with_named all 0 all ns) place }
{
    if is_marked(marks, place) {
        return true;
    }
    is_named(rows, marks, place)
}

/// The marked documents, and those that they name.
fn with_named(alloc: Global, rows: &[Items<bool>], marks: &[bool]) -> Mem<Vec<bool>>
    ensures { (all : Naming) (ns : List ℕ) → Rows rows.now all → Marks marks.now (length all) ns → IfOk result (λ more. Marks more.items (length all) (with_named all 0 all ns)) }
{
    let mut more = Vec::new(alloc);
    for place in 0..rows.len() {
        more.push(is_found(rows, marks, place))?;
    }
    Ok(more)
}

/// Whether the same documents are marked.
fn are_same(marks: &[bool], others: &[bool]) -> bool
    ensures { result ≡ true → (k : ℕ) → k < length marks.now → marked marks.now k ≡ marked others.now k }
{
    for (place, mark) in marks.iter().enumerate() {
        if *mark != is_marked(others, place) {
            return false;
        }
    }
    true
}

/// The marks behind a step, if it finds more.
fn next_marks(alloc: Global, rows: &[Items<bool>], marks: &[bool]) -> Mem<Option<Vec<bool>>>
    ensures { (all : Naming) (ns : List ℕ) → Rows rows.now all → Marks marks.now (length all) ns → IfOk result (λ next. AreNext marks.now (length all) (with_named all 0 all ns) next) }
{
    let found = with_named(alloc, rows, marks)?;
    if are_same(marks, found.as_slice()) {
        return Ok(None);
    }
    Ok(Some(found))
}

/// The documents that the one at a place names.
fn named(alloc: Global, rows: &[Items<bool>], document: usize) -> Mem<Vec<bool>>
    requires { document < length rows.now }
    ensures { (all : Naming) → Rows rows.now all → IfOk result (λ marks. Marks marks.items (length all) (named_by all document)) }
{
    Ok(rows[document].as_slice().to_vec(alloc)?)
}

/// The documents that the one at a place names, directly or not.
fn onward(alloc: Global, rows: &[Items<bool>], document: usize) -> Mem<Vec<bool>>
    requires { document < length rows.now }
    ensures { (all : Naming) → Rows rows.now all → IfOk result (λ marks. Marks marks.items (length all) (onward all document)) }
{
    let mut marks = named(alloc, rows, document)?;
    for _step in 0..rows.len() {
        match next_marks(alloc, rows, marks.as_slice())? {
            None => return Ok(marks),
            Some(more) => marks = more,
        }
    }
    Ok(marks)
}

/// How far a document names others, by the marks of those that it names.
fn reach_by(marks: &[bool], document: usize) -> Reach
    ensures { (all : Naming) → Marks marks.now (length all) (onward all document) → document < length all → IsReach all document result }
{
    let on_circle = is_marked(marks, document);
    let count = mark_count(marks);
    Reach { on_circle, count }
}

/// How far the document at a place names others.
fn reach_of(alloc: Global, rows: &[Items<bool>], document: usize) -> Mem<Reach>
    requires { document < length rows.now }
    ensures { (all : Naming) → Rows rows.now all → IfOk result (IsReach all document) }
{
    let marks = onward(alloc, rows, document)?;
    Ok(reach_by(marks.as_slice(), document))
}

/// How far each document names others.
pub fn reaches(alloc: Global, rows: &[Items<bool>]) -> Mem<Vec<Reach>>
    ensures size { IfOk result (λ reaches. length reaches.items ≡ length rows.now) }
    ensures each { (all : Naming) → Rows rows.now all → IfOk result (λ reaches. Each (IsReach all) reaches.items) }
{
    let mut reaches = Vec::new(alloc);
    for document in 0..rows.len() {
        reaches.push(reach_of(alloc, rows, document)?)?;
    }
    Ok(reaches)
}
