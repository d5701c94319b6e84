//! The requirements of `cond-expand` (R7RS 4.2.1), and which of its clauses is chosen.
ghost use Rattle.std.specs.Prelude.{◌≡◌, ◌&&◌, ◌||◌, ℕ, List, Option, IfOk};
ghost use Rattle.scheme_model.specs.declared.Occ.{Occ};
ghost use Rattle.scheme_model.specs.Trees.{Trees, Tail, list as list_tree};
ghost use Rattle.scheme_model.specs.Requirements.{Known, holds, all_hold, some_holds, none_holds, is_else, clause_holds};
ghost use Rattle.datum_reader.specs.Looks.{tree_at, trees_at, is_dotted};
ghost use Rattle.known_libraries.specs.PartsRead.{Knows, Reads};
ghost use Rattle.known_libraries.specs.Chosen.{library_holds, connective_named, word_holds, is_empty};

use crate::library_names::library_name;
use datum_reader::Datum;
use datum_reader::look::{Look, Row, look_at, row_of, symbol_in};
use datum_reader::shape_fault::ShapeFault;
use std::alloc::Global;
use std::collections::BTreeSet;

/// What a requirement that is a list says by its word.
#[derive(Clone, Copy)]
pub enum Connective {
    And,
    Or,
    Not,
    Library,
    Unknown,
}

fn connective_in(word: &str) -> Connective
    ensures { result ≡ connective_named word.now }
{
    if word == "and" {
        return Connective::And;
    }
    if word == "or" {
        return Connective::Or;
    }
    if word == "not" {
        return Connective::Not;
    }
    if word == "library" {
        return Connective::Library;
    }
    Connective::Unknown
}

/// Whether there is the one library that is named.
fn library_holds(
    alloc: Global,
    known: &BTreeSet<String>,
    parts: &[Datum],
) -> Result<bool, ShapeFault>
    ensures { (has : Known) → Knows known.now has → (place : ℕ → Occ) →
        Reads (λ b. b) result (library_holds has (trees_at place parts.now)) }
{
    match row_of(parts) {
        Row::Empty => Err(ShapeFault::BadForm),
        Row::Parts(first, rest) => {
            if !rest.is_empty() {
                return Err(ShapeFault::BadForm);
            }
            let name = library_name(alloc, first)?;
            Ok(known.contains(name.as_str()))
        }
    }
}

/// Whether a requirement holds.
#[cycle(requirements)]
fn holds(alloc: Global, known: &BTreeSet<String>, datum: &Datum) -> Result<bool, ShapeFault>
    ensures { (has : Known) → Knows known.now has → (place : ℕ → Occ) →
        Reads (λ b. b) result (holds (λ s. s) has (tree_at place datum.now)) }
{
    match look_at(datum) {
        Look::Name(word) => Ok(word == "r7rs"),
        Look::Implied(word) => Ok(word == "r7rs"),
        Look::List(parts, dotted) => list_holds(alloc, known, parts, dotted),
        Look::Numeral(_) => Err(ShapeFault::BadForm),
        Look::Other => Err(ShapeFault::BadForm),
    }
}

/// Whether a requirement that is a list holds.
#[cycle(requirements)]
fn list_holds(
    alloc: Global,
    known: &BTreeSet<String>,
    parts: &[Datum],
    dotted: bool,
) -> Result<bool, ShapeFault>
    ensures { (has : Known) → Knows known.now has → (place : ℕ → Occ) (end : Tail (List ℕ)) (o : Option Occ) → is_dotted end ≡ dotted →
        Reads (λ b. b) result (holds (λ s. s) has (list_tree (trees_at place parts.now) end o)) }
{
    if dotted {
        return Err(ShapeFault::BadForm);
    }
    match row_of(parts) {
        Row::Empty => Err(ShapeFault::BadForm),
        Row::Parts(head, rest) => match symbol_in(head) {
            None => Err(ShapeFault::BadForm),
            Some(word) => word_holds(alloc, known, word, rest),
        },
    }
}

/// Whether a requirement that begins with a word holds.
#[cycle(requirements)]
fn word_holds(
    alloc: Global,
    known: &BTreeSet<String>,
    word: &str,
    parts: &[Datum],
) -> Result<bool, ShapeFault>
    ensures { (has : Known) → Knows known.now has → (place : ℕ → Occ) →
        Reads (λ b. b) result (word_holds has word.now (trees_at place parts.now)) }
{
    match connective_in(word) {
        Connective::And => all_hold(alloc, known, parts),
        Connective::Or => some_holds(alloc, known, parts),
        Connective::Not => none_holds(alloc, known, parts),
        Connective::Library => library_holds(alloc, known, parts),
        Connective::Unknown => Err(ShapeFault::BadForm),
    }
}

/// Whether all requirements hold. Each of them has a shape.
#[cycle(requirements)]
fn all_hold(alloc: Global, known: &BTreeSet<String>, parts: &[Datum]) -> Result<bool, ShapeFault>
    ensures { (has : Known) → Knows known.now has → (place : ℕ → Occ) →
        Reads (λ b. b) result (all_hold (λ s. s) has (trees_at place parts.now)) }
{
    let mut hold = true;
    for part in parts {
        let here = holds(alloc, known, part)?;
        let next = hold & here;
        hold = next;
    }
    Ok(hold)
}

/// Whether some requirement holds. Each of them has a shape.
#[cycle(requirements)]
fn some_holds(alloc: Global, known: &BTreeSet<String>, parts: &[Datum]) -> Result<bool, ShapeFault>
    ensures { (has : Known) → Knows known.now has → (place : ℕ → Occ) →
        Reads (λ b. b) result (some_holds (λ s. s) has (trees_at place parts.now)) }
{
    let mut hold = false;
    for part in parts {
        let here = holds(alloc, known, part)?;
        let next = hold | here;
        hold = next;
    }
    Ok(hold)
}

/// Whether the one requirement doesn't hold.
#[cycle(requirements)]
fn none_holds(alloc: Global, known: &BTreeSet<String>, parts: &[Datum]) -> Result<bool, ShapeFault>
    ensures { (has : Known) → Knows known.now has → (place : ℕ → Occ) →
        Reads (λ b. b) result (none_holds (λ s. s) has (trees_at place parts.now)) }
{
    match row_of(parts) {
        Row::Empty => Err(ShapeFault::BadForm),
        Row::Parts(first, rest) => {
            if !rest.is_empty() {
                return Err(ShapeFault::BadForm);
            }
            let here = holds(alloc, known, first)?;
            Ok(!here)
        }
    }
}

/// Whether the requirement of a clause holds, which may be `else` in the last one.
pub fn clause_holds(
    alloc: Global,
    known: &BTreeSet<String>,
    datum: &Datum,
    last: bool,
) -> Result<bool, ShapeFault>
    ensures { (has : Known) → Knows known.now has → (place : ℕ → Occ) (later : Trees (List ℕ)) → is_empty later ≡ last →
        Reads (λ b. b) result (clause_holds (λ s. s) has (tree_at place datum.now) later) }
{
    if is_else(datum) {
        if last {
            return Ok(true);
        }
        return Err(ShapeFault::BadForm);
    }
    holds(alloc, known, datum)
}

/// Whether a datum is the identifier `else`.
fn is_else(datum: &Datum) -> bool
    ensures { (place : ℕ → Occ) → result ≡ is_else (λ s. s) (tree_at place datum.now) }
{
    match symbol_in(datum) {
        None => false,
        Some(word) => word == "else",
    }
}
