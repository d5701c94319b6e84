//! Import sets as they are written (R7RS 5.2).
ghost use Rattle.std.specs.Prelude.{◌≡◌, List, ℕ, IfOk, Option};
ghost use Rattle.std.specs.Option.{is_some};
ghost use Rattle.scheme_model.specs.declared.Occ.{Occ};
ghost use Rattle.scheme_model.specs.Trees.{Tail};
ghost use Rattle.scheme_model.specs.Data.{Datum as ModelDatum, row};
ghost use Rattle.scheme_model.specs.Entries.{ImportSet as ModelSet, modifier_named, set_of, library_set, modified_set};
ghost use Rattle.scheme_model.specs.Program.{library_datum, second_or, spec_of};
ghost use Rattle.scheme_model.specs.Declarations.{list_parts, proper_parts};
ghost use Rattle.datum_reader.specs.Views.{datum_of, data_of};
ghost use Rattle.datum_reader.specs.Looks.{tree_at, trees_at, is_dotted, bytes_of, end_with, symbol_now, IsListOf};
ghost use Rattle.datum_reader.specs.Forms.{place};
ghost use Rattle.unit_sources.specs.SetsRead.{modifier_as, modifier_seen, modifier_for, IsModified, IsModifiedBy, IsSetText, IsSetMade, inner_datum, IsImportSpec};
ghost use Rattle.datum_reader.specs.Looks.{is_list};

use crate::names::{names_in, only_name, pairs_in};
use crate::units::ImportSpec;
use datum_reader::Datum;
use datum_reader::heads::{is_list, second_or_itself};
use datum_reader::look::{Look, Row, look_at, row_of, symbol_in};
use datum_reader::shape_fault::ShapeFault;
use import_sets::ImportSet;
use known_libraries::library_names::library_name;
use ls_base::{Mem, Memory, Span};
use scheme_model::Home;
use std::alloc::Global;

/// The words that make a list with a list as its second part a modifier.
#[derive(Clone, Copy)]
enum Modifier {
    Only,
    Except,
    Prefix,
    Rename,
}

/// A modifier, the set that it is of, and what stands behind that.
#[derive(Clone, Copy)]
struct Modified<'a> {
    modifier: Modifier,
    inner: &'a Datum,
    rest: &'a [Datum],
}

/// The modifier of a word.
fn modifier_named(word: Option<&str>) -> Option<Modifier>
    ensures { modifier_seen result ≡ modifier_for (symbol_now word.entry) }
{
    match word {
        None => None,
        Some(word) => modifier_of(word),
    }
}

fn modifier_of(word: &str) -> Option<Modifier>
    ensures { modifier_seen result ≡ modifier_named word.now }
{
    if word == "only" {
        return Some(Modifier::Only);
    }
    if word == "except" {
        return Some(Modifier::Except);
    }
    if word == "prefix" {
        return Some(Modifier::Prefix);
    }
    if word == "rename" {
        return Some(Modifier::Rename);
    }
    None
}

/// The modifier that a list is by its parts, if it is one.
fn modified_in(parts: &[Datum]) -> Option<Modified<'_>>
    ensures { IsModified result parts.now }
{
    match row_of(parts) {
        Row::Empty => None,
        Row::Parts(head, behind) => match row_of(behind) {
            Row::Empty => None,
            Row::Parts(inner, rest) => modified_by(modifier_named(symbol_in(head)), inner, rest),
        },
    }
}

/// A modifier of a list.
fn modified_by<'a>(
    modifier: Option<Modifier>,
    inner: &'a Datum,
    rest: &'a [Datum],
) -> Option<Modified<'a>>
    ensures { IsModifiedBy modifier inner.now rest.now result }
{
    match modifier {
        None => None,
        Some(modifier) => {
            if !is_list(inner) {
                return None;
            }
            Some(Modified {
                modifier,
                inner,
                rest,
            })
        }
    }
}

/// What a modifier makes of a set.
fn modified_set(
    alloc: Global,
    modifier: Modifier,
    set: ImportSet,
    rest: &[Datum],
    dotted: bool,
    home: Home,
) -> Result<ImportSet, ShapeFault>
    ensures { (inner : ModelSet) (end : Tail (List ℕ)) → IsSetText set inner → is_dotted end ≡ dotted →
        IsSetMade result (modified_set (modifier_as modifier) inner (trees_at (place home) rest.now) end) }
{
    match modifier {
        Modifier::Only => {
            let names = names_in(alloc, rest, dotted, home)?;
            let set = Box::new(alloc, set)?;
            Ok(ImportSet::Only { set, names })
        }
        Modifier::Except => {
            let names = names_in(alloc, rest, dotted, home)?;
            let set = Box::new(alloc, set)?;
            Ok(ImportSet::Except { set, names })
        }
        Modifier::Prefix => {
            let prefix = only_name(alloc, rest, dotted, home)?.name;
            let set = Box::new(alloc, set)?;
            Ok(ImportSet::Prefix { set, prefix })
        }
        Modifier::Rename => {
            let pairs = pairs_in(alloc, rest, dotted, home)?;
            let set = Box::new(alloc, set)?;
            Ok(ImportSet::Rename { set, pairs })
        }
    }
}

/// A set, or `Bad` where it has no shape.
fn or_bad(read: Result<ImportSet, ShapeFault>) -> Mem<ImportSet>
    ensures { (s : ModelSet) → IsSetMade read s → IfOk result (λ set. IsSetText set s) }
{
    match read {
        Ok(set) => Ok(set),
        Err(ShapeFault::BadForm) => Ok(ImportSet::Bad),
        Err(ShapeFault::Memory) => Err(Memory),
    }
}

/// A library's name as a set.
fn library_set(alloc: Global, datum: &Datum) -> Mem<ImportSet>
    ensures { (at : ℕ → Occ) → IfOk result (λ set. IsSetText set (library_set (tree_at at datum.now))) }
{
    match library_name(alloc, datum) {
        Ok(name) => Ok(ImportSet::Library(name)),
        Err(ShapeFault::BadForm) => Ok(ImportSet::Bad),
        Err(ShapeFault::Memory) => Err(Memory),
    }
}

/// An import set.
#[cycle(sets)]
fn set_of(alloc: Global, datum: &Datum, home: Home) -> Mem<ImportSet>
    ensures { IfOk result (λ set. IsSetText set (set_of (tree_at (place home) datum.now))) }
{
    match look_at(datum) {
        Look::List(parts, dotted) => set_of_list(alloc, datum, parts, dotted, home),
        Look::Name(_) => Ok(ImportSet::Bad),
        Look::Implied(_) => Ok(ImportSet::Bad),
        Look::Numeral(_) => Ok(ImportSet::Bad),
        Look::Other => Ok(ImportSet::Bad),
    }
}

/// An import set that is a list with these parts.
#[cycle(sets)]
fn set_of_list(
    alloc: Global,
    datum: &Datum,
    parts: &[Datum],
    dotted: bool,
    home: Home,
) -> Mem<ImportSet>
    requires { IsListOf parts.now dotted (datum_of datum.now) }
    ensures { IfOk result (λ set. IsSetText set (set_of (tree_at (place home) datum.now))) }
{
    match modified_in(parts) {
        None => library_set(alloc, datum),
        Some(found) => {
            let inner = set_of(alloc, found.inner, home)?;
            or_bad(modified_set(alloc, found.modifier, inner, found.rest, dotted, home))
        }
    }
}

/// The bytes of the library's name of a set.
fn library_span(set: &ImportSet, datum: &Datum) -> Span
    ensures { (s : ModelSet) → IsSetText set.now s → result ≡ bytes_of (library_datum s (datum_of datum.now)) }
{
    match set {
        ImportSet::Library(_) => datum.span,
        ImportSet::Only { set, .. } => library_span(set, second_or_itself(datum)),
        ImportSet::Except { set, .. } => library_span(set, second_or_itself(datum)),
        ImportSet::Prefix { set, .. } => library_span(set, second_or_itself(datum)),
        ImportSet::Rename { set, .. } => library_span(set, second_or_itself(datum)),
        ImportSet::Bad => datum.span,
    }
}

/// The bytes of the set inside the outermost modifier of a set, or of the set itself.
fn inner_span(set: &ImportSet, datum: &Datum) -> Span
    ensures { (s : ModelSet) → IsSetText set.now s → result ≡ bytes_of (inner_datum s (datum_of datum.now)) }
{
    match set {
        ImportSet::Library(_) => datum.span,
        ImportSet::Only { .. } => second_or_itself(datum).span,
        ImportSet::Except { .. } => second_or_itself(datum).span,
        ImportSet::Prefix { .. } => second_or_itself(datum).span,
        ImportSet::Rename { .. } => second_or_itself(datum).span,
        ImportSet::Bad => datum.span,
    }
}

/// An import set of a form, with its places in the text.
pub fn spec_of(alloc: Global, datum: &Datum, home: Home) -> Mem<ImportSpec>
    ensures { IfOk result (λ spec. IsImportSpec spec (spec_of home.unit home.form home.first (datum_of datum.now))) }
{
    let set = set_of(alloc, datum, home)?;
    let inner = inner_span(&set, datum);
    let library = library_span(&set, datum);
    Ok(ImportSpec {
        unit: home.unit,
        set,
        span: datum.span,
        inner,
        library,
    })
}
