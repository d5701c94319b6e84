//! The units of the documents, in their order (R7RS 5.1, 5.6): the libraries of a document, and then its program.
ghost use Rattle.std.specs.Prelude.{◌≡◌, ℕ, ◌+◌, ◌<◌, ◌^◌, [], ◌∷◌, List, true, false, length, map, nat_le, if◌then◌else◌, Some, IfOk, OnOk};
ghost use Rattle.scheme_model.specs.Declarations.{unit_or, is_library};
ghost use Rattle.scheme_model.specs.Included.{Sources, all_texts};
ghost use Rattle.scheme_model.specs.IncludedUnits.{UnitSource as Source, unless_circular, library_of, libraries_in, program_in, units_with};
ghost use Rattle.scheme_model.specs.Includes.{Document as ModelDocument, naming, program_data, max_units};
ghost use Rattle.scheme_model.specs.Program.{known_in};
ghost use Rattle.scheme_model.specs.Requirements.{LibraryName};
ghost use Rattle.core_tree.specs.Units.{ranges_from};
ghost use Rattle.datum_reader.specs.Views.{datum_of, data_of};
ghost use Rattle.datum_reader.specs.WellFormed.{WasRead};
ghost use Rattle.known_libraries.specs.PartsRead.{Knows};
ghost use Rattle.unit_sources.specs.UnitsRead.{forms_of};
ghost use Rattle.document_units.specs.Sound.{IsSound};
ghost use Rattle.read_documents.specs.DataRead.{AreOpened, AreReadIn, DataWereRead, data_at};
ghost use Rattle.document_units.specs.Listing.{IsReader, IsAt, AreAt, CanRead, CanReadIn, CanReadAll, IsOneOf, BeginsWith, IsWholeOf};
ghost use Rattle.document_units.specs.UnitsListed.{AddsRead, AreSoFar, AreUnitsListed, IsBlank, IsReadFor, WritesProper, without_standard};
ghost use Rattle.read_documents.specs.WereRead.{WereRead};
ghost use Rattle.read_documents.specs.declared.heads.WholeFault.TheVariants as fault;

use crate::identifiers::names_of;
use crate::included::{Reader, items_in, place_of, reader_of, texts_of, uris_of, views_of};
use crate::known::{has_standard_name, library_name};
use core_tree::units::TokenRange;
use datum_reader::Datum;
use datum_reader::heads::{first_token, is_headed};
use known_libraries::KnownLibraries;
use library_table::{first_of_program, read_part, read_program, read_unit};
use ls_base::limits::MAX_UNITS;
use ls_base::{Items, Mem, Memory, Span, Text};
use read_documents::documents::Document;
use read_documents::heads::{Head, WholeFault};
use scheme_model::{Home, Occ};
use std::alloc::Global;
use syntax_tree::units::UnitKind;
use text_parts::{TextPart, text_parts};
use unit_sources::{LibraryFault, UnitForm, UnitSource};

/// The units in their order: their heads and their sources. The source of a unit that isn't read has no name.
#[derive(Drop)]
pub struct Units {
    pub heads: Vec<Head>,
    pub sources: Vec<UnitSource>,
}

/// The units of all documents.
pub fn list_units(alloc: Global, documents: &[Document], known: &KnownLibraries) -> Mem<Units>
    requires { AreReadIn documents.now }
    ensures sound { IfOk result (IsSound (length documents.now)) }
    // The units are those of the documents' data.
    ensures listed { (ds : List ModelDocument) → AreOpened ds documents.now → Knows known.now.names (known_in ds) → (spelled : LibraryName → List ℕ) → WritesProper spelled →
        IfOk result (AreUnitsListed spelled ds) }
{
    let uris = uris_of(alloc, documents)?;
    let views = views_of(alloc, documents)?;
    let parts = text_parts(alloc, views.as_slice(), &uris)?;
    let texts = texts_of(alloc, documents, parts.documents.as_slice())?;
    let reader = reader_of(alloc, known, &uris, texts.as_slice(), &parts)?;
    add_documents(alloc, documents, parts.documents.as_slice(), &reader)
}

/// The units of documents that are this to one another.
fn add_documents<'a>(
    alloc: Global,
    documents: &'a [Document],
    parts: &[TextPart],
    reader: &Reader<'a>,
) -> Mem<Units>
    requires read { AreReadIn documents.now }
    requires parts { length parts.now ≡ length documents.now }
    requires can { CanReadAll reader.now documents.now parts.now }
    ensures sound { IfOk result (IsSound (length documents.now)) }
    ensures listed { (o : Sources) → IsReader o reader.now → AreAt o documents.now parts.now → length o.documents ≡ length documents.now → (spelled : LibraryName → List ℕ) → WritesProper spelled →
        IfOk result (AreSoFar o.documents spelled (units_with o (naming o.documents))) }
{
    let mut units = Units {
        heads: Vec::new(alloc),
        sources: Vec::new(alloc),
    };
    for (place, document) in documents.iter().enumerate() {
        let number = place_of(place)?;
        let items = items_in(document);
        add_libraries(alloc, &mut units, number, items, parts[place], reader)?;
        add_program(alloc, &mut units, number, items, parts[place], reader)?;
    }
    Ok(units)
}

/// Adds the libraries of a document.
fn add_libraries<'a>(
    alloc: Global,
    units: &mut Units,
    document: u32,
    items: &'a [Datum],
    part: TextPart,
    reader: &Reader<'a>,
) -> Mem<()>
    requires units { IsSound (document + 1) units.old }
    requires read { DataWereRead items.now }
    requires can { CanRead reader.now document items.now part }
    ensures sound { OnOk result (IsSound (document + 1) units.new) }
    ensures added { (o : Sources) → IsReader o reader.now → IsAt o document items.now part →
        OnOk result (AddsRead o.documents document (map (unless_circular part.on_circle) (libraries_in (all_texts o) o.known document (data_of items.now))) units.old units.new) }
{
    for datum in items {
        add_library(alloc, units, document, datum, part.on_circle, reader)?;
    }
    Ok(())
}

/// Adds the library that a datum is, if it is one.
fn add_library<'a>(
    alloc: Global,
    units: &mut Units,
    document: u32,
    datum: &'a Datum,
    circular: bool,
    reader: &Reader<'a>,
) -> Mem<()>
    requires units { IsSound (document + 1) units.old }
    requires read { WasRead (datum_of datum.now) }
    requires can { CanReadIn reader.now document }
    ensures sound { OnOk result (IsSound (document + 1) units.new) }
    ensures added { (o : Sources) → IsReader o reader.now → IsOneOf (data_at o.documents document) (datum_of datum.now) →
        OnOk result (AddsRead o.documents document (map (unless_circular circular) (libraries_in (all_texts o) o.known document (datum_of datum.now ∷ []))) units.old units.new) }
{
    if !is_headed("define-library", datum) {
        return Ok(());
    }
    if circular {
        let name = library_name(alloc, datum)?;
        let blank = unread(alloc, UnitKind::Library, first_token(datum));
        let fault = Some(WholeFault::IncludeCycle);
        return Ok(add(alloc, units, document as usize, name, blank, fault)?);
    }
    Ok(add_read_library(alloc, units, document, datum, reader)?)
}

/// Adds the library that a datum is.
fn add_read_library<'a>(
    alloc: Global,
    units: &mut Units,
    document: u32,
    datum: &'a Datum,
    reader: &Reader<'a>,
) -> Mem<()>
    requires units { IsSound (document + 1) units.old }
    requires read { WasRead (datum_of datum.now) }
    requires can { CanReadIn reader.now document }
    requires library { is_library (datum_of datum.now) ≡ true }
    ensures sound { OnOk result (IsSound (document + 1) units.new) }
    ensures added { (o : Sources) → IsReader o reader.now → let d = datum_of datum.now in IsOneOf (data_at o.documents document) d →
        OnOk result (AddsRead o.documents document (library_of (all_texts o) o.known document d ∷ []) units.old units.new) }
{
    let name = library_name(alloc, datum)?;
    let number = units.sources.len() as u32;
    let Reader { documents, table } = reader;
    match read_unit(alloc, documents, table, document, datum, number) {
        Ok(source) => {
            let source = unless_standard(alloc, source)?;
            Ok(add(alloc, units, document as usize, name, source, None)?)
        }
        Err(fault) => {
            let blank = unread(alloc, UnitKind::Library, first_token(datum));
            let fault = Some(whole(fault)?);
            Ok(add(alloc, units, document as usize, name, blank, fault)?)
        }
    }
}

/// Why a unit is broken as a whole that couldn't be read.
fn whole(fault: LibraryFault) -> Mem<WholeFault>
    ensures { IfOk result (IsWholeOf fault) }
{
    match fault {
        LibraryFault::BadDeclaration { unit, span } => {
            Ok(WholeFault::BadDeclaration { unit, span })
        }
        LibraryFault::TooManyTokens => Ok(WholeFault::TooLarge),
        LibraryFault::Memory => Err(Memory),
        LibraryFault::Cycle(_) => Err(Memory),
        LibraryFault::SameLibrary => Err(Memory),
        LibraryFault::NotDefined(_) => Err(Memory),
        LibraryFault::SameExport(_) => Err(Memory),
    }
}

/// The source of a library, without its name where that is standard: such a name means the standard library.
fn unless_standard(alloc: Global, source: UnitSource) -> Mem<UnitSource>
    ensures { IfOk result (λ given. given ≡ without_standard source) }
{
    let mut source = source;
    if has_standard_name(alloc, &source.name)? {
        source.name = None;
    }
    Ok(source)
}

/// The source of a unit that isn't read.
fn unread(alloc: Global, kind: UnitKind, span: Span) -> UnitSource
    ensures kind { result.kind ≡ kind }
    ensures span { result.span ≡ span }
    ensures blank { IsBlank result }
{
    UnitSource {
        kind,
        name: None,
        span,
        imports: Items::new(alloc),
        exports: Items::new(alloc),
        forms: Items::new(alloc),
        lost: Items::new(alloc),
    }
}

/// Adds the program of a document, where it has one.
fn add_program<'a>(
    alloc: Global,
    units: &mut Units,
    document: u32,
    items: &'a [Datum],
    part: TextPart,
    reader: &Reader<'a>,
) -> Mem<()>
    requires units { IsSound (document + 1) units.old }
    requires read { DataWereRead items.now }
    requires can { CanRead reader.now document items.now part }
    ensures sound { OnOk result (IsSound (document + 1) units.new) }
    ensures added { (o : Sources) → IsReader o reader.now → IsAt o document items.now part →
        OnOk result (AddsRead o.documents document (map (unless_circular part.on_circle) (program_in (all_texts o) document part.is_part (program_data (data_of items.now)))) units.old units.new) }
{
    let Some(first) = first_of_program(items) else {
        return Ok(());
    };
    let span = first_token(first);
    if part.on_circle {
        let blank = unread(alloc, UnitKind::Program, span);
        let fault = Some(WholeFault::IncludeCycle);
        return Ok(add(alloc, units, document as usize, None, blank, fault)?);
    }
    if part.is_part {
        let source = read_part(alloc, items, span)?;
        return Ok(add(alloc, units, document as usize, None, source, None)?);
    }
    Ok(add_read_program(alloc, units, document, items, span, reader)?)
}

/// Adds the program of a document that is no part, with its first token's bytes.
fn add_read_program<'a>(
    alloc: Global,
    units: &mut Units,
    document: u32,
    items: &'a [Datum],
    span: Span,
    reader: &Reader<'a>,
) -> Mem<()>
    requires units { IsSound (document + 1) units.old }
    requires read { DataWereRead items.now }
    requires can { CanReadIn reader.now document }
    requires program { BeginsWith span (program_data (data_of items.now)) }
    ensures sound { OnOk result (IsSound (document + 1) units.new) }
    ensures added { (o : Sources) → IsReader o reader.now → data_at o.documents document ≡ data_of items.now →
        OnOk result (AddsRead o.documents document (program_in (all_texts o) document false (program_data (data_of items.now))) units.old units.new) }
{
    let number = units.sources.len() as u32;
    let Reader { documents, table } = reader;
    match read_program(alloc, documents, table, document, items, span, number) {
        Ok(source) => Ok(add(alloc, units, document as usize, None, source, None)?),
        Err(fault) => {
            let blank = unread(alloc, UnitKind::Program, span);
            let fault = Some(whole(fault)?);
            Ok(add(alloc, units, document as usize, None, blank, fault)?)
        }
    }
}

/// Adds a unit. More than a number can tell are answered as want of memory.
fn add(
    alloc: Global,
    units: &mut Units,
    document: usize,
    name: Option<Text>,
    source: UnitSource,
    bad: Option<WholeFault>,
) -> Mem<()>
    requires units { IsSound (document + 1) units.old }
    requires read { WereRead (forms_of source.forms) }
    ensures sound { OnOk result (IsSound (document + 1) units.new) }
    ensures added { (ds : List ModelDocument) (u : Source) → IsReadFor (data_at ds document) (length units.old.sources.items) u name source bad → OnOk result (AddsRead ds document (u ∷ []) units.old units.new) }
{
    let place = units.sources.len();
    if place >= u32::MAX as usize {
        return Err(Memory);
    }
    let fault = fault_at(place, bad);
    units.heads.push(Head {
        document,
        kind: source.kind,
        name,
        span: source.span,
        firsts: firsts_of(alloc, source.forms.as_slice())?,
        homes: homes_of(alloc, place as u32, source.forms.as_slice())?,
        names: names_of(alloc, place as u32, source.forms.as_slice())?,
        ranges: ranges_of(alloc, place as u32, source.forms.as_slice())?,
        imports: Items::new(alloc),
        fault,
    })?;
    units.sources.push(source)?;
    Ok(())
}

/// What breaks a unit whatever the others are: those behind the most are too many.
fn fault_at(place: usize, bad: Option<WholeFault>) -> Option<WholeFault>
    ensures { result ≡ (if nat_le max_units place then Some fault.TooMany else bad) }
{
    if place >= MAX_UNITS {
        return Some(WholeFault::TooMany);
    }
    bad
}

/// The numbers of the first tokens of forms.
fn firsts_of(alloc: Global, forms: &[UnitForm]) -> Mem<Vec<u32>>
    ensures { IfOk result (λ firsts. firsts.items ≡ map (λ f. f.datum.first) forms.now) }
{
    let mut firsts = Vec::new(alloc);
    for form in forms {
        firsts.push(form.datum.first)?;
    }
    Ok(firsts)
}

/// The tokens of the forms of a unit, with the homes of their texts.
fn ranges_of(alloc: Global, unit: u32, forms: &[UnitForm]) -> Mem<Vec<TokenRange>>
    ensures { IfOk result (λ ranges. ranges.items ≡ ranges_from unit 0 (forms_of forms.now)) }
{
    let mut ranges = Vec::new(alloc);
    for (place, form) in forms.iter().enumerate() {
        let number = place_of(place)?;
        ranges.push(TokenRange {
            home: form.home_in(unit, number),
            first: form.datum.first,
            last: form.datum.last,
        })?;
    }
    Ok(ranges)
}

/// The units where the texts of forms of a unit are at home.
fn homes_of(alloc: Global, unit: u32, forms: &[UnitForm]) -> Mem<Vec<u32>>
    ensures { IfOk result (λ homes. homes.items ≡ map (λ f. unit_or unit f.home) forms.now) }
{
    let mut homes = Vec::new(alloc);
    for form in forms {
        homes.push(unit_or(unit, form.home))?;
    }
    Ok(homes)
}

/// The unit of a home, or this one where there is none.
fn unit_or(unit: u32, home: Option<Home>) -> u32
    ensures { result ≡ unit_or unit home }
{
    match home {
        None => unit,
        Some(home) => home.unit,
    }
}
