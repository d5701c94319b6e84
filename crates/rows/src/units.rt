//! Rows of import_sets and library_table: units, what they import and export, and their order.
ghost use Rattle.std.specs.Prelude.{◌<◌, length};

use crate::scopes::{meaning_of, show_meaning};
use datum_reader::heads::first_token;
use datum_reader::{Datum, read_all};
use import_sets::{ImportFault, ImportSet, NamePair, SetName, entries_of};
use included_documents::Uris;
use included_forms::{Documents, Table, Text as ReadText};
use known_libraries::KnownLibraries;
use library_table::{first_of_program, read_program, read_unit};
use ls_base::{Items, Span, Text};
use row_values::argument::{item, list, made, made_bytes, text};
use row_values::fault::{Row, RowFault};
use row_values::shown::Shown;
use scheme_model::Occ;
use serde_json::Value;
use std::alloc::Global;
use syntax_tree::symbols::Symbols;
use syntax_tree::units::{Entry, Origin, UnitKind};
use unit_sources::{
    ExportFault, ExportSpec, ImportSpec, LibraryFault, UnitForm, UnitSource, exports_of, order,
    repeated,
};

/// The most tokens of a unit's forms.
const MAX_TOKENS: u32 = 1_048_576;

/// The most units of a row, and exports of a unit.
const MANY: usize = 1_000;

pub fn answer(out: &mut Shown, call: &str, argument: &Value) -> Row<()> {
    match call {
        "read" => read(out, argument),
        "imports" | "exports" => given(out, call, argument),
        "repeated" | "order" => among(out, call, list(argument)?),
        _ => Err(RowFault::NoCall),
    }
}

/// The program of a text, or where there is none its last library.
fn unit_among(
    alloc: Global,
    documents: &Documents<'_>,
    table: &Table<'_>,
    data: &[Datum],
) -> Row<Result<UnitSource, LibraryFault>>
    requires { 0 < length documents.now.uris.now }
{
    if let Some(first) = first_of_program(data) {
        let span = first_token(first);
        return Ok(read_program(alloc, documents, table, 0, data, span, 0));
    }
    match data.last() {
        Some(datum) => Ok(read_unit(alloc, documents, table, 0, datum, 0)),
        None => Err(RowFault::NotShown),
    }
}

/// The same of a text that is alone, so that its strings mean nothing.
fn unit_of(
    alloc: Global,
    value: &Value,
    known: &Items<Text>,
) -> Row<Result<UnitSource, LibraryFault>> {
    let bytes = made_bytes(alloc, value)?;
    let data = read_all(alloc, made(&bytes)?)?;
    let known = KnownLibraries::of(alloc, known)?;
    let uris = Uris::of(alloc, &["row"])?;
    let texts = [ReadText {
        data: data.as_slice(),
        unit: 0,
    }];
    let documents = Documents {
        limit: MAX_TOKENS,
        known: &known,
        uris: &uris,
        texts: &texts,
    };
    let table = Table::of(alloc, &documents, &[false], &[])?;
    unit_among(alloc, &documents, &table, data.as_slice())
}

/// The same, where it isn't refused.
fn good_unit(alloc: Global, value: &Value) -> Row<UnitSource> {
    match unit_of(alloc, value, &Items::new(alloc))? {
        Ok(unit) => Ok(unit),
        Err(_) => Err(RowFault::NotShown),
    }
}

/// `[TEXT, [KNOWN, ..]]`.
fn read(out: &mut Shown, argument: &Value) -> Row<()> {
    let mut known = Items::new(out.alloc());
    for name in list(item(argument, 1)?)? {
        known.push(Text::of(out.alloc(), text(name)?)?)?;
    }
    match unit_of(out.alloc(), item(argument, 0)?, &known)? {
        Ok(unit) => show_unit(out, &unit),
        Err(fault) => show_fault(out, &fault),
    }
    Ok(())
}

/// `[NAME, MEANING]`: an entry that its own name spells.
fn entry_of(alloc: Global, symbols: &mut Symbols, value: &Value) -> Row<Entry> {
    let name = Text::of(alloc, text(item(value, 0)?)?)?;
    let meaning = meaning_of(symbols, item(value, 1)?)?;
    let mut origins = Items::new(alloc);
    origins.push(Origin {
        occ: None,
        prefix: Text::of(alloc, "")?,
    })?;
    Ok(Entry {
        name,
        meaning,
        origins,
    })
}

fn entries(alloc: Global, values: &[Value]) -> Row<Items<Entry>> {
    let mut symbols = Symbols::new(alloc);
    let mut entries = Items::new(alloc);
    for value in values {
        entries.push(entry_of(alloc, &mut symbols, value)?)?;
    }
    Ok(entries)
}

/// `[TEXT, [ENTRY, ..]]`: what the first import of a unit gives of these entries, or what the unit exports of them.
fn given(out: &mut Shown, call: &str, argument: &Value) -> Row<()> {
    let alloc = out.alloc();
    let unit = good_unit(alloc, item(argument, 0)?)?;
    let entries = entries(alloc, list(item(argument, 1)?)?)?;
    match call {
        "exports" => exported(out, &unit, entries.as_slice()),
        _ => imported(out, &unit, entries.as_slice()),
    }
}

/// `[ENTRY, ..]`.
fn imported(out: &mut Shown, unit: &UnitSource, entries: &[Entry]) -> Row<()> {
    let import = unit.imports.as_slice().first().ok_or(RowFault::NotShown)?;
    match entries_of(out.alloc(), &import.set, entries) {
        Ok(entries) => show_entries(out, entries.as_slice()),
        Err(fault) => show_import_fault(out, &fault),
    }
    Ok(())
}

/// `[[ENTRY, ..], [[PLACE, FAULT], ..]]`.
fn exported(out: &mut Shown, unit: &UnitSource, names: &[Entry]) -> Row<()> {
    if unit.exports.as_slice().len() > MANY {
        return Err(RowFault::TooLong);
    }
    let exports = exports_of(out.alloc(), unit, names)?;
    out.open();
    show_entries(out, exports.entries.as_slice());
    show_export_faults(out, exports.faults.as_slice());
    out.close();
    Ok(())
}

/// `[TEXT, ..]`: the places of units.
fn among(out: &mut Shown, call: &str, values: &[Value]) -> Row<()> {
    let alloc = out.alloc();
    let mut units = Vec::new(alloc);
    for value in values {
        units.push(good_unit(alloc, value)?)?;
    }
    if units.len() > MANY {
        return Err(RowFault::TooLong);
    }
    if call == "repeated" {
        out.numbers(repeated(alloc, &units)?.as_slice());
        return Ok(());
    }
    match order(alloc, &units) {
        Ok(places) => out.numbers(places.as_slice()),
        Err(fault) => show_fault(out, &fault),
    }
    Ok(())
}

fn show_span(out: &mut Shown, span: Span) {
    out.numbers(&[span.start, span.end]);
}

/// A text, and behind it `[UNIT, FORM, TOKEN]`, or null where there is no place.
fn show_placed(out: &mut Shown, text: &str, occ: Option<Occ>) {
    out.open();
    out.string(text);
    match occ {
        Some(occ) => out.numbers(&[occ.unit, occ.form, occ.token]),
        None => out.null(),
    }
    out.close();
}

/// `[NAME, PLACE]`.
fn show_name(out: &mut Shown, name: &SetName) {
    show_placed(out, name.name.as_str(), name.occ);
}

fn show_fault(out: &mut Shown, fault: &LibraryFault) {
    out.open();
    match fault {
        LibraryFault::BadDeclaration { unit: _, span } => {
            out.string("bad declaration");
            show_span(out, *span);
        }
        LibraryFault::Cycle(names) => {
            out.string("cycle");
            out.texts(names.as_slice());
        }
        LibraryFault::TooManyTokens => out.string("too many tokens"),
        LibraryFault::SameLibrary => out.string("same library"),
        LibraryFault::NotDefined(name) => {
            out.string("not defined");
            out.string(name.as_str());
        }
        LibraryFault::SameExport(name) => {
            out.string("same export");
            out.string(name.as_str());
        }
        LibraryFault::Memory => out.fail(RowFault::Memory),
    }
    out.close();
}

fn show_export_faults(out: &mut Shown, faults: &[ExportFault]) {
    out.open();
    for fault in faults {
        out.open();
        out.number(fault.place as u64);
        show_fault(out, &fault.fault);
        out.close();
    }
    out.close();
}

fn show_import_fault(out: &mut Shown, fault: &ImportFault) {
    out.open();
    match fault {
        ImportFault::NotThere(name) => {
            out.string("not there");
            show_name(out, name);
        }
        ImportFault::Clash(name) => {
            out.string("clash");
            out.string(name.as_str());
        }
        ImportFault::BadSet => out.string("bad set"),
        ImportFault::Memory => out.fail(RowFault::Memory),
    }
    out.close();
}

/// `[NAME, MEANING, [[PREFIX, PLACE], ..]]`, ..
fn show_entries(out: &mut Shown, entries: &[Entry]) {
    out.open();
    for entry in entries {
        out.open();
        out.string(entry.name.as_str());
        show_meaning(out, entry.meaning);
        show_origins(out, entry.origins.as_slice());
        out.close();
    }
    out.close();
}

fn show_origins(out: &mut Shown, origins: &[Origin]) {
    out.open();
    for origin in origins {
        show_placed(out, origin.prefix.as_str(), origin.occ);
    }
    out.close();
}

/// `[KIND, NAME or null, SPAN, [IMPORT, ..], [[NAME, NAME], ..], [[SPAN, DECLARED], ..]]`.
fn show_unit(out: &mut Shown, unit: &UnitSource) {
    out.open();
    out.string(match unit.kind {
        UnitKind::Library => "library",
        UnitKind::Program => "program",
        UnitKind::Part => "part",
    });
    match &unit.name {
        Some(name) => out.string(name.as_str()),
        None => out.null(),
    }
    show_span(out, unit.span);
    show_imports(out, unit.imports.as_slice());
    show_exports(out, unit.exports.as_slice());
    show_forms(out, unit.forms.as_slice());
    out.close();
}

/// `[SET, SPAN, SPAN, SPAN]`, ..
fn show_imports(out: &mut Shown, imports: &[ImportSpec]) {
    out.open();
    for import in imports {
        out.open();
        show_set(out, &import.set);
        show_span(out, import.span);
        show_span(out, import.inner);
        show_span(out, import.library);
        out.close();
    }
    out.close();
}

fn show_exports(out: &mut Shown, exports: &[ExportSpec]) {
    out.open();
    for export in exports {
        out.open();
        show_name(out, &export.inner);
        show_name(out, &export.outer);
        out.close();
    }
    out.close();
}

fn show_forms(out: &mut Shown, forms: &[UnitForm]) {
    out.open();
    for form in forms {
        out.open();
        show_span(out, form.datum.span);
        out.flag(form.declared);
        out.close();
    }
    out.close();
}

fn show_names(out: &mut Shown, names: &[SetName]) {
    out.open();
    for name in names {
        show_name(out, name);
    }
    out.close();
}

fn show_name_pairs(out: &mut Shown, pairs: &[NamePair]) {
    out.open();
    for pair in pairs {
        out.open();
        show_name(out, &pair.from);
        show_name(out, &pair.to);
        out.close();
    }
    out.close();
}

/// `["library", NAME]`, `["bad set"]`, or `[MODIFIER, SET, ..]`.
fn show_set(out: &mut Shown, set: &ImportSet) {
    out.open();
    match set {
        ImportSet::Library(name) => {
            out.string("library");
            out.string(name.as_str());
        }
        ImportSet::Only { set, names } => {
            out.string("only");
            show_set(out, set);
            show_names(out, names.as_slice());
        }
        ImportSet::Except { set, names } => {
            out.string("except");
            show_set(out, set);
            show_names(out, names.as_slice());
        }
        ImportSet::Prefix { set, prefix } => {
            out.string("prefix");
            show_set(out, set);
            out.string(prefix.as_str());
        }
        ImportSet::Rename { set, pairs } => {
            out.string("rename");
            show_set(out, set);
            show_name_pairs(out, pairs.as_slice());
        }
        ImportSet::Bad => out.string("bad set"),
    }
    out.close();
}
