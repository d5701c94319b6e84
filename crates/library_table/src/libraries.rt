//! A library as it is written (R7RS 5.6.1).
ghost use Rattle.std.specs.Prelude.{◌≡◌, ◌<◌, length, Option, IfOk};
ghost use Rattle.std.specs.Option.{option_map};
ghost use Rattle.scheme_model.specs.Data.{Datum as ModelDatum, Place, list, row};
ghost use Rattle.scheme_model.specs.Declarations.{library_name, name_or, symbol_tree};
ghost use Rattle.scheme_model.specs.Included.{Sources, Texts};
ghost use Rattle.scheme_model.specs.IncludedUnits.{library_of};
ghost use Rattle.scheme_model.specs.Requirements.{library_name_of};
ghost use Rattle.scheme_tokens.specs.LibraryNames.{library_text};
ghost use Rattle.datum_reader.specs.Looks.{end_with};
ghost use Rattle.datum_reader.specs.Views.{datum_of, data_of};
ghost use Rattle.included_forms.specs.Tables.{Serve};
ghost use Rattle.included_forms.specs.Built.{AreDocuments, IsTable};
ghost use Rattle.unit_sources.specs.UnitsRead.{IsUnitRead};

use crate::reading::{forms_listed, source};
use datum_reader::Datum;
use datum_reader::heads::first_token;
use datum_reader::look::{Look, Row, look_at, row_of};
use datum_reader::shape_fault::ShapeFault;
use included_forms::{Documents, Table};
use known_libraries::library_names;
use ls_base::{Mem, Memory, Text};
use std::alloc::Global;
use syntax_tree::units::UnitKind;
use unit_sources::fault::LibraryFault;
use unit_sources::units::UnitSource;

/// The name of the library that a datum is, which doesn't depend on what stands behind it. `None` where it has no name.
pub fn library_name(alloc: Global, datum: &Datum) -> Mem<Option<Text>>
    ensures { IfOk result (λ name. name ≡ option_map library_text (library_name (datum_of datum.now))) }
{
    match look_at(datum) {
        Look::List(parts, _) => second_name(alloc, parts),
        Look::Name(_) => Ok(None),
        Look::Implied(_) => Ok(None),
        Look::Numeral(_) => Ok(None),
        Look::Other => Ok(None),
    }
}

/// The name that the second part of a list is.
fn second_name(alloc: Global, parts: &[Datum]) -> Mem<Option<Text>>
    ensures { (p : Place) (end : Option ModelDatum) → IfOk result (λ name. name ≡ option_map library_text (library_name (list p (row (data_of parts.now) (end_with end))))) }
{
    match row_of(parts) {
        Row::Empty => Ok(None),
        Row::Parts(_, behind) => match row_of(behind) {
            Row::Empty => Ok(None),
            Row::Parts(name, _) => text_of(alloc, name),
        },
    }
}

/// The text of the name that a datum is.
fn text_of(alloc: Global, name: &Datum) -> Mem<Option<Text>>
    ensures { IfOk result (λ text. text ≡ option_map library_text (name_or (library_name_of (λ s. s) (symbol_tree (datum_of name.now))))) }
{
    match library_names::library_name(alloc, name) {
        Ok(text) => Ok(Some(text)),
        Err(ShapeFault::BadForm) => Ok(None),
        Err(ShapeFault::Memory) => Err(Memory),
    }
}

/// The library that a datum of a document is: its name, imports, exports and forms. Its declarations are flattened: a `begin` gives
/// its data, a `cond-expand` what its chosen clause gives, lists that include what the texts give, every other declaration itself. The
/// refusals are `BadDeclaration`, with the first bad declaration (where the library has no name, or a clause of a `cond-expand` no
/// shape, that whole), and `TooManyTokens`.
pub fn read_unit<'a>(
    alloc: Global,
    documents: &Documents<'a>,
    table: &Table<'a>,
    document: u32,
    datum: &'a Datum,
    unit: u32,
) -> Result<UnitSource, LibraryFault>
    requires { document < length documents.now.uris.now }
    ensures { (o : Sources) (t : Texts) → AreDocuments o documents.now → IsTable o table.now → Serve o t → let d = datum_of datum.now in
        IsUnitRead unit d (library_of t o.known document d) result }
{
    let listed = table.library(alloc, documents, document, datum)?;
    let lists = forms_listed(alloc, unit, listed, false)?;
    let name = library_name(alloc, datum)?;
    let span = first_token(datum);
    Ok(source(alloc, UnitKind::Library, name, span, unit, lists)?)
}
