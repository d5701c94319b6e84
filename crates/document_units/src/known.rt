//! The libraries that there are (R7RS 4.2.1, Appendix A): the standard ones, and those of the documents that read.
ghost use Rattle.std.specs.Prelude.{◌≡◌, ◌++◌, ◌∷◌, [], List, Option, map, take, IfOk, OnOk};
ghost use Rattle.std.specs.Option.{option_map, option_to_list};
ghost use Rattle.scheme_model.specs.Data.{row};
ghost use Rattle.scheme_model.specs.Declarations.{library_names};
ghost use Rattle.scheme_model.specs.Includes.{Document as ModelDocument};
ghost use Rattle.scheme_model.specs.StandardLibraries.{standard_libraries};
ghost use Rattle.base_library.specs.Texts.{name_text};
ghost use Rattle.datum_reader.specs.Views.{datum_of, data_of};
ghost use Rattle.scheme_tokens.specs.LibraryNames.{library_text};
ghost use Rattle.read_documents.specs.Broken.{has_standard};
ghost use Rattle.read_documents.specs.DataRead.{HaveData};
ghost use Rattle.document_units.specs.KnownNames.{name_in, listed_texts};

use base_library::standard;
use datum_reader::Datum;
use datum_reader::heads::is_headed;
use ls_base::{Items, Mem, Text};
use read_documents::documents::Document;
use read_documents::standard_names::standard_library_names;
use std::alloc::Global;

/// The names of all libraries that there are.
pub fn known(alloc: Global, documents: &[Document]) -> Mem<Items<Text>>
    ensures { (ds : List ModelDocument) → HaveData ds documents.now → IfOk result (λ names. names ≡ listed_texts ds) }
{
    let mut names = standard_names(alloc)?;
    for document in documents {
        add_names(alloc, &mut names, document.items.as_slice())?;
    }
    Ok(names)
}

/// The texts of the standard libraries' names.
fn standard_names(alloc: Global) -> Mem<Items<Text>>
    ensures { IfOk result (λ names. names ≡ map (λ l. name_text l.name) standard_libraries) }
{
    let mut names = Items::new(alloc);
    for name in standard_library_names() {
        names.push(Text::of(alloc, name)?)?;
    }
    Ok(names)
}

/// Adds the names of the libraries among data.
fn add_names(alloc: Global, names: &mut Items<Text>, items: &[Datum]) -> Mem<()>
    ensures { OnOk result (names.new ≡ names.old ++ map library_text (library_names (data_of items.now))) }
{
    for datum in items {
        push_if(names, library_name(alloc, datum)?)?;
    }
    Ok(())
}

/// Adds a name, where there is one.
fn push_if(names: &mut Items<Text>, name: Option<Text>) -> Mem<()>
    ensures { OnOk result (names.new ≡ names.old ++ option_to_list name) }
{
    match name {
        None => Ok(()),
        Some(name) => Ok(names.push(name)?),
    }
}

/// Whether a name is standard, where there is one.
pub fn has_standard_name(alloc: Global, name: &Option<Text>) -> Mem<bool>
    ensures { IfOk result (λ is. is ≡ has_standard name.now) }
{
    match name {
        None => Ok(false),
        Some(name) => Ok(standard(alloc, name.as_str())?.is_some()),
    }
}

/// The name of a library, which doesn't depend on what stands behind it. `None` where the datum is no library, or has no name.
pub fn library_name(alloc: Global, datum: &Datum) -> Mem<Option<Text>>
    ensures { IfOk result (λ name. name ≡ option_map library_text (name_in (datum_of datum.now))) }
{
    if !is_headed("define-library", datum) {
        return Ok(None);
    }
    library_table::library_name(alloc, datum)
}
