//! The program of a document (R7RS 5.1): all that is no library.
ghost use Rattle.std.specs.Prelude.{◌≡◌, ◌∷◌, ◌++◌, ◌<◌, [], ℕ, false, length, map, slice_get, List, IfOk, OnOk};
ghost use Rattle.std.specs.Option.{option_map};
ghost use Rattle.scheme_model.specs.Data.{Datum as ModelDatum, place_of};
ghost use Rattle.scheme_model.specs.Declarations.{plain_form};
ghost use Rattle.scheme_model.specs.Included.{Sources, Texts};
ghost use Rattle.scheme_model.specs.IncludedUnits.{UnitSource as ModelSource, part_of, program_in};
ghost use Rattle.scheme_model.specs.Includes.{program_data};
ghost use Rattle.datum_reader.specs.FirstTokens.{first_token};
ghost use Rattle.datum_reader.specs.Views.{datum_of, data_of};
ghost use Rattle.included_forms.specs.Tables.{Serve};
ghost use Rattle.included_forms.specs.Built.{AreDocuments, IsTable};
ghost use Rattle.unit_sources.specs.UnitsRead.{forms_of, IsSource, IsUnitRead};

use crate::reading::{forms_listed, push_form, source};
use datum_reader::Datum;
use datum_reader::heads::is_headed;
use included_forms::{Documents, Table};
use ls_base::{Items, Mem, Span};
use std::alloc::Global;
use syntax_tree::units::UnitKind;
use unit_sources::fault::LibraryFault;
use unit_sources::units::{UnitForm, UnitSource};

/// The first datum of a document that is no library.
pub fn first_of_program(data: &[Datum]) -> Option<&Datum>
    ensures { option_map (λ d. datum_of d.now) result ≡ slice_get (program_data (data_of «data».now)) 0 }
{
    for datum in data {
        if !is_headed("define-library", datum) {
            return Some(datum);
        }
    }
    None
}

/// Adds a datum to the forms of a part, unless it is a library.
fn add_plain(alloc: Global, forms: &mut Vec<UnitForm>, datum: &Datum) -> Mem<()>
    ensures { OnOk result (forms_of forms.new.items ≡ forms_of forms.old.items ++ map plain_form (program_data (datum_of datum.now ∷ []))) }
{
    if is_headed("define-library", datum) {
        return Ok(());
    }
    push_form(alloc, forms, datum, false, None)
}

/// The data of a document that are no libraries, as forms.
fn plain_forms(alloc: Global, data: &[Datum]) -> Mem<Vec<UnitForm>>
    ensures { IfOk result (λ forms. forms_of forms.items ≡ map plain_form (program_data (data_of «data».now))) }
{
    let mut forms = Vec::new(alloc);
    for datum in data {
        add_plain(alloc, &mut forms, datum)?;
    }
    Ok(forms)
}

/// The program of a text that others include, whose first token has these bytes: its data, which are worked on where they are included.
pub fn read_part(alloc: Global, data: &[Datum], span: Span) -> Mem<UnitSource>
    ensures { (d : ModelDatum) (rest : List ModelDatum) → program_data (data_of «data».now) ≡ d ∷ rest → span ≡ first_token d →
        IfOk result (λ source. (unit : ℕ) → IsSource unit source (part_of (place_of d) (d ∷ rest)) d) }
{
    let forms = plain_forms(alloc, data)?;
    Ok(UnitSource {
        kind: UnitKind::Part,
        name: None,
        span,
        imports: Items::new(alloc),
        exports: Items::new(alloc),
        forms: Items::from_vec(forms),
        lost: Items::new(alloc),
    })
}

/// The program that the data of a document are beside libraries, with its first token's bytes. Lists that include are replaced by what
/// the texts give; its leading imports are declarations.
pub fn read_program<'a>(
    alloc: Global,
    documents: &Documents<'a>,
    table: &Table<'a>,
    document: u32,
    data: &'a [Datum],
    span: Span,
    unit: u32,
) -> Result<UnitSource, LibraryFault>
    requires { document < length documents.now.uris.now }
    ensures { (o : Sources) (t : Texts) → AreDocuments o documents.now → IsTable o table.now → Serve o t →
        (d : ModelDatum) (rest : List ModelDatum) → program_data (data_of «data».now) ≡ d ∷ rest → span ≡ first_token d →
        (u : ModelSource) → program_in t document false (d ∷ rest) ≡ u ∷ [] → IsUnitRead unit d u result }
{
    let listed = table.program(alloc, documents, document, data)?;
    let lists = forms_listed(alloc, unit, listed, true)?;
    Ok(source(alloc, UnitKind::Program, None, span, unit, lists)?)
}
