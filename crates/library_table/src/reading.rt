//! The forms of units as texts list them, with what they import and export (R7RS 5.1, 5.6.1).
ghost use Rattle.std.specs.Prelude.{◌≡◌, ◌++◌, ◌∷◌, [], map, IfOk, OnOk};
ghost use Rattle.scheme_model.specs.Declarations.{unit_or};
ghost use Rattle.scheme_model.specs.Included.{Listing};
ghost use Rattle.scheme_model.specs.Program.{specs_from, exports_from};
ghost use Rattle.datum_reader.specs.Views.{datum_of};
ghost use Rattle.included_forms.specs.Counted.{lost_of};
ghost use Rattle.included_forms.specs.Listed.{IsListed};
ghost use Rattle.included_forms.specs.Steps.{homed_of, form_of as listed_form};
ghost use Rattle.unit_sources.specs.UnitsRead.{forms_of, is_import, lost_as, AreSpecs, AreExportsRead};
ghost use Rattle.library_table.specs.ListingsRead.{forms_left, IsBadAt, IsListingRead};

use datum_reader::Datum;
use datum_reader::heads::{is_headed, is_proper};
use included_forms::Listed;
use included_forms::given::LostString as Lost;
use included_forms::steps::{FlatForm, Source};
use ls_base::{Items, Mem, Span, Text};
use scheme_model::Home;
use std::alloc::Global;
use syntax_tree::units::UnitKind;
use unit_sources::export_specs::exports_read;
use unit_sources::fault::LibraryFault;
use unit_sources::parts::imports_of;
use unit_sources::units::{LostString, UnitForm, UnitSource};

/// The forms of a unit, and the strings that mean no text that can be included.
#[derive(Drop)]
pub struct Lists {
    pub forms: Vec<UnitForm>,
    pub lost: Items<LostString>,
}

/// Adds a form with its home.
pub fn push_form(
    alloc: Global,
    forms: &mut Vec<UnitForm>,
    datum: &Datum,
    declared: bool,
    home: Option<Home>,
) -> Mem<()>
    ensures { OnOk result (forms_of forms.new.items ≡ forms_of forms.old.items ++ record { datum = datum_of datum.now; declared = declared; home = home } ∷ []) }
{
    let datum = datum.copy(alloc)?;
    forms.push(UnitForm {
        datum,
        declared,
        home,
    })?;
    Ok(())
}

/// Whether a datum imports, where it stands before all that doesn't.
fn is_import(datum: &Datum) -> bool
    ensures { result ≡ is_import (datum_of datum.now) }
{
    is_headed("import", datum) && is_proper(datum)
}

/// Forms as they are listed, each with its datum copied. Imports that lead are declared, where they are asked for.
#[tactic(auto, using(crate::proofs::ListingRows::copied_more))]
fn copied(alloc: Global, listed: &[FlatForm<'_>], leading: bool) -> Mem<Vec<UnitForm>>
    ensures { IfOk result (λ forms. forms_of forms.items ≡ forms_left leading (map listed_form listed.now)) }
{
    let mut forms = Vec::new(alloc);
    let mut leads = leading;
    for form in listed {
        let Source { origin, datum } = form.source;
        leads = leads && is_import(datum);
        push_form(
            alloc,
            &mut forms,
            datum,
            leads || form.declared,
            origin.home,
        )?;
    }
    Ok(forms)
}

/// A string that means no text, with its characters copied.
fn lost_string(alloc: Global, lost: &Lost<'_>) -> Mem<LostString>
    ensures { IfOk result (λ string. string ≡ lost_as (lost_of lost.now)) }
{
    Ok(LostString {
        document: lost.document,
        span: lost.string.datum.span,
        characters: Text::of(alloc, lost.string.characters)?,
    })
}

/// Strings that mean no text.
fn lost_strings(alloc: Global, lost: &[Lost<'_>]) -> Mem<Items<LostString>>
    ensures { IfOk result (λ strings. strings ≡ map lost_as (map lost_of lost.now)) }
{
    let mut strings = Items::new(alloc);
    for it in lost {
        let string = lost_string(alloc, it)?;
        strings.push(string)?;
    }
    Ok(strings)
}

/// The unit of a home, or this one where there is none.
fn unit_or(unit: u32, home: Option<Home>) -> u32
    ensures { result ≡ unit_or unit home }
{
    match home {
        None => unit,
        Some(home) => home.unit,
    }
}

/// A bad declaration, with a unit of the document where it stands.
fn bad(unit: u32, source: Source<'_>) -> LibraryFault
    ensures { IsBadAt unit (homed_of source.entry) result }
{
    LibraryFault::BadDeclaration {
        unit: unit_or(unit, source.origin.home),
        span: source.datum.span,
    }
}

/// What a unit gives, or why it has no forms. Imports that lead are declared, where they are asked for.
pub fn forms_listed(
    alloc: Global,
    unit: u32,
    listed: Listed<'_>,
    leading: bool,
) -> Result<Lists, LibraryFault>
    ensures { (l : Listing) → IsListed listed.entry l → IsListingRead unit leading l result }
{
    match listed {
        Listed::Lists { forms, lost } => {
            let forms = copied(alloc, forms.as_slice(), leading)?;
            let lost = lost_strings(alloc, lost.as_slice())?;
            Ok(Lists { forms, lost })
        }
        Listed::Bad(source) => Err(bad(unit, source)),
        Listed::TooLong => Err(LibraryFault::TooManyTokens),
    }
}

/// A unit by its forms, with all that they import and export.
pub fn source(
    alloc: Global,
    kind: UnitKind,
    name: Option<Text>,
    span: Span,
    unit: u32,
    lists: Lists,
) -> Mem<UnitSource>
    ensures kind { IfOk result (λ source. source.kind ≡ kind) }
    ensures name { IfOk result (λ source. source.name ≡ name) }
    ensures span { IfOk result (λ source. source.span ≡ span) }
    ensures forms { IfOk result (λ source. source.forms ≡ lists.forms.items) }
    ensures lost { IfOk result (λ source. source.lost ≡ lists.lost) }
    ensures imports { IfOk result (λ source. AreSpecs source.imports (specs_from unit 0 (forms_of lists.forms.items))) }
    ensures exports { IfOk result (λ source. AreExportsRead source.exports (exports_from unit 0 (forms_of lists.forms.items))) }
{
    let Lists { forms, lost } = lists;
    let imports = imports_of(alloc, unit, forms.as_slice())?;
    let exports = exports_read(alloc, unit, forms.as_slice())?;
    Ok(UnitSource {
        kind,
        name,
        span,
        imports,
        exports,
        forms: Items::from_vec(forms),
        lost,
    })
}
