//! What programs, libraries and included texts give, before the texts are looked at that they include (R7RS 4.1.7, 5.1, 5.6.1).
ghost use Rattle.std.specs.Prelude.{◌≡◌, ℕ, [], ◌∷◌, IfOk, Option, map};
ghost use Rattle.std.specs.Option.{is_some};
ghost use Rattle.scheme_model.specs.Data.{Datum as ModelDatum, part, row};
ghost use Rattle.scheme_model.specs.Declarations.{behind_head};
ghost use Rattle.scheme_model.specs.Requirements.{Known, library_name_of};
ghost use Rattle.scheme_model.specs.declared.Occ.{Occ};
ghost use Rattle.scheme_model.specs.Included.{Texts, form_or_texts, forms_of, homed_from};
ghost use Rattle.scheme_model.specs.Includes.{program_data};
ghost use Rattle.scheme_model.specs.IncludedUnits.{library_listing, own};
ghost use Rattle.datum_reader.specs.Views.{datum_of, data_of};
ghost use Rattle.datum_reader.specs.Looks.{end_with, tree_at, IsListOf};
ghost use Rattle.known_libraries.specs.PartsRead.{Knows};
ghost use Rattle.included_forms.specs.Steps.{Plans, from};
ghost use Rattle.included_forms.specs.Planned.{plan_listing, IsPlanOf, included_as, included_from, all_included, PlansFirst, IsNamed};

use crate::planning::{bad, declaration, declarations, form_or_texts};
use crate::steps::{Origin, Source, Step, Stop, Way};
use datum_reader::Datum;
use datum_reader::heads::is_headed;
use datum_reader::look::{Look, Row, look_at, row_of};
use datum_reader::shape_fault::ShapeFault;
use known_libraries::KnownLibraries;
use known_libraries::library_names::library_name;
use ls_base::{Mem, Memory};
use scheme_model::Home;
use std::alloc::Global;

/// What a text gives: its steps, and behind them the first bad declaration, if there is one.
#[derive(Drop)]
pub struct Plan<'a> {
    pub steps: Vec<Step<'a>>,
    pub bad: Option<Source<'a>>,
}

/// The plan that steps make, by how they ended.
fn planned<'a>(steps: Vec<Step<'a>>, ended: Result<(), Stop<'a>>) -> Mem<Plan<'a>>
    ensures { IsPlanOf steps.entry.items ended.entry result }
{
    match ended {
        Ok(()) => Ok(Plan { steps, bad: None }),
        Err(Stop::Bad(source)) => Ok(Plan {
            steps,
            bad: Some(source),
        }),
        Err(Stop::Memory) => Err(Memory),
    }
}

// ---- a program

/// Adds a datum of a document's program, which a library isn't.
fn own_form<'a>(document: u32, datum: &'a Datum, steps: &mut Vec<Step<'a>>) -> Result<(), Stop<'a>>
    ensures { (t : Texts) → Plans t document steps.old.items steps.new.items result (map (form_or_texts t) (map (own document) (program_data (data_of (datum.now ∷ []))))) }
{
    if is_headed("define-library", datum) {
        return Ok(());
    }
    let origin = Origin {
        document,
        home: None,
    };
    form_or_texts(origin, datum, steps)
}

/// Adds the data of a document's program.
fn own_forms<'a>(
    document: u32,
    data: &'a [Datum],
    steps: &mut Vec<Step<'a>>,
) -> Result<(), Stop<'a>>
    ensures { (t : Texts) → Plans t document steps.old.items steps.new.items result (map (form_or_texts t) (map (own document) (program_data (data_of «data».now)))) }
{
    for datum in data {
        own_form(document, datum, steps)?;
    }
    Ok(())
}

/// What the program of a document gives.
pub fn program_plan<'a>(alloc: Global, document: u32, data: &'a [Datum]) -> Mem<Plan<'a>>
    ensures { (t : Texts) → IfOk result (λ plan. plan_listing t document plan ≡ forms_of t (map (own document) (program_data (data_of «data».now)))) }
{
    let mut steps = Vec::new(alloc);
    let ended = own_forms(document, data, &mut steps);
    planned(steps, ended)
}

// ---- a text that is included

/// Adds a datum of a text that is included in a way.
fn included<'a>(
    alloc: Global,
    known: &KnownLibraries,
    way: Way,
    origin: Origin,
    datum: &'a Datum,
    steps: &mut Vec<Step<'a>>,
) -> Result<(), Stop<'a>>
    ensures { (t : Texts) (has : Known) → Knows known.now.names has →
        Plans t origin.document steps.old.items steps.new.items result (included_as t has way (from origin (datum_of datum.now)) ∷ []) }
{
    match way {
        Way::Forms => form_or_texts(origin, datum, steps),
        Way::Declarations => declaration(alloc, known, origin, datum, steps),
    }
}

/// Adds a datum with a number, unless it is a library. The answer is the next number.
fn included_with<'a>(
    alloc: Global,
    known: &KnownLibraries,
    way: Way,
    document: u32,
    unit: u32,
    number: u32,
    datum: &'a Datum,
    steps: &mut Vec<Step<'a>>,
) -> Result<u32, Stop<'a>>
    ensures { (t : Texts) (has : Known) → Knows known.now.names has →
        PlansFirst t document steps.old.items steps.new.items result (datum_of datum.now) (included_from t has way document unit) number }
{
    if is_headed("define-library", datum) {
        return Ok(number);
    }
    if number == u32::MAX {
        return Err(Stop::Memory);
    }
    let home = Home {
        unit,
        form: number,
        first: datum.first,
    };
    let origin = Origin {
        document,
        home: Some(home),
    };
    included(alloc, known, way, origin, datum, steps)?;
    Ok(number + 1)
}

/// Adds the data of a text that is included.
fn included_data<'a>(
    alloc: Global,
    known: &KnownLibraries,
    way: Way,
    document: u32,
    unit: u32,
    data: &'a [Datum],
    steps: &mut Vec<Step<'a>>,
) -> Result<(), Stop<'a>>
    ensures { (t : Texts) (has : Known) → Knows known.now.names has →
        Plans t document steps.old.items steps.new.items result (included_from t has way document unit 0 (data_of «data».now)) }
{
    let mut number = 0;
    for datum in data {
        number = included_with(alloc, known, way, document, unit, number, datum, steps)?;
    }
    Ok(())
}

/// What a text gives where it is included in a way. Its data have their homes in the unit with this number.
pub fn included_plan<'a>(
    alloc: Global,
    known: &KnownLibraries,
    way: Way,
    document: u32,
    unit: u32,
    data: &'a [Datum],
) -> Mem<Plan<'a>>
    ensures { (t : Texts) (has : Known) → Knows known.now.names has →
        IfOk result (λ plan. plan_listing t document plan ≡ all_included t has way (homed_from document unit 0 (program_data (data_of «data».now)))) }
{
    let mut steps = Vec::new(alloc);
    let ended = included_data(alloc, known, way, document, unit, data, &mut steps);
    planned(steps, ended)
}

// ---- a library

/// Whether a library has a name.
fn is_named(alloc: Global, name: &Datum) -> Result<(), ShapeFault>
    ensures { (place : ℕ → Occ) → IsNamed result (library_name_of (λ s. s) (tree_at place name.now)) }
{
    library_name(alloc, name)?;
    Ok(())
}

/// Adds the declarations behind a library's name.
fn named<'a>(
    alloc: Global,
    known: &KnownLibraries,
    origin: Origin,
    datum: &'a Datum,
    name: &'a Datum,
    rest: &'a [Datum],
    dotted: bool,
    steps: &mut Vec<Step<'a>>,
) -> Result<(), Stop<'a>>
    ensures { (t : Texts) (has : Known) → Knows known.now.names has → (end : Option ModelDatum) → is_some end ≡ dotted →
        Plans t origin.document steps.old.items steps.new.items result (library_listing t has (from origin (datum_of datum.now)) (part (datum_of name.now) (row (data_of rest.now) (end_with end))) ∷ []) }
{
    match is_named(alloc, name) {
        Ok(()) => declarations(alloc, known, origin, datum, rest, dotted, steps),
        Err(ShapeFault::BadForm) => Err(bad(origin, datum)),
        Err(ShapeFault::Memory) => Err(Stop::Memory),
    }
}

/// Adds the declarations of a library that is a list with these parts.
fn list_library<'a>(
    alloc: Global,
    known: &KnownLibraries,
    origin: Origin,
    datum: &'a Datum,
    parts: &'a [Datum],
    dotted: bool,
    steps: &mut Vec<Step<'a>>,
) -> Result<(), Stop<'a>>
    requires { IsListOf parts.now dotted (datum_of datum.now) }
    ensures { (t : Texts) (has : Known) → Knows known.now.names has →
        Plans t origin.document steps.old.items steps.new.items result (library_listing t has (from origin (datum_of datum.now)) (behind_head (datum_of datum.now)) ∷ []) }
{
    match row_of(parts) {
        Row::Empty => Err(bad(origin, datum)),
        Row::Parts(_, behind) => match row_of(behind) {
            Row::Empty => Err(bad(origin, datum)),
            Row::Parts(name, rest) => {
                named(alloc, known, origin, datum, name, rest, dotted, steps)
            }
        },
    }
}

/// Adds the declarations of a library.
fn library<'a>(
    alloc: Global,
    known: &KnownLibraries,
    origin: Origin,
    datum: &'a Datum,
    steps: &mut Vec<Step<'a>>,
) -> Result<(), Stop<'a>>
    ensures { (t : Texts) (has : Known) → Knows known.now.names has →
        Plans t origin.document steps.old.items steps.new.items result (library_listing t has (from origin (datum_of datum.now)) (behind_head (datum_of datum.now)) ∷ []) }
{
    match look_at(datum) {
        Look::List(parts, dotted) => {
            list_library(alloc, known, origin, datum, parts, dotted, steps)
        }
        Look::Name(_) => Err(bad(origin, datum)),
        Look::Implied(_) => Err(bad(origin, datum)),
        Look::Numeral(_) => Err(bad(origin, datum)),
        Look::Other => Err(bad(origin, datum)),
    }
}

/// What a library gives; where it has no name, the whole is the bad declaration.
pub fn library_plan<'a>(
    alloc: Global,
    known: &KnownLibraries,
    document: u32,
    datum: &'a Datum,
) -> Mem<Plan<'a>>
    ensures { (t : Texts) (has : Known) → Knows known.now.names has → let d = datum_of datum.now in
        IfOk result (λ plan. plan_listing t document plan ≡ library_listing t has (own document d) (behind_head d)) }
{
    let mut steps = Vec::new(alloc);
    let origin = Origin {
        document,
        home: None,
    };
    let ended = library(alloc, known, origin, datum, &mut steps);
    planned(steps, ended)
}
