//! The steps of forms and declarations, without a look into the texts that they include (R7RS 4.1.7, 5.6.1).
ghost use Rattle.std.specs.Prelude.{◌≡◌, List, [], ◌∷◌, map, Option};
ghost use Rattle.std.specs.Option.{is_some};
ghost use Rattle.scheme_model.specs.Data.{Datum as ModelDatum, row};
ghost use Rattle.scheme_model.specs.Requirements.{Known};
ghost use Rattle.scheme_model.specs.Declarations.{declared_by, symbol_in, proper_parts};
ghost use Rattle.scheme_model.specs.Included.{Texts, form_alone, form_or_texts, forms_of, including, declaration, declarations, declared_as, clauses, choice, if_proper};
ghost use Rattle.datum_reader.specs.Views.{datum_of, data_of};
ghost use Rattle.datum_reader.specs.Looks.{end_with, IsListOf};
ghost use Rattle.known_libraries.specs.PartsRead.{Knows};
ghost use Rattle.included_forms.specs.Shapes.{is_declared, kept, including_or_itself};
ghost use Rattle.included_forms.specs.Steps.{from, Plans};
ghost use Rattle.included_forms.specs.declared.steps.Stop.TheVariants as stop;

use crate::choices::chosen;
use crate::declared::{Declared, declared_for, exports};
use crate::steps::{FlatForm, Origin, Source, Step, Stop, Way, push_step};
use crate::strings::push_texts;
use datum_reader::Datum;
use datum_reader::heads::is_headed;
use datum_reader::look::{Look, Row, look_at, row_of};
use datum_reader::shape_fault::ShapeFault;
use included_strings::{includes, includes_declarations};
use known_libraries::KnownLibraries;
use std::alloc::Global;

// ---- forms

/// Adds a form.
fn push_form<'a>(
    origin: Origin,
    datum: &'a Datum,
    declared: bool,
    steps: &mut Vec<Step<'a>>,
) -> Result<(), Stop<'a>>
    ensures { (t : Texts) → Plans t origin.document steps.old.items steps.new.items result (form_alone declared (from origin (datum_of datum.now)) ∷ []) }
{
    let source = Source { origin, datum };
    push_step(Step::Form(FlatForm { source, declared }), steps)
}

/// Adds a form, or the texts that it includes.
pub fn form_or_texts<'a>(
    origin: Origin,
    datum: &'a Datum,
    steps: &mut Vec<Step<'a>>,
) -> Result<(), Stop<'a>>
    ensures { (t : Texts) → Plans t origin.document steps.old.items steps.new.items result (form_or_texts t (from origin (datum_of datum.now)) ∷ []) }
{
    match includes(datum) {
        Some(strings) => push_texts(Way::Forms, strings, steps),
        None => push_form(origin, datum, false, steps),
    }
}

/// Adds forms, or the texts that they include.
fn forms<'a>(origin: Origin, parts: &'a [Datum], steps: &mut Vec<Step<'a>>) -> Result<(), Stop<'a>>
    ensures { (t : Texts) → Plans t origin.document steps.old.items steps.new.items result (map (λ d. form_or_texts t (from origin d)) (data_of parts.now)) }
{
    for datum in parts {
        form_or_texts(origin, datum, steps)?;
    }
    Ok(())
}

// ---- declarations that hold no others

/// A bad declaration.
pub fn bad<'a>(origin: Origin, datum: &'a Datum) -> Stop<'a>
    ensures { result ≡ stop.Bad (record { origin = origin; datum = datum.entry }) }
{
    Stop::Bad(Source { origin, datum })
}

/// A declaration that gives itself.
fn keep<'a>(
    origin: Origin,
    datum: &'a Datum,
    bad_shape: bool,
    steps: &mut Vec<Step<'a>>,
) -> Result<(), Stop<'a>>
    ensures { (t : Texts) → Plans t origin.document steps.old.items steps.new.items result (kept bad_shape (from origin (datum_of datum.now)) ∷ []) }
{
    if bad_shape {
        return Err(bad(origin, datum));
    }
    push_form(origin, datum, true, steps)
}

/// Adds what a `begin` gives.
fn begun<'a>(
    origin: Origin,
    datum: &'a Datum,
    parts: &'a [Datum],
    dotted: bool,
    steps: &mut Vec<Step<'a>>,
) -> Result<(), Stop<'a>>
    ensures { (t : Texts) (end : Option ModelDatum) → is_some end ≡ dotted →
        Plans t origin.document steps.old.items steps.new.items result (if_proper (from origin (datum_of datum.now)) (proper_parts (row (data_of parts.now) (end_with end))) (λ ds. forms_of t (map (from origin) ds)) ∷ []) }
{
    if dotted {
        return Err(bad(origin, datum));
    }
    forms(origin, parts, steps)
}

/// Adds what a proper list includes as declarations; `(include-ci "name" ...)` stays as it is.
fn including_declarations<'a>(
    origin: Origin,
    datum: &'a Datum,
    steps: &mut Vec<Step<'a>>,
) -> Result<(), Stop<'a>>
    ensures { (t : Texts) → Plans t origin.document steps.old.items steps.new.items result (including_or_itself t (from origin (datum_of datum.now)) ∷ []) }
{
    match includes_declarations(datum) {
        Some(strings) => push_texts(Way::Declarations, strings, steps),
        None => keep(origin, datum, !is_headed("include-ci", datum), steps),
    }
}

/// Adds what a declaration includes that has such a head and is a proper list.
fn including<'a>(
    origin: Origin,
    datum: &'a Datum,
    steps: &mut Vec<Step<'a>>,
) -> Result<(), Stop<'a>>
    ensures { (t : Texts) → Plans t origin.document steps.old.items steps.new.items result (including t (from origin (datum_of datum.now)) ∷ []) }
{
    match includes(datum) {
        Some(strings) => push_texts(Way::Forms, strings, steps),
        None => including_declarations(origin, datum, steps),
    }
}

/// Adds what a declaration includes.
fn include_proper<'a>(
    origin: Origin,
    datum: &'a Datum,
    dotted: bool,
    steps: &mut Vec<Step<'a>>,
) -> Result<(), Stop<'a>>
    ensures { (t : Texts) (parts : List ModelDatum) (end : Option ModelDatum) → is_some end ≡ dotted →
        Plans t origin.document steps.old.items steps.new.items result (if_proper (from origin (datum_of datum.now)) (proper_parts (row parts (end_with end))) (λ ds. including t (from origin (datum_of datum.now))) ∷ []) }
{
    if dotted {
        return Err(bad(origin, datum));
    }
    including(origin, datum, steps)
}

// ---- declarations

/// Adds what declarations give.
#[cycle(planning)]
pub fn declarations<'a>(
    alloc: Global,
    known: &KnownLibraries,
    origin: Origin,
    whole: &'a Datum,
    parts: &'a [Datum],
    dotted: bool,
    steps: &mut Vec<Step<'a>>,
) -> Result<(), Stop<'a>>
    ensures { (t : Texts) (has : Known) → Knows known.now.names has → (any : ModelDatum) (end : Option ModelDatum) → is_some end ≡ dotted →
        Plans t origin.document steps.old.items steps.new.items result (declarations t has (from origin any) (datum_of whole.now) (row (data_of parts.now) (end_with end)) ∷ []) }
{
    for part in parts {
        declaration(alloc, known, origin, part, steps)?;
    }
    if dotted {
        return Err(bad(origin, whole));
    }
    Ok(())
}

/// Adds what a declaration gives.
#[cycle(planning)]
pub fn declaration<'a>(
    alloc: Global,
    known: &KnownLibraries,
    origin: Origin,
    datum: &'a Datum,
    steps: &mut Vec<Step<'a>>,
) -> Result<(), Stop<'a>>
    ensures { (t : Texts) (has : Known) → Knows known.now.names has → (any : ModelDatum) →
        Plans t origin.document steps.old.items steps.new.items result (declaration t has (from origin any) (datum_of datum.now) ∷ []) }
{
    match look_at(datum) {
        Look::List(parts, dotted) => {
            list_declaration(alloc, known, origin, datum, parts, dotted, steps)
        }
        Look::Name(_) => Err(bad(origin, datum)),
        Look::Implied(_) => Err(bad(origin, datum)),
        Look::Numeral(_) => Err(bad(origin, datum)),
        Look::Other => Err(bad(origin, datum)),
    }
}

/// Adds what a declaration with these parts gives.
#[cycle(planning)]
fn list_declaration<'a>(
    alloc: Global,
    known: &KnownLibraries,
    origin: Origin,
    datum: &'a Datum,
    parts: &'a [Datum],
    dotted: bool,
    steps: &mut Vec<Step<'a>>,
) -> Result<(), Stop<'a>>
    requires { IsListOf parts.now dotted (datum_of datum.now) }
    ensures { (t : Texts) (has : Known) → Knows known.now.names has → (any : ModelDatum) →
        Plans t origin.document steps.old.items steps.new.items result (declaration t has (from origin any) (datum_of datum.now) ∷ []) }
{
    match row_of(parts) {
        Row::Empty => Err(bad(origin, datum)),
        Row::Parts(head, rest) => {
            let kind = declared_for(head);
            declare(alloc, known, origin, kind, datum, rest, dotted, steps)
        }
    }
}

/// Adds what a declaration of a kind gives, by what stands behind its head.
#[cycle(planning)]
fn declare<'a>(
    alloc: Global,
    known: &KnownLibraries,
    origin: Origin,
    kind: Declared,
    datum: &'a Datum,
    rest: &'a [Datum],
    dotted: bool,
    steps: &mut Vec<Step<'a>>,
) -> Result<(), Stop<'a>>
    ensures { (t : Texts) (has : Known) → Knows known.now.names has → (any : ModelDatum) (end : Option ModelDatum) → is_some end ≡ dotted →
        let ds = row (data_of rest.now) (end_with end) in
        let h = from origin (datum_of datum.now) in
        Plans t origin.document steps.old.items steps.new.items result (if_proper h (proper_parts ds) (λ parts. declared_as t has (is_declared kind) h parts (clauses t has (from origin any) ds)) ∷ []) }
{
    match kind {
        Declared::Exports => keep(origin, datum, !exports(rest, dotted), steps),
        Declared::Imports => keep(origin, datum, dotted, steps),
        Declared::Begins => begun(origin, datum, rest, dotted, steps),
        Declared::Chooses => choice(alloc, known, origin, datum, rest, dotted, steps),
        Declared::Includes => include_proper(origin, datum, dotted, steps),
        Declared::Undeclared => Err(bad(origin, datum)),
    }
}

/// Adds what a choice gives, by its clauses.
#[cycle(planning)]
fn choice<'a>(
    alloc: Global,
    known: &KnownLibraries,
    origin: Origin,
    datum: &'a Datum,
    rest: &'a [Datum],
    dotted: bool,
    steps: &mut Vec<Step<'a>>,
) -> Result<(), Stop<'a>>
    ensures { (t : Texts) (has : Known) → Knows known.now.names has → (any : ModelDatum) (end : Option ModelDatum) → is_some end ≡ dotted →
        Plans t origin.document steps.old.items steps.new.items result (choice has (from origin (datum_of datum.now)) (clauses t has (from origin any) (row (data_of rest.now) (end_with end))) ∷ []) }
{
    match chosen(alloc, known, rest, dotted) {
        Ok(parts) => declarations(alloc, known, origin, datum, parts, false, steps),
        Err(ShapeFault::BadForm) => Err(bad(origin, datum)),
        Err(ShapeFault::Memory) => Err(Stop::Memory),
    }
}
