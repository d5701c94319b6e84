//! The clauses of `cond-expand`, and which of them is chosen (R7RS 4.2.1).
ghost use Rattle.std.specs.Prelude.{◌≡◌, ◌<◌, Option, IfOk};
ghost use Rattle.std.specs.Option.{is_some};
ghost use Rattle.scheme_model.specs.Data.{Datum as ModelDatum, row};
ghost use Rattle.scheme_model.specs.Requirements.{Known};
ghost use Rattle.scheme_model.specs.Included.{Texts, Homed};
ghost use Rattle.datum_reader.specs.Views.{datum_of, data_of};
ghost use Rattle.datum_reader.specs.Looks.{end_with, IsListOf};
ghost use Rattle.known_libraries.specs.PartsRead.{Knows};
ghost use Rattle.known_libraries.specs.Weights.{row_weight};
ghost use Rattle.included_forms.specs.Choices.{IsClause, OrFirst, Chooses};

use datum_reader::Datum;
use datum_reader::look::{Look, Row, look_at, row_of};
use datum_reader::shape_fault::ShapeFault;
use known_libraries::KnownLibraries;
use known_libraries::requirements::clause_holds;
use std::alloc::Global;

/// A clause of `cond-expand`: its requirement, and its forms.
#[derive(Clone, Copy)]
pub struct Clause<'a> {
    pub requirement: &'a Datum,
    pub forms: &'a [Datum],
}

/// The clause that a datum is, if it is a proper list of one part at least.
fn clause_in(datum: &Datum) -> Option<Clause<'_>>
    ensures { IsClause result (datum_of datum.now) }
{
    match look_at(datum) {
        Look::List(parts, dotted) => clause_of(parts, dotted),
        Look::Name(_) => None,
        Look::Implied(_) => None,
        Look::Numeral(_) => None,
        Look::Other => None,
    }
}

fn clause_of(parts: &[Datum], dotted: bool) -> Option<Clause<'_>>
    ensures { (d : ModelDatum) → IsListOf parts.now dotted d → IsClause result d }
{
    if dotted {
        return None;
    }
    match row_of(parts) {
        Row::Empty => None,
        Row::Parts(requirement, forms) => Some(Clause { requirement, forms }),
    }
}

/// The forms that were chosen, or these, if they are to be.
fn or_these<'a>(chosen: Option<&'a [Datum]>, hold: bool, forms: &'a [Datum]) -> Option<&'a [Datum]>
    ensures { OrFirst chosen.entry hold forms.now result }
{
    match chosen {
        Some(before) => Some(before),
        None => { if hold { Some(forms) } else { None } }
    }
}

/// The forms of the first of these clauses that holds. Each of them has a shape, and there is one at least.
pub fn chosen<'a>(
    alloc: Global,
    known: &KnownLibraries,
    parts: &'a [Datum],
    dotted: bool,
) -> Result<&'a [Datum], ShapeFault>
    ensures whole { (t : Texts) (has : Known) → Knows known.now.names has → (h : Homed) (end : Option ModelDatum) → is_some end ≡ dotted →
        Chooses t has h result (row (data_of parts.now) (end_with end)) }
    ensures smaller { IfOk result (λ forms. row_weight (data_of forms.now) < row_weight (data_of parts.now)) }
{
    if dotted {
        return Err(ShapeFault::BadForm);
    }
    if parts.is_empty() {
        return Err(ShapeFault::BadForm);
    }
    let mut chosen = None;
    for (place, part) in parts.iter().enumerate() {
        let Some(clause) = clause_in(part) else {
            return Err(ShapeFault::BadForm);
        };
        let last = place + 1 == parts.len();
        let hold = clause_holds(alloc, &known.names, clause.requirement, last)?;
        chosen = or_these(chosen, hold, clause.forms);
    }
    match chosen {
        None => Ok(&[]),
        Some(forms) => Ok(forms),
    }
}
