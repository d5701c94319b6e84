//! What the documents give that others include, each counted once for each way, and the forms of units over that (R7RS 4.1.7, 5.6.1).
ghost use Rattle.std.specs.Prelude.{◌≡◌, ◌<◌, ℕ, List, map, length, slice_get, Some, IfOk, OnOk};
ghost use Rattle.std.specs.Bool.{OnTrue};
ghost use Rattle.scheme_model.specs.Included.{Sources, Texts};
ghost use Rattle.included_forms.specs.Planned.{plan_listing};
ghost use Rattle.included_forms.specs.Counted.{IsWritten, IsPart, in_way};
ghost use Rattle.included_forms.specs.Tables.{Serve, given_of, givens};
ghost use Rattle.included_forms.specs.Built.{IsText, AreDocuments, AreUsable, IsTable, StandAt, standing_for};
ghost use Rattle.included_forms.specs.declared.resolving.Standing.TheVariants as standing;

use crate::counting::{count_steps, giving_steps};
use crate::given::{Part, Written};
use crate::plans::{Plan, included_plan};
use crate::resolving::{Standing, standing_at, steps_given};
use crate::steps::Way;
use datum_reader::Datum;
use included_documents::Uris;
use known_libraries::KnownLibraries;
use ls_base::Mem;
use std::alloc::Global;

/// A document: its data, and the number of its program among the units.
#[derive(Clone, Copy)]
pub struct Text<'a> {
    pub data: &'a [Datum],
    pub unit: u32,
}

/// Documents as units see them: the most tokens of a unit, the libraries that there are, what strings mean, and the texts.
#[derive(Drop)]
pub struct Documents<'a> {
    pub limit: u32,
    pub known: &'a KnownLibraries,
    pub uris: &'a Uris,
    pub texts: &'a [Text<'a>],
}

/// The texts that can be included, each behind those that it includes, and where each document stands among them.
#[derive(Drop)]
pub struct Table<'a> {
    pub parts: Vec<Part<'a>>,
    pub places: Vec<Standing>,
}

/// A plan as it is written, over the texts of a table.
pub fn plan_written<'a>(
    alloc: Global,
    documents: &Documents<'a>,
    table: &Table<'a>,
    document: u32,
    plan: Plan<'a>,
) -> Mem<Written<'a>>
    requires { document < length documents.now.uris.now }
    ensures { (o : Sources) (t : Texts) → AreDocuments o documents.now → Serve o t → (ms : List ℕ) → StandAt o t ms table.now →
        IfOk result (λ w. IsWritten o.limit (givens o t ms) w (plan_listing t document plan.entry)) }
{
    let Plan { steps, bad } = plan;
    let steps = steps_given(
        alloc,
        documents.uris,
        table.places.as_slice(),
        document,
        steps.as_slice(),
    )?;
    let count = count_steps(
        documents.limit,
        table.parts.as_slice(),
        steps.as_slice(),
        bad,
    );
    let giving = giving_steps(alloc, table.parts.as_slice(), steps.as_slice())?;
    Ok(Written {
        steps,
        giving,
        bad,
        count,
    })
}

/// What a text gives in a way, over the texts of a table.
fn text_written<'a>(
    alloc: Global,
    documents: &Documents<'a>,
    table: &Table<'a>,
    document: u32,
    text: Text<'a>,
    way: Way,
) -> Mem<Written<'a>>
    requires { document < length documents.now.uris.now }
    ensures { (o : Sources) (t : Texts) → AreDocuments o documents.now → IsText o document text.entry → Serve o t → (ms : List ℕ) → StandAt o t ms table.now →
        IfOk result (λ w. IsWritten o.limit (givens o t ms) w (in_way (given_of o t document) way)) }
{
    let plan = included_plan(alloc, documents.known, way, document, text.unit, text.data)?;
    plan_written(alloc, documents, table, document, plan)
}

/// What a text gives in both ways, over the texts of a table.
fn text_part<'a>(
    alloc: Global,
    documents: &Documents<'a>,
    table: &Table<'a>,
    document: u32,
    text: Text<'a>,
) -> Mem<Part<'a>>
    requires { document < length documents.now.uris.now }
    ensures { (o : Sources) (t : Texts) → AreDocuments o documents.now → IsText o document text.entry → Serve o t → (ms : List ℕ) → StandAt o t ms table.now →
        IfOk result (λ p. IsPart o.limit (givens o t ms) p (given_of o t document)) }
{
    let forms = text_written(alloc, documents, table, document, text, Way::Forms)?;
    let declarations = text_written(alloc, documents, table, document, text, Way::Declarations)?;
    Ok(Part {
        forms,
        declarations,
    })
}

/// Whether a document can be included and doesn't stand yet.
fn comes_later(places: &[Standing], document: usize) -> bool
    ensures { OnTrue result (slice_get places.now document ≡ Some standing.Later) }
{
    match standing_at(places, document) {
        Some(Standing::Later) => true,
        Some(Standing::Unusable) => false,
        Some(Standing::At(_)) => false,
        None => false,
    }
}

/// Adds a document that can be included, behind those that it includes. A document that can't be, or that stands already, is passed.
fn add<'a>(
    alloc: Global,
    documents: &Documents<'a>,
    table: &mut Table<'a>,
    document: u32,
) -> Mem<()>
    requires { length documents.now.texts.now ≡ length documents.now.uris.now }
    ensures { (o : Sources) → AreDocuments o documents.now → IsTable o table.old → OnOk result (IsTable o table.new) }
{
    if document as usize >= documents.texts.len() {
        return Ok(());
    }
    if !comes_later(table.places.as_slice(), document as usize) {
        return Ok(());
    }
    let text = documents.texts[document as usize];
    let part = text_part(alloc, documents, table, document, text)?;
    let place = table.parts.len();
    table.parts.push(part)?;
    table.places[document as usize] = Standing::At(place);
    Ok(())
}

/// Where a document stands before any is added.
fn standing_for(usable: bool) -> Standing
    ensures { result ≡ standing_for usable }
{
    if usable {
        return Standing::Later;
    }
    Standing::Unusable
}

/// Where documents stand before any is added.
fn standings(alloc: Global, usable: &[bool]) -> Mem<Vec<Standing>>
    ensures { IfOk result (λ places. places.items ≡ map standing_for usable.now) }
{
    let mut places = Vec::new(alloc);
    for can_be in usable {
        places.push(standing_for(*can_be))?;
    }
    Ok(places)
}

/// A table with no text.
fn empty<'a>(alloc: Global, usable: &[bool]) -> Mem<Table<'a>>
    ensures { (o : Sources) → AreUsable o.usable usable.now → IfOk result (IsTable o) }
{
    let places = standings(alloc, usable)?;
    Ok(Table {
        parts: Vec::new(alloc),
        places,
    })
}

impl<'a> Table<'a> {
    /// The table of documents of which these can be included, in an order in which each comes after those that it includes.
    pub fn of(
        alloc: Global,
        documents: &Documents<'a>,
        usable: &[bool],
        order: &[u32],
    ) -> Mem<Table<'a>>
        requires { length documents.now.texts.now ≡ length documents.now.uris.now }
        ensures { (o : Sources) → AreDocuments o documents.now → AreUsable o.usable usable.now → IfOk result (IsTable o) }
    {
        let mut table = empty(alloc, usable)?;
        for document in order {
            add(alloc, documents, &mut table, *document)?;
        }
        Ok(table)
    }
}
