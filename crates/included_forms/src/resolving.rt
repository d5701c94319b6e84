//! Which texts the strings of steps mean, by their places in a table.
ghost use Rattle.std.specs.Prelude.{◌≡◌, ◌<◌, ℕ, List, map, length, slice_get, IfOk};
ghost use Rattle.scheme_model.specs.Included.{Sources, Texts};
ghost use Rattle.included_documents.specs.Meant.{meant};
ghost use Rattle.included_forms.specs.Counted.{listing_of};
ghost use Rattle.included_forms.specs.Steps.{given_by, string_of, text_by};
ghost use Rattle.included_forms.specs.Tables.{Serve, Mean, Placed, givens, IsByStanding};

use crate::given::{Given, LostString};
use crate::steps::{Step, TextString, Way};
use included_documents::Uris;
use ls_base::{Mem, Memory};
use std::alloc::Global;

/// Where a document stands in a table: it can't be included, it comes later, or it is at a place.
#[derive(Clone, Copy)]
pub enum Standing {
    Unusable,
    Later,
    At(usize),
}

/// What a string gives, by the standing of the document that it means. Memory for a text that comes later isn't there.
fn by_standing<'a>(
    standing: Option<Standing>,
    document: u32,
    string: TextString<'a>,
    way: Way,
) -> Mem<Given<'a>>
    ensures { IsByStanding standing document string.entry way result }
{
    match standing {
        None => Ok(Given::Lost(LostString { document, string })),
        Some(Standing::Unusable) => Ok(Given::Lost(LostString { document, string })),
        Some(Standing::Later) => Err(Memory),
        Some(Standing::At(place)) => Ok(Given::Text(place, way)),
    }
}

/// Where a document stands, if there is one at this place.
pub fn standing_at(places: &[Standing], document: usize) -> Option<Standing>
    ensures { result ≡ slice_get places.now document }
{
    if document < places.len() {
        return Some(places[document]);
    }
    None
}

/// What a string gives.
fn text_given<'a>(
    alloc: Global,
    uris: &Uris,
    places: &[Standing],
    document: u32,
    string: TextString<'a>,
    way: Way,
) -> Mem<Given<'a>>
    requires { document < length uris.now }
    ensures { (o : Sources) (t : Texts) (ms : List ℕ) → Serve o t → Mean o uris.now → Placed o.usable ms places.now →
        IfOk result (λ given. listing_of (givens o t ms) given ≡ text_by t way document (string_of string.entry)) }
{
    let meant = uris.meant(alloc, document as usize, string.characters)?;
    match meant {
        None => Ok(by_standing(None, document, string, way)?),
        Some(place) => Ok(by_standing(standing_at(places, place), document, string, way)?),
    }
}

/// What a step gives.
fn step_given<'a>(
    alloc: Global,
    uris: &Uris,
    places: &[Standing],
    document: u32,
    step: Step<'a>,
) -> Mem<Given<'a>>
    requires { document < length uris.now }
    ensures { (o : Sources) (t : Texts) (ms : List ℕ) → Serve o t → Mean o uris.now → Placed o.usable ms places.now →
        IfOk result (λ given. listing_of (givens o t ms) given ≡ given_by t document step.entry) }
{
    match step {
        Step::Form(form) => Ok(Given::Form(form)),
        Step::Text(string, way) => text_given(alloc, uris, places, document, string, way),
    }
}

/// What steps of a document give.
pub fn steps_given<'a>(
    alloc: Global,
    uris: &Uris,
    places: &[Standing],
    document: u32,
    steps: &[Step<'a>],
) -> Mem<Vec<Given<'a>>>
    requires { document < length uris.now }
    ensures { (o : Sources) (t : Texts) (ms : List ℕ) → Serve o t → Mean o uris.now → Placed o.usable ms places.now →
        IfOk result (λ given. map (listing_of (givens o t ms)) given.items ≡ map (given_by t document) steps.now) }
{
    let mut all = Vec::new(alloc);
    for step in steps {
        let given = step_given(alloc, uris, places, document, *step)?;
        all.push(given)?;
    }
    Ok(all)
}
