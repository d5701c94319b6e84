//! What a refused rename says (LSP 3.17, ResponseError).
ghost use Rattle.std.specs.Prelude.{◌≡◌, ◌≢◌, ◌<◌, ◌++◌, ℕ, List, length, codes, IfOk, OnOk};
ghost use Rattle.std.specs.FinMap.{entries};
ghost use Rattle.std.specs.Fmt.{decimal};
ghost use Rattle.scheme_model.specs.Diagnostics.{bytes_of};
ghost use Rattle.rename_model.specs.Difference as model;
ghost use Rattle.read_documents.specs.Places.{spans_of};
ghost use Rattle.read_documents.specs.Readings.{Read, AreReadAs, program_in};
ghost use Rattle.program_answers.specs.Placed.{form_bytes};
ghost use Rattle.program_differences.specs.Differences.{IsDifference, kind_number, side_as};
ghost use Rattle.program_differences.specs.declared.plan.Difference.{Difference as AnyDifference};
ghost use Rattle.rename_conditions.specs.Readers.{Reader, IsReader};
ghost use Rattle.rename_conditions.specs.Opened.{place_of};
ghost use Rattle.rename_conditions.specs.Renames.{Refusal};
ghost use Rattle.rename_answers.specs.ReadDocuments.{read_as};
ghost use Rattle.rename_answers.specs.RefusalTexts as spec;
ghost use Rattle.rename_answers.specs.RenameOutcomes.{IsFaultOf};
ghost use Rattle.rename_answers.specs.ToldRenames.{opened_as};

use ls_base::{Mem, Memory, Place, Text};
use program_differences::plan::{Difference, Side};
use rename_answers::RenameFault;
use scheme_model::Occ;
use std::alloc::Global;
use workspace_state::Workspace;

/// The text of a refusal: its number and what it is about. Want of memory is passed on.
pub fn refusal_text(alloc: Global, ws: &Workspace, fault: &RenameFault) -> Mem<Text>
    requires documents { (d : AnyDifference) → fault.now ≡ RenameFault.Differs d → 0 < length (entries ws.now.texts) }
    ensures memory { OnOk result (fault.now ≢ RenameFault.Memory) }
    ensures text { (r : Reader) (refusal : Refusal) → IsReader r → IsFaultOf ws.now.encoding (entries ws.now.texts) refusal fault.now →
        IfOk result (λ text. text ≡ spec.refusal_text ws.now.encoding (entries ws.now.texts) (opened_as r (entries ws.now.texts)) refusal) }
{
    match fault {
        RenameFault::Memory => Err(Memory),
        RenameFault::NotBound => Ok(Text::of(alloc, "refused 1 not bound")?),
        RenameFault::Standard(name) => Ok(with(alloc, "refused 2 standard ", name)?),
        RenameFault::BadName => Ok(Text::of(alloc, "refused 3 bad name")?),
        RenameFault::Unreadable(uri) => Ok(with(alloc, "refused 4 unreadable ", uri)?),
        RenameFault::PrefixLost(prefix) => Ok(with(alloc, "refused 5 prefix lost ", prefix)?),
        RenameFault::PrefixClash(place) => {
            let start = start_text(alloc, place)?;
            Ok(with(alloc, "refused 6 prefix clash ", &start)?)
        }
        RenameFault::BrokenUnit { place, code } => Ok(broken_text(alloc, place, *code)?),
        RenameFault::Limit(uri) => Ok(with(alloc, "refused 8 text too long ", uri)?),
        RenameFault::Differs(difference) => {
            let text = difference_text(alloc, ws, difference)?;
            Ok(with(alloc, "refused 9 ", &text)?)
        }
    }
}

/// A text with another behind it.
fn with(alloc: Global, front: &str, text: &Text) -> Mem<Text>
    ensures { IfOk result (λ whole. whole ≡ front.now ++ text.now) }
{
    let text = text.as_str();
    Ok(Text::from_string(format!(in alloc; "{front}{text}")?))
}

/// A text with words and another text behind it.
fn joined(alloc: Global, front: &str, words: &str, text: &Text) -> Mem<Text>
    ensures { IfOk result (λ whole. whole ≡ front.now ++ (words.now ++ text.now)) }
{
    let text = text.as_str();
    Ok(Text::from_string(format!(in alloc; "{front}{words}{text}")?))
}

/// The start of a place, as `URI:LINE:CHARACTER`.
fn start_text(alloc: Global, place: &Place) -> Mem<Text>
    ensures { IfOk result (λ text. text ≡ spec.start_text place.now.uri place.now.range.start) }
{
    let uri = place.uri.as_str();
    let line = place.range.start.line;
    let character = place.range.start.character;
    Ok(Text::from_string(format!(in alloc; "{uri}:{line}:{character}")?))
}

/// That a unit in reach has an Error.
fn broken_text(alloc: Global, place: &Place, code: u32) -> Mem<Text>
    ensures { IfOk result (λ text. text ≡ codes "refused 7 broken " ++ spec.start_text place.now.uri place.now.range.start ++ (codes " " ++ decimal code)) }
{
    let start = start_text(alloc, place)?;
    let start = start.as_str();
    Ok(Text::from_string(format!(in alloc; "refused 7 broken {start} {code}")?))
}

/// The name of a kind.
fn kind_text(kind: u8) -> &'static str
    ensures { (k : model.Kind) → kind ≡ kind_number k → result.now ≡ spec.kind_text k }
{
    match kind {
        1 => "captured",
        2 => "shadowed",
        3 => "quoted",
        4 => "template",
        5 => "export",
        6 => "structure",
        _ => "broken",
    }
}

/// A difference: its kind, where it is, and both sides.
fn difference_text(alloc: Global, ws: &Workspace, difference: &Difference) -> Mem<Text>
    requires { 0 < length (entries ws.now.texts) }
    ensures { (rs : List Read) (d : model.Difference) → AreReadAs (entries ws.now.texts) rs → IsDifference difference.now d →
        IfOk result (λ text. text ≡ spec.difference_text ws.now.encoding (entries ws.now.texts) (read_as (entries ws.now.texts) rs) d) }
{
    let start = difference_start(alloc, ws, difference)?;
    let before = side_text(alloc, ws, &difference.before)?;
    let after = side_text(alloc, ws, &difference.after)?;
    let front = joined(alloc, kind_text(difference.kind), " ", &start)?;
    let front = joined(alloc, front.as_str(), " from ", &before)?;
    Ok(joined(alloc, front.as_str(), " to ", &after)?)
}

/// Where a difference is: at its occurrence, or where it has none at its form.
fn difference_start(alloc: Global, ws: &Workspace, difference: &Difference) -> Mem<Text>
    requires { 0 < length (entries ws.now.texts) }
    ensures { (rs : List Read) → AreReadAs (entries ws.now.texts) rs → IfOk result (λ text. text
        ≡ spec.place_text ws.now.encoding (entries ws.now.texts) (spec.difference_bytes (read_as (entries ws.now.texts) rs) difference.now.unit difference.now.form difference.now.occ)) }
{
    match difference.occ {
        Some(occ) => Ok(occ_text(alloc, ws, occ)?),
        None => {
            let place = ws.form_place(difference.unit, difference.form)?;
            Ok(start_text(alloc, &place)?)
        }
    }
}

/// Where an occurrence starts.
fn occ_text(alloc: Global, ws: &Workspace, occ: Occ) -> Mem<Text>
    requires { 0 < length (entries ws.now.texts) }
    ensures { (rs : List Read) → AreReadAs (entries ws.now.texts) rs →
        IfOk result (λ text. text ≡ spec.place_text ws.now.encoding (entries ws.now.texts) (place_of (read_as (entries ws.now.texts) rs) occ)) }
{
    let place = ws.place_of(occ)?;
    Ok(start_text(alloc, &place)?)
}

/// One side of a difference.
fn side_text(alloc: Global, ws: &Workspace, side: &Side) -> Mem<Text>
    requires { 0 < length (entries ws.now.texts) }
    ensures { (rs : List Read) → AreReadAs (entries ws.now.texts) rs → IfOk result (λ text. text
        ≡ spec.side_text (λ o. spec.place_text ws.now.encoding (entries ws.now.texts) (place_of (read_as (entries ws.now.texts) rs) o)) (side_as side.now)) }
{
    match side {
        Side::Binder(occ) => Ok(occ_text(alloc, ws, *occ)?),
        Side::Standard(name) => Ok(with(alloc, "standard ", name)?),
        Side::Unbound(name) => Ok(with(alloc, "unbound ", name)?),
        Side::Symbol(name) => Ok(name.clone()?),
        Side::Nothing => Ok(Text::of(alloc, "nothing")?),
    }
}
