//! The members of a class that would get two new names.
ghost use Rattle.std.specs.Prelude.{◌≡◌, ◌<◌, ℕ, [], List, length, map, None, IfOk, IfNone, IfSome};
ghost use Rattle.std.specs.Option.{option_map};
ghost use Rattle.std.specs.FinMap.{entries};
ghost use Rattle.scheme_model.specs.declared.Occ.{Occ as AnyOcc};
ghost use Rattle.scheme_model.specs.Answers.{bytes_before};
ghost use Rattle.arrow_index.specs.Classes.{AreParts};
ghost use Rattle.read_documents.specs.Places.{bytes_at};
ghost use Rattle.read_documents.specs.Readings.{Read, AreReadAs};
ghost use Rattle.program_answers.specs.Classed.{bare_part, head_of};
ghost use Rattle.program_answers.specs.ToldAnswers.{facts_in, place_told};
ghost use Rattle.class_edits.specs.Clashes.{clashes, clashing};
ghost use Rattle.class_edits.specs.FirstBytes.{earlier, first_of, is_same, repeated};

use ls_base::{Encoding, Mem, Place};
use program_answers::classes::ClassPart;
use program_answers::open::Open;
use read_documents::findings::At;
use scheme_model::Occ;

/// The place of the first member of a class, by document and start, that would get two new names. `None` exactly where each would
/// get one.
pub fn first_clash(texts: &Open, parts: &[ClassPart], encoding: Encoding) -> Mem<Option<Place>>
    requires { 0 < length (entries texts.now) }
    ensures exact { (rs : List Read) (at : AnyOcc) → AreReadAs (entries texts.now) rs → AreParts (map bare_part parts.now) (facts_in rs).links at →
        IfOk result (λ place. place ≡ option_map (place_told encoding (entries texts.now)) (head_of (clashes (facts_in rs) at))) }
    ensures apart { (rs : List Read) (at : AnyOcc) → AreReadAs (entries texts.now) rs → AreParts (map bare_part parts.now) (facts_in rs).links at →
        IfOk result (λ place. IfNone place (clashing (facts_in rs).links at ≡ [])) }
{
    match first_repeated(texts, parts) {
        Some(at) => Ok(Some(texts.place(at, encoding)?)),
        None => Ok(None),
    }
}

/// The first bytes, by document and start, of an occurrence that has two parts one behind the other.
fn first_repeated(texts: &Open, parts: &[ClassPart]) -> Option<At>
    requires { 0 < length (entries texts.now) }
    ensures inside { IfSome result (λ at. at.document < length (entries texts.now)) }
    ensures exact { (rs : List Read) → AreReadAs (entries texts.now) rs → option_map bytes_at result ≡ first_of None (map (facts_in rs).bytes (repeated None parts.now)) }
{
    let mut first = None;
    let mut last = None;
    for part in parts {
        if is_same(last, part.occ) {
            first = Some(earlier(first, texts.bytes_of(part.occ)));
        }
        last = Some(part.occ);
    }
    first
}

/// Whether an occurrence is the last one.
fn is_same(last: Option<Occ>, occ: Occ) -> bool
    ensures { result ≡ is_same last occ }
{
    match last {
        Some(last) => last == occ,
        None => false,
    }
}

/// Of two places the first by document, start and end.
fn earlier(first: Option<At>, at: At) -> At
    ensures exact { bytes_at result ≡ earlier (option_map bytes_at first) (bytes_at at) }
    ensures inside { (count : ℕ) → at.document < count → IfSome first (λ a. a.document < count) → result.document < count }
{
    match first {
        Some(first) => { if is_before(at, first) { at } else { first } }
        None => at,
    }
}

/// Whether bytes stand before others, by document, start and end.
fn is_before(at: At, other: At) -> bool
    ensures { result ≡ bytes_before (bytes_at at) (bytes_at other) }
{
    (at.document, at.span.start, at.span.end) < (other.document, other.span.start, other.span.end)
}
