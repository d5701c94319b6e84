//! What is answered about positions of the open documents (LSP 3.17, "Language Features"): where a name is bound and used, and what
//! arrows a document has.
ghost use Rattle.std.specs.Prelude.{◌≡◌, ◌<◌, ◌↔◌, ◌++◌, ℕ, List, [], filter, length, map, None, if◌then◌else◌, IfOk, OnOk};
ghost use Rattle.std.specs.FinMap.{entries};
ghost use Rattle.std.specs.List.{flat_map};
ghost use Rattle.std.specs.List.Sorted.{IsStrictlySortedBy};
ghost use Rattle.ls_base.specs.declared.encoding.Encoding.{Encoding};
ghost use Rattle.document_store.specs.Texts.{Document as Entry};
ghost use Rattle.scheme_model.specs.declared.Occ.{Occ as AnyOcc};
ghost use Rattle.scheme_model.specs.ProgramArrows as program;
ghost use Rattle.program_leaves.specs.Pairs.{AreArrows, pair_cmp};
ghost use Rattle.program_leaves.specs.Members.{IsIn};
ghost use Rattle.scheme_model.specs.Answers as told;
ghost use Rattle.program_answers.specs.AskedOf.{IsSource};
ghost use Rattle.program_answers.specs.BytesKept.{AreDrawnInside, AreInside, AreLitInside, HaveTokens, bytes_seen, drawn_seen, has_end, lit_seen, pair_bytes};
ghost use Rattle.read_documents.specs.Readings.{Read};
ghost use Rattle.program_answers.specs.ToldAnswers.{answer_of, answer_told, arrow_told, facts_in, highlight_told, place_told, query_of};

use crate::asked::Asked;
use crate::bytes::{Bytes, Drawn, Lit, bytes_in_order, drawn_in_order, lit_in_order};
use arrow_index::queries::uses_of;
use ls_base::{Answer, Arrow, Highlight, Items, Mem, Place, Pos, Query};
use program_leaves::pairs::Pair;
use scheme_model::Occ;
use std::alloc::Global;

/// The answer to a query at a position of a document.
pub fn answer(asked: &Asked<'_>, query: Query, uri: &str, position: Pos) -> Mem<Answer>
    requires { IsStrictlySortedBy pair_cmp asked.now.index.now.arrows }
    ensures { (rs : List Read) → IsSource asked.now.texts.now rs asked.now.index.now →
        IfOk result (λ answer. answer ≡ answer_of asked.now.encoding (entries asked.now.texts.now) rs uri.now position (query_of query)) }
{
    let Some(document) = asked.texts.number_of(uri) else {
        return Ok(no_answer(asked.alloc, query));
    };
    match asked.name_in(document, position) {
        Some(occ) => Ok(answer_about(asked, document, occ, query)?),
        None => Ok(answer_beside(asked, document, query)?),
    }
}

/// What is answered where no document is open.
fn no_answer(alloc: Global, query: Query) -> Answer
    ensures { (encoding : Encoding) (ds : List (List ℕ × Entry)) → result ≡ answer_told encoding ds (told.no_answer (query_of query)) }
{
    match query {
        Query::Definition => Answer::Places(Items::new(alloc)),
        Query::References { .. } => Answer::Places(Items::new(alloc)),
        Query::Highlights => Answer::Highlights(Items::new(alloc)),
        Query::Prepare => Answer::Nothing,
        Query::Arrows => Answer::Arrows(Items::new(alloc)),
    }
}

/// What is answered in a document where no identifier stands.
fn answer_beside(asked: &Asked<'_>, document: usize, query: Query) -> Mem<Answer>
    requires { 0 < length (entries asked.now.texts.now) }
    ensures { (rs : List Read) → IsSource asked.now.texts.now rs asked.now.index.now →
        IfOk result (λ answer. answer ≡ answer_told asked.now.encoding (entries asked.now.texts.now) (told.answer_at (facts_in rs) document None (query_of query))) }
{
    match query {
        Query::Arrows => Ok(Answer::Arrows(arrows(asked, document)?)),
        _ => Ok(no_answer(asked.alloc, query)),
    }
}

/// What is answered about an occurrence in a document.
fn answer_about(asked: &Asked<'_>, document: usize, occ: Occ, query: Query) -> Mem<Answer>
    requires open { 0 < length (entries asked.now.texts.now) }
    requires sorted { IsStrictlySortedBy pair_cmp asked.now.index.now.arrows }
    ensures { (rs : List Read) → IsSource asked.now.texts.now rs asked.now.index.now →
        IfOk result (λ answer. answer ≡ answer_told asked.now.encoding (entries asked.now.texts.now) (told.answer_about (facts_in rs) document occ (query_of query))) }
{
    match query {
        Query::Definition => Ok(Answer::Places(definition(asked, occ)?)),
        Query::References { declaration } => {
            Ok(Answer::Places(references(asked, occ, declaration)?))
        }
        Query::Highlights => Ok(Answer::Highlights(highlights(asked, document, occ)?)),
        Query::Prepare => Ok(prepared(asked, occ)?),
        Query::Arrows => Ok(Answer::Arrows(arrows(asked, document)?)),
    }
}

/// The binders of an occurrence.
fn definition(asked: &Asked<'_>, occ: Occ) -> Mem<Items<Place>>
    requires { 0 < length (entries asked.now.texts.now) }
    ensures { (rs : List Read) → IsSource asked.now.texts.now rs asked.now.index.now →
        IfOk result (λ places. places ≡ map (place_told asked.now.encoding (entries asked.now.texts.now)) (told.places_for (facts_in rs) (told.binders_for (facts_in rs) occ))) }
{
    let binders = asked.index.binders_of(asked.alloc, occ)?;
    let places = places_of(asked, binders.as_slice())?;
    Ok(places)
}

/// The uses of an occurrence, and its binders unless they are left out.
fn references(asked: &Asked<'_>, occ: Occ, declaration: bool) -> Mem<Items<Place>>
    requires open { 0 < length (entries asked.now.texts.now) }
    requires sorted { IsStrictlySortedBy pair_cmp asked.now.index.now.arrows }
    ensures { (rs : List Read) → IsSource asked.now.texts.now rs asked.now.index.now →
        IfOk result (λ places. places ≡ map (place_told asked.now.encoding (entries asked.now.texts.now))
        (told.places_for (facts_in rs) ((if declaration then told.binders_for (facts_in rs) occ else []) ++ told.uses_for (facts_in rs) occ))) }
{
    let occs = occs_of(asked, occ, declaration)?;
    let places = places_of(asked, occs.as_slice())?;
    Ok(places)
}

/// The uses of an occurrence and its binders, of which some may stand twice; no binders where they are left out.
fn occs_of(asked: &Asked<'_>, occ: Occ, declaration: bool) -> Mem<Vec<Occ>>
    requires { IsStrictlySortedBy pair_cmp asked.now.index.now.arrows }
    ensures { (rs : List Read) → IsSource asked.now.texts.now rs asked.now.index.now →
        IfOk result (λ occs. (o : AnyOcc) → IsIn o occs.items ↔ IsIn o ((if declaration then told.binders_for (facts_in rs) occ else []) ++ told.uses_for (facts_in rs) occ)) }
{
    let binders = asked.index.binders_of(asked.alloc, occ)?;
    let mut occs = uses_of_all(asked, binders.as_slice())?;
    add_if(declaration, binders.as_slice(), &mut occs)?;
    Ok(occs)
}

/// The uses of binders, one behind the other.
fn uses_of_all(asked: &Asked<'_>, binders: &[Occ]) -> Mem<Vec<Occ>>
    requires { IsStrictlySortedBy pair_cmp asked.now.index.now.arrows }
    ensures { (arrows : List program.Arrow) → AreArrows asked.now.index.now.arrows arrows →
        IfOk result (λ uses. (o : AnyOcc) → IsIn o uses.items ↔ IsIn o (flat_map (program.uses_at arrows) binders.now)) }
{
    let mut all = Vec::new(asked.alloc);
    for binder in binders {
        let uses = uses_of(asked.alloc, asked.index.arrows.as_slice(), *binder)?;
        all.extend_from_slice(uses.as_slice())?;
    }
    Ok(all)
}

/// Adds occurrences to others, where that is wanted.
fn add_if(is_wanted: bool, more: &[Occ], occs: &mut Vec<Occ>) -> Mem<()>
    ensures { OnOk result (occs.new.items ≡ occs.old.items ++ (if is_wanted then more.now else [])) }
{
    if is_wanted {
        occs.extend_from_slice(more)?;
    }
    Ok(())
}

// ---- places

/// The places of occurrences, in order, each once.
fn places_of(asked: &Asked<'_>, occs: &[Occ]) -> Mem<Items<Place>>
    requires { 0 < length (entries asked.now.texts.now) }
    ensures { (rs : List Read) → IsSource asked.now.texts.now rs asked.now.index.now →
        IfOk result (λ places. places ≡ map (place_told asked.now.encoding (entries asked.now.texts.now)) (told.places_for (facts_in rs) occs.now)) }
{
    let all = all_bytes(asked, occs)?;
    let sorted = bytes_in_order(all)?;
    let places = places_at(asked, sorted.as_slice())?;
    Ok(places)
}

/// The bytes of occurrences.
fn all_bytes(asked: &Asked<'_>, occs: &[Occ]) -> Mem<Vec<Bytes>>
    requires { 0 < length (entries asked.now.texts.now) }
    ensures inside { IfOk result (λ all. AreInside (length (entries asked.now.texts.now)) (map bytes_seen all.items)) }
    ensures exact { (rs : List Read) → IsSource asked.now.texts.now rs asked.now.index.now →
        IfOk result (λ all. map bytes_seen all.items ≡ map (facts_in rs).bytes occs.now) }
{
    let mut all = Vec::new(asked.alloc);
    for occ in occs {
        all.push(Bytes::of(asked.texts.bytes_of(*occ)))?;
    }
    Ok(all)
}

/// Bytes as places.
fn places_at(asked: &Asked<'_>, all: &[Bytes]) -> Mem<Items<Place>>
    requires { AreInside (length (entries asked.now.texts.now)) (map bytes_seen all.now) }
    ensures { IfOk result (λ places. places ≡ map (place_told asked.now.encoding (entries asked.now.texts.now)) (map bytes_seen all.now)) }
{
    let mut places = Items::new(asked.alloc);
    for bytes in all {
        places.push(asked.texts.place(bytes.at(), asked.encoding)?)?;
    }
    Ok(places)
}

// ---- highlights

/// The uses of an occurrence and its binders in a document, with their kinds.
fn highlights(asked: &Asked<'_>, document: usize, occ: Occ) -> Mem<Items<Highlight>>
    requires open { 0 < length (entries asked.now.texts.now) }
    requires sorted { IsStrictlySortedBy pair_cmp asked.now.index.now.arrows }
    ensures { (rs : List Read) → IsSource asked.now.texts.now rs asked.now.index.now →
        IfOk result (λ lights. lights ≡ map (highlight_told asked.now.encoding (entries asked.now.texts.now))
        (told.lit_in (facts_in rs) document (told.binders_for (facts_in rs) occ ++ told.uses_for (facts_in rs) occ))) }
{
    let occs = occs_of(asked, occ, true)?;
    let all = all_lit(asked, document, occs.as_slice())?;
    let sorted = lit_in_order(all)?;
    let lights = highlights_at(asked, sorted.as_slice())?;
    Ok(lights)
}

/// The bytes of those occurrences that stand in a document, with their kinds.
fn all_lit(asked: &Asked<'_>, document: usize, occs: &[Occ]) -> Mem<Vec<Lit>>
    requires { 0 < length (entries asked.now.texts.now) }
    ensures inside { IfOk result (λ all. AreLitInside (length (entries asked.now.texts.now)) (map lit_seen all.items)) }
    ensures exact { (rs : List Read) → IsSource asked.now.texts.now rs asked.now.index.now →
        IfOk result (λ all. map lit_seen all.items ≡ map (λ o. ((facts_in rs).bytes o, told.kind_of (facts_in rs) o)) (filter (λ o. told.is_in document ((facts_in rs).bytes o)) occs.now)) }
{
    let mut all = Vec::new(asked.alloc);
    for occ in occs {
        let bytes = Bytes::of(asked.texts.bytes_of(*occ));
        if bytes.document == document {
            let kind = asked.index.kind_of(*occ);
            all.push(Lit { bytes, kind })?;
        }
    }
    Ok(all)
}

/// Lit bytes as highlights.
fn highlights_at(asked: &Asked<'_>, all: &[Lit]) -> Mem<Items<Highlight>>
    requires { AreLitInside (length (entries asked.now.texts.now)) (map lit_seen all.now) }
    ensures { IfOk result (λ lights. lights ≡ map (highlight_told asked.now.encoding (entries asked.now.texts.now)) (map lit_seen all.now)) }
{
    let mut lights = Items::new(asked.alloc);
    for lit in all {
        lights.push(Highlight {
            range: asked.texts.range(lit.bytes.at(), asked.encoding),
            kind: lit.kind,
        })?;
    }
    Ok(lights)
}

// ---- a name that can be renamed

/// The range and the token of an occurrence, where it can be renamed.
fn prepared(asked: &Asked<'_>, occ: Occ) -> Mem<Answer>
    requires { 0 < length (entries asked.now.texts.now) }
    ensures { (rs : List Read) → IsSource asked.now.texts.now rs asked.now.index.now →
        IfOk result (λ answer. answer ≡ answer_told asked.now.encoding (entries asked.now.texts.now)
        (if told.is_bound (facts_in rs) occ then told.Prepared ((facts_in rs).bytes occ) else told.Nothing)) }
{
    let is_bound = asked.is_bound(occ)?;
    if !is_bound {
        return Ok(Answer::Nothing);
    }
    let at = asked.texts.bytes_of(occ);
    let range = asked.texts.range(at, asked.encoding);
    let placeholder = asked.texts.written_at(asked.alloc, at)?;
    Ok(Answer::Prepared { range, placeholder })
}

// ---- arrows

/// The arrows that have an end in a document.
fn arrows(asked: &Asked<'_>, document: usize) -> Mem<Items<Arrow>>
    requires { 0 < length (entries asked.now.texts.now) }
    ensures { (rs : List Read) → IsSource asked.now.texts.now rs asked.now.index.now →
        IfOk result (λ arrows. arrows ≡ map (arrow_told asked.now.encoding (entries asked.now.texts.now)) (told.drawn_in (facts_in rs) document)) }
{
    let all = all_drawn(asked, document)?;
    let sorted = drawn_in_order(all)?;
    let arrows = arrows_at(asked, sorted.as_slice())?;
    Ok(arrows)
}

/// The bytes of those arrows that have an end in a document.
fn all_drawn(asked: &Asked<'_>, document: usize) -> Mem<Vec<Drawn>>
    requires { 0 < length (entries asked.now.texts.now) }
    ensures inside { IfOk result (λ all. AreDrawnInside (length (entries asked.now.texts.now)) (map drawn_seen all.items)) }
    ensures exact { (rs : List Read) → IsSource asked.now.texts.now rs asked.now.index.now →
        IfOk result (λ all. map drawn_seen all.items ≡ filter (has_end document) (map (pair_bytes (facts_in rs).bytes) asked.now.index.now.arrows)) }
{
    let mut all = Vec::new(asked.alloc);
    for pair in asked.index.arrows.as_slice() {
        let drawn = drawn_of(asked, pair);
        if drawn.has_end(document) {
            all.push(drawn)?;
        }
    }
    Ok(all)
}

/// The bytes of an arrow.
fn drawn_of(asked: &Asked<'_>, pair: &Pair) -> Drawn
    requires { 0 < length (entries asked.now.texts.now) }
    ensures from { result.from.document < length (entries asked.now.texts.now) }
    ensures to { result.to.document < length (entries asked.now.texts.now) }
    ensures exact { (rs : List Read) → IsSource asked.now.texts.now rs asked.now.index.now → drawn_seen result ≡ pair_bytes (facts_in rs).bytes pair.now }
{
    Drawn {
        from: Bytes::of(asked.texts.bytes_of(pair.binder)),
        to: Bytes::of(asked.texts.bytes_of(pair.target)),
    }
}

/// Drawn pairs as arrows.
fn arrows_at(asked: &Asked<'_>, all: &[Drawn]) -> Mem<Items<Arrow>>
    requires { AreDrawnInside (length (entries asked.now.texts.now)) (map drawn_seen all.now) }
    ensures { (rs : List Read) → IsSource asked.now.texts.now rs asked.now.index.now → HaveTokens (facts_in rs).bytes (map drawn_seen all.now) →
        IfOk result (λ arrows. arrows ≡ map (arrow_told asked.now.encoding (entries asked.now.texts.now)) (map drawn_seen all.now)) }
{
    let mut arrows = Items::new(asked.alloc);
    for drawn in all {
        arrows.push(arrow_at(asked, drawn)?)?;
    }
    Ok(arrows)
}

/// A drawn pair as an arrow, with the token of its use.
fn arrow_at(asked: &Asked<'_>, drawn: &Drawn) -> Mem<Arrow>
    requires from { drawn.now.from.document < length (entries asked.now.texts.now) }
    requires to { drawn.now.to.document < length (entries asked.now.texts.now) }
    ensures { (rs : List Read) (o : AnyOcc) → IsSource asked.now.texts.now rs asked.now.index.now → bytes_seen drawn.now.to ≡ (facts_in rs).bytes o →
        IfOk result (λ arrow. arrow ≡ arrow_told asked.now.encoding (entries asked.now.texts.now) (drawn_seen drawn.now)) }
{
    let from = asked.texts.place(drawn.from.at(), asked.encoding)?;
    let to = asked.texts.place(drawn.to.at(), asked.encoding)?;
    let name = asked.texts.written_at(asked.alloc, drawn.to.at())?;
    Ok(Arrow { from, to, name })
}
