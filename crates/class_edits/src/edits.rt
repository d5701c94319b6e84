//! The edits of each open document.
ghost use Rattle.std.specs.Prelude.{◌≡◌, ◌<◌, ◌==◌, [], ℕ, List, length, map, IfOk, OnOk, if◌then◌else◌};
ghost use Rattle.std.specs.BTreeMap.{get};
ghost use Rattle.std.specs.FinMap.{entries};
ghost use Rattle.std.specs.Ordering.{nat_cmp};
ghost use Rattle.scheme_model.specs.declared.Occ.{Occ};
ghost use Rattle.scheme_model.specs.Diagnostics.{spans_at};
ghost use Rattle.scheme_model.specs.Sites.{or_else};
ghost use Rattle.read_documents.specs.Places.{spans_of};
ghost use Rattle.read_documents.specs.Readings.{Read, AreReadAs, program_in};
ghost use Rattle.program_answers.specs.ToldAnswers.{facts_in, text_of};
ghost use Rattle.text_edits.specs.Members.{identifiers_of, name_at};
ghost use Rattle.text_edits.specs.NewNames as new;
ghost use Rattle.text_edits.specs.Views.{CanEdit, edit_of, identifier_by, occ_cmp};
ghost use Rattle.class_edits.specs.DocumentEdits.{CanEditAll, edits_of_class, seen};
ghost use Rattle.class_edits.specs.Named.{AreNamed, edits_by, identifiers_in};

use ls_base::{Items, Mem};
use program_answers::open::Open;
use read_documents::heads::Head;
use std::alloc::Global;
use std::collections::BTreeMap;
use text_edits::{Edit, Members, TokenNames, edits_of, note_names};

/// The edits of each open document by which members get their new names.
pub fn class_edits(alloc: Global, texts: &Open, members: &Members) -> Mem<Items<Items<Edit>>>
    // Where these are the members of a class with a new stem.
    ensures exact { (rs : List Read) (at : Occ) (stem : List ℕ) → AreReadAs (entries texts.now) rs → AreNamed (facts_in rs).links stem at (λ o. get occ_cmp members.now o) →
        IfOk result (λ all. seen all ≡ edits_of_class (entries texts.now) rs stem at) }
    // They can be made.
    ensures made { IfOk result (CanEditAll (entries texts.now)) }
{
    let all = all_edits(alloc, texts, members)?;
    Ok(all)
}

/// The edits of each open document by which members get their new names.
fn all_edits(alloc: Global, texts: &Open, members: &Members) -> Mem<Items<Items<Edit>>>
    ensures exact { (rs : List Read) → AreReadAs (entries texts.now) rs →
        IfOk result (λ all. seen all ≡ edits_by (λ o. get occ_cmp members.now o) (program_in rs).units 0 (entries texts.now) rs) }
    ensures made { IfOk result (CanEditAll (entries texts.now)) }
{
    let mut all = Items::new(alloc);
    for document in 0..texts.documents().len() {
        let edits = document_edits(alloc, texts, members, document)?;
        all.push(edits)?;
    }
    Ok(all)
}

/// The edits of a document.
fn document_edits(
    alloc: Global,
    texts: &Open,
    members: &Members,
    document: usize,
) -> Mem<Items<Edit>>
    requires { document < length (entries texts.now) }
    ensures exact { (rs : List Read) → AreReadAs (entries texts.now) rs →
        IfOk result (λ edits. map edit_of edits
        ≡ new.edits_of (name_at (λ o. get occ_cmp members.now o) (identifiers_of document (program_in rs).units)) (text_of (entries texts.now) document) (spans_at (spans_of rs) document)) }
    ensures made { IfOk result (CanEdit (text_of (entries texts.now) document)) }
{
    let names = token_names(alloc, members, texts.places().heads, document)?;
    let spans = texts.document(document).spans.as_slice();
    let edits = edits_of(alloc, texts.text(document), spans, &names)?;
    Ok(edits)
}

/// The new names of the tokens of a document.
fn token_names(alloc: Global, members: &Members, heads: &[Head], document: usize) -> Mem<TokenNames>
    ensures { IfOk result (λ names. (n : ℕ) → get nat_cmp names n ≡ name_at (λ o. get occ_cmp members.now o) (identifiers_in document heads.now) n) }
{
    let mut names = BTreeMap::new(alloc);
    for head in heads {
        note_unit(&mut names, members, head, document)?;
    }
    Ok(names)
}

/// Notes the new names of the identifiers of a unit, where it is of the document.
fn note_unit(names: &mut TokenNames, members: &Members, head: &Head, document: usize) -> Mem<()>
    ensures { OnOk result ((n : ℕ) → get nat_cmp names.new n
        ≡ or_else (get nat_cmp names.old n) (name_at (λ o. get occ_cmp members.now o) (if head.now.document == document then map (identifier_by head.now.firsts.items) head.now.names.items else []) n)) }
{
    if head.document != document {
        return Ok(());
    }
    note_names(
        names,
        members,
        head.names.as_slice(),
        head.firsts.as_slice(),
    )
}
