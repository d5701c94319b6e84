//! The workspace: the open documents and the program that they are. Each event reads and expands all of them anew.
ghost use Rattle.std.specs.Prelude.{◌≡◌, ◌+◌, ◌<◌, ◌≤◌, ◌==◌, List, length, map, slice_get, true, false, IfOk, IfSome, OnOk, OnErr};
ghost use Rattle.std.specs.Option.{option_map};
ghost use Rattle.std.specs.FinMap.{empty, entries, keys};
ghost use Rattle.std.specs.List.Sorted.{IsStrictlySortedBy};
ghost use Rattle.ls_base.specs.Limits.{max_documents};
ghost use Rattle.scheme_model.specs.Diagnostics.{bytes_of};
ghost use Rattle.rename_model.specs.Reach.{in_reach};
ghost use Rattle.document_store.specs.Texts as store;
ghost use Rattle.read_documents.specs.Listed.{AreFoundOf};
ghost use Rattle.document_changes.specs.Parts.{is_part_at, meant_by};
ghost use Rattle.workspace_state.specs.ProgramOfTexts.{IsProgramOfTexts};
ghost use Rattle.workspace_state.specs.State.{ArePartsOf};
ghost use Rattle.read_documents.specs.Readings.{Read, AreReadAs, documents_in, first_unread, program_in, uses_in};
ghost use Rattle.core_tree.specs.Units.{IsProgramOf};
ghost use Rattle.program_leaves.specs.Formed.{AreFormedIn};
ghost use Rattle.program_leaves.specs.Pairs.{pair_cmp};
ghost use Rattle.program_answers.specs.AskedOf.{IsSource};
ghost use Rattle.workspace_state.specs.Indexed.{index_in};
ghost use Rattle.program_answers.specs.Classed.{IsClassAt, standard_for};
ghost use Rattle.program_answers.specs.ToldAnswers.{answer_of, facts_in, name_there, number_of, query_of};
ghost use Rattle.program_answers.specs.Placed.{IsErrorAt, IsIn, IsPlace, form_bytes};
ghost use Rattle.read_documents.specs.Places.{spans_of};
ghost use Rattle.read_documents.specs.UnitFindings.{first_error_at};
ghost use Rattle.document_changes.specs.Edited.{CanEdit, edited_texts};
ghost use Rattle.document_changes.specs.Events.{leaves, event_of, fault_of, uri_of};
ghost use Rattle.syntax_tree.specs.Names.{KeepsNames};
ghost use Rattle.syntax_tree.specs.Works.{KeepsTrees};
ghost use Rattle.program_answers.specs.Updates.{Publishes};

use crate::expansion::{Expansion, Indexed};
use crate::trial::Trial;
use core_tree::units::Program;
use document_changes::edited::edited_store;
use document_changes::events::{DocEvent, Updated};
use document_changes::parts::{is_marked, meant_uri, parts_of};
use document_changes::reach::units_in_reach;
use document_changes::texts::{After, after_event};
use document_store::Store;
use ls_base::{Answer, DocEdits, Encoding, Items, Mem, Place, Pos, Query, Steps, Text};
use program_answers::answers::answer;
use program_answers::asked::Asked;
use program_answers::classes::{Class, class_at, standard_at};
use program_answers::lists::{Lists, lists, published};
use program_answers::open::Open;
use program_expansion::program::read_program;
use read_documents::findings::Sorted;
use read_documents::places::PlacedError;
use scheme_model::Occ;
use std::alloc::Global;
use std::collections::BTreeMap;
use std::marker::Model;
use std::sync::ledger::Ledger;
use syntax_tree::trees::Work;
use unit_results::collecting::Reading;

/// The open documents, the program that they are with the trees that it is over, their diagnostics, which of them are parts of others,
/// and the encoding of positions.
/// Contracts see the encoding, the texts and the program; the program and the diagnostics are those of the texts.
#[derive(Drop)]
pub struct Workspace {
    alloc: Global,
    encoding: Encoding,
    texts: Open,
    expansion: Expansion,
    lists: Lists,
    parts: Vec<bool>,
}

impl Model for Workspace {
    ghost use Rattle.workspace_state.specs.State.{State, state_code, BelongTo};
    ghost use Rattle.program_answers.specs.Updates.{entries_shown};

    ghost Value = { State };

    ghost coded = { state_code };

    ghost view = { λ w. record { encoding = w.encoding; texts = w.texts; expansion = w.expansion } };

    ghost invariant = { λ w. BelongTo w.encoding w.texts w.expansion (entries_shown w.lists) w.parts.items };
}

impl Workspace {
    /// A workspace without documents, whose positions are in UTF-16.
    pub fn new(alloc: Global) -> Mem<Workspace>
        ensures texts { IfOk result (λ w. w.texts ≡ empty) }
        ensures encoding { IfOk result (λ w. w.encoding ≡ Encoding.Utf16) }
    {
        Ok(Workspace {
            alloc,
            encoding: Encoding::Utf16,
            texts: Open::new(alloc),
            expansion: Expansion::new(alloc),
            lists: BTreeMap::new(alloc),
            parts: Vec::new(alloc),
        })
    }

    /// From now on positions are in this encoding. No document is open yet, whose diagnostics would have positions in another.
    pub fn set_encoding(&mut self, encoding: Encoding)
        requires { self.old.texts ≡ empty }
        ensures { self.new ≡ record self.old { encoding = encoding } }
    {
        self.encoding = encoding;
    }

    /// The encoding of positions.
    pub fn encoding(&self) -> Encoding
        ensures { result ≡ self.now.encoding }
    {
        self.encoding
    }

    /// Takes an event in, reads all documents and expands their units. Published are the list of the event's document, and each that
    /// isn't as before; after a refusal that leaves the documents as they were nothing is. After want of memory the documents are as
    /// before.
    pub fn update<L: Ledger>(&mut self, event: &DocEvent, steps: &mut Steps<L>) -> Mem<Updated>
        // The texts are what the event leaves, whether it is refused or not; after want of memory they are as before.
        ensures texts { OnOk result (self.new.texts ≡ (store.after self.old.encoding self.old.texts (event_of event.now)).0) }
        ensures kept { OnErr result (self.new ≡ self.old) }
        ensures still { OnOk result (leaves (event_of event.now) (store.after self.old.encoding self.old.texts (event_of event.now)).1 ≡ true → self.new ≡ self.old) }
        ensures encoding { self.new.encoding ≡ self.old.encoding }

        // What is published are the lists that are news of the texts, of the document of the event and of each open one at most;
        // after a refusal that leaves the texts nothing is.
        ensures published { IfOk result (λ updated. Publishes
            (leaves (event_of event.now) (store.after self.old.encoding self.old.texts (event_of event.now)).1)
            self.old.encoding self.old.texts self.new.texts (uri_of event.now) updated.lists) }
        ensures few { IfOk result (λ updated. length updated.lists ≤ max_documents + 1) }

        // The refusal is the store's.
        ensures refused { IfOk result (λ updated. updated.refused
            ≡ option_map fault_of (store.after self.old.encoding self.old.texts (event_of event.now)).1) }

        // Each macro use that the definition counts for the texts is a step. After a refusal that leaves the texts there is none.
        ensures steps { leaves (event_of event.now) (store.after self.old.encoding self.old.texts (event_of event.now)).1 ≡ false →
            (rs : List Read) → AreReadAs (entries self.new.texts) rs → OnOk result (steps.new ≡ steps.old + uses_in rs) }
        ensures quiet { leaves (event_of event.now) (store.after self.old.encoding self.old.texts (event_of event.now)).1 ≡ true → OnOk result (steps.new ≡ steps.old) }
    {
        let alloc = self.alloc;
        let encoding = self.encoding;
        let after = after_event(alloc, self.texts.store(), event, encoding)?;
        let After { store, refused } = after;
        if event.is_left(refused) {
            let lists = Items::new(alloc);
            return Ok(Updated { refused, lists });
        }
        let read = read_all(alloc, store, steps)?;
        let (texts, told) = read;
        let now = lists(alloc, &texts, told.findings.as_slice(), encoding)?;
        let lists = published(alloc, event.uri(), texts.documents(), &self.lists, &now)?;
        let Told {
            expansion,
            parts,
            ..
        } = told;
        self.texts = texts;
        self.expansion = expansion;
        self.lists = now;
        self.parts = parts;
        Ok(Updated { refused, lists })
    }

    /// The text of a document. `None` exactly where it isn't open.
    pub fn text(&self, uri: &str) -> Option<&str>
        ensures { option_map (λ text. text.now) result ≡ store.text_at self.now.texts uri.now }
    {
        self.texts.store().text(uri)
    }

    /// Whether no document is open.
    pub fn is_empty(&self) -> bool
        ensures { result ≡ (length (entries self.now.texts) == 0) }
    {
        self.texts.is_empty()
    }

    /// The first document whose text doesn't read. `None` where all do.
    pub fn unreadable(&self) -> Option<&str>
        ensures { (rs : List Read) → AreReadAs (entries self.now.texts) rs → option_map (λ uri. uri.now) result ≡ first_unread (entries self.now.texts) rs }
    {
        self.texts.unreadable()
    }

    /// Whether a document is a part of others: whether it is open, another open one names it in a list that includes, and it isn't on
    /// a circle of documents that name one another.
    pub fn is_part(&self, uri: &str) -> bool
        ensures { (rs : List Read) → AreReadAs (entries self.now.texts) rs → result ≡ is_part_at (documents_in rs) (number_of (entries self.now.texts) uri.now) }
    {
        is_marked(self.parts.as_slice(), self.texts.number_of(uri))
    }

    /// The uri of the document that a string means in an open document. `None` where it means none, or the document isn't open.
    pub fn meant(&self, uri: &str, string: &str) -> Mem<Option<Text>>
        ensures { IfOk result (λ meant. meant ≡ meant_by (keys self.now.texts) (number_of (entries self.now.texts) uri.now) string.now) }
    {
        let place = self.texts.number_of(uri);
        Ok(meant_uri(self.alloc, self.texts.documents(), place, string)?)
    }

    /// The units of all documents.
    pub fn program(&self) -> &Program
        ensures program { result.now ≡ self.now.expansion.program }
        // They stand for those of the program that the texts are.
        ensures of_texts { IsProgramOfTexts self.now.texts self.now.expansion.work result.now }
        // The forms of each unit stand for something of the definitions.
        ensures formed { AreFormedIn self.now.expansion.work result.now.units }
        // So arrows and links can be asked of it.
        ensures stands { IsProgramOf self.now.expansion.work result.now }
    {
        self.expansion.program()
    }

    /// The trees and names that the program is over.
    pub fn work(&self) -> &Work
        ensures { result.now ≡ self.now.expansion.work }
    {
        self.expansion.work()
    }

    /// The open documents as they are read.
    pub fn open(&self) -> &Open
        ensures { result.now ≡ self.now.texts }
    {
        &self.texts
    }

    /// The units in reach of the occurrences of a class: those that hold one of them, and those that import a unit in reach. They
    /// stand in the order of the program's list.
    pub fn in_reach(&self, class: &Class) -> Mem<Items<u32>>
        ensures { (rs : List Read) → AreReadAs (entries self.now.texts) rs →
            IfOk result (λ units. units ≡ in_reach (program_in rs).units (map (λ part. part.occ) class.now.parts)) }
    {
        let units = units_in_reach(self.alloc, self.expansion.program(), class)?;
        Ok(units)
    }

    /// Tries edits: the program that the texts are with them, over the trees and names of this workspace, which answers as before,
    /// also where memory ran out. The edits of a document are for bytes of its text one behind another; those of one that isn't open
    /// change nothing.
    pub fn try_edits<L: Ledger>(
        &mut self,
        edits: &Items<DocEdits>,
        steps: &mut Steps<L>,
    ) -> Mem<Trial>
        requires { CanEdit self.old.encoding edits.now (entries self.old.texts) }
        ensures texts { self.new.texts ≡ self.old.texts }
        ensures encoding { self.new.encoding ≡ self.old.encoding }
        // The program is as before, and what it stands for stands in what the trees and names grew to.
        ensures program { self.new.expansion.program ≡ self.old.expansion.program }
        ensures trees { KeepsTrees self.old.expansion.work self.new.expansion.work }
        ensures names { KeepsNames self.old.expansion.work.symbols self.new.expansion.work.symbols }
        ensures of_texts { IsProgramOfTexts self.new.texts self.new.expansion.work self.new.expansion.program }
        // The trial's program is that of the edited texts.
        ensures trial { IfOk result (λ trial. IsProgramOfTexts (edited_texts self.old.encoding edits.now self.old.texts) self.new.expansion.work trial.program) }
        ensures formed { IfOk result (λ trial. AreFormedIn self.new.expansion.work trial.program.units) }
        // Each macro use that the definition counts for the edited texts is a step.
        ensures steps { (rs : List Read) → AreReadAs (entries (edited_texts self.old.encoding edits.now self.old.texts)) rs → OnOk result (steps.new ≡ steps.old + uses_in rs) }
    {
        let alloc = self.alloc;
        let store = edited_store(alloc, &self.texts, edits.as_slice(), self.encoding)?;
        let program = self.expansion.try_program(alloc, &store, steps)?;
        Ok(Trial::of(program))
    }

    /// Ends a trial.
    pub fn end_trial(&mut self, _trial: Trial)
        ensures { self.new ≡ self.old }
    {}

    /// The place of a token, in one of the documents, of which there is one.
    pub fn place_of(&self, occ: Occ) -> Mem<Place>
        requires { 0 < length (entries self.now.texts) }
        ensures inside { IfOk result (IsIn self.now.encoding (entries self.now.texts)) }
        ensures exact { (rs : List Read) → AreReadAs (entries self.now.texts) rs → IfOk result (IsPlace self.now.encoding (entries self.now.texts) (bytes_of (spans_of rs) (program_in rs).units occ)) }
    {
        Ok(self.texts.place_of(occ, self.encoding)?)
    }

    /// The place of a form's first token; that of the unit where it has no such form; that of the last unit where there is no such
    /// unit.
    pub fn form_place(&self, unit: u32, form: u32) -> Mem<Place>
        requires { 0 < length (entries self.now.texts) }
        ensures inside { IfOk result (IsIn self.now.encoding (entries self.now.texts)) }
        ensures exact { (rs : List Read) → AreReadAs (entries self.now.texts) rs → IfOk result (IsPlace self.now.encoding (entries self.now.texts) (form_bytes (spans_of rs) (program_in rs).units unit form)) }
    {
        Ok(self.texts.form_place(unit, form, self.encoding)?)
    }

    /// The first Error of a unit, by document, start and code. `None` exactly where it has none.
    pub fn first_error(&self, unit: u32) -> Mem<Option<PlacedError>>
        ensures inside { IfOk result (λ e. IfSome e (λ p. IsIn self.now.encoding (entries self.now.texts) p.place)) }
        ensures exact { (rs : List Read) → AreReadAs (entries self.now.texts) rs → IfOk result (IsErrorAt self.now.encoding (entries self.now.texts) (first_error_at rs (program_in rs) (slice_get (program_in rs).units unit))) }
    {
        Ok(self.texts.first_error(unit, self.encoding)?)
    }

    /// Collects the arrows and links of the program, unless it has them, so that the answers behind come sooner. Nothing that is
    /// seen changes.
    pub fn collect(&mut self) -> Mem<()>
        ensures { self.new ≡ self.old }
    {
        self.expansion.collect(self.alloc)
    }

    /// The index of the program: the one that was collected, or else a new one.
    fn indexed(&self) -> Mem<Indexed<'_>>
        ensures sorted { IfOk result (λ indexed. IsStrictlySortedBy pair_cmp (index_in indexed).arrows) }
        ensures source { (rs : List Read) → AreReadAs (entries self.now.texts) rs → IfOk result (λ indexed. IsSource self.now.texts rs (index_in indexed)) }
    {
        let indexed = self.expansion.indexed(self.alloc)?;
        Ok(indexed)
    }

    /// What is asked of an index.
    fn asked<'a>(&'a self, indexed: &'a Indexed<'_>) -> Asked<'a>
        ensures texts { result.texts.now ≡ self.now.texts }
        ensures encoding { result.encoding ≡ self.now.encoding }
        ensures index { result.index.now ≡ index_in indexed.now }
    {
        Asked {
            alloc: self.alloc,
            texts: &self.texts,
            index: indexed.index(),
            encoding: self.encoding,
        }
    }

    /// The answer to a query at a position of a document: of one that isn't open, and of a position without an identifier, there is
    /// nothing in it. Arrows are those with an end in the document, whatever the position.
    pub fn answer(&self, query: &Query, uri: &str, position: Pos) -> Mem<Answer>
        ensures { (rs : List Read) → AreReadAs (entries self.now.texts) rs →
            IfOk result (λ answer. answer ≡ answer_of self.now.encoding (entries self.now.texts) rs uri.now position (query_of query.now)) }
    {
        let indexed = self.indexed()?;
        let asked = self.asked(&indexed);
        let answer = answer(&asked, *query, uri, position)?;
        Ok(answer)
    }

    /// The class of the identifier at a position of a document. `None` exactly where none stands there, or no link joins it.
    pub fn class_at(&self, uri: &str, position: Pos) -> Mem<Option<Class>>
        ensures { (rs : List Read) → AreReadAs (entries self.now.texts) rs →
            IfOk result (IsClassAt (entries self.now.texts) (facts_in rs) (name_there self.now.encoding (entries self.now.texts) rs uri.now position)) }
    {
        let indexed = self.indexed()?;
        let asked = self.asked(&indexed);
        let class = class_at(&asked, uri, position)?;
        Ok(class)
    }

    /// The standard name of the class at a position that is first in byte order. `None` exactly where the class has none, or no
    /// identifier stands there.
    pub fn standard_at(&self, uri: &str, position: Pos) -> Mem<Option<Text>>
        ensures { (rs : List Read) → AreReadAs (entries self.now.texts) rs →
            IfOk result (λ name. name ≡ standard_for (facts_in rs) (name_there self.now.encoding (entries self.now.texts) rs uri.now position)) }
    {
        let indexed = self.indexed()?;
        let asked = self.asked(&indexed);
        let name = standard_at(&asked, uri, position)?;
        Ok(name)
    }
}

/// What is told of documents: their program with the trees that it is over, their findings, and which are parts of others.
#[derive(Drop)]
struct Told {
    expansion: Expansion,
    findings: Vec<Sorted>,
    parts: Vec<bool>,
}

/// Reads all documents and expands their units.
fn read_all<L: Ledger>(alloc: Global, store: Store, steps: &mut Steps<L>) -> Mem<(Open, Told)>
    ensures texts { IfOk result (λ read. read.0 ≡ store) }
    ensures findings { IfOk result (λ read. length read.1.findings.items ≡ length (entries store)) }
    ensures few { IfOk result (λ read. length (entries store) ≤ max_documents) }
    ensures program { IfOk result (λ read. IsProgramOfTexts store read.1.expansion.work read.1.expansion.program) }
    ensures found { (rs : List Read) → AreReadAs (entries store) rs → IfOk result (λ read. AreFoundOf rs read.1.findings.items) }
    ensures parts { IfOk result (λ read. ArePartsOf store read.1.parts.items) }
    ensures steps { (rs : List Read) → AreReadAs (entries store) rs → OnOk result (steps.new ≡ steps.old + uses_in rs) }
{
    let mut work = Work::new(alloc);
    let reading = read_program(alloc, &store, &mut work, steps)?;
    let Reading {
        documents,
        heads,
        program,
        findings,
        errors,
    } = reading;
    let parts = parts_of(alloc, documents.as_slice())?;
    let texts = Open::of(store, documents, heads, errors);
    Ok((
        texts,
        Told {
            expansion: Expansion::of(work, program),
            findings,
            parts,
        },
    ))
}
