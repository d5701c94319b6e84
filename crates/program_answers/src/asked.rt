//! What answers about positions are taken from, and what is asked of it first: the identifier at a position, and what the links say
//! of it.
ghost use Rattle.std.specs.Prelude.{◌≡◌, ◌<◌, List, length, Some, IfOk};
ghost use Rattle.std.specs.FinMap.{entries};
ghost use Rattle.std.specs.List.Sorted.{IsStrictlySortedBy};
ghost use Rattle.ls_base.specs.Positions.{offset_of};
ghost use Rattle.scheme_model.specs.declared.Occ.{Occ as AnyOcc};
ghost use Rattle.arrow_index.specs.Classes as classes;
ghost use Rattle.scheme_model.specs.Answers as answers;
ghost use Rattle.program_answers.specs.AskedOf.{IsSource};
ghost use Rattle.read_documents.specs.Places.{spans_of};
ghost use Rattle.read_documents.specs.Readings.{Read, program_in};
ghost use Rattle.scheme_model.specs.Sites as sites;
ghost use Rattle.scheme_model.specs.Spelling as spelling;
ghost use Rattle.program_answers.specs.ToldAnswers as told;

use crate::open::Open;
use arrow_index::classes::{ClassPart, class_of, is_joined, standard_names};
use arrow_index::index::Index;
use ls_base::{Encoding, Items, Mem, Pos, Text};
use scheme_model::Occ;
use std::alloc::Global;

/// The open documents, the index of their program, and the encoding of positions.
#[derive(Clone, Copy)]
pub struct Asked<'a> {
    pub alloc: Global,
    pub texts: &'a Open,
    pub index: &'a Index,
    pub encoding: Encoding,
}

impl Asked<'_> {
    /// The identifier at a position of one of the documents. `None` exactly where none stands there.
    pub fn name_in(&self, document: usize, position: Pos) -> Option<Occ>
        requires { document < length (entries self.now.texts.now) }
        ensures { (rs : List Read) → IsSource self.now.texts.now rs self.now.index.now →
            result ≡ sites.name_at (spans_of rs) (program_in rs).units document (offset_of self.now.encoding (told.text_of (entries self.now.texts.now) document) position) }
    {
        let offset = self.texts.offset(document, position, self.encoding);
        self.texts.name_at(document, offset)
    }

    /// The identifier at a position of a document. `None` exactly where none stands there, or the document isn't open.
    pub fn name_there(&self, uri: &str, position: Pos) -> Option<Occ>
        ensures name { (rs : List Read) → IsSource self.now.texts.now rs self.now.index.now →
            result ≡ told.name_there self.now.encoding (entries self.now.texts.now) rs uri.now position }
        ensures some { (occ : AnyOcc) → result ≡ Some occ → 0 < length (entries self.now.texts.now) }
    {
        match self.texts.number_of(uri) {
            Some(document) => self.name_in(document, position),
            None => None,
        }
    }

    /// Whether a link joins an occurrence.
    pub fn is_joined(&self, occ: Occ) -> bool
        ensures { (rs : List Read) → IsSource self.now.texts.now rs self.now.index.now → result ≡ spelling.is_joined (told.facts_in rs).links occ }
    {
        is_joined(self.index.links.as_slice(), occ)
    }

    /// The class of an occurrence.
    pub fn parts(&self, occ: Occ) -> Mem<Items<ClassPart>>
        ensures sorted { IfOk result (IsStrictlySortedBy classes.part_cmp) }
        ensures exact { (rs : List Read) → IsSource self.now.texts.now rs self.now.index.now → IfOk result (λ parts. classes.AreParts parts (told.facts_in rs).links occ) }
    {
        let parts = class_of(self.alloc, self.index.links.as_slice(), occ)?;
        Ok(parts)
    }

    /// The standard names that the class of an occurrence takes characters from, in order, each once.
    pub fn standard_names(&self, occ: Occ) -> Mem<Items<Text>>
        ensures { (rs : List Read) → IsSource self.now.texts.now rs self.now.index.now → IfOk result (λ names. classes.AreStandard names (told.facts_in rs).links occ) }
    {
        let parts = self.parts(occ)?;
        let names = self.standard_of(parts.as_slice())?;
        Ok(names)
    }

    /// The standard names that the class of these parts takes characters from, in order, each once.
    pub fn standard_of(&self, parts: &[ClassPart]) -> Mem<Items<Text>>
        requires { IsStrictlySortedBy classes.part_cmp parts.now }
        ensures { (rs : List Read) (occ : AnyOcc) → IsSource self.now.texts.now rs self.now.index.now → classes.AreParts parts.now (told.facts_in rs).links occ →
            IfOk result (λ names. classes.AreStandard names (told.facts_in rs).links occ) }
    {
        let links = self.index.links.as_slice();
        let names = standard_names(self.alloc, links, parts)?;
        Ok(names)
    }

    /// Whether the characters of an occurrence come from a place of a text, and not from a standard name.
    pub fn is_bound(&self, occ: Occ) -> Mem<bool>
        ensures { (rs : List Read) → IsSource self.now.texts.now rs self.now.index.now → IfOk result (λ bound. bound ≡ answers.is_bound (told.facts_in rs) occ) }
    {
        if !self.is_joined(occ) {
            return Ok(false);
        }
        let names = self.standard_names(occ)?;
        Ok(names.as_slice().is_empty())
    }
}
