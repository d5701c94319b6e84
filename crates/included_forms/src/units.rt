//! The forms of units whose texts include others, over a table of these (R7RS 4.1.7, 5.1, 5.6.1).
ghost use Rattle.std.specs.Prelude.{◌<◌, ℕ, List, map, length, IfOk};
ghost use Rattle.scheme_model.specs.Declarations.{behind_head};
ghost use Rattle.scheme_model.specs.Includes.{program_data};
ghost use Rattle.scheme_model.specs.Included.{Sources, Texts, Listing, Given as ModelGiven, forms_of};
ghost use Rattle.scheme_model.specs.IncludedUnits.{library_listing, own};
ghost use Rattle.datum_reader.specs.Views.{datum_of, data_of};
ghost use Rattle.included_forms.specs.Counted.{Stand, IsWritten};
ghost use Rattle.included_forms.specs.Tables.{Serve};
ghost use Rattle.included_forms.specs.Built.{AreDocuments, IsTable};
ghost use Rattle.included_forms.specs.Listed.{IsListed, IsLists};

use crate::given::{Count, LostString, Part, Written};
use crate::losing::{lose, no_visits};
use crate::once::each_once;
use crate::plans::{library_plan, program_plan};
use crate::steps::{FlatForm, Source};
use crate::tables::{Documents, Table, plan_written};
use crate::writing::write;
use datum_reader::Datum;
use ls_base::Mem;
use std::alloc::Global;

/// What a unit gives: its forms, and the strings that mean no text that can be included; its first bad declaration; or too many tokens.
#[derive(Drop)]
pub enum Listed<'a> {
    Lists {
        forms: Vec<FlatForm<'a>>,
        lost: Vec<LostString<'a>>,
    },
    Bad(Source<'a>),
    TooLong,
}

/// The forms and the lost strings of steps.
fn lists<'a>(alloc: Global, parts: &[Part<'a>], written: &Written<'a>) -> Mem<Listed<'a>>
    ensures { (limit : ℕ) (gs : List ModelGiven) (l : Listing) → Stand limit gs parts.now → IsWritten limit gs written.now l → IsLists l →
        IfOk result (λ r. IsListed r l) }
{
    let mut forms = Vec::new(alloc);
    write(parts, parts.len(), written.giving.as_slice(), &mut forms)?;
    let mut visits = no_visits(alloc, parts)?;
    let mut found = Vec::new(alloc);
    lose(
        parts,
        parts.len(),
        written.steps.as_slice(),
        &mut visits,
        &mut found,
    )?;
    let lost = each_once(alloc, found.as_slice())?;
    Ok(Listed::Lists { forms, lost })
}

/// What steps give.
fn written_out<'a>(alloc: Global, parts: &[Part<'a>], written: &Written<'a>) -> Mem<Listed<'a>>
    ensures { (limit : ℕ) (gs : List ModelGiven) (l : Listing) → Stand limit gs parts.now → IsWritten limit gs written.now l →
        IfOk result (λ r. IsListed r l) }
{
    match written.count {
        Count::Lists {
            tokens: _,
            is_empty: _,
        } => Ok(lists(alloc, parts, written)?),
        Count::BadAfter { tokens: _, source } => Ok(Listed::Bad(source)),
        Count::TooLong => Ok(Listed::TooLong),
    }
}

impl<'a> Table<'a> {
    /// What the program of a document gives.
    pub fn program(
        &self,
        alloc: Global,
        documents: &Documents<'a>,
        document: u32,
        data: &'a [Datum],
    ) -> Mem<Listed<'a>>
        requires { document < length documents.now.uris.now }
        ensures { (o : Sources) (t : Texts) → AreDocuments o documents.now → IsTable o self.now → Serve o t →
            IfOk result (λ r. IsListed r (forms_of t (map (own document) (program_data (data_of «data».now))))) }
    {
        let plan = program_plan(alloc, document, data)?;
        let written = plan_written(alloc, documents, self, document, plan)?;
        Ok(written_out(alloc, self.parts.as_slice(), &written)?)
    }

    /// What a library gives that stands in a document.
    pub fn library(
        &self,
        alloc: Global,
        documents: &Documents<'a>,
        document: u32,
        datum: &'a Datum,
    ) -> Mem<Listed<'a>>
        requires { document < length documents.now.uris.now }
        ensures { (o : Sources) (t : Texts) → AreDocuments o documents.now → IsTable o self.now → Serve o t → let d = datum_of datum.now in
            IfOk result (λ r. IsListed r (library_listing t o.known (own document d) (behind_head d))) }
    {
        let plan = library_plan(alloc, documents.known, document, datum)?;
        let written = plan_written(alloc, documents, self, document, plan)?;
        Ok(written_out(alloc, self.parts.as_slice(), &written)?)
    }
}
