//! What a program has of arrows and links, collected over one sight of it.
ghost use Rattle.std.specs.Prelude.{◌≡◌, ℕ, List, if◌then◌else◌, IfOk};
ghost use Rattle.std.specs.List.Sorted.{IsStrictlySortedBy};
ghost use Rattle.scheme_model.specs.IncludedUnits.{Placed};
ghost use Rattle.scheme_model.specs.Program.{Program as ModelProgram};
ghost use Rattle.scheme_model.specs.ProgramArrows.{arrows_of, binders_at, binders_in as program_binders};
ghost use Rattle.scheme_model.specs.Requirements.{LibraryName};
ghost use Rattle.scheme_model.specs.Spelling.{is_member};
ghost use Rattle.core_tree.specs.Units.{ProgramStands, IsProgramOf};
ghost use Rattle.scheme_model.specs.Accesses.{written_in as program_written, read_in as program_read};
ghost use Rattle.arrow_index.specs.Index.{IsIndexOf};
ghost use Rattle.program_leaves.specs.Pairs.{AreOccs};
ghost use Rattle.program_leaves.specs.Placed.{occ_cmp};

use crate::accesses::{read_in, written_in};
use crate::arrows::arrows_seen;
use crate::binders::{binders_among, binders_in, occs_in_order};
use crate::links::Link;
use crate::spelled::links_seen;
use core_tree::units::Program;
use ls_base::{Items, Mem};
use program_leaves::pairs::Pair;
use program_leaves::sight::Sight;
use scheme_model::Occ;
use std::alloc::Global;
use syntax_tree::trees::Work;

/// Whether an occurrence is among some in order.
fn is_among_sorted(occs: &[Occ], occ: Occ) -> bool
    ensures { IsStrictlySortedBy occ_cmp occs.now → result ≡ is_member occs.now occ }
{
    occs.binary_search(&occ).is_ok()
}

/// What a program has of arrows and links, each in order, each once: its arrows, its links, what binds, what is written and what is
/// read.
#[derive(Drop)]
pub struct Index {
    pub arrows: Items<Pair>,
    pub links: Items<Link>,
    pub binders: Items<Occ>,
    pub written: Items<Occ>,
    pub read: Items<Occ>,
}

impl Index {
    /// Collects them, over one sight of the program.
    pub fn of(alloc: Global, work: &Work, program: &Program) -> Mem<Index>
        requires { IsProgramOf work.now program.now }
        ensures { (text : LibraryName → List ℕ) (uris : List (List ℕ)) (all : List Placed) (p : ModelProgram) →
            ProgramStands work.now text uris all program.now p → IfOk result (IsIndexOf all p) }
    {
        let sight = Sight::of(alloc, work, program)?;
        let places = binders_in(alloc, work, &sight, program)?;
        let arrows = arrows_seen(alloc, work, &sight, program)?;
        let links = links_seen(alloc, work, &sight, places.as_slice(), program)?;
        let written = written_in(alloc, &sight, places.as_slice())?;
        let read = read_in(alloc, &sight, program)?;
        let binders = occs_in_order(places)?;
        Ok(Index {
            arrows,
            links,
            binders,
            written,
            read,
        })
    }

    /// The binders of an occurrence, in order: itself where it binds, and each that has an arrow to it.
    pub fn binders_of(&self, alloc: Global, occ: Occ) -> Mem<Items<Occ>>
        ensures { (all : List Placed) (p : ModelProgram) → IsIndexOf all p self.now →
            IfOk result (λ binders. AreOccs binders (binders_at (program_binders p) (arrows_of all p) occ)) }
    {
        Ok(binders_among(alloc, self.binders.as_slice(), self.arrows.as_slice(), occ)?)
    }

    /// The kind of an occurrence that is used: 3 where it is written, 2 where it is read, and else 1 (LSP 3.17,
    /// DocumentHighlightKind).
    pub fn kind_of(&self, occ: Occ) -> u8
        ensures { (all : List Placed) (p : ModelProgram) → IsIndexOf all p self.now →
            result ≡ (if is_member (program_written p) occ then 3 else if is_member (program_read p) occ then 2 else 1) }
    {
        if is_among_sorted(self.written.as_slice(), occ) {
            return 3;
        }
        if is_among_sorted(self.read.as_slice(), occ) {
            return 2;
        }
        1
    }
}
