//! The program of the open documents, with the trees that it is over, and the index of it once that was collected.
ghost use Rattle.std.specs.Prelude.{◌≡◌, ◌+◌, [], List, IfOk, OnOk};
ghost use Rattle.std.specs.FinMap.{entries};
ghost use Rattle.read_documents.specs.Readings.{Read, AreReadAs, uses_in};
ghost use Rattle.program_leaves.specs.Formed.{AreFormedIn};
ghost use Rattle.core_tree.specs.Units.{IsProgramOf};
ghost use Rattle.workspace_state.specs.Expansions.{IsIndexFor};
ghost use Rattle.workspace_state.specs.Indexed.{index_in};
ghost use Rattle.workspace_state.specs.ProgramOfTexts.{IsProgramOfTexts};
ghost use Rattle.syntax_tree.specs.Names.{KeepsNames};
ghost use Rattle.syntax_tree.specs.Works.{KeepsTrees};

use arrow_index::index::Index;
use core_tree::units::Program;
use document_store::Store;
use ls_base::{Items, Mem, Steps};
use program_expansion::program::read_program;
use std::alloc::Global;
use std::marker::Model;
use std::sync::ledger::Ledger;
use syntax_tree::trees::Work;
use unit_results::collecting::Reading;

/// The units of all documents, with the trees and names that they are over, and their index, if it was collected. The forms of each
/// unit stand for something of the definitions. Contracts don't see the index.
#[derive(Drop)]
pub struct Expansion {
    work: Work,
    program: Program,
    index: Option<Index>,
}

impl Model for Expansion {
    ghost use Rattle.workspace_state.specs.Expansions.{Holds, Seen, seen_code};

    ghost Value = { Seen };

    ghost coded = { seen_code };

    ghost view = { λ e. record { work = e.work; program = e.program } };

    ghost invariant = { λ e. Holds e.work e.program e.index };
}

/// An index that is kept, or one that was made for a call.
#[derive(Drop)]
pub enum Indexed<'a> {
    Kept(&'a Index),
    Made(Index),
}

impl Indexed<'_> {
    /// The index.
    pub fn index(&self) -> &Index
        ensures { result.now ≡ index_in self.now }
    {
        match self {
            Indexed::Kept(index) => index,
            Indexed::Made(index) => index,
        }
    }
}

impl Expansion {
    /// No units.
    pub fn new(alloc: Global) -> Expansion
        ensures { result.program.units ≡ [] }
    {
        Expansion {
            work: Work::new(alloc),
            program: Program {
                units: Items::new(alloc),
            },
            index: None,
        }
    }

    /// Units over trees.
    pub fn of(work: Work, program: Program) -> Expansion
        requires { AreFormedIn work program.units }
        ensures work { result.work ≡ work }
        ensures program { result.program ≡ program }
    {
        Expansion {
            work,
            program,
            index: None,
        }
    }

    /// The trees and names.
    pub fn work(&self) -> &Work
        ensures { result.now ≡ self.now.work }
    {
        &self.work
    }

    /// The units.
    pub fn program(&self) -> &Program
        ensures program { result.now ≡ self.now.program }
        ensures formed { AreFormedIn self.now.work result.now.units }
    {
        &self.program
    }

    /// The program of other documents over these trees and names, whose units stay as they were. The index goes, since it is told by
    /// the trees that there were.
    pub fn try_program<L: Ledger>(
        &mut self,
        alloc: Global,
        store: &Store,
        steps: &mut Steps<L>,
    ) -> Mem<Program>
        ensures program { self.new.program ≡ self.old.program }
        ensures trees { KeepsTrees self.old.work self.new.work }
        ensures names { KeepsNames self.old.work.symbols self.new.work.symbols }
        ensures of_texts { IfOk result (IsProgramOfTexts store.now self.new.work) }
        ensures formed { IfOk result (λ program. AreFormedIn self.new.work program.units) }
        ensures steps { (rs : List Read) → AreReadAs (entries store.now) rs → OnOk result (steps.new ≡ steps.old + uses_in rs) }
    {
        self.index = None;
        let reading = read_program(alloc, store, &mut self.work, steps)?;
        let Reading { program, .. } = reading;
        Ok(program)
    }

    /// Collects the index, unless it is there.
    pub fn collect(&mut self, alloc: Global) -> Mem<()>
        requires { IsProgramOf self.old.work self.old.program }
        ensures { self.new ≡ self.old }
    {
        if self.index.is_none() {
            self.index = Some(made_index(alloc, &self.work, &self.program)?);
        }
        Ok(())
    }

    /// The index: the one that is there, or else a new one.
    pub fn indexed(&self, alloc: Global) -> Mem<Indexed<'_>>
        requires { IsProgramOf self.now.work self.now.program }
        ensures { IfOk result (λ indexed. IsIndexFor self.now.work self.now.program (index_in indexed)) }
    {
        match &self.index {
            Some(index) => Ok(Indexed::Kept(index)),
            None => {
                let index = made_index(alloc, &self.work, &self.program)?;
                Ok(Indexed::Made(index))
            }
        }
    }
}

/// The index of a program.
fn made_index(alloc: Global, work: &Work, program: &Program) -> Mem<Index>
    requires { IsProgramOf work.now program.now }
    ensures { IfOk result (IsIndexFor work.now program.now) }
{
    let index = Index::of(alloc, work, program)?;
    Ok(index)
}
