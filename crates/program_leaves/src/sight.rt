//! What a program has that arrows and links need: the leaves of its cores with their forms, where locals and definitions stand, and
//! which occurrences are live.
ghost use Rattle.std.specs.Prelude.{◌≡◌, ℕ, List, map, Option, IfOk};
ghost use Rattle.std.specs.BTreeMap.{get};
ghost use Rattle.scheme_model.specs.Cores.{Target as ModelTarget};
ghost use Rattle.scheme_model.specs.Live.{CoreLeaf, NameUse as ModelName};
ghost use Rattle.scheme_model.specs.Meaning.{Meaning as ModelMeaning};
ghost use Rattle.scheme_model.specs.Substitution.{Table};
ghost use Rattle.scheme_model.specs.ProgramArrows.{binder_of, is_live_at};
ghost use Rattle.scheme_model.specs.IncludedUnits.{Placed};
ghost use Rattle.scheme_model.specs.Program.{Program as ModelProgram};
ghost use Rattle.scheme_model.specs.Requirements.{LibraryName};
ghost use Rattle.syntax_tree.specs.Meant.{IsMeaning};
ghost use Rattle.syntax_tree.specs.declared.trees.Work.{Work as AnyWork};
ghost use Rattle.core_tree.specs.Units.{ProgramStands};
ghost use Rattle.program_leaves.specs.Formed.{AreFormedIn};

use crate::gathering::{definitions_of, leaves_of, locals_of, met_in};
use crate::leaves::Leaf;
use crate::living::live_in;
use core_tree::cores::Target;
use core_tree::units::Program;
use ls_base::Mem;
use scheme_model::Occ;
use std::alloc::Global;
use std::collections::{BTreeMap, BTreeSet};
use syntax_tree::meaning::Meaning;
use syntax_tree::symbols::IdNo;
use syntax_tree::trees::Work;

/// A form of a unit, by the places of both in their lists.
#[derive(Clone, Copy, PartialEq, Eq, PartialOrd, Ord)]
pub struct FormNo {
    pub unit: usize,
    pub form: usize,
}

/// A local of a form.
#[derive(Clone, Copy, PartialEq, Eq, PartialOrd, Ord)]
pub struct LocalNo {
    pub at: FormNo,
    pub count: u64,
}

/// What a unit, by its place in the list, defines under an identifier.
#[derive(Clone, Copy, PartialEq, Eq, PartialOrd, Ord)]
pub struct GlobalNo {
    pub unit: usize,
    pub ident: IdNo,
}

/// A leaf of a core of a form.
#[derive(Clone, Copy)]
pub struct PlacedLeaf<'a> {
    pub at: FormNo,
    pub leaf: Leaf<'a>,
}

/// An identifier that is used in a form, whose locals are those of the form.
#[derive(Clone, Copy)]
pub struct PlacedTarget {
    pub at: FormNo,
    pub target: Target,
}

/// The leaves of a program, the keywords and matched literals of its forms, where its locals and definitions stand, and which
/// occurrences are live.
#[derive(Drop)]
pub struct Sight<'a> {
    pub leaves: Vec<PlacedLeaf<'a>>,
    pub met: Vec<PlacedTarget>,
    pub locals: BTreeMap<LocalNo, Option<Occ>>,
    pub definitions: BTreeMap<GlobalNo, Option<Occ>>,
    pub live: BTreeSet<Occ>,
}

impl<'a> Sight<'a> {
    ghost use Rattle.program_leaves.specs.Placed.{local_cmp, global_cmp, place_in, placed_of, AreAllSeen};
    ghost use Rattle.program_leaves.specs.Sights.{Sees, SeesProgram};

    /// What a program has.
    pub fn of(alloc: Global, work: &Work, program: &'a Program) -> Mem<Sight<'a>>
        requires { AreFormedIn work.now program.now.units }
        ensures seen { IfOk result (λ sight. (ls : List CoreLeaf) × AreAllSeen work.now (map placed_of sight.leaves.items) ls) }
        ensures program { (text : LibraryName → List ℕ) (uris : List (List ℕ)) (all : List Placed) (p : ModelProgram) →
            ProgramStands work.now text uris all program.now p → IfOk result (λ sight. SeesProgram work.now sight all p) }
    {
        work.symbols.told_apart();
        let leaves = leaves_of(alloc, program)?;
        let met = met_in(alloc, program)?;
        let locals = locals_of(alloc, leaves.as_slice())?;
        let definitions = definitions_of(alloc, program)?;
        let live = live_in(alloc, work, leaves.as_slice(), met.as_slice(), program)?;
        Ok(Sight {
            leaves,
            met,
            locals,
            definitions,
            live,
        })
    }

    /// Where a local of a form is bound.
    pub fn local_at(&self, at: FormNo, count: u64) -> Option<Occ>
        ensures { result ≡ place_in (get local_cmp self.now.locals (record { at = at; count = count })) }
    {
        match self.locals.get(&LocalNo { at, count }) {
            None => None,
            Some(place) => *place,
        }
    }

    /// Where what a unit defines under an identifier stands, if it defines it.
    pub fn definition(&self, unit: u32, ident: IdNo) -> Option<Option<Occ>>
        ensures { result ≡ get global_cmp self.now.definitions (record { unit = unit; ident = ident }) }
    {
        let unit = unit as usize;
        self.definitions.get(&GlobalNo { unit, ident }).copied()
    }

    /// Where what a unit defines under an identifier stands, if it has a place.
    pub fn global_at(&self, unit: u32, ident: IdNo) -> Option<Occ>
        ensures { result ≡ place_in (get global_cmp self.now.definitions (record { unit = unit; ident = ident })) }
    {
        match self.definition(unit, ident) {
            None => None,
            Some(place) => place,
        }
    }

    /// Where what binds a meaning stands. Locals are those of the form.
    pub fn binder_of(&self, at: FormNo, meaning: Meaning) -> Option<Occ>
        ensures { (work : AnyWork) (leaves : List CoreLeaf) (keywords : List ModelTarget) (names : List ModelName) (table : Table) (m : ModelMeaning) →
            Sees work self.now leaves keywords names table → IsMeaning work.symbols at.unit at.form meaning m → result ≡ binder_of leaves table m }
    {
        match meaning {
            Meaning::Local(count) => self.local_at(at, count),
            Meaning::Global { unit, ident } => self.global_at(unit, ident),
            Meaning::Standard(_) => None,
            Meaning::Free(_) => None,
        }
    }

    /// Whether a place is a live occurrence.
    pub fn is_live(&self, place: Option<Occ>) -> bool
        ensures { (work : AnyWork) (leaves : List CoreLeaf) (keywords : List ModelTarget) (names : List ModelName) (table : Table) →
            Sees work self.now leaves keywords names table → result ≡ is_live_at leaves keywords names place }
    {
        match place {
            None => false,
            Some(occ) => self.live.contains(&occ),
        }
    }
}
