//! The clauses of `cond-expand` (R7RS 4.2.1): which requirement holds, and which clause is chosen.
ghost use Rattle.std.specs.Prelude.{◌≡◌, ◌&&◌, ◌||◌, ◌<◌, List, length, Option, IfOk, IfSome};
ghost use Rattle.std.specs.List.{AllByRecursion};
ghost use Rattle.scheme_model.specs.Trees.{Tree as ModelTree, Trees, Tail, list as list_tree};
ghost use Rattle.scheme_model.specs.Requirements.{Known, holds, all_hold, some_holds, none_holds, is_else};
ghost use Rattle.scheme_model.specs.Ident.{Ident as Identifier, symbol_of};
ghost use Rattle.scheme_model.specs.declared.Occ.{Occ};
ghost use Rattle.syntax_tree.specs.Looks.{PartsStand, EndStands, AreStanding, StandsWithin, PartsWithin};
ghost use Rattle.syntax_tree.specs.Macros.{IsIdent};
ghost use Rattle.syntax_tree.specs.Works.{StandsFor, IsStanding};
ghost use Rattle.syntax_tree.specs.declared.trees.Work.{Work as AnyWork};
ghost use Rattle.syntax_tree.specs.declared.trees.table.Region.{Region as AnyRegion};
ghost use Rattle.core_forms.specs.Named.{ChoiceNamed, TreesNamed};
ghost use Rattle.core_forms.specs.Parts.{AllMatch, IsChoice};
ghost use Rattle.feature_requirements.specs.Judged.{Knows, Reads, AreChoosable, IsClauseForms, library_holds, connective_named, word_holds, clause_judged, chosen_among, forms_of, or_first, Chooses, forms_chosen, ChoosesForms};

use crate::fault::{ExpandFault, code, fails};
use crate::libraries::library_name;
use core_forms::Choice;
use ls_base::{Mem, Memory};
use scheme_model::Occ;
use std::alloc::{AllocError, AllocFailed, Global};
use std::collections::BTreeSet;
use syntax_tree::look::{Look, look_at};
use syntax_tree::symbols::IdNo;
use syntax_tree::trees::{Tree, Work};

/// Why a requirement is refused.
#[derive(Clone, Copy)]
pub enum ShapeFault {
    /// It has no shape.
    BadForm,
    /// Memory ran out.
    Memory,
}

impl From<Memory> for ShapeFault {
    ghost use Rattle.std.specs.Prelude.{◌≡◌};
    ghost use Rattle.feature_requirements.specs.declared.requirements.ShapeFault.TheVariants as fault;

    ghost from_gives = { λ _ e. e ≡ fault.Memory };

    fn from(_: Memory) -> Self {
        ShapeFault::Memory
    }
}

impl From<AllocError> for ShapeFault {
    ghost use Rattle.std.specs.Prelude.{◌≡◌};
    ghost use Rattle.feature_requirements.specs.declared.requirements.ShapeFault.TheVariants as fault;

    ghost from_gives = { λ _ e. e ≡ fault.Memory };

    fn from(_: AllocError) -> Self {
        ShapeFault::Memory
    }
}

impl<T: Drop> From<AllocFailed<T>> for ShapeFault {
    ghost use Rattle.std.specs.Prelude.{◌≡◌};
    ghost use Rattle.feature_requirements.specs.declared.requirements.ShapeFault.TheVariants as fault;

    ghost from_gives = { λ _ e. e ≡ fault.Memory };

    fn from(_: AllocFailed<T>) -> Self {
        ShapeFault::Memory
    }
}

/// What a requirement that is a list says by its word.
#[derive(Clone, Copy)]
pub enum Connective {
    And,
    Or,
    Not,
    Library,
    Unknown,
}

/// What a word says as the first of a requirement that is a list.
pub fn connective_in(word: &str) -> Connective
    ensures { result ≡ connective_named word.now }
{
    if word == "and" {
        return Connective::And;
    }
    if word == "or" {
        return Connective::Or;
    }
    if word == "not" {
        return Connective::Not;
    }
    if word == "library" {
        return Connective::Library;
    }
    Connective::Unknown
}

fn both(a: bool, b: bool) -> bool
    ensures { result ≡ (a && b) }
{
    a && b
}

fn either(a: bool, b: bool) -> bool
    ensures { result ≡ (a || b) }
{
    a || b
}

/// The first place that holds, one place more.
fn or_first(chosen: Option<usize>, here: bool, place: usize) -> Option<usize>
    ensures { result ≡ or_first chosen here place }
{
    match chosen {
        Some(before) => Some(before),
        None => { if here { Some(place) } else { None } }
    }
}

/// What requirements are judged by.
#[derive(Clone, Copy)]
pub struct Judge<'a> {
    pub alloc: Global,
    pub work: &'a Work,
    /// The names for which there is a library.
    pub libraries: &'a BTreeSet<String>,
}

impl Judge<'_> {
    /// Whether there is the one library that is named.
    fn library_holds(&self, parts: &[Tree]) -> Result<bool, ShapeFault>
        requires { AreStanding self.now.work.now parts.now }
        ensures { (known : Known) (ts : Trees Identifier) → Knows self.now.libraries.now known → PartsStand self.now.work.now parts.now ts →
            Reads (λ b. b) result (library_holds known ts) }
    {
        if parts.len() != 1 {
            return Err(ShapeFault::BadForm);
        }
        let name = library_name(self.alloc, self.work, parts[0])?;
        Ok(self.libraries.contains(name.as_str()))
    }

    /// The symbol of an identifier.
    fn symbol_of(&self, ident: IdNo) -> &str
        requires { ident < length self.now.work.now.symbols.idents }
        ensures { (i : Identifier) → IsIdent self.now.work.now.symbols ident i → result.now ≡ symbol_of i }
    {
        let symbols = &self.work.symbols;
        symbols.name(symbols.strip(ident))
    }

    /// Whether a requirement holds that is at most `left` nodes deep.
    #[cycle(requirements)]
    fn holds(&self, tree: Tree, left: u32) -> Result<bool, ShapeFault>
        requires { StandsWithin self.now.work.now tree left }
        ensures { (known : Known) (t : ModelTree Identifier) → Knows self.now.libraries.now known → StandsFor self.now.work.now tree t →
            Reads (λ b. b) result (holds symbol_of known t) }
    {
        match look_at(self.work, tree) {
            Look::Name(ident) => Ok(self.symbol_of(ident) == "r7rs"),
            Look::List(parts, end) => self.list_holds(parts, end, left - 1),
            Look::Atom(_) => Err(ShapeFault::BadForm),
            Look::Vector(_) => Err(ShapeFault::BadForm),
        }
    }

    /// Whether a requirement that is a list holds. Its parts are at most `left` nodes deep.
    #[cycle(requirements)]
    fn list_holds(&self, parts: &[Tree], end: Option<Tree>, left: u32) -> Result<bool, ShapeFault>
        requires { PartsWithin self.now.work.now parts.now left }
        ensures { (known : Known) (ts : Trees Identifier) (tail : Tail Identifier) (o : Option Occ) → Knows self.now.libraries.now known →
            PartsStand self.now.work.now parts.now ts → EndStands self.now.work.now end tail →
            Reads (λ b. b) result (holds symbol_of known (list_tree ts tail o)) }
    {
        if end.is_some() {
            return Err(ShapeFault::BadForm);
        }
        match parts.split_first() {
            None => Err(ShapeFault::BadForm),
            Some((head, rest)) => match look_at(self.work, *head) {
                Look::Name(ident) => self.word_holds(self.symbol_of(ident), rest, left),
                Look::Atom(_) => Err(ShapeFault::BadForm),
                Look::List(_, _) => Err(ShapeFault::BadForm),
                Look::Vector(_) => Err(ShapeFault::BadForm),
            },
        }
    }

    /// Whether a requirement that begins with a word holds.
    #[cycle(requirements)]
    fn word_holds(&self, word: &str, parts: &[Tree], left: u32) -> Result<bool, ShapeFault>
        requires { PartsWithin self.now.work.now parts.now left }
        ensures { (known : Known) (ts : Trees Identifier) → Knows self.now.libraries.now known → PartsStand self.now.work.now parts.now ts →
            Reads (λ b. b) result (word_holds known word.now ts) }
    {
        match connective_in(word) {
            Connective::And => self.all_hold(parts, left),
            Connective::Or => self.some_holds(parts, left),
            Connective::Not => self.none_holds(parts, left),
            Connective::Library => self.library_holds(parts),
            Connective::Unknown => Err(ShapeFault::BadForm),
        }
    }

    /// Whether all requirements hold. Each of them has a shape.
    #[cycle(requirements)]
    fn all_hold(&self, parts: &[Tree], left: u32) -> Result<bool, ShapeFault>
        requires { PartsWithin self.now.work.now parts.now left }
        ensures { (known : Known) (ts : Trees Identifier) → Knows self.now.libraries.now known → PartsStand self.now.work.now parts.now ts →
            Reads (λ b. b) result (all_hold symbol_of known ts) }
    {
        let mut hold = true;
        for part in parts {
            let here = self.holds(*part, left)?;
            let next = both(hold, here);
            hold = next;
        }
        Ok(hold)
    }

    /// Whether some requirement holds. Each of them has a shape.
    #[cycle(requirements)]
    fn some_holds(&self, parts: &[Tree], left: u32) -> Result<bool, ShapeFault>
        requires { PartsWithin self.now.work.now parts.now left }
        ensures { (known : Known) (ts : Trees Identifier) → Knows self.now.libraries.now known → PartsStand self.now.work.now parts.now ts →
            Reads (λ b. b) result (some_holds symbol_of known ts) }
    {
        let mut hold = false;
        for part in parts {
            let here = self.holds(*part, left)?;
            let next = either(hold, here);
            hold = next;
        }
        Ok(hold)
    }

    /// Whether the one requirement doesn't hold.
    #[cycle(requirements)]
    fn none_holds(&self, parts: &[Tree], left: u32) -> Result<bool, ShapeFault>
        requires { PartsWithin self.now.work.now parts.now left }
        ensures { (known : Known) (ts : Trees Identifier) → Knows self.now.libraries.now known → PartsStand self.now.work.now parts.now ts →
            Reads (λ b. b) result (none_holds symbol_of known ts) }
    {
        if parts.len() != 1 {
            return Err(ShapeFault::BadForm);
        }
        let here = self.holds(parts[0], left)?;
        Ok(!here)
    }

    /// Whether the requirement of a clause holds, which may be `else` in the last one.
    fn clause_holds(&self, requirement: Tree, last: bool) -> Result<bool, ShapeFault>
        requires { IsStanding self.now.work.now requirement }
        ensures { (known : Known) (t : ModelTree Identifier) → Knows self.now.libraries.now known → StandsFor self.now.work.now requirement t →
            Reads (λ b. b) result (clause_judged known t last) }
    {
        if self.is_else(requirement) {
            if last {
                return Ok(true);
            }
            return Err(ShapeFault::BadForm);
        }
        let depth = self.work.depth(requirement);
        self.holds(requirement, depth)
    }

    /// Whether a requirement is `else`.
    fn is_else(&self, requirement: Tree) -> bool
        requires { IsStanding self.now.work.now requirement }
        ensures { (t : ModelTree Identifier) → StandsFor self.now.work.now requirement t → result ≡ is_else symbol_of t }
    {
        match look_at(self.work, requirement) {
            Look::Name(ident) => self.symbol_of(ident) == "else",
            Look::Atom(_) => false,
            Look::List(_, _) => false,
            Look::Vector(_) => false,
        }
    }

    /// The place of the first clause that holds. Each clause has a shape.
    pub fn chosen(&self, choices: &[Choice]) -> Result<Option<usize>, ShapeFault>
        requires { AreChoosable self.now.work.now choices.now }
        ensures chosen { (known : Known) (ps : List (ModelTree Identifier × Trees Identifier)) → Knows self.now.libraries.now known →
            AllMatch (IsChoice self.now.work.now) choices.now ps → Reads (forms_of ps) result (chosen_among known ps) }
        ensures within { IfOk result (λ place. IfSome place (λ k. k < length choices.now)) }
    {
        let mut chosen = None;
        for k in 0..choices.len() {
            let last = k + 1 == choices.len();
            let here = self.clause_holds(choices[k].requirement, last)?;
            let next = or_first(chosen, here, k);
            chosen = next;
        }
        Ok(chosen)
    }
}

/// The forms of a clause.
fn clause_forms(alloc: Global, choices: &[Choice], place: usize) -> Mem<Vec<Tree>>
    requires { place < length choices.now }
    ensures chosen { (work : AnyWork) (ps : List (ModelTree Identifier × Trees Identifier)) → AllMatch (IsChoice work) choices.now ps →
        IfOk result (λ forms. IsClauseForms work ps place forms) }
    ensures named { (work : AnyWork) (region : AnyRegion) → AllByRecursion (ChoiceNamed work region) choices.now → IfOk result (TreesNamed work region) }
{
    let clause = &choices[place];
    Ok(Vec::from_slice(alloc, &clause.forms)?)
}

/// The forms of the first clause of a `cond-expand` that holds; `None` where none does.
pub fn choose(
    judge: Judge,
    here: Option<Occ>,
    choices: &[Choice],
) -> Result<Option<Vec<Tree>>, ExpandFault>
    requires { AreChoosable judge.work.now choices.now }
    ensures chosen { (known : Known) (ps : List (ModelTree Identifier × Trees Identifier)) → Knows judge.entry.libraries.now known →
        AllMatch (IsChoice judge.entry.work.now) choices.now ps → Chooses judge.entry.work.now here result (chosen_among known ps) }
    ensures named { (region : AnyRegion) → AllByRecursion (ChoiceNamed judge.entry.work.now region) choices.now → IfOk result (λ chosen. IfSome chosen (TreesNamed judge.entry.work.now region)) }
{
    match judge.chosen(choices) {
        Ok(chosen) => match chosen {
            None => Ok(None),
            Some(place) => Ok(Some(clause_forms(judge.alloc, choices, place)?)),
        },
        Err(ShapeFault::BadForm) => Err(fails(here, code::BAD_FORM)),
        Err(ShapeFault::Memory) => Err(ExpandFault::Memory),
    }
}

/// The forms of the first clause of a `cond-expand` among expressions: there is one, with a form.
pub fn chosen_forms(
    judge: Judge,
    here: Option<Occ>,
    choices: &[Choice],
) -> Result<Vec<Tree>, ExpandFault>
    requires { AreChoosable judge.work.now choices.now }
    ensures chosen { (known : Known) (ps : List (ModelTree Identifier × Trees Identifier)) → Knows judge.entry.libraries.now known →
        AllMatch (IsChoice judge.entry.work.now) choices.now ps →
        ChoosesForms judge.entry.work.now here result (forms_chosen known ps) }
    ensures named { (region : AnyRegion) → AllByRecursion (ChoiceNamed judge.entry.work.now region) choices.now → IfOk result (TreesNamed judge.entry.work.now region) }
{
    match choose(judge, here, choices)? {
        Some(forms) => {
            if forms.is_empty() {
                return Err(fails(here, code::BAD_FORM));
            }
            Ok(forms)
        }
        None => Err(fails(here, code::BAD_FORM)),
    }
}
