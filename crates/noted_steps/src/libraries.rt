//! Which libraries the requirements of a `cond-expand` ask for, noted (R7RS 4.2.1): all of them, whichever clause is chosen.
ghost use Rattle.std.specs.Prelude.{◌≡◌, List, Bool, Option, IfSome};
ghost use Rattle.scheme_model.specs.declared.Occ.{Occ};
ghost use Rattle.scheme_model.specs.Ident.{Ident as Identifier, symbol_of};
ghost use Rattle.scheme_model.specs.Requirements.{Known, libraries_of};
ghost use Rattle.scheme_model.specs.ScopedExpansion.{Frames};
ghost use Rattle.scheme_model.specs.Trees.{Tree as ModelTree, Tail, Trees, list, tree};
ghost use Rattle.syntax_tree.specs.Looks.{AreStanding, PartsStand, PartsWithin, StandsWithin};
ghost use Rattle.syntax_tree.specs.Works.{IsStanding, StandsFor};
ghost use Rattle.feature_requirements.specs.Judged.{Knows};
ghost use Rattle.noted_steps.specs.Asked.{all_behind, clause_asked, libraries_asked, libraries_behind, library_behind, names_asked, word_named};
ghost use Rattle.noted_steps.specs.Noting.{Noting};
ghost use Rattle.noted_steps.specs.Standing.{Stands, with_notes};

use feature_requirements::libraries::library_name;
use feature_requirements::requirements::{Connective, ShapeFault, connective_in};
use ls_base::Text;
use std::alloc::Global;
use syntax_tree::look::{Look, look_at};
use syntax_tree::trees::{Tree, Work};
use unit_scopes::scope::UnitScope;

/// Notes which libraries a `cond-expand` asks for.
pub fn note_libraries(units: &mut UnitScope, alloc: Global, work: &Work, form: Tree)
    requires { IsStanding work.now form }
    ensures noted { (known : Known) (ls : List Frames) (s : Noting) (head : ModelTree Identifier) (ts : Trees Identifier) (tail : Tail Identifier) (o : Option Occ) → Knows units.old.libraries known →
        Stands work.now units.old ls s → StandsFor work.now form (list (tree head ts) tail o) → Stands work.now units.new ls (libraries_asked known ts tail s) }
    ensures rest { units.new ≡ with_notes units.old units.new.form.trace.notes }
{
    match look_at(work, form) {
        Look::List(clauses, _) => note_clauses(units, alloc, work, clauses),
        Look::Name(_) => {}
        Look::Atom(_) => {}
        Look::Vector(_) => {}
    }
}

/// Notes which libraries the clauses behind the first tree of a row ask for.
fn note_clauses(units: &mut UnitScope, alloc: Global, work: &Work, clauses: &[Tree])
    requires { AreStanding work.now clauses.now }
    ensures noted { (known : Known) (ls : List Frames) (s : Noting) (ts : Trees Identifier) → Knows units.old.libraries known → Stands work.now units.old ls s → PartsStand work.now clauses.now ts →
        Stands work.now units.new ls (names_asked known (all_behind ts) s) }
    ensures rest { units.new ≡ with_notes units.old units.new.form.trace.notes }
{
    for k in 1..clauses.len() {
        note_clause(units, alloc, work, clauses[k]);
    }
}

/// Notes which libraries the requirement of a clause asks for.
fn note_clause(units: &mut UnitScope, alloc: Global, work: &Work, clause: Tree)
    requires { IsStanding work.now clause }
    ensures noted { (known : Known) (ls : List Frames) (s : Noting) (t : ModelTree Identifier) → Knows units.old.libraries known → Stands work.now units.old ls s → StandsFor work.now clause t →
        Stands work.now units.new ls (names_asked known (clause_asked t) s) }
    ensures rest { units.new ≡ with_notes units.old units.new.form.trace.notes }
{
    match look_at(work, clause) {
        Look::List(parts, end) => {
            if end.is_some() {
                return;
            }
            match parts.first() {
                None => {}
                Some(requirement) => {
                    let depth = work.depth(*requirement);
                    note_requirement(units, alloc, work, *requirement, depth);
                }
            }
        }
        Look::Name(_) => {}
        Look::Atom(_) => {}
        Look::Vector(_) => {}
    }
}

/// Notes which libraries a requirement asks for that is at most `left` nodes deep.
#[cycle(libraries)]
fn note_requirement(units: &mut UnitScope, alloc: Global, work: &Work, requirement: Tree, left: u32)
    requires { StandsWithin work.now requirement left }
    ensures noted { (known : Known) (ls : List Frames) (s : Noting) (t : ModelTree Identifier) → Knows units.old.libraries known → Stands work.now units.old ls s → StandsFor work.now requirement t →
        Stands work.now units.new ls (names_asked known (libraries_of symbol_of t) s) }
    ensures rest { units.new ≡ with_notes units.old units.new.form.trace.notes }
{
    match look_at(work, requirement) {
        Look::List(parts, end) => {
            if end.is_some() {
                return;
            }
            match word_of(work, parts) {
                Connective::And => note_requirements(units, alloc, work, parts, left - 1),
                Connective::Or => note_requirements(units, alloc, work, parts, left - 1),
                Connective::Not => note_requirements(units, alloc, work, parts, left - 1),
                Connective::Library => note_library(units, alloc, work, parts),
                Connective::Unknown => {}
            }
        }
        Look::Name(_) => {}
        Look::Atom(_) => {}
        Look::Vector(_) => {}
    }
}

/// Notes which libraries the requirements behind the first tree of a row ask for.
#[cycle(libraries)]
fn note_requirements(units: &mut UnitScope, alloc: Global, work: &Work, parts: &[Tree], left: u32)
    requires { PartsWithin work.now parts.now left }
    ensures noted { (known : Known) (ls : List Frames) (s : Noting) (ts : Trees Identifier) → Knows units.old.libraries known → Stands work.now units.old ls s → PartsStand work.now parts.now ts →
        Stands work.now units.new ls (names_asked known (libraries_behind ts) s) }
    ensures rest { units.new ≡ with_notes units.old units.new.form.trace.notes }
{
    for k in 1..parts.len() {
        note_requirement(units, alloc, work, parts[k], left);
    }
}

/// What the first tree of a row says as a word.
fn word_of(work: &Work, parts: &[Tree]) -> Connective
    requires { AreStanding work.now parts.now }
    ensures { (ts : Trees Identifier) → PartsStand work.now parts.now ts → result ≡ word_named ts }
{
    match parts.first() {
        None => Connective::Unknown,
        Some(head) => match look_at(work, *head) {
            Look::Name(ident) => connective_in(work.symbols.name(work.symbols.strip(ident))),
            Look::Atom(_) => Connective::Unknown,
            Look::List(_, _) => Connective::Unknown,
            Look::Vector(_) => Connective::Unknown,
        },
    }
}

/// Notes whether there is the library that is named behind the first tree of a row.
fn note_library(units: &mut UnitScope, alloc: Global, work: &Work, parts: &[Tree])
    requires { AreStanding work.now parts.now }
    ensures noted { (known : Known) (ls : List Frames) (s : Noting) (ts : Trees Identifier) → Knows units.old.libraries known → Stands work.now units.old ls s → PartsStand work.now parts.now ts →
        Stands work.now units.new ls (names_asked known (library_behind ts) s) }
    ensures rest { units.new ≡ with_notes units.old units.new.form.trace.notes }
{
    if parts.len() != 2 {
        return;
    }
    match library_name(alloc, work, parts[1]) {
        Ok(name) => {
            let answer = units.libraries.contains(name.as_str());
            let name = Text::from_string(name);
            units.form.trace.notes.require(name, answer);
        }
        Err(ShapeFault::BadForm) => {}
        Err(ShapeFault::Memory) => units.form.trace.notes.lost = true,
    }
}
