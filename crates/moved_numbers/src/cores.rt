//! Cores under other numbers, changed in place without memory.
ghost use Rattle.std.specs.Prelude.{◌≡◌, map};
ghost use Rattle.core_tree.specs.Names.{AllMatch, IsMacro};
ghost use Rattle.core_tree.specs.Cores.{CoreStands, CoresStand, ClausesStand, PartsStand, PartStands};
ghost use Rattle.renumbering_laws.specs.Renumbering.{binders, macro_of, core_as, cores_as, clauses_as, parts_as, part_as};
ghost use Rattle.moves.specs.Numbers.{numbers_of};
ghost use Rattle.moved_numbers.specs.Standing.{StandsOn, ClauseStands, clause_as};
ghost use Rattle.moved_numbers.specs.Values as code;
ghost use Rattle.moved_numbers.specs.Values.{each};

use crate::leaves;
use core_tree::cores::{Clause, Core, CorePart, MacroDef};
use moves::Moves;
use std::mem;
use syntax_tree::trees::Tree;

/// The definition of a macro.
pub fn macro_def(moves: &Moves, it: &mut MacroDef)
    ensures stands { StandsOn (numbers_of moves.now) IsMacro (macro_of (numbers_of moves.now)) it.old it.new }
    ensures value { it.new ≡ code.macro_as (numbers_of moves.now) it.old }
{
    it.binder = leaves::binder(moves, it.binder);
    leaves::leaves(moves, &mut it.leaves);
}

/// Definitions of macros, one by one.
fn macro_defs(moves: &Moves, all: &mut Vec<MacroDef>)
    ensures stands { StandsOn (numbers_of moves.now) (λ work unit form. AllMatch (IsMacro work unit form)) (map (macro_of (numbers_of moves.now))) all.old.items all.new.items }
    ensures value { all.new ≡ each (code.macro_as (numbers_of moves.now)) all.old }
{
    for i in 0..all.len() {
        macro_def(moves, &mut all[i]);
    }
}

/// The core of an expression, where it stands.
#[cycle(cores)]
pub fn core(moves: &Moves, it: &mut Core)
    ensures stands { StandsOn (numbers_of moves.now) CoreStands (core_as (numbers_of moves.now)) it.old it.new }
    ensures value { it.new ≡ code.core_as (numbers_of moves.now) it.old }
{
    let old = mem::replace(it, Core::Const(Tree { number: 0 }));
    *it = moved(moves, old);
}

/// The core of an expression.
#[cycle(cores)]
fn moved(moves: &Moves, it: Core) -> Core
    ensures stands { StandsOn (numbers_of moves.now) CoreStands (core_as (numbers_of moves.now)) it result }
    ensures value { result ≡ code.core_as (numbers_of moves.now) it }
{
    match it {
        Core::Ref(target) => Core::Ref(leaves::target(moves, target)),
        Core::Const(tree) => Core::Const(tree),
        Core::Quote(tree) => Core::Quote(tree),
        Core::Quasi {
            datum,
            places,
            mut parts,
        } => {
            cores(moves, &mut parts);
            Core::Quasi {
                datum,
                places,
                parts,
            }
        }
        Core::Lambda(mut only) => {
            clause(moves, &mut only);
            Core::Lambda(only)
        }
        Core::CaseLambda(mut all) => {
            clauses(moves, &mut all);
            Core::CaseLambda(all)
        }
        Core::If(mut all) => {
            cores(moves, &mut all);
            Core::If(all)
        }
        Core::Set { target, mut value } => {
            core(moves, &mut value);
            Core::Set {
                target: leaves::target(moves, target),
                value,
            }
        }
        Core::Call(mut all) => {
            cores(moves, &mut all);
            Core::Call(all)
        }
        Core::Body(mut all) => {
            parts(moves, &mut all);
            Core::Body(all)
        }
        Core::LetSyntax {
            mut macros,
            mut body,
        } => {
            macro_defs(moves, &mut macros);
            core(moves, &mut body);
            Core::LetSyntax { macros, body }
        }
    }
}

/// Cores, one by one.
#[cycle(cores)]
fn cores(moves: &Moves, all: &mut Vec<Core>)
    ensures stands { StandsOn (numbers_of moves.now) CoresStand (cores_as (numbers_of moves.now)) all.old.items all.new.items }
    ensures value { all.new ≡ each (code.core_as (numbers_of moves.now)) all.old }
{
    for i in 0..all.len() {
        core(moves, &mut all[i]);
    }
}

/// A clause of a procedure.
#[cycle(cores)]
fn clause(moves: &Moves, it: &mut Clause)
    ensures stands { StandsOn (numbers_of moves.now) ClauseStands (clause_as (numbers_of moves.now)) it.old it.new }
    ensures value { it.new ≡ code.clause_as (numbers_of moves.now) it.old }
{
    leaves::binders(moves, &mut it.binders);
    core(moves, &mut it.body);
}

/// Clauses, one by one.
#[cycle(cores)]
fn clauses(moves: &Moves, all: &mut Vec<Clause>)
    ensures stands { StandsOn (numbers_of moves.now) ClausesStand (clauses_as (numbers_of moves.now)) all.old.items all.new.items }
    ensures value { all.new ≡ each (code.clause_as (numbers_of moves.now)) all.old }
{
    for i in 0..all.len() {
        clause(moves, &mut all[i]);
    }
}

/// Parts of a body, one by one.
#[cycle(cores)]
fn parts(moves: &Moves, all: &mut Vec<CorePart>)
    ensures stands { StandsOn (numbers_of moves.now) PartsStand (parts_as (numbers_of moves.now)) all.old.items all.new.items }
    ensures value { all.new ≡ each (code.part_as (numbers_of moves.now)) all.old }
{
    for i in 0..all.len() {
        part(moves, &mut all[i]);
    }
}

/// A part of a body or of a unit.
#[cycle(cores)]
pub fn part(moves: &Moves, it: &mut CorePart)
    ensures stands { StandsOn (numbers_of moves.now) PartStands (part_as (numbers_of moves.now)) it.old it.new }
    ensures value { it.new ≡ code.part_as (numbers_of moves.now) it.old }
{
    match it {
        CorePart::Expression(value) => core(moves, value),
        CorePart::Define { binder, value } => {
            *binder = leaves::binder(moves, *binder);
            core(moves, value);
        }
        CorePart::Values {
            binders,
            dotted: _,
            value,
        } => {
            leaves::binders(moves, binders);
            core(moves, value);
        }
        CorePart::Fields {
            binders,
            fields,
            modified: _,
            used,
        } => {
            leaves::binders(moves, binders);
            leaves::binders(moves, fields);
            leaves::fields(moves, used);
        }
        CorePart::Syntax(only) => macro_def(moves, only),
    }
}
