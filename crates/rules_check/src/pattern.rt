//! Patterns (R7RS 4.3.2): where their ellipses stand, and their variables.
ghost use Rattle.std.specs.Prelude.{◌≡◌, ℕ, ◌+◌, ◌^◌, ◌<◌, ◌≤◌, length, Option, OnOk};
ghost use Rattle.scheme_model.specs.declared.Occ.{Occ};
ghost use Rattle.scheme_model.specs.Trees.{Tree as ModelTree, name as name_tree, Trees, Tail};
ghost use Rattle.scheme_model.specs.ExpansionFaults.{named};
ghost use Rattle.scheme_model.specs.Matching.{behind};
ghost use Rattle.scheme_model.specs.RulesShape.{Rules as ModelRules, dots_of, depth_before};
ghost use Rattle.scheme_model.specs.Ident.{Ident as Identifier};
ghost use Rattle.syntax_tree.specs.Looks.{PartsStand, EndStands, StandsWithin, PartsWithin, EndWithin, AreStanding};
ghost use Rattle.syntax_tree.specs.Macros.{identifiers, IsIdent, TellsRoles};
ghost use Rattle.syntax_tree.specs.Placed.{IsNamed};
ghost use Rattle.syntax_tree.specs.Works.{StandsFor};
ghost use Rattle.rules_check.specs.Patterns.{Finds, of_pattern, of_list, of_parts};

use ls_base::{Mem, Memory};
use std::alloc::Global;
use syntax_tree::look::{Look, look_at, place_of};
use syntax_tree::rules::{Named, Role, Roles};
use syntax_tree::trees::{Tree, Work};

/// A variable of a pattern with its place, and under how many ellipses it stands.
#[derive(Clone, Copy)]
pub struct Variable {
    pub name: Named,
    pub depth: u32,
}

/// What was found in patterns: whether an ellipsis has nothing before it or is a tail, whether a list or a vector has two
/// ellipses, and the variables from left to right.
#[derive(Drop)]
pub struct Found {
    pub misplaced: bool,
    pub two: bool,
    pub variables: Vec<Variable>,
}

/// Goes through a pattern that is at most `left` nodes deep and stands under `depth` ellipses.
#[cycle(pattern)]
fn find(work: &Work, roles: &Roles, tree: Tree, depth: u32, left: u32, found: &mut Found) -> Mem<()>
    requires within { StandsWithin work.now tree left }
    requires small { depth + left < 2 ^ 32 }
    ensures { (r : ModelRules Identifier) (t : ModelTree Identifier) → TellsRoles work.now.symbols roles.now r →
        StandsFor work.now tree t → OnOk result (Finds work.now found.old found.new (of_pattern r t depth)) }
{
    match look_at(work, tree) {
        Look::Name(ident) => {
            let occ = place_of(work, tree);
            Ok(find_name(work, roles, Named { ident, occ }, depth, found)?)
        }
        Look::Atom(_) => Ok(()),
        Look::List(items, end) => Ok(find_list(
            work,
            roles,
            items,
            0,
            end,
            depth,
            left - 1,
            found,
        )?),
        Look::Vector(items) => Ok(find_list(work, roles, items, 0, None, depth, left - 1, found)?),
    }
}

/// Goes through an identifier of a pattern.
fn find_name(work: &Work, roles: &Roles, name: Named, depth: u32, found: &mut Found) -> Mem<()>
    requires { (i : Identifier) × IsIdent work.now.symbols name.ident i }
    ensures { (r : ModelRules Identifier) (i : Identifier) (o : Option Occ) → TellsRoles work.now.symbols roles.now r →
        IsNamed work.now.symbols name (named i o) → OnOk result (Finds work.now found.old found.new (of_pattern r (name_tree i o) depth)) }
{
    match roles.role(&work.symbols, name.ident) {
        Role::Variable => {
            found.variables.push(Variable { name, depth })?;
            Ok(())
        }
        Role::Literal => Ok(()),
        Role::Ellipsis => Ok(()),
        Role::Any => Ok(()),
    }
}

/// Goes through the parts of a list or a vector from a place on, and through its tail, where it has one.
#[cycle(pattern)]
pub fn find_list(
    work: &Work,
    roles: &Roles,
    items: &[Tree],
    from: usize,
    end: Option<Tree>,
    depth: u32,
    left: u32,
    found: &mut Found,
) -> Mem<()>
    requires parts { PartsWithin work.now items.now left }
    requires tail { EndWithin work.now end left }
    requires small { depth + left + 1 < 2 ^ 32 }
    ensures { (r : ModelRules Identifier) (ts : Trees Identifier) (tail : Tail Identifier) → TellsRoles work.now.symbols roles.now r →
        PartsStand work.now items.now ts → EndStands work.now end tail →
        OnOk result (Finds work.now found.old found.new (of_list r (behind from ts) tail depth)) }
{
    let tail_dots = roles.is_dots_end(work, end);
    found.misplaced = found.misplaced || roles.dots_at(work, items, from) || tail_dots;
    found.two = found.two || roles.count_dots(work, items, from) > 1;
    find_parts(work, roles, items, from, depth, left, found)?;
    match end {
        None => Ok(()),
        Some(tail) => Ok(find(work, roles, tail, depth, left, found)?),
    }
}

/// Goes through the parts of a list or a vector from a place on.
#[cycle(pattern)]
fn find_parts(
    work: &Work,
    roles: &Roles,
    items: &[Tree],
    from: usize,
    depth: u32,
    left: u32,
    found: &mut Found,
) -> Mem<()>
    requires parts { PartsWithin work.now items.now left }
    requires small { depth + left + 1 < 2 ^ 32 }
    ensures { (r : ModelRules Identifier) (ts : Trees Identifier) → TellsRoles work.now.symbols roles.now r →
        PartsStand work.now items.now ts →
        OnOk result (Finds work.now found.old found.new (of_parts r (behind from ts) depth)) }
{
    for k in from..items.len() {
        let inner = depth_before(work, roles, items, k, depth);
        find(work, roles, items[k], inner, left, found)?;
    }
    Ok(())
}

/// The depth of the variables of a part, which an ellipsis may follow.
fn depth_before(work: &Work, roles: &Roles, items: &[Tree], k: usize, depth: u32) -> u32
    requires standing { AreStanding work.now items.now }
    requires place { k < length items.now }
    requires small { depth + 1 < 2 ^ 32 }
    ensures bound { result ≤ depth + 1 }
    ensures value { (r : ModelRules Identifier) (ts : Trees Identifier) → TellsRoles work.now.symbols roles.now r →
        PartsStand work.now items.now ts → result ≡ depth_before (dots_of identifiers r) (behind (k + 1) ts) depth }
{
    if roles.dots_at(work, items, k + 1) {
        depth + 1
    } else {
        depth
    }
}
