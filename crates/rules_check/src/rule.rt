//! The faults of rules (R7RS 4.3.2), rule by rule.
ghost use Rattle.std.specs.Prelude.{◌≡◌, ℕ, ◌||◌, Option, List, [], IfOk};
ghost use Rattle.std.specs.BTreeMap.{get};
ghost use Rattle.std.specs.Ordering.{nat_cmp};
ghost use Rattle.scheme_model.specs.declared.Occ.{Occ};
ghost use Rattle.scheme_model.specs.Trees.{Tree as ModelTree, Trees, tree, Tail, list};
ghost use Rattle.scheme_model.specs.RulesShape.{Rules as ModelRules, Rule as ModelRule, check_rules, check_rule};
ghost use Rattle.scheme_model.specs.Ident.{Ident as Identifier};
ghost use Rattle.syntax_tree.specs.Macros.{identifiers, TellsRoles, IsRule, AreRules};
ghost use Rattle.syntax_tree.specs.Works.{StandsFor, IsStanding};
ghost use Rattle.rules_check.specs.Checked.{Passes};
ghost use Rattle.rules_check.specs.Patterns.{of_list, Contains};
ghost use Rattle.rules_check.specs.Lowest.{depth_by_number, twice_by_number, lowest_of};

use crate::RulesFault;
use crate::pattern::{Found, Variable, find_list};
use crate::template::{Seen, see};
use ls_base::{Mem, Memory};
use std::alloc::Global;
use std::collections::{BTreeMap, BTreeSet};
use syntax_tree::look::{Look, look_at};
use syntax_tree::rules::{Named, Roles, Rule};
use syntax_tree::symbols::IdNo;
use syntax_tree::trees::{Tree, Work};

/// The first fault of some rules, in order.
pub fn check_rules(
    alloc: Global,
    work: &Work,
    roles: &Roles,
    rules: &[Rule],
) -> Result<(), RulesFault>
    requires { (rs : List (ModelRule Identifier)) × AreRules work.now rules.now rs }
    ensures { (r : ModelRules Identifier) (rs : List (ModelRule Identifier)) → TellsRoles work.now.symbols roles.now r →
        AreRules work.now rules.now rs → Passes work.now (check_rules identifiers r rs) result }
{
    for rule in rules {
        check_rule(alloc, work, roles, *rule)?;
    }
    Ok(())
}

/// The lowest fault of a rule.
fn check_rule(alloc: Global, work: &Work, roles: &Roles, rule: Rule) -> Result<(), RulesFault>
    requires { (m : ModelRule Identifier) × IsRule work.now rule m }
    ensures { (r : ModelRules Identifier) (m : ModelRule Identifier) → TellsRoles work.now.symbols roles.now r →
        IsRule work.now rule m → Passes work.now (check_rule identifiers r m) result }
{
    work.symbols.told_apart();
    let found = find_pattern(alloc, work, roles, rule.pattern)?;
    let depths = depths_of(alloc, found.variables.as_slice())?;
    let depth = work.depth(rule.template);
    let _size = work.size(rule.template);
    let seen = see(work, roles, &depths, rule.template, false, 0, depth);
    let whole = roles.is_dots(work, rule.template);
    let twice = first_twice(alloc, found.variables.as_slice())?;
    Ok(lowest(&found, whole, twice, seen)?)
}

/// What is found in a pattern, whose first part takes no part.
pub fn find_pattern(alloc: Global, work: &Work, roles: &Roles, pattern: Tree) -> Mem<Found>
    requires { IsStanding work.now pattern }
    ensures { (r : ModelRules Identifier) (head : ModelTree Identifier) (ts : Trees Identifier) (tail : Tail Identifier) (o : Option Occ) →
        TellsRoles work.now.symbols roles.now r → StandsFor work.now pattern (list (tree head ts) tail o) →
        IfOk result (λ found. Contains work.now found (of_list r ts tail 0)) }
{
    let mut found = Found {
        misplaced: false,
        two: false,
        variables: Vec::new(alloc),
    };
    let depth = work.depth(pattern);
    match look_at(work, pattern) {
        Look::List(items, end) => {
            find_list(work, roles, items, 1, end, 0, depth - 1, &mut found)?;
            Ok(found)
        }
        Look::Name(_) => Ok(found),
        Look::Atom(_) => Ok(found),
        Look::Vector(_) => Ok(found),
    }
}

/// The depths of variables by number: of a variable that stands twice, that of the first.
pub fn depths_of(alloc: Global, variables: &[Variable]) -> Mem<BTreeMap<IdNo, u32>>
    ensures { IfOk result (λ depths. (n : ℕ) → get nat_cmp depths n ≡ depth_by_number variables.now n) }
{
    let mut depths = BTreeMap::new(alloc);
    for variable in variables {
        if !depths.contains_key(&variable.name.ident) {
            depths.insert(variable.name.ident, variable.depth)?;
        }
    }
    Ok(depths)
}

/// The first variable that stands twice: the second of the two.
fn first_twice(alloc: Global, variables: &[Variable]) -> Mem<Option<Named>>
    ensures { IfOk result (λ twice. twice ≡ twice_by_number [] variables.now) }
{
    let mut seen = BTreeSet::new(alloc);
    for variable in variables {
        if !seen.insert(variable.name.ident)? {
            return Ok(Some(variable.name));
        }
    }
    Ok(None)
}

/// The lowest of the faults that hold, of a pattern, of a template that may be an ellipsis as a whole, and of both together.
fn lowest(found: &Found, whole: bool, twice: Option<Named>, seen: Seen) -> Result<(), RulesFault>
    ensures { result ≡ lowest_of (found.now.misplaced || (whole || seen.misplaced)) found.now.two twice seen.shallow seen.idle }
{
    if found.misplaced || whole || seen.misplaced {
        return Err(RulesFault::BadShape);
    }
    if found.two {
        return Err(RulesFault::TwoEllipses);
    }
    if let Some(name) = twice {
        return Err(RulesFault::DuplicateVariable(name));
    }
    if let Some(name) = seen.shallow {
        return Err(RulesFault::Depth(name));
    }
    if seen.idle {
        return Err(RulesFault::IdleEllipsis);
    }
    Ok(())
}
