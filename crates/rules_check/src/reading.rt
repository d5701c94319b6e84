//! The shape of a list of rules: an ellipsis of their own, where they have one, the literals, and rules of a pattern and a
//! template each.
ghost use Rattle.std.specs.Prelude.{◌≡◌, ◌+◌, ◌≤◌, Option};
ghost use Rattle.scheme_model.specs.Trees.{Tree as ModelTree, Trees};
ghost use Rattle.scheme_model.specs.RulesShape.{rules_behind, rules_in, rule_of, bad};
ghost use Rattle.scheme_model.specs.Shapes.{names_of};
ghost use Rattle.scheme_model.specs.Matching.{behind};
ghost use Rattle.scheme_model.specs.Ident.{Ident as Identifier};
ghost use Rattle.syntax_tree.specs.Looks.{PartsStand, AreStanding};
ghost use Rattle.syntax_tree.specs.Macros.{IsEllipsisOf};
ghost use Rattle.syntax_tree.specs.Works.{StandsFor, IsStanding};
ghost use Rattle.rules_check.specs.Checked.{parts_shapes, shapes_in, literals_in, pair_in, is_headed, is_name, Checks, ReadsRules, ReadsLiterals, ReadsRule};

use crate::RulesFault;
use ls_base::Items;
use std::alloc::Global;
use syntax_tree::look::{Look, look_at};
use syntax_tree::rules::{Rule, Rules};
use syntax_tree::symbols::IdNo;
use syntax_tree::trees::{Tree, Work};

/// The rules of a list `(syntax-rules ..)`, whose first part isn't looked at.
pub fn read_rules(alloc: Global, work: &Work, tree: Tree) -> Result<Rules, RulesFault>
    requires { IsStanding work.now tree }
    ensures { (t : ModelTree Identifier) → StandsFor work.now tree t → Checks work.now (shapes_in t) result }
{
    match look_at(work, tree) {
        Look::List(items, end) => {
            if end.is_some() {
                return Err(RulesFault::BadShape);
            }
            Ok(read_parts(alloc, work, items)?)
        }
        Look::Name(_) => Err(RulesFault::BadShape),
        Look::Atom(_) => Err(RulesFault::BadShape),
        Look::Vector(_) => Err(RulesFault::BadShape),
    }
}

/// The rules among the parts of such a list.
fn read_parts(alloc: Global, work: &Work, items: &[Tree]) -> Result<Rules, RulesFault>
    requires { AreStanding work.now items.now }
    ensures { (ts : Trees Identifier) → PartsStand work.now items.now ts → Checks work.now (parts_shapes ts) result }
{
    if items.len() < 2 {
        return Err(RulesFault::BadShape);
    }
    match look_at(work, items[1]) {
        Look::Name(id) => Ok(read_behind(alloc, work, Some(id), items, 2)?),
        Look::List(_, _) => Ok(read_behind(alloc, work, None, items, 1)?),
        Look::Atom(_) => Err(RulesFault::BadShape),
        Look::Vector(_) => Err(RulesFault::BadShape),
    }
}

/// The literals and the rules, which stand from a place on.
fn read_behind(
    alloc: Global,
    work: &Work,
    ellipsis: Option<IdNo>,
    items: &[Tree],
    from: usize,
) -> Result<Rules, RulesFault>
    requires standing { AreStanding work.now items.now }
    requires small { from ≤ 2 }
    ensures { (ts : Trees Identifier) (e : Option Identifier) → PartsStand work.now items.now ts →
        IsEllipsisOf work.now.symbols ellipsis e → Checks work.now (rules_behind e (behind from ts)) result }
{
    if items.len() <= from {
        return Err(RulesFault::BadShape);
    }
    let literals = read_literals(alloc, work, items[from])?;
    let rules = read_each(alloc, work, items, from + 1)?;
    Ok(Rules {
        ellipsis,
        literals,
        rules,
    })
}

/// The literals of a list of identifiers.
fn read_literals(alloc: Global, work: &Work, tree: Tree) -> Result<Items<IdNo>, RulesFault>
    requires { IsStanding work.now tree }
    ensures { (t : ModelTree Identifier) → StandsFor work.now tree t → ReadsLiterals work.now (literals_in t) result }
{
    match look_at(work, tree) {
        Look::List(items, end) => {
            if end.is_some() {
                return Err(RulesFault::BadShape);
            }
            Ok(read_names(alloc, work, items)?)
        }
        Look::Name(_) => Err(RulesFault::BadShape),
        Look::Atom(_) => Err(RulesFault::BadShape),
        Look::Vector(_) => Err(RulesFault::BadShape),
    }
}

/// Identifiers in a row.
fn read_names(alloc: Global, work: &Work, items: &[Tree]) -> Result<Items<IdNo>, RulesFault>
    requires { AreStanding work.now items.now }
    ensures { (ts : Trees Identifier) → PartsStand work.now items.now ts → ReadsLiterals work.now (bad (names_of ts)) result }
{
    let mut names = Items::new(alloc);
    for item in items {
        match look_at(work, *item) {
            Look::Name(id) => names.push(id)?,
            Look::Atom(_) => return Err(RulesFault::BadShape),
            Look::List(_, _) => return Err(RulesFault::BadShape),
            Look::Vector(_) => return Err(RulesFault::BadShape),
        }
    }
    Ok(names)
}

/// The rules, which stand from a place on.
fn read_each(
    alloc: Global,
    work: &Work,
    items: &[Tree],
    from: usize,
) -> Result<Items<Rule>, RulesFault>
    requires { AreStanding work.now items.now }
    ensures { (ts : Trees Identifier) → PartsStand work.now items.now ts →
        ReadsRules work.now (rules_in (behind from ts)) result }
{
    let mut rules = Items::new(alloc);
    for k in from..items.len() {
        match read_rule(work, items[k]) {
            Some(rule) => rules.push(rule)?,
            None => return Err(RulesFault::BadShape),
        }
    }
    Ok(rules)
}

/// A rule: a list of a pattern and a template.
fn read_rule(work: &Work, tree: Tree) -> Option<Rule>
    requires { IsStanding work.now tree }
    ensures { (t : ModelTree Identifier) → StandsFor work.now tree t → ReadsRule work.now (rule_of t) result }
{
    match look_at(work, tree) {
        Look::List(items, end) => {
            if end.is_some() {
                return None;
            }
            pair(work, items)
        }
        Look::Name(_) => None,
        Look::Atom(_) => None,
        Look::Vector(_) => None,
    }
}

/// A pattern and a template.
fn pair(work: &Work, items: &[Tree]) -> Option<Rule>
    requires { AreStanding work.now items.now }
    ensures { (ts : Trees Identifier) → PartsStand work.now items.now ts → ReadsRule work.now (pair_in ts) result }
{
    if items.len() != 2 || !is_pattern(work, items[0]) {
        return None;
    }
    Some(Rule {
        pattern: items[0],
        template: items[1],
    })
}

/// Whether a tree is a pattern: a list whose first part is an identifier.
fn is_pattern(work: &Work, tree: Tree) -> bool
    requires { IsStanding work.now tree }
    ensures { (t : ModelTree Identifier) → StandsFor work.now tree t → result ≡ is_headed t }
{
    match look_at(work, tree) {
        Look::List(items, _) => !items.is_empty() && is_name(work, items[0]),
        Look::Name(_) => false,
        Look::Atom(_) => false,
        Look::Vector(_) => false,
    }
}

/// Whether a tree is an identifier.
fn is_name(work: &Work, tree: Tree) -> bool
    requires { IsStanding work.now tree }
    ensures { (t : ModelTree Identifier) → StandsFor work.now tree t → result ≡ is_name t }
{
    match look_at(work, tree) {
        Look::Name(_) => true,
        Look::Atom(_) => false,
        Look::List(_, _) => false,
        Look::Vector(_) => false,
    }
}
