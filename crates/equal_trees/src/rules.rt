//! Whether two macros have the same rules: the same ellipsis, the same literals at the same places, and the same patterns and templates. The
//! first part of a pattern is no part of its rule.
ghost use Rattle.std.specs.Prelude.{◌≡◌, ◌↔◌, ◌≤◌, IsTrue, List, length, map, take};
ghost use Rattle.scheme_model.specs.Ident.{Ident as Identifier};
ghost use Rattle.scheme_model.specs.RulesShape.{Rule as ModelRule, Rules as ModelRules};
ghost use Rattle.scheme_model.specs.Trees.{Tail, Trees};
ghost use Rattle.scheme_model.specs.Matching.{behind};
ghost use Rattle.syntax_tree.specs.Looks.{EndStands, EndWithin, PartsStand, PartsWithin};
ghost use Rattle.syntax_tree.specs.Macros.{AreRules, IsRule};
ghost use Rattle.equal_trees.specs.Told.{IsPattern, TellsRules};

use crate::trees::{same_ends, same_parts, same_tree};
use rules_check::RuleLeaf;
use syntax_tree::look::{Look, look_at};
use syntax_tree::rules::{Named, Rule, Rules};
use syntax_tree::symbols::IdNo;
use syntax_tree::trees::{Tree, Work};

/// Whether two macros have the same rules, by these and by their leaves, which tell where literals stand. It takes no memory.
pub fn same_rules(
    work: &Work,
    one: &Rules,
    one_leaves: &[RuleLeaf],
    other: &Rules,
    other_leaves: &[RuleLeaf],
) -> bool
    requires one { (r : ModelRules Identifier) × TellsRules work.now one.now one_leaves.now r }
    requires other { (r : ModelRules Identifier) × TellsRules work.now other.now other_leaves.now r }
    ensures { (r : ModelRules Identifier) (q : ModelRules Identifier) → TellsRules work.now one.now one_leaves.now r → TellsRules work.now other.now other_leaves.now q → IsTrue result ↔ (r ≡ q) }
{
    work.symbols.told_apart();
    if !same_ident(one.ellipsis, other.ellipsis) {
        return false;
    }
    if !same_literals(one, one_leaves, other, other_leaves) {
        return false;
    }
    all_same(work, one.rules.as_slice(), other.rules.as_slice())
}

/// Whether two macros have as many literals, and the same, as their first leaves tell.
fn same_literals(one: &Rules, leaves: &[RuleLeaf], other: &Rules, others: &[RuleLeaf]) -> bool
    requires one { length one.now.literals ≤ length leaves.now }
    requires other { length other.now.literals ≤ length others.now }
    ensures { IsTrue result ↔ ((length one.now.literals ≡ length other.now.literals) × (take (length one.now.literals) (map (λ l. l.name) leaves.now) ≡ take (length one.now.literals) (map (λ l. l.name) others.now))) }
{
    let count = one.literals.as_slice().len();
    let other_count = other.literals.as_slice().len();
    if other_count != count {
        return false;
    }
    same_names(leaves, others, count)
}

/// Whether the first so many of two rows of leaves are the same names.
fn same_names(leaves: &[RuleLeaf], others: &[RuleLeaf], count: usize) -> bool
    requires one { count ≤ length leaves.now }
    requires other { count ≤ length others.now }
    ensures { IsTrue result ↔ (take count (map (λ l. l.name) leaves.now) ≡ take count (map (λ l. l.name) others.now)) }
{
    for k in 0..count {
        if !same_name(leaves[k].name, others[k].name) {
            return false;
        }
    }
    true
}

/// Whether two rows of rules are the same.
fn all_same(work: &Work, rules: &[Rule], others: &[Rule]) -> bool
    requires one { (rs : List (ModelRule Identifier)) × AreRules work.now rules.now rs }
    requires other { (rs : List (ModelRule Identifier)) × AreRules work.now others.now rs }
    ensures { (rs : List (ModelRule Identifier)) (qs : List (ModelRule Identifier)) → AreRules work.now rules.now rs → AreRules work.now others.now qs → IsTrue result ↔ (rs ≡ qs) }
{
    let count = rules.len();
    if others.len() != count {
        return false;
    }
    for k in 0..count {
        if !same_rule(work, rules[k], others[k]) {
            return false;
        }
    }
    true
}

/// Whether two rules are the same.
fn same_rule(work: &Work, rule: Rule, other: Rule) -> bool
    requires one { (r : ModelRule Identifier) × IsRule work.now rule r }
    requires other { (r : ModelRule Identifier) × IsRule work.now other r }
    ensures { (r : ModelRule Identifier) (q : ModelRule Identifier) → IsRule work.now rule r → IsRule work.now other q → IsTrue result ↔ (r ≡ q) }
{
    if !same_pattern(work, rule.pattern, other.pattern) {
        return false;
    }
    same_tree(work, rule.template, other.template)
}

/// Whether two patterns are the same behind their first parts.
fn same_pattern(work: &Work, pattern: Tree, other: Tree) -> bool
    requires one { (ts : Trees Identifier) × (tail : Tail Identifier) × IsPattern work.now pattern ts tail }
    requires other { (us : Trees Identifier) × (last : Tail Identifier) × IsPattern work.now other us last }
    ensures { (ts : Trees Identifier) (us : Trees Identifier) (tail : Tail Identifier) (last : Tail Identifier) → IsPattern work.now pattern ts tail → IsPattern work.now other us last → IsTrue result ↔ ((ts ≡ us) × (tail ≡ last)) }
{
    let left = work.depth(pattern);
    match look_at(work, pattern) {
        Look::List(parts, end) => is_pattern(work, other, parts, end, left),
        Look::Name(_) => false,
        Look::Atom(_) => false,
        Look::Vector(_) => false,
    }
}

/// Whether a tree is a pattern of these parts, but for the first one, and of this tail, which are at most `left` nodes deep.
fn is_pattern(work: &Work, tree: Tree, parts: &[Tree], end: Option<Tree>, left: u32) -> bool
    requires parts { PartsWithin work.now parts.now left }
    requires first { 1 ≤ length parts.now }
    requires tail { EndWithin work.now end left }
    requires tree { (us : Trees Identifier) × (last : Tail Identifier) × IsPattern work.now tree us last }
    ensures { (ts : Trees Identifier) (us : Trees Identifier) (tail : Tail Identifier) (last : Tail Identifier) → PartsStand work.now parts.now ts → EndStands work.now end tail → IsPattern work.now tree us last →
        IsTrue result ↔ ((behind 1 ts ≡ us) × (tail ≡ last)) }
{
    match look_at(work, tree) {
        Look::List(others, other_end) => {
            same_parts(work, parts, others, 1, left) && same_ends(work, end, other_end, left)
        }
        Look::Name(_) => false,
        Look::Atom(_) => false,
        Look::Vector(_) => false,
    }
}

/// Whether two identifiers are one, by their numbers.
fn same_ident(one: Option<IdNo>, other: Option<IdNo>) -> bool
    ensures { IsTrue result ↔ (one ≡ other) }
{
    one == other
}

/// Whether two names are one, by their numbers, at one place.
fn same_name(one: Named, other: Named) -> bool
    ensures { IsTrue result ↔ (one ≡ other) }
{
    one == other
}
