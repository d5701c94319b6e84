//! Which rule of a macro a use matches (R7RS 4.3.2), what the variables of its pattern stand for, and which literals are compared.
#![tactic(auto)]

ghost use Rattle.std.specs.Prelude.{◌≡◌, ◌≤◌, ◌&&◌, ℕ, Bool, nat_eq, length, Option, IfOk};
ghost use Rattle.std.specs.List.{list_any};
ghost use Rattle.std.specs.BTreeSet.{contains};
ghost use Rattle.scheme_model.specs.Trees.{Tree as ModelTree, Trees, Tail};
ghost use Rattle.scheme_model.specs.RulesShape.{Rules as ModelRules};
ghost use Rattle.scheme_model.specs.Matching.{behind, first_match, matcher};
ghost use Rattle.scheme_model.specs.Ident.{Ident as Identifier};
ghost use Rattle.syntax_tree.specs.Macros.{identifiers, RulesFor, AreChecked, AreRules};
ghost use Rattle.syntax_tree.specs.Works.{StandsFor, IsStanding, CanName};
ghost use Rattle.syntax_tree.specs.Bound.{BindingsNamed, IsMatched};
ghost use Rattle.syntax_tree.specs.declared.trees.table.Region.{Region as AnyRegion};
ghost use Rattle.syntax_tree.specs.declared.rules.IdPair.{IdPair as AnyPair};
ghost use Rattle.rules_match.specs.Found.{Knows, pair_cmp};
ghost use Rattle.rules_match.specs.Matches.{compared_in, match_in, means_same, ArePairs, Matches};
ghost use Rattle.rules_match.specs.Rows.{IsListRow, ListStands, RowNamed};

use crate::matching::{Found, Matcher};
use crate::pairs::compare_rules;
use crate::row::Row;
use ls_base::{Items, Mem, Memory};
use std::alloc::Global;
use std::collections::BTreeSet;
use syntax_tree::look::{Look, look_at};
use syntax_tree::rules::{IdPair, Matched, Roles, Rule, Rules};
use syntax_tree::symbols::IdNo;
use syntax_tree::trees::{Tree, Work};

mod columns;
mod fault;
mod matching;
mod pairs;
mod row;

pub use fault::MatchFault;

/// The literal comparisons of a use: each literal in the pattern of a rule, beside the identifier that stands at its place in the
/// form, rule by rule and from left to right. Places go by shape alone, whether the parts match or not.
pub fn literal_pairs(alloc: Global, work: &Work, rules: &Rules, form: Tree) -> Mem<Items<IdPair>>
    requires rules { AreChecked work.now rules.now }
    requires form { IsStanding work.now form }
    ensures { (r : ModelRules Identifier) (t : ModelTree Identifier) → RulesFor work.now rules.now r → StandsFor work.now form t →
        IfOk result (λ pairs. ArePairs work.now pairs (compared_in r t)) }
{
    if rules.literals.as_slice().is_empty() {
        return Ok(Items::new(alloc));
    }
    let roles = Roles::of(alloc, rules.ellipsis, rules.literals.as_slice())?;
    match look_at(work, form) {
        Look::List(items, end) => {
            if items.is_empty() {
                return Ok(Items::new(alloc));
            }
            let mut pairs = Vec::new(alloc);
            compare_rules(
                work,
                &roles,
                rules.rules.as_slice(),
                Row { items, end },
                &mut pairs,
            )?;
            Ok(Items::from_vec(pairs))
        }
        Look::Name(_) => Ok(Items::new(alloc)),
        Look::Atom(_) => Ok(Items::new(alloc)),
        Look::Vector(_) => Ok(Items::new(alloc)),
    }
}

/// The first rule whose pattern the form matches. A literal and an identifier of the form match where they are one of the pairs
/// that are handed in: those of `literal_pairs` that mean the same. `NoRule` comes exactly where no rule matches. `Memory` also comes
/// where the rule that matches has 2^32 rules or more before it, since a rule's number has 32 bits. Nodes of a region that may name the
/// form may name all that the bindings name, so the match is one that `build` of rules_build takes for this region.
pub fn match_rules(
    alloc: Global,
    work: &Work,
    rules: &Rules,
    form: Tree,
    same: &Items<IdPair>,
) -> Result<Matched, MatchFault>
    requires rules { AreChecked work.now rules.now }
    requires form { IsStanding work.now form }
    ensures finds { (r : ModelRules Identifier) (t : ModelTree Identifier) → RulesFor work.now rules.now r → StandsFor work.now form t →
        Matches work.now r (match_in r (means_same work.now same.now) t) result }
    ensures named { (region : AnyRegion) → CanName work.now region form →
        IfOk result (λ matched. BindingsNamed work.now region matched.bindings) }
    ensures matched { (region : AnyRegion) → CanName work.now region form →
        IfOk result (λ matched. IsMatched work.now region rules.now matched) }
{
    work.symbols.told_apart();
    let roles = Roles::of(alloc, rules.ellipsis, rules.literals.as_slice())?;
    let known = known_pairs(alloc, same.as_slice())?;
    let matcher = Matcher {
        alloc,
        work,
        roles: &roles,
        same: &known,
    };
    match look_at(work, form) {
        Look::List(items, end) => {
            if items.is_empty() {
                return Err(MatchFault::NoRule);
            }
            Ok(matching_rule(&matcher, rules.rules.as_slice(), form, Row { items, end })?)
        }
        Look::Name(_) => Err(MatchFault::NoRule),
        Look::Atom(_) => Err(MatchFault::NoRule),
        Look::Vector(_) => Err(MatchFault::NoRule),
    }
}

/// The pairs as a set.
fn known_pairs(alloc: Global, pairs: &[IdPair]) -> Mem<BTreeSet<(IdNo, IdNo)>>
    ensures { IfOk result (λ known. (n m : ℕ) →
        contains pair_cmp known (n, m) ≡ list_any (λ (p : AnyPair). nat_eq n p.literal && nat_eq m p.ident) pairs.now) }
{
    let mut known = BTreeSet::new(alloc);
    for pair in pairs {
        known.insert((pair.literal, pair.ident))?;
    }
    Ok(known)
}

/// The first of some rules whose pattern what stands behind the first part of a form matches.
fn matching_rule(
    matching: &Matcher,
    rules: &[Rule],
    form: Tree,
    row: Row,
) -> Result<Matched, MatchFault>
    requires rules { (r : ModelRules Identifier) × ((same : Identifier → Identifier → Bool) × Knows matching.now r same × AreRules matching.now.work.now rules.now r.rules) }
    requires form { ListStands matching.now.work.now form row }
    requires head { 1 ≤ length row.items.now }
    ensures finds { (r : ModelRules Identifier) (same : Identifier → Identifier → Bool) (ts : Trees Identifier) (end : Tail Identifier) →
        Knows matching.now r same → AreRules matching.now.work.now rules.now r.rules → IsListRow matching.now.work.now form row.entry ts end →
        Matches matching.now.work.now r (first_match (matcher identifiers r same) r.rules (behind 1 ts) end) result }
    ensures named { (region : AnyRegion) → CanName matching.now.work.now region form → RowNamed matching.now.work.now region row.entry →
        IfOk result (λ matched. BindingsNamed matching.now.work.now region matched.bindings) }
{
    for k in 0..rules.len() {
        let mut found = Found {
            bindings: Vec::new(matching.alloc),
            leaves: Vec::new(matching.alloc),
        };
        if matching.rule(rules[k], form, row, &mut found)? {
            let Ok(rule) = u32::try_from(k) else {
                return Err(MatchFault::Memory);
            };
            let Found { bindings, leaves } = found;
            return Ok(Matched {
                rule,
                bindings: Items::from_vec(bindings),
                literals: Items::from_vec(leaves),
            });
        }
    }
    Err(MatchFault::NoRule)
}
