//! The leaves of rules that mean something where their macro is defined (R7RS 4.3.2), with their places.
ghost use Rattle.std.specs.Prelude.{◌≡◌, ℕ, ◌++◌, ◌||◌, is_some, map, List, Option, Ok, OnOk, IfOk};
ghost use Rattle.scheme_model.specs.declared.Occ.{Occ};
ghost use Rattle.scheme_model.specs.Trees.{Tree as ModelTree, list as list_tree, Trees, tree as before, Tail};
ghost use Rattle.scheme_model.specs.ExpansionFaults.{named};
ghost use Rattle.scheme_model.specs.RulesShape.{Rules as ModelRules, Rule as ModelRule, role_of, escape_of};
ghost use Rattle.scheme_model.specs.Matching.{behind};
ghost use Rattle.scheme_model.specs.Leaves.{literal_at, pattern_leaves, leaves_among, leaves_behind, unless, template_leaves, template_among, template_behind, rule_leaves, all_rule_leaves, leaves_of};
ghost use Rattle.scheme_model.specs.Ident.{Ident as Identifier};
ghost use Rattle.syntax_tree.specs.Looks.{PartsStand, EndStands, StandsWithin, PartsWithin, EndWithin, AreStanding, EndIsStanding};
ghost use Rattle.syntax_tree.specs.Macros.{identifiers, IsIdent, IsRule, AreRules, RulesFor, TellsRoles};
ghost use Rattle.syntax_tree.specs.Placed.{IsNamed};
ghost use Rattle.syntax_tree.specs.Works.{StandsFor, IsStanding};
ghost use Rattle.rules_check.specs.Checked.{rules_in_form};
ghost use Rattle.rules_check.specs.Templates.{dots_where, HasDepths};
ghost use Rattle.rules_check.specs.Gathered.{AreLeaves, AddsLeaves, HasRules, AreUnplaced, unplaced_leaf, list_parts, listed_behind, listed_in, name_leaf, name_leaves};

use crate::rule::{depths_of, find_pattern};
use crate::template::is_escape;
use ls_base::{Mem, Memory};
use std::alloc::Global;
use std::collections::BTreeMap;
use syntax_tree::look::{Look, look_at, place_of};
use syntax_tree::rules::{Named, Role, Roles, Rule, Rules};
use syntax_tree::symbols::IdNo;
use syntax_tree::trees::{Tree, Work};

/// A leaf of rules with its place, and whether it is a literal.
#[derive(Clone, Copy)]
pub struct RuleLeaf {
    pub name: Named,
    pub literal: bool,
}

/// The leaves of the rules that `check` gave for a tree, each with its place: the literals in their list, and then rule by rule the
/// literals of the pattern and the identifiers of the template that are neither variables nor ellipses, from left to right.
pub fn leaves(alloc: Global, work: &Work, tree: Tree, rules: &Rules) -> Mem<Vec<RuleLeaf>>
    requires { HasRules work.now tree rules.now }
    ensures { (t : ModelTree Identifier) (r : ModelRules Identifier) → StandsFor work.now tree t → rules_in_form t ≡ Ok r →
        RulesFor work.now rules.now r → IfOk result (λ found. AreLeaves work.now.symbols found.items (leaves_of identifiers r)) }
{
    let roles = Roles::of(alloc, rules.ellipsis, rules.literals.as_slice())?;
    let mut leaves = Vec::new(alloc);
    in_form(work, tree, &mut leaves)?;
    in_rules(alloc, work, &roles, rules.rules.as_slice(), &mut leaves)?;
    Ok(leaves)
}

/// The same leaves of rules that were made without a tree: no literal in their list has a place.
pub fn unplaced_leaves(alloc: Global, work: &Work, rules: &Rules) -> Mem<Vec<RuleLeaf>>
    requires { (r : ModelRules Identifier) × RulesFor work.now rules.now r }
    ensures { (r : ModelRules Identifier) → RulesFor work.now rules.now r → AreUnplaced r.literals →
        IfOk result (λ found. AreLeaves work.now.symbols found.items (leaves_of identifiers r)) }
{
    let roles = Roles::of(alloc, rules.ellipsis, rules.literals.as_slice())?;
    let mut leaves = without_places(alloc, rules.literals.as_slice())?;
    in_rules(alloc, work, &roles, rules.rules.as_slice(), &mut leaves)?;
    Ok(leaves)
}

/// Literals without places.
fn without_places(alloc: Global, idents: &[IdNo]) -> Mem<Vec<RuleLeaf>>
    ensures { IfOk result (λ found. found.items ≡ map unplaced_leaf idents.now) }
{
    Ok(
        idents
            .iter()
            .map(|ident| RuleLeaf {
                name: Named {
                    ident: *ident,
                    occ: None,
                },
                literal: true,
            })
            .collect(alloc)?,
    )
}

/// Adds the literals in their list.
fn in_form(work: &Work, tree: Tree, leaves: &mut Vec<RuleLeaf>) -> Mem<()>
    requires { IsStanding work.now tree }
    ensures { (t : ModelTree Identifier) → StandsFor work.now tree t →
        OnOk result (AddsLeaves work.now.symbols leaves.old.items leaves.new.items (name_leaves (listed_in t))) }
{
    match look_at(work, tree) {
        Look::List(items, _) => Ok(in_parts(work, items, leaves)?),
        Look::Name(_) => Ok(()),
        Look::Atom(_) => Ok(()),
        Look::Vector(_) => Ok(()),
    }
}

/// Adds the literals in their list, which is one of the first parts.
fn in_parts(work: &Work, items: &[Tree], leaves: &mut Vec<RuleLeaf>) -> Mem<()>
    requires { AreStanding work.now items.now }
    ensures { (ts : Trees Identifier) → PartsStand work.now items.now ts →
        OnOk result (AddsLeaves work.now.symbols leaves.old.items leaves.new.items (name_leaves (listed_behind (behind 1 ts)))) }
{
    if items.len() < 2 {
        return Ok(());
    }
    match look_at(work, items[1]) {
        Look::List(names, _) => Ok(in_names(work, names, leaves)?),
        Look::Name(_) => {
            if items.len() < 3 {
                return Ok(());
            }
            Ok(in_list(work, items[2], leaves)?)
        }
        Look::Atom(_) => Ok(()),
        Look::Vector(_) => Ok(()),
    }
}

/// Adds the identifiers among the parts of a list, as literals.
fn in_list(work: &Work, tree: Tree, leaves: &mut Vec<RuleLeaf>) -> Mem<()>
    requires { IsStanding work.now tree }
    ensures { (t : ModelTree Identifier) → StandsFor work.now tree t →
        OnOk result (AddsLeaves work.now.symbols leaves.old.items leaves.new.items (name_leaves (list_parts t))) }
{
    match look_at(work, tree) {
        Look::List(items, _) => Ok(in_names(work, items, leaves)?),
        Look::Name(_) => Ok(()),
        Look::Atom(_) => Ok(()),
        Look::Vector(_) => Ok(()),
    }
}

/// Adds the identifiers among some trees, as literals.
fn in_names(work: &Work, items: &[Tree], leaves: &mut Vec<RuleLeaf>) -> Mem<()>
    requires { AreStanding work.now items.now }
    ensures { (ts : Trees Identifier) → PartsStand work.now items.now ts →
        OnOk result (AddsLeaves work.now.symbols leaves.old.items leaves.new.items (name_leaves ts)) }
{
    for k in 0..items.len() {
        in_name(work, items[k], leaves)?;
    }
    Ok(())
}

/// Adds an identifier, as a literal.
fn in_name(work: &Work, tree: Tree, leaves: &mut Vec<RuleLeaf>) -> Mem<()>
    requires { IsStanding work.now tree }
    ensures { (t : ModelTree Identifier) → StandsFor work.now tree t →
        OnOk result (AddsLeaves work.now.symbols leaves.old.items leaves.new.items (name_leaf t)) }
{
    match look_at(work, tree) {
        Look::Name(ident) => {
            let occ = place_of(work, tree);
            leaves.push(RuleLeaf {
                name: Named { ident, occ },
                literal: true,
            })?;
            Ok(())
        }
        Look::Atom(_) => Ok(()),
        Look::List(_, _) => Ok(()),
        Look::Vector(_) => Ok(()),
    }
}

/// Adds the leaves of some rules, in order.
fn in_rules(
    alloc: Global,
    work: &Work,
    roles: &Roles,
    rules: &[Rule],
    leaves: &mut Vec<RuleLeaf>,
) -> Mem<()>
    requires { (rs : List (ModelRule Identifier)) × AreRules work.now rules.now rs }
    ensures { (r : ModelRules Identifier) (rs : List (ModelRule Identifier)) → TellsRoles work.now.symbols roles.now r →
        AreRules work.now rules.now rs →
        OnOk result (AddsLeaves work.now.symbols leaves.old.items leaves.new.items (all_rule_leaves identifiers r rs)) }
{
    for rule in rules {
        in_rule(alloc, work, roles, *rule, leaves)?;
    }
    Ok(())
}

/// Adds the literals of a pattern, and then the leaves of its template.
fn in_rule(
    alloc: Global,
    work: &Work,
    roles: &Roles,
    rule: Rule,
    leaves: &mut Vec<RuleLeaf>,
) -> Mem<()>
    requires { (m : ModelRule Identifier) × IsRule work.now rule m }
    ensures { (r : ModelRules Identifier) (m : ModelRule Identifier) → TellsRoles work.now.symbols roles.now r →
        IsRule work.now rule m →
        OnOk result (AddsLeaves work.now.symbols leaves.old.items leaves.new.items (rule_leaves identifiers r m)) }
{
    work.symbols.told_apart();
    let found = find_pattern(alloc, work, roles, rule.pattern)?;
    let depths = depths_of(alloc, found.variables.as_slice())?;
    in_head(work, roles, rule.pattern, leaves)?;
    let depth = work.depth(rule.template);
    in_template(work, roles, &depths, rule.template, false, depth, leaves)?;
    Ok(())
}

/// Adds the literals of a rule's pattern, whose first part takes no part.
fn in_head(work: &Work, roles: &Roles, pattern: Tree, leaves: &mut Vec<RuleLeaf>) -> Mem<()>
    requires { IsStanding work.now pattern }
    ensures { (r : ModelRules Identifier) (head : ModelTree Identifier) (ts : Trees Identifier) (tail : Tail Identifier) (o : Option Occ) →
        TellsRoles work.now.symbols roles.now r → StandsFor work.now pattern (list_tree (before head ts) tail o) →
        OnOk result (AddsLeaves work.now.symbols leaves.old.items leaves.new.items (leaves_among (role_of identifiers r) ts ++ leaves_behind (role_of identifiers r) tail)) }
{
    let depth = work.depth(pattern);
    match look_at(work, pattern) {
        Look::List(items, end) => {
            Ok(in_pattern_list(work, roles, items, 1, end, depth - 1, leaves)?)
        }
        Look::Name(_) => Ok(()),
        Look::Atom(_) => Ok(()),
        Look::Vector(_) => Ok(()),
    }
}

/// Adds the literals of a pattern that is at most `left` nodes deep.
#[cycle(literals)]
fn in_pattern(
    work: &Work,
    roles: &Roles,
    tree: Tree,
    left: u32,
    leaves: &mut Vec<RuleLeaf>,
) -> Mem<()>
    requires { StandsWithin work.now tree left }
    ensures { (r : ModelRules Identifier) (t : ModelTree Identifier) → TellsRoles work.now.symbols roles.now r →
        StandsFor work.now tree t →
        OnOk result (AddsLeaves work.now.symbols leaves.old.items leaves.new.items (pattern_leaves (role_of identifiers r) t)) }
{
    match look_at(work, tree) {
        Look::Name(ident) => {
            let occ = place_of(work, tree);
            Ok(add_literal(work, roles, Named { ident, occ }, leaves)?)
        }
        Look::Atom(_) => Ok(()),
        Look::List(items, end) => {
            Ok(in_pattern_list(work, roles, items, 0, end, left - 1, leaves)?)
        }
        Look::Vector(items) => {
            Ok(in_pattern_list(work, roles, items, 0, None, left - 1, leaves)?)
        }
    }
}

/// Adds the literals of the parts of a list or a vector from a place on, and of its tail, where it has one.
#[cycle(literals)]
fn in_pattern_list(
    work: &Work,
    roles: &Roles,
    items: &[Tree],
    from: usize,
    end: Option<Tree>,
    left: u32,
    leaves: &mut Vec<RuleLeaf>,
) -> Mem<()>
    requires parts { PartsWithin work.now items.now left }
    requires tail { EndWithin work.now end left }
    ensures { (r : ModelRules Identifier) (ts : Trees Identifier) (tail : Tail Identifier) → TellsRoles work.now.symbols roles.now r →
        PartsStand work.now items.now ts → EndStands work.now end tail →
        OnOk result (AddsLeaves work.now.symbols leaves.old.items leaves.new.items (leaves_among (role_of identifiers r) (behind from ts) ++ leaves_behind (role_of identifiers r) tail)) }
{
    for k in from..items.len() {
        in_pattern(work, roles, items[k], left, leaves)?;
    }
    match end {
        None => Ok(()),
        Some(tail) => Ok(in_pattern(work, roles, tail, left, leaves)?),
    }
}

/// Adds an identifier of a pattern, where it is a literal.
fn add_literal(work: &Work, roles: &Roles, name: Named, leaves: &mut Vec<RuleLeaf>) -> Mem<()>
    requires { (i : Identifier) × IsIdent work.now.symbols name.ident i }
    ensures { (r : ModelRules Identifier) (i : Identifier) (o : Option Occ) → TellsRoles work.now.symbols roles.now r →
        IsNamed work.now.symbols name (named i o) →
        OnOk result (AddsLeaves work.now.symbols leaves.old.items leaves.new.items (literal_at (role_of identifiers r i) (named i o))) }
{
    match roles.role(&work.symbols, name.ident) {
        Role::Literal => {
            leaves.push(RuleLeaf {
                name,
                literal: true,
            })?;
            Ok(())
        }
        Role::Ellipsis => Ok(()),
        Role::Any => Ok(()),
        Role::Variable => Ok(()),
    }
}

/// Adds the leaves of a template that is at most `left` nodes deep. In an escape, ellipses are identifiers.
#[cycle(identifiers)]
fn in_template(
    work: &Work,
    roles: &Roles,
    depths: &BTreeMap<IdNo, u32>,
    tree: Tree,
    escaped: bool,
    left: u32,
    leaves: &mut Vec<RuleLeaf>,
) -> Mem<()>
    requires { StandsWithin work.now tree left }
    ensures { (r : ModelRules Identifier) (depth : Identifier → Option ℕ) (t : ModelTree Identifier) →
        TellsRoles work.now.symbols roles.now r → HasDepths work.now depths.now depth → StandsFor work.now tree t →
        OnOk result (AddsLeaves work.now.symbols leaves.old.items leaves.new.items (template_leaves (dots_where escaped r) (λ i. is_some (depth i)) t)) }
{
    match look_at(work, tree) {
        Look::Name(ident) => {
            let occ = place_of(work, tree);
            Ok(add_name(work, roles, depths, Named { ident, occ }, escaped, leaves)?)
        }
        Look::Atom(_) => Ok(()),
        Look::Vector(items) => {
            Ok(in_template_list(
                work,
                roles,
                depths,
                items,
                0,
                None,
                escaped,
                left - 1,
                leaves,
            )?)
        }
        Look::List(items, end) => {
            if escapes(work, roles, items, end, escaped) {
                Ok(in_template_list(work, roles, depths, items, 1, end, true, left - 1, leaves)?)
            } else {
                Ok(in_template_list(
                    work,
                    roles,
                    depths,
                    items,
                    0,
                    end,
                    escaped,
                    left - 1,
                    leaves,
                )?)
            }
        }
    }
}

/// Adds the leaves of the parts of a list or a vector from a place on, and of its tail, where it has one.
#[cycle(identifiers)]
fn in_template_list(
    work: &Work,
    roles: &Roles,
    depths: &BTreeMap<IdNo, u32>,
    items: &[Tree],
    from: usize,
    end: Option<Tree>,
    escaped: bool,
    left: u32,
    leaves: &mut Vec<RuleLeaf>,
) -> Mem<()>
    requires parts { PartsWithin work.now items.now left }
    requires tail { EndWithin work.now end left }
    ensures { (r : ModelRules Identifier) (depth : Identifier → Option ℕ) (ts : Trees Identifier) (tail : Tail Identifier) →
        TellsRoles work.now.symbols roles.now r → HasDepths work.now depths.now depth → PartsStand work.now items.now ts →
        EndStands work.now end tail →
        OnOk result (AddsLeaves work.now.symbols leaves.old.items leaves.new.items (template_among (dots_where escaped r) (λ i. is_some (depth i)) (behind from ts) ++ template_behind (dots_where escaped r) (λ i. is_some (depth i)) tail)) }
{
    for k in from..items.len() {
        in_template(work, roles, depths, items[k], escaped, left, leaves)?;
    }
    match end {
        None => Ok(()),
        Some(tail) => Ok(in_template(work, roles, depths, tail, escaped, left, leaves)?),
    }
}

/// Whether a list is an escape. In an escape, none is.
fn escapes(work: &Work, roles: &Roles, items: &[Tree], end: Option<Tree>, escaped: bool) -> bool
    requires parts { AreStanding work.now items.now }
    requires tail { EndIsStanding work.now end }
    ensures { (r : ModelRules Identifier) (ts : Trees Identifier) (tail : Tail Identifier) → TellsRoles work.now.symbols roles.now r →
        PartsStand work.now items.now ts → EndStands work.now end tail →
        result ≡ is_some (escape_of (dots_where escaped r) ts tail) }
{
    if escaped {
        return false;
    }
    is_escape(work, roles, items, end)
}

/// Adds an identifier of a template, where it is neither a variable nor an ellipsis.
fn add_name(
    work: &Work,
    roles: &Roles,
    depths: &BTreeMap<IdNo, u32>,
    name: Named,
    escaped: bool,
    leaves: &mut Vec<RuleLeaf>,
) -> Mem<()>
    requires { (i : Identifier) × IsIdent work.now.symbols name.ident i }
    ensures { (r : ModelRules Identifier) (depth : Identifier → Option ℕ) (i : Identifier) (o : Option Occ) →
        TellsRoles work.now.symbols roles.now r → HasDepths work.now depths.now depth → IsNamed work.now.symbols name (named i o) →
        OnOk result (AddsLeaves work.now.symbols leaves.old.items leaves.new.items (unless (dots_where escaped r i || is_some (depth i)) (named i o))) }
{
    if acts_as_dots(work, roles, name.ident, escaped) {
        return Ok(());
    }
    if depths.contains_key(&name.ident) {
        return Ok(());
    }
    leaves.push(RuleLeaf {
        name,
        literal: false,
    })?;
    Ok(())
}

/// Whether an identifier acts as an ellipsis. In an escape, none does.
fn acts_as_dots(work: &Work, roles: &Roles, ident: IdNo, escaped: bool) -> bool
    requires { (i : Identifier) × IsIdent work.now.symbols ident i }
    ensures { (r : ModelRules Identifier) (i : Identifier) → TellsRoles work.now.symbols roles.now r →
        IsIdent work.now.symbols ident i → result ≡ dots_where escaped r i }
{
    if escaped {
        return false;
    }
    match roles.role(&work.symbols, ident) {
        Role::Ellipsis => true,
        Role::Literal => false,
        Role::Any => false,
        Role::Variable => false,
    }
}
