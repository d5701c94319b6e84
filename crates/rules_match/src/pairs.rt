//! Which literals are compared with which identifiers: by shape alone, whether the parts match or not.
ghost use Rattle.std.specs.Prelude.{◌≡◌, ℕ, ◌≤◌, List, length, OnOk, Bool};
ghost use Rattle.scheme_model.specs.Trees.{Tree as ModelTree, Trees, Tail};
ghost use Rattle.scheme_model.specs.Matching.{behind, can_take, pair_of, pairs_in, pairs_each, pairs_behind, compared};
ghost use Rattle.scheme_model.specs.RulesShape.{Rules as ModelRules, Rule as ModelRule, role_of, dots_of};
ghost use Rattle.scheme_model.specs.Ident.{Ident as Identifier};
ghost use Rattle.syntax_tree.specs.Looks.{StandsWithin, EndWithin, PartsStand, EndStands, AreStanding};
ghost use Rattle.syntax_tree.specs.Macros.{identifiers, TellsRoles, IsIdent, IsRule, AreRules};
ghost use Rattle.syntax_tree.specs.Works.{StandsFor, IsStanding};
ghost use Rattle.rules_match.specs.Matches.{AddsPairs, pairs_where};
ghost use Rattle.rules_match.specs.Rows.{IsRow, RowStands, RowWithin};

use crate::row::Row;
use ls_base::{Mem, Memory};
use syntax_tree::look::{Look, look_at};
use syntax_tree::rules::{IdPair, Role, Roles, Rule};
use syntax_tree::symbols::IdNo;
use syntax_tree::trees::{Tree, Work};

/// Compares the literals of rules, in order, with what stands behind the first part of a form.
pub fn compare_rules(
    work: &Work,
    roles: &Roles,
    rules: &[Rule],
    form: Row,
    pairs: &mut Vec<IdPair>,
) -> Mem<()>
    requires rules { (rs : List (ModelRule Identifier)) × AreRules work.now rules.now rs }
    requires form { RowStands work.now form }
    requires head { 1 ≤ length form.items.now }
    ensures { (r : ModelRules Identifier) (rs : List (ModelRule Identifier)) (ts : Trees Identifier) (end : Tail Identifier) →
        TellsRoles work.now.symbols roles.now r → AreRules work.now rules.now rs → IsRow work.now form.entry ts end →
        OnOk result (AddsPairs work.now pairs.old pairs.new (compared (role_of identifiers r) (dots_of identifiers r) rs (behind 1 ts) end)) }
{
    for rule in rules {
        compare_rule(work, roles, *rule, form, pairs)?;
    }
    Ok(())
}

/// Compares the literals of a rule with what stands behind the first part of a form.
fn compare_rule(
    work: &Work,
    roles: &Roles,
    rule: Rule,
    form: Row,
    pairs: &mut Vec<IdPair>,
) -> Mem<()>
    requires rule { (m : ModelRule Identifier) × IsRule work.now rule m }
    requires form { RowStands work.now form }
    requires head { 1 ≤ length form.items.now }
    ensures { (r : ModelRules Identifier) (m : ModelRule Identifier) (ts : Trees Identifier) (end : Tail Identifier) →
        TellsRoles work.now.symbols roles.now r → IsRule work.now rule m → IsRow work.now form.entry ts end →
        OnOk result (AddsPairs work.now pairs.old pairs.new (pairs_where (role_of identifiers r) (dots_of identifiers r) m.parts m.tail (behind 1 ts) end)) }
{
    let depth = work.depth(rule.pattern);
    match look_at(work, rule.pattern) {
        Look::List(items, end) => Ok(compare_list(
            work,
            roles,
            Row { items, end },
            form,
            1,
            depth - 1,
            pairs,
        )?),
        Look::Name(_) => Ok(()),
        Look::Atom(_) => Ok(()),
        Look::Vector(_) => Ok(()),
    }
}

/// Compares the literals of a pattern that is at most `left` nodes deep.
#[cycle(compare)]
fn compare(
    work: &Work,
    roles: &Roles,
    pattern: Tree,
    form: Tree,
    left: u32,
    pairs: &mut Vec<IdPair>,
) -> Mem<()>
    requires pattern { StandsWithin work.now pattern left }
    requires form { IsStanding work.now form }
    ensures { (r : ModelRules Identifier) (p : ModelTree Identifier) (t : ModelTree Identifier) → TellsRoles work.now.symbols roles.now r →
        StandsFor work.now pattern p → StandsFor work.now form t →
        OnOk result (AddsPairs work.now pairs.old pairs.new (pairs_in (role_of identifiers r) (dots_of identifiers r) p t)) }
{
    match look_at(work, pattern) {
        Look::Name(literal) => Ok(compare_name(work, roles, literal, form, pairs)?),
        Look::Atom(_) => Ok(()),
        Look::List(parts, tail) => {
            match look_at(work, form) {
                Look::List(items, end) => {
                    let pattern = Row {
                        items: parts,
                        end: tail,
                    };
                    Ok(compare_list(work, roles, pattern, Row { items, end }, 0, left - 1, pairs)?)
                }
                Look::Name(_) => Ok(()),
                Look::Atom(_) => Ok(()),
                Look::Vector(_) => Ok(()),
            }
        }
        Look::Vector(parts) => {
            match look_at(work, form) {
                Look::Vector(items) => {
                    let pattern = Row {
                        items: parts,
                        end: None,
                    };
                    Ok(compare_list(
                        work,
                        roles,
                        pattern,
                        Row { items, end: None },
                        0,
                        left - 1,
                        pairs,
                    )?)
                }
                Look::Name(_) => Ok(()),
                Look::Atom(_) => Ok(()),
                Look::List(_, _) => Ok(()),
            }
        }
    }
}

/// Compares the literals of the parts of a pattern from a place on, and of its tail, with those of a list, where the pattern can
/// take its length and its tail.
#[cycle(compare)]
fn compare_list(
    work: &Work,
    roles: &Roles,
    pattern: Row,
    form: Row,
    from: usize,
    left: u32,
    pairs: &mut Vec<IdPair>,
) -> Mem<()>
    requires pattern { RowWithin work.now pattern left }
    requires form { RowStands work.now form }
    requires there { from ≤ length form.items.now }
    ensures { (r : ModelRules Identifier) (ps : Trees Identifier) (tail : Tail Identifier) (ts : Trees Identifier) (end : Tail Identifier) →
        TellsRoles work.now.symbols roles.now r → IsRow work.now pattern.entry ps tail → IsRow work.now form.entry ts end →
        OnOk result (AddsPairs work.now pairs.old pairs.new
        (pairs_where (role_of identifiers r) (dots_of identifiers r) (behind from ps) tail (behind from ts) end)) }
{
    if !can_take(work, roles, pattern, form, from) {
        return Ok(());
    }
    let mut k = from;
    let mut j = from;
    while k < pattern.items.len() {
        let rest = form.items.len() - j;
        if roles.dots_at(work, pattern.items, k + 1) {
            let taken = rest.saturating_sub(pattern.items.len().saturating_sub(k + 2));
            compare_each(
                work,
                roles,
                pattern.items[k],
                &form.items[j..j + taken],
                left,
                pairs,
            )?;
            j += taken;
            k += 2;
        } else {
            if rest == 0 {
                return Ok(());
            }
            compare(work, roles, pattern.items[k], form.items[j], left, pairs)?;
            j += 1;
            k += 1;
        }
    }
    Ok(compare_rest(work, roles, pattern.end, form, j, left, pairs)?)
}

/// Compares the literals of one pattern with each of some trees.
#[cycle(compare)]
fn compare_each(
    work: &Work,
    roles: &Roles,
    pattern: Tree,
    forms: &[Tree],
    left: u32,
    pairs: &mut Vec<IdPair>,
) -> Mem<()>
    requires pattern { StandsWithin work.now pattern left }
    requires forms { AreStanding work.now forms.now }
    ensures { (r : ModelRules Identifier) (p : ModelTree Identifier) (ts : Trees Identifier) → TellsRoles work.now.symbols roles.now r →
        StandsFor work.now pattern p → PartsStand work.now forms.now ts →
        OnOk result (AddsPairs work.now pairs.old pairs.new (pairs_each (pairs_in (role_of identifiers r) (dots_of identifiers r) p) ts)) }
{
    for form in forms {
        compare(work, roles, pattern, *form, left, pairs)?;
    }
    Ok(())
}

/// Compares the literals of a pattern's tail with what its parts leave of a list. A list that no node holds is compared with none,
/// since a tail is no list.
#[cycle(compare)]
fn compare_rest(
    work: &Work,
    roles: &Roles,
    tail: Option<Tree>,
    form: Row,
    from: usize,
    left: u32,
    pairs: &mut Vec<IdPair>,
) -> Mem<()>
    requires tail { EndWithin work.now tail left }
    requires form { RowStands work.now form }
    requires there { from ≤ length form.items.now }
    ensures { (r : ModelRules Identifier) (q : Tail Identifier) (ts : Trees Identifier) (end : Tail Identifier) →
        TellsRoles work.now.symbols roles.now r → EndStands work.now tail q → IsRow work.now form.entry ts end →
        OnOk result (AddsPairs work.now pairs.old pairs.new (pairs_behind (role_of identifiers r) (dots_of identifiers r) q (behind from ts) end)) }
{
    match tail {
        None => Ok(()),
        Some(pattern) => match form.end {
            None => Ok(()),
            Some(end) => {
                if from < form.items.len() {
                    return Ok(());
                }
                Ok(compare(work, roles, pattern, end, left, pairs)?)
            }
        },
    }
}

/// Compares an identifier of a pattern, which may be a literal, with a tree.
fn compare_name(
    work: &Work,
    roles: &Roles,
    id: IdNo,
    form: Tree,
    pairs: &mut Vec<IdPair>,
) -> Mem<()>
    requires id { (i : Identifier) × IsIdent work.now.symbols id i }
    requires form { IsStanding work.now form }
    ensures { (r : ModelRules Identifier) (i : Identifier) (t : ModelTree Identifier) → TellsRoles work.now.symbols roles.now r →
        IsIdent work.now.symbols id i → StandsFor work.now form t →
        OnOk result (AddsPairs work.now pairs.old pairs.new (pair_of (role_of identifiers r i) i t)) }
{
    match roles.role(&work.symbols, id) {
        Role::Literal => match look_at(work, form) {
            Look::Name(ident) => Ok(pairs.push(IdPair { literal: id, ident })?),
            Look::Atom(_) => Ok(()),
            Look::List(_, _) => Ok(()),
            Look::Vector(_) => Ok(()),
        },
        Role::Ellipsis => Ok(()),
        Role::Any => Ok(()),
        Role::Variable => Ok(()),
    }
}

/// Whether the parts and the tail of a pattern can take those of a list, both from a place on.
fn can_take(work: &Work, roles: &Roles, pattern: Row, form: Row, from: usize) -> bool
    requires pattern { RowStands work.now pattern }
    requires form { RowStands work.now form }
    ensures { (r : ModelRules Identifier) (ps : Trees Identifier) (tail : Tail Identifier) (ts : Trees Identifier) (end : Tail Identifier) →
        TellsRoles work.now.symbols roles.now r → IsRow work.now pattern.entry ps tail → IsRow work.now form.entry ts end →
        result ≡ can_take (dots_of identifiers r) (behind from ps) tail (behind from ts) end }
{
    let parts = pattern.items.len().saturating_sub(from);
    let there = form.items.len().saturating_sub(from);
    let dots = roles.count_dots(work, pattern.items, from);
    let least = parts.saturating_sub(dots).saturating_sub(dots);
    match pattern.end {
        Some(_) => least <= there,
        None => match form.end {
            Some(_) => false,
            None => {
                if dots > 0 {
                    least <= there
                } else {
                    least == there
                }
            }
        },
    }
}
