//! One pattern against one tree (R7RS 4.3.2).
ghost use Rattle.std.specs.Prelude.{◌≡◌, ◌≤◌, Bool, false, length, Option, Some, IfOk, IfSome, OnOk};
ghost use Rattle.scheme_model.specs.declared.Occ.{Occ};
ghost use Rattle.scheme_model.specs.Trees.{Tree as ModelTree, Trees, Tail, Atom, atom};
ghost use Rattle.scheme_model.specs.Matching.{matcher, match_tree, match_rest, match_parts, match_each, match_name, match_literal, behind, names_in, names_among};
ghost use Rattle.scheme_model.specs.RulesShape.{Rules as ModelRules, Rule as ModelRule, role_of};
ghost use Rattle.scheme_model.specs.Ident.{Ident as Identifier};
ghost use Rattle.syntax_tree.specs.Looks.{StandsWithin, PartsWithin, EndWithin, PartsStand, EndStands, AreStanding, AllNamed};
ghost use Rattle.syntax_tree.specs.Macros.{identifiers, IsIdent, IsRule, IsRest};
ghost use Rattle.syntax_tree.specs.Standing.{is_list, leaf_tree};
ghost use Rattle.syntax_tree.specs.Works.{StandsFor, IsStanding, CanName};
ghost use Rattle.syntax_tree.specs.declared.trees.table.Region.{Region as AnyRegion};
ghost use Rattle.rules_match.specs.Found.{Knows, IsKnowing, Finds, FindsParts, AddsColumns, FoundNamed, is_atom};
ghost use Rattle.rules_match.specs.Rows.{IsListRow, ListStands, RowNamed};

use crate::columns::{Column, collect, spread};
use crate::row::Row;
use ls_base::{Mem, Memory};
use std::alloc::Global;
use std::collections::BTreeSet;
use syntax_tree::look::{Look, look_at};
use syntax_tree::rules::{Binding, Role, Roles, Rule};
use syntax_tree::symbols::IdNo;
use syntax_tree::trees::{Leaf, Tree, Work};

/// What matching takes: the trees, the roles of the identifiers of patterns, and the literals and identifiers that mean the same.
#[derive(Clone, Copy)]
pub struct Matcher<'a> {
    pub alloc: Global,
    pub work: &'a Work,
    pub roles: &'a Roles,
    pub same: &'a BTreeSet<(IdNo, IdNo)>,
}

/// What was matched so far: the bindings, and the leaves of the form that met a literal.
#[derive(Drop)]
pub struct Found {
    pub bindings: Vec<Binding>,
    pub leaves: Vec<Tree>,
}

impl Matcher<'_> {
    /// Whether what stands behind the first part of a form matches a rule. Where it does, what was matched is added.
    pub fn rule(&self, rule: Rule, form: Tree, row: Row, found: &mut Found) -> Mem<bool>
        requires knows { IsKnowing self.now }
        requires rule { (m : ModelRule Identifier) × IsRule self.now.work.now rule m }
        requires form { ListStands self.now.work.now form row }
        requires head { 1 ≤ length row.items.now }
        ensures finds { (r : ModelRules Identifier) (same : Identifier → Identifier → Bool) (m : ModelRule Identifier) (ts : Trees Identifier) (end : Tail Identifier) →
            Knows self.now r same → IsRule self.now.work.now rule m → IsListRow self.now.work.now form row.entry ts end →
            IfOk result (λ b. Finds self.now.work.now found.old found.new
            (match_parts (matcher identifiers r same) m.parts (match_rest (matcher identifiers r same) m.tail) (behind 1 ts) end) b) }
        ensures named { (region : AnyRegion) → CanName self.now.work.now region form → RowNamed self.now.work.now region row.entry → FoundNamed self.now.work.now region found.old → OnOk result (FoundNamed self.now.work.now region found.new) }
    {
        let depth = self.work.depth(rule.pattern);
        match look_at(self.work, rule.pattern) {
            Look::List(parts, tail) => match self.parts(parts, row.items, 1, depth - 1, found)? {
                Some(at) => Ok(self.rest(tail, form, row, at, depth - 1, found)?),
                None => Ok(false),
            },
            Look::Name(_) => Ok(false),
            Look::Atom(_) => Ok(false),
            Look::Vector(_) => Ok(false),
        }
    }

    /// Whether a tree matches a pattern that is at most `left` nodes deep. Where it does, what was matched is added.
    #[cycle(matching)]
    fn tree(&self, pattern: Tree, form: Tree, left: u32, found: &mut Found) -> Mem<bool>
        requires knows { IsKnowing self.now }
        requires pattern { StandsWithin self.now.work.now pattern left }
        requires form { IsStanding self.now.work.now form }
        ensures finds { (r : ModelRules Identifier) (same : Identifier → Identifier → Bool) (p : ModelTree Identifier) (t : ModelTree Identifier) →
            Knows self.now r same → StandsFor self.now.work.now pattern p → StandsFor self.now.work.now form t →
            IfOk result (λ b. Finds self.now.work.now found.old found.new (match_tree (matcher identifiers r same) p t) b) }
        ensures named { (region : AnyRegion) → CanName self.now.work.now region form → FoundNamed self.now.work.now region found.old → OnOk result (FoundNamed self.now.work.now region found.new) }
    {
        match look_at(self.work, pattern) {
            Look::Name(id) => Ok(self.name(id, form, found)?),
            Look::Atom(leaf) => Ok(self.atom(leaf, form)),
            Look::List(parts, tail) => match look_at(self.work, form) {
                Look::List(items, end) => match self.parts(parts, items, 0, left - 1, found)? {
                    Some(at) => Ok(self.rest(tail, form, Row { items, end }, at, left - 1, found)?),
                    None => Ok(false),
                },
                Look::Name(_) => Ok(false),
                Look::Atom(_) => Ok(false),
                Look::Vector(_) => Ok(false),
            },
            Look::Vector(parts) => match look_at(self.work, form) {
                Look::Vector(items) => match self.parts(parts, items, 0, left - 1, found)? {
                    Some(at) => Ok(at == items.len()),
                    None => Ok(false),
                },
                Look::Name(_) => Ok(false),
                Look::Atom(_) => Ok(false),
                Look::List(_, _) => Ok(false),
            },
        }
    }

    /// Up to which place of a form its parts match those of a pattern, both from a place on. An ellipsis takes all parts but as
    /// many as follow it in the pattern.
    #[cycle(matching)]
    fn parts(
        &self,
        pattern: &[Tree],
        form: &[Tree],
        from: usize,
        left: u32,
        found: &mut Found,
    ) -> Mem<Option<usize>>
        requires knows { IsKnowing self.now }
        requires pattern { PartsWithin self.now.work.now pattern.now left }
        requires form { AreStanding self.now.work.now form.now }
        requires there { from ≤ length form.now }
        ensures within { IfOk result (λ o. IfSome o (λ at. at ≤ length form.now)) }
        ensures finds { (r : ModelRules Identifier) (same : Identifier → Identifier → Bool) (ps : Trees Identifier) (ts : Trees Identifier) →
            Knows self.now r same → PartsStand self.now.work.now pattern.now ps → PartsStand self.now.work.now form.now ts →
            IfOk result (FindsParts self.now.work.now (matcher identifiers r same) ps ts from found.old found.new) }
        ensures named { (region : AnyRegion) → AllNamed self.now.work.now region form.now → FoundNamed self.now.work.now region found.old → OnOk result (FoundNamed self.now.work.now region found.new) }
    {
        let mut k = from;
        let mut j = from;
        while k < pattern.len() {
            let rest = form.len() - j;
            if self.roles.dots_at(self.work, pattern, k + 1) {
                let after = pattern.len().saturating_sub(k + 2);
                if rest < after {
                    return Ok(None);
                }
                let end = j + (rest - after);
                if !self.each(pattern[k], &form[j..end], left, found)? {
                    return Ok(None);
                }
                j = end;
                k += 2;
            } else {
                if rest == 0 {
                    return Ok(None);
                }
                if !self.tree(pattern[k], form[j], left, found)? {
                    return Ok(None);
                }
                j += 1;
                k += 1;
            }
        }
        Ok(Some(j))
    }

    /// Whether what the parts of a pattern leave of a list matches the pattern's tail, or is nothing where it has none.
    #[cycle(matching)]
    fn rest(
        &self,
        tail: Option<Tree>,
        form: Tree,
        row: Row,
        from: usize,
        left: u32,
        found: &mut Found,
    ) -> Mem<bool>
        requires knows { IsKnowing self.now }
        requires tail { EndWithin self.now.work.now tail left }
        requires form { ListStands self.now.work.now form row }
        requires there { from ≤ length row.items.now }
        ensures finds { (r : ModelRules Identifier) (same : Identifier → Identifier → Bool) (q : Tail Identifier) (ts : Trees Identifier) (end : Tail Identifier) →
            Knows self.now r same → EndStands self.now.work.now tail q → IsListRow self.now.work.now form row.entry ts end →
            IfOk result (λ b. Finds self.now.work.now found.old found.new (match_rest (matcher identifiers r same) q (behind from ts) end) b) }
        ensures named { (region : AnyRegion) → CanName self.now.work.now region form → RowNamed self.now.work.now region row.entry → FoundNamed self.now.work.now region found.old → OnOk result (FoundNamed self.now.work.now region found.new) }
    {
        match tail {
            None => match row.end {
                None => Ok(from == row.items.len()),
                Some(_) => Ok(false),
            },
            Some(pattern) => match row.end {
                None => Ok(self.list(pattern, form, from, found)?),
                Some(end) => {
                    if from < row.items.len() {
                        return Ok(self.list(pattern, form, from, found)?);
                    }
                    Ok(self.tree(pattern, end, left, found)?)
                }
            },
        }
    }

    /// Whether a list that no node holds, the parts of a list from a place on, matches a pattern's tail, which is no list.
    fn list(&self, pattern: Tree, list: Tree, from: usize, found: &mut Found) -> Mem<bool>
        requires knows { IsKnowing self.now }
        requires pattern { IsStanding self.now.work.now pattern }
        requires list { (t : ModelTree Identifier) × IsRest self.now.work.now list from t }
        ensures finds { (r : ModelRules Identifier) (same : Identifier → Identifier → Bool) (p : ModelTree Identifier) (t : ModelTree Identifier) →
            Knows self.now r same → StandsFor self.now.work.now pattern p → is_list p ≡ false → IsRest self.now.work.now list from t →
            IfOk result (λ b. Finds self.now.work.now found.old found.new (match_tree (matcher identifiers r same) p t) b) }
        ensures named { (region : AnyRegion) → CanName self.now.work.now region list → FoundNamed self.now.work.now region found.old → OnOk result (FoundNamed self.now.work.now region found.new) }
    {
        let _size = self.work.size(list);
        match look_at(self.work, pattern) {
            Look::Name(variable) => match self.roles.role(&self.work.symbols, variable) {
                Role::Any => Ok(true),
                Role::Variable => {
                    let from = from as u32;
                    found.bindings.push(Binding::Rest {
                        variable,
                        list,
                        from,
                    })?;
                    Ok(true)
                }
                Role::Ellipsis => Ok(false),
                Role::Literal => Ok(false),
            },
            Look::Atom(_) => Ok(false),
            Look::List(_, _) => Ok(false),
            Look::Vector(_) => Ok(false),
        }
    }

    /// Whether some trees match a pattern each. Where they do, each of its variables stands for what it stands for at each place.
    #[cycle(matching)]
    fn each(&self, pattern: Tree, forms: &[Tree], left: u32, found: &mut Found) -> Mem<bool>
        requires knows { IsKnowing self.now }
        requires pattern { StandsWithin self.now.work.now pattern left }
        requires forms { AreStanding self.now.work.now forms.now }
        ensures finds { (r : ModelRules Identifier) (same : Identifier → Identifier → Bool) (p : ModelTree Identifier) (ts : Trees Identifier) →
            Knows self.now r same → StandsFor self.now.work.now pattern p → PartsStand self.now.work.now forms.now ts →
            IfOk result (λ b. Finds self.now.work.now found.old found.new
            (match_each (match_tree (matcher identifiers r same) p) (names_in (role_of identifiers r) p) ts) b) }
        ensures named { (region : AnyRegion) → AllNamed self.now.work.now region forms.now → FoundNamed self.now.work.now region found.old → OnOk result (FoundNamed self.now.work.now region found.new) }
    {
        self.work.symbols.told_apart();
        let mut columns = Vec::new(self.alloc);
        self.columns(pattern, left, &mut columns)?;
        for form in forms {
            let mut place = Found {
                bindings: Vec::new(self.alloc),
                leaves: Vec::new(self.alloc),
            };
            if !self.tree(pattern, *form, left, &mut place)? {
                return Ok(false);
            }
            let Found { bindings, leaves } = place;
            found.leaves.extend_from_slice(leaves.as_slice())?;
            spread(bindings, &mut columns)?;
        }
        collect(columns, &mut found.bindings)?;
        Ok(true)
    }

    /// Adds a column for each variable of a pattern, from left to right.
    #[cycle(columns)]
    fn columns(&self, pattern: Tree, left: u32, columns: &mut Vec<Column>) -> Mem<()>
        requires knows { IsKnowing self.now }
        requires pattern { StandsWithin self.now.work.now pattern left }
        ensures { (r : ModelRules Identifier) (same : Identifier → Identifier → Bool) (p : ModelTree Identifier) → Knows self.now r same →
            StandsFor self.now.work.now pattern p →
            OnOk result (AddsColumns self.now.work.now columns.old columns.new (names_in (role_of identifiers r) p)) }
    {
        match look_at(self.work, pattern) {
            Look::Name(variable) => match self.roles.role(&self.work.symbols, variable) {
                Role::Variable => {
                    let values = Vec::new(self.alloc);
                    Ok(columns.push(Column { variable, values })?)
                }
                Role::Literal => Ok(()),
                Role::Ellipsis => Ok(()),
                Role::Any => Ok(()),
            },
            Look::Atom(_) => Ok(()),
            Look::List(parts, tail) => {
                self.columns_among(parts, left - 1, columns)?;
                match tail {
                    None => Ok(()),
                    Some(tail) => Ok(self.columns(tail, left - 1, columns)?),
                }
            }
            Look::Vector(parts) => Ok(self.columns_among(parts, left - 1, columns)?),
        }
    }

    /// Adds a column for each variable of the parts of a pattern.
    #[cycle(columns)]
    fn columns_among(&self, parts: &[Tree], left: u32, columns: &mut Vec<Column>) -> Mem<()>
        requires knows { IsKnowing self.now }
        requires parts { PartsWithin self.now.work.now parts.now left }
        ensures { (r : ModelRules Identifier) (same : Identifier → Identifier → Bool) (ps : Trees Identifier) → Knows self.now r same →
            PartsStand self.now.work.now parts.now ps →
            OnOk result (AddsColumns self.now.work.now columns.old columns.new (names_among (role_of identifiers r) ps)) }
    {
        for part in parts {
            self.columns(*part, left, columns)?;
        }
        Ok(())
    }

    /// Whether a tree matches an identifier of a pattern.
    #[inline(always)]
    fn name(&self, id: IdNo, form: Tree, found: &mut Found) -> Mem<bool>
        requires id { (i : Identifier) × IsIdent self.now.work.now.symbols id i }
        requires form { IsStanding self.now.work.now form }
        ensures finds { (r : ModelRules Identifier) (same : Identifier → Identifier → Bool) (i : Identifier) (t : ModelTree Identifier) → Knows self.now r same →
            IsIdent self.now.work.now.symbols id i → StandsFor self.now.work.now form t →
            IfOk result (λ b. Finds self.now.work.now found.old found.new (match_name same (role_of identifiers r i) i t) b) }
        ensures named { (region : AnyRegion) → CanName self.now.work.now region form → FoundNamed self.now.work.now region found.old → OnOk result (FoundNamed self.now.work.now region found.new) }
    {
        match self.roles.role(&self.work.symbols, id) {
            Role::Any => Ok(true),
            Role::Ellipsis => Ok(false),
            Role::Variable => {
                found.bindings.push(Binding::One {
                    variable: id,
                    tree: form,
                })?;
                Ok(true)
            }
            Role::Literal => Ok(self.literal(id, form, found)?),
        }
    }

    /// Whether a tree is an identifier that means the same as a literal.
    #[inline(always)]
    fn literal(&self, literal: IdNo, form: Tree, found: &mut Found) -> Mem<bool>
        requires id { (i : Identifier) × IsIdent self.now.work.now.symbols literal i }
        requires form { IsStanding self.now.work.now form }
        ensures finds { (r : ModelRules Identifier) (same : Identifier → Identifier → Bool) (i : Identifier) (t : ModelTree Identifier) → Knows self.now r same →
            IsIdent self.now.work.now.symbols literal i → StandsFor self.now.work.now form t →
            IfOk result (λ b. Finds self.now.work.now found.old found.new (match_literal same i t) b) }
        ensures kept { OnOk result (found.new.bindings ≡ found.old.bindings) }
    {
        match look_at(self.work, form) {
            Look::Name(ident) => {
                if !self.same.contains(&(literal, ident)) {
                    return Ok(false);
                }
                found.leaves.push(form)?;
                Ok(true)
            }
            Look::Atom(_) => Ok(false),
            Look::List(_, _) => Ok(false),
            Look::Vector(_) => Ok(false),
        }
    }

    /// Whether a tree is this atom (R7RS 6.1, `equal?`).
    #[inline(always)]
    fn atom(&self, leaf: Leaf, form: Tree) -> bool
        requires form { IsStanding self.now.work.now form }
        ensures { (a : Atom) (o : Option Occ) (t : ModelTree Identifier) → leaf_tree self.now.work.now.symbols leaf o ≡ Some (atom a o) →
            StandsFor self.now.work.now form t → result ≡ is_atom a t }
    {
        self.work.symbols.told_apart();
        match look_at(self.work, form) {
            Look::Atom(other) => leaf == other,
            Look::Name(_) => false,
            Look::List(_, _) => false,
            Look::Vector(_) => false,
        }
    }
}
