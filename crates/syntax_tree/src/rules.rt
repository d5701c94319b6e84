//! The rules of a macro (R7RS 4.3.2) and what a use of it matched, by the numbers of trees and identifiers.
ghost use Rattle.std.specs.Prelude.{◌≡◌, ◌<◌, ◌≤◌, IfOk, Option, Some, length, slice_get};
ghost use Rattle.scheme_model.specs.RulesShape.{Rules as ModelRules, role_of, dots_of, is_dots, is_ellipsis, starts_dots, ends_dots, dots_count};
ghost use Rattle.scheme_model.specs.Matching.{behind};
ghost use Rattle.scheme_model.specs.Trees.{Tree as ModelTree, Trees, Tail};
ghost use Rattle.syntax_tree.specs.Looks.{PartsStand, EndStands, AreStanding, EndIsStanding};
ghost use Rattle.scheme_model.specs.Ident.{Ident as Identifier, symbol_of};
ghost use Rattle.syntax_tree.specs.Macros.{identifiers, role_as, TellsRoles, AreRolesOf, IsEllipsisOf};
ghost use Rattle.syntax_tree.specs.Works.{StandsFor, IsStanding};

use crate::look::{Look, look_at};
use crate::symbols::{IdNo, Symbols};
use crate::texts::same_text;
use crate::trees::{Tree, Work};
use ls_base::{Items, Mem, Memory};
use scheme_model::Occ;
use std::alloc::Global;
use std::collections::BTreeSet;

/// An identifier with its place, where it has one.
#[derive(Clone, Copy, Debug, PartialEq, Eq)]
pub struct Named {
    pub ident: IdNo,
    pub occ: Option<Occ>,
}

/// A pattern, whose first part takes no part in matching, and a template.
#[derive(Clone, Copy, Debug, PartialEq, Eq)]
pub struct Rule {
    pub pattern: Tree,
    pub template: Tree,
}

/// The rules of a macro, in order, with an ellipsis of their own, where they have one, and with their literals.
#[derive(Drop)]
pub struct Rules {
    pub ellipsis: Option<IdNo>,
    pub literals: Items<IdNo>,
    pub rules: Items<Rule>,
}

/// A literal of rules, and the identifier at its place in a form.
#[derive(Clone, Copy, Debug, PartialEq, Eq, PartialOrd, Ord, Hash)]
pub struct IdPair {
    pub literal: IdNo,
    pub ident: IdNo,
}

/// What a pattern variable stands for: a tree; the parts of a list from a place on, with its tail, where no node holds them;
/// or for each place of an ellipsis what it stands for there.
#[derive(Drop)]
pub enum Binding {
    One {
        variable: IdNo,
        tree: Tree,
    },
    Rest {
        variable: IdNo,
        list: Tree,
        from: u32,
    },
    Many {
        variable: IdNo,
        list: Vec<Binding>,
    },
}

/// The number of the rule that matched, what its variables stand for, and the leaves of the form that met a literal.
#[derive(Drop)]
pub struct Matched {
    pub rule: u32,
    pub bindings: Items<Binding>,
    pub literals: Items<Tree>,
}

/// What an identifier is in a pattern.
#[derive(Clone, Copy, Debug, PartialEq, Eq)]
pub enum Role {
    Literal,
    Ellipsis,
    Any,
    Variable,
}

/// What tells the roles of identifiers: an ellipsis of the rules' own, where they have one, and their literals.
#[derive(Drop)]
pub struct Roles {
    ellipsis: Option<IdNo>,
    literals: BTreeSet<IdNo>,
}

impl Roles {
    /// What tells the roles of the identifiers of some rules.
    pub fn of(alloc: Global, ellipsis: Option<IdNo>, literals: &[IdNo]) -> Mem<Roles>
        ensures { IfOk result (λ roles. AreRolesOf roles ellipsis literals.now) }
    {
        let mut set = BTreeSet::new(alloc);
        for literal in literals {
            set.insert(*literal)?;
        }
        Ok(Roles {
            ellipsis,
            literals: set,
        })
    }

    /// What an identifier is: a literal goes before an ellipsis and `_`. It takes no memory.
    pub fn role(&self, symbols: &Symbols, id: IdNo) -> Role
        requires { id < length symbols.now.idents }
        ensures { (r : ModelRules Identifier) (i : Identifier) → TellsRoles symbols.now self.now r →
            slice_get symbols.now.idents id ≡ Some i → role_as result ≡ role_of identifiers r i }
    {
        symbols.told_apart();
        if self.literals.contains(&id) {
            return Role::Literal;
        }
        let name = symbols.name(symbols.strip(id));
        if self.is_ellipsis(symbols, id, name) {
            return Role::Ellipsis;
        }
        if same_text(name, "_") {
            return Role::Any;
        }
        Role::Variable
    }

    /// Whether a tree is an identifier that acts as an ellipsis. It takes no memory.
    #[inline(always)]
    pub fn is_dots(&self, work: &Work, tree: Tree) -> bool
        requires { IsStanding work.now tree }
        ensures { (r : ModelRules Identifier) (t : ModelTree Identifier) → TellsRoles work.now.symbols self.now r →
            StandsFor work.now tree t → result ≡ is_dots (dots_of identifiers r) t }
    {
        match look_at(work, tree) {
            Look::Name(id) => self.acts_as_ellipsis(&work.symbols, id),
            Look::Atom(_) | Look::List(_, _) | Look::Vector(_) => false,
        }
    }

    /// Whether an identifier acts as an ellipsis. Its symbol is looked at before literals are, since most have another. It takes
    /// no memory.
    #[inline(always)]
    fn acts_as_ellipsis(&self, symbols: &Symbols, id: IdNo) -> bool
        requires { id < length symbols.now.idents }
        ensures { (r : ModelRules Identifier) (i : Identifier) → TellsRoles symbols.now self.now r →
            slice_get symbols.now.idents id ≡ Some i → result ≡ dots_of identifiers r i }
    {
        let name = symbols.name(symbols.strip(id));
        if self.is_ellipsis(symbols, id, name) {
            return self.role(symbols, id) == Role::Ellipsis;
        }
        false
    }

    /// Whether an ellipsis stands at a place. It takes no memory.
    #[inline(always)]
    pub fn dots_at(&self, work: &Work, items: &[Tree], k: usize) -> bool
        requires { AreStanding work.now items.now }
        ensures { (r : ModelRules Identifier) (ts : Trees Identifier) → TellsRoles work.now.symbols self.now r →
            PartsStand work.now items.now ts → result ≡ starts_dots (dots_of identifiers r) (behind k ts) }
    {
        k < items.len() && self.is_dots(work, items[k])
    }

    /// Whether a tail is an ellipsis. It takes no memory.
    pub fn is_dots_end(&self, work: &Work, end: Option<Tree>) -> bool
        requires { EndIsStanding work.now end }
        ensures { (r : ModelRules Identifier) (tail : Tail Identifier) → TellsRoles work.now.symbols self.now r →
            EndStands work.now end tail → result ≡ ends_dots (dots_of identifiers r) tail }
    {
        match end {
            None => false,
            Some(tail) => self.is_dots(work, tail),
        }
    }

    /// How many ellipses stand from a place on. It takes no memory.
    pub fn count_dots(&self, work: &Work, items: &[Tree], from: usize) -> usize
        requires { AreStanding work.now items.now }
        ensures bound { result ≤ length items.now }
        ensures value { (r : ModelRules Identifier) (ts : Trees Identifier) → TellsRoles work.now.symbols self.now r →
            PartsStand work.now items.now ts → result ≡ dots_count (dots_of identifiers r) (behind from ts) }
    {
        let mut count = 0;
        for k in from..items.len() {
            if self.is_dots(work, items[k]) {
                count += 1;
            }
        }
        count
    }

    /// Whether an identifier, in which this symbol is innermost, is the ellipsis of these rules, literals aside.
    #[inline(always)]
    fn is_ellipsis(&self, symbols: &Symbols, id: IdNo, name: &str) -> bool
        ensures { (e : Option Identifier) (i : Identifier) → IsEllipsisOf symbols.now self.now.ellipsis e →
            slice_get symbols.now.idents id ≡ Some i → name.now ≡ symbol_of i → result ≡ is_ellipsis identifiers e i }
    {
        symbols.told_apart();
        match self.ellipsis {
            Some(own) => id == own,
            None => same_text(name, "..."),
        }
    }
}
