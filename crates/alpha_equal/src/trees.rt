//! Patterns and templates as lists of nodes, from the outside in and left to right (R7RS 4.3.2).
ghost use Rattle.std.specs.Prelude.{◌≡◌, ◌++◌, ◌∷◌, [], true, false, Option, OnOk};
ghost use Rattle.scheme_model.specs.declared.Occ.{Occ as AnyOcc};
ghost use Rattle.scheme_model.specs.Trees.{Tree as ModelTree, list as list_tree, Trees, tree as before, Tail};
ghost use Rattle.scheme_model.specs.Building.{is_escape};
ghost use Rattle.scheme_model.specs.RulesShape.{Rules as ModelRules, nowhere};
ghost use Rattle.scheme_model.specs.Matching.{behind};
ghost use Rattle.scheme_model.specs.Ident.{Ident as Identifier};
ghost use Rattle.rename_model.specs.Walks.{nodes_in, nodes_among, nodes_behind, list_nodes};
ghost use Rattle.syntax_tree.specs.Looks.{PartsStand, EndStands, StandsWithin, PartsWithin, EndWithin, AreStanding, EndIsStanding};
ghost use Rattle.syntax_tree.specs.Macros.{IsIdent, TellsRoles};
ghost use Rattle.syntax_tree.specs.Works.{StandsFor, IsStanding};
ghost use Rattle.program_leaves.specs.Adds.{Adds};
ghost use Rattle.alpha_equal.specs.Nodes.{dots_where, IsNode, a_list};

use ls_base::Mem;
use scheme_model::Occ;
use syntax_tree::look::{Look, look_at, place_of};
use syntax_tree::rules::{Role, Roles};
use syntax_tree::symbols::IdNo;
use syntax_tree::trees::{Leaf, Tree, Work};

/// A node of a tree: a name, which may act as an ellipsis, another atom, a list by the number of its parts and whether it has a
/// tail, a vector, or an escape.
#[derive(Clone, Copy)]
pub enum TreeNode {
    Name {
        ident: IdNo,
        dots: bool,
        occ: Option<Occ>,
    },
    Atom {
        leaf: Leaf,
        occ: Option<Occ>,
    },
    List {
        parts: usize,
        dotted: bool,
    },
    Vector {
        parts: usize,
    },
    Escape,
}

/// Whether an identifier acts as an ellipsis. In an escape, none does.
fn acts_as_dots(work: &Work, roles: &Roles, ident: IdNo, escaped: bool) -> bool
    requires { (i : Identifier) × IsIdent work.now.symbols ident i }
    ensures { (r : ModelRules Identifier) (i : Identifier) → TellsRoles work.now.symbols roles.now r →
        IsIdent work.now.symbols ident i → result ≡ dots_where escaped r i }
{
    if escaped {
        return false;
    }
    match roles.role(&work.symbols, ident) {
        Role::Ellipsis => true,
        Role::Literal => false,
        Role::Any => false,
        Role::Variable => false,
    }
}

/// Whether a list is `(... template)`.
fn is_dots_first(work: &Work, roles: &Roles, items: &[Tree], end: Option<Tree>) -> bool
    requires parts { AreStanding work.now items.now }
    requires tail { EndIsStanding work.now end }
    ensures { (r : ModelRules Identifier) (ts : Trees Identifier) (tail : Tail Identifier) → TellsRoles work.now.symbols roles.now r →
        PartsStand work.now items.now ts → EndStands work.now end tail → result ≡ is_escape (dots_where false r) ts tail }
{
    items.len() == 2 && end.is_none() && roles.is_dots(work, items[0])
}

/// Whether a list is an escape. In an escape, none is.
fn escapes(work: &Work, roles: &Roles, items: &[Tree], end: Option<Tree>, escaped: bool) -> bool
    requires parts { AreStanding work.now items.now }
    requires tail { EndIsStanding work.now end }
    ensures { (r : ModelRules Identifier) (ts : Trees Identifier) (tail : Tail Identifier) → TellsRoles work.now.symbols roles.now r →
        PartsStand work.now items.now ts → EndStands work.now end tail → result ≡ is_escape (dots_where escaped r) ts tail }
{
    if escaped {
        return false;
    }
    is_dots_first(work, roles, items, end)
}

/// Adds a list by the number of its parts and whether it has a tail.
fn add_list(parts: usize, end: Option<Tree>, nodes: &mut Vec<TreeNode>) -> Mem<()>
    ensures { OnOk result (nodes.new.items ≡ nodes.old.items ++ a_list parts end ∷ []) }
{
    let dotted = end.is_some();
    Ok(nodes.push(TreeNode::List { parts, dotted })?)
}

/// Adds the nodes of a template that is at most `left` nodes deep. In an escape, ellipses are names.
#[cycle(templates)]
fn add_template(
    work: &Work,
    roles: &Roles,
    tree: Tree,
    escaped: bool,
    left: u32,
    nodes: &mut Vec<TreeNode>,
) -> Mem<()>
    requires { StandsWithin work.now tree left }
    ensures { (r : ModelRules Identifier) (t : ModelTree Identifier) → TellsRoles work.now.symbols roles.now r → StandsFor work.now tree t →
        OnOk result (Adds (IsNode work.now.symbols) nodes.old.items nodes.new.items (nodes_in (dots_where escaped r) t)) }
{
    match look_at(work, tree) {
        Look::Name(ident) => {
            let occ = place_of(work, tree);
            let dots = acts_as_dots(work, roles, ident, escaped);
            Ok(nodes.push(TreeNode::Name { ident, dots, occ })?)
        }
        Look::Atom(leaf) => {
            let occ = place_of(work, tree);
            Ok(nodes.push(TreeNode::Atom { leaf, occ })?)
        }
        Look::Vector(items) => {
            nodes.push(TreeNode::Vector { parts: items.len() })?;
            Ok(add_row(work, roles, items, 0, None, escaped, left - 1, nodes)?)
        }
        Look::List(items, end) => {
            if escapes(work, roles, items, end, escaped) {
                nodes.push(TreeNode::Escape)?;
                Ok(add_row(work, roles, items, 1, end, true, left - 1, nodes)?)
            } else {
                add_list(items.len(), end, nodes)?;
                Ok(add_row(work, roles, items, 0, end, escaped, left - 1, nodes)?)
            }
        }
    }
}

/// Adds the nodes of the parts of a list or a vector from a place on, and of its tail, where it has one.
#[cycle(templates)]
fn add_row(
    work: &Work,
    roles: &Roles,
    items: &[Tree],
    from: usize,
    end: Option<Tree>,
    escaped: bool,
    left: u32,
    nodes: &mut Vec<TreeNode>,
) -> Mem<()>
    requires parts { PartsWithin work.now items.now left }
    requires tail { EndWithin work.now end left }
    ensures { (r : ModelRules Identifier) (ts : Trees Identifier) (tail : Tail Identifier) → TellsRoles work.now.symbols roles.now r →
        PartsStand work.now items.now ts → EndStands work.now end tail →
        OnOk result (Adds (IsNode work.now.symbols) nodes.old.items nodes.new.items (nodes_among (dots_where escaped r) (behind from ts) ++ nodes_behind (dots_where escaped r) tail)) }
{
    for k in from..items.len() {
        add_template(work, roles, items[k], escaped, left, nodes)?;
    }
    match end {
        None => Ok(()),
        Some(tail) => Ok(add_template(work, roles, tail, escaped, left, nodes)?),
    }
}

/// Adds the nodes of a template.
pub fn template_nodes(work: &Work, roles: &Roles, tree: Tree, nodes: &mut Vec<TreeNode>) -> Mem<()>
    requires { IsStanding work.now tree }
    ensures { (r : ModelRules Identifier) (t : ModelTree Identifier) → TellsRoles work.now.symbols roles.now r → StandsFor work.now tree t →
        OnOk result (Adds (IsNode work.now.symbols) nodes.old.items nodes.new.items (nodes_in (dots_where false r) t)) }
{
    let left = work.depth(tree);
    Ok(add_template(work, roles, tree, false, left, nodes)?)
}

/// Adds the nodes of a pattern behind its first part. No identifier of it is told as an ellipsis here.
pub fn pattern_nodes(
    work: &Work,
    roles: &Roles,
    pattern: Tree,
    nodes: &mut Vec<TreeNode>,
) -> Mem<()>
    requires { IsStanding work.now pattern }
    ensures { (r : ModelRules Identifier) (head : ModelTree Identifier) (ts : Trees Identifier) (tail : Tail Identifier) (o : Option AnyOcc) →
        TellsRoles work.now.symbols roles.now r → StandsFor work.now pattern (list_tree (before head ts) tail o) →
        OnOk result (Adds (IsNode work.now.symbols) nodes.old.items nodes.new.items (list_nodes ts tail (nodes_among nowhere ts ++ nodes_behind nowhere tail))) }
{
    let left = work.depth(pattern);
    match look_at(work, pattern) {
        Look::List(items, end) => {
            add_list(items.len().saturating_sub(1), end, nodes)?;
            Ok(add_row(work, roles, items, 1, end, true, left - 1, nodes)?)
        }
        Look::Name(_) => Ok(()),
        Look::Atom(_) => Ok(()),
        Look::Vector(_) => Ok(()),
    }
}
