//! The places of forms: of the innermost one that was read from a text.
ghost use Rattle.std.specs.Prelude.{◌≡◌, ◌<◌, length, Option, Some, List};
ghost use Rattle.scheme_model.specs.Trees.{Tree as ModelTree, tree};
ghost use Rattle.scheme_model.specs.Order.{here_at, or_here, read_name};
ghost use Rattle.scheme_model.specs.Ident.{Ident as Identifier};
ghost use Rattle.syntax_tree.specs.Macros.{IsIdent};
ghost use Rattle.syntax_tree.specs.Standing.{leaf_tree};
ghost use Rattle.syntax_tree.specs.Works.{StandsFor, IsStanding};

use scheme_model::Occ;
use syntax_tree::symbols::{IdNo, Ident};
use syntax_tree::trees::{Leaf, Node, Tree, Work};

/// The place of the innermost form read from a text, once this tree is come to. An identifier that a use inserted wasn't read.
#[inline(always)]
pub fn here_at(work: &Work, tree: Tree, here: Option<Occ>) -> Option<Occ>
    requires { IsStanding work.now tree }
    ensures { (t : ModelTree Identifier) → StandsFor work.now tree t → result ≡ here_at (λ i. i) t here }
{
    match work.node(tree) {
        Node::Atom { leaf, occ } => leaf_here(work, *leaf, *occ, here),
        Node::List {
            items: _,
            tail: _,
            occ,
        } => or_here(*occ, here),
        Node::Vector { items: _, occ } => or_here(*occ, here),
    }
}

/// The place of the innermost form read from a text, once this leaf is come to.
#[inline(always)]
fn leaf_here(work: &Work, leaf: Leaf, occ: Option<Occ>, here: Option<Occ>) -> Option<Occ>
    requires { (t : ModelTree Identifier) × (leaf_tree work.now.symbols leaf occ ≡ Some t) }
    ensures { (t : ModelTree Identifier) → leaf_tree work.now.symbols leaf occ ≡ Some t → result ≡ here_at (λ i. i) t here }
{
    match leaf {
        Leaf::Name(ident) => name_here(work, ident, occ, here),
        Leaf::Numeral(_) => or_here(occ, here),
        Leaf::Quoted(_) => or_here(occ, here),
        Leaf::Char(_) => or_here(occ, here),
        Leaf::Bool(_) => or_here(occ, here),
        Leaf::Bytes(_) => or_here(occ, here),
    }
}

/// The place of the innermost form read from a text, once this identifier is come to.
#[inline(always)]
fn name_here(work: &Work, ident: IdNo, occ: Option<Occ>, here: Option<Occ>) -> Option<Occ>
    requires { ident < length work.now.symbols.idents }
    ensures { (i : Identifier) → IsIdent work.now.symbols ident i → result ≡ read_name i occ here }
{
    match work.symbols.ident_at(ident) {
        Ident::Written { unit: _, symbol: _ } => or_here(occ, here),
        Ident::Inserted { id: _, number: _ } => here,
    }
}

/// A place, or where there is none, that of the form around it.
#[inline(always)]
fn or_here(occ: Option<Occ>, here: Option<Occ>) -> Option<Occ>
    ensures { result ≡ or_here occ here }
{
    match occ {
        Some(at) => Some(at),
        None => here,
    }
}
