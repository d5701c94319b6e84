//! Trees that are identifiers, with their places.
ghost use Rattle.std.specs.Prelude.{◌≡◌, Option, Some, List, ◌<◌, ◌-◌};
ghost use Rattle.scheme_model.specs.declared.Occ.{Occ};
ghost use Rattle.scheme_model.specs.Trees.{Tree as ModelTree, name};
ghost use Rattle.form_parts.specs.FormsSeen.{name_in};
ghost use Rattle.scheme_model.specs.Ident.{Ident as Identifier};
ghost use Rattle.syntax_tree.specs.Standing.{leaf_tree};
ghost use Rattle.syntax_tree.specs.Works.{StandsFor, IsStanding};
ghost use Rattle.core_forms.specs.Parts.{IsNameIfAny};

use core_forms::NamePart;
use core_tree::cores::Target;
use scheme_model::Occ;
use syntax_tree::trees::{Leaf, Node, Tree, Work};

/// An identifier with its place, where the tree is one.
#[inline(always)]
pub fn name_at(work: &Work, tree: Tree) -> Option<NamePart>
    requires { IsStanding work.now tree }
    ensures { (t : ModelTree Identifier) → StandsFor work.now tree t → IsNameIfAny work.now result (name_in t) }
{
    match work.node(tree) {
        Node::Atom { leaf, occ } => leaf_name(work, *leaf, *occ),
        Node::List {
            items: _,
            tail: _,
            occ: _,
        } => None,
        Node::Vector { items: _, occ: _ } => None,
    }
}

/// An identifier with its place, where the leaf is one.
#[inline(always)]
fn leaf_name(work: &Work, leaf: Leaf, occ: Option<Occ>) -> Option<NamePart>
    ensures { (t : ModelTree Identifier) → leaf_tree work.now.symbols leaf occ ≡ Some t → IsNameIfAny work.now result (name_in t) }
{
    match leaf {
        Leaf::Name(ident) => Some(NamePart { ident, occ }),
        Leaf::Numeral(_) => None,
        Leaf::Quoted(_) => None,
        Leaf::Char(_) => None,
        Leaf::Bool(_) => None,
        Leaf::Bytes(_) => None,
    }
}

/// A keyword as a name.
pub fn name_of(keyword: Target) -> NamePart
    ensures ident { result.ident ≡ keyword.ident }
    ensures place { result.occ ≡ keyword.occ }
{
    NamePart {
        ident: keyword.ident,
        occ: keyword.occ,
    }
}
