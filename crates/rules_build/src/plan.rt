//! What is to be built, before a node of it is made.
ghost use Rattle.std.specs.Prelude.{◌≡◌};
ghost use Rattle.rules_build.specs.Drafts.{spent};

use scheme_model::Occ;
use syntax_tree::symbols::IdNo;
use syntax_tree::trees::{Leaf, Tree};

/// A tree that is there; an identifier of the template, which the use is to mark; another atom of it; a list; or a vector.
#[cycle(plan)]
#[derive(Drop)]
pub enum Plan {
    Held(Tree),
    Name(IdNo, Option<Occ>),
    Atom(Leaf),
    List(Vec<Plan>, End),
    Vector(Vec<Plan>),
}

/// What comes behind the parts of a list: nothing, a tail, or the parts of a list that is there from a place on, with its tail.
#[cycle(plan)]
#[derive(Drop)]
pub enum End {
    Proper,
    Dotted(Box<Plan>),
    Behind(Tree, u32),
}

/// What is left of a number, where anything is left, when so many are taken.
#[inline(always)]
pub fn spend(room: Option<u32>, count: u32) -> Option<u32>
    ensures { result ≡ spent room count }
{
    match room {
        None => None,
        Some(left) => left.checked_sub(count),
    }
}
