//! Identifiers with their places, formals (R7RS 4.1.4), and names that are to differ.
ghost use Rattle.std.specs.Prelude.{◌≡◌, List, [], Option, Some, IfOk};
ghost use Rattle.scheme_model.specs.declared.Occ.{Occ};
ghost use Rattle.scheme_model.specs.Trees.{Tree as ModelTree, name, Trees, Tail};
ghost use Rattle.scheme_model.specs.ExpansionFaults.{Named};
ghost use Rattle.scheme_model.specs.Shapes.{name_of, names_of, formals_in, formals_of, distinct};
ghost use Rattle.scheme_model.specs.Ident.{Ident as Identifier, same_ident};
ghost use Rattle.syntax_tree.specs.Looks.{PartsStand, EndStands, AreStanding, EndIsStanding};
ghost use Rattle.syntax_tree.specs.Standing.{leaf_tree};
ghost use Rattle.syntax_tree.specs.Works.{StandsFor, IsStanding};
ghost use Rattle.core_forms.specs.Parts.{AllMatch, IsName, AreNames, IsFormals};
ghost use Rattle.core_forms.specs.Numbers.{has_number, twice_by_number};
ghost use Rattle.core_forms.specs.Ends.{Ends, Passes};

use crate::fault::CoreFault;
use crate::shape::{Formals, NamePart};
use ls_base::{Mem, Memory};
use scheme_model::Occ;
use std::alloc::Global;
use std::collections::BTreeSet;
use syntax_tree::look::{Look, look_at};
use syntax_tree::symbols::IdNo;
use syntax_tree::trees::{Leaf, Node, Tree, Work};

/// The most names that are compared with each before them.
const FEW: usize = 8;

/// An identifier with its place.
pub fn name_of(work: &Work, tree: Tree) -> Result<NamePart, CoreFault>
    requires { IsStanding work.now tree }
    ensures { (t : ModelTree Identifier) → StandsFor work.now tree t → Ends work.now (IsName work.now) (name_of t) result }
{
    match work.node(tree) {
        Node::Atom { leaf, occ } => name_in(work, *leaf, *occ),
        Node::List {
            items: _,
            tail: _,
            occ: _,
        } => Err(CoreFault::BadForm),
        Node::Vector { items: _, occ: _ } => Err(CoreFault::BadForm),
    }
}

/// A leaf that is an identifier, with its place.
fn name_in(work: &Work, leaf: Leaf, occ: Option<Occ>) -> Result<NamePart, CoreFault>
    ensures { (t : ModelTree Identifier) → leaf_tree work.now.symbols leaf occ ≡ Some t → Ends work.now (IsName work.now) (name_of t) result }
{
    match leaf {
        Leaf::Name(ident) => Ok(NamePart { ident, occ }),
        Leaf::Numeral(_) => Err(CoreFault::BadForm),
        Leaf::Quoted(_) => Err(CoreFault::BadForm),
        Leaf::Char(_) => Err(CoreFault::BadForm),
        Leaf::Bool(_) => Err(CoreFault::BadForm),
        Leaf::Bytes(_) => Err(CoreFault::BadForm),
    }
}

/// Identifiers in a row.
pub fn names_of(alloc: Global, work: &Work, items: &[Tree]) -> Result<Vec<NamePart>, CoreFault>
    requires { AreStanding work.now items.now }
    ensures { (ts : Trees Identifier) → PartsStand work.now items.now ts → Ends work.now (AreNames work.now) (names_of ts) result }
{
    let mut names = Vec::new(alloc);
    for item in items {
        let read = name_of(work, *item)?;
        names.push(read)?;
    }
    Ok(names)
}

/// A list of identifiers that may be dotted.
pub fn formals_in(
    alloc: Global,
    work: &Work,
    items: &[Tree],
    end: Option<Tree>,
) -> Result<Formals, CoreFault>
    requires parts { AreStanding work.now items.now }
    requires tail { EndIsStanding work.now end }
    ensures { (ts : Trees Identifier) (tail : Tail Identifier) → PartsStand work.now items.now ts → EndStands work.now end tail →
        Ends work.now (IsFormals work.now) (formals_in ts tail) result }
{
    let mut names = names_of(alloc, work, items)?;
    match end {
        None => Ok(Formals {
            names,
            dotted: false,
        }),
        Some(last) => {
            let name = name_of(work, last)?;
            names.push(name)?;
            Ok(Formals {
                names,
                dotted: true,
            })
        }
    }
}

/// Formals: an identifier, or a list of identifiers that may be dotted.
pub fn formals_of(alloc: Global, work: &Work, tree: Tree) -> Result<Formals, CoreFault>
    requires { IsStanding work.now tree }
    ensures { (t : ModelTree Identifier) → StandsFor work.now tree t → Ends work.now (IsFormals work.now) (formals_of t) result }
{
    match look_at(work, tree) {
        Look::Name(_) => rest_alone(alloc, work, tree),
        Look::List(items, end) => formals_in(alloc, work, items, end),
        Look::Atom(_) => Err(CoreFault::BadForm),
        Look::Vector(_) => Err(CoreFault::BadForm),
    }
}

/// An identifier that takes all arguments.
fn rest_alone(alloc: Global, work: &Work, tree: Tree) -> Result<Formals, CoreFault>
    requires { (i : Identifier) × (o : Option Occ) × StandsFor work.now tree (name i o) }
    ensures { (i : Identifier) (o : Option Occ) → StandsFor work.now tree (name i o) →
        Ends work.now (IsFormals work.now) (formals_of (name i o)) result }
{
    let mut names = Vec::new(alloc);
    let name = name_of(work, tree)?;
    names.push(name)?;
    Ok(Formals {
        names,
        dotted: true,
    })
}

/// Whether names differ: the first that is among those before it is told.
pub fn distinct(alloc: Global, work: &Work, names: &[NamePart]) -> Result<(), CoreFault>
    ensures { (ms : List (Named Identifier)) → AllMatch (IsName work.now) names.now ms →
        Passes work.now (distinct same_ident ms) result }
{
    work.symbols.told_apart();
    match first_twice(alloc, names)? {
        None => Ok(()),
        Some(name) => Err(CoreFault::DuplicateBinder(name)),
    }
}

/// The first identifier that is among those before it, with its place.
fn first_twice(alloc: Global, names: &[NamePart]) -> Mem<Option<NamePart>>
    ensures { IfOk result (λ twice. twice ≡ twice_by_number [] names.now) }
{
    if names.len() <= FEW {
        return Ok(twice_of_few(names));
    }
    Ok(twice_of_many(alloc, names)?)
}

/// The same of a few identifiers, each compared with those before it. It takes no memory.
fn twice_of_few(names: &[NamePart]) -> Option<NamePart>
    ensures { result ≡ twice_by_number [] names.now }
{
    for (k, name) in names.iter().enumerate() {
        if has_number(&names[..k], name.ident) {
            return Some(*name);
        }
    }
    None
}

/// Whether one of some identifiers has this number.
fn has_number(names: &[NamePart], number: IdNo) -> bool
    ensures { result ≡ has_number names.now number }
{
    names.iter().any(|name| number == name.ident)
}

/// The same of any identifiers.
fn twice_of_many(alloc: Global, names: &[NamePart]) -> Mem<Option<NamePart>>
    ensures { IfOk result (λ twice. twice ≡ twice_by_number [] names.now) }
{
    let mut seen = BTreeSet::new(alloc);
    for name in names {
        if !seen.insert(name.ident)? {
            return Ok(Some(*name));
        }
    }
    Ok(None)
}
