//! Nodes without parts: identifiers, other atoms and bytevectors (R7RS 7.1.2).
ghost use Rattle.std.specs.Prelude.{◌≡◌, IfOk, map, Some, chars, string_bytes, encode_utf8_all};
ghost use Rattle.std.specs.List.{join_with_byte};
ghost use Rattle.scheme_model.specs.Trees.{name as name_tree, atom as atom_leaf, Bytes};
ghost use Rattle.scheme_model.specs.Ident.{Written};
ghost use Rattle.scheme_model.specs.Data.{spelled, implied};
ghost use Rattle.scheme_model.specs.declared.Occ.{Occ};
ghost use Rattle.scheme_model.specs.DataTrees.{mark_symbol};
ghost use Rattle.datum_reader.specs.Views.{leaf_of, mark_of};
ghost use Rattle.datum_reader.specs.Seeded.{atom_tree};
ghost use Rattle.datum_reader.specs.Seeding.{Interns};

use crate::datum::{Atom, Mark};
use crate::look::implied_name;
use ls_base::{Mem, Text};
use scheme_model::Occ;
use std::alloc::Global;
use syntax_tree::symbols::{Ident, Symbols};
use syntax_tree::trees::{Leaf, Node};

/// The node of an atom.
pub fn atom_node(symbols: &mut Symbols, atom: &Atom, unit: u32, occ: Occ) -> Mem<Node>
    ensures { Interns symbols.old symbols.new (atom_tree unit (spelled (leaf_of atom.now)) occ) result }
{
    match atom {
        Atom::Name { name, bars: _ } => Ok(name_node(symbols, name.as_str(), unit, Some(occ))?),
        Atom::Numeral(text) => {
            let symbol = symbols.symbol(text.as_str())?;
            Ok(leaf_node(Leaf::Numeral(symbol), occ))
        }
        Atom::Quoted(text) => {
            let symbol = symbols.symbol(text.as_str())?;
            Ok(leaf_node(Leaf::Quoted(symbol), occ))
        }
        Atom::Char(c) => Ok(leaf_node(Leaf::Char(*c), occ)),
        Atom::Bool(b) => Ok(leaf_node(Leaf::Bool(*b), occ)),
    }
}

/// The node of the identifier that a mark implies, which has no place.
pub fn mark_node(symbols: &mut Symbols, mark: Mark, unit: u32) -> Mem<Node>
    ensures { (occ : Occ) → Interns symbols.old symbols.new (atom_tree unit (implied (mark_of mark)) occ) result }
{
    Ok(name_node(symbols, implied_name(mark), unit, None)?)
}

/// The node of a bytevector, which keeps its numerals with one space between each two.
pub fn bytes_node(alloc: Global, symbols: &mut Symbols, numerals: &[Text], occ: Occ) -> Mem<Node>
    ensures { Interns symbols.old symbols.new (atom_leaf (Bytes (join_with_byte 32 (map encode_utf8_all (map chars numerals.now)))) (Some occ)) result }
{
    let text = joined(alloc, numerals)?;
    let symbol = symbols.symbol(text.as_str())?;
    Ok(leaf_node(Leaf::Bytes(symbol), occ))
}

/// The node of a leaf that was read from a token.
fn leaf_node(leaf: Leaf, occ: Occ) -> Node
    ensures { result ≡ Node.Atom leaf (Some occ) }
{
    Node::Atom {
        leaf,
        occ: Some(occ),
    }
}

/// The node of an identifier that is written in a unit.
fn name_node(symbols: &mut Symbols, name: &str, unit: u32, occ: Option<Occ>) -> Mem<Node>
    ensures { Interns symbols.old symbols.new (name_tree (Written unit name.now) occ) result }
{
    let symbol = symbols.symbol(name)?;
    let number = symbols.ident(Ident::Written { unit, symbol })?;
    Ok(Node::Atom {
        leaf: Leaf::Name(number),
        occ,
    })
}

/// Texts with one space between each two.
pub fn joined(alloc: Global, texts: &[Text]) -> Mem<String>
    ensures { IfOk result (λ text. string_bytes text ≡ join_with_byte 32 (map encode_utf8_all (map chars texts.now))) }
{
    match texts {
        [] => Ok(String::new(alloc)),
        [first, rest @ ..] => {
            let mut text = String::from_str(alloc, first.as_str())?;
            for more in rest {
                text.push(' ')?;
                text.push_str(more.as_str())?;
            }
            Ok(text)
        }
    }
}
