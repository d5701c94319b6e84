//! The names of libraries (R7RS 5.6.1) as texts.
ghost use Rattle.std.specs.Prelude.{◌≡◌, List, Option, Some, IfOk};
ghost use Rattle.std.specs.List.{list_all};
ghost use Rattle.std.specs.Char.{is_ascii_digit};
ghost use Rattle.std.specs.String.{string_bytes};
ghost use Rattle.scheme_model.specs.declared.Occ.{Occ};
ghost use Rattle.scheme_model.specs.Trees.{Tree as ModelTree, Trees, Tail, Atom, atom, Numeral, tree};
ghost use Rattle.scheme_model.specs.Requirements.{Symbol, part_in, part_of, parts_of, library_name_of};
ghost use Rattle.scheme_model.specs.Ident.{Ident as Identifier, symbol_of};
ghost use Rattle.syntax_tree.specs.Standing.{leaf_tree};
ghost use Rattle.syntax_tree.specs.Looks.{PartsStand, EndStands, AreStanding};
ghost use Rattle.syntax_tree.specs.Works.{StandsFor, IsStanding};
ghost use Rattle.feature_requirements.specs.Judged.{Reads, map_ok, part_text, name_in_list, Puts, PutsAll, ReadsPart, ReadsName};

use crate::requirements::ShapeFault;
use ls_base::{Mem, Text};
use scheme_tokens::spell;
use std::alloc::Global;
use syntax_tree::look::{Look, look_at};
use syntax_tree::trees::{Leaf, Tree, Work};

/// Whether these bytes are decimal digits alone.
fn all_digits(bytes: &[u8]) -> bool
    ensures { result ≡ list_all is_ascii_digit bytes.now }
{
    for digit in bytes {
        if !digit.is_ascii_digit() {
            return false;
        }
    }
    true
}

/// Whether a text has decimal digits alone.
fn is_digits(text: &str) -> bool
    ensures { result ≡ list_all is_ascii_digit text.now }
{
    all_digits(text.as_bytes())
}

/// A numeral of decimal digits.
fn digits(alloc: Global, text: &str) -> Result<Text, ShapeFault>
    ensures { Reads (λ t. t) result (map_ok part_text (part_in {A = Identifier} (Numeral text.now))) }
{
    if is_digits(text) {
        return Ok(Text::of(alloc, text)?);
    }
    Err(ShapeFault::BadForm)
}

/// A symbol as it is written.
fn symbol_text(alloc: Global, symbol: &str) -> Mem<Text>
    ensures { IfOk result (λ text. text ≡ part_text (Symbol symbol.now)) }
{
    let written = spell(alloc, symbol, false)?;
    Ok(Text::of(alloc, written.as_str())?)
}

/// The text of a part of a library's name that is no identifier.
fn leaf_text(alloc: Global, work: &Work, leaf: Leaf) -> Result<Text, ShapeFault>
    requires { (a : Atom) × ((o : Option Occ) × (leaf_tree work.now.symbols leaf o ≡ Some (atom a o))) }
    ensures { (a : Atom) (o : Option Occ) → leaf_tree work.now.symbols leaf o ≡ Some (atom a o) →
        Reads (λ t. t) result (map_ok part_text (part_in {A = Identifier} a)) }
{
    match leaf {
        Leaf::Numeral(symbol) => digits(alloc, work.symbols.name(symbol)),
        Leaf::Name(_) => Err(ShapeFault::BadForm),
        Leaf::Quoted(_) => Err(ShapeFault::BadForm),
        Leaf::Char(_) => Err(ShapeFault::BadForm),
        Leaf::Bool(_) => Err(ShapeFault::BadForm),
        Leaf::Bytes(_) => Err(ShapeFault::BadForm),
    }
}

/// The text of a part of a library's name: an identifier as it is spelled, or decimal digits.
fn part_text(alloc: Global, work: &Work, part: Tree) -> Result<Text, ShapeFault>
    requires { IsStanding work.now part }
    ensures { (t : ModelTree Identifier) → StandsFor work.now part t → ReadsPart result (part_of symbol_of t) }
{
    match look_at(work, part) {
        Look::Name(ident) => Ok(symbol_text(alloc, work.symbols.name(work.symbols.strip(ident)))?),
        Look::Atom(leaf) => leaf_text(alloc, work, leaf),
        Look::List(_, _) => Err(ShapeFault::BadForm),
        Look::Vector(_) => Err(ShapeFault::BadForm),
    }
}

/// Adds the text of a part of a library's name.
fn put_part(alloc: Global, work: &Work, text: &mut String, part: Tree) -> Result<(), ShapeFault>
    requires { IsStanding work.now part }
    ensures { (t : ModelTree Identifier) → StandsFor work.now part t → Puts (string_bytes text.old) (string_bytes text.new) result (part_of symbol_of t) }
{
    let written = part_text(alloc, work, part)?;
    text.push_str(written.as_str())?;
    Ok(())
}

/// Adds the texts of parts, each behind a space.
fn put_parts(
    alloc: Global,
    work: &Work,
    text: &mut String,
    parts: &[Tree],
) -> Result<(), ShapeFault>
    requires { AreStanding work.now parts.now }
    ensures { (ts : Trees Identifier) → PartsStand work.now parts.now ts → PutsAll (string_bytes text.old) (string_bytes text.new) result (parts_of symbol_of ts) }
{
    for part in parts {
        text.push_str(" ")?;
        put_part(alloc, work, text, *part)?;
    }
    Ok(())
}

/// The text of a library's name: of a proper list of identifiers and of numerals of decimal digits, one at least.
pub fn library_name(alloc: Global, work: &Work, tree: Tree) -> Result<String, ShapeFault>
    requires { IsStanding work.now tree }
    ensures { (t : ModelTree Identifier) → StandsFor work.now tree t → ReadsName result (library_name_of symbol_of t) }
{
    match look_at(work, tree) {
        Look::List(parts, end) => name_of_parts(alloc, work, parts, end),
        Look::Name(_) => Err(ShapeFault::BadForm),
        Look::Atom(_) => Err(ShapeFault::BadForm),
        Look::Vector(_) => Err(ShapeFault::BadForm),
    }
}

/// The text of a library's name by its parts.
fn name_of_parts(
    alloc: Global,
    work: &Work,
    parts: &[Tree],
    end: Option<Tree>,
) -> Result<String, ShapeFault>
    requires { AreStanding work.now parts.now }
    ensures { (ts : Trees Identifier) (tail : Tail Identifier) → PartsStand work.now parts.now ts → EndStands work.now end tail →
        ReadsName result (name_in_list ts tail) }
{
    if end.is_some() {
        return Err(ShapeFault::BadForm);
    }
    match parts.split_first() {
        None => Err(ShapeFault::BadForm),
        Some((first, rest)) => name_of_row(alloc, work, *first, rest),
    }
}

/// The text of a library's name by its first part and those behind it.
fn name_of_row(alloc: Global, work: &Work, first: Tree, rest: &[Tree]) -> Result<String, ShapeFault>
    requires first { IsStanding work.now first }
    requires rest { AreStanding work.now rest.now }
    ensures { (t : ModelTree Identifier) (ts : Trees Identifier) → StandsFor work.now first t → PartsStand work.now rest.now ts →
        ReadsName result (parts_of symbol_of (tree t ts)) }
{
    let mut text = String::from_str(alloc, "(")?;
    put_part(alloc, work, &mut text, first)?;
    put_parts(alloc, work, &mut text, rest)?;
    text.push_str(")")?;
    Ok(text)
}
