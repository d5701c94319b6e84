//! Data that are the same up to where they stand: each part begins at the same token, counted from its form's first.
ghost use Rattle.std.specs.Prelude.{◌≡◌, ◌&&◌, IfOk};
ghost use Rattle.std.specs.Str.{bytes_eq};
ghost use Rattle.scheme_model.specs.declared.Occ.{Occ};
ghost use Rattle.scheme_model.specs.DataTrees.{mark_symbol};
ghost use Rattle.scheme_model.specs.Entries.{same_occ};
ghost use Rattle.datum_reader.specs.Views.{mark_of};
ghost use Rattle.carried_forms.specs.Alike.{same_tail, same_tree, same_trees};
ghost use Rattle.form_pairs.specs.Trees.{atom_as, bytes_as, end_as, parts_as, token_at, tree_as};

use datum_reader::{Atom, Datum, Mark, Shape, joined};
use ls_base::{Mem, Text};
use std::alloc::Global;

/// Whether two data are the same, each of a form with this first token.
#[cycle(same)]
pub fn is_same(alloc: Global, a: &Datum, first: u32, b: &Datum, other: u32) -> Mem<bool>
    ensures { IfOk result (λ same. same ≡ same_tree bytes_eq (tree_as first a.now) (tree_as other b.now)) }
{
    let starts = is_same_place(a.first, first, b.first, other);
    match (&a.shape, &b.shape) {
        (Shape::Implied(x), Shape::Implied(y)) => Ok(is_same_mark(*x, *y)),
        (Shape::Atom(x), Shape::Atom(y)) => Ok(is_same_atom(x, y) & starts),
        (Shape::Bytes(x), Shape::Bytes(y)) => Ok(are_same_bytes(alloc, x, y)? & starts),
        (Shape::Vector(x), Shape::Vector(y)) => Ok(
            are_same(alloc, x.as_slice(), first, y.as_slice(), other)? & starts,
        ),
        (Shape::List(x, end), Shape::List(y, tail)) => {
            let parts = are_same(alloc, x.as_slice(), first, y.as_slice(), other)?;
            let ends = is_same_end(alloc, end, first, tail, other)?;
            Ok(parts & (ends & starts))
        }
        _ => Ok(false),
    }
}

/// Whether the parts of two lists or vectors are the same.
#[cycle(same)]
fn are_same(alloc: Global, a: &[Datum], first: u32, b: &[Datum], other: u32) -> Mem<bool>
    ensures { IfOk result (λ same. same ≡ same_trees bytes_eq (parts_as first a.now) (parts_as other b.now)) }
{
    if a.len() != b.len() {
        return Ok(false);
    }
    for k in 0..a.len() {
        if !is_same(alloc, &a[k], first, &b[k], other)? {
            return Ok(false);
        }
    }
    Ok(true)
}

/// Whether the tails of two lists are the same.
#[cycle(same)]
fn is_same_end(
    alloc: Global,
    a: &Option<Box<Datum>>,
    first: u32,
    b: &Option<Box<Datum>>,
    other: u32,
) -> Mem<bool>
    ensures { IfOk result (λ same. same ≡ same_tail bytes_eq (end_as first a.now) (end_as other b.now)) }
{
    match (a, b) {
        (None, None) => Ok(true),
        (Some(x), Some(y)) => is_same(alloc, x, first, y, other),
        _ => Ok(false),
    }
}

/// Whether two tokens are the same, counted from the first of their forms.
fn is_same_place(token: u32, first: u32, with: u32, other: u32) -> bool
    ensures { result ≡ same_occ (token_at first token) (token_at other with) }
{
    token.saturating_sub(first) == with.saturating_sub(other)
}

/// Whether two tokens spell the same.
fn is_same_atom(a: &Atom, b: &Atom) -> bool
    ensures { (o p : Occ) → same_tree bytes_eq (atom_as o a.now) (atom_as p b.now) ≡ result && same_occ o p }
{
    match (a, b) {
        (Atom::Name { name: x, .. }, Atom::Name { name: y, .. }) => x.as_str() == y.as_str(),
        (Atom::Numeral(x), Atom::Numeral(y)) => x.as_str() == y.as_str(),
        (Atom::Quoted(x), Atom::Quoted(y)) => x.as_str() == y.as_str(),
        (Atom::Char(x), Atom::Char(y)) => *x == *y,
        (Atom::Bool(x), Atom::Bool(y)) => *x == *y,
        _ => false,
    }
}

/// Whether two marks are the same.
fn is_same_mark(a: Mark, b: Mark) -> bool
    ensures { result ≡ bytes_eq (mark_symbol (mark_of a)) (mark_symbol (mark_of b)) }
{
    match (a, b) {
        (Mark::Quote, Mark::Quote)
        | (Mark::Quasi, Mark::Quasi)
        | (Mark::Unquote, Mark::Unquote)
        | (Mark::Splice, Mark::Splice) => true,
        _ => false,
    }
}

/// Whether the numerals of two bytevectors are the same.
fn are_same_bytes(alloc: Global, a: &[Text], b: &[Text]) -> Mem<bool>
    ensures { IfOk result (λ same. same ≡ bytes_eq (bytes_as a.now) (bytes_as b.now)) }
{
    let x = joined(alloc, a)?;
    let y = joined(alloc, b)?;
    Ok(x.as_str() == y.as_str())
}
