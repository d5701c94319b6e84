//! Points of a program: what two programs are compared by, from the outside in and left to right.
use crate::nodes::Node;
use core_tree::cores::Binder;
use scheme_model::Occ;
use syntax_tree::meaning::Meaning;
use syntax_tree::symbols::SymNo;

/// Where a point stands: at a use of an identifier, at a quoted symbol, in the rules of a macro, there at an identifier of a
/// template, in an export, at the Errors of a unit, or elsewhere.
#[derive(Clone, Copy)]
pub enum Spot {
    Use,
    Quoted,
    Rule,
    Template,
    Export,
    Errors,
    Shape,
}

/// What is seen at a point: a node, a number, a name of a kind, a definition of a unit by its number there, a local of the form,
/// or binders of a kind that bind locals.
#[derive(Clone, Copy)]
pub enum Seen<'a> {
    Node(Node),
    Number(u64),
    Name(Node, SymNo),
    Defined { unit: u32, number: Option<u64> },
    Local(u64),
    Binders(Node, &'a [Binder]),
}

/// What is shown of a point: a symbol, a text, what binds a meaning, or the place of a pattern variable.
#[derive(Clone, Copy)]
pub enum Shown<'a> {
    Nothing,
    Symbol(SymNo),
    Text(&'a str),
    Meaning(Meaning),
    Place(Option<Occ>),
}

/// What is told of a point where programs differ.
#[derive(Clone, Copy)]
pub struct Told<'a> {
    pub spot: Spot,
    pub occ: Option<Occ>,
    pub shown: Shown<'a>,
}

/// A point.
#[derive(Clone, Copy)]
pub struct Point<'a> {
    pub told: Told<'a>,
    pub seen: Seen<'a>,
}

/// Two points that don't agree, of the old program and the new.
#[derive(Clone, Copy)]
pub struct Pair<'a> {
    pub old: Told<'a>,
    pub new: Told<'a>,
}

/// What is told of a point of the shape, or of one that only one program has.
pub const SHAPE: Told<'static> = Told {
    spot: Spot::Shape,
    occ: None,
    shown: Shown::Nothing,
};
