//! Data, with the numbers of their tokens and their places (R7RS 7.1.2). A copy shares the parts of lists and vectors.
use ls_base::{Span, Text};
use std::rc::Rc;

/// A datum with the numbers of its first and last token in the text, which begin at 0, and its bytes.
#[cycle(datum)]
#[derive(Drop)]
pub struct Datum {
    pub shape: Shape,
    pub first: u32,
    pub last: u32,
    pub span: Span,
}

#[cycle(datum)]
#[derive(Drop)]
pub enum Shape {
    Atom(Atom),
    /// The identifier that the mark in front of an abbreviated datum implies, by the mark's token.
    Implied(Mark),
    /// A list with its tail, where it is dotted. An abbreviation is the list of its mark and its datum.
    List(Rc<Vec<Datum>>, Option<Box<Datum>>),
    Vector(Rc<Vec<Datum>>),
    /// A bytevector: its numerals as they are written.
    Bytes(Vec<Text>),
}

/// What one token spells by itself. The `name` of an identifier is its symbol; `bars` tells that it stands between bars.
#[derive(Drop)]
pub enum Atom {
    Name { name: Text, bars: bool },
    Numeral(Text),
    Quoted(Text),
    Char(char),
    Bool(bool),
}

/// The mark of an abbreviation: `'`, `` ` ``, `,` or `,@`.
#[derive(Clone, Copy)]
pub enum Mark {
    Quote,
    Quasi,
    Unquote,
    Splice,
}
