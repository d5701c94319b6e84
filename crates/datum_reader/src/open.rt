//! What is open while data are read.
ghost use Rattle.std.specs.Prelude.{◌≡◌};
ghost use Rattle.scheme_tokens.specs.declared.fault.ReadFault.TheVariants as told;

use crate::datum::Datum;
use crate::tail::Tail;
use ls_base::{Span, Text};
use scheme_tokens::ReadFault;

/// The text ends in a list, a vector or a bytevector.
pub const OPEN_LIST: u8 = 5;

/// A parenthesis closes nothing.
pub const STRAY_CLOSE: u8 = 6;

/// A dot that may not stand there, or behind which not one datum stands.
pub const BAD_DOT: u8 = 7;

/// A token of a bytevector that is no numeral of a byte.
pub const BAD_BYTE: u8 = 8;

/// More is open than may be.
pub const TOO_DEEP: u8 = 11;

/// An abbreviation or `#;` without its datum.
pub const MISSING_DATUM: u8 = 12;

/// A token's number in its text, and its bytes.
#[derive(Clone, Copy)]
pub struct Spot {
    pub number: u32,
    pub span: Span,
}

/// What is open.
#[derive(Drop)]
pub enum Opener {
    /// A list, before its dot.
    List,
    /// A list behind its dot.
    Dotted(Spot),
    /// A list behind its tail, with its dot.
    Ended(Spot, Box<Tail>),
    Vector,
    /// A bytevector, with its numerals so far.
    Bytes(Vec<Text>),
    /// An abbreviation.
    Mark,
    /// A datum that is skipped.
    Skip,
}

/// What is open, its token, the data before it on its level, and how many are open with it; bytevectors aren't counted.
#[derive(Drop)]
pub struct Frame {
    pub opener: Opener,
    pub spot: Spot,
    pub before: Vec<Datum>,
    pub depth: usize,
}

/// All that is open, outermost first, and the data so far on the innermost level.
#[derive(Drop)]
pub struct State {
    pub stack: Vec<Frame>,
    pub items: Vec<Datum>,
}

/// A fault at a token.
pub fn fault(number: u8, spot: Spot) -> ReadFault
    ensures { result ≡ told.At number spot.span }
{
    ReadFault::At {
        number,
        span: spot.span,
    }
}
