//! How a token changes what is open (R7RS 7.1.2).
ghost use Rattle.std.specs.Prelude.{◌≡◌, ◌++◌, ℕ, List, [], ◌∷◌, Err, OnOk, IfOk, IsTrue, map};
ghost use Rattle.std.specs.Str.{chars};
ghost use Rattle.scheme_model.specs.Kinds.{BytesParen};
ghost use Rattle.datum_reader.specs.Views.{kind_of, leaf_of, mark_of, datum_of, data_of};
ghost use Rattle.datum_reader.specs.OpenViews.{tail_datum, spot_of, opener_of, frame_of, stack_of, state_of, Moves, Refuses, IsNumeral};
ghost use Rattle.scheme_model.specs.Data.{Datum as DatumTree, list, atom as atom_datum, spelled, implied, row, none};
ghost use Rattle.datum_reader.specs.Open as model;

use crate::bytes::is_byte;
use crate::close::{closed, make_datum};
use crate::datum::{Atom, Datum, Mark, Shape};
use crate::open::{BAD_BYTE, BAD_DOT, Frame, Opener, STRAY_CLOSE, Spot, State, TOO_DEEP, fault};
use crate::tail::{Tail, joined_datum};
use ls_base::limits::MAX_DATA_DEPTH;
use ls_base::{Mem, Span, Text};
use scheme_tokens::{ReadFault, Token, TokenKind};
use std::alloc::Global;
use std::mem;
use std::rc::Rc;

/// Whether a datum may begin at a token: not behind a tail, and not in a bytevector.
#[inline(always)]
fn begin(stack: &[Frame], spot: Spot) -> Result<(), ReadFault>
    ensures { Refuses result (model.refused (stack_of stack.now) (spot_of spot)) }
{
    let Some(frame) = stack.last() else {
        return Ok(());
    };
    match &frame.opener {
        Opener::Ended(dot, _) => Err(fault(BAD_DOT, *dot)),
        Opener::Bytes(_) => Err(fault(BAD_BYTE, spot)),
        Opener::List => Ok(()),
        Opener::Dotted(_) => Ok(()),
        Opener::Vector => Ok(()),
        Opener::Mark => Ok(()),
        Opener::Skip => Ok(()),
    }
}

/// How many lists, vectors, abbreviations and `#;` are open.
#[inline(always)]
fn depth(stack: &[Frame]) -> usize
    ensures { result ≡ model.depth_of (stack_of stack.now) }
{
    match stack.last() {
        Some(frame) => frame.depth,
        None => 0,
    }
}

/// Opens one more, at a depth; its first data may be there already.
#[inline(always)]
fn push(state: &mut State, opener: Opener, depth: usize, spot: Spot, items: Vec<Datum>) -> Mem<()>
    ensures { OnOk result (state_of state.new ≡ model.pushed (opener_of opener) depth (spot_of spot) (data_of items.items) (state_of state.old)) }
{
    let before = mem::replace(&mut state.items, items);
    state.stack.push(Frame {
        opener,
        spot,
        before,
        depth,
    })?;
    Ok(())
}

/// Opens one more of those that are counted.
#[inline(always)]
fn open(state: &mut State, opener: Opener, spot: Spot, items: Vec<Datum>) -> Result<(), ReadFault>
    ensures { Moves (state_of state.new) result (model.opened (opener_of opener) (spot_of spot) (data_of items.items) (state_of state.old)) }
{
    let depth = depth(state.stack.as_slice());
    if depth < MAX_DATA_DEPTH {
        push(state, opener, depth + 1, spot, items)?;
        Ok(())
    } else {
        Err(fault(TOO_DEEP, spot))
    }
}

/// Puts back what was open, as something else.
#[inline(always)]
fn reopen(state: &mut State, opener: Opener, frame: Frame) -> Mem<()>
    ensures { OnOk result (state_of state.new
        ≡ model.state (data_of state.old.items.items) (model.reopened (opener_of opener) (frame_of frame) ∷ stack_of state.old.stack.items)) }
{
    let Frame {
        opener: _,
        spot,
        before,
        depth,
    } = frame;
    state.stack.push(Frame {
        opener,
        spot,
        before,
        depth,
    })?;
    Ok(())
}

/// The list from a mark's token up to where a datum ends.
fn make_marked(spot: Spot, parts: Rc<Vec<Datum>>, last: u32, end: u32) -> Datum
    ensures { datum_of result ≡ list (record { first = spot.number; last = last; start = spot.span.start; end = end }) (row (data_of parts.value.items) none) }
{
    Datum {
        shape: Shape::List(parts, None),
        first: spot.number,
        last,
        span: Span {
            start: spot.span.start,
            end,
        },
    }
}

/// The abbreviation of a mark's token and what stands behind it.
fn abbreviation(alloc: Global, spot: Spot, items: Vec<Datum>, read: Tail) -> Mem<Tail>
    ensures { IfOk result (λ t. tail_datum t ≡ model.abbreviation (spot_of spot) (data_of items.items) (tail_datum read)) }
{
    let datum = joined_datum(alloc, read)?;
    let last = datum.last;
    let end = datum.span.end;
    let mut parts = items;
    parts.push(datum)?;
    let parts = Rc::new(alloc, parts)?;
    Ok(Tail::Datum(make_marked(spot, parts, last, end)))
}

/// Whether a datum that is complete is added on the innermost level as it is.
#[inline(always)]
fn adds(stack: &[Frame]) -> bool
    ensures { IsTrue result → (d : DatumTree) (items : List DatumTree) → model.completed d items (stack_of stack.now) ≡ model.state (items ++ d ∷ []) (stack_of stack.now) }
{
    let Some(frame) = stack.last() else {
        return true;
    };
    match &frame.opener {
        Opener::List => true,
        Opener::Ended(..) => true,
        Opener::Vector => true,
        Opener::Bytes(_) => true,
        Opener::Dotted(_) => false,
        Opener::Mark => false,
        Opener::Skip => false,
    }
}

/// Adds a datum.
#[inline(always)]
fn add(alloc: Global, state: &mut State, read: Tail) -> Mem<()>
    ensures { OnOk result (state_of state.new ≡ model.state (data_of state.old.items.items ++ tail_datum read ∷ []) (stack_of state.old.stack.items)) }
{
    let datum = joined_datum(alloc, read)?;
    state.items.push(datum)?;
    Ok(())
}

/// Adds a datum, and puts back what is open.
#[inline(always)]
fn keep(alloc: Global, state: &mut State, frame: Frame, read: Tail) -> Mem<()>
    ensures { OnOk result (state_of state.new
        ≡ model.state (data_of state.old.items.items ++ tail_datum read ∷ []) (frame_of frame ∷ stack_of state.old.stack.items)) }
{
    let datum = joined_datum(alloc, read)?;
    state.items.push(datum)?;
    state.stack.push(frame)?;
    Ok(())
}

/// Adds a datum on the innermost level. An abbreviation that it completes is added in its place; `#;` drops it.
fn complete(alloc: Global, state: &mut State, read: Tail) -> Mem<()>
    ensures { OnOk result (state_of state.new ≡ model.completed (tail_datum read) (data_of state.old.items.items) (stack_of state.old.stack.items)) }
{
    if adds(state.stack.as_slice()) {
        return Ok(add(alloc, state, read)?);
    }
    Ok(complete_open(alloc, state, read)?)
}

/// The same where an abbreviation, `#;` or a dot may be innermost.
fn complete_open(alloc: Global, state: &mut State, read: Tail) -> Mem<()>
    ensures { OnOk result (state_of state.new ≡ model.completed (tail_datum read) (data_of state.old.items.items) (stack_of state.old.stack.items)) }
{
    let mut read = read;
    while let Some(frame) = state.stack.pop() {
        match &frame.opener {
            Opener::Mark => {
                let items = mem::replace(&mut state.items, frame.before);
                read = abbreviation(alloc, frame.spot, items, read)?;
            }
            Opener::Skip => {
                state.items = frame.before;
                return Ok(());
            }
            Opener::Dotted(dot) => {
                let opener = Opener::Ended(*dot, Box::new(alloc, read)?);
                return Ok(reopen(state, opener, frame)?);
            }
            Opener::List => return Ok(keep(alloc, state, frame, read)?),
            Opener::Ended(..) => return Ok(keep(alloc, state, frame, read)?),
            Opener::Vector => return Ok(keep(alloc, state, frame, read)?),
            Opener::Bytes(_) => return Ok(keep(alloc, state, frame, read)?),
        }
    }
    let datum = joined_datum(alloc, read)?;
    state.items.push(datum)?;
    Ok(())
}

/// Closes the innermost.
fn close(alloc: Global, state: &mut State, spot: Spot) -> Result<(), ReadFault>
    ensures { Moves (state_of state.new) result (model.closed (spot_of spot) (data_of state.old.items.items) (stack_of state.old.stack.items)) }
{
    let Some(frame) = state.stack.pop() else {
        return Err(fault(STRAY_CLOSE, spot));
    };
    let items = mem::replace(&mut state.items, frame.before);
    let read = closed(alloc, frame.opener, frame.spot, spot, items)?;
    complete(alloc, state, read)?;
    Ok(())
}

/// A dot, which stands behind a part of a list, once.
fn dot(state: &mut State, spot: Spot) -> Result<(), ReadFault>
    ensures { Moves (state_of state.new) result (model.dots (spot_of spot) (data_of state.old.items.items) (stack_of state.old.stack.items)) }
{
    let Some(frame) = state.stack.pop() else {
        return Err(fault(BAD_DOT, spot));
    };
    match &frame.opener {
        Opener::List => {
            if state.items.as_slice().is_empty() {
                return Err(fault(BAD_DOT, spot));
            }
            reopen(state, Opener::Dotted(spot), frame)?;
            Ok(())
        }
        Opener::Bytes(_) => Err(fault(BAD_BYTE, spot)),
        Opener::Dotted(_) => Err(fault(BAD_DOT, spot)),
        Opener::Ended(..) => Err(fault(BAD_DOT, spot)),
        Opener::Vector => Err(fault(BAD_DOT, spot)),
        Opener::Mark => Err(fault(BAD_DOT, spot)),
        Opener::Skip => Err(fault(BAD_DOT, spot)),
    }
}

#[inline(always)]
fn make_atom(atom: Atom, spot: Spot) -> Datum
    ensures { datum_of result ≡ atom_datum (model.at (spot_of spot)) (spelled (leaf_of atom)) }
{
    make_datum(Shape::Atom(atom), spot, spot)
}

/// The identifier that a mark implies.
fn make_implied(mark: Mark, spot: Spot) -> Datum
    ensures { datum_of result ≡ atom_datum (model.at (spot_of spot)) (implied (mark_of mark)) }
{
    make_datum(Shape::Implied(mark), spot, spot)
}

/// The numeral of a byte.
fn numeral(atom: Atom, spot: Spot) -> Result<Text, ReadFault>
    ensures { IsNumeral result (model.byte_of (leaf_of atom)) (spot_of spot) }
{
    match atom {
        Atom::Numeral(text) => {
            if is_byte(text.as_str()) {
                Ok(text)
            } else {
                Err(fault(BAD_BYTE, spot))
            }
        }
        Atom::Name { .. } | Atom::Quoted(_) | Atom::Char(_) | Atom::Bool(_) => {
            Err(fault(BAD_BYTE, spot))
        }
    }
}

fn added(texts: Vec<Text>, text: Text) -> Mem<Vec<Text>>
    ensures { IfOk result (λ all. all.items ≡ texts.items ++ text ∷ []) }
{
    let mut texts = texts;
    texts.push(text)?;
    Ok(texts)
}

/// A numeral more in a bytevector.
fn byte(
    state: &mut State,
    frame: Frame,
    texts: Vec<Text>,
    atom: Atom,
    spot: Spot,
) -> Result<(), ReadFault>
    ensures { Moves (state_of state.new) result (model.byte_added (model.byte_of (leaf_of atom)) (map chars texts.items) (spot_of spot)
        (frame_of frame) (data_of state.old.items.items) (stack_of state.old.stack.items)) }
{
    let text = numeral(atom, spot)?;
    let all = added(texts, text)?;
    reopen(state, Opener::Bytes(all), frame)?;
    Ok(())
}

/// The numerals so far of a bytevector.
fn texts_in(alloc: Global, opener: Opener) -> Vec<Text>
    ensures { (texts : List (List ℕ)) → opener_of opener ≡ model.in_bytes texts → map chars result.items ≡ texts }
{
    match opener {
        Opener::Bytes(texts) => texts,
        Opener::List => Vec::new(alloc),
        Opener::Dotted(_) => Vec::new(alloc),
        Opener::Ended(..) => Vec::new(alloc),
        Opener::Vector => Vec::new(alloc),
        Opener::Mark => Vec::new(alloc),
        Opener::Skip => Vec::new(alloc),
    }
}

/// A bytevector without its numerals, and these.
fn split_bytes(alloc: Global, frame: Frame) -> (Frame, Vec<Text>)
    ensures rest { frame_of result.0 ≡ model.reopened model.in_vector (frame_of frame) }
    ensures texts { (texts : List (List ℕ)) → opener_of frame.opener ≡ model.in_bytes texts → map chars result.1.items ≡ texts }
{
    let Frame {
        opener,
        spot,
        before,
        depth,
    } = frame;
    let texts = texts_in(alloc, opener);
    let rest = Frame {
        opener: Opener::Vector,
        spot,
        before,
        depth,
    };
    (rest, texts)
}

/// A token in a bytevector.
fn byte_in(
    alloc: Global,
    state: &mut State,
    frame: Frame,
    atom: Atom,
    spot: Spot,
) -> Result<(), ReadFault>
    ensures { (texts : List (List ℕ)) → opener_of frame.opener ≡ model.in_bytes texts → Moves (state_of state.new) result
        (model.byte_added (model.byte_of (leaf_of atom)) texts (spot_of spot) (frame_of frame) (data_of state.old.items.items) (stack_of state.old.stack.items)) }
{
    let (rest, texts) = split_bytes(alloc, frame);
    byte(state, rest, texts, atom, spot)?;
    Ok(())
}

/// An atom that is a datum of its own.
#[inline(always)]
fn whole(alloc: Global, state: &mut State, atom: Atom, spot: Spot) -> Mem<()>
    ensures { OnOk result (state_of state.new ≡ model.completed (atom_datum (model.at (spot_of spot)) (spelled (leaf_of atom))) (data_of state.old.items.items) (stack_of state.old.stack.items)) }
{
    let datum = make_atom(atom, spot);
    if adds(state.stack.as_slice()) {
        state.items.push(datum)?;
        return Ok(());
    }
    complete_open(alloc, state, Tail::Datum(datum))?;
    Ok(())
}

/// An atom: in a bytevector a numeral, and elsewhere a datum.
#[inline(always)]
fn atom(alloc: Global, state: &mut State, atom: Atom, spot: Spot) -> Result<(), ReadFault>
    ensures { Moves (state_of state.new) result (model.atoms (leaf_of atom) (spot_of spot) (data_of state.old.items.items) (stack_of state.old.stack.items)) }
{
    match begin(state.stack.as_slice(), spot) {
        Ok(()) => Ok(whole(alloc, state, atom, spot)?),
        Err(refusal) => Ok(refused_atom(alloc, state, atom, spot, refusal)?),
    }
}

/// An atom where no datum may begin: a numeral in a bytevector, or else this fault.
fn refused_atom(
    alloc: Global,
    state: &mut State,
    atom: Atom,
    spot: Spot,
    refusal: ReadFault,
) -> Result<(), ReadFault>
    requires { Refuses (Err refusal) (model.refused (stack_of state.old.stack.items) (spot_of spot)) }
    ensures { Moves (state_of state.new) result (model.atoms (leaf_of atom) (spot_of spot) (data_of state.old.items.items) (stack_of state.old.stack.items)) }
{
    let Some(frame) = state.stack.pop() else {
        return Err(refusal);
    };
    match &frame.opener {
        Opener::Bytes(_) => Ok(byte_in(alloc, state, frame, atom, spot)?),
        Opener::Ended(..) => Err(refusal),
        Opener::List => Err(refusal),
        Opener::Dotted(_) => Err(refusal),
        Opener::Vector => Err(refusal),
        Opener::Mark => Err(refusal),
        Opener::Skip => Err(refusal),
    }
}

/// Opens one more of those that are data, where one may begin.
#[inline(always)]
fn open_datum(
    state: &mut State,
    opener: Opener,
    spot: Spot,
    items: Vec<Datum>,
) -> Result<(), ReadFault>
    ensures { Moves (state_of state.new) result (model.unless (model.refused (stack_of state.old.stack.items) (spot_of spot))
        (model.opened (opener_of opener) (spot_of spot) (data_of items.items) (state_of state.old))) }
{
    begin(state.stack.as_slice(), spot)?;
    open(state, opener, spot, items)?;
    Ok(())
}

/// Opens a bytevector, which isn't counted.
fn open_bytes(alloc: Global, state: &mut State, spot: Spot) -> Result<(), ReadFault>
    ensures { Moves (state_of state.new) result (model.after BytesParen (spot_of spot) (state_of state.old)) }
{
    begin(state.stack.as_slice(), spot)?;
    let depth = depth(state.stack.as_slice());
    push(
        state,
        Opener::Bytes(Vec::new(alloc)),
        depth,
        spot,
        Vec::new(alloc),
    )?;
    Ok(())
}

fn one(alloc: Global, datum: Datum) -> Mem<Vec<Datum>>
    ensures { IfOk result (λ all. all.items ≡ datum ∷ []) }
{
    let mut all = Vec::new(alloc);
    all.push(datum)?;
    Ok(all)
}

/// Opens an abbreviation.
fn mark(alloc: Global, state: &mut State, mark: Mark, spot: Spot) -> Result<(), ReadFault>
    ensures { Moves (state_of state.new) result (model.unless (model.refused (stack_of state.old.stack.items) (spot_of spot))
        (model.opened model.marked (spot_of spot) (atom_datum (model.at (spot_of spot)) (implied (mark_of mark)) ∷ []) (state_of state.old))) }
{
    let items = one(alloc, make_implied(mark, spot))?;
    open_datum(state, Opener::Mark, spot, items)?;
    Ok(())
}

/// Reads one token more.
pub fn step(alloc: Global, state: &mut State, token: Token, number: u32) -> Result<(), ReadFault>
    ensures { Moves (state_of state.new) result (model.after (kind_of token.kind) (spot_of (record { number = number; span = token.span })) (state_of state.old)) }
{
    let spot = Spot {
        number,
        span: token.span,
    };
    match token.kind {
        TokenKind::Paren => Ok(open_datum(state, Opener::List, spot, Vec::new(alloc))?),
        TokenKind::VectorParen => Ok(open_datum(state, Opener::Vector, spot, Vec::new(alloc))?),
        TokenKind::BytesParen => Ok(open_bytes(alloc, state, spot)?),
        TokenKind::Close => Ok(close(alloc, state, spot)?),
        TokenKind::Dot => Ok(dot(state, spot)?),
        TokenKind::Skip => Ok(open(state, Opener::Skip, spot, Vec::new(alloc))?),
        TokenKind::Quote => Ok(mark(alloc, state, Mark::Quote, spot)?),
        TokenKind::Quasi => Ok(mark(alloc, state, Mark::Quasi, spot)?),
        TokenKind::Unquote => Ok(mark(alloc, state, Mark::Unquote, spot)?),
        TokenKind::Splice => Ok(mark(alloc, state, Mark::Splice, spot)?),
        TokenKind::Name { name, bars } => Ok(atom(alloc, state, Atom::Name { name, bars }, spot)?),
        TokenKind::Numeral(text) => Ok(atom(alloc, state, Atom::Numeral(text), spot)?),
        TokenKind::Quoted(text) => Ok(atom(alloc, state, Atom::Quoted(text), spot)?),
        TokenKind::Char(c) => Ok(atom(alloc, state, Atom::Char(c), spot)?),
        TokenKind::Bool(b) => Ok(atom(alloc, state, Atom::Bool(b), spot)?),
    }
}
