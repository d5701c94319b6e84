//! The data of a text (R7RS 7.1.2).
ghost use Rattle.std.specs.Prelude.{◌≡◌, ◌⊎◌, ◌^◌, ◌<◌, [], length, List, map, Option, None, Ok, IfOk, IfErr, MatchResult, vec_len};
ghost use Rattle.std.specs.Str.{chars};
ghost use Rattle.scheme_model.specs.Kinds as kinds;
ghost use Rattle.datum_reader.specs.Views.{tokens_of, data_of, told_of, bytes_seen, bytes_of};
ghost use Rattle.datum_reader.specs.OpenViews.{spot_of, opener_of, stack_of, state_of, Gives};
ghost use Rattle.scheme_model.specs.Data as spec;
ghost use Rattle.scheme_model.specs.Numbered.{number_from};
ghost use Rattle.scheme_model.specs.Faults.{Stop};
ghost use Rattle.datum_reader.specs.Open as model;
ghost use Rattle.datum_reader.specs.Texts.{TextReads, IsReading, StopsAt, Explains};

use crate::datum::Datum;
use crate::open::{Frame, MISSING_DATUM, OPEN_LIST, Opener, State, fault};
use crate::step::step;
use ls_base::{Items, Mem, Span};
use scheme_tokens::{ReadFault, Token, front_tokens};
use std::alloc::Global;

/// What is open behind tokens, with the data so far.
fn open_after(alloc: Global, tokens: Vec<Token>) -> Result<State, ReadFault>
    requires { vec_len tokens < 2 ^ 32 }
    ensures { Gives state_of result (model.after_all (Ok (model.state [] [])) (number_from 0 (tokens_of tokens.items))) }
{
    let mut state = State {
        stack: Vec::new(alloc),
        items: Vec::new(alloc),
    };
    let mut number = 0;
    for token in tokens {
        step(alloc, &mut state, token, number)?;
        number += 1;
    }
    Ok(state)
}

/// The fault of a text that ends in this.
fn left_open(frame: Frame) -> ReadFault
    ensures { result ≡ told_of (model.left_open (opener_of frame.opener) (spot_of frame.spot)) }
{
    match frame.opener {
        Opener::List => fault(OPEN_LIST, frame.spot),
        Opener::Dotted(_) => fault(OPEN_LIST, frame.spot),
        Opener::Ended(..) => fault(OPEN_LIST, frame.spot),
        Opener::Vector => fault(OPEN_LIST, frame.spot),
        Opener::Bytes(_) => fault(OPEN_LIST, frame.spot),
        Opener::Mark => fault(MISSING_DATUM, frame.spot),
        Opener::Skip => fault(MISSING_DATUM, frame.spot),
    }
}

/// The data, where nothing is open.
fn finished(state: State) -> Result<Items<Datum>, ReadFault>
    ensures { Gives data_of result (model.finished (data_of state.items.items) (stack_of state.stack.items)) }
{
    let mut stack = state.stack;
    match stack.pop() {
        Some(frame) => Err(left_open(frame)),
        None => Ok(Items::from_vec(state.items)),
    }
}

/// The bytes of tokens.
fn spans_in(alloc: Global, tokens: &[Token]) -> Mem<Vec<Span>>
    ensures { IfOk result (λ spans. spans.items ≡ map (λ t. t.span) tokens.now) }
{
    let mut spans = Vec::with_capacity(alloc, tokens.len())?;
    for token in tokens {
        spans.push(token.span)?;
    }
    Ok(spans)
}

/// The bytes of a text's tokens, and the data that they form; or the first fault.
fn read_text(alloc: Global, text: &str) -> Result<(Vec<Span>, Items<Datum>), ReadFault>
    requires { length text.now < 2 ^ 32 }
    ensures exact { (ts : List kinds.Token) (end : Option Stop) → TextReads (chars text.now) ts end → Gives (λ read. data_of read.1) result (model.read ts end) }
    ensures spans { (ts : List kinds.Token) → TextReads (chars text.now) ts None → IfOk result (λ read. map bytes_seen read.0.items ≡ map bytes_of ts) }
    ensures found { IfOk result (λ read. IsReading (chars text.now) (data_of read.1)) }
    ensures fault { IfErr result (λ e. Explains e (chars text.now)) }
{
    let front = front_tokens(alloc, text)?;
    let spans = spans_in(alloc, front.tokens.as_slice())?;
    let state = open_after(alloc, front.tokens.into_vec())?;
    match front.fault {
        Some(fault) => Err(fault),
        None => {
            let items = finished(state)?;
            Ok((spans, items))
        }
    }
}

/// The data of a text as `read_all` answers them, and beside them the bytes of all its tokens.
pub fn read_with_spans(alloc: Global, text: &str) -> Result<(Vec<Span>, Items<Datum>), ReadFault>
    requires { length text.now < 2 ^ 32 }
    ensures found { IfOk result (λ read. IsReading (chars text.now) (data_of read.1)) }
    ensures spans { (ts : List kinds.Token) → TextReads (chars text.now) ts None → IfOk result (λ read. map bytes_seen read.0.items ≡ map bytes_of ts) }
    ensures fault { IfErr result (λ e. Explains e (chars text.now)) }
{
    read_text(alloc, text)
}

/// The data of a text (R7RS 7.1.2), or the first fault, by its number: 5 the text ends in a list, a vector or a bytevector; 6 a
/// parenthesis closes nothing; 7 a dot that may not stand there; 8 no numeral of a byte; 11 more than 400 lists, vectors,
/// abbreviations and `#;` are open; 12 no datum behind an abbreviation or `#;`; and those of tokens. Reading goes token by token: the
/// fault is at the first token that can't go on, or at the end. Its place is in bytes of the text.
pub fn read_all(alloc: Global, text: &str) -> Result<Items<Datum>, ReadFault>
    requires { length text.now < 2 ^ 32 }

    // What is read is what the text means, which is data as they are written with at most 400 open.
    ensures found { IfOk result (λ items. IsReading (chars text.now) (data_of items)) }

    // Where the text is such data, what they mean is read.
    ensures only { (ds : List spec.Datum) → IsReading (chars text.now) ds → MatchResult result (λ items. data_of items ≡ ds) (λ e. e ≡ ReadFault.Memory) }

    // A fault is answered where the text stops, and only there: at the first token with which no data go on, or at the end.
    ensures fault { IfErr result (λ e. Explains e (chars text.now)) }
    ensures stops { (f : Stop) → StopsAt (chars text.now) f → MatchResult result (λ _. ⊥) (λ e. (e ≡ ReadFault.Memory) ⊎ (e ≡ told_of f)) }
{
    let (_, data) = read_text(alloc, text)?;
    Ok(data)
}
