//! The tokens of a text (R7RS 7.1.1).
ghost use Rattle.std.specs.Prelude.{◌≡◌, ◌≢◌, ◌+◌, ◌^◌, ◌<◌, ◌≤◌, ◌⊎◌, List, length, drop, IfOk, IfErr, IfSome, MatchResult};
ghost use Rattle.std.specs.List.{All};
ghost use Rattle.std.specs.Str.{chars, IsUtf8};
ghost use Rattle.scheme_tokens.specs.Lexical as model;
ghost use Rattle.scheme_tokens.specs.Lexical.{behind_mark, IsSpelled};
ghost use Rattle.scheme_tokens.specs.Faults.{FaultAt};
ghost use Rattle.scheme_tokens.specs.Stopping.{Stops};
ghost use Rattle.scheme_tokens.specs.Mirror.Reading.{place, behind_fault, fault_at, next};
ghost use Rattle.scheme_tokens.specs.Views.{read_fault, tokens_of, IsFront, Explains, IsWithin};
ghost use Rattle.scheme_tokens.specs.Mirror.Told.{fault_of, IsNext};

use crate::character::Class;
use crate::fault::{Fault, ReadFault, ScanFault};
use crate::front::{skip, split_first};
use crate::gap::skip_gap;
use crate::scan::token;
use crate::token::Token;
use ls_base::{Items, Mem, Memory, Span};
use std::alloc::Global;

/// The text behind its first character.
fn behind_first(text: &str) -> &str
    ensures rest { chars result.now ≡ drop 1 (chars text.now) }
    ensures within { length result.now ≤ length text.now }
{
    match split_first(text) {
        Some((_, rest)) => rest,
        None => text,
    }
}

/// The text behind what is shown of a fault at its front.
fn behind_fault(fault: Fault, text: &str) -> &str
    ensures rest { chars result.now ≡ behind_fault (fault_of fault) (chars text.now) }
    ensures within { length result.now ≤ length text.now }
{
    match fault {
        Fault::OpenString | Fault::OpenBar => behind_first(text),
        Fault::OpenComment => behind_first(behind_first(text)),
        Fault::BadToken | Fault::Label | Fault::Directive => {
            skip(behind_first(text), Class::Inside)
        }
    }
}

/// The bytes between two rests of a text of so many bytes.
fn span(size: usize, from: &str, to: &str) -> Span
    requires short { size < 2 ^ 32 }
    requires from { length from.now ≤ size }
    requires to { length to.now ≤ size }
    ensures start { result.start ≡ place size (chars from.now) }
    ensures end { result.end ≡ place size (chars to.now) }
    ensures start_left { result.start + length from.now ≡ size }
    ensures end_left { result.end + length to.now ≡ size }
{
    Span {
        start: (size - from.len()) as u32,
        end: (size - to.len()) as u32,
    }
}

fn fault_at(size: usize, fault: Fault, text: &str) -> ReadFault
    requires short { size < 2 ^ 32 }
    requires within { length text.now ≤ size }
    ensures { result ≡ read_fault (fault_at size (fault_of fault) (chars text.now)) }
{
    ReadFault::At {
        number: fault.number(),
        span: span(size, text, behind_fault(fault, text)),
    }
}

/// The next token of the rest of a text of so many bytes, and what follows it.
#[tactic(auto, unfolding(crate::specs::Mirror::Reading::next))]
fn next(alloc: Global, size: usize, text: &str) -> Result<Option<(Token, &str)>, ReadFault>
    requires short { size < 2 ^ 32 }
    requires within { length text.now ≤ size }
    ensures next { IsNext result (next size (chars text.now)) }
    ensures within { IfOk result (λ found. IfSome found (λ t. length t.1.now < length text.now)) }
    ensures utf8 { IfOk result (λ found. IfSome found (λ t. IsUtf8 t.1.now)) }
    ensures place { IfOk result (λ found. IfSome found (λ t. IsWithin size t.0.span)) }
{
    let front = match skip_gap(text) {
        Ok(front) => front,
        Err(start) => return Err(fault_at(size, Fault::OpenComment, start)),
    };
    if front.is_empty() {
        return Ok(None);
    }
    match token(alloc, front) {
        Ok((kind, rest)) => {
            let span = span(size, front, rest);
            Ok(Some((Token { kind, span }, rest)))
        }
        Err(ScanFault::Memory) => Err(ReadFault::Memory),
        Err(ScanFault::Fault(fault)) => Err(fault_at(size, fault, front)),
    }
}

/// The text behind a byte order mark.
fn behind_mark(text: &str) -> &str
    ensures rest { chars result.now ≡ behind_mark (chars text.now) }
    ensures within { length result.now ≤ length text.now }
{
    let Some((c, rest)) = split_first(text) else {
        return text;
    };
    if c == '\u{FEFF}' { rest } else { text }
}

/// What is read of a text: its tokens, and the fault that it stops at, if it stops at one.
#[derive(Drop)]
pub struct Front {
    pub tokens: Items<Token>,
    pub fault: Option<ReadFault>,
}

/// A fault of the text, unless memory ran out.
fn of_text(fault: ReadFault) -> Mem<ReadFault>
    ensures same { IfOk result (λ f. f ≡ fault) }
    ensures told { IfOk result (λ f. f ≢ ReadFault.Memory) }
{
    match fault {
        ReadFault::Memory => Err(Memory),
        ReadFault::At { number, span } => Ok(ReadFault::At { number, span }),
    }
}

/// The tokens of a text up to its end or to the first fault (R7RS 7.1.1).
pub fn front_tokens(alloc: Global, text: &str) -> Mem<Front>
    requires { length text.now < 2 ^ 32 }
    ensures front { IfOk result (λ front. IsFront front.tokens front.fault (chars text.now)) }
    ensures few { IfOk result (λ front. length front.tokens ≤ length text.now) }
    ensures places { IfOk result (λ front. All (λ t. IsWithin (length text.now) t.span) front.tokens) }
{
    let mut tokens = Items::new(alloc);
    let mut rest = behind_mark(text);
    loop {
        match next(alloc, text.len(), rest) {
            Ok(Some((token, behind))) => {
                tokens.push(token)?;
                rest = behind;
            }
            Ok(None) => {
                return Ok(Front {
                    tokens,
                    fault: None,
                });
            }
            Err(fault) => {
                let fault = Some(of_text(fault)?);
                return Ok(Front { tokens, fault });
            }
        }
    }
}

/// The tokens of a text with their places in bytes, or the first fault (R7RS 7.1.1).
pub fn tokens(alloc: Global, text: &str) -> Result<Items<Token>, ReadFault>
    requires { length text.now < 2 ^ 32 }

    // What is read are the tokens of the text, and no others are.
    ensures found { IfOk result (λ ts. IsSpelled (tokens_of ts) (chars text.now)) }
    ensures only { (ts : List model.Token) → IsSpelled ts (chars text.now) →
        MatchResult result (λ items. tokens_of items ≡ ts) (λ e. e ≡ ReadFault.Memory) }

    // Each has some bytes of the text.
    ensures places { IfOk result (λ ts. All (λ t. IsWithin (length text.now) t.span) ts) }

    // A fault is answered where the text stops at it, and only there.
    ensures fault { IfErr result (λ e. Explains e (chars text.now)) }
    ensures stops { (f : FaultAt) → Stops f (chars text.now) →
        MatchResult result (λ _. ⊥) (λ e. (e ≡ ReadFault.Memory) ⊎ (e ≡ read_fault f)) }
{
    let front = front_tokens(alloc, text)?;
    match front.fault {
        None => Ok(front.tokens),
        Some(fault) => Err(fault),
    }
}
