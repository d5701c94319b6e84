//! Symbols and how they are written (R7RS 7.1.1, identifier).
ghost use Rattle.std.specs.Prelude.{◌≡◌, ◌++◌, List, ℕ, IfOk, IfSome, IfNone, OnOk, option_map, ◌<◌};
ghost use Rattle.std.specs.Char.{digit_char};
ghost use Rattle.std.specs.Str.{chars};
ghost use Rattle.std.specs.String.{string_bytes};
ghost use Rattle.scheme_tokens.specs.Lexical.{IsIdentifier};
ghost use Rattle.scheme_tokens.specs.Spelling.{hex_escape, in_bars, barred, IsSpelling};
ghost use Rattle.scheme_tokens.specs.Mirror.Spelled.{is_bare};
ghost use Rattle.scheme_tokens.specs.Views.{kind_of, symbol_of};

use crate::fault::ScanFault;
use crate::front::split_first;
use crate::quoted::push;
use crate::scan::token;
use crate::token::TokenKind;
use crate::word::{is_identifier, is_numeral};
use ls_base::{Mem, Memory, Text};
use std::alloc::Global;

/// The symbol that a token names, where it names one.
fn symbol(kind: TokenKind) -> Option<Text>
    ensures { option_map (λ name. chars name) result ≡ symbol_of (kind_of kind) }
{
    match kind {
        TokenKind::Name { name, .. } => Some(name),
        TokenKind::Paren
        | TokenKind::VectorParen
        | TokenKind::BytesParen
        | TokenKind::Close
        | TokenKind::Dot
        | TokenKind::Quote
        | TokenKind::Quasi
        | TokenKind::Unquote
        | TokenKind::Splice
        | TokenKind::Skip
        | TokenKind::Numeral(_)
        | TokenKind::Quoted(_)
        | TokenKind::Char(_)
        | TokenKind::Bool(_) => None,
    }
}

/// The symbol that a text spells, where the text is one identifier token and nothing else.
pub fn ident_of(alloc: Global, text: &str) -> Mem<Option<Text>>
    ensures some { IfOk result (λ symbol. IfSome symbol (λ name. IsIdentifier (chars name) (chars text.now))) }
    ensures none { IfOk result (λ symbol. IfNone symbol ((name : List ℕ) → ¬ IsIdentifier name (chars text.now))) }
{
    match token(alloc, text) {
        Ok((kind, rest)) => {
            if rest.is_empty() {
                Ok(symbol(kind))
            } else {
                Ok(None)
            }
        }
        Err(ScanFault::Fault(_)) => Ok(None),
        Err(ScanFault::Memory) => Err(Memory),
    }
}

/// The digit that a number below 16 writes, in small letters.
fn hex_digit(n: u32) -> char
    requires { n < 16 }
    ensures { result ≡ digit_char n }
{
    char::from_digit(n, 16).unwrap_or('0')
}

/// Adds a character's code as an escape.
fn push_escape(out: &mut String, code: u32) -> Mem<()>
    requires { code < 128 }
    ensures { OnOk result (chars (string_bytes out.new) ≡ chars (string_bytes out.old) ++ hex_escape code) }
{
    push(out, '\\')?;
    push(out, 'x')?;
    if code >= 16 {
        push(out, hex_digit(code / 16))?;
    }
    push(out, hex_digit(code % 16))?;
    push(out, ';')?;
    Ok(())
}

/// Adds a character as it is written between bars.
fn push_in_bars(out: &mut String, c: char) -> Mem<()>
    ensures { OnOk result (chars (string_bytes out.new) ≡ chars (string_bytes out.old) ++ in_bars c) }
{
    if c == '|' {
        push(out, '\\')?;
        push(out, '|')?;
    } else if c == '\\' || c < ' ' || c == '\u{7F}' {
        push_escape(out, c as u32)?;
    } else {
        push(out, c)?;
    }
    Ok(())
}

/// A name between bars.
fn barred(alloc: Global, name: &str) -> Mem<Text>
    ensures { IfOk result (λ text. chars text ≡ barred (chars name.now)) }
{
    let mut out = String::new(alloc);
    push(&mut out, '|')?;
    let mut rest = name;
    while let Some((c, more)) = split_first(rest) {
        push_in_bars(&mut out, c)?;
        rest = more;
    }
    push(&mut out, '|')?;
    Ok(Text::from_string(out))
}

/// Whether a name is an identifier token as it is.
fn is_bare(name: &str) -> bool
    ensures { result ≡ is_bare (chars name.now) }
{
    !is_numeral(name) && is_identifier(name)
}

/// How a symbol is written: between bars where `bars` asks for them or the symbol needs them, and else as it is
/// (R7RS 7.1.1, identifier and symbol element).
pub fn spell(alloc: Global, name: &str, bars: bool) -> Mem<Text>
    ensures { IfOk result (λ text. IsSpelling (chars name.now) bars (chars text)) }
{
    if bars || !is_bare(name) {
        Ok(barred(alloc, name)?)
    } else {
        Ok(Text::of(alloc, name)?)
    }
}
