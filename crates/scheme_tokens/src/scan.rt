//! The token at the front of a text (R7RS 7.1.1).
ghost use Rattle.std.specs.Prelude.{◌≡◌, ◌≤◌, ◌<◌, ◌∷◌, ◌==◌, ◌&&◌, Ok, IfOk, IfSome, option_map, length};
ghost use Rattle.std.specs.Char.{to_ascii_lowercase};
ghost use Rattle.std.specs.List.{list_all};
ghost use Rattle.std.specs.Str.{chars};
ghost use Rattle.scheme_tokens.specs.Lexical.{is_hex_digit};
ghost use Rattle.scheme_tokens.specs.Mirror.Words.{is_text};
ghost use Rattle.scheme_tokens.specs.Mirror.Tokens.{word_kind, hash_kind, named, character_of, behind_hash_slash, behind_bytes, hash_word, hash_token, word_token, unquote_token, string_token, bar_token, token};
ghost use Rattle.scheme_tokens.specs.Views.{kind_of};
ghost use Rattle.scheme_tokens.specs.Mirror.Told.{token_at, Gives};

use crate::character::Class;
use crate::fault::{Fault, ScanFault};
use crate::front::{split_first, split_front};
use crate::quoted::{hex_char, quoted};
use crate::token::TokenKind;
use crate::word::{all_hex_digits, is_identifier, is_numeral, is_text, spells};
use ls_base::Text;
use std::alloc::Global;

/// A word that begins with no `#`.
#[tactic(auto, unfolding(crate::specs::Mirror::Tokens::word_kind))]
fn word_kind(alloc: Global, word: &str) -> Result<TokenKind, ScanFault>
    ensures { Gives kind_of result (word_kind (chars word.now)) }
{
    if is_numeral(word) {
        Ok(TokenKind::Numeral(Text::of(alloc, word)?))
    } else if is_identifier(word) {
        Ok(TokenKind::Name {
            name: Text::of(alloc, word)?,
            bars: false,
        })
    } else if is_text(word, b".") {
        Ok(TokenKind::Dot)
    } else {
        Err(ScanFault::Fault(Fault::BadToken))
    }
}

/// A word that begins with `#`.
#[tactic(auto, unfolding(crate::specs::Mirror::Tokens::hash_kind))]
fn hash_kind(alloc: Global, word: &str) -> Result<TokenKind, ScanFault>
    ensures { Gives kind_of result (hash_kind (chars word.now)) }
{
    if spells(word, b"#t") || spells(word, b"#true") {
        Ok(TokenKind::Bool(true))
    } else if spells(word, b"#f") || spells(word, b"#false") {
        Ok(TokenKind::Bool(false))
    } else if is_numeral(word) {
        Ok(TokenKind::Numeral(Text::of(alloc, word)?))
    } else {
        Err(ScanFault::Fault(Fault::BadToken))
    }
}

/// Whether a character and a word behind it are these ASCII characters.
fn is_name(first: char, word: &str, letters: &[u8]) -> bool
    ensures { result ≡ is_text (first ∷ chars word.now) letters.now }
{
    match letters {
        [] => false,
        [letter, more @ ..] => first == *letter as char && is_text(word, more),
    }
}

/// The character that a name tells, of which the first character is given.
#[tactic(auto, unfolding(crate::specs::Mirror::Tokens::named))]
fn named(first: char, word: &str) -> Option<char>
    ensures { result ≡ named (first ∷ chars word.now) }
{
    if is_name(first, word, b"alarm") {
        Some('\u{7}')
    } else if is_name(first, word, b"backspace") {
        Some('\u{8}')
    } else if is_name(first, word, b"delete") {
        Some('\u{7F}')
    } else if is_name(first, word, b"escape") {
        Some('\u{1B}')
    } else if is_name(first, word, b"newline") {
        Some('\n')
    } else if is_name(first, word, b"null") {
        Some('\0')
    } else if is_name(first, word, b"return") {
        Some('\r')
    } else if is_name(first, word, b"space") {
        Some(' ')
    } else if is_name(first, word, b"tab") {
        Some('\t')
    } else {
        None
    }
}

/// Whether a character and the word behind it are `x` and hex digits.
fn tells_code(first: char, word: &str) -> bool
    ensures { result ≡ (to_ascii_lowercase first == 120 && list_all is_hex_digit (chars word.now)) }
{
    first.to_ascii_lowercase() == 'x' && all_hex_digits(word)
}

/// The character that is told behind `#\` by a first character and the word behind it.
#[tactic(auto, unfolding(crate::specs::Mirror::Tokens::character_of))]
fn character(first: char, word: &str) -> Option<char>
    ensures { result ≡ character_of first (chars word.now) }
{
    if word.is_empty() {
        Some(first)
    } else if tells_code(first, word) {
        hex_char(word)
    } else {
        named(first, word)
    }
}

/// A character, behind its `#\`.
fn character_token(text: &str) -> Result<(TokenKind, &str), ScanFault>
    ensures gives { Gives token_at result (behind_hash_slash (chars text.now)) }
    ensures within { IfOk result (λ x. length x.1.now ≤ length text.now) }
{
    let Some((first, rest)) = split_first(text) else {
        return Err(ScanFault::Fault(Fault::BadToken));
    };
    let (word, behind) = split_front(rest, Class::Inside);
    match character(first, word) {
        Some(c) => Ok((TokenKind::Char(c), behind)),
        None => Err(ScanFault::Fault(Fault::BadToken)),
    }
}

/// The text behind the parenthesis that opens a bytevector, where a word and what follows it do.
fn behind_bytes<'a>(word: &str, rest: &'a str) -> Option<&'a str>
    ensures gives { option_map (λ behind. chars behind.now) result ≡ behind_bytes (chars word.now) (chars rest.now) }
    ensures within { IfSome result (λ behind. length behind.now ≤ length rest.now) }
{
    let (c, behind) = split_first(rest)?;
    if c == '(' && spells(word, b"#u8") {
        Some(behind)
    } else {
        None
    }
}

/// A word that begins with `#`, or the opening of a bytevector.
fn hash_word<'a>(
    alloc: Global,
    word: &str,
    rest: &'a str,
) -> Result<(TokenKind, &'a str), ScanFault>
    ensures gives { Gives token_at result (hash_word (chars word.now) (chars rest.now)) }
    ensures within { IfOk result (λ x. length x.1.now ≤ length rest.now) }
{
    if let Some(behind) = behind_bytes(word, rest) {
        return Ok((TokenKind::BytesParen, behind));
    }
    match hash_kind(alloc, word) {
        Ok(kind) => Ok((kind, rest)),
        Err(fault) => Err(fault),
    }
}

/// What begins with `#`, given the text and what follows its `#`.
#[tactic(auto, unfolding(crate::specs::Mirror::Tokens::hash_token))]
fn hash_token<'a>(
    alloc: Global,
    text: &'a str,
    behind: &'a str,
) -> Result<(TokenKind, &'a str), ScanFault>
    requires hash { chars text.now ≡ 35 ∷ chars behind.now }
    requires shorter { length behind.now < length text.now }
    ensures gives { Gives token_at result (hash_token (chars behind.now)) }
    ensures within { IfOk result (λ x. length x.1.now < length text.now) }
{
    let Some((c, rest)) = split_first(behind) else {
        return Err(ScanFault::Fault(Fault::BadToken));
    };
    match c {
        '(' => Ok((TokenKind::VectorParen, rest)),
        ';' => Ok((TokenKind::Skip, rest)),
        '\\' => character_token(rest),
        '!' => Err(ScanFault::Fault(Fault::Directive)),
        '0'..='9' => Err(ScanFault::Fault(Fault::Label)),
        _ => {
            let (word, rest) = split_front(text, Class::Inside);
            hash_word(alloc, word, rest)
        }
    }
}

/// What begins with `,`, given what follows it.
fn unquote_token(text: &str) -> (TokenKind, &str)
    ensures gives { unquote_token (chars text.now) ≡ Ok (kind_of result.0, chars result.1.now) }
    ensures within { length result.1.now ≤ length text.now }
{
    let Some((c, rest)) = split_first(text) else {
        return (TokenKind::Unquote, text);
    };
    if c == '@' {
        (TokenKind::Splice, rest)
    } else {
        (TokenKind::Unquote, text)
    }
}

/// A string, behind its quotation mark.
fn string_token(alloc: Global, text: &str) -> Result<(TokenKind, &str), ScanFault>
    ensures gives { Gives token_at result (string_token (chars text.now)) }
    ensures within { IfOk result (λ x. length x.1.now ≤ length text.now) }
{
    let (value, rest) = quoted(alloc, '"', text)?;
    Ok((TokenKind::Quoted(Text::from_string(value)), rest))
}

/// A name between bars, behind the first.
fn bar_token(alloc: Global, text: &str) -> Result<(TokenKind, &str), ScanFault>
    ensures gives { Gives token_at result (bar_token (chars text.now)) }
    ensures within { IfOk result (λ x. length x.1.now ≤ length text.now) }
{
    let (value, rest) = quoted(alloc, '|', text)?;
    let name = Text::from_string(value);
    Ok((TokenKind::Name { name, bars: true }, rest))
}

/// A word that begins with no `#`, and what follows it.
fn word_token(alloc: Global, text: &str) -> Result<(TokenKind, &str), ScanFault>
    ensures gives { Gives token_at result (word_token (chars text.now)) }
    ensures within { IfOk result (λ x. length x.1.now < length text.now) }
{
    let (word, rest) = split_front(text, Class::Inside);
    match word_kind(alloc, word) {
        Ok(kind) => Ok((kind, rest)),
        Err(fault) => Err(fault),
    }
}

/// The token at the front of a text, and the text behind it.
#[tactic(auto, unfolding(crate::specs::Mirror::Tokens::token))]
pub fn token(alloc: Global, text: &str) -> Result<(TokenKind, &str), ScanFault>
    ensures gives { Gives token_at result (token (chars text.now)) }
    ensures within { IfOk result (λ x. length x.1.now < length text.now) }
{
    let Some((c, rest)) = split_first(text) else {
        return Err(ScanFault::Fault(Fault::BadToken));
    };
    match c {
        '(' => Ok((TokenKind::Paren, rest)),
        ')' => Ok((TokenKind::Close, rest)),
        '\'' => Ok((TokenKind::Quote, rest)),
        '`' => Ok((TokenKind::Quasi, rest)),
        ',' => Ok(unquote_token(rest)),
        '"' => string_token(alloc, rest),
        '|' => bar_token(alloc, rest),
        '#' => hash_token(alloc, text, rest),
        _ => word_token(alloc, text),
    }
}
