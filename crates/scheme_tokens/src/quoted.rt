//! What stands between quotation marks or bars (R7RS 7.1.1, string element and symbol element).
ghost use Rattle.std.specs.Prelude.{◌≡◌, ◌≤◌, ◌+◌, ◌*◌, ◌++◌, [], ◌∷◌, ℕ, true, IfOk, OnOk, length};
ghost use Rattle.std.specs.Option.{option_to_list};
ghost use Rattle.std.specs.List.{list_all};
ghost use Rattle.std.specs.Char.{digit_value};
ghost use Rattle.std.specs.Str.{chars};
ghost use Rattle.std.specs.String.{string_bytes};
ghost use Rattle.scheme_tokens.specs.Lexical.{is_hex_digit};
ghost use Rattle.scheme_tokens.specs.Mirror.Quoted.{open_at, escaped, hex_value, hex_scalar, digits_end, hex_end, behind_line_end, fold_end, escape, element, quoted};
ghost use Rattle.scheme_tokens.specs.Mirror.Told.{fault_of, IsCapped, Gives, Is, meant_at, quoted_at};

use crate::character::{Class, is_blank, is_line_end};
use crate::fault::{Fault, ScanFault};
use crate::front::{skip, split_first, split_front};
use ls_base::Mem;
use std::alloc::Global;

/// Why a text that ends before this mark isn't read.
fn open_at(close: char) -> Fault
    ensures { fault_of result ≡ open_at close }
{
    if close == '"' {
        Fault::OpenString
    } else {
        Fault::OpenBar
    }
}

/// What a letter behind a backslash means.
fn escaped(c: char) -> Option<char>
    ensures { result ≡ escaped c }
{
    match c {
        'a' => Some('\u{7}'),
        'b' => Some('\u{8}'),
        't' => Some('\t'),
        'n' => Some('\n'),
        'r' => Some('\r'),
        '"' | '\\' | '|' => Some(c),
        _ => None,
    }
}

/// A number with a digit more, where it is that of a character or less.
fn with_digit(value: u32, digit: char) -> u32
    requires { is_hex_digit digit ≡ true }
    ensures { (n : ℕ) → IsCapped value n → IsCapped result (16 * n + digit_value digit) }
{
    if value < 0x11_0000 {
        16 * value + digit.to_digit(16).unwrap_or(0)
    } else {
        value
    }
}

/// The number that hex digits write, or some number past the last character's.
fn hex_value(digits: &str) -> u32
    requires { list_all is_hex_digit (chars digits.now) ≡ true }
    ensures { IsCapped result (hex_value (chars digits.now)) }
{
    let mut value = 0;
    let mut rest = digits;
    while let Some((digit, more)) = split_first(rest) {
        value = with_digit(value, digit);
        rest = more;
    }
    value
}

/// The character whose code hex digits write, of which there is one at least.
pub fn hex_char(digits: &str) -> Option<char>
    requires { list_all is_hex_digit (chars digits.now) ≡ true }
    ensures { result ≡ hex_scalar (chars digits.now) }
{
    if digits.is_empty() {
        return None;
    }
    char::from_u32(hex_value(digits))
}

/// Why an escape isn't read behind whose hex digits the text ends.
fn digits_end(close: char, digits: &str) -> Fault
    requires { list_all is_hex_digit (chars digits.now) ≡ true }
    ensures { fault_of result ≡ digits_end close (chars digits.now) }
{
    if hex_value(digits) < 0x11_0000 {
        open_at(close)
    } else {
        Fault::BadToken
    }
}

/// An escape's end behind its hex digits.
fn hex_end<'a>(close: char, digits: &str, rest: &'a str) -> Result<(Option<char>, &'a str), Fault>
    requires { list_all is_hex_digit (chars digits.now) ≡ true }
    ensures gives { Is meant_at result (hex_end close (chars digits.now) (chars rest.now)) }
    ensures within { IfOk result (λ x. length x.1.now ≤ length rest.now) }
{
    let Some((c, more)) = split_first(rest) else {
        return Err(digits_end(close, digits));
    };
    if c != ';' {
        return Err(Fault::BadToken);
    }
    match hex_char(digits) {
        Some(value) => Ok((Some(value), more)),
        None => Err(Fault::BadToken),
    }
}

/// The text behind a line end, whose first character stands before the text.
fn behind_line_end(c: char, text: &str) -> &str
    ensures rest { chars result.now ≡ behind_line_end c (chars text.now) }
    ensures within { length result.now ≤ length text.now }
{
    let Some((d, rest)) = split_first(text) else {
        return text;
    };
    if c == '\r' && d == '\n' { rest } else { text }
}

/// A folded line end, behind its backslash and blanks.
fn fold_end(close: char, text: &str) -> Result<(Option<char>, &str), Fault>
    ensures gives { Is meant_at result (fold_end close (chars text.now)) }
    ensures within { IfOk result (λ x. length x.1.now ≤ length text.now) }
{
    let Some((c, rest)) = split_first(text) else {
        return Err(open_at(close));
    };
    if is_line_end(c) {
        Ok((None, skip(behind_line_end(c, rest), Class::Blank)))
    } else {
        Err(Fault::BadToken)
    }
}

/// An escape, behind its backslash: what it means, and the text behind it.
#[tactic(auto, unfolding(crate::specs::Mirror::Quoted::escape))]
fn escape(close: char, text: &str) -> Result<(Option<char>, &str), Fault>
    ensures gives { Is meant_at result (escape close (chars text.now)) }
    ensures within { IfOk result (λ x. length x.1.now ≤ length text.now) }
{
    let Some((c, rest)) = split_first(text) else {
        return Err(open_at(close));
    };
    if c.to_ascii_lowercase() == 'x' {
        let (digits, behind) = split_front(rest, Class::HexDigit);
        let (meant, behind) = hex_end(close, digits, behind)?;
        Ok((meant, behind))
    } else if close == '"' && (is_blank(c) || is_line_end(c)) {
        let (meant, behind) = fold_end(close, skip(text, Class::Blank))?;
        Ok((meant, behind))
    } else {
        match escaped(c) {
            Some(value) => Ok((Some(value), rest)),
            None => Err(Fault::BadToken),
        }
    }
}

/// One element, whose first character is given: what it means, and the text behind it.
#[tactic(auto, unfolding(crate::specs::Mirror::Quoted::element))]
fn element(close: char, c: char, rest: &str) -> Result<(Option<char>, &str), Fault>
    ensures gives { Is meant_at result (element close c (chars rest.now)) }
    ensures within { IfOk result (λ x. length x.1.now ≤ length rest.now) }
{
    if c == '\\' {
        let (meant, behind) = escape(close, rest)?;
        Ok((meant, behind))
    } else if close == '"' && is_line_end(c) {
        Ok((Some('\n'), behind_line_end(c, rest)))
    } else {
        Ok((Some(c), rest))
    }
}

/// Adds a character.
pub fn push(value: &mut String, c: char) -> Mem<()>
    ensures { OnOk result (chars (string_bytes value.new) ≡ chars (string_bytes value.old) ++ c ∷ []) }
{
    value.push(c)?;
    Ok(())
}

/// Adds what an element means.
fn push_meant(value: &mut String, meant: Option<char>) -> Mem<()>
    ensures { OnOk result (chars (string_bytes value.new) ≡ chars (string_bytes value.old) ++ option_to_list meant) }
{
    if let Some(c) = meant {
        push(value, c)?;
    }
    Ok(())
}

/// What is meant up to the mark that closes, and the text behind it.
pub fn quoted(alloc: Global, close: char, text: &str) -> Result<(String, &str), ScanFault>
    ensures gives { Gives quoted_at result (quoted close (chars text.now)) }
    ensures within { IfOk result (λ x. length x.1.now ≤ length text.now) }
{
    let mut value = String::new(alloc);
    let mut rest = text;
    while let Some((c, more)) = split_first(rest) {
        if c == close {
            return Ok((value, more));
        }
        match element(close, c, more) {
            Ok((meant, behind)) => {
                push_meant(&mut value, meant)?;
                rest = behind;
            }
            Err(fault) => return Err(ScanFault::Fault(fault)),
        }
    }
    Err(ScanFault::Fault(open_at(close)))
}
