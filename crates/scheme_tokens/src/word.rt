//! Words: what runs up to a delimiter (R7RS 7.1.1).
ghost use Rattle.std.specs.Prelude.{◌≡◌};
ghost use Rattle.std.specs.List.{list_all};
ghost use Rattle.std.specs.Str.{chars};
ghost use Rattle.scheme_tokens.specs.Lexical.{is_subsequent, is_hex_digit};
ghost use Rattle.scheme_tokens.specs.Mirror.Words.{is_text, begins_with, spells, starts_digit, starts_fraction, is_signed, starts_prefix, is_numeral, goes_on_dot, goes_on_sign, is_identifier};

use crate::character::{
    is_dot_subsequent, is_hex_digit, is_initial, is_sign, is_sign_subsequent, is_subsequent,
};
use crate::front::split_first;

/// Whether a text is these ASCII characters.
pub fn is_text(text: &str, letters: &[u8]) -> bool
    ensures { result ≡ is_text (chars text.now) letters.now }
{
    let mut rest = text;
    for letter in letters {
        let Some((c, more)) = split_first(rest) else {
            return false;
        };
        if c != *letter as char {
            return false;
        }
        rest = more;
    }
    rest.is_empty()
}

/// Whether a text begins with these small ASCII letters, in either case.
fn begins_with(text: &str, letters: &[u8]) -> bool
    ensures { result ≡ begins_with letters.now (chars text.now) }
{
    let mut rest = text;
    for letter in letters {
        let Some((c, more)) = split_first(rest) else {
            return false;
        };
        if c.to_ascii_lowercase() != *letter as char {
            return false;
        }
        rest = more;
    }
    true
}

/// Whether a text is these small ASCII letters, in either case.
pub fn spells(text: &str, letters: &[u8]) -> bool
    ensures { result ≡ spells letters.now (chars text.now) }
{
    let mut rest = text;
    for letter in letters {
        let Some((c, more)) = split_first(rest) else {
            return false;
        };
        if c.to_ascii_lowercase() != *letter as char {
            return false;
        }
        rest = more;
    }
    rest.is_empty()
}

fn starts_digit(text: &str) -> bool
    ensures { result ≡ starts_digit (chars text.now) }
{
    match split_first(text) {
        None => false,
        Some((c, _)) => c.is_ascii_digit(),
    }
}

/// Whether a dot and a digit stand first.
fn starts_fraction(text: &str) -> bool
    ensures { result ≡ starts_fraction (chars text.now) }
{
    match split_first(text) {
        None => false,
        Some((c, rest)) => c == '.' && starts_digit(rest),
    }
}

/// Whether a numeral goes on so behind its sign.
fn is_signed(text: &str) -> bool
    ensures { result ≡ is_signed (chars text.now) }
{
    starts_digit(text)
        || starts_fraction(text)
        || begins_with(text, b"inf.0")
        || begins_with(text, b"nan.0")
        || spells(text, b"i")
}

/// Whether a radix or an exactness stands behind a `#`.
fn starts_prefix(text: &str) -> bool
    ensures { result ≡ starts_prefix (chars text.now) }
{
    match split_first(text) {
        None => false,
        Some((c, _)) => {
            let c = c.to_ascii_lowercase();
            c == 'b' || c == 'o' || c == 'd' || c == 'x' || c == 'e' || c == 'i'
        }
    }
}

/// Whether a word is a numeral, which its first characters tell.
#[tactic(auto, unfolding(crate::specs::Mirror::Words::is_numeral))]
pub fn is_numeral(word: &str) -> bool
    ensures { result ≡ is_numeral (chars word.now) }
{
    let Some((c, rest)) = split_first(word) else {
        return false;
    };
    if is_sign(c) {
        is_signed(rest)
    } else if c == '.' {
        starts_digit(rest)
    } else if c == '#' {
        starts_prefix(rest)
    } else {
        c.is_ascii_digit()
    }
}

fn all_subsequent(text: &str) -> bool
    ensures { result ≡ list_all is_subsequent (chars text.now) }
{
    text.chars().all(|c| is_subsequent(c))
}

/// Whether all are hex digits.
pub fn all_hex_digits(text: &str) -> bool
    ensures { result ≡ list_all is_hex_digit (chars text.now) }
{
    text.chars().all(|c| is_hex_digit(c))
}

/// Whether an identifier goes on so behind its dot.
fn goes_on_dot(text: &str) -> bool
    ensures { result ≡ goes_on_dot (chars text.now) }
{
    match split_first(text) {
        None => false,
        Some((c, rest)) => is_dot_subsequent(c) && all_subsequent(rest),
    }
}

/// Whether an identifier goes on so behind its sign.
fn goes_on_sign(text: &str) -> bool
    ensures { result ≡ goes_on_sign (chars text.now) }
{
    let Some((c, rest)) = split_first(text) else {
        return true;
    };
    if c == '.' {
        goes_on_dot(rest)
    } else {
        is_sign_subsequent(c) && all_subsequent(rest)
    }
}

/// Whether a word is an identifier, numerals apart.
#[tactic(auto, unfolding(crate::specs::Mirror::Words::is_identifier))]
pub fn is_identifier(word: &str) -> bool
    ensures { result ≡ is_identifier (chars word.now) }
{
    let Some((c, rest)) = split_first(word) else {
        return false;
    };
    if is_sign(c) {
        goes_on_sign(rest)
    } else if c == '.' {
        goes_on_dot(rest)
    } else {
        is_initial(c) && all_subsequent(rest)
    }
}
