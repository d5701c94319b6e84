//! The front of a text: its first character, or its first characters of a class.
ghost use Rattle.std.specs.Prelude.{◌≡◌, ◌≤◌, ◌<◌, ◌+◌, ◌-◌, [], ◌∷◌, IfSome, IfNone, length, drop};
ghost use Rattle.std.specs.Str.{chars, IsUtf8};
ghost use Rattle.scheme_tokens.specs.Mirror.Words.{front_of, behind};
ghost use Rattle.scheme_tokens.specs.Mirror.Told.{test_of};

use crate::character::Class;
use ls_base::split_char;

/// The first character of a text, and the text behind it.
#[inline(always)]
pub fn split_first(text: &str) -> Option<(char, &str)>
    ensures some { IfSome result (λ p. chars text.now ≡ p.0 ∷ chars p.1.now) }
    ensures within { IfSome result (λ p. length p.1.now < length text.now) }
    ensures utf8 { IfSome result (λ p. IsUtf8 p.1.now) }
    ensures none { IfNone result (chars text.now ≡ []) }
{
    let (first, rest) = split_char(text)?;
    Some((first, rest))
}

/// The text behind its longest front in a class.
pub fn skip(text: &str, class: Class) -> &str
    ensures rest { chars result.now ≡ behind (test_of class) (chars text.now) }
    ensures within { length result.now ≤ length text.now }
    ensures place { result.now ≡ drop (length text.now - length result.now) text.now }
    ensures utf8 { IsUtf8 result.now }
{
    let mut rest = text;
    while let Some((c, more)) = split_char(rest) {
        if !class.contains(c) {
            return rest;
        }
        rest = more;
    }
    rest
}

/// The longest front of a text in a class, and what follows it.
pub fn split_front(text: &str, class: Class) -> (&str, &str)
    ensures front { chars result.0.now ≡ front_of (test_of class) (chars text.now) }
    ensures rest { chars result.1.now ≡ behind (test_of class) (chars text.now) }
    ensures sizes { length result.0.now + length result.1.now ≡ length text.now }
{
    let rest = skip(text, class);
    (&text[..text.len() - rest.len()], rest)
}
