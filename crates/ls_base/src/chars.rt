//! The characters of a text, one at a time.
ghost use Rattle.std.specs.Prelude.{◌≡◌, ◌+◌, [], ◌∷◌, length, drop, IfSome, IfNone};
ghost use Rattle.std.specs.Str.{chars, IsUtf8};
ghost use Rattle.std.specs.Char.{len_utf8};

/// The first character of a text, and the text behind it. `None` exactly where the text is empty.
#[inline(always)]
pub fn split_char(text: &str) -> Option<(char, &str)>
    ensures some { IfSome result (λ p. chars text.now ≡ p.0 ∷ chars p.1.now) }
    ensures rest { IfSome result (λ p. p.1.now ≡ drop (len_utf8 p.0) text.now) }
    ensures within { IfSome result (λ p. length p.1.now + len_utf8 p.0 ≡ length text.now) }
    ensures text { IfSome result (λ p. IsUtf8 p.1.now) }
    ensures none { IfNone result (text.now ≡ []) }
{
    let first = text.chars().next()?;
    Some((first, &text[first.len_utf8()..]))
}
