//! Gaps between tokens (R7RS 2.2, 7.1.1).
ghost use Rattle.std.specs.Prelude.{◌≡◌, ◌≤◌, ◌<◌, ◌∷◌, true, false, ℕ, List, Ok, Err, MatchResult, IfSome, IfNone, length};
ghost use Rattle.std.specs.Str.{chars, IsUtf8};
ghost use Rattle.scheme_tokens.specs.Mirror.Gaps.{between, line, block, opens, closes, behind_gap};

use crate::character::is_line_end;
use crate::front::split_first;

fn opens(c: char, d: char) -> bool
    ensures { result ≡ opens c d }
{
    c == '#' && d == '|'
}

fn closes(c: char, d: char) -> bool
    ensures { result ≡ closes c d }
{
    c == '|' && d == '#'
}

/// The text behind a line comment.
fn skip_line(text: &str) -> &str
    ensures rest { behind_gap line (chars text.now) ≡ behind_gap between (chars result.now) }
    ensures within { length result.now ≤ length text.now }
{
    let mut rest = text;
    while let Some((c, more)) = split_first(rest) {
        if is_line_end(c) {
            return more;
        }
        rest = more;
    }
    rest
}

/// The text behind a block comment, whose opening mark stands before the text.
fn skip_block(text: &str) -> Option<&str>
    ensures some { IfSome result (λ rest. (start : List ℕ) →
        behind_gap (block start 0) (chars text.now) ≡ behind_gap between (chars rest.now)) }
    ensures none { IfNone result ((start : List ℕ) → behind_gap (block start 0) (chars text.now) ≡ Err start) }
    ensures within { IfSome result (λ rest. length rest.now ≤ length text.now) }
    ensures utf8 { IfSome result (λ rest. IsUtf8 rest.now) }
{
    let mut rest = text;
    let mut outer = 0usize;
    while let Some((c, more)) = split_first(rest) {
        let (d, behind) = split_first(more)?;
        if opens(c, d) {
            outer += 1;
            rest = behind;
        } else if closes(c, d) {
            if outer == 0 {
                return Some(behind);
            }
            outer -= 1;
            rest = behind;
        } else {
            rest = more;
        }
    }
    None
}

/// The text behind the opening mark of a block comment, of which the first character is given.
fn behind_opening(c: char, text: &str) -> Option<&str>
    ensures some { IfSome result (λ body. (d : ℕ) × (chars text.now ≡ d ∷ chars body.now) × (opens c d ≡ true)) }
    ensures none { IfNone result ((d : ℕ) (cs : List ℕ) → chars text.now ≡ d ∷ cs → opens c d ≡ false) }
    ensures within { IfSome result (λ body. length body.now < length text.now) }
    ensures utf8 { IfSome result (λ body. IsUtf8 body.now) }
{
    let (d, body) = split_first(text)?;
    if opens(c, d) { Some(body) } else { None }
}

/// The text behind the gap at its front, or the text from a block comment on that nothing closes.
pub fn skip_gap(text: &str) -> Result<&str, &str>
    ensures gap { MatchResult result
        (λ rest. behind_gap between (chars text.now) ≡ Ok (chars rest.now))
        (λ start. behind_gap between (chars text.now) ≡ Err (chars start.now)) }
    ensures within { MatchResult result (λ rest. length rest.now ≤ length text.now)
        (λ start. length start.now ≤ length text.now) }
    ensures utf8 { MatchResult result (λ rest. IsUtf8 rest.now) (λ start. IsUtf8 start.now) }
{
    let mut rest = text;
    while let Some((c, more)) = split_first(rest) {
        if c.is_whitespace() {
            rest = more;
        } else if c == ';' {
            rest = skip_line(more);
        } else {
            let Some(body) = behind_opening(c, more) else {
                return Ok(rest);
            };
            let Some(behind) = skip_block(body) else {
                return Err(rest);
            };
            rest = behind;
        }
    }
    Ok(rest)
}
