//! The positional words: `--` ends the options, and there are no options.
ghost use Rattle.std.specs.Prelude.{◌≡◌, ◌++◌, IfOk, MatchOption, OnOk, false, true};
ghost use Rattle.std.specs.List.{after_first, before_first, list_any, position};
ghost use Rattle.std.specs.String.{string_bytes};
ghost use Rattle.command_words.specs.ClapWords.{seen};
ghost use Rattle.command_words.specs.Words as spec;
ghost use Rattle.command_words.specs.Words.{are_taken, is_dashes, is_empty, texts};

use ls_base::{Mem, Memory};
use std::alloc::Global;

/// The word that ends the options.
const DASHES: &str = "--";

/// The positional words. `None` exactly where a word isn't taken: one before the first `--` that begins with `-` and has more
/// characters, or one without characters.
pub fn positional_words<'a>(alloc: Global, words: &'a [String]) -> Mem<Option<Vec<&'a str>>>
    ensures { IfOk result (λ r. MatchOption r (are_taken (texts words.now) ≡ false)
        (λ all. (are_taken (texts words.now) ≡ true) × (seen all.items ≡ spec.positional_words (texts words.now)))) }
{
    let (front, back) = parts(words);
    if has_option(front) {
        return Ok(None);
    }
    if has_empty(words) {
        return Ok(None);
    }
    let mut all = Vec::new(alloc);
    push_words(&mut all, front)?;
    push_words(&mut all, back)?;
    Ok(Some(all))
}

/// The words before the first `--`, which are all where there is none, and those behind it.
fn parts(words: &[String]) -> (&[String], &[String])
    ensures front { texts result.0.now ≡ before_first is_dashes (texts words.now) }
    ensures back { texts result.1.now ≡ after_first is_dashes (texts words.now) }
{
    match dashes_at(words) {
        Some(at) => (&words[..at], &words[at + 1..]),
        None => (words, &[]),
    }
}

/// Where the first `--` stands.
fn dashes_at(words: &[String]) -> Option<usize>
    ensures { result ≡ position (λ word. is_dashes (string_bytes word)) words.now }
{
    words.iter().position(|word| word.as_str() == DASHES)
}

/// Whether a word begins with `-` and has more characters.
fn has_option(words: &[String]) -> bool
    ensures { result ≡ list_any (λ word. spec.is_option (string_bytes word)) words.now }
{
    words.iter().any(|word| is_option(word.as_str()))
}

/// Whether a word has no characters.
fn has_empty(words: &[String]) -> bool
    ensures { result ≡ list_any (λ word. is_empty (string_bytes word)) words.now }
{
    words.iter().any(|word| word.as_str().is_empty())
}

/// Whether a word begins with `-` and has more characters.
fn is_option(word: &str) -> bool
    ensures { result ≡ spec.is_option word.now }
{
    matches!(word.as_bytes(), [b'-', _, ..])
}

/// Adds words.
fn push_words<'a>(all: &mut Vec<&'a str>, words: &'a [String]) -> Mem<()>
    ensures { OnOk result (seen all.new.items ≡ seen all.old.items ++ texts words.now) }
{
    for word in words {
        all.push(word.as_str())?;
    }
    Ok(())
}
