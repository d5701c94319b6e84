//! Words that are numbers.
ghost use Rattle.std.specs.Prelude.{◌≡◌, ◌==◌, ℕ, MatchOption, slice_index};
ghost use Rattle.command_words.specs.Numbers.{IsNumber};

/// The most digits that a number has.
const MAX_DIGITS: usize = 9;

/// The number that a word of one to nine decimal digits writes. `None` exactly where it is no such word.
pub fn number_of(word: &str) -> Option<u32>
    ensures { MatchOption result ((n : ℕ) → ¬ IsNumber word.now n) (IsNumber word.now) }
{
    if word.len() > MAX_DIGITS {
        return None;
    }
    if has_plus(word) {
        return None;
    }
    word.parse::<u32>().ok()
}

/// Whether a word begins with `+`, which `parse` would pass over.
fn has_plus(word: &str) -> bool
    ensures { result ≡ (slice_index word.now 0 == 43) }
{
    matches!(word.as_bytes(), [b'+', ..])
}
