//! Words, each once.
ghost use Rattle.std.specs.Prelude.{◌≡◌, ◌<◌, ◌≤◌, IfOk, MatchBool, MatchOption, length};
ghost use Rattle.ls_base.specs.Limits.{max_documents};
ghost use Rattle.command_words.specs.Different as spec;
ghost use Rattle.command_words.specs.Different.{with_word};

use ls_base::limits::MAX_DOCUMENTS;
use ls_base::{Items, Mem, Text};
use std::alloc::Global;

/// The different ones of the words, each where it stands first. `None` exactly where there are more than 64.
pub fn different(alloc: Global, words: &[Text]) -> Mem<Option<Items<Text>>>
    ensures { IfOk result (λ all. MatchOption all (max_documents < length (spec.different words.now))
        (λ all. (all ≡ spec.different words.now) × (length all ≤ max_documents))) }
{
    let mut all = Items::new(alloc);
    for word in words {
        let full = add(&mut all, word)?;
        if full {
            return Ok(None);
        }
    }
    Ok(Some(all))
}

/// Adds a word, unless it is there. `true` exactly where there is no room for it.
fn add(all: &mut Items<Text>, word: &Text) -> Mem<bool>
    requires { length all.old ≤ max_documents }
    ensures { IfOk result (λ full. MatchBool full (max_documents < length (with_word all.old word.now))
        ((all.new ≡ with_word all.old word.now) × (length all.new ≤ max_documents))) }
{
    if all.as_slice().contains(word) {
        return Ok(false);
    }
    if all.as_slice().len() == MAX_DOCUMENTS {
        return Ok(true);
    }
    let copy = word.clone()?;
    all.push(copy)?;
    Ok(false)
}
