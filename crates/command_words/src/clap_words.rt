//! The words behind a command's word, by `clap`: one simple command of positional arguments for each. All words stand behind `--`,
//! since what may stand before it was judged.
ghost use Rattle.std.specs.Prelude.{◌≡◌, ◌≢◌, ◌↔◌, ◌<◌, [], ◌∷◌, IfOk, IsSome, IsTrue, MatchOption, Some, codes, false, length, true};
ghost use Rattle.clap.specs.Words.{all_of, app_of, found_of, first_of, is_simple_and_free, rows_of, rule_of};
ghost use Rattle.command_words.specs.ClapWords as spec;
ghost use Rattle.command_words.specs.ClapWords.{Finds, HasValue, IsValue, seen};
ghost use Rattle.command_words.specs.FourValues.{AreValues, HasEach, HasFourValues, IsEach};
ghost use Rattle.command_words.specs.Words.{Word};

use clap::error::ErrorKind;
use clap::{Arg, ArgAction, ArgMatches, Command};
use ls_base::{Items, Mem, Memory, Text};
use std::alloc::{AllocError, Global};

/// Whether there are no words.
pub fn is_alone<'a>(alloc: Global, first: &'a str, words: &[&'a str]) -> Mem<bool>
    ensures { IfOk result (λ alone. IsTrue alone ↔ (seen words.now ≡ [])) }
{
    let given = command_line(alloc, first, words)?;
    let found = found(Command::new(alloc, first), given.as_slice())?;
    Ok(found.is_some())
}

/// The word, where there is one and no other.
pub fn one_word<'a>(alloc: Global, first: &'a str, words: &[&'a str]) -> Mem<Option<Text>>
    ensures { IfOk result (λ word. MatchOption word ((w : Word) → seen words.now ≢ w ∷ []) (λ w. seen words.now ≡ w ∷ [])) }
{
    let given = command_line(alloc, first, words)?;
    let command = Command::new(alloc, first).arg(argument(alloc, "word"))?;
    let found = found(command, given.as_slice())?;
    let word = word_found(alloc, &found)?;
    Ok(word)
}

/// The value of the one argument, where the words were taken.
fn word_found(alloc: Global, found: &Option<ArgMatches<'_>>) -> Mem<Option<Text>>
    requires { HasValue (first_of (codes "word")) found.now }
    ensures { IfOk result (IsValue (first_of (codes "word")) found.now) }
{
    match found {
        Some(matches) => {
            let word = value_of(alloc, matches, "word")?;
            Ok(Some(word))
        }
        None => Ok(None),
    }
}

/// The words, where there are some.
pub fn some_words<'a>(alloc: Global, first: &'a str, words: &[&'a str]) -> Mem<Option<Items<Text>>>
    ensures { IfOk result (λ all. MatchOption all (seen words.now ≡ []) (λ all. (all ≡ seen words.now) × (0 < length all))) }
{
    let given = command_line(alloc, first, words)?;
    let argument = argument(alloc, "words").num_args(1..);
    let command = Command::new(alloc, first).arg(argument)?;
    let found = found(command, given.as_slice())?;
    let all = all_found(alloc, &found)?;
    Ok(all)
}

/// The values of the argument that takes several words, where the words were taken.
fn all_found(alloc: Global, found: &Option<ArgMatches<'_>>) -> Mem<Option<Items<Text>>>
    requires { HasValue (all_of (codes "words")) found.now }
    ensures { IfOk result (IsValue (all_of (codes "words")) found.now) }
{
    match found {
        Some(matches) => {
            let all = values_of(alloc, matches)?;
            Ok(Some(all))
        }
        None => Ok(None),
    }
}

/// The words of `rename`.
#[derive(Drop)]
pub struct FourWords {
    pub file: Text,
    pub line: Text,
    pub column: Text,
    pub name: Text,
}

/// The words, where there are four.
pub fn four_words<'a>(alloc: Global, first: &'a str, words: &[&'a str]) -> Mem<Option<FourWords>>
    ensures { IfOk result (λ four. MatchOption four ((a b c d : Word) → seen words.now ≢ a ∷ b ∷ c ∷ d ∷ [])
        (λ w. seen words.now ≡ w.file ∷ w.line ∷ w.column ∷ w.name ∷ [])) }
{
    let given = command_line(alloc, first, words)?;
    let command = Command::new(alloc, first)
        .arg(argument(alloc, "file"))?
        .arg(argument(alloc, "line"))?
        .arg(argument(alloc, "column"))?
        .arg(argument(alloc, "name"))?;
    let found = found(command, given.as_slice())?;
    let four = four_found(alloc, &found)?;
    Ok(four)
}

/// The values of the four arguments, where the words were taken.
fn four_found(alloc: Global, found: &Option<ArgMatches<'_>>) -> Mem<Option<FourWords>>
    requires { HasFourValues found.now }
    ensures { IfOk result (AreValues found.now) }
{
    match found {
        Some(matches) => {
            let four = four_of(alloc, matches)?;
            Ok(Some(four))
        }
        None => Ok(None),
    }
}

/// The values of the four arguments.
fn four_of(alloc: Global, matches: &ArgMatches<'_>) -> Mem<FourWords>
    requires { HasEach (rows_of (found_of matches.now)) }
    ensures { IfOk result (IsEach (rows_of (found_of matches.now))) }
{
    let file = value_of(alloc, matches, "file")?;
    let line = value_of(alloc, matches, "line")?;
    let column = value_of(alloc, matches, "column")?;
    let name = value_of(alloc, matches, "name")?;
    Ok(FourWords {
        file,
        line,
        column,
        name,
    })
}

/// An argument that takes one word, which has to be there.
fn argument<'a>(alloc: Global, id: &'a str) -> Arg<'a>
    ensures { (result.global ≡ false) × (rule_of result ≡ spec.one_word id.now) }
{
    Arg::new(alloc, id).required(true).action(ArgAction::Set)
}

/// The command's word, `--`, and the words.
fn command_line<'a>(
    alloc: Global,
    first: &'a str,
    words: &[&'a str],
) -> Result<Vec<&'a str>, AllocError>
    ensures { IfOk result (λ line. seen line.items ≡ spec.command_line first.now (seen words.now)) }
{
    let mut line = Vec::new(alloc);
    line.push(first)?;
    line.push("--")?;
    line.extend_from_slice(words)?;
    Ok(line)
}

/// What clap finds in the words. `None` exactly where it doesn't take them.
fn found<'a>(command: Command<'a>, line: &'a [&'a str]) -> Mem<Option<ArgMatches<'a>>>
    requires { is_simple_and_free (app_of command) ≡ true }
    ensures { IfOk result (Finds (app_of command.entry) (seen line.now)) }
{
    match command.try_get_matches_from(line) {
        Ok(matches) => Ok(Some(matches)),
        Err(error) => {
            if error.kind() == ErrorKind::OutOfMemory {
                Err(Memory)
            } else {
                Ok(None)
            }
        }
    }
}

/// The value of an argument that has one.
fn value_of(alloc: Global, matches: &ArgMatches<'_>, id: &str) -> Mem<Text>
    requires { IsSome (first_of id.now (rows_of (found_of matches.now))) }
    ensures { IfOk result (λ word. first_of id.now (rows_of (found_of matches.now)) ≡ Some word) }
{
    match matches.get_str(id) {
        Some(word) => {
            let copy = Text::of(alloc, word)?;
            Ok(copy)
        }
        None => unreachable!(),
    }
}

/// The values of the argument that takes several words, which has some.
fn values_of(alloc: Global, matches: &ArgMatches<'_>) -> Mem<Items<Text>>
    requires { IsSome (all_of (codes "words") (rows_of (found_of matches.now))) }
    ensures { IfOk result (λ all. all_of (codes "words") (rows_of (found_of matches.now)) ≡ Some all) }
{
    match matches.get_strs("words") {
        Some(found) => {
            let all = texts_of(alloc, found)?;
            Ok(all)
        }
        None => unreachable!(),
    }
}

/// Copies of words.
fn texts_of(alloc: Global, words: &[&str]) -> Mem<Items<Text>>
    ensures { IfOk result (λ texts. texts ≡ seen words.now) }
{
    let mut texts = Items::new(alloc);
    for word in words {
        let copy = Text::of(alloc, word)?;
        texts.push(copy)?;
    }
    Ok(texts)
}
