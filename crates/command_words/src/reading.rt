//! Which command words ask for. The first word names it, and the positional words behind it are read by `clap`.
ghost use Rattle.std.specs.Prelude.{◌≡◌, ◌<◌, ◌≤◌, ◌↔◌, [], ◌∷◌, IfOk, IsTrue, MatchOption, codes, drop, length};
ghost use Rattle.ls_base.specs.declared.places.Pos.{Pos as Position};
ghost use Rattle.command_words.specs.Numbers.{IsNumber};
ghost use Rattle.command_words.specs.ClapWords.{seen};
ghost use Rattle.command_words.specs.Commands.{AsksBy, CommandOf, IsServeAhead, Picks, PositionalOf};
ghost use Rattle.command_words.specs.Words.{texts};

use crate::clap_words::{FourWords, four_words, is_alone, one_word, some_words};
use crate::command::Command;
use crate::different::different;
use crate::numbers::number_of;
use crate::positionals::positional_words;
use ls_base::{Items, Mem, Pos, Text};
use std::alloc::Global;

/// The most libraries of `selfrun`.
const MAX_LIBRARIES: u32 = 60;

/// The command that the words ask for.
pub fn command_of(alloc: Global, words: &[String]) -> Mem<Command>
    ensures { IfOk result (CommandOf (texts words.now)) }
{
    if is_ahead(words) {
        return Ok(Command::ServeAhead);
    }
    let command = positional_command(alloc, words)?;
    Ok(command)
}

/// Whether the words are `serve --ahead`.
fn is_ahead(words: &[String]) -> bool
    ensures { IsTrue result ↔ IsServeAhead (texts words.now) }
{
    match words {
        [first, second] => first.as_str() == "serve" && second.as_str() == "--ahead",
        [] | [_] | [_, _, _, ..] => false,
    }
}

/// The command of positional words that the words ask for.
fn positional_command(alloc: Global, words: &[String]) -> Mem<Command>
    ensures { IfOk result (PositionalOf (texts words.now)) }
{
    match words {
        [] => Ok(Command::Unknown),
        [first, ..] => {
            let command = command_behind(alloc, first.as_str(), rest_of(words))?;
            Ok(command)
        }
    }
}

/// The words behind the first.
fn rest_of(words: &[String]) -> &[String]
    ensures { result.now ≡ drop 1 words.now }
{
    match words {
        [] => &[],
        [_, rest @ ..] => rest,
    }
}

/// The command that a first word and the words behind it ask for.
fn command_behind(alloc: Global, first: &str, rest: &[String]) -> Mem<Command>
    ensures { IfOk result (PositionalOf (first.now ∷ texts rest.now)) }
{
    let words = positional_words(alloc, rest)?;
    match words {
        Some(words) => {
            let command = command_by(alloc, first, words.as_slice())?;
            Ok(command)
        }
        None => Ok(Command::Unknown),
    }
}

/// The command that a first word asks for with the positional words behind it.
fn command_by(alloc: Global, first: &str, words: &[&str]) -> Mem<Command>
    ensures { IfOk result (Picks (AsksBy first.now (seen words.now))) }
{
    if first == "arrows" {
        Ok(arrows(alloc, words)?)
    } else if first == "serve" {
        Ok(serve(alloc, words)?)
    } else if first == "replay" {
        Ok(replay(alloc, words)?)
    } else if first == "check" {
        Ok(check(alloc, words)?)
    } else if first == "rename" {
        Ok(rename(alloc, words)?)
    } else if first == "selfrun" {
        Ok(selfrun(alloc, words)?)
    } else {
        Ok(Command::Unknown)
    }
}

/// `arrows`, which has no words.
fn arrows(alloc: Global, words: &[&str]) -> Mem<Command>
    ensures { IfOk result (Picks (AsksBy (codes "arrows") (seen words.now))) }
{
    let alone = is_alone(alloc, "arrows", words)?;
    if alone {
        Ok(Command::Arrows)
    } else {
        Ok(Command::Unknown)
    }
}

/// `serve`, which has no words.
fn serve(alloc: Global, words: &[&str]) -> Mem<Command>
    ensures { IfOk result (Picks (AsksBy (codes "serve") (seen words.now))) }
{
    let alone = is_alone(alloc, "serve", words)?;
    if alone {
        Ok(Command::Serve)
    } else {
        Ok(Command::Unknown)
    }
}

/// `replay FILE`.
fn replay(alloc: Global, words: &[&str]) -> Mem<Command>
    ensures { IfOk result (Picks (AsksBy (codes "replay") (seen words.now))) }
{
    let word = one_word(alloc, "replay", words)?;
    match word {
        Some(file) => Ok(Command::Replay { file }),
        None => Ok(Command::Unknown),
    }
}

/// `check FILE...`.
fn check(alloc: Global, words: &[&str]) -> Mem<Command>
    ensures { IfOk result (Picks (AsksBy (codes "check") (seen words.now))) }
{
    let all = some_words(alloc, "check", words)?;
    match all {
        Some(all) => {
            let command = check_of(alloc, &all)?;
            Ok(command)
        }
        None => Ok(Command::Unknown),
    }
}

/// `check` of files, where there are some.
fn check_of(alloc: Global, words: &Items<Text>) -> Mem<Command>
    requires { 0 < length words.now }
    ensures { IfOk result (Picks (AsksBy (codes "check") words.now)) }
{
    let files = different(alloc, words.as_slice())?;
    match files {
        Some(files) => Ok(Command::Check { files }),
        None => Ok(Command::TooManyFiles),
    }
}

/// `rename FILE LINE COL NAME`.
fn rename(alloc: Global, words: &[&str]) -> Mem<Command>
    ensures { IfOk result (Picks (AsksBy (codes "rename") (seen words.now))) }
{
    let four = four_words(alloc, "rename", words)?;
    match four {
        Some(four) => {
            let command = rename_of(four);
            Ok(command)
        }
        None => Ok(Command::Unknown),
    }
}

/// `rename` with four words, of which the second and the third have to be numbers.
fn rename_of(four: FourWords) -> Command
    ensures { Picks (AsksBy (codes "rename") (four.file ∷ four.line ∷ four.column ∷ four.name ∷ [])) result }
{
    let FourWords {
        file,
        line,
        column,
        name,
    } = four;
    match position_of(line.as_str(), column.as_str()) {
        Some(position) => Command::Rename {
            file,
            position,
            name,
        },
        None => Command::Unknown,
    }
}

/// The position that two numbers write. `None` exactly where one of the words is no number.
fn position_of(line: &str, column: &str) -> Option<Pos>
    ensures { MatchOption result
        ((position : Position) → ¬ (IsNumber line.now position.line × IsNumber column.now position.character))
        (λ position. IsNumber line.now position.line × IsNumber column.now position.character) }
{
    match number_of(line) {
        Some(line) => match number_of(column) {
            Some(character) => Some(Pos { line, character }),
            None => None,
        },
        None => None,
    }
}

/// `selfrun N`.
fn selfrun(alloc: Global, words: &[&str]) -> Mem<Command>
    ensures { IfOk result (Picks (AsksBy (codes "selfrun") (seen words.now))) }
{
    let word = one_word(alloc, "selfrun", words)?;
    match word {
        Some(count) => {
            let command = selfrun_of(count.as_str());
            Ok(command)
        }
        None => Ok(Command::Unknown),
    }
}

/// `selfrun` with a word, which has to be a number from 1 to 60.
fn selfrun_of(count: &str) -> Command
    ensures { Picks (AsksBy (codes "selfrun") (count.now ∷ [])) result }
{
    match number_of(count) {
        Some(libraries) => {
            if is_in_range(libraries) {
                Command::Selfrun { libraries }
            } else {
                Command::Unknown
            }
        }
        None => Command::Unknown,
    }
}

/// Whether a workspace may have so many libraries.
fn is_in_range(libraries: u32) -> bool
    ensures { IsTrue result ↔ ((1 ≤ libraries) × (libraries ≤ 60)) }
{
    libraries >= 1 && libraries <= MAX_LIBRARIES
}
