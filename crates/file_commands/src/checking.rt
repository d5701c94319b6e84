//! The diagnostics of files, which are the open documents (LSP 3.17, Diagnostic).
ghost use Rattle.std.specs.Prelude.{◌≡◌, ◌<◌, ◌≤◌, ◌+◌, List, [], ◌∷◌, length, IfOk, OnOk};
ghost use Rattle.std.specs.List.{AllByRecursion, fold, zip};
ghost use Rattle.std.specs.Cmp.Lexicographic.{slice_cmp};
ghost use Rattle.std.specs.FinMap.{entries, len, put};
ghost use Rattle.std.specs.Ordering.{nat_cmp};
ghost use Rattle.ls_base.specs.Limits.{max_documents, max_text};
ghost use Rattle.ls_base.specs.declared.encoding.Encoding.TheVariants.{Utf16};
ghost use Rattle.command_lines.specs.Diagnostics as diagnostics;
ghost use Rattle.read_documents.specs.Readings.{Read, AreReadAs, uses_in};
ghost use Rattle.program_answers.specs.Updates.{AreListsOf, entries_shown};
ghost use Rattle.file_commands.specs.Checking.{checked_in, bytes_in, open_file, opened, printed, with_file};

use command_lines::{diagnostic_lines, has_error, not_utf8};
use document_store::{Store, StoreFault};
use ls_base::{Encoding, Items, Mem, Memory, Steps, Text};
use program_answers::lists::{Lists, lists};
use program_answers::open::Open;
use program_expansion::program::read_program;
use std::alloc::Global;
use std::sync::ledger::Ledger;
use syntax_tree::trees::Work;
use unit_results::collecting::Reading;

/// The version of a document that no client has opened.
const VERSION: i64 = 0;

/// What is printed of files, and whether an Error is.
#[derive(Drop)]
pub struct Checked {
    pub lines: Text,
    pub has_error: bool,
}

/// The diagnostics of all files that hold these contents, sorted by name: the program of those that are UTF-8 is expanded once, and of
/// each other it is said that it isn't UTF-8. Positions are in UTF-16.
pub fn check_files<L: Ledger>(
    alloc: Global,
    names: &[Text],
    contents: &[Vec<u8>],
    steps: &mut Steps<L>,
) -> Mem<Checked>
    requires each { length contents.now ≡ length names.now }
    requires few { length names.now ≤ max_documents }
    requires short { AllByRecursion (λ content. length content ≤ max_text) (bytes_in contents.now) }
    ensures checked { (rs : List Read) → AreReadAs (entries (opened names.now (bytes_in contents.now))) rs →
        IfOk result (λ checked. checked ≡ checked_in rs names.now (bytes_in contents.now)) }
    // Each macro use that the definition counts for the texts is a step, once.
    ensures steps { (rs : List Read) → AreReadAs (entries (opened names.now (bytes_in contents.now))) rs → OnOk result (steps.new ≡ steps.old + uses_in rs) }
{
    let store = open_files(alloc, names, contents)?;
    let mut lists = listed(alloc, store, steps)?;
    add_unopened(alloc, &mut lists, names, contents)?;
    Ok(printed(alloc, &lists)?)
}

/// The documents of the files that are UTF-8.
fn open_files(alloc: Global, names: &[Text], contents: &[Vec<u8>]) -> Mem<Store>
    requires few { length names.now ≤ max_documents }
    requires short { AllByRecursion (λ content. length content ≤ max_text) (bytes_in contents.now) }
    ensures { IfOk result (λ store. store ≡ opened names.now (bytes_in contents.now)) }
{
    let mut store = Store::new(alloc);
    for (name, content) in names.iter().zip(contents.iter()) {
        open_file(&mut store, name, content.as_slice())?;
    }
    Ok(store)
}

/// Opens the document of a file, if it is UTF-8. There is room for it, and its text is short enough.
fn open_file(store: &mut Store, name: &Text, content: &[u8]) -> Mem<()>
    requires room { len store.old < max_documents }
    requires short { length content.now ≤ max_text }
    ensures { OnOk result (store.new ≡ open_file store.old (name.now, content.now)) }
{
    let Ok(text) = str::from_utf8(content) else {
        return Ok(());
    };
    match store.add(name.as_str(), VERSION, text) {
        Ok(()) => Ok(()),
        Err(StoreFault::Memory) => Err(Memory),
        Err(
            StoreFault::NotOpen | StoreFault::BadRange | StoreFault::TooLong | StoreFault::TooMany,
        ) => { unreachable!() }
    }
}

/// The diagnostics of documents, whose program is expanded.
fn listed<L: Ledger>(alloc: Global, store: Store, steps: &mut Steps<L>) -> Mem<Lists>
    ensures listed { (rs : List Read) → AreReadAs (entries store) rs → IfOk result (λ lists. AreListsOf Utf16 store rs (entries_shown lists)) }
    ensures steps { (rs : List Read) → AreReadAs (entries store) rs → OnOk result (steps.new ≡ steps.old + uses_in rs) }
{
    let mut work = Work::new(alloc);
    let reading = read_program(alloc, &store, &mut work, steps)?;
    let Reading {
        documents,
        heads,
        findings,
        errors,
        ..
    } = reading;
    let texts = Open::of(store, documents, heads, errors);
    Ok(lists(alloc, &texts, findings.as_slice(), Encoding::Utf16)?)
}

/// Adds to the lists of documents those of the files that aren't UTF-8.
fn add_unopened(alloc: Global, lists: &mut Lists, names: &[Text], contents: &[Vec<u8>]) -> Mem<()>
    ensures { OnOk result (entries_shown lists.new ≡ fold with_file (entries_shown lists.old) (zip names.now (bytes_in contents.now))) }
{
    for (name, content) in names.iter().zip(contents.iter()) {
        add_file(alloc, lists, name, content.as_slice())?;
    }
    Ok(())
}

/// Adds the list of a file, if it isn't UTF-8.
#[tactic(auto, using(crate::proofs::FileLaws::kept_out, crate::proofs::FileLaws::put_out))]
fn add_file(alloc: Global, lists: &mut Lists, name: &Text, content: &[u8]) -> Mem<()>
    ensures { OnOk result (entries_shown lists.new ≡ with_file (entries_shown lists.old) (name.now, content.now)) }
{
    match str::from_utf8(content) {
        Ok(_) => Ok(()),
        Err(_) => Ok(add_not_utf8(alloc, lists, name)?),
    }
}

/// Adds the list of a file that isn't UTF-8.
#[tactic(auto, using(crate::proofs::FileLaws::put_as))]
fn add_not_utf8(alloc: Global, lists: &mut Lists, name: &Text) -> Mem<()>
    ensures { OnOk result (entries_shown lists.new ≡ put (slice_cmp nat_cmp) name.now (diagnostics.not_utf8 ∷ []) (entries_shown lists.old)) }
{
    let mut list = Items::new(alloc);
    list.push(not_utf8(alloc)?)?;
    lists.insert(String::from_str(alloc, name.as_str())?, list)?;
    Ok(())
}

/// What is printed of lists, in their order.
fn printed(alloc: Global, lists: &Lists) -> Mem<Checked>
    ensures { IfOk result (λ it. it ≡ printed (entries_shown lists.now)) }
{
    let mut text = String::new(alloc);
    let mut error = false;
    for (name, list) in lists.iter() {
        text.push_str(diagnostic_lines(alloc, name.as_str(), list.as_slice())?.as_str())?;
        error |= has_error(list.as_slice());
    }
    Ok(Checked {
        lines: Text::from_string(text),
        has_error: error,
    })
}
