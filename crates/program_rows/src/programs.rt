//! Two programs over the same trees.
ghost use Rattle.std.specs.Prelude.{◌≡◌, true, IfOk};
ghost use Rattle.std.specs.Option.{option_map};
ghost use Rattle.std.specs.FinMap.{keys};
ghost use Rattle.program_differences.specs.Both.{AreComparable};

use core_tree::units::Program;
use document_store::{Store, StoreFault};
use ls_base::Steps;
use ls_base::limits::MAX_DOCUMENTS;
use program_expansion::program::read_program;
use row_values::argument::{item, list, made, made_bytes, text};
use row_values::fault::{Row, RowFault};
use serde_json::Value;
use std::alloc::Global;
use std::sync::ledger::Ledger;
use syntax_tree::texts::same_text;
use syntax_tree::trees::Work;
use unit_results::collecting::Reading;

/// Two programs of documents with the same uris, and the trees and names that both are over.
#[derive(Drop)]
pub struct Programs {
    pub work: Work,
    pub old: Program,
    pub new: Program,
}

/// Adds a document, `[URI, TEXT]`.
fn add(alloc: Global, store: &mut Store, value: &Value) -> Row<()> {
    let bytes = made_bytes(alloc, item(value, 1)?)?;
    match store.add(text(item(value, 0)?)?, 1, made(&bytes)?) {
        Ok(()) => Ok(()),
        Err(StoreFault::Memory) => Err(RowFault::Memory),
        Err(StoreFault::TooLong) => Err(RowFault::TooLong),
        Err(StoreFault::NotOpen | StoreFault::BadRange | StoreFault::TooMany) => Err(
            RowFault::BadArgument,
        ),
    }
}

/// Documents, `[[URI, TEXT], ..]`.
pub fn documents(alloc: Global, values: &Value) -> Row<Store> {
    let mut store = Store::new(alloc);
    for value in list(values)? {
        add(alloc, &mut store, value)?;
    }
    Ok(store)
}

/// Whether two uris that may be missing are the same.
fn is_same_uri(one: Option<&str>, other: Option<&str>) -> bool
    ensures { result ≡ true → option_map (λ uri. uri.now) one.entry ≡ option_map (λ uri. uri.now) other.entry }
{
    match (one, other) {
        (Some(one), Some(other)) => same_text(one, other),
        (None, None) => true,
        (Some(_), None) => false,
        (None, Some(_)) => false,
    }
}

/// Whether two stores have documents with the same uris.
fn have_same_uris(one: &Store, other: &Store) -> bool
    ensures { result ≡ true → keys one.now ≡ keys other.now }
{
    for n in 0..MAX_DOCUMENTS as u32 {
        if !is_same_uri(one.doc(n), other.doc(n)) {
            return false;
        }
    }
    true
}

/// The programs of documents.
pub fn read_both<L: Ledger>(
    alloc: Global,
    old: &Store,
    new: &Store,
    steps: &mut Steps<L>,
) -> Row<Programs>
    ensures { IfOk result (λ both. AreComparable both.work both.old both.new) }
{
    if !have_same_uris(old, new) {
        return Err(RowFault::BadArgument);
    }
    let mut work = Work::new(alloc);
    let before = read_program(alloc, old, &mut work, steps)?;
    let Reading { program: old, .. } = before;
    let after = read_program(alloc, new, &mut work, steps)?;
    let Reading { program: new, .. } = after;
    Ok(Programs { work, old, new })
}
