//! The texts after an event, made beside the texts before it, so that want of memory leaves these (LSP 3.17, text
//! synchronisation).
ghost use Rattle.std.specs.Prelude.{◌≡◌, ◌≤◌, length, slice_get, IfOk, OnOk};
ghost use Rattle.std.specs.Option.{option_map};
ghost use Rattle.std.specs.FinMap.{entries};
ghost use Rattle.ls_base.specs.Limits.{max_documents};
ghost use Rattle.document_store.specs.Texts as texts;
ghost use Rattle.document_store.specs.Faults.{Follows};
ghost use Rattle.document_changes.specs.Events.{event_of, fault_of};
ghost use Rattle.read_documents.specs.Stored.{IsRefusal, CopiesTo};

use crate::events::DocEvent;
use document_store::{Store, StoreFault};
use ls_base::limits::MAX_DOCUMENTS;
use ls_base::{Encoding, Mem, Memory};
use read_documents::opened::{Opened, nth};
use std::alloc::Global;

/// The documents after an event, and why it was refused, if it was.
#[derive(Drop)]
pub struct After {
    pub store: Store,
    pub refused: Option<StoreFault>,
}

/// The documents after an event.
pub fn after_event(alloc: Global, store: &Store, event: &DocEvent, encoding: Encoding) -> Mem<After>
    ensures texts { IfOk result (λ after. after.store ≡ (texts.after encoding store.now (event_of event.now)).0) }
    ensures refused { IfOk result (λ after. after.refused ≡ option_map fault_of (texts.after encoding store.now (event_of event.now)).1) }
{
    let mut store = copy_of(alloc, store)?;
    let refused = refusal(take(&mut store, event, encoding))?;
    Ok(After { store, refused })
}

/// A copy of all documents.
fn copy_of(alloc: Global, store: &Store) -> Mem<Store>
    ensures { IfOk result (λ copy. copy ≡ store.now) }
{
    let mut copy = Store::new(alloc);
    for n in 0..MAX_DOCUMENTS as u32 {
        copy_document(&mut copy, store, n)?;
    }
    Ok(copy)
}

/// Adds the nth document of a store to another, where there is one.
/// Any refusal is answered as want of memory.
fn copy_document(copy: &mut Store, store: &Store, n: u32) -> Mem<()>
    ensures copies { OnOk result (CopiesTo copy.old copy.new (slice_get (entries store.now) n)) }
    ensures few { length (entries store.now) ≤ max_documents }
{
    let Some(Opened { uri, version, text }) = nth(store, n) else {
        return Ok(());
    };
    match copy.add(uri, version, text) {
        Ok(()) => Ok(()),
        Err(_) => Err(Memory),
    }
}

/// Takes an event in.
fn take(store: &mut Store, event: &DocEvent, encoding: Encoding) -> Result<(), StoreFault>
    ensures { Follows result store.old store.new (texts.after encoding store.old (event_of event.now)) }
{
    match event {
        DocEvent::Added { uri, version, text } => {
            Ok(store.add(uri.as_str(), *version, text.as_str())?)
        }
        DocEvent::Changed {
            uri,
            version,
            changes,
        } => Ok(store.change(uri.as_str(), *version, changes.as_slice(), encoding)?),
        DocEvent::Closed { uri } => {
            if store.close(uri.as_str()) {
                return Ok(());
            }
            Err(StoreFault::NotOpen)
        }
    }
}

/// Why a call of the store was refused, unless memory ran out.
fn refusal(done: Result<(), StoreFault>) -> Mem<Option<StoreFault>>
    ensures { IfOk result (IsRefusal done) }
{
    match done {
        Ok(()) => Ok(None),
        Err(StoreFault::Memory) => Err(Memory),
        Err(fault) => Ok(Some(fault)),
    }
}
