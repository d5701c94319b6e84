//! What happens to documents, and what is published after it (LSP 3.17, text synchronisation and diagnostics).
ghost use Rattle.std.specs.Prelude.{◌≡◌};
ghost use Rattle.document_changes.specs.RefusedChanges.{keeps};

use document_store::StoreFault;
use ls_base::{Change, Items, Text};
use program_answers::publications::Published;

/// A document is opened, or gets a new version and text; is changed; or is closed.
#[derive(Drop)]
pub enum DocEvent {
    Added {
        uri: Text,
        version: i64,
        text: Text,
    },
    Changed {
        uri: Text,
        version: i64,
        changes: Items<Change>,
    },
    Closed {
        uri: Text,
    },
}

impl DocEvent {
    ghost use Rattle.std.specs.Prelude.{Option};
    ghost use Rattle.std.specs.Option.{option_map};
    ghost use Rattle.document_store.specs.Texts.{Refusal};
    ghost use Rattle.document_changes.specs.Events.{event_of, fault_of, uri_of, leaves, leaves_by};

    /// The document of an event.
    pub fn uri(&self) -> &str
        ensures { result.now ≡ uri_of self.now }
    {
        match self {
            DocEvent::Added { uri, .. } => uri.as_str(),
            DocEvent::Changed { uri, .. } => uri.as_str(),
            DocEvent::Closed { uri } => uri.as_str(),
        }
    }

    /// Whether the event was refused and left the documents as they were.
    pub fn is_left(&self, refused: Option<StoreFault>) -> bool
        ensures { (r : Option Refusal) → refused ≡ option_map fault_of r → result ≡ leaves (event_of self.now) r }
    {
        match refused {
            None => false,
            Some(fault) => self.leaves(fault),
        }
    }

    /// Whether the documents are as they were where the event is refused so: a change that makes a text too long closes it.
    fn leaves(&self, fault: StoreFault) -> bool
        ensures { result ≡ leaves_by (event_of self.now) fault }
    {
        match self {
            DocEvent::Added { .. } => true,
            DocEvent::Changed { .. } => keeps(fault),
            DocEvent::Closed { .. } => true,
        }
    }
}

/// Whether a document is kept whose change is refused so.
fn keeps(fault: StoreFault) -> bool
    ensures { result ≡ keeps fault }
{
    match fault {
        StoreFault::TooLong => false,
        StoreFault::Memory => true,
        StoreFault::NotOpen => true,
        StoreFault::BadRange => true,
        StoreFault::TooMany => true,
    }
}

/// Why an event was refused, if it was, and the lists that are published after it.
#[derive(Drop)]
pub struct Updated {
    pub refused: Option<StoreFault>,
    pub lists: Items<Published>,
}
