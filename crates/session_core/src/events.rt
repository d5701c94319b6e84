//! Documents are opened, changed and closed; refusals are logged, and diagnostics published (LSP 3.17, text synchronisation).
ghost use Rattle.std.specs.Prelude.{◌≡◌, ◌+◌, ◌≤◌, ◌++◌, ◌∷◌, [], length, map, vec_len, vec_capacity, None, IfOk, OnOk, OnErr};
ghost use Rattle.ls_base.specs.Limits.{max_documents};
ghost use Rattle.document_changes.specs.Events.{event_of};
ghost use Rattle.scheme_model.specs.Session.{evented};
ghost use Rattle.session_replies.specs.Agreement.{said_event};
ghost use Rattle.session_replies.specs.Asked.{questions};
ghost use Rattle.session_replies.specs.Counted.{AreCounted};
ghost use Rattle.session_replies.specs.Events.{IsEvented, LogsFault};
ghost use Rattle.session_replies.specs.FromWire.{offsets};
ghost use Rattle.session_replies.specs.States.{state_of};
ghost use Rattle.session_replies.specs.declared.mode.Mode.{Mode};
ghost use Rattle.session_replies.specs.ToWire.{sent_list};

use document_store::StoreFault;
use ls_base::limits::MAX_DOCUMENTS;
use ls_base::{Items, Mem, Memory, Steps};
use lsp_messages::Reply;
use session_replies::Out;
use session_replies::out::said;
use session_replies::replies::log;
use session_replies::wording::{BAD_RANGE, NOT_OPEN, TOO_LONG, TOO_MANY};
use std::alloc::Global;
use std::sync::ledger::Ledger;
use workspace_state::{DocEvent, Published, Updated, Workspace};

/// The most messages after an event: the log of its refusal, the list of its document, and one for each open document.
const MAX_MESSAGES: usize = MAX_DOCUMENTS + 2;

/// Takes an event in. Where memory runs out the texts are as before: the messages have their room before the event changes
/// anything, and so has the log of the one refusal that does.
pub fn on_event<L: Ledger>(
    alloc: Global,
    workspace: &mut Workspace,
    event: &DocEvent,
    steps: &mut Steps<L>,
) -> Mem<Out>
    ensures event { IfOk result (λ out. IsEvented workspace.old.encoding workspace.old.texts (event_of event.now) out workspace.new.texts) }
    ensures encoding { workspace.new.encoding ≡ workspace.old.encoding }
    ensures kept { OnErr result (workspace.new ≡ workspace.old) }
    ensures counted { (mode : Mode) → OnOk result (AreCounted (evented offsets questions (state_of mode workspace.old.encoding workspace.old.texts) (said_event (event_of event.now))).replies steps.old steps.new) }
{
    let mut messages = room(alloc, event.uri())?;
    let updated = workspace.update(event, steps)?;
    let Updated { refused, lists } = updated;
    match refused {
        None => {
            messages.clear();
            Ok(published(messages, lists))
        }
        Some(StoreFault::TooLong) => Ok(published(messages, lists)),
        Some(fault) => Ok(said(alloc, refusal(alloc, fault, event.uri())?)?),
    }
}

/// Room for all messages of an event, with the log of the one refusal that changes the texts.
fn room(alloc: Global, uri: &str) -> Mem<Vec<Reply>>
    ensures log { IfOk result (λ messages. (log : Reply) × LogsFault StoreFault.TooLong uri.now log × (messages.items ≡ log ∷ [])) }
    ensures room { IfOk result (λ messages. max_documents + 2 ≤ vec_capacity messages) }
{
    let log = refusal(alloc, StoreFault::TooLong, uri)?;
    let mut messages = Vec::with_capacity(alloc, MAX_MESSAGES)?;
    messages.push_reserved(log);
    Ok(messages)
}

/// Messages, and lists behind them, for which there is room.
fn published(mut messages: Vec<Reply>, lists: Items<Published>) -> Out
    requires { vec_len messages + length lists ≤ vec_capacity messages }
    ensures replies { result.replies ≡ messages.items ++ map sent_list lists }
    ensures end { result.end ≡ None }
{
    for list in lists.into_vec() {
        let Published { uri, version, list } = list;
        messages.push_reserved(Reply::Publish { uri, version, list });
    }
    Out {
        replies: Items::from_vec(messages),
        end: None,
    }
}

/// The log of a refusal.
fn refusal(alloc: Global, fault: StoreFault, uri: &str) -> Mem<Reply>
    ensures { IfOk result (LogsFault fault uri.now) }
{
    match fault {
        StoreFault::Memory => Err(Memory),
        StoreFault::NotOpen => Ok(log(alloc, NOT_OPEN, uri)?),
        StoreFault::BadRange => Ok(log(alloc, BAD_RANGE, uri)?),
        StoreFault::TooLong => Ok(log(alloc, TOO_LONG, uri)?),
        StoreFault::TooMany => Ok(log(alloc, TOO_MANY, uri)?),
    }
}
