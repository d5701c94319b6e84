//! A session: what the server keeps, and what it does with each message (LSP 3.17, "Lifecycle Messages").
ghost use Rattle.std.specs.Prelude.{◌≡◌, ◌≢◌, false, IfOk, OnOk, OnErr};
ghost use Rattle.std.specs.FinMap.{empty};
ghost use Rattle.std.specs.Option.{option_map};
ghost use Rattle.lookahead.specs.Ahead.{cancelled_step, step_ahead};
ghost use Rattle.scheme_model.specs.Session.{begin, evented, step};
ghost use Rattle.scheme_model.specs.Session as spec;
ghost use Rattle.document_changes.specs.Events.{event_of};
ghost use Rattle.session_replies.specs.Agreement.{said_event};
ghost use Rattle.session_replies.specs.Asked.{questions};
ghost use Rattle.lsp_messages.specs.Messages.{message_of};
ghost use Rattle.session_replies.specs.Counted.{AreCounted};
ghost use Rattle.session_replies.specs.FromWire.{offsets, said_by, said_id, said_call, said_note, said_message, said_reject};
ghost use Rattle.session_replies.specs.States.{is_running};
ghost use Rattle.session_replies.specs.Stepped.{IsOutcome, IsStep, IsQuiet, expands, is_event, is_rename};

use crate::events::on_event;
use crate::renames::on_rename;
use ls_base::{Answer, Mem, Memory, Query, Steps, Text};
use lsp_messages::{At, Call, Id, Message, Note, Reject, read_message};
use session_replies::out::{ended, silent};
use session_replies::replies::{
    answered, capabilities, invalid_params, invalid_request, logged, method_not_found,
    not_initialized, parse_error, request_cancelled,
};
use session_replies::wording::BAD_PARAMS;
use session_replies::{Mode, Out};
use std::alloc::Global;
use std::marker::Model;
use std::sync::ledger::Ledger;
use workspace_state::{DocEvent, Workspace};

/// A session: its mode, and the open documents, which know what positions count in. Contracts see it as the state of a session.
/// Before `initialize` no document is open.
#[derive(Drop)]
pub struct Session {
    mode: Mode,
    workspace: Workspace,
    alloc: Global,
}

impl Model for Session {
    ghost use Rattle.scheme_model.specs.Session.{State};
    ghost use Rattle.session_replies.specs.States.{coded_state, state_of, IsBegun};

    ghost Value = { State };

    ghost coded = { coded_state };

    ghost view = { λ s. state_of s.mode s.workspace.encoding s.workspace.texts };

    ghost invariant = { λ s. IsBegun s.mode s.workspace.texts };
}

impl Session {
    /// A session before its first message, without documents.
    pub fn new(alloc: Global) -> Mem<Session>
        ensures { IfOk result (λ session. session ≡ begin empty) }
    {
        Ok(Session {
            mode: Mode::Fresh,
            workspace: Workspace::new(alloc)?,
            alloc,
        })
    }

    /// Whether the mode is running. It takes no memory.
    pub fn running(&self) -> bool
        ensures { result ≡ is_running self.now.mode }
    {
        matches!(self.mode, Mode::Running)
    }

    /// Takes the body of a message that is cancelled by its id, or isn't cancelled. While running a cancelled request is answered with the error
    /// RequestCancelled and does nothing else. Where memory runs out nothing has changed.
    pub fn on_ahead<L: Ledger>(
        &mut self,
        body: &[u8],
        cancelled: Option<Id>,
        steps: &mut Steps<L>,
    ) -> Mem<Out>
        ensures step { IfOk result (λ out. IsOutcome
            (step_ahead offsets questions self.old (said_by (message_of body.now)) (option_map said_id cancelled)) out self.new) }
        ensures kept { OnErr result (self.new ≡ self.old) }
        ensures steps { IsQuiet body.now → steps.new ≡ steps.old }
        ensures counted { OnOk result (AreCounted
            (step_ahead offsets questions self.old (said_by (message_of body.now)) (option_map said_id cancelled)).replies steps.old steps.new) }
    {
        match cancelled {
            Some(id) => self.on_cancelled(body, id, steps),
            None => self.on_body(body, steps),
        }
    }

    /// A request that is cancelled.
    fn on_cancelled<L: Ledger>(&mut self, body: &[u8], id: Id, steps: &mut Steps<L>) -> Mem<Out>
        ensures step { IfOk result (λ out. IsOutcome
            (cancelled_step self.old.mode self.old (said_id id) (step offsets questions self.old (said_by (message_of body.now)))) out self.new) }
        ensures kept { OnErr result (self.new ≡ self.old) }
        ensures steps { IsQuiet body.now → steps.new ≡ steps.old }
        ensures counted { OnOk result (AreCounted
            (cancelled_step self.old.mode self.old (said_id id) (step offsets questions self.old (said_by (message_of body.now)))).replies steps.old steps.new) }
    {
        if self.running() {
            request_cancelled(self.alloc, id)
        } else {
            self.on_body(body, steps)
        }
    }

    /// Takes the body of a message. Its shape is judged first, then the mode, then the method, then the parameters.
    /// Each macro use that the definition counts is a step: those of the texts after an event that changes them, those of the texts that
    /// a rename would leave, and no others. Where memory runs out nothing has changed.
    pub fn on_body<L: Ledger>(&mut self, body: &[u8], steps: &mut Steps<L>) -> Mem<Out>
        ensures step { IfOk result (λ out. IsStep self.old body.now out self.new) }
        ensures kept { OnErr result (self.new ≡ self.old) }
        ensures steps { IsQuiet body.now → steps.new ≡ steps.old }
        ensures counted { OnOk result (AreCounted (step offsets questions self.old (said_by (message_of body.now))).replies steps.old steps.new) }
    {
        match read_message(self.alloc, body) {
            Ok(message) => self.on_message(message, steps),
            Err(reject) => self.on_reject(reject),
        }
    }

    /// A message.
    fn on_message<L: Ledger>(&mut self, message: Message, steps: &mut Steps<L>) -> Mem<Out>
        ensures step { IfOk result (λ out. IsOutcome
            (step offsets questions self.old (said_message message)) out self.new) }
        ensures kept { OnErr result (self.new ≡ self.old) }
        ensures steps { expands (said_message message) ≡ false → steps.new ≡ steps.old }
        ensures counted { OnOk result (AreCounted (step offsets questions self.old (said_message message)).replies steps.old steps.new) }
    {
        match message {
            Message::Request { id, call } => self.on_request(id, call, steps),
            Message::Notice(note) => self.on_notice(note, steps),
            Message::Response => Ok(silent(self.alloc)),
        }
    }

    /// A body that is no message, or a request that can't be answered. Want of memory is passed on.
    fn on_reject(&self, reject: Reject) -> Mem<Out>
        ensures step { IfOk result (λ out. IsOutcome
            (step offsets questions self.now (said_reject reject)) out self.now) }
        ensures memory { OnOk result (reject ≢ Reject.Memory) }
    {
        match reject {
            Reject::Memory => Err(Memory),
            Reject::Parse => parse_error(self.alloc),
            Reject::Invalid(id) => invalid_request(self.alloc, id),
            Reject::Method(id) => self.on_unknown_method(id),
            Reject::Params(id) => self.on_bad_params(id),
        }
    }

    /// A request of an unknown method.
    fn on_unknown_method(&self, id: Id) -> Mem<Out>
        ensures { IfOk result (λ out. IsOutcome
            (step offsets questions self.now (spec.UnknownMethod (said_id id))) out self.now) }
    {
        match self.mode {
            Mode::Fresh => not_initialized(self.alloc, id),
            Mode::Running => method_not_found(self.alloc, id),
            Mode::Shut => invalid_request(self.alloc, Some(id)),
        }
    }

    /// A request of a known method with bad parameters.
    fn on_bad_params(&self, id: Id) -> Mem<Out>
        ensures { IfOk result (λ out. IsOutcome
            (step offsets questions self.now (spec.BadRequest (said_id id))) out self.now) }
    {
        match self.mode {
            Mode::Fresh => not_initialized(self.alloc, id),
            Mode::Running => invalid_params(self.alloc, id),
            Mode::Shut => invalid_request(self.alloc, Some(id)),
        }
    }

    /// A request.
    fn on_request<L: Ledger>(&mut self, id: Id, call: Call, steps: &mut Steps<L>) -> Mem<Out>
        ensures step { IfOk result (λ out. IsOutcome
            (step offsets questions self.old (spec.Request (said_id id) (said_call call))) out self.new) }
        ensures kept { OnErr result (self.new ≡ self.old) }
        ensures steps { is_rename (said_call call) ≡ false → steps.new ≡ steps.old }
        ensures counted { OnOk result (AreCounted (step offsets questions self.old (spec.Request (said_id id) (said_call call))).replies steps.old steps.new) }
    {
        match self.mode {
            Mode::Fresh => self.on_fresh_call(id, call),
            Mode::Running => self.on_call(id, call, steps),
            Mode::Shut => invalid_request(self.alloc, Some(id)),
        }
    }

    /// A request in the mode fresh: `initialize` leads on, and fixes what positions count in.
    fn on_fresh_call(&mut self, id: Id, call: Call) -> Mem<Out>
        requires { self.old.mode ≡ spec.Fresh }
        ensures step { IfOk result (λ out. IsOutcome
            (spec.called_fresh self.old (said_id id) (said_call call)) out self.new) }
        ensures kept { OnErr result (self.new ≡ self.old) }
    {
        match call {
            Call::Initialize { prepare, encoding } => {
                let out = capabilities(self.alloc, id, prepare, encoding)?;
                self.mode = Mode::Running;
                self.workspace.set_encoding(encoding);
                Ok(out)
            }
            Call::Shutdown | Call::Ask { .. } | Call::Rename { .. } => {
                Ok(not_initialized(self.alloc, id)?)
            }
        }
    }

    /// A request while running.
    fn on_call<L: Ledger>(&mut self, id: Id, call: Call, steps: &mut Steps<L>) -> Mem<Out>
        ensures step { IfOk result (λ out. IsOutcome
            (spec.called questions self.old (said_id id) (said_call call)) out self.new) }
        ensures kept { OnErr result (self.new ≡ self.old) }
        ensures steps { is_rename (said_call call) ≡ false → steps.new ≡ steps.old }
        ensures counted { OnOk result (AreCounted (spec.called questions self.old (said_id id) (said_call call)).replies steps.old steps.new) }
    {
        match call {
            Call::Initialize { .. } => Ok(invalid_request(self.alloc, Some(id))?),
            Call::Shutdown => {
                let out = answered(self.alloc, id, Answer::Nothing)?;
                self.mode = Mode::Shut;
                Ok(out)
            }
            Call::Ask { at, query } => Ok(self.on_question(id, &at, query)?),
            Call::Rename { at, new_name } => Ok(self.on_rename(id, &at, &new_name, steps)?),
        }
    }

    /// A rename while running.
    fn on_rename<L: Ledger>(
        &mut self,
        id: Id,
        at: &At,
        new_name: &Text,
        steps: &mut Steps<L>,
    ) -> Mem<Out>
        ensures step { IfOk result (λ out. IsOutcome
            (spec.called questions self.old (said_id id) (said_call (Call.Rename at.now new_name.now))) out self.new) }
        ensures kept { OnErr result (self.new ≡ self.old) }
        ensures counted { OnOk result (AreCounted (spec.called questions self.old (said_id id) (said_call (Call.Rename at.now new_name.now))).replies steps.old steps.new) }
    {
        Ok(on_rename(self.alloc, &mut self.workspace, id, at, new_name, steps)?)
    }

    /// A question about a document while running.
    fn on_question(&mut self, id: Id, at: &At, query: Query) -> Mem<Out>
        ensures step { IfOk result (λ out. IsOutcome
            (spec.called questions self.old (said_id id) (said_call (Call.Ask at.now query))) out self.new) }
        ensures kept { OnErr result (self.new ≡ self.old) }
    {
        self.workspace.collect()?;
        let answer = self.workspace.answer(&query, at.uri.as_str(), at.pos)?;
        Ok(answered(self.alloc, id, answer)?)
    }

    /// A notification.
    fn on_notice<L: Ledger>(&mut self, note: Note, steps: &mut Steps<L>) -> Mem<Out>
        ensures step { IfOk result (λ out. IsOutcome
            (step offsets questions self.old (spec.Notice (said_note note))) out self.new) }
        ensures kept { OnErr result (self.new ≡ self.old) }
        ensures steps { is_event (said_note note) ≡ false → steps.new ≡ steps.old }
        ensures counted { OnOk result (AreCounted (step offsets questions self.old (spec.Notice (said_note note))).replies steps.old steps.new) }
    {
        match self.mode {
            Mode::Fresh | Mode::Shut => Ok(self.on_dropped(&note)),
            Mode::Running => self.on_note(note, steps),
        }
    }

    /// A notification in another mode than running: all but `exit` are dropped.
    fn on_dropped(&self, note: &Note) -> Out
        ensures { IsOutcome (spec.dropped self.now (said_note note.now)) result self.now }
    {
        match note {
            Note::Exit => ended(self.alloc, self.mode.exit_code()),
            Note::Opened { .. }
            | Note::Changed { .. }
            | Note::Closed { .. }
            | Note::Cancel { .. }
            | Note::BadParams { .. }
            | Note::Other => silent(self.alloc),
        }
    }

    /// A notification while running.
    fn on_note<L: Ledger>(&mut self, note: Note, steps: &mut Steps<L>) -> Mem<Out>
        requires { self.old.mode ≡ spec.Running }
        ensures step { IfOk result (λ out. IsOutcome
            (spec.noticed offsets questions self.old (said_note note)) out self.new) }
        ensures kept { OnErr result (self.new ≡ self.old) }
        ensures steps { is_event (said_note note) ≡ false → steps.new ≡ steps.old }
        ensures counted { OnOk result (AreCounted (spec.noticed offsets questions self.old (said_note note)).replies steps.old steps.new) }
    {
        match note {
            Note::Exit => Ok(ended(self.alloc, self.mode.exit_code())),
            Note::Opened { uri, version, text } => {
                self.on_event(&DocEvent::Added { uri, version, text }, steps)
            }
            Note::Changed {
                uri,
                version,
                changes,
            } => {
                let event = DocEvent::Changed {
                    uri,
                    version,
                    changes,
                };
                self.on_event(&event, steps)
            }
            Note::Closed { uri } => self.on_event(&DocEvent::Closed { uri }, steps),
            Note::BadParams { method } => logged(self.alloc, BAD_PARAMS, method.as_str()),
            Note::Cancel { .. } | Note::Other => Ok(silent(self.alloc)),
        }
    }

    /// A document event while running.
    fn on_event<L: Ledger>(&mut self, event: &DocEvent, steps: &mut Steps<L>) -> Mem<Out>
        requires { self.old.mode ≡ spec.Running }
        ensures step { IfOk result (λ out. IsOutcome
            (evented offsets questions self.old (said_event (event_of event.now))) out self.new) }
        ensures kept { OnErr result (self.new ≡ self.old) }
        ensures counted { OnOk result (AreCounted (evented offsets questions self.old (said_event (event_of event.now))).replies steps.old steps.new) }
    {
        Ok(on_event(self.alloc, &mut self.workspace, event, steps)?)
    }
}
