//! Answers the bodies of a session.
ghost use Rattle.std.specs.Prelude.{◌≡◌, [], ◌∷◌};
ghost use Rattle.std.specs.List.{AllByRecursion};
ghost use Rattle.session_serving.specs.BodiesOutcome.{BodiesCountAs, BodiesEndAs, IsQuietBody, body_end_of};
ghost use Rattle.command_output.specs.Prints.{sink_seen};
ghost use Rattle.session_serving.specs.SessionEnds.{exit_status};

use command_output::Status;
use lookahead::{Bodies, Next};
use ls_base::{Memory, Steps};
use ls_outside::Sink;
use lsp_messages::Id;
use reply_writing::replies::{WriteStop, write_replies};
use session_core::Session;
use std::alloc::Global;
use std::sync::ledger::Ledger;

/// How `exit` ends a session.
#[derive(Clone, Copy)]
pub enum Exit {
    /// After `shutdown`.
    Clean,
    /// Without `shutdown` before it.
    Early,
}

impl Exit {
    /// The status of a session that ends so.
    pub fn status(self) -> Status
        ensures { result ≡ exit_status self }
    {
        match self {
            Exit::Clean => Status::Done,
            Exit::Early => Status::Refused,
        }
    }
}

/// How answering bodies ends.
#[derive(Clone, Copy)]
pub enum BodiesEnd {
    /// All are answered, and the session goes on.
    Answered,
    /// One of them is an `exit`, and those before it are answered.
    Exited(Exit),
    /// A write failed.
    WriteFailed,
    /// Memory ran out.
    NoMemory,
}

/// How a body that was answered leaves the session, by the status with which it ends the process.
fn body_end(exit: Option<u8>) -> BodiesEnd
    ensures { result ≡ body_end_of exit }
{
    match exit {
        None => BodiesEnd::Answered,
        Some(0) => BodiesEnd::Exited(Exit::Clean),
        Some(_) => BodiesEnd::Exited(Exit::Early),
    }
}

/// Takes a body, which may be cancelled by its id, and writes what answers it.
fn answer_body<O: Sink, L: Ledger>(
    alloc: Global,
    session: &mut Session,
    body: &[u8],
    cancelled: Option<Id>,
    output: &mut O,
    steps: &mut Steps<L>,
) -> BodiesEnd
    ensures answers { BodiesEndAs session.old ((body.now, cancelled) ∷ []) session.new
        (sink_seen (O.taken output.old) (O.faults output.old) (O.writes output.old))
        (sink_seen (O.taken output.new) (O.faults output.new) (O.writes output.new)) result }
    ensures counted { BodiesCountAs session.old ((body.now, cancelled) ∷ [])
        (sink_seen (O.taken output.old) (O.faults output.old) (O.writes output.old))
        (sink_seen (O.taken output.new) (O.faults output.new) (O.writes output.new)) steps.old steps.new result }
    ensures steps { IsQuietBody (body.now, cancelled) → steps.new ≡ steps.old }
{
    let Ok(out) = session.on_ahead(body, cancelled, steps) else {
        return BodiesEnd::NoMemory;
    };
    match write_replies(alloc, out.replies.as_slice(), output) {
        Ok(()) => body_end(out.end),
        Err(WriteStop::Failed) => BodiesEnd::WriteFailed,
        Err(WriteStop::Memory) => BodiesEnd::NoMemory,
    }
}

/// Takes bodies in their order, up to one that ends the session, and writes what answers each before the next.
pub fn answer_bodies<O: Sink, L: Ledger>(
    alloc: Global,
    session: &mut Session,
    mut bodies: Bodies,
    output: &mut O,
    steps: &mut Steps<L>,
) -> BodiesEnd
    ensures answers { BodiesEndAs session.old bodies session.new
        (sink_seen (O.taken output.old) (O.faults output.old) (O.writes output.old))
        (sink_seen (O.taken output.new) (O.faults output.new) (O.writes output.new)) result }
    ensures counted { BodiesCountAs session.old bodies
        (sink_seen (O.taken output.old) (O.faults output.old) (O.writes output.old))
        (sink_seen (O.taken output.new) (O.faults output.new) (O.writes output.new)) steps.old steps.new result }
    ensures steps { AllByRecursion IsQuietBody bodies → steps.new ≡ steps.old }
{
    loop {
        match bodies.next() {
            Ok(Some(Next { body, cancelled })) => {
                match answer_body(alloc, session, &body, cancelled, output, steps) {
                    BodiesEnd::Answered => {}
                    BodiesEnd::Exited(exit) => return BodiesEnd::Exited(exit),
                    BodiesEnd::WriteFailed => return BodiesEnd::WriteFailed,
                    BodiesEnd::NoMemory => return BodiesEnd::NoMemory,
                }
            }
            Ok(None) => return BodiesEnd::Answered,
            Err(Memory) => return BodiesEnd::NoMemory,
        }
    }
}
