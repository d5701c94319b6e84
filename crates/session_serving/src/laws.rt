//! Laws of what a session writes, each the contract of a function that does nothing.
ghost use Rattle.std.specs.Prelude.{◌≡◌, ◌≢◌, ◌++◌, List, ℕ};
ghost use Rattle.lsp_messages.specs.declared.reply.Reply.{Reply};
ghost use Rattle.session_serving.specs.SessionOutput.{BeginOutput, IsOutputOf, Output, written};
ghost use Rattle.session_serving.specs.ServeOutcome.{ServeEndsAs};
ghost use Rattle.command_output.specs.Streams.{Streams};
ghost use Rattle.session_serving.specs.declared.answering.Exit.{Exit};
ghost use Rattle.session_serving.specs.declared.serve.SessionEnd.{SessionEnd};

/// A stream of bytes has one output: each has one, and none has two. Messages that begin it are a front of what is written.
pub fn one_output()
    ensures some { (bytes : List ℕ) → (output : Output) × IsOutputOf bytes output }
    ensures only { (bytes : List ℕ) (one other : Output) → IsOutputOf bytes one → IsOutputOf bytes other → one ≡ other }
    ensures front { (bytes : List ℕ) (messages : List Reply) (output : Output) → BeginOutput bytes messages
        → IsOutputOf bytes output → (rest : List Reply) × (written output ≡ messages ++ rest) }
{}

/// A session that `exit` ends has read something, also from a source that doesn't tell what it gives.
pub fn exit_is_read()
    ensures { (old new : Streams) (exit : Exit) → ServeEndsAs old new (SessionEnd.Exited exit) → new.source.reads ≢ old.source.reads }
{}
