//! Laws of what is written in answer to pieces, each the contract of a function that does nothing.
ghost use Rattle.std.specs.Prelude.{◌≡◌, ◌++◌, List, ℕ};
ghost use Rattle.lookahead.specs.declared.looking.Looking.{Looking};
ghost use Rattle.lookahead.specs.declared.looking.Looking.TheVariants.{OneByOne};
ghost use Rattle.lsp_messages.specs.declared.reply.Reply.{Reply};
ghost use Rattle.ls_outside.specs.Sources.{bytes_of};
ghost use Rattle.session_serving.specs.AheadOutput.{BeginBy, IsOutputBy};
ghost use Rattle.session_serving.specs.SessionOutput.{IsOutputOf, Output, written};

/// Pieces have one output, looked at ahead or not: they have one, and don't have two. Messages that begin it are a front of what is written.
pub fn one_output_of_pieces()
    ensures some { (looking : Looking) (pieces : List (List ℕ)) → (output : Output) × IsOutputBy looking pieces output }
    ensures only { (looking : Looking) (pieces : List (List ℕ)) (one other : Output) → IsOutputBy looking pieces one → IsOutputBy looking pieces other
        → one ≡ other }
    ensures front { (looking : Looking) (pieces : List (List ℕ)) (messages : List Reply) (output : Output) → BeginBy looking pieces messages
        → IsOutputBy looking pieces output → (rest : List Reply) × (written output ≡ messages ++ rest) }
{}

/// Where nothing is looked at ahead, how the stream is cut doesn't matter.
pub fn output_of_bytes()
    ensures { (pieces : List (List ℕ)) (output : Output) → IsOutputBy OneByOne pieces output → IsOutputOf (bytes_of pieces) output }
{}
