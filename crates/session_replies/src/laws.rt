//! What follows from the definitions alone.
ghost use Rattle.std.specs.Prelude.{◌≡◌, ◌≢◌, ℕ, List, Err};
ghost use Rattle.lsp_messages.specs.declared.message.Reject.TheVariants as rejects;
ghost use Rattle.lsp_messages.specs.Messages.{message_of};
ghost use Rattle.document_store.specs.Texts as store;
ghost use Rattle.scheme_model.specs.Texts as texts;
ghost use Rattle.session_replies.specs.FromWire.{encoding_of, offsets};
ghost use Rattle.ls_base.specs.declared.answers.Answer.{Answer};
ghost use Rattle.lsp_messages.specs.declared.reply.Reply.{Reply};
ghost use Rattle.scheme_model.specs.Session as session;
ghost use Rattle.session_replies.specs.ToWire.{AreReplies};
ghost use Rattle.program_answers.specs.declared.publications.Published.{Published};
ghost use Rattle.session_replies.specs.Asked.{Question, IsAnswerTo, ArePublishedFor};
ghost use Rattle.session_replies.specs.Agreement.{said_event, said_after};
ghost use Rattle.session_replies.specs.Counted.{AreCounted};

/// Events make the same of the texts by the store's definition as by a session's, in each encoding.
pub fn events_agree()
    ensures { (encoding : texts.Encoding) (old : texts.Texts) (event : store.Event)
        → texts.after offsets encoding old (said_event event)
        ≡ said_after (store.after (encoding_of encoding) old event) }
{}

/// No body is refused for want of memory by the definition of what it says.
pub fn no_body_wants_memory()
    ensures { (body : List ℕ) → message_of body ≢ Err rejects.Memory }
{}

/// Replies have one count of macro uses at most, and so has the program that texts are.
pub fn one_count()
    ensures { (replies : List (session.Reply Question)) (from one other : ℕ) →
        AreCounted replies from one → AreCounted replies from other → one ≡ other }
{}

/// A question has one answer at most, and one row of lists that are published for it; and a reply of a session has one row of
/// messages at most.
pub fn one_answer()
    ensures answer { (question : Question) (one other : Answer) →
        IsAnswerTo question one → IsAnswerTo question other → one ≡ other }
    ensures lists { (question : Question) (some others : List Published) →
        ArePublishedFor question some → ArePublishedFor question others → some ≡ others }
    ensures replies { (replies : List (session.Reply Question)) (ones others : List Reply) →
        AreReplies replies ones → AreReplies replies others → ones ≡ others }
{}
