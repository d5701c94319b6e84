//! Writes replies, each in its frame.
ghost use Rattle.reply_writing.specs.ReplyFrames.{fault_log, frame_of_reply, frames_of};
ghost use Rattle.reply_writing.specs.Writing.{WritingEndsAs};
ghost use Rattle.command_output.specs.Prints.{sink_seen};

use crate::wording::fault_text;
use command_output::{SinkFailed, print_all};
use ls_base::{Memory, Text};
use ls_outside::Sink;
use lsp_framing::frame;
use lsp_messages::{Reply, reply_bytes};
use std::alloc::{AllocError, Global};

/// Why replies weren't written whole.
#[derive(Clone, Copy)]
pub enum WriteStop {
    /// A write failed.
    Failed,
    /// Memory ran out.
    Memory,
}

impl From<Memory> for WriteStop {
    ghost use Rattle.std.specs.Prelude.{◌≡◌};
    ghost use Rattle.reply_writing.specs.declared.replies.WriteStop.TheVariants as stop;

    ghost from_gives = { λ _ e. e ≡ stop.Memory };

    fn from(_: Memory) -> Self {
        WriteStop::Memory
    }
}

impl From<AllocError> for WriteStop {
    ghost use Rattle.std.specs.Prelude.{◌≡◌};
    ghost use Rattle.reply_writing.specs.declared.replies.WriteStop.TheVariants as stop;

    ghost from_gives = { λ _ e. e ≡ stop.Memory };

    fn from(_: AllocError) -> Self {
        WriteStop::Memory
    }
}

impl From<SinkFailed> for WriteStop {
    ghost use Rattle.std.specs.Prelude.{◌≡◌};
    ghost use Rattle.reply_writing.specs.declared.replies.WriteStop.TheVariants as stop;

    ghost from_gives = { λ _ e. e ≡ stop.Failed };

    fn from(_: SinkFailed) -> Self {
        WriteStop::Failed
    }
}

/// Writes the frame of a reply.
pub fn write_reply<O: Sink>(alloc: Global, reply: &Reply, output: &mut O) -> Result<(), WriteStop>
    ensures { WritingEndsAs (sink_seen (O.taken output.old) (O.faults output.old) (O.writes output.old))
        (sink_seen (O.taken output.new) (O.faults output.new) (O.writes output.new)) (frame_of_reply reply.now) result }
{
    let body = reply_bytes(alloc, reply)?;
    let frame = frame(alloc, &body)?;
    print_all(output, &frame)?;
    Ok(())
}

/// Writes the frames of replies, in their order.
pub fn write_replies<O: Sink>(
    alloc: Global,
    replies: &[Reply],
    output: &mut O,
) -> Result<(), WriteStop>
    ensures { WritingEndsAs (sink_seen (O.taken output.old) (O.faults output.old) (O.writes output.old))
        (sink_seen (O.taken output.new) (O.faults output.new) (O.writes output.new)) (frames_of replies.now) result }
{
    for reply in replies {
        write_reply(alloc, reply, output)?;
    }
    Ok(())
}

/// Writes the last message of a session whose input has a fault of frames, by its number, at an offset: the log of the fault.
pub fn say_farewell<O: Sink>(
    alloc: Global,
    number: u8,
    offset: u64,
    output: &mut O,
) -> Result<(), WriteStop>
    ensures { WritingEndsAs (sink_seen (O.taken output.old) (O.faults output.old) (O.writes output.old))
        (sink_seen (O.taken output.new) (O.faults output.new) (O.writes output.new))
        (frame_of_reply (fault_log number offset)) result }
{
    let text = fault_text(alloc, number, offset)?;
    write_reply(alloc, &Reply::Log(Text::from_string(text)), output)?;
    Ok(())
}
