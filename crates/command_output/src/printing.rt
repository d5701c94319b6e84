//! Prints bytes.
ghost use Rattle.command_output.specs.Prints.{PrintingEndsAs, sink_seen};

use ls_outside::{Put, Sink};

/// A write failed.
#[derive(Clone, Copy)]
pub struct SinkFailed;

/// Prints bytes, in as many writes as the sink wants.
pub fn print_all<O: Sink>(output: &mut O, bytes: &[u8]) -> Result<(), SinkFailed>
    ensures { PrintingEndsAs (sink_seen (O.taken output.old) (O.faults output.old) (O.writes output.old))
        (sink_seen (O.taken output.new) (O.faults output.new) (O.writes output.new)) bytes.now result }
{
    let mut at = 0;
    while at < bytes.len() {
        match output.write(&bytes[at..]) {
            Put::Some(count) => at += count,
            Put::Failed => return Err(SinkFailed),
        }
    }
    Ok(())
}
