//! The frame round a body.
ghost use Rattle.std.specs.Prelude.{◌≡◌, ◌≤◌, length, IfOk};
ghost use Rattle.ls_base.specs.Frames.{max_body, frame_text, IsFrameOf};

use ls_base::Mem;
use std::alloc::Global;

/// The frame round a body, whatever its length. A body past the limit makes a frame that no deframer takes.
pub fn frame(alloc: Global, body: &[u8]) -> Mem<Vec<u8>>
    ensures written { IfOk result (λ bytes. bytes.items ≡ frame_text body.now) }
    ensures frame { length body.now ≤ max_body → IfOk result (λ bytes. IsFrameOf bytes.items body.now) }
{
    let size = body.len();
    let mut bytes = format!(in alloc; "Content-Length: {size}\r\n\r\n")?.into_bytes();
    bytes.extend_from_slice(body)?;
    Ok(bytes)
}
