//! Room for bytes that are kept.
ghost use Rattle.std.specs.Prelude.{◌≡◌, ◌+◌, ◌*◌, ◌++◌, ◌<◌, ◌≤◌, OnOk, length, max, min, vec_capacity, vec_len};

use std::alloc::AllocError;

/// Adds bytes at the end. Where there is no room for them, it doubles, up to `most`.
pub(crate) fn keep(content: &mut Vec<u8>, bytes: &[u8], most: usize) -> Result<(), AllocError>
    requires { vec_len content.old + length bytes.now ≤ most }
    ensures items { OnOk result (content.new.items ≡ content.old.items ++ bytes.now) }
{
    make_room(content, bytes.len(), most)?;
    content.extend_from_slice(bytes).unwrap();
    Ok(())
}

/// Makes room for so many bytes more. Where there is none, it doubles, up to `most`.
fn make_room(content: &mut Vec<u8>, more: usize, most: usize) -> Result<(), AllocError>
    requires { vec_len content.old + more ≤ most }
    ensures stays { content.new.items ≡ content.old.items }
    ensures fits { OnOk result (vec_len content.new + more ≤ vec_capacity content.new) }
    ensures bounded { vec_capacity content.new ≤ max (vec_capacity content.old) most }
    ensures doubles { vec_capacity content.old < vec_len content.old + more → OnOk result (min (vec_capacity content.old * 2) most ≤ vec_capacity content.new) }
{
    let needed = content.len() + more;
    if needed <= content.capacity() {
        return Ok(());
    }
    let room = content.capacity().saturating_mul(2).max(needed).min(most);
    content.reserve_exact(room - content.len())?;
    Ok(())
}
