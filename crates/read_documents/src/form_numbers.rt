//! The numbers of forms.
ghost use Rattle.std.specs.Prelude.{◌≡◌, IfOk};

use ls_base::{Mem, Memory};

/// A form's number. Memory for more than 2^32 forms isn't there.
pub fn number_of(place: usize) -> Mem<u32>
    ensures { IfOk result (λ n. n ≡ place) }
{
    match u32::try_from(place) {
        Ok(number) => Ok(number),
        Err(_) => Err(Memory),
    }
}
