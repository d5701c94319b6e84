//! The numerals of bytevectors (R7RS 7.1.2).
ghost use Rattle.std.specs.Prelude.{◌≡◌};
ghost use Rattle.std.specs.Str.{chars};
ghost use Rattle.scheme_model.specs.Numbered.{is_byte};

use ls_base::split_char;

/// Whether a numeral may stand in a bytevector: it is not decimal digits that write a number above 255.
pub fn is_byte(text: &str) -> bool
    ensures { result ≡ is_byte 0 (chars text.now) }
{
    let mut value = 0u32;
    let mut rest = text;
    while let Some((c, more)) = split_char(rest) {
        if !c.is_ascii_digit() {
            return true;
        }
        value = (10 * value + (c as u32 - '0' as u32)).min(256);
        rest = more;
    }
    value < 256
}
