//! Walks over the first line of a text: the bytes of so many units of an encoding, and the units of so many bytes.
ghost use Rattle.std.specs.Prelude.{◌≡◌, ◌^◌, ◌<◌, ◌≤◌, ◌↔◌, ◌⊎◌, length, IsTrue};
ghost use Rattle.std.specs.Char.{len_utf8};
ghost use Rattle.std.specs.Str.{chars, IsCharBoundary};
ghost use Rattle.ls_base.specs.Positions.{bytes_within, units_of, units_within};
ghost use Rattle.text_positions.specs.Walks.{EndsLine, ends_behind, first_line};

use ls_base::{Encoding, split_char};

/// Whether the character ends a line, alone or with another (LSP 3.17, Position).
#[inline(always)]
pub fn ends_line(c: char) -> bool
    ensures { IsTrue result ↔ EndsLine c }
{
    matches!(c, '\n' | '\r')
}

/// Whether a line ends behind this character: a carriage return before a line feed ends none.
#[inline(always)]
pub fn ends_behind(c: char, more: &str) -> bool
    ensures { result ≡ ends_behind c (chars more.now) }
{
    c == '\n' || c == '\r' && !more.starts_with('\n')
}

/// The bytes of the longest front of the first line with at most so many units. It walks over them, so they are few.
pub fn bytes_in_line(text: &str, units: u32, encoding: Encoding) -> usize
    requires { bytes_within (units_of encoding) units (first_line text.now) < 256 }
    ensures bytes { result ≡ bytes_within (units_of encoding) units (first_line text.now) }
    ensures boundary { IsCharBoundary text.now result }
{
    let mut rest = text;
    let mut left = units as usize;
    while let Some((c, more)) = split_char(rest) {
        let width = encoding.units(c);
        if ends_line(c) || width > left {
            break;
        }
        left -= width;
        rest = more;
    }
    text.len() - rest.len()
}

/// The units of the longest front of the first line with at most so many bytes. It walks over them, so they are few.
pub fn units_in_line(text: &str, bytes: usize, encoding: Encoding) -> u32
    requires short { length text.now < 2 ^ 32 }
    requires walk { bytes_within len_utf8 bytes (first_line text.now) < 256 }
    ensures units { result ≡ units_within (units_of encoding) bytes (first_line text.now) }
    ensures few { result ≤ length text.now }
{
    let mut rest = text;
    let mut left = bytes;
    let mut units = 0;
    while let Some((c, more)) = split_char(rest) {
        let size = c.len_utf8();
        if ends_line(c) || size > left {
            break;
        }
        left -= size;
        units += encoding.units(c) as u32;
        rest = more;
    }
    units
}
