//! Marks within long lines, so that a walk over a line can begin near its end.
ghost use Rattle.std.specs.Prelude.{◌≡◌, ◌+◌, ◌<◌, ◌≤◌, ◌^◌, ◌⊎◌, IfOk};
ghost use Rattle.std.specs.List.{All, Contains};
ghost use Rattle.std.specs.Char.{len_utf8};
ghost use Rattle.text_positions.specs.Marks.{units_before, with_mark, is_reached, IsLineBegin, IsPast, InOrder};

use ls_base::{Encoding, Mem};

/// A mark stands where the first character begins behind each so many bytes of a line.
const STRETCH: u32 = 256;

/// A place in a line, and how much of the line stands before it.
#[derive(Clone, Copy)]
pub struct Mark {
    /// Where the line begins, in bytes.
    pub start: u32,
    /// The bytes of the line before the mark.
    pub utf8: u32,
    /// The units of UTF-16 before it.
    pub utf16: u32,
    /// The characters before it.
    pub utf32: u32,
}

impl Mark {
    /// The beginning of a line.
    #[inline(always)]
    pub fn begin(start: u32) -> Mark
        ensures { IsLineBegin start result }
    {
        Mark {
            start,
            utf8: 0,
            utf16: 0,
            utf32: 0,
        }
    }

    /// The units of an encoding before it in its line.
    pub fn units(self, encoding: Encoding) -> u32
        ensures { result ≡ units_before encoding self }
    {
        match encoding {
            Encoding::Utf8 => self.utf8,
            Encoding::Utf16 => self.utf16,
            Encoding::Utf32 => self.utf32,
        }
    }

    /// The offset in bytes at which it stands.
    pub fn at(self) -> usize
        ensures { result ≡ self.start + self.utf8 }
    {
        self.start as usize + self.utf8 as usize
    }

    /// The place behind a character that stands there.
    #[inline(always)]
    fn past(self, c: char) -> Mark
        requires short { self.utf8 + len_utf8 c < 2 ^ 32 }
        requires utf16 { self.utf16 ≤ self.utf8 }
        requires utf32 { self.utf32 ≤ self.utf8 }
        ensures { IsPast c self result }
    {
        Mark {
            start: self.start,
            utf8: self.utf8 + c.len_utf8() as u32,
            utf16: self.utf16 + c.len_utf16() as u32,
            utf32: self.utf32 + 1,
        }
    }

    /// Whether it is in an earlier line than the one that begins at an offset, or in that line with at most so many
    /// units before it.
    fn is_reached(self, start: u32, units: u32, encoding: Encoding) -> bool
        ensures { result ≡ is_reached start units encoding self }
    {
        self.start < start || self.start == start && self.units(encoding) <= units
    }
}

/// The place behind the next character of a line, which is marked at the end of each stretch.
#[inline(always)]
pub fn mark_past(marks: &mut Vec<Mark>, here: Mark, c: char) -> Mem<Mark>
    requires short { here.utf8 + len_utf8 c < 2 ^ 32 }
    requires utf16 { here.utf16 ≤ here.utf8 }
    requires utf32 { here.utf32 ≤ here.utf8 }
    ensures past { IfOk result (λ next. IsPast c here next) }
    ensures marks { IfOk result (λ next. marks.new.items ≡ with_mark here next marks.old.items) }
{
    let next = here.past(c);
    if next.utf8 / STRETCH > here.utf8 / STRETCH {
        marks.push(next)?;
    }
    Ok(next)
}

/// The last mark of the line that begins at an offset with at most so many units before it, or the beginning of the
/// line.
pub fn mark_within(marks: &[Mark], start: u32, units: u32, encoding: Encoding) -> Mark
    requires { InOrder marks.now }
    ensures known { IsLineBegin start result ⊎ Contains marks.now result }
    ensures line { result.start ≡ start }
    ensures within { units_before encoding result ≤ units }
    ensures last { All (λ m. m.start ≡ start → units_before encoding m ≤ units → m.utf8 ≤ result.utf8) marks.now }
{
    let behind = marks.partition_point(|mark| mark.is_reached(start, units, encoding));
    if behind > 0 && marks[behind - 1].start == start {
        return marks[behind - 1];
    }
    Mark::begin(start)
}
