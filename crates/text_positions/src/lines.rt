//! The table of line starts of a text, and of marks within its long lines.
ghost use Rattle.std.specs.Prelude.{◌≡◌, ◌^◌, ◌<◌, length, IfOk, slice_get};
ghost use Rattle.std.specs.List.Sorted.{IsNonDecreasing};
ghost use Rattle.std.specs.Str.{IsCharBoundary};
ghost use Rattle.ls_base.specs.Positions.{offset_of, position_of};
ghost use Rattle.text_positions.specs.Lines.{line_starts, AreLinesOf};
ghost use Rattle.text_positions.specs.Walks.{IsLineAt};

use crate::marks::{Mark, mark_past, mark_within};
use crate::within::{bytes_in_line, ends_behind, ends_line, units_in_line};
use ls_base::{Encoding, Mem, Pos, split_char};
use std::alloc::Global;
use std::marker::Model;

/// Where the lines of a text begin, in bytes, and marks within the long ones. Contracts see it as these two lists.
#[derive(Drop)]
pub struct Lines {
    starts: Vec<u32>,
    marks: Vec<Mark>,
}

impl Model for Lines {
    ghost use Rattle.text_positions.specs.Table.{Table};

    ghost Value = { Table };

    ghost view = { λ l. record { starts = l.starts.items; marks = l.marks.items } };
}

/// The last line that begins at an offset or before it, found by halves.
fn line_at(starts: &[u32], offset: u32) -> usize
    requires first { slice_get starts.now 0 ≡ Some 0 }
    requires rise { IsNonDecreasing starts.now }
    ensures { IsLineAt starts.now offset result }
{
    starts.partition_point(|start| *start <= offset) - 1
}

impl Lines {
    /// The lines of a text that is shorter than 2^32 bytes. They end with `\n`, `\r\n` or `\r` (LSP 3.17, Position).
    pub fn of(alloc: Global, text: &str) -> Mem<Lines>
        requires { length text.now < 2 ^ 32 }
        ensures { IfOk result (λ lines. AreLinesOf lines text.now) }
    {
        let mut starts = Vec::new(alloc);
        starts.push(0)?;
        let mut marks = Vec::new(alloc);
        let mut here = Mark::begin(0);
        let mut rest = text;
        while let Some((c, more)) = split_char(rest) {
            if ends_behind(c, more) {
                let start = (text.len() - more.len()) as u32;
                starts.push(start)?;
                here = Mark::begin(start);
            } else if !ends_line(c) {
                here = mark_past(&mut marks, here, c)?;
            }
            rest = more;
        }
        Ok(Lines { starts, marks })
    }

    /// The offset in bytes of a position in the encoding given, in the text that the lines are of. A character past
    /// its line means the end of the line, before its line end; a line past the last means the end of the text; the
    /// middle of a character means the character's start (LSP 3.17, Position).
    pub fn offset(&self, text: &str, pos: Pos, encoding: Encoding) -> u32
        requires { AreLinesOf self.now text.now }
        ensures exact { result ≡ offset_of encoding text.now pos }
        // A text may be cut there: a character begins there, or the text ends.
        ensures boundary { IsCharBoundary text.now result }
    {
        let line = pos.line as usize;
        if line >= self.starts.len() {
            return text.len() as u32;
        }
        let mark = mark_within(&self.marks, self.starts[line], pos.character, encoding);
        let at = mark.at();
        let left = pos.character - mark.units(encoding);
        (at + bytes_in_line(&text[at..], left, encoding)) as u32
    }

    /// The position in the encoding given of an offset in bytes, in the text that the lines are of. An offset inside a
    /// line end means the end of its line, one inside a character the character's start, one past the text the end of
    /// the text.
    pub fn position(&self, text: &str, offset: u32, encoding: Encoding) -> Pos
        requires { AreLinesOf self.now text.now }
        ensures { result ≡ position_of encoding text.now offset }
    {
        let line = line_at(&self.starts, offset);
        let start = self.starts[line];
        let mark = mark_within(&self.marks, start, offset - start, Encoding::Utf8);
        let at = mark.at();
        let units = units_in_line(&text[at..], offset as usize - at, encoding);
        Pos {
            line: line as u32,
            character: mark.units(encoding) + units,
        }
    }
}
