//! Where the program's bytes come from.
ghost use Rattle.std.specs.Prelude.{◌<◌, Option, List, ℕ, length};
ghost use Rattle.ls_outside.specs.Sources.{ArePieces, GotCounts, GotNotes, GotTakes, GotWithin};

/// What a read answers.
#[derive(Clone, Copy, Debug, PartialEq, Eq)]
pub enum Got {
    /// So many bytes were put at the front of the buffer.
    Some(usize),
    /// No byte is left.
    End,
    /// The read failed, and took nothing.
    Failed,
}

/// A stream of bytes to read. A read takes no memory.
pub trait Source {
    /// The pieces of bytes that are left, where the source tells them.
    ghost left: { Self → Option (List (List ℕ)) };

    /// How often a read has failed.
    ghost faults: { Self → ℕ };

    /// What each read so far took: nothing where it ended or failed.
    ghost reads: { Self → List (List ℕ) };

    /// Takes the next bytes: some of them, and not always as many as the buffer has room for.
    fn read(&mut self, buf: &mut [u8]) -> Got
        requires { 0 < length buf.old }
        ensures within { GotWithin result buf.new }
        ensures takes { GotTakes (left self.old) (left self.new) result buf.new }
        ensures counts { GotCounts (faults self.old) (faults self.new) result }
        ensures notes { GotNotes (reads self.old) (reads self.new) result buf.new };

    /// A piece that is left has 1 to 65,536 bytes.
    ghost sized: { (source : Self) → ArePieces (left source) };
}
