//! Where the program's bytes go.
ghost use Rattle.std.specs.Prelude.{◌<◌, Option, List, ℕ, length};
ghost use Rattle.ls_outside.specs.Sinks.{PutCounts, PutNotes, PutTakes, PutWithin};

/// What a write answers.
#[derive(Clone, Copy, Debug, PartialEq, Eq)]
pub enum Put {
    /// So many bytes of the front were taken.
    Some(usize),
    /// The write failed, and took nothing that the sink tells.
    Failed,
}

/// A stream of bytes to write. A write takes no memory.
pub trait Sink {
    /// The bytes that were taken, where the sink tells them.
    ghost taken: { Self → Option (List ℕ) };

    /// How often a write has failed.
    ghost faults: { Self → ℕ };

    /// What each write so far took: nothing where it failed.
    ghost writes: { Self → List (List ℕ) };

    /// Takes bytes from the front: some of them, and not always all. To take none is a fault.
    fn write(&mut self, bytes: &[u8]) -> Put
        requires { 0 < length bytes.now }
        ensures within { PutWithin result bytes.now }
        ensures takes { PutTakes (taken self.old) (taken self.new) result bytes.now }
        ensures counts { PutCounts (faults self.old) (faults self.new) result }
        ensures notes { PutNotes (writes self.old) (writes self.new) result bytes.now };
}
