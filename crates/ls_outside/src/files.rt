//! The files that words name.
ghost use Rattle.std.specs.Prelude.{◌≡◌, ◌++◌, ◌∷◌, [], Option, List, ℕ};
ghost use Rattle.ls_outside.specs.Files.{FetchCounts, FetchTells, FetchWithin, GivesRead};

use std::alloc::Global;

/// What a fetch answers.
#[derive(Debug, Drop, PartialEq, Eq)]
pub enum Fetch {
    /// The content of the file.
    Bytes(Vec<u8>),
    /// The file is longer than was asked for.
    Long,
    /// There is no such file, or it can't be read.
    Failed,
    /// Memory ran out.
    Memory,
}

/// Files, by name.
pub trait Files {
    /// What each name holds, where the files tell it: a content, or none, and then its fetch fails.
    ghost held: { Self → Option (List ℕ → Option (List ℕ)) };

    /// The names asked so far, in their order.
    ghost asked: { Self → List (List ℕ) };

    /// What each read of a file so far took: nothing where it ended or failed, or where there was no file to read.
    ghost reads: { Self → List (List ℕ) };

    /// How often a fetch has failed.
    ghost faults: { Self → ℕ };

    /// The content of the file of this name, which has at most `max` bytes.
    fn fetch(&mut self, alloc: Global, name: &str, max: u32) -> Fetch
        ensures within { FetchWithin result max }
        ensures tells { FetchTells (held self.old) name.now max result }
        ensures stays { held self.new ≡ held self.old }
        ensures asks { asked self.new ≡ asked self.old ++ name.now ∷ [] }
        ensures gives { GivesRead (reads self.old) (reads self.new) max result }
        ensures counts { FetchCounts (faults self.old) (faults self.new) result };
}
