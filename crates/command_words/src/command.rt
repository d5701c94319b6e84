//! The commands.
use ls_base::{Items, Pos, Text};

/// What the program can be asked to do.
#[derive(Drop)]
pub enum Command {
    /// `arrows`: the arrows of the text of the standard input.
    Arrows,
    /// `serve`: a session over the standard input and output.
    Serve,
    /// `serve --ahead`: such a session that looks ahead for cancellations.
    ServeAhead,
    /// `replay FILE`: a session over the bytes of a file.
    Replay {
        file: Text,
    },
    /// `check FILE...`: the diagnostics of different files, 1 to 64 of them, in the order of their first words.
    Check {
        files: Items<Text>,
    },
    /// `check FILE...` with more than 64 different files.
    TooManyFiles,
    /// `rename FILE LINE COL NAME`: a rename in a file. The position is zero-based and counts UTF-16 units.
    Rename {
        file: Text,
        position: Pos,
        name: Text,
    },
    /// `selfrun N`: a workspace of so many libraries, 1 to 60.
    Selfrun {
        libraries: u32,
    },
    /// No command.
    Unknown,
}
