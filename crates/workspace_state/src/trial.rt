//! The program of edited texts, which is tried beside that of the open documents.
ghost use Rattle.std.specs.Prelude.{◌≡◌};

use core_tree::units::Program;

/// The program of edited texts, over the trees and names of the workspace that it was tried in.
#[derive(Drop)]
pub struct Trial {
    program: Program,
}

impl Trial {
    /// A trial of a program.
    pub(crate) fn of(program: Program) -> Trial
        ensures { result.program ≡ program }
    {
        Trial { program }
    }

    /// The units of the edited texts.
    pub fn program(&self) -> &Program
        ensures { result.now ≡ self.now.program }
    {
        &self.program
    }
}
