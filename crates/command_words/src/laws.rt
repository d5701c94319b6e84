//! Laws of what words ask for, each the contract of a function that does nothing.
ghost use Rattle.std.specs.Prelude.{◌≡◌, List};
ghost use Rattle.command_words.specs.Commands.{CommandOf};
ghost use Rattle.command_words.specs.Words.{Word};
ghost use Rattle.command_words.specs.declared.command.Command.{Command};

/// Words ask for exactly one command, where `Unknown` counts as one.
pub fn one_command()
    ensures some { (words : List Word) → (command : Command) × CommandOf words command }
    ensures only { (words : List Word) (one other : Command) → CommandOf words one → CommandOf words other → one ≡ other }
{}
