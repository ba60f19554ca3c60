//! What the definition of commands comes to. Each law is the contract of a function that does nothing.
ghost use Rattle.std.specs.Prelude.{◌≡◌, ◌↔◌, Some, List, is_some, true};
ghost use Rattle.clap.specs.Walk.{Text};
ghost use Rattle.smv_command.specs.Ranges.{IsInRange};
ghost use Rattle.smv_command.specs.declared.commands.Command.{Command};
ghost use Rattle.smv_command.specs.Commands.{AreTaken, command_of};

/// Words are a command exactly where clap gives matches and bits are named by a word of theirs.
pub fn commands_are_what_clap_takes()
    ensures { (words : List Text) → (is_some (command_of words) ≡ true) ↔ AreTaken words }
{}

/// The numbers of a command are in their ranges.
pub fn numbers_are_in_range()
    ensures { (words : List Text) (command : Command) → command_of words ≡ Some command → IsInRange command }
{}
