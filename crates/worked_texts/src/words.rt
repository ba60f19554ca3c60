// Worked words, each group a clause of a function that does nothing.
ghost use Rattle.std.specs.Prelude.{◌≡◌, [], None};
ghost use Rattle.smv_command.specs.Commands.{command_of};
ghost use Rattle.worked_texts.specs.WordsWorked.{AreCommands, AreNone, no_commands, other_options, other_numbers, other_bits, other_places, budgets, bits, bounds, names, plain};

/// Words that are no command, and words that are one with its values.
pub fn worked_words()
    ensures nothing { command_of [] ≡ None }
    ensures none { AreNone no_commands }
    ensures options { AreNone other_options }
    ensures numbers { AreNone other_numbers }
    ensures misnamed { AreNone other_bits }
    ensures places { AreNone other_places }
    ensures budgets { AreCommands budgets }
    ensures bits { AreCommands bits }
    ensures bounds { AreCommands bounds }
    ensures names { AreCommands names }
    ensures plain { AreCommands plain }
{}
