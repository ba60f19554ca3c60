// Worked texts, each group a clause of a function that does nothing.
ghost use Rattle.worked_texts.specs.UsesWorked.{AreFound, AreChosen};
ghost use Rattle.worked_texts.specs.WorkedChoices as chosen;
ghost use Rattle.worked_texts.specs.UseFaults as texts;

/// The choices of the leaves of each worked text.
pub fn worked_choices()
    ensures rows { AreChosen chosen.rows }
    ensures order { AreChosen chosen.order }
    ensures parentheses { AreChosen chosen.parentheses }
    ensures maps { AreChosen chosen.maps }
    ensures own { AreChosen chosen.own }
    ensures braces { AreChosen chosen.braces }
    ensures instances { AreChosen chosen.instances }
    ensures tomasulo { AreChosen chosen.tomasulo }
{}

/// The first fault of uses of each worked text.
pub fn worked_faults()
    ensures rows { AreFound texts.rows }
    ensures uses { AreFound texts.uses }
    ensures proved { AreFound texts.proved }
    ensures instances { AreFound texts.instances }
    ensures twice { AreFound texts.twice }
    ensures choices { AreFound texts.choices }
    ensures braces { AreFound texts.braces }
    ensures brackets { AreFound texts.brackets }
    ensures first { AreFound texts.first }
    ensures tomasulo { AreFound texts.tomasulo }
{}
