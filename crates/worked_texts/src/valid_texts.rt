// Worked texts, each group a clause of a function that does nothing.
ghost use Rattle.worked_texts.specs.ValidTextsWorked.{AreFound, AreValid, names_and_kinds, assignments, rules_of_proof, widths, designs, generated};

/// A text for each fault.
pub fn worked_faults()
    ensures kinds { AreFound names_and_kinds }
    ensures assignments { AreFound assignments }
    ensures rules { AreFound rules_of_proof }
    ensures widths { AreFound widths }
{}

/// Texts without a fault.
pub fn worked_valid_texts()
    ensures designs { AreValid designs }
    ensures generated { AreValid generated }
{}
