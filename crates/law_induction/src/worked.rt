// Worked texts, whose strengthened texts were written by hand.
ghost use Rattle.law_induction.specs.WorkedTexts.{MachineStrengthened, NamesStrengthened, TypeNamesRefused};

/// A machine whose claim is proved by induction; a claim in which the variable's name is also a field's; and one whose variable has the name of a type, of which the law does not speak.
pub fn worked_texts()
    ensures machine { MachineStrengthened }
    ensures names { NamesStrengthened }
    ensures type_names { TypeNamesRefused }
{}
