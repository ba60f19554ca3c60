// Worked waveforms, each group a clause of a function that does nothing.
ghost use Rattle.worked_texts.specs.Dumps.{Codes, Empty, None, OneUnit, Several, Texts};
ghost use Rattle.worked_texts.specs.Faults.{Counts, Early, Forms, OfGenerated, Places};

/// Reports with their dumps.
pub fn worked_dumps()
    ensures one { OneUnit }
    ensures several { Several }
    ensures texts { Texts }
    ensures empty { Empty }
    ensures none { None }
{}

/// Texts that are no reports.
pub fn worked_faults()
    ensures forms { Forms }
    ensures places { Places }
    ensures counts { Counts }
    ensures early { Early }
    ensures generated { OfGenerated }
{}

/// Codes of elements.
pub fn worked_codes()
    ensures { Codes }
{}
