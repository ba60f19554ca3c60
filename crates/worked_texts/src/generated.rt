// Worked texts, each group a clause of a function that does nothing.
ghost use Rattle.worked_texts.specs.GeneratedWorked.{NoCopy, OneCopy, TwoCopies, FurtherLines};

/// The texts with no copy, with one and with two, and lines whose numbers have more than one digit.
pub fn worked_texts()
    ensures none { NoCopy }
    ensures one { OneCopy }
    ensures two { TwoCopies }
    ensures further { FurtherLines }
{}
