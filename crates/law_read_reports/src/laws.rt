// The law of reading, the contract of a function that does nothing.
ghost use Rattle.law_read_reports.specs.Shown.{WrittenIsRead};

/// From the lines of a report its false units are read, and nothing else is.
pub fn written_is_read()
    ensures { WrittenIsRead }
{}
