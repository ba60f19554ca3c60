// The laws of codes, each a clause of a function that does nothing.
ghost use Rattle.law_waveforms.specs.Codes.{CodesArePrintable, CodesDiffer};

/// A code is that of one element, and of printable bytes.
pub fn codes_tell()
    ensures differ { CodesDiffer }
    ensures printable { CodesArePrintable }
{}
