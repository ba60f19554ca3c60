// The law of variables that an expression does not read.
ghost use Rattle.law_obligations.specs.FreeReads.{OthersDoNotMatter};

/// What an expression may be is the same under bindings that agree on the variables that it reads.
pub fn variables_not_read_do_not_matter()
    ensures { OthersDoNotMatter }
{}
