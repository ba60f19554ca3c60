// Laws of elements that are put.
ghost use Rattle.smv_elements.specs.Laws.{PutsJoin, FullStays};

/// What is put in two parts is what is put at once, and where there are too many nothing is.
pub fn puts_join()
    ensures join { PutsJoin }
    ensures full { FullStays }
{}
