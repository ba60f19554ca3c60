// The laws.
ghost use Rattle.smv_encode.specs.Laws.{KeptTablesKeep};

/// A sound store in which each live Ref of an earlier one is live with its table keeps that one.
pub fn kept_tables_keep()
    ensures { KeptTablesKeep }
{}
