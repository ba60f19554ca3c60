//! What the definition of queries comes to, as the contract of a function that does nothing.
ghost use Rattle.std.specs.Prelude.{◌≡◌, List, Some};
ghost use Rattle.clap.specs.Walk.{Text};
ghost use Rattle.smv_look_command.specs.declared.queries.Query.{Query};
ghost use Rattle.smv_look_command.specs.Queries.{IsInRange, query_of};

/// The numbers of a query are in their ranges.
pub fn numbers_are_in_range()
    ensures { (words : List Text) (query : Query) → query_of words ≡ Some query → IsInRange query }
{}
