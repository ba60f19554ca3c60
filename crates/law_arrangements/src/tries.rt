// Laws of the definitions, each the contract of a function that does nothing.
ghost use Rattle.law_arrangements.specs.Tries.{TriesMayBeTold, DeclaredMayBeTold, OneIsTold};

/// What a try over an arrangement finds may be told, unless it is that its budget of nodes is passed; of the declared lists under the whole budget that may be told too.
pub fn tries_may_be_told()
    ensures tries { TriesMayBeTold }
    ensures declared { DeclaredMayBeTold }
{}

/// Of what may be told that is not unknown there is one.
pub fn one_is_told()
    ensures { OneIsTold }
{}
