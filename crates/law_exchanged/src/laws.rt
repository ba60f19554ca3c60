// Laws of exchange, each the contract of a function that does nothing.
ghost use Rattle.law_exchanged.specs.Laws.{IsOneExchanged, AreBytesExchanged};

/// The tokens of one claim's expression can be exchanged for others that spell an expression: the text is spelled with that expression in its place.
pub fn one_exchanged()
    ensures { IsOneExchanged }
{}

/// The bytes of one claim's expression can be exchanged for others that spell an expression: the new text's bytes spell the tree with that expression in its place.
pub fn bytes_exchanged()
    ensures { AreBytesExchanged }
{}
