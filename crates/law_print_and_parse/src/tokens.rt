// The laws of written tokens. The functions do nothing: their contracts are the laws.
ghost use Rattle.law_print_and_parse.specs.TokenLaws.{IsReadAsWritten, ReadsOnlyReadable, IsSpelledReadable, IsCanonicalRead};

/// Tokens that are written out are read as the same tokens.
pub fn read_as_written()
    ensures { IsReadAsWritten }
{}

/// The tokens of a text can be written out.
pub fn only_readable()
    ensures { ReadsOnlyReadable }
{}

/// The canonical tokens of the tree of a text can be written out.
pub fn spelled_readable()
    ensures { IsSpelledReadable }
{}

/// The canonical spelling of the tree of a text is read as the canonical tokens of that tree.
pub fn canonical_read()
    ensures { IsCanonicalRead }
{}
