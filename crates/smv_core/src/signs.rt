// The signs and the reserved words by name, each its place in its list, and the two lists.

/// `(`
pub const OPEN_PAREN: u8 = 0;

/// `)`
pub const CLOSE_PAREN: u8 = 1;

/// `[`
pub const OPEN_BRACKET: u8 = 2;

/// `]`
pub const CLOSE_BRACKET: u8 = 3;

/// `{`
pub const OPEN_BRACE: u8 = 4;

/// `}`
pub const CLOSE_BRACE: u8 = 5;

/// `:`
pub const COLON: u8 = 6;

/// `;`
pub const SEMICOLON: u8 = 7;

/// `,`
pub const COMMA: u8 = 8;

/// `.`
pub const DOT: u8 = 9;

/// `..`
pub const DOTS: u8 = 10;

/// `:=`
pub const BECOMES: u8 = 11;

/// `=`
pub const EQUAL: u8 = 12;

/// `~=`
pub const DIFFER: u8 = 13;

/// `<`
pub const LESS: u8 = 14;

/// `<=`
pub const AT_MOST: u8 = 15;

/// `>`
pub const GREATER: u8 = 16;

/// `>=`
pub const AT_LEAST: u8 = 17;

/// `+`
pub const PLUS: u8 = 18;

/// `-`
pub const MINUS: u8 = 19;

/// `~`
pub const TILDE: u8 = 20;

/// `&`
pub const AMPERSAND: u8 = 21;

/// `|`
pub const BAR: u8 = 22;

/// `->`
pub const ARROW: u8 = 23;

/// `<->`
pub const DOUBLE_ARROW: u8 = 24;

/// `?`
pub const QUESTION: u8 = 25;

/// `//`
pub const SLASHES: u8 = 26;

/// The word `abstract`.
pub const WORD_ABSTRACT: u8 = 0;

/// The word `array`.
pub const WORD_ARRAY: u8 = 1;

/// The word `assert`.
pub const WORD_ASSERT: u8 = 2;

/// The word `boolean`.
pub const WORD_BOOLEAN: u8 = 3;

/// The word `default`.
pub const WORD_DEFAULT: u8 = 4;

/// The word `else`.
pub const WORD_ELSE: u8 = 5;

/// The word `F`.
pub const WORD_F: u8 = 6;

/// The word `for`.
pub const WORD_FOR: u8 = 7;

/// The word `forall`.
pub const WORD_FORALL: u8 = 8;

/// The word `free`.
pub const WORD_FREE: u8 = 9;

/// The word `G`.
pub const WORD_G: u8 = 10;

/// The word `if`.
pub const WORD_IF: u8 = 11;

/// The word `in`.
pub const WORD_IN: u8 = 12;

/// The word `init`.
pub const WORD_INIT: u8 = 13;

/// The word `input`.
pub const WORD_INPUT: u8 = 14;

/// The word `layer`.
pub const WORD_LAYER: u8 = 15;

/// The word `mod`.
pub const WORD_MOD: u8 = 16;

/// The word `module`.
pub const WORD_MODULE: u8 = 17;

/// The word `next`.
pub const WORD_NEXT: u8 = 18;

/// The word `of`.
pub const WORD_OF: u8 = 19;

/// The word `ordset`.
pub const WORD_ORDSET: u8 = 20;

/// The word `output`.
pub const WORD_OUTPUT: u8 = 21;

/// The word `prove`.
pub const WORD_PROVE: u8 = 22;

/// The word `scalarset`.
pub const WORD_SCALARSET: u8 = 23;

/// The word `struct`.
pub const WORD_STRUCT: u8 = 24;

/// The word `subcase`.
pub const WORD_SUBCASE: u8 = 25;

/// The word `switch`.
pub const WORD_SWITCH: u8 = 26;

/// The word `typedef`.
pub const WORD_TYPEDEF: u8 = 27;

/// The word `U`.
pub const WORD_U: u8 = 28;

/// The word `undefined`.
pub const WORD_UNDEFINED: u8 = 29;

/// The word `using`.
pub const WORD_USING: u8 = 30;

/// The word `W`.
pub const WORD_W: u8 = 31;

/// The word `X`.
pub const WORD_X: u8 = 32;

/// Each sign at its place.
pub const SIGNS: [&[u8]; 27] = [
    b"(", b")", b"[", b"]", b"{", b"}", b":", b";", b",", b".", b"..", b":=", b"=", b"~=", b"<",
    b"<=", b">", b">=", b"+", b"-", b"~", b"&", b"|", b"->", b"<->", b"?", b"//",
];

/// Each reserved word at its place.
pub const RESERVED: [&[u8]; 33] = [
    b"abstract",
    b"array",
    b"assert",
    b"boolean",
    b"default",
    b"else",
    b"F",
    b"for",
    b"forall",
    b"free",
    b"G",
    b"if",
    b"in",
    b"init",
    b"input",
    b"layer",
    b"mod",
    b"module",
    b"next",
    b"of",
    b"ordset",
    b"output",
    b"prove",
    b"scalarset",
    b"struct",
    b"subcase",
    b"switch",
    b"typedef",
    b"U",
    b"undefined",
    b"using",
    b"W",
    b"X",
];
