//! Letters and digits, and how many stand at the front.
ghost use Rattle.std.specs.Prelude.{◌≡◌, ◌≤◌, length, take_while};
ghost use Rattle.smv_lex.specs.Lexing.{is_letter, is_digit, is_name_byte};

/// Whether a byte is a letter of ASCII, or `_`.
pub fn letter(b: u8) -> bool
    ensures { result ≡ is_letter b }
{
    b >= b'A' && b <= b'Z' || b >= b'a' && b <= b'z' || b == b'_'
}

/// Whether a byte is a digit.
pub fn digit(b: u8) -> bool
    ensures { result ≡ is_digit b }
{
    b >= b'0' && b <= b'9'
}

/// How many letters, digits and `_` stand at the front.
pub fn word_length(bytes: &[u8]) -> usize
    ensures length { result ≡ length (take_while is_name_byte bytes.now) }
    ensures within { result ≤ length bytes.now }
{
    bytes
        .iter()
        .take_while(|b| letter(**b) || digit(**b))
        .count()
}

/// How many digits stand at the front.
pub fn digits_length(bytes: &[u8]) -> usize
    ensures length { result ≡ length (take_while is_digit bytes.now) }
    ensures within { result ≤ length bytes.now }
{
    bytes.iter().take_while(|b| digit(**b)).count()
}
