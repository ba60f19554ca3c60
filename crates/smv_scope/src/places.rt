// Places in a text.
ghost use Rattle.std.specs.Prelude.{◌≡◌};
ghost use Rattle.smv_mentions.specs.Scopes as scopes;
ghost use Rattle.smv_mentions.specs.Said.{words_at};
ghost use Rattle.smv_mentions.specs.NameFaults as faults;
ghost use Rattle.smv_first_fault.specs.Firsts.{least};

use smv_core::tree::Word;

/// The later of two declarations of one name, where there is another.
pub fn later(other: Option<u32>, at: u32) -> Option<u32>
    ensures { result ≡ least (faults.later other at) }
{
    match other {
        Some(other) => Some(at.max(other)),
        None => None,
    }
}

/// Whether a place is before another.
pub fn is_before(place: Option<u32>, at: u32) -> bool
    ensures { result ≡ scopes.is_before place at }
{
    match place {
        Some(place) => place < at,
        None => false,
    }
}

/// What is wrong with field names where nothing has a field.
pub(crate) fn no_field(words: &[&Word]) -> Option<u32>
    ensures { result ≡ least (scopes.no_field (words_at words.now)) }
{
    match words {
        [word, ..] => Some(word.at),
        [] => None,
    }
}
