// Laws of the numbers in flattened texts, each the contract of a function that does nothing.
ghost use Rattle.std.specs.Prelude.{◌≡◌, ◌≤◌, ℕ, List, length, None, Ok, true};
ghost use Rattle.std.specs.List.{AllByRecursion};
ghost use Rattle.smv_core.specs.Notation.{Tokens};
ghost use Rattle.smv_core.specs.Spelling.{Spells};
ghost use Rattle.smv_core.specs.Values.{Name};
ghost use Rattle.smv_core.specs.declared.tree.Text.{Text};
ghost use Rattle.smv_mentions.specs.FirstFault.{first_fault};
ghost use Rattle.law_designs.specs.Entries.{entries};
ghost use Rattle.law_designs.specs.Flattening.{flatten};
ghost use Rattle.smv_lex.specs.Lexing.{lexed};
ghost use Rattle.law_designs.specs.FlatKinds.{is_kinded};
ghost use Rattle.law_designs.specs.KindFaults.{first_fault_of_kinds};
ghost use Rattle.law_sound_texts.specs.NumbersFit.{NumbersFit, PlaceFits};
ghost use Rattle.law_sound_texts.specs.RangesFit.{NamedRangesFit};

use law_flat_kinds::flattened_texts_are_kinded;

/// The flattened text of a text without a fault of names and size has at most 4,096 families.
pub fn families_are_few()
    ensures { (text : Text) → first_fault text ≡ None → length (flatten text).families ≤ 4096 }
{}

/// Each of its enumerations has at most 4,096 constants.
pub fn constants_are_few()
    ensures { (text : Text) → first_fault text ≡ None → AllByRecursion (λ (names : List Name). length names ≤ 4096) (flatten text).enums }
{}

/// Such a text says at most 65,536 things in flat order: heads of layers, statements, connections, claims, splits and what is used.
pub fn entries_are_few()
    ensures { (text : Text) → first_fault text ≡ None → length (entries text) ≤ 65536 }
{}

/// No claim of the flattened text of a text without a fault of names and size has a place of 65,536 or more.
pub fn places_fit()
    ensures { (text : Text) → first_fault text ≡ None → AllByRecursion PlaceFits (flatten text).items }
{}

/// In a text that is spelled within at most 65,536 levels, has at most 65,536 set types and has no fault of names and size each number of the flattened text fits its
/// field, where the flattened text keeps the rules of kinds.
pub fn numbers_fit()
    ensures { (n : ℕ) (tokens : Tokens) (text : Text) → Spells n tokens text → n ≤ 65536 → first_fault text ≡ None → length (flatten text).sets ≤ 65536 → is_kinded (flatten text) ≡ true → NumbersFit (flatten text) }
{
    families_are_few();
    constants_are_few();
    entries_are_few();
    places_fit();
}

/// In a text without a fault of kinds the ends of ranges fit in types that have names, also where nothing uses them, and so do those of set types.
pub fn named_ranges_fit()
    ensures { (text : Text) → first_fault_of_kinds text ≡ None → NamedRangesFit text }
{}

/// A text of at most 1,048,576 bytes has at most 65,536 set types, since each takes at least 16 bytes.
pub fn set_types_are_few()
    ensures { (bytes : List ℕ) (n : ℕ) (tokens : Tokens) (text : Text) → length bytes ≤ 1048576 → lexed bytes ≡ Ok tokens → Spells n tokens text → length (flatten text).sets ≤ 65536 }
{}

/// So each number fits where a text of at most 1,048,576 bytes is spelled within at most 65,536 levels and has no fault of names, size and kinds.
pub fn numbers_of_bytes_fit()
    ensures { (bytes : List ℕ) (n : ℕ) (tokens : Tokens) (text : Text) → length bytes ≤ 1048576 → lexed bytes ≡ Ok tokens → Spells n tokens text → n ≤ 65536 → first_fault text ≡ None → first_fault_of_kinds text ≡ None → NumbersFit (flatten text) }
{
    numbers_fit();
    set_types_are_few();
    flattened_texts_are_kinded();
}
