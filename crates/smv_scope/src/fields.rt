// The fields of types.
ghost use Rattle.std.specs.Prelude.{◌≡◌, ◌≤◌, List, length, min, option_map, slice_get};
ghost use Rattle.smv_core.specs.declared.tree.Word.{Word};
ghost use Rattle.smv_mentions.specs.Scopes as scopes;
ghost use Rattle.smv_mentions.specs.Said.{words_at};
ghost use Rattle.smv_first_fault.specs.Firsts.{least};
ghost use Rattle.smv_scope.specs.Numbered as spec;
ghost use Rattle.smv_scope.specs.Numbered.{known_before, top_names, type_number, is_type_top};
ghost use Rattle.smv_scope.specs.Held.{AreLed, AreTables, fields_led};

use crate::tables::{Led, Tables};
use name_index::NameIndex;
use smv_core::name::Name;
use smv_core::tree::{Field, Text, Top, TypeExpr, Word};

// One of these is the name.
fn has_name(words: &[Word], name: &Name) -> bool
    ensures { result ≡ scopes.has_name words.now name.now }
{
    for word in words {
        if word.name == *name {
            return true;
        }
    }
    false
}

/// The first field of a name.
pub fn field_named<'a>(fields: &'a [Field], name: &Name) -> Option<&'a Field>
    ensures { option_map (λ field. field.now) result ≡ spec.field_named fields.now name.now }
{
    for field in fields {
        if has_name(field.names.as_slice(), name) {
            return Some(field);
        }
    }
    None
}

// Whether the top of a number is a type.
fn is_type_at(text: &Text, place: usize) -> bool
    ensures { result ≡ is_type_top (slice_get text.now.tops place) }
{
    match text.tops.as_slice().get(place) {
        Some(Top::SetType { .. }) => true,
        Some(Top::Alias { .. }) => true,
        _ => false,
    }
}

// The number of the type of a name that is declared before the top of a number.
pub fn type_named(text: &Text, names: &NameIndex, place: usize, name: &Name) -> Option<usize>
    requires { names.now ≡ top_names text.now }
    ensures { result ≡ type_number text.now place name.now }
{
    let found = names.find(name)?;
    if found < place && is_type_at(text, found) {
        Some(found)
    } else {
        None
    }
}

// The struct to which a type leads that stands in the top of a number.
pub fn led<'a>(
    text: &'a Text,
    names: &NameIndex<'a>,
    structs: &[Option<Led<'a>>],
    place: usize,
    of: &'a TypeExpr,
) -> Option<Led<'a>>
    requires names { names.now ≡ top_names text.now }
    requires led { AreLed text.now structs.now }
    requires enough { min place (length text.now.tops) ≤ length structs.now }
    ensures { (words : List Word) → scopes.fields_of (known_before text.now place) of.now words ≡ fields_led text.now result words }
{
    match of {
        TypeExpr::Named { name, .. } => match type_named(text, names, place, &name.name) {
            Some(found) => structs[found],
            None => None,
        },
        TypeExpr::Array { of, .. } => led(text, names, structs, place, of.get()),
        TypeExpr::Struct { fields } => Some(Led {
            fields: fields.as_slice(),
            place,
        }),
        TypeExpr::Boolean => None,
        TypeExpr::Range { .. } => None,
        TypeExpr::Enum { .. } => None,
    }
}

// The struct to which a type leads that stands in the top of a number.
fn led_in<'a>(tables: &Tables<'a, '_>, place: usize, of: &'a TypeExpr) -> Option<Led<'a>>
    requires { AreTables tables.now }
    ensures { (words : List Word) → scopes.fields_of (known_before tables.now.text.now place) of.now words ≡ fields_led tables.now.text.now result words }
{
    led(
        tables.text,
        &tables.names,
        tables.structs.as_slice(),
        place,
        of,
    )
}

// What is wrong with field names behind a type that leads to this struct or to none.
fn behind_led<'a>(tables: &Tables<'a, '_>, led: Option<Led<'a>>, words: &[&Word]) -> Option<u32>
    requires { AreTables tables.now }
    ensures { result ≡ least (fields_led tables.now.text.now led.entry (words_at words.now)) }
{
    match words {
        [] => None,
        [word, more @ ..] => match led {
            None => Some(word.at),
            Some(led) => match field_named(led.fields, &word.name) {
                None => Some(word.at),
                Some(field) => behind_led(tables, led_in(tables, led.place, &field.of), more),
            },
        },
    }
}

/// What is wrong with field names behind a type that stands in the top of a number.
pub fn fields_of<'a>(
    tables: &Tables<'a, '_>,
    place: usize,
    of: &'a TypeExpr,
    words: &[&Word],
) -> Option<u32>
    requires { AreTables tables.now }
    ensures { result ≡ least (scopes.fields_of (known_before tables.now.text.now place) of.now (words_at words.now)) }
{
    behind_led(tables, led_in(tables, place, of), words)
}
