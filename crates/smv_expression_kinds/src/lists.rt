// Lists of constants, and their numbers in the tables of a text.
ghost use Rattle.std.specs.Prelude.{◌≡◌, option_map};
ghost use Rattle.smv_core.specs.Types.{names_of};
ghost use Rattle.smv_core.specs.Outcome.{same_path};
ghost use Rattle.smv_mentions.specs.Scopes.{pieces, constants};
ghost use Rattle.law_designs.specs.Kinds.{enumeration};
ghost use Rattle.smv_scope.specs.Compared.{listed};
ghost use Rattle.smv_scope.specs.Held.{AreTables};
ghost use Rattle.smv_expression_kinds.specs.Forms.{kind_of};
ghost use Rattle.law_designs.specs.Owned.{owner, IsOwned};

use crate::kinds::ValueKind;
use smv_core::tree::Word;
use smv_scope::tables::{Tables as ScopeTables, item_at};

/// The names are the same, in their order.
pub fn same_names(names: &[Word], others: &[Word]) -> bool
    ensures { result ≡ same_path (names_of names.now) (names_of others.now) }
{
    if names.len() != others.len() {
        return false;
    }
    for index in 0..names.len() {
        if names[index].name != others[index].name {
            return false;
        }
    }
    true
}

/// The list of a number.
pub(crate) fn list_of<'a>(names: &ScopeTables<'a, '_>, list: usize) -> &'a [Word]
    ensures { names_of result.now ≡ listed names.now.lists.items list }
{
    match item_at(names.lists.as_slice(), list) {
        Some(words) => *words,
        None => &[],
    }
}

/// The lists of two numbers are the same. Names are looked at where the numbers differ alone, and then the first ones tell, unless a name has a fault.
#[tactic(auto, using(crate::proofs::ListLaws::lists))]
pub(crate) fn same_lists(names: &ScopeTables, list: usize, other: usize) -> bool
    ensures { result ≡ same_path (listed names.now.lists.items list) (listed names.now.lists.items other) }
{
    if list == other {
        return true;
    }
    same_names(list_of(names, list), list_of(names, other))
}

// The number of the list to which the first of these constants belongs.
fn owning_list(names: &ScopeTables, words: &[Word]) -> Option<usize>
    requires { AreTables names.now }
    ensures { option_map (listed names.now.lists.items) result ≡ owner (constants (pieces names.now.text.now)) (names_of words.now) }
{
    match item_at(words, 0) {
        None => None,
        Some(word) => match names.constants.find(&word.name) {
            Some(constant) => Some(constant.list),
            None => None,
        },
    }
}

// The kind of a constant of the enumeration that lists these, by the number of its list where it has one.
fn listed_kind<'a>(names: &ScopeTables<'a, '_>, words: &'a [Word]) -> ValueKind<'a>
    requires { AreTables names.now }
    ensures { kind_of names.now result ≡ enumeration (names_of words.now) }
{
    match owning_list(names, words) {
        Some(list) => {
            if same_names(list_of(names, list), words) {
                ValueKind::Listed { list }
            } else {
                ValueKind::Enumeration { names: words }
            }
        }
        None => ValueKind::Enumeration { names: words },
    }
}

/// A kind, by the number of its list where it has one. It takes a step for each name that is looked at.
pub fn numbered<'a>(names: &ScopeTables<'a, '_>, kind: ValueKind<'a>) -> ValueKind<'a>
    requires { AreTables names.now }
    ensures { kind_of names.now result ≡ kind_of names.now kind.entry }
{
    match kind {
        ValueKind::Enumeration { names: words } => listed_kind(names, words),
        ValueKind::Number => kind,
        ValueKind::Listed { .. } => kind,
        ValueKind::SetType { .. } => kind,
        ValueKind::Unknown => kind,
    }
}

/// A kind whose first constant belongs to no other list, by the number of that list. It takes one step.
pub(crate) fn numbered_by_first<'a>(
    names: &ScopeTables<'a, '_>,
    kind: ValueKind<'a>,
) -> ValueKind<'a>
    requires tables { AreTables names.now }
    requires owned { IsOwned (constants (pieces names.now.text.now)) (kind_of names.now kind) }
    ensures { kind_of names.now result ≡ kind_of names.now kind.entry }
{
    match kind {
        ValueKind::Enumeration { names: words } => match owning_list(names, words) {
            Some(list) => ValueKind::Listed { list },
            None => kind,
        },
        ValueKind::Number => kind,
        ValueKind::Listed { .. } => kind,
        ValueKind::SetType { .. } => kind,
        ValueKind::Unknown => kind,
    }
}
