// Constants that belong to several lists.
ghost use Rattle.std.specs.Prelude.{◌≡◌, ◌++◌, OnOk, Some, option_to_list};
ghost use Rattle.std.specs.List.{flat_map};
ghost use Rattle.smv_core.specs.Outcome.{same_path};
ghost use Rattle.smv_core.specs.Types.{names_of, find_name};
ghost use Rattle.smv_mentions.specs.Scopes.{pieces, constants};
ghost use Rattle.smv_scope.specs.Compared as compared;
ghost use Rattle.smv_scope.specs.Held.{AreTables, constant_of};
ghost use Rattle.smv_look_names.specs.Names as spec;

use smv_core::tree::Word;
use smv_scope::tables::{Constant, Tables, item_at};
use std::alloc::AllocError;

// Whether two lists have the same names in the same order.
#[tactic(auto, using(smv_scope::proofs::ConstantLaws::ends))]
fn same_names(left: &[Word], right: &[Word]) -> bool
    ensures { result ≡ same_path (names_of left.now) (names_of right.now) }
{
    let mut lefts = left;
    let mut rights = right;
    while let ([word, more @ ..], [other, others @ ..]) = (lefts, rights) {
        if word.name != other.name {
            return false;
        }
        lefts = more;
        rights = others;
    }
    lefts.is_empty() && rights.is_empty()
}

// The list of a number.
fn listed<'a>(tables: &Tables<'a, '_>, list: usize) -> &'a [Word]
    ensures { names_of result.now ≡ compared.listed tables.now.lists.items list }
{
    match item_at(tables.lists.as_slice(), list) {
        Some(words) => *words,
        None => &[],
    }
}

/// Puts a place at the end, if there is one.
pub(crate) fn push_place(out: &mut Vec<u32>, place: Option<u32>) -> Result<(), AllocError>
    ensures { OnOk result (out.new.items ≡ out.old.items ++ option_to_list place) }
{
    match place {
        Some(at) => {
            out.push(at)?;
            Ok(())
        }
        None => Ok(()),
    }
}

// Where a constant is listed first, if that is not this list.
fn if_other(tables: &Tables, names: &[Word], constant: &Constant) -> Option<u32>
    ensures { option_to_list result ≡ spec.in_other_list names.now (Some (constant_of tables.now.lists.items constant.now)) }
{
    if same_names(listed(tables, constant.list), names) {
        None
    } else {
        Some(constant.at)
    }
}

// Where a constant of this list is listed first, if that is another list.
fn in_other_list(tables: &Tables, names: &[Word], word: &Word) -> Option<u32>
    requires { AreTables tables.now }
    ensures { option_to_list result ≡ spec.in_other_list names.now (find_name (constants (pieces tables.now.text.now)) word.now.name) }
{
    match tables.constants.find(&word.name) {
        Some(constant) => if_other(tables, names, constant),
        None => None,
    }
}

// The same of the word at a place.
fn listed_at(tables: &Tables, names: &[Word], word: &Word, at: u32) -> Option<u32>
    requires { AreTables tables.now }
    ensures { option_to_list result ≡ spec.listed_at at (constants (pieces tables.now.text.now)) names.now word.now }
{
    if word.at == at {
        in_other_list(tables, names, word)
    } else {
        None
    }
}

/// Where the constant at a place is listed first, if that is another list.
pub(crate) fn push_listed(
    out: &mut Vec<u32>,
    tables: &Tables,
    names: &[Word],
    at: u32,
) -> Result<(), AllocError>
    requires { AreTables tables.now }
    ensures { OnOk result (out.new.items ≡ out.old.items ++ flat_map (spec.listed_at at (constants (pieces tables.now.text.now)) names.now) names.now) }
{
    for word in names {
        push_place(out, listed_at(tables, names, word, at))?;
    }
    Ok(())
}
