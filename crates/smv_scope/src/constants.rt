// Constants that belong to several lists.
ghost use Rattle.std.specs.Prelude.{◌≡◌};
ghost use Rattle.smv_core.specs.Outcome.{same_path};
ghost use Rattle.smv_core.specs.Types.{names_of, find_name};
ghost use Rattle.smv_mentions.specs.NameFaults.{is_of_other_list};
ghost use Rattle.smv_mentions.specs.Scopes.{pieces, constants};
ghost use Rattle.smv_scope.specs.Compared as spec;
ghost use Rattle.smv_scope.specs.Compared.{IsCompared};
ghost use Rattle.smv_scope.specs.Held.{AreTables};
ghost use Rattle.smv_scope.specs.Rules.{others};
ghost use Rattle.smv_first_fault.specs.Firsts.{least};

use crate::tables::{Tables, item_at};
use smv_core::tree::Word;
use smv_first_fault::places::{first_of, place_if};

/// A list that was compared with another one, by its number, and whether the two are the same.
#[derive(Clone, Copy)]
pub struct Compared {
    list: usize,
    same: bool,
}

// Whether two lists have the same names in the same order.
#[tactic(auto, using(crate::proofs::ConstantLaws::ends))]
fn same_names(left: &[Word], right: &[Word]) -> bool
    ensures { result ≡ same_path (names_of left.now) (names_of right.now) }
{
    let mut lefts = left;
    let mut rights = right;
    while let ([word, more @ ..], [other, others @ ..]) = (lefts, rights) {
        if word.name != other.name {
            return false;
        }
        lefts = more;
        rights = others;
    }
    lefts.is_empty() && rights.is_empty()
}

// The list of a number.
fn listed<'a>(tables: &Tables<'a, '_>, list: usize) -> &'a [Word]
    ensures { names_of result.now ≡ spec.listed tables.now.lists.items list }
{
    match item_at(tables.lists.as_slice(), list) {
        Some(words) => *words,
        None => &[],
    }
}

// Whether the list of a number is this one. It is looked through only where another one was compared before.
fn compare(tables: &Tables, names: &[Word], last: Option<Compared>, list: usize) -> Compared
    requires { IsCompared tables.now.lists.items names.now last }
    ensures list { result.list ≡ list }
    ensures same { result.same ≡ same_path (spec.listed tables.now.lists.items list) (names_of names.now) }
{
    match last {
        Some(last) if last.list == list => last,
        _ => {
            let same = same_names(listed(tables, list), names);
            Compared { list, same }
        }
    }
}

// Whether a constant of this list belongs to another one.
fn is_of_other(tables: &Tables, names: &[Word], last: &mut Option<Compared>, word: &Word) -> bool
    requires tables { AreTables tables.now }
    requires last { IsCompared tables.now.lists.items names.now last.old }
    ensures other { result ≡ is_of_other_list names.now (find_name (constants (pieces tables.now.text.now)) word.now.name) }
    ensures last { IsCompared tables.now.lists.items names.now last.new }
{
    match tables.constants.find(&word.name) {
        Some(constant) => {
            let now = compare(tables, names, *last, constant.list);
            *last = Some(now);
            !now.same
        }
        None => false,
    }
}

/// The first constant of a list that belongs to another list.
pub(crate) fn other_constant(tables: &Tables, names: &[Word]) -> Option<u32>
    requires { AreTables tables.now }
    ensures { result ≡ least (others tables.now.text.now names.now) }
{
    let mut first = None;
    let mut last = None;
    for word in names {
        let other = is_of_other(tables, names, &mut last, word);
        first = first_of(first, place_if(other, word.at));
    }
    first
}
