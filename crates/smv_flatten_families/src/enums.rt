// The enumerations of a text, each once, and their constants.
ghost use Rattle.std.specs.Prelude.{◌≡◌, List, [], ◌∷◌, ◌++◌, map, IfOk, OnOk};
ghost use Rattle.std.specs.List.{flat_map};
ghost use Rattle.smv_core.specs.Values.{Path};
ghost use Rattle.smv_core.specs.Types.{names_of};
ghost use Rattle.smv_mentions.specs.Said.{said};
ghost use Rattle.law_designs.specs.Flattening.{enum_of};
ghost use Rattle.smv_flatten_families.specs.Lists.{AreLists, constants_from, constants_of_list};

use crate::fits::short;
use crate::names::{copied_names, key_of_words};
use crate::places::{Names, note_place, place_of};
use name_index::map::NameMap;
use smv_core::name::Name;
use smv_core::seq::Seq;
use smv_core::tree::Word;
use smv_mentions::mentions::Mention;
use smv_mentions::pieces::Piece;
use std::alloc::{AllocError, Global};
use std::collections::HashMap;

/// A constant, by the number of its list and its place there.
#[derive(Clone, Copy)]
pub struct Constant {
    pub list: u16,
    pub value: u16,
}

/// Lists of constants, each once, and the place of each.
#[derive(Drop)]
pub struct Lists<'a> {
    pub words: Vec<&'a [Word]>,
    pub places: HashMap<Names<'a>, usize>,
}

// One list more, where an enumeration lists its constants.
#[tactic(auto, using(smv_mentions::proofs::Notes::noting))]
fn add_list<'a>(lists: &mut Vec<&'a [Word]>, mention: &Mention<'a>) -> Result<(), AllocError>
    ensures { OnOk result (map (λ words. names_of words.now) lists.new.items ≡ map (λ words. names_of words.now) lists.old.items ++ enum_of (said mention.now)) }
{
    match *mention {
        Mention::ListsConstants { names } => {
            lists.push(names)?;
            Ok(())
        }
        _ => Ok(()),
    }
}

// The lists of these enumerations more.
#[tactic(auto, using(smv_mentions::proofs::Notes::noting))]
fn add_lists<'a>(lists: &mut Vec<&'a [Word]>, mentions: &[Mention<'a>]) -> Result<(), AllocError>
    ensures { OnOk result (map (λ words. names_of words.now) lists.new.items ≡ map (λ words. names_of words.now) lists.old.items ++ flat_map (λ mention. enum_of (said mention)) mentions.now) }
{
    for mention in mentions {
        add_list(lists, mention)?;
    }
    Ok(())
}

/// The lists of all enumerations, as often as they are written.
#[tactic(auto, using(smv_mentions::proofs::Notes::noting))]
pub fn all_lists<'a>(alloc: Global, pieces: &[Piece<'a>]) -> Result<Vec<&'a [Word]>, AllocError>
    ensures { IfOk result (λ lists. map (λ words. names_of words.now) lists.items ≡ flat_map (λ piece. flat_map (λ mention. enum_of (said mention)) piece.mentions.items) pieces.now) }
{
    let mut lists = Vec::new(alloc);
    for piece in pieces {
        add_lists(&mut lists, piece.mentions.as_slice())?;
    }
    Ok(lists)
}

// One list more, unless it is there.
fn add_different<'a>(
    alloc: Global,
    lists: &mut Lists<'a>,
    words: &'a [Word],
) -> Result<(), AllocError>
    ensures { OnOk result ((seen : List Path) → AreLists lists.old seen → AreLists lists.new (seen ++ names_of words.now ∷ [])) }
{
    let names = key_of_words(alloc, words)?;
    match place_of(&lists.places, &names) {
        Some(_) => Ok(()),
        None => {
            let place = lists.words.len();
            note_place(&mut lists.places, names, place)?;
            lists.words.push(words)?;
            Ok(())
        }
    }
}

/// These lists, each once, at its first place.
pub(crate) fn different_lists<'a>(
    alloc: Global,
    all: &[&'a [Word]],
) -> Result<Lists<'a>, AllocError>
    ensures { IfOk result (λ lists. AreLists lists (map (λ words. names_of words.now) all.now)) }
{
    let mut lists = Lists {
        words: Vec::new(alloc),
        places: HashMap::new(alloc),
    };
    for words in all {
        add_different(alloc, &mut lists, words)?;
    }
    Ok(lists)
}

/// These lists once more.
#[tactic(auto, using(smv_mentions::proofs::Notes::noting))]
pub(crate) fn copied_lists(alloc: Global, lists: &[&[Word]]) -> Result<Seq<Seq<Name>>, AllocError>
    ensures { IfOk result (λ copies. copies ≡ map (λ words. names_of words.now) lists.now) }
{
    let mut copies = Seq::new(alloc);
    for words in lists {
        let copy = copied_names(alloc, words)?;
        copies.push(copy)?;
    }
    Ok(copies)
}

// The constants of the list of a number.
#[tactic(auto, using(smv_mentions::proofs::Notes::noting))]
fn add_constants<'a>(
    constants: &mut NameMap<'a, Constant>,
    list: u16,
    words: &'a [Word],
) -> Result<(), AllocError>
    ensures { OnOk result (constants.new ≡ constants.old ++ constants_of_list list 0 (names_of words.now)) }
{
    for place in 0..words.len() {
        let value = short(place)?;
        constants.push(&words[place].name, Constant { list, value })?;
    }
    Ok(())
}

/// The constants of these lists, each with the number of its list and its place there.
#[tactic(auto, using(smv_mentions::proofs::Notes::noting))]
pub fn all_constants<'a>(
    alloc: Global,
    lists: &[&'a [Word]],
) -> Result<NameMap<'a, Constant>, AllocError>
    ensures { IfOk result (λ constants. constants ≡ constants_from 0 (map (λ words. names_of words.now) lists.now)) }
{
    let mut constants = NameMap::new(alloc);
    for place in 0..lists.len() {
        let list = short(place)?;
        add_constants(&mut constants, list, lists[place])?;
    }
    Ok(constants)
}
