// The tables of a text.
ghost use Rattle.std.specs.Prelude.{◌≡◌, ◌≤◌, [], ◌∷◌, ◌++◌, List, map, min, length, Some, IfOk, OnOk};
ghost use Rattle.std.specs.List.{flat_map};
ghost use Rattle.smv_core.specs.declared.tree.Word.{Word};
ghost use Rattle.smv_mentions.specs.Scopes.{own_names};
ghost use Rattle.smv_mentions.specs.Said.{said, AreNoted};
ghost use Rattle.smv_scope.specs.Numbered.{top_names, top_word, fields_at};
ghost use Rattle.smv_scope.specs.Held.{AreLed, AreTables, fields_led, own_beside, lists_of, constants_of_list, constant_beside};

use crate::fields::led;
use crate::tables::{Constant, Led, Own, Tables, item_at};
use name_index::NameIndex;
use name_index::map::NameMap;
use smv_core::name::Name;
use smv_core::tree::{Text, Top, Word};
use smv_mentions::mentions::Mention;
use smv_mentions::pieces::Piece;
use std::alloc::{AllocError, Global};

// The name of a top.
fn top_name(top: &Top) -> &Name
    ensures { result.now ≡ (top_word top.now).name }
{
    match top {
        Top::SetType { name, .. } => &name.name,
        Top::Alias { name, .. } => &name.name,
        Top::Module { name, .. } => &name.name,
    }
}

// The names of the tops.
#[tactic(auto, using(smv_mentions::proofs::Notes::noting))]
fn names_of_tops<'a>(alloc: Global, tops: &'a [Top]) -> Result<NameIndex<'a>, AllocError>
    ensures { IfOk result (λ names. names ≡ map (λ top. (top_word top).name) tops.now) }
{
    let mut names = NameIndex::new(alloc);
    for top in tops {
        names.push(top_name(top))?;
    }
    Ok(names)
}

// The struct to which the top of a number leads, where the tops before it have theirs.
fn top_led<'a>(
    text: &'a Text,
    names: &NameIndex<'a>,
    structs: &[Option<Led<'a>>],
    place: usize,
) -> Option<Led<'a>>
    requires names { names.now ≡ top_names text.now }
    requires led { AreLed text.now structs.now }
    requires enough { min place (length text.now.tops) ≤ length structs.now }
    ensures { (words : List Word) → fields_at text.now place words ≡ fields_led text.now result words }
{
    match item_at(text.tops.as_slice(), place) {
        Some(Top::Alias { of, .. }) => led(text, names, structs, place, of),
        Some(Top::SetType { .. }) => None,
        Some(Top::Module { .. }) => None,
        None => None,
    }
}

// For each top the struct to which it leads.
fn structs_of<'a>(
    alloc: Global,
    text: &'a Text,
    names: &NameIndex<'a>,
) -> Result<Vec<Option<Led<'a>>>, AllocError>
    requires { names.now ≡ top_names text.now }
    ensures led { IfOk result (λ structs. AreLed text.now structs.items) }
    ensures all { IfOk result (λ structs. length structs.items ≡ length text.now.tops) }
{
    let mut structs = Vec::new(alloc);
    for place in 0..text.tops.len() {
        let led = top_led(text, names, structs.as_slice(), place);
        structs.push(led)?;
    }
    Ok(structs)
}

// One name more, where something is declared.
#[tactic(auto, using(smv_mentions::proofs::Notes::noting))]
fn add_own<'a>(own: &mut NameMap<'a, Own<'a>>, mention: &Mention<'a>) -> Result<(), AllocError>
    ensures { OnOk result (map own_beside own.new ≡ map own_beside own.old ++ own_names (said mention.now ∷ [])) }
{
    match *mention {
        Mention::Declares { word, what } => {
            own.push(&word.name, Own { at: word.at, what })?;
            Ok(())
        }
        _ => Ok(()),
    }
}

// The names that are declared.
#[tactic(auto, using(smv_mentions::proofs::Notes::noting))]
fn own_in<'a>(alloc: Global, mentions: &[Mention<'a>]) -> Result<NameMap<'a, Own<'a>>, AllocError>
    ensures { IfOk result (λ own. map own_beside own ≡ flat_map (λ mention. own_names (said mention ∷ [])) mentions.now) }
{
    let mut own = NameMap::new(alloc);
    for mention in mentions {
        add_own(&mut own, mention)?;
    }
    Ok(own)
}

// For each top the names that it declares.
#[tactic(auto, using(smv_mentions::proofs::Notes::noting))]
fn all_own<'a>(alloc: Global, pieces: &[Piece<'a>]) -> Result<Vec<NameMap<'a, Own<'a>>>, AllocError>
    ensures { IfOk result (λ all. map (λ own. map own_beside own) all.items ≡ map (λ piece. flat_map (λ mention. own_names (said mention ∷ [])) piece.mentions.items) pieces.now) }
{
    let mut all = Vec::new(alloc);
    for piece in pieces {
        let own = own_in(alloc, piece.mentions.as_slice())?;
        all.push(own)?;
    }
    Ok(all)
}

// One list more, where an enumeration lists its constants.
#[tactic(auto, using(smv_mentions::proofs::Notes::noting))]
fn add_list<'a>(lists: &mut Vec<&'a [Word]>, mention: &Mention<'a>) -> Result<(), AllocError>
    ensures { OnOk result (map (λ words. words.now) lists.new.items ≡ map (λ words. words.now) lists.old.items ++ lists_of (said mention.now)) }
{
    match *mention {
        Mention::ListsConstants { names } => {
            lists.push(names)?;
            Ok(())
        }
        _ => Ok(()),
    }
}

// The lists of these enumerations more.
#[tactic(auto, using(smv_mentions::proofs::Notes::noting))]
fn add_lists<'a>(lists: &mut Vec<&'a [Word]>, mentions: &[Mention<'a>]) -> Result<(), AllocError>
    ensures { OnOk result (map (λ words. words.now) lists.new.items ≡ map (λ words. words.now) lists.old.items ++ flat_map (λ mention. lists_of (said mention)) mentions.now) }
{
    for mention in mentions {
        add_list(lists, mention)?;
    }
    Ok(())
}

// The lists of all enumerations.
#[tactic(auto, using(smv_mentions::proofs::Notes::noting))]
fn all_lists<'a>(alloc: Global, pieces: &[Piece<'a>]) -> Result<Vec<&'a [Word]>, AllocError>
    ensures { IfOk result (λ lists. map (λ words. words.now) lists.items ≡ flat_map (λ piece. flat_map (λ mention. lists_of (said mention)) piece.mentions.items) pieces.now) }
{
    let mut lists = Vec::new(alloc);
    for piece in pieces {
        add_lists(&mut lists, piece.mentions.as_slice())?;
    }
    Ok(lists)
}

// The constants of the list of a number.
#[tactic(auto, using(smv_mentions::proofs::Notes::noting))]
fn add_constants<'a>(
    constants: &mut NameMap<'a, Constant>,
    number: usize,
    words: &'a [Word],
) -> Result<(), AllocError>
    ensures { OnOk result (constants.new ≡ constants.old ++ map (λ word. (word.name, record { at = word.at; list = number })) words.now) }
{
    for word in words {
        constants.push(
            &word.name,
            Constant {
                at: word.at,
                list: number,
            },
        )?;
    }
    Ok(())
}

// The constants of all enumerations, each with the number of its list.
fn all_constants<'a>(
    alloc: Global,
    lists: &[&'a [Word]],
) -> Result<NameMap<'a, Constant>, AllocError>
    ensures { IfOk result (λ constants. map (constant_beside lists.now) constants ≡ flat_map (λ words. constants_of_list words.now) lists.now) }
{
    let mut constants = NameMap::new(alloc);
    for number in 0..lists.len() {
        let words = lists[number];
        add_constants(&mut constants, number, words)?;
    }
    Ok(constants)
}

/// The tables of a text whose tops were noted.
pub fn tables<'a, 'p>(
    alloc: Global,
    text: &'a Text,
    pieces: &'p [Piece<'a>],
) -> Result<Tables<'a, 'p>, AllocError>
    requires { AreNoted pieces.now text.now }
    ensures text { IfOk result (λ tables. tables.text.now ≡ text.now) }
    ensures tables { IfOk result (λ tables. AreTables tables) }
{
    let names = names_of_tops(alloc, text.tops.as_slice())?;
    let structs = structs_of(alloc, text, &names)?;
    let own = all_own(alloc, pieces)?;
    let lists = all_lists(alloc, pieces)?;
    let constants = all_constants(alloc, lists.as_slice())?;
    Ok(Tables {
        text,
        pieces,
        names,
        structs,
        own,
        constants,
        lists,
    })
}
