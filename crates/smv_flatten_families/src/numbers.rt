// The numbers by which a flattened text speaks of set types, enumerations and families.
ghost use Rattle.std.specs.Prelude.{◌≡◌, ◌≤◌, ◌++◌, [], ◌∷◌, map, length, IfOk, OnOk};
ghost use Rattle.std.specs.HashMap.{get};
ghost use Rattle.smv_core.specs.Values.{Path};
ghost use Rattle.smv_core.specs.Types as shapes;
ghost use Rattle.smv_core.specs.FlatOrder as flat_order;
ghost use Rattle.smv_core.specs.FlatOrder.{main, modules};
ghost use Rattle.smv_core.specs.Outcome.{same_path};
ghost use Rattle.smv_mentions.specs.Said.{AreNoted};
ghost use Rattle.smv_flatten_families.specs.Paths.{first_place};
ghost use Rattle.smv_flatten_families.specs.Families.{body_beside, body_now, in_place, instance_places, written};
ghost use Rattle.smv_flatten_families.specs.Types.{AreTypes};
ghost use Rattle.law_designs.specs.Flattening.{enums_of};
ghost use Rattle.smv_flatten_families.specs.Lists.{constants_from};
ghost use Rattle.smv_flatten_families.specs.Simples.{AreSimples};
ghost use Rattle.smv_flatten_families.specs.Held.{AreEnums, AreNumbers};

use crate::dots::dotted;
use crate::enums::{Constant, Lists, all_constants, all_lists, copied_lists, different_lists};
use crate::families::{Placed, add_instance, module_named};
use crate::places::{Names, note_place};
use crate::sets::{count_sets, set_names, sets_of};
use crate::simples::Simples;
use crate::types::{Types, types_with};
use name_index::map::NameMap;
use smv_copies::copy_types;
use smv_core::flat::{Family, SetInfo};
use smv_core::name::Name;
use smv_core::seq::Seq;
use smv_core::tree::{Item, Text, Top, Word};
use smv_mentions::pieces::Piece;
use std::alloc::{AllocError, Global};
use std::collections::HashMap;

/// The numbers by which a flattened text speaks of set types, enumerations and families, and what is looked up to find them.
#[derive(Drop)]
pub struct Numbers<'a> {
    pub text: &'a Text,
    /// The set types, in the order of their tops.
    pub sets: Seq<SetInfo>,
    /// The enumerations, each once.
    pub enums: Seq<Seq<Name>>,
    /// The families, in flat order.
    pub families: Seq<Family>,
    /// The modules by their names.
    pub modules: NameMap<'a, Body<'a>>,
    /// How many modules there are.
    pub module_count: usize,
    /// The types, with the numbers of set types and enumerations.
    pub types: Types<'a>,
    /// The constants, each by its list and its place there.
    pub constants: NameMap<'a, Constant>,
    /// The first place of each family's path.
    pub places: HashMap<Names<'a>, usize>,
}

/// An instance of a text: the names that lead to it from `main`.
#[derive(Clone, Copy)]
pub struct Here<'a, 'n> {
    pub numbers: &'n Numbers<'a>,
    pub instance: &'n [&'a Name],
}

/// A module: its formals and its items.
#[derive(Clone, Copy)]
pub struct Body<'a> {
    pub formals: &'a [Word],
    pub items: &'a [Item],
}

// One module more, where a top is one.
#[tactic(auto, using(smv_mentions::proofs::Notes::noting))]
fn add_module<'a>(modules: &mut NameMap<'a, Body<'a>>, top: &'a Top) -> Result<(), AllocError>
    ensures { OnOk result (map body_beside modules.new ≡ map body_beside modules.old ++ flat_order.modules (top.now ∷ [])) }
{
    match top {
        Top::SetType { .. } => Ok(()),
        Top::Alias { .. } => Ok(()),
        Top::Module {
            name,
            formals,
            body,
            ..
        } => {
            modules.push(
                &name.name,
                Body {
                    formals: formals.as_slice(),
                    items: body.as_slice(),
                },
            )?;
            Ok(())
        }
    }
}

// The modules of a text by their names.
#[tactic(auto, using(smv_mentions::proofs::Notes::noting, crate::proofs::ModuleLaws::steps))]
fn modules_of<'a>(alloc: Global, tops: &'a [Top]) -> Result<NameMap<'a, Body<'a>>, AllocError>
    ensures { IfOk result (λ held. map body_beside held ≡ modules tops.now) }
{
    let mut held = NameMap::new(alloc);
    for top in tops {
        add_module(&mut held, top)?;
    }
    Ok(held)
}

// Whether a top is a module, as a number.
fn one_if_module(top: &Top) -> usize
    ensures count { result ≡ length (modules (top.now ∷ [])) }
    ensures small { result ≤ 1 }
{
    match top {
        Top::SetType { .. } => 0,
        Top::Alias { .. } => 0,
        Top::Module { .. } => 1,
    }
}

// How many modules there are.
#[tactic(auto, using(crate::proofs::ModuleLaws::steps))]
fn count_modules(tops: &[Top]) -> usize
    ensures { result ≡ length (modules tops.now) }
{
    let mut count = 0;
    for top in tops {
        count += one_if_module(top);
    }
    count
}

// A family as it is written in the flattened text.
fn written_family(alloc: Global, placed: &Placed) -> Result<Family, AllocError>
    ensures { IfOk result (λ family. family ≡ written (in_place placed.now)) }
{
    let name = dotted(alloc, placed.names.as_slice())?;
    let over = copy_types(alloc, placed.over.as_slice())?;
    Ok(Family {
        name,
        over,
        value: placed.value,
        is_abstract: placed.is_abstract,
        at: placed.at,
    })
}

// The families as they are written.
#[tactic(auto, using(smv_mentions::proofs::Notes::noting))]
fn written_families(alloc: Global, all: &[Placed]) -> Result<Seq<Family>, AllocError>
    ensures { IfOk result (λ families. families ≡ map (λ placed. written (in_place placed)) all.now) }
{
    let mut families = Seq::new(alloc);
    for placed in all {
        let family = written_family(alloc, placed)?;
        families.push(family)?;
    }
    Ok(families)
}

// The first place of each family's path.
fn places_of<'a>(alloc: Global, all: &[Placed<'a>]) -> Result<HashMap<Names<'a>, usize>, AllocError>
    ensures { IfOk result (λ places. (path : Path) → get same_path places path ≡ first_place (map (λ placed. (in_place placed).path) all.now) path) }
{
    let mut places = HashMap::new(alloc);
    for place in 0..all.len() {
        let names = Vec::from_slice(alloc, all[place].names.as_slice())?;
        note_place(&mut places, Names::from_vec(names), place)?;
    }
    Ok(places)
}

// The families of a text, from the top of `main` on.
fn all_families<'a>(
    alloc: Global,
    types: &Types<'a>,
    modules: &NameMap<'a, Body<'a>>,
    count: usize,
) -> Result<Vec<Placed<'a>>, AllocError>
    requires types { AreTypes types.now }
    requires modules { map body_beside modules.now ≡ flat_order.modules types.now.simples.text.now.tops }
    ensures { IfOk result (λ all. map in_place all.items ≡ instance_places types.now.simples.text.now count [] main) }
{
    let main = Name::from_vec(Vec::from_slice(alloc, b"main")?);
    let mut out = Vec::new(alloc);
    add_instance(types, modules, &mut out, &[], &main, count)?;
    Ok(out)
}

// The enumerations of a text, each once.
fn lists_of<'a>(
    alloc: Global,
    text: &'a Text,
    pieces: &[Piece<'a>],
) -> Result<Lists<'a>, AllocError>
    requires { AreNoted pieces.now text.now }
    ensures { IfOk result (λ lists. AreEnums text.now lists) }
{
    let all = all_lists(alloc, pieces)?;
    different_lists(alloc, all.as_slice())
}

// The numbers of set types and enumerations, where these are the enumerations of the text.
fn simples_of<'a>(
    alloc: Global,
    text: &'a Text,
    lists: Lists<'a>,
) -> Result<Simples<'a>, AllocError>
    requires { AreEnums text.now lists }
    ensures simples { IfOk result (λ simples. AreSimples simples) }
    ensures text { IfOk result (λ simples. simples.text.now ≡ text.now) }
{
    let tops = text.tops.as_slice();
    let sets = set_names(alloc, tops)?;
    Ok(Simples {
        alloc,
        text,
        sets,
        set_count: count_sets(tops),
        list_count: lists.words.len(),
        lists: lists.places,
    })
}

/// The numbers of a text whose tops were noted. Also where a number does not fit its field, which no text within the limits has, no memory is said to be left.
pub fn numbers_of<'a>(
    alloc: Global,
    text: &'a Text,
    pieces: &[Piece<'a>],
) -> Result<Numbers<'a>, AllocError>
    requires { AreNoted pieces.now text.now }
    ensures text { IfOk result (λ numbers. numbers.text.now ≡ text.now) }
    ensures numbers { IfOk result (λ numbers. AreNumbers numbers) }
{
    let lists = lists_of(alloc, text, pieces)?;
    let enums = copied_lists(alloc, lists.words.as_slice())?;
    let constants = all_constants(alloc, lists.words.as_slice())?;
    let types = types_with(simples_of(alloc, text, lists)?)?;
    numbers_with(alloc, text, enums, constants, types)
}

// The numbers of a text whose enumerations and types are known.
fn numbers_with<'a>(
    alloc: Global,
    text: &'a Text,
    enums: Seq<Seq<Name>>,
    constants: NameMap<'a, Constant>,
    types: Types<'a>,
) -> Result<Numbers<'a>, AllocError>
    requires enums { enums ≡ enums_of text.now }
    requires constants { constants ≡ constants_from 0 (enums_of text.now) }
    requires types { AreTypes types }
    requires types_text { types.simples.text.now ≡ text.now }
    ensures text { IfOk result (λ numbers. numbers.text.now ≡ text.now) }
    ensures numbers { IfOk result (λ numbers. AreNumbers numbers) }
{
    let tops = text.tops.as_slice();
    let sets = sets_of(alloc, tops)?;
    let modules = modules_of(alloc, tops)?;
    let module_count = count_modules(tops);
    let placed = all_families(alloc, &types, &modules, module_count)?;
    let families = written_families(alloc, placed.as_slice())?;
    let places = places_of(alloc, placed.as_slice())?;
    Ok(Numbers {
        text,
        sets,
        enums,
        families,
        modules,
        module_count,
        types,
        constants,
        places,
    })
}

/// The module of a name, and one without formals and items where there is none.
pub fn body_of<'a>(numbers: &Numbers<'a>, name: &Name) -> Body<'a>
    requires { AreNumbers numbers.now }
    ensures { (types : shapes.Types) → body_now result ≡ flat_order.body_of types (modules numbers.now.text.now.tops) name.now }
{
    module_named(&numbers.modules, name)
}

/// How many modules a text has.
pub fn module_count(numbers: &Numbers) -> usize
    requires { AreNumbers numbers.now }
    ensures { result ≡ length (modules numbers.now.text.now.tops) }
{
    numbers.module_count
}
