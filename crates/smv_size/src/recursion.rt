// A module that contains itself.
ghost use Rattle.std.specs.Prelude.{◌≡◌, ◌<◌, [], ◌∷◌, ◌++◌, map, flat_map, length, Option, None, OnOk, IfOk, IfSome};
ghost use Rattle.std.specs.List.{filter_map};
ghost use Rattle.name_index.specs.Position.{position};
ghost use Rattle.graphs.specs.Graph.{lists, IsGraph};
ghost use Rattle.graphs.specs.Ranks.{Descends};
ghost use Rattle.smv_mentions.specs.Said.{AreNoted, said, told};
ghost use Rattle.smv_mentions.specs.NameFaults.{used_in};
ghost use Rattle.smv_size.specs.Recursion as spec;
ghost use Rattle.smv_size.specs.Recursion.{first_recursion, recursion_at, least_from, module_graph, names_told, places_used, recursive_at, recursive_told};

use graphs::ranks;
use name_index::NameIndex;
use smv_core::fault::Fault;
use smv_core::tree::Text;
use smv_mentions::mentions::Mention;
use smv_mentions::pieces::Piece;
use std::alloc::{AllocError, Global};

/// The first fault of a module that contains itself: an instance from whose module its own is reached.
pub fn recursion_fault(
    alloc: Global,
    text: &Text,
    pieces: &[Piece],
) -> Result<Option<Fault>, AllocError>
    requires { AreNoted pieces.now text.now }
    ensures { IfOk result (λ fault. fault ≡ first_recursion text.now) }
{
    let _ = text;
    let at = first_recursive(alloc, pieces)?;
    Ok(fault_at(at))
}

// The fault at a place.
fn fault_at(at: Option<u32>) -> Option<Fault>
    ensures { result ≡ recursion_at at }
{
    match at {
        None => None,
        Some(at) => Some(Fault { number: 10, at }),
    }
}

// The least place of an instance on a cycle.
fn first_recursive(alloc: Global, pieces: &[Piece]) -> Result<Option<u32>, AllocError>
    ensures { IfOk result (λ at. at ≡ spec.least_recursive (map told pieces.now)) }
{
    let names = names(alloc, pieces)?;
    let graph = graph(alloc, &names, pieces)?;
    let ranks = ranks::ranks(alloc, graph.as_slice())?;
    first_in_all(alloc, &names, graph.as_slice(), ranks.as_slice(), pieces)
}

// The same, with the names, the graph and its ranks.
#[tactic(auto, using(crate::proofs::Steps::steps))]
fn first_in_all(
    alloc: Global,
    names: &NameIndex,
    graph: &[Vec<usize>],
    ranks: &[usize],
    pieces: &[Piece],
) -> Result<Option<u32>, AllocError>
    requires edges { IsGraph (lists graph.now) }
    requires ranks { Descends (lists graph.now) ranks.now }
    requires nodes { length names.now ≡ length graph.now }
    ensures { IfOk result (λ at. at ≡ least_from None (flat_map (recursive_told names.now (lists graph.now)) (map told pieces.now))) }
{
    let mut first = None;
    for piece in pieces {
        first = first_in(alloc, names, graph, ranks, piece, first)?;
    }
    Ok(first)
}

// The names of the tops.
#[tactic(auto, using(crate::proofs::Steps::steps))]
fn names<'a>(alloc: Global, pieces: &[Piece<'a>]) -> Result<NameIndex<'a>, AllocError>
    ensures { IfOk result (λ names. names ≡ names_told (map told pieces.now)) }
{
    let mut names = NameIndex::new(alloc);
    for piece in pieces {
        names.push(&piece.word.name)?;
    }
    Ok(names)
}

// An edge from each module to those of its instances.
#[tactic(auto, using(crate::proofs::Steps::steps))]
fn graph(alloc: Global, names: &NameIndex, pieces: &[Piece]) -> Result<Vec<Vec<usize>>, AllocError>
    ensures { IfOk result (λ graph. lists graph.items ≡ module_graph names.now (map told pieces.now)) }
{
    let mut graph = Vec::new(alloc);
    for piece in pieces {
        graph.push(used(alloc, names, piece)?)?;
    }
    Ok(graph)
}

// The tops of which a module has instances.
fn used(alloc: Global, names: &NameIndex, piece: &Piece) -> Result<Vec<usize>, AllocError>
    ensures { IfOk result (λ places. places.items ≡ places_used names.now (told piece.now)) }
{
    match piece.formals {
        None => Ok(Vec::new(alloc)),
        Some(_) => instances(alloc, names, piece.mentions.as_slice()),
    }
}

// The modules of some instances.
#[tactic(auto, using(crate::proofs::Steps::steps))]
fn instances(
    alloc: Global,
    names: &NameIndex,
    mentions: &[Mention],
) -> Result<Vec<usize>, AllocError>
    ensures { IfOk result (λ places. places.items ≡ filter_map (position names.now) (used_in (map said mentions.now))) }
{
    let mut places = Vec::new(alloc);
    for mention in mentions {
        note(&mut places, names, mention)?;
    }
    Ok(places)
}

// The module of an instance.
#[tactic(auto, using(crate::proofs::Steps::steps))]
fn note(places: &mut Vec<usize>, names: &NameIndex, mention: &Mention) -> Result<(), AllocError>
    ensures { OnOk result (places.new.items ≡ places.old.items ++ filter_map (position names.now) (used_in (said mention.now ∷ []))) }
{
    if let Mention::Instantiates { module, .. } = mention
        && let Some(place) = names.find(&module.name)
    {
        places.push(place)?;
    }
    Ok(())
}

// The least place so far, or of an instance of this top on a cycle.
#[tactic(auto, using(crate::proofs::Steps::steps))]
fn first_in(
    alloc: Global,
    names: &NameIndex,
    graph: &[Vec<usize>],
    ranks: &[usize],
    piece: &Piece,
    first: Option<u32>,
) -> Result<Option<u32>, AllocError>
    requires edges { IsGraph (lists graph.now) }
    requires ranks { Descends (lists graph.now) ranks.now }
    requires nodes { length names.now ≡ length graph.now }
    ensures { IfOk result (λ at. at ≡ least_from first (recursive_told names.now (lists graph.now) (told piece.now))) }
{
    let target = names.find(&piece.word.name);
    let mut least = first;
    for mention in piece.mentions.as_slice() {
        least = first_at(alloc, names, graph, ranks, target, mention, least)?;
    }
    Ok(least)
}

// The same of one instance. It is looked at only where it stands before the first that was found.
#[tactic(auto, using(crate::proofs::Steps::firsts))]
fn first_at(
    alloc: Global,
    names: &NameIndex,
    graph: &[Vec<usize>],
    ranks: &[usize],
    target: Option<usize>,
    mention: &Mention,
    first: Option<u32>,
) -> Result<Option<u32>, AllocError>
    requires edges { IsGraph (lists graph.now) }
    requires ranks { Descends (lists graph.now) ranks.now }
    requires nodes { length names.now ≡ length graph.now }
    ensures { IfOk result (λ at. at ≡ least_from first (recursive_at names.now (lists graph.now) target (said mention.now))) }
{
    let Mention::Instantiates { module, .. } = mention else {
        return Ok(first);
    };
    if is_at_most(first, module.at) {
        return Ok(first);
    }
    let start = names.find(&module.name);
    let found = leads_back(alloc, graph, ranks, target, start)?;
    Ok(if found { Some(module.at) } else { first })
}

// A place that is at most another.
fn is_at_most(first: Option<u32>, at: u32) -> bool
    ensures { result ≡ spec.is_at_most first at }
{
    match first {
        None => false,
        Some(first) => first <= at,
    }
}

// Whether a top is reached from the module of an instance, where both are declared.
fn leads_back(
    alloc: Global,
    graph: &[Vec<usize>],
    ranks: &[usize],
    target: Option<usize>,
    start: Option<usize>,
) -> Result<bool, AllocError>
    requires edges { IsGraph (lists graph.now) }
    requires ranks { Descends (lists graph.now) ranks.now }
    requires start { IfSome start (λ start. start < length graph.now) }
    ensures { IfOk result (λ found. found ≡ spec.leads_back (lists graph.now) target start) }
{
    match (target, start) {
        (Some(target), Some(start)) => ranks::leads_back(alloc, graph, ranks, target, start),
        _ => Ok(false),
    }
}
