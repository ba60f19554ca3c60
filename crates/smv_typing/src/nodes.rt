// How much a text becomes when it is flattened: `for`, instances and paths copy what the text says once.
use crate::weights::{
    Families, NODE, ONE_FAMILY, behind, bytes_of, expression, expressions, families_of, plus,
    statement, statements, times,
};
use name_index::map::NameMap;
use smv_core::name::Name;
use smv_core::tree::{Expr, Item, Pair, Ref, Stmt, Text, Top, TypeExpr, Use, Word};
use std::alloc::{AllocError, Global};

// What a flattened text may count: 2^24 nodes.
const MOST: u64 = 1 << 28;

// The instances that a text may have, `main` among them.
const MOST_INSTANCES: usize = 4_097;

// Instances of a module, and what the connections of one become.
#[derive(Clone, Copy)]
struct Inner<'a> {
    words: &'a [Word],
    module: &'a Name,
    connections: u64,
}

// A module: what it becomes in an instance, without the names that lead to the instance; in how many names these stand; and how often each of them is
// a node of a reference.
#[derive(Drop)]
struct Module<'a> {
    own: u64,
    names: u64,
    references: u64,
    inner: Vec<Inner<'a>>,
}

// An instance that is to be looked at: its module, how many names lead to it, and their bytes, with a dot behind each.
#[derive(Clone, Copy)]
struct Visit<'a> {
    module: &'a Name,
    depth: u64,
    bytes: u64,
}

// ---- what an item says

// A name is a node with its bytes.
fn word_weight(word: &Word) -> u64 {
    plus(NODE, bytes_of(&word.name))
}

fn words_weight(words: &[Word]) -> u64 {
    let mut total = 0;
    for word in words {
        total = plus(total, word_weight(word));
    }
    total
}

fn pairs_weight(pairs: &[Pair]) -> u64 {
    let mut total = 0;
    for pair in pairs {
        total = plus(
            total,
            plus(expression(&pair.left), word_weight(&pair.right)),
        );
    }
    total
}

fn reference_weight(of: &Ref) -> u64 {
    plus(
        words_weight(of.path.as_slice()),
        words_weight(of.names.as_slice()),
    )
}

fn uses_weight(uses: &[Use]) -> u64 {
    let mut total = 0;
    for one in uses {
        let weight = match one {
            Use::Plain { of } => reference_weight(of),
            Use::Early { of } => reference_weight(of),
            Use::Keep { names, .. } => words_weight(names.as_slice()),
        };
        total = plus(total, plus(NODE, weight));
    }
    total
}

fn references_weight(references: &[Ref]) -> u64 {
    let mut total = 0;
    for of in references {
        total = plus(total, plus(NODE, reference_weight(of)));
    }
    total
}

// The connections of an instance: an assignment for each argument.
fn connections_weight(args: &[Expr]) -> u64 {
    plus(times(2 * NODE, args.len() as u64), expressions(args))
}

// ---- modules

// So much more, and so many names and references that the names of the instance stand in front of.
fn add(module: &mut Module, own: u64, names: u64, references: u64) {
    module.own = plus(module.own, own);
    module.names = plus(module.names, names);
    module.references = plus(module.references, references);
}

// The families of signals.
fn add_signals(words: &[Word], of: Families, module: &mut Module) {
    for word in words {
        let all = behind(&word.name, of);
        add(
            module,
            plus(times(all.count, NODE), all.bytes),
            all.count,
            0,
        );
    }
}

fn add_signals_of(words: &[Word], of: &TypeExpr, types: &NameMap<Families>, module: &mut Module) {
    add_signals(words, families_of(of, types), module);
}

// Statements of a layer, each inside the binders around them.
fn add_layer(name: &Word, body: &[Stmt], around: u64, module: &mut Module) {
    let all = plus(statements(body), times(around, body.len() as u64));
    add(module, plus(word_weight(name), all), 0, 0);
}

fn add_claim(name: &Word, vars: &[Word], body: &Expr, around: u64, module: &mut Module) {
    let named = plus(word_weight(name), words_weight(vars));
    add(module, plus(plus(named, around), expression(body)), 1, 0);
}

fn add_split(
    name: &Word,
    vars: &[Word],
    of: &Ref,
    pairs: &[Pair],
    around: u64,
    module: &mut Module,
) {
    let named = plus(word_weight(name), words_weight(vars));
    let said = plus(reference_weight(of), pairs_weight(pairs));
    add(module, plus(plus(named, around), said), 1, 1);
}

fn add_using(uses: &[Use], proves: &[Ref], around: u64, module: &mut Module) {
    let said = plus(uses_weight(uses), references_weight(proves));
    let count = plus(uses.len() as u64, proves.len() as u64);
    add(module, plus(plus(NODE, around), said), 1, count);
}

// What an item says inside binders that become so much around each of its entries.
#[cycle(items)]
fn add_item<'a>(
    item: &'a Item,
    around: u64,
    types: &NameMap<Families>,
    module: &mut Module<'a>,
) -> Result<(), AllocError> {
    match item {
        Item::Declare { names, of, .. } => add_signals_of(names.as_slice(), of, types, module),
        Item::Instance {
            names,
            module: of,
            args,
            ..
        } => {
            module.inner.push(Inner {
                words: names.as_slice(),
                module: &of.name,
                connections: connections_weight(args.as_slice()),
            })?;
        }
        Item::Layer { name, body, .. } => add_layer(name, body.as_slice(), around, module),
        Item::Forall { var, body, .. } => {
            return add_item(body.get(), plus(around, word_weight(var)), types, module);
        }
        Item::Block { items } => return add_items(items.as_slice(), around, types, module),
        Item::Claim {
            name,
            vars,
            body,
            ..
        } => add_claim(name, vars.as_slice(), body, around, module),
        Item::Split {
            name,
            vars,
            of,
            pairs,
            ..
        } => add_split(name, vars.as_slice(), of, pairs.as_slice(), around, module),
        Item::Using { uses, proves, .. } => {
            add_using(uses.as_slice(), proves.as_slice(), around, module);
        }
        Item::Act { act } => add(module, plus(around, statement(act)), 0, 0),
    }
    Ok(())
}

#[cycle(items)]
fn add_items<'a>(
    items: &'a [Item],
    around: u64,
    types: &NameMap<Families>,
    module: &mut Module<'a>,
) -> Result<(), AllocError> {
    for item in items {
        add_item(item, around, types, module)?;
    }
    Ok(())
}

// ---- the text

// A type with its families, or a module.
fn note_top<'a>(
    alloc: Global,
    top: &'a Top,
    types: &mut NameMap<'a, Families>,
    modules: &mut NameMap<'a, Module<'a>>,
) -> Result<(), AllocError> {
    match top {
        Top::SetType { name, .. } => types.push(&name.name, ONE_FAMILY),
        Top::Alias { name, of, .. } => {
            let of = families_of(of, types);
            types.push(&name.name, of)
        }
        Top::Module { name, body, .. } => {
            let mut module = Module {
                own: 0,
                names: 0,
                references: 0,
                inner: Vec::new(alloc),
            };
            add_items(body.as_slice(), 0, types, &mut module)?;
            modules.push(&name.name, module)
        }
    }
}

// What an instance becomes, without those inside it.
fn weight_at(module: &Module, visit: Visit) -> u64 {
    let named = times(module.names, visit.bytes);
    let referred = times(
        module.references,
        plus(times(visit.depth, NODE), visit.bytes),
    );
    plus(module.own, plus(named, referred))
}

// What the connections of the instances inside one become; each of them is to be looked at.
fn enter<'a>(
    module: &Module<'a>,
    visit: Visit<'a>,
    left: &mut Vec<Visit<'a>>,
) -> Result<u64, AllocError> {
    let mut total = 0;
    for inner in &module.inner {
        for word in inner.words {
            total = plus(total, inner.connections);
            left.push(Visit {
                module: inner.module,
                depth: plus(visit.depth, 1),
                bytes: plus(visit.bytes, plus(1, bytes_of(&word.name))),
            })?;
        }
    }
    Ok(total)
}

// The name of the module `main`.
fn main_of(tops: &[Top]) -> Option<&Name> {
    for top in tops {
        if let Top::Module { name, .. } = top {
            if name.name.as_bytes() == b"main".as_slice() {
                return Some(&name.name);
            }
        }
    }
    None
}

// Whether what is said from `main` on counts too much.
fn is_over<'a>(
    alloc: Global,
    main: &'a Name,
    modules: &NameMap<'a, Module<'a>>,
) -> Result<bool, AllocError> {
    let mut left = Vec::new(alloc);
    left.push(Visit {
        module: main,
        depth: 0,
        bytes: 0,
    })?;
    let mut total = 0;
    for _ in 0..MOST_INSTANCES {
        let Some(visit) = left.pop() else {
            return Ok(false);
        };
        if let Some(module) = modules.find(visit.module) {
            let inside = enter(module, visit, &mut left)?;
            total = plus(total, plus(inside, weight_at(module, visit)));
        }
        if total > MOST {
            return Ok(true);
        }
    }
    Ok(!left.is_empty())
}

// Whether the flattened text counts too much.
fn are_too_many(alloc: Global, text: &Text) -> Result<bool, AllocError> {
    let tops = text.tops.as_slice();
    let mut types = NameMap::new(alloc);
    let mut modules = NameMap::new(alloc);
    for top in tops {
        note_top(alloc, top, &mut types, &mut modules)?;
    }
    match main_of(tops) {
        None => Ok(false),
        Some(main) => is_over(alloc, main, &modules),
    }
}

/// Want of memory where the flattened text would have more than 2^24 nodes: its statements, its expressions, its families, its claims, splits and uses, the
/// names written there, and one for each 16 bytes of all names. They are counted and not made: a `for` counts its body once for each turn, a `switch` its
/// value once for each arm, and each instance its module and the names that lead to it.
pub(crate) fn check_nodes(alloc: Global, text: &Text) -> Result<(), AllocError> {
    if are_too_many(alloc, text)? {
        return Err(AllocError);
    }
    Ok(())
}
