// The claims of a name in `main`, and over which type a parameter of each runs.
ghost use Rattle.std.specs.Prelude.{◌≡◌, ◌++◌, ◌∷◌, [], if◌then◌else◌, flat_map, Some, option_copied, IfOk, OnOk};
ghost use Rattle.std.specs.List.{list_any};
ghost use Rattle.std.specs.Str.{bytes_eq};
ghost use Rattle.smv_strengthen.specs.Claims as spec;
ghost use Rattle.smv_strengthen.specs.Claims.{candidate, candidates, top_candidates};

use smv_core::name::Name;
use smv_core::tree::{Item, Top, TypeExpr, Word};
use std::alloc::{AllocError, Global};

/// A claim of the name: where it stands, and the type that the innermost binder of the variable names, if the variable is one of its parameters.
#[derive(Drop)]
pub struct Candidate {
    pub at: u32,
    pub set: Option<Name>,
}

fn copy_name(alloc: Global, name: &Name) -> Result<Name, AllocError>
    ensures { IfOk result (λ copy. copy ≡ name.now) }
{
    Ok(Name::from_vec(Vec::from_slice(alloc, name.as_bytes())?))
}

fn copy_named(alloc: Global, name: Option<&Name>) -> Result<Option<Name>, AllocError>
    ensures { IfOk result (λ copy. copy ≡ option_copied name.entry) }
{
    match name {
        Some(name) => Ok(Some(copy_name(alloc, name)?)),
        None => Ok(None),
    }
}

// The name of a type that is one name.
fn type_name(over: &TypeExpr) -> Option<&Name>
    ensures { option_copied result ≡ spec.type_name (Some over.now) }
{
    match over {
        TypeExpr::Named { name, .. } => Some(&name.name),
        TypeExpr::Boolean | TypeExpr::Range { .. } | TypeExpr::Enum { .. } => None,
        TypeExpr::Array { .. } | TypeExpr::Struct { .. } => None,
    }
}

// What the innermost binder of the variable names, inside one binder more.
fn inside<'a>(
    var: &Name,
    set: Option<&'a Name>,
    word: &Word,
    over: &'a TypeExpr,
) -> Option<&'a Name>
    ensures { option_copied result ≡ spec.inside var.now (option_copied set.entry) word.now over.now }
{
    if word.name.as_bytes() == var.as_bytes() {
        type_name(over)
    } else {
        set
    }
}

fn has_word(words: &[Word], name: &Name) -> bool
    ensures { result ≡ list_any (λ word. bytes_eq word.name name.now) words.now }
{
    words
        .iter()
        .any(|word| word.name.as_bytes() == name.as_bytes())
}

// The same, if the variable is one of these names.
fn of_parameter<'a>(var: &Name, set: Option<&'a Name>, vars: &[Word]) -> Option<&'a Name>
    ensures { option_copied result ≡ spec.of_parameter var.now (option_copied set.entry) vars.now }
{
    if has_word(vars, var) { set } else { None }
}

// A claim with these names in its brackets.
fn one_claim(
    alloc: Global,
    var: &Name,
    set: Option<&Name>,
    word: &Word,
    vars: &[Word],
) -> Result<Candidate, AllocError>
    ensures { IfOk result (λ one. one ≡ candidate var.now (option_copied set.entry) word.now vars.now) }
{
    let set = copy_named(alloc, of_parameter(var, set, vars))?;
    Ok(Candidate { at: word.at, set })
}

// One claim more, if it has the name.
fn add_claim(
    alloc: Global,
    out: &mut Vec<Candidate>,
    name: &Name,
    var: &Name,
    set: Option<&Name>,
    word: &Word,
    vars: &[Word],
) -> Result<(), AllocError>
    ensures { OnOk result (out.new.items ≡ out.old.items ++ (if bytes_eq word.now.name name.now then candidate var.now (option_copied set.entry) word.now vars.now ∷ [] else [])) }
{
    if word.name.as_bytes() == name.as_bytes() {
        out.push(one_claim(alloc, var, set, word, vars)?)?;
    }
    Ok(())
}

#[cycle(claims)]
#[tactic(auto, using(crate::proofs::ClaimLaws::equations))]
fn in_item(
    alloc: Global,
    out: &mut Vec<Candidate>,
    name: &Name,
    var: &Name,
    set: Option<&Name>,
    x: &Item,
) -> Result<(), AllocError>
    ensures { OnOk result (out.new.items ≡ out.old.items ++ candidates name.now var.now (option_copied set.entry) x.now) }
{
    match x {
        Item::Forall {
            var: word,
            over,
            body,
            ..
        } => in_item(
            alloc,
            out,
            name,
            var,
            inside(var, set, word, over),
            body.get(),
        ),
        Item::Block { items } => in_items(alloc, out, name, var, set, items.as_slice()),
        Item::Claim {
            name: word,
            vars,
            ..
        } => add_claim(alloc, out, name, var, set, word, vars.as_slice()),
        Item::Declare { .. } | Item::Instance { .. } | Item::Layer { .. } => Ok(()),
        Item::Split { .. } | Item::Using { .. } | Item::Act { .. } => Ok(()),
    }
}

#[cycle(claims)]
fn in_items(
    alloc: Global,
    out: &mut Vec<Candidate>,
    name: &Name,
    var: &Name,
    set: Option<&Name>,
    items: &[Item],
) -> Result<(), AllocError>
    ensures { OnOk result (out.new.items ≡ out.old.items ++ flat_map (candidates name.now var.now (option_copied set.entry)) items.now) }
{
    for x in items {
        in_item(alloc, out, name, var, set, x)?;
    }
    Ok(())
}

// Those of a module `main`.
fn in_top(
    alloc: Global,
    out: &mut Vec<Candidate>,
    name: &Name,
    var: &Name,
    top: &Top,
) -> Result<(), AllocError>
    ensures { OnOk result (out.new.items ≡ out.old.items ++ top_candidates name.now var.now top.now) }
{
    match top {
        Top::Module {
            name: word,
            body,
            ..
        } => {
            if word.name.as_bytes() == b"main".as_slice() {
                in_items(alloc, out, name, var, None, body.as_slice())
            } else {
                Ok(())
            }
        }
        Top::SetType { .. } | Top::Alias { .. } => Ok(()),
    }
}

/// The claims of a name in the modules `main`, under binders and blocks.
pub(crate) fn claims_of(
    alloc: Global,
    tops: &[Top],
    name: &Name,
    var: &Name,
) -> Result<Vec<Candidate>, AllocError>
    ensures { IfOk result (λ found. found.items ≡ flat_map (top_candidates name.now var.now) tops.now) }
{
    let mut out = Vec::new(alloc);
    for top in tops {
        in_top(alloc, &mut out, name, var, top)?;
    }
    Ok(out)
}
