// The flattened text.
ghost use Rattle.std.specs.Prelude.{◌≡◌, ◌++◌, ◌∷◌, [], map, flat_map, IfOk, OnOk};
ghost use Rattle.smv_core.specs.FlatOrder.{modules};
ghost use Rattle.smv_mentions.specs.Said.{AreNoted};
ghost use Rattle.law_designs.specs.Flattening as flattening;
ghost use Rattle.law_designs.specs.Flattening.{within};
ghost use Rattle.smv_flatten_families.specs.Held.{AreNumbers, instance_of};
ghost use Rattle.smv_flatten_statements.specs.Around.{around_of};
ghost use Rattle.smv_flatten.specs.Leaves.{binders_of};
ghost use Rattle.smv_flatten.specs.Layers.{AreSame};
ghost use Rattle.smv_flatten.specs.Roles.{roles_beside};
ghost use Rattle.smv_flatten.specs.Items.{flat_said, flat_met};

use crate::acts::{statement, statements, variables};
use crate::connections::connections;
use crate::goals::{claimed, divided, used};
use crate::layers::{Layers, layers_met, number};
use crate::leaves::{Binder, What};
use crate::met::{Met, all_met};
use crate::places::placed;
use crate::roles::{role_table, roles_named};
use name_index::map::NameMap;
use smv_core::flat::{FlatItem, FlatText};
use smv_core::name::Name;
use smv_core::seq::Seq;
use smv_core::tree::{Role, Text};
use smv_flatten_families::numbers::{Here, Numbers, body_of, numbers_of};
use smv_flatten_statements::vars::Var;
use smv_mentions::pieces::Piece;
use std::alloc::{AllocError, Global};

// One item more.
fn put(item: FlatItem, out: &mut Vec<FlatItem>) -> Result<(), AllocError>
    ensures { OnOk result (out.new.items ≡ out.old.items ++ item ∷ []) }
{
    out.push(item)?;
    Ok(())
}

// What an item inside these binders is, whose variables are `vars`.
#[tactic(auto, using(smv_mentions::proofs::Notes::noting, crate::proofs::FlatLaws::items))]
fn add_item<'a>(
    alloc: Global,
    here: Here<'a, '_>,
    layers: &Layers,
    roles: &NameMap<'_, Seq<Role>>,
    around: &[Binder<'a>],
    vars: &[Var<'a>],
    what: What<'a>,
    out: &mut Vec<FlatItem>,
) -> Result<(), AllocError>
    requires numbers { AreNumbers here.numbers.now }
    requires layers { AreSame layers.now }
    requires roles { roles.now ≡ map roles_beside (modules here.numbers.now.text.now.tops) }
    requires within { around_of vars.now ≡ within [] (binders_of around.now) }
    ensures { OnOk result (out.new.items ≡ out.old.items ++ flat_said here.entry.numbers.now.text.now layers.now.names (instance_of here.entry) (binders_of around.now) what.entry) }
{
    match what {
        What::Instance { name, of, args } => {
            let formals = body_of(here.numbers, &of.name).formals;
            let roles = roles_named(roles, &of.name);
            connections(
                alloc, here, around, vars, &name.name, formals, roles, args, out,
            )
        }
        What::Layer { name, body } => {
            let layer = Some(number(layers, &name.name)?);
            statements(alloc, here, around, vars, layer, body, out)
        }
        What::Claim {
            name,
            vars: brackets,
            body,
            at,
        } => {
            let item = claimed(alloc, here, around, vars, name, brackets, body, at)?;
            put(item, out)
        }
        What::Split {
            name,
            vars: brackets,
            of,
            pairs,
            at,
        } => {
            let item = divided(alloc, here, around, vars, name, brackets, of, pairs, at)?;
            put(item, out)
        }
        What::Using { uses, proves, at } => {
            let item = used(alloc, here, around, uses, proves, at)?;
            put(item, out)
        }
        What::Act { act } => {
            let item = statement(alloc, here, around, vars, None, act)?;
            put(item, out)
        }
    }
}

// What is met as items of the flattened text.
#[tactic(auto, using(smv_mentions::proofs::Notes::noting))]
fn add_met<'a>(
    alloc: Global,
    numbers: &Numbers<'a>,
    layers: &Layers,
    roles: &NameMap<'_, Seq<Role>>,
    met: &Met<'a>,
    out: &mut Vec<FlatItem>,
) -> Result<(), AllocError>
    requires numbers { AreNumbers numbers.now }
    requires layers { AreSame layers.now }
    requires roles { roles.now ≡ map roles_beside (modules numbers.now.text.now.tops) }
    ensures { OnOk result (out.new.items ≡ out.old.items ++ flat_met numbers.now.text.now layers.now.names met.now) }
{
    let here = Here {
        numbers,
        instance: met.instance.as_slice(),
    };
    let around = met.around.as_slice();
    let vars = variables(alloc, around)?;
    add_item(
        alloc,
        here,
        layers,
        roles,
        around,
        vars.as_slice(),
        met.what,
        out,
    )
}

// All that is met as items of the flattened text, without the places of claims.
#[tactic(auto, using(smv_mentions::proofs::Notes::noting))]
fn items_of<'a>(
    alloc: Global,
    numbers: &Numbers<'a>,
    layers: &Layers,
    all: &[Met<'a>],
) -> Result<Vec<FlatItem>, AllocError>
    requires numbers { AreNumbers numbers.now }
    requires layers { AreSame layers.now }
    ensures { IfOk result (λ items. items.items ≡ flat_map (flat_met numbers.now.text.now layers.now.names) all.now) }
{
    let roles = role_table(alloc, numbers.text)?;
    let mut items = Vec::new(alloc);
    for met in all {
        add_met(alloc, numbers, layers, &roles, met, &mut items)?;
    }
    Ok(items)
}

// The layers of a text and its items.
#[derive(Drop)]
struct LayeredItems {
    layers: Seq<Name>,
    items: Seq<FlatItem>,
}

// What the text of these numbers says.
fn said(alloc: Global, numbers: &Numbers) -> Result<LayeredItems, AllocError>
    requires { AreNumbers numbers.now }
    ensures { IfOk result (λ said. record { sets = numbers.now.sets; enums = numbers.now.enums; layers = said.layers; families = numbers.now.families; items = said.items } ≡ flattening.flatten numbers.now.text.now) }
{
    let all = all_met(alloc, numbers)?;
    let layers = layers_met(alloc, all.as_slice())?;
    let items = items_of(alloc, numbers, &layers, all.as_slice())?;
    let items = placed(items)?;
    let Layers { names, .. } = layers;
    Ok(LayeredItems {
        layers: names,
        items,
    })
}

// The flattened text of these parts. What was only looked up in is let go.
fn flat_text_of(numbers: Numbers, said: LayeredItems) -> FlatText
    ensures { result ≡ record { sets = numbers.entry.sets; enums = numbers.entry.enums; layers = said.layers; families = numbers.entry.families; items = said.items } }
{
    let Numbers {
        sets,
        enums,
        families,
        ..
    } = numbers;
    let LayeredItems { layers, items } = said;
    FlatText {
        sets,
        enums,
        layers,
        families,
        items,
    }
}

/// The flattened text of a text whose tops were noted. Also where a number does not fit its field, which no text within the limits has, no memory is said to be left.
pub fn flatten<'a>(
    alloc: Global,
    text: &'a Text,
    pieces: &[Piece<'a>],
) -> Result<FlatText, AllocError>
    requires { AreNoted pieces.now text.now }
    ensures { IfOk result (λ flat_text. flat_text ≡ flattening.flatten text.now) }
{
    let numbers = numbers_of(alloc, text, pieces)?;
    let said = said(alloc, &numbers)?;
    Ok(flat_text_of(numbers, said))
}
