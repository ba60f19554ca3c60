// The layers of a text.
ghost use Rattle.std.specs.Prelude.{◌≡◌, IfOk, OnOk};
ghost use Rattle.std.specs.List.{flat_map};
ghost use Rattle.smv_core.specs.declared.tree.Text.{Text};
ghost use Rattle.law_designs.specs.Flattening.{layers_of, layer_number};
ghost use Rattle.smv_flatten.specs.Layers.{with_layer, with_layers, AreSame, heads};
ghost use Rattle.smv_flatten.specs.Met.{entries_met};

use crate::leaves::What;
use crate::met::Met;
use name_index::NameIndex;
use smv_copies::copy_name;
use smv_core::name::Name;
use smv_core::seq::Seq;
use std::alloc::{AllocError, Global};

/// The layers of a text in the order in which they are met, each once.
#[derive(Drop)]
pub struct Layers<'a> {
    pub index: NameIndex<'a>,
    pub names: Seq<Name>,
}

/// The number of a layer. Also where it does not fit its field, which no text within the limits has, no memory is said to be left.
#[tactic(auto, using(crate::proofs::LayerLaws::numbers))]
pub fn number(layers: &Layers, name: &Name) -> Result<u16, AllocError>
    requires { AreSame layers.now }
    ensures { IfOk result (λ number. number ≡ layer_number layers.now.names name.now) }
{
    let place = match layers.index.find(name) {
        Some(place) => place,
        None => layers.names.len(),
    };
    match u16::try_from(place) {
        Ok(number) => Ok(number),
        Err(_) => Err(AllocError),
    }
}

// A layer more, unless it was met before.
#[tactic(auto, using(crate::proofs::LayerLaws::numbers))]
fn add<'a>(alloc: Global, layers: &mut Layers<'a>, name: &'a Name) -> Result<(), AllocError>
    requires { AreSame layers.old }
    ensures same { OnOk result (AreSame layers.new) }
    ensures layer { OnOk result (layers.new.names ≡ with_layer layers.old.names name.now) }
{
    match layers.index.find(name) {
        Some(_) => Ok(()),
        None => {
            layers.index.push(name)?;
            let copy = copy_name(alloc, name)?;
            layers.names.push(copy)
        }
    }
}

// The layer of an item, if it is one.
fn add_met<'a>(alloc: Global, layers: &mut Layers<'a>, what: What<'a>) -> Result<(), AllocError>
    requires { AreSame layers.old }
    ensures same { OnOk result (AreSame layers.new) }
    ensures layer { OnOk result (layers.new.names ≡ with_layers layers.old.names (heads what.entry)) }
{
    match what {
        What::Layer { name, .. } => add(alloc, layers, &name.name),
        What::Instance { .. } => Ok(()),
        What::Claim { .. } => Ok(()),
        What::Split { .. } => Ok(()),
        What::Using { .. } => Ok(()),
        What::Act { .. } => Ok(()),
    }
}

/// The layers of what is met in flat order.
#[tactic(auto, using(crate::proofs::LayerLaws::whole))]
pub(crate) fn layers_met<'a>(alloc: Global, all: &[Met<'a>]) -> Result<Layers<'a>, AllocError>
    ensures same { IfOk result (λ layers. AreSame layers) }
    ensures layers { IfOk result (λ layers. (text : Text) → layers.names ≡ layers_of (flat_map (entries_met text) all.now)) }
{
    let mut layers = Layers {
        index: NameIndex::new(alloc),
        names: Seq::new(alloc),
    };
    for met in all {
        add_met(alloc, &mut layers, met.what)?;
    }
    Ok(layers)
}
