// One pass through the modules, those of a module's instances before it.
ghost use Rattle.std.specs.Prelude.{◌≡◌, ℕ, ◌+◌, List, map, length, IfOk};
ghost use Rattle.smv_core.specs.Values.{Name};
ghost use Rattle.smv_core.specs.FlatOrder.{Body};
ghost use Rattle.smv_mentions.specs.Sizes.{Sized};
ghost use Rattle.smv_size.specs.Summary.{types_told, module_bodies, body_of};
ghost use Rattle.smv_size.specs.Summary as spec;
ghost use Rattle.smv_size.specs.Pass.{AreAtMost};

use crate::modules::{ModuleSize, ModuleText, body_size, empty_sizes};
use crate::types::TypeSize;
use graphs::ranks::order;
use name_index::NameIndex;
use name_index::map::NameMap;
use smv_core::tree::Item;
use std::alloc::{AllocError, Global};

/// The modules, each from the sizes of those before it. In a text where no module contains itself these are the sizes of all that is met from a module on; elsewhere they are too small.
pub fn one_pass(
    alloc: Global,
    modules: &[ModuleText],
    types: &NameMap<TypeSize>,
    names: &NameIndex,
) -> Result<Vec<ModuleSize>, AllocError>
    ensures { IfOk result (λ sizes. (known : List (Name × Sized)) (bodies : List (Name × Body)) → types.now ≡ types_told known → names.now ≡ spec.module_names bodies → map body_of modules.now ≡ module_bodies bodies → AreAtMost known bodies names.now sizes.items (length modules.now)) }
{
    let graph = graph(alloc, modules, names)?;
    let order = order(alloc, graph.as_slice())?;
    let mut sizes = empty_sizes(alloc, modules)?;
    for turn in 0..modules.len() {
        if let Some(place) = order.get(turn) {
            renew(&mut sizes, *place, modules, types, names);
        }
    }
    Ok(sizes)
}

// The module at this place, from the sizes so far.
fn renew(
    sizes: &mut Vec<ModuleSize>,
    place: usize,
    modules: &[ModuleText],
    types: &NameMap<TypeSize>,
    names: &NameIndex,
)
    ensures { (known : List (Name × Sized)) (bodies : List (Name × Body)) (n : ℕ) → types.now ≡ types_told known → names.now ≡ spec.module_names bodies → map body_of modules.now ≡ module_bodies bodies → AreAtMost known bodies names.now sizes.old.items n → AreAtMost known bodies names.now sizes.new.items (n + 1) }
{
    if place < sizes.len()
        && let Some(text) = modules.get(place)
    {
        let size = body_size(text, types, names, sizes.as_slice());
        sizes[place] = size;
    }
}

// An edge from each module to those of its instances. The order that it gives is one to try: nothing rests on it.
fn graph(
    alloc: Global,
    modules: &[ModuleText],
    names: &NameIndex,
) -> Result<Vec<Vec<usize>>, AllocError> {
    let mut graph = Vec::new(alloc);
    for text in modules {
        graph.push(instances(alloc, text.items, names)?)?;
    }
    Ok(graph)
}

// The modules of the instances among some items.
fn instances(alloc: Global, items: &[Item], names: &NameIndex) -> Result<Vec<usize>, AllocError> {
    let mut places = Vec::new(alloc);
    for item in items {
        if let Item::Instance { module, .. } = item
            && let Some(place) = names.find(&module.name)
        {
            places.push(place)?;
        }
    }
    Ok(places)
}
