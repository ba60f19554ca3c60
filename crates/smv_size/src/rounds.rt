// What is met from each module on.
ghost use Rattle.std.specs.Prelude.{◌≡◌, List, map, length, IfOk};
ghost use Rattle.smv_core.specs.Values.{Name};
ghost use Rattle.smv_core.specs.FlatOrder.{Body};
ghost use Rattle.smv_core.specs.FlatOrder as flat;
ghost use Rattle.smv_mentions.specs.Sizes.{Sized};
ghost use Rattle.smv_size.specs.Summary.{types_told, module_bodies, body_of, AreTold};
ghost use Rattle.smv_size.specs.Summary as spec;

use crate::modules::{ModuleSize, ModuleText, empty_sizes, module_texts, next_sizes};
use crate::pass::one_pass;
use crate::types::TypeSize;
use name_index::NameIndex;
use name_index::map::NameMap;
use smv_core::tree::Top;
use std::alloc::{AllocError, Global};

/// The modules, each with all that is met from it on. One pass finds it where no module contains itself: a round after it then changes nothing.
pub fn module_sizes(
    alloc: Global,
    tops: &[Top],
    types: &NameMap<TypeSize>,
    names: &NameIndex,
) -> Result<Vec<ModuleSize>, AllocError>
    requires { names.now ≡ spec.module_names (flat.modules tops.now) }
    ensures { IfOk result (λ sizes. (known : List (Name × Sized)) → types.now ≡ types_told known → AreTold known (flat.modules tops.now) names.now sizes.items (length (flat.modules tops.now))) }
{
    let modules = module_texts(alloc, tops)?;
    let modules = modules.as_slice();
    let sizes = one_pass(alloc, modules, types, names)?;
    let next = next_sizes(alloc, modules, types, names, sizes.as_slice())?;
    if next.as_slice() == sizes.as_slice() {
        return Ok(sizes);
    }
    in_rounds(alloc, modules, types, names)
}

// The same. Each round follows all instances one module further; where it finds nothing new, nor does one after it.
fn in_rounds(
    alloc: Global,
    modules: &[ModuleText],
    types: &NameMap<TypeSize>,
    names: &NameIndex,
) -> Result<Vec<ModuleSize>, AllocError>
    ensures { IfOk result (λ sizes. (known : List (Name × Sized)) (bodies : List (Name × Body)) → types.now ≡ types_told known → names.now ≡ spec.module_names bodies → map body_of modules.now ≡ module_bodies bodies → AreTold known bodies names.now sizes.items (length modules.now)) }
{
    let mut sizes = empty_sizes(alloc, modules)?;
    for step in 0..modules.len() {
        let next = next_sizes(alloc, modules, types, names, sizes.as_slice())?;
        if next.as_slice() == sizes.as_slice() {
            return Ok(sizes);
        }
        sizes = next;
    }
    Ok(sizes)
}
