// The names by which a leaf that is proved twice is found.
ghost use Rattle.std.specs.Prelude.{◌≡◌, ◌++◌, map, flat_map, IfOk, OnOk};
ghost use Rattle.smv_references.specs.Again.{placed};
ghost use Rattle.smv_choices.specs.Readings as readings;
ghost use Rattle.smv_choices.specs.Readings.{reading, pair_of};

use smv_choices::readings::{Proved, Reading};
use smv_core::Name;
use std::alloc::{AllocError, Global};

// The names of the leaves that these prove, more.
#[tactic(auto, using(smv_mentions::proofs::Notes::noting))]
fn add_leaves<'a>(out: &mut Vec<(u32, &'a Name)>, proved: &[Proved<'a>]) -> Result<(), AllocError>
    ensures { OnOk result (map placed out.new.items ≡ map placed out.old.items ++ map readings.leaf_key (map pair_of proved.now)) }
{
    for x in proved {
        out.push((x.of.at, &x.leaf.name))?;
    }
    Ok(())
}

/// The names of the leaves that are proved, in flat order.
#[tactic(auto, using(smv_mentions::proofs::Notes::noting))]
pub(crate) fn leaf_names<'a>(
    alloc: Global,
    all: &[Reading<'a>],
) -> Result<Vec<(u32, &'a Name)>, AllocError>
    ensures { IfOk result (λ names. map placed names.items ≡ flat_map readings.leaf_keys (map reading all.now)) }
{
    let mut names = Vec::new(alloc);
    for x in all {
        add_leaves(&mut names, &x.proved.leaves)?;
    }
    Ok(names)
}
