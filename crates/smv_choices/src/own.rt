// The map that a leaf itself is of.
ghost use Rattle.std.specs.Prelude.{◌≡◌, option_copied};
ghost use Rattle.law_designs.specs.WholeText.{is_one_layer};
ghost use Rattle.law_uses.specs.Choices as choices;

use smv_core::flat::{Def, Design, Leaf, Pick, Unit};

/// The definition that is proved, where a leaf's unit is a map.
#[tactic(auto, using(crate::proofs::PartLaws::units))]
pub fn own_map<'a>(design: &'a Design, units: &[Unit], leaf: &Leaf) -> Option<&'a Def>
    ensures { option_copied result ≡ choices.own_map design.now units.now leaf.now }
{
    match units.get(usize::from(leaf.unit)) {
        Some(Unit::Map { def }) => design.defs.as_slice().get(usize::from(*def)),
        Some(Unit::Claim { .. }) => None,
        None => None,
    }
}

// Whether two layers are one, or both are none.
fn same_layer(a: Option<u16>, b: Option<u16>) -> bool
    ensures { result ≡ is_one_layer a b }
{
    match (a, b) {
        (Some(a), Some(b)) => a == b,
        (None, None) => true,
        _ => false,
    }
}

/// Whether a use is one of the leaf's own map.
pub fn is_own(own: Option<&Def>, p: &Pick) -> bool
    ensures { result ≡ choices.is_own (option_copied own.entry) p.now }
{
    match own {
        Some(def) => p.family == def.family && same_layer(p.layer, def.layer),
        None => false,
    }
}
