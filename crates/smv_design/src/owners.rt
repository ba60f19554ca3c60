// What definitions are of.
ghost use Rattle.std.specs.Prelude.{◌+◌, ◌*◌};
ghost use Rattle.std.specs.Cmp.Rules.{hashing};
ghost use Rattle.std.specs.Hash as fed;
ghost use Rattle.std.specs.Option.{unwrap_or};
ghost use Rattle.std.proofs.Common.{rules};

use std::hash::{Hash, Hasher};

/// A family in a layer, or outside layers.
#[derive(Clone, Copy, PartialEq, Eq)]
pub struct Owner {
    pub layer: Option<u16>,
    pub family: u16,
}

/// Written out, so that one number is hashed in place of three.
impl Hash for Owner {
    ghost hash_input = { λ owner. fed.u32 (owner.family + 65536 * unwrap_or owner.layer 0) };

    ghost respects_eq = { Prim.search (hashing, rules) };

    fn hash<H: Hasher>(&self, state: &mut H) {
        state.write_u32(u32::from(self.family) + 65536 * u32::from(self.layer.unwrap_or(0)));
    }
}
