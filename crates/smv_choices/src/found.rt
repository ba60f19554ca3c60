// What each `using` chooses, assumes and leaves unknown.
ghost use Rattle.std.specs.Prelude.{◌≡◌, ◌++◌, is_none, IfOk, OnOk};
ghost use Rattle.std.specs.List.{flat_map};
ghost use Rattle.smv_mentions.specs.NameFaults.{place_if};
ghost use Rattle.smv_mentions.specs.Scopes.{first_of_places};
ghost use Rattle.smv_first_fault.specs.Firsts.{least};
ghost use Rattle.smv_choices.specs.Held.{AreTables};
ghost use Rattle.smv_choices.specs.Parts as parts;

use crate::meanings::meaning_of;
use crate::tables::Tables;
use law_uses::meaning::Meaning;
use smv_core::flat::{Assumed, Pick};
use smv_core::seq::Seq;
use smv_core::tree::{Ref, Use};
use smv_first_fault::places::first_of;
use std::alloc::{AllocError, Global};

/// The definitions that the uses of a `using` choose and the claims that they assume, each with its place, and the first place of one that means nothing.
#[derive(Drop)]
pub struct Found {
    pub picks: Seq<(u32, Pick)>,
    pub claims: Seq<(u32, Assumed)>,
    pub unknown: Option<u32>,
}

// One use more, by what it means.
#[tactic(auto, using(smv_first_fault::proofs::LeastLaws::leasts, smv_mentions::proofs::Notes::noting))]
fn add_meant(
    out: &mut Found,
    meaning: Option<Meaning>,
    at: u32,
    early: bool,
) -> Result<(), AllocError>
    ensures picks { OnOk result (out.new.picks ≡ out.old.picks ++ parts.picks_meant meaning at early) }
    ensures claims { OnOk result (out.new.claims ≡ out.old.claims ++ parts.claims_meant meaning at early) }
    ensures unknown { OnOk result (out.new.unknown ≡ first_of_places out.old.unknown (least (place_if (is_none meaning) at))) }
{
    match meaning {
        Some(Meaning::Definition { family, layer }) => {
            let pick = Pick {
                family,
                layer,
                early,
            };
            out.picks.push((at, pick))?;
            Ok(())
        }
        Some(Meaning::Claim { claim }) => {
            out.claims.push((at, Assumed { claim, early }))?;
            Ok(())
        }
        None => {
            out.unknown = first_of(out.unknown, Some(at));
            Ok(())
        }
    }
}

// One reference more.
fn add_reference(
    out: &mut Found,
    alloc: Global,
    tables: &Tables,
    of: &Ref,
    early: bool,
) -> Result<(), AllocError>
    requires { AreTables tables.now }
    ensures picks { OnOk result (out.new.picks ≡ out.old.picks ++ parts.picks_of tables.now.design.now of.now early) }
    ensures claims { OnOk result (out.new.claims ≡ out.old.claims ++ parts.claims_of tables.now.design.now of.now early) }
    ensures unknown { OnOk result (out.new.unknown ≡ first_of_places out.old.unknown (least (parts.unknown_of tables.now.design.now of.now))) }
{
    let meaning = meaning_of(alloc, tables, of)?;
    add_meant(out, meaning, of.at, early)
}

// One use more.
#[tactic(auto, using(smv_first_fault::proofs::LeastLaws::leasts, smv_mentions::proofs::Notes::noting))]
fn add_use(out: &mut Found, alloc: Global, tables: &Tables, x: &Use) -> Result<(), AllocError>
    requires { AreTables tables.now }
    ensures picks { OnOk result (out.new.picks ≡ out.old.picks ++ parts.picks_by tables.now.design.now x.now) }
    ensures claims { OnOk result (out.new.claims ≡ out.old.claims ++ parts.claims_by tables.now.design.now x.now) }
    ensures unknown { OnOk result (out.new.unknown ≡ first_of_places out.old.unknown (least (parts.unknown_by tables.now.design.now x.now))) }
{
    match x {
        Use::Plain { of } => add_reference(out, alloc, tables, of, false),
        Use::Early { of } => add_reference(out, alloc, tables, of, true),
        Use::Keep { .. } => Ok(()),
    }
}

/// What some uses choose, assume and leave unknown.
#[tactic(auto, using(smv_first_fault::proofs::LeastLaws::leasts, smv_mentions::proofs::Notes::noting))]
pub fn all_uses(alloc: Global, tables: &Tables, uses: &[Use]) -> Result<Found, AllocError>
    requires { AreTables tables.now }
    ensures picks { IfOk result (λ out. out.picks ≡ flat_map (parts.picks_by tables.now.design.now) uses.now) }
    ensures claims { IfOk result (λ out. out.claims ≡ flat_map (parts.claims_by tables.now.design.now) uses.now) }
    ensures unknown { IfOk result (λ out. out.unknown ≡ least (flat_map (parts.unknown_by tables.now.design.now) uses.now)) }
{
    let mut out = Found {
        picks: Seq::new(alloc),
        claims: Seq::new(alloc),
        unknown: None,
    };
    for x in uses {
        add_use(&mut out, alloc, tables, x)?;
    }
    Ok(out)
}
