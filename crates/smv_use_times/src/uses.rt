// Uses before their times are known.
ghost use Rattle.std.specs.Prelude.{◌≡◌, map, length, IfOk};
ghost use Rattle.std.specs.List.{list_any};
ghost use Rattle.law_obligations.specs.Outlines.{entries_of};
ghost use Rattle.law_obligations.specs.Times.{is_member};
ghost use Rattle.law_obligations.specs.Times as times;
ghost use Rattle.smv_use_times.specs.Tables.{AreTables, entry_of, outline};
ghost use Rattle.smv_use_times.specs.Uses as spec;
ghost use Rattle.smv_use_times.specs.Uses.{held, marked, uses_from, uses_of};

use crate::same_time::same_time;
use crate::tables::{Proof, Tables};
use smv_core::flat::{Assumed, Choice, Leaf, Pick, Timing};
use std::alloc::{AllocError, Global};

/// What is known of a use before all uses are: its time, or that it is open, with the place of the unit that it uses.
#[derive(Clone, Copy)]
pub enum Use {
    Settled { time: Timing },
    Open { unit: usize },
}

/// The uses of a leaf, in the order of its choice.
#[derive(Drop)]
pub struct LeafUses {
    pub picks: Vec<Use>,
    pub claims: Vec<Use>,
}

/// The uses of each leaf.
pub fn all_uses(
    alloc: Global,
    tables: &Tables,
    leaves: &[Leaf],
    choices: &[Choice],
) -> Result<Vec<LeafUses>, AllocError>
    requires tables { AreTables tables.now }
    requires leaves { length leaves.now ≡ length tables.now.units.now }
    requires choices { length choices.now ≡ length tables.now.units.now }
    ensures { IfOk result (λ all. map held all.items ≡ uses_from (outline tables.now) 0 (entries_of tables.now.units.now leaves.now choices.now)) }
{
    let mut all = Vec::new(alloc);
    for place in 0..tables.units.len() {
        let proof = Proof {
            place,
            unit: tables.units[place],
            leaf: &leaves[place],
            choice: &choices[place],
        };
        all.push(leaf_uses(alloc, tables, &proof)?)?;
    }
    Ok(all)
}

// The uses of a leaf.
fn leaf_uses(alloc: Global, tables: &Tables, proof: &Proof) -> Result<LeafUses, AllocError>
    requires { AreTables tables.now }
    ensures { IfOk result (λ uses. held uses ≡ uses_of (outline tables.now) proof.now.place (entry_of proof.now)) }
{
    let marks = asked(alloc, tables, proof)?;
    let picks = pick_uses(
        alloc,
        tables,
        marks.as_slice(),
        proof.choice.picks.as_slice(),
    )?;
    let claims = claim_uses(alloc, tables, proof.choice.claims.as_slice())?;
    Ok(LeafUses { picks, claims })
}

// Which families are of the same-time set, where some use of a definition asks for that.
fn asked(alloc: Global, tables: &Tables, proof: &Proof) -> Result<Vec<bool>, AllocError>
    requires { AreTables tables.now }
    ensures { IfOk result (λ marks. map (spec.pick_use (outline tables.now) (marked marks.items)) proof.now.choice.now.picks ≡ map (spec.pick_use (outline tables.now) (is_member (times.same_time (outline tables.now) proof.now.place (entry_of proof.now)))) proof.now.choice.now.picks) }
{
    if !some_asks(proof.choice.picks.as_slice()) {
        return Ok(Vec::new(alloc));
    }
    let marks = same_time(alloc, tables, proof)?;
    Ok(marks)
}

fn some_asks(picks: &[Pick]) -> bool
    ensures { result ≡ list_any spec.asks picks.now }
{
    picks.iter().any(|pick| asks(*pick))
}

// Whether the time of a pick depends on the same-time set.
fn asks(pick: Pick) -> bool
    ensures { result ≡ spec.asks pick }
{
    pick.layer.is_some() && !pick.early
}

// The uses of definitions, where the families of the same-time set are marked.
#[tactic(auto, using(smv_unit_tables::proofs::ReadLaws::listing))]
fn pick_uses(
    alloc: Global,
    tables: &Tables,
    marks: &[bool],
    picks: &[Pick],
) -> Result<Vec<Use>, AllocError>
    requires { AreTables tables.now }
    ensures { IfOk result (λ uses. uses.items ≡ map (spec.pick_use (outline tables.now) (marked marks.now)) picks.now) }
{
    let mut uses = Vec::new(alloc);
    for pick in picks {
        uses.push(pick_use(tables, marks, *pick))?;
    }
    Ok(uses)
}

fn pick_use(tables: &Tables, marks: &[bool], pick: Pick) -> Use
    requires { AreTables tables.now }
    ensures { result ≡ spec.pick_use (outline tables.now) (marked marks.now) pick }
{
    match pick.layer {
        None => Use::Settled { time: Timing::Now },
        Some(layer) => {
            if !pick.early && is_marked(marks, pick.family as usize) {
                use_of(tables.places.map(pick.family, layer))
            } else {
                Use::Settled {
                    time: Timing::Before,
                }
            }
        }
    }
}

/// Whether a number is marked.
pub fn is_marked(marks: &[bool], place: usize) -> bool
    ensures { result ≡ marked marks.now place }
{
    marks.get(place).copied().unwrap_or(false)
}

// A use of a unit, and of what is no unit.
fn use_of(unit: Option<usize>) -> Use
    ensures { result ≡ spec.use_of unit }
{
    match unit {
        None => Use::Settled { time: Timing::Now },
        Some(unit) => Use::Open { unit },
    }
}

// The uses of claims.
#[tactic(auto, using(smv_unit_tables::proofs::ReadLaws::listing))]
fn claim_uses(alloc: Global, tables: &Tables, claims: &[Assumed]) -> Result<Vec<Use>, AllocError>
    requires { AreTables tables.now }
    ensures { IfOk result (λ uses. uses.items ≡ map (spec.claim_use (outline tables.now)) claims.now) }
{
    let mut uses = Vec::new(alloc);
    for used in claims {
        uses.push(claim_use(tables, *used))?;
    }
    Ok(uses)
}

fn claim_use(tables: &Tables, used: Assumed) -> Use
    requires { AreTables tables.now }
    ensures { result ≡ spec.claim_use (outline tables.now) used }
{
    if used.early {
        return Use::Settled {
            time: Timing::Before,
        };
    }
    use_of(tables.places.claim(used.claim))
}
