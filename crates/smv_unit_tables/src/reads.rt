// What each definition and each claim of a design reads.
ghost use Rattle.std.specs.Prelude.{◌≡◌, map, IfOk};
ghost use Rattle.smv_unit_tables.specs.Reads.{claim_reads, def_reads, lists};

use crate::expressions::add_read;
use crate::parts::add_part;
use smv_core::flat::{Claim, Def, Family};
use std::alloc::{AllocError, Global};

/// The families that each definition reads at the time of the value that it gives.
#[tactic(auto, using(crate::proofs::ReadLaws::listing))]
pub fn reads_of_defs(
    alloc: Global,
    families: &[Family],
    defs: &[Def],
) -> Result<Vec<Vec<usize>>, AllocError>
    ensures { IfOk result (λ table. lists table.items ≡ map (def_reads families.now) defs.now) }
{
    let mut table = Vec::new(alloc);
    for def in defs {
        table.push(reads_of_def(alloc, families, def)?)?;
    }
    Ok(table)
}

fn reads_of_def(alloc: Global, families: &[Family], def: &Def) -> Result<Vec<usize>, AllocError>
    ensures { IfOk result (λ reads. reads.items ≡ def_reads families.now def.now) }
{
    let mut reads = Vec::new(alloc);
    add_part(&mut reads, families, &def.init)?;
    add_part(&mut reads, families, &def.comb)?;
    Ok(reads)
}

/// The families that each claim reads.
#[tactic(auto, using(crate::proofs::ReadLaws::listing))]
pub fn reads_of_claims(
    alloc: Global,
    families: &[Family],
    claims: &[Claim],
) -> Result<Vec<Vec<usize>>, AllocError>
    ensures { IfOk result (λ table. lists table.items ≡ map (claim_reads families.now) claims.now) }
{
    let mut table = Vec::new(alloc);
    for claim in claims {
        table.push(reads_of_claim(alloc, families, claim)?)?;
    }
    Ok(table)
}

fn reads_of_claim(
    alloc: Global,
    families: &[Family],
    claim: &Claim,
) -> Result<Vec<usize>, AllocError>
    ensures { IfOk result (λ reads. reads.items ≡ claim_reads families.now claim.now) }
{
    let mut reads = Vec::new(alloc);
    add_read(&mut reads, families, &claim.body)?;
    Ok(reads)
}
