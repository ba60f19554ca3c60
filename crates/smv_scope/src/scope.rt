// The first fault of a text's scopes.
ghost use Rattle.std.specs.Prelude.{◌≡◌, ◌++◌, [], map, IfOk};
ghost use Rattle.std.specs.List.{flat_map};
ghost use Rattle.smv_mentions.specs.Scopes.{pieces};
ghost use Rattle.smv_mentions.specs.Said.{AreNoted};
ghost use Rattle.smv_mentions.specs.NameFaults as faults;
ghost use Rattle.smv_first_fault.specs.Firsts.{least};
ghost use Rattle.smv_scope.specs.ScopeFault.{first_scope_fault};
ghost use Rattle.smv_scope.specs.Held.{AreTables};

use crate::build::tables;
use crate::doubled::doubled_tops;
use crate::rules::{Rule, first_broken, without_main};
use crate::tables::Tables;
use smv_core::fault::Fault;
use smv_core::tree::Text;
use smv_first_fault::faults::{earlier, fault_at};
use smv_first_fault::places::first_of;
use smv_mentions::pieces::Piece;
use std::alloc::{AllocError, Global};

// The first name that is declared twice.
fn doubled(alloc: Global, tables: &Tables) -> Result<Option<u32>, AllocError>
    requires { AreTables tables.now }
    ensures { IfOk result (λ at. at ≡ least (faults.repeated [] (map (λ piece. piece.word) (pieces tables.now.text.now)) ++ flat_map (faults.doubled_in (pieces tables.now.text.now)) (pieces tables.now.text.now))) }
{
    let tops = doubled_tops(alloc, tables)?;
    let inside = first_broken(alloc, tables, Rule::Once)?;
    Ok(first_of(tops, inside))
}

// The first of these faults, where the tables of the text are known.
fn scope_fault_of(alloc: Global, tables: &Tables) -> Result<Option<Fault>, AllocError>
    requires { AreTables tables.now }
    ensures { IfOk result (λ fault. fault ≡ first_scope_fault tables.now.text.now) }
{
    let undeclared = first_broken(alloc, tables, Rule::Declared)?;
    let doubled = doubled(alloc, tables)?;
    let missing = without_main(alloc, tables)?;
    let miscounted = first_broken(alloc, tables, Rule::Counted)?;
    let later = earlier(fault_at(9, missing), fault_at(11, miscounted));
    Ok(earlier(
        fault_at(7, undeclared),
        earlier(fault_at(8, doubled), later),
    ))
}

/// The first fault of a text among 7, 8, 9 and 11: a name that is not declared or is declared twice, no module `main`, a wrong number of arguments.
pub fn scope_fault<'a>(
    alloc: Global,
    text: &'a Text,
    pieces: &[Piece<'a>],
) -> Result<Option<Fault>, AllocError>
    requires { AreNoted pieces.now text.now }
    ensures { IfOk result (λ fault. fault ≡ first_scope_fault text.now) }
{
    let tables = tables(alloc, text, pieces)?;
    scope_fault_of(alloc, &tables)
}
