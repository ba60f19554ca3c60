// The first fault of kinds, ranges and sets in a text.
ghost use Rattle.std.specs.Prelude.{◌≡◌, ◌++◌, [], Some, None, slice_get, IfOk, OnOk};
ghost use Rattle.smv_mentions.specs.Scopes.{pieces as pieces_of, constants};
ghost use Rattle.smv_mentions.specs.Said.{AreNoted};
ghost use Rattle.smv_mentions.specs.FirstFault as first;
ghost use Rattle.law_designs.specs.References.{modules_from};
ghost use Rattle.law_designs.specs.KindFaults.{in_top, faults_of_kinds, first_fault_of_kinds};
ghost use Rattle.smv_expression_kinds.specs.Forms.{types_before, AreKindTables};

use crate::items::items;
use smv_core::fault::Fault;
use smv_core::tree::{Text, Top};
use smv_expression_kinds::lookups::Scope;
use smv_expression_kinds::tables::{Tables, tables_of};
use smv_first_fault::faults::earlier;
use smv_mentions::pieces::Piece;
use smv_operand_kinds::types::{size_faults, type_faults};
use std::alloc::{AllocError, Global};

// The faults in the top of a number.
#[tactic(auto, using(smv_mentions::proofs::Notes::noting, smv_operand_kinds::proofs::KindLaws::no_vars))]
fn top_faults<'a>(
    top: &'a Top,
    scope: &Scope<'a, '_>,
    alloc: Global,
    out: &mut Vec<Fault>,
) -> Result<(), AllocError>
    requires tables { AreKindTables scope.now.tables.now }
    requires here { slice_get scope.now.tables.now.names.text.now.tops scope.now.place ≡ Some top.now }
    ensures { OnOk result (out.new.items ≡ out.old.items ++ in_top (modules_from [] scope.now.tables.now.names.text.now.tops) (constants (pieces_of scope.now.tables.now.names.text.now)) (types_before scope.now.tables.now.names.text.now scope.now.place) top.now) }
{
    match top {
        Top::SetType { span, at, .. } => size_faults(out, *span, *at),
        Top::Alias { of, .. } => type_faults(of, scope, out),
        Top::Module { body, .. } => items(body.as_slice(), scope, &[], alloc, out),
    }
}

// All faults of a text.
#[tactic(auto, using(smv_mentions::proofs::Notes::noting))]
fn all_faults(tables: &Tables, alloc: Global) -> Result<Vec<Fault>, AllocError>
    requires { AreKindTables tables.now }
    ensures { IfOk result (λ out. out.items ≡ faults_of_kinds tables.now.names.text.now) }
{
    let tops = tables.names.text.tops.as_slice();
    let mut out = Vec::new(alloc);
    for place in 0..tops.len() {
        let scope = Scope {
            tables: &*tables,
            place,
        };
        top_faults(&tops[place], &scope, alloc, &mut out)?;
    }
    Ok(out)
}

// The first of some faults.
#[tactic(auto, using(crate::proofs::TopLaws::first_in_turn))]
fn first_of(faults: &[Fault]) -> Option<Fault>
    ensures { result ≡ first.first_of faults.now }
{
    let mut found = None;
    for fault in faults {
        found = earlier(found, Some(*fault));
    }
    found
}

// The first fault of the text of these tables.
fn first_fault(alloc: Global, tables: &Tables) -> Result<Option<Fault>, AllocError>
    requires { AreKindTables tables.now }
    ensures { IfOk result (λ fault. fault ≡ first_fault_of_kinds tables.now.names.text.now) }
{
    let out = all_faults(tables, alloc)?;
    Ok(first_of(out.as_slice()))
}

/// The first fault of a text without faults of names among 12 to 14, in every module.
pub fn kinds_fault(
    alloc: Global,
    text: &Text,
    pieces: &[Piece],
) -> Result<Option<Fault>, AllocError>
    requires noted { AreNoted pieces.now text.now }
    requires named { first.first_fault text.now ≡ None }
    ensures { IfOk result (λ fault. fault ≡ first_fault_of_kinds text.now) }
{
    let tables = tables_of(alloc, text, pieces)?;
    first_fault(alloc, &tables)
}
