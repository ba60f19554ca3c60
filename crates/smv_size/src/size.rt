// The fault of a text that is too large.
ghost use Rattle.std.specs.Prelude.{◌≡◌, [], ◌||◌, length, nat_lt, None, IfOk};
ghost use Rattle.smv_core.specs.FlatOrder.{main, modules};
ghost use Rattle.smv_mentions.specs.FirstFault.{first_of, faults_of_names, fault_of_size};
ghost use Rattle.smv_mentions.specs.Said.{AreNoted};
ghost use Rattle.smv_mentions.specs.Sizes as sizes;
ghost use Rattle.smv_mentions.specs.Sizes.{sized_from};
ghost use Rattle.smv_size.specs.Summary.{module_told};

use crate::constants::too_many_constants;
use crate::modules::{ModuleSize, module_names, size_named};
use crate::place::fault_at_main;
use crate::rounds::module_sizes;
use crate::types::type_sizes;
use smv_core::fault::Fault;
use smv_core::name::Name;
use smv_core::tree::{Text, Top};
use smv_mentions::pieces::Piece;
use std::alloc::{AllocError, Global};

// The families and instances together, and the statements, that a text may have.
const MOST_THINGS: usize = 4096;

const MOST_STATEMENTS: u64 = 65_536;

/// Fault 25: the text has more families and instances together, wider families, more constants or more statements than it may have.
pub fn size_fault(alloc: Global, text: &Text, pieces: &[Piece]) -> Result<Option<Fault>, AllocError>
    requires noted { AreNoted pieces.now text.now }
    requires named { first_of (faults_of_names text.now) ≡ None }
    ensures { IfOk result (λ fault. fault ≡ fault_of_size text.now) }
{
    let large = is_too_large(alloc, text, pieces)?;
    Ok(if large {
        fault_at_main(text, pieces)
    } else {
        None
    })
}

// Whether a text is above a limit.
fn is_too_large(alloc: Global, text: &Text, pieces: &[Piece]) -> Result<bool, AllocError>
    requires { AreNoted pieces.now text.now }
    ensures { IfOk result (λ large. large ≡ sizes.is_too_large text.now) }
{
    let many = too_many_constants(alloc, text, pieces)?;
    let size = size_of_main(alloc, text.tops.as_slice())?;
    Ok(is_above(size, many))
}

// Whether a limit is passed, that of the constants too where there are too many.
fn is_above(size: ModuleSize, many: bool) -> bool
    ensures { result ≡ (nat_lt 4096 size.things.count || size.things.wide || many || nat_lt 65536 size.statements) }
{
    size.things.count > MOST_THINGS || size.things.wide || many || size.statements > MOST_STATEMENTS
}

// What is met from `main` on.
fn size_of_main(alloc: Global, tops: &[Top]) -> Result<ModuleSize, AllocError>
    ensures { IfOk result (λ size. size ≡ module_told (sized_from [] tops.now) (modules tops.now) (length (modules tops.now)) main) }
{
    let types = type_sizes(alloc, tops)?;
    let names = module_names(alloc, tops)?;
    let sizes = module_sizes(alloc, tops, &types, &names)?;
    let name = name_main(alloc)?;
    Ok(size_named(&names, sizes.as_slice(), &name))
}

fn name_main(alloc: Global) -> Result<Name, AllocError>
    ensures { IfOk result (λ name. name ≡ main) }
{
    let bytes = Vec::from_slice(alloc, b"main".as_slice())?;
    Ok(Name::from_vec(bytes))
}
