//! The paths of false units as a value change dump (IEEE 1364), which a viewer of waveforms opens.
//!
//! For the program `smv_wave`. It meets `specs/Vcd`, byte by byte; `specs/Values` says which elements are numbers, how wide they are, and the code of each. `values` finds kinds and writes values, `scopes`
//! the declarations, `times` what is dumped at each time.
#![tactic(auto)]

ghost use Rattle.std.specs.Prelude.{◌≡◌, IfOk};
ghost use Rattle.smv_waveforms.specs.Vcd.{vcd};

mod scopes;
mod text;
mod times;
mod values;

use scopes::push_scopes;
use smv_read_report::FalseUnit;
use std::alloc::{AllocError, Global};
use times::{all_texts, push_dump};
pub use values::Kind;

const HEAD: &[u8] = b"$version smv_wave $end\n$timescale 1 ns $end\n";

const END_OF_DEFINITIONS: &[u8] = b"$enddefinitions $end\n";

/// The dump of these units: a scope for each with the case and the elements, and then their paths side by side, all from time 0 on.
pub fn vcd(alloc: Global, units: &[FalseUnit]) -> Result<Vec<u8>, AllocError>
    ensures { IfOk result (λ text. text.items ≡ vcd units.now) }
{
    let mut out = Vec::from_slice(alloc, HEAD)?;
    push_scopes(&mut out, alloc, units)?;
    out.extend_from_slice(END_OF_DEFINITIONS)?;
    let texts = all_texts(alloc, units)?;
    push_dump(&mut out, texts.as_slice())?;
    Ok(out)
}
