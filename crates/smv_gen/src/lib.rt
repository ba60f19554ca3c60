//! The generated design: a counter, and a chain of counters each of which copies the one before it. It is as long as one likes, and each of its units is true.
//!
//! For the command that proves a generated design. It meets `specs/Generated`, byte by byte.
#![tactic(auto)]

ghost use Rattle.std.specs.Prelude.{◌≡◌, ◌++◌, ◌+◌, decimal, IfOk, OnOk};
ghost use Rattle.smv_gen.specs.Generated.{generated_text, numbered};

use itoa::Buffer;
use std::alloc::{AllocError, Global};

const HEAD: &[u8] =
    b"module main() {\ns0 : 0..7; init(s0) := 0; next(s0) := (s0 + 1) mod 4; p0 : assert G (s0 <= 3);\n";

// A counter that copies another: `k` stands for its number, and `j` for that of the other.
const COPY: &[u8] =
    b"sk : 0..7; init(sk) := 0; next(sk) := sj; pk : assert G (sk <= 3); using sj//free, pj prove pk;";

/// The text of the design with `copies` counters behind the first one. It takes linear time.
pub fn generate(alloc: Global, copies: u16) -> Result<Vec<u8>, AllocError>
    ensures { IfOk result (λ text. text.items ≡ generated_text copies) }
{
    let mut out = Vec::from_slice(alloc, HEAD)?;
    for j in 0..copies {
        push_numbered(&mut out, COPY, j, j + 1)?;
        out.push(b'\n')?;
    }
    out.extend_from_slice(b"}\n")?;
    Ok(out)
}

// Writes the pattern with these numbers in the places of its letters.
fn push_numbered(out: &mut Vec<u8>, pattern: &[u8], j: u16, k: u16) -> Result<(), AllocError>
    ensures { OnOk result (out.new.items ≡ out.old.items ++ numbered j k pattern.now) }
{
    for byte in pattern {
        match *byte {
            b'j' => push_number(out, j)?,
            b'k' => push_number(out, k)?,
            other => out.push(other)?,
        }
    }
    Ok(())
}

// Writes a number in decimal.
fn push_number(out: &mut Vec<u8>, number: u16) -> Result<(), AllocError>
    ensures { OnOk result (out.new.items ≡ out.old.items ++ decimal number) }
{
    let mut buffer = Buffer::new();
    out.extend_from_slice(buffer.format(number).as_bytes())
}
