// The bytes of a circuit, in AIGER's binary form.
ghost use Rattle.std.specs.Prelude.{◌≡◌, ◌+◌, ◌<◌, ◌≤◌, ◌++◌, length, IfOk, OnOk};
ghost use Rattle.std.specs.Fmt.{decimal};
ghost use Rattle.std.specs.List.{flat_map};
ghost use Rattle.smv_core.specs.Values.{numbers_from};
ghost use Rattle.smv_circuits.specs.Circuits.{IsCircuit};
ghost use Rattle.smv_circuits.specs.Readings.{first_gate};
ghost use Rattle.smv_circuits.specs.Files.{file, gate_bytes, gates_bytes, groups, header, input_name, latch_name, literal_line, names};

use crate::circuit::{Frames, Gate, Literal, number};
use itoa::Buffer;
use std::alloc::{AllocError, Global};

// The groups of seven bits that a difference of two literals has, but one.
const MORE: u32 = 4;

/// The bytes of a circuit: its sizes, what its latches become, its output, its gates, and the names of its inputs (`n0` on), its latches (`s0` on and `started`) and its output.
pub(crate) fn file_of(alloc: Global, frames: &Frames) -> Result<Vec<u8>, AllocError>
    requires bits { frames.now.bits < 65536 }
    requires circuit { IsCircuit (first_gate frames.now.bits) frames.now.gates.items }
    ensures { IfOk result (λ bytes. bytes.items ≡ file frames.now.bits frames.now.gates.items frames.now.next.items frames.now.started frames.now.broken) }
{
    let mut out = Vec::new(alloc);
    push_header(&mut out, frames.bits, frames.gates.len())?;
    push_literals(&mut out, frames.next.as_slice())?;
    push_literal(&mut out, frames.started)?;
    push_literal(&mut out, frames.broken)?;
    push_gates(
        &mut out,
        2 * frames.bits as usize + 2,
        frames.gates.as_slice(),
    )?;
    push_names(&mut out, frames.bits as usize)?;
    Ok(out)
}

// A number.
fn push_number(out: &mut Vec<u8>, number: usize) -> Result<(), AllocError>
    ensures { OnOk result (out.new.items ≡ out.old.items ++ decimal number) }
{
    let mut buffer = Buffer::new();
    out.extend_from_slice(buffer.format(number).as_bytes())
}

// How many variables, inputs, latches, outputs and gates there are.
fn push_header(out: &mut Vec<u8>, bits: u32, gates: usize) -> Result<(), AllocError>
    requires bits { bits < 65536 }
    requires gates { gates ≤ 1073741824 }
    ensures { OnOk result (out.new.items ≡ out.old.items ++ header bits gates) }
{
    let bits = bits as usize;
    out.extend_from_slice(b"aig ")?;
    push_number(out, 2 * bits + 1 + gates)?;
    out.push(b' ')?;
    push_number(out, bits)?;
    out.push(b' ')?;
    push_number(out, bits + 1)?;
    out.extend_from_slice(b" 1 ")?;
    push_number(out, gates)?;
    out.push(b'\n')?;
    Ok(())
}

// A literal on a line.
fn push_literal(out: &mut Vec<u8>, literal: Literal) -> Result<(), AllocError>
    ensures { OnOk result (out.new.items ≡ out.old.items ++ literal_line literal) }
{
    push_number(out, number(literal))?;
    out.push(b'\n')?;
    Ok(())
}

// Literals, each on a line.
fn push_literals(out: &mut Vec<u8>, literals: &[Literal]) -> Result<(), AllocError>
    ensures { OnOk result (out.new.items ≡ out.old.items ++ flat_map literal_line literals.now) }
{
    for literal in literals {
        push_literal(out, *literal)?;
    }
    Ok(())
}

// The gates, which are the variables from one on.
fn push_gates(out: &mut Vec<u8>, first: usize, gates: &[Gate]) -> Result<(), AllocError>
    requires few { first + length gates.now ≤ 1073741824 }
    ensures { OnOk result (out.new.items ≡ out.old.items ++ gates_bytes first gates.now) }
{
    let mut own = first;
    for gate in gates {
        push_gate(out, own, *gate)?;
        own += 1;
    }
    Ok(())
}

// A gate: how far its left literal stands before it, and the right one before that.
fn push_gate(out: &mut Vec<u8>, own: usize, gate: Gate) -> Result<(), AllocError>
    requires { own < 1073741824 }
    ensures { OnOk result (out.new.items ≡ out.old.items ++ gate_bytes own gate) }
{
    let left = number(gate.left);
    let right = number(gate.right);
    push_difference(out, (2 * own).saturating_sub(left), MORE)?;
    push_difference(out, left.saturating_sub(right), MORE)?;
    Ok(())
}

// A number in groups of seven bits, the lowest first, each but the last with its highest bit set: in so many groups and one more.
fn push_difference(out: &mut Vec<u8>, difference: usize, more: u32) -> Result<(), AllocError>
    ensures { OnOk result (out.new.items ≡ out.old.items ++ groups more difference) }
{
    let group = (difference % 128) as u8;
    if more == 0 {
        out.push(group)?;
        return Ok(());
    }
    if difference < 128 {
        out.push(group)?;
        return Ok(());
    }
    out.push(group + 128)?;
    push_difference(out, difference / 128, more - 1)?;
    Ok(())
}

// The names.
fn push_names(out: &mut Vec<u8>, bits: usize) -> Result<(), AllocError>
    ensures { OnOk result (out.new.items ≡ out.old.items ++ names bits) }
{
    push_input_names(out, bits)?;
    push_latch_names(out, bits)?;
    out.push(b'l')?;
    push_number(out, bits)?;
    out.extend_from_slice(b" started\no0 broken\n")?;
    Ok(())
}

// The names of the inputs.
fn push_input_names(out: &mut Vec<u8>, bits: usize) -> Result<(), AllocError>
    ensures { OnOk result (out.new.items ≡ out.old.items ++ flat_map input_name (numbers_from 0 bits)) }
{
    for bit in 0..bits {
        push_input_name(out, bit)?;
    }
    Ok(())
}

// The names of the latches, but that of `started`.
fn push_latch_names(out: &mut Vec<u8>, bits: usize) -> Result<(), AllocError>
    ensures { OnOk result (out.new.items ≡ out.old.items ++ flat_map latch_name (numbers_from 0 bits)) }
{
    for bit in 0..bits {
        push_latch_name(out, bit)?;
    }
    Ok(())
}

// The name of an input.
fn push_input_name(out: &mut Vec<u8>, bit: usize) -> Result<(), AllocError>
    ensures { OnOk result (out.new.items ≡ out.old.items ++ input_name bit) }
{
    out.push(b'i')?;
    push_number(out, bit)?;
    out.extend_from_slice(b" n")?;
    push_number(out, bit)?;
    out.push(b'\n')?;
    Ok(())
}

// The name of a latch.
fn push_latch_name(out: &mut Vec<u8>, bit: usize) -> Result<(), AllocError>
    ensures { OnOk result (out.new.items ≡ out.old.items ++ latch_name bit) }
{
    out.push(b'l')?;
    push_number(out, bit)?;
    out.extend_from_slice(b" s")?;
    push_number(out, bit)?;
    out.push(b'\n')?;
    Ok(())
}
