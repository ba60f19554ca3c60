// Lines by themselves: the first line of a set, and a line of its nodes.
ghost use Rattle.std.specs.Prelude.{◌≡◌, ◌+◌, ◌&&◌, nat_lt, codes, List, option_map};
ghost use Rattle.std.specs.Str.{bytes_eq};
ghost use Rattle.std.specs.List.{list_all};
ghost use Rattle.smv_proof.specs.declared.proof.Node.{Node};
ghost use Rattle.smv_proof.specs.Documents.{is_name, is_name_byte};
ghost use Rattle.smv_proof.specs.Readings.{begun_by, node_of, pieces};
ghost use Rattle.smv_proof_read.specs.Heads.{begun_of};
ghost use Rattle.smv_proof_read.specs.Standing.{if_stands};

use crate::pieces::{cut, number_of};
use smv_proof::Node;

/// What the first line of a set says: its unit, its number, its root, and how many lines follow.
#[derive(Clone, Copy)]
pub(crate) struct Head<'a> {
    pub unit: &'a [u8],
    pub number: u32,
    pub root: u32,
    pub count: u32,
}

/// The node of a line, which stands where the rules allow it.
pub(crate) fn node_of(line: &[u8]) -> Option<Node>
    ensures { (earlier : List Node) → node_of earlier (pieces 32 line.now) ≡ if_stands earlier result }
{
    let (var, rest) = cut(b' ', line)?;
    let (low, high) = cut(b' ', rest)?;
    let var = number_of(var)?;
    let low = number_of(low)?;
    let high = number_of(high)?;
    if var > 65535 {
        return None;
    }
    Some(Node {
        var: var as u16,
        low,
        high,
    })
}

/// What the first line of a set says.
pub(crate) fn head_of(line: &[u8]) -> Option<Head<'_>>
    ensures { option_map begun_of result ≡ begun_by (pieces 32 line.now) }
{
    let (word, rest) = cut(b' ', line)?;
    let (unit, rest) = cut(b' ', rest)?;
    let (number, rest) = cut(b' ', rest)?;
    let (root, count) = cut(b' ', rest)?;
    if !is_set(word) {
        return None;
    }
    let number = number_of(number)?;
    let root = number_of(root)?;
    let count = number_of(count)?;
    if may_begin(unit, root, count) {
        Some(Head {
            unit,
            number,
            root,
            count,
        })
    } else {
        None
    }
}

// Whether a piece is the word that begins a set.
fn is_set(piece: &[u8]) -> bool
    ensures { result ≡ bytes_eq piece.now (codes "set") }
{
    piece == b"set".as_slice()
}

// Whether a set may have this name, and this root with so many lines.
fn may_begin(unit: &[u8], root: u32, count: u32) -> bool
    ensures { result ≡ (is_name unit.now && nat_lt root (count + 2)) }
{
    is_name(unit) && u64::from(root) < u64::from(count) + 2
}

// Bytes from `!` to `~`, at least one.
fn is_name(name: &[u8]) -> bool
    ensures { result ≡ is_name name.now }
{
    !name.is_empty() && are_name_bytes(name)
}

fn are_name_bytes(name: &[u8]) -> bool
    ensures { result ≡ list_all is_name_byte name.now }
{
    name.iter().all(|byte| is_name_byte(*byte))
}

fn is_name_byte(byte: u8) -> bool
    ensures { result ≡ is_name_byte byte }
{
    33 <= byte && byte <= 126
}
