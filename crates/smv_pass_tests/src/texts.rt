//! Texts as the passes take them. No earlier pass looks for faults, so that each stands alone.

use smv_core::Refusal;
use smv_core::flat::{Design, FlatText};
use smv_core::tree::Text;
use smv_design::design;
use smv_flatten::flatten::flatten;
use smv_mentions::pieces::pieces;
use smv_parse::parse;
use std::alloc::{AllocError, Global};
use std::test::Fail;

pub fn tree(alloc: Global, text: &str) -> Result<Text, Refusal> {
    if text.len() > 1_048_576 {
        return Err(Refusal::OutOfMemory);
    }
    parse(alloc, text.as_bytes())
}

pub fn flattened(alloc: Global, text: &str) -> Result<FlatText, Refusal> {
    let tree = tree(alloc, text)?;
    let pieces = pieces(alloc, &tree)?;
    Ok(flatten(alloc, &tree, &pieces)?)
}

pub fn designed(alloc: Global, text: &str) -> Result<Design, Refusal> {
    let flat_text = flattened(alloc, text)?;
    Ok(design(alloc, flat_text)?)
}

// A text whose body stands between these, where `@` marks a place: the text without the mark, and its offset. A body
// without a mark has the offset of its end.
pub fn marked(
    alloc: Global,
    front: &str,
    body: &str,
    end: &str,
) -> Result<(String, u32), AllocError> {
    let (before, behind) = match body.split_once('@') {
        Some(parts) => parts,
        None => (body, ""),
    };
    let at = front.len().saturating_add(before.len());
    let text = format!(in alloc; "{front}{before}{behind}{end}")?;
    Ok((text, u32::try_from(at).unwrap_or(u32::MAX)))
}

// Fails where it is not so. The test's name says what.
pub fn is_so(it: Result<bool, AllocError>) -> Result<(), Fail> {
    if it? {
        Ok(())
    } else {
        Err(Fail::new("it is not so"))
    }
}
