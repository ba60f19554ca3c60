// How deep the types of a text stand inside one another.
use name_index::map::NameMap;
use smv_core::name::Name;
use smv_core::tree::{Field, Text, Top, TypeExpr};
use std::alloc::{AllocError, Global};

// As deep as they may stand: a walk along a path takes stack for each, and the usual stack of 8 MiB holds more than 16,000.
const DEEPEST: usize = 10_000;

fn depth_named(depths: &NameMap<usize>, name: &Name) -> usize {
    match depths.find(name) {
        Some(depth) => *depth,
        None => 0,
    }
}

// How deep a type stands: what a name stands for stands inside the name.
#[cycle(types)]
fn type_depth(kind: &TypeExpr, depths: &NameMap<usize>) -> usize {
    match kind {
        TypeExpr::Named { name, .. } => depth_named(depths, &name.name).saturating_add(1),
        TypeExpr::Array { of, .. } => type_depth(of.get(), depths).saturating_add(1),
        TypeExpr::Struct { fields } => fields_depth(fields.as_slice(), depths).saturating_add(1),
        TypeExpr::Boolean => 1,
        TypeExpr::Range { .. } => 1,
        TypeExpr::Enum { .. } => 1,
    }
}

#[cycle(types)]
fn fields_depth(fields: &[Field], depths: &NameMap<usize>) -> usize {
    let mut depth: usize = 0;
    for field in fields {
        let inner = type_depth(&field.of, depths);
        if depth < inner {
            depth = inner;
        }
    }
    depth
}

/// Whether a type stands too deep for the stack: along the longest chain of types, each inside the one before, where a name stands around what it
/// names. A name stands for a type that is declared before.
pub(crate) fn are_too_deep(alloc: Global, text: &Text) -> Result<bool, AllocError> {
    let mut depths = NameMap::new(alloc);
    for top in text.tops.as_slice() {
        if let Top::Alias { name, of, .. } = top {
            let depth = type_depth(of, &depths);
            if depth > DEEPEST {
                return Ok(true);
            }
            depths.push(&name.name, depth)?;
        }
    }
    Ok(false)
}
