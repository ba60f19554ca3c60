// Keys that stand before one at a place.
ghost use Rattle.std.specs.Prelude.{◌≡◌, [], ◌∷◌, ◌++◌, map, if◌then◌else◌, nat_eq, OnOk};
ghost use Rattle.std.specs.Str.{bytes_eq};
ghost use Rattle.std.specs.List.{flat_map};
ghost use Rattle.smv_mentions.specs.NameFaults.{place_if};
ghost use Rattle.smv_references.specs.Again as again;
ghost use Rattle.smv_references.specs.Again.{placed};
ghost use Rattle.smv_look_uses.specs.Chosen.{same_before};

use smv_choices::twice::Key;
use smv_core::Name;
use std::alloc::{AllocError, Global};

// Whether two layers are one, or both are none.
fn are_one(a: Option<u16>, b: Option<u16>) -> bool
    ensures { result ≡ again.same_key (0, a) (0, b) }
{
    match (a, b) {
        (Some(a), Some(b)) => a == b,
        (None, None) => true,
        (Some(_), None) => false,
        (None, Some(_)) => false,
    }
}

// Whether two keys are the same.
fn same_key(a: (u16, Option<u16>), b: (u16, Option<u16>)) -> bool
    ensures { result ≡ again.same_key a b }
{
    a.0 == b.0 && are_one(a.1, b.1)
}

// The place of an earlier key, where it is the same.
fn push_if_same(out: &mut Vec<u32>, earlier: Key, later: Key) -> Result<(), AllocError>
    ensures { OnOk result (out.new.items ≡ out.old.items ++ place_if (again.same_key earlier.1 later.1) earlier.0) }
{
    if same_key(earlier.1, later.1) {
        out.push(earlier.0)?;
    }
    Ok(())
}

// The places of these keys that are the same as another one.
#[tactic(auto, using(smv_mentions::proofs::Notes::noting))]
fn push_same(out: &mut Vec<u32>, before: &[Key], later: Key) -> Result<(), AllocError>
    ensures { OnOk result (out.new.items ≡ out.old.items ++ flat_map (λ y. place_if (again.same_key y.1 later.1) y.0) before.now) }
{
    for earlier in before {
        push_if_same(out, *earlier, later)?;
    }
    Ok(())
}

// The same, where that one stands at a place.
fn push_at(out: &mut Vec<u32>, before: &[Key], later: Key, at: u32) -> Result<(), AllocError>
    ensures { OnOk result (out.new.items ≡ out.old.items ++ (if nat_eq later.0 at then flat_map (λ y. place_if (again.same_key y.1 later.1) y.0) before.now else [])) }
{
    if later.0 == at {
        push_same(out, before, later)?;
    }
    Ok(())
}

/// The places of those keys that stand before one at a place and are the same.
#[tactic(auto, using(smv_mentions::proofs::Notes::noting))]
pub(crate) fn push_before(
    alloc: Global,
    out: &mut Vec<u32>,
    keys: &[Key],
    at: u32,
) -> Result<(), AllocError>
    ensures { OnOk result (out.new.items ≡ out.old.items ++ same_before at again.same_key [] keys.now) }
{
    let mut before = Vec::new(alloc);
    for key in keys {
        push_at(out, before.as_slice(), *key, at)?;
        before.push(*key)?;
    }
    Ok(())
}

// ---- names

// The place of an earlier name, where it is the same.
fn push_if_named<'a>(
    out: &mut Vec<u32>,
    earlier: (u32, &'a Name),
    later: (u32, &'a Name),
) -> Result<(), AllocError>
    ensures { OnOk result (out.new.items ≡ out.old.items ++ place_if (bytes_eq earlier.entry.1.now later.entry.1.now) earlier.entry.0) }
{
    if *earlier.1 == *later.1 {
        out.push(earlier.0)?;
    }
    Ok(())
}

// The places of these names that are the same as another one.
#[tactic(auto, using(smv_mentions::proofs::Notes::noting))]
fn push_named<'a>(
    out: &mut Vec<u32>,
    before: &[(u32, &'a Name)],
    later: (u32, &'a Name),
) -> Result<(), AllocError>
    ensures { OnOk result (out.new.items ≡ out.old.items ++ flat_map (λ y. place_if (bytes_eq y.1 later.entry.1.now) y.0) (map placed before.now)) }
{
    for earlier in before {
        push_if_named(out, *earlier, later)?;
    }
    Ok(())
}

// The same, where that one stands at a place.
fn push_named_at<'a>(
    out: &mut Vec<u32>,
    before: &[(u32, &'a Name)],
    later: (u32, &'a Name),
    at: u32,
) -> Result<(), AllocError>
    ensures { OnOk result (out.new.items ≡ out.old.items ++ (if nat_eq later.entry.0 at then flat_map (λ y. place_if (bytes_eq y.1 later.entry.1.now) y.0) (map placed before.now) else [])) }
{
    if later.0 == at {
        push_named(out, before, later)?;
    }
    Ok(())
}

/// The places of those names that stand before one at a place and are the same.
#[tactic(auto, using(smv_mentions::proofs::Notes::noting))]
pub(crate) fn push_names_before<'a>(
    alloc: Global,
    out: &mut Vec<u32>,
    names: &[(u32, &'a Name)],
    at: u32,
) -> Result<(), AllocError>
    ensures { OnOk result (out.new.items ≡ out.old.items ++ same_before at bytes_eq [] (map placed names.now)) }
{
    let mut before = Vec::new(alloc);
    for name in names {
        push_named_at(out, before.as_slice(), *name, at)?;
        before.push(*name)?;
    }
    Ok(())
}
