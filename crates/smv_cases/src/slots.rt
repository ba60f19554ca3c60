// Parameters as the cases of a leaf see them.
ghost use Rattle.std.specs.Prelude.{◌≡◌, List, [], is_some, option_map, slice_get, IfOk, nat_eq, true};
ghost use Rattle.std.specs.List.{list_any, list_all};
ghost use Rattle.smv_core.specs.declared.flat.Class.{Class};
ghost use Rattle.smv_cases.specs.declared.slots.Slot.{Slot};
ghost use Rattle.smv_core.specs.declared.flat.Simple.TheVariants as simple;
ghost use Rattle.law_obligations.specs.LeafCases as leaf;
ghost use Rattle.law_obligations.specs.LeafCases.{kept_of, treatments_of, stays};
ghost use Rattle.smv_cases.specs.Slots.{treatment_of, parameters_of, IsSlot, AreSlots, AreTypes, keeps};

use smv_core::flat::{Keep, Param, SetInfo, Simple};
use std::alloc::{AllocError, Global};

/// How a set type is abstracted: a scalarset of so many values as it is, a scalarset reduced, or an ordset.
#[derive(Clone, Copy)]
pub enum Treatment {
    Whole { size: u16 },
    Reduced { size: Option<u16> },
    Ordered,
}

/// A parameter: its type, whether it stays apart from the others, and how its set type is abstracted, if it is over one.
#[derive(Clone, Copy)]
pub struct Slot {
    pub over: Simple,
    pub listed: bool,
    pub treatment: Option<Treatment>,
}

/// One slot for each set type among these.
pub fn types(alloc: Global, slots: &[Slot]) -> Result<Vec<Slot>, AllocError>
    ensures { IfOk result (λ types. AreTypes slots.now types.items) }
{
    let mut types = Vec::new(alloc);
    for slot in slots {
        if !has_type(types.as_slice(), slot) {
            types.push(*slot)?;
        }
    }
    Ok(types)
}

// One of these is of the same set type.
fn has_type(types: &[Slot], slot: &Slot) -> bool
    ensures { result ≡ true → (slots : List Slot) (classes : List Class) → list_all (keeps slots classes) types.now ≡ true → keeps slots classes slot.now ≡ true }
{
    match types {
        [] => false,
        [first, types @ ..] => is_same_type(first, slot) || has_type(types, slot),
    }
}

// Both are of one set type.
fn is_same_type(slot: &Slot, other: &Slot) -> bool
    ensures { result ≡ true → (slots : List Slot) (classes : List Class) → keeps slots classes slot.now ≡ keeps slots classes other.now }
{
    match slot.over {
        Simple::Set { set } => match other.over {
            Simple::Set { set: other_set } => set == other_set
                && is_same(slot.treatment, other.treatment),
            Simple::Range { .. } => false,
            Simple::Enum { .. } => false,
        },
        Simple::Range { .. } => false,
        Simple::Enum { .. } => false,
    }
}

// They are treated in one way.
fn is_same(treatment: Option<Treatment>, other: Option<Treatment>) -> bool
    ensures { result ≡ true → treatment ≡ other }
{
    match treatment {
        None => other.is_none(),
        Some(Treatment::Whole { size }) => match other {
            Some(Treatment::Whole { size: other_size }) => size == other_size,
            _ => false,
        },
        Some(Treatment::Reduced { size: None }) => matches!(
            other,
            Some(Treatment::Reduced { size: None })
        ),
        Some(Treatment::Reduced { size: Some(size) }) => match other {
            Some(
                Treatment::Reduced {
                    size: Some(other_size),
                },
            ) => size == other_size,
            _ => false,
        },
        Some(Treatment::Ordered) => matches!(other, Some(Treatment::Ordered)),
    }
}

/// The parameters of a leaf as its cases see them.
pub fn slots(
    alloc: Global,
    sets: &[SetInfo],
    params: &[Param],
    keeps: &[Keep],
) -> Result<Vec<Slot>, AllocError>
    ensures parameters { IfOk result (λ slots. parameters_of slots.items ≡ leaf.parameters_of keeps.now params.now) }
    ensures treatments { IfOk result (λ slots. AreSlots (treatments_of keeps.now 0 sets.now) slots.items) }
{
    let mut slots = Vec::new(alloc);
    for param in params {
        slots.push(slot_of(sets, keeps, param))?;
    }
    Ok(slots)
}

// A parameter as the cases see it.
fn slot_of(sets: &[SetInfo], keeps: &[Keep], param: &Param) -> Slot
    ensures over { result.over ≡ param.now.over }
    ensures listed { result.listed ≡ stays keeps.now param.now.over param.now.var }
    ensures treatment { IsSlot (treatments_of keeps.now 0 sets.now) result }
{
    match param.over {
        Simple::Set { set } => Slot {
            over: param.over,
            listed: is_kept(keeps, usize::from(set), param.var),
            treatment: treatment_at(sets, keeps, usize::from(set)),
        },
        Simple::Range { .. } => Slot {
            over: param.over,
            listed: true,
            treatment: None,
        },
        Simple::Enum { .. } => Slot {
            over: param.over,
            listed: true,
            treatment: None,
        },
    }
}

// How the set type at a place is abstracted.
#[tactic(auto, using(crate::proofs::SlotLaws::treatment_none))]
fn treatment_at(sets: &[SetInfo], keeps: &[Keep], set: usize) -> Option<Treatment>
    ensures { option_map treatment_of result ≡ slice_get (treatments_of keeps.now 0 sets.now) set }
{
    match sets.get(set) {
        None => None,
        Some(info) => Some(treated(keeps, set, info)),
    }
}

/// How the set type of this number is abstracted.
pub(crate) fn treated(keeps: &[Keep], set: usize, info: &SetInfo) -> Treatment
    ensures { treatment_of result ≡ leaf.treatment_of info.now.ordered info.now.size (kept_of keeps.now set) }
{
    treat(info, names(keeps, set))
}

// How a set type is abstracted, where the choice says which of its parameters stay or does not.
fn treat(info: &SetInfo, is_named: bool) -> Treatment
    ensures { (kept : _) → is_some kept ≡ is_named → treatment_of result ≡ leaf.treatment_of info.now.ordered info.now.size kept }
{
    if info.ordered {
        return Treatment::Ordered;
    }
    match info.size {
        None => Treatment::Reduced { size: None },
        Some(size) => {
            if is_named {
                Treatment::Reduced { size: Some(size) }
            } else {
                Treatment::Whole { size }
            }
        }
    }
}

// The choice says which parameters of the set type stay.
fn names(keeps: &[Keep], set: usize) -> bool
    ensures { result ≡ is_some (kept_of keeps.now set) }
{
    match keeps {
        [] => false,
        [keep, keeps @ ..] => usize::from(keep.set) == set || names(keeps, set),
    }
}

// A parameter of the set type stays.
fn is_kept(keeps: &[Keep], set: usize, var: u16) -> bool
    ensures { result ≡ stays keeps.now (simple.Set set) var }
{
    match keeps {
        [] => true,
        [keep, keeps @ ..] => {
            if usize::from(keep.set) == set {
                contains(keep.params.as_slice(), var)
            } else {
                is_kept(keeps, set, var)
            }
        }
    }
}

fn contains(vars: &[u16], var: u16) -> bool
    ensures { result ≡ list_any (nat_eq var) vars.now }
{
    match vars {
        [] => false,
        [first, vars @ ..] => var == *first || contains(vars, var),
    }
}
