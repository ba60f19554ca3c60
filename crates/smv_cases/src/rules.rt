// The rules for the classes of a set type.
ghost use Rattle.std.specs.Prelude.{◌≡◌, ◌≤◌, ◌+◌, ◌&&◌, not, ◌∷◌, List, ℕ, length, nat_eq, nat_lt};
ghost use Rattle.std.specs.List.{list_any, list_all};
ghost use Rattle.smv_core.specs.Values.{numbers_from};
ghost use Rattle.smv_core.specs.declared.flat.Class.{Class};
ghost use Rattle.smv_core.specs.declared.flat.Class.TheVariants as class;
ghost use Rattle.law_obligations.specs.Places.{rests_beside};
ghost use Rattle.law_obligations.specs.Cases.{is_set, used, named_among, are_named, grow, are_below, those_of, is_orderly, is_of, abstract_type, type_in, is_allowed};
ghost use Rattle.smv_cases.specs.Growing.{counts, counted, widest, may_follow, may_stand};
ghost use Rattle.smv_cases.specs.Slots.{treatment_of, parameters_of, AreLimits, stands};

use crate::slots::{Slot, Treatment};
use smv_core::abstract_type::{AbsType, Rest};
use smv_core::flat::{Class, Simple};

// Each parameter of a scalarset that is not reduced counts as listed.
pub fn counts(treatment: Treatment, listed: bool) -> bool
    ensures { result ≡ counts (treatment_of treatment) listed }
{
    match treatment {
        Treatment::Whole { .. } => true,
        Treatment::Reduced { .. } => listed,
        Treatment::Ordered => listed,
    }
}

// The parameter is one of this set type, and counts as listed.
fn is_counted(slot: &Slot, treatment: Treatment, set: usize) -> bool
    ensures { result ≡ is_set set slot.now.over && counts (treatment_of treatment) slot.now.listed }
{
    match slot.over {
        Simple::Set { set: other } => usize::from(other) == set && counts(treatment, slot.listed),
        Simple::Range { .. } => false,
        Simple::Enum { .. } => false,
    }
}

// How many parameters of a set type count as listed.
fn count(slots: &[Slot], treatment: Treatment, set: usize) -> usize
    ensures few { result ≤ length slots.now }
    ensures count { result ≡ length (counted (treatment_of treatment) set (parameters_of slots.now) (parameters_of slots.now)) }
{
    match slots {
        [] => 0,
        [slot, slots @ ..] => {
            let rest = count(slots, treatment, set);
            if is_counted(slot, treatment, set) {
                rest + 1
            } else {
                rest
            }
        }
    }
}

// How many classes these listed parameters use.
fn used(slots: &[Slot], classes: &[Class], treatment: Treatment, set: usize) -> usize
    ensures used { result ≡ used (named_among (counted (treatment_of treatment) set (parameters_of slots.now) classes.now)) }
    ensures few { result ≤ 256 }
{
    match slots {
        [] => 0,
        [slot, slots @ ..] => match classes {
            [] => 0,
            [class, classes @ ..] => {
                let rest = used(slots, classes, treatment, set);
                if is_counted(slot, treatment, set) {
                    one_more(*class, rest)
                } else {
                    rest
                }
            }
        },
    }
}

// One class more before those that use so many.
fn one_more(class: Class, rest: usize) -> usize
    requires { rest ≤ 256 }
    ensures used { (classes : List Class) → rest ≡ used (named_among classes) → result ≡ used (named_among (class ∷ classes)) }
    ensures few { result ≤ 256 }
{
    match class {
        Class::Named { class } => rest.max(usize::from(class) + 1),
        Class::Number { .. } => rest,
        Class::Rest { .. } => rest,
    }
}

// These listed parameters have named classes alone.
fn are_named(slots: &[Slot], classes: &[Class], treatment: Treatment, set: usize) -> bool
    ensures { result ≡ are_named (counted (treatment_of treatment) set (parameters_of slots.now) classes.now) }
{
    match slots {
        [] => true,
        [slot, slots @ ..] => match classes {
            [] => true,
            [class, classes @ ..] => {
                let rest = are_named(slots, classes, treatment, set);
                if is_counted(slot, treatment, set) {
                    is_named(*class) && rest
                } else {
                    rest
                }
            }
        },
    }
}

// It is a named class.
#[tactic(auto, using(crate::proofs::RuleLaws::named_more, crate::proofs::RuleLaws::number_not_named, crate::proofs::RuleLaws::rest_not_named))]
fn is_named(class: Class) -> bool
    ensures { (classes : List Class) → are_named (class ∷ classes) ≡ result && are_named classes }
{
    match class {
        Class::Named { .. } => true,
        Class::Number { .. } => false,
        Class::Rest { .. } => false,
    }
}

// Their classes grow from this number on.
fn grows(slots: &[Slot], classes: &[Class], treatment: Treatment, set: usize, m: usize) -> bool
    ensures { result ≡ grow m (named_among (counted (treatment_of treatment) set (parameters_of slots.now) classes.now)) }
{
    match slots {
        [] => true,
        [slot, slots @ ..] => match classes {
            [] => true,
            [class, classes @ ..] => {
                if !is_counted(slot, treatment, set) {
                    return grows(slots, classes, treatment, set, m);
                }
                match *class {
                    Class::Named { class } => usize::from(class) <= m
                        && grows(
                            slots,
                            classes,
                            treatment,
                            set,
                            m.max(usize::from(class) + 1),
                        ),
                    Class::Number { .. } => grows(slots, classes, treatment, set, m),
                    Class::Rest { .. } => grows(slots, classes, treatment, set, m),
                }
            }
        },
    }
}

// Their classes are below a size.
fn are_below(slots: &[Slot], classes: &[Class], treatment: Treatment, set: usize, size: u16) -> bool
    ensures { result ≡ are_below (Some size) (named_among (counted (treatment_of treatment) set (parameters_of slots.now) classes.now)) }
{
    match slots {
        [] => true,
        [slot, slots @ ..] => match classes {
            [] => true,
            [class, classes @ ..] => {
                let rest = are_below(slots, classes, treatment, set, size);
                if !is_counted(slot, treatment, set) {
                    return rest;
                }
                match *class {
                    Class::Named { class } => u16::from(class) < size && rest,
                    Class::Number { .. } => rest,
                    Class::Rest { .. } => rest,
                }
            }
        },
    }
}

// One of them has this class.
fn has(slots: &[Slot], classes: &[Class], treatment: Treatment, set: usize, wanted: usize) -> bool
    ensures { result ≡ list_any (nat_eq wanted) (named_among (counted (treatment_of treatment) set (parameters_of slots.now) classes.now)) }
{
    match slots {
        [] => false,
        [slot, slots @ ..] => match classes {
            [] => false,
            [class, classes @ ..] => {
                let rest = has(slots, classes, treatment, set, wanted);
                if !is_counted(slot, treatment, set) {
                    return rest;
                }
                match *class {
                    Class::Named { class } => wanted == usize::from(class) || rest,
                    Class::Number { .. } => rest,
                    Class::Rest { .. } => rest,
                }
            }
        },
    }
}

// They have each of so many classes.
fn have_all(
    slots: &[Slot],
    classes: &[Class],
    treatment: Treatment,
    set: usize,
    first: usize,
    count: usize,
) -> bool
    requires { first + count ≤ 256 }
    ensures { result ≡ list_all (λ c. list_any (nat_eq c) (named_among (counted (treatment_of treatment) set (parameters_of slots.now) classes.now))) (numbers_from first count) }
{
    if count == 0 {
        return true;
    }
    has(slots, classes, treatment, set, first)
        && have_all(slots, classes, treatment, set, first + 1, count - 1)
}

// The classes of those that count obey the rule of their type.
fn is_orderly(slots: &[Slot], classes: &[Class], treatment: Treatment, set: usize) -> bool
    ensures { result ≡ is_orderly (treatment_of treatment) (named_among (counted (treatment_of treatment) set (parameters_of slots.now) classes.now)) }
{
    match treatment {
        Treatment::Whole { size } => grows(slots, classes, treatment, set, 0)
            && are_below(slots, classes, treatment, set, size),
        Treatment::Reduced { size: None } => grows(slots, classes, treatment, set, 0),
        Treatment::Reduced { size: Some(size) } => grows(slots, classes, treatment, set, 0)
            && are_below(slots, classes, treatment, set, size),
        Treatment::Ordered => have_all(
            slots,
            classes,
            treatment,
            set,
            0,
            used(slots, classes, treatment, set),
        ),
    }
}

// A class or a rest of an abstract type.
#[tactic(auto, using(crate::proofs::RuleLaws::one_rest, crate::proofs::RuleLaws::gaps_rest))]
fn is_of(t: AbsType, class: Class) -> bool
    ensures { result ≡ is_of t class }
{
    match class {
        Class::Number { .. } => false,
        Class::Named { class } => u16::from(class) < t.named,
        Class::Rest { gap } => is_rest_of(t, gap),
    }
}

// A rest of an abstract type.
#[tactic(auto, using(crate::proofs::RuleLaws::one_rest, crate::proofs::RuleLaws::gaps_rest))]
fn is_rest_of(t: AbsType, gap: u8) -> bool
    ensures { result ≡ list_any (nat_eq gap) (rests_beside t.rest t.named) }
{
    match t.rest {
        Rest::None => false,
        Rest::One => gap == 0,
        Rest::Gaps => u16::from(gap) <= t.named,
    }
}

// Those that do not count have a class or a rest of their type.
fn are_of(slots: &[Slot], classes: &[Class], set: usize, t: AbsType) -> bool
    ensures { result ≡ list_all (is_of t) (those_of (λ listed. not listed) set (parameters_of slots.now) classes.now) }
{
    match slots {
        [] => true,
        [slot, slots @ ..] => match classes {
            [] => true,
            [class, classes @ ..] => {
                let more = are_of(slots, classes, set, t);
                if is_unlisted(slot, set) {
                    is_of(t, *class) && more
                } else {
                    more
                }
            }
        },
    }
}

// The parameter is one of this set type that is not listed.
fn is_unlisted(slot: &Slot, set: usize) -> bool
    ensures { result ≡ is_set set slot.now.over && not slot.now.listed }
{
    match slot.over {
        Simple::Set { set: other } => usize::from(other) == set && !slot.listed,
        Simple::Range { .. } => false,
        Simple::Enum { .. } => false,
    }
}

/// The abstract type of a set type whose listed parameters use so many classes.
pub fn abstract_type(treatment: Treatment, named: u16) -> AbsType
    ensures { result ≡ abstract_type (treatment_of treatment) named }
{
    match treatment {
        Treatment::Whole { size } => AbsType {
            named: size,
            rest: Rest::None,
        },
        Treatment::Reduced { size: None } => AbsType {
            named,
            rest: Rest::One,
        },
        Treatment::Reduced { size: Some(size) } => {
            if named < size {
                AbsType {
                    named,
                    rest: Rest::One,
                }
            } else {
                AbsType {
                    named,
                    rest: Rest::None,
                }
            }
        }
        Treatment::Ordered => AbsType {
            named,
            rest: Rest::Gaps,
        },
    }
}

/// The classes of a set type's parameters are as its rules allow.
pub(crate) fn is_allowed(
    slots: &[Slot],
    classes: &[Class],
    treatment: Treatment,
    set: usize,
) -> bool
    ensures { result ≡ is_allowed (treatment_of treatment) set (parameters_of slots.now) classes.now }
{
    if !are_named(slots, classes, treatment, set) {
        return false;
    }
    if !is_orderly(slots, classes, treatment, set) {
        return false;
    }
    match treatment {
        Treatment::Whole { .. } => true,
        Treatment::Reduced { .. } => are_of(
            slots,
            classes,
            set,
            type_in(slots, classes, treatment, set),
        ),
        Treatment::Ordered => are_of(slots, classes, set, type_in(slots, classes, treatment, set)),
    }
}

/// The abstract type that these classes give a set type.
pub(crate) fn type_in(
    slots: &[Slot],
    classes: &[Class],
    treatment: Treatment,
    set: usize,
) -> AbsType
    ensures { result ≡ type_in (treatment_of treatment) set (parameters_of slots.now) classes.now }
{
    abstract_type(treatment, used(slots, classes, treatment, set) as u16)
}

/// How many named classes and how many rests a parameter may have: the first ones of each.
#[derive(Clone, Copy)]
pub struct Limits {
    pub named: usize,
    pub rests: usize,
}

/// The classes that a parameter may have after these of the parameters before it.
pub(crate) fn limits_at(slots: &[Slot], before: &[Class], slot: &Slot) -> Limits
    requires { length slots.now ≤ 8 }
    ensures named { result.named ≤ length slots.now }
    ensures rests { result.rests ≤ length slots.now + 1 }
    ensures stands { AreLimits (length slots.now) (stands slots.now before.now slot.now) result }
{
    match slot.treatment {
        None => all(slots.len()),
        Some(treatment) => match slot.over {
            Simple::Set { set } => limits_in(
                slots,
                before,
                treatment,
                usize::from(set),
                slot.listed,
            ),
            Simple::Range { .. } => all(slots.len()),
            Simple::Enum { .. } => all(slots.len()),
        },
    }
}

// Any class, where there are so many parameters.
fn all(count: usize) -> Limits
    requires { count ≤ 8 }
    ensures { result ≡ record { named = count; rests = count + 1 } }
{
    Limits {
        named: count,
        rests: count + 1,
    }
}

// The same, where it is a parameter of a set type.
fn limits_in(
    slots: &[Slot],
    before: &[Class],
    treatment: Treatment,
    set: usize,
    listed: bool,
) -> Limits
    requires { length slots.now ≤ 8 }
    ensures named { result.named ≤ length slots.now }
    ensures rests { result.rests ≤ length slots.now + 1 }
    ensures stands { AreLimits (length slots.now) (may_stand (treatment_of treatment) set (parameters_of slots.now) before.now listed) result }
{
    let count = count(slots, treatment, set);
    if counts(treatment, listed) {
        let most = following(treatment, count, used(slots, before, treatment, set));
        return Limits {
            named: most.min(slots.len()),
            rests: 0,
        };
    }
    within(treatment, count)
}

// How many classes a listed parameter may have, where those before it use so many and so many count as listed.
fn following(treatment: Treatment, count: usize, m: usize) -> usize
    requires { m ≤ 256 }
    ensures { (c : ℕ) → may_follow (treatment_of treatment) count m (class.Named c) ≡ nat_lt c result }
{
    match treatment {
        Treatment::Whole { size } => usize::from(size).min(m + 1),
        Treatment::Reduced { size: None } => m + 1,
        Treatment::Reduced { size: Some(size) } => usize::from(size).min(m + 1),
        Treatment::Ordered => count,
    }
}

// How many classes and rests one that is not listed may have, where so many of its set type count as listed.
fn within(treatment: Treatment, count: usize) -> Limits
    requires { count ≤ 8 }
    ensures named { result.named ≡ count }
    ensures rests { result.rests ≤ count + 1 }
    ensures stands { (n : ℕ) → AreLimits n (is_of (widest (treatment_of treatment) count)) result }
{
    match treatment {
        Treatment::Whole { .. } => Limits {
            named: count,
            rests: 0,
        },
        Treatment::Reduced { .. } => Limits {
            named: count,
            rests: 1,
        },
        Treatment::Ordered => Limits {
            named: count,
            rests: count + 1,
        },
    }
}
