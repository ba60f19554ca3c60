// The earlier of two faults, and a fault at a place.
ghost use Rattle.std.specs.Prelude.{◌≡◌};
ghost use Rattle.smv_mentions.specs.FirstFault as first;
ghost use Rattle.smv_first_fault.specs.Firsts as spec;
ghost use Rattle.smv_first_fault.specs.Firsts.{earlier_of, FirstOfBoth, AnyOrder};

use smv_core::fault::Fault;

// Whether a fault comes before another.
fn comes_before(fault: Fault, other: Fault) -> bool
    ensures { result ≡ first.comes_before fault other }
{
    fault.at < other.at || fault.at == other.at && fault.number < other.number
}

/// The earlier of two faults.
pub fn earlier(fault: Option<Fault>, other: Option<Fault>) -> Option<Fault>
    ensures { result ≡ earlier_of fault other }
{
    match (fault, other) {
        (Some(first), Some(second)) => {
            if comes_before(second, first) {
                Some(second)
            } else {
                Some(first)
            }
        }
        (Some(first), None) => Some(first),
        (None, other) => other,
    }
}

/// A fault of this number at a place, where there is a place.
pub fn fault_at(number: u8, at: Option<u32>) -> Option<Fault>
    ensures { result ≡ spec.fault_at number at }
{
    match at {
        Some(at) => Some(Fault { number, at }),
        None => None,
    }
}

/// Of two lists of faults the first is the earlier of their first ones.
pub fn first_of_both()
    ensures { FirstOfBoth }
{}

/// The earliest of several faults is the same in whatever order they are compared.
pub fn any_order()
    ensures { AnyOrder }
{}
