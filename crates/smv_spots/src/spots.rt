// Values of a case by the numbers of their types.
ghost use Rattle.std.specs.Prelude.{◌≡◌, ◌↔◌, IsTrue};

/// A number, a constant by its enumeration, a class of a set type, or a rest of one.
#[derive(Clone, Copy, Drop)]
pub enum Spot {
    Number { value: u16 },
    Constant { list: u16, value: u16 },
    Class { set: u16, class: u16 },
    Rest { set: u16, rest: u16 },
}

// The same spot.
fn is_spot(p: Spot, q: Spot) -> bool
    ensures { IsTrue result ↔ (p ≡ q) }
{
    match (p, q) {
        (Spot::Number { value: a }, Spot::Number { value: b }) => a == b,
        (Spot::Constant { list: s, value: a }, Spot::Constant { list: t, value: b }) => s == t
            && a == b,
        (Spot::Class { set: s, class: a }, Spot::Class { set: t, class: b }) => s == t && a == b,
        (Spot::Rest { set: s, rest: a }, Spot::Rest { set: t, rest: b }) => s == t && a == b,
        _ => false,
    }
}

/// The same outcome, by its numbers.
pub fn is_outcome(u: Option<Spot>, v: Option<Spot>) -> bool
    ensures { IsTrue result ↔ (u ≡ v) }
{
    match (u, v) {
        (Some(p), Some(q)) => is_spot(p, q),
        (None, None) => true,
        _ => false,
    }
}
