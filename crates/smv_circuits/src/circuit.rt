// A circuit of inputs, latches and conjunctions, each conjunction once.
ghost use Rattle.std.specs.Prelude.{◌≡◌, ◌+◌, ◌<◌, ◌&&◌, ℕ, Bool, true, false, not, [], length, slice_get, Some, if◌then◌else◌, IfOk, IfSome, IfNone};
ghost use Rattle.smv_circuits.specs.Circuits.{Adds, AreApart, IsCircuit, IsGateOf, IsIn, IsSimple, constant_of, gate_value, holds, number_of, under_test, value, values_of};

use std::alloc::{AllocError, Global};
use std::collections::HashMap;

/// A variable of a circuit, or its negation. Variable 0 is false.
#[derive(Clone, Copy, PartialEq, Eq, Hash)]
pub struct Literal {
    pub variable: u32,
    pub inverted: bool,
}

/// The conjunction of two literals, the one of the later variable first.
#[derive(Clone, Copy, PartialEq, Eq, Hash)]
pub struct Gate {
    pub left: Literal,
    pub right: Literal,
}

/// The gates so far, which are the variables from `first` on, and the places of those that were put there.
#[derive(Drop)]
pub(crate) struct Circuit {
    pub first: u32,
    pub gates: Vec<Gate>,
    pub places: HashMap<Gate, u32>,
}

/// The gates of a circuit, with what its latches become and what it shows. The inputs are the bits of the new state; the latches are those of the old one, 0 at first, and behind them `started`: whether there is an old one.
#[derive(Drop)]
pub(crate) struct Frames {
    pub bits: u32,
    pub gates: Vec<Gate>,
    pub next: Vec<Literal>,
    pub started: Literal,
    pub broken: Literal,
}

// The variables of a circuit are fewer than these.
const MOST: usize = 1_073_741_824;

/// The literal that is always or never true.
pub(crate) fn constant(value: bool) -> Literal
    ensures { result ≡ constant_of value }
{
    Literal {
        variable: 0,
        inverted: value,
    }
}

/// A variable.
pub(crate) fn positive(variable: u32) -> Literal
    ensures variable { result.variable ≡ variable }
    ensures inverted { result.inverted ≡ false }
{
    Literal {
        variable,
        inverted: false,
    }
}

// The negation of a literal.
fn negated(one: Literal) -> Literal
    ensures variable { result.variable ≡ one.variable }
    ensures inverted { result.inverted ≡ not one.inverted }
{
    Literal {
        variable: one.variable,
        inverted: !one.inverted,
    }
}

/// The number that a file has for a literal.
pub(crate) fn number(one: Literal) -> usize
    ensures { result ≡ number_of one }
{
    2 * one.variable as usize + usize::from(one.inverted)
}

// A literal under a test.
fn under(test: bool, one: Literal) -> Literal
    ensures { result ≡ under_test test one }
{
    if test { one } else { constant(false) }
}

// Whether two truth values are one.
fn agree(one: bool, other: bool) -> bool
    ensures { result ≡ (if one then other else not other) }
{
    if one { other } else { !other }
}

// The conjunction of two literals that needs no gate.
fn simple(one: Literal, other: Literal) -> Option<Literal>
    ensures some { IfSome result (IsSimple one other) }
    ensures none { IfNone result (AreApart one other) }
{
    if one.variable == 0 {
        return Some(under(one.inverted, other));
    }
    if other.variable == 0 {
        return Some(under(other.inverted, one));
    }
    if one.variable == other.variable {
        return Some(under(agree(one.inverted, other.inverted), one));
    }
    None
}

// The gate of two literals.
fn gate_of(one: Literal, other: Literal) -> Gate
    requires { AreApart one other }
    ensures { IsGateOf one other result }
{
    if one.variable < other.variable {
        Gate {
            left: other,
            right: one,
        }
    } else {
        Gate {
            left: one,
            right: other,
        }
    }
}

// Whether two gates are one.
fn is_same(gate: Gate, other: Gate) -> bool
    ensures { result ≡ true → gate ≡ other }
{
    let left = number(gate.left) == number(other.left);
    let right = number(gate.right) == number(other.right);
    left && right
}

impl Circuit {
    /// A circuit without gates. Its first gate is this variable.
    pub(crate) fn new(alloc: Global, first: u32) -> Circuit
        ensures first { result.first ≡ first }
        ensures gates { result.gates.items ≡ [] }
    {
        Circuit {
            first,
            gates: Vec::new(alloc),
            places: HashMap::new(alloc),
        }
    }

    // The place of a gate that stands.
    fn place_of(&self, gate: Gate) -> Option<u32>
        ensures stands { IfSome result (λ place. slice_get self.now.gates.items place ≡ Some gate) }
        ensures within { IfSome result (λ place. place < length self.now.gates.items) }
    {
        let Some(place) = self.places.get(&gate).copied() else {
            return None;
        };
        match self.gates.as_slice().get(place as usize).copied() {
            Some(stands) => {
                if is_same(stands, gate) {
                    Some(place)
                } else {
                    None
                }
            }
            None => None,
        }
    }

    // A gate more.
    fn added(&mut self, gate: Gate) -> Result<Literal, AllocError>
        requires circuit { IsCircuit self.old.first self.old.gates.items }
        requires left { gate.left.variable < self.old.first + length self.old.gates.items }
        requires right { gate.right.variable < gate.left.variable }
        ensures { IfOk result (λ made. Adds self.old.first self.old.gates.items self.new.first self.new.gates.items made (λ a. gate_value (values_of self.old.first self.old.gates.items a) gate)) }
    {
        let place = self.gates.len();
        let variable = self.first as usize + place;
        if variable >= MOST {
            return Err(AllocError);
        }
        self.gates.push(gate)?;
        self.places.insert(gate, place as u32)?;
        Ok(positive(variable as u32))
    }

    // The conjunction of two literals of different variables.
    fn joined(&mut self, one: Literal, other: Literal) -> Result<Literal, AllocError>
        requires circuit { IsCircuit self.old.first self.old.gates.items }
        requires one { IsIn self.old.first self.old.gates.items one }
        requires other { IsIn self.old.first self.old.gates.items other }
        requires apart { AreApart one other }
        ensures { IfOk result (λ made. Adds self.old.first self.old.gates.items self.new.first self.new.gates.items made (λ a. value self.old.first self.old.gates.items a one && value self.old.first self.old.gates.items a other)) }
    {
        let gate = gate_of(one, other);
        match self.place_of(gate) {
            Some(place) => Ok(positive(self.first + place)),
            None => {
                let made = self.added(gate)?;
                Ok(made)
            }
        }
    }

    /// The conjunction of two literals.
    pub(crate) fn and(&mut self, one: Literal, other: Literal) -> Result<Literal, AllocError>
        requires circuit { IsCircuit self.old.first self.old.gates.items }
        requires one { IsIn self.old.first self.old.gates.items one }
        requires other { IsIn self.old.first self.old.gates.items other }
        ensures { IfOk result (λ made. Adds self.old.first self.old.gates.items self.new.first self.new.gates.items made (λ a. value self.old.first self.old.gates.items a one && value self.old.first self.old.gates.items a other)) }
    {
        if let Some(made) = simple(one, other) {
            return Ok(made);
        }
        let made = self.joined(one, other)?;
        Ok(made)
    }

    // One literal where a test is true, and another where it is false, by three conjunctions.
    fn chosen(&mut self, test: Literal, high: Literal, low: Literal) -> Result<Literal, AllocError>
        requires circuit { IsCircuit self.old.first self.old.gates.items }
        requires test { IsIn self.old.first self.old.gates.items test }
        requires high { IsIn self.old.first self.old.gates.items high }
        requires low { IsIn self.old.first self.old.gates.items low }
        ensures { IfOk result (λ made. Adds self.old.first self.old.gates.items self.new.first self.new.gates.items made (λ a. if value self.old.first self.old.gates.items a test then value self.old.first self.old.gates.items a high else value self.old.first self.old.gates.items a low)) }
    {
        let one = self.and(test, high)?;
        let other = self.and(negated(test), low)?;
        let neither = self.and(negated(one), negated(other))?;
        Ok(negated(neither))
    }

    /// One literal where a test is true, and another where it is false.
    pub(crate) fn choice(
        &mut self,
        test: Literal,
        high: Literal,
        low: Literal,
    ) -> Result<Literal, AllocError>
        requires circuit { IsCircuit self.old.first self.old.gates.items }
        requires test { IsIn self.old.first self.old.gates.items test }
        requires high { IsIn self.old.first self.old.gates.items high }
        requires low { IsIn self.old.first self.old.gates.items low }
        ensures { IfOk result (λ made. Adds self.old.first self.old.gates.items self.new.first self.new.gates.items made (λ a. if value self.old.first self.old.gates.items a test then value self.old.first self.old.gates.items a high else value self.old.first self.old.gates.items a low)) }
    {
        if number(high) == number(low) {
            return Ok(high);
        }
        let made = self.chosen(test, high, low)?;
        Ok(made)
    }
}
