// The problem of a case as data: what the evaluator, the encoder and the trace read.
use smv_core::Seq;
use smv_core::abstract_type::AbsType;
use smv_core::flat::{DefBody, Element, Family, FlatExpr, Guard};
use smv_spots::spots::Spot;

/// What an outcome may be in a case: a number, a constant by its place in its enumeration, a class or a rest of a set type, or Undefined.
#[derive(Clone, Copy, PartialEq, Eq)]
pub enum AbsValue {
    Number { value: u16 },
    Constant { place: u16 },
    Named { class: u8 },
    Rest { gap: u8 },
    Undefined,
}

/// An abstract state: a value for each element of a problem, in their order.
#[derive(Drop)]
pub struct AbsState {
    pub values: Seq<AbsValue>,
}

/// What is demanded at a time: the definition of an element, or the body of a claim with its parameters at these spots.
#[derive(Drop)]
pub enum Demand {
    Defined {
        element: Element,
        init: DefBody,
        next: DefBody,
        comb: DefBody,
    },
    Holds {
        body: FlatExpr,
        bindings: Seq<Spot>,
    },
}

/// The problem of a case: its elements in cone order, the families of the design, how many constants each enumeration has and a number for the name of each (one
/// for equal names, of whatever enumeration), for each set type a number for its name, whether it is an ordset, and its abstract form, what is demanded at each time and at each but the last, the target, the guards and the spots of
/// the leaf's parameters.
#[derive(Drop)]
pub struct Problem {
    pub elements: Seq<Element>,
    pub families: Seq<Family>,
    pub lists: Seq<u16>,
    pub names: Seq<Seq<usize>>,
    pub set_names: Seq<usize>,
    pub ordered: Seq<bool>,
    pub types: Seq<AbsType>,
    pub now: Seq<Demand>,
    pub before: Seq<Demand>,
    pub target: Demand,
    pub guards: Seq<Guard>,
    pub bindings: Seq<Spot>,
}
