// The flattened text, the design that is made of it, and what the proof rules make of the design: units, leaves, choices and cases.
use crate::boxed::Boxed;
use crate::name::Name;
use crate::seq::Seq;
use crate::tree::{Kind, Op, Ref, Span, Use, Word};

/// An expression of the flattened text: each path is an element, a variable or a constant. A place is the offset of what stood there in the text.
#[cycle(flat_expressions)]
pub enum FlatExpr {
    /// A number.
    Number {
        value: u16,
        at: u32,
    },
    /// An element of a family, by the family's place in the list of families and by its indexes.
    Read {
        family: u16,
        indexes: Seq<FlatExpr>,
        at: u32,
    },
    /// A variable that a binder binds, by how many variables are bound around that binder.
    Var {
        var: u16,
        at: u32,
    },
    /// The variable of a `for` at its value, where the loop is written out.
    Loop {
        value: u16,
        at: u32,
    },
    /// A constant of an enumeration, by the place of its list among the enumerations and its place in the list.
    Constant {
        list: u16,
        value: u16,
        at: u32,
    },
    /// `~`, at its sign.
    Not {
        of: Boxed<FlatExpr>,
        at: u32,
    },
    /// A chain of two or more under `&`.
    And {
        parts: Seq<FlatExpr>,
    },
    /// A chain of two or more under `|`.
    Or {
        parts: Seq<FlatExpr>,
    },
    /// A chain of two or more under `->`, which groups to the right.
    Implies {
        parts: Seq<FlatExpr>,
    },
    /// `<->`.
    Iff {
        left: Boxed<FlatExpr>,
        right: Boxed<FlatExpr>,
    },
    /// A comparison.
    Compare {
        op: Op,
        left: Boxed<FlatExpr>,
        right: Boxed<FlatExpr>,
    },
    /// `in`, with a listed set to its right.
    Within {
        left: Boxed<FlatExpr>,
        set: Boxed<FlatExpr>,
    },
    /// A chain of sums and differences, from the left.
    Sum {
        first: Boxed<FlatExpr>,
        more: Seq<FlatSigned>,
    },
    /// The remainder by a number, at that number.
    Modulo {
        of: Boxed<FlatExpr>,
        by: u16,
        at: u32,
    },
    /// `cond ? yes : no`.
    Choose {
        cond: Boxed<FlatExpr>,
        yes: Boxed<FlatExpr>,
        no: Boxed<FlatExpr>,
    },
    /// The conjunction over all values of a type.
    All {
        body: Boxed<FlatExpr>,
        var: u16,
        over: Simple,
        at: u32,
    },
    /// The disjunction over all values of a type.
    Any {
        body: Boxed<FlatExpr>,
        var: u16,
        over: Simple,
        at: u32,
    },
    /// A listed set.
    List {
        members: Seq<FlatMember>,
        at: u32,
    },
    /// The values of a type at which the condition is 1, and all of them where there is none.
    Each {
        var: u16,
        over: Simple,
        cond: Option<Boxed<FlatExpr>>,
        at: u32,
    },
}

/// Written out, so that what lets one go calls this in place of an arm for each variant.
impl Drop for FlatExpr {
    #[cycle(flat_expressions)]
    fn drop(self) {
        match self {
            FlatExpr::Number { value: _, at: _ } => (),
            FlatExpr::Read {
                family: _,
                indexes: _,
                at: _,
            } => (),
            FlatExpr::Var { var: _, at: _ } => (),
            FlatExpr::Loop { value: _, at: _ } => (),
            FlatExpr::Constant {
                list: _,
                value: _,
                at: _,
            } => (),
            FlatExpr::Not { of: _, at: _ } => (),
            FlatExpr::And { parts: _ } => (),
            FlatExpr::Or { parts: _ } => (),
            FlatExpr::Implies { parts: _ } => (),
            FlatExpr::Iff { left: _, right: _ } => (),
            FlatExpr::Compare {
                op: _,
                left: _,
                right: _,
            } => (),
            FlatExpr::Within { left: _, set: _ } => (),
            FlatExpr::Sum { first: _, more: _ } => (),
            FlatExpr::Modulo {
                of: _,
                by: _,
                at: _,
            } => (),
            FlatExpr::Choose {
                cond: _,
                yes: _,
                no: _,
            } => (),
            FlatExpr::All {
                body: _,
                var: _,
                over: _,
                at: _,
            } => (),
            FlatExpr::Any {
                body: _,
                var: _,
                over: _,
                at: _,
            } => (),
            FlatExpr::List { members: _, at: _ } => (),
            FlatExpr::Each {
                var: _,
                over: _,
                cond: _,
                at: _,
            } => (),
        }
    }
}

/// What a sum adds or, with `minus`, takes away.
#[cycle(flat_expressions)]
#[derive(Drop)]
pub struct FlatSigned {
    pub minus: bool,
    pub of: FlatExpr,
}

/// A member of a listed set: a value, or all numbers of a span.
#[cycle(flat_expressions)]
pub enum FlatMember {
    One { of: FlatExpr },
    Span { span: Span, at: u32 },
}

/// Written out, so that what lets one go calls this in place of an arm for each variant.
impl Drop for FlatMember {
    #[cycle(flat_expressions)]
    fn drop(self) {
        match self {
            FlatMember::One { of: _ } => (),
            FlatMember::Span { span: _, at: _ } => (),
        }
    }
}

/// A type of one value: a range of numbers, an enumeration by its place among the enumerations, or a set type by its place among the set types.
#[derive(Clone, Copy, PartialEq, Eq)]
pub enum Simple {
    Range { low: u8, high: u8 },
    Enum { list: u16 },
    Set { set: u16 },
}

/// A scalarset, or an ordset where `ordered`. The size is that of a declared scalarset; without one it is any number of at least 1.
#[derive(Drop)]
pub struct SetInfo {
    pub name: Name,
    pub ordered: bool,
    pub size: Option<u16>,
}

/// A family of elements: its dotted name, the types of its indexes and of its value, and the offset of the name that declares it.
#[derive(Drop)]
pub struct Family {
    pub name: Name,
    pub over: Seq<Simple>,
    pub value: Simple,
    pub is_abstract: bool,
    pub at: u32,
}

/// The flattened text: its set types, enumerations and layers, each at the place where it is first met, and its families and items in flat order.
#[derive(Drop)]
pub struct FlatText {
    pub sets: Seq<SetInfo>,
    pub enums: Seq<Seq<Name>>,
    pub layers: Seq<Name>,
    pub families: Seq<Family>,
    pub items: Seq<FlatItem>,
}

/// What is met in flat order.
#[derive(Drop)]
pub enum FlatItem {
    /// A statement or a connection outside layers, or a statement of the layer at this place among the layers, inside the `forall`s around it.
    Act { layer: Option<u16>, act: FlatStmt },
    Claim { claim: Claim },
    Split { split: FlatSplit },
    Using { using: FlatUsing },
}

/// A statement of the flattened text. Loops are written out as blocks, a `switch` as one `If` inside another, and what is missing as an empty block.
pub enum FlatStmt {
    /// An assignment to an element of a family, by its indexes, at its first byte.
    Assign {
        kind: Kind,
        family: u16,
        left: Seq<FlatExpr>,
        value: FlatExpr,
        at: u32,
    },
    If {
        cond: FlatExpr,
        yes: Boxed<FlatStmt>,
        no: Boxed<FlatStmt>,
    },
    Block {
        parts: Seq<FlatStmt>,
    },
    Default {
        first: Boxed<FlatStmt>,
        second: Boxed<FlatStmt>,
    },
    Forall {
        var: u16,
        over: Simple,
        body: Boxed<FlatStmt>,
    },
}

/// Written out, so that what lets one go calls this in place of an arm for each variant.
impl Drop for FlatStmt {
    fn drop(self) {
        match self {
            FlatStmt::Assign {
                kind: _,
                family: _,
                left: _,
                value: _,
                at: _,
            } => (),
            FlatStmt::If {
                cond: _,
                yes: _,
                no: _,
            } => (),
            FlatStmt::Block { parts: _ } => (),
            FlatStmt::Default {
                first: _,
                second: _,
            } => (),
            FlatStmt::Forall {
                var: _,
                over: _,
                body: _,
            } => (),
        }
    }
}

/// What a definition says of one family for one kind of assignment.
pub enum DefBody {
    /// No result.
    Nothing,
    /// An assignment, by its indexes, its value, its place in flat order and its offset.
    Assign {
        left: Seq<FlatExpr>,
        value: FlatExpr,
        place: u32,
        at: u32,
    },
    If {
        cond: FlatExpr,
        yes: Boxed<DefBody>,
        no: Boxed<DefBody>,
    },
    /// The first result of its parts.
    First {
        parts: Seq<DefBody>,
    },
    Forall {
        var: u16,
        over: Simple,
        body: Boxed<DefBody>,
    },
}

/// Written out, so that what lets one go calls this in place of an arm for each variant.
impl Drop for DefBody {
    fn drop(self) {
        match self {
            DefBody::Nothing => (),
            DefBody::Assign {
                left: _,
                value: _,
                place: _,
                at: _,
            } => (),
            DefBody::If {
                cond: _,
                yes: _,
                no: _,
            } => (),
            DefBody::First { parts: _ } => (),
            DefBody::Forall {
                var: _,
                over: _,
                body: _,
            } => (),
        }
    }
}

/// The definition of a family outside layers, or in a layer. Its place and offset are those of its first assignment.
#[derive(Drop)]
pub struct Def {
    pub family: u16,
    pub layer: Option<u16>,
    pub init: DefBody,
    pub next: DefBody,
    pub comb: DefBody,
    pub place: u32,
    pub at: u32,
}

/// A parameter: the variable's number, its type and its name.
#[derive(Drop)]
pub struct Param {
    pub var: u16,
    pub over: Simple,
    pub name: Name,
}

/// A claim: its dotted name, the names in its brackets, the variables of the `forall`s around it from the outside in, and its place in flat order.
#[derive(Drop)]
pub struct Claim {
    pub name: Name,
    pub vars: Seq<Word>,
    pub params: Seq<Param>,
    pub body: FlatExpr,
    pub place: u32,
    pub at: u32,
}

/// A split into cases: its dotted name, the names in its brackets, what it splits, the variables that are bound around it, and its equations.
#[derive(Drop)]
pub struct FlatSplit {
    pub name: Name,
    pub vars: Seq<Word>,
    pub of: Ref,
    pub bound: Seq<Param>,
    pub pairs: Seq<FlatPair>,
    pub at: u32,
}

/// An equation of a split: an expression, and the new parameter to which it is equal.
#[derive(Drop)]
pub struct FlatPair {
    pub left: FlatExpr,
    pub right: Word,
    pub at: u32,
}

/// A `using`: the dotted name of the instance where it stands, the variables that are bound around it, what is used and what is proved by it.
#[derive(Drop)]
pub struct FlatUsing {
    pub prefix: Name,
    pub bound: Seq<Param>,
    pub uses: Seq<Use>,
    pub proves: Seq<Ref>,
    pub at: u32,
}

/// A design: a flattened text whose assignments are gathered into one definition for each family and definition set.
#[derive(Drop)]
pub struct Design {
    pub sets: Seq<SetInfo>,
    pub enums: Seq<Seq<Name>>,
    pub layers: Seq<Name>,
    pub families: Seq<Family>,
    pub defs: Seq<Def>,
    pub claims: Seq<Claim>,
    pub splits: Seq<FlatSplit>,
    pub uses: Seq<FlatUsing>,
}

/// A family where indexes over ranges have values and indexes over set types have none, for the order without zero-delay loops.
#[derive(Drop)]
pub struct Cell {
    pub family: u16,
    pub indexes: Seq<Option<u8>>,
}

/// What is to be proved: a refinement map, by the place of its definition in the design, or a claim by its place.
#[derive(Clone, Copy)]
pub enum Unit {
    Map { def: u16 },
    Claim { claim: u16 },
}

/// A guard of a split: it holds where the expression is equal to the parameter of this number, or is no value of the parameter's type.
#[derive(Drop)]
pub struct Guard {
    pub expr: FlatExpr,
    pub var: u16,
    pub over: Simple,
    pub at: u32,
}

/// What is proved of a unit: its last split, or the unit itself where it has none. The unit's place, the name, the parameters of the unit and of its splits, and the guards.
#[derive(Drop)]
pub struct Leaf {
    pub unit: u16,
    pub name: Name,
    pub params: Seq<Param>,
    pub guards: Seq<Guard>,
}

/// What the proof of a leaf uses: the chosen definitions and claims, whether it uses its own map, and which parameters of each set type stay.
#[derive(Drop)]
pub struct Choice {
    pub picks: Seq<Pick>,
    pub claims: Seq<Assumed>,
    pub itself: bool,
    pub keeps: Seq<Keep>,
}

/// The definition that is chosen for a family: that of a layer, or none, so that the family is free. An early use says nothing of the present time.
#[derive(Clone, Copy)]
pub struct Pick {
    pub family: u16,
    pub layer: Option<u16>,
    pub early: bool,
}

/// A claim that is assumed, by its place. An early use says nothing of the present time.
#[derive(Clone, Copy)]
pub struct Assumed {
    pub claim: u16,
    pub early: bool,
}

/// The parameters of a set type that stay apart in the cases, by their numbers.
#[derive(Drop)]
pub struct Keep {
    pub set: u16,
    pub params: Seq<u16>,
}

/// Whether a use holds up to the present time, or up to the time before.
#[derive(Clone, Copy)]
pub enum Timing {
    Now,
    Before,
}

/// The timing of each use of a choice, in its order.
#[derive(Drop)]
pub struct Timed {
    pub picks: Seq<Timing>,
    pub claims: Seq<Timing>,
}

/// What stands for a value in a case: a number, a named value of a set type, or the rest of a set type, which in an ordset is one of the gaps.
#[derive(Clone, Copy, PartialEq, Eq)]
pub enum Class {
    Number { value: u8 },
    Named { class: u8 },
    Rest { gap: u8 },
}

/// A class for each parameter of a leaf.
#[derive(Drop)]
pub struct Case {
    pub classes: Seq<Class>,
}

/// A family with a class for each index.
#[derive(Drop)]
pub struct Element {
    pub family: u16,
    pub indexes: Seq<Class>,
}
