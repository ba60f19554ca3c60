// Kinds: what sort of value an operand has, and which fit together.
ghost use Rattle.std.specs.Prelude.{◌≡◌, ◌++◌, IfOk, OnOk};
ghost use Rattle.smv_core.specs.Types.{names_of};
ghost use Rattle.smv_mentions.specs.NameFaults.{place_if};
ghost use Rattle.smv_mentions.specs.FirstFault.{faults_at};
ghost use Rattle.law_designs.specs.Kinds as spec;
ghost use Rattle.law_designs.specs.Types as types;
ghost use Rattle.smv_scope.specs.Compared.{listed};
ghost use Rattle.smv_scope.specs.declared.tables.Tables.{Tables as ScopeTables};
ghost use Rattle.smv_expression_kinds.specs.Forms.{kind_of, misfit};

use crate::lists::{list_of, same_lists, same_names};
use smv_core::fault::Fault;
use smv_core::name::Name;
use smv_core::tree::Word;
use smv_scope::tables::Tables as ScopeTables;
use std::alloc::AllocError;

/// What sort of value an operand has.
#[derive(Clone, Copy)]
pub enum ValueKind<'a> {
    /// A number.
    Number,
    /// A constant of the enumeration that lists these.
    Enumeration { names: &'a [Word] },
    /// A constant of the list of this number in the tables of the text.
    Listed { list: usize },
    /// A value of the set type of this name.
    SetType { name: &'a Name },
    /// None, where an operand is itself at fault.
    Unknown,
}

/// An expression, by its kind and the place of its first token other than `(`.
#[derive(Clone, Copy)]
pub struct Operand<'a> {
    pub kind: ValueKind<'a>,
    pub at: u32,
}

// A number and a kind may stand side by side.
#[tactic(auto, unfolding(law_designs::specs::Kinds::joins))]
fn joins_number(other: ValueKind) -> bool
    ensures { (names : ScopeTables) → result ≡ spec.joins spec.number (kind_of names other.entry) }
{
    match other {
        ValueKind::Number => true,
        ValueKind::Enumeration { .. } => false,
        ValueKind::Listed { .. } => false,
        ValueKind::SetType { .. } => true,
        ValueKind::Unknown => true,
    }
}

// A constant of an enumeration and a kind may stand side by side.
#[tactic(auto, unfolding(law_designs::specs::Kinds::joins))]
fn joins_enumeration(names: &ScopeTables, words: &[Word], other: ValueKind) -> bool
    ensures { result ≡ spec.joins (spec.enumeration (names_of words.now)) (kind_of names.now other.entry) }
{
    match other {
        ValueKind::Number => false,
        ValueKind::Enumeration { names: others } => same_names(words, others),
        ValueKind::Listed { list } => same_names(words, list_of(names, list)),
        ValueKind::SetType { .. } => false,
        ValueKind::Unknown => true,
    }
}

// A constant of the list of a number and a kind may stand side by side.
#[tactic(auto, unfolding(law_designs::specs::Kinds::joins))]
fn joins_listed(names: &ScopeTables, list: usize, other: ValueKind) -> bool
    ensures { result ≡ spec.joins (spec.enumeration (listed names.now.lists.items list)) (kind_of names.now other.entry) }
{
    match other {
        ValueKind::Number => false,
        ValueKind::Enumeration { names: others } => same_names(list_of(names, list), others),
        ValueKind::Listed { list: other } => same_lists(names, list, other),
        ValueKind::SetType { .. } => false,
        ValueKind::Unknown => true,
    }
}

// A value of a set type and a kind may stand side by side.
#[tactic(auto, unfolding(law_designs::specs::Kinds::joins))]
fn joins_set_type(name: &Name, other: ValueKind) -> bool
    ensures { (names : ScopeTables) → result ≡ spec.joins (spec.set_type name.now) (kind_of names other.entry) }
{
    match other {
        ValueKind::Number => true,
        ValueKind::Enumeration { .. } => false,
        ValueKind::Listed { .. } => false,
        ValueKind::SetType { name: other } => *name == *other,
        ValueKind::Unknown => true,
    }
}

/// Two kinds may stand side by side.
#[tactic(auto, unfolding(law_designs::specs::Kinds::joins))]
pub fn joins(names: &ScopeTables, kind: ValueKind, other: ValueKind) -> bool
    ensures { result ≡ spec.joins (kind_of names.now kind.entry) (kind_of names.now other.entry) }
{
    match kind {
        ValueKind::Number => joins_number(other),
        ValueKind::Enumeration { names: words } => joins_enumeration(names, words, other),
        ValueKind::Listed { list } => joins_listed(names, list, other),
        ValueKind::SetType { name } => joins_set_type(name, other),
        ValueKind::Unknown => true,
    }
}

/// The kind of two together.
#[tactic(auto, unfolding(law_designs::specs::Kinds::joined))]
pub fn joined<'a>(kind: ValueKind<'a>, other: ValueKind<'a>) -> ValueKind<'a>
    ensures { (names : ScopeTables) → kind_of names result ≡ spec.joined (kind_of names kind.entry) (kind_of names other.entry) }
{
    match kind {
        ValueKind::Number => match other {
            ValueKind::SetType { name } => ValueKind::SetType { name },
            ValueKind::Number => kind,
            ValueKind::Enumeration { .. } => kind,
            ValueKind::Listed { .. } => kind,
            ValueKind::Unknown => kind,
        },
        ValueKind::Enumeration { .. } => kind,
        ValueKind::Listed { .. } => kind,
        ValueKind::SetType { .. } => kind,
        ValueKind::Unknown => other,
    }
}

/// It may stand where a number is wanted.
#[tactic(auto, unfolding(law_designs::specs::Kinds::is_number, law_designs::specs::Kinds::accepts, law_designs::specs::Kinds::joins))]
pub fn is_number(kind: ValueKind) -> bool
    ensures { (names : ScopeTables) → result ≡ spec.is_number (kind_of names kind.entry) }
{
    match kind {
        ValueKind::Number => true,
        ValueKind::Enumeration { .. } => false,
        ValueKind::Listed { .. } => false,
        ValueKind::SetType { .. } => false,
        ValueKind::Unknown => true,
    }
}

/// What is of the first kind takes a value of the second.
#[tactic(auto, unfolding(law_designs::specs::Kinds::accepts, law_designs::specs::Kinds::joins, law_designs::specs::Kinds::is_number))]
pub fn accepts(names: &ScopeTables, target: ValueKind, kind: ValueKind) -> bool
    ensures { result ≡ spec.accepts (kind_of names.now target.entry) (kind_of names.now kind.entry) }
{
    match target {
        ValueKind::Number => is_number(kind),
        ValueKind::Enumeration { names: words } => joins_enumeration(names, words, kind),
        ValueKind::Listed { list } => joins_listed(names, list, kind),
        ValueKind::SetType { name } => joins_set_type(name, kind),
        ValueKind::Unknown => true,
    }
}

/// It may stand beside an order.
#[tactic(auto, unfolding(law_designs::specs::Kinds::has_order))]
fn has_order(kind: ValueKind) -> bool
    ensures { (names : ScopeTables) → result ≡ spec.has_order (kind_of names kind.entry) }
{
    match kind {
        ValueKind::Number => true,
        ValueKind::Enumeration { .. } => false,
        ValueKind::Listed { .. } => false,
        ValueKind::SetType { .. } => true,
        ValueKind::Unknown => true,
    }
}

/// It is the kind of an index type.
pub fn is_index(kind: ValueKind) -> bool
    ensures { (names : ScopeTables) → result ≡ types.is_index (kind_of names kind.entry) }
{
    match kind {
        ValueKind::Number => true,
        ValueKind::Enumeration { .. } => false,
        ValueKind::Listed { .. } => false,
        ValueKind::SetType { .. } => true,
        ValueKind::Unknown => false,
    }
}

/// A fault of this number at a place, where its rule is broken there.
pub fn fault_if(out: &mut Vec<Fault>, broken: bool, number: u8, at: u32) -> Result<(), AllocError>
    ensures { OnOk result (out.new.items ≡ out.old.items ++ faults_at (number, place_if broken at)) }
{
    if broken {
        out.push(Fault { number, at })?;
    }
    Ok(())
}

// Fault 12 at a place, unless what stands there fits.
#[tactic(auto, unfolding(crate::specs::Forms::misfit))]
fn misfit_unless(out: &mut Vec<Fault>, fits: bool, at: u32) -> Result<(), AllocError>
    ensures { OnOk result (out.new.items ≡ out.old.items ++ misfit fits at) }
{
    fault_if(out, !fits, 12, at)
}

/// Fault 12 at an operand that is no number.
pub fn takes_number(out: &mut Vec<Fault>, e: Operand) -> Result<(), AllocError>
    ensures { (names : ScopeTables) → OnOk result (out.new.items ≡ out.old.items ++ misfit (spec.is_number (kind_of names e.entry.kind)) e.entry.at) }
{
    misfit_unless(out, is_number(e.kind), e.at)
}

/// Fault 12 at an operand that this kind does not take.
pub fn takes(
    names: &ScopeTables,
    out: &mut Vec<Fault>,
    kind: ValueKind,
    e: Operand,
) -> Result<(), AllocError>
    ensures { OnOk result (out.new.items ≡ out.old.items ++ misfit (spec.accepts (kind_of names.now kind.entry) (kind_of names.now e.entry.kind)) e.entry.at) }
{
    misfit_unless(out, accepts(names, kind, e.kind), e.at)
}

/// Fault 12 at an operand that does not fit those before it, and the kind of all together.
pub fn fits<'a>(
    names: &ScopeTables<'a, '_>,
    out: &mut Vec<Fault>,
    kind: ValueKind<'a>,
    e: Operand<'a>,
) -> Result<ValueKind<'a>, AllocError>
    ensures kind { IfOk result (λ all. kind_of names.now all ≡ spec.joined (kind_of names.now kind.entry) (kind_of names.now e.entry.kind)) }
    ensures faults { OnOk result (out.new.items ≡ out.old.items ++ misfit (spec.joins (kind_of names.now kind.entry) (kind_of names.now e.entry.kind)) e.entry.at) }
{
    misfit_unless(out, joins(names, kind, e.kind), e.at)?;
    Ok(joined(kind, e.kind))
}

/// Fault 12 at an operand that may not stand beside an order.
pub fn takes_order(out: &mut Vec<Fault>, e: Operand) -> Result<(), AllocError>
    ensures { (names : ScopeTables) → OnOk result (out.new.items ≡ out.old.items ++ misfit (spec.has_order (kind_of names e.entry.kind)) e.entry.at) }
{
    misfit_unless(out, has_order(e.kind), e.at)
}

/// A number that begins at this place.
pub fn number_at(at: u32) -> Operand<'static>
    ensures kind { (names : ScopeTables) → kind_of names result.kind ≡ spec.number }
    ensures at { result.at ≡ at }
{
    Operand {
        kind: ValueKind::Number,
        at,
    }
}
