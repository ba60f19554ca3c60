// A list of operations, run line by line.
ghost use Rattle.std.specs.Prelude.{[], ◌∷◌, ◌≡◌, ◌≤◌, ◌<◌, ◌++◌, ℕ, Bool, IfOk, OnOk, OnErr, IfSome, IsErrOf, None, true, false, length};
ghost use Rattle.bdd_store.specs.Diagram.{AreLive, DependsFrom, IsLive, IsProper, Keeps, first_var, ref_at, table};
ghost use Rattle.bdd_client.specs.Lines.{Fits, nodes_line, value_of, written};
ghost use Rattle.bdd_client.specs.declared.lines.Line.TheVariants as line;
ghost use Rattle.bdd_client.specs.declared.machine.Failure.TheVariants.{NoList, OutOfMemory};

use crate::lines::{LINE, Line, NUMBER, line_of, number_at};
use bdd_ops::{and, exists, not, or, rename};
use bdd_store::{Ref, Store};
use itoa::Buffer;
use std::alloc::{AllocError, Global};

/// Why a list was not run to its end.
#[derive(Clone, Copy, Debug, PartialEq, Eq)]
pub(crate) enum Failure {
    /// The bytes are no list, or an operation names a variable or a function that is not there.
    NoList,
    /// Memory ran out.
    OutOfMemory,
}

impl From<AllocError> for Failure {
    ghost from_gives = { λ _ e. e ≡ OutOfMemory };

    fn from(_: AllocError) -> Self {
        Failure::OutOfMemory
    }
}

// The function of that number.
fn function(made: &[Ref], number: u32) -> Result<Ref, Failure>
    ensures ok { IfOk result (λ r. (number < length made.now) × (r ≡ ref_at made.now number)) }
    ensures err { OnErr result (length made.now ≤ number) }
{
    let number = number as usize;
    if number < made.len() {
        return Ok(made[number]);
    }
    Err(Failure::NoList)
}

// The function that is 1 where the variable is.
fn variable(store: &mut Store, var: u32) -> Result<Ref, Failure>
    ensures live { IfOk result (λ r. IsLive store.new r) }
    ensures table { IfOk result (λ r. (a : ℕ → Bool) → table store.new r a ≡ a var) }
    ensures keeps { Keeps store.old store.new }
    ensures refused { IsErrOf result Failure.NoList → store.old.vars ≤ var }
{
    if var >= store.vars() {
        return Err(Failure::NoList);
    }
    let low = store.constant(false);
    let high = store.constant(true);
    let r = store.node(var, low, high)?;
    Ok(r)
}

// The conjunction of two functions.
fn conjunction(
    alloc: Global,
    store: &mut Store,
    made: &[Ref],
    f: u32,
    g: u32,
) -> Result<Ref, Failure>
    requires live { AreLive store.old made.now }
    ensures live { IfOk result (λ r. IsLive store.new r) }
    ensures table { IfOk result (λ r. (a : ℕ → Bool) → table store.new r a ≡ value_of store.old made.now (line.And f g) a) }
    ensures keeps { Keeps store.old store.new }
    ensures refused { IsErrOf result Failure.NoList → Fits store.old made.now (line.And f g) → ⊥ }
{
    let f = function(made, f)?;
    let g = function(made, g)?;
    let r = and(alloc, store, f, g)?;
    Ok(r)
}

// The disjunction of two functions.
fn disjunction(
    alloc: Global,
    store: &mut Store,
    made: &[Ref],
    f: u32,
    g: u32,
) -> Result<Ref, Failure>
    requires live { AreLive store.old made.now }
    ensures live { IfOk result (λ r. IsLive store.new r) }
    ensures table { IfOk result (λ r. (a : ℕ → Bool) → table store.new r a ≡ value_of store.old made.now (line.Or f g) a) }
    ensures keeps { Keeps store.old store.new }
    ensures refused { IsErrOf result Failure.NoList → Fits store.old made.now (line.Or f g) → ⊥ }
{
    let f = function(made, f)?;
    let g = function(made, g)?;
    let r = or(alloc, store, f, g)?;
    Ok(r)
}

// The negation of a function.
fn negation(alloc: Global, store: &mut Store, made: &[Ref], f: u32) -> Result<Ref, Failure>
    requires live { AreLive store.old made.now }
    ensures live { IfOk result (λ r. IsLive store.new r) }
    ensures table { IfOk result (λ r. (a : ℕ → Bool) → table store.new r a ≡ value_of store.old made.now (line.Not f) a) }
    ensures keeps { Keeps store.old store.new }
    ensures refused { IsErrOf result Failure.NoList → Fits store.old made.now (line.Not f) → ⊥ }
{
    let f = function(made, f)?;
    let r = not(alloc, store, f)?;
    Ok(r)
}

// The disjunction of a function with the variable at 0 and with it at 1.
fn quantified(
    alloc: Global,
    store: &mut Store,
    made: &[Ref],
    f: u32,
    var: u32,
) -> Result<Ref, Failure>
    requires live { AreLive store.old made.now }
    ensures live { IfOk result (λ r. IsLive store.new r) }
    ensures table { IfOk result (λ r. (a : ℕ → Bool) → table store.new r a ≡ value_of store.old made.now (line.Exists f var) a) }
    ensures keeps { Keeps store.old store.new }
    ensures refused { IsErrOf result Failure.NoList → Fits store.old made.now (line.Exists f var) → ⊥ }
{
    let f = function(made, f)?;
    if var >= store.vars() {
        return Err(Failure::NoList);
    }
    let r = exists(alloc, store, f, var)?;
    Ok(r)
}

// A function with each variable replaced by the one before it.
fn renamed(alloc: Global, store: &mut Store, made: &[Ref], f: u32) -> Result<Ref, Failure>
    requires live { AreLive store.old made.now }
    ensures live { IfOk result (λ r. IsLive store.new r) }
    ensures table { IfOk result (λ r. (a : ℕ → Bool) → table store.new r a ≡ value_of store.old made.now (line.Rename f) a) }
    ensures keeps { Keeps store.old store.new }
    ensures refused { IsErrOf result Failure.NoList → Fits store.old made.now (line.Rename f) → ⊥ }
{
    let f = function(made, f)?;
    if begins_at_once(store, f) {
        return Err(Failure::NoList);
    }
    let r = rename(alloc, store, f)?;
    Ok(r)
}

// Whether a function depends on variable 0.
fn begins_at_once(store: &Store, f: Ref) -> bool
    requires live { IsLive store.now f }
    ensures yes { result ≡ true → DependsFrom store.now f 1 → ⊥ }
    ensures no { result ≡ false → IsProper store.now f → 0 < first_var store.now f }
{
    match store.is_constant(f) {
        Some(_) => false,
        None => store.var(f) == 0,
    }
}

// The function that a line makes, if it makes one.
fn made_by(
    alloc: Global,
    store: &mut Store,
    made: &[Ref],
    line: Line,
) -> Result<Option<Ref>, Failure>
    requires live { AreLive store.old made.now }
    ensures keeps { Keeps store.old store.new }
    ensures live { IfOk result (λ o. IfSome o (λ r. IsLive store.new r)) }
    ensures table { IfOk result (λ o. IfSome o (λ r. (a : ℕ → Bool) → table store.new r a ≡ value_of store.old made.now line a)) }
    ensures refused { IsErrOf result Failure.NoList → Fits store.old made.now line → ⊥ }
{
    let r = match line {
        Line::Variable(var) => variable(store, var)?,
        Line::Constant(value) => store.constant(value),
        Line::And(f, g) => conjunction(alloc, store, made, f, g)?,
        Line::Or(f, g) => disjunction(alloc, store, made, f, g)?,
        Line::Not(f) => negation(alloc, store, made, f)?,
        Line::Exists(f, var) => quantified(alloc, store, made, f, var)?,
        Line::Rename(f) => renamed(alloc, store, made, f)?,
        Line::Drop(f) => return dropped(made, f),
        Line::Count(f) => return dropped(made, f),
    };
    Ok(Some(r))
}

// No function, where there is one of that number.
fn dropped(made: &[Ref], number: u32) -> Result<Option<Ref>, Failure>
    ensures none { IfOk result (λ o. o ≡ None) }
    ensures refused { OnErr result (length made.now ≤ number) }
{
    let _ = function(made, number)?;
    Ok(None)
}

// What a line writes: a count writes the nodes of its function, and other lines nothing.
fn write_count(store: &Store, made: &[Ref], line: Line, out: &mut Vec<u8>) -> Result<(), Failure>
    requires live { AreLive store.now made.now }
    ensures written { OnOk result (out.new.items ≡ out.old.items ++ written store.now made.now line) }
    ensures refused { IsErrOf result Failure.NoList → Fits store.now made.now line → ⊥ }
{
    if let Line::Count(f) = line {
        let f = function(made, f)?;
        write_nodes(store, f, out)?;
    }
    Ok(())
}

// Writes how many nodes a function has, and a line feed.
#[tactic(auto, using(crate::proofs::Counts::one_live))]
fn write_nodes(store: &Store, f: Ref, out: &mut Vec<u8>) -> Result<(), AllocError>
    requires live { IsLive store.now f }
    ensures written { OnOk result (out.new.items ≡ out.old.items ++ nodes_line store.now f) }
{
    let nodes = store.count(&[f])?;
    let mut buffer = Buffer::new();
    out.extend_from_slice(buffer.format(nodes).as_bytes())?;
    out.push(b'\n')?;
    Ok(())
}

// Puts a function behind those made so far.
fn keep(made: &mut Vec<Ref>, r: Ref) -> Result<(), AllocError>
    ensures kept { OnOk result (made.new.items ≡ made.old.items ++ (r ∷ [])) }
    ensures same { OnErr result (made.new.items ≡ made.old.items) }
{
    made.push(r)?;
    Ok(())
}

/// What a list writes.
pub(crate) fn counts(alloc: Global, bytes: &[u8]) -> Result<Vec<u8>, Failure> {
    if bytes.len() < NUMBER {
        return Err(Failure::NoList);
    }
    let mut store = Store::new(alloc, number_at(bytes, 0))?;
    let mut made = Vec::new(alloc);
    let mut out = Vec::new(alloc);
    let mut rest = bytes.split_at(NUMBER).1;
    while rest.len() >= LINE {
        let line = line_at(rest)?;
        run_line(alloc, &mut store, &mut made, line, &mut out)?;
        rest = rest.split_at(LINE).1;
    }
    if !rest.is_empty() {
        return Err(Failure::NoList);
    }
    Ok(out)
}

// The line with which some bytes begin.
fn line_at(bytes: &[u8]) -> Result<Line, Failure>
    requires { 12 ≤ length bytes.now }
{
    let code = number_at(bytes, 0);
    let first = number_at(bytes, NUMBER);
    let second = number_at(bytes, 2 * NUMBER);
    match line_of(code, first, second) {
        Some(line) => Ok(line),
        None => Err(Failure::NoList),
    }
}

// A line: the function that it makes is put behind those made so far, and what it writes behind what was written.
fn run_line(
    alloc: Global,
    store: &mut Store,
    made: &mut Vec<Ref>,
    line: Line,
    out: &mut Vec<u8>,
) -> Result<(), Failure>
    requires live { AreLive store.old made.old.items }
    ensures live { AreLive store.new made.new.items }
{
    let new = made_by(alloc, store, made, line)?;
    match new {
        Some(r) => keep(made, r)?,
        None => write_count(store, made, line, out)?,
    }
    Ok(())
}
