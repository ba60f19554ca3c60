//! Small functions, and how a test fails.

ghost use Rattle.std.specs.Prelude.{◌<◌, ◌≤◌, IfOk};
ghost use Rattle.bdd_store.specs.Diagram.{IsLive, Keeps, first_var};

use bdd_store::{Ref, Store};
use std::alloc::AllocError;
use std::test::Fail;

// A variable.
pub fn literal(store: &mut Store, var: u32) -> Result<Ref, AllocError>
    requires within { var < store.old.vars }
    ensures live { IfOk result (λ r. IsLive store.new r) }
    ensures first { IfOk result (λ r. var ≤ first_var store.new r) }
    ensures keeps { Keeps store.old store.new }
{
    let never = store.constant(false);
    let always = store.constant(true);
    store.node(var, never, always)
}

// The opposite of a variable.
pub fn opposite(store: &mut Store, var: u32) -> Result<Ref, AllocError>
    requires within { var < store.old.vars }
    ensures live { IfOk result (λ r. IsLive store.new r) }
    ensures first { IfOk result (λ r. var ≤ first_var store.new r) }
    ensures keeps { Keeps store.old store.new }
{
    let never = store.constant(false);
    let always = store.constant(true);
    store.node(var, always, never)
}

// Fails where it is not so. The test's name says what.
pub fn is_so(it: Result<bool, AllocError>) -> Result<(), Fail> {
    if it? {
        Ok(())
    } else {
        Err(Fail::new("it is not so"))
    }
}
