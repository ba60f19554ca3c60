//! References of splits and of `using`, as the passes over the rules of proof read them: `names` has the name that a reference writes, `brackets` the faults of
//! the names in its brackets, `again` what stands twice in a list. Definitions are those of `law_splits` and `law_uses`; `specs/Again` has that of a key that
//! stood before, found by its hash.
#![tactic(auto)]

pub mod again;
pub mod brackets;
pub mod names;
