//! Worked problems at given sizes, each a theorem by computation, whose answers were found by hand from the definitions of `law_concrete`.
//! Beside them, for whoever changes these. A reader begins with `specs/WorkedSizes`.
#![tactic(auto)]

pub mod sizes;
