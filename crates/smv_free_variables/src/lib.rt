//! Which variables an expression reads, whether bindings agree on them, and what is known of expressions under bindings, so that nothing is worked out twice.
//!
//! What an expression may be and what it reads are the same under bindings that agree on its variables, and the same for an expression that differs from it by its places in the text alone. `all_agree` is for the evaluator, which works an expression out once for such bindings; `is_read` for the search for a cone, which walks a body once where it does not read its variable; and `Known` for both, which keeps answers and gives one only where it compares the expression and the bindings. `law_obligations` says why agreeing bindings are enough, and `proofs/PlaceLaws.antt` why places do not matter.
#![tactic(auto)]

pub mod alike;
mod digest;
mod equal;
pub mod known;
pub mod reading;

pub use alike::all_agree;
pub use known::{Known, nothing_known};
