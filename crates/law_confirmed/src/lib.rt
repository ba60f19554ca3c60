//! What is told of a unit at given sizes says of the runs of these sizes: true that no instance is ever broken, false that one is, by a run of which the path is a part. The same in terms of bytes: what a
//! confirmation is and what it is refused for. For the call that confirms a fault, and for the top call. A reader begins with `specs/Confirmed`, then `specs/Answers`.
#![tactic(auto)]

pub mod confirmations;
pub mod confirmed;
