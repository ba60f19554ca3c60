// What is found, as data.
use smv_core::Seq;
use smv_problem::Verdict;
use smv_proof::KeptSet;

/// What is found of the cases that are asked for.
#[derive(Drop)]
pub enum Sought {
    /// They are all true, and each has its set, in order.
    Sets { sets: Seq<KeptSet> },
    /// Not all of them are, and this is told of them.
    Open { verdict: Verdict },
    /// There is no case of the number that is asked for, but so many.
    NoCase { count: usize },
}
