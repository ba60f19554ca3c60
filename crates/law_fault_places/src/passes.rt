// The law of the places of the faults of all passes, the contract of a function that does nothing.
ghost use Rattle.law_fault_places.specs.PassFaults.{PassFaultsAreWithin};

use crate::designs::{design_faults_are_within, set_faults_are_within, single_faults_are_within};
use crate::flat::{designs_are_within, flattened_texts_are_within};
use crate::kinds::kind_faults_are_within;
use crate::names::name_faults_are_within;
use crate::splits::{split_faults_are_within, use_faults_are_within};

/// The first fault of all passes has a number of 1 to 31, and stands among the places of the tree.
pub fn pass_faults_are_within()
    ensures { PassFaultsAreWithin }
{
    name_faults_are_within();
    kind_faults_are_within();
    flattened_texts_are_within();
    designs_are_within();
    single_faults_are_within();
    design_faults_are_within();
    set_faults_are_within();
    split_faults_are_within();
    use_faults_are_within();
}
