// Worked texts, each group a clause of a function that does nothing.
ghost use Rattle.worked_texts.specs.KindsWorked.{AreFound};
ghost use Rattle.worked_texts.specs.WorkedKinds as kinds;
ghost use Rattle.worked_texts.specs.WorkedPlaces as places;
ghost use Rattle.worked_texts.specs.KindsTomasulo as machine;

/// The first fault of kinds, ranges and sets of each worked text: its number and its place, or none.
pub fn worked_kinds()
    ensures rows { AreFound kinds.rows }
    ensures other_passes { AreFound kinds.other_passes }
    ensures logic { AreFound kinds.logic }
    ensures conditions { AreFound kinds.conditions }
    ensures sides { AreFound kinds.sides }
    ensures first_tokens { AreFound kinds.first_tokens }
    ensures orders { AreFound kinds.orders }
    ensures members { AreFound kinds.members }
    ensures listed_sets { AreFound kinds.listed_sets }
    ensures branches { AreFound kinds.branches }
    ensures mixes { AreFound kinds.mixes }
    ensures targets { AreFound kinds.targets }
    ensures left_to_set_types { AreFound kinds.left_to_set_types }
    ensures for_variables { AreFound kinds.for_variables }
    ensures parts_of_expressions { AreFound kinds.parts_of_expressions }
    ensures designs { AreFound kinds.designs }
    ensures earlier_passes { AreFound kinds.earlier_passes }
    ensures indexes { AreFound places.indexes }
    ensures whole_references { AreFound places.whole_references }
    ensures no_signals { AreFound places.no_signals }
    ensures own_faults { AreFound places.own_faults }
    ensures sets { AreFound places.sets }
    ensures comprehensions { AreFound places.comprehensions }
    ensures ranges { AreFound places.ranges }
    ensures ranges_in_expressions { AreFound places.ranges_in_expressions }
    ensures index_types { AreFound places.index_types }
    ensures formals { AreFound places.formals }
    ensures inputs { AreFound places.inputs }
    ensures outputs { AreFound places.outputs }
    ensures switches { AreFound places.switches }
    ensures statements { AreFound places.statements }
    ensures splits { AreFound places.splits }
    ensures whole_text { AreFound places.whole_text }
    ensures parts_of_statements { AreFound places.parts_of_statements }
    ensures instances { AreFound places.instances }
    ensures tomasulo { AreFound machine.rows }
{}
