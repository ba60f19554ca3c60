// What the words of a command line ask for, as data.
use smv_core::Name;
use smv_problem::Budgets;

/// What the words ask for.
#[derive(Drop)]
pub enum Query {
    /// The units of a design.
    List,
    /// The cone of a case of the unit of this name; cases are numbered from 1.
    Cone {
        name: Name,
        case: usize,
    },
    /// What is warned of in a text.
    Lint,
    /// What a fault of a text is about.
    Explain,
    /// The sets of the cases of the unit of this name, or that of the case of this number, found under budgets of nodes and of images.
    Sets {
        name: Name,
        case: Option<usize>,
        budgets: Budgets,
    },
    /// The circuit of a case of the unit of this name; cases are numbered from 1.
    Aiger {
        name: Name,
        case: usize,
    },
    /// What stands before the sets in the proof document of a text.
    Front,
}
