// What the words of a command line ask for, as data.
use smv_bits::Bits;
use smv_core::{Name, Seq};
use smv_problem::Budgets;

/// What the words ask for.
#[derive(Drop)]
pub enum Command {
    /// Decide all units of a design.
    Prove {
        bits: Bits,
        budgets: Budgets,
    },
    /// Decide the unit of this name alone.
    Only {
        name: Name,
        bits: Bits,
        budgets: Budgets,
    },
    /// Write the canonical spelling of a text.
    Print,
    /// Decide the generated design with so many copies.
    Generated {
        copies: u16,
    },
    /// Decide all units of a design, and write its proof document where each is true.
    Proof {
        budgets: Budgets,
    },
    /// Check a proof document.
    Check,
    /// Decide all units of a design that stands behind an old proof document, whose sets are used where they serve still.
    Resume {
        budgets: Budgets,
    },
    /// Decide the unit of this name over the design itself, where the set types without a declared size have these sizes.
    Confirm {
        name: Name,
        sizes: Seq<u16>,
        bits: Bits,
        budgets: Budgets,
    },
    /// Decide all units of the design in which the claim of this name may assume itself, at the same time, for all smaller values of its parameter.
    Induct {
        name: Name,
        var: Name,
        budgets: Budgets,
    },
    /// Decide all units of the translated text, in which monitors stand for the formulas over several times.
    Ltl {
        bits: Bits,
        budgets: Budgets,
    },
}
