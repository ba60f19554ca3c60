// Sets of numbers that are looked up.
ghost use Rattle.std.specs.Prelude.{◌≡◌, ◌||◌, ℕ, nat_eq, IfOk, OnOk};
ghost use Rattle.smv_look_lint.specs.Marks.{AreAlike, is_noted};
ghost use Rattle.smv_look_lint.specs.Signals.{is_among};

use std::alloc::{AllocError, Global};
use std::collections::HashSet;

// Notes a number.
fn note(set: &mut HashSet<u32>, number: u32) -> Result<(), AllocError>
    ensures { OnOk result ((k : ℕ) → is_noted set.new k ≡ (nat_eq k number || is_noted set.old k)) }
{
    set.insert(number)?;
    Ok(())
}

/// These numbers as a set.
pub(crate) fn set_of(alloc: Global, numbers: &[u32]) -> Result<HashSet<u32>, AllocError>
    ensures { IfOk result (λ set. AreAlike (is_noted set) (is_among numbers.now)) }
{
    let mut set = HashSet::new(alloc);
    for number in numbers {
        note(&mut set, *number)?;
    }
    Ok(set)
}

/// A number is in a set.
pub(crate) fn is_noted(set: &HashSet<u32>, number: u32) -> bool
    ensures { result ≡ is_noted set.now number }
{
    set.contains(&number)
}
