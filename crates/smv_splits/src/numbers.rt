// Numbers for variables.
ghost use Rattle.std.specs.Prelude.{◌≡◌, IfOk};
ghost use Rattle.smv_splits.specs.Renaming.{number_by};

use std::alloc::AllocError;

/// The numbers of the first variables, and the number from which on those of all others count.
#[derive(Clone, Copy)]
pub struct Numbers<'a> {
    pub given: &'a [u16],
    pub count: u16,
}

/// The number of a variable. Where it does not fit, which no text within the limits has, no memory is said to be left.
pub fn number(numbers: Numbers, var: u16) -> Result<u16, AllocError>
    ensures { IfOk result (λ number. number ≡ number_by numbers.entry var) }
{
    match numbers.given.get(usize::from(var)) {
        Some(number) => Ok(*number),
        None => {
            let behind = usize::from(var).saturating_sub(numbers.given.len());
            match u16::try_from(usize::from(numbers.count) + behind) {
                Ok(number) => Ok(number),
                Err(_) => Err(AllocError),
            }
        }
    }
}
