// Numbers in fields of fewer bits.
ghost use Rattle.std.specs.Prelude.{◌≡◌, IfOk};

use std::alloc::AllocError;

/// A number in 16 bits. Where it does not fit, no memory is said to be left.
pub fn short(number: usize) -> Result<u16, AllocError>
    ensures { IfOk result (λ short. short ≡ number) }
{
    match u16::try_from(number) {
        Ok(short) => Ok(short),
        Err(_) => Err(AllocError),
    }
}

/// A number in 8 bits. Where it does not fit, no memory is said to be left.
pub fn byte(number: u16) -> Result<u8, AllocError>
    ensures { IfOk result (λ byte. byte ≡ number) }
{
    match u8::try_from(number) {
        Ok(byte) => Ok(byte),
        Err(_) => Err(AllocError),
    }
}
