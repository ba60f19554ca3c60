//! How a test says what is not so.

use std::test::Fail;

/// Fails unless it is so. The test's name says what.
pub fn is_so(it: bool) -> Result<(), Fail> {
    if it {
        Ok(())
    } else {
        Err(Fail::new("it is not so"))
    }
}
