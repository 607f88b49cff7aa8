//! Compares the result of an example with the expected text.
use std::test::Fail;

/// Fails if the texts `found` and `wanted` differ. The error message contains the name of the example and both texts.
pub(crate) fn check_text(name: &str, found: &str, wanted: &str) -> Result<(), Fail> {
    if found == wanted {
        Ok(())
    } else {
        Err(Fail::new(format_args!("{name}: {found:?} is found, {wanted:?} is wanted")))
    }
}
