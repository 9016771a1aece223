//! The verifier accepts the code.

use crate::compiled::Compiled;
use std::alloc::Global;
use std::test::Fail;

/// The line that is rejected, where there is one.
pub fn broken(alloc: Global, compiled: &Compiled) -> Result<Option<String>, Fail> {
    match &compiled.rejected {
        Some(place) => Ok(Some(format!(in alloc; "rejected: {place}")?)),
        None => Ok(None),
    }
}
