// A session with a plan.

use std::alloc::{AllocError, Global};

/// The session's text, and after it this plan.
pub fn with_plan(alloc: Global, session: &[u8], plan: &str) -> Result<Vec<u8>, AllocError> {
    let mut text = Vec::from_slice(alloc, session)?;
    text.extend_from_slice(b"%% plan\n")?;
    text.extend_from_slice(plan.as_bytes())?;
    Ok(text)
}
