//! Paths of what stands in a folder.

use std::alloc::{AllocError, Global};

/// The path of a name in a folder.
///
/// # Errors
///
/// Out of memory.
pub fn path_in(alloc: Global, folder: &str, name: &str) -> Result<String, AllocError> {
    let mut path = String::from_str(alloc, folder)?;
    path.push('/')?;
    path.push_str(name)?;
    Ok(path)
}
