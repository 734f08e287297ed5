//! The files of a command.

use crate::members::Members;
use serde_json::Value;
use std::alloc::{AllocError, Global};

/// Returns the names of a command's files by their roles. Those with an empty name are left out.
pub(crate) fn files_value(
    alloc: Global,
    files: &[(&'static str, &str)],
) -> Result<Value, AllocError> {
    let mut members = Members::new(alloc);
    for (role, name) in files {
        if !name.is_empty() {
            members.text(role, name);
        }
    }
    members.into_value()
}
