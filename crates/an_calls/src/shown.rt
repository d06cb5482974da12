//! How answers are shown.
use std::alloc::{AllocError, Global};
use std::fmt::Debug;

/// A text is shown between marks.
pub fn quoted(alloc: Global, text: &str) -> Result<String, AllocError> {
    format!(in alloc; "\"{text}\"")
}

/// A value, as a refusal, is shown as it is written in code.
pub fn written<T: Debug>(alloc: Global, value: &T) -> Result<String, AllocError> {
    format!(in alloc; "{value:?}")
}

/// How a list is shown, where it may be empty.
pub fn or_none(alloc: Global, text: String) -> Result<String, AllocError> {
    if text.as_str().is_empty() {
        String::from_str(alloc, "none")
    } else {
        Ok(text)
    }
}
