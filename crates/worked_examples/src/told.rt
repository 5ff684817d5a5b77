//! What a call returned, as text.

use std::alloc::{AllocError, Global};
use std::fmt::{Debug, Display};

/// Returns a value as text, or the name of an error.
pub fn told<T: Display + Drop, E: Debug + Drop>(
    alloc: Global,
    outcome: Result<T, E>,
) -> Result<String, AllocError> {
    match outcome {
        Ok(value) => value.to_string(alloc),
        Err(error) => format!(in alloc; "{error:?}"),
    }
}

/// Returns a value as text, or `none`.
pub fn found<T: Display + Drop>(alloc: Global, option: Option<T>) -> Result<String, AllocError> {
    match option {
        Some(value) => value.to_string(alloc),
        None => String::from_str(alloc, "none"),
    }
}

/// Returns texts in order, with spaces between them, or `none`.
pub fn in_order(alloc: Global, texts: Vec<String>) -> Result<String, AllocError> {
    let mut texts = texts;
    texts.sort()?;
    let mut all = String::new(alloc);
    for text in &texts {
        if !all.is_empty() {
            all.push(' ')?;
        }
        all.push_str(text.as_str())?;
    }
    if all.is_empty() {
        all.push_str("none")?;
    }
    Ok(all)
}
