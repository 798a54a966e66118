//! Names that differ only by case, spaces or Unicode form.

use caseless::compatibility_caseless_match_str;
use redl_io::Text;
use std::alloc::{AllocError, Global};

/// A name as a text, which is empty where it is none.
pub(crate) fn text_of(name: &Text) -> &str {
    std::str::from_utf8(name.as_bytes()).unwrap_or("")
}

/// A name without its spaces. `Err` means out of memory.
pub(crate) fn key_of(alloc: Global, name: &str) -> Result<String, AllocError> {
    let mut key = String::new(alloc);
    for letter in name.chars() {
        if !letter.is_whitespace() {
            key.push(letter)?;
        }
    }
    Ok(key)
}

/// Whether one of these keys differs from this one only by case or Unicode form. `Err` means out of memory.
pub(crate) fn is_among(alloc: Global, keys: &[String], key: &str) -> Result<bool, AllocError> {
    for other in keys {
        if compatibility_caseless_match_str(alloc, other.as_str(), key)? {
            return Ok(true);
        }
    }
    Ok(false)
}
