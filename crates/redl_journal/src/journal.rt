//! A journal as a value.

use crate::entry::Entry;

/// The decisions on one package, in the order in which the text lists them. They may repeat.
#[derive(Drop)]
pub struct Journal {
    /// The SHA-256 of the package's bytes.
    pub digest: [u8; 32],
    /// How many revisions the package has.
    pub count: u32,
    /// The decisions.
    pub entries: Vec<Entry>,
}
