//! A line: finds of one fact that follow each other in one part and tell the same.

use crate::fact::Fact;
use redl_io::Text;

/// Finds of one fact in one part, of which the same is told.
#[derive(Drop)]
pub struct Line {
    /// What they are.
    pub fact: Fact,
    /// The name of the part.
    pub part: Text,
    /// What is told of each of them, which may be empty.
    pub value: Text,
    /// How many they are.
    pub count: u32,
}
