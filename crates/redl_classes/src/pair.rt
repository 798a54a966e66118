//! Pairs of numbers.

/// Two numbers that belong together.
#[derive(Clone, Copy, Debug)]
pub struct Pair {
    /// A number.
    pub one: u32,
    /// Another, or the same.
    pub two: u32,
}
