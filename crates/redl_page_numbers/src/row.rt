//! What the lists have.

use redl_io::Text;
use redl_numerals::{Format, Number};

/// A paragraph that has a num and a level.
#[derive(Drop)]
pub struct Row {
    /// Its place among the paragraphs of its story that the page shows, from 1.
    pub paragraph: usize,
    /// The place of its num.
    pub num: usize,
    /// Its level, from 0 to 8.
    pub level: usize,
    /// Whether a section ends with it.
    pub ends_section: bool,
    /// Its number.
    pub text: Text,
}

/// Where a num and its list stand.
#[derive(Clone, Copy)]
pub struct Place {
    /// The place of the num.
    pub num: usize,
    /// The place of its list, by which nums count together.
    pub list: usize,
}

/// A level of a num.
#[derive(Drop)]
pub struct LevelRow {
    /// The place of the num.
    pub num: usize,
    /// The place of its list, by which nums count together.
    pub list: usize,
    /// The level, from 0 to 8.
    pub level: usize,
    /// Where it begins.
    pub start: Number,
    /// Where it begins anew under the num.
    pub again: Option<Number>,
    /// After which level it begins again.
    pub restart: Option<Number>,
    /// The form of its numbers.
    pub format: Format,
    /// Whether all numbers in it are decimal.
    pub is_legal: bool,
    /// Whether a picture stands in place of its text.
    pub has_picture: bool,
    /// Its text, with places for numbers.
    pub text: Text,
}
