//! The values of a list after a paragraph.

ghost use Rattle.std.specs.Prelude.{◌≡◌, ◌<◌, ◌||◌, nat_le, IfOk};
ghost use Rattle.redl_numbering.specs.Counts.{begins_again, begins_at, left, met_after, one_more, stays, value_after, values_after, was_met};

use crate::used::Used;
use redl_numerals::Number;
use std::alloc::AllocError;

/// How many levels a list has.
pub(crate) const LEVELS: usize = 9;

/// The values of the levels of a list.
pub(crate) type Values = [Option<Number>; LEVELS];

/// Which levels of a num were met.
pub(crate) type Met = [bool; LEVELS];

/// A paragraph at a level of a num, with what was counted of its list and of the num before it.
#[derive(Clone, Copy)]
pub(crate) struct Paragraph<'t> {
    pub(crate) used: Used<'t>,
    pub(crate) level: usize,
    pub(crate) values: Values,
    pub(crate) met: Met,
}

impl Paragraph<'_> {
    /// The values of the list after it. `Err` means out of memory.
    pub(crate) fn values_after(&self) -> Result<Values, AllocError>
        ensures { IfOk result (λ values. values ≡ values_after self.now.used.overrides.now self.now.used.levels.now self.now.met self.now.level self.now.values) }
    {
        Ok([
            self.value_after(0)?,
            self.value_after(1)?,
            self.value_after(2)?,
            self.value_after(3)?,
            self.value_after(4)?,
            self.value_after(5)?,
            self.value_after(6)?,
            self.value_after(7)?,
            self.value_after(8)?,
        ])
    }

    /// The levels of the num that were met after it.
    pub(crate) fn met_after(&self) -> Met
        ensures { result ≡ met_after self.now.met self.now.level }
    {
        [
            self.is_met(0),
            self.is_met(1),
            self.is_met(2),
            self.is_met(3),
            self.is_met(4),
            self.is_met(5),
            self.is_met(6),
            self.is_met(7),
            self.is_met(8),
        ]
    }

    fn is_met(&self, level: usize) -> bool
        requires { level < 9 }
        ensures { result ≡ (nat_le level self.now.level || was_met self.now.met level) }
    {
        level <= self.level || self.met[level]
    }

    // Whether this level is met for the first time, and the num begins it again.
    fn begins_at(&self, level: usize) -> bool
        requires { level < 9 }
        ensures { result ≡ begins_at self.now.used.overrides.now self.now.met self.now.level level }
    {
        level <= self.level && !self.met[level] && self.used.start_override(level).is_some()
    }

    // Whether this level or one above it begins again.
    fn begins_again(&self, level: usize) -> bool
        requires { level < 9 }
        ensures { result ≡ begins_again self.now.used.overrides.now self.now.met self.now.level level }
    {
        if level > 0 && self.begins_again(level - 1) {
            return true;
        }
        self.begins_at(level)
    }

    // What a level has before the paragraph is counted.
    fn left(&self, level: usize) -> Option<Number>
        requires { level < 9 }
        ensures { result ≡ left self.now.used.overrides.now self.now.met self.now.level self.now.values level }
    {
        if self.begins_again(level) {
            return None;
        }
        self.values[level]
    }

    // The value of a level after the paragraph. `Err` means out of memory.
    fn value_after(&self, level: usize) -> Result<Option<Number>, AllocError>
        requires { level < 9 }
        ensures { IfOk result (λ value. value ≡ value_after self.now.used.overrides.now self.now.used.levels.now self.now.level level
            (left self.now.used.overrides.now self.now.met self.now.level self.now.values level)) }
    {
        let old = self.left(level);
        if level < self.level {
            return Ok(Some(old.unwrap_or(self.used.start(level))));
        }
        if level == self.level {
            return one_more(self.used.start(level), old);
        }
        if stays(self.used.restart(level), self.level, level) {
            return Ok(old);
        }
        Ok(None)
    }
}

fn one_more(start: Number, old: Option<Number>) -> Result<Option<Number>, AllocError>
    ensures { IfOk result (λ value. value ≡ one_more start old) }
{
    match old {
        Some(number) => Ok(Some(number.next()?)),
        None => Ok(Some(start)),
    }
}

// Whether a deeper level keeps its value, by where it begins again.
fn stays(restart: Option<Number>, level: usize, deeper: usize) -> bool
    ensures { result ≡ stays restart level deeper }
{
    match restart {
        Some(Number::Plus(after)) => {
            after == 0 || (after <= deeper as u64 && after <= level as u64)
        }
        Some(Number::Minus(_)) | None => false,
    }
}
