//! The units that comments are on.

ghost use Rattle.std.specs.Prelude.{◌≡◌, IfOk};
ghost use Rattle.std.specs.Option.{option_map};
ghost use Rattle.redl_commented.specs.Ranges.{between, point, range_found};

use crate::found::Found;
use redl_spans::Position;
use std::alloc::AllocError;

/// Units of a package: there is at least one.
#[derive(Clone, Copy, Debug)]
pub(crate) struct Range {
    /// How many units come before them.
    pub(crate) from: usize,
    /// How many units come before the first one after them.
    pub(crate) to: usize,
}

/// A comment, and the units that it is on.
#[derive(Clone, Copy, Debug)]
pub(crate) struct Ranged {
    /// The place of the comment in its part, from 0.
    pub(crate) comment: usize,
    /// The units.
    pub(crate) range: Range,
}

/// The range of a comment with these places, if there are any. `Err` means that the units are more than memory can hold, here and below.
pub(crate) fn range_found(found: &Found) -> Result<Option<Range>, AllocError>
    ensures { IfOk result (λ range. range ≡ range_found found.now) }
{
    match (found.start, found.end) {
        (Some(start), Some(end)) => {
            let range = between(start, end)?;
            Ok(Some(range))
        }
        (None, Some(end)) => point_at(Some(end)),
        (start, None) => point_at(found.reference.or(start)),
    }
}

fn point_at(at: Option<Position>) -> Result<Option<Range>, AllocError>
    ensures { IfOk result (λ range. range ≡ option_map point at) }
{
    match at {
        Some(at) => {
            let range = point(at)?;
            Ok(Some(range))
        }
        None => Ok(None),
    }
}

fn between(start: Position, end: Position) -> Result<Range, AllocError>
    ensures { IfOk result (λ range. range ≡ between start end) }
{
    if start.count < end.count {
        return Ok(Range {
            from: start.count,
            to: end.count,
        });
    }
    point(end)
}

fn point(at: Position) -> Result<Range, AllocError>
    ensures { IfOk result (λ range. range ≡ point at) }
{
    if at.near {
        return Ok(Range {
            from: at.count.saturating_sub(1),
            to: at.count,
        });
    }
    match at.count.checked_add(1) {
        Some(to) => Ok(Range { from: at.count, to }),
        None => Err(AllocError),
    }
}
