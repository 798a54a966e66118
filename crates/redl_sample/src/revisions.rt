//! How many revisions the sample has.

ghost use Rattle.std.specs.Prelude.{◌≡◌, ◌≤◌};
ghost use Rattle.redl_sample.specs.Packages.{begun, revisions};

use crate::make::SAMPLE_LIMIT;

/// The number of revisions of the sample with this number of blocks.
pub(crate) fn count_revisions(number: u32) -> u32
    requires { number ≤ SAMPLE_LIMIT }
    ensures { result ≡ revisions number }
{
    9 * (number / 8) + begun(number % 8)
}

// The number of revisions of the first blocks, fewer than eight, of a turn.
fn begun(blocks: u32) -> u32
    ensures value { result ≡ begun blocks }
    ensures small { result ≤ 8 }
{
    match blocks {
        0 | 1 => 0,
        2 => 1,
        3 => 2,
        4 => 3,
        5 => 5,
        6 => 6,
        _ => 8,
    }
}
