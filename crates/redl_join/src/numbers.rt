//! A number for each name of a reviewer, so that words hold no copy of the name.
ghost use Rattle.std.specs.Prelude.{◌≡◌, ◌&&◌, ◌||◌, ◌==◌, ℕ, List, IfOk, IfSome, IfNone, OnErr, false, true};
ghost use Rattle.std.specs.Str.{bytes_eq};
ghost use Rattle.redl_join.specs.Inside.Numbers.{AreNumbers, has_number, is_numbered};

use std::alloc::{AllocError, Global};
use std::collections::BTreeMap;

/// A number for each reviewer's name, so that words take no copy of it.
pub(crate) type Numbers = BTreeMap<Vec<u8>, u32>;

/// The number of the reviewer, which gets a new one at first sight. `Err` means out of memory, and no number is new.
pub(crate) fn give_number(
    alloc: Global,
    numbers: &mut Numbers,
    reviewer: &[u8],
) -> Result<u32, AllocError>
    requires { AreNumbers numbers.old.entries }
    ensures numbers { AreNumbers numbers.new.entries }
    ensures given { IfOk result (λ number. (name : List ℕ) (n : ℕ) → has_number numbers.new.entries name n
        ≡ ((bytes_eq reviewer.now name && number == n) || has_number numbers.old.entries name n)) }
    ensures err { OnErr result (numbers.new.entries ≡ numbers.old.entries) }
{
    if let Some(number) = find_number(numbers, reviewer) {
        return Ok(number);
    }
    // No memory holds more names than there are numbers.
    let Ok(number) = u32::try_from(numbers.len()) else {
        return Err(AllocError);
    };
    let name = Vec::from_slice(alloc, reviewer)?;
    numbers.insert(name, number)?;
    Ok(number)
}

/// The number of the reviewer, if they have one.
pub(crate) fn find_number(numbers: &Numbers, reviewer: &[u8]) -> Option<u32>
    ensures found { IfSome result (λ number. has_number numbers.now.entries reviewer.now number ≡ true) }
    ensures none { IfNone result (is_numbered numbers.now.entries reviewer.now ≡ false) }
{
    numbers.get(reviewer).copied()
}
