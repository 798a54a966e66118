//! Files from the shelf.

ghost use Rattle.std.specs.Prelude.{◌≡◌, ◌<◌, ◌≤◌, ◌^◌, ◌∷◌, [], IfOk, IsUtf8, length};
ghost use Rattle.redl_inputs.specs.Asking.{file_within};
ghost use Rattle.redl_inputs.specs.Packages.{package_file};
ghost use Rattle.redl_inputs.specs.Reading.{ReadsFiles, front_of};
ghost use Rattle.redl_inputs.specs.Steps.{fetch_failure, held, file};
ghost use Rattle.redl_inputs.specs.Views.{result_view};
ghost use Rattle.redl_io.specs.Limits.{package_bytes};
ghost use Rattle.redl_io.specs.Shelf.{request_for};
ghost use Rattle.redl_lines.specs.Failures.{failure_view};

use redl_io::{Shelf, ShelfError, Text};
use redl_lines::{Cause, Failure, Limit};
use std::alloc::Global;
use std::str;

/// The most bytes that a package may have.
pub const PACKAGE_LIMIT: usize = 134_217_728;

/// The name of a file, as a shelf takes it.
pub fn name_of(name: &Text) -> &str
    requires { IsUtf8 name.now }
    ensures { result.now ≡ name.now }
{
    str::from_utf8(name.as_bytes()).unwrap()
}

/// The text of the package of this name.
pub fn fetch_package<'a, F: Shelf>(
    alloc: Global,
    name: &'a str,
    shelf: &mut F,
) -> Result<Vec<u8>, Failure<'a>>
    ensures { ReadsFiles F.told F.faults F.asked shelf.old shelf.new (file_within package_bytes name.now ∷ [])
        (result_view (λ bytes. bytes.items) result) (λ reader files. package_file files name.now) }
{
    fetch_file(alloc, name, PACKAGE_LIMIT, Limit::PackageBytes, shelf)
}

/// The text of the file of this name, of at most `most` bytes. A longer one is over the limit.
///
/// One byte more is asked for, so that a longer file shows.
pub fn fetch_file<'a, F: Shelf>(
    alloc: Global,
    name: &'a str,
    most: usize,
    limit: Limit,
    shelf: &mut F,
) -> Result<Vec<u8>, Failure<'a>>
    requires { most < 2 ^ 32 }
    ensures read { ReadsFiles F.told F.faults F.asked shelf.old shelf.new (file_within most name.now ∷ [])
        (result_view (λ bytes. bytes.items) result) (λ reader files. file files name.now most limit) }
    ensures within { IfOk result (λ bytes. length bytes.items ≤ most) }
{
    let bytes = fetch_front(alloc, name, most + 1, shelf)?;
    if bytes.len() > most {
        return Err(Failure::Cause(Cause::Limit(limit)));
    }
    Ok(bytes)
}

// The first bytes of the file of this name, at most `cap` of them.
fn fetch_front<'a, F: Shelf>(
    alloc: Global,
    name: &'a str,
    cap: usize,
    shelf: &mut F,
) -> Result<Vec<u8>, Failure<'a>>
    ensures { ReadsFiles F.told F.faults F.asked shelf.old shelf.new (request_for name.now cap ∷ [])
        (result_view (λ bytes. bytes.items) result) (λ reader files. front_of cap (held name.now (files name.now))) }
{
    match shelf.fetch(alloc, name, cap) {
        Ok(bytes) => Ok(bytes),
        Err(error) => Err(unread_file(name, error)),
    }
}

// Why a call ends where the shelf gave no bytes of the file of this name.
fn unread_file<'a>(name: &'a str, error: ShelfError) -> Failure<'a>
    ensures { failure_view result ≡ fetch_failure name.now error }
{
    match error {
        ShelfError::NoMemory => Failure::NoMemory,
        ShelfError::Failed => Failure::Unread(name),
        ShelfError::Missing => Failure::Unread(name),
    }
}
