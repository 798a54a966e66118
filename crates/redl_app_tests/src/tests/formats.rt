//! Lists of formats: one of the tests' own, two of one name, and none.
ghost use Rattle.std.specs.Prelude.{◌≡◌, All, [], false};

use super::calls::{INSERTED, Want, call_in, expect_call, files_of};
use crate::count_format::CountFormat;
use redl_app::Status;
use redl_io::{MemShelf, MemSink, NullSink};
use redl_listing::{RowFormat, TextFormat, add_format};
use std::alloc::{AllocError, Global};
use std::test::Fail;

const THREE: &str = "<w:p><w:ins{A}/><w:del{A}/><w:ins{A}/></w:p>";

// What a call with the words of this line writes of a package with this body, in these formats.
fn listed(
    alloc: Global,
    line: &str,
    body: &str,
    formats: &mut Vec<Box<dyn RowFormat>>,
) -> Result<MemSink, AllocError>
    requires { All (λ format. (is_closed format ≡ false) × (rows_so_far format ≡ [])) formats.old.items }
{
    let mut shelf = MemShelf::new(files_of(alloc, body, "1", ["", "", ""])?, Vec::new(alloc));
    let mut out = MemSink::new(alloc, 2_000, Vec::new(alloc))?;
    call_in(alloc, line, &mut shelf, &mut out, &mut NullSink, formats)?;
    Ok(out)
}

// Three revisions in the tests' own format.
fn counted(alloc: Global) -> Result<MemSink, AllocError> {
    let mut formats = Vec::new(alloc);
    add_format(&mut formats, Box::new(alloc, TextFormat::new(alloc)?)?)?;
    add_format(
        &mut formats,
        Box::new(alloc, CountFormat::new(alloc, "count")?)?,
    )?;
    listed(alloc, "list P --format count", THREE, &mut formats)
}

// Whether of two formats named `text` the first one wrote, and whether one is left.
fn in_turn(alloc: Global) -> Result<(bool, bool), AllocError> {
    let mut formats = Vec::new(alloc);
    add_format(
        &mut formats,
        Box::new(alloc, CountFormat::new(alloc, "text")?)?,
    )?;
    add_format(&mut formats, Box::new(alloc, TextFormat::new(alloc)?)?)?;
    let first = listed(alloc, "list P", INSERTED, &mut formats)?;
    let left = formats.len();
    Ok((first.bytes() == b"#\n".as_slice(), left == 1))
}

// What comes of three revisions in a format that refuses the third: the status, how many bytes are out, and how many formats are
// left of two.
fn refused(alloc: Global) -> Result<(Status, usize, usize), AllocError> {
    let mut formats = Vec::new(alloc);
    add_format(&mut formats, Box::new(alloc, TextFormat::new(alloc)?)?)?;
    add_format(
        &mut formats,
        Box::new(alloc, CountFormat::taking(alloc, "count", 2)?)?,
    )?;
    let mut shelf = MemShelf::new(files_of(alloc, THREE, "1", ["", "", ""])?, Vec::new(alloc));
    let mut out = MemSink::new(alloc, 2_000, Vec::new(alloc))?;
    let line = "list P --format count";
    let status = call_in(
        alloc,
        line,
        &mut shelf,
        &mut out,
        &mut NullSink,
        &mut formats,
    )?;
    Ok((status, out.bytes().len(), formats.len()))
}

// What comes of one revision, listed as text, where this put fails and takes this number of bytes: the status, and what is out.
fn listed_in_front(alloc: Global, fails: u64, taken: u64) -> Result<(Status, MemSink), AllocError> {
    let mut formats = Vec::new(alloc);
    add_format(&mut formats, Box::new(alloc, TextFormat::new(alloc)?)?)?;
    let files = files_of(alloc, INSERTED, "1", ["", "", ""])?;
    let mut shelf = MemShelf::new(files, Vec::new(alloc));
    let mut out = MemSink::new(alloc, 2_000, vec![in alloc; (fails, taken)]?)?;
    let status = call_in(
        alloc,
        "list P",
        &mut shelf,
        &mut out,
        &mut NullSink,
        &mut formats,
    )?;
    Ok((status, out))
}

#[test]
fn a_listing_that_fails_has_a_front(rt: HostRuntime) -> Result<(), Fail> {
    for (fails, taken, status, bytes) in [
        (1, 0, Status::WriteFault, b"".as_slice()),
        (1, 1, Status::WriteFault, b" "),
        (1, 11, Status::WriteFault, b"      1 ins"),
        (
            2,
            2,
            Status::Done,
            b"      1 ins          open     2024-05-06T07:08:09Z Ann\n",
        ),
    ] {
        let (answer, out) = listed_in_front(rt.alloc(), fails, taken)?;
        let is_wanted = answer == status && out.bytes() == bytes;
        assert!(rt; is_wanted, "{fails}, {taken}: {answer:?}");
    }
    Ok(())
}

#[test]
fn a_format_that_refuses_a_row_ends_the_call(rt: HostRuntime) -> Result<(), Fail> {
    let (status, out, left) = refused(rt.alloc())?;
    let is_wanted = status == Status::NoMemory && out == 0 && left == 1;
    assert!(rt; is_wanted, "{status:?}: {out} bytes, {left} formats");
    Ok(())
}

#[test]
fn a_format_of_the_callers_own_is_taken(rt: HostRuntime) -> Result<(), Fail> {
    let made = counted(rt.alloc())?;
    let bytes = made.bytes();
    assert!(rt; bytes == b"###\n".as_slice(), "{bytes:?}");
    Ok(())
}

#[test]
fn of_two_formats_of_one_name_the_first_is_taken(rt: HostRuntime) -> Result<(), Fail> {
    let (first, left) = in_turn(rt.alloc())?;
    assert!(rt; first && left, "{first} {left}");
    Ok(())
}

// The shelf fails at once, so nothing was fetched.
#[test]
fn without_a_format_nothing_is_fetched(rt: HostRuntime) -> Result<(), Fail> {
    let alloc = rt.alloc();
    for (line, lines) in [
        ("list P", "redline: no format text\n"),
        ("list P J --format pdf", "redline: no format pdf\n"),
        ("list P --format ", "redline: no format \n"),
        ("report P", "redline: no format text\n"),
        ("report P J --format tab", "redline: no format tab\n"),
    ] {
        let mut shelf = MemShelf::new(Vec::new(alloc), vec![in alloc; 1]?);
        let want = Want {
            status: Status::Usage,
            bytes: b"",
            lines,
        };
        expect_call(&rt, alloc, line, &mut shelf, &[], want)?;
    }
    Ok(())
}
