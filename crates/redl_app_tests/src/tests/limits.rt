//! Limits, and texts of unusual size within them.
use super::calls::{
    BACK, FRONT, INSERTED, add_file, call, call_surely, digest_of, files_of, journal, package,
};
use redl_app::Status;
use redl_io::{MemShelf, MemSink, SureShelf, Text};
use std::alloc::{AllocError, Global};
use std::test::Fail;

// A package of `size` bytes, or of the least possible size if that is more.
fn long_package(alloc: Global, size: usize) -> Result<Vec<u8>, AllocError> {
    let start = b"<w:p><w:r><w:t>";
    let end = b"</w:t></w:r></w:p>";
    let rest = FRONT.len() + start.len() + end.len() + BACK.len();
    let mut text = Vec::from_slice(alloc, FRONT)?;
    text.extend_from_slice(start)?;
    text.extend_from_slice(&vec![in alloc; b'x'; size.saturating_sub(rest)]?)?;
    text.extend_from_slice(end)?;
    text.extend_from_slice(BACK)?;
    Ok(text)
}

// A journal of `P` with `size` bytes: entries of 267 bytes each and a shorter one.
fn long_journal(alloc: Global, digest: &str, size: usize) -> Result<Vec<u8>, AllocError> {
    let mut text = journal(alloc, digest, "1", "")?;
    let reviewer = [b'x'; 255];
    let rest = size.saturating_sub(text.len());
    for _ in 0..rest / 267 {
        text.extend_from_slice(b"1\t1\taccept\t")?;
        text.extend_from_slice(&reviewer)?;
        text.push(b'\n')?;
    }
    text.extend_from_slice(b"1\t1\taccept\t")?;
    text.extend_from_slice(&reviewer[..(rest % 267).saturating_sub(12).min(255)])?;
    text.push(b'\n')?;
    Ok(text)
}

// A package `P` and journals of it: one of half of the limit's bytes, one of a byte more, and one past the limit.
fn long_journals(alloc: Global) -> Result<Vec<(Text, Vec<u8>)>, AllocError> {
    let mut files = files_of(alloc, INSERTED, "1", ["", "", ""])?;
    let digest = digest_of(alloc, &package(alloc, INSERTED)?)?;
    for (name, size) in [("H", 33_554_432), ("I", 33_554_433), ("O", 67_108_865)] {
        add_file(
            alloc,
            &mut files,
            name,
            &long_journal(alloc, &digest, size)?,
        )?;
    }
    Ok(files)
}

#[test]
fn limits_are_kept_to_the_byte(rt: HostRuntime) -> Result<(), Fail> {
    let alloc = rt.alloc();
    let mut files = long_journals(alloc)?;
    add_file(alloc, &mut files, "M", &long_package(alloc, 134_217_728)?)?;
    add_file(alloc, &mut files, "N", &long_package(alloc, 134_217_729)?)?;
    let mut shelf = SureShelf::new(files);
    let over = "redline: limit journal bytes 67108864\n";
    for (line, status, lines) in [
        ("settle accept M", Status::Done, ""),
        ("check M", Status::Done, ""),
        (
            "settle accept N",
            Status::Limit,
            "redline: limit package bytes 134217728\n",
        ),
        ("write P H H", Status::Done, ""),
        ("write P H H J", Status::Limit, over),
        ("write P H I", Status::Limit, over),
        ("write P O", Status::Limit, over),
    ] {
        let mut err = MemSink::new(alloc, 100, Vec::new(alloc))?;
        let answer = call_surely(alloc, line, &mut shelf, &mut err)?;
        let is_wanted = answer == status && err.bytes() == lines.as_bytes();
        assert!(rt; is_wanted, "{line}: {answer:?}");
    }
    Ok(())
}

// A package whose body is one text so many times, and then another one.
fn repeated(
    alloc: Global,
    times: (&str, usize),
    back: (&str, usize),
) -> Result<Vec<u8>, AllocError> {
    let mut text = Vec::from_slice(alloc, FRONT)?;
    for (piece, count) in [times, back] {
        for _ in 0..count {
            text.extend_from_slice(piece.as_bytes())?;
        }
    }
    text.extend_from_slice(BACK)?;
    Ok(text)
}

// The body of a package stands at depth 5, and six nodes stand beside those in it.
#[test]
fn depth_and_nodes_are_kept_to_one(rt: HostRuntime) -> Result<(), Fail> {
    let alloc = rt.alloc();
    let deep = "redline: limit depth 512\n";
    let many = "redline: limit nodes 2097152\n";
    let unreadable = "redline: package: not readable\n";
    for (times, back, status, lines) in [
        (("<w:p>", 507), ("</w:p>", 507), Status::Done, ""),
        (("<w:p>", 508), ("</w:p>", 508), Status::Limit, deep),
        (("<w:p>", 508), ("</w:p>", 507), Status::Package, unreadable),
        (("<w:p/>", 2_097_146), ("", 0), Status::Done, ""),
        (("<w:p/>", 2_097_147), ("", 0), Status::Limit, many),
        (
            ("<w:p/>", 2_097_147),
            ("<w:p>", 508),
            Status::Package,
            unreadable,
        ),
        (("<a>", 8_000_000), ("", 0), Status::Package, unreadable),
        (("<a/>", 8_000_000), ("", 0), Status::Limit, many),
    ] {
        let mut files = Vec::new(alloc);
        add_file(alloc, &mut files, "P", &repeated(alloc, times, back)?)?;
        let mut shelf = SureShelf::new(files);
        let mut err = MemSink::new(alloc, 100, Vec::new(alloc))?;
        let answer = call_surely(alloc, "settle accept P", &mut shelf, &mut err)?;
        let is_wanted = answer == status && err.bytes() == lines.as_bytes();
        assert!(rt; is_wanted, "{times:?} {back:?}: {answer:?}");
    }
    Ok(())
}

// A package of one element of this name, with so many attributes, named by this word and a number each, and a last one.
fn wide_package(
    alloc: Global,
    element: &str,
    attribute: &str,
    count: u32,
    last: &str,
) -> Result<Vec<u8>, AllocError> {
    let mut text = Vec::from_slice(alloc, FRONT)?;
    text.extend_from_slice(format!(in alloc; "<{element}")?.as_bytes())?;
    for number in 0..count {
        text.extend_from_slice(format!(in alloc; " {attribute}{number}=\"u\"")?.as_bytes())?;
    }
    text.extend_from_slice(format!(in alloc; "{last}/>")?.as_bytes())?;
    text.extend_from_slice(BACK)?;
    Ok(text)
}

// A tag has any number of attributes and declarations; a name that comes twice is found among as many.
#[test]
fn a_tag_has_any_number_of_attributes(rt: HostRuntime) -> Result<(), Fail> {
    let alloc = rt.alloc();
    let unreadable = "redline: package: not readable\n";
    let declared = "redline: package: rule 9\n";
    for (element, attribute, count, last, status, lines) in [
        ("a", "a", 200_000, "", Status::Done, ""),
        ("a", "a", 199_999, " a0=\"u\"", Status::Package, unreadable),
        ("a", "xmlns:p", 100_000, "", Status::Done, ""),
        ("w:p", "xmlns:p", 100_000, "", Status::Package, declared),
    ] {
        let text = wide_package(alloc, element, attribute, count, last)?;
        let mut files = Vec::new(alloc);
        add_file(alloc, &mut files, "P", &text)?;
        let mut shelf = MemShelf::new(files, Vec::new(alloc));
        let mut out = MemSink::new(alloc, 4_000_000, Vec::new(alloc))?;
        let mut err = MemSink::new(alloc, 100, Vec::new(alloc))?;
        let answer = call(alloc, "settle accept P", &mut shelf, &mut out, &mut err)?;
        let bytes = if status == Status::Done {
            text.as_slice()
        } else {
            b""
        };
        let is_wanted = answer == status && out.bytes() == bytes && err.bytes() == lines.as_bytes();
        assert!(rt; is_wanted, "{count} {attribute} of {element}: {answer:?}");
    }
    Ok(())
}
