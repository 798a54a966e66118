//! Packages, journals and calls by hand, for the tests of all commands.
ghost use Rattle.std.specs.Prelude.{◌≡◌, IfOk, All, IsUtf8, [], false};

use redl_app::{Bringing, Status, run, run_surely};
use redl_io::{MemShelf, MemSink, Shelf, Sink, SureShelf, Text};
use redl_listing::RowFormat;
use redl_page::Skin;
use redl_words::add_word;
use sha2::{Digest, Sha256};
use std::alloc::{AllocError, Global};
use std::process::Abort;

/// What stands as it is in a page.
const SKIN: Skin<'static> = Skin {
    policy: b"default-src 'none'",
    style: b"p{}",
    script: b"1 < 2",
};

pub(super) const FRONT: &[u8] =
    b"<?xml version=\"1.0\" encoding=\"UTF-8\"?><pkg:package xmlns:pkg=\"http://schemas.microsoft.com/office/2006/xmlPackage\"><pkg:part pkg:name=\"/word/document.xml\" pkg:contentType=\"application/vnd.openxmlformats-officedocument.wordprocessingml.document.main+xml\"><pkg:xmlData><w:document xmlns:w=\"http://schemas.openxmlformats.org/wordprocessingml/2006/main\"><w:body>";

pub(super) const BACK: &[u8] = b"</w:body></w:document></pkg:xmlData></pkg:part></pkg:package>";

const ANN: &[u8] = b" w:id=\"1\" w:author=\"Ann\" w:date=\"2024-05-06T07:08:09Z\"";

/// One insertion.
pub(super) const INSERTED: &str = "<w:p><w:ins{A}><w:r><w:t>a</w:t></w:r></w:ins></w:p>";

pub(super) const INSERTED_LIVE: &str = "<w:p><w:r><w:t>a</w:t></w:r></w:p>";

/// The package of a body, in which `{A}` stands for the attributes of Ann's revision.
pub(super) fn package(alloc: Global, body: &str) -> Result<Vec<u8>, AllocError> {
    let mut text = Vec::from_slice(alloc, FRONT)?;
    for byte in body.as_bytes() {
        match *byte {
            b'{' | b'}' => {}
            b'A' => text.extend_from_slice(ANN)?,
            other => text.push(other)?,
        }
    }
    text.extend_from_slice(BACK)?;
    Ok(text)
}

/// The SHA-256 of a text in lower-case hexadecimal digits.
pub(super) fn digest_of(alloc: Global, text: &[u8]) -> Result<String, AllocError> {
    let digest = Sha256::digest(text);
    hex::encode(alloc, digest.as_slice())
}

/// A journal of these lines behind a head with this digest and this count of revisions.
pub(super) fn journal(
    alloc: Global,
    digest: &str,
    revisions: &str,
    lines: &str,
) -> Result<Vec<u8>, AllocError> {
    let mut text = Vec::from_slice(alloc, b"redline-journal 1\ndocument ")?;
    text.extend_from_slice(digest.as_bytes())?;
    text.extend_from_slice(b"\nrevisions ")?;
    text.extend_from_slice(revisions.as_bytes())?;
    text.extend_from_slice(b"\n")?;
    text.extend_from_slice(lines.as_bytes())?;
    Ok(text)
}

/// The words of a line, with one space between two.
pub(super) fn words_of(alloc: Global, line: &str) -> Result<Vec<Text>, AllocError>
    ensures { IfOk result (λ words. All IsUtf8 words.items) }
{
    let mut words = Vec::new(alloc);
    for word in line.split(' ') {
        add_word(alloc, &mut words, word)?;
    }
    Ok(words)
}

/// The package of this body as `P`, and journals of it of these lines as `J`, `K` and `L`.
pub(super) fn files_of(
    alloc: Global,
    body: &str,
    revisions: &str,
    journals: [&str; 3],
) -> Result<Vec<(Text, Vec<u8>)>, AllocError> {
    let package = package(alloc, body)?;
    let digest = digest_of(alloc, &package)?;
    let mut files = vec![in alloc; (Text::copy_of(alloc, b"P")?, package)]?;
    for (name, lines) in ["J", "K", "L"].into_iter().zip(journals) {
        let text = journal(alloc, &digest, revisions, lines)?;
        files.push((Text::copy_of(alloc, name.as_bytes())?, text))?;
    }
    Ok(files)
}

/// Adds a file of this text.
pub(super) fn add_file(
    alloc: Global,
    files: &mut Vec<(Text, Vec<u8>)>,
    name: &str,
    text: &[u8],
) -> Result<(), AllocError> {
    files.push((Text::copy_of(alloc, name.as_bytes())?, text.to_vec(alloc)?))?;
    Ok(())
}

/// What a call comes to.
#[derive(Clone, Copy)]
pub(super) struct Want<'a> {
    /// The status of the call.
    pub(super) status: Status,
    /// What it writes.
    pub(super) bytes: &'a [u8],
    /// Its lines on standard error.
    pub(super) lines: &'a str,
}

/// Calls with the words of this line, in these formats of listings. All calls of `run` are this one, since each is proved
/// against its whole contract.
pub(super) fn call_in<F: Shelf, O: Sink, E: Sink>(
    alloc: Global,
    line: &str,
    shelf: &mut F,
    out: &mut O,
    err: &mut E,
    formats: &mut Vec<Box<dyn RowFormat>>,
) -> Result<Status, AllocError>
    requires { All (λ format. (is_closed format ≡ false) × (rows_so_far format ≡ [])) formats.old.items }
{
    let words = words_of(alloc, line)?;
    Ok(run(
        alloc,
        &words,
        shelf,
        out,
        err,
        formats,
        &mut Vec::new(alloc),
        &SKIN,
    ))
}

/// The same without formats.
pub(super) fn call<F: Shelf, O: Sink, E: Sink>(
    alloc: Global,
    line: &str,
    shelf: &mut F,
    out: &mut O,
    err: &mut E,
) -> Result<Status, AllocError> {
    call_in(alloc, line, shelf, out, err, &mut Vec::new(alloc))
}

/// Calls over a shelf that never fails, without formats, and drops the output.
pub(super) fn call_surely(
    alloc: Global,
    line: &str,
    shelf: &mut SureShelf,
    err: &mut MemSink,
) -> Result<Status, AllocError> {
    let words = words_of(alloc, line)?;
    let mut brings = Bringing {
        formats: Vec::new(alloc),
        reports: Vec::new(alloc),
        skin: SKIN,
    };
    Ok(run_surely(alloc, &words, shelf, err, &mut brings))
}

/// Does the call with the words of this line over this shelf.
pub(super) fn expect_call(
    rt: &impl Abort,
    alloc: Global,
    line: &str,
    shelf: &mut MemShelf,
    put_fails: &[(u64, u64)],
    want: Want<'_>,
) -> Result<(), AllocError> {
    let mut out = MemSink::new(alloc, 2_000, put_fails.to_vec(alloc)?)?;
    let mut err = MemSink::new(alloc, 2_000, Vec::new(alloc))?;
    let status = call(alloc, line, shelf, &mut out, &mut err)?;
    let is_wanted = status == want.status
        && out.bytes() == want.bytes
        && err.bytes() == want.lines.as_bytes();
    assert!(rt; is_wanted, "{line}: {status:?}");
    Ok(())
}
