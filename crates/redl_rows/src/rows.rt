//! A row: its call, and what is printed of it.

use crate::calls::{Answer, add_file, call, call_over, only_package};
use crate::names::{BACK, FRONT, name_parts, spell_out};
use redl_io::{MemSink, Text};
use sha2::{Digest, Sha256};
use std::alloc::{AllocError, Global};
use std::str;

/// What is printed of a row: its title, what its call comes to, and an empty line.
pub(crate) fn print_row(alloc: Global, row: &str) -> Result<String, AllocError> {
    let mut printed = String::new(alloc);
    for line in row.lines().filter(|line| line.starts_with('#')) {
        print_line(&mut printed, line)?;
    }
    if let Some(words) = field(row, "words") {
        print_calls(alloc, row, words, &mut printed)?;
    }
    print_line(&mut printed, "")?;
    Ok(printed)
}

fn print_line(printed: &mut String, line: &str) -> Result<(), AllocError> {
    printed.push_str(line)?;
    printed.push('\n')
}

// Prints what the call with these words comes to, and the row's second call.
fn print_calls(
    alloc: Global,
    row: &str,
    words: &str,
    printed: &mut String,
) -> Result<(), AllocError> {
    let package = package_of(alloc, row)?;
    let digest = digest_of(alloc, package.as_bytes())?;
    let files = files_of(alloc, row, words, package.as_bytes())?;
    let first = call(alloc, words, files)?;
    print_answer(alloc, &first, digest.as_str(), printed)?;
    if let Some(words) = field(row, "again") {
        let again = call_over(alloc, words, first.written.bytes())?;
        print_answer(alloc, &again, digest.as_str(), printed)?;
    }
    Ok(())
}

// The rest of the row's line that begins with this name and a colon.
fn field<'a>(row: &'a str, name: &str) -> Option<&'a str> {
    row.lines().find_map(|line| line
        .strip_prefix(name)
        .and_then(|rest| rest.strip_prefix(": ")))
}

// The text of the row's package.
fn package_of(alloc: Global, row: &str) -> Result<String, AllocError> {
    match field(row, "text") {
        Some(text) => spell_out(alloc, text),
        None => package_with(alloc, field(row, "P").unwrap_or("")),
    }
}

// The text of a package with this body.
fn package_with(alloc: Global, body: &str) -> Result<String, AllocError> {
    spell_out(alloc, format!(in alloc; "{FRONT}{body}{BACK}")?.as_str())
}

// The package, the second package where the row has one, and the journals that the words name.
fn files_of(
    alloc: Global,
    row: &str,
    words: &str,
    package: &[u8],
) -> Result<Vec<(Text, Vec<u8>)>, AllocError> {
    let mut files = only_package(alloc, package)?;
    let second = match field(row, "Q") {
        Some(body) => package_with(alloc, body)?,
        None => String::new(alloc),
    };
    if !second.is_empty() {
        add_file(alloc, &mut files, "Q", second.as_bytes())?;
    }
    for name in words.split(' ').filter(|name| *name != "P" && *name != "Q") {
        if let Some(journal) = file_of(alloc, row, package, second.as_bytes(), name)? {
            add_file(alloc, &mut files, name, journal.as_bytes())?;
        }
    }
    Ok(files)
}

// The text of the journal of this name, where the row has one, of the package or of the second one.
fn file_of(
    alloc: Global,
    row: &str,
    package: &[u8],
    second: &[u8],
    name: &str,
) -> Result<Option<String>, AllocError> {
    if let Some(text) = field(row, format!(in alloc; "{name} text")?.as_str()) {
        return Ok(Some(spell_out(alloc, text)?));
    }
    for (kind, package, version) in [
        ("ranked", package, 2),
        ("of Q", second, 1),
        ("ranked of Q", second, 2),
    ] {
        if let Some(entries) = field(row, format!(in alloc; "{name} {kind}")?.as_str()) {
            return Ok(Some(journal_of(alloc, row, package, version, entries)?));
        }
    }
    match field(row, name) {
        Some(entries) => Ok(Some(journal_of(alloc, row, package, 1, entries)?)),
        None => Ok(None),
    }
}

// A journal of the package with these entries. In version 2 an entry has a rank before its reviewer.
fn journal_of(
    alloc: Global,
    row: &str,
    package: &[u8],
    version: u8,
    entries: &str,
) -> Result<String, AllocError> {
    let digest = digest_of(alloc, package)?;
    let revisions = revisions_of(alloc, row, package)?;
    let mut journal = format!(in alloc;
        "redline-journal {version}\ndocument {digest}\nrevisions {revisions}\n"
    )?;
    let tabs = if version == 2 { 4 } else { 3 };
    for entry in entries.split("; ").filter(|entry| !entry.is_empty()) {
        journal.push_str(entry.replacen(alloc, " ", "\t", tabs)?.as_str())?;
        journal.push('\n')?;
    }
    Ok(journal)
}

// The SHA-256 of the package, as journals have it.
fn digest_of(alloc: Global, package: &[u8]) -> Result<String, AllocError> {
    let digest = Sha256::digest(package);
    hex::encode(alloc, digest.as_slice())
}

// The number of revisions that the row gives, or else the one that a check tells.
fn revisions_of(alloc: Global, row: &str, package: &[u8]) -> Result<String, AllocError> {
    if let Some(revisions) = field(row, "revisions") {
        return String::from_str(alloc, revisions);
    }
    let answer = call_over(alloc, "check P", package)?;
    let told = text_of(&answer.written).split(' ').nth(1).unwrap_or("0");
    String::from_str(alloc, told)
}

// Prints the status, what was written if something was, and the lines. The digest of the row's package has a name.
fn print_answer(
    alloc: Global,
    answer: &Answer,
    digest: &str,
    printed: &mut String,
) -> Result<(), AllocError> {
    let status = answer.status.code();
    print_line(printed, format!(in alloc; "status {status}")?.as_str())?;
    if !answer.written.bytes().is_empty() {
        let written = name_parts(alloc, text_of(&answer.written))?;
        let written = written.replace(alloc, digest, "{digest}")?;
        print_line(printed, format!(in alloc; "written {written}")?.as_str())?;
    }
    printed.push_str(text_of(&answer.lines))
}

// What a sink has.
fn text_of(sink: &MemSink) -> &str {
    str::from_utf8(sink.bytes()).unwrap_or("no UTF-8")
}
