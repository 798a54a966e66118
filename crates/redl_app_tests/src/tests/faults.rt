//! A shelf or a sink that fails, and words that can't be had.
use super::calls::{
    INSERTED, INSERTED_LIVE, Want, call, digest_of, expect_call, files_of, journal, package,
};
use redl_app::{Status, WordsError, refuse_words};
use redl_io::{MemShelf, MemSink};
use std::test::Fail;

#[test]
fn a_file_that_cannot_be_read_ends_the_call(rt: HostRuntime) -> Result<(), Fail> {
    let alloc = rt.alloc();
    for (line, fails, lines) in [
        ("settle accept P", 1, "redline: cannot read P\n"),
        ("settle accept Q", 9, "redline: cannot read Q\n"),
        ("write P J K L", 1, "redline: cannot read P\n"),
        ("write P J K L", 2, "redline: cannot read J\n"),
        ("write P J K L", 3, "redline: cannot read K\n"),
        ("write P J K L", 4, "redline: cannot read L\n"),
        ("write Q J", 9, "redline: cannot read Q\n"),
        ("write P J Q R", 9, "redline: cannot read Q\n"),
        ("join J K", 2, "redline: cannot read K\n"),
        ("join Q J", 9, "redline: cannot read Q\n"),
    ] {
        let files = files_of(alloc, INSERTED, "1", ["", "", ""])?;
        let mut shelf = MemShelf::new(files, vec![in alloc; fails]?);
        let want = Want {
            status: Status::ReadFault,
            bytes: b"",
            lines,
        };
        expect_call(&rt, alloc, line, &mut shelf, &[], want)?;
    }
    Ok(())
}

#[test]
fn an_output_that_fails_has_a_front(rt: HostRuntime) -> Result<(), Fail> {
    let alloc = rt.alloc();
    let journals = ["1\t2\taccept\tAnn\n1\t1\taccept\tAnn\n", "", ""];
    let whole = package(alloc, INSERTED_LIVE)?;
    let unwritten = "redline: cannot write\n";
    let refused = "redline: refused 1 2 accept Ann: unknown revision\nredline: cannot write\n";
    for (line, taken, lines) in [
        ("settle accept P", 5, unwritten),
        ("settle accept P", 0, unwritten),
        ("settle accept P", 418, unwritten),
        ("write P J", 5, refused),
    ] {
        let files = files_of(alloc, INSERTED, "1", journals)?;
        let mut shelf = MemShelf::new(files, Vec::new(alloc));
        let want = Want {
            status: Status::WriteFault,
            bytes: whole.get(..taken).unwrap_or(b""),
            lines,
        };
        expect_call(&rt, alloc, line, &mut shelf, &[(1, taken as u64)], want)?;
    }
    Ok(())
}

#[test]
fn a_journal_that_fails_has_a_front(rt: HostRuntime) -> Result<(), Fail> {
    let alloc = rt.alloc();
    let digest = digest_of(alloc, &package(alloc, INSERTED)?)?;
    let whole = journal(alloc, &digest, "1", "1\t1\taccept\tAnn\n")?;
    let unwritten = "redline: cannot write\n";
    for (fails, taken, status, out, lines) in [
        (1, 0, Status::WriteFault, 0, unwritten),
        (1, 1, Status::WriteFault, 1, unwritten),
        (1, 90, Status::WriteFault, 90, unwritten),
        (2, 2, Status::Done, whole.len(), ""),
    ] {
        let files = files_of(alloc, INSERTED, "1", ["", "", ""])?;
        let mut shelf = MemShelf::new(files, Vec::new(alloc));
        let bytes = whole.get(..out).unwrap_or(b"");
        let want = Want {
            status,
            bytes,
            lines,
        };
        let line = "decide P Ann --accept all";
        expect_call(&rt, alloc, line, &mut shelf, &[(fails, taken)], want)?;
    }
    Ok(())
}

#[test]
fn a_fault_of_the_lines_changes_no_status(rt: HostRuntime) -> Result<(), Fail> {
    let alloc = rt.alloc();
    for (line, status) in [
        ("settle accept Q", Status::ReadFault),
        ("join", Status::Usage),
        ("write P J", Status::Refused),
    ] {
        let files = files_of(alloc, INSERTED, "1", ["1\t2\taccept\tAnn\n", "", ""])?;
        let mut shelf = MemShelf::new(files, Vec::new(alloc));
        let mut out = MemSink::new(alloc, 2_000, Vec::new(alloc))?;
        let mut err = MemSink::new(alloc, 100, vec![in alloc; (1, 3)]?)?;
        let answer = call(alloc, line, &mut shelf, &mut out, &mut err)?;
        let is_wanted = answer == status && err.bytes() == b"red".as_slice();
        assert!(rt; is_wanted, "{line}: {answer:?}");
    }
    Ok(())
}

#[test]
fn words_that_cannot_be_had_end_the_program(rt: HostRuntime) -> Result<(), Fail> {
    let alloc = rt.alloc();
    for (error, code, lines) in [
        (
            WordsError::Usage,
            2,
            "redline: cannot read the command line\n",
        ),
        (WordsError::NoMemory, 8, "redline: no memory\n"),
    ] {
        let mut err = MemSink::new(alloc, 100, Vec::new(alloc))?;
        let status = refuse_words(error, &mut err).code();
        let is_wanted = status == code && err.bytes() == lines.as_bytes();
        assert!(rt; is_wanted, "{error:?}: {status}");
    }
    Ok(())
}
