//! Files that are cut off anywhere, and fetches and puts that fail, one after the other, until the call succeeds.

use super::calls::{
    INSERTED, INSERTED_LIVE, Want, add_file, call_in, digest_of, expect_call, files_of, journal,
    package,
};
use redl_app::Status;
use redl_io::{MemShelf, MemSink};
use redl_listing::{TextFormat, add_format};
use std::alloc::{AllocError, Global};
use std::process::Abort;
use std::test::Fail;

const UNWRITTEN: &str = "redline: cannot write\n";

// A text in a cell that was moved into a paragraph.
const MOVED: &str =
    "<w:tbl><w:tr><w:tc><w:p><w:moveFromRangeStart w:id=\"10\" w:author=\"Bob\" w:name=\"m1\"/><w:moveFrom w:id=\"11\" w:author=\"Bob\"><w:r><w:t>f</w:t></w:r></w:moveFrom><w:moveFromRangeEnd w:id=\"10\"/></w:p></w:tc></w:tr></w:tbl><w:p><w:moveToRangeStart w:id=\"12\" w:author=\"Bob\" w:name=\"m1\"/><w:moveTo w:id=\"13\" w:author=\"Bob\"><w:r><w:t>f</w:t></w:r></w:moveTo><w:moveToRangeEnd w:id=\"12\"/></w:p>";

const MOVED_LIVE: &str =
    "<w:tbl><w:tr><w:tc><w:p></w:p></w:tc></w:tr></w:tbl><w:p><w:r><w:t>f</w:t></w:r></w:p>";

// An inserted text of 60 letters.
const WIDE: &str =
    "<w:p><w:ins{A}><w:r><w:t>a text of sixty letters, counted from the first to the last.</w:t></w:r></w:ins></w:p>";

// What a call comes to.
#[derive(Drop)]
struct Ended {
    status: Status,
    out: MemSink,
    err: MemSink,
}

impl Ended {
    // Whether the call ended so.
    fn is(&self, want: Want<'_>) -> bool {
        self.status == want.status
            && self.out.bytes() == want.bytes
            && self.err.bytes() == want.lines.as_bytes()
    }
}

// Calls with the words of this line, with the format of text, over an output and lines whose puts of these numbers fail.
fn call_failing(
    alloc: Global,
    line: &str,
    shelf: &mut MemShelf,
    out_fails: &[(u64, u64)],
    err_fails: &[(u64, u64)],
) -> Result<Ended, AllocError> {
    let mut formats = Vec::new(alloc);
    add_format(&mut formats, Box::new(alloc, TextFormat::new(alloc)?)?)?;
    let mut out = MemSink::new(alloc, 200_000, out_fails.to_vec(alloc)?)?;
    let mut err = MemSink::new(alloc, 2_000, err_fails.to_vec(alloc)?)?;
    let status = call_in(alloc, line, shelf, &mut out, &mut err, &mut formats)?;
    Ok(Ended { status, out, err })
}

// One insertion, with a journal in which two of three entries are of no revision.
fn small_shelf(alloc: Global) -> Result<MemShelf, AllocError> {
    let entries = "1\t0\taccept\tAnn\n1\t2\taccept\tAnn\n1\t1\taccept\tAnn\n";
    let files = files_of(alloc, INSERTED, "1", [entries, "", ""])?;
    Ok(MemShelf::new(files, Vec::new(alloc)))
}

#[test]
fn a_first_put_that_fails_leaves_a_front_and_all_lines(rt: HostRuntime) -> Result<(), Fail> {
    let alloc = rt.alloc();
    let mut shelf = small_shelf(alloc)?;
    let refused =
        "redline: refused 1 0 accept Ann: unknown revision\nredline: refused 1 2 accept Ann: unknown revision\nredline: cannot write\n";
    let decided = "redline: refused 1 9 reject Dee: unknown revision\nredline: cannot write\n";
    for (line, bytes, lines) in [
        ("check P", b"sou".as_slice(), UNWRITTEN),
        ("settle reject P", b"<?x", UNWRITTEN),
        ("write P J", b"<?x", refused),
        ("list P", b"   ", UNWRITTEN),
        ("list P J", b"   ", refused),
        ("text P", b"a\n", UNWRITTEN),
        ("page P J", b"<!D", refused),
        ("decide P Dee --reject numbers:9", b"red", decided),
        ("join J K", b"red", UNWRITTEN),
        ("sample 8", b"par", UNWRITTEN),
    ] {
        let ended = call_failing(alloc, line, &mut shelf, &[(1, 3)], &[])?;
        let status = Status::WriteFault;
        let is_wanted = ended.is(Want {
            status,
            bytes,
            lines,
        });
        assert!(rt; is_wanted, "{line}: {:?}", ended.status);
    }
    Ok(())
}

#[test]
fn lines_whose_first_put_fails_change_no_byte(rt: HostRuntime) -> Result<(), Fail> {
    let alloc = rt.alloc();
    let mut shelf = small_shelf(alloc)?;
    let written = package(alloc, INSERTED_LIVE)?;
    let digest = digest_of(alloc, &package(alloc, INSERTED)?)?;
    let decided = journal(alloc, &digest, "1", "1\t1\taccept\tDee\n")?;
    let listed = b"      1 ins          accept   2024-05-06T07:08:09Z Ann\n";
    for (line, status, bytes) in [
        ("write P J", Status::Refused, written.as_slice()),
        ("list P J", Status::Refused, listed),
        (
            "decide P Dee --accept numbers:1,9",
            Status::Refused,
            &decided,
        ),
        ("settle accept Q", Status::ReadFault, b""),
        ("write P P", Status::Journal, b""),
        ("check J", Status::Package, b""),
        ("join", Status::Usage, b""),
        ("sample 20001", Status::Limit, b""),
    ] {
        let ended = call_failing(alloc, line, &mut shelf, &[], &[(1, 3)])?;
        let is_wanted = ended.is(Want {
            status,
            bytes,
            lines: "red",
        });
        assert!(rt; is_wanted, "{line}: {:?}", ended.status);
    }
    Ok(())
}

#[test]
fn each_proper_prefix_of_a_package_is_not_readable(rt: HostRuntime) -> Result<(), Fail> {
    let alloc = rt.alloc();
    let whole = package(alloc, MOVED)?;
    let want = Want {
        status: Status::Package,
        bytes: b"",
        lines: "redline: package: not readable\n",
    };
    for size in 0..whole.len() {
        let mut files = Vec::new(alloc);
        add_file(alloc, &mut files, "P", whole.get(..size).unwrap_or(b""))?;
        let mut shelf = MemShelf::new(files, Vec::new(alloc));
        expect_call(&rt, alloc, "check P", &mut shelf, &[], want)?;
    }
    Ok(())
}

// A call that fetches three files and puts once: past the last fetch and the last put it succeeds.
#[test]
fn each_fetch_and_the_put_fail_in_turn(rt: HostRuntime) -> Result<(), Fail> {
    let alloc = rt.alloc();
    let journals = ["1\t1\taccept\tAnn\n", "1\t1\taccept\tBob\n", ""];
    let written = package(alloc, MOVED_LIVE)?;
    for (fetch, put, status, bytes, lines) in [
        (
            1,
            1,
            Status::ReadFault,
            b"".as_slice(),
            "redline: cannot read P\n",
        ),
        (2, 1, Status::ReadFault, b"", "redline: cannot read J\n"),
        (3, 1, Status::ReadFault, b"", "redline: cannot read K\n"),
        (4, 1, Status::WriteFault, b"<", UNWRITTEN),
        (4, 2, Status::Done, &written, ""),
    ] {
        let files = files_of(alloc, MOVED, "1", journals)?;
        let mut shelf = MemShelf::new(files, vec![in alloc; fetch]?);
        let want = Want {
            status,
            bytes,
            lines,
        };
        expect_call(&rt, alloc, "write P J K", &mut shelf, &[(put, put)], want)?;
    }
    Ok(())
}

// 100 insertions, and journals with one entry and with two.
fn wide_shelf(alloc: Global) -> Result<MemShelf, AllocError> {
    let mut body = String::new(alloc);
    for _ in 0..100 {
        body.push_str(WIDE)?;
    }
    let entries = "7\t1\taccept\tDee\n9\t2\taccept\tEve\n";
    let journals = ["1\t1\taccept\tAnn\n", entries, ""];
    let files = files_of(alloc, body.as_str(), "100", journals)?;
    Ok(MemShelf::new(files, Vec::new(alloc)))
}

// Each put of a call fails in turn, and takes as many bytes as its number says. What is out is a prefix of the whole.
fn expect_puts(
    rt: &impl Abort,
    alloc: Global,
    line: &str,
    shelf: &mut MemShelf,
    puts: u32,
) -> Result<(), AllocError> {
    let whole = call_failing(alloc, line, shelf, &[], &[])?;
    for put in 1..=puts {
        let fails = [(put as u64, put as u64)];
        let ended = call_failing(alloc, line, shelf, &fails, &[])?;
        let taken = (put as usize).saturating_mul(4097).saturating_sub(4096);
        let is_wanted = ended.is(Want {
            status: Status::WriteFault,
            bytes: whole.out.bytes().get(..taken).unwrap_or(b""),
            lines: UNWRITTEN,
        });
        assert!(rt; is_wanted, "{line}, put {put}: {:?}", ended.status);
    }
    Ok(())
}

#[test]
fn each_put_fails_in_turn(rt: HostRuntime) -> Result<(), Fail> {
    let alloc = rt.alloc();
    let mut shelf = wide_shelf(alloc)?;
    for (line, size) in [
        ("settle accept P", 9_719u32),
        ("write P J", 16_550),
        ("decide P Dee --journal K --withdraw kind:ins", 1_928),
        ("list P", 5_500),
        ("text P", 6_100),
        ("page P J", 28_357),
    ] {
        // Bytes go out 4,096 at a time; past the last put the call succeeds.
        let puts = size.div_ceil(4096);
        expect_puts(&rt, alloc, line, &mut shelf, puts)?;
        let past = [((puts as u64).saturating_add(1), 0)];
        let ended = call_failing(alloc, line, &mut shelf, &past, &[])?;
        let is_wanted = ended.status == Status::Done
            && ended.out.bytes().len() == size as usize
            && ended.err.bytes().is_empty();
        assert!(rt;
            is_wanted,
            "{line}: {:?}, {}",
            ended.status,
            ended.out.bytes().len()
        );
    }
    Ok(())
}
