//! Small documents of two sittings: the first number of each second number, and the journal of both books.

use crate::documents::{package_text, read_package};
use redl_index::Index;
use redl_io::MemSink;
use redl_join::Book;
use redl_outline::{book_of, document, outline_text, package, part};
use redl_sittings::{joined, map_back};
use redl_tree::Say;
use std::alloc::{AllocError, Global};
use std::test::Fail;

// The head of a journal, and that of version 2, whose entries have ranks.
const HEAD: &[u8] =
    b"redline-journal 1\ndocument 0000000000000000000000000000000000000000000000000000000000000000\nrevisions 3\n";

const RANKED: &[u8] =
    b"redline-journal 2\ndocument 0000000000000000000000000000000000000000000000000000000000000000\nrevisions 3\n";

// The text of a package with a document for each of these bodies.
fn text_of_parts(alloc: Global, bodies: &[&str]) -> Result<String, AllocError> {
    let mut parts = String::new(alloc);
    for body in bodies {
        let body = outline_text(alloc, body, &[])?;
        let document = document(alloc, body.as_str())?;
        parts.push_str(part(alloc, "/a", document.as_str())?.as_str())?;
    }
    package(alloc, parts.as_str())
}

// The first numbers of the revisions of the second package, where the first one was decided by these says.
fn first_numbers(alloc: Global, first: &str, says: &[Say], second: &str) -> Result<Vec<u32>, Fail> {
    let mut first = read_package(alloc, first.as_bytes())?;
    let mut second = read_package(alloc, second.as_bytes())?;
    let _numbered = Index::build(alloc, &mut first)?;
    let index = Index::build(alloc, &mut second)?;
    Ok(map_back(alloc, &first, says, &second, index.count())?)
}

const INSERTED: &str = "p .ins ..r ...t ....(a)";

const LIVE: &str = "p .r ..t ...(a)";

const DELETED: &str = "p .del ..r ...delText ....(b)";

// Documents of one part: the first body, its says, the body that is left, and the first numbers.
const SITTINGS: [(&str, &[Say], &str, &[u32]); 5] = [
    (
        "p .ins ..r ...t ....(a) p .del ..r ...delText ....(b)",
        &[Say::Accept, Say::Keep],
        "p .r ..t ...(a) p .del ..r ...delText ....(b)",
        &[2],
    ),
    (
        "p .pPr ..rPr ...del .ins ..r ...t ....(a) p .pPr ..pPrChange ...pPr",
        &[Say::Accept, Say::Keep, Say::Keep],
        "p .pPr ..pPrChange ...pPr .ins ..r ...t ....(a)",
        &[3, 2],
    ),
    ("p .ins ..r ...t ....(a)", &[Say::Reject], "p .()", &[]),
    // what was inserted among runs is read as one text with them
    (
        "p .r ..t ...(x) .ins ..r ...rPr ....b ...t ....(a) .r .bookmarkStart p .r .(y) .r ..tab .del ..r ...delText ....(b)",
        &[Say::Accept, Say::Keep],
        "p .r ..t ...(x) .r ..rPr ...b ..t ...(a) .r .bookmarkStart p .r .(y) .r ..tab .del ..r ...delText ....(b)",
        &[2],
    ),
    (
        "bookmarkStart p .del ..r .r bookmarkEnd tbl .tblPr ..tblW .tr ..trPr ...cantSplit ...ins ..tc ...p ....r ....ins .....r",
        &[Say::Accept, Say::Keep, Say::Keep],
        "bookmarkStart p .r bookmarkEnd tbl .tblPr ..tblW .tr ..trPr ...cantSplit ...ins ..tc ...p ....r ....ins .....r",
        &[2, 3],
    ),
];

#[test]
fn each_second_number_has_its_first_one(rt: HostRuntime) -> Result<(), Fail> {
    for (first, says, second, want) in SITTINGS {
        let before = package_text(rt.alloc(), first, &[])?;
        let after = package_text(rt.alloc(), second, &[])?;
        let back = first_numbers(rt.alloc(), before.as_str(), says, after.as_str())?;
        assert!(rt; back.as_slice() == want, "{first}");
    }
    Ok(())
}

#[test]
fn each_part_has_its_own_numbers(rt: HostRuntime) -> Result<(), Fail> {
    let says = [Say::Accept, Say::Keep, Say::Keep];
    let before = text_of_parts(rt.alloc(), &[INSERTED, DELETED, INSERTED])?;
    let after = text_of_parts(rt.alloc(), &[LIVE, DELETED, INSERTED])?;
    let back = first_numbers(rt.alloc(), before.as_str(), &says, after.as_str())?;
    assert!(rt; back.as_slice() == [2, 3].as_slice());
    Ok(())
}

// Whether the book is that of a journal with these lines.
fn has_lines(
    alloc: Global,
    book: &Book,
    lines: &[u8],
    has_ranks: bool,
) -> Result<bool, AllocError> {
    let head = if has_ranks { RANKED } else { HEAD };
    let mut text = Vec::from_slice(alloc, head)?;
    text.extend_from_slice(lines)?;
    let mut sink = MemSink::new(alloc, 2_000, Vec::new(alloc))?;
    let answer = book.write(&[0; 32], 3, &mut sink);
    Ok(answer.is_ok() && sink.bytes() == text.as_slice())
}

#[test]
fn the_book_of_two_sittings(rt: HostRuntime) -> Result<(), Fail> {
    let alloc = rt.alloc();
    for (case, firsts, seconds, back, want, has_ranks) in [
        (
            "each has its own revisions",
            b"1\t1\taccept\tAnn\n".as_slice(),
            b"1\t1\treject\tBob\n".as_slice(),
            [2, 3].as_slice(),
            b"1\t1\taccept\tAnn\n1\t2\treject\tBob\n".as_slice(),
            false,
        ),
        (
            "what was disputed, open or withdrawn is not in it",
            b"1\t1\taccept\tAnn\n1\t2\taccept\tAnn\n1\t3\twithdraw\tAnn\n1\t2\treject\tBob\n",
            b"4\t2\taccept\tAnn\n",
            &[2, 3],
            b"1\t1\taccept\tAnn\n4\t3\taccept\tAnn\n",
            false,
        ),
        (
            "numbers without a first one are not in it",
            b"",
            b"1\t0\taccept\tAnn\n1\t1\taccept\tAnn\n1\t2\treject\tAnn\n1\t3\treject\tAnn\n",
            &[0, 1],
            b"1\t1\treject\tAnn\n",
            false,
        ),
        (
            "sequence numbers and ranks stay",
            b"7\t1\taccept\t0\tAnn\n",
            b"4\t1\treject\t3\tBob\n",
            &[2],
            b"7\t1\taccept\t0\tAnn\n4\t2\treject\t3\tBob\n",
            true,
        ),
    ] {
        let first = book_of(alloc, firsts)?;
        let second = book_of(alloc, seconds)?;
        let book = joined(alloc, &first, &second, back)?;
        assert!(rt; has_lines(alloc, &book, want, has_ranks)?, "{case}");
    }
    Ok(())
}
