//! Tables of whole packages, whose parts are outlines: their labels and their revisions, where there is ample memory.

ghost use Rattle.std.specs.Prelude.{◌≡◌};

use crate::documents::{WORDS, keep_text, read_package};
use redl_index::Index;
use redl_kinds::RevKind;
use redl_outline::{outline_text, package, part};
use redl_tree::{Kind, Node, Prop, Trace};
use std::alloc::{AllocError, Global};
use std::test::Fail;

const INS: Kind = Kind::Content(Trace::Ins);

const DEL: Kind = Kind::Content(Trace::Del);

const FROM: Kind = Kind::Content(Trace::From);

const TO: Kind = Kind::Content(Trace::To);

const MARK: Kind = Kind::Mark(Trace::From);

const EDGE: Kind = Kind::Marker;

// The text of the package with a part for each of these outlines.
fn package_text(alloc: Global, outlines: &[&str]) -> Result<String, AllocError> {
    let mut parts = String::new(alloc);
    for words in outlines {
        let data = outline_text(alloc, words, WORDS)?;
        parts.push('\n')?;
        parts.push_str(part(alloc, "/a", data.as_str())?.as_str())?;
    }
    package(alloc, parts.as_str())
}

// Adds the kinds and numbers of the members, in the order of their start tags.
#[cycle(labels)]
fn add_labels(nodes: &[Node], labels: &mut Vec<(Kind, u32)>) -> Result<(), Fail> {
    for node in nodes {
        add_label(node, labels)?;
    }
    Ok(())
}

#[cycle(labels)]
fn add_label(node: &Node, labels: &mut Vec<(Kind, u32)>) -> Result<(), Fail> {
    let Node::Elem(elem) = node else {
        return Ok(());
    };
    if elem.kind() != Kind::Plain {
        labels.push((elem.kind(), elem.rev()))?;
    }
    add_labels(elem.kids(), labels)
}

// The kinds and numbers of the elements of a package that are in a revision.
fn labelled(alloc: Global, parts: &[&str]) -> Result<Vec<(Kind, u32)>, Fail> {
    let text = package_text(alloc, parts)?;
    let mut made = read_package(alloc, text.as_bytes())?;
    let _index = Index::build(alloc, &mut made)?;
    let mut labels = Vec::new(alloc);
    add_labels(made.nodes(), &mut labels)?;
    Ok(labels)
}

const MEMBERS: [([&str; 2], &[(Kind, u32)]); 4] = [
    (
        ["document .p ..o-ins ..m-del ..inserted", "styles .ins"],
        &[],
    ),
    (
        ["document .p ..ins ...del ..del", "hdr .ins"],
        &[(INS, 1), (DEL, 2), (DEL, 3), (INS, 4)],
    ),
    (
        [
            "document .tbl ..tr ...trPr ....ins ...tc ....tcPr .....cellDel",
            "ftr .tbl ..tblPr ...tblPrChange ..tr ...tblPrEx ....tblPrExChange ...trPr ....trPrChange",
        ],
        &[
            (Kind::Row(Trace::Ins), 1),
            (Kind::Cell(Trace::Del), 2),
            (Kind::Change(Prop::Table), 3),
            (Kind::Change(Prop::Except), 4),
            (Kind::Change(Prop::Row), 5),
        ],
    ),
    (
        [
            "document .body ..p ...pPr ....pPrChange ...r ....rPr .....rPrChange ..sectPr ...sectPrChange",
            "footnotes .sdt ..sdtPr ...ins ...p ....pPr .....rPr ......ins ...rPr ....ins ....rPrChange",
        ],
        &[
            (Kind::Change(Prop::Para), 1),
            (Kind::Change(Prop::Run), 2),
            (Kind::Change(Prop::Sect), 3),
            (Kind::Change(Prop::Run), 4),
        ],
    ),
];

#[test]
fn members_are_labelled(rt: HostRuntime) -> Result<(), Fail> {
    for (parts, want) in MEMBERS {
        let got = labelled(rt.alloc(), &parts)?;
        assert!(rt; got.as_slice() == want, "{parts:?}: {got:?}");
    }
    Ok(())
}

const MOVES: [([&str; 3], &[(Kind, u32)]); 4] = [
    // over two paragraphs, with the mark of the first
    (
        [
            "document .p ..pPr ...rPr ....moveFrom ..fs/1/a ..moveFrom .p ..moveFrom ..fe/1 .p ..ts/2/a ..moveTo ..te/2",
            "styles",
            "hdr .ins",
        ],
        &[
            (MARK, 1),
            (EDGE, 1),
            (FROM, 1),
            (FROM, 1),
            (EDGE, 1),
            (EDGE, 1),
            (TO, 1),
            (EDGE, 1),
            (INS, 2),
        ],
    ),
    // the range ends in the paragraph of the mark
    (
        [
            "document .p ..pPr ...rPr ....moveFrom ..fs/1/a ..moveFrom ..fe/1 .p ..ts/2/a ..moveTo ..te/2",
            "styles",
            "hdr",
        ],
        &[
            (MARK, 1),
            (EDGE, 2),
            (FROM, 2),
            (EDGE, 2),
            (EDGE, 2),
            (TO, 2),
            (EDGE, 2),
        ],
    ),
    // over rows, the target first, and a move in another story with the same name and ids, without members
    (
        [
            "document .ts/2/a .tbl ..tr ...tc ....p .....moveTo .te/2 .ins .fs/1/a .tbl ..tr ...tc ....p .....moveFrom ..tr ...tc ....p .....moveFrom .fe/1",
            "footnotes .fs/1/a .fe/1 .ts/2/a .te/2",
            "hdr .moveTo",
        ],
        &[
            (EDGE, 1),
            (TO, 1),
            (EDGE, 1),
            (INS, 2),
            (EDGE, 1),
            (FROM, 1),
            (FROM, 1),
            (EDGE, 1),
            (EDGE, 3),
            (EDGE, 3),
            (EDGE, 3),
            (EDGE, 3),
            (TO, 4),
        ],
    ),
    // a name with two source starts
    (
        [
            "document .p ..fs/1/a ..moveFrom ..fe/1 ..fs/3/a ..ts/2/a ..moveTo ..te/2",
            "styles",
            "hdr",
        ],
        &[(FROM, 1), (TO, 2)],
    ),
];

#[test]
fn moves_are_labelled(rt: HostRuntime) -> Result<(), Fail> {
    for (parts, want) in MOVES {
        let got = labelled(rt.alloc(), &parts)?;
        assert!(rt; got.as_slice() == want, "{parts:?}: {got:?}");
    }
    Ok(())
}

// Parts in which the reader keeps runs and properties as text, with the labels.
const KEPT: [([&str; 2], &[(Kind, u32)]); 5] = [
    (
        [
            "document .body ..p ...r ....t .....(x) ...ins ....r .....t ......(y) ...r ....rPr .....u ....t ...r ...del ....r",
            "hdr .p ..r ..r ..ins ...r",
        ],
        &[(INS, 1), (DEL, 2), (INS, 3)],
    ),
    (
        [
            "document .tbl ..tblGrid ...gridCol ..tr ...trPr ....cantSplit ....ins ....jc ...tc ....tcPr .....tcW .....cellDel .....shd ....p .....r",
            "ftr .tbl ..tblPr ...tblStyle ...tblPrChange ....tblPr .....tblStyle ..tr ...trPr ....cantSplit ....trPrChange ...tc ....p .....r",
        ],
        &[
            (Kind::Row(Trace::Ins), 1),
            (Kind::Cell(Trace::Del), 2),
            (Kind::Change(Prop::Table), 3),
            (Kind::Change(Prop::Row), 4),
        ],
    ),
    (
        [
            "document .body ..p ...pPr ....jc ....rPr .....u .....ins .....i ...r ....t ...r ....rPr .....u .....rPrChange ......rPr .......i ....t ...r",
            "styles .style ..rPr ...u ...ins",
        ],
        &[(Kind::Mark(Trace::Ins), 1), (Kind::Change(Prop::Run), 2)],
    ),
    // a move over two paragraphs, with the mark of the first
    (
        [
            "document .p ..pPr ...keepNext ...rPr ....u ....moveFrom ..r ...t ....(x) ..fs/1/a ..r ..moveFrom ...r ....rPr .....u ....t ..r .p ..r ...tab ..moveFrom ...r ..r ..fe/1 ..r .p ..ts/2/a ..r ..moveTo ...r ..r ..te/2 ..r",
            "hdr .p ..r ..ins",
        ],
        &[
            (MARK, 1),
            (EDGE, 1),
            (FROM, 1),
            (FROM, 1),
            (EDGE, 1),
            (EDGE, 1),
            (TO, 1),
            (EDGE, 1),
            (INS, 2),
        ],
    ),
    // the range ends in the paragraph of the mark
    (
        [
            "document .p ..pPr ...rPr ....u ....moveFrom ..r ..fs/1/a ..r ..moveFrom ...r ..fe/1 ..r .p ..r ..ts/2/a ..moveTo ...r ..r ..te/2",
            "hdr .p ..r ...t ....(x)",
        ],
        &[
            (MARK, 1),
            (EDGE, 2),
            (FROM, 2),
            (EDGE, 2),
            (EDGE, 2),
            (TO, 2),
            (EDGE, 2),
        ],
    ),
];

// Whether the reader keeps text of the package with these parts.
fn is_kept(alloc: Global, parts: &[&str]) -> Result<bool, Fail> {
    let text = package_text(alloc, parts)?;
    let made = read_package(alloc, text.as_bytes())?;
    Ok(keep_text(made.nodes()))
}

#[test]
fn members_among_texts_are_labelled(rt: HostRuntime) -> Result<(), Fail> {
    for (parts, want) in KEPT {
        let kept = is_kept(rt.alloc(), &parts)?;
        let got = labelled(rt.alloc(), &parts)?;
        assert!(rt; kept && got.as_slice() == want, "{parts:?}: {kept} {got:?}");
    }
    Ok(())
}

// What a revision is, who made it and when, its part, and how many members it has.
type RevisionFacts<'a> = (RevKind, &'a [u8], Option<i64>, u32, u32);

fn told(index: &Index, number: u32) -> Option<RevisionFacts<'_>> {
    let found = index.get(number)?;
    Some((
        found.kind,
        found.author.as_bytes(),
        found.seconds,
        found.part,
        found.members,
    ))
}

const TOLD_PARTS: [&str; 5] = [
    "styles .ins/1/author=Ann/date=1970-01-02T00:00:01Z",
    "document .body ..p ...pPr ....rPr .....ins/1/author=Ann/date=1970-01-02T00:00:01Z ...del/date=2024-05-06T07:08:09+02:00/QA",
    "hdr .tbl ..tr ...trPr ....del/author=B/date=1969-12-31T23:59:59 ...tc ....tcPr .....cellIns/author=/date=2024-02-30T00:00:00Z",
    "footnotes .ts/2/a/author=Cid/date=2024-05-06T07:08:09Z .p ..moveTo/date=2024-05-06T07:08:09+02:00/QA .te/2 .fs/1/a/author=Ann/date=1970-01-02T00:00:01Z .p ..moveFrom .p ..moveFrom .fe/1",
    "endnotes .fs/1/a/author=Ann .fe/1 .ts/2/a/author=Cid/date=2024-05-06T07:08:09Z .te/2",
];

// The same revisions among runs and properties that the reader keeps as text.
const TOLD_AMONG_TEXTS: [&str; 5] = [
    "styles .style ..u ..ins/1/author=Ann/date=1970-01-02T00:00:01Z",
    "document .body ..p ...pPr ....jc ....rPr .....u .....ins/1/author=Ann/date=1970-01-02T00:00:01Z .....i ...r ....t .....(x) ...del/date=2024-05-06T07:08:09+02:00/QA ....r ...r",
    "hdr .tbl ..tr ...trPr ....jc ....del/author=B/date=1969-12-31T23:59:59 ...tc ....tcPr .....tcW .....cellIns/author=/date=2024-02-30T00:00:00Z .....shd ....p .....r",
    "footnotes .r .ts/2/a/author=Cid/date=2024-05-06T07:08:09Z .p ..r ...t ....(x) ..moveTo/date=2024-05-06T07:08:09+02:00/QA ...r ..r .te/2 .fs/1/a/author=Ann/date=1970-01-02T00:00:01Z .p ..r ..moveFrom ...r .p ..moveFrom ...r ..r ...tab .fe/1",
    "endnotes .fs/1/a/author=Ann .r .fe/1 .r .ts/2/a/author=Cid/date=2024-05-06T07:08:09Z .r .te/2",
];

const TOLD: [(u32, Option<RevisionFacts>); 8] = [
    (0, None),
    (
        1,
        Some((RevKind::Mark(Trace::Ins), b"Ann", Some(86_401), 1, 1)),
    ),
    (
        2,
        Some((
            RevKind::Content(Trace::Del),
            b"Q & A",
            Some(1_714_972_089),
            1,
            1,
        )),
    ),
    (3, Some((RevKind::Row(Trace::Del), b"B", Some(-1), 2, 1))),
    (4, Some((RevKind::Cell(Trace::Ins), b"", None, 2, 1))),
    (5, Some((RevKind::Move, b"Ann", Some(86_401), 3, 3))),
    (6, Some((RevKind::Move, b"Ann", None, 4, 0))),
    (7, None),
];

// The first number of which something else is told.
fn first_other(index: &Index) -> Option<u32> {
    for (number, want) in TOLD {
        if told(index, number) != want {
            return Some(number);
        }
    }
    None
}

// The revisions of the package with these parts.
fn index_of(alloc: Global, parts: &[&str]) -> Result<Index, Fail> {
    let text = package_text(alloc, parts)?;
    let mut made = read_package(alloc, text.as_bytes())?;
    Ok(Index::build(alloc, &mut made)?)
}

#[test]
fn revisions_are_told(rt: HostRuntime) -> Result<(), Fail> {
    for parts in [TOLD_PARTS, TOLD_AMONG_TEXTS] {
        let index = index_of(rt.alloc(), &parts)?;
        let other = first_other(&index);
        assert!(rt; other.is_none(), "{other:?}");
    }
    Ok(())
}
