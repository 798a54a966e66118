//! What no clause says: that calls succeed with ample memory, how many markers and moves whole stories have, and what the moves
//! answer.

ghost use Rattle.std.specs.Prelude.{◌^◌, ◌<◌, length, IfOk};
ghost use Rattle.redl_moves.specs.Marks.{markings, RisesFrom};

use crate::documents::{WORDS, keep_text};
use redl_index::{StoryMarkers, find_markers};
use redl_moves::{Marker, Moves, Side, Start, pair};
use redl_outline::outline_text;
use redl_tree::{Node, count_nodes};
use std::alloc::{AllocError, Global};
use std::test::Fail;

// The text of the story with an outline, whose root isn't in the outline.
fn story(alloc: Global, words: &str) -> Result<String, AllocError> {
    let body = outline_text(alloc, words, WORDS)?;
    format!(in alloc;
        "<w:document xmlns:w='http://schemas.openxmlformats.org/wordprocessingml/2006/main'>{body}</w:document>"
    )
}

// What is found in the story with this text.
fn found_in(alloc: Global, text: &str) -> Result<StoryMarkers<'_>, Fail>
    ensures few { IfOk result (λ found. length found.marks.items < 2 ^ 32) }
    ensures rising { IfOk result (λ found. RisesFrom 0 (markings found.marks.items)) }
{
    let nodes = redl_xml::read(alloc, text.as_bytes())?;
    match nodes.first() {
        Some(Node::Elem(root)) if count_nodes(root.kids()) < 1_000 => Ok(find_markers(
            alloc, root,
        )?),
        _ => Err(Fail::new("no small story")),
    }
}

// How many of these are loose.
fn loose_among(marks: &[Marker]) -> usize {
    let mut loose = 0usize;
    for mark in marks {
        if mark.loose {
            loose = loose.saturating_add(1);
        }
    }
    loose
}

// How many markers a story has, how many of them are loose, and how many paired moves it has.
fn counts(alloc: Global, words: &str) -> Result<(usize, usize, usize), Fail> {
    let text = story(alloc, words)?;
    let found = found_in(alloc, text.as_str())?;
    let moves = pair(alloc, &found.marks)?;
    Ok((found.marks.len(), loose_among(&found.marks), moves.len()))
}

// Outlines, each with its counts of markers, of loose ones and of paired moves.
const ROWS: [(&str, (usize, usize, usize)); 30] = [
    ("", (0, 0, 0)),
    ("fs/1/a fe/1 ts/2/a te/2", (4, 0, 1)),
    ("ts/2/a te/2 p .fs/1/a p .fe/1", (4, 0, 1)),
    ("fs/1/a fe/1 ts/1/a te/1", (4, 0, 1)),
    ("fs/1/a fe/1 fs/3/b fe/3 ts/2/a te/2", (6, 0, 1)),
    ("fs/1/a fe/1 fs/3/a fe/3 ts/2/a te/2", (6, 0, 0)),
    ("fs/1/a fe/1 ts/2/a te/2 ts/3/a te/3", (6, 0, 0)),
    ("fs/1/a fe/1 ts/2/b te/2", (4, 0, 0)),
    ("fs/1/a fe/1 fs/1/b ts/2/a te/2", (5, 0, 0)),
    ("fs/1/a fe/1 fs/1 ts/2/a te/2", (5, 0, 0)),
    ("fs/1/a fe/1 fs/a ts/2/a te/2", (4, 0, 1)),
    ("fs/1/a fe/3 ts/2/a te/2", (4, 0, 0)),
    ("fs/1/a fe/1 fe/1 ts/2/a te/2", (5, 0, 0)),
    ("fs/1/a fe/1 fe/3 ts/2/a te/2", (5, 0, 1)),
    ("fe/1 fs/1/a ts/2/a te/2", (4, 0, 0)),
    ("fs/1 fe/1 ts/2 te/2", (4, 0, 0)),
    ("fs/1/empty fe/1 ts/2/empty te/2", (4, 0, 1)),
    ("p .pPr ..fs/1/a fe/1 ts/2/a te/2", (3, 0, 0)),
    ("ins .fs/1/a fe/1 ts/2/a te/2", (4, 1, 0)),
    ("tbl .tr ..tc ...fs/1/a fe/1 ts/2/a te/2", (4, 0, 1)),
    (
        "tbl .tr ..trPr ...ins ..tc ...fs/1/a fe/1 ts/2/a te/2",
        (4, 1, 0),
    ),
    (
        "tbl .tr ..trPr ...trPrChange ..tc ...fs/1/a fe/1 ts/2/a te/2",
        (4, 0, 1),
    ),
    (
        "tbl .tr ..tc ...tcPr ....cellIns ...fs/1/a fe/1 ts/2/a te/2",
        (4, 1, 0),
    ),
    (
        "tbl .tr ..tc ...tcPr ....cellDel ..tc ...fs/1/a fe/1 ts/2/a te/2",
        (4, 0, 1),
    ),
    ("tbl .tr ..fs/1/a fe/1 ts/2/a te/2", (4, 1, 0)),
    ("tbl .fs/1/a fe/1 ts/2/a te/2", (4, 1, 0)),
    ("tbl .x ..tr ...tc ....fs/1/a fe/1 ts/2/a te/2", (4, 1, 0)),
    (
        "tbl .tr ..sdt ...sdtContent ....tc .....fs/1/a fe/1 ts/2/a te/2",
        (4, 0, 1),
    ),
    (
        "tbl .tr ..sdt ...sdtContent ....fs/1/a fe/1 ts/2/a te/2",
        (4, 1, 0),
    ),
    ("fs/1/a ins .fe/1 tbl .ts/2/a p .te/2", (4, 2, 0)),
];

// Outlines in which the reader keeps runs and properties as text, each with its counts.
const KEPT: [(&str, (usize, usize, usize)); 6] = [
    (
        "tbl .tr ..tc ...p ....r .....t ......(x) ....fs/1/a ....r .....t ......(y) ....fe/1 ....r .....tab ....ts/2/a ....r ....te/2 ....r",
        (4, 0, 1),
    ),
    (
        "tbl .tr ..tc ...p ....r .....fs/1/a .....t ....fe/1 ....ts/2/a ....te/2",
        (4, 0, 1),
    ),
    (
        "tbl .tr ..trPr ...cantSplit ..tc ...p ....fs/1/a ....r ....fe/1 ....ts/2/a ....te/2",
        (4, 0, 1),
    ),
    (
        "tbl .tr ..trPr ...cantSplit ...ins ...jc ..tc ...p ....fs/1/a ....r ....fe/1 ....ts/2/a ....te/2",
        (4, 4, 0),
    ),
    (
        "tbl .tr ..tc ...tcPr ....tcW ...p ....fs/1/a ....r ....fe/1 ....ts/2/a ....te/2",
        (4, 0, 1),
    ),
    (
        "tbl .tr ..tc ...tcPr ....tcW ....cellIns ....shd ...p ....fs/1/a ....r ....fe/1 ....ts/2/a ....te/2",
        (4, 4, 0),
    ),
];

// Whether the reader keeps text of the story with an outline.
fn is_kept(alloc: Global, words: &str) -> Result<bool, Fail> {
    let text = story(alloc, words)?;
    let nodes = redl_xml::read(alloc, text.as_bytes())?;
    Ok(keep_text(&nodes))
}

#[test]
fn names_are_paired_or_not(rt: HostRuntime) -> Result<(), Fail> {
    for (words, want) in ROWS {
        let got = counts(rt.alloc(), words)?;
        assert!(rt; got == want, "{words}: {got:?}");
    }
    Ok(())
}

#[test]
fn names_are_paired_among_texts(rt: HostRuntime) -> Result<(), Fail> {
    for (words, want) in KEPT {
        let got = (is_kept(rt.alloc(), words)?, counts(rt.alloc(), words)?);
        assert!(rt; got == (true, want), "{words}: {got:?}");
    }
    Ok(())
}

// The position at which the move starts that is open at a position of a story on the source side, and of the one that has a
// marker there.
fn starts(alloc: Global, words: &str, at: u64) -> Result<(Option<Start>, Option<Start>), Fail> {
    let text = story(alloc, words)?;
    let found = found_in(alloc, text.as_str())?;
    let moves = Moves::of(alloc, found.marks)?;
    Ok((moves.open_at(Side::Source, at), moves.at_marker(at)))
}

#[test]
fn moves_answer(rt: HostRuntime) -> Result<(), Fail> {
    let outer = Some(Start { at: 1, place: 0 });
    let inner = Some(Start { at: 3, place: 1 });
    let words = "fs/1/a fs/3/b p fe/3 p fe/1 ts/2/a te/2 ts/4/b te/4";
    for (at, want) in [
        (0, (None, None)),
        (2, (outer, None)),
        (5, (inner, None)),
        (8, (outer, None)),
        (10, (outer, None)),
        (12, (None, None)),
        (17, (None, inner)),
    ] {
        let got = starts(rt.alloc(), words, at)?;
        assert!(rt; got == want, "{at}: {got:?}");
    }
    Ok(())
}

#[test]
fn positions_go_on_over_texts(rt: HostRuntime) -> Result<(), Fail> {
    let begun = Some(Start { at: 9, place: 0 });
    let words =
        "tbl .tr ..tc ...p ....r .....t ......(x) ....fs/1/a ....r .....rPr ......u .....t ....fe/1 ....r ....ts/2/a ....r .....tab .....br ....te/2";
    for (at, want) in [
        (8, (None, None)),
        (10, (begun, None)),
        (18, (begun, None)),
        (20, (None, None)),
        (22, (None, None)),
        (23, (None, begun)),
        (31, (None, begun)),
    ] {
        let got = starts(rt.alloc(), words, at)?;
        assert!(rt; got == want, "{at}: {got:?}");
    }
    Ok(())
}
