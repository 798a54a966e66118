//! Tables of what no clause of `redl_tree` says: that calls succeed with ample memory, that the text is the one that a
//! document has, and that names and places are those of ECMA-376 Part 1.
use redl_io::MemSink;
use redl_output::{copy_nodes, write_nodes};
use redl_tree::{
    Around, Elem, Kind, Lot, Node, Place, Prop, Reach, Space, Tag, Trace, count_nodes, is_named,
    is_quiet, is_thick, is_wrapper,
};
use std::alloc::{AllocError, Global};
use std::test::Fail;

// A start tag with this text, where the prefix has `prefix` bytes and the name `name` bytes.
fn tag(text: &str, prefix: u32, name: u32, space: Space) -> Option<Tag<'_>> {
    let text = text.as_bytes();
    if name as usize > text.len() {
        return None;
    }
    if prefix > 0 && (prefix >= name || text[prefix as usize] != b':') {
        return None;
    }
    Some(Tag::new(text, prefix, name, space))
}

// An element without a prefix, attributes, kids and an end tag.
fn named(local: &str, space: Space) -> Option<Elem<'_>> {
    let name = u32::try_from(local.len()).ok()?;
    Some(Elem::empty(tag(local, 0, name, space)?))
}

// Adds an element without kids that is closed in its start tag.
fn push_closed<'a>(
    nodes: &mut Vec<Node<'a>>,
    text: &'a str,
    prefix: u32,
    name: u32,
) -> Result<(), AllocError> {
    if let Some(tag) = tag(text, prefix, name, Space::W) {
        nodes.push(Node::Elem(Elem::empty(tag)))?;
    }
    Ok(())
}

// Adds an element with these kids and an end tag, which has this white space.
fn push_opened<'a>(
    alloc: Global,
    nodes: &mut Vec<Node<'a>>,
    (text, prefix, name): (&'a str, u32, u32),
    space: &'a str,
    kids: Vec<Node<'a>>,
) -> Result<(), AllocError> {
    if let Some(tag) = tag(text, prefix, name, Space::W) {
        let elem = Elem::with_space(alloc, tag, kids, space.as_bytes())?;
        nodes.push(Node::Elem(elem))?;
    }
    Ok(())
}

const TEXT: &str =
    "<?xml version='1.0'?>\n<w:p><w:br w:type=\"page\"/><t>a &amp; b</t ><w:r></w:r\n></w:p>\n";

fn push_words(alloc: Global, nodes: &mut Vec<Node>) -> Result<(), AllocError> {
    let mut kids = Vec::new(alloc);
    kids.push(Node::Bytes(b"a &amp; b"))?;
    push_opened(alloc, nodes, ("t", 0, 1), " ", kids)
}

fn push_paragraph(alloc: Global, nodes: &mut Vec<Node>) -> Result<(), AllocError> {
    let mut kids = Vec::new(alloc);
    push_closed(&mut kids, "w:br w:type=\"page\"", 1, 4)?;
    push_words(alloc, &mut kids)?;
    push_opened(alloc, &mut kids, ("w:r", 1, 3), "\n", Vec::new(alloc))?;
    push_opened(alloc, nodes, ("w:p", 1, 3), "", kids)
}

// The nodes of `TEXT`.
fn document(alloc: Global) -> Result<Vec<Node<'static>>, AllocError> {
    let mut nodes = Vec::new(alloc);
    nodes.push(Node::Bytes(b"<?xml version='1.0'?>\n"))?;
    push_paragraph(alloc, &mut nodes)?;
    nodes.push(Node::Bytes(b"\n"))?;
    Ok(nodes)
}

// Whether nodes are written as this text.
fn is_written(alloc: Global, nodes: &[Node], want: &str) -> Result<bool, Fail> {
    let mut out = MemSink::new(alloc, 200, Vec::new(alloc))?;
    let answer = write_nodes(nodes, &mut out);
    Ok(answer == Ok(()) && out.bytes() == want.as_bytes())
}

fn is_closed_written(
    alloc: Global,
    text: &str,
    prefix: u32,
    name: u32,
    want: &str,
) -> Result<bool, Fail> {
    let mut nodes = Vec::new(alloc);
    push_closed(&mut nodes, text, prefix, name)?;
    is_written(alloc, &nodes, want)
}

fn is_opened_written(
    alloc: Global,
    text: (&str, u32, u32),
    space: &str,
    want: &str,
) -> Result<bool, Fail> {
    let mut nodes = Vec::new(alloc);
    push_opened(alloc, &mut nodes, text, space, Vec::new(alloc))?;
    is_written(alloc, &nodes, want)
}

#[test]
fn a_closed_element_has_its_text(rt: HostRuntime) -> Result<(), Fail> {
    let alloc = rt.alloc();
    for (text, prefix, name, want) in [
        ("w:p", 1, 3, "<w:p/>"),
        ("p", 0, 1, "<p/>"),
        (
            "w:t xml:space = 'preserve' ",
            1,
            3,
            "<w:t xml:space = 'preserve' />",
        ),
        ("html\n a=\"1\"", 0, 4, "<html\n a=\"1\"/>"),
    ] {
        assert!(rt;
            is_closed_written(alloc, text, prefix, name, want)?,
            "{want}"
        );
    }
    Ok(())
}

#[test]
fn an_element_with_an_end_tag_has_its_text(rt: HostRuntime) -> Result<(), Fail> {
    let alloc = rt.alloc();
    for (text, prefix, name, space, want) in [
        ("w:p", 1, 3, "", "<w:p></w:p>"),
        ("p", 0, 1, "", "<p></p>"),
        ("w:p", 1, 3, " \r\n\t", "<w:p></w:p \r\n\t>"),
        ("p a='1'", 0, 1, "\n", "<p a='1'></p\n>"),
    ] {
        assert!(rt;
            is_opened_written(alloc, (text, prefix, name), space, want)?,
            "{want}"
        );
    }
    Ok(())
}

// Whether deleted text is written so once it is live again.
fn is_live_written(
    alloc: Global,
    text: &str,
    prefix: u32,
    name: u32,
    want: &str,
) -> Result<bool, Fail> {
    let Some(tag) = tag(text, prefix, name, Space::W) else {
        return Ok(false);
    };
    let mut elem = Elem::with_kids(tag, Vec::new(alloc));
    elem.name_live();
    is_written(alloc, &[Node::Elem(elem)], want)
}

#[test]
fn live_text_has_its_name(rt: HostRuntime) -> Result<(), Fail> {
    let alloc = rt.alloc();
    for (text, prefix, name, want) in [
        ("w:delText a='1'", 1, 9, "<w:t a='1'></w:t>"),
        ("delText", 0, 7, "<t></t>"),
        ("w:delInstrText ", 1, 14, "<w:instrText ></w:instrText>"),
        ("w:del", 1, 5, "<w:del></w:del>"),
    ] {
        assert!(rt; is_live_written(alloc, text, prefix, name, want)?, "{want}");
    }
    Ok(())
}

// What an element is written as that is closed so and gets a kid.
fn is_filled_written(alloc: Global, space: Option<&str>, want: &str) -> Result<bool, Fail> {
    let Some(tag) = tag("w:p", 1, 3, Space::W) else {
        return Ok(false);
    };
    let mut elem = match space {
        Some(space) => Elem::with_space(alloc, tag, Vec::new(alloc), space.as_bytes())?,
        None => Elem::empty(tag),
    };
    let mut kids = elem.take_kids(alloc);
    kids.push(Node::Bytes(b"a"))?;
    elem.put_kids(kids);
    is_written(alloc, &[Node::Elem(elem)], want)
}

#[test]
fn an_element_that_gets_kids_has_an_end_tag(rt: HostRuntime) -> Result<(), Fail> {
    let alloc = rt.alloc();
    for (space, want) in [
        (None, "<w:p>a</w:p>"),
        (Some(""), "<w:p>a</w:p>"),
        (Some("\n"), "<w:p>a</w:p\n>"),
    ] {
        assert!(rt; is_filled_written(alloc, space, want)?, "{want}");
    }
    Ok(())
}

#[test]
fn nodes_have_their_text_and_number(rt: HostRuntime) -> Result<(), Fail> {
    let alloc = rt.alloc();
    let nodes = document(alloc)?;
    let same = is_written(alloc, &nodes, TEXT)? && is_written(alloc, &[], "")?;
    let counts = (count_nodes(&nodes), count_nodes(&[]));
    assert!(rt; same && counts == (7, 0), "{same} {counts:?}");
    Ok(())
}

// What a copy of an inserted element of another namespace has of these.
fn copied_labels(alloc: Global) -> Result<Option<(Space, Kind, u32)>, Fail> {
    let Some(mut elem) = named("ins", Space::Other) else {
        return Ok(None);
    };
    elem.set_label(Kind::Content(Trace::Ins), 7);
    let copies = copy_nodes(alloc, &[Node::Elem(elem)])?;
    match copies.first() {
        Some(Node::Elem(copy)) => Ok(Some((copy.space(), copy.kind(), copy.rev()))),
        _ => Ok(None),
    }
}

#[test]
fn a_copy_has_all_that_the_nodes_have(rt: HostRuntime) -> Result<(), Fail> {
    let alloc = rt.alloc();
    let copy = copy_nodes(alloc, &document(alloc)?)?;
    let same = is_written(alloc, &copy, TEXT)?;
    let got = copied_labels(alloc)?;
    let want = Some((Space::Other, Kind::Content(Trace::Ins), 7));
    assert!(rt; same && got == want, "{same} {got:?}");
    Ok(())
}

// How many bytes of a failed put are said to be taken, and whether the sink has a start of the text then. These puts fail, and
// there is this room.
fn start_in(
    alloc: Global,
    nodes: &[Node],
    room: usize,
    fails: Vec<(u64, u64)>,
) -> Result<(Option<usize>, bool), Fail> {
    let mut out = MemSink::new(alloc, room, fails)?;
    let taken = write_nodes(nodes, &mut out)
        .err()
        .map(|failed| failed.taken);
    let is_start = TEXT.as_bytes().starts_with(out.bytes()) && out.bytes().len() < TEXT.len();
    Ok((taken, is_start))
}

#[test]
fn a_start_goes_out_where_a_put_fails(rt: HostRuntime) -> Result<(), Fail> {
    let alloc = rt.alloc();
    let nodes = document(alloc)?;
    // The text goes out in 26 puts.
    for put in 1..26 {
        for taken in [0, 1] {
            let got = start_in(alloc, &nodes, 200, vec![in alloc; (put, taken)]?)?;
            let is_wanted = got == (Some(taken as usize), true);
            assert!(rt; is_wanted, "{taken} of put {put}: {got:?}");
        }
    }
    Ok(())
}

#[test]
fn a_start_goes_out_where_room_is_short(rt: HostRuntime) -> Result<(), Fail> {
    let alloc = rt.alloc();
    let nodes = document(alloc)?;
    for room in 0..TEXT.len() {
        let got = start_in(alloc, &nodes, room, Vec::new(alloc))?;
        assert!(rt; got == (Some(0), true), "with room {room}: {got:?}");
    }
    Ok(())
}

// Whether an element with this start tag, which has no prefix or one of a byte, has a name.
fn is_so_named(space: Space, text: &str, prefix: u32, name: &str) -> Option<bool> {
    let end = u32::try_from(text.len()).ok()?;
    let elem = Elem::empty(tag(text, prefix, end, space)?);
    Some(is_named(&elem, name.as_bytes()))
}

#[test]
fn a_name_is_of_one_space(rt: HostRuntime) -> Result<(), Fail> {
    for (text, prefix, space, name, want) in [
        ("w:ins", 1, Space::W, "ins", true),
        ("ins", 0, Space::W, "ins", true),
        ("w:ins", 1, Space::W, "Ins", false),
        ("w:ins", 1, Space::W, "in", false),
        ("w:ins", 1, Space::W, "inst", false),
        ("w:ins", 1, Space::W, "w:ins", false),
        ("w:ins", 1, Space::M, "ins", false),
        ("w:ins", 1, Space::Pkg, "ins", false),
        ("w:ins", 1, Space::Other, "ins", false),
        ("ins:w", 3, Space::W, "ins", false),
    ] {
        let got = is_so_named(space, text, prefix, name);
        assert!(rt; got == Some(want), "{text} of {space:?} is {name}");
    }
    Ok(())
}

// Whether an element is quiet, thick, and a wrapper.
fn sorts(space: Space, local: &str) -> Option<(bool, bool, bool)> {
    let elem = named(local, space)?;
    Some((is_quiet(&elem), is_thick(&elem), is_wrapper(&elem)))
}

#[test]
fn elements_are_quiet_thick_or_wrappers(rt: HostRuntime) -> Result<(), Fail> {
    for (local, space, want) in [
        ("pPr", Space::W, (true, false, false)),
        ("rPr", Space::W, (true, false, false)),
        ("sectPr", Space::W, (true, false, false)),
        ("tblPr", Space::W, (true, false, false)),
        ("tblPrEx", Space::W, (true, false, false)),
        ("trPr", Space::W, (true, false, false)),
        ("tcPr", Space::W, (true, false, false)),
        ("sdtPr", Space::W, (true, false, false)),
        ("sdtEndPr", Space::W, (true, false, false)),
        ("tblGrid", Space::W, (true, false, false)),
        ("ctrlPr", Space::M, (true, false, false)),
        ("ctrlPr", Space::W, (false, false, false)),
        ("rPr", Space::M, (false, false, false)),
        ("pPrChange", Space::W, (false, false, false)),
        ("p", Space::W, (false, true, false)),
        ("tbl", Space::W, (false, true, false)),
        ("sdt", Space::W, (false, true, true)),
        ("customXml", Space::W, (false, true, true)),
        ("altChunk", Space::W, (false, true, false)),
        ("bookmarkStart", Space::W, (false, false, false)),
        ("sdt", Space::Other, (false, true, false)),
        ("part", Space::Pkg, (false, true, false)),
        ("", Space::W, (false, false, false)),
    ] {
        let got = sorts(space, local);
        assert!(rt; got == Some(want), "{local} of {space:?}: {got:?}");
    }
    Ok(())
}

// What the ancestors on a path, the outermost first, are to an element in the last one, and the place of that one's kids.
fn down(path: &str) -> Option<(Around, Place)> {
    let mut around = Around::top();
    let mut place = Place::nowhere();
    for name in path.split_whitespace() {
        let elem = named(name, Space::W)?;
        around = around.inside(&elem);
        place = place.inside(&elem);
    }
    Some((around, place))
}

fn role_in(path: &str, name: &str) -> Option<Kind> {
    let (around, _) = down(path)?;
    let elem = named(name, Space::W)?;
    Some(around.role(&elem))
}

#[test]
fn an_element_has_its_role_by_its_place(rt: HostRuntime) -> Result<(), Fail> {
    for (path, name, want) in [
        ("", "del", Kind::Content(Trace::Del)),
        ("document body p", "ins", Kind::Content(Trace::Ins)),
        ("p ins r", "moveFrom", Kind::Content(Trace::From)),
        ("p r rPr", "ins", Kind::Plain),
        ("body p pPr rPr", "moveTo", Kind::Mark(Trace::To)),
        ("sdtPr p pPr rPr", "moveTo", Kind::Plain),
        ("tbl tr trPr", "ins", Kind::Row(Trace::Ins)),
        ("tbl tr trPr", "moveTo", Kind::Plain),
        ("tr tc tcPr", "cellDel", Kind::Cell(Trace::Del)),
        ("tr tc tcPr", "del", Kind::Plain),
        ("p r rPr", "rPrChange", Kind::Change(Prop::Run)),
        ("p pPr rPr", "rPrChange", Kind::Change(Prop::Run)),
        ("sdt sdtPr rPr", "rPrChange", Kind::Change(Prop::Run)),
        ("p pPr sdtPr rPr", "rPrChange", Kind::Plain),
        ("p pPr", "pPrChange", Kind::Change(Prop::Para)),
        ("body sectPr", "sectPrChange", Kind::Change(Prop::Sect)),
        ("p pPr sectPr", "sectPrChange", Kind::Change(Prop::Sect)),
        ("tbl tblPr", "tblPrChange", Kind::Change(Prop::Table)),
        ("tr tblPrEx", "tblPrExChange", Kind::Change(Prop::Except)),
        ("tr trPr", "trPrChange", Kind::Change(Prop::Row)),
        ("tc tcPr", "tcPrChange", Kind::Change(Prop::Cell)),
        ("tc", "tcPrChange", Kind::Plain),
        ("p", "moveToRangeStart", Kind::Plain),
    ] {
        let got = role_in(path, name);
        assert!(rt; got == Some(want), "{name} in {path}: {got:?}");
    }
    Ok(())
}

#[test]
fn kids_are_blocks_rows_or_cells(rt: HostRuntime) -> Result<(), Fail> {
    for (path, lot, reach) in [
        ("document body", Lot::Blocks, Reach::Direct),
        ("tbl tr tc", Lot::Blocks, Reach::Direct),
        ("body sdt", Lot::Blocks, Reach::Control),
        ("body sdt sdtContent customXml", Lot::Blocks, Reach::Direct),
        ("tbl", Lot::Rows, Reach::Direct),
        ("tbl sdt sdtContent", Lot::Rows, Reach::Direct),
        ("tbl tr customXml", Lot::Cells, Reach::Direct),
        ("body p", Lot::Blocks, Reach::Beyond),
        ("tbl sdt customXml", Lot::Blocks, Reach::Beyond),
        ("tbl p sdt sdtContent", Lot::Blocks, Reach::Beyond),
    ] {
        let got = down(path).map(|(_, place)| place);
        assert!(rt; got == Some(Place { lot, reach }), "{path}: {got:?}");
    }
    Ok(())
}
