//! Tables of what no clause of `redl_markup` says: that its grammar is the one of XML 1.0 and Namespaces in XML 1.0, and
//! that calls succeed with ample memory, in time that grows no faster than the text.
use redl_grammar::Section;
use redl_markup::{MarkupError, Name, Piece, decode_value, is_text, next_attribute, next_piece};
use std::alloc::{AllocError, Global};
use std::test::Fail;

// The bytes as a text.
fn shown(bytes: &[u8]) -> &str {
    str::from_utf8(bytes).unwrap_or("not UTF-8")
}

// The first piece: its kind, its prefix and local name, and its tail, white space or text.
fn first_piece(alloc: Global, text: &[u8], place: Section) -> (&'static str, &[u8], &[u8], &[u8]) {
    match next_piece(alloc, &mut Vec::new(alloc), text, place) {
        Ok((Piece::Start(tag), _)) => ("start", tag.name().prefix, tag.name().local, tag.tail()),
        Ok((Piece::Empty(tag), _)) => ("empty", tag.name().prefix, tag.name().local, tag.tail()),
        Ok((Piece::End(name, space), _)) => ("end", name.prefix, name.local, space),
        Ok((Piece::Stretch(stretch), _)) => ("stretch", b"", b"", stretch),
        Err(MarkupError::Unreadable) => ("unreadable", b"", b"", b""),
        Err(MarkupError::NoMemory) => ("out of memory", b"", b"", b""),
    }
}

const TAGS: &[(&str, &str, &str, &str, &str)] = &[
    (
        "<a b='1' c = \"2\" ></a >",
        "start",
        "",
        "a",
        " b='1' c = \"2\" ",
    ),
    ("</a >", "end", "", "a", " "),
    ("</w:p>x", "end", "w", "p", ""),
    ("<a/>", "empty", "", "a", ""),
    ("<a\t\r\n/> ", "empty", "", "a", "\t\r\n"),
    (
        "<a b=\n'1'\tc\r=\"2\" />",
        "empty",
        "",
        "a",
        " b=\n'1'\tc\r=\"2\" ",
    ),
    (
        "<w:p w:x=\">\" y='\"'>",
        "start",
        "w",
        "p",
        " w:x=\">\" y='\"'",
    ),
    (
        "<a x='&amp;&#65;&#x10FFFF;'/>",
        "empty",
        "",
        "a",
        " x='&amp;&#65;&#x10FFFF;'",
    ),
    (
        "<a x='1' p:x='2' X='3'/>",
        "empty",
        "",
        "a",
        " x='1' p:x='2' X='3'",
    ),
    (
        "<\u{C0}\u{B7}.-_9\u{203F}\u{300}>",
        "start",
        "",
        "\u{C0}\u{B7}.-_9\u{203F}\u{300}",
        "",
    ),
    ("<_p:Az09.-_>", "start", "_p", "Az09.-_", ""),
    ("<a\u{E9}b:c\u{F8}d>", "start", "a\u{E9}b", "c\u{F8}d", ""),
    (
        "<\u{10000}:\u{3001}/>",
        "empty",
        "\u{10000}",
        "\u{3001}",
        "",
    ),
    (
        "<\u{EFFFF} \u{3001}=''/>",
        "empty",
        "",
        "\u{EFFFF}",
        " \u{3001}=''",
    ),
];

#[test]
fn tags_have_a_name_and_a_tail(rt: HostRuntime) {
    for &(text, kind, prefix, local, tail) in TAGS {
        let got = first_piece(rt.alloc(), text.as_bytes(), Section::InElement);
        let want = (kind, prefix.as_bytes(), local.as_bytes(), tail.as_bytes());
        assert!(rt; got == want, "{text}: {got:?}");
    }
}

// The text of the start tag at the front, how many attributes it has, and the name of the last one.
fn start_tag(alloc: Global, text: &[u8]) -> Option<(&[u8], usize, Name<'_>)> {
    let Ok((Piece::Start(tag), _)) = next_piece(
        alloc,
        &mut Vec::new(alloc),
        text,
        Section::InElement,
    ) else {
        return None;
    };
    let names = tag.attributes();
    Some((tag.text(), names.len(), *names.last()?))
}

#[test]
fn a_start_tag_has_its_text_and_the_names_of_its_attributes(rt: HostRuntime) {
    let name = Name {
        prefix: b"w",
        local: b"y",
    };
    let got = start_tag(rt.alloc(), b"<w:p x = '1'\tw:y=\"2\" >z");
    let want = (b"w:p x = '1'\tw:y=\"2\" ".as_slice(), 2, name);
    assert!(rt; got == Some(want), "{got:?}");
}

const STRETCHES: &[(Section, &str, &str)] = &[
    (Section::BeforeRoot, "\u{FEFF}<a/>", "\u{FEFF}"),
    (
        Section::BeforeRoot,
        "<?xml version=\"1.0\"?><a/>",
        "<?xml version=\"1.0\"?>",
    ),
    (
        Section::BeforeRoot,
        "\u{FEFF}<?xml version='1.10' encoding = 'utf-8' standalone='yes' ?>\n<a/>",
        "\u{FEFF}<?xml version='1.10' encoding = 'utf-8' standalone='yes' ?>\n",
    ),
    (
        Section::BeforeRoot,
        "<?xml\tversion = '1.0'\r\nstandalone\n=\t\"no\" \n?><a/>",
        "<?xml\tversion = '1.0'\r\nstandalone\n=\t\"no\" \n?>",
    ),
    (
        Section::BeforeRoot,
        " \t<!--c--><?xml-s a?>\r\n<a/>",
        " \t<!--c--><?xml-s a?>\r\n",
    ),
    (Section::BeforeRoot, "<?p?>", "<?p?>"),
    (
        Section::AfterRoot,
        " \r\n<!--c--><?p a?b >?>",
        " \r\n<!--c--><?p a?b >?>",
    ),
    (
        Section::InElement,
        "<![CDATA[<b>]]>&lt;</a>",
        "<![CDATA[<b>]]>&lt;",
    ),
    (
        Section::InElement,
        "]] > ]]&gt;<![CDATA[]]]]><!----><!-- - & <b> - - -->\"'=/;#</a>",
        "]] > ]]&gt;<![CDATA[]]]]><!----><!-- - & <b> - - -->\"'=/;#",
    ),
    (
        Section::InElement,
        "&amp;&lt;&gt;&quot;&apos;&#9;&#0065;&#x0041;&#xfFfD;&#x10FFFF;&#1114111;<b>",
        "&amp;&lt;&gt;&quot;&apos;&#9;&#0065;&#x0041;&#xfFfD;&#x10FFFF;&#1114111;",
    ),
    (Section::InElement, "<?a:b:c ?> ??>x<b/>", "<?a:b:c ?> ??>x"),
    (
        Section::InElement,
        "<?:p\u{B7} text > <b>?>",
        "<?:p\u{B7} text > <b>?>",
    ),
    (Section::InElement, "\u{FEFF}<a/>", "\u{FEFF}"),
];

#[test]
fn stretches_are_as_long_as_they_can_be(rt: HostRuntime) {
    for &(place, text, want) in STRETCHES {
        let got = first_piece(rt.alloc(), text.as_bytes(), place).3;
        assert!(rt; got == want.as_bytes(), "{text} {place:?}: {got:?}");
    }
}

const WRONG_TAGS: &[&str] = &[
    "",
    "<",
    "</",
    "<>",
    "</>",
    "< a>",
    "<a",
    "<a/",
    "<a /",
    "<a / >",
    "<1>",
    "<-a>",
    "<.a/>",
    "<:a>",
    "<a:>",
    "<a:b:c>",
    "<a:1>",
    "<\u{B7}/>",
    "<\u{D7}>",
    "<\u{37E}>",
    "<a\u{2041}>",
    "<a+/>",
    "</a",
    "</ a>",
    "</a/>",
    "</a b='1'>",
    "<a b>",
    "<a b=>",
    "<a b=1>",
    "<a b='1/>",
    "<a b='1\">",
    "<a b='1''/>",
    "<a b='1'c='2'>",
    "<ab='1'>",
    "<a 1='1'/>",
    "<a b:='1'/>",
    "<a ='1'/>",
    "<a = '1'>",
    "<a b='1'/",
    "<a b='1'/ >",
    "<a b='1' c>",
    "<a b='<'>",
    "<a b='&'>",
    "<a b='&lt'>",
    "<a b='&nbsp;'>",
    "<a b='&#0;'/>",
    "<a x=\"1\" x=\"2\"/>",
    "<a p:x='1' y='' p:x='2'>",
    "<a xmlns='u' xmlns='u'/>",
];

const WRONG_ITEMS: &[&str] = &[
    "]]></a>",
    "x]]]><a/>",
    "<!-- x -- y --></a>",
    "<!-- x ---></a>",
    "<!--></a>",
    "<!---></a>",
    "<!- x --></a>",
    "<!-->",
    "<!--",
    "<!-- x </a>",
    "<![CDATA[x",
    "<![CDATA[x]]",
    "<![CDATA[x]></a>",
    "<![cdata[x]]>",
    "<!DOCTYPE a>",
    "x<!DOCTYPE a>",
    "<!ELEMENT a>",
    "<?xml version='1.0'?>",
    "<?XmL a?>",
    "<?XmL?>",
    "<?p+?>",
    "<?1?>",
    "<? p?>",
    "<??>",
    "<?p ?",
];

const WRONG_REFERENCES: &[&str] = &[
    "&",
    "& </a>",
    "&;",
    "&amp",
    "&AMP;",
    "&nbsp;",
    "&#0;</a>",
    "&#;",
    "&#x;",
    "&#X41;",
    "&#8;",
    "&#4A;",
    "&#x4G;",
    "&#65</a>",
    "&#xD800;",
    "&#xFFFE;",
    "&#x110000;",
    "&#99999999999999999999;",
    "&#x41",
    "&#41a;",
];

const WRONG_BEFORE_ROOT: &[&str] = &[
    "x<a/>",
    "&lt;<a/>",
    "\u{A0}<a/>",
    "<![CDATA[]]><a/>",
    "<!-- x -- y --><a/>",
    "<?p+?><a/>",
    "<!DOCTYPE a><a/>",
    "<?xml version='1.0'?><!DOCTYPE a []><a/>",
    " \u{FEFF}<a/>",
    "\u{FEFF}\u{FEFF}<a/>",
    " <?xml version='1.0'?><a/>",
    "<!--c--><?xml version='1.0'?><a/>",
    "<?xml version='1.0'?><?xml version='1.0'?><a/>",
    "<?xml?><a/>",
    "<?xml ?><a/>",
    "<?XML version='1.0'?><a/>",
    "<?xmlversion='1.0'?><a/>",
    "<?xml version='1'?><a/>",
    "<?xml version='1.'?><a/>",
    "<?xml version='2.0'?><a/>",
    "<?xml version='1.0a'?><a/>",
    "<?xml version='1.0.1'?><a/>",
    "<?xml version=''?><a/>",
    "<?xml version=1.0?><a/>",
    "<?xml version='1.0\"?><a/>",
    "<?xml version='1.0'><a/>",
    "<?xml version='1.0' ?a?><a/>",
    "<?xml version='1.0' x='y'?><a/>",
    "<?xml version='1.0' version='1.0'?><a/>",
    "<?xml encoding='UTF-8'?><a/>",
    "<?xml encoding='UTF-8' version='1.0'?><a/>",
    "<?xml version='1.0'encoding='UTF-8'?><a/>",
    "<?xml version='1.0' encoding=''?><a/>",
    "<?xml version='1.0' encoding='UTF8'?><a/>",
    "<?xml version='1.0' encoding='UTF-16'?><a/>",
    "<?xml version='1.0' encoding='ISO-8859-1'?><a/>",
    "<?xml version='1.0' standalone='Yes'?><a/>",
    "<?xml version='1.0' standalone='maybe'?><a/>",
    "<?xml version='1.0' standalone=''?><a/>",
    "<?xml version='1.0' standalone='no' encoding='UTF-8'?><a/>",
];

const WRONG_AFTER_ROOT: &[&str] = &[
    "x",
    "&#32;",
    "\u{85}",
    "\u{FEFF}",
    "<![CDATA[]]>",
    "<!--c",
    "<!DOCTYPE a>",
    "<?xml version='1.0'?>",
];

#[test]
fn other_texts_have_no_piece_at_their_start(rt: HostRuntime) {
    for (place, texts) in [
        (Section::InElement, WRONG_TAGS),
        (Section::InElement, WRONG_ITEMS),
        (Section::InElement, WRONG_REFERENCES),
        (Section::BeforeRoot, WRONG_BEFORE_ROOT),
        (Section::AfterRoot, WRONG_AFTER_ROOT),
    ] {
        for text in texts {
            let got = first_piece(rt.alloc(), text.as_bytes(), place).0;
            assert!(rt; got == "unreadable", "{text} {place:?}: {got}");
        }
    }
}

const CHARACTERS: &[(&[u8], bool)] = &[
    (b"", true),
    (b"\t\n\r \x7F\xC2\x80", true),
    (b"\xEF\xBB\xBF<a/>", true),
    (
        b"\xED\x9F\xBF\xEE\x80\x80\xEF\xBF\xBD\xF0\x90\x80\x80\xF4\x8F\xBF\xBF",
        true,
    ),
    (
        b"<w:t>a text of more than sixty-four bytes, so that a block of it is tested\t\r\n</w:t>",
        true,
    ),
    (
        b"<w:t>a text of more than sixty-four bytes,\x0Bso that a block of it is tested</w:t>",
        false,
    ),
    (
        b"<w:t>a text of more than sixty-four bytes, so that a block of it is tested\x0B</w:t>",
        false,
    ),
    (
        b"<w:t>a text of more than sixty-four bytes, \xEF\xBB\xBF so that a block of it is tested</w:t>",
        true,
    ),
    (
        b"<w:t>a text of more than sixty-four bytes, \xEF\xBF\xBF so that a block of it is tested</w:t>",
        false,
    ),
    (b"\x00", false),
    (b"a\x08", false),
    (b"a\x0B", false),
    (b"a\x0C", false),
    (b"a\x0E", false),
    (b"\x1F", false),
    (b"\xEF\xBF\xBE", false),
    (b"\xEF\xBF\xBF", false),
    (b"\xED\xA0\x80", false),
    (b"\xED\xBF\xBF", false),
    (b"\xC0\x80", false),
    (b"\xE0\x9F\xBF", false),
    (b"\xF0\x8F\xBF\xBF", false),
    (b"a\x80", false),
    (b"\xF4\x90\x80\x80", false),
    (b"\xE2\x82", false),
    (b"\xFF\xFE<\0a\0/\0>\0", false),
];

#[test]
fn texts_have_allowed_characters(rt: HostRuntime) {
    for &(bytes, want) in CHARACTERS {
        let got = is_text(bytes);
        assert!(rt; got == want, "{bytes:?}: {got}");
    }
}

// The first attribute: its prefix, its local name and its value, and the rest of the tail.
fn first_attribute(tail: &str) -> Option<(&str, &str, &str, &str)> {
    let (attribute, rest) = next_attribute(tail.as_bytes())?;
    let name = attribute.name;
    Some((
        shown(name.prefix),
        shown(name.local),
        shown(attribute.value),
        shown(rest),
    ))
}

#[test]
fn attributes_come_one_after_the_other(rt: HostRuntime) {
    for (tail, want) in [
        (
            "\n w:id = \"1\" xmlns:w='a&amp;b' ",
            Some(("w", "id", "1", " xmlns:w='a&amp;b' ")),
        ),
        (" xmlns:w='a&amp;b' ", Some(("xmlns", "w", "a&amp;b", " "))),
        (" date=''", Some(("", "date", "", ""))),
        (" ", None),
    ] {
        let got = first_attribute(tail);
        assert!(rt; got == want, "{tail}: {got:?}");
    }
}

fn is_decoded_as(alloc: Global, value: &str, want: &str) -> bool {
    match decode_value(alloc, value.as_bytes()) {
        Ok(text) => text.as_slice() == want.as_bytes(),
        Err(_) => false,
    }
}

#[test]
fn values_are_decoded(rt: HostRuntime) {
    for (value, want) in [
        ("", ""),
        ("Cy &amp; Co", "Cy & Co"),
        ("&lt;&gt;&quot;&apos;&amp;lt;", "<>\"'&lt;"),
        ("a\tb\nc\rd\r\ne\r\r\nf", "a b c d e  f"),
        (
            "&#9;&#xA;&#13;&#x20AC;&#x10FFFF;",
            "\t\n\r\u{20AC}\u{10FFFF}",
        ),
        ("\r&#10;", " \n"),
        ("\u{20AC}\u{2003}", "\u{20AC}\u{2003}"),
    ] {
        assert!(rt; is_decoded_as(rt.alloc(), value, want), "{value}");
    }
}

// A start, a part so many times, and an end.
fn repeated(
    alloc: Global,
    start: &str,
    part: &str,
    times: u32,
    end: &str,
) -> Result<Vec<u8>, AllocError> {
    let mut text = start.as_bytes().to_vec(alloc)?;
    for _ in 0..times {
        text.extend_from_slice(part.as_bytes())?;
    }
    text.extend_from_slice(end.as_bytes())?;
    Ok(text)
}

// Whether such a text begins with a piece of this kind.
fn begins_with(
    alloc: Global,
    start: &str,
    part: &str,
    end: &str,
    want: &str,
) -> Result<bool, AllocError> {
    let text = repeated(alloc, start, part, 2_000_000, end)?;
    Ok(first_piece(alloc, &text, Section::InElement).0 == want)
}

// A reading that took more than linear time would hardly end here, nor in the next test.
#[test]
fn a_piece_may_have_megabytes(rt: HostRuntime) -> Result<(), Fail> {
    for (start, part, end, want) in [
        ("", "]]", "", "stretch"),
        ("", "&&", "", "unreadable"),
        ("<!--", "- ", "-->", "stretch"),
        ("&#x", "00", "41;", "stretch"),
    ] {
        assert!(rt; begins_with(rt.alloc(), start, part, end, want)?, "{part}");
    }
    Ok(())
}

fn push_attribute(alloc: Global, tag: &mut Vec<u8>, number: u32) -> Result<(), Fail> {
    tag.extend_from_slice(format!(in alloc; " x{number}='&amp;'")?.as_bytes())?;
    Ok(())
}

#[test]
fn a_tag_may_have_a_hundred_thousand_attributes(rt: HostRuntime) -> Result<(), Fail> {
    let mut tag = b"<a".to_vec(rt.alloc())?;
    for number in 0..100_000u32 {
        push_attribute(rt.alloc(), &mut tag, number)?;
    }
    tag.extend_from_slice(b"/>")?;
    assert!(rt; first_piece(rt.alloc(), &tag, Section::InElement).0 == "empty");
    Ok(())
}
