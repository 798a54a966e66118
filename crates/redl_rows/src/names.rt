//! The names that stand for longer texts in rows.

use std::alloc::{AllocError, Global};

/// What stands before the body of a package with one part, and behind it.
pub(crate) const FRONT: &str = "{package}{document}";

pub(crate) const BACK: &str = "{/document}{/package}";

// Each name and its text. A text that holds another one comes first.
const NAMES: [(&str, &str); 28] = [
    (
        "{A}",
        " w:id=\"1\" w:author=\"Ann\" w:date=\"2024-05-06T07:08:09Z\"",
    ),
    (
        "{B}",
        " w:id=\"2\" w:author=\"Bob\" w:date=\"2024-05-06T09:08:10+02:00\"",
    ),
    ("{C}", " w:id=\"3\" w:author=\"Cy &amp; Co\""),
    (
        "{package}",
        "<?xml version=\"1.0\" encoding=\"UTF-8\"?><pkg:package xmlns:pkg=\"http://schemas.microsoft.com/office/2006/xmlPackage\">",
    ),
    ("{/package}", "</pkg:package>"),
    (
        "{document}",
        "<pkg:part pkg:name=\"/word/document.xml\" pkg:contentType=\"application/vnd.openxmlformats-officedocument.wordprocessingml.document.main+xml\"><pkg:xmlData><w:document xmlns:w=\"http://schemas.openxmlformats.org/wordprocessingml/2006/main\"><w:body>",
    ),
    (
        "{/document}",
        "</w:body></w:document></pkg:xmlData></pkg:part>",
    ),
    (
        "{header}",
        "<pkg:part pkg:name=\"/word/header1.xml\" pkg:contentType=\"application/vnd.openxmlformats-officedocument.wordprocessingml.header+xml\"><pkg:xmlData><w:hdr xmlns:w=\"http://schemas.openxmlformats.org/wordprocessingml/2006/main\">",
    ),
    ("{/header}", "</w:hdr></pkg:xmlData></pkg:part>"),
    (
        "{footer}",
        "<pkg:part pkg:name=\"/word/footer1.xml\" pkg:contentType=\"application/vnd.openxmlformats-officedocument.wordprocessingml.footer+xml\"><pkg:xmlData><w:ftr xmlns:w=\"http://schemas.openxmlformats.org/wordprocessingml/2006/main\">",
    ),
    ("{/footer}", "</w:ftr></pkg:xmlData></pkg:part>"),
    (
        "{footnotes}",
        "<pkg:part pkg:name=\"/word/footnotes.xml\" pkg:contentType=\"application/vnd.openxmlformats-officedocument.wordprocessingml.footnotes+xml\"><pkg:xmlData><w:footnotes xmlns:w=\"http://schemas.openxmlformats.org/wordprocessingml/2006/main\">",
    ),
    ("{/footnotes}", "</w:footnotes></pkg:xmlData></pkg:part>"),
    (
        "{endnotes}",
        "<pkg:part pkg:name=\"/word/endnotes.xml\" pkg:contentType=\"application/vnd.openxmlformats-officedocument.wordprocessingml.endnotes+xml\"><pkg:xmlData><w:endnotes xmlns:w=\"http://schemas.openxmlformats.org/wordprocessingml/2006/main\">",
    ),
    ("{/endnotes}", "</w:endnotes></pkg:xmlData></pkg:part>"),
    (
        "{numbering}",
        "<pkg:part pkg:name=\"/word/_rels/document.xml.rels\" pkg:contentType=\"application/vnd.openxmlformats-package.relationships+xml\"><pkg:xmlData><Relationships xmlns=\"http://schemas.openxmlformats.org/package/2006/relationships\"><Relationship Id=\"rId1\" Type=\"http://schemas.openxmlformats.org/officeDocument/2006/relationships/numbering\" Target=\"numbering.xml\"/></Relationships></pkg:xmlData></pkg:part><pkg:part pkg:name=\"/word/numbering.xml\" pkg:contentType=\"application/vnd.openxmlformats-officedocument.wordprocessingml.numbering+xml\"><pkg:xmlData><w:numbering xmlns:w=\"http://schemas.openxmlformats.org/wordprocessingml/2006/main\">",
    ),
    ("{/numbering}", "</w:numbering></pkg:xmlData></pkg:part>"),
    (
        "{comments}",
        "<pkg:part pkg:name=\"/word/comments.xml\" pkg:contentType=\"application/vnd.openxmlformats-officedocument.wordprocessingml.comments+xml\"><pkg:xmlData><w:comments xmlns:w=\"http://schemas.openxmlformats.org/wordprocessingml/2006/main\">",
    ),
    ("{/comments}", "</w:comments></pkg:xmlData></pkg:part>"),
    (
        "{page}",
        "<!DOCTYPE html>\n<html lang=\"en\">\n<head>\n<meta charset=\"utf-8\">\n<meta http-equiv=\"Content-Security-Policy\" content=\"default-src 'none'\">\n<meta name=\"viewport\" content=\"width=device-width, initial-scale=1\">\n<title>Redline: changes to decide</title>\n<style>p{}</style>\n</head>\n<body data-document=\"",
    ),
    (
        "{titled}",
        "<!DOCTYPE html>\n<html lang=\"en\">\n<head>\n<meta charset=\"utf-8\">\n<meta http-equiv=\"Content-Security-Policy\" content=\"default-src 'none'\">\n<meta name=\"viewport\" content=\"width=device-width, initial-scale=1\">\n<title>",
    ),
    (
        "{/titled}",
        "</title>\n<style>p{}</style>\n</head>\n<body data-document=\"",
    ),
    (
        "{changes}",
        "</main>\n<aside aria-label=\"Changes\">\n<noscript><p>Deciding needs the script of this page, which does not run here. The words below are what the journals say.</p></noscript>\n<ol>\n",
    ),
    (
        "{/page}",
        "</ul>\n<ul class=\"remarks\" hidden>\n</ul>\n<ul class=\"pictures\" hidden>\n</ul>\n</aside>\n<script>1 < 2</script>\n</body>\n</html>\n",
    ),
    (
        "{/lists}",
        "</ul>\n</aside>\n<script>1 < 2</script>\n</body>\n</html>\n",
    ),
    ("{n}", "\n"),
    ("{r}", "\r"),
    ("{t}", "\t"),
];

/// The text with what its names stand for.
pub(crate) fn spell_out(alloc: Global, text: &str) -> Result<String, AllocError> {
    let mut whole = String::from_str(alloc, text)?;
    for (name, long) in NAMES {
        whole = whole.replace(alloc, name, long)?;
    }
    Ok(whole)
}

/// The text with names in it, and only the body where all else is that of a package with one part.
pub(crate) fn name_parts(alloc: Global, text: &str) -> Result<String, AllocError> {
    let mut named = String::from_str(alloc, text)?;
    for (name, long) in NAMES {
        named = named.replace(alloc, long, name)?;
    }
    let body = named
        .strip_prefix(FRONT)
        .and_then(|rest| rest.strip_suffix(BACK));
    match body {
        Some(body) => String::from_str(alloc, body),
        None => Ok(named),
    }
}
