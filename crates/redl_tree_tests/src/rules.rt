//! A check of whole packages answers the rule that each of them breaks: tables of bodies that break a rule, and of near ones
//! that break none, as outlines.

use crate::documents::read_package;
use redl_outline::{outline_text, package, part};
use redl_rules::{RuleError, check};
use std::alloc::{AllocError, Global};
use std::test::Fail;

// Attributes of outlines.
const OWN: &[(&str, &str)] = &[
    ("id", " w:id='1'"),
    ("name", " w:name='m' xmlns:id='u'"),
    ("declared", " xmlns:q='u'"),
    ("default", "\n xmlns = \"u\""),
    ("space", " xml:space='preserve' q:xmlns='u'"),
];

// A package with a document that has this body, and a further part with these data, both as outlines.
fn package_text(alloc: Global, body: &str, further: &str) -> Result<String, AllocError> {
    let mut parts = document_part(alloc, body)?;
    parts.push_str(part(alloc, "/b", outline_text(alloc, further, OWN)?.as_str())?.as_str())?;
    package(alloc, parts.as_str())
}

// The part with a document that has this body.
fn document_part(alloc: Global, body: &str) -> Result<String, AllocError> {
    let body = outline_text(alloc, body, OWN)?;
    let document = format!(in alloc;
        "<w:document xmlns:v='v'><w:body>{body}</w:body></w:document>"
    )?;
    part(alloc, "/a", document.as_str())
}

// What a check of that package answers.
fn answer(alloc: Global, body: &str, further: &str) -> Result<Result<(), RuleError>, Fail> {
    let text = package_text(alloc, body, further)?;
    let pkg = read_package(alloc, text.as_bytes())?;
    Ok(check(alloc, &pkg))
}

#[test]
fn a_broken_rule_is_answered(rt: HostRuntime) -> Result<(), Fail> {
    let alloc = rt.alloc();
    for (rule, body) in [
        (1, "tbl .tr ..tc ...p ...tbl ....tr .....tc ......p"),
        (1, "tbl .tr ..tc"),
        (1, "tbl .tr ..tc ...p ...sdt"),
        (1, "tbl .tr ..tc ...p ...customXml ....p ....o-p"),
        (1, "tbl .tr ..tc ...sdt ....p"),
        (
            1,
            "tbl .tr ..tc ...sdt ....sdtContent ....sdtContent .....o-p",
        ),
        (2, "tbl .tr"),
        (2, "tbl .tr ..sdt ...tc ....p"),
        (3, "p .ins ..p"),
        (3, "p .del ..r ...sectPr"),
        (3, "p .ins ..rPr"),
        (3, "p .sdt ..moveTo ...sdtContent"),
        (3, "ins .sdt"),
        (3, "ins .del ..o-x"),
        (4, "p .r ..rPr ...rPrChange ....rPr ...b"),
        (4, "tbl .tblPr ..tblPrChange ..tblPrChange"),
        (5, "p .pPr ..rPr ...ins ...ins"),
        (5, "p .pPr ..rPr ..rPr"),
        (5, "tbl .tr ..trPr ...del ...ins ...del ..tc ...p"),
        (5, "tbl .tr ..tc ...tcPr ....cellDel ....cellDel ...p"),
        (6, "p .r .pPr"),
        (6, "p .pPr .pPr"),
        (6, "tbl .tr ..trPr ..trPr ..tc ...p"),
        (6, "tbl .tr ..tc ...tcPr ...tcPr ...p"),
        (6, "sectPr p"),
        (6, "p .sdt ..sdtContent ..sdtContent"),
        // One of two contents ends well, which is enough for rule 1.
        (
            6,
            "tbl .tr ..tc ...sdt ....sdtContent .....p ....sdtContent .....o-p",
        ),
        (7, "p .moveFromRangeStart/id ..r"),
        (7, "moveToRangeEnd/id .p"),
        (8, "p .pPr ..pPrChange ...pPr ....rPr .....rPrChange"),
        (8, "p .pPr ..pPrChange ...pPr ....txbxContent"),
        (8, "p .pPr ..pPrChange ...p"),
        (9, "p/declared"),
        (9, "p/default"),
        (9, "p .ins/declared ..r"),
        (9, "p .pPr ..pPrChange/declared ...pPr"),
        (9, "p .pPr ..pPrChange ...o-pPr ...pPr/default"),
        // The reader keeps runs and properties as text.
        (1, "tbl .tr ..tc ...r ....t .....(x)"),
        (1, "tbl .tr ..tc ...p ...sdt ....sdtContent .....r"),
        (2, "tbl .tr ..trPr ...cantSplit ..bookmarkStart"),
        (3, "p .r ..t .del ..r ...t ..r ...sectPr"),
        (3, "ins .r .sdt .r"),
        (4, "p .r ..rPr ...b ...rPrChange ....rPr ...i ...u"),
        (4, "p .pPr ..jc ..pPrChange ...pPr ..keepNext"),
        (5, "p .pPr ..rPr ...b ...ins ...i ...ins ...u"),
        (6, "p .r ..t ...(x) .pPr"),
        (6, "p .pPr ..jc .r .pPr ..jc"),
        (6, "p sectPr .pgSz .cols bookmarkStart"),
        (7, "p .moveFromRangeStart/id ..r ...t ....(x)"),
        (
            8,
            "p .r ..t .r ..rPr ...rPrChange ....rPr .....b .....rPrChange",
        ),
        (9, "p .r ..t .ins/declared ..r ...t"),
    ] {
        let got = answer(alloc, body, "styles")?;
        assert!(rt; got == Err(RuleError::Broken(rule)), "{body}: {got:?}");
    }
    Ok(())
}

#[test]
fn near_ones_break_no_rule(rt: HostRuntime) -> Result<(), Fail> {
    let alloc = rt.alloc();
    for body in [
        "",
        "p .ins ..r ...t",
        "tbl .tr ..tc ...p ...bookmarkStart",
        "tbl .tr ..tc ...tbl ....tr .....tc ......p ...sdt ....sdtContent .....customXml ......p",
        "tbl .tr ..sdt ...sdtContent ....tc .....p",
        "p .ins ..r ...rPr ...txbxContent ....p .....pPr",
        "p .r ..rPr ...ins ....p",
        "ins .bookmarkStart",
        "p .r ..rPr ...b ...rPrChange ....rPr",
        "p .rPrChange .r",
        "p .pPr ..rPr ...ins ...del ...moveFrom ...moveTo",
        "p .pPr ..rPr ...rPrChange ....rPr .....ins .....ins",
        "p .pPr .r sectPr",
        "p .moveFromRangeStart/name ..r",
        "p .pPr ..moveFromRangeStart/id ...b",
        "p .pPr ..pPrChange ...pPr ....jc",
        "p/space",
        "p .r/declared",
        "p .pPr ..pPrChange ...pPr ...pPr/declared",
        "p .pPr ..pPrChange ...o-pPr/declared",
        // The reader keeps runs and properties as text.
        "p .r ..rPr ...b ..t ...(x) ..tab .ins ..r ...t ....(y) .r ..rPr ...i",
        "p .pPr ..jc ..rPr ...b ...ins ...i .r .r ..t sectPr .pgSz .cols",
        "tbl .tblPr ..tblStyle .tblGrid ..gridCol .tr ..trPr ...cantSplit ...ins ..tc ...tcPr ....tcW ...p ....r .....t ...bookmarkStart",
        "p .r ..rPr ...b ...rPrChange ....rPr .....i ..t .r ..t/declared",
        "p .r ..rPr ..rPr",
        "tbl .tr ..tc ...p ....r ...r ....t .....(x)",
    ] {
        let got = answer(alloc, body, "styles")?;
        assert!(rt; got == Ok(()), "{body}: {got:?}");
    }
    Ok(())
}

#[test]
fn the_least_rule_of_all_stories_is_answered(rt: HostRuntime) -> Result<(), Fail> {
    let alloc = rt.alloc();
    for (body, further, want) in [
        ("p/declared p .r .pPr", "hdr .p", Err(RuleError::Broken(6))),
        ("p .r .pPr", "hdr .p/declared", Err(RuleError::Broken(6))),
        ("p/declared", "ftr .ins ..r", Err(RuleError::Broken(9))),
        ("p/declared", "ftr .p ..ins ...p", Err(RuleError::Broken(3))),
        (
            "p",
            "footnotes .footnote ..p ...r ...pPr",
            Err(RuleError::Broken(6)),
        ),
        (
            "p",
            "comments .comment ..ins ...p",
            Err(RuleError::Broken(3)),
        ),
        ("p", "styles .p ..r ..pPr", Ok(())),
        ("p", "o-hdr .p ..r ..pPr", Ok(())),
    ] {
        let got = answer(alloc, body, further)?;
        assert!(rt; got == want, "{body} and {further}: {got:?}");
    }
    Ok(())
}
