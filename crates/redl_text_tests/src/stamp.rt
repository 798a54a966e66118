//! Tables of dates with their seconds, and of tags' tails with the values in them. The seconds are the calendar's.
use redl_io::Text;
use redl_stamp::{attribute, has_attribute, read_moment, read_stamp};
use std::alloc::{AllocError, Global};
use std::test::Fail;

#[test]
fn a_date_names_its_second(rt: HostRuntime) {
    for (text, want) in [
        ("2024-05-06T07:08:09Z", Some(1_714_979_289)),
        ("2024-05-06T07:08:09", Some(1_714_979_289)),
        ("2024-05-06T07:08:09.5", Some(1_714_979_289)),
        ("2024-05-06T07:08:09.999999999Z", Some(1_714_979_289)),
        ("2024-05-06T09:08:10+02:00", Some(1_714_979_290)),
        ("2024-05-06T01:38:10-05:30", Some(1_714_979_290)),
        ("1970-01-01T00:00:00+14:00", Some(-50_400)),
        ("1970-01-01T00:00:00-14:59", Some(53_940)),
        ("1969-12-31T23:59:59Z", Some(-1)),
        ("2000-02-29T00:00:00Z", Some(951_782_400)),
        ("2024-02-29T12:00:00Z", Some(1_709_208_000)),
        ("0000-01-01T00:00:00Z", Some(-62_167_219_200)),
        ("0000-02-29T00:00:00Z", Some(-62_162_121_600)),
        ("9999-12-31T23:59:59.1+14:59", Some(253_402_246_859)),
        ("", None),
        ("2024-05-06", None),
        ("2024-05-06T07:08Z", None),
        ("12024-05-06T07:08:09Z", None),
        ("-2024-05-06T07:08:09Z", None),
        ("2024-05-06 07:08:09Z", None),
        ("2024-05-06t07:08:09Z", None),
        (" 2024-05-06T07:08:09Z", None),
        ("2024-05-06T07:08:09ZZ", None),
        ("2024-13-06T07:08:09Z", None),
        ("2024-04-31T07:08:09Z", None),
        ("1900-02-29T00:00:00Z", None),
        ("2024-05-06T24:00:00Z", None),
        ("2024-05-06T07:08:60Z", None),
        ("2024-05-06T07:08:09.Z", None),
        ("2024-05-06T07:08:09.1234567890Z", None),
        ("2024-05-06T07:08:09+15:00", None),
        ("2024-05-06T07:08:09+0200", None),
        ("2024-05-06T07:08:0\u{0669}Z", None),
        ("0000-01-01T00:00:00+00:01", None),
        ("9999-12-31T23:59:59-00:01", None),
    ] {
        let seconds = read_moment(text);
        assert!(rt; seconds == want, "{text}: {seconds:?}");
    }
}

// Whether the optional text has these characters.
fn is_text(text: &Option<Text>, want: Option<&str>) -> bool {
    match (text, want) {
        (Some(text), Some(want)) => text.as_bytes() == want.as_bytes(),
        (None, None) => true,
        _ => false,
    }
}

// Whether the tail has this value, or none.
fn has_value(
    alloc: Global,
    tail: &str,
    local: &str,
    want: Option<&str>,
) -> Result<bool, AllocError> {
    let found = attribute(alloc, tail.as_bytes(), local.as_bytes())?;
    let is_there = has_attribute(tail.as_bytes(), local.as_bytes());
    Ok(is_text(&found, want) && is_there == want.is_some())
}

#[test]
fn the_first_attribute_with_the_local_name_counts(rt: HostRuntime) -> Result<(), Fail> {
    for (tail, local, want) in [
        (" a='1' b='2'", "b", Some("2")),
        (" w:id='1' id='2'", "id", Some("1")),
        (" id='2'\n\tw:id = '1' ", "id", Some("2")),
        (" xmlns:id='u' w:id='1'", "id", Some("1")),
        (" xmlns:id='u'", "id", None),
        (" ids='1' ID='2' id:x='3'", "id", None),
        (" id=''", "id", Some("")),
        (" id='a&amp;b&#65;&quot;'", "id", Some("a&bA\"")),
        (" id=\"a\r\nb\tc'\"", "id", Some("a b c'")),
        ("\n", "id", None),
    ] {
        assert!(rt; has_value(rt.alloc(), tail, local, want)?, "{tail}");
    }
    Ok(())
}

// Whether the tail has this author, second, name and id.
fn has_stamp(
    alloc: Global,
    tail: &str,
    author: &str,
    seconds: Option<i64>,
    names: (Option<&str>, Option<&str>),
) -> Result<bool, AllocError> {
    let stamp = read_stamp(alloc, tail.as_bytes())?;
    Ok(
        stamp.author.as_bytes() == author.as_bytes()
            && stamp.seconds == seconds
            && is_text(&stamp.name, names.0)
            && is_text(&stamp.id, names.1),
    )
}

#[test]
fn a_stamp_has_what_the_tag_says(rt: HostRuntime) -> Result<(), Fail> {
    for (tail, author, seconds, names) in [
        (
            " w:id=\"7\" w:author=\"Ann &amp; Bob\" w:date=\"2024-05-06T07:08:09Z\" w:name='m'",
            "Ann & Bob",
            Some(1_714_979_289),
            (Some("m"), Some("7")),
        ),
        (" w:date='yesterday'", "", None, (None, None)),
    ] {
        assert!(rt;
            has_stamp(rt.alloc(), tail, author, seconds, names)?,
            "{tail}"
        );
    }
    Ok(())
}
