//! The structure rules, each in a sentence.

ghost use Rattle.std.specs.Prelude.{◌≡◌};

/// What structure rule says that has this digit, or nothing for another byte.
pub(crate) fn sentence_of_rule(digit: u8) -> Option<&'static str> {
    match digit {
        b'1' => Some("structure rule 1: a table cell has to end with a paragraph"),
        b'2' => Some("structure rule 2: a table row has to have a cell"),
        b'3' => Some(
            "structure rule 3: an insertion or deletion may hold only what stands in a paragraph",
        ),
        b'4' => Some(
            "structure rule 4: a change of properties has to be the last element of its properties, and the only one",
        ),
        b'5' => Some(
            "structure rule 5: a paragraph's mark, a row or a cell may have each kind of change once",
        ),
        b'6' => Some(
            "structure rule 6: properties may stand only once, and at their place at the front",
        ),
        b'7' => Some("structure rule 7: the marker of a move has to be empty"),
        b'8' => Some(
            "structure rule 8: a change of properties may hold only the former properties",
        ),
        b'9' => Some("structure rule 9: what a decision may remove must not declare a namespace"),
        _ => None,
    }
}
