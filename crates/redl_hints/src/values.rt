//! Values of options that cannot be read.

use crate::numbers::is_number;

/// What is probably wrong with the value of an option, if anything is. The help lists the kinds.
pub(crate) fn fault_of_value(help: &str, option: &str, value: &str) -> Option<&'static str> {
    match option {
        "--accept" | "--reject" | "--withdraw" => fault_of_selection(help, value),
        "--only" => fault_of_shown(help, value),
        "--lock-kind" if is_listed_kind(help, value) && !is_group(value) => None,
        "--lock-kind" => Some(
            "--lock-kind takes one kind of those that redline --help lists, as run-props, and no group",
        ),
        "--lock-span" => fault_of_labelled(help, "span", value),
        "--rank" if !is_rank(value) => Some("a rank is one digit, from 0 to 9"),
        "--view" if !is_view(value) => Some("--view takes original, final, marked or bare"),
        "--by" if value != "kind" => Some("--by takes kind, for each kind of an author's changes"),
        _ => None,
    }
}

fn is_rank(value: &str) -> bool {
    value.len() == 1 && value.as_bytes().iter().all(u8::is_ascii_digit)
}

fn is_view(name: &str) -> bool {
    matches!(name, "original" | "final" | "marked" | "bare")
}

// The names of the groups of kinds.
fn is_group(name: &str) -> bool {
    matches!(name, "content" | "marks" | "rows" | "cells" | "props")
}

fn fault_of_shown(help: &str, text: &str) -> Option<&'static str> {
    if matches!(text, "open" | "accept" | "reject" | "disputed") {
        return None;
    }
    match text.split_once(':') {
        Some((label, value)) => fault_of_labelled(help, label, value),
        None if text == "all" => None,
        None => Some(
            "--only takes open, accept, reject, disputed or a selection: numbers:1,2, edit:3, author:NAME, kind:NAME, kind:GROUP or span:FROM/TO",
        ),
    }
}

fn fault_of_selection(help: &str, text: &str) -> Option<&'static str> {
    match text.split_once(':') {
        Some((label, value)) => fault_of_labelled(help, label, value),
        None if text == "all" => None,
        None => Some(
            "a selection is all, numbers:1,2, edit:3, author:NAME, kind:NAME, kind:GROUP or span:FROM/TO",
        ),
    }
}

fn fault_of_labelled(help: &str, label: &str, value: &str) -> Option<&'static str> {
    match label {
        "author" => None,
        "numbers" | "edit" if is_listed(help, value) => None,
        "numbers" | "edit" => Some(
            "numbers are written as --help shows, with commas and without spaces, each without a zero in front and at most 4294967295, in a range the smaller one first",
        ),
        "kind" if is_listed_kind(help, value) => None,
        "kind" => Some(
            "a kind is one name of those that redline --help lists, as ins or del, or a group of kinds, as props",
        ),
        "span" if value.matches('T').count() == 2 && value.contains('/') => None,
        "span" => Some(
            "a span is two dates with their times, as 2026-11-01T00:00:00Z/2026-11-02T00:00:00Z, the second not included",
        ),
        _ => Some("a selection begins with numbers:, edit:, author:, kind: or span:, or is all"),
    }
}

// Whether a text has numbers, with one comma between two, or ranges of them where the help shows one.
fn is_listed(help: &str, value: &str) -> bool {
    let has_ranges = shows_a_range(help);
    value.split(',').all(|item| match item.split_once('-') {
        Some((first, last)) => has_ranges
            && is_number(first.as_bytes())
            && is_number(last.as_bytes())
            && (first.len(), first) <= (last.len(), last),
        None => is_number(item.as_bytes()),
    })
}

// Whether the help's example of numbers has a range.
fn shows_a_range(help: &str) -> bool {
    help.split(' ').any(|word| match word.strip_prefix("numbers:") {
        Some(numbers) => numbers.contains('-'),
        None => false,
    })
}

// Whether the help has a kind's name, as a word with or without a comma behind it.
fn is_listed_kind(help: &str, name: &str) -> bool {
    !name.is_empty()
        && help
            .split([' ', '\n'])
            .any(|word| word.trim_end_matches([',', '.', ';']) == name)
}
