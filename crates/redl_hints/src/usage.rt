//! Words that are no command.

use crate::hint::{add_hint, add_hint_before_name};
use crate::places::add_place_hints;
use crate::values::fault_of_value;
use redl_io::Text;
use std::alloc::{AllocError, Global};
use strsim::levenshtein;

// Longer words are not compared with names.
const LONGEST: usize = 24;

/// Adds hints on words that are no command, by the program's help. `Err` means out of memory.
pub(crate) fn add_usage_hints(
    alloc: Global,
    words: &[Text],
    help: &str,
    hints: &mut Vec<u8>,
) -> Result<(), AllocError> {
    if let Some(first) = words.first() {
        match other_command(text_of(first)) {
            Some(meant) => add_hint(hints, meant)?,
            None => add_command_hint(alloc, text_of(first), help, hints)?,
        }
    }
    add_letter_hint(words, hints)?;
    add_option_hints(alloc, words, help, hints)?;
    add_place_hints(words, hints)?;
    add_value_hints(words, help, hints)?;
    add_hint(hints, "see redline --help")
}

fn text_of(word: &Text) -> &str {
    std::str::from_utf8(word.as_bytes()).unwrap_or("")
}

// What is meant by a word that other programs have as a command.
fn other_command(name: &str) -> Option<&'static str> {
    match name {
        "-V" => Some("redline --version tells the version"),
        "accept" => Some("redline settle accept P accepts all changes of P"),
        "reject" => Some("redline settle reject P rejects all changes of P"),
        _ => None,
    }
}

// A hint where a word processor put letters of its own in the place of dashes and quotes.
fn add_letter_hint(words: &[Text], hints: &mut Vec<u8>) -> Result<(), AllocError> {
    if words
        .iter()
        .any(|word| begins_with_long_dash(text_of(word)))
    {
        add_hint(
            hints,
            "a dash of a word processor is no option; write two hyphens, as --accept",
        )?;
    }
    if words.iter().any(|word| has_curly_quote(text_of(word))) {
        add_hint(
            hints,
            "the quotes of a word processor do not keep words together; write straight ones, as \"Ann Gray\"",
        )?;
    }
    Ok(())
}

fn begins_with_long_dash(word: &str) -> bool {
    word.starts_with(['\u{2012}', '\u{2013}', '\u{2014}', '\u{2212}'])
}

fn has_curly_quote(word: &str) -> bool {
    word.contains(['\u{201c}', '\u{201d}', '\u{201e}', '\u{201f}'])
}

// The forms of the command with this name, or the command with the nearest name.
fn add_command_hint(
    alloc: Global,
    name: &str,
    help: &str,
    hints: &mut Vec<u8>,
) -> Result<(), AllocError> {
    let mut names = Vec::new(alloc);
    let mut is_known = false;
    for line in help.lines() {
        if let Some(usage) = usage_of(line) {
            let command = first_word(usage);
            names.push(command)?;
            if command == name {
                is_known = true;
                add_hint_before_name(hints, "usage: redline ", usage)?;
            }
        }
    }
    if is_known {
        return Ok(());
    }
    add_nearest(alloc, name, &names, "the nearest command is ", hints)
}

// The words of a command in its line of the help: what comes before a gap.
fn usage_of(line: &str) -> Option<&str> {
    let (usage, _) = line.strip_prefix("  redline ")?.split_once("  ")?;
    Some(usage)
}

fn first_word(text: &str) -> &str {
    match text.split_once(' ') {
        Some((first, _)) => first,
        None => text,
    }
}

// A hint for each word that is written like an option and is none.
fn add_option_hints(
    alloc: Global,
    words: &[Text],
    help: &str,
    hints: &mut Vec<u8>,
) -> Result<(), AllocError> {
    let mut names = Vec::new(alloc);
    for word in help.split(' ') {
        if let Some(name) = option_in(word) {
            names.push(name)?;
        }
    }
    for word in words {
        add_option_hint(alloc, text_of(word), &names, hints)?;
    }
    Ok(())
}

// The option that a word of the help names, without what follows it.
fn option_in(word: &str) -> Option<&str> {
    if !word.starts_with("--") {
        return None;
    }
    let end = word.trim_end_matches(|c: char| !c.is_ascii_alphabetic());
    if end.is_empty() { None } else { Some(end) }
}

fn add_option_hint(
    alloc: Global,
    word: &str,
    names: &[&str],
    hints: &mut Vec<u8>,
) -> Result<(), AllocError> {
    // The two dashes of other programs stand near any short option.
    if !word.starts_with("--") || word == "--" || names.iter().any(|name| *name == word) {
        return Ok(());
    }
    if word == "--author" {
        return add_hint(
            hints,
            "author:NAME is a selection, as in --only author:NAME",
        );
    }
    match word.split_once('=') {
        Some((name, _)) if names.iter().any(|known| *known == name) => {
            add_hint_before_name(
                hints,
                "the value is a word of its own, with a space before it: ",
                name,
            )
        }
        _ => add_nearest(alloc, word, names, "the nearest option is ", hints),
    }
}

// A hint that names the nearest of some names, where two letters or fewer differ.
fn add_nearest(
    alloc: Global,
    word: &str,
    names: &[&str],
    text: &str,
    hints: &mut Vec<u8>,
) -> Result<(), AllocError> {
    let mut nearest = None;
    let mut least = 3;
    if word.len() > LONGEST {
        return Ok(());
    }
    for name in names {
        let distance = levenshtein(alloc, word, name)?;
        if distance < least {
            least = distance;
            nearest = Some(*name);
        }
    }
    match nearest {
        Some(name) => add_hint_before_name(hints, text, name),
        None => Ok(()),
    }
}

// A hint for each value of an option that is probably wrong.
fn add_value_hints(words: &[Text], help: &str, hints: &mut Vec<u8>) -> Result<(), AllocError> {
    for pair in words.windows(2) {
        if let Some(fault) = fault_of_value(help, text_of(&pair[0]), text_of(&pair[1])) {
            add_hint(hints, fault)?;
        }
    }
    Ok(())
}
