//! Fields of lines as texts: names of verdicts and words, and bytes, numbers and dates in columns.

ghost use Rattle.std.specs.Prelude.{◌≡◌, ◌≤◌, ◌++◌, OnOk, IfOk, length, replicate, decimal};
ghost use Rattle.std.specs.List.{flat_map, list_all};
ghost use Rattle.redl_journal.specs.Journals.{word_text};
ghost use Rattle.redl_stamp.specs.Moment.{IsMoment};
ghost use Rattle.redl_formats.specs.Dates.{date_text};
ghost use Rattle.redl_formats.specs.Fields.{verdict_name, right_in, left_in, escape, is_unescaped};
ghost use Rattle.std.specs.Prelude.{IfSome};

use crate::dates::moment_text;
use itoa::Buffer;
use redl_join::Verdict;
use redl_journal::Word;
use std::alloc::AllocError;

/// The name of what was decided.
pub fn verdict_name(verdict: Verdict) -> &'static str
    ensures { result.now ≡ verdict_name verdict }
{
    match verdict {
        Verdict::Undecided => "open",
        Verdict::Accept => "accept",
        Verdict::Reject => "reject",
        Verdict::Disputed => "disputed",
    }
}

/// The name of what a reviewer said.
pub fn word_name(word: Word) -> &'static str
    ensures { result.now ≡ word_text word }
{
    match word {
        Word::Accept => "accept",
        Word::Reject => "reject",
        Word::Withdraw => "withdraw",
    }
}

/// Adds spaces up to so many places where the bytes have fewer, and then the bytes. `Err` means out of memory.
pub fn push_right(line: &mut Vec<u8>, bytes: &[u8], width: usize) -> Result<(), AllocError>
    requires { width ≤ 20 }
    ensures { OnOk result (line.new.items ≡ line.old.items ++ right_in width bytes.now) }
{
    push_spaces(line, width.saturating_sub(bytes.len()))?;
    line.extend_from_slice(bytes)
}

/// Adds the bytes, and then spaces up to so many places where the bytes have fewer. `Err` means out of memory.
pub fn push_left(line: &mut Vec<u8>, bytes: &[u8], width: usize) -> Result<(), AllocError>
    requires { width ≤ 20 }
    ensures { OnOk result (line.new.items ≡ line.old.items ++ left_in width bytes.now) }
{
    line.extend_from_slice(bytes)?;
    push_spaces(line, width.saturating_sub(bytes.len()))
}

/// Adds so many spaces. `Err` means out of memory.
pub fn push_spaces(line: &mut Vec<u8>, count: usize) -> Result<(), AllocError>
    requires { count ≤ 20 }
    ensures { OnOk result (line.new.items ≡ line.old.items ++ replicate count 32) }
{
    let length = line.len() + count;
    line.resize(length, b' ')
}

/// Adds the decimal digits of the number at the right end of so many places, or more. `Err` means out of memory.
pub fn push_number(line: &mut Vec<u8>, number: u32, width: usize) -> Result<(), AllocError>
    requires { width ≤ 20 }
    ensures { OnOk result (line.new.items ≡ line.old.items ++ right_in width (decimal number)) }
{
    let mut buffer = Buffer::new();
    push_right(line, buffer.format(number).as_bytes(), width)
}

/// Adds the date, at the left end of so many places, or more. `Err` means out of memory.
pub fn push_date(line: &mut Vec<u8>, seconds: Option<i64>, width: usize) -> Result<(), AllocError>
    requires width { width ≤ 20 }
    requires moment { IfSome seconds IsMoment }
    ensures { OnOk result (line.new.items ≡ line.old.items ++ left_in width (date_text seconds)) }
{
    match seconds {
        Some(seconds) => push_left(line, &moment_text(seconds), width),
        None => push_left(line, b"-", width),
    }
}

/// Adds the bytes, with two bytes for each backslash, tab and end of a line. `Err` means out of memory.
#[tactic(auto, using(crate::proofs::PlainLaws::escape_same))]
pub fn push_escaped(line: &mut Vec<u8>, bytes: &[u8]) -> Result<(), AllocError>
    ensures { OnOk result (line.new.items ≡ line.old.items ++ flat_map escape bytes.now) }
{
    if are_unescaped(bytes) {
        return line.extend_from_slice(bytes);
    }
    for byte in bytes {
        push_escape(line, *byte)?;
    }
    Ok(())
}

// Whether no byte is a backslash, a tab or of the end of a line.
fn are_unescaped(bytes: &[u8]) -> bool
    ensures { result ≡ list_all is_unescaped bytes.now }
{
    bytes.iter().all(|byte| is_unescaped(*byte))
}

fn is_unescaped(byte: u8) -> bool
    ensures { result ≡ is_unescaped byte }
{
    match byte {
        b'\\' | b'\t' | b'\n' | b'\r' => false,
        _ => true,
    }
}

#[tactic(auto, unfolding(crate::specs::Fields::escape))]
fn push_escape(line: &mut Vec<u8>, byte: u8) -> Result<(), AllocError>
    ensures { OnOk result (line.new.items ≡ line.old.items ++ escape byte) }
{
    match byte {
        b'\\' => line.extend_from_slice(b"\\\\"),
        b'\t' => line.extend_from_slice(b"\\t"),
        b'\n' => line.extend_from_slice(b"\\n"),
        b'\r' => line.extend_from_slice(b"\\r"),
        _ => line.extend_from_slice(&[byte]),
    }
}
