//! Stamps: who made a revision and when.

ghost use Rattle.std.specs.Prelude.{◌≡◌, [], IfOk, IfSome, unwrap_or, option_and_then};
ghost use Rattle.std.specs.Option.{option_map};
ghost use Rattle.std.specs.Str.{IsUtf8};
ghost use Rattle.redl_markup.specs.Decoding.{decoded_value};
ghost use Rattle.redl_stamp.specs.Moment.{IsMoment, moment_of};
ghost use Rattle.redl_stamp.specs.Stamp.{stamp_of};

use crate::moment::moment;
use crate::stamp_values::Written;
use crate::value::decoded;
use redl_io::Text;
use redl_markup::{decode_value, is_literal};
use std::alloc::{AllocError, Global};

/// Who made a revision and when, and the name and id of the revision or of a move's marker (ECMA-376 Part 1, 17.13.5).
#[derive(Drop)]
pub struct Stamp {
    /// The empty text if the tag names no author.
    pub author: Text,
    /// The seconds from 1970-01-01T00:00:00Z to the date, if it can be read.
    pub seconds: Option<i64>,
    /// The name, if the tag has one.
    pub name: Option<Text>,
    /// The id, if the tag has one.
    pub id: Option<Text>,
}

// The author that a value names, or the empty text without a value. `Err` means out of memory.
fn author(alloc: Global, written: Option<&[u8]>) -> Result<Text, AllocError>
    ensures value { IfOk result (λ author. author ≡ unwrap_or (option_map decoded_value (option_map (λ value. value.now) written.entry)) []) }
    ensures utf8 { IfSome written.entry (λ value. IsUtf8 value.now) → IfOk result IsUtf8 }
{
    match decoded(alloc, written)? {
        Some(author) => Ok(author),
        None => Text::copy_of(alloc, b""),
    }
}

// The seconds to the date that a value names. `Err` means out of memory.
fn seconds(alloc: Global, written: Option<&[u8]>) -> Result<Option<i64>, AllocError>
    ensures value { IfOk result (λ seconds. seconds
        ≡ option_and_then moment_of (option_map decoded_value (option_map (λ value. value.now) written.entry))) }
    ensures range { IfOk result (λ seconds. IfSome seconds IsMoment) }
{
    let Some(date) = written else {
        return Ok(None);
    };
    // nearly every date is of this kind, and needs no copy
    if is_literal(date) {
        return Ok(moment(date));
    }
    let date = decode_value(alloc, date)?;
    Ok(moment(&date))
}

/// The stamp in a tag's tail.
///
/// Without an author it has the empty text as author. Without a date that can be read it has no seconds. `Err` means out of
/// memory.
pub fn read_stamp(alloc: Global, tail: &[u8]) -> Result<Stamp, AllocError>
    ensures value { IfOk result (λ stamp. stamp ≡ stamp_of tail.now) }
    ensures utf8 { IsUtf8 tail.now → IfOk result (λ stamp. IsUtf8 stamp.author) }
    ensures utf8_name { IsUtf8 tail.now → IfOk result (λ stamp. IfSome stamp.name IsUtf8) }
    ensures utf8_id { IsUtf8 tail.now → IfOk result (λ stamp. IfSome stamp.id IsUtf8) }
    ensures range { IfOk result (λ stamp. IfSome stamp.seconds IsMoment) }
{
    let written = Written::read(tail);
    let author = author(alloc, written.author)?;
    let seconds = seconds(alloc, written.date)?;
    let name = decoded(alloc, written.name)?;
    let id = decoded(alloc, written.id)?;
    Ok(Stamp {
        author,
        seconds,
        name,
        id,
    })
}
