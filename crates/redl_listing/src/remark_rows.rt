//! The comments on a revision, in the formats `full` and `words`.

ghost use Rattle.std.specs.Prelude.{◌≡◌, ◌++◌, ◌∷◌, All, IfSome, OnOk, [], codes, decimal};
ghost use Rattle.std.specs.List.{flat_map};
ghost use Rattle.std.specs.Str.{IsUtf8};
ghost use Rattle.json.specs.Token.{key as key_token};
ghost use Rattle.redl_excerpts.specs.Remarks.{IsRemark};
ghost use Rattle.redl_listing.specs.Remarks.{more_remarks, parent_token, remark_tokens, remarks_tokens, remarks_words};

use crate::changed_rows::put_count;
use itoa::Buffer;
use json::Writer;
use redl_excerpts::{Remark, Remarks};
use redl_formats::{put_date, put_text};
use redl_io::Text;
use std::alloc::AllocError;

/// Writes the members that say which comments are on a revision, and how many more. `Err` means out of memory, here and below.
pub(crate) fn put_remarks(object: &mut Writer, remarks: &Remarks) -> Result<(), AllocError>
    requires { All IsRemark remarks.now.first }
    ensures written { OnOk result (object.new.tokens ≡ object.old.tokens ++ remarks_tokens remarks.now) }
    ensures before { OnOk result (object.new.before ≡ object.old.before) }
{
    object.key("comments")?;
    object.begin_array()?;
    put_each(object, remarks.first())?;
    object.end_array()?;
    put_count(object, "comments_more", more_remarks(remarks))?;
    Ok(())
}

// How many more there are than are shown.
fn more_remarks(remarks: &Remarks) -> usize
    ensures { result ≡ more_remarks remarks.now }
{
    remarks.count().saturating_sub(remarks.first().len())
}

fn put_each(object: &mut Writer, remarks: &[Remark]) -> Result<(), AllocError>
    requires { All IsRemark remarks.now }
    ensures written { OnOk result (object.new.tokens ≡ object.old.tokens ++ flat_map remark_tokens remarks.now) }
    ensures before { OnOk result (object.new.before ≡ object.old.before) }
{
    for remark in remarks {
        put_remark(object, remark)?;
    }
    Ok(())
}

fn put_remark(object: &mut Writer, remark: &Remark) -> Result<(), AllocError>
    requires { IsRemark remark.now }
    ensures written { OnOk result (object.new.tokens ≡ object.old.tokens ++ remark_tokens remark.now) }
    ensures before { OnOk result (object.new.before ≡ object.old.before) }
{
    object.begin_object()?;
    put_text(object, "author", remark.author.as_bytes())?;
    put_date(object, remark.seconds)?;
    object.key("done")?;
    object.boolean(remark.is_done)?;
    put_text(object, "id", remark.id.as_bytes())?;
    put_parent(object, &remark.reply_to)?;
    put_text(object, "text", remark.text.as_bytes())?;
    object.end_object()?;
    Ok(())
}

fn put_parent(object: &mut Writer, id: &Option<Text>) -> Result<(), AllocError>
    requires { IfSome id.now IsUtf8 }
    ensures written { OnOk result (object.new.tokens ≡ object.old.tokens ++ key_token (codes "reply_to") ∷ parent_token id.now ∷ []) }
    ensures before { OnOk result (object.new.before ≡ object.old.before) }
{
    match id {
        Some(id) => put_text(object, "reply_to", id.as_bytes()),
        None => {
            object.key("reply_to")?;
            object.null()
        }
    }
}

/// Adds how many comments are on a revision, if there are any.
pub(crate) fn push_remarks(line: &mut Vec<u8>, count: usize) -> Result<(), AllocError>
    ensures { OnOk result (line.new.items ≡ line.old.items ++ remarks_words count) }
{
    if count == 0 {
        return Ok(());
    }
    if count == 1 {
        return line.extend_from_slice(b"  (1 comment)");
    }
    push_count(line, count)
}

fn push_count(line: &mut Vec<u8>, count: usize) -> Result<(), AllocError>
    ensures { OnOk result (line.new.items ≡ line.old.items ++ (codes "  (" ++ (decimal count ++ codes " comments)"))) }
{
    let mut buffer = Buffer::new();
    line.extend_from_slice(b"  (")?;
    line.extend_from_slice(buffer.format(count).as_bytes())?;
    line.extend_from_slice(b" comments)")?;
    Ok(())
}
