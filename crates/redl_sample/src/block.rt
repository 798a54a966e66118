//! The blocks of the sample: one for each number, of a form that the number chooses.

ghost use Rattle.std.specs.Prelude.{◌≡◌, ◌++◌, decimal, OnOk};
ghost use Rattle.redl_sample.specs.Blocks.{block_text, filled, form_at, template};

use itoa::Buffer;
use std::alloc::AllocError;

/// What a block of the sample shows.
#[derive(Clone, Copy, Debug, PartialEq, Eq)]
pub(crate) enum Form {
    /// A paragraph without revisions.
    Plain,
    /// An insertion.
    Insertion,
    /// A deletion.
    Deletion,
    /// A deleted paragraph mark.
    Mark,
    /// Inserted text that was deleted later.
    Both,
    /// A change of a run's properties.
    Properties,
    /// A table with an inserted row and a deleted cell.
    Table,
    /// A move from one paragraph to the next.
    Move,
}

/// Adds the text of the block with this number. `Err` means out of memory.
pub(crate) fn push_block(text: &mut Vec<u8>, number: u32) -> Result<(), AllocError>
    ensures { OnOk result (text.new.items ≡ text.old.items ++ block_text number) }
{
    let mut buffer = Buffer::new();
    push_filled(
        text,
        template(choose_form(number)),
        buffer.format(number).as_bytes(),
    )
}

// The form of the block with this number.
fn choose_form(number: u32) -> Form
    ensures { result ≡ form_at number }
{
    match number % 8 {
        0 => Form::Plain,
        1 => Form::Insertion,
        2 => Form::Deletion,
        3 => Form::Mark,
        4 => Form::Both,
        5 => Form::Properties,
        6 => Form::Table,
        _ => Form::Move,
    }
}

// The text of a block of this form, with `#` for its number.
#[tactic(auto, unfolding(crate::specs::Blocks::template))]
fn template(form: Form) -> &'static [u8]
    ensures { result.now ≡ template form }
{
    match form {
        Form::Plain => b"<w:p><w:r><w:t>plain #</w:t></w:r></w:p>",
        Form::Insertion =>
            b"<w:p><w:ins w:id=\"#\" w:author=\"Ann\"><w:r><w:t>new #</w:t></w:r></w:ins></w:p>",
        Form::Deletion =>
            b"<w:p><w:del w:id=\"#\" w:author=\"Bob\"><w:r><w:delText>old #</w:delText></w:r></w:del></w:p>",
        Form::Mark =>
            b"<w:p><w:pPr><w:rPr><w:del w:id=\"#\" w:author=\"Ann\"/></w:rPr></w:pPr><w:r><w:t>join #</w:t></w:r></w:p>",
        Form::Both =>
            b"<w:p><w:ins w:id=\"#\" w:author=\"Bob\"><w:del w:id=\"#\" w:author=\"Ann\"><w:r><w:delText>both #</w:delText></w:r></w:del></w:ins></w:p>",
        Form::Properties =>
            b"<w:p><w:r><w:rPr><w:b/><w:rPrChange w:id=\"#\" w:author=\"Cy\"><w:rPr><w:i/></w:rPr></w:rPrChange></w:rPr><w:t>bold #</w:t></w:r></w:p>",
        Form::Table =>
            b"<w:tbl><w:tr><w:trPr><w:ins w:id=\"#\" w:author=\"Ann\"/></w:trPr><w:tc><w:p/></w:tc></w:tr><w:tr><w:tc><w:tcPr><w:cellDel w:id=\"#\" w:author=\"Bob\"/></w:tcPr><w:p/></w:tc><w:tc><w:p/></w:tc></w:tr></w:tbl>",
        Form::Move =>
            b"<w:p><w:moveFromRangeStart w:id=\"#\" w:author=\"Cy\" w:name=\"m#\"/><w:moveFrom w:id=\"#\" w:author=\"Cy\"><w:r><w:t>move #</w:t></w:r></w:moveFrom><w:moveFromRangeEnd w:id=\"#\"/></w:p><w:p><w:moveToRangeStart w:id=\"#\" w:author=\"Cy\" w:name=\"m#\"/><w:moveTo w:id=\"#\" w:author=\"Cy\"><w:r><w:t>move #</w:t></w:r></w:moveTo><w:moveToRangeEnd w:id=\"#\"/></w:p>",
    }
}

// Adds the template with these digits for each `#`.
fn push_filled(text: &mut Vec<u8>, template: &[u8], digits: &[u8]) -> Result<(), AllocError>
    ensures { OnOk result (text.new.items ≡ text.old.items ++ filled digits.now template.now) }
{
    for byte in template {
        if *byte == b'#' {
            text.extend_from_slice(digits)?;
        } else {
            text.push(*byte)?;
        }
    }
    Ok(())
}
