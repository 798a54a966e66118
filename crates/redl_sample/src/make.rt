//! The package of the sample.

ghost use Rattle.std.specs.Prelude.{◌≡◌, ◌≤◌, IfOk};
ghost use Rattle.redl_sample.specs.Packages.{opening, closing, package_text};

use crate::block::push_block;
use std::alloc::{AllocError, Global};

/// The most paragraphs that a sample may have.
pub const SAMPLE_LIMIT: u32 = 20_000;

// The text before the blocks.
const OPENING: &[u8] =
    b"<?xml version=\"1.0\" encoding=\"UTF-8\"?><pkg:package xmlns:pkg=\"http://schemas.microsoft.com/office/2006/xmlPackage\"><pkg:part pkg:name=\"/word/document.xml\" pkg:contentType=\"application/vnd.openxmlformats-officedocument.wordprocessingml.document.main+xml\"><pkg:xmlData><w:document xmlns:w=\"http://schemas.openxmlformats.org/wordprocessingml/2006/main\"><w:body>";

// The text after the blocks: a last paragraph, which the mark of the one before it may join, and the end tags.
const CLOSING: &[u8] = b"<w:p/></w:body></w:document></pkg:xmlData></pkg:part></pkg:package>";

/// The bytes of the sample package with this number of blocks, numbered from 0, at most `SAMPLE_LIMIT`. `Err` means out of
/// memory.
pub fn sample_package(alloc: Global, number: u32) -> Result<Vec<u8>, AllocError>
    requires { number ≤ SAMPLE_LIMIT }
    ensures { IfOk result (λ bytes. bytes.items ≡ package_text number) }
{
    let mut text = Vec::from_slice(alloc, OPENING)?;
    for block in 0..number {
        push_block(&mut text, block)?;
    }
    text.extend_from_slice(CLOSING)?;
    Ok(text)
}
