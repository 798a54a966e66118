//! A document that is opened.

use redl_editor::Editor;
use redl_index::number;
use redl_opc::{OpcError, Package};
use redl_rules::{RuleError, check};
use redl_xml::XmlError;
use std::alloc::{AllocError, Global};

/// An editor of the package with this text, where each revision is undecided. `None` if the text is no package or breaks a rule of
/// structure, and `Err` means out of memory.
pub(crate) fn open(alloc: Global, text: &[u8]) -> Result<Option<Editor>, AllocError> {
    let nodes = match redl_xml::read(alloc, text) {
        Ok(nodes) => nodes,
        Err(XmlError::NoMemory) => return Err(AllocError),
        Err(_) => return Ok(None),
    };
    let mut pkg = match Package::make(alloc, nodes) {
        Ok(pkg) => pkg,
        Err(OpcError::NoMemory) => return Err(AllocError),
        Err(_) => return Ok(None),
    };
    match check(alloc, &pkg) {
        Ok(()) => {}
        Err(RuleError::NoMemory) => return Err(AllocError),
        Err(RuleError::Broken(_)) => return Ok(None),
    }
    let count = number(alloc, &mut pkg)?;
    Ok(Some(Editor::new(alloc, pkg, count)?))
}
