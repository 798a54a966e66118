//! The texts of packages.

use std::alloc::{AllocError, Global};

// The start of a package: its namespaces, and others that a test may want.
const FRONT: &str =
    "<pkg:package xmlns:pkg='http://schemas.microsoft.com/office/2006/xmlPackage' xmlns:w='http://schemas.openxmlformats.org/wordprocessingml/2006/main' xmlns:m='http://schemas.openxmlformats.org/officeDocument/2006/math' xmlns:mc='urn:mc' xmlns:o='urn:o' xmlns:q='urn:q'>";

/// The text of a document with this body.
pub fn document(alloc: Global, body: &str) -> Result<String, AllocError> {
    format!(in alloc; "<w:document><w:body>{body}</w:body></w:document>")
}

/// The text of the part of a package with this name and these data.
pub fn part(alloc: Global, name: &str, data: &str) -> Result<String, AllocError> {
    format!(in alloc;
        "<pkg:part pkg:name='{name}' pkg:contentType='x/y'><pkg:xmlData>{data}</pkg:xmlData></pkg:part>"
    )
}

/// The text of the package with these parts, which are texts that `part` gives.
pub fn package(alloc: Global, parts: &str) -> Result<String, AllocError> {
    format!(in alloc; "{FRONT}{parts}</pkg:package>")
}

/// The text of the package whose one part has this name and a document with this body.
pub fn document_package(alloc: Global, name: &str, body: &str) -> Result<String, AllocError> {
    let document = document(alloc, body)?;
    let part = part(alloc, name, document.as_str())?;
    package(alloc, part.as_str())
}
