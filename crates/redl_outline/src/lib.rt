//! Small documents of tests, each written as an outline, and the packages that they stand in.
//!
//! An outline is a line of words in the order of the start tags, each with a dot for each element that it stands in:
//!
//!     p .pPr ..rPr ...del .r ..t ...(gone)
//!
//! is a paragraph with a deleted mark, and with a run of the text `gone`. A word is one of these:
//!
//! - a name, which has the prefix `w` unless another one stands before a `-`: `o-ins` is `<o:ins/>`. An element that holds
//!   nothing is closed by `/>`.
//! - a name and attributes, each after a `/`: `ins/id=1/xml-space=preserve` is `<w:ins w:id='1' xml:space='preserve'/>`.
//! - bytes in brackets. `()` are none, but the element that they stand in has an end tag then: `p .()` is `<w:p></w:p>`.
//!
//! A test may have words of its own, as `("fs", "moveFromRangeStart")`, `("1", " w:id='1'")` or `("and", "a &amp; b")`. A
//! name, an attribute or bytes that are such a word are the text beside it, in which blanks may stand. With these three
//! `ins .fs/1 .r ..t ...(and)` is
//!
//!     <w:ins><w:moveFromRangeStart w:id='1'/><w:r><w:t>a &amp; b</w:t></w:r></w:ins>
//!
//! The nodes of an outline are labelled: each element has the role as its kind that it has in its place, and a member belongs
//! to revision 1. The prefixes `w`, `m` and `pkg` mean the namespaces that they usually mean, all others mean other ones.
//!
//! Read `Outline` first, then `package`; small journals are in `journals.rt`. It is a crate for tests alone: `redl_tree_tests` tests it, and no contract says
//! what it makes.
//! Its tests are in `redl_tree_tests`.
#![tactic(auto)]

mod journals;
mod nodes;
mod outline;
mod packages;
mod words;

pub use journals::{add_entries, book_of, entries_of, journal_text};
pub use outline::{Outline, nodes_text, outline_text};
pub use packages::{document, document_package, package, part};
