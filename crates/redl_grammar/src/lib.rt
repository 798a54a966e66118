//! The grammar of an XML text by its pieces (tags, and the stretches without a tag between them), and reading them from the left.
//!
//! Both are definitions: `specs/Pieces.antt` says which pieces may stand where, and `specs/ScanPieces.antt` how one is read. That a
//! piece is read exactly where the grammar has one is in `proofs/Pieces.antt`, for all crates above. The code that reads is in the
//! crate above.
//! Its tests are in `redl_text_tests`.
#![tactic(auto)]

mod laws;
mod section;

pub use laws::one_piece;
pub use section::Section;
