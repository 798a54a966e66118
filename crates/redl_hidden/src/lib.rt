//! Which runs are hidden: by themselves, by their styles, by the styles of their paragraphs, or by the defaults of the document.
//!
//! Begin with `HiddenStyles::of`, and `specs/Runs.antt`. A walk over a story asks each paragraph whether it hides its runs, and hands that
//! down to them. How hidden text is shown is left to the crates above. Its tests are whole calls, in the rows of `redl_rows`.
#![tactic(auto)]

mod ahead;
mod chain;
mod changes;
mod places;
mod style;
mod styles;
mod value;

pub use changes::changes_vanish;
pub use styles::HiddenStyles;
