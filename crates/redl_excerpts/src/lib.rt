//! Excerpts: a numbered package goes in, and for each revision its words, what comes before and after them, and who said what come
//! out.
//!
//! Read `excerpts` first. It walks the stories once, in time that grows with the package, and keeps of each revision at most 200
//! characters of words, 40 before and 40 behind. `package_details` is above it: a detail has the texts of an excerpt in UTF-8 and the
//! last words on the revision. `changed_lines` gives what changes of properties change.
//! What nodes say is told by `redl_said`; how a listing shows a detail is left to the crates above.
//! Its tests are whole calls, in the rows of `redl_rows`.
#![tactic(auto)]

mod around;
mod checked;
mod detail;
mod detailed;
mod excerpt;
mod flat;
mod last_word;
mod members;
mod package;
mod properties;
mod remark;

pub use checked::checked_copy;
pub use detail::{Detail, details};
pub use detailed::package_details;
pub use excerpt::Excerpt;
pub use last_word::{LastWord, Says};
pub use package::excerpts;
pub use properties::changed_lines;
pub use remark::{Remark, Remarks};
