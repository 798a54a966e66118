//! Who made a revision and when: the author, date, name and id, which are attributes of an element's tag.
//! `read_stamp` takes a tag's tail, which is all between its name and its `>`, and gives the four at once.
//! A value is that of the first attribute with its local name, decoded; a date is read exactly if it has the right form.
//! The crates above decide what a revision is and which elements have a stamp.
//! Its tests are in `redl_text_tests`.
#![tactic(auto)]

mod digits;
mod laws;
mod moment;
mod stamp;
mod stamp_values;
mod value;

pub use laws::value_of_the_first;
pub use moment::read_moment;
pub use stamp::{Stamp, read_stamp};
pub use value::{attribute, has_attribute};
