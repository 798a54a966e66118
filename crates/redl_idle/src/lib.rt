//! What idle elements show that a list of nodes keeps as their text: a `Plain` and a way to show nodes go in, text goes out.
//!
//! Read `Shows` first, then `show`. A walk that puts what nodes show says by a `Shows` what it puts of bytes and of an element, and
//! `show` promises the fold `shows` of `specs/Shows.antt` over the nodes that the text is. It reads the text once, from its front,
//! and takes no memory. What takes the text is a sink, or anything else that `specs/Takings.antt` or the walk's own crate says how
//! it changes by a text. Which elements are idle, and what a walk shows of all others, is left to other crates.
//! Its tests are whole calls, in the rows of `redl_rows`.
#![tactic(auto)]

mod walk;

pub use walk::{Shows, show, show_ahead};
