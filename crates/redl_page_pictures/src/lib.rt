//! The pictures of a page: a package goes in, and its PNG, JPEG and GIF parts come out as a list in HTML, with the relationships by which
//! stories name them.
//!
//! Begin with `Pictures::of` and `put_pictures`, and `specs/Pictures.antt`. The data of a picture is borrowed from the package, and stands
//! in the page once. Where a picture is in the text is shown by `redl_page_stories`.
//! Its tests are whole calls, in the rows of `redl_rows`.
#![tactic(auto)]

mod base64;
mod image;
mod lead;
mod list;
mod pictures;

pub use image::Image;
pub use lead::PictureLead;
pub use list::put_pictures;
pub use pictures::Pictures;
