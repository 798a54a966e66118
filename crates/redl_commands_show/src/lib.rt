//! The commands that show a package or say that it is sound: texts, the shelf and what the program brings go in; what is shown, or why
//! nothing is, comes out.
//!
//! Each command has a module with one public call, and read `check_package` first. `check_package` promises what its definition in
//! `redl_commands` says, or that the first cause of a refusal came before; `put_text` and `put_page`, which put a text themselves, promise
//! how that ends for what `redl_commands_shown` defines.
//! Its tests are whole calls, in the rows of `redl_rows`.
#![tactic(auto)]

mod check;
mod items;
mod page;
mod text;

pub use check::check_package;
pub use page::put_page;
pub use text::put_text;
