//! The program's own skin of pages: their security policy, style and script, as `tools/skin` makes them from `page/`.
#![tactic(auto)]

mod skin;

use redl_page::Skin;
use skin::{POLICY, SCRIPT, STYLE};

/// The program's own policy, style and script for a page.
pub fn page_skin() -> Skin<'static> {
    Skin {
        policy: POLICY.as_bytes(),
        style: STYLE.as_bytes(),
        script: SCRIPT.as_bytes(),
    }
}
