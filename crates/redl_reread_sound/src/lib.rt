//! What a pass writes can be read again.
//!
//! Definitions go in; statements of them come out. Read `what_is_left_is_read_again`: where no stretches that meet form `]]>`, the text of
//! what a pass leaves of a sound package is that of a sound package again. The other laws are steps on the way.
#![tactic(auto)]

mod laws;

pub use laws::{
    ends_are_seen_where_stretches_meet, neighbours_are_one_stretch, passed_nodes_are_no_more,
    passed_packages_keep_their_parts, passed_tags_are_scoped, what_forms_an_end_is_not_read,
    what_is_left_is_read_again,
};
