//! What the commands `list`, `report`, `page`, `text` and `resume` make of their files, as definitions.
//!
//! They need what stands above a session: listings, reports, pages, views and sittings. The commands in `redl_commands` need nothing of
//! that, so they are proved beside it. `specs/Formats.antt` says which format is meant by a name, and what a call leaves of the formats.
#![tactic(auto)]
