//! What a pass leaves of the marks of revisions.

ghost use Rattle.std.specs.Prelude.{Bool, List, ℕ};
ghost use Rattle.redl_stays_sound.specs.Decided.{DecidedGo};
ghost use Rattle.redl_stays_sound.specs.Kept.{KeptStay};
ghost use Rattle.redl_stays_sound.specs.Settled.{AllSettle, SettlesAll};
ghost use Rattle.redl_stays_sound.specs.Staying.{AllKeptStay};
ghost use Rattle.redl_tree.specs.Revisions.Markers.{Value};

/// After any pass of an indexed package, the content revisions and the markers of paired moves that are left in each story are exactly those
/// with the say Keep, in their order and with their tags, but for those in what goes.
pub fn kept_marks_stay()
    ensures { (value : Value) → KeptStay value }
{}

/// After any pass of an indexed package, no element of a story is a member of a revision that is decided, nor a marker of such a move, wherever
/// it stands: among the content, in properties, or in what a rejected change brought back.
pub fn decided_marks_go()
    ensures { (value : Value) → DecidedGo value }
{}

/// Where every revision of a sound package is accepted or rejected, no element that a pass leaves in a story is a member of a revision:
/// neither of one that was there, nor of one that would be found anew. So `settle` leaves none.
pub fn all_decided_settle()
    ensures indexed { (value : Value) (has_id declares : List ℕ → Bool) → SettlesAll value has_id declares }
    ensures numbered { (value : Value) (has_id declares : List ℕ → Bool) → AllSettle value has_id declares }
{}

/// After any pass of a sound, indexed package each member of a revision and each marker with the say Keep is still in its story, with its tag,
/// also in properties, unless what is around it goes, or it stands in the properties of a paragraph whose end goes.
pub fn kept_members_stay()
    ensures { (value : Value) (has_id declares : List ℕ → Bool) → AllKeptStay value has_id declares }
{}
