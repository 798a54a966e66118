//! Laws of all sessions.
ghost use Rattle.std.specs.Prelude.{◌≡◌, ◌↔◌, List, Contains};
ghost use Rattle.redl_join.specs.Books.{IsBook, union};
ghost use Rattle.redl_journal.specs.declared.entry.Entry.{Entry};
ghost use Rattle.redl_session.specs.Refusals.{admitted};
ghost use Rattle.redl_session.specs.Sessions.{SessionState, after, says};

/// Entries admitted one after another make the book the union with those of them that are not refused.
pub fn admissions_make_the_union()
    ensures { (state : SessionState) (entries : List Entry)
        → after state entries ≡ record state { book = union state.book (admitted state.revisions state.locks entries) } }
{}

/// The say of each revision is the same after any list of admissions, whatever the order of the entries and repeats.
pub fn order_does_not_count()
    ensures { (state : SessionState) (entries others : List Entry) → IsBook state.book
        → ((entry : Entry) → Contains entries entry ↔ Contains others entry)
        → says (after state entries) ≡ says (after state others) }
{}
