//! Laws of all books.
ghost use Rattle.std.specs.Prelude.{◌≡◌, ◌↔◌, ◌++◌, ℕ, List, [], false, Contains};
ghost use Rattle.redl_journal.specs.declared.entry.Entry.{Entry};
ghost use Rattle.redl_join.specs.Books.{IsBook, has_entry, union, with_entry, without_entry};
ghost use Rattle.redl_join.specs.LastWords.{last_words};
ghost use Rattle.redl_join.specs.Verdicts.{verdict_at};

/// Books with the same entries are equal, so they give the same answers, whatever calls made them.
pub fn same_book()
    ensures { (book other : List Entry) → IsBook book → IsBook other
        → ((entry : Entry) → has_entry book entry ≡ has_entry other entry) → book ≡ other }
{}

/// The union of journals does not depend on the order of their entries or on repeats.
pub fn same_union()
    ensures { (entries others : List Entry) → ((entry : Entry) → Contains entries entry ↔ Contains others entry)
        → union [] entries ≡ union [] others }
{}

/// The union with one list of entries and then with another is the union with both.
pub fn union_of_both()
    ensures { (book entries others : List Entry) → union (union book entries) others ≡ union book (entries ++ others) }
{}

/// An entry that a book had not, added and then removed, leaves the book as it was.
pub fn removal_undoes_addition()
    ensures { (book : List Entry) (entry : Entry) → has_entry book entry ≡ false → without_entry (with_entry book entry) entry ≡ book }
{}

/// The last words on a revision alone make its verdict.
pub fn verdict_of_last_words()
    ensures { (book : List Entry) (rev : ℕ) → verdict_at (last_words book rev) rev ≡ verdict_at book rev }
{}
