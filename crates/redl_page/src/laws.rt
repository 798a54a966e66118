//! What holds of every list of changes, as a statement of the definitions alone.

ghost use Rattle.std.specs.Prelude.{◌≡◌, Bool, List, length, true};
ghost use Rattle.std.specs.List.{AllByRecursion};
ghost use Rattle.redl_index.specs.declared.revision.Revision.{Revision};
ghost use Rattle.redl_journal.specs.declared.entry.Entry.{Entry};
ghost use Rattle.redl_page.specs.Changes.{changes, has_item};
ghost use Rattle.redl_page.specs.declared.item.ItemWords.{ItemWords};

/// Each revision has an item in the list of changes.
pub fn each_revision_has_an_item()
    ensures { (book : List Entry) (revisions : List Revision) (locked : List Bool) (said : List ItemWords) → length locked ≡ length revisions
        → length said ≡ length revisions → AllByRecursion (λ revision. has_item revision.number (changes book revisions locked said) ≡ true) revisions }
{}
