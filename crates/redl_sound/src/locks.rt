//! What holds of locks in every session.

ghost use Rattle.std.specs.Prelude.{◌≡◌, ℕ, List, Ok};
ghost use Rattle.redl_inputs.specs.Admission.{Admission, opened};
ghost use Rattle.redl_inputs.specs.Readers.{Reader};
ghost use Rattle.redl_io.specs.Shelf.{Files};
ghost use Rattle.redl_journal.specs.declared.entry.Entry.{Entry};
ghost use Rattle.redl_sound.specs.Held.{IsBegun, IsHeld, IsLocked};
ghost use Rattle.redl_kinds.specs.declared.lock.Lock.{Lock};
ghost use Rattle.redl_session.specs.Sessions.{SessionState, after, says};
ghost use Rattle.redl_tree.specs.Decisions.Fates.{fate_of, say_of};
ghost use Rattle.redl_tree.specs.Model.Seen.{Seen};
ghost use Rattle.redl_tree.specs.declared.kinds.Fate.TheVariants.{Leave};
ghost use Rattle.redl_tree.specs.declared.kinds.Say.TheVariants.{Keep};

/// Where a lock holds the revision of an element, as the element itself or the start of its move's source tells it, the number
/// on the element has the say `Keep` after any entries, and so the element is left as it is. A lock on an author holds the
/// revision of each element that names the author.
pub fn locked_revisions_are_left()
    ensures kept { (state : SessionState) (entries : List Entry) (element : Seen) → IsBegun state → IsHeld state element
        → say_of (says (after state entries)) element.own.tag.rev ≡ Keep }
    ensures left { (state : SessionState) (entries : List Entry) (element : Seen) → IsBegun state → IsHeld state element
        → fate_of (says (after state entries)) element.own.tag ≡ Leave }
    ensures author { (state : SessionState) (element : Seen) → IsLocked state element → IsHeld state element }
{}

/// Whatever the journals of a call say, the session that it opens over a package leaves each element whose revision one of the locks of
/// the call holds: its number has the say `Keep`.
pub fn journals_leave_what_is_locked()
    ensures kept { (reader : Reader) (files : Files) (locks : List Lock) (journals : List (List ℕ)) (whole : List ℕ) (admission : Admission) (element : Seen)
        → opened reader files locks journals whole ≡ Ok admission → IsHeld admission.state element → say_of (says admission.state) element.own.tag.rev ≡ Keep }
    ensures left { (reader : Reader) (files : Files) (locks : List Lock) (journals : List (List ℕ)) (whole : List ℕ) (admission : Admission) (element : Seen)
        → opened reader files locks journals whole ≡ Ok admission → IsHeld admission.state element → fate_of (says admission.state) element.own.tag ≡ Leave }
{}
