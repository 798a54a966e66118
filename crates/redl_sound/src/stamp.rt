//! What holds of the reading of every date, as a statement of the definitions alone.

ghost use Rattle.std.specs.Prelude.{◌≡◌, ◌↔◌, ℕ, ℤ, List, Some};
ghost use Rattle.redl_stamp.specs.Moment.{moment_of};
ghost use Rattle.redl_sound.specs.Form.{Names};

/// A text is read as a moment exactly where it has the form `YYYY-MM-DDThh:mm:ss`, then a dot and 1 to 9 digits or nothing, then `Z`,
/// `+hh:mm`, `-hh:mm` or nothing, names a day of the calendar and a time of a clock, and lies in the years 0000 to 9999 (XML Schema
/// Part 2, 3.2.7). Its moment is the civil time less the offset.
pub fn moments_have_their_form()
    ensures { (text : List ℕ) (seconds : ℤ) → (moment_of text ≡ Some seconds) ↔ Names text seconds }
{}
