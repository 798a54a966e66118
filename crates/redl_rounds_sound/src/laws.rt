//! What holds of calls, one of which takes what another wrote.

ghost use Rattle.redl_inputs.specs.Readers.{Reader, IsReader};
ghost use Rattle.redl_io.specs.Shelf.{Files};
ghost use Rattle.redl_outcome.specs.Brought.{Brought};
ghost use Rattle.redl_rounds_sound.specs.Orders.{OrderIsFree};
ghost use Rattle.redl_rounds_sound.specs.Rounds.{AlikeIsSettled, JoinedStandFor, ResumedStandsFor};
ghost use Rattle.redl_rounds_sound.specs.Second.{LeftIsTakenAgain};
ghost use Rattle.redl_rounds_sound.specs.Settled.{OnlyEmptyMoves, SettledIsCounted};
ghost use Rattle.redl_rounds_sound.specs.Told.{TakenUnlessTold};

/// A joined journal stands for those that it joins.
///
/// Where `join` wrote a file of these journals, and that file is within the limit of journal bytes, `write` with it has the status, the
/// bytes and the lines of `write` with these journals, if that is written.
pub fn joined_stand_for()
    ensures { (reader : Reader) → IsReader reader → (files : Files) (brought : Brought) → JoinedStandFor reader files brought }
{}

/// A journal of two sittings stands for both.
///
/// Where `resume` wrote a file, and that is within the limit of journal bytes, `write` of the first package with it has status 0, and the
/// bytes that `write` of the second package with its own journals has, if that is written.
pub fn resumed_stands_for()
    ensures { (reader : Reader) → IsReader reader → (files : Files) (brought : Brought) → ResumedStandsFor reader files brought }
{}

/// Journals that accept every revision, or reject every one, stand for `settle`: what is written has the same bytes.
pub fn alike_is_settled()
    ensures { (reader : Reader) → IsReader reader → (files : Files) (brought : Brought) → AlikeIsSettled reader files brought }
{}

/// What `settle` or `write` wrote of a package is a package again, so `check` takes it, and a second round can begin.
///
/// That is so unless stretches that meet form `]]>`, or what was written is deeper or longer than a package may be. `check` of the file has
/// status 0, and tells how many revisions what was left has.
pub fn left_is_taken_again()
    ensures { (reader : Reader) → IsReader reader → (files : Files) (brought : Brought) → LeftIsTakenAgain reader files brought }
{}

/// What `settle` or `write` wrote of a package is a package again exactly unless the call told that it will not be read again.
///
/// Its last lines are the notes on that: what was left is deeper or longer than a package may be, or stretches that meet in it form `]]>`.
/// Where there is none, `check` takes what was written; where there is one, no call takes it.
pub fn taken_unless_told()
    ensures { (reader : Reader) → IsReader reader → (files : Files) (brought : Brought) → TakenUnlessTold reader files brought }
{}

/// What `check` counts after `settle` are moves without members: range markers that pair only when all around them is settled.
pub fn settled_is_counted()
    ensures left { OnlyEmptyMoves }
    ensures call { (reader : Reader) (files : Files) (brought : Brought) → SettledIsCounted reader files brought }
{}

/// The order of journals and repeats do not count, and so do not decide whether a call is written.
///
/// Where a call is written, the same command with its journals in another order or with repeats comes to the same, if these are within
/// the limit of journal bytes.
pub fn order_is_free()
    ensures { (reader : Reader) (files : Files) (brought : Brought) → OrderIsFree reader files brought }
{}
