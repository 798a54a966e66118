//! What a change did.

ghost use Rattle.std.specs.Prelude.{◌≡◌};
ghost use Rattle.redl_marks.specs.Marks.{sign_place};

/// What a change did to a unit.
#[derive(Clone, Copy, Debug, PartialEq, Eq)]
pub enum Sign {
    /// It inserted it.
    Inserted,
    /// It deleted it.
    Deleted,
    /// It moved it to here.
    MovedTo,
    /// It moved it from here.
    MovedFrom,
    /// It changed the properties of its run.
    Formatted,
}

impl Sign {
    /// Its place in the order of marks.
    pub fn place(self) -> u8
        ensures { result ≡ sign_place self }
    {
        match self {
            Sign::Inserted => 0,
            Sign::Deleted => 1,
            Sign::MovedTo => 2,
            Sign::MovedFrom => 3,
            Sign::Formatted => 4,
        }
    }
}
