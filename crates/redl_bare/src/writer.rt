//! What units are put into.

ghost use Rattle.std.specs.Prelude.{◌≡◌};
ghost use Rattle.redl_bare.specs.Inside.Puts.{IsNew};

use crate::fields::Fields;
use crate::line::Line;
use redl_marks::Marks;

/// What units are put into: a sink, and what those before them left.
#[derive(Drop)]
pub struct Writer<'a, K> {
    /// Where the bytes go.
    pub sink: K,
    /// The marks of what is put now.
    pub(crate) marks: Marks<'a>,
    /// The line of characters.
    pub(crate) line: Line<'a>,
    /// The fields that are open.
    pub(crate) fields: Fields,
}

impl<'a, K> Writer<'a, K> {
    /// A writer before this sink. It takes no memory.
    pub fn new(sink: K) -> Writer<'a, K>
        ensures { result.sink ≡ sink }
    {
        Writer {
            sink,
            marks: Marks::none(),
            line: Line::none(),
            fields: Fields::none(),
        }
    }

    /// Makes it one before the first unit.
    pub(crate) fn restart(&mut self)
        ensures sink { self.new.sink ≡ self.old.sink }
        ensures new { IsNew self.new }
    {
        self.marks = Marks::none();
        self.line = Line::none();
        self.fields = Fields::none();
    }
}
