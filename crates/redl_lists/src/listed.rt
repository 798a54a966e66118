//! Lists that contracts see as lists.

ghost use Rattle.std.specs.Prelude.{◌≡◌};

use std::marker::Model;

/// Some rows. Contracts see the list of them.
#[derive(Drop)]
pub struct Listed<T> {
    rows: Vec<T>,
}

impl<T> Model for Listed<T> {
    ghost use Rattle.std.specs.Prelude.{List};

    ghost Value = { List T };

    ghost view = { λ listed. listed.rows.items };
}

impl<T> Listed<T> {
    /// These rows.
    pub(crate) fn of(rows: Vec<T>) -> Listed<T>
        ensures { result ≡ rows.items }
    {
        Listed { rows }
    }

    /// The rows, in their order.
    pub fn rows(&self) -> &[T]
        ensures { result.now ≡ self.now }
    {
        &self.rows
    }
}
