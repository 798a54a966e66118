//! What becomes of the entries of journals: those that a session admits, and those that it refuses.

ghost use Rattle.std.specs.Prelude.{◌≡◌, All, OnOk};
ghost use Rattle.redl_inputs.specs.Admission.{admission_with};
ghost use Rattle.redl_inputs.specs.Views.{admission_view};
ghost use Rattle.redl_journal.specs.Journals.{IsAllowed};

use crate::document::Document;
use redl_journal::Entry;
use redl_lines::Remarks;
use redl_session::Session;
use std::alloc::AllocError;

/// A session over a package, and what there is to remark.
#[derive(Drop)]
pub struct Admitted<'b> {
    /// The package, as its journals know it.
    pub document: Document<'b>,
    /// The session.
    pub session: Session<'b>,
    /// The entries that it refused, and the locks that hold nothing.
    pub remarks: Remarks,
}

impl<'b> Admitted<'b> {
    /// Takes these entries too. `Err` means out of memory, and some of them may be there.
    pub fn admit(&mut self, entries: Vec<Entry>) -> Result<(), AllocError>
        requires { All IsAllowed entries.items }
        ensures { OnOk result (admission_view self.new ≡ admission_with (admission_view self.old) entries.items) }
    {
        let refused = self.session.admit_many(entries)?;
        self.remarks.refused.add_all(refused)
    }
}
