//! The signs of notes.

ghost use Rattle.std.specs.Prelude.{◌≡◌, ◌+◌, ◌<◌, ◌^◌, ℕ, List, None, Some, IfOk, OnOk, bytes_eq, if◌then◌else◌};
ghost use Rattle.redl_reading.specs.Steps.{or_else};
ghost use Rattle.redl_order.specs.declared.reference.Named.TheVariants as named;
ghost use Rattle.redl_places.specs.Signs.{count_after, sign_after, sign_by, sign_of};
ghost use Rattle.redl_places.specs.Places.{package_signs};
ghost use Rattle.redl_places.specs.Views.{sign_at, signs_of};

use redl_opc::Package;
use redl_order::{Named, Reference, document_references};
use std::alloc::{AllocError, Global};
use std::collections::BTreeMap;

/// What a reader sees at the first reference to a note.
#[derive(Clone, Copy)]
pub enum NoteSign {
    /// A sign of its own, which is the text after the reference.
    Own,
    /// The count of references of its kind up to there.
    Count(usize),
}

/// The signs of the notes of one kind, by the ids of their references.
#[derive(Drop)]
pub(crate) struct KindSigns {
    pub(crate) by_id: BTreeMap<Vec<u8>, NoteSign>,
}

/// The signs of the notes of a package, by the ids that references name.
#[derive(Drop)]
pub struct NoteSigns {
    pub(crate) footnotes: KindSigns,
    pub(crate) endnotes: KindSigns,
}

impl NoteSigns {
    /// The signs of the notes of a package. `Err` means out of memory, here and below.
    pub fn of(alloc: Global, pkg: &Package) -> Result<NoteSigns, AllocError>
        ensures { IfOk result (λ signs. signs_of signs ≡ package_signs pkg.now) }
    {
        let references = document_references(alloc, pkg)?;
        let footnotes = KindSigns::of(alloc, Named::Footnote, &references)?;
        let endnotes = KindSigns::of(alloc, Named::Endnote, &references)?;
        Ok(NoteSigns {
            footnotes,
            endnotes,
        })
    }

    /// The sign of the footnotes with this id, as it is written, if a reference names them.
    pub fn footnote(&self, id: &[u8]) -> Option<NoteSign>
        ensures { result ≡ (signs_of self.now).footnote id.now }
    {
        self.footnotes.at(id)
    }

    /// The sign of the endnotes with this id.
    pub fn endnote(&self, id: &[u8]) -> Option<NoteSign>
        ensures { result ≡ (signs_of self.now).endnote id.now }
    {
        self.endnotes.at(id)
    }
}

impl KindSigns {
    // The signs that these references give to notes of this kind.
    fn of(alloc: Global, kind: Named, references: &[Reference]) -> Result<KindSigns, AllocError>
        ensures { IfOk result (λ signs. (id : List ℕ) → sign_at signs id ≡ sign_of kind references.now id) }
    {
        let mut signs = KindSigns {
            by_id: BTreeMap::new(alloc),
        };
        let mut count = 0;
        for reference in references {
            signs.add(alloc, kind, count, reference)?;
            count = count_after(kind, count, reference);
        }
        Ok(signs)
    }

    // Gives the note that a reference names its sign, if it has none and is of this kind, where so many references came before that count.
    fn add(
        &mut self,
        alloc: Global,
        kind: Named,
        count: usize,
        reference: &Reference,
    ) -> Result<(), AllocError>
        requires { count + 1 < 2 ^ 64 }
        ensures { OnOk result ((id : List ℕ) → sign_at self.new id ≡ or_else (sign_at self.old id) (sign_by kind count reference.now id)) }
    {
        if kind.is(reference.named) {
            return self.add_new(alloc, reference.id.as_bytes(), sign_after(count, reference));
        }
        Ok(())
    }

    // Gives the notes with this id a sign, if they have none.
    fn add_new(&mut self, alloc: Global, id: &[u8], sign: NoteSign) -> Result<(), AllocError>
        ensures { OnOk result ((other : List ℕ) → sign_at self.new other ≡ or_else (sign_at self.old other) (if bytes_eq id.now other then Some sign else None)) }
    {
        if self.by_id.contains_key(id) {
            return Ok(());
        }
        let id = Vec::from_slice(alloc, id)?;
        self.by_id.insert(id, sign)?;
        Ok(())
    }

    // The sign of the notes with this id, if a reference names them.
    fn at(&self, id: &[u8]) -> Option<NoteSign>
        ensures { result ≡ sign_at self.now id.now }
    {
        self.by_id.get(id).copied()
    }
}

fn sign_after(count: usize, reference: &Reference) -> NoteSign
    requires { count + 1 < 2 ^ 64 }
    ensures { result ≡ sign_after count reference.now }
{
    if reference.own_sign {
        NoteSign::Own
    } else {
        NoteSign::Count(count + 1)
    }
}

fn count_after(kind: Named, count: usize, reference: &Reference) -> usize
    requires { count + 1 < 2 ^ 64 }
    ensures { result ≡ count_after kind count reference.now }
{
    if kind.is(reference.named) {
        if reference.own_sign {
            return count;
        }
        return count + 1;
    }
    count
}
