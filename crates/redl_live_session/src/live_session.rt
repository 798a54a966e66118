//! Sessions with an editor.

ghost use Rattle.std.specs.Prelude.{◌≡◌, ◌<◌, ◌≤◌, ◌+◌, [], None, All, true, length, map, IfOk, IfErr, OnOk, OnErr, if◌then◌else◌};
ghost use Rattle.redl_index.specs.Numbers.{numbered_package};
ghost use Rattle.redl_index.specs.Revisions.{revisions_of};
ghost use Rattle.redl_io.specs.Sink.{Puts};
ghost use Rattle.redl_join.specs.Books.{has_entry, union, with_entry};
ghost use Rattle.redl_join.specs.Verdicts.{verdict_at};
ghost use Rattle.redl_journal.specs.Journals.{IsAllowed};
ghost use Rattle.redl_live_session.specs.Costs.{IsCounted, entry_cost};
ghost use Rattle.redl_rules.specs.Attributes.{broken_rule};
ghost use Rattle.redl_session.specs.Refusals.{IsCause, admitted, cause_of, refusals};
ghost use Rattle.redl_session.specs.Says.{verdicts_of};
ghost use Rattle.redl_session.specs.Sessions.{says};
ghost use Rattle.redl_session.specs.declared.refusal.Taken.TheVariants.{New, Repeat};
ghost use Rattle.redl_tree.specs.Decisions.Packages.{pass_package, roots_are_plain, stories};
ghost use Rattle.redl_tree.specs.Decisions.Survivors.{survivors, text_pieces};
ghost use Rattle.redl_tree.specs.Model.Text.{text};

use crate::turning::{changes_to, copy_of};
use redl_editor::Editor;
use redl_index::Index;
use redl_io::{Failed, Sink};
use redl_join::{Book, Verdict};
use redl_journal::Entry;
use redl_opc::Package;
use redl_resolve::Steps;
use redl_session::{AdmitError, Locks, Refusal, Taken, add_copy, cause, say_of, take_in, verdicts};
use std::alloc::{AllocError, Global};
use std::marker::{Brand, Model};
use std::sync::ledger::{Blank, Ledger};

/// A sound package, its revisions, the locks, and the book of the entries that were admitted. Contracts see these four, as of a
/// `Session`. The say of each revision in the editor is always that of the book's verdict.
#[derive(Drop)]
pub struct LiveSession<'a> {
    alloc: Global,
    editor: Editor<'a>,
    index: Index,
    locks: Locks,
    book: Book,
}

impl<'a> Model for LiveSession<'a> {
    ghost use Rattle.std.specs.Coded.{codes};
    ghost use Rattle.redl_live_session.specs.Consistency.{IsConsistent};
    ghost use Rattle.redl_session.specs.Sessions.{SessionState, state_code};

    ghost Value = { SessionState };

    ghost coded = { state_code (Prim.hlevel codes) (Prim.hlevel codes) (Prim.hlevel codes) (Prim.hlevel codes) };

    ghost view = { λ session. record { nodes = session.editor.nodes; revisions = session.index; locks = session.locks; book = session.book } };

    ghost invariant = { λ session. IsConsistent session.editor.nodes session.index session.book session.editor.says };
}

impl<'a> LiveSession<'a> {
    /// A session with no entries. `Err` means out of memory, and drops all three.
    ///
    /// The package has the kinds and numbers that its index gave it, and is sound. The roots of its stories are in no revision: that
    /// is so where it was read and then numbered.
    pub fn start(
        alloc: Global,
        pkg: Package<'a>,
        index: Index,
        locks: Locks,
    ) -> Result<LiveSession<'a>, AllocError>
        requires numbered { numbered_package pkg ≡ pkg }
        requires index { index ≡ revisions_of pkg }
        requires sound { broken_rule pkg ≡ None }
        requires plain { roots_are_plain [] pkg ≡ true }
        ensures { IfOk result (λ session. session ≡ record { nodes = pkg.entry; revisions = index; locks = locks; book = [] }) }
    {
        let editor = Editor::new(alloc, pkg, index.count())?;
        Ok(LiveSession {
            alloc,
            editor,
            index,
            locks,
            book: Book::new(alloc),
        })
    }

    /// Admits the entry, and sets the say of its revision. A refusal hands it back and changes nothing.
    ///
    /// `Unknown` exactly if the package does not have its revision. Otherwise `Locked` exactly if a lock holds the revision, with
    /// what bars it. Otherwise `Repeat` if the book has the entry, and nothing changes. `NoMemory` means out of memory.
    pub fn admit(&mut self, entry: Entry) -> Result<Taken, Refusal>
        requires { IsAllowed entry }
        ensures admitted { OnOk result (cause_of self.old.revisions self.old.locks entry ≡ None) }
        ensures taken { OnOk result (self.new ≡ record self.old { book = with_entry self.old.book entry }) }
        ensures was_new { IfOk result (λ taken. taken ≡ (if has_entry self.old.book entry then Repeat else New)) }
        ensures repeat { result ≡ Ok Repeat → self.new ≡ self.old }

        // A refusal
        ensures cause { IfErr result (λ refusal. IsCause refusal.why (cause_of self.old.revisions self.old.locks entry)) }
        ensures returned { IfErr result (λ refusal. refusal.entry ≡ entry) }
        ensures untouched { OnErr result (self.new ≡ self.old) }
    {
        self.admit_uncounted::<Brand>(entry, Blank::new(1))
    }

    /// The same as `admit`, with the steps of the editor counted.
    pub fn admit_counted<L: Ledger>(
        &mut self,
        entry: Entry,
        steps: &mut Steps<L>,
    ) -> Result<Taken, Refusal>
        requires { IsAllowed entry }
        ensures admitted { OnOk result (cause_of self.old.revisions self.old.locks entry ≡ None) }
        ensures taken { OnOk result (self.new ≡ record self.old { book = with_entry self.old.book entry }) }
        ensures was_new { IfOk result (λ taken. taken ≡ (if has_entry self.old.book entry then Repeat else New)) }
        ensures repeat { result ≡ Ok Repeat → self.new ≡ self.old }

        // At most the sizes of the leaves that its revision touches, where that gets another say, and the lengths of their paths, also
        // with a refusal.
        ensures steps { steps.new ≤ steps.old + entry_cost self.old entry }

        // At least as many as each of these leaves has nodes then.
        ensures counted { OnOk result (IsCounted self.old self.new steps.old steps.new) }

        // A refusal
        ensures cause { IfErr result (λ refusal. IsCause refusal.why (cause_of self.old.revisions self.old.locks entry)) }
        ensures returned { IfErr result (λ refusal. refusal.entry ≡ entry) }
        ensures untouched { OnErr result (self.new ≡ self.old) }
    {
        if let Some(why) = cause(&self.index, &self.locks, &entry) {
            return Err(Refusal { entry, why });
        }
        match add_copy(self.alloc, &mut self.book, &entry) {
            Ok(true) => {
                let say = say_of(self.book.verdict(entry.rev));
                match self.editor.set_counted(entry.rev, say, steps) {
                    Ok(()) => Ok(Taken::New),
                    Err(_) => {
                        self.book.remove(&entry);
                        Err(Refusal {
                            entry,
                            why: AdmitError::NoMemory,
                        })
                    }
                }
            }
            Ok(false) => Ok(Taken::Repeat),
            Err(_) => Err(Refusal {
                entry,
                why: AdmitError::NoMemory,
            }),
        }
    }

    /// Admits these entries, one after another, and gives the refused ones in their order. The says are set once, after all of them,
    /// so a leaf is made anew at most once, and this is faster than `admit` for many entries.
    ///
    /// `Err` means out of memory, and nothing is changed. While it runs there is a second book.
    pub fn admit_many(&mut self, entries: Vec<Entry>) -> Result<Vec<Refusal>, AllocError>
        requires { All IsAllowed entries.items }
        ensures admitted { OnOk result (self.new
            ≡ record self.old { book = union self.old.book (admitted self.old.revisions self.old.locks entries.items) }) }
        ensures refused { IfOk result (λ refused. refused.items ≡ refusals self.old.revisions self.old.locks entries.items) }
        ensures untouched { OnErr result (self.new ≡ self.old) }
    {
        let mut book = copy_of(self.alloc, &self.book)?;
        let refused = take_in(self.alloc, &self.index, &self.locks, &mut book, entries)?;
        let changes = changes_to(self.alloc, &book, self.editor.says(), self.index.count())?;
        self.editor.set_many(&changes)?;
        self.book = book;
        Ok(refused)
    }

    /// What the reviewers' words on the revision come to.
    pub fn verdict(&self, rev: u32) -> Verdict
        ensures { result ≡ verdict_at self.now.book rev }
    {
        self.book.verdict(rev)
    }

    /// The verdict on each revision, in the order of their numbers. `Err` means out of memory.
    pub fn verdicts(&self) -> Result<Vec<Verdict>, AllocError>
        ensures { IfOk result (λ verdicts. verdicts.items ≡ verdicts_of self.now.book (length self.now.revisions)) }
    {
        verdicts(self.alloc, &self.book, self.index.count())
    }

    /// The entries that were admitted.
    pub fn book(&self) -> &Book
        ensures { result.now ≡ self.now.book }
    {
        &self.book
    }

    /// The revisions of the package.
    pub fn index(&self) -> &Index
        ensures { result.now ≡ self.now.revisions }
    {
        &self.index
    }

    /// The document as it is at present: the package, with the say of each verdict.
    pub fn editor(&self) -> &Editor<'a>
        ensures { result.now ≡ record { nodes = self.now.nodes; says = says self.now } }
    {
        &self.editor
    }

    /// Puts the text of the package under the says, and takes no memory. `Failed` comes only where the sink failed, which has a
    /// prefix of the text then.
    pub fn write<K: Sink>(&self, out: &mut K) -> Result<(), Failed>
        ensures written { Puts K.told K.faults K.settled K.lenders out.old out.new (text (pass_package (says self.now) self.now.nodes)) result }

        // This has exactly the text that survives, in a sound package.
        ensures survival { map text_pieces (stories (pass_package (says self.now) self.now.nodes)) ≡ map (survivors (says self.now)) (stories self.now.nodes) }
        ensures soundness { broken_rule (pass_package (says self.now) self.now.nodes) ≡ None }
    {
        self.editor.write(out)
    }

    // The same as `admit`, with a counter by this blank, which nobody reads.
    fn admit_uncounted<L: Ledger>(&mut self, entry: Entry, blank: Blank) -> Result<Taken, Refusal>
        requires name { blank.name ≡ L.name }
        requires parts { blank.parts ≡ L.parts }
        requires some { 0 < L.parts }
        requires allowed { IsAllowed entry }
        ensures admitted { OnOk result (cause_of self.old.revisions self.old.locks entry ≡ None) }
        ensures taken { OnOk result (self.new ≡ record self.old { book = with_entry self.old.book entry }) }
        ensures was_new { IfOk result (λ taken. taken ≡ (if has_entry self.old.book entry then Repeat else New)) }
        ensures repeat { result ≡ Ok Repeat → self.new ≡ self.old }
        ensures cause { IfErr result (λ refusal. IsCause refusal.why (cause_of self.old.revisions self.old.locks entry)) }
        ensures returned { IfErr result (λ refusal. refusal.entry ≡ entry) }
        ensures untouched { OnErr result (self.new ≡ self.old) }
    {
        self.admit_counted(entry, &mut Steps::<L>::new(blank))
    }
}
