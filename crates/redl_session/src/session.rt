//! A session: a sound package, its locks, and the book of the entries that it admitted.
ghost use Rattle.std.specs.Prelude.{◌≡◌, [], None, All, length, map, IfOk, IfErr, OnOk, OnErr, if◌then◌else◌};
ghost use Rattle.redl_index.specs.Numbers.{numbered_package};
ghost use Rattle.redl_index.specs.Revisions.{revisions_of};
ghost use Rattle.redl_join.specs.Books.{has_entry, union, with_entry};
ghost use Rattle.redl_join.specs.Verdicts.{verdict_at};
ghost use Rattle.redl_journal.specs.Journals.{IsAllowed};
ghost use Rattle.redl_rules.specs.Attributes.{broken_rule};
ghost use Rattle.redl_session.specs.Refusals.{IsCause, admitted, cause_of, refusals};
ghost use Rattle.redl_session.specs.Says.{verdicts_of};
ghost use Rattle.redl_session.specs.declared.refusal.Taken.TheVariants.{New, Repeat};
ghost use Rattle.redl_session.specs.Sessions.{StopsAfter, says};
ghost use Rattle.redl_session.specs.Writing.{PutsOrNothing};
ghost use Rattle.redl_tree.specs.Decisions.Packages.{pass_package, stories};
ghost use Rattle.redl_tree.specs.Decisions.Survivors.{survivors, text_pieces};
ghost use Rattle.redl_tree.specs.Model.Text.{text};
ghost use Rattle.redl_tree.specs.Model.View.{nodes_of};

use crate::admission::{add_copy, cause, take_in};
use crate::locks::Locks;
use crate::refusal::{AdmitError, Refusal, SessionWriteError, Taken};
use crate::says::{book_says, verdicts};
use redl_index::Index;
use redl_io::Sink;
use redl_join::{Book, Verdict};
use redl_journal::Entry;
use redl_opc::Package;
use redl_output::write_nodes;
use redl_resolve::{into_passed, pass};
use redl_tree::{Node, Say};
use std::alloc::{AllocError, Global};
use std::marker::Model;

/// A sound package, its revisions, the locks, and the book of the entries that were admitted. Contracts see these four. The says
/// are made of the book when they are asked for, so that entries cost the same however many revisions there are.
#[derive(Drop)]
pub struct Session<'a> {
    alloc: Global,
    original: Package<'a>,
    index: Index,
    locks: Locks,
    book: Book,
}

impl<'a> Model for Session<'a> {
    ghost use Rattle.std.specs.Coded.{codes};
    ghost use Rattle.redl_session.specs.Sessions.{SessionState, state_code, IsInOrder};

    ghost Value = { SessionState };

    ghost coded = { state_code (Prim.hlevel codes) (Prim.hlevel codes) (Prim.hlevel codes) (Prim.hlevel codes) };

    ghost view = { λ session. record { nodes = session.original; revisions = session.index; locks = session.locks; book = session.book } };

    ghost invariant = { λ session. IsInOrder session.original session.book };
}

impl<'a> Session<'a> {
    /// A session with no entries.
    ///
    /// The package has the kinds and numbers that its index gave it, and is sound.
    pub fn start(alloc: Global, pkg: Package<'a>, index: Index, locks: Locks) -> Session<'a>
        requires numbered { numbered_package pkg ≡ pkg }
        requires index { index ≡ revisions_of pkg }
        requires sound { broken_rule pkg ≡ None }
        ensures { result ≡ record { nodes = pkg.entry; revisions = index; locks = locks; book = [] } }
    {
        Session {
            alloc,
            original: pkg,
            index,
            locks,
            book: Book::new(alloc),
        }
    }

    /// Admits the entry. A refusal hands it back and changes nothing.
    ///
    /// `Unknown` exactly if the package does not have its revision. Otherwise `Locked` exactly if a lock holds the revision, with
    /// what bars it. Otherwise `Repeat` if the book has the entry, and nothing changes. `NoMemory` means out of memory.
    ///
    /// For programs that take in one entry at a time; the commands take in those of a journal together, by `admit_many`.
    pub fn admit(&mut self, entry: Entry) -> Result<Taken, Refusal>
        requires { IsAllowed entry }
        ensures admitted { OnOk result (cause_of self.old.revisions self.old.locks entry ≡ None) }
        ensures taken { OnOk result (self.new ≡ record self.old { book = with_entry self.old.book entry }) }
        ensures was_new { IfOk result (λ taken. taken ≡ (if has_entry self.old.book entry then Repeat else New)) }
        ensures repeat { result ≡ Ok Repeat → self.new ≡ self.old }

        // A refusal
        ensures cause { IfErr result (λ refusal. IsCause refusal.why (cause_of self.old.revisions self.old.locks entry)) }
        ensures returned { IfErr result (λ refusal. refusal.entry ≡ entry) }
        ensures untouched { OnErr result (self.new ≡ self.old) }
    {
        if let Some(why) = cause(&self.index, &self.locks, &entry) {
            return Err(Refusal { entry, why });
        }
        match add_copy(self.alloc, &mut self.book, &entry) {
            Ok(true) => Ok(Taken::New),
            Ok(false) => Ok(Taken::Repeat),
            Err(_) => Err(Refusal {
                entry,
                why: AdmitError::NoMemory,
            }),
        }
    }

    /// Admits these entries, one after another, and gives the refused ones in their order.
    ///
    /// `Err` means out of memory: a first part of the entries was admitted, and the refused ones of it are lost.
    pub fn admit_many(&mut self, entries: Vec<Entry>) -> Result<Vec<Refusal>, AllocError>
        requires { All IsAllowed entries.items }
        ensures admitted { OnOk result (self.new
            ≡ record self.old { book = union self.old.book (admitted self.old.revisions self.old.locks entries.items) }) }
        ensures refused { IfOk result (λ refused. refused.items ≡ refusals self.old.revisions self.old.locks entries.items) }
        ensures stopped { OnErr result (StopsAfter self.old self.new entries.items) }
    {
        take_in(
            self.alloc,
            &self.index,
            &self.locks,
            &mut self.book,
            entries,
        )
    }

    /// What the reviewers' words on the revision come to. For programs that ask about one revision at a time.
    pub fn verdict(&self, rev: u32) -> Verdict
        ensures { result ≡ verdict_at self.now.book rev }
    {
        self.book.verdict(rev)
    }

    /// The verdict on each revision, in the order of their numbers. `Err` means out of memory.
    pub fn verdicts(&self) -> Result<Vec<Verdict>, AllocError>
        ensures { IfOk result (λ verdicts. verdicts.items ≡ verdicts_of self.now.book (length self.now.revisions)) }
    {
        verdicts(self.alloc, &self.book, self.index.count())
    }

    /// The say of each revision, in the order of their numbers: that of its verdict. `Err` means out of memory.
    pub fn says(&self) -> Result<Vec<Say>, AllocError>
        ensures { IfOk result (λ said. said.items ≡ says self.now) }
    {
        book_says(self.alloc, &self.book, self.index.count())
    }

    /// The entries that were admitted.
    pub fn book(&self) -> &Book
        ensures { result.now ≡ self.now.book }
    {
        &self.book
    }

    /// The package as it was at the start, whatever was admitted.
    pub fn package(&self) -> &Package<'a>
        ensures { result.now ≡ self.now.nodes }
    {
        &self.original
    }

    /// The revisions of the package.
    pub fn index(&self) -> &Index
        ensures { result.now ≡ self.now.revisions }
    {
        &self.index
    }

    /// The entries that were admitted. The package goes.
    pub fn into_book(self) -> Book
        ensures { result ≡ self.entry.book }
    {
        self.book
    }

    /// The revisions of the package. The package goes.
    pub fn into_index(self) -> Index
        ensures { result ≡ self.entry.revisions }
    {
        self.index
    }

    /// Puts the text of the package under the says. `Failed` means that the sink failed and has only a prefix of the text.
    /// `NoMemory` means out of memory, and nothing was put.
    ///
    /// For programs that go on with the session; the commands take `into_passed`, which copies no nodes that stay.
    pub fn write<K: Sink>(&self, out: &mut K) -> Result<(), SessionWriteError>
        ensures { PutsOrNothing K.told K.faults K.settled K.lenders out.old out.new (text (pass_package (says self.now) self.now.nodes)) result }
    {
        let Ok(nodes) = self.passed() else {
            return Err(SessionWriteError::NoMemory);
        };
        match write_nodes(&nodes, out) {
            Ok(()) => Ok(()),
            Err(_) => Err(SessionWriteError::Failed),
        }
    }

    /// The nodes that are left of the package under the says. They are moved, so the original goes while they are made.
    /// `Err` means out of memory.
    pub fn into_passed(self) -> Result<Vec<Node<'a>>, AllocError>
        ensures passed { IfOk result (λ passed. nodes_of passed.items ≡ pass_package (says self.entry) self.entry.nodes) }

        // Exactly the text that survives is left, in a sound package.
        ensures survival { IfOk result (λ passed. map text_pieces (stories (nodes_of passed.items)) ≡ map (survivors (says self.entry)) (stories self.entry.nodes)) }
        ensures soundness { IfOk result (λ passed. broken_rule (nodes_of passed.items) ≡ None) }
    {
        let says = self.says()?;
        into_passed(self.alloc, self.original.into_nodes(), &says)
    }

    // A copy of the nodes that are left of the package under the says.
    fn passed(&self) -> Result<Vec<Node<'a>>, AllocError>
        ensures { IfOk result (λ passed. nodes_of passed.items ≡ pass_package (says self.now) self.now.nodes) }
    {
        let says = self.says()?;
        pass(self.alloc, self.original.nodes(), &says)
    }
}
