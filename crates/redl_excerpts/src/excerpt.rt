//! An excerpt: the words of a revision, and what is before and behind them, as its members tell them one by one.

ghost use Rattle.std.specs.Prelude.{◌≡◌, IfOk, OnOk, true, false, if◌then◌else◌};
ghost use Rattle.redl_changed.specs.Changed.{nothing_changed};
ghost use Rattle.redl_tree.specs.Model.View.{nodes_of, tag_of};
ghost use Rattle.redl_excerpts.specs.Excerpts.{is_trimmed, nothing_told, told};
ghost use Rattle.redl_excerpts.specs.Mentions.{id_of, paragraph_end_in, stretch_in};
ghost use Rattle.redl_said.specs.Lines.{along, before};
ghost use Rattle.redl_said.specs.Said.{said};

use redl_changed::ChangedSaid;
use redl_io::Text;
use redl_kinds::RevKind;
use redl_said::{Ear, LinePlace, Phrase, before, behind, tell_nodes};
use redl_stamp::attribute;
use redl_tree::{Elem, Node};
use std::alloc::{AllocError, Global};

// How many characters of words are kept.
const ROOM: u8 = 200;

/// What is told of a revision.
#[derive(Drop)]
pub struct Excerpt {
    /// Its words.
    pub words: Phrase,
    /// The own id of its first member, where that has one.
    pub id: Option<Text>,
    /// What comes before its first member in the same paragraph, at most 40 characters.
    pub before: Text,
    /// What comes after its last member in the same paragraph, at most 40 characters.
    pub behind: Text,
    /// The properties that its first member changes.
    pub changed: ChangedSaid,
    /// Whether a member told.
    pub begun: bool,
}

impl Excerpt {
    /// Nothing is told so far of a revision of this kind. `Err` means out of memory.
    pub(crate) fn new(alloc: Global, kind: RevKind) -> Result<Excerpt, AllocError>
        ensures { IfOk result (λ excerpt. excerpt ≡ nothing_told kind) }
    {
        Ok(Excerpt {
            words: Phrase::new(alloc, ROOM, is_trimmed(kind)),
            id: None,
            before: Text::copy_of(alloc, b"")?,
            behind: Text::copy_of(alloc, b"")?,
            changed: ChangedSaid::none(alloc)?,
            begun: false,
        })
    }

    /// A member tells of these nodes, which begin at this place of the line. It gives the place where they end in the line. `Err`
    /// means out of memory.
    pub(crate) fn tell_stretch(
        &mut self,
        alloc: Global,
        elem: &Elem,
        line: &[u8],
        place: LinePlace,
        nodes: &[Node],
    ) -> Result<LinePlace, AllocError>
        ensures told { OnOk result (self.new ≡ told self.old (stretch_in line.now (tag_of elem.now) place (nodes_of nodes.now))) }
        ensures end { IfOk result (λ end. end ≡ along place (said true false (nodes_of nodes.now))) }
    {
        self.begin(alloc, elem, line, place)?;
        tell_nodes(nodes, false, false, &mut self.words)?;
        let mut end = place;
        tell_nodes(nodes, true, false, &mut end)?;
        self.behind = behind(alloc, line, end)?;
        Ok(end)
    }

    /// A member tells of the end of the paragraph with this line. `Err` means out of memory.
    pub(crate) fn tell_paragraph_end(
        &mut self,
        alloc: Global,
        elem: &Elem,
        line: &[u8],
    ) -> Result<(), AllocError>
        ensures { OnOk result (self.new ≡ told self.old (paragraph_end_in line.now (tag_of elem.now))) }
    {
        self.begin(alloc, elem, line, LinePlace::end())?;
        self.words.hear("\u{B6}".as_bytes())?;
        self.behind = Text::copy_of(alloc, b"")?;
        Ok(())
    }

    /// The first member tells its id, and what stands before it, and changes no properties so far. `Err` means out of memory.
    pub(crate) fn begin(
        &mut self,
        alloc: Global,
        elem: &Elem,
        line: &[u8],
        place: LinePlace,
    ) -> Result<(), AllocError>
        ensures { OnOk result (self.new ≡ record {
          words = self.old.words;
          id = if self.old.begun then self.old.id else id_of (tag_of elem.now);
          before = if self.old.begun then self.old.before else before line.now place;
          behind = self.old.behind;
          changed = if self.old.begun then self.old.changed else nothing_changed;
          begun = true;
        }) }
    {
        if !self.begun {
            self.id = attribute(alloc, elem.tail(), b"id")?;
            self.before = before(alloc, line, place)?;
            self.changed = ChangedSaid::none(alloc)?;
            self.begun = true;
        }
        Ok(())
    }
}

fn is_trimmed(kind: RevKind) -> bool
    ensures { result ≡ is_trimmed kind }
{
    match kind {
        RevKind::Content(_) | RevKind::Move | RevKind::Mark(_) => false,
        RevKind::Row(_) | RevKind::Cell(_) | RevKind::Change(_) => true,
    }
}
