//! A member in which other members stand: the nodes in it are gone over once, for all of them.

ghost use Rattle.std.specs.Prelude.{◌≡◌, IfOk, OnOk, false};
ghost use Rattle.redl_excerpts.specs.Inside.Around.{closed, closed_if, first_if, first_of, opened, opened_if};
ghost use Rattle.redl_excerpts.specs.Mentions.{stretch_in};
ghost use Rattle.redl_said.specs.Lines.{behind};
ghost use Rattle.redl_said.specs.Said.{said};
ghost use Rattle.redl_tree.specs.Model.View.{kids_of, tag_of};

use crate::excerpt::Excerpt;
use redl_changed::ChangedSaid;
use redl_io::Text;
use redl_said::{LinePlace, behind, tell_nodes};
use redl_tree::Elem;
use std::alloc::{AllocError, Global};
use std::mem;

/// What is put away of an excerpt while members inside one of its own tell.
#[derive(Drop)]
pub(crate) struct Away {
    id: Option<Text>,
    before: Text,
    changed: ChangedSaid,
}

impl Excerpt {
    // A member tells of what it holds, which begins at this place of the line, but for what comes after that: this is told at its
    // end, by `end_around`. Until then `begun` says whether a member inside it told. `Err` means out of memory.
    fn begin_around(
        &mut self,
        alloc: Global,
        elem: &Elem,
        line: &[u8],
        place: LinePlace,
    ) -> Result<Away, AllocError>
        ensures opened { OnOk result (self.new ≡ opened self.old (said false false (kids_of elem.now))) }
        ensures away { IfOk result (λ away. away ≡ first_of self.old (stretch_in line.now (tag_of elem.now) place (kids_of elem.now))) }
    {
        self.begin(alloc, elem, line, place)?;
        tell_nodes(elem.kids(), false, false, &mut self.words)?;
        self.begun = false;
        let nothing = Text::copy_of(alloc, b"")?;
        let unchanged = ChangedSaid::none(alloc)?;
        Ok(Away {
            id: self.id.take(),
            before: mem::replace(&mut self.before, nothing),
            changed: mem::replace(&mut self.changed, unchanged),
        })
    }

    // The member that began last ends at this place of the line. `Err` means out of memory.
    fn end_around(
        &mut self,
        alloc: Global,
        line: &[u8],
        end: LinePlace,
        away: Away,
    ) -> Result<(), AllocError>
        ensures { OnOk result (self.new ≡ closed self.old away (behind line.now end)) }
    {
        if !self.begun {
            self.behind = behind(alloc, line, end)?;
        }
        self.id = away.id;
        self.before = away.before;
        self.changed = away.changed;
        self.begun = true;
        Ok(())
    }
}

/// A member tells of what it holds, which begins at this place of the line, if an excerpt of its revision is made, but for what comes
/// after that: this is told at its end, by `end_around`. Until then `begun` says whether a member inside it told. `Err` means out
/// of memory.
pub(crate) fn begin_around(
    alloc: Global,
    excerpt: &mut Option<Excerpt>,
    elem: &Elem,
    line: &[u8],
    place: LinePlace,
) -> Result<Option<Away>, AllocError>
    ensures opened { OnOk result (excerpt.new ≡ opened_if (said false false (kids_of elem.now)) excerpt.old) }
    ensures away { IfOk result (λ away. away ≡ first_if (stretch_in line.now (tag_of elem.now) place (kids_of elem.now)) excerpt.old) }
{
    match excerpt {
        Some(excerpt) => {
            let away = excerpt.begin_around(alloc, elem, line, place)?;
            Ok(Some(away))
        }
        None => Ok(None),
    }
}

/// The member that began last ends at this place of the line. `Err` means out of memory.
pub(crate) fn end_around(
    alloc: Global,
    excerpt: &mut Option<Excerpt>,
    line: &[u8],
    end: LinePlace,
    away: Option<Away>,
) -> Result<(), AllocError>
    ensures { OnOk result (excerpt.new ≡ closed_if excerpt.old away (behind line.now end)) }
{
    let Some(away) = away else {
        return Ok(());
    };
    match excerpt {
        Some(excerpt) => excerpt.end_around(alloc, line, end, away),
        None => Ok(()),
    }
}
