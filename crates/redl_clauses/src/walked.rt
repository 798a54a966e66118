//! What a walk knows.

ghost use Rattle.std.specs.Prelude.{◌≡◌, IfOk, None, OnOk, replicate};
ghost use Rattle.redl_clauses.specs.Walks.{is_here, is_of_table, noted, settled, waits};
ghost use Rattle.redl_clauses.specs.Clauses.{begin};

use crate::told::{tell, tell_all};
use redl_io::Text;
use redl_numbering::Counting;
use redl_tree::{Kind, Prop};
use std::alloc::{AllocError, Global};
use std::marker::Model;

/// What was counted, what the revisions were told, and which of them wait.
#[derive(Drop)]
pub(crate) struct Walk {
    pub(crate) counting: Counting,
    told: Vec<Option<Text>>,
    waiting: Vec<u32>,
}

impl Model for Walk {
    ghost use Rattle.redl_clauses.specs.Walks.{Walk as Walked};

    ghost Value = { Walked };

    ghost view = { λ w. record { counts = w.counting; told = w.told.items; waiting = w.waiting.items } };
}

impl Walk {
    /// Nothing is known of so many revisions. `Err` means out of memory, here and below.
    pub(crate) fn new(alloc: Global, count: usize) -> Result<Walk, AllocError>
        ensures { IfOk result (λ walk. walk ≡ begin count) }
    {
        Ok(Walk {
            counting: Counting::new(alloc)?,
            told: untold(alloc, count)?,
            waiting: Vec::new(alloc),
        })
    }

    /// What the revisions were told.
    pub(crate) fn into_told(self) -> Vec<Option<Text>>
        ensures { result.items ≡ self.told }
    {
        self.told
    }

    /// A member of a revision stands here.
    #[inline(never)]
    pub(crate) fn note(
        &mut self,
        alloc: Global,
        kind: Kind,
        revision: u32,
    ) -> Result<(), AllocError>
        ensures { OnOk result (self.new ≡ noted kind revision self.old) }
    {
        match kind {
            Kind::Plain | Kind::Marker => Ok(()),
            Kind::Content(_) | Kind::Mark(_) => self.tell_here(alloc, revision),
            Kind::Row(_) | Kind::Cell(_) => self.wait(revision),
            Kind::Change(prop) => {
                if is_of_table(prop) {
                    return self.wait(revision);
                }
                self.tell_here(alloc, revision)
            }
        }
    }

    fn tell_here(&mut self, alloc: Global, revision: u32) -> Result<(), AllocError>
        ensures { OnOk result (self.new ≡ is_here revision self.old) }
    {
        tell(alloc, revision, self.counting.here(), &mut self.told)
    }

    fn wait(&mut self, revision: u32) -> Result<(), AllocError>
        ensures { OnOk result (self.new ≡ waits revision self.old) }
    {
        self.waiting.push(revision)?;
        Ok(())
    }

    /// Those that wait are told this.
    pub(crate) fn settle(&mut self, alloc: Global, clause: &Text) -> Result<(), AllocError>
        ensures { OnOk result (self.new ≡ settled clause.now self.old) }
    {
        tell_all(alloc, &self.waiting, clause, &mut self.told)?;
        self.waiting.clear();
        Ok(())
    }
}

fn untold(alloc: Global, count: usize) -> Result<Vec<Option<Text>>, AllocError>
    ensures { IfOk result (λ told. told.items ≡ replicate count None) }
{
    let mut told = Vec::with_capacity(alloc, count)?;
    for _ in 0..count {
        told.push(None)?;
    }
    Ok(told)
}

fn is_of_table(prop: Prop) -> bool
    ensures { result ≡ is_of_table prop }
{
    match prop {
        Prop::Table | Prop::Except | Prop::Row | Prop::Cell => true,
        Prop::Run | Prop::Para | Prop::Sect => false,
    }
}
