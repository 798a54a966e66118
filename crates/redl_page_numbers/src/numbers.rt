//! The numbers of a package.

ghost use Rattle.std.specs.Prelude.{◌≡◌, IfOk};
ghost use Rattle.redl_io.specs.Sink.{Puts};
ghost use Rattle.redl_html.specs.Pieces.{pieces_text};
ghost use Rattle.redl_page_numbers.specs.Package.{package_numbers};
ghost use Rattle.redl_page_numbers.specs.Pieces.{lists_of};

use crate::levels::used_levels;
use crate::put_levels::put_level_list;
use crate::put_rows::put_sort;
use crate::row::LevelRow;
use crate::stories::{StoryRows, stories_of};
use redl_clauses::package_tables;
use redl_io::{Failed, Sink};
use redl_numbering::Lists;
use redl_opc::Package;
use std::alloc::{AllocError, Global};
use std::marker::Model;

/// The paragraphs of a package that have a number, and the levels of their nums. Contracts see both lists.
#[derive(Drop)]
pub struct Numbers {
    stories: Vec<StoryRows>,
    levels: Vec<LevelRow>,
}

impl Model for Numbers {
    ghost use Rattle.redl_page_numbers.specs.Package.{PageNumbers};

    ghost Value = { PageNumbers };

    ghost view = { λ n. record { stories = n.stories.items; levels = n.levels.items } };
}

impl Numbers {
    /// Those of a package. It takes memory for each paragraph that has a number. `Err` means out of memory.
    #[tactic(auto, unfolding(crate::specs::Package::package_numbers))]
    pub fn of(alloc: Global, pkg: &Package) -> Result<Numbers, AllocError>
        ensures { IfOk result (λ numbers. numbers ≡ package_numbers pkg.now) }
    {
        let tables = package_tables(alloc, pkg)?;
        let lists = Lists::of(alloc, &tables)?;
        let known = stories_of(alloc, pkg, &tables, &lists)?;
        let levels = used_levels(alloc, &tables, &lists, &known.used)?;
        Ok(Numbers {
            stories: known.stories,
            levels,
        })
    }

    fn put<K: Sink>(&self, out: &mut K) -> Result<(), Failed>
        ensures { Puts K.told K.faults K.settled K.lenders out.old out.new (pieces_text (lists_of self.now)) result }
    {
        put_lists(&self.stories, &self.levels, out)
    }
}

/// Puts the lists of the page's numbers. It takes no memory. `Failed` comes only where the sink failed, which then has only a prefix.
pub fn put_numbers<K: Sink>(numbers: &Numbers, out: &mut K) -> Result<(), Failed>
    ensures { Puts K.told K.faults K.settled K.lenders out.old out.new (pieces_text (lists_of numbers.now)) result }
{
    numbers.put(out)
}

fn put_lists<K: Sink>(stories: &[StoryRows], levels: &[LevelRow], out: &mut K) -> Result<(), Failed>
    ensures { Puts K.told K.faults K.settled K.lenders out.old out.new (pieces_text (lists_of (record { stories = stories.now; levels = levels.now }))) result }
{
    put_sort(true, stories, out)?;
    put_sort(false, stories, out)?;
    put_level_list(levels, out)
}
