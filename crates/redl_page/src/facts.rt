//! What is known of a package before its page is put.

ghost use Rattle.std.specs.Prelude.{IfOk};
ghost use Rattle.redl_page.specs.PageViews.{AreFacts};

use redl_comments::{Comment, Threads, comments_of, states_of, threads_of};
use redl_hidden::HiddenStyles;
use redl_opc::Package;
use redl_page_numbers::Numbers;
use redl_page_pictures::Pictures;
use redl_places::NoteSigns;
use std::alloc::{AllocError, Global};

/// What is known of a package before its page is put: all that takes memory.
#[derive(Drop)]
pub struct PageFacts<'a> {
    /// The signs of its notes.
    pub(crate) signs: NoteSigns,
    /// What hides runs.
    pub(crate) hidden: HiddenStyles<'a>,
    /// The numbers of its paragraphs.
    pub(crate) numbers: Numbers,
    /// Its comments, in the order of their part.
    pub(crate) comments: Vec<Comment>,
    /// Their threads.
    pub(crate) threads: Threads,
    /// Its pictures.
    pub(crate) pictures: Pictures<'a>,
}

impl<'a> PageFacts<'a> {
    /// Those of a package. `Err` means out of memory.
    pub fn of(alloc: Global, pkg: &Package<'a>) -> Result<PageFacts<'a>, AllocError>
        ensures { IfOk result (λ facts. AreFacts facts pkg.now) }
    {
        let comments = comments_of(alloc, pkg)?;
        let states = states_of(alloc, pkg)?;
        let threads = threads_of(alloc, &comments, &states)?;
        let signs = NoteSigns::of(alloc, pkg)?;
        let hidden = HiddenStyles::of(alloc, pkg)?;
        let numbers = Numbers::of(alloc, pkg)?;
        let pictures = Pictures::of(alloc, pkg)?;
        Ok(PageFacts {
            signs,
            hidden,
            numbers,
            comments,
            threads,
            pictures,
        })
    }
}
