//! The stories of the page.

ghost use Rattle.std.specs.Prelude.{◌≡◌, length, IfOk};
ghost use Rattle.redl_hidden.specs.Styles.{package_hidden};
ghost use Rattle.redl_io.specs.Sink.{Puts};
ghost use Rattle.redl_tree.specs.Model.View.{tag_of, kids_of};
ghost use Rattle.redl_opc.specs.Elements.{element_of};
ghost use Rattle.redl_opc.specs.Parts.{story};
ghost use Rattle.redl_opc.specs.Shape.{parts_of};
ghost use Rattle.redl_places.specs.Places.{package_signs};
ghost use Rattle.redl_places.specs.Views.{signs_of};
ghost use Rattle.redl_shown.specs.Shown.{shown};
ghost use Rattle.redl_page_stories.specs.Document.{document_pieces, heading_piece, is_first_after, is_sort, name_at, section, section_at, section_heading, section_start, sections, stories_pieces};
ghost use Rattle.redl_page_stories.specs.Views.{facts_of};
ghost use Rattle.redl_html.specs.Pieces.{piece_text, pieces_text};

use crate::facts::StoryFacts;
use crate::nodes::put_nodes;
use crate::place::PageSummary;
use redl_html::put_escaped;
use redl_io::{Failed, Sink, put_piece};
use redl_opc::Package;
use redl_tree::Elem;

/// Puts the stories of a package, of which these are the facts, with an element for each member of a revision: documents first, and
/// then the others. It takes no memory.
/// `Failed` comes only where the sink failed, which then has only a prefix.
pub fn put_document<K: Sink>(
    pkg: &Package,
    facts: &StoryFacts<'_, '_>,
    out: &mut K,
) -> Result<(), Failed>
    requires signs { signs_of facts.now.signs.now ≡ package_signs pkg.now }
    requires hidden { facts.now.hidden.now ≡ package_hidden pkg.now }
    ensures { Puts K.told K.faults K.settled K.lenders out.old out.new (pieces_text (document_pieces shown facts.now.index.now pkg.now)) result }
{
    put_stories(pkg, facts, out)
}

fn put_stories<K: Sink>(
    pkg: &Package,
    facts: &StoryFacts<'_, '_>,
    out: &mut K,
) -> Result<(), Failed>
    ensures { Puts K.told K.faults K.settled K.lenders out.old out.new (pieces_text (stories_pieces shown (facts_of facts.now) pkg.now)) result }
{
    put_sections(pkg, facts, true, out)?;
    put_sections(pkg, facts, false, out)
}

// Puts the documents, or the other stories.
fn put_sections<K: Sink>(
    pkg: &Package,
    facts: &StoryFacts<'_, '_>,
    documents: bool,
    out: &mut K,
) -> Result<(), Failed>
    ensures { Puts K.told K.faults K.settled K.lenders out.old out.new (pieces_text (sections shown (facts_of facts.now) documents documents (parts_of pkg.now))) result }
{
    let mut first = documents;
    for part in 0..pkg.parts() {
        first = put_section_at(pkg, part, facts, documents, first, out)?;
    }
    Ok(())
}

// Puts the story of a part, if it has one of this sort, and says whether no story comes so far.
fn put_section_at<K: Sink>(
    pkg: &Package,
    part: u32,
    facts: &StoryFacts<'_, '_>,
    documents: bool,
    first: bool,
    out: &mut K,
) -> Result<bool, Failed>
    ensures puts { Puts K.told K.faults K.settled K.lenders out.old out.new (pieces_text (section_at shown (facts_of facts.now) pkg.now documents first part)) result }
    ensures first { IfOk result (λ now. now ≡ is_first_after documents first (story pkg.now part)) }
{
    let Some(root) = pkg.story(part) else {
        return Ok(first);
    };
    if !is_sort(documents, root) {
        return Ok(first);
    }
    put_section(facts, first, name_of(pkg, part), root, out)?;
    Ok(false)
}

// Whether a story is a document, or is none.
fn is_sort(documents: bool, root: &Elem) -> bool
    ensures { result ≡ is_sort documents (element_of root.now) }
{
    let is_document = root.local() == b"document".as_slice();
    if documents { is_document } else { !is_document }
}

fn name_of<'n>(pkg: &'n Package, part: u32) -> &'n [u8]
    ensures { result.now ≡ name_at pkg.now part }
{
    match pkg.part_name(part) {
        Some(name) => name,
        None => b"",
    }
}

fn put_section<K: Sink>(
    facts: &StoryFacts<'_, '_>,
    first: bool,
    name: &[u8],
    root: &Elem,
    out: &mut K,
) -> Result<(), Failed>
    ensures { Puts K.told K.faults K.settled K.lenders out.old out.new
        (pieces_text (section shown (facts_of facts.now) first name.now (tag_of root.now).local (kids_of root.now))) result }
{
    put_start(name, root.local(), out)?;
    put_heading(first, name, root.local(), out)?;
    put_nodes(facts, PageSummary::in_story(), root.kids(), out)?;
    put_piece(b"</section>\n", out)
}

// Puts the start of the story of the part with this name whose root has this local name.
fn put_start<K: Sink>(name: &[u8], sort: &[u8], out: &mut K) -> Result<(), Failed>
    ensures { Puts K.told K.faults K.settled K.lenders out.old out.new (pieces_text (section_start name.now sort.now)) result }
{
    put_piece(b"<section data-story=\"", out)?;
    put_escaped(sort, out)?;
    put_piece(b"\" data-part=\"", out)?;
    put_escaped(name, out)?;
    put_piece(b"\">\n", out)
}

// Puts the heading of a story, unless it is the first document.
fn put_heading<K: Sink>(first: bool, name: &[u8], sort: &[u8], out: &mut K) -> Result<(), Failed>
    ensures { Puts K.told K.faults K.settled K.lenders out.old out.new (pieces_text (section_heading first name.now sort.now)) result }
{
    if first {
        return Ok(());
    }
    put_piece(b"<h2>", out)?;
    put_heading_words(name, sort, out)?;
    put_piece(b"</h2>\n", out)
}

fn put_heading_words<K: Sink>(name: &[u8], sort: &[u8], out: &mut K) -> Result<(), Failed>
    ensures { Puts K.told K.faults K.settled K.lenders out.old out.new (piece_text (heading_piece name.now sort.now)) result }
{
    if sort == b"hdr".as_slice() {
        return put_piece(b"Header", out);
    }
    if sort == b"ftr".as_slice() {
        return put_piece(b"Footer", out);
    }
    if sort == b"footnotes".as_slice() {
        return put_piece(b"Footnotes", out);
    }
    if sort == b"endnotes".as_slice() {
        return put_piece(b"Endnotes", out);
    }
    if sort == b"comments".as_slice() {
        return put_piece(b"Comments", out);
    }
    put_escaped(name, out)
}
