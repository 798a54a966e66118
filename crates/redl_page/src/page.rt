//! The whole page: its head with title, policy and style, its stories, its journals and its script.

ghost use Rattle.std.specs.Prelude.{◌≡◌, ◌++◌, [], ℕ, Some, codes, decimal, length, option_map};
ghost use Rattle.redl_io.specs.Sink.{Puts};
ghost use Rattle.redl_join.specs.LastWords.{last_words, words_on};
ghost use Rattle.redl_page.specs.Page.{body, body_head, body_start, end_text, fact_lists, head_text, heading_attributes, lists, page_text, picture_list, rank_attribute, reviewer_list, title_attribute, title_piece};
ghost use Rattle.redl_html.specs.Pieces.{piece_text, pieces_text};
ghost use Rattle.redl_page_stories.specs.Document.{document_pieces};
ghost use Rattle.redl_shown.specs.Shown.{shown};
ghost use Rattle.redl_page.specs.PageViews.{AreFacts, heading_view, shown_by, skin_view};

use crate::changes::{put_attribute, put_changes};
use crate::facts::PageFacts;
use crate::item::ItemWords;
use crate::reviewers::put_reviewers;
use itoa::Buffer;
use redl_html::put_escaped;
use redl_index::Index;
use redl_io::{Failed, Sink, put_piece, put_pieces};
use redl_join::{Book, LastWords};
use redl_journal::digest_digits;
use redl_opc::Package;
use redl_page_numbers::put_numbers;
use redl_page_pictures::put_pictures;
use redl_page_remarks::put_remarks;
use redl_page_stories::{StoryFacts, put_document};

/// What the program brings to every page, and what stands in it as it is: the content security policy, which is the value of an
/// attribute between quotes, the style, and the script.
#[derive(Clone, Copy)]
pub struct Skin<'a> {
    /// The content security policy.
    pub policy: &'a [u8],
    /// The style.
    pub style: &'a [u8],
    /// The script.
    pub script: &'a [u8],
}

/// What the sender of a page gives. A part that is `None` is not in the page.
#[derive(Clone, Copy)]
pub struct Heading<'a> {
    /// A title of the document.
    pub title: Option<&'a [u8]>,
    /// A rank for what is decided on the page.
    pub rank: Option<u8>,
    /// Whether the page has the pictures of the package.
    pub pictures: bool,
}

/// What a page shows, of a package whose revisions are numbered.
#[derive(Clone, Copy)]
pub struct Shown<'a, 'b> {
    /// The package.
    pub package: &'a Package<'b>,
    /// Its revisions.
    pub index: &'a Index,
    /// What is known of the package.
    pub facts: &'a PageFacts<'b>,
    /// Whether each revision is locked, in the order of their numbers.
    pub locked: &'a [bool],
    /// What is said of each revision beside its row, in the order of their numbers.
    pub said: &'a [ItemWords],
    /// The joined book.
    pub book: &'a Book,
    /// The SHA-256 of the text of the package.
    pub digest: &'a [u8; 32],
    /// What the sender gives.
    pub heading: Heading<'a>,
}

// What comes before the policy, between policy and title, between title and style, before the list of changes, and after the script.
const BEFORE_POLICY: &[u8] =
    b"<!DOCTYPE html>\n<html lang=\"en\">\n<head>\n<meta charset=\"utf-8\">\n<meta http-equiv=\"Content-Security-Policy\" content=\"";

const BEFORE_TITLE: &[u8] =
    b"\">\n<meta name=\"viewport\" content=\"width=device-width, initial-scale=1\">\n<title>";

const BEFORE_STYLE: &[u8] = b"</title>\n<style>";

const BEFORE_CHANGES: &[u8] =
    b"</main>\n<aside aria-label=\"Changes\">\n<noscript><p>Deciding needs the script of this page, which does not run here. The words below are what the journals say.</p></noscript>\n<ol>\n";

const AFTER_SCRIPT: &[u8] = b"</script>\n</body>\n</html>\n";

/// Puts the page: one document of HTML with the stories of the package, an element for each member of a revision, the list of the
/// revisions with each reviewer's last words, and the reviewers.
///
/// After the reviewers come the comments, the numbers of paragraphs, and the pictures if the sender wants them. `facts` are those of the
/// package, and `words` the last words of the book. `locked` says of each revision whether it is locked, and `said` what is said of it. It
/// goes once over the package and once over the revisions, and takes no memory. `Failed` comes only where the sink failed, which then has
/// only a prefix.
pub fn write_page<K: Sink>(
    skin: &Skin<'_>,
    page: &Shown<'_, '_>,
    words: &LastWords<'_>,
    out: &mut K,
) -> Result<(), Failed>
    requires words { (rev : ℕ) → words_on words.now rev ≡ last_words page.now.book.now rev }
    requires facts { AreFacts page.now.facts.now page.now.package.now }
    requires locked { length page.now.locked.now ≡ length page.now.index.now }
    requires said { length page.now.said.now ≡ length page.now.index.now }
    ensures { Puts K.told K.faults K.settled K.lenders out.old out.new (page_text (skin_view skin.now) (shown_by page.now)) result }
{
    put_head(skin, page.heading.title, out)?;
    put_body(page, words, out)?;
    put_end(skin, out)
}

fn put_head<K: Sink>(skin: &Skin<'_>, title: Option<&[u8]>, out: &mut K) -> Result<(), Failed>
    ensures { Puts K.told K.faults K.settled K.lenders out.old out.new (head_text (skin_view skin.now) (option_map (λ title. title.now) title.entry)) result }
{
    put_pieces(&[BEFORE_POLICY, skin.policy, BEFORE_TITLE], out)?;
    put_title(title, out)?;
    put_pieces(&[BEFORE_STYLE, skin.style], out)
}

// Puts a title, or the program's own.
fn put_title<K: Sink>(title: Option<&[u8]>, out: &mut K) -> Result<(), Failed>
    ensures { Puts K.told K.faults K.settled K.lenders out.old out.new (piece_text (title_piece (option_map (λ title. title.now) title.entry))) result }
{
    match title {
        Some(title) => put_escaped(title, out),
        None => put_piece(b"Redline: changes to decide", out),
    }
}

fn put_end<K: Sink>(skin: &Skin<'_>, out: &mut K) -> Result<(), Failed>
    ensures { Puts K.told K.faults K.settled K.lenders out.old out.new (end_text (skin_view skin.now)) result }
{
    put_pieces(&[skin.script, AFTER_SCRIPT], out)
}

fn put_body<K: Sink>(page: &Shown<'_, '_>, words: &LastWords<'_>, out: &mut K) -> Result<(), Failed>
    requires words { (rev : ℕ) → words_on words.now rev ≡ last_words page.now.book.now rev }
    requires facts { AreFacts page.now.facts.now page.now.package.now }
    requires locked { length page.now.locked.now ≡ length page.now.index.now }
    requires said { length page.now.said.now ≡ length page.now.index.now }
    ensures { Puts K.told K.faults K.settled K.lenders out.old out.new (pieces_text (body (shown_by page.now))) result }
{
    put_body_head(page.digest, page.index.count(), page.heading, out)?;
    put_stories(page, out)?;
    put_lists(page, words, out)
}

fn put_stories<K: Sink>(page: &Shown<'_, '_>, out: &mut K) -> Result<(), Failed>
    requires { AreFacts page.now.facts.now page.now.package.now }
    ensures { Puts K.told K.faults K.settled K.lenders out.old out.new (pieces_text (document_pieces shown page.now.index.now page.now.package.now)) result }
{
    let facts = StoryFacts {
        index: page.index,
        signs: &page.facts.signs,
        hidden: &page.facts.hidden,
    };
    put_document(page.package, &facts, out)
}

fn put_body_head<K: Sink>(
    digest: &[u8; 32],
    count: u32,
    heading: Heading<'_>,
    out: &mut K,
) -> Result<(), Failed>
    ensures { Puts K.told K.faults K.settled K.lenders out.old out.new (pieces_text (body_head digest.now count (heading_view heading.entry))) result }
{
    put_body_start(digest, count, out)?;
    put_heading(heading, out)?;
    put_piece(b"\">\n<main lang=\"\">\n", out)
}

// Puts the attributes for what the sender gives.
fn put_heading<K: Sink>(heading: Heading<'_>, out: &mut K) -> Result<(), Failed>
    ensures { Puts K.told K.faults K.settled K.lenders out.old out.new (pieces_text (heading_attributes (heading_view heading.entry))) result }
{
    put_title_attribute(heading.title, out)?;
    put_rank_attribute(heading.rank, out)
}

fn put_title_attribute<K: Sink>(title: Option<&[u8]>, out: &mut K) -> Result<(), Failed>
    ensures { Puts K.told K.faults K.settled K.lenders out.old out.new (pieces_text (title_attribute (option_map (λ title. title.now) title.entry))) result }
{
    match title {
        Some(title) => put_given_title(title, out),
        None => Ok(()),
    }
}

fn put_given_title<K: Sink>(title: &[u8], out: &mut K) -> Result<(), Failed>
    ensures { Puts K.told K.faults K.settled K.lenders out.old out.new (pieces_text (title_attribute (Some title.now))) result }
{
    put_attribute(b"\" data-title=\"", title, out)
}

fn put_rank_attribute<K: Sink>(rank: Option<u8>, out: &mut K) -> Result<(), Failed>
    ensures { Puts K.told K.faults K.settled K.lenders out.old out.new (pieces_text (rank_attribute rank)) result }
{
    match rank {
        Some(rank) => put_rank(rank, out),
        None => Ok(()),
    }
}

fn put_rank<K: Sink>(rank: u8, out: &mut K) -> Result<(), Failed>
    ensures { Puts K.told K.faults K.settled K.lenders out.old out.new (pieces_text (rank_attribute (Some rank))) result }
{
    let mut buffer = Buffer::new();
    let digits = buffer.format(rank).as_bytes();
    put_pieces(&[b"\" data-rank=\"".as_slice(), digits], out)
}

fn put_body_start<K: Sink>(digest: &[u8; 32], count: u32, out: &mut K) -> Result<(), Failed>
    ensures { Puts K.told K.faults K.settled K.lenders out.old out.new (pieces_text (body_start digest.now count)) result }
{
    put_piece(b"</style>\n</head>\n<body data-document=\"", out)?;
    put_escaped(&digest_digits(digest), out)?;
    put_count(count, out)
}

fn put_count<K: Sink>(count: u32, out: &mut K) -> Result<(), Failed>
    ensures { Puts K.told K.faults K.settled K.lenders out.old out.new (codes "\" data-revisions=\"" ++ (decimal count ++ [])) result }
{
    let mut buffer = Buffer::new();
    let digits = buffer.format(count).as_bytes();
    put_pieces(&[b"\" data-revisions=\"".as_slice(), digits], out)
}

fn put_lists<K: Sink>(
    page: &Shown<'_, '_>,
    words: &LastWords<'_>,
    out: &mut K,
) -> Result<(), Failed>
    requires words { (rev : ℕ) → words_on words.now rev ≡ last_words page.now.book.now rev }
    requires facts { AreFacts page.now.facts.now page.now.package.now }
    requires locked { length page.now.locked.now ≡ length page.now.index.now }
    requires said { length page.now.said.now ≡ length page.now.index.now }
    ensures { Puts K.told K.faults K.settled K.lenders out.old out.new (pieces_text (lists (shown_by page.now))) result }
{
    put_piece(BEFORE_CHANGES, out)?;
    put_changes(page.index, page.book, words, page.locked, page.said, out)?;
    put_reviewer_list(page.book, out)?;
    put_fact_lists(page, out)
}

fn put_reviewer_list<K: Sink>(book: &Book, out: &mut K) -> Result<(), Failed>
    ensures { Puts K.told K.faults K.settled K.lenders out.old out.new (pieces_text (reviewer_list book.now)) result }
{
    put_piece(b"</ol>\n<ul>\n", out)?;
    put_reviewers(book, out)?;
    put_piece(b"</ul>\n", out)
}

// Puts what is shown beside the text.
fn put_fact_lists<K: Sink>(page: &Shown<'_, '_>, out: &mut K) -> Result<(), Failed>
    requires { AreFacts page.now.facts.now page.now.package.now }
    ensures { Puts K.told K.faults K.settled K.lenders out.old out.new (pieces_text (fact_lists page.now.heading.pictures page.now.package.now)) result }
{
    put_remarks(&page.facts.comments, &page.facts.threads, out)?;
    put_numbers(&page.facts.numbers, out)?;
    put_picture_list(page, out)?;
    put_piece(b"</aside>\n<script>", out)
}

// Puts the pictures, if the sender wants them.
fn put_picture_list<K: Sink>(page: &Shown<'_, '_>, out: &mut K) -> Result<(), Failed>
    requires { AreFacts page.now.facts.now page.now.package.now }
    ensures { Puts K.told K.faults K.settled K.lenders out.old out.new (pieces_text (picture_list page.now.heading.pictures page.now.package.now)) result }
{
    match page.heading.pictures {
        true => put_pictures(&page.facts.pictures, out),
        false => Ok(()),
    }
}
