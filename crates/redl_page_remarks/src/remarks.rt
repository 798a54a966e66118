//! The list of comments.

ghost use Rattle.std.specs.Prelude.{◌≡◌, ◌++◌, All, IfSome, Some, codes};
ghost use Rattle.std.specs.Option.{option_map};
ghost use Rattle.redl_io.specs.Sink.{Puts};
ghost use Rattle.redl_stamp.specs.Moment.{IsMoment};
ghost use Rattle.redl_formats.specs.Dates.{moment_text};
ghost use Rattle.redl_html.specs.Escaping.{escaped};
ghost use Rattle.redl_html.specs.Pieces.{pieces_text};
ghost use Rattle.redl_page_remarks.specs.Remarks.{IsDated, done_attribute, remark_date, remark_end, remark_start, remarks, remarks_from, replied_to, reply_attribute};

use redl_comments::{Comment, Threads};
use redl_formats::moment_text;
use redl_html::put_escaped;
use redl_io::{Failed, Sink, put_piece};

/// Puts an item for each comment, in their order: its id, author and date, the comment that it replies to, whether it is done, and
/// its text.
///
/// It goes once over the comments, looks at no more than a hundred comments of a thread, and takes no memory. `Failed` comes only where
/// the sink failed, which then has only a prefix.
pub fn put_remarks<K: Sink>(
    comments: &[Comment],
    threads: &Threads,
    out: &mut K,
) -> Result<(), Failed>
    requires { All IsDated comments.now }
    ensures { Puts K.told K.faults K.settled K.lenders out.old out.new (pieces_text (remarks comments.now threads.now)) result }
{
    put_piece(b"<ul class=\"remarks\" hidden>\n", out)?;
    put_each(comments, threads, out)?;
    put_piece(b"</ul>\n", out)
}

fn put_each<K: Sink>(comments: &[Comment], threads: &Threads, out: &mut K) -> Result<(), Failed>
    requires { All IsDated comments.now }
    ensures { Puts K.told K.faults K.settled K.lenders out.old out.new (pieces_text (remarks_from comments.now threads.now 0 comments.now)) result }
{
    for place in 0..comments.len() {
        let comment = &comments[place];
        let parent = replied_to(comments, threads, place);
        put_remark(comment, parent, threads.is_done(place), out)?;
    }
    Ok(())
}

// The comment that the one at this place replies to.
fn replied_to<'c>(comments: &'c [Comment], threads: &Threads, place: usize) -> Option<&'c Comment>
    ensures { option_map (λ comment. comment.now) result ≡ replied_to comments.now threads.now place }
{
    let parent = threads.parent(place)?;
    comments.get(parent)
}

fn put_remark<K: Sink>(
    comment: &Comment,
    parent: Option<&Comment>,
    is_done: bool,
    out: &mut K,
) -> Result<(), Failed>
    requires { IsDated comment.now }
    ensures { Puts K.told K.faults K.settled K.lenders out.old out.new
        (pieces_text (remark_start comment.now) ++ (pieces_text (reply_attribute (option_map (λ comment. comment.now) parent.entry)) ++ pieces_text (remark_end is_done comment.now.text))) result }
{
    put_remark_start(comment, out)?;
    put_reply(parent, out)?;
    put_remark_end(is_done, comment, out)
}

fn put_remark_start<K: Sink>(comment: &Comment, out: &mut K) -> Result<(), Failed>
    requires { IsDated comment.now }
    ensures { Puts K.told K.faults K.settled K.lenders out.old out.new (pieces_text (remark_start comment.now)) result }
{
    put_attribute(b"<li data-remark=\"", comment.id.as_bytes(), out)?;
    put_attribute(b"\" data-author=\"", comment.author.as_bytes(), out)?;
    put_date(comment.seconds, out)
}

// Puts what comes before a text from outside, and the text.
fn put_attribute<K: Sink>(before: &[u8], text: &[u8], out: &mut K) -> Result<(), Failed>
    ensures { Puts K.told K.faults K.settled K.lenders out.old out.new (before.now ++ escaped text.now) result }
{
    put_piece(before, out)?;
    put_escaped(text, out)
}

fn put_date<K: Sink>(seconds: Option<i64>, out: &mut K) -> Result<(), Failed>
    requires { IfSome seconds IsMoment }
    ensures { Puts K.told K.faults K.settled K.lenders out.old out.new (codes "\" data-date=\"" ++ escaped (remark_date seconds)) result }
{
    match seconds {
        Some(seconds) => put_moment(seconds, out),
        None => put_attribute(b"\" data-date=\"", b"", out),
    }
}

fn put_moment<K: Sink>(seconds: i64, out: &mut K) -> Result<(), Failed>
    requires { IsMoment seconds }
    ensures { Puts K.told K.faults K.settled K.lenders out.old out.new (codes "\" data-date=\"" ++ escaped (moment_text seconds)) result }
{
    let text = moment_text(seconds);
    put_attribute(b"\" data-date=\"", &text, out)
}

// Puts the id of the comment that a reply is to.
fn put_reply<K: Sink>(parent: Option<&Comment>, out: &mut K) -> Result<(), Failed>
    ensures { Puts K.told K.faults K.settled K.lenders out.old out.new (pieces_text (reply_attribute (option_map (λ comment. comment.now) parent.entry))) result }
{
    match parent {
        Some(parent) => put_parent(parent, out),
        None => Ok(()),
    }
}

fn put_parent<K: Sink>(parent: &Comment, out: &mut K) -> Result<(), Failed>
    ensures { Puts K.told K.faults K.settled K.lenders out.old out.new (pieces_text (reply_attribute (Some parent.now))) result }
{
    put_attribute(b"\" data-reply=\"", parent.id.as_bytes(), out)
}

fn put_remark_end<K: Sink>(is_done: bool, comment: &Comment, out: &mut K) -> Result<(), Failed>
    ensures { Puts K.told K.faults K.settled K.lenders out.old out.new (pieces_text (remark_end is_done comment.now.text)) result }
{
    put_attribute(done_attribute(is_done), comment.text.as_bytes(), out)?;
    put_piece(b"</li>\n", out)
}

fn done_attribute(is_done: bool) -> &'static [u8]
    ensures { result.now ≡ codes (done_attribute is_done) }
{
    match is_done {
        true => b"\" data-done=\"yes\">",
        false => b"\" data-done=\"no\">",
    }
}
