//! The marked text of a package, story by story.

ghost use Rattle.std.specs.Prelude.{◌≡◌, ◌==◌, ◌∷◌, [], List, ℕ, IfOk, Some, if◌then◌else◌};
ghost use Rattle.std.specs.List.{last_or};
ghost use Rattle.redl_io.specs.Sink.{Puts};
ghost use Rattle.redl_opc.specs.Elements.{element_of};
ghost use Rattle.redl_marked.specs.MarkedText.{NamedStory, heading, headed, stories_marked, marked_text};
ghost use Rattle.redl_marked.specs.Inside.Walks.{named_in};

use crate::last::last_of_nodes;
use crate::summary::in_root;
use crate::walk::put_nodes;
use redl_io::{Failed, Sink, put_piece, put_pieces};
use redl_opc::Package;
use redl_tree::Elem;

/// Puts the marked text of the package: the text of all its stories, with the sign and the number of each member of a revision.
///
/// It makes no tree and takes no memory. The members of the package have the kinds and numbers that an index gives them.
/// `Failed` comes only where the sink failed, and then it has only a prefix of the text.
pub fn put_marked<K: Sink>(pkg: &Package, out: &mut K) -> Result<(), Failed>
    ensures { Puts K.told K.faults K.settled K.lenders out.old out.new (marked_text pkg.now) result }
{
    let mut last = None;
    for part in 0..pkg.parts() {
        last = put_part(pkg, part, last, out)?;
    }
    Ok(())
}

// Puts the story of a part, if it is one, where the text before it ends in this byte. Answers the byte in which it ends now.
fn put_part<K: Sink>(
    pkg: &Package,
    part: u32,
    before: Option<u8>,
    out: &mut K,
) -> Result<Option<u8>, Failed>
    ensures puts { Puts K.told K.faults K.settled K.lenders out.old out.new (stories_marked before (named_in pkg.now part)) result }
    ensures last { IfOk result (λ last. last ≡ last_or before (stories_marked before (named_in pkg.now part))) }
{
    let Some(name) = pkg.part_name(part) else {
        return Ok(before);
    };
    let Some(root) = pkg.story(part) else {
        return Ok(before);
    };
    put_heading(before, name, out)?;
    put_nodes(root.kids(), in_root(root), out)?;
    Ok(last_of_story(root, before))
}

// Puts the line before a story: none before the first one that shows anything.
fn put_heading<K: Sink>(before: Option<u8>, name: &[u8], out: &mut K) -> Result<(), Failed>
    ensures { Puts K.told K.faults K.settled K.lenders out.old out.new (heading before name.now) result }
{
    match before {
        Some(last) => put_line(last, name, out),
        None => Ok(()),
    }
}

// Puts a line of its own with a name, where the text before it ends in this byte.
fn put_line<K: Sink>(last: u8, name: &[u8], out: &mut K) -> Result<(), Failed>
    ensures { Puts K.told K.faults K.settled K.lenders out.old out.new (heading (Some last) name.now) result }
{
    put_line_end(last, out)?;
    put_pieces(&[b"== ".as_slice(), name, b"\n"], out)
}

fn put_line_end<K: Sink>(last: u8, out: &mut K) -> Result<(), Failed>
    ensures { Puts K.told K.faults K.settled K.lenders out.old out.new (if last == 10 then [] else 10 ∷ []) result }
{
    if last == b'\n' {
        return Ok(());
    }
    put_piece(b"\n", out)
}

// The byte in which the text ends after a story.
fn last_of_story(root: &Elem, before: Option<u8>) -> Option<u8>
    ensures { (name : List ℕ) → result ≡ last_or before (headed before (record { name = name; story = element_of root.now })) }
{
    match last_of_nodes(root.kids(), in_root(root)) {
        Some(last) => Some(last),
        None => after_heading(before),
    }
}

// The byte in which the line before a story ends.
fn after_heading(before: Option<u8>) -> Option<u8>
    ensures { (name : List ℕ) → result ≡ last_or before (heading before name) }
{
    match before {
        Some(_) => Some(b'\n'),
        None => None,
    }
}
