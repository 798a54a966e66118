//! The text of nodes.

ghost use Rattle.redl_io.specs.Sink.{Puts};
ghost use Rattle.std.specs.Prelude.{◌++◌};
ghost use Rattle.redl_tree.specs.Model.Nodes.{Empty, End};
ghost use Rattle.redl_tree.specs.Model.Text.{text, open_text, start_text, end_text, name_text, rest_text, element_text, item_text};
ghost use Rattle.redl_tree.specs.Model.View.{nodes_of, item_of, tag_of, kids_of, tagged};

use redl_io::{Failed, Sink, put_piece};
use redl_tree::{Body, Elem, Node, Spaced, Tag};

/// Puts the text of the nodes, and takes no memory. `Failed` comes only where the sink failed, which then has only a prefix
/// of the text.
#[cycle(write)]
pub fn write_nodes<K: Sink>(nodes: &[Node], out: &mut K) -> Result<(), Failed>
    ensures { Puts K.told K.faults K.settled K.lenders out.old out.new (text (nodes_of nodes.now)) result }
{
    for node in nodes {
        write_node(node, out)?;
    }
    Ok(())
}

#[cycle(write)]
fn write_node<K: Sink>(node: &Node, out: &mut K) -> Result<(), Failed>
    ensures { Puts K.told K.faults K.settled K.lenders out.old out.new (item_text (item_of node.now)) result }
{
    match node {
        Node::Elem(elem) => write_elem(elem, out),
        Node::Bytes(text) => put_piece(text, out),
        Node::Plain(plain) => put_piece(plain.text(), out),
    }
}

#[cycle(write)]
fn write_elem<K: Sink>(elem: &Elem, out: &mut K) -> Result<(), Failed>
    ensures { Puts K.told K.faults K.settled K.lenders out.old out.new (element_text (tag_of elem.now) (text (kids_of elem.now))) result }
{
    write_start(&elem.tag, out)?;
    match &elem.body {
        Body::Empty => put_piece(b"/>", out),
        Body::Kids(kids) => write_kids(&elem.tag, kids, b"", out),
        Body::Spaced(spaced) => write_spaced(&elem.tag, spaced, out),
    }
}

/// Puts the start tag of an element, up to `>` or `/>`, and takes no memory.
pub fn write_open<K: Sink>(elem: &Elem, out: &mut K) -> Result<(), Failed>
    ensures { Puts K.told K.faults K.settled K.lenders out.old out.new (open_text (tag_of elem.now)) result }
{
    write_start(&elem.tag, out)?;
    match elem.close() {
        None => put_piece(b"/>", out),
        Some(_) => put_piece(b">", out),
    }
}

/// Puts the end tag of an element, which has this white space after the name.
pub fn write_close<K: Sink>(elem: &Elem, white: &[u8], out: &mut K) -> Result<(), Failed>
    ensures { Puts K.told K.faults K.settled K.lenders out.old out.new (end_text (tag_of elem.now) white.now) result }
{
    write_end(&elem.tag, white, out)
}

#[cycle(write)]
fn write_spaced<K: Sink>(tag: &Tag, spaced: &Spaced, out: &mut K) -> Result<(), Failed>
    ensures { Puts K.told K.faults K.settled K.lenders out.old out.new (rest_text (tagged tag.now Empty) (End spaced.now.white.now) (text (nodes_of spaced.now.kids.items))) result }
{
    write_kids(tag, &spaced.kids, spaced.white, out)
}

// The kids of an element, and then its end tag with this white space.
#[cycle(write)]
fn write_kids<K: Sink>(tag: &Tag, kids: &[Node], white: &[u8], out: &mut K) -> Result<(), Failed>
    ensures { Puts K.told K.faults K.settled K.lenders out.old out.new (rest_text (tagged tag.now Empty) (End white.now) (text (nodes_of kids.now))) result }
{
    put_piece(b">", out)?;
    write_nodes(kids, out)?;
    write_end(tag, white, out)
}

fn write_start<K: Sink>(tag: &Tag, out: &mut K) -> Result<(), Failed>
    ensures { Puts K.told K.faults K.settled K.lenders out.old out.new (start_text (tagged tag.now Empty)) result }
{
    put_piece(b"<", out)?;
    write_inside(tag, out)
}

// What a start tag has between `<` and `>` or `/>`. Mostly it is one piece of the input.
fn write_inside<K: Sink>(tag: &Tag, out: &mut K) -> Result<(), Failed>
    ensures { Puts K.told K.faults K.settled K.lenders out.old out.new (name_text tag.now.prefix tag.now.local ++ tag.now.tail) result }
{
    match tag.text_in_input() {
        Some(text) => put_piece(text, out),
        None => write_renamed(tag, out),
    }
}

fn write_renamed<K: Sink>(tag: &Tag, out: &mut K) -> Result<(), Failed>
    ensures { Puts K.told K.faults K.settled K.lenders out.old out.new (name_text tag.now.prefix tag.now.local ++ tag.now.tail) result }
{
    write_name(tag, out)?;
    put_piece(tag.tail(), out)
}

fn write_end<K: Sink>(tag: &Tag, white: &[u8], out: &mut K) -> Result<(), Failed>
    ensures { Puts K.told K.faults K.settled K.lenders out.old out.new (end_text (tagged tag.now Empty) white.now) result }
{
    put_piece(b"</", out)?;
    write_name(tag, out)?;
    write_white(white, out)?;
    put_piece(b">", out)
}

fn write_name<K: Sink>(tag: &Tag, out: &mut K) -> Result<(), Failed>
    ensures { Puts K.told K.faults K.settled K.lenders out.old out.new (name_text tag.now.prefix tag.now.local) result }
{
    match tag.name_in_input() {
        Some(name) => put_piece(name, out),
        None => write_live_name(tag, out),
    }
}

fn write_live_name<K: Sink>(tag: &Tag, out: &mut K) -> Result<(), Failed>
    ensures { Puts K.told K.faults K.settled K.lenders out.old out.new (name_text tag.now.prefix tag.now.local) result }
{
    put_piece(tag.prefix_with_colon(), out)?;
    put_piece(tag.local(), out)
}

// Mostly there is no white space in an end tag, and then no piece is put.
fn write_white<K: Sink>(white: &[u8], out: &mut K) -> Result<(), Failed>
    ensures { Puts K.told K.faults K.settled K.lenders out.old out.new white.now result }
{
    if white.is_empty() {
        return Ok(());
    }
    put_piece(white, out)
}
