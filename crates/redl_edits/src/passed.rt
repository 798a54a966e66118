//! What a reader passes in stories.

ghost use Rattle.std.specs.Prelude.{◌≡◌, ◌++◌, [], IfOk, OnOk};
ghost use Rattle.redl_opc.specs.Elements.{element_of};
ghost use Rattle.redl_opc.specs.Stories.{stories_of_part};
ghost use Rattle.redl_spans.specs.Members.{has_edge};
ghost use Rattle.redl_spans.specs.Units.{holds_text, is_unit_name};
ghost use Rattle.redl_tree.specs.Decisions.Packages.{stories};
ghost use Rattle.redl_tree.specs.Model.View.{item_of, kids_of, nodes_of, tag_of};
ghost use Rattle.redl_edits.specs.Inside.Items.{item_passed};
ghost use Rattle.redl_edits.specs.Passed.{edge_bytes, end_bytes, if_open, is_white_name, name_bytes, own_bytes, passed, start_bytes, stories_passed, story_passed};

use crate::edge::has_edge;
use crate::kept::pass_plain;
use redl_opc::Package;
use redl_said::{Ear, holds_text, tell_bytes};
use redl_tree::{Elem, Node, Space, Word, is_quiet, is_word};
use std::alloc::{AllocError, Global};
use std::marker::Model;

/// The bytes of units so far.
#[derive(Drop)]
pub(crate) struct Passed {
    bytes: Vec<u8>,
}

impl Model for Passed {
    ghost use Rattle.std.specs.Prelude.{ℕ, List};

    ghost Value = { List ℕ };

    ghost view = { λ passed. passed.bytes.items };
}

impl Ear for Passed {
    ghost use Rattle.redl_edits.specs.Inside.Hearing.{heard, heard-more, heard-nothing};

    ghost heard = { heard };

    ghost heard_nothing = { heard-nothing };

    ghost heard_more = { heard-more };

    fn hear(&mut self, bytes: &[u8]) -> Result<(), AllocError> {
        self.bytes.extend_from_slice(bytes)
    }

    fn is_full(&self) -> bool {
        false
    }
}

/// What a reader passes in the stories of a package, one byte for each unit. `Err` means out of memory, here and below.
pub(crate) fn stories_passed(alloc: Global, pkg: &Package) -> Result<Vec<u8>, AllocError>
    ensures { IfOk result (λ bytes. bytes.items ≡ stories_passed (stories pkg.now)) }
{
    let mut out = Passed {
        bytes: Vec::new(alloc),
    };
    pass_stories(pkg, &mut out)?;
    Ok(out.bytes)
}

fn pass_stories(pkg: &Package, out: &mut Passed) -> Result<(), AllocError>
    ensures { OnOk result (out.new ≡ out.old ++ stories_passed (stories pkg.now)) }
{
    for part in 0..pkg.parts() {
        pass_part(pkg, part, out)?;
    }
    Ok(())
}

fn pass_part(pkg: &Package, part: u32, out: &mut Passed) -> Result<(), AllocError>
    ensures { OnOk result (out.new ≡ out.old ++ stories_passed (stories_of_part pkg.now part)) }
{
    match pkg.story(part) {
        Some(root) => pass_story(root, out),
        None => Ok(()),
    }
}

fn pass_story(root: &Elem, out: &mut Passed) -> Result<(), AllocError>
    ensures { OnOk result (out.new ≡ out.old ++ story_passed (element_of root.now)) }
{
    out.hear(b"-")?;
    pass_nodes(root.kids(), false, out)
}

#[cycle(passed)]
fn pass_nodes(nodes: &[Node], in_text: bool, out: &mut Passed) -> Result<(), AllocError>
    ensures { OnOk result (out.new ≡ out.old ++ passed in_text (nodes_of nodes.now)) }
{
    for node in nodes {
        pass_node(node, in_text, out)?;
    }
    Ok(())
}

#[cycle(passed)]
fn pass_node(node: &Node, in_text: bool, out: &mut Passed) -> Result<(), AllocError>
    ensures { OnOk result (out.new ≡ out.old ++ item_passed in_text (item_of node.now)) }
{
    match node {
        Node::Elem(elem) => pass_elem(elem, out),
        Node::Bytes(text) => tell_bytes(text, in_text, out),
        Node::Plain(plain) => pass_plain(plain, in_text, out),
    }
}

#[cycle(passed)]
fn pass_elem(elem: &Elem, out: &mut Passed) -> Result<(), AllocError>
    ensures { OnOk result (out.new ≡ out.old ++ if_open (tag_of elem.now) (start_bytes (tag_of elem.now) (kids_of elem.now) ++ (passed (holds_text (tag_of elem.now)) (kids_of elem.now) ++ end_bytes (tag_of elem.now)))) }
{
    if is_quiet(elem) {
        return Ok(());
    }
    pass_start(elem, out)?;
    pass_nodes(elem.kids(), holds_text(elem), out)?;
    pass_end(elem, out)
}

// It isn't inlined, so that each depth takes little stack.
#[inline(never)]
fn pass_start(elem: &Elem, out: &mut Passed) -> Result<(), AllocError>
    ensures { OnOk result (out.new ≡ out.old ++ start_bytes (tag_of elem.now) (kids_of elem.now)) }
{
    pass_edge(elem, out)?;
    match elem.space() {
        Space::W => pass_name(elem.local(), out),
        _ => Ok(()),
    }
}

fn pass_edge(elem: &Elem, out: &mut Passed) -> Result<(), AllocError>
    ensures { OnOk result (out.new ≡ out.old ++ edge_bytes (tag_of elem.now) (kids_of elem.now)) }
{
    if !is_word(elem, Word::P) && has_edge(elem.kids()) {
        return out.hear(b"-");
    }
    Ok(())
}

/// An element of WordprocessingML with this local name begins.
pub(crate) fn pass_name(local: &[u8], out: &mut Passed) -> Result<(), AllocError>
    ensures { OnOk result (out.new ≡ out.old ++ name_bytes local.now) }
{
    if is_white_name(local) {
        return out.hear(b" ");
    }
    if is_unit_name(local) {
        return out.hear(b"-");
    }
    Ok(())
}

fn pass_end(elem: &Elem, out: &mut Passed) -> Result<(), AllocError>
    ensures { OnOk result (out.new ≡ out.old ++ end_bytes (tag_of elem.now)) }
{
    if is_word(elem, Word::P) {
        return out.hear(b"\n");
    }
    Ok(())
}

fn is_white_name(local: &[u8]) -> bool
    ensures { result ≡ is_white_name local.now }
{
    match local.len() {
        2 => local == b"br".as_slice() || local == b"cr".as_slice(),
        3 => local == b"tab".as_slice(),
        4 => local == b"ptab".as_slice(),
        _ => false,
    }
}

// Whether an element of WordprocessingML with this local name is a unit.
fn is_unit_name(local: &[u8]) -> bool
    ensures { result ≡ is_unit_name local.now }
{
    match local.len() {
        2 => local == b"br".as_slice() || local == b"cr".as_slice(),
        3 => local == b"tab".as_slice() || local == b"sym".as_slice(),
        4 => local == b"ptab".as_slice() || local == b"pict".as_slice(),
        6 => local == b"object".as_slice(),
        7 => local == b"drawing".as_slice(),
        10 => local == b"softHyphen".as_slice(),
        13 => local == b"noBreakHyphen".as_slice(),
        16 => local == b"endnoteReference".as_slice(),
        17 => local == b"footnoteReference".as_slice(),
        _ => false,
    }
}
