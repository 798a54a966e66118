//! A whole text read as nodes.

ghost use Rattle.std.specs.Prelude.{◌≡◌, ◌<◌, ◌≤◌, IfOk, OnOk, IsErrOf, Some};
ghost use Rattle.redl_tree.specs.Model.Nodes.{Nodes, ◌⊕◌};
ghost use Rattle.redl_tree.specs.Model.Count.{count};
ghost use Rattle.redl_tree.specs.Model.Tree.{IsTree};
ghost use Rattle.redl_tree.specs.Model.View.{nodes_of};
ghost use Rattle.redl_markup.specs.Reading.{Finds};
ghost use Rattle.redl_io.specs.Limits.{depth as depth_limit, nodes as node_limit};
ghost use Rattle.redl_xml.specs.Shapes.{depth_of};
ghost use Rattle.redl_xml.specs.Inside.Documents.{stretch_in, bytes_or_none, document_at, counted, sizes_at};
ghost use Rattle.redl_xml.specs.Readings.{IsReading, HasReading, HasNoReading};

use crate::element::read_element;
use crate::error::XmlError;
use crate::sizes::{Limits, Sizes};
use redl_grammar::Section;
use redl_markup::{MarkupError, Piece, is_text, next_piece};
use redl_tree::Node;
use std::alloc::{AllocError, Global};

/// The greatest depth of an element, with the root at depth 1.
pub const DEPTH_LIMIT: usize = 512;

/// The greatest number of nodes of a text.
pub const NODE_LIMIT: u32 = 2_097_152;

// The nodes of a document, how deep they go, and how many there are, counted up to one above a limit.
#[derive(Drop)]
struct Document<'a> {
    nodes: Vec<Node<'a>>,
    sizes: Sizes,
}

// The leading stretch of this place, which may be empty, and the bytes after it.
#[tactic(auto, unfolding(crate::specs::Inside::Documents::stretch_in))]
#[inline(never)]
fn stretch(alloc: Global, bytes: &[u8], place: Section) -> Result<(&[u8], &[u8]), MarkupError>
    ensures { Finds (λ x. (x.0.now, x.1.now)) result (Some (stretch_in place bytes.now)) }
{
    match next_piece(alloc, &mut Vec::new(alloc), bytes, place) {
        Ok((Piece::Stretch(stretch), rest)) => Ok((stretch, rest)),
        Err(MarkupError::NoMemory) => Err(MarkupError::NoMemory),
        _ => Ok((b"", bytes)),
    }
}

// Adds the bytes as a node, if there are any.
fn push_bytes<'a>(nodes: &mut Vec<Node<'a>>, bytes: &'a [u8]) -> Result<(), AllocError>
    ensures { OnOk result (nodes_of nodes.new.items ≡ nodes_of nodes.old.items ⊕ bytes_or_none bytes.entry.now) }
{
    if bytes.is_empty() {
        return Ok(());
    }
    nodes.push(Node::Bytes(bytes))?;
    Ok(())
}

// The nodes at the top: the stretch before the root, the root, and the stretch after it.
fn top_nodes<'a>(
    alloc: Global,
    before: &'a [u8],
    root: Vec<Node<'a>>,
    after: &'a [u8],
) -> Result<Vec<Node<'a>>, AllocError>
    ensures { IfOk result (λ v. nodes_of v.items ≡ bytes_or_none before.entry.now ⊕ (nodes_of root.entry.items ⊕ bytes_or_none after.entry.now)) }
{
    let mut root = root;
    let mut nodes = Vec::new(alloc);
    push_bytes(&mut nodes, before)?;
    nodes.append(&mut root)?;
    push_bytes(&mut nodes, after)?;
    Ok(nodes)
}

// Counts the bytes as a node, if there are any.
fn count_bytes(sizes: &mut Sizes, limit: u32, bytes: &[u8])
    ensures deepest { sizes.new.deepest ≡ sizes.old.deepest }
    ensures nodes { sizes.new.nodes ≡ counted limit bytes.now sizes.old.nodes }
{
    if !bytes.is_empty() {
        sizes.add_bytes(limit);
    }
}

// The document that the bytes are. `Unreadable` exactly if they are not one. Past a limit its nodes are incomplete.
fn read_document(alloc: Global, limits: Limits, bytes: &[u8]) -> Result<Document<'_>, MarkupError>
    ensures sizes { Finds (λ d. (d.sizes.deepest, d.sizes.nodes)) result (sizes_at limits.nodes bytes.now) }
    ensures nodes { IfOk result (λ d. d.sizes.deepest ≤ limits.depth → d.sizes.nodes ≤ limits.nodes → document_at bytes.now ≡ Some (nodes_of d.nodes.items)) }
{
    let (before, root) = stretch(alloc, bytes, Section::BeforeRoot)?;
    let element = read_element(alloc, limits, root)?;
    let (after, rest) = stretch(alloc, element.rest, Section::AfterRoot)?;
    if !rest.is_empty() {
        return Err(MarkupError::Unreadable);
    }
    let mut sizes = element.sizes;
    count_bytes(&mut sizes, limits.nodes, before);
    count_bytes(&mut sizes, limits.nodes, after);
    let nodes = top_nodes(alloc, before, element.nodes, after)?;
    Ok(Document { nodes, sizes })
}

// The nodes of a text, if it is within the limits.
fn read_within(alloc: Global, bytes: &[u8], limits: Limits) -> Result<Vec<Node>, XmlError>
    ensures found { IfOk result (λ nodes. IsReading bytes.now (nodes_of nodes.items)) }
    ensures within { IfOk result (λ nodes. (depth_of (nodes_of nodes.items) ≤ limits.depth) × (count (nodes_of nodes.items) ≤ limits.nodes)) }
    ensures tree { IfOk result (λ nodes. IsTree (nodes_of nodes.items)) }
    ensures unreadable { IsErrOf result XmlError.Unreadable → HasNoReading bytes.now }
    ensures too_deep { IsErrOf result XmlError.Depth → HasReading bytes.now (λ nodes. limits.depth < depth_of nodes) }
    ensures too_many { IsErrOf result XmlError.Nodes → HasReading bytes.now (λ nodes. (depth_of nodes ≤ limits.depth) × (limits.nodes < count nodes)) }
{
    if !is_text(bytes) {
        return Err(XmlError::Unreadable);
    }
    let document = read_document(alloc, limits, bytes)?;
    if document.sizes.deepest > limits.depth {
        return Err(XmlError::Depth);
    }
    if document.sizes.nodes > u64::from(limits.nodes) {
        return Err(XmlError::Nodes);
    }
    Ok(document.nodes)
}

/// The nodes whose text these bytes are, byte for byte.
///
/// The text is UTF-8 of the characters that XML 1.0 allows, and has no document type declaration. The nodes at the top
/// are the text before the root as one node of bytes, the root, and the text after it; an empty text is no node. In an
/// element each longest stretch without a tag is one node of bytes. An element's space is that of the nearest
/// declaration of its prefix. No element is in a revision.
///
/// `Unreadable` exactly if the bytes are the text of no tree. Otherwise `Depth` exactly if an element is deeper than 512,
/// with the root at depth 1, and otherwise `Nodes` exactly if there are more than 2,097,152 nodes. `NoMemory` means out
/// of memory. The time is linear in the number of bytes, except for n log n in the number n of attributes of one tag,
/// and in the number of prefixes.
pub fn read(alloc: Global, bytes: &[u8]) -> Result<Vec<Node>, XmlError>
    ensures found { IfOk result (λ nodes. IsReading bytes.now (nodes_of nodes.items)) }
    ensures within { IfOk result (λ nodes. (depth_of (nodes_of nodes.items) ≤ depth_limit) × (count (nodes_of nodes.items) ≤ node_limit)) }
    ensures tree { IfOk result (λ nodes. IsTree (nodes_of nodes.items)) }

    // If nothing is read, there is no tree, or it goes too deep, or it has too many nodes.
    ensures unreadable { IsErrOf result XmlError.Unreadable → HasNoReading bytes.now }
    ensures too_deep { IsErrOf result XmlError.Depth → HasReading bytes.now (λ nodes. depth_limit < depth_of nodes) }
    ensures too_many { IsErrOf result XmlError.Nodes → HasReading bytes.now (λ nodes. (depth_of nodes ≤ depth_limit) × (node_limit < count nodes)) }
{
    let limits = Limits {
        depth: DEPTH_LIMIT,
        nodes: NODE_LIMIT,
    };
    read_within(alloc, bytes, limits)
}
