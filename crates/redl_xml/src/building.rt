//! The open elements, and the nodes in them so far.

ghost use Rattle.std.specs.Prelude.{◌≡◌, ◌≤◌, OnOk, IfOk, IfSome, IsNone, IsErrOf, Some, None};
ghost use Rattle.redl_tree.specs.Model.Nodes.{no_nodes, in_front, ◌⊕◌};
ghost use Rattle.redl_tree.specs.Model.View.{item_of, nodes_of};
ghost use Rattle.redl_markup.specs.Views.{name_view};
ghost use Rattle.redl_grammar.specs.declared.section.Section.TheVariants.{InElement};
ghost use Rattle.redl_grammar.specs.ScanPieces.{piece_at};
ghost use Rattle.redl_markup.specs.PieceViews.{piece_view};
ghost use Rattle.redl_grammar.specs.Pieces.{start_tag, empty_tag, end_tag, stretch};
ghost use Rattle.redl_xml.specs.Inside.Elements.{placed, nothing_yet, without_nodes};
ghost use Rattle.redl_xml.specs.Inside.Buildings.{frame_view, building_view};
ghost use Rattle.redl_xml.specs.Inside.Passing.{AddsText, rest_behind};

use crate::idle::{Passed, Tried, TryState, skip_plain};
use crate::namespaces::enter;
use crate::open_element::OpenElement;
use crate::sizes::{Limits, Sizes};
use crate::spaces::Spaces;
use crate::start::kept;
use redl_markup::{MarkupError, Name, Piece, StartTag};
use redl_tree::{Elem, Node};
use std::alloc::{AllocError, Global};
use std::mem;

// A package, a part, its data, and the root in that.
const UPPER_LEVELS: usize = 4;

/// The tree so far. Where nodes were dropped, the outer elements have no list of those before them.
#[derive(Drop)]
pub(crate) struct Building<'a> {
    /// The open elements, the innermost last.
    pub(crate) open: Vec<OpenElement<'a>>,
    /// The nodes before each of them.
    before: Vec<Vec<Node<'a>>>,
    /// The nodes so far in the innermost one.
    pub(crate) kids: Vec<Node<'a>>,
    /// The declarations in its scope.
    scopes: Spaces<'a>,
}

/// Adds a node. Most elements have few, so each of the first ones takes memory for no more.
#[inline(always)]
pub(crate) fn push_node<'a>(nodes: &mut Vec<Node<'a>>, node: Node<'a>) -> Result<(), AllocError>
    ensures { OnOk result (nodes_of nodes.new.items ≡ nodes_of nodes.old.items ⊕ in_front (item_of node.entry) no_nodes) }
{
    if nodes.len() < 3 {
        nodes.reserve_exact(1)?;
    }
    nodes.push(node)?;
    Ok(())
}

// Whether the bytes begin as those of an element do that may be idle where no other one is open. Paragraphs, properties, insertions and
// deletions never are, which is seen at once where the prefix is one letter. Nothing is promised where no try is made.
#[inline(always)]
fn is_worth_a_try(bytes: &[u8]) -> bool {
    match bytes {
        [b'<', b'/', ..] => false,
        [b'<', _, b':', b'p', b'>' | b' ' | b'P', ..] => false,
        [b'<', _, b':', b'r', b'P', b'r', ..] => false,
        [b'<', _, b':', b'i', b'n', b's', b' ', ..] => false,
        [b'<', _, b':', b'd', b'e', b'l', ..] => false,
        [b'<', ..] => true,
        _ => false,
    }
}

// Whether the innermost open element is a deletion. What is deleted holds deleted text, which is no idle element, so no try is worth it.
#[inline(always)]
fn is_in_deletion(open: &[OpenElement<'_>]) -> bool {
    match open.last() {
        Some(opened) => opened.start.local() == b"del".as_slice(),
        None => false,
    }
}

#[inline(always)]
fn name_of<'a>(opened: &OpenElement<'a>) -> Name<'a>
    ensures { name_view result ≡ (frame_view opened.now no_nodes).name }
{
    Name {
        prefix: opened.start.prefix(),
        local: opened.start.local(),
    }
}

impl<'a> Building<'a> {
    pub(crate) fn new(alloc: Global) -> Building<'a>
        ensures { building_view result ≡ nothing_yet }
    {
        Building {
            open: Vec::new(alloc),
            before: Vec::new(alloc),
            kids: Vec::new(alloc),
            scopes: Spaces::new(alloc),
        }
    }

    #[inline(always)]
    fn start(&mut self, alloc: Global, tag: &StartTag<'a>) -> Result<(), MarkupError>
        ensures ok { OnOk result (placed (start_tag tag.now.name tag.now.tail) (building_view self.old) ≡ Some (building_view self.new)) }
        ensures unreadable { IsErrOf result MarkupError.Unreadable → placed (start_tag tag.now.name tag.now.tail) (building_view self.old) ≡ None }
    {
        let entered = enter(&mut self.scopes, alloc, tag)?;
        let start = kept(tag, entered.space)?;
        let before = mem::replace(&mut self.kids, Vec::new(alloc));
        self.before.push(before)?;
        self.open.push(OpenElement {
            start,
            declared: entered.declared,
        })?;
        Ok(())
    }

    #[inline(always)]
    fn empty(&mut self, alloc: Global, tag: &StartTag<'a>) -> Result<(), MarkupError>
        ensures ok { OnOk result (placed (empty_tag tag.now.name tag.now.tail) (building_view self.old) ≡ Some (building_view self.new)) }
        ensures unreadable { IsErrOf result MarkupError.Unreadable → placed (empty_tag tag.now.name tag.now.tail) (building_view self.old) ≡ None }
    {
        let entered = enter(&mut self.scopes, alloc, tag)?;
        self.scopes.forget(entered.declared);
        let elem = Elem::empty(kept(tag, entered.space)?);
        push_node(&mut self.kids, Node::Elem(elem))?;
        Ok(())
    }

    #[inline(always)]
    fn stretch(&mut self, bytes: &'a [u8]) -> Result<(), MarkupError>
        ensures ok { OnOk result (placed (stretch bytes.entry.now) (building_view self.old) ≡ Some (building_view self.new)) }
        ensures unreadable { IsErrOf result MarkupError.Unreadable → placed (stretch bytes.entry.now) (building_view self.old) ≡ None }
    {
        if self.open.is_empty() {
            return Err(MarkupError::Unreadable);
        }
        push_node(&mut self.kids, Node::Bytes(bytes))?;
        Ok(())
    }

    #[inline(always)]
    fn end(&mut self, alloc: Global, name: Name<'a>, space: &'a [u8]) -> Result<(), MarkupError>
        ensures ok { OnOk result (placed (end_tag (name_view name.entry) space.entry.now) (building_view self.old) ≡ Some (building_view self.new)) }
        ensures unreadable { IsErrOf result MarkupError.Unreadable → placed (end_tag (name_view name.entry) space.entry.now) (building_view self.old) ≡ None }
    {
        let Some(opened) = self.open.pop() else {
            return Err(MarkupError::Unreadable);
        };
        if name_of(&opened) != name {
            return Err(MarkupError::Unreadable);
        }
        self.scopes.forget(opened.declared);
        let before = self.before.pop().unwrap_or(Vec::new(alloc));
        let mut kids = mem::replace(&mut self.kids, before);
        kids.shrink_to_fit();
        let elem = Elem::with_space(alloc, opened.start, kids, space)?;
        push_node(&mut self.kids, Node::Elem(elem))?;
        Ok(())
    }

    /// Adds a piece, and gives the list of its names back for the next one. `Unreadable` if it is not allowed there.
    #[inline(always)]
    pub(crate) fn place(
        &mut self,
        alloc: Global,
        list: &mut Vec<Name<'a>>,
        piece: Piece<'a>,
    ) -> Result<(), MarkupError>
        ensures ok { OnOk result (placed (piece_view piece.entry) (building_view self.old) ≡ Some (building_view self.new)) }
        ensures unreadable { IsErrOf result MarkupError.Unreadable → placed (piece_view piece.entry) (building_view self.old) ≡ None }
    {
        match piece {
            Piece::Start(tag) => {
                self.start(alloc, &tag)?;
                *list = tag.into_attributes();
                Ok(())
            }
            Piece::Empty(tag) => {
                self.empty(alloc, &tag)?;
                *list = tag.into_attributes();
                Ok(())
            }
            Piece::Stretch(bytes) => self.stretch(bytes),
            Piece::End(name, space) => self.end(alloc, name, space),
        }
    }

    /// Passes over the nodes with which the bytes begin, as long as no walk finds anything in them, and adds them as one text. Where
    /// a try ended, none begins before that place: nothing is said where none is passed over.
    ///
    /// The upper levels of a package are kept as elements, since they are looked at by their places.
    pub(crate) fn pass_over(
        &mut self,
        alloc: Global,
        tries: &mut TryState<'a>,
        bytes: &'a [u8],
    ) -> Result<Tried<'a>, AllocError>
        ensures passed { IfOk result (λ tried. IfSome tried.idle (λ idle. AddsText (building_view self.old) (building_view self.new) bytes.entry.now idle.rest.now idle.nodes idle.deepest)) }
        ensures none { IfOk result (λ tried. IsNone tried.idle → building_view self.new ≡ building_view self.old) }
        ensures next { IfOk result (λ tried. IfSome tried.next (λ x. piece_at InElement (rest_behind bytes.entry.now tried.idle) ≡ Some (piece_view x.0, x.1.now))) }
    {
        if self.open.len() < UPPER_LEVELS
            || bytes.len() >= tries.left
            || !is_worth_a_try(bytes)
            || is_in_deletion(&self.open)
        {
            return Ok(Tried {
                idle: None,
                next: None,
            });
        }
        let Passed { text, next } = skip_plain(alloc, &mut self.scopes, tries, bytes)?;
        let Some((plain, idle)) = text else {
            return Ok(Tried { idle: None, next });
        };
        push_node(&mut self.kids, Node::Plain(plain))?;
        Ok(Tried {
            idle: Some(idle),
            next,
        })
    }

    /// Drops the nodes so far if the sizes are past a limit.
    #[inline(always)]
    pub(crate) fn drop_past_limits(&mut self, limits: Limits, sizes: Sizes)
        ensures kept { sizes.deepest ≤ limits.depth → sizes.nodes ≤ limits.nodes → building_view self.new ≡ building_view self.old }
        ensures rest { without_nodes (building_view self.new) ≡ without_nodes (building_view self.old) }
    {
        if !sizes.are_within(limits) {
            self.before.clear();
            self.kids.clear();
        }
    }
}
