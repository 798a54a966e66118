//! One comment.

ghost use Rattle.std.specs.Prelude.{◌≡◌, IfOk, [], true, false};
ghost use Rattle.redl_opc.specs.Elements.{element_of};
ghost use Rattle.redl_tree.specs.Model.View.{item_of, nodes_of};
ghost use Rattle.redl_comments.specs.Comments.{beginning, comment_of, last_paragraph_or};
ghost use Rattle.redl_comments.specs.Inside.Items.{item_last_paragraph};

use redl_io::Text;
use redl_relations::value_in;
use redl_said::{Phrase, tell_nodes};
use redl_stamp::read_stamp;
use redl_tree::{Elem, Node, Word, is_word};
use std::alloc::{AllocError, Global};

// How many characters of a text are kept.
const ROOM: u8 = 200;

/// A comment.
#[derive(Drop)]
pub struct Comment {
    /// Its id, as it is written.
    pub id: Text,
    /// Who made it; the empty text where no author is named.
    pub author: Text,
    /// When, in seconds from 1970-01-01T00:00:00Z, where its date can be read.
    pub seconds: Option<i64>,
    /// What it says, at most 200 characters, and three dots where there are more.
    pub text: Text,
    /// The id of its last paragraph, as it is written, by which its state is known.
    pub last_paragraph: Text,
}

impl Comment {
    /// The comment that an element is. `Err` means out of memory, here and below.
    pub(crate) fn read(alloc: Global, elem: &Elem) -> Result<Comment, AllocError>
        ensures { IfOk result (λ comment. comment ≡ comment_of (element_of elem.now)) }
    {
        let id = Text::copy_of(alloc, value_in(elem.tail(), b"id"))?;
        let stamp = read_stamp(alloc, elem.tail())?;
        let text = beginning(alloc, elem.kids())?;
        let last_paragraph = Text::copy_of(alloc, last_paragraph(elem.kids()))?;
        Ok(Comment {
            id,
            author: stamp.author,
            seconds: stamp.seconds,
            text,
            last_paragraph,
        })
    }
}

// The beginning of what nodes say.
fn beginning(alloc: Global, kids: &[Node]) -> Result<Text, AllocError>
    ensures { IfOk result (λ text. text ≡ beginning (nodes_of kids.now)) }
{
    let mut phrase = Phrase::new(alloc, ROOM, true);
    tell_nodes(kids, false, false, &mut phrase)?;
    let text = phrase.into_text(alloc)?;
    Ok(text)
}

// The id of the last paragraph among nodes, or the empty text.
fn last_paragraph<'n>(kids: &'n [Node]) -> &'n [u8]
    ensures { result.now ≡ last_paragraph_or [] (nodes_of kids.now) }
{
    let mut id: &'n [u8] = b"";
    for node in kids {
        id = last_paragraph_in(node, id);
    }
    id
}

// The id of a node that is a paragraph, or else this one.
fn last_paragraph_in<'n>(node: &'n Node, id: &'n [u8]) -> &'n [u8]
    ensures { result.now ≡ item_last_paragraph id.now (item_of node.now) }
{
    match node {
        Node::Elem(elem) => {
            if is_word(elem, Word::P) {
                return value_in(elem.tail(), b"paraId");
            }
            id
        }
        Node::Bytes(_) | Node::Plain(_) => id,
    }
}
