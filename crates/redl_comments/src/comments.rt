//! The comments of a package.

ghost use Rattle.std.specs.Prelude.{◌≡◌, ◌++◌, IfOk, OnOk};
ghost use Rattle.redl_opc.specs.Elements.{element_of};
ghost use Rattle.redl_tree.specs.Model.View.{item_of, nodes_of};
ghost use Rattle.redl_comments.specs.Comments.{comments_among, comments_of};
ghost use Rattle.redl_comments.specs.Inside.Items.{comments_if, item_comments};

use crate::comment::Comment;
use crate::parts::comments_story;
use redl_opc::Package;
use redl_tree::{Elem, Node, Word, is_word};
use std::alloc::{AllocError, Global};

/// The comments of a package, in the order of their part. `Err` means out of memory, here and below.
pub fn comments_of(alloc: Global, pkg: &Package) -> Result<Vec<Comment>, AllocError>
    ensures { IfOk result (λ comments. comments.items ≡ comments_of pkg.now) }
{
    match comments_story(alloc, pkg)? {
        Some(root) => {
            let comments = comments_among(alloc, root.kids())?;
            Ok(comments)
        }
        None => Ok(Vec::new(alloc)),
    }
}

fn comments_among(alloc: Global, kids: &[Node]) -> Result<Vec<Comment>, AllocError>
    ensures { IfOk result (λ comments. comments.items ≡ comments_among (nodes_of kids.now)) }
{
    let mut comments = Vec::new(alloc);
    for node in kids {
        add_node(alloc, node, &mut comments)?;
    }
    Ok(comments)
}

fn add_node(alloc: Global, node: &Node, comments: &mut Vec<Comment>) -> Result<(), AllocError>
    ensures { OnOk result (comments.new.items ≡ comments.old.items ++ item_comments (item_of node.now)) }
{
    match node {
        Node::Elem(elem) => add_elem(alloc, elem, comments),
        Node::Bytes(_) | Node::Plain(_) => Ok(()),
    }
}

fn add_elem(alloc: Global, elem: &Elem, comments: &mut Vec<Comment>) -> Result<(), AllocError>
    ensures { OnOk result (comments.new.items ≡ comments.old.items ++ comments_if (element_of elem.now)) }
{
    if is_word(elem, Word::Comment) {
        let comment = Comment::read(alloc, elem)?;
        comments.push(comment)?;
    }
    Ok(())
}
