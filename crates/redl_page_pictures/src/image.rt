//! The images of a package.

ghost use Rattle.std.specs.Prelude.{◌≡◌, ◌++◌, IfOk, OnOk};
ghost use Rattle.std.specs.List.{flat_map};
ghost use Rattle.redl_opc.specs.Elements.{element_of, elements_of};
ghost use Rattle.redl_opc.specs.Parts.{name_in};
ghost use Rattle.redl_tree.specs.Model.View.{item_of, nodes_of, tag_of};
ghost use Rattle.redl_page_pictures.specs.Pictures.{Image as Said, image_in, images_of, is_image, is_shown, kind_of, text_alone};
ghost use Rattle.redl_page_pictures.specs.Inside.Items.{item_list, item_text};

use redl_io::Text;
use redl_relations::value_in;
use redl_stamp::attribute;
use redl_tree::{Elem, Node, has_elements, is_named_pkg};
use std::alloc::{AllocError, Global};
use std::marker::Model;

/// A part that is a picture. Its data is borrowed.
#[derive(Drop)]
pub struct Image<'a> {
    // The name of the part, its type, and the text of its data, in base64.
    name: Text,
    kind: &'a [u8],
    text: &'a [u8],
}

impl<'a> Model for Image<'a> {
    ghost use Rattle.redl_page_pictures.specs.Pictures.{Image as Said};

    ghost Value = { Said };

    ghost view = { λ image. record { name = image.name; kind = image.kind.now; text = image.text.now } };
}

impl<'a> Image<'a> {
    // The image with the tag of a part and this text of its data. `Err` means out of memory, here and below.
    fn of(alloc: Global, part: &Elem<'a>, text: &'a [u8]) -> Result<Image<'a>, AllocError>
        ensures { IfOk result (λ image. image ≡ record { name = name_in (tag_of part.now); kind = kind_of (tag_of part.now); text = text.now }) }
    {
        let name = name_of(alloc, part)?;
        Ok(Image {
            name,
            kind: kind_of(part),
            text,
        })
    }

    /// The name of its part.
    pub fn name(&self) -> &[u8]
        ensures { result.now ≡ self.now.name }
    {
        self.name.as_bytes()
    }

    /// Its type.
    pub fn kind(&self) -> &'a [u8]
        ensures { result.now ≡ self.now.kind }
    {
        self.kind
    }

    /// The text of its data, in base64.
    pub fn text(&self) -> &'a [u8]
        ensures { result.now ≡ self.now.text }
    {
        self.text
    }
}

/// The decoded name of a part.
pub(crate) fn name_of(alloc: Global, part: &Elem) -> Result<Text, AllocError>
    ensures { IfOk result (λ name. name ≡ name_in (tag_of part.now)) }
{
    match attribute(alloc, part.tail(), b"name")? {
        Some(name) => Ok(name),
        None => Text::copy_of(alloc, b""),
    }
}

// The type of a part, as it is written.
fn kind_of<'a>(part: &Elem<'a>) -> &'a [u8]
    ensures { result.now ≡ kind_of (tag_of part.now) }
{
    value_in(part.tail(), b"contentType")
}

/// The images among the kids of a package's root.
pub(crate) fn images_among<'a>(
    alloc: Global,
    nodes: &[Node<'a>],
) -> Result<Vec<Image<'a>>, AllocError>
    ensures { IfOk result (λ images. images.items ≡ flat_map images_of (elements_of (nodes_of nodes.now))) }
{
    let mut images = Vec::new(alloc);
    for node in nodes {
        add_node(alloc, node, &mut images)?;
    }
    Ok(images)
}

fn add_node<'a>(
    alloc: Global,
    node: &Node<'a>,
    images: &mut Vec<Image<'a>>,
) -> Result<(), AllocError>
    ensures { OnOk result (images.new.items ≡ images.old.items ++ item_list images_of (item_of node.now)) }
{
    match node {
        Node::Elem(part) => add_part(alloc, part, images),
        Node::Bytes(_) | Node::Plain(_) => Ok(()),
    }
}

fn add_part<'a>(
    alloc: Global,
    part: &Elem<'a>,
    images: &mut Vec<Image<'a>>,
) -> Result<(), AllocError>
    ensures { OnOk result (images.new.items ≡ images.old.items ++ images_of (element_of part.now)) }
{
    if is_image(part) {
        return add_kids(alloc, part, part.kids(), images);
    }
    Ok(())
}

fn is_image(part: &Elem) -> bool
    ensures { result ≡ is_image (tag_of part.now) }
{
    is_named_pkg(part, b"part") && is_shown(kind_of(part))
}

fn is_shown(kind: &[u8]) -> bool
    ensures { result ≡ is_shown kind.now }
{
    kind == b"image/png".as_slice()
        || kind == b"image/jpeg".as_slice()
        || kind == b"image/gif".as_slice()
}

// Adds the images among the kids of a part.
fn add_kids<'a>(
    alloc: Global,
    part: &Elem<'a>,
    kids: &[Node<'a>],
    images: &mut Vec<Image<'a>>,
) -> Result<(), AllocError>
    ensures { OnOk result (images.new.items ≡ images.old.items ++ flat_map (image_in (tag_of part.now)) (elements_of (nodes_of kids.now))) }
{
    for node in kids {
        add_kid(alloc, part, node, images)?;
    }
    Ok(())
}

fn add_kid<'a>(
    alloc: Global,
    part: &Elem<'a>,
    node: &Node<'a>,
    images: &mut Vec<Image<'a>>,
) -> Result<(), AllocError>
    ensures { OnOk result (images.new.items ≡ images.old.items ++ item_list (image_in (tag_of part.now)) (item_of node.now)) }
{
    match node {
        Node::Elem(elem) => add_data(alloc, part, elem, images),
        Node::Bytes(_) | Node::Plain(_) => Ok(()),
    }
}

fn add_data<'a>(
    alloc: Global,
    part: &Elem<'a>,
    elem: &Elem<'a>,
    images: &mut Vec<Image<'a>>,
) -> Result<(), AllocError>
    ensures { OnOk result (images.new.items ≡ images.old.items ++ image_in (tag_of part.now) (element_of elem.now)) }
{
    if is_named_pkg(elem, b"binaryData") {
        let image = Image::of(alloc, part, text_alone(elem.kids()))?;
        images.push(image)?;
    }
    Ok(())
}

// The text of an element that holds text alone, or the empty text.
fn text_alone<'a>(kids: &[Node<'a>]) -> &'a [u8]
    ensures { result.now ≡ text_alone (nodes_of kids.now) }
{
    if has_elements(kids) {
        return b"";
    }
    match kids.split_first() {
        Some((node, _later)) => text_of(node),
        None => b"",
    }
}

// The bytes that a node is.
fn text_of<'a>(node: &Node<'a>) -> &'a [u8]
    ensures { result.now ≡ item_text (item_of node.now) }
{
    match node {
        Node::Bytes(text) => text,
        Node::Elem(_) | Node::Plain(_) => b"",
    }
}
