//! Where the relationships of pictures lead.

ghost use Rattle.std.specs.Prelude.{◌≡◌, ◌++◌, IfOk, OnOk, codes};
ghost use Rattle.std.specs.List.{flat_map};
ghost use Rattle.redl_opc.specs.Elements.{element_of, elements_of};
ghost use Rattle.redl_relations.specs.Relations.{has_local, has_type, leads_inside, name_at};
ghost use Rattle.redl_tree.specs.Model.View.{item_of, nodes_of, tag_of};
ghost use Rattle.redl_page_pictures.specs.Pictures.{is_story_part, lead_in, lead_of, leads_of};
ghost use Rattle.redl_page_pictures.specs.Inside.Items.{item_list};

use crate::image::name_of;
use redl_io::Text;
use redl_opc::{Package, story_of};
use redl_relations::{relations_of, target_name, value_in};
use redl_stamp::attribute;
use redl_tree::{Elem, Node, Space, is_named_pkg};
use std::alloc::{AllocError, Global};

/// Where the relationship of a picture leads.
#[derive(Drop)]
pub struct PictureLead {
    /// The name of the part that has it, which is a story.
    pub source: Text,
    /// Its id, as it is written.
    pub id: Text,
    /// The name to which it leads.
    pub image: Text,
}

impl PictureLead {
    // That of the part with the name `source`. `Err` means out of memory, here and below.
    fn of(alloc: Global, source: &[u8], relation: &Elem) -> Result<PictureLead, AllocError>
        ensures { IfOk result (λ lead. lead ≡ lead_of source.now (element_of relation.now)) }
    {
        let id = Text::copy_of(alloc, value_in(relation.tail(), b"Id"))?;
        let image = name_at(alloc, source, relation)?;
        let source = Text::copy_of(alloc, source)?;
        Ok(PictureLead { source, id, image })
    }
}

// The name to which a relationship of the part with the name `source` leads.
fn name_at(alloc: Global, source: &[u8], relation: &Elem) -> Result<Text, AllocError>
    ensures { IfOk result (λ name. name ≡ name_at source.now (element_of relation.now)) }
{
    let target = match attribute(alloc, relation.tail(), b"Target")? {
        Some(target) => target_name(alloc, source, target.as_bytes())?,
        None => target_name(alloc, source, b"")?,
    };
    Text::copy_of(alloc, &target)
}

/// Those of the stories of a package among the kids of its root.
pub(crate) fn leads_among(
    alloc: Global,
    pkg: &Package,
    nodes: &[Node],
) -> Result<Vec<PictureLead>, AllocError>
    ensures { IfOk result (λ leads. leads.items ≡ flat_map (leads_of pkg.now) (elements_of (nodes_of nodes.now))) }
{
    let mut leads = Vec::new(alloc);
    for node in nodes {
        add_node(alloc, pkg, node, &mut leads)?;
    }
    Ok(leads)
}

fn add_node(
    alloc: Global,
    pkg: &Package,
    node: &Node,
    leads: &mut Vec<PictureLead>,
) -> Result<(), AllocError>
    ensures { OnOk result (leads.new.items ≡ leads.old.items ++ item_list (leads_of pkg.now) (item_of node.now)) }
{
    match node {
        Node::Elem(part) => add_part(alloc, pkg, part, leads),
        Node::Bytes(_) | Node::Plain(_) => Ok(()),
    }
}

fn add_part(
    alloc: Global,
    pkg: &Package,
    part: &Elem,
    leads: &mut Vec<PictureLead>,
) -> Result<(), AllocError>
    ensures { OnOk result (leads.new.items ≡ leads.old.items ++ leads_of pkg.now (element_of part.now)) }
{
    if !is_story_part(part) {
        return Ok(());
    }
    let name = name_of(alloc, part)?;
    match relations_of(alloc, pkg, name.as_bytes())? {
        Some(root) => add_all(alloc, name.as_bytes(), root.kids(), leads),
        None => Ok(()),
    }
}

fn is_story_part(part: &Elem) -> bool
    ensures { result ≡ is_story_part (element_of part.now) }
{
    is_named_pkg(part, b"part") && story_of(part).is_some()
}

// Adds those among relationships of the part with the name `source`.
fn add_all(
    alloc: Global,
    source: &[u8],
    nodes: &[Node],
    leads: &mut Vec<PictureLead>,
) -> Result<(), AllocError>
    ensures { OnOk result (leads.new.items ≡ leads.old.items ++ flat_map (lead_in source.now) (elements_of (nodes_of nodes.now))) }
{
    for node in nodes {
        add_item(alloc, source, node, leads)?;
    }
    Ok(())
}

fn add_item(
    alloc: Global,
    source: &[u8],
    node: &Node,
    leads: &mut Vec<PictureLead>,
) -> Result<(), AllocError>
    ensures { OnOk result (leads.new.items ≡ leads.old.items ++ item_list (lead_in source.now) (item_of node.now)) }
{
    match node {
        Node::Elem(elem) => add_elem(alloc, source, elem, leads),
        Node::Bytes(_) | Node::Plain(_) => Ok(()),
    }
}

fn add_elem(
    alloc: Global,
    source: &[u8],
    elem: &Elem,
    leads: &mut Vec<PictureLead>,
) -> Result<(), AllocError>
    ensures { OnOk result (leads.new.items ≡ leads.old.items ++ lead_in source.now (element_of elem.now)) }
{
    if is_of_picture(elem) {
        let lead = PictureLead::of(alloc, source, elem)?;
        leads.push(lead)?;
    }
    Ok(())
}

// Whether an element is the relationship of a picture in the package.
fn is_of_picture(elem: &Elem) -> bool
    ensures { result ≡ has_type (codes "/image") (tag_of elem.now) }
{
    is_relation(elem) && leads_inside(elem) && value_in(elem.tail(), b"Type").ends_with(b"/image")
}

fn is_relation(elem: &Elem) -> bool
    ensures { result ≡ has_local (codes "Relationship") (tag_of elem.now) }
{
    elem.space() == Space::Other && elem.local() == b"Relationship".as_slice()
}

fn leads_inside(elem: &Elem) -> bool
    ensures { result ≡ leads_inside (tag_of elem.now) }
{
    value_in(elem.tail(), b"TargetMode") != b"External".as_slice()
}
