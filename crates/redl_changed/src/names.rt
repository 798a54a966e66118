//! The names of elements and attributes in lists of properties.

ghost use Rattle.std.specs.Prelude.{◌≡◌, ◌++◌, IfOk, OnOk};
ghost use Rattle.redl_changed.specs.Paths.{attribute_name, below, front_of, is_change_name, is_in_place, is_left_out, is_mark_name, is_uncovered_name, name_in_path, sided, sided_front, whole_name};

use redl_reading::skip;
use redl_tree::{Prop, Space};
use std::alloc::{AllocError, Global};

// How many bytes of a path are kept.
const LONGEST: usize = 256;

/// Whether a rejection of a change of these properties leaves an element with this name in place, or it is a mark or a change itself.
pub(crate) fn is_left_out(what: Prop, space: Space, local: &[u8]) -> bool
    ensures { result ≡ is_left_out what space local.now }
{
    is_in_place(what, space, local) || is_change_name(local)
}

fn is_in_place(what: Prop, space: Space, local: &[u8]) -> bool
    ensures { result ≡ is_in_place what space local.now }
{
    match space {
        Space::W => is_mark_name(local) || is_uncovered_name(what, local),
        _ => false,
    }
}

fn is_mark_name(local: &[u8]) -> bool
    ensures { result ≡ is_mark_name local.now }
{
    local == b"ins".as_slice()
        || local == b"del".as_slice()
        || local == b"moveFrom".as_slice()
        || local == b"moveTo".as_slice()
        || local == b"cellIns".as_slice()
        || local == b"cellDel".as_slice()
        || local == b"cellMerge".as_slice()
}

fn is_uncovered_name(what: Prop, local: &[u8]) -> bool
    ensures { result ≡ is_uncovered_name what local.now }
{
    match what {
        Prop::Para => local == b"rPr".as_slice() || local == b"sectPr".as_slice(),
        Prop::Sect => {
            local == b"headerReference".as_slice() || local == b"footerReference".as_slice()
        }
        _ => false,
    }
}

fn is_change_name(local: &[u8]) -> bool
    ensures { result ≡ is_change_name local.now }
{
    &local[local.len().saturating_sub(6)..] == b"Change".as_slice()
}

/// The path of an element with this name in an element with this path, which is empty for the list itself. Of a long one the beginning is
/// kept. `Err` means out of memory.
pub(crate) fn path_below(
    alloc: Global,
    path: &[u8],
    space: Space,
    prefix: &[u8],
    local: &[u8],
) -> Result<Vec<u8>, AllocError>
    ensures { IfOk result (λ inside. inside.items ≡ below path.now (name_in_path space prefix.now local.now)) }
{
    let mut inside = Vec::new(alloc);
    push_front(&mut inside, path, b"/")?;
    push_name(&mut inside, space, prefix, local)?;
    inside.truncate(LONGEST);
    Ok(inside)
}

// Adds what stands in front of a name, with a sign behind it, if there is something.
fn push_front(path: &mut Vec<u8>, front: &[u8], sign: &[u8]) -> Result<(), AllocError>
    ensures { OnOk result (path.new.items ≡ path.old.items ++ front_of front.now sign.now) }
{
    if front.is_empty() {
        return Ok(());
    }
    path.extend_from_slice(front)?;
    path.extend_from_slice(sign)
}

fn push_name(
    path: &mut Vec<u8>,
    space: Space,
    prefix: &[u8],
    local: &[u8],
) -> Result<(), AllocError>
    ensures { OnOk result (path.new.items ≡ path.old.items ++ name_in_path space prefix.now local.now) }
{
    match space {
        Space::W => path.extend_from_slice(sided(local)),
        _ => push_whole(path, prefix, local),
    }
}

fn push_whole(path: &mut Vec<u8>, prefix: &[u8], local: &[u8]) -> Result<(), AllocError>
    ensures { OnOk result (path.new.items ≡ path.old.items ++ whole_name prefix.now local.now) }
{
    push_front(path, prefix, b":")?;
    path.extend_from_slice(local)
}

// A side, as most documents name it.
fn sided<'a>(local: &'a [u8]) -> &'a [u8]
    ensures { result.now ≡ sided local.now }
{
    if local == b"start".as_slice() {
        b"left"
    } else if local == b"end".as_slice() {
        b"right"
    } else {
        local
    }
}

/// The name of an attribute of an element with this path. `Err` means out of memory.
pub(crate) fn attribute_name(
    alloc: Global,
    path: &[u8],
    local: &[u8],
) -> Result<Vec<u8>, AllocError>
    ensures { IfOk result (λ name. name.items ≡ attribute_name path.now local.now) }
{
    let mut name = Vec::new(alloc);
    if path == b"ind".as_slice() {
        push_sided(&mut name, local)?;
        return Ok(name);
    }
    name.extend_from_slice(local)?;
    Ok(name)
}

fn push_sided(name: &mut Vec<u8>, local: &[u8]) -> Result<(), AllocError>
    ensures { OnOk result (name.new.items ≡ name.old.items ++ sided_front local.now) }
{
    if let Some(rest) = skip(local, b"start") {
        name.extend_from_slice(b"left")?;
        return name.extend_from_slice(rest);
    }
    if let Some(rest) = skip(local, b"end") {
        name.extend_from_slice(b"right")?;
        return name.extend_from_slice(rest);
    }
    name.extend_from_slice(local)
}
