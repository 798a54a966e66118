//! What a paragraph says of its number.

ghost use Rattle.std.specs.Prelude.{◌≡◌, IfOk, codes, is_some};
ghost use Rattle.redl_tree.specs.Model.View.{kids_of};
ghost use Rattle.redl_lists.specs.Named.{first_named};
ghost use Rattle.redl_lists.specs.Owns.{own_of};
ghost use Rattle.redl_lists.specs.Parts.{kids_of_part};
ghost use Rattle.redl_lists.specs.Values.{kid_value};

use crate::part::Part;
use crate::table::{kid_id_in, kid_level_in, num_properties};
use crate::value::kid_value;
use redl_io::Text;
use redl_numerals::Number;
use redl_tree::Elem;
use std::alloc::{AllocError, Global};

/// What a paragraph says itself of its number.
#[derive(Drop)]
pub struct Own {
    /// The id of a num.
    pub num: Option<Text>,
    /// A level.
    pub level: Option<Number>,
    /// The name of its style.
    pub style: Option<Text>,
    /// Whether a section ends with it.
    pub ends_section: bool,
}

impl Own {
    /// What a paragraph says. `Err` means out of memory.
    pub fn of(alloc: Global, paragraph: &Elem) -> Result<Own, AllocError>
        ensures { IfOk result (λ own. own ≡ own_of (kids_of paragraph.now)) }
    {
        let part = Part::Tree(paragraph);
        let said = num_properties(&part);
        let properties = part.first_named(b"pPr");
        Ok(Own {
            num: kid_id_in(alloc, &said)?,
            level: kid_level_in(alloc, &said)?,
            style: style_in(alloc, &properties)?,
            ends_section: ends_section(&properties),
        })
    }
}

fn style_in(alloc: Global, properties: &Option<Part<'_, '_>>) -> Result<Option<Text>, AllocError>
    ensures { IfOk result (λ style. style ≡ kid_value (codes "pStyle") (kids_of_part properties.now)) }
{
    match properties {
        Some(properties) => kid_value(alloc, properties, b"pStyle"),
        None => Ok(None),
    }
}

fn ends_section(properties: &Option<Part<'_, '_>>) -> bool
    ensures { result ≡ is_some (first_named (codes "sectPr") (kids_of_part properties.now)) }
{
    match properties {
        Some(properties) => properties.first_named(b"sectPr").is_some(),
        None => false,
    }
}
