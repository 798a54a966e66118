//! What the styles part says of hidden text, looked up.

ghost use Rattle.std.specs.Prelude.{◌≡◌, IfOk, codes, map, unwrap_or, false};
ghost use Rattle.std.specs.Option.{option_map};
ghost use Rattle.redl_lists.specs.Parts.{held_by, kids_of_part, part_elements};
ghost use Rattle.redl_lists.specs.Tables.{kids_in};
ghost use Rattle.redl_relations.specs.Relations.{document_part};
ghost use Rattle.redl_lists.specs.Named.{all_named};
ghost use Rattle.redl_tree.specs.Model.View.{kids_of};
ghost use Rattle.redl_hidden.specs.Runs.{is_of_paragraphs, is_of_runs, mark_hides, paragraph_hides, paragraph_style_hides, properties_hide, run_hides, run_style_hides, value_hides};
ghost use Rattle.redl_hidden.specs.Styles.{default_properties, kids_of_first, package_hidden, place_with, style_of, styles_data, vanish_in};

use crate::chain::{Link, chains_of, said_at};
use crate::places::Places;
use crate::style::Style;
use crate::value::{first_kid, kid_value, vanish_in};
use redl_lists::Part;
use redl_opc::Package;
use redl_relations::{document_part, part_by_type, xml_data};
use redl_tree::Elem;
use std::alloc::{AllocError, Global};
use std::marker::Model;

/// What the styles part of a package says of hidden text.
#[derive(Drop)]
pub struct HiddenStyles<'a> {
    styles: Vec<Style<'a>>,
    document: bool,
    places: Places<'a>,
    links: Vec<Link>,
    of_paragraphs: Option<usize>,
    of_runs: Option<usize>,
}

impl<'a> Model for HiddenStyles<'a> {
    ghost use Rattle.std.specs.Prelude.{◌≡◌, ℕ, List, Option};
    ghost use Rattle.redl_hidden.specs.Runs.{is_of_paragraphs, is_of_runs};
    ghost use Rattle.redl_hidden.specs.Styles.{HiddenStyles as Said, chain_hides, place_of, place_with};
    ghost use Rattle.redl_hidden.specs.Inside.Chains.{link_at, said_by};
    ghost use Rattle.redl_hidden.specs.Inside.Known.{place_in};

    ghost Value = { Said };

    ghost view = { λ hidden. record { styles = hidden.styles.items; document = hidden.document } };

    ghost invariant = { λ hidden.
        ((id : List ℕ) → place_in hidden.places id ≡ place_of hidden.styles.items id)
        × ((place : Option ℕ) → said_by (link_at hidden.links.items place) ≡ chain_hides hidden.styles.items place)
        × (hidden.of_paragraphs ≡ place_with is_of_paragraphs hidden.styles.items)
        × (hidden.of_runs ≡ place_with is_of_runs hidden.styles.items) };
}

impl<'a> HiddenStyles<'a> {
    /// What the styles part of a package says. `Err` means out of memory.
    ///
    /// It takes memory for the styles alone, and time for 32 rounds over them, however long their chains are.
    pub fn of(alloc: Global, pkg: &Package<'a>) -> Result<HiddenStyles<'a>, AllocError>
        ensures { IfOk result (λ hidden. hidden ≡ package_hidden pkg.now) }
    {
        let root = styles_root(alloc, pkg)?;
        let document = document_hides(&root);
        let styles = styles_in(alloc, &root)?;
        HiddenStyles::resolved(alloc, styles, document)
    }

    // Of these styles.
    fn resolved(
        alloc: Global,
        styles: Vec<Style<'a>>,
        document: bool,
    ) -> Result<HiddenStyles<'a>, AllocError>
        ensures styles { IfOk result (λ hidden. hidden.styles ≡ styles.entry.items) }
        ensures document { IfOk result (λ hidden. hidden.document ≡ document) }
    {
        let places = Places::of(alloc, &styles)?;
        let links = chains_of(alloc, &styles, &places)?;
        let of_paragraphs = place_of_paragraphs(&styles);
        let of_runs = place_of_runs(&styles);
        Ok(HiddenStyles {
            styles,
            document,
            places,
            links,
            of_paragraphs,
            of_runs,
        })
    }

    /// Whether a paragraph hides its runs, where they say nothing themselves. It takes no memory, here and below.
    pub fn paragraph_hides(&self, paragraph: &Elem) -> bool
        ensures { result ≡ paragraph_hides self.now (kids_of paragraph.now) }
    {
        let properties = Part::Tree(paragraph).first_named(b"pPr");
        match self.paragraph_style_hides(&properties) {
            Some(hides) => hides,
            None => self.document,
        }
    }

    fn paragraph_style_hides(&self, properties: &Option<Part<'_, '_>>) -> Option<bool>
        ensures { result ≡ paragraph_style_hides self.now (kids_of_part properties.now) }
    {
        match kid_value(properties, b"pStyle") {
            Some(id) => said_at(&self.links, self.places.place(id)),
            None => said_at(&self.links, self.of_paragraphs),
        }
    }

    /// Whether a run is hidden, in a paragraph that hides its runs or not.
    pub fn run_hides(&self, paragraph: bool, run: &Elem) -> bool
        ensures { result ≡ run_hides self.now paragraph (kids_of run.now) }
    {
        let properties = Part::Tree(run).first_named(b"rPr");
        self.properties_hide(paragraph, &properties)
    }

    /// Whether the mark of a paragraph is hidden, which hides its runs or not.
    pub fn mark_hides(&self, paragraph: bool, elem: &Elem) -> bool
        ensures { result ≡ mark_hides self.now paragraph (kids_of elem.now) }
    {
        let properties = Part::Tree(elem).first_named(b"pPr");
        self.properties_hide(paragraph, &first_kid(&properties, b"rPr"))
    }

    fn properties_hide(&self, paragraph: bool, properties: &Option<Part<'_, '_>>) -> bool
        ensures { result ≡ properties_hide self.now paragraph (kids_of_part properties.now) }
    {
        match vanish_in(properties) {
            Some(hides) => hides,
            None => match self.run_style_hides(properties) {
                Some(hides) => hides,
                None => paragraph,
            },
        }
    }

    fn run_style_hides(&self, properties: &Option<Part<'_, '_>>) -> Option<bool>
        ensures { result ≡ run_style_hides self.now (kids_of_part properties.now) }
    {
        self.value_hides(kid_value(properties, b"rStyle"))
    }

    /// Whether the style of runs hides that this value names, or else the default one, where its chain says so.
    pub(crate) fn value_hides(&self, value: Option<&[u8]>) -> Option<bool>
        ensures { result ≡ value_hides self.now (option_map (λ id. id.now) value.entry) }
    {
        match value {
            Some(id) => said_at(&self.links, self.places.place(id)),
            None => said_at(&self.links, self.of_runs),
        }
    }
}

// The place of the style of paragraphs that name none.
fn place_of_paragraphs(styles: &[Style<'_>]) -> Option<usize>
    ensures { result ≡ place_with is_of_paragraphs styles.now }
{
    styles.iter().position(|style| style.is_of_paragraphs())
}

// The place of the style of runs that name none.
fn place_of_runs(styles: &[Style<'_>]) -> Option<usize>
    ensures { result ≡ place_with is_of_runs styles.now }
{
    styles.iter().position(|style| style.is_of_runs())
}

// The root of the styles part. `Err` means out of memory.
fn styles_root<'n, 'a>(
    alloc: Global,
    pkg: &'n Package<'a>,
) -> Result<Option<Part<'n, 'a>>, AllocError>
    ensures { IfOk result (λ root. kids_of_part root ≡ kids_of_first (codes "styles") (kids_in (styles_data pkg.now (document_part pkg.now)))) }
{
    let Some(document) = document_part(pkg) else {
        return Ok(None);
    };
    let Some(part) = part_by_type(alloc, pkg, document, b"/styles")? else {
        return Ok(None);
    };
    let data = xml_data(pkg, part);
    Ok(root_in(data))
}

fn root_in<'n, 'a>(data: Option<&'n Elem<'a>>) -> Option<Part<'n, 'a>>
    ensures { kids_of_part result ≡ kids_of_first (codes "styles") (held_by data.entry) }
{
    Part::Tree(data?).first_named(b"styles")
}

fn document_hides(root: &Option<Part<'_, '_>>) -> bool
    ensures { result ≡ unwrap_or (vanish_in (default_properties (kids_of_part root.now))) false }
{
    let defaults = first_kid(&first_kid(root, b"docDefaults"), b"rPrDefault");
    let properties = first_kid(&defaults, b"rPr");
    vanish_in(&properties) == Some(true)
}

// What each style says. `Err` means out of memory, here and below.
fn styles_in<'a>(alloc: Global, root: &Option<Part<'_, 'a>>) -> Result<Vec<Style<'a>>, AllocError>
    ensures { IfOk result (λ styles. styles.items ≡ map style_of (all_named (codes "style") (kids_of_part root.now))) }
{
    match root {
        Some(root) => styles_of(alloc, &root.all_named(alloc, b"style")?),
        None => Ok(Vec::new(alloc)),
    }
}

fn styles_of<'a>(alloc: Global, parts: &[Part<'_, 'a>]) -> Result<Vec<Style<'a>>, AllocError>
    ensures { IfOk result (λ styles. styles.items ≡ map style_of (part_elements parts.now)) }
{
    let mut styles = Vec::with_capacity(alloc, parts.len())?;
    for part in parts {
        styles.push(Style::of(part))?;
    }
    Ok(styles)
}
