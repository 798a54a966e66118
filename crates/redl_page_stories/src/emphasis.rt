//! Bold and italic runs.

ghost use Rattle.std.specs.Prelude.{◌≡◌, ◌||◌, Some, codes};
ghost use Rattle.redl_tree.specs.Model.IdleTexts.{idle_nodes};
ghost use Rattle.redl_tree.specs.Model.View.{nodes_of, item_of, tag_of};
ghost use Rattle.redl_tree.specs.Roles.Names.{of_w};
ghost use Rattle.redl_stamp.specs.Attribute.{written_value};
ghost use Rattle.redl_idle.specs.Ahead.{Begins};
ghost use Rattle.redl_page_stories.specs.Inside.Emphasis.{letters_on, level_in, noted, tag_with};
ghost use Rattle.redl_page_stories.specs.declared.emphasis.Level.TheVariants.{Properties};
ghost use Rattle.redl_page_stories.specs.Shapes.{has_property, switched_on, switches};
ghost use Rattle.redl_page_stories.specs.Values.{is_off};
ghost use Rattle.redl_page_stories.specs.Inside.Items.{item_has_property, item_switches};

use crate::values::written_value;
use redl_idle::{Shows, show, show_ahead};
use redl_tree::{Elem, Node, Plain, Word, is_named, is_word};
use std::convert::Infallible;

const NONE: Emphasis = Emphasis {
    bold: false,
    italic: false,
};

/// How a run is set, or what some properties of runs switch on.
#[derive(Clone, Copy)]
pub(crate) struct Emphasis {
    /// Bold.
    pub bold: bool,
    /// Italic.
    pub italic: bool,
}

impl Emphasis {
    /// That of a run with these kids.
    pub(crate) fn of_run(kids: &[Node]) -> Emphasis
        ensures bold { result.bold ≡ has_property (codes "b") (nodes_of kids.now) }
        ensures italic { result.italic ≡ has_property (codes "i") (nodes_of kids.now) }
    {
        let mut found = NONE;
        for node in kids {
            found = found.with(in_run(node));
        }
        found
    }

    /// That of a run with whose kids this text begins.
    pub(crate) fn of_run_ahead(text: &[u8]) -> Emphasis
        requires { Begins text.now }
        ensures bold { (kids : Begins text.now) → result.bold ≡ has_property (codes "b") kids.nodes }
        ensures italic { (kids : Begins text.now) → result.italic ≡ has_property (codes "i") kids.nodes }
    {
        let mut found = NONE;
        match show_ahead(text, &Level::Kids, &mut found) {
            Ok(()) => found,
        }
    }

    // What these properties switch on.
    fn of_properties(nodes: &[Node]) -> Emphasis
        ensures bold { result.bold ≡ switched_on (codes "b") (nodes_of nodes.now) }
        ensures italic { result.italic ≡ switched_on (codes "i") (nodes_of nodes.now) }
    {
        let mut found = NONE;
        for node in nodes {
            found = found.with(among_properties(node));
        }
        found
    }

    // What these properties switch on, which a list keeps as text.
    fn of_idle_properties(plain: &Plain<'_>) -> Emphasis
        ensures bold { result.bold ≡ switched_on (codes "b") (idle_nodes plain.now) }
        ensures italic { result.italic ≡ switched_on (codes "i") (idle_nodes plain.now) }
    {
        let mut found = NONE;
        match show(plain, &Level::Properties, &mut found) {
            Ok(()) => found,
        }
    }

    // Notes what a property with this local name and tail switches on.
    fn note(&mut self, local: &[u8], tail: &[u8])
        ensures { self.new ≡ noted self.old (letters_on Properties (tag_with local.now tail.now)) }
    {
        self.bold = self.bold || is_on(local, tail, b"b");
        self.italic = self.italic || is_on(local, tail, b"i");
    }

    // What it has, and what the other one has.
    fn with(self, other: Emphasis) -> Emphasis
        ensures bold { result.bold ≡ (self.bold || other.bold) }
        ensures italic { result.italic ≡ (self.italic || other.italic) }
    {
        Emphasis {
            bold: self.bold || other.bold,
            italic: self.italic || other.italic,
        }
    }
}

// What a node among the kids of a run gives it.
fn in_run(node: &Node) -> Emphasis
    ensures bold { result.bold ≡ item_has_property (codes "b") (item_of node.now) }
    ensures italic { result.italic ≡ item_has_property (codes "i") (item_of node.now) }
{
    match node {
        Node::Elem(elem) if is_word(elem, Word::RPr) => Emphasis::of_properties(elem.kids()),
        _ => NONE,
    }
}

// What a node among the properties of a run switches on.
fn among_properties(node: &Node) -> Emphasis
    ensures bold { result.bold ≡ item_switches (codes "b") (item_of node.now) }
    ensures italic { result.italic ≡ item_switches (codes "i") (item_of node.now) }
{
    match node {
        Node::Elem(elem) => Emphasis {
            bold: switches(elem, b"b"),
            italic: switches(elem, b"i"),
        },
        Node::Plain(plain) => Emphasis::of_idle_properties(plain),
        Node::Bytes(_) => NONE,
    }
}

fn switches(elem: &Elem, name: &[u8]) -> bool
    ensures { result ≡ switches name.now (tag_of elem.now) }
{
    is_named(elem, name) && !is_switched_off(elem.tail())
}

// Whether an element of W with this local name and tail switches on the property of this name.
fn is_on(local: &[u8], tail: &[u8], name: &[u8]) -> bool
    ensures { result ≡ switches name.now (tag_with local.now tail.now) }
{
    local == name && !is_switched_off(tail)
}

// Whether a tag with this tail switches its property off.
fn is_switched_off(tail: &[u8]) -> bool
    ensures { result ≡ is_off (written_value tail.now (codes "val")) }
{
    match written_value(tail, b"val") {
        Some(value) => is_off(value),
        None => false,
    }
}

/// Whether a value switches a property off.
pub(crate) fn is_off(value: &[u8]) -> bool
    ensures { result ≡ is_off (Some value.now) }
{
    value == b"0".as_slice() || value == b"false".as_slice() || value == b"off".as_slice()
}

// Where nodes are in a run.
#[derive(Clone, Copy)]
enum Level {
    /// Its kids.
    Kids,
    /// Those in its properties.
    Properties,
    /// Those below these.
    Below,
}

impl Level {
    // The level of the kids of an element with this local name.
    fn inside(self, local: &[u8]) -> Level
        ensures { result ≡ level_in self (of_w local.now) }
    {
        match self {
            Level::Kids if local == b"rPr".as_slice() => Level::Properties,
            _ => Level::Below,
        }
    }
}

impl Shows<Emphasis> for Level {
    ghost use Rattle.redl_idle.specs.Takings.{by_state};
    ghost use Rattle.redl_page_stories.specs.Inside.Emphasis.{emphasis_rule, noted, noted_nothing, noted_more};

    type Error = Infallible;

    ghost rule = { emphasis_rule };

    ghost taking = { by_state noted noted_nothing noted_more };

    fn put_bytes(&self, _bytes: &[u8], _out: &mut Emphasis) -> Result<(), Infallible> {
        Ok(())
    }

    fn enter(
        &self,
        local: &[u8],
        tail: &[u8],
        _ahead: &[u8],
        out: &mut Emphasis,
    ) -> Result<Level, Infallible> {
        if matches!(self, Level::Properties) {
            out.note(local, tail);
        }
        Ok(self.inside(local))
    }

    fn leave(&self, _out: &mut Emphasis) -> Result<(), Infallible> {
        Ok(())
    }
}
