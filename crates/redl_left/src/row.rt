//! A row of the table: a fact, and a test of an element.

use crate::fact::Fact;
use crate::name::Name;

/// Which elements a row asks for, by their names.
#[derive(Clone, Copy, Debug, PartialEq, Eq)]
pub enum Where {
    /// Those of WordprocessingML with this local name that are in no revision.
    Word(Name),
    /// All of WordprocessingML that are in no revision.
    AnyWord,
    /// Those of no namespace that is known here, with this local name, in an element with that one.
    Inside(Name, Name),
    /// The parts of the package.
    Part,
}

/// Which of these a row asks for, by an attribute.
#[derive(Clone, Copy, Debug, PartialEq, Eq)]
pub enum When {
    /// Each.
    Always,
    /// Those that are switched on.
    On,
    /// Those that have this attribute.
    Has(Name),
    /// Those that have an attribute whose name begins so.
    HasFront(Name),
    /// Those of which this attribute has this value.
    Is(Name, Name),
    /// Those of which this attribute begins so.
    Begins(Name, Name),
    /// Those of which this attribute ends so.
    Ends(Name, Name),
    /// Those with another `type` than `normal`, as separators of notes have.
    Separates,
    /// Those with no `type` but `normal`, whose `id` no element names for this fact.
    Spare(Fact),
    /// Those whose `name` an element names for this fact.
    Led(Fact),
}

/// What is told of an element.
#[derive(Clone, Copy, Debug, PartialEq, Eq)]
pub enum Value {
    /// Nothing.
    Nothing,
    /// This attribute.
    Attribute(Name),
    /// Who made it, where somebody is named.
    Author,
    /// Its local name, and who made it.
    Made,
    /// What it shows, unless it is of WordprocessingML.
    Shown,
    /// This attribute, and what the first element in it shows.
    Held(Name),
    /// The name of the part to which this attribute of a relationship leads.
    Lead(Name),
}

/// A fact, and which elements are its finds.
#[derive(Clone, Copy, Debug, PartialEq, Eq)]
pub struct Row {
    /// The fact.
    pub fact: Fact,
    /// Which elements, by their names.
    pub place: Where,
    /// Which of these, by an attribute.
    pub when: When,
    /// What is told of them.
    pub value: Value,
}
