//! Runs that are kept as text, read from the text of their kids.

ghost use Rattle.std.specs.Prelude.{◌≡◌, codes};
ghost use Rattle.redl_idle.specs.Ahead.{Begins};
ghost use Rattle.redl_stamp.specs.Attribute.{written_value};
ghost use Rattle.redl_tree.specs.Roles.Names.{of_w};
ghost use Rattle.redl_hidden.specs.Runs.{run_hides, value_hides};
ghost use Rattle.redl_hidden.specs.Inside.Ahead.{after, level_in, letters_in, property_letters, hides_by, style_letter, vanish_letter};

use crate::styles::HiddenStyles;
use crate::value::{on_or, written_value};
use redl_idle::{Shows, show_ahead};
use std::convert::Infallible;

/// What the first properties of a run say.
#[derive(Clone, Copy)]
pub(crate) struct Own {
    // Whether they hide it, where they say so.
    vanish: Option<bool>,
    // Whether the style that they name does, where they name one and it says so.
    style: Option<Option<bool>>,
    // Whether they were read to their end.
    closed: bool,
}

impl HiddenStyles<'_> {
    /// Whether a run is hidden with whose kids this text begins, in a paragraph that hides its runs or not.
    pub fn run_hides_ahead(&self, paragraph: bool, ahead: &[u8]) -> bool
        requires { Begins ahead.now }
        ensures { (kids : Begins ahead.now) → result ≡ run_hides self.now paragraph kids.nodes }
    {
        let mut own = Own {
            vanish: None,
            style: None,
            closed: false,
        };
        let run = Within {
            hidden: self,
            level: Level::Kids,
        };
        match show_ahead(ahead, &run, &mut own) {
            Ok(()) => self.hides_by(paragraph, own),
            Err(never) => match never {},
        }
    }

    fn hides_by(&self, paragraph: bool, own: Own) -> bool
        ensures { result ≡ hides_by self.now paragraph own }
    {
        if let Some(hides) = own.vanish {
            return hides;
        }
        let style = match own.style {
            Some(style) => style,
            None => self.value_hides(None),
        };
        match style {
            Some(hides) => hides,
            None => paragraph,
        }
    }
}

impl Own {
    // Notes whether the properties hide the run.
    fn note_vanish(&mut self, on: bool)
        ensures { self.new ≡ after self.old (vanish_letter on) }
    {
        if !self.closed && self.vanish.is_none() {
            self.vanish = Some(on);
        }
    }

    // Notes whether the style hides it that they name.
    fn note_style(&mut self, hides: Option<bool>)
        ensures { self.new ≡ after self.old (style_letter hides) }
    {
        if !self.closed && self.style.is_none() {
            self.style = Some(hides);
        }
    }
}

// Where nodes are in a run.
#[derive(Clone, Copy)]
pub(crate) enum Level {
    // Its kids.
    Kids,
    // Those in its properties.
    Properties,
    // Those below these.
    Below,
}

impl Level {
    // The level of the kids of an element with this local name.
    fn inside(self, local: &[u8]) -> Level
        ensures { result ≡ level_in self (of_w local.now) }
    {
        match self {
            Level::Kids if local == b"rPr".as_slice() => Level::Properties,
            _ => Level::Below,
        }
    }
}

// Where nodes are in a run, and the styles.
#[derive(Clone, Copy)]
pub(crate) struct Within<'s, 'a> {
    hidden: &'s HiddenStyles<'a>,
    level: Level,
}

impl Within<'_, '_> {
    // Notes a property with this local name and tail.
    fn note(&self, local: &[u8], tail: &[u8], own: &mut Own)
        ensures { own.new ≡ after own.old (property_letters self.now.hidden.now local.now tail.now) }
    {
        if local == b"vanish".as_slice() {
            own.note_vanish(on_or(true, written_value(tail, b"val")));
        } else if local == b"rStyle".as_slice() {
            own.note_style(self.hidden.value_hides(written_value(tail, b"val")));
        }
    }
}

impl Shows<Own> for Within<'_, '_> {
    ghost use Rattle.redl_idle.specs.Takings.{by_state};
    ghost use Rattle.redl_hidden.specs.Inside.Ahead.{ahead_rule, after, after_nothing, after_more};

    type Error = Infallible;

    ghost rule = { ahead_rule };

    ghost taking = { by_state after after_nothing after_more };

    fn put_bytes(&self, _bytes: &[u8], _own: &mut Own) -> Result<(), Infallible> {
        Ok(())
    }

    fn enter(
        &self,
        local: &[u8],
        tail: &[u8],
        _ahead: &[u8],
        own: &mut Own,
    ) -> Result<Self, Infallible> {
        if matches!(self.level, Level::Properties) {
            self.note(local, tail, own);
        }
        Ok(Within {
            hidden: self.hidden,
            level: self.level.inside(local),
        })
    }

    fn leave(&self, own: &mut Own) -> Result<(), Infallible> {
        if matches!(self.level, Level::Properties) {
            own.closed = true;
        }
        Ok(())
    }
}
