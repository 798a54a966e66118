//! The levels of a num.

ghost use Rattle.std.specs.Prelude.{◌≡◌, option_and_then};
ghost use Rattle.redl_reading.specs.Steps.{Gives, or_else};
ghost use Rattle.redl_numbering.specs.Nums.{at_place, level_at, named_from, names_style, own_level, own_style_level, restart_at, start_at, start_of, start_override};

use redl_io::Text;
use redl_lists::{Level, Override, Style};
use redl_numerals::Number;

/// The levels of a num: what it says itself takes the place of what its list says.
#[derive(Clone, Copy)]
pub struct Used<'t> {
    /// What the num says of levels.
    pub overrides: &'t [Option<Override>],
    /// What its list says of them.
    pub levels: &'t [Option<Level>],
}

// What stands in a place, if there is anything.
fn at_place<T>(rows: &[Option<T>], place: usize) -> Option<&T>
    ensures { Gives (λ row. row.now) result (at_place rows.now place) }
{
    match rows.get(place) {
        Some(Some(row)) => Some(row),
        Some(None) | None => None,
    }
}

impl<'t> Used<'t> {
    /// A level.
    pub fn level(&self, place: usize) -> Option<&'t Level>
        ensures { Gives (λ level. level.now) result (level_at self.now.overrides.now self.now.levels.now place) }
    {
        match self.own_level(place) {
            Some(own) => Some(own),
            None => at_place(self.levels, place),
        }
    }

    fn own_level(&self, place: usize) -> Option<&'t Level>
        ensures { Gives (λ level. level.now) result (option_and_then own_level (at_place self.now.overrides.now place)) }
    {
        match at_place(self.overrides, place) {
            Some(own) => own.level.as_ref(),
            None => None,
        }
    }

    /// Where a level begins anew under the num.
    pub fn start_override(&self, place: usize) -> Option<Number>
        ensures { result ≡ start_override self.now.overrides.now place }
    {
        match at_place(self.overrides, place) {
            Some(own) => own.start,
            None => None,
        }
    }

    /// Where a level begins.
    pub fn start(&self, place: usize) -> Number
        ensures { result ≡ start_at self.now.overrides.now self.now.levels.now place }
    {
        match self.start_said(place) {
            Some(start) => start,
            None => Number::Plus(0),
        }
    }

    fn start_said(&self, place: usize) -> Option<Number>
        ensures { result ≡ or_else (start_override self.now.overrides.now place) (option_and_then start_of (level_at self.now.overrides.now self.now.levels.now place)) }
    {
        match self.start_override(place) {
            Some(start) => Some(start),
            None => self.level(place)?.start,
        }
    }

    /// After which level a level begins again.
    pub fn restart(&self, place: usize) -> Option<Number>
        ensures { result ≡ restart_at self.now.overrides.now self.now.levels.now place }
    {
        self.level(place)?.restart
    }

    /// The level that a style says: the one that names it, else its own.
    pub(crate) fn style_level(&self, style: &Style) -> Option<Number>
        ensures { result ≡ own_style_level self.now.overrides.now self.now.levels.now style.now }
    {
        match self.named_level(&style.id) {
            Some(level) => Some(Number::Plus(level)),
            None => style.level,
        }
    }

    // The first level that names a style.
    fn named_level(&self, id: &Option<Text>) -> Option<u64>
        ensures { result ≡ named_from self.now.overrides.now self.now.levels.now id.now 0 9 }
    {
        for level in 0..9 {
            if self.names_style(id, level) {
                return Some(level as u64);
            }
        }
        None
    }

    fn names_style(&self, id: &Option<Text>, place: usize) -> bool
        ensures { result ≡ names_style id.now (level_at self.now.overrides.now self.now.levels.now place) }
    {
        let (Some(id), Some(level)) = (id, self.level(place)) else {
            return false;
        };
        match &level.style {
            Some(style) => style.as_bytes() == id.as_bytes(),
            None => false,
        }
    }
}
