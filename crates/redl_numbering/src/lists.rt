//! The num and the level of a paragraph.

ghost use Rattle.std.specs.Prelude.{◌≡◌, IfOk, find};
ghost use Rattle.std.specs.Option.{option_copied};
ghost use Rattle.redl_reading.specs.Steps.{Gives, or_else};
ghost use Rattle.redl_numbering.specs.Nums.{counted, first_num, first_style, is_default, level_said, list_place, nine, num_place, place_at, style_at, style_level};
ghost use Rattle.redl_numbering.specs.Known.{IsKnown};
ghost use Rattle.redl_numbering.specs.Inside.Founds.{found_as};

use crate::firsts::{Firsts, Name};
use crate::used::Used;
use redl_io::Text;
use redl_lists::{AbstractNum, Num, Own, Style, Tables};
use redl_numerals::Number;
use std::alloc::{AllocError, Global};

/// Lists, nums and styles that are found by their names.
#[derive(Drop)]
pub struct Lists<'t> {
    pub(crate) tables: &'t Tables,
    pub(crate) lists: Firsts<'t>,
    pub(crate) links: Firsts<'t>,
    pub(crate) nums: Firsts<'t>,
    pub(crate) styles: Firsts<'t>,
    pub(crate) default: Option<&'t Style>,
}

/// A num and its list, by their places, with their levels, and the level of a paragraph.
#[derive(Clone, Copy)]
pub struct Found<'t> {
    /// The place of the num.
    pub num: usize,
    /// The place of its list.
    pub list: usize,
    /// The levels.
    pub used: Used<'t>,
    /// The level, from 0 to 8.
    pub level: usize,
}

struct ListIds;

impl Name<AbstractNum> for ListIds {
    ghost use Rattle.redl_numbering.specs.Nums.{list_id};

    ghost name = { list_id };

    fn of(row: &AbstractNum) -> &Option<Text> {
        &row.id
    }
}

struct ListStyles;

impl Name<AbstractNum> for ListStyles {
    ghost use Rattle.redl_numbering.specs.Nums.{list_style};

    ghost name = { list_style };

    fn of(row: &AbstractNum) -> &Option<Text> {
        &row.style
    }
}

struct NumIds;

impl Name<Num> for NumIds {
    ghost use Rattle.redl_numbering.specs.Nums.{num_name};

    ghost name = { num_name };

    fn of(row: &Num) -> &Option<Text> {
        &row.id
    }
}

struct StyleIds;

impl Name<Style> for StyleIds {
    ghost use Rattle.redl_numbering.specs.Nums.{style_name};

    ghost name = { style_name };

    fn of(row: &Style) -> &Option<Text> {
        &row.id
    }
}

// The style of paragraphs that name none.
fn default_style(styles: &[Style]) -> Option<&Style>
    ensures { option_copied result ≡ find is_default styles.now }
{
    styles.iter().find(|style| style.is_default)
}

impl<'t> Lists<'t> {
    /// Those of these tables. `Err` means out of memory.
    pub fn of(alloc: Global, tables: &'t Tables) -> Result<Lists<'t>, AllocError>
        ensures known { IfOk result IsKnown }
        ensures tables { IfOk result (λ known. known.tables.now ≡ tables.entry.now) }
    {
        let lists = Firsts::of::<AbstractNum, ListIds>(alloc, tables.lists.rows())?;
        let links = Firsts::of::<AbstractNum, ListStyles>(alloc, tables.lists.rows())?;
        let nums = Firsts::of::<Num, NumIds>(alloc, tables.nums.rows())?;
        let styles = Firsts::of::<Style, StyleIds>(alloc, tables.styles.rows())?;
        Ok(Lists {
            tables,
            lists,
            links,
            nums,
            styles,
            default: default_style(tables.styles.rows()),
        })
    }

    /// The num and the level of a paragraph that says this. At most so many styles of its chain are looked at.
    pub fn found(&self, own: &Own, longest: usize) -> Option<Found<'t>>
        requires { IsKnown self.now }
        ensures { Gives found_as result (counted self.now.tables.now longest own.now) }
    {
        let style = self.first_style(&own.style);
        let place = self.num_place(self.num_id(&own.num, style, longest)?)?;
        let num = self.tables.nums.rows().get(place)?;
        let at = self.list_place(num)?;
        let list = self.tables.lists.rows().get(at)?;
        let used = Used {
            overrides: num.overrides.rows(),
            levels: list.levels.rows(),
        };
        let level = nine(self.level_said(used, style, longest, own.level))?;
        used.level(level)?;
        Some(Found {
            num: place,
            list: at,
            used,
            level,
        })
    }

    // The style with this name.
    fn style(&self, name: &Option<Text>) -> Option<&'t Style>
        requires { IsKnown self.now }
        ensures { option_copied result ≡ style_at self.now.tables.now.styles name.now }
    {
        let Some(name) = name else {
            return None;
        };
        let place = self.styles.place(name.as_bytes())?;
        self.tables.styles.rows().get(place)
    }

    fn first_style(&self, name: &Option<Text>) -> Option<&'t Style>
        requires { IsKnown self.now }
        ensures { option_copied result ≡ first_style self.now.tables.now.styles name.now }
    {
        match name {
            Some(_) => self.style(name),
            None => self.default,
        }
    }

    // The id of the num: that of the paragraph, or the first that a style has.
    fn num_id<'o>(
        &self,
        own: &'o Option<Text>,
        style: Option<&'t Style>,
        longest: usize,
    ) -> Option<&'o Text>
    where
        't: 'o,
        requires { IsKnown self.now }
        ensures { option_copied result ≡ or_else own.entry.now (first_num self.now.tables.now.styles longest (option_copied style.entry)) }
    {
        match own {
            Some(own) => Some(own),
            None => self.first_num(style, longest),
        }
    }

    fn first_num(&self, style: Option<&'t Style>, left: usize) -> Option<&'t Text>
        requires { IsKnown self.now }
        ensures { option_copied result ≡ first_num self.now.tables.now.styles left (option_copied style.entry) }
    {
        if left == 0 {
            return None;
        }
        let style = style?;
        match &style.num {
            Some(num) => Some(num),
            None => self.first_num(self.style(&style.based_on), left - 1),
        }
    }

    // The level of the paragraph.
    fn level_said(
        &self,
        used: Used<'_>,
        style: Option<&Style>,
        longest: usize,
        own: Option<Number>,
    ) -> Number
        requires { IsKnown self.now }
        ensures { result ≡ level_said used.entry.overrides.now used.entry.levels.now self.now.tables.now.styles longest (option_copied style.entry) own }
    {
        match own {
            Some(own) => own,
            None => match self.style_level(used, style, longest) {
                Some(level) => level,
                None => Number::Plus(0),
            },
        }
    }

    fn style_level(&self, used: Used<'_>, style: Option<&Style>, left: usize) -> Option<Number>
        requires { IsKnown self.now }
        ensures { result ≡ style_level used.entry.overrides.now used.entry.levels.now self.now.tables.now.styles left (option_copied style.entry) }
    {
        if left == 0 {
            return None;
        }
        let style = style?;
        match used.style_level(style) {
            Some(level) => Some(level),
            None => self.style_level(used, self.style(&style.based_on), left - 1),
        }
    }

    // The place of the num with this id: 0 is none.
    fn num_place(&self, id: &Text) -> Option<usize>
        requires { IsKnown self.now }
        ensures { result ≡ num_place self.now.tables.now id.now }
    {
        if id.as_bytes() == b"0".as_slice() {
            return None;
        }
        self.nums.place(id.as_bytes())
    }

    /// The place of the list of a num.
    pub fn list_place(&self, num: &Num) -> Option<usize>
        requires { IsKnown self.now }
        ensures { result ≡ list_place self.now.tables.now num.now }
    {
        let Some(id) = &num.list else {
            return None;
        };
        let own = self.lists.place(id.as_bytes())?;
        self.past_link(own)
    }

    // The place of the list that takes this one's place, or its own.
    fn past_link(&self, own: usize) -> Option<usize>
        requires { IsKnown self.now }
        ensures { result ≡ place_at self.now.tables.now.lists own }
    {
        let Some(list) = self.tables.lists.rows().get(own) else {
            return Some(own);
        };
        match &list.link {
            Some(link) => self.links.place(link.as_bytes()),
            None => Some(own),
        }
    }
}

// A level is one of nine.
fn nine(level: Number) -> Option<usize>
    ensures { result ≡ nine level }
{
    match level {
        Number::Plus(level) if level < 9 => Some(level as usize),
        Number::Plus(_) | Number::Minus(_) => None,
    }
}
