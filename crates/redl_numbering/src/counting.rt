//! The counting of numbered paragraphs.

ghost use Rattle.std.specs.Prelude.{◌≡◌, ◌++◌, codes, IfOk, OnOk, Some};
ghost use Rattle.redl_numbering.specs.Counts.{before, clause_by, counted_more, counts_after, entry, is_filled, no_values, nothing_counted, nothing_met, number_now, passed, saying};
ghost use Rattle.redl_numbering.specs.Nums.{counted};
ghost use Rattle.redl_reading.specs.Steps.{Gives};
ghost use Rattle.redl_numbering.specs.Known.{IsKnown};
ghost use Rattle.redl_numbering.specs.Inside.Founds.{found_as};

use crate::lists::{Found, Lists};
use crate::paragraph::{LEVELS, Met, Paragraph, Values};
use crate::text::Numbered;
use redl_io::Text;
use redl_lists::Own;
use std::alloc::{AllocError, Global};
use std::collections::BTreeMap;
use std::marker::Model;

/// What was counted in a story so far.
#[derive(Drop)]
pub struct Counting {
    values: BTreeMap<usize, Values>,
    met: BTreeMap<usize, Met>,
    last: Text,
    here: Text,
}

impl Model for Counting {
    ghost use Rattle.redl_numbering.specs.Counts.{Counts};

    ghost Value = { Counts };

    ghost view = { λ c. record { values = c.values.entries; met = c.met.entries; last = c.last; here = c.here } };
}

impl Counting {
    /// Nothing was counted. `Err` means out of memory, here and below.
    pub fn new(alloc: Global) -> Result<Counting, AllocError>
        ensures { IfOk result (λ counting. counting ≡ nothing_counted) }
    {
        Ok(Counting {
            values: BTreeMap::new(alloc),
            met: BTreeMap::new(alloc),
            last: Text::copy_of(alloc, b"")?,
            here: Text::copy_of(alloc, b"")?,
        })
    }

    /// What is said of a place here: the number of the paragraph, or the last one before it.
    pub fn here(&self) -> &Text
        ensures { result.now ≡ self.now.here }
    {
        &self.here
    }

    /// Counts a paragraph that says this, and answers its num and its level. At most so many styles of its chain are looked at.
    pub fn count<'t>(
        &mut self,
        alloc: Global,
        lists: &Lists<'t>,
        own: &Own,
        longest: usize,
    ) -> Result<Option<Found<'t>>, AllocError>
        requires { IsKnown lists.now }
        ensures counts { OnOk result (self.new ≡ counts_after lists.now.tables.now longest self.old own.now) }
        ensures found { IfOk result (λ found. Gives found_as found (counted lists.now.tables.now longest own.now)) }
    {
        match lists.found(own, longest) {
            Some(found) => {
                self.count_found(alloc, found)?;
                Ok(Some(found))
            }
            None => {
                self.pass(alloc)?;
                Ok(None)
            }
        }
    }

    /// The number of the paragraph that was counted last of its list.
    pub fn number(&self, alloc: Global, found: Found<'_>) -> Result<Text, AllocError>
        ensures { IfOk result (λ text. text ≡ number_now self.now (found_as found.entry)) }
    {
        let number = Numbered {
            used: found.used,
            level: found.level,
            values: self.values_of(found.list),
        };
        number.text(alloc)
    }

    /// Goes past a paragraph that isn't counted, or past the end of one.
    pub fn pass(&mut self, alloc: Global) -> Result<(), AllocError>
        ensures { OnOk result (self.new ≡ passed self.old) }
    {
        self.here = self.before(alloc)?;
        Ok(())
    }

    /// What is said of a place where no paragraph is.
    pub fn before(&self, alloc: Global) -> Result<Text, AllocError>
        ensures { IfOk result (λ text. text ≡ before self.now.last) }
    {
        before(alloc, &self.last)
    }

    fn count_found(&mut self, alloc: Global, found: Found<'_>) -> Result<(), AllocError>
        ensures { OnOk result (self.new ≡ counted_more self.old (found_as found.entry)) }
    {
        let paragraph = Paragraph {
            used: found.used,
            level: found.level,
            values: self.values_of(found.list),
            met: self.met_of(found.num),
        };
        let values = paragraph.values_after()?;
        let number = Numbered {
            used: found.used,
            level: found.level,
            values,
        };
        let text = number.text(alloc)?;
        self.values.insert(found.list, values)?;
        self.met.insert(found.num, paragraph.met_after())?;
        self.say(alloc, text)
    }

    fn values_of(&self, list: usize) -> Values
        ensures { result ≡ entry self.now.values list no_values }
    {
        self.values.get(&list).copied().unwrap_or([None; LEVELS])
    }

    fn met_of(&self, num: usize) -> Met
        ensures { result ≡ entry self.now.met num nothing_met }
    {
        self.met.get(&num).copied().unwrap_or([false; LEVELS])
    }

    // A paragraph has this number.
    fn say(&mut self, alloc: Global, own: Text) -> Result<(), AllocError>
        ensures { OnOk result (self.new ≡ saying self.old own) }
    {
        if own.as_bytes().is_empty() {
            return self.pass(alloc);
        }
        self.last = own.copy(alloc)?;
        self.here = own;
        Ok(())
    }
}

fn before(alloc: Global, last: &Text) -> Result<Text, AllocError>
    ensures { IfOk result (λ text. text ≡ before last.now) }
{
    let mut text = Vec::new(alloc);
    if !last.as_bytes().is_empty() {
        text.extend_from_slice(b"before ")?;
        text.extend_from_slice(last.as_bytes())?;
    }
    Text::copy_of(alloc, &text)
}
