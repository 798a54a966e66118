//! Items: what comes after the name of a package, in any order.

ghost use Rattle.std.specs.Prelude.{◌≡◌, ◌≤◌, ◌∷◌, All, IfErr, IfOk, IsUtf8, length};
ghost use Rattle.redl_words.specs.Reading.Answers.{Finds};
ghost use Rattle.redl_words.specs.Reading.Items.{Goes, gathered, items_view, nothing, stands_alone, with_flag, with_lone, with_option, with_plain_journal, with_word};

use crate::error::WordsError;
use crate::locks::read_lock;
use crate::names::{add_copy, is_file_name};
use crate::only::{Only, read_only};
use crate::options::{Form, ItemOption, Locked, is_flag, read_option};
use crate::ranks::read_rank;
use crate::selections::read_selection;
use redl_io::Text;
use redl_journal::Word;
use redl_kinds::{Lock, Selection};
use std::alloc::Global;
use std::str;

/// What the items of a command say.
#[derive(Drop)]
pub(crate) struct Items {
    /// `--format`: the name of the format.
    pub format: Option<Text>,
    /// `--by kind`: whether a report counts kind by kind.
    pub by_kind: bool,
    /// `--lock` and its like: what is locked.
    pub locks: Vec<Lock>,
    /// The names of the journals.
    pub journals: Vec<Text>,
    /// `--accept` and its like: what is decided on which revisions.
    pub choices: Vec<(Word, Selection)>,
    /// `--rank`: the reviewer's rank.
    pub rank: Option<u8>,
    /// `--only`: which revisions are shown.
    pub only: Vec<Only>,
    /// `--title`: the title of the document.
    pub title: Option<Text>,
    /// `--no-pictures`: whether the pictures are left out.
    pub no_pictures: bool,
}

impl Items {
    // What no items say.
    fn nothing(alloc: Global) -> Items
        ensures { items_view result ≡ nothing }
    {
        Items {
            format: None,
            by_kind: false,
            locks: Vec::new(alloc),
            journals: Vec::new(alloc),
            choices: Vec::new(alloc),
            rank: None,
            only: Vec::new(alloc),
            title: None,
            no_pictures: false,
        }
    }

    // Adds a journal that stands without an option.
    #[tactic(auto, unfolding(crate::specs::Reading::Items::with_plain_journal))]
    fn add_plain_journal(
        &mut self,
        alloc: Global,
        form: Form,
        name: &Text,
    ) -> Result<(), WordsError>
        ensures { Finds (λ _. items_view self.new) result (with_plain_journal form name.now (items_view self.old)) }
    {
        match form {
            Form::List | Form::Report | Form::Page | Form::Write => {
                add_copy(alloc, &mut self.journals, name)?
            }
            Form::Decide => return Err(WordsError::Usage),
        }
        Ok(())
    }

    // Sets the format, which may come once.
    #[tactic(auto, unfolding(crate::specs::Reading::Items::with_option))]
    fn set_format(&mut self, alloc: Global, name: &Text) -> Result<(), WordsError>
        ensures { Finds (λ _. items_view self.new) result (with_option ItemOption.Format name.now (items_view self.old)) }
    {
        if self.format.is_some() {
            return Err(WordsError::Usage);
        }
        self.format = Some(name.copy(alloc)?);
        Ok(())
    }

    // Sets that it goes by kind, which may come once.
    #[tactic(auto, unfolding(crate::specs::Reading::Items::with_option))]
    fn set_by(&mut self, value: &Text) -> Result<(), WordsError>
        ensures found { Finds (λ _. items_view self.new) result (with_option ItemOption.By value.now (items_view self.old)) }
        ensures cause { IfErr result (λ error. error ≡ WordsError.Usage) }
    {
        if self.by_kind || value.as_bytes() != b"kind".as_slice() {
            return Err(WordsError::Usage);
        }
        self.by_kind = true;
        Ok(())
    }

    // Adds a lock.
    #[tactic(auto, unfolding(crate::specs::Reading::Items::with_option))]
    fn add_lock(&mut self, alloc: Global, on: Locked, text: &Text) -> Result<(), WordsError>
        requires { IsUtf8 text.now }
        ensures { Finds (λ _. items_view self.new) result (with_option (ItemOption.Lock on) text.now (items_view self.old)) }
    {
        let text = str::from_utf8(text.as_bytes()).unwrap();
        let lock = read_lock(alloc, on, text)?;
        self.locks.push(lock)?;
        Ok(())
    }

    // Sets the rank, which may come once.
    #[tactic(auto, unfolding(crate::specs::Reading::Items::with_option))]
    fn set_rank(&mut self, digits: &Text) -> Result<(), WordsError>
        ensures found { Finds (λ _. items_view self.new) result (with_option ItemOption.Rank digits.now (items_view self.old)) }
        ensures cause { IfErr result (λ error. error ≡ WordsError.Usage) }
    {
        if self.rank.is_some() {
            return Err(WordsError::Usage);
        }
        let Some(rank) = read_rank(digits.as_bytes()) else {
            return Err(WordsError::Usage);
        };
        self.rank = Some(rank);
        Ok(())
    }

    // Adds a journal that an option names.
    #[tactic(auto, unfolding(crate::specs::Reading::Items::with_option))]
    fn add_journal(&mut self, alloc: Global, name: &Text) -> Result<(), WordsError>
        ensures { Finds (λ _. items_view self.new) result (with_option ItemOption.Journal name.now (items_view self.old)) }
    {
        if !is_file_name(name.as_bytes()) {
            return Err(WordsError::Usage);
        }
        add_copy(alloc, &mut self.journals, name)?;
        Ok(())
    }

    // Adds what the reviewer decides on a selection.
    #[tactic(auto, unfolding(crate::specs::Reading::Items::with_option))]
    fn add_choice(&mut self, alloc: Global, word: Word, text: &Text) -> Result<(), WordsError>
        requires { IsUtf8 text.now }
        ensures { Finds (λ _. items_view self.new) result (with_option (ItemOption.Choice word) text.now (items_view self.old)) }
    {
        let text = str::from_utf8(text.as_bytes()).unwrap();
        let selection = read_selection(alloc, text)?;
        self.choices.push((word, selection))?;
        Ok(())
    }

    // Adds which revisions are shown.
    #[tactic(auto, unfolding(crate::specs::Reading::Items::with_option))]
    fn add_only(&mut self, alloc: Global, text: &Text) -> Result<(), WordsError>
        requires { IsUtf8 text.now }
        ensures { Finds (λ _. items_view self.new) result (with_option ItemOption.Only text.now (items_view self.old)) }
    {
        let text = str::from_utf8(text.as_bytes()).unwrap();
        let only = read_only(alloc, text)?;
        self.only.push(only)?;
        Ok(())
    }

    // Sets the title, which may come once.
    #[tactic(auto, unfolding(crate::specs::Reading::Items::with_option))]
    fn set_title(&mut self, alloc: Global, text: &Text) -> Result<(), WordsError>
        ensures { Finds (λ _. items_view self.new) result (with_option ItemOption.Title text.now (items_view self.old)) }
    {
        if self.title.is_some() {
            return Err(WordsError::Usage);
        }
        self.title = Some(text.copy(alloc)?);
        Ok(())
    }

    // Leaves the pictures out, which may come once.
    fn leave_pictures(&mut self) -> Result<(), WordsError>
        ensures found { Finds (λ _. items_view self.new) result (with_flag self.old.no_pictures (items_view self.old)) }
        ensures cause { IfErr result (λ error. error ≡ WordsError.Usage) }
    {
        if self.no_pictures {
            return Err(WordsError::Usage);
        }
        self.no_pictures = true;
        Ok(())
    }

    // Adds what a word says that stands alone.
    #[tactic(auto, unfolding(crate::specs::Reading::Items::with_lone))]
    fn add_lone(&mut self, alloc: Global, form: Form, word: &Text) -> Result<(), WordsError>
        ensures { Finds (λ _. items_view self.new) result (with_lone form word.now (items_view self.old)) }
    {
        if is_file_name(word.as_bytes()) {
            self.add_plain_journal(alloc, form, word)
        } else {
            self.leave_pictures()
        }
    }

    // Adds what an option and its value say.
    fn add_option(
        &mut self,
        alloc: Global,
        option: ItemOption,
        value: &Text,
    ) -> Result<(), WordsError>
        requires { IsUtf8 value.now }
        ensures { Finds (λ _. items_view self.new) result (with_option option value.now (items_view self.old)) }
    {
        match option {
            ItemOption::Format => self.set_format(alloc, value),
            ItemOption::By => self.set_by(value),
            ItemOption::Lock(on) => self.add_lock(alloc, on, value),
            ItemOption::Journal => self.add_journal(alloc, value),
            ItemOption::Choice(word) => self.add_choice(alloc, word, value),
            ItemOption::Rank => self.set_rank(value),
            ItemOption::Only => self.add_only(alloc, value),
            ItemOption::Title => self.set_title(alloc, value),
        }
    }

    // Adds what a word says that is an option, with the word after it.
    #[tactic(auto, unfolding(crate::specs::Reading::Items::with_word))]
    fn add_pair(
        &mut self,
        alloc: Global,
        form: Form,
        word: &Text,
        value: &Text,
    ) -> Result<(), WordsError>
        requires { IsUtf8 value.now }
        ensures { Finds (λ _. items_view self.new) result (with_word form word.now value.now (items_view self.old)) }
    {
        match read_option(form, word.as_bytes()) {
            Some(option) => self.add_option(alloc, option, value),
            None => Err(WordsError::Usage),
        }
    }

    // Adds what the first item says, which begins with this word, and gives the words after the item.
    fn add_first<'a>(
        &mut self,
        alloc: Global,
        form: Form,
        word: &Text,
        later: &'a [Text],
    ) -> Result<&'a [Text], WordsError>
        requires { All IsUtf8 later.now }
        ensures gathered { Goes form (items_view self.old) (word.now ∷ later.now) (items_view self.new) result }
        ensures shorter { IfOk result (λ rest. length rest.now ≤ length later.now) }
        ensures utf8 { IfOk result (λ rest. All IsUtf8 rest.now) }
    {
        if stands_alone(form, word.as_bytes()) {
            self.add_lone(alloc, form, word)?;
            return Ok(later);
        }
        match later.split_first() {
            Some((value, after)) => {
                self.add_pair(alloc, form, word, value)?;
                Ok(after)
            }
            None => Err(WordsError::Usage),
        }
    }
}

// Whether the word is an item by itself: the name of a file, or a flag.
fn stands_alone(form: Form, word: &[u8]) -> bool
    ensures { result ≡ stands_alone form word.now }
{
    is_file_name(word) || is_flag(form, word)
}

/// What the items in these words say.
pub(crate) fn read_items(alloc: Global, form: Form, words: &[Text]) -> Result<Items, WordsError>
    requires { All IsUtf8 words.now }
    ensures { Finds items_view result (gathered form nothing words.now) }
{
    let mut items = Items::nothing(alloc);
    let mut rest = words;
    while let Some((word, later)) = rest.split_first() {
        rest = items.add_first(alloc, form, word, later)?;
    }
    Ok(items)
}
