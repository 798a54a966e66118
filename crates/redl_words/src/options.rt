//! Options: the words that say what the next word is.

ghost use Rattle.std.specs.Prelude.{◌≡◌};
ghost use Rattle.redl_words.specs.Reading.Items.{is_flag, option_in, locking_option, option_of_form, reporting_option, deciding_option, paging_option};

use redl_journal::Word;

/// The commands that have items: the package's name, and for `decide` the reviewer, are followed by options and journals.
#[derive(Clone, Copy)]
pub(crate) enum Form {
    /// `list`.
    List,
    /// `report`.
    Report,
    /// `page`.
    Page,
    /// `write`.
    Write,
    /// `decide`.
    Decide,
}

/// What a lock is on.
#[derive(Clone, Copy)]
pub(crate) enum Locked {
    /// The revisions by an author.
    Author,
    /// Those of a kind.
    Kind,
    /// Those with the numbers of a span.
    Span,
}

/// What an option says of the word after it.
#[derive(Clone, Copy)]
pub(crate) enum ItemOption {
    /// It is the name of a format.
    Format,
    /// It says by what a report counts.
    By,
    /// It is what is locked.
    Lock(Locked),
    /// It is the name of a journal.
    Journal,
    /// It is a selection, on which the reviewer decides this.
    Choice(Word),
    /// It is the reviewer's rank.
    Rank,
    /// It is a selection of the revisions that are shown.
    Only,
    /// It is the title of the document.
    Title,
}

/// The option that a word is in a command of this form.
#[tactic(auto, unfolding(crate::specs::Reading::Items::option_in))]
pub(crate) fn read_option(form: Form, word: &[u8]) -> Option<ItemOption>
    ensures { result ≡ option_in form word.now }
{
    match locking_option(word) {
        Some(locked) => Some(ItemOption::Lock(locked)),
        None => option_of_form(form, word),
    }
}

// What the option is on that a word is, if it is one of the three for locks.
#[tactic(auto, unfolding(crate::specs::Reading::Items::locking_option))]
fn locking_option(word: &[u8]) -> Option<Locked>
    ensures { result ≡ locking_option word.now }
{
    if word == b"--lock".as_slice() {
        Some(Locked::Author)
    } else if word == b"--lock-kind".as_slice() {
        Some(Locked::Kind)
    } else if word == b"--lock-span".as_slice() {
        Some(Locked::Span)
    } else {
        None
    }
}

// The option that a word is, besides those for locks.
fn option_of_form(form: Form, word: &[u8]) -> Option<ItemOption>
    ensures { result ≡ option_of_form form word.now }
{
    match form {
        Form::List if word == b"--format".as_slice() => Some(ItemOption::Format),
        Form::List if word == b"--only".as_slice() => Some(ItemOption::Only),
        Form::List | Form::Write => None,
        Form::Report => reporting_option(word),
        Form::Page => paging_option(word),
        Form::Decide => deciding_option(word),
    }
}

// The option that a word is, besides those for locks, in a report.
#[tactic(auto, unfolding(crate::specs::Reading::Items::reporting_option))]
fn reporting_option(word: &[u8]) -> Option<ItemOption>
    ensures { result ≡ reporting_option word.now }
{
    if word == b"--format".as_slice() {
        Some(ItemOption::Format)
    } else if word == b"--by".as_slice() {
        Some(ItemOption::By)
    } else {
        None
    }
}

// The option that a word is, besides those for locks, for a page.
#[tactic(auto, unfolding(crate::specs::Reading::Items::paging_option))]
fn paging_option(word: &[u8]) -> Option<ItemOption>
    ensures { result ≡ paging_option word.now }
{
    if word == b"--title".as_slice() {
        Some(ItemOption::Title)
    } else if word == b"--rank".as_slice() {
        Some(ItemOption::Rank)
    } else {
        None
    }
}

// The option that a word is, besides those for locks, in a command that decides.
#[tactic(auto, unfolding(crate::specs::Reading::Items::deciding_option))]
fn deciding_option(word: &[u8]) -> Option<ItemOption>
    ensures { result ≡ deciding_option word.now }
{
    if word == b"--journal".as_slice() {
        Some(ItemOption::Journal)
    } else if word == b"--accept".as_slice() {
        Some(ItemOption::Choice(Word::Accept))
    } else if word == b"--reject".as_slice() {
        Some(ItemOption::Choice(Word::Reject))
    } else if word == b"--withdraw".as_slice() {
        Some(ItemOption::Choice(Word::Withdraw))
    } else if word == b"--rank".as_slice() {
        Some(ItemOption::Rank)
    } else {
        None
    }
}

/// Whether the word is a flag of a command of this form: an option that no value follows.
pub(crate) fn is_flag(form: Form, word: &[u8]) -> bool
    ensures { result ≡ is_flag form word.now }
{
    match form {
        Form::Page => word == b"--no-pictures".as_slice(),
        Form::List | Form::Report | Form::Write | Form::Decide => false,
    }
}
