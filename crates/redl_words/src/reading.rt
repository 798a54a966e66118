//! Reading the words of a command line.

ghost use Rattle.std.specs.Prelude.{◌≡◌, All, IfErr, IfOk, IsErrOf, IsUtf8};
ghost use Rattle.redl_words.specs.Commands.{HasNoCommand, HasUtf8, IsCommand};
ghost use Rattle.redl_words.specs.Reading.Answers.{Finds};
ghost use Rattle.redl_words.specs.Reading.Commands.{asked_in, asked_view, check_in, command_in, decide_in, format_or_text, rank_or_0, join_in, form_in, left_in, list_in, report_in, page_in, resume_in, sample_in, say_in, settle_in, text_in, text_with, view_in, write_in};
ghost use Rattle.redl_words.specs.Views.{command_of};

use crate::command::{
    Command, DecideCommand, ListCommand, PageCommand, ReportCommand, ResumeCommand, View,
};
use crate::error::WordsError;
use crate::items::read_items;
use crate::names::{is_file_name, read_names};
use crate::only::Only;
use crate::options::Form;
use crate::sittings::read_sittings;
use crate::verb::{Verb, read_verb};
use redl_io::Text;
use redl_journal::{is_reviewer, read_number};
use redl_kinds::Lock;
use std::alloc::{AllocError, Global};

/// The command that these words are the command line of. They come without the program's name.
///
/// Its texts are UTF-8; the name of a file is not empty and does not begin with a dash, a reviewer is one that a journal may hold,
/// `decide` has a choice, and its rank is at most 9. `Usage` comes exactly where the words are those of no command. `NoMemory` means
/// out of memory, and says nothing of the words.
pub fn read_words(alloc: Global, words: &[Text]) -> Result<Command, WordsError>
    requires { All IsUtf8 words.now }
    ensures found { IfOk result (λ command. IsCommand words.now (command_of command)) }
    ensures usage { IsErrOf result WordsError.Usage → HasNoCommand words.now }
    ensures utf8 { IfOk result (λ command. HasUtf8 (command_of command)) }
{
    read_command(alloc, words)
}

// The same, in the words of reading.
#[tactic(auto, unfolding(crate::specs::Reading::Commands::command_in))]
fn read_command(alloc: Global, words: &[Text]) -> Result<Command, WordsError>
    requires { All IsUtf8 words.now }
    ensures { Finds command_of result (command_in words.now) }
{
    let [word, rest @ ..] = words else {
        return Err(WordsError::Usage);
    };
    match read_verb(word.as_bytes()) {
        Some(Verb::Settle) => read_settle(alloc, rest),
        Some(Verb::Text) => read_text(alloc, rest),
        Some(Verb::Left) => read_left(alloc, rest),
        Some(Verb::List) => read_list(alloc, rest),
        Some(Verb::Report) => read_report(alloc, rest),
        Some(Verb::Page) => read_page(alloc, rest),
        Some(Verb::Write) => read_write(alloc, rest),
        Some(Verb::Decide) => read_decide(alloc, rest),
        Some(Verb::Resume) => read_resume(alloc, rest),
        Some(Verb::Join) => read_join(alloc, rest),
        Some(Verb::Check) => read_check(alloc, rest),
        Some(Verb::Sample) => read_sample(rest),
        None => Err(WordsError::Usage),
    }
}

// The words after `settle`.
#[tactic(auto, unfolding(crate::specs::Reading::Commands::settle_in))]
fn read_settle(alloc: Global, words: &[Text]) -> Result<Command, WordsError>
    ensures { Finds command_of result (settle_in words.now) }
{
    let [say, package] = words else {
        return Err(WordsError::Usage);
    };
    if !is_file_name(package.as_bytes()) {
        return Err(WordsError::Usage);
    }
    let Some(accept) = read_say(say.as_bytes()) else {
        return Err(WordsError::Usage);
    };
    let package = package.copy(alloc)?;
    Ok(Command::Settle { accept, package })
}

// Whether the word says accept. `None` where it says neither accept nor reject.
#[tactic(auto, unfolding(crate::specs::Reading::Commands::say_in))]
fn read_say(word: &[u8]) -> Option<bool>
    ensures { result ≡ say_in word.now }
{
    if word == b"accept".as_slice() {
        Some(true)
    } else if word == b"reject".as_slice() {
        Some(false)
    } else {
        None
    }
}

// The words after `text`.
#[tactic(auto, unfolding(crate::specs::Reading::Commands::text_in))]
fn read_text(alloc: Global, words: &[Text]) -> Result<Command, WordsError>
    ensures { Finds command_of result (text_in words.now) }
{
    match words {
        [package] => make_text(alloc, package, Some(View::Final)),
        [package, option, name] if option.as_bytes() == b"--view".as_slice() => {
            make_text(alloc, package, read_view(name.as_bytes()))
        }
        _ => Err(WordsError::Usage),
    }
}

// The command for the text of this package, if there is a view and the package has the name of a file.
fn make_text(alloc: Global, file: &Text, view: Option<View>) -> Result<Command, WordsError>
    ensures { Finds command_of result (text_with file.now view) }
{
    let Some(view) = view else {
        return Err(WordsError::Usage);
    };
    if !is_file_name(file.as_bytes()) {
        return Err(WordsError::Usage);
    }
    let package = file.copy(alloc)?;
    Ok(Command::Text { package, view })
}

// The view of this name.
#[tactic(auto, unfolding(crate::specs::Reading::Commands::view_in))]
fn read_view(name: &[u8]) -> Option<View>
    ensures { result ≡ view_in name.now }
{
    if name == b"original".as_slice() {
        Some(View::Original)
    } else if name == b"final".as_slice() {
        Some(View::Final)
    } else if name == b"marked".as_slice() {
        Some(View::Marked)
    } else if name == b"bare".as_slice() {
        Some(View::Bare)
    } else {
        None
    }
}

// The words after `left`.
#[tactic(auto, unfolding(crate::specs::Reading::Commands::left_in))]
fn read_left(alloc: Global, words: &[Text]) -> Result<Command, WordsError>
    ensures { Finds command_of result (left_in words.now) }
{
    match words {
        [package] => make_text(alloc, package, Some(View::Left)),
        [package, option, name] if option.as_bytes() == b"--format".as_slice() => {
            make_text(alloc, package, read_form(name.as_bytes()))
        }
        _ => Err(WordsError::Usage),
    }
}

// The form of this name in which what is left is told.
#[tactic(auto, unfolding(crate::specs::Reading::Commands::form_in))]
fn read_form(name: &[u8]) -> Option<View>
    ensures { result ≡ form_in name.now }
{
    if name == b"text".as_slice() {
        Some(View::Left)
    } else if name == b"json".as_slice() {
        Some(View::LeftJson)
    } else {
        None
    }
}

// The words after `list`.
fn read_list(alloc: Global, words: &[Text]) -> Result<Command, WordsError>
    requires { All IsUtf8 words.now }
    ensures { Finds command_of result (list_in words.now) }
{
    let asked = read_asked(alloc, Form::List, words)?;
    Ok(Command::List(ListCommand {
        package: asked.package_name,
        format: asked.format,
        locks: asked.locks,
        journals: asked.journals,
        only: asked.only,
    }))
}

// The words after `report`.
fn read_report(alloc: Global, words: &[Text]) -> Result<Command, WordsError>
    requires { All IsUtf8 words.now }
    ensures { Finds command_of result (report_in words.now) }
{
    let asked = read_asked(alloc, Form::Report, words)?;
    Ok(Command::Report(ReportCommand {
        package: asked.package_name,
        format: asked.format,
        by_kind: asked.by_kind,
        locks: asked.locks,
        journals: asked.journals,
    }))
}

// What is asked of a package: a format of this name, by kind or not, with locks and journals, and which revisions are shown.
#[derive(Drop)]
struct Asked {
    package_name: Text,
    format: Text,
    by_kind: bool,
    locks: Vec<Lock>,
    journals: Vec<Text>,
    only: Vec<Only>,
}

// The words after `list` or `report`.
#[tactic(auto, unfolding(crate::specs::Reading::Commands::asked_in))]
fn read_asked(alloc: Global, form: Form, words: &[Text]) -> Result<Asked, WordsError>
    requires { All IsUtf8 words.now }
    ensures { Finds asked_view result (asked_in form words.now) }
{
    let [package, rest @ ..] = words else {
        return Err(WordsError::Usage);
    };
    if !is_file_name(package.as_bytes()) {
        return Err(WordsError::Usage);
    }
    let items = read_items(alloc, form, rest)?;
    let package_name = package.copy(alloc)?;
    let format = format_or_text(alloc, items.format)?;
    Ok(Asked {
        package_name,
        format,
        by_kind: items.by_kind,
        locks: items.locks,
        journals: items.journals,
        only: items.only,
    })
}

// The format of this name, or `text` without one. `Err` means out of memory.
fn format_or_text(alloc: Global, format: Option<Text>) -> Result<Text, AllocError>
    ensures { IfOk result (λ name. name ≡ format_or_text format) }
{
    match format {
        Some(name) => Ok(name),
        None => Text::copy_of(alloc, b"text"),
    }
}

// The words after `page`.
#[tactic(auto, unfolding(crate::specs::Reading::Commands::page_in))]
fn read_page(alloc: Global, words: &[Text]) -> Result<Command, WordsError>
    requires { All IsUtf8 words.now }
    ensures { Finds command_of result (page_in words.now) }
{
    let [package, rest @ ..] = words else {
        return Err(WordsError::Usage);
    };
    if !is_file_name(package.as_bytes()) {
        return Err(WordsError::Usage);
    }
    let items = read_items(alloc, Form::Page, rest)?;
    let package = package.copy(alloc)?;
    Ok(Command::Page(PageCommand {
        package,
        title: items.title,
        rank: items.rank,
        pictures: !items.no_pictures,
        locks: items.locks,
        journals: items.journals,
    }))
}

// The words after `write`.
#[tactic(auto, unfolding(crate::specs::Reading::Commands::write_in))]
fn read_write(alloc: Global, words: &[Text]) -> Result<Command, WordsError>
    requires { All IsUtf8 words.now }
    ensures { Finds command_of result (write_in words.now) }
{
    let [package, rest @ ..] = words else {
        return Err(WordsError::Usage);
    };
    if !is_file_name(package.as_bytes()) {
        return Err(WordsError::Usage);
    }
    let items = read_items(alloc, Form::Write, rest)?;
    let package = package.copy(alloc)?;
    Ok(Command::Write {
        package,
        locks: items.locks,
        journals: items.journals,
    })
}

// The words after `decide`.
#[tactic(auto, unfolding(crate::specs::Reading::Commands::decide_in))]
fn read_decide(alloc: Global, words: &[Text]) -> Result<Command, WordsError>
    requires { All IsUtf8 words.now }
    ensures { Finds command_of result (decide_in words.now) }
{
    let [package, reviewer, rest @ ..] = words else {
        return Err(WordsError::Usage);
    };
    if !is_file_name(package.as_bytes()) || !is_reviewer(reviewer.as_bytes()) {
        return Err(WordsError::Usage);
    }
    let items = read_items(alloc, Form::Decide, rest)?;
    if items.choices.is_empty() {
        return Err(WordsError::Usage);
    }
    let package = package.copy(alloc)?;
    let reviewer = reviewer.copy(alloc)?;
    let rank = rank_or_0(items.rank);
    Ok(Command::Decide(DecideCommand {
        package,
        reviewer,
        journals: items.journals,
        locks: items.locks,
        choices: items.choices,
        rank,
    }))
}

// The rank, or 0 without one.
fn rank_or_0(rank: Option<u8>) -> u8
    ensures { result ≡ rank_or_0 rank }
{
    rank.unwrap_or(0)
}

// The words after `resume`.
#[tactic(auto, unfolding(crate::specs::Reading::Commands::resume_in))]
fn read_resume(alloc: Global, words: &[Text]) -> Result<Command, WordsError>
    ensures { Finds command_of result (resume_in words.now) }
{
    let [package, second, rest @ ..] = words else {
        return Err(WordsError::Usage);
    };
    if !is_file_name(package.as_bytes()) || !is_file_name(second.as_bytes()) {
        return Err(WordsError::Usage);
    }
    let sittings = read_sittings(alloc, rest)?;
    let package = package.copy(alloc)?;
    let second = second.copy(alloc)?;
    Ok(Command::Resume(ResumeCommand {
        package,
        second,
        firsts: sittings.firsts,
        journals: sittings.seconds,
    }))
}

// The words after `join`.
#[tactic(auto, unfolding(crate::specs::Reading::Commands::join_in))]
fn read_join(alloc: Global, words: &[Text]) -> Result<Command, WordsError>
    ensures { Finds command_of result (join_in words.now) }
{
    if words.is_empty() {
        return Err(WordsError::Usage);
    }
    let journals = read_names(alloc, words)?;
    Ok(Command::Join { journals })
}

// The words after `check`.
#[tactic(auto, unfolding(crate::specs::Reading::Commands::check_in))]
fn read_check(alloc: Global, words: &[Text]) -> Result<Command, WordsError>
    ensures { Finds command_of result (check_in words.now) }
{
    let [package] = words else {
        return Err(WordsError::Usage);
    };
    if !is_file_name(package.as_bytes()) {
        return Err(WordsError::Usage);
    }
    let package = package.copy(alloc)?;
    Ok(Command::Check { package })
}

// The words after `sample`.
#[tactic(auto, unfolding(crate::specs::Reading::Commands::sample_in))]
fn read_sample(words: &[Text]) -> Result<Command, WordsError>
    ensures found { Finds command_of result (sample_in words.now) }
    ensures cause { IfErr result (λ error. error ≡ WordsError.Usage) }
{
    let [digits] = words else {
        return Err(WordsError::Usage);
    };
    match read_number(digits.as_bytes()) {
        Some(number) => Ok(Command::Sample { number }),
        None => Err(WordsError::Usage),
    }
}
