//! Verbs: the first words of command lines.

ghost use Rattle.std.specs.Prelude.{◌≡◌};
ghost use Rattle.redl_words.specs.Reading.Commands.{verb_in};

/// Which command the words ask for.
#[derive(Clone, Copy)]
pub(crate) enum Verb {
    /// Decides all revisions one way.
    Settle,
    /// Shows the plain text.
    Text,
    /// Tells what the document still holds that a reader does not see.
    Left,
    /// Lists the revisions.
    List,
    /// Counts where reviewers and authors stand.
    Report,
    /// Shows the document as a page.
    Page,
    /// Writes the document with the journals applied.
    Write,
    /// Writes entries for a reviewer.
    Decide,
    /// Joins the journals of two sittings.
    Resume,
    /// Joins journals.
    Join,
    /// Tells whether the package is sound.
    Check,
    /// Makes a sample and sums it up.
    Sample,
}

/// The verb that a word is.
#[tactic(auto, unfolding(crate::specs::Reading::Commands::verb_in))]
pub(crate) fn read_verb(word: &[u8]) -> Option<Verb>
    ensures { result ≡ verb_in word.now }
{
    if word == b"settle".as_slice() {
        Some(Verb::Settle)
    } else if word == b"text".as_slice() {
        Some(Verb::Text)
    } else if word == b"left".as_slice() {
        Some(Verb::Left)
    } else if word == b"list".as_slice() {
        Some(Verb::List)
    } else if word == b"report".as_slice() {
        Some(Verb::Report)
    } else if word == b"page".as_slice() {
        Some(Verb::Page)
    } else if word == b"write".as_slice() {
        Some(Verb::Write)
    } else if word == b"decide".as_slice() {
        Some(Verb::Decide)
    } else if word == b"resume".as_slice() {
        Some(Verb::Resume)
    } else if word == b"join".as_slice() {
        Some(Verb::Join)
    } else if word == b"check".as_slice() {
        Some(Verb::Check)
    } else if word == b"sample".as_slice() {
        Some(Verb::Sample)
    } else {
        None
    }
}
