//! Books: sets of entries, joined from journals in any order, and their verdicts.
//! `Book::add` adds one entry; `Book::verdict` says what the book decides on a revision.
//! Contracts see a book as the list of its entries in their order, each once, so equal sets give the same answers.
//! A book keeps that list in blocks (`blocks`, `entry_list`), and for each revision the words that count (`latest`,
//! `by_revision`), which name a reviewer by a number (`numbers`).
//! `redl_journal` reads and writes the entries.
//! Its tests are in `redl_text_tests`.
#![tactic(auto)]

mod blocks;
mod book;
mod by_revision;
mod entry_list;
mod last_words;
mod latest;
mod laws;
mod numbers;
mod verdict;

pub use book::Book;
pub use entry_list::Entries;
pub use last_words::LastWords;
pub use laws::{
    removal_undoes_addition, same_book, same_union, union_of_both, verdict_of_last_words,
};
pub use verdict::Verdict;
