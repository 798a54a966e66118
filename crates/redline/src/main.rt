//! The program: real files, standard output and standard error, and the words of the command line.
//!
//! All that it does is a call of `answer`, whose clauses say what goes out and which exit status comes when; hints follow the
//! lines that the call told. What they go by is remembered on the way: the lines, the first of the output, and something of the files
//! that were read.
//! The words are copied first; a word that isn't UTF-8 ends the program with its line.
#![tactic(auto)]

mod help;

use help::{HELP, PARTS, VERSION};
use redl_app::{Program, Texts, WordsError, answer, own_of};
use redl_hints::{Fetched, FirstBytes, tell_hints, tell_word_hint};
use redl_io::{FileShelf, Shelf, Sink, StdSink, Text};
use redl_skin::page_skin;
use redl_words::given_words;
use std::alloc::Global;
use std::process::ExitCode;

// What the program tells of itself.
const TEXTS: Texts<'static> = Texts {
    help: HELP,
    parts: &PARTS,
    version: VERSION,
};

fn main(rt: HostRuntime) -> ExitCode {
    let mut shelf = Fetched::new(rt.alloc(), FileShelf::new(&rt));
    let mut out = FirstBytes::new(rt.alloc(), StdSink::new(rt.stdout()));
    let mut err = FirstBytes::new(rt.alloc(), StdSink::new(rt.stderr()));
    let words = given_words(&rt);
    if let Ok(words) = &words {
        shelf.prepare(words);
    }
    let status = answer(
        rt.alloc(),
        &words,
        &Program {
            texts: TEXTS,
            skin: page_skin(),
        },
        &mut shelf,
        &mut out,
        &mut err,
    );
    tell_hint(rt.alloc(), &words, &shelf, &out, &mut err);
    ExitCode::from(status.code())
}

// Tells what probably went wrong.
fn tell_hint<F: Shelf, O: Sink, E: Sink>(
    alloc: Global,
    words: &Result<Vec<Text>, WordsError>,
    shelf: &Fetched<F>,
    out: &FirstBytes<O>,
    err: &mut FirstBytes<E>,
) {
    match words {
        // What was read last is remembered. Opened once more, a pipe would wait for a writer that is gone.
        Ok(words) if own_of(words).is_none() => tell_hints(
            alloc,
            words,
            HELP,
            shelf.remembered(),
            out,
            err,
        ),
        Err(WordsError::Usage) => tell_word_hint(err),
        _ => {}
    }
}
