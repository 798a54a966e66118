//! Opens documents and decides their revisions while it shows them: how a program uses the editor.
//!
//! Standard input is blocks of lines with an empty line after each. The first line of a block is its title, `# ` and a rule in plain
//! words, and the second one the body of a document, `P: ` and its nodes. Each other line sets says: `accept 1`, `reject 2` or
//! `keep 1`, or several of these with `; ` between them, which are set as one list.
//!
//! What is printed of a block is its title, each leaf of the document with its number, and then each line that sets says with the
//! leaves that are others than before it, and the body as it is at the end. Where memory runs out while says are set, nothing is
//! changed: it prints `no memory` and the body, and sets them once more. The wanted output, in `stdout`, is written by hand from
//! docs/DEFINITIONS.md, and never taken from what the program printed.
//!
//! With two words, `undecided`, `at-once` or `one-by-one` and the name of a package, it accepts none of its revisions, all of them as
//! one list or each by itself, and writes the document. That is for measuring.
#![tactic(auto)]

mod blocks;
mod open;
mod setting;
mod whole;

use blocks::show_block;
use redl_io::StdSink;
use std::alloc::AllocError;
use std::{env, fs, io};
use whole::{Stopped, Way, write_whole};

fn main(rt: HostRuntime) -> io::Result<()> {
    let mut words = env::args(&rt)?;
    let _program = words.next();
    match (words.next(), words.next()) {
        (Some(way), Some(name)) => show_whole(&rt, way.as_str(), name.as_str()),
        _ => show_blocks(&rt),
    }
}
// Prints what each block on standard input comes to.
fn show_blocks(rt: &HostRuntime) -> io::Result<()> {
    let alloc = rt.alloc();
    let mut block = String::new(alloc);
    for line in rt.lines(alloc) {
        let line = line?;
        if line.is_empty() {
            print!(rt; "{}", show_block(alloc, block.as_str())?)?;
            block.clear();
        } else {
            add_line(&mut block, line.as_str())?;
        }
    }
    if !block.is_empty() {
        print!(rt; "{}", show_block(alloc, block.as_str())?)?;
    }
    Ok(())
}

// Writes the package of this name, decided in this way, on standard output.
fn show_whole(rt: &HostRuntime, way: &str, name: &str) -> io::Result<()> {
    let Some(way) = Way::named(way) else {
        return Err(io::Error::from(io::ErrorKind::InvalidInput));
    };
    let text = fs::read(rt, name)?;
    match write_whole(rt.alloc(), way, &text, &mut StdSink::new(rt.stdout())) {
        Ok(()) => Ok(()),
        Err(Stopped::NoMemory) => Err(io::Error::from(io::ErrorKind::OutOfMemory)),
        Err(Stopped::OutputFailed) => Err(io::Error::from(io::ErrorKind::Other)),
    }
}

fn add_line(block: &mut String, line: &str) -> Result<(), AllocError> {
    block.push_str(line)?;
    block.push('\n')
}
