//! Runs the calls of the rows on standard input, and prints what each of them comes to.
//!
//! A row is a block of lines with an empty line after it. Its first line is its title, `# ` and a rule in plain words.
//! The other lines are these, in any order; a block without `words` is a heading.
//!
//! - `words: write P --lock "Cy & Co" J`: the words of the command line, one of them in quotes; `P` is the package, and the
//!   other names but `Q` are journals
//! - `P: <w:p/>`: the body of the package, which is a document with this one part
//! - `text: ..`: the whole text of the package, in place of a body
//! - `J: 1 1 accept Ann; 2 1 withdraw Ann`: the entries of the journal `J`: sequence number, revision, word, reviewer
//! - `J ranked: 1 1 accept 2 Ann`: the same in version 2, with the rank before the reviewer
//! - `J text: ..`: the whole text of the journal `J`, in place of its entries
//! - `Q: <w:p/>`: the body of a second package, which the words call `Q`
//! - `K of Q: 1 1 accept Bob`, `K ranked of Q: 1 1 accept 2 Bob`: the entries of a journal of the second package
//! - `revisions: 2`: the number of revisions that the journals tell; without it they tell the right one
//! - `again: check P`: the words of a second call, for which what the first one wrote is the package
//!
//! Names in braces stand for longer texts, which `names.rt` lists: `{A}` for the attributes of a revision of Ann's.
//! What is printed also has `{digest}`, for the SHA-256 of the package.
//! What is printed of a row is its title, the status, what was written, and the lines on standard error, with the same
//! names, and only the body where all else is that of a document with one part. The wanted output, in `stdout`, is
//! written by hand from docs/DEFINITIONS.md and the standard, and never taken from what the program printed.
#![tactic(auto)]

mod calls;
mod names;
mod rows;

use rows::print_row;
use std::alloc::{AllocError, Global};
use std::io;

fn main(rt: HostRuntime) -> io::Result<()> {
    let alloc = rt.alloc();
    let mut row = String::new(alloc);
    for line in rt.lines(alloc) {
        let line = line?;
        if line.is_empty() {
            print!(rt; "{}", print_row(alloc, row.as_str())?)?;
            row.clear();
        } else {
            add_line(&mut row, line.as_str())?;
        }
    }
    if !row.is_empty() {
        print!(rt; "{}", print_row(alloc, row.as_str())?)?;
    }
    Ok(())
}

fn add_line(row: &mut String, line: &str) -> Result<(), AllocError> {
    row.push_str(line)?;
    row.push('\n')
}
