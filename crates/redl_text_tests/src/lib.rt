//! Tests of the crates of bytes and texts: files and outputs, the pieces of XML, authors and dates, journals and their books.
//! They stand apart, so that no crate is proved a second time for its tests.
#![tactic(auto)]

#[cfg(test)]
mod io;
#[cfg(test)]
mod join;
#[cfg(test)]
mod journal;
#[cfg(test)]
mod markup;
#[cfg(test)]
mod stamp;
