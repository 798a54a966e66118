//! Tests of the crates that a call is made of: sessions and editors. Words, lines and samples are rows of `redl_rows`.
//! They stand apart, so that no crate is proved a second time for its tests.
#![tactic(auto)]

#[cfg(test)]
mod editor;
#[cfg(test)]
mod live_session;
#[cfg(test)]
mod session;
