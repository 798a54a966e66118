//! Tests of the crates of the pass, and of what a pass leaves of a revision.
//! They stand apart, so that no crate is proved a second time for its tests.
#![tactic(auto)]

#[cfg(test)]
mod documents;
#[cfg(test)]
mod paras;
#[cfg(test)]
mod props;
#[cfg(test)]
mod resolve;
#[cfg(test)]
mod sittings;
#[cfg(test)]
mod tables;
