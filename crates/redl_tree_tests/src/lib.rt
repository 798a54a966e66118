//! Tests of the crates of the tree: its nodes, reading and shaping a package, its rules, its revisions and their numbers, its texts.
//! They stand apart, so that no crate is proved a second time for its tests.
#![tactic(auto)]

#[cfg(test)]
mod documents;
#[cfg(test)]
mod folds;
#[cfg(test)]
mod index;
#[cfg(test)]
mod markers;
#[cfg(test)]
mod opc;
#[cfg(test)]
mod outline;
#[cfg(test)]
mod rules;
#[cfg(test)]
mod tree;
#[cfg(test)]
mod views;
#[cfg(test)]
mod xml;
