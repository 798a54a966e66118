//! Tests of redl_app, which use its public calls alone.
#![tactic(auto)]

#[cfg(test)]
mod count_format;
#[cfg(test)]
mod tests;
