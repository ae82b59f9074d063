//! Tests of the link between two WAV files. A crate is proved anew with its tests, so they stand here.
#![tactic(auto)]

#[cfg(test)]
mod link;
#[cfg(test)]
mod pieces;
