//! Tests of the sound that is rendered, and of the room for its pieces. A crate is proved anew with its tests, so they
//! stand here.
#![tactic(auto)]

#[cfg(test)]
mod sound;
