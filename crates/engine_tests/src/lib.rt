//! Tests of vh_engine by content, over the built-in classes. A crate is proved anew with its tests, so they stand here.
#![tactic(auto)]

#[cfg(test)]
mod tests;
