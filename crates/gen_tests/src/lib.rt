//! Tests of vh_gen by content, over the built-in classes.
#![tactic(auto)]

#[cfg(test)]
mod tests;
