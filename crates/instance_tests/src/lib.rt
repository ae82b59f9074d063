//! Tests of the instances of sessions, over the built-in classes and a class of one's own as one set.
#![tactic(auto)]

#[cfg(test)]
mod tests;
