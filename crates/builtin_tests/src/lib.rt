//! Tests of vh_builtin: blocks of each class beside a plain program that shares nothing with it.
#![tactic(auto)]

#[cfg(test)]
mod plain;
#[cfg(test)]
mod random;
#[cfg(test)]
mod sounds;
