//! Tests of the crates below sessions, in one crate: a crate that has tests is proved a second time with them.
#![tactic(auto)]

#[cfg(test)]
mod ids;
#[cfg(test)]
mod num;
#[cfg(test)]
mod params;
#[cfg(test)]
mod points;
