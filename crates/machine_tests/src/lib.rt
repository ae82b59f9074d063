//! Tests of vh_core by content, over the built-in classes, and beside the engine.
#![tactic(auto)]

#[cfg(test)]
mod drawn;
#[cfg(test)]
mod memory;
#[cfg(test)]
mod play;
#[cfg(test)]
mod players;
#[cfg(test)]
mod random;
#[cfg(test)]
mod tests;
