//! Tests of vh_back: what a controller is told over a link, on one thread and beside the sender.
#![tactic(auto)]

#[cfg(test)]
mod beside;
#[cfg(test)]
mod listener;
#[cfg(test)]
mod told;
