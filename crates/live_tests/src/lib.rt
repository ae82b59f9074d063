//! Tests of vh_live_host: live renderings over stores in memory, whose editors and audio are held up by gates.
#![tactic(auto)]

#[cfg(test)]
mod faults;
#[cfg(test)]
mod gates;
#[cfg(test)]
mod memory;
#[cfg(test)]
mod rows;
#[cfg(test)]
mod runs;
#[cfg(test)]
mod waiting;
