//! Tests of vh_files and vh_host: whole runs over stores in memory whose calls fail in turn, or give and take one byte at a
//! time. A crate is proved anew with its tests, so they stand here.
#![tactic(auto)]

#[cfg(test)]
mod checks;
#[cfg(test)]
mod faults;
#[cfg(test)]
mod files;
#[cfg(test)]
mod generated;
#[cfg(test)]
mod presets;
#[cfg(test)]
mod stores;
