//! Tests of vh_journal_text, vh_gesture and vh_legal. A crate is proved anew with its tests, so theirs stand here.
#![tactic(auto)]

#[cfg(test)]
mod gesture;
#[cfg(test)]
mod legal;
#[cfg(test)]
mod nodes;
#[cfg(test)]
mod text;
