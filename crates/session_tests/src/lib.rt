//! Tests of vh_text, vh_graph, vh_cut and vh_session. A crate is proved anew with its tests, so theirs stand here.
#![tactic(auto)]

#[cfg(test)]
mod cut;
#[cfg(test)]
mod graph;
#[cfg(test)]
mod session;
#[cfg(test)]
mod text;
