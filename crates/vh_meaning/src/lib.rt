//! What a rendering means, sample by sample.
//!
//! The definitions stand in `specs/`, in the order in which `specs/Lib.antt` lists them; `docs/definitions.md`
//! leads through them. This crate has no code but the laws on them.
#![tactic(auto)]

pub mod laws;
