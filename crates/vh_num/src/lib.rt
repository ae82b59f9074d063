//! Fixed-point numbers of the host: normalised values, samples, and the exact mix of several sources.
#![tactic(auto)]

pub mod laws;
mod refusal;
mod samples;
mod values;

pub use refusal::Refusal;
pub use samples::{clamp, mix_into, settle};
pub use values::{ONE, index, norm, quant};
