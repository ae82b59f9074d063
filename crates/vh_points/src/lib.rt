//! Queues of parameter points, as the SDK's `IParameterChanges` and `IParamValueQueue` have them, in
//! memory that is taken once.
#![tactic(auto)]

pub mod laws;
mod points;

pub use points::Points;
