//! The top call of a live rendering: a session is rendered while its editors work in threads of their own.
#![tactic(auto)]

mod counts;
mod done;
mod file;
mod frames;
mod live;
mod publish;
mod results;
mod sized;
mod top;
mod values;
mod wave;
mod words;

pub use top::run_live;
pub use vh_host::{Place, Status};
