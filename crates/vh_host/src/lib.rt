//! The top calls of the host, and parts that serve other top calls too.
#![tactic(auto)]

mod blocks;
mod check;
mod generated;
mod input;
mod journal;
mod material;
mod opening;
mod preset_save;
mod preset_show;
mod render;
mod session;
mod top;
mod words;

pub use blocks::Blocks;
pub use input::{Input, read_input};
pub use opening::{Opening, open_session};
pub use render::modes;
pub use top::run;
pub use vh_answers::{Place, Status};
pub use words::read_block;
