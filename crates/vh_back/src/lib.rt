//! The return ring: what the audio side tells those who edit.
//!
//! A [`Sender`] stands beside the audio, a [`Follower`] beside the controllers, each in a thread of its own. Over a
//! ring of fixed room go echoes, by which the controllers follow the processors' values, and replies to messages. No
//! side waits for the other. What finds no room stays with the sender: of each parameter the latest echo, and every
//! reply. [`settle`] brings what is left once both ends are in one thread again.
#![tactic(auto)]

mod changes;
mod follower;
mod item;
pub mod laws;
mod ring;
mod sender;
mod told;

pub use follower::{Follower, settle};
pub use item::{Item, Parameter};
pub use ring::link;
pub use sender::Sender;
